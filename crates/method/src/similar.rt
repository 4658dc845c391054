// The methodology whose baseline is the average day's, with what the event's day has above it added.
ghost use Rattle.std.specs.Prelude.{◌≡◌, pos, ◌<ℤ◌};
ghost use Rattle.std.specs.Int.{int_div_euclid};
ghost use Rattle.method.specs.Methods.{similar_rules};
ghost use Rattle.method.specs.Lawful.{similar_lawful};

use crate::energies::Energies;
use crate::methodology::Methodology;
use crate::settings::{SETTINGS, Settings};

#[derive(Clone, Copy)]
pub struct SimilarDays;

// The sum over a number above 0, rounded down also below zero.
fn rounded_down(sum: i64, over: i64) -> i64
    requires { pos 0 <ℤ over }
    ensures { result ≡ int_div_euclid sum over }
{
    sum.div_euclid(over)
}

impl Methodology for SimilarDays {
    ghost meaning = { similar_rules };

    ghost lawful = { similar_lawful };

    fn settings(&self) -> Settings {
        SETTINGS[4]
    }

    fn baseline(&self, e: &Energies) -> i32 {
        let n = u64::from(e.n);
        let m = u64::from(e.m);
        let sum = (m * e.v + n * e.a) as i64 - e.w as i64;
        rounded_down(sum, (n * m) as i64) as i32
    }
}
