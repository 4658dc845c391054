// The methodologies whose baseline is the average day's, moved with the event's day by at most a fifth.
ghost use Rattle.std.specs.Prelude.{◌≡◌, ◌/◌};
ghost use Rattle.method.specs.Baseline.{top, under};
ghost use Rattle.method.specs.Methods.{capped_rules};
ghost use Rattle.method.specs.Lawful.{capped_lawful};

use crate::energies::Energies;
use crate::methodology::Methodology;
use crate::settings::{SETTINGS, Settings};

// In the order of the table of settings, which a case indexes.
#[derive(Clone, Copy)]
pub enum Capped {
    AllDays,
    BusinessDays,
    NonBusinessDays,
    Composite,
}

// The capped baseline, rounded down.
fn capped_floor(e: &Energies) -> u64
    ensures { result ≡ top e.now.v e.now.w e.now.a e.now.n / under e.now.w e.now.a e.now.n }
{
    let n = u64::from(e.n);
    let ratio = 5 * n * e.a;
    if e.w == 0 {
        return e.v / n;
    }
    if ratio < 4 * e.w {
        return 4 * e.v / (5 * n);
    }
    if ratio > 6 * e.w {
        return 6 * e.v / (5 * n);
    }
    e.v * e.a / e.w
}

impl Methodology for Capped {
    ghost meaning = { capped_rules };

    ghost lawful = { capped_lawful };

    fn settings(&self) -> Settings {
        SETTINGS[*self as usize]
    }

    fn baseline(&self, e: &Energies) -> i32 {
        capped_floor(e) as i32
    }
}
