// The days that a load is tested on in an assessment. Marks and methodology stay apart, as in `selection`.
ghost use Rattle.std.specs.Prelude.{◌≡◌};
ghost use Rattle.marks.specs.Marked.{marking};
ghost use Rattle.choice.specs.Choice.{testing_day, test_days, test_days_of};

use crate::selection::is_set_aside;
use crate::{Days, TestDays};
use marks::Marks;
use method::methodology::Methodology;

// Whether a load can be tested on a day: it is served, has no event and is not excluded.
fn is_testing_day<M: Methodology>(marks: &Marks, method: &M, day: u16) -> bool
    ensures { result ≡ testing_day (M.meaning method.now) (marking marks.now) day }
{
    method.serves(marks.kind_of_day(day)) && !is_set_aside(marks, day)
}

// The latest days before `day` that a load can be tested on, as many as the methodology tests.
pub fn test_days<M: Methodology>(marks: &Marks, method: &M, day: u16) -> TestDays
    ensures { test_days_of result ≡ test_days (M.meaning method.now) (marking marks.now) day }
{
    let wanted = usize::from(method.test_days());
    Days::of(
        (0..day)
            .rev()
            .filter(|past| is_testing_day(marks, method, *past))
            .take(wanted),
    )
}
