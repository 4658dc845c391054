// The days selected for a day.
// The marks and the methodology stay two parameters: callers lend them apart, and a struct of both would live for a call.
ghost use Rattle.std.specs.Prelude.{◌≡◌, ℕ, Bool};
ghost use Rattle.marks.specs.Marked.{marking};
ghost use Rattle.choice.specs.Choice.{set_aside, drawn_by, selected_days, assessed_days, days_of};

use crate::{Days, Selected};
use marks::{MarkKind, Marks};
use method::methodology::Methodology;

// How many matching days are looked at.
const LOOKED_AT: usize = 50;

// Whether a day has an event or is excluded.
pub(crate) fn is_set_aside(marks: &Marks, day: u16) -> bool
    ensures { result ≡ set_aside (marking marks.now) day }
{
    marks.is_event_day(day) || marks.is_marked(MarkKind::Exclusion, day)
}

// Of the latest 50 days before `day` that match, the latest that are not passed over, as many as the methodology wants
// for such a day.
fn draw<M: Methodology, P: Fn(u16) -> bool>(
    marks: &Marks,
    method: &M,
    day: u16,
    passed: P,
) -> Selected
    requires { P.IsAlwaysCallable passed }
    ensures { (e : ℕ → Bool) → ((x : ℕ) (b : Bool) → P.post passed x b → b ≡ e x)
        → days_of result ≡ drawn_by e (M.meaning method.now) (marking marks.now) day }
{
    let kind = marks.kind_of_day(day);
    let wanted = usize::from(method.wanted(kind));
    Days::of(
        (0..day)
            .rev()
            .filter(|past| method.matches(kind, marks.kind_of_day(*past)))
            .take(LOOKED_AT)
            .filter(|past| !passed(*past))
            .take(wanted),
    )
}

// The days selected for a day: event days are not selected.
pub fn select<M: Methodology>(marks: &Marks, method: &M, day: u16) -> Selected
    ensures { days_of result ≡ selected_days (M.meaning method.now) (marking marks.now) day }
{
    draw(marks, method, day, |past| marks.is_event_day(past))
}

// The days selected for a day in an assessment: neither event days nor exclusions are selected.
pub fn select_assessed<M: Methodology>(marks: &Marks, method: &M, day: u16) -> Selected
    ensures { days_of result ≡ assessed_days (M.meaning method.now) (marking marks.now) day }
{
    draw(marks, method, day, |past| is_set_aside(marks, past))
}
