// What a settlement works on once its event, its day and its selected days are known.
ghost use Rattle.std.specs.Prelude.{◌<◌, ◌≤◌, length};
ghost use Rattle.choice.specs.Choice.{days_of};

use calendar::{Resolution, Stretch};
use choice::Selected;

// What is settled: a day, its selected days, and the stretches of a day that are the adjustment window and the event.
#[derive(Clone, Copy)]
pub(crate) struct Plan {
    pub(crate) resolution: Resolution,
    pub(crate) day: u16,
    pub(crate) selected: Selected,
    pub(crate) window: Stretch,
    pub(crate) event: Stretch,
    ghost within: { (event.first < 288) × (event.count ≤ 288) },
    ghost some_days: { 0 < length (days_of selected) },
    ghost some_width: { 0 < window.count },
}
