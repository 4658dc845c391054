// What a unit used: at a place, over a stretch of intervals of a day, and over that stretch on each of some days.
// Where a reading is missing it counts as 0; a settlement tries every source before it adds any.
ghost use Rattle.std.specs.Prelude.{◌≡◌, ◌+◌, ◌*◌, ◌≤◌, true, false, length, sum_by, MatchOption};
ghost use Rattle.calendar.specs.Days.{intervals_of};
ghost use Rattle.choice.specs.Choice.{days_of};
ghost use Rattle.metering.specs.Energy.{energy_at, energy_of, unit_fits, unit_meters, places};
ghost use Rattle.metering.specs.Meters.{meters};

use crate::{Metered, Unit};
use calendar::{Resolution, Stretch};
use choice::Selected;
use store::{Reading, Store};

// The most points of a unit, which is no table.
const MOST_POINTS: u32 = 16;

impl Unit {
    // The unit of `count` points from `first` on, where the store has them and they are 1 to 16.
    pub fn of<S: Store>(store: &S, first: u32, count: u32) -> Option<Unit>
        ensures { MatchOption result (unit_fits (S.Store.meaning store.now).points first count ≡ false) (λ u. (unit_fits (S.Store.meaning store.now).points first count ≡ true) × (u.first ≡ first) × (u.count ≡ count)) }
    {
        let points = store.points();
        if count < 1 || count > MOST_POINTS || first > points || count > points - first {
            return None;
        }
        Some(Unit { first, count })
    }

    // Its first point.
    pub fn first(self) -> u32
        ensures { result ≡ self.first }
    {
        self.first
    }

    // How many points it has.
    pub fn count(self) -> u32
        ensures { result ≡ self.count }
    {
        self.count
    }
}

impl<'s, S: Store> Metered<'s, S> {
    // The meters of a unit in a store.
    pub fn new(store: &'s S, unit: Unit) -> Metered<'s, S>
        ensures { meters S.Store.meaning result ≡ unit_meters (S.Store.meaning store.now).at unit.first unit.count }
    {
        Metered { store, unit }
    }

    // The unit's energy at a place: the sum over its points.
    pub fn energy(&self, place: u32) -> u64
        ensures is { result ≡ energy_at (meters S.Store.meaning self.now) place }
        ensures most { result ≤ 1048560 }
    {
        let unit = self.unit;
        let mut sum = 0;
        for point in unit.first..unit.first + unit.count {
            let reading = self.store.read(point, place);
            sum += energy_of(reading);
        }
        sum
    }

    // The unit's energy over a stretch of a day. The three arguments stay apart, as a struct of them would be made anew
    // for each day.
    pub fn energy_over(&self, resolution: Resolution, day: u16, stretch: Stretch) -> u64
        ensures is { result ≡ sum_by (energy_at (meters S.Store.meaning self.now)) (places (intervals_of resolution) day stretch.first stretch.count) }
        ensures most { result ≤ 1048560 * 65535 }
    {
        let start = resolution.place_of(day, stretch.first);
        let mut sum = 0;
        for place in start..start + u32::from(stretch.count) {
            sum += self.energy(place);
        }
        sum
    }

    // The unit's energy over the same stretch of each selected day.
    pub fn energy_on_days(
        &self,
        resolution: Resolution,
        selected: &Selected,
        stretch: Stretch,
    ) -> u64
        ensures { result ≡ sum_by (λ d. sum_by (energy_at (meters S.Store.meaning self.now)) (places (intervals_of resolution) d stretch.first stretch.count)) (days_of selected.now) }
    {
        selected
            .days()
            .iter()
            .map(|day| self.energy_over(resolution, *day, stretch))
            .sum()
    }
}

// The energy of a reading, 0 where there is none.
fn energy_of(reading: Option<Reading>) -> u64
    ensures is { result ≡ energy_of reading }
    ensures most { result ≤ 65535 }
{
    reading.map_or(0, |reading| u64::from(reading.energy))
}
