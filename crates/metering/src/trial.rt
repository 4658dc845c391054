// The trial of sources: the first point that has no reading, or the first place with too much energy.
ghost use Rattle.std.specs.Prelude.{◌≡◌};
ghost use Rattle.calendar.specs.Days.{intervals_of};
ghost use Rattle.metering.specs.Sums.{first_in};
ghost use Rattle.metering.specs.Energy.{missing_at, trouble_at, places};
ghost use Rattle.metering.specs.Meters.{meters};
ghost use Rattle.metering.specs.Trial.{Tried};

use crate::{Metered, SourceFault};
use calendar::{Resolution, Stretch};
use store::{MOST_ENERGY, Store};

impl<'s, S: Store> Metered<'s, S> {
    // Every point of the unit has a reading at the place.
    fn try_points(&self, place: u32) -> Result<(), SourceFault>
        ensures { Tried result (missing_at (meters S.Store.meaning self.now) place) }
    {
        let unit = self.unit;
        for point in unit.first..unit.first + unit.count {
            self.store
                .read(point, place)
                .ok_or(SourceFault::Missing { point, place })?;
        }
        Ok(())
    }

    // One place: a missing reading comes before too much energy.
    fn try_place(&self, place: u32) -> Result<(), SourceFault>
        ensures { Tried result (trouble_at (meters S.Store.meaning self.now) place) }
    {
        self.try_points(place)?;
        if self.energy(place) > u64::from(MOST_ENERGY) {
            return Err(SourceFault::AboveLimit { place });
        }
        Ok(())
    }

    // A stretch of a day, its intervals rising.
    pub fn try_stretch(
        &self,
        resolution: Resolution,
        day: u16,
        stretch: Stretch,
    ) -> Result<(), SourceFault>
        ensures { Tried result (first_in (trouble_at (meters S.Store.meaning self.now)) (places (intervals_of resolution) day stretch.first stretch.count)) }
    {
        let start = resolution.place_of(day, stretch.first);
        for place in start..start + u32::from(stretch.count) {
            self.try_place(place)?;
        }
        Ok(())
    }
}
