// What a sparse store does: every call finds its record by the register's binary search.
ghost use Rattle.std.specs.Prelude.{◌≡◌, ◌&&◌, cond, length, None, Some, nat_lt};
ghost use Rattle.std.specs.Result.{result_err};
ghost use Rattle.store.specs.Meaning.{Empty};
ghost use Rattle.store.specs.declared.StoreFault.TheVariants.{Beyond};
ghost use Rattle.sparse.specs.Places.{sparse_fault, made_span};
ghost use Rattle.sparse.specs.Meanings.{sparse_meaning, sparse_sound};

use crate::{PlacedReading, Sparse};
use refusal::MakeFault;
use register::Register;
use store::{MOST_ENERGY, MOST_SPAN, Reading, Store, StoreFault};

impl<'a> Sparse<'a> {
    // Whether a sparse store of `span` places may be made; a list of any length will do.
    pub fn check(span: u32) -> Result<(), MakeFault>
        ensures { result_err result ≡ sparse_fault span }
    {
        if span <= MOST_SPAN {
            Ok(())
        } else {
            Err(MakeFault::Limits)
        }
    }

    // The store with no reading, every slot free. Where `check` finds a fault it has no place.
    pub fn new(span: u32, slots: &'a mut [PlacedReading]) -> Sparse<'a>
        ensures empty { Empty 1 (made_span span) (length slots.old) (sparse_meaning result) }
        ensures untouched { result.readings.slots.now ≡ slots.old }
    {
        let readings = Register::new(slots);
        match Self::check(span) {
            Ok(()) => Sparse { readings, span },
            Err(_) => Sparse { readings, span: 0 },
        }
    }

    // Declined by Beyond where the store has no such place.
    fn try_place(&self, point: u32, place: u32) -> Result<(), StoreFault>
        ensures { result_err result ≡ cond (nat_lt point 1 && nat_lt place self.now.span) None (Some Beyond) }
    {
        if point < 1 && place < self.span {
            Ok(())
        } else {
            Err(StoreFault::Beyond)
        }
    }
}

impl<'a> Store for Sparse<'a> {
    ghost meaning = { sparse_meaning };

    ghost sound = { sparse_sound };

    fn points(&self) -> u32 {
        1
    }

    fn span(&self) -> u32 {
        self.span
    }

    fn free(&self, point: u32) -> usize {
        if point < 1 { self.readings.free() } else { 0 }
    }

    fn read(&self, point: u32, place: u32) -> Option<Reading> {
        self.try_place(point, place).ok()?;
        self.readings.find(place).map(|record| Reading {
            energy: record.energy,
        })
    }

    fn enter(&mut self, point: u32, place: u32, reading: Reading) -> Result<(), StoreFault> {
        self.try_place(point, place)?;
        if reading.energy > MOST_ENERGY {
            return Err(StoreFault::TooLarge);
        }
        let record = PlacedReading {
            place,
            energy: reading.energy,
        };
        if self.readings.replace(record).is_ok() {
            return Ok(());
        }
        self.readings.insert(record).map_err(|_| StoreFault::Full)
    }

    fn void(&mut self, point: u32, place: u32) -> Result<(), StoreFault> {
        self.try_place(point, place)?;
        self.readings
            .remove(place)
            .map_err(|_| StoreFault::Nothing)?;
        Ok(())
    }
}
