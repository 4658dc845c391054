// A meter store of 1 to 16 points over two lent lists: a reading and a presence bit for each cell.
#![tactic(auto)]

ghost use Rattle.std.specs.Prelude.{◌≡◌, ◌*◌, ◌<◌, ◌≤◌, length, Some, IfSome};
ghost use Rattle.std.specs.Result.{result_err};
ghost use Rattle.refusal.specs.declared.MakeFault.TheVariants.{Limits};
ghost use Rattle.store.specs.Meaning.{Empty, Entered, Voided};
ghost use Rattle.table.specs.Presence.{bit, Cleared};
ghost use Rattle.table.specs.Grid.{table_fits, table_fault, made_points, made_span, cell_of, Kept, SameLengths, Small};

use refusal::MakeFault;
use store::{MOST_ENERGY, MOST_SPAN, Reading, Store, StoreFault};

mod presence;

// The most points of a table.
pub const MOST_POINTS: u32 = 16;

// The cell of a place is point * span + place; its bit lies in the map with no gap between the points.
// Readings and bits are two lists, since a caller lends both, and bits take an eighth of a byte each.
#[derive(Drop)]
pub struct Table<'r, 'p> {
    readings: &'r mut [u16],
    present: &'p mut [u8],
    points: u32,
    span: u32,
    ghost limits: { (1 ≤ points) × (points ≤ 16) × (span ≤ 1179648) },
    ghost room: { (points * span ≤ length readings.now) × (points * span ≤ 8 * length present.now) },
    ghost small: { Small (points * span) readings.now present.now },
}

impl<'r, 'p> Table<'r, 'p> {
    ghost use Rattle.table.specs.Meanings.{table_meaning};

    // Whether a table of `points` points and `span` places may be made over these lists.
    pub fn check(points: u32, span: u32, readings: &[u16], present: &[u8]) -> Result<(), MakeFault>
        ensures { result_err result ≡ table_fault points span (length readings.now) (length present.now) }
    {
        let cells = points as usize * span as usize;
        if (1..=MOST_POINTS).contains(&points)
            && span <= MOST_SPAN
            && cells <= readings.len()
            && cells.div_ceil(8) <= present.len()
        {
            Ok(())
        } else {
            Err(MakeFault::Limits)
        }
    }

    // The table with no reading: the bits of its cells are cleared, and no other. Where `check` finds a fault it has
    // one point with no place, and nothing is written.
    pub fn new(
        readings: &'r mut [u16],
        present: &'p mut [u8],
        points: u32,
        span: u32,
    ) -> Table<'r, 'p>
        ensures empty { let fault = table_fault points span (length readings.old) (length present.old) in Empty (made_points fault points) (made_span fault span) (made_span fault span) (table_meaning result) }
        ensures untouched { result.readings.now ≡ readings.old }
        ensures cleared { Cleared (result.points * result.span) present.old result.present.now }
        ensures long { length result.present.now ≡ length present.old }
        ensures unchanged { table_fault points span (length readings.old) (length present.old) ≡ Some Limits → result.present.now ≡ present.old }
    {
        let Ok(()) = Self::check(points, span, readings, present) else {
            return Table {
                readings,
                present,
                points: 1,
                span: 0,
            };
        };
        presence::clear_below(present, points as usize * span as usize);
        Table {
            readings,
            present,
            points,
            span,
        }
    }

    // The cell of a place, or none beyond.
    fn cell(&self, point: u32, place: u32) -> Option<usize>
        ensures cell { result ≡ cell_of self.now.points self.now.span point place }
        ensures within { IfSome result (λ cell. cell < self.now.points * self.now.span) }
    {
        if point < self.points && place < self.span {
            Some(point as usize * self.span as usize + place as usize)
        } else {
            None
        }
    }

    // Whether a reading stands in a cell of the table.
    fn is_present(&self, cell: usize) -> bool
        requires { cell < self.now.points * self.now.span }
        ensures { result ≡ bit self.now.present.now cell }
    {
        (self.present[cell / 8] >> (cell % 8)) & 1 == 1
    }
}

impl<'r, 'p> Store for Table<'r, 'p> {
    ghost use Rattle.table.specs.Meanings.{table_meaning, table_sound};

    ghost meaning = { table_meaning };

    ghost sound = { table_sound };

    fn points(&self) -> u32 {
        self.points
    }

    fn span(&self) -> u32 {
        self.span
    }

    fn free(&self, point: u32) -> usize {
        if point >= self.points {
            return 0;
        }
        let span = self.span as usize;
        let first = point as usize * span;
        span - presence::ones_between(self.present, first, first + span)
    }

    fn read(&self, point: u32, place: u32) -> Option<Reading> {
        let cell = self.cell(point, place)?;
        self.is_present(cell).then_some(Reading {
            energy: self.readings[cell],
        })
    }

    fn enter(&mut self, point: u32, place: u32, reading: Reading) -> Result<(), StoreFault>
        ensures entered { Entered (table_meaning self.old) (table_meaning self.new) point place reading result }
        ensures kept { Kept (self.old.points * self.old.span) self.old.readings.now self.old.present.now self.new.readings.now self.new.present.now }
        ensures long { SameLengths self.old.readings.now self.old.present.now self.new.readings.now self.new.present.now }
    {
        let cell = self.cell(point, place).ok_or(StoreFault::Beyond)?;
        if reading.energy > MOST_ENERGY {
            return Err(StoreFault::TooLarge);
        }
        self.readings[cell] = reading.energy;
        self.present[cell / 8] |= 1 << (cell % 8);
        Ok(())
    }

    fn void(&mut self, point: u32, place: u32) -> Result<(), StoreFault>
        ensures voided { Voided (table_meaning self.old) (table_meaning self.new) point place result }
        ensures kept { Kept (self.old.points * self.old.span) self.old.readings.now self.old.present.now self.new.readings.now self.new.present.now }
        ensures long { SameLengths self.old.readings.now self.old.present.now self.new.readings.now self.new.present.now }
        ensures untouched { self.new.readings.now ≡ self.old.readings.now }
    {
        let cell = self.cell(point, place).ok_or(StoreFault::Beyond)?;
        if !self.is_present(cell) {
            return Err(StoreFault::Nothing);
        }
        self.present[cell / 8] ^= 1 << (cell % 8);
        Ok(())
    }
}
