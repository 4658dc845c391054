// The store and the book that a header asks for, over lent lists.
ghost use Rattle.std.specs.Prelude.{◌≡◌, length};
ghost use Rattle.settlement.specs.Books.{book_marking};
ghost use Rattle.clerk.specs.Makings.{StoreMade, new_book};

use crate::header::Header;
use marks::{DayMark, Event};
use settlement::Book;
use table::Table;

impl Header {
    // The table with no reading, of the header's points and with a place for each interval of its days.
    pub fn store<'r, 'p>(&self, readings: &'r mut [u16], present: &'p mut [u8]) -> Table<'r, 'p>
        ensures { StoreMade self.now readings.old present.old result }
    {
        Table::new(readings, present, self.points, self.span())
    }

    // The book with no mark, of the header's days, over three lists as in `Book::new`.
    pub fn book<'a>(
        &self,
        holidays: &'a mut [DayMark],
        exclusions: &'a mut [DayMark],
        events: &'a mut [Event],
    ) -> Book<'a>
        ensures { book_marking result ≡ new_book self.now (length holidays.old) (length exclusions.old) (length events.old) }
    {
        Book::new(self.intervals, self.days, holidays, exclusions, events)
    }
}
