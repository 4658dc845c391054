// What a book answers and does: its marks.
ghost use Rattle.std.specs.Prelude.{◌≡◌, length};
ghost use Rattle.std.specs.Result.{result_err};
ghost use Rattle.marks.specs.Marked.{marks_fault, marking, newly, kind_in, DayMarked, DayLifted, EventMarked, EventLifted};
ghost use Rattle.marks.specs.Marked.{days_marked, SameButDays, SameButEvents};
ghost use Rattle.settlement.specs.Books.{book_marking};

use crate::Book;
use calendar::{DayKind, Resolution};
use marks::{DayMark, Event, MarkFault, MarkKind, Marks};
use refusal::MakeFault;

impl<'a> Book<'a> {
    // Whether a book may have so many intervals a day and so many days.
    pub fn check(intervals: u32, days: u32) -> Result<(), MakeFault>
        ensures { result_err result ≡ marks_fault intervals days }
    {
        Marks::check(intervals, days)
    }

    // A new book over three lent lists, as in `Marks::new`; where the check refuses, 48 intervals, 1 day and no slots.
    pub fn new(
        intervals: u32,
        days: u32,
        holidays: &'a mut [DayMark],
        exclusions: &'a mut [DayMark],
        events: &'a mut [Event],
    ) -> Book<'a>
        ensures { book_marking result ≡ newly intervals days (length holidays.old) (length exclusions.old) (length events.old) }
    {
        Book {
            marks: Marks::new(intervals, days, holidays, exclusions, events),
        }
    }

    // Its marks.
    pub fn marks(&self) -> &Marks<'a>
        ensures { result.now ≡ self.now.marks }
    {
        &self.marks
    }

    pub fn resolution(&self) -> Resolution
        ensures { result ≡ (book_marking self.now).resolution }
    {
        self.marks.resolution()
    }

    pub fn days(&self) -> u16
        ensures { result ≡ (book_marking self.now).days }
    {
        self.marks.days()
    }

    // A day is non-business at a weekend or where it is marked a holiday, else business.
    pub fn kind_of_day(&self, day: u16) -> DayKind
        ensures { result ≡ kind_in (book_marking self.now) day }
    {
        self.marks.kind_of_day(day)
    }

    pub fn mark_day(&mut self, kind: MarkKind, day: u16) -> Result<(), MarkFault>
        ensures done { DayMarked (book_marking self.old).days (days_marked kind (book_marking self.old)) (days_marked kind (book_marking self.new)) day result }
        ensures same { SameButDays kind (book_marking self.old) (book_marking self.new) }
    {
        self.marks.mark_day(kind, day)
    }

    pub fn mark_event(&mut self, first: u32, count: u32) -> Result<(), MarkFault>
        ensures done { EventMarked (book_marking self.old) (book_marking self.new) first count result }
        ensures same { SameButEvents (book_marking self.old) (book_marking self.new) }
    {
        self.marks.mark_event(first, count)
    }

    pub fn lift_day(&mut self, kind: MarkKind, day: u16) -> Result<(), MarkFault>
        ensures done { DayLifted (days_marked kind (book_marking self.old)) (days_marked kind (book_marking self.new)) day result }
        ensures same { SameButDays kind (book_marking self.old) (book_marking self.new) }
    {
        self.marks.lift_day(kind, day)
    }

    pub fn lift_event(&mut self, first: u32) -> Result<(), MarkFault>
        ensures done { EventLifted (book_marking self.old) (book_marking self.new) first result }
        ensures same { SameButEvents (book_marking self.old) (book_marking self.new) }
    {
        self.marks.lift_event(first)
    }
}
