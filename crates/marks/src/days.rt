// Making the marks of a book, its days, and the days that are marked.
ghost use Rattle.std.specs.Prelude.{◌≡◌, length, Some, None, MatchResult};
ghost use Rattle.calendar.specs.Days.{resolution_of};
ghost use Rattle.std.specs.Result.{result_err};
ghost use Rattle.register.specs.Held.{held};
ghost use Rattle.marks.specs.Marked.{marking, newly, marks_fault, days_in, kind_in, marked_in};
ghost use Rattle.marks.specs.Marked.{DayMarked, DayLifted, SameButDays, days_marked};

use crate::{DayMark, Event, MarkFault, MarkKind, Marks};
use calendar::{DayKind, Resolution};
use refusal::MakeFault;
use register::Register;

const MOST_DAYS: u32 = 4096;

// How the days of a book are cut, and how many it has, where it may have so many intervals a day and so many days.
fn measures(intervals: u32, days: u32) -> Result<(Resolution, u16), MakeFault>
    ensures { MatchResult result (λ m. (marks_fault intervals days ≡ None) × (resolution_of intervals ≡ Some m.0) × (m.1 ≡ days)) (λ e. marks_fault intervals days ≡ Some e) }
{
    let resolution = Resolution::try_from(intervals)?;
    if days < 1 || days > MOST_DAYS {
        return Err(MakeFault::Limits);
    }
    Ok((resolution, days as u16))
}

// Marks a day, where the book has it.
fn mark_in(register: &mut Register<DayMark>, days: u16, day: u16) -> Result<(), MarkFault>
    ensures { DayMarked days (days_in register.old) (days_in register.new) day result }
{
    if day >= days {
        return Err(MarkFault::DayBeyond);
    }
    register.insert(DayMark { day })?;
    Ok(())
}

// Lifts the mark of a day.
fn lift_in(register: &mut Register<DayMark>, day: u16) -> Result<(), MarkFault>
    ensures { DayLifted (days_in register.old) (days_in register.new) day result }
{
    register.remove(u32::from(day))?;
    Ok(())
}

impl<'a> Marks<'a> {
    // Whether a book may have so many intervals a day and so many days.
    pub fn check(intervals: u32, days: u32) -> Result<(), MakeFault>
        ensures { result_err result ≡ marks_fault intervals days }
    {
        measures(intervals, days)?;
        Ok(())
    }

    // New marks over three lent lists; where the check refuses, 48 intervals, 1 day and no slots. The lists are no struct:
    // callers have just made them, each of its own length.
    pub fn new(
        intervals: u32,
        days: u32,
        holidays: &'a mut [DayMark],
        exclusions: &'a mut [DayMark],
        events: &'a mut [Event],
    ) -> Marks<'a>
        ensures is { marking result ≡ newly intervals days (length holidays.old) (length exclusions.old) (length events.old) }
    {
        let Ok((resolution, days)) = measures(intervals, days) else {
            return Marks {
                resolution: Resolution::HalfHours,
                days: 1,
                holidays: Register::new(&mut holidays[0..0]),
                exclusions: Register::new(&mut exclusions[0..0]),
                events: Register::new(&mut events[0..0]),
            };
        };
        Marks {
            resolution,
            days,
            holidays: Register::new(holidays),
            exclusions: Register::new(exclusions),
            events: Register::new(events),
        }
    }

    // How a day of the book is cut into intervals.
    pub fn resolution(&self) -> Resolution
        ensures { result ≡ (marking self.now).resolution }
    {
        self.resolution
    }

    // How many days the book has.
    pub fn days(&self) -> u16
        ensures { result ≡ (marking self.now).days }
    {
        self.days
    }

    // The days that are marked so.
    fn register(&self, kind: MarkKind) -> &Register<'a, DayMark>
        ensures { held result.now ≡ marked_in kind self.now }
    {
        match kind {
            MarkKind::Holiday => &self.holidays,
            MarkKind::Exclusion => &self.exclusions,
        }
    }

    // How many days are marked so.
    pub fn day_count(&self, kind: MarkKind) -> usize
        ensures { result ≡ length (marked_in kind self.now) }
    {
        self.register(kind).len()
    }

    // Whether the day is marked so.
    pub fn is_marked(&self, kind: MarkKind, day: u16) -> bool
        ensures { result ≡ (days_marked kind (marking self.now)).has day }
    {
        self.register(kind).find(u32::from(day)).is_some()
    }

    // A day is non-business at a weekend or where it is marked a holiday, else business.
    pub fn kind_of_day(&self, day: u16) -> DayKind
        ensures { result ≡ kind_in (marking self.now) day }
    {
        calendar::kind_on(u32::from(day), self.is_marked(MarkKind::Holiday, day))
    }

    // Marks a day of the book so. A `match` of its own, as in `lift_day`: a call that lends either register to be changed was
    // tried, and the prover has no rule for one, since marks have invariants.
    pub fn mark_day(&mut self, kind: MarkKind, day: u16) -> Result<(), MarkFault>
        ensures done { DayMarked (marking self.old).days (days_marked kind (marking self.old)) (days_marked kind (marking self.new)) day result }
        ensures rest { SameButDays kind (marking self.old) (marking self.new) }
    {
        match kind {
            MarkKind::Holiday => mark_in(&mut self.holidays, self.days, day),
            MarkKind::Exclusion => mark_in(&mut self.exclusions, self.days, day),
        }
    }

    // The day is marked so no more.
    pub fn lift_day(&mut self, kind: MarkKind, day: u16) -> Result<(), MarkFault>
        ensures done { DayLifted (days_marked kind (marking self.old)) (days_marked kind (marking self.new)) day result }
        ensures rest { SameButDays kind (marking self.old) (marking self.new) }
    {
        match kind {
            MarkKind::Holiday => lift_in(&mut self.holidays, day),
            MarkKind::Exclusion => lift_in(&mut self.exclusions, day),
        }
    }
}
