// The events of a book: marking and lifting them, and the event whose adjustment window serves another.
ghost use Rattle.std.specs.Prelude.{◌≡◌, ℕ, ◌+◌, ◌<◌, ◌≤◌, [], ◌∷◌, length, is_some, if◌then◌else◌, Some, None, slice_index_or};
ghost use Rattle.std.specs.List.{slice_get};
ghost use Rattle.register.specs.Order.{seek};
ghost use Rattle.calendar.specs.declared.Resolution.TheVariants.{FiveMinutes};
ghost use Rattle.calendar.specs.Days.{window_length};
ghost use Rattle.marks.specs.Keys.{event_key};
ghost use Rattle.marks.specs.Events.{end_of, well_placed};
ghost use Rattle.marks.specs.Marked.{marking, day_within, event_day, some_of, overlapping, starts_before, ends_after};
ghost use Rattle.marks.specs.Marked.{EventMarked, EventLifted, lift_fault, SameButEvents, closely_before, leads, lead_of, LeadRank, open_event, window_from};

use crate::{Event, MarkFault, Marks};
use calendar::Resolution;

// An event has an interval, starts four hours into its day or later, and ends by midnight.
fn lies_in_day(resolution: Resolution, event: Event) -> bool
    ensures { result ≡ well_placed resolution event.first event.count }
{
    let intervals = resolution.intervals();
    let start = event.first % intervals;
    if event.count < 1 {
        return false;
    }
    if start < 4 * resolution.hour() {
        return false;
    }
    event.count <= intervals - start
}

// Whether the later of two events is in the same day and less than four clear hours after the earlier.
fn follows_closely(resolution: Resolution, earlier: Event, later: Event) -> bool
    ensures { earlier.first < later.first → end_of earlier ≤ later.first → result ≡ closely_before resolution later earlier }
{
    let intervals = resolution.intervals();
    if earlier.first / intervals != later.first / intervals {
        return false;
    }
    let end = earlier.first.saturating_add(earlier.count);
    later.first.saturating_sub(end) < 4 * resolution.hour()
}

// At five-minute resolution an event at intervals 168 to 179 stands. Of that day, an event from 228 on follows four clear
// hours, and its window is 180 to 215; one from 227 on does not, and the window of the earlier event serves it, 120 to 155.
pub fn lead_figures_stand()
    ensures clear { (n : ℕ) → window_from FiveMinutes (lead_of FiveMinutes (open_event 168 12 ∷ (open_event 228 n ∷ [])) 228) ≡ Some 180 }
    ensures close { (n : ℕ) → window_from FiveMinutes (lead_of FiveMinutes (open_event 168 12 ∷ (open_event 227 n ∷ [])) 227) ≡ Some 120 }
    ensures long { window_length FiveMinutes ≡ 36 }
{}

impl<'a> Marks<'a> {
    // The day of a place, where the book has it.
    pub fn day_of(&self, place: u32) -> Option<u16>
        ensures { result ≡ day_within (marking self.now) place }
    {
        let day = place / self.resolution.intervals();
        if day < u32::from(self.days()) {
            Some(day as u16)
        } else {
            None
        }
    }

    // The event with this first place.
    pub fn event_at(&self, first: u32) -> Option<Event>
        ensures { result ≡ seek event_key first (marking self.now).events }
    {
        self.events.find(first)
    }

    // How many events are marked.
    pub fn event_count(&self) -> usize
        ensures { result ≡ length (marking self.now).events }
    {
        self.events.len()
    }

    // The event at a rank, in the order of first places.
    pub fn event_by_rank(&self, rank: usize) -> Option<Event>
        ensures { result ≡ slice_get (marking self.now).events rank }
    {
        self.events.get(rank)
    }

    // Whether the day has an event, open or issued.
    pub fn is_event_day(&self, day: u16) -> bool
        ensures { result ≡ event_day (marking self.now).resolution (marking self.now).events day }
    {
        let intervals = self.resolution.intervals();
        let rank = self.events.first_at(u32::from(day) * intervals);
        self.events
            .get(rank)
            .is_some_and(|event| event.first / intervals == u32::from(day))
    }

    // Whether there is an event at a rank and it starts before a place.
    fn starts_before(&self, rank: usize, place: u32) -> bool
        ensures { result ≡ starts_before place (slice_get (marking self.now).events rank) }
    {
        self.events
            .get(rank)
            .is_some_and(|event| event.first < place)
    }

    // Whether there is an event at a rank and it ends after a place.
    fn ends_after(&self, rank: usize, place: u32) -> bool
        ensures { result ≡ ends_after place (slice_get (marking self.now).events rank) }
    {
        self.events
            .get(rank)
            .is_some_and(|event| event.first.saturating_add(event.count) > place)
    }

    // Whether an event overlaps one that is marked.
    fn overlaps(&self, event: Event) -> bool
        ensures { event.first + event.count < 4294967296 → result ≡ some_of (overlapping event.first event.count) (marking self.now).events }
    {
        let rank = self.events.first_at(event.first);
        if self.starts_before(rank, event.first.saturating_add(event.count)) {
            return true;
        }
        if rank == 0 {
            return false;
        }
        self.ends_after(rank - 1, event.first)
    }

    // Marks an event that is not issued: it lies in a day of the book and overlaps none.
    pub fn mark_event(&mut self, first: u32, count: u32) -> Result<(), MarkFault>
        ensures done { EventMarked (marking self.old) (marking self.new) first count result }
        ensures rest { SameButEvents (marking self.old) (marking self.new) }
    {
        let event = Event {
            first,
            count,
            issued: false,
        };
        if self.day_of(first).is_none() {
            return Err(MarkFault::DayBeyond);
        }
        if !lies_in_day(self.resolution, event) {
            return Err(MarkFault::Misplaced);
        }
        if self.overlaps(event) {
            return Err(MarkFault::Overlap);
        }
        self.events.insert(event)?;
        Ok(())
    }

    // Lifts the event with this first place, where it is not issued.
    pub fn lift_event(&mut self, first: u32) -> Result<(), MarkFault>
        ensures done { EventLifted (marking self.old) (marking self.new) first result }
        ensures rest { SameButEvents (marking self.old) (marking self.new) }
    {
        let event = self.event_at(first).ok_or(MarkFault::Absent)?;
        if event.issued {
            return Err(MarkFault::Issued);
        }
        self.events.remove(first)?;
        Ok(())
    }

    // Whether the event at a rank is its day's first or follows four clear hours.
    fn leads(&self, rank: usize) -> bool
        ensures { rank < length (marking self.now).events → (d : Event) → result ≡ leads (marking self.now).resolution (marking self.now).events (slice_index_or (marking self.now).events rank d) }
    {
        if rank == 0 {
            return true;
        }
        // A `match`: only here is it known that the earlier event ends before the later one starts, on which the answer rests.
        let Some(later) = self.events.get(rank) else {
            return true;
        };
        match self.events.get(rank - 1) {
            Some(earlier) => !follows_closely(self.resolution, earlier, later),
            None => true,
        }
    }

    // The rank of the latest event up to this rank that leads.
    fn lead_rank(&self, rank: usize) -> usize
        ensures { rank < length (marking self.now).events → LeadRank (marking self.now).resolution (marking self.now).events rank result }
    {
        for at in (1..=rank).rev() {
            if self.leads(at) {
                return at;
            }
        }
        0
    }

    // The lead of the event with this first place: the latest event of its day, itself included and none after it,
    // that is the day's first or follows four clear hours or more.
    pub fn lead(&self, first: u32) -> Option<Event>
        ensures { result ≡ (if is_some (seek event_key first (marking self.now).events) then lead_of (marking self.now).resolution (marking self.now).events first else None) }
    {
        if self.event_at(first).is_none() {
            return None;
        }
        let rank = self.events.first_at(first);
        self.events.get(self.lead_rank(rank))
    }
}
