// Settling an event by a methodology: the checks in their order, the trial of every source, then the lines.
ghost use Rattle.std.specs.Prelude.{◌≡◌, ℕ, ◌+◌, ◌*◌, ◌<◌, ◌≤◌, true, ◌++◌, length, drop, pos, negsuc, neg_ℤ, ◌≤ℤ◌, is_some, None, Some, MatchResult, IfOk};
ghost use Rattle.metering.specs.Energy.{trouble_at};
ghost use Rattle.metering.specs.Meters.{meters};
ghost use Rattle.metering.specs.Sums.{first_in};
ghost use Rattle.metering.specs.Trial.{Tried};
ghost use Rattle.settlement.specs.Lines.{day_sources, trouble, w_of, a_of, baseline_at, line_at, lines_of, reductions, Usable};
ghost use Rattle.marks.specs.Marked.{marking, lead_of};
ghost use Rattle.settlement.specs.Books.{book_marking};
ghost use Rattle.settlement.specs.Plans.{terms_of};
ghost use Rattle.settlement.specs.Settles.{Planned, Settled, SettledBy, event_in, lead_place};

use crate::planned::Plan;
use crate::{Book, Line, Points, SettleFault, Settlement};
use calendar::{MOST_INTERVALS, Stretch};
use marks::Marks;
use metering::{Metered, SourceFault, Unit};
use method::energies::Energies;
use method::methodology::Methodology;
use method::numbered::Numbered;
use store::Store;

// A settlement whose every source passed its trial: the unit's meters, the plan, the methodology, and the energies of
// the window over the selected days and on the event's day.
#[derive(Drop)]
struct Settling<'a, S: Store, M: Methodology> {
    metered: Metered<'a, S>,
    plan: Plan,
    method: &'a M,
    past: u64,
    present: u64,
    ghost past_is: { past ≡ w_of (meters S.Store.meaning metered) (terms_of plan) },
    ghost present_is: { present ≡ a_of (meters S.Store.meaning metered) (terms_of plan) },
    ghost usable: { (i : ℕ) → plan.event.first ≤ i → i < plan.event.first + plan.event.count → Usable (meters S.Store.meaning metered) (terms_of plan) i },
}

impl Settlement {
    // The first place of the event.
    pub fn first(&self) -> u32
        ensures { result ≡ self.now.first }
    {
        self.first
    }

    // How many intervals, and so lines, the event has.
    pub fn count(&self) -> u32
        ensures { result ≡ self.now.count }
    {
        self.count
    }

    // How many days were selected.
    pub fn days(&self) -> u32
        ensures { result ≡ self.now.days }
    {
        self.days
    }

    // The sum of the reductions.
    pub fn sum(&self) -> i64
        ensures is { result ≡ self.now.sum }
        ensures low { neg_ℤ (pos (10000 * self.now.count)) ≤ℤ result }
        ensures high { result ≤ℤ pos (10000 * self.now.count) }
    {
        self.sum
    }
}

// The event, its day served, and enough selected days.
fn plan_of<M: Methodology>(book: &Book, method: &M, first: u32) -> Result<Plan, SettleFault>
    ensures { Planned (M.Methodology.meaning method.now) (book_marking book.now) first result }
{
    let marks = book.marks();
    let event = marks.event_at(first).ok_or(SettleFault::NoEvent)?;
    let day = marks.day_of(first).ok_or(SettleFault::NoEvent)?;
    if event.count > MOST_INTERVALS {
        return Err(SettleFault::NoEvent);
    }
    let kind = marks.kind_of_day(day);
    if !method.serves(kind) {
        return Err(SettleFault::NotServed);
    }
    let selected = choice::select(marks, method, day);
    if selected.days().len() < usize::from(method.minimum(kind)) {
        return Err(SettleFault::TooFewDays { day });
    }
    let resolution = marks.resolution();
    let window = resolution.window(resolution.interval_of(lead_place(marks, first)));
    let event = Stretch {
        first: resolution.interval_of(first),
        count: event.count as u16,
    };
    Ok(Plan {
        resolution,
        day,
        selected,
        window,
        event,
    })
}

// The first place of an event's lead.
fn lead_place(marks: &Marks, first: u32) -> u32
    ensures { is_some (event_in (marking marks.now) first) ≡ true → result ≡ lead_place (lead_of marks.now.resolution (marking marks.now).events first) first }
{
    marks.lead(first).map_or(first, |lead| lead.first)
}

impl Plan {
    // The sources of one day: the window, then the event's intervals.
    fn try_day<S: Store>(&self, metered: &Metered<S>, day: u16) -> Result<(), SourceFault>
        ensures { Tried result (first_in (trouble_at (meters S.Store.meaning metered.now)) (day_sources (terms_of self.now) day)) }
    {
        metered.try_stretch(self.resolution, day, self.window)?;
        metered.try_stretch(self.resolution, day, self.event)
    }

    // All sources: the selected days, the latest first, then the event's day.
    fn try_sources<S: Store>(&self, metered: &Metered<S>) -> Result<(), SourceFault>
        ensures { Tried result (trouble (meters S.Store.meaning metered.now) (terms_of self.now)) }
    {
        for day in self.selected.days() {
            self.try_day(metered, *day)?;
        }
        self.try_day(metered, self.day)
    }
}

impl<'a, S: Store, M: Methodology> Settling<'a, S, M> {
    // Tries every source, then reads the energies of the window.
    fn new(
        metered: Metered<'a, S>,
        plan: Plan,
        method: &'a M,
    ) -> Result<Settling<'a, S, M>, SourceFault>
        ensures { MatchResult result (λ s. (trouble (meters S.Store.meaning metered.entry) (terms_of plan) ≡ None) × (meters S.Store.meaning s.metered ≡ meters S.Store.meaning metered.entry) × (s.plan ≡ plan) × (s.method.now ≡ method.now)) (λ e. trouble (meters S.Store.meaning metered.entry) (terms_of plan) ≡ Some e) }
    {
        plan.try_sources(&metered)?;
        let past = metered.energy_on_days(plan.resolution, &plan.selected, plan.window);
        let present = metered.energy_over(plan.resolution, plan.day, plan.window);
        Ok(Settling {
            metered,
            plan,
            method,
            past,
            present,
        })
    }

    // The baseline of an interval of the event, from its energy over the selected days. None of the energies is beyond
    // what a unit may use, since every source passed its trial.
    fn baseline(&self, interval: u16) -> i32
        requires { (self.now.plan.event.first ≤ interval) × (interval < self.now.plan.event.first + self.now.plan.event.count) }
        ensures is { result ≡ baseline_at (meters S.Store.meaning self.now.metered) (M.Methodology.meaning self.now.method.now).baseline (terms_of self.now.plan) interval }
        ensures low { negsuc 4999 ≤ℤ result }
        ensures high { result ≤ℤ pos 10000 }
    {
        let plan = &self.plan;
        let stretch = Stretch {
            first: interval,
            count: 1,
        };
        let past = self
            .metered
            .energy_on_days(plan.resolution, &plan.selected, stretch);
        let days = plan.selected.days().len() as u16;
        match Energies::new(past, self.past, self.present, days, plan.window.count) {
            Some(energies) => self.method.baseline(&energies),
            None => 0,
        }
    }

    // The line of an interval of the event.
    fn line(&self, interval: u16) -> Line
        requires { (self.now.plan.event.first ≤ interval) × (interval < self.now.plan.event.first + self.now.plan.event.count) }
        ensures is { result ≡ line_at (meters S.Store.meaning self.now.metered) (M.Methodology.meaning self.now.method.now).baseline (terms_of self.now.plan) interval }
        ensures low { negsuc 9999 ≤ℤ result.reduction }
        ensures high { result.reduction ≤ℤ pos 10000 }
    {
        let plan = &self.plan;
        let baseline = self.baseline(interval);
        let place = plan.resolution.place_of(plan.day, interval);
        let metered = self.metered.energy(place) as u32;
        Line {
            day: u32::from(plan.day),
            interval: u32::from(interval),
            days: plan.selected.days().len() as u32,
            baseline,
            metered,
            reduction: baseline - metered as i32,
        }
    }

    // Fills the lines of the event, one an interval, and gives the sum of their reductions.
    // By index: a rule of the project for the lines that a caller lends.
    fn fill(&self, lines: &mut [Line]) -> i64
        requires { length lines.old ≡ self.now.plan.event.count }
        ensures lines { lines.new ≡ lines_of (meters S.Store.meaning self.now.metered) (M.Methodology.meaning self.now.method.now).baseline (terms_of self.now.plan) }
        ensures sum { result ≡ reductions lines.new }
        ensures low { neg_ℤ (pos (10000 * self.now.plan.event.count)) ≤ℤ result }
        ensures high { result ≤ℤ pos (10000 * self.now.plan.event.count) }
    {
        let first = self.plan.event.first;
        let mut sum = 0;
        for i in 0..self.plan.event.count {
            let line = self.line(first + i);
            lines[i as usize] = line;
            sum += i64::from(line.reduction);
        }
        sum
    }
}

// Settles the event with this first place for a unit. It fills the first lines of the list, one an interval, or declines
// and leaves the list as it was. The causes are tried in the order 18, 11, 13, 14, 17, then the sources.
// Store, book and points are lent apart: between two settlements a caller changes the store and the book.
pub fn settle<S: Store, M: Methodology>(
    store: &S,
    book: &Book,
    points: Points,
    method: &M,
    first: u32,
    lines: &mut [Line],
) -> Result<Settlement, SettleFault>
    ensures settled { Settled (M.Methodology.meaning method.now) (book_marking book.now) (S.Store.meaning store.now).points (S.Store.meaning store.now).at points.first points.count first lines.old lines.new result }
    ensures fits { IfOk result (λ s. s.count ≤ length lines.old) }
{
    let unit = Unit::of(store, points.first, points.count).ok_or(SettleFault::Unit)?;
    let plan = plan_of(book, method, first)?;
    let count = usize::from(plan.event.count);
    if lines.len() < count {
        return Err(SettleFault::ShortList);
    }
    let settling = Settling::new(Metered::new(store, unit), plan, method)?;
    let sum = settling.fill(&mut lines[..count]);
    Ok(Settlement {
        first,
        count: u32::from(plan.event.count),
        days: plan.selected.len() as u32,
        sum,
    })
}

// Settles by the methodology of a number; an unknown one is declined by 21, after 18. A number and not a methodology, since a
// sheet may name one that there is not.
pub fn settle_numbered<S: Store>(
    store: &S,
    book: &Book,
    points: Points,
    number: u8,
    first: u32,
    lines: &mut [Line],
) -> Result<Settlement, SettleFault>
    ensures settled { SettledBy number (book_marking book.now) (S.Store.meaning store.now).points (S.Store.meaning store.now).at points.first points.count first lines.old lines.new result }
    ensures fits { IfOk result (λ s. s.count ≤ length lines.old) }
{
    Unit::of(store, points.first, points.count).ok_or(SettleFault::Unit)?;
    let method = Numbered::try_from(number)?;
    settle(store, book, points, &method, first, lines)
}
