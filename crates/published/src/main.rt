// The two published examples of the similar-days baseline, day by day and number by number. Energies are in 0.1 kWh.
//
// Half-hours: an event from 14:00 to 16:00 on Friday 29 January 2021 (day 25), one the day before, a public holiday on the
// 26th (day 22). The ten similar days are 13, 14, 15, 18, 19, 20, 21, 22, 25 and 27 January (days 9 to 11, 14 to 18, 21, 23). From 14:00 to
// 14:30 they used 440 kWh, 44 a day; from 10:00 to 13:00 2,530 kWh, 253 a day; the event's day 277 kWh. The baseline is 48 kWh.
//
// Five minutes: an event from 14:00 to 16:00 on Friday 28 January 2022 (day 389), one the day before, a public holiday on
// the 26th (day 387). The ten similar days are 12, 13, 14, 17, 18, 19, 20, 21, 24 and 25 January (days 373 to 375, 378 to 382, 385,
// 386). From 14:00 to 14:05 they used 80 kWh, 8 a day; from 10:00 to 13:00 2,680 kWh, 268 a day; the event's day 340 kWh.
// The baseline is 10 kWh.
//
// The expected output has these days and baselines; the metered half of a baseline is made up.
#![tactic(auto)]

use calendar::Resolution;
use marks::{DayMark, Event, MarkKind};
use method::similar::SimilarDays;
use settlement::{Book, Line, Points};
use store::{MOST_ENERGY, Reading, Store};
use table::Table;

// An example: its resolution, the event's day, the holiday, the energy of an interval and of the window on a past day, the
// energy of the window on the event's day, and what was metered in an interval of the event.
#[derive(Clone, Copy)]
struct Example {
    resolution: Resolution,
    day: u16,
    holiday: u16,
    interval: u32,
    window: u32,
    morning: u32,
    metered: u32,
}

const HALF_HOURS: Example = Example {
    resolution: Resolution::HalfHours,
    day: 25,
    holiday: 22,
    interval: 440,
    window: 2530,
    morning: 2770,
    metered: 240,
};

const FIVE_MINUTES: Example = Example {
    resolution: Resolution::FiveMinutes,
    day: 389,
    holiday: 387,
    interval: 80,
    window: 2680,
    morning: 3400,
    metered: 50,
};

// Enters an energy over neighbouring intervals, as evenly as whole units go.
fn spread<S: Store>(store: &mut S, first: u32, count: u16, energy: u32) {
    let share = energy / u32::from(count).max(1);
    let over = energy % u32::from(count).max(1);
    for i in 0..count {
        let more = if u32::from(i) < over { 1 } else { 0 };
        let energy = (share.min(u32::from(MOST_ENERGY)) + more) as u16;
        let _ = store.enter(0, first.saturating_add(u32::from(i)), Reading { energy });
    }
}

// The interval that begins at 14:00.
fn afternoon(resolution: Resolution) -> u16 {
    (14 * resolution.hour()) as u16
}

// Enters the window and the event's intervals of a day.
fn enter_day<S: Store>(store: &mut S, example: Example, day: u16, window: u32, interval: u32) {
    let resolution = example.resolution;
    let first = afternoon(resolution);
    let count = (2 * resolution.hour()) as u16;
    let morning = resolution.window(first);
    spread(
        store,
        resolution.place_of(day, morning.first),
        morning.count,
        window,
    );
    spread(
        store,
        resolution.place_of(day, first),
        count,
        interval.saturating_mul(u32::from(count)),
    );
}

// Enters every past day alike, but nothing on the holiday and on the day of the other event, and the event's own day.
fn enter_days<S: Store>(store: &mut S, example: Example) {
    for day in 0..example.day {
        if day != example.holiday && day + 1 != example.day {
            enter_day(store, example, day, example.window, example.interval);
        }
    }
    enter_day(
        store,
        example,
        example.day,
        example.morning,
        example.metered,
    );
}

// Prints the selected days and the settlement, in a few lines that the month of two cold stores has too: a crate for them
// alone would be longer than they are.
fn print_settled<S: Store>(
    rt: &HostRuntime,
    store: &S,
    book: &Book,
    example: Example,
    first: u32,
) -> anyhow::Result<()> {
    rt.print("selected days")?;
    for day in choice::select(book.marks(), &SimilarDays, example.day).days() {
        print!(rt; " {day}")?;
    }
    rt.println("")?;
    let mut lines = [Line::default(); 24];
    let mut text = [0u8; 2048];
    let points = Points { first: 0, count: 1 };
    let Ok(settlement) = settlement::settle(store, book, points, &SimilarDays, first, &mut lines)
    else {
        rt.println("refused")?;
        return Ok(());
    };
    let count = settlement.count() as usize;
    match report::report(&lines[..count], settlement.sum(), &mut text) {
        Ok(size) => rt.stdout().write_all(&text[..size])?,
        Err(_) => rt.println("the text is too long")?,
    }
    Ok(())
}

// Enters, marks and settles an example.
fn run(rt: &HostRuntime, example: Example) -> anyhow::Result<()> {
    let heap = rt.alloc();
    let intervals = example.resolution.intervals();
    let hour = example.resolution.hour();
    let days = u32::from(example.day) + 1;
    let mut readings = vec![in heap; 0u16; 112_320]?;
    let mut present = vec![in heap; 0u8; 14_040]?;
    let mut holidays = [DayMark::default(); 2];
    let mut exclusions = [DayMark::default(); 2];
    let mut events = [Event::default(); 4];
    let mut store = Table::new(
        readings.as_mut_slice(),
        present.as_mut_slice(),
        1,
        days.saturating_mul(intervals),
    );
    let mut book = Book::new(intervals, days, &mut holidays, &mut exclusions, &mut events);
    enter_days(&mut store, example);
    let first = example
        .resolution
        .place_of(example.day, afternoon(example.resolution));
    let _ = book.mark_day(MarkKind::Holiday, example.holiday);
    let _ = book.mark_event(first.saturating_sub(intervals), 2 * hour);
    let _ = book.mark_event(first, 2 * hour);
    print_settled(rt, &store, &book, example, first)
}

fn main(rt: HostRuntime) -> anyhow::Result<()> {
    run(&rt, HALF_HOURS)?;
    run(&rt, FIVE_MINUTES)
}
