// Times enters and reads on a table and on a sparse store filled in rising order, and the settling of a long event.
// Run it by hand with any argument: a run without one, as in the gate, only says so.
#![tactic(auto)]

use calendar::Resolution;
use marks::{DayMark, Event};
use method::capped::Capped;
use settlement::{Book, Line, Points};
use sparse::{PlacedReading, Sparse};
use std::env;
use std::time::{Duration, Instant};
use store::{Reading, Store};
use table::Table;

// A million calls of each kind.
const CALLS: u32 = 1_000_000;

// Enters at one place after another, and counts what was accepted.
fn enter_all<S: Store>(store: &mut S) -> u32 {
    let mut entered: u32 = 0;
    for place in 0..CALLS {
        let energy = (place % 5000) as u16;
        if store.enter(0, place, Reading { energy }).is_ok() {
            entered = entered.saturating_add(1);
        }
    }
    entered
}

// Reads one place after another, and adds up what stands there.
fn read_all<S: Store>(store: &S) -> u64 {
    let mut sum: u64 = 0;
    for place in 0..CALLS {
        if let Some(reading) = store.read(0, place) {
            sum = sum.saturating_add(u64::from(reading.energy));
        }
    }
    sum
}

// Prints the time of each call, in tenths of a nanosecond.
fn print_each(rt: &HostRuntime, what: &str, took: Duration) -> anyhow::Result<()> {
    let tenths = took.as_nanos().saturating_mul(10) / u128::from(CALLS);
    let whole = tenths / 10;
    let part = tenths % 10;
    println!(rt; "  {what}: {whole}.{part} ns each")?;
    Ok(())
}

// Times both on one store.
fn time_store<S: Store>(rt: &HostRuntime, name: &str, store: &mut S) -> anyhow::Result<()> {
    let start = Instant::now(rt)?;
    let entered = enter_all(store);
    let middle = Instant::now(rt)?;
    let sum = read_all(store);
    let end = Instant::now(rt)?;
    println!(rt; "{name}: {entered} readings, which add up to {sum}")?;
    print_each(rt, "enter", middle.duration_since(start))?;
    print_each(rt, "read", end.duration_since(middle))
}

fn time_stores(rt: &HostRuntime) -> anyhow::Result<()> {
    let heap = rt.alloc();
    let mut readings = vec![in heap; 0u16; CALLS as usize]?;
    let mut present = vec![in heap; 0u8; CALLS as usize / 8]?;
    let mut table = Table::new(readings.as_mut_slice(), present.as_mut_slice(), 1, CALLS);
    time_store(rt, "table", &mut table)?;
    let mut slots = vec![in heap; PlacedReading::default(); CALLS as usize]?;
    let mut sparse = Sparse::new(CALLS, slots.as_mut_slice());
    time_store(rt, "sparse", &mut sparse)
}

// Enters a reading at every place of every point.
fn fill_all<S: Store>(store: &mut S) {
    for point in 0..store.points() {
        for place in 0..store.span() {
            let energy = 100 + (place % 50) as u16;
            let _ = store.enter(point, place, Reading { energy });
        }
    }
}

// Times the settling of an event, and says how it went.
fn time_settle<S: Store>(
    rt: &HostRuntime,
    store: &S,
    book: &Book,
    first: u32,
    lines: &mut [Line],
) -> anyhow::Result<()> {
    let points = Points {
        first: 0,
        count: store.points(),
    };
    let start = Instant::now(rt)?;
    let settled = settlement::settle(store, book, points, &Capped::AllDays, first, lines).is_ok();
    let took = start.elapsed(rt)?.as_micros();
    println!(rt; "settle: 240 lines, 16 points, 10 days: settled {settled} in {took} us")?;
    Ok(())
}

// Sixteen points, twelve days of five minutes, an event of 240 intervals.
fn time_settling(rt: &HostRuntime) -> anyhow::Result<()> {
    let heap = rt.alloc();
    let span: u32 = 12 * 288;
    let mut readings = vec![in heap; 0u16; 16 * 3456]?;
    let mut present = vec![in heap; 0u8; 2 * 3456]?;
    let mut store = Table::new(readings.as_mut_slice(), present.as_mut_slice(), 16, span);
    fill_all(&mut store);
    let mut holidays = [DayMark::default(); 4];
    let mut exclusions = [DayMark::default(); 4];
    let mut events = [Event::default(); 4];
    let mut book = Book::new(
        Resolution::FiveMinutes.intervals(),
        12,
        &mut holidays,
        &mut exclusions,
        &mut events,
    );
    let first = 11 * 288 + 48;
    let _ = book.mark_event(first, 240);
    let mut lines = vec![in heap; Line::default(); 240]?;
    time_settle(rt, &store, &book, first, lines.as_mut_slice())
}

fn main(rt: HostRuntime) -> anyhow::Result<()> {
    if env::args(&rt)?.count() < 2 {
        rt.println("run it with an argument to time the stores and a settlement")?;
        return Ok(());
    }
    time_stores(&rt)?;
    time_settling(&rt)
}
