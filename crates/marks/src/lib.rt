// A book's marks: its holidays, exclusions and events, in registers over lent lists.
// This file has the types; `days` and `events` have what can be marked, lifted and asked.
#![tactic(auto)]

ghost use Rattle.std.specs.Prelude.{◌≡◌, ◌≤◌};
ghost use Rattle.register.specs.Held.{held};
ghost use Rattle.marks.specs.Keys.{day_key, event_key};
ghost use Rattle.marks.specs.Faults.{mark_fault, mark_refusal};
ghost use Rattle.marks.specs.Events.{Placed, Apart};

use calendar::Resolution;
use refusal::Refuse;
use register::{Record, Register, RegisterFault};

mod days;
mod events;

pub use events::lead_figures_stand;

// A day that is marked a holiday or an exclusion.
#[derive(Clone, Copy, Default, PartialEq, Eq, Debug)]
pub struct DayMark {
    pub day: u16,
}

// An event: its first place, how many intervals it has, and whether its credit was issued.
#[derive(Clone, Copy, Default, PartialEq, Eq, Debug)]
pub struct Event {
    pub first: u32,
    pub count: u32,
    pub issued: bool,
}

impl Record for DayMark {
    ghost keyed = { day_key };

    fn key(&self) -> u32 {
        u32::from(self.day)
    }
}

impl Record for Event {
    ghost keyed = { event_key };

    fn key(&self) -> u32 {
        self.first
    }
}

// How a day is marked.
#[derive(Clone, Copy, PartialEq, Eq, Debug)]
pub enum MarkKind {
    Holiday,
    Exclusion,
}

// Why a mark is not made or not lifted.
#[derive(Clone, Copy, PartialEq, Eq, Debug)]
pub enum MarkFault {
    // the day lies beyond the book
    DayBeyond = 6,
    // the event is empty, too early or goes past midnight
    Misplaced = 7,
    // the event overlaps another
    Overlap = 8,
    // the day is so marked already
    Already = 9,
    // the register is full
    Full = 10,
    // there is no such mark or event
    Absent = 11,
    // the event is issued
    Issued = 12,
}

impl From<RegisterFault> for MarkFault {
    ghost from_gives = { λ e r. r ≡ mark_fault e };

    fn from(fault: RegisterFault) -> MarkFault {
        match fault {
            RegisterFault::Taken => MarkFault::Already,
            RegisterFault::Full => MarkFault::Full,
            RegisterFault::Absent => MarkFault::Absent,
        }
    }
}

impl Refuse for MarkFault {
    ghost refusal = { mark_refusal };

    fn number(&self) -> u8 {
        *self as u8
    }
}

// The events lie in days of the book, and apart.
#[derive(Drop)]
pub struct Marks<'a> {
    resolution: Resolution,
    days: u16,
    holidays: Register<'a, DayMark>,
    exclusions: Register<'a, DayMark>,
    events: Register<'a, Event>,
    ghost fit: { (1 ≤ days) × (days ≤ 4096) },
    ghost placed: { Placed resolution days (held events) },
    ghost apart: { Apart (held events) },
}
