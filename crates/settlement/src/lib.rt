// Settling an event: a book of marks, a unit of neighbouring points, and the lines that the baseline and the meters give.
// This file has the types; `marking` has a book's calls, and `settling` the settlement itself.
#![tactic(auto)]

ghost use Rattle.std.specs.Prelude.{◌≡◌, ◌*◌, ◌≤◌, pos, neg_ℤ, ◌≤ℤ◌};
ghost use Rattle.settlement.specs.declared.SettleFault.TheVariants.{Methodology, Source};
ghost use Rattle.settlement.specs.Faults.{settle_refusal};

use marks::Marks;
use metering::SourceFault;
use method::catalogue::MethodFault;
use refusal::Refuse;

mod marking;
mod planned;
mod settling;

pub use settling::{settle, settle_numbered};

// A book: its marks. Another name for them would be no plainer: a book has an account too (docs/RULES.md, "Drafts and the
// account"), which is not built yet.
#[derive(Drop)]
pub struct Book<'a> {
    marks: Marks<'a>,
}

// The points that are settled together: so many neighbours from the first on.
#[derive(Clone, Copy, PartialEq, Eq, Debug)]
pub struct Points {
    pub first: u32,
    pub count: u32,
}

// One interval of a settled event: its day and interval, the number of selected days, the baseline, the metered energy,
// and the reduction, which is the baseline less the metered energy.
#[derive(Clone, Copy, Default, PartialEq, Eq, Debug)]
pub struct Line {
    pub day: u32,
    pub interval: u32,
    pub days: u32,
    pub baseline: i32,
    pub metered: u32,
    pub reduction: i32,
}

// What `settle` answers: the event by its first place and count, the number of selected days, and the sum of reductions,
// which is at most 10,000 a line either way. It is not `Copy`, and `settle` alone makes one.
#[derive(Drop)]
pub struct Settlement {
    first: u32,
    count: u32,
    days: u32,
    sum: i64,
    ghost few: { count ≤ 288 },
    ghost low: { neg_ℤ (pos (10000 * count)) ≤ℤ sum },
    ghost high: { sum ≤ℤ pos (10000 * count) },
}

// Why an event is not settled.
#[derive(Clone, Copy, PartialEq, Eq, Debug)]
pub enum SettleFault {
    // the unit is empty, has more than 16 points or lies beyond the store
    Unit,
    // there is no methodology of this number
    Methodology,
    // there is no event with this first place
    NoEvent,
    // the methodology does not serve the event's day
    NotServed,
    // fewer days than the methodology's minimum were selected for this day
    TooFewDays { day: u16 },
    // the list has fewer lines than the event has intervals
    ShortList,
    // a source cannot be used
    Source(SourceFault),
}

impl From<SourceFault> for SettleFault {
    ghost from_gives = { λ e r. r ≡ Source e };

    fn from(fault: SourceFault) -> SettleFault {
        SettleFault::Source(fault)
    }
}

impl From<MethodFault> for SettleFault {
    ghost from_gives = { λ e r. r ≡ Methodology };

    fn from(fault: MethodFault) -> SettleFault {
        match fault {
            MethodFault::Unknown => SettleFault::Methodology,
        }
    }
}

impl Refuse for SettleFault {
    ghost refusal = { settle_refusal };

    // Causes that carry values have no discriminant to stand for a number.
    fn number(&self) -> u8 {
        match self {
            SettleFault::Unit => 18,
            SettleFault::Methodology => 21,
            SettleFault::NoEvent => 11,
            SettleFault::NotServed => 13,
            SettleFault::TooFewDays { .. } => 14,
            SettleFault::ShortList => 17,
            SettleFault::Source(fault) => fault.number(),
        }
    }
}
