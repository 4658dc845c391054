// What a unit of neighbouring points used, and the trial of the places that a baseline draws on.
// This file has the types; `energy` adds readings, `trial` looks for a source that cannot be used.
#![tactic(auto)]

ghost use Rattle.std.specs.Prelude.{◌≡◌, ◌+◌, ◌≤◌};
ghost use Rattle.metering.specs.Energy.{source_refusal};

use refusal::Refuse;
use store::Store;

mod energy;
mod trial;

// A unit: 1 to 16 neighbouring points, from the first on, of a store of at most 4,096 points.
#[derive(Clone, Copy, PartialEq, Eq, Debug)]
pub struct Unit {
    first: u32,
    count: u32,
    ghost fits: { (1 ≤ count) × (count ≤ 16) × (first + count ≤ 4096) },
}

// A unit's meters: its points, with the store that has their readings. It has no model, since a model's value cannot
// hold the readings, which are a function.
#[derive(Drop)]
pub struct Metered<'s, S: Store> {
    store: &'s S,
    unit: Unit,
}

// Why a source cannot be used.
#[derive(Clone, Copy, PartialEq, Eq, Debug)]
pub enum SourceFault {
    // a point of the unit has no reading at the place
    Missing { point: u32, place: u32 },
    // the unit's energy at the place is above 5,000
    AboveLimit { place: u32 },
}

impl Refuse for SourceFault {
    ghost refusal = { source_refusal };

    // Causes that carry values have no discriminant to stand for a number.
    fn number(&self) -> u8 {
        match self {
            SourceFault::Missing { .. } => 15,
            SourceFault::AboveLimit { .. } => 16,
        }
    }
}
