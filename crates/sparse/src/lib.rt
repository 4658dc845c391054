// A meter store of one point for few readings: a register of them by place, over one lent list.
// This file has the types; `ops` has what such a store does.
#![tactic(auto)]

ghost use Rattle.std.specs.Prelude.{◌≤◌};
ghost use Rattle.register.specs.Held.{held};
ghost use Rattle.sparse.specs.Places.{place_of, Placed};

use register::{Record, Register};

mod ops;

// The energy of the interval at one place, in units of 0.1 kWh.
#[derive(Clone, Copy, PartialEq, Eq, Debug, Default)]
pub struct PlacedReading {
    pub place: u32,
    pub energy: u16,
}

impl Record for PlacedReading {
    ghost keyed = { place_of };

    fn key(&self) -> u32 {
        self.place
    }
}

// The readings of one point that has places 0 to before `span`.
#[derive(Drop)]
pub struct Sparse<'a> {
    readings: Register<'a, PlacedReading>,
    span: u32,
    ghost wide: { span ≤ 1179648 },
    ghost placed: { Placed span (held readings) },
}
