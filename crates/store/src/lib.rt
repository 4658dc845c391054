// A meter store: for each point and place a reading or none, and a number of free places for each point.
// `Store` is the meaning that every make is held to; `Pair`, `Clock` and `Lent` are layers over any stores.
#![tactic(auto)]

ghost use Rattle.std.specs.Prelude.{◌≡◌};
ghost use Rattle.store.specs.Meaning.{Meaning, Sound, Entered, Voided, store_refusal};

use refusal::Refuse;

mod clock;
mod lent;
mod pair;

pub use clock::Clock;
pub use lent::Lent;
pub use pair::Pair;

// The most points and places of any store, and the most energy of a reading.
pub const MOST_POINTS: u32 = 4096;

pub const MOST_SPAN: u32 = 1_179_648;

pub const MOST_ENERGY: u16 = 5000;

// The energy of one interval at one point, in units of 0.1 kWh.
#[derive(Clone, Copy, PartialEq, Eq, Debug)]
pub struct Reading {
    pub energy: u16,
}

// Why a store declines a call.
#[derive(Clone, Copy, PartialEq, Eq, Debug)]
pub enum StoreFault {
    // the point or the place lies beyond the store
    Beyond = 1,
    // the reading is above 5,000
    TooLarge = 2,
    // a new place where the point has none free
    Full = 3,
    // nothing stands there to void
    Nothing = 4,
}

impl Refuse for StoreFault {
    ghost refusal = { store_refusal };

    fn number(&self) -> u8 {
        *self as u8
    }
}

// A point and a place stay two numbers: a layer changes one and hands the other on.
pub trait Store {
    ghost meaning: { Self → Meaning };

    // What every make proves of what it holds.
    ghost sound: { (s : Self) → Sound (meaning s) };

    fn points(&self) -> u32
        ensures { result ≡ (meaning self.now).points };

    fn span(&self) -> u32
        ensures { result ≡ (meaning self.now).span };

    // The free places of a point, 0 beyond.
    fn free(&self, point: u32) -> usize
        ensures { result ≡ (meaning self.now).free point };

    // The reading that stands there, or none; none beyond.
    fn read(&self, point: u32, place: u32) -> Option<Reading>
        ensures { result ≡ (meaning self.now).at point place };

    // Declined by Beyond, TooLarge, Full, in this order; else the reading stands there, and nothing else changes
    // but that the point's free number falls by one where none stood.
    fn enter(&mut self, point: u32, place: u32, reading: Reading) -> Result<(), StoreFault>
        ensures { Entered (meaning self.old) (meaning self.new) point place reading result };

    // Declined by Beyond, Nothing, in this order; else none stands there, and the point's free number rises by one.
    fn void(&mut self, point: u32, place: u32) -> Result<(), StoreFault>
        ensures { Voided (meaning self.old) (meaning self.new) point place result };
}
