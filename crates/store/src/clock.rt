// A clock serves a meter that runs k intervals ahead: its place p is place p + k of the store below.
// What reads, enters and voids is inlined, since each of these goes through all layers.
ghost use Rattle.std.specs.Prelude.{◌≡◌, ◌+◌, cond, Some, None, nat_lt};
ghost use Rattle.std.specs.Result.{result_err};
ghost use Rattle.store.specs.Shifts.{shifted, shifted_sound, clock_fault, ahead_of};

use crate::{Reading, Store, StoreFault};
use refusal::MakeFault;

const MOST_AHEAD: u32 = 288;

#[derive(Drop)]
pub struct Clock<S> {
    below: S,
    ahead: u32,
}

impl<S: Store> Clock<S> {
    // Whether a clock may run so far ahead.
    pub fn check(ahead: u32) -> Result<(), MakeFault>
        ensures { result_err result ≡ clock_fault ahead }
    {
        if ahead <= MOST_AHEAD {
            Ok(())
        } else {
            Err(MakeFault::Limits)
        }
    }

    // A clock over a store; one that may not run so far ahead runs 0 ahead.
    pub fn new(below: S, ahead: u32) -> Clock<S>
        ensures below { result.below ≡ below }
        ensures ahead { result.ahead ≡ ahead_of ahead }
    {
        match Self::check(ahead) {
            Ok(()) => Clock { below, ahead },
            Err(_) => Clock { below, ahead: 0 },
        }
    }

    // The place below, or none beyond the span.
    #[inline(always)]
    fn place_below(&self, place: u32) -> Option<u32>
        ensures { let k = place + self.now.ahead in result ≡ cond (nat_lt k (S.meaning self.now.below).span) (Some k) None }
    {
        let below = place.checked_add(self.ahead)?;
        (below < self.below.span()).then_some(below)
    }
}

impl<S: Store> Store for Clock<S> {
    ghost meaning = { λ c. shifted c.ahead (S.Store.meaning c.below) };

    ghost sound = { λ c. shifted_sound c.ahead (S.Store.meaning c.below) (S.Store.sound c.below) };

    fn points(&self) -> u32 {
        self.below.points()
    }

    fn span(&self) -> u32 {
        self.below.span().saturating_sub(self.ahead)
    }

    fn free(&self, point: u32) -> usize {
        self.below.free(point)
    }

    #[inline(always)]
    fn read(&self, point: u32, place: u32) -> Option<Reading> {
        let below = self.place_below(place)?;
        self.below.read(point, below)
    }

    #[inline(always)]
    fn enter(&mut self, point: u32, place: u32, reading: Reading) -> Result<(), StoreFault> {
        let below = self.place_below(place).ok_or(StoreFault::Beyond)?;
        self.below.enter(point, below, reading)
    }

    #[inline(always)]
    fn void(&mut self, point: u32, place: u32) -> Result<(), StoreFault> {
        let below = self.place_below(place).ok_or(StoreFault::Beyond)?;
        self.below.void(point, below)
    }
}
