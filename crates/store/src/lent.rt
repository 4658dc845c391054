// A store that is lent: what a `&mut` to a store does as a store by value, so that layers can stand over it.
ghost use Rattle.std.specs.Prelude.{◌≡◌};

use crate::{Reading, Store, StoreFault};

#[derive(Drop)]
pub struct Lent<'s, S> {
    below: &'s mut S,
}

impl<'s, S: Store> Lent<'s, S> {
    pub fn new(below: &'s mut S) -> Lent<'s, S>
        ensures { result.below.now ≡ below.old }
    {
        Lent { below }
    }
}

impl<'s, S: Store> Store for Lent<'s, S> {
    ghost meaning = { λ c. S.Store.meaning c.below.now };

    ghost sound = { λ c. S.Store.sound c.below.now };

    fn points(&self) -> u32 {
        self.below.points()
    }

    fn span(&self) -> u32 {
        self.below.span()
    }

    fn free(&self, point: u32) -> usize {
        self.below.free(point)
    }

    fn read(&self, point: u32, place: u32) -> Option<Reading> {
        self.below.read(point, place)
    }

    fn enter(&mut self, point: u32, place: u32, reading: Reading) -> Result<(), StoreFault> {
        self.below.enter(point, place, reading)
    }

    fn void(&mut self, point: u32, place: u32) -> Result<(), StoreFault> {
        self.below.void(point, place)
    }
}
