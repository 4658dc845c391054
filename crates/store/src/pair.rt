// Two stores as one: the first's points, then the second's, cut at 4,096; the smaller span.
// What reads, enters and voids is inlined, since each of these goes through all layers.
ghost use Rattle.std.specs.Prelude.{◌≡◌, cond, None, nat_lt};
ghost use Rattle.store.specs.Pairs.{paired, paired_sound, side_of, span_of};

use crate::{MOST_POINTS, Reading, Store, StoreFault};

#[derive(Drop)]
pub struct Pair<A, B> {
    first: A,
    second: B,
}

// The store that has a point of the pair, and the point's number there. The two arms of each call are alike, but call two
// types.
#[derive(Clone, Copy)]
enum Side {
    First(u32),
    Second(u32),
}

impl<A: Store, B: Store> Pair<A, B> {
    pub fn new(first: A, second: B) -> Pair<A, B>
        ensures first { result.first ≡ first }
        ensures second { result.second ≡ second }
    {
        Pair { first, second }
    }

    // The side of a point, or none beyond.
    #[inline(always)]
    fn side(&self, point: u32) -> Option<Side>
        ensures { result ≡ side_of (A.meaning self.now.first) (B.meaning self.now.second) point }
    {
        if point >= self.points() {
            return None;
        }
        let first = self.first.points();
        if point < first {
            Some(Side::First(point))
        } else {
            Some(Side::Second(point - first))
        }
    }

    // The side of a place of a point, or none beyond.
    #[inline(always)]
    fn side_of_place(&self, point: u32, place: u32) -> Option<Side>
        ensures { let a = A.meaning self.now.first in let b = B.meaning self.now.second in result ≡ cond (nat_lt place (span_of a b)) (side_of a b point) None }
    {
        if place < self.span() {
            self.side(point)
        } else {
            None
        }
    }
}

impl<A: Store, B: Store> Store for Pair<A, B> {
    ghost meaning = { λ c. paired (A.Store.meaning c.first) (B.Store.meaning c.second) };

    ghost sound = { λ c. paired_sound (A.Store.meaning c.first) (B.Store.meaning c.second) (A.Store.sound c.first) (B.Store.sound c.second) };

    fn points(&self) -> u32 {
        (self.first.points() + self.second.points()).min(MOST_POINTS)
    }

    fn span(&self) -> u32 {
        self.first.span().min(self.second.span())
    }

    fn free(&self, point: u32) -> usize {
        match self.side(point) {
            Some(Side::First(there)) => self.first.free(there),
            Some(Side::Second(there)) => self.second.free(there),
            None => 0,
        }
    }

    #[inline(always)]
    fn read(&self, point: u32, place: u32) -> Option<Reading> {
        match self.side_of_place(point, place)? {
            Side::First(there) => self.first.read(there, place),
            Side::Second(there) => self.second.read(there, place),
        }
    }

    #[inline(always)]
    fn enter(&mut self, point: u32, place: u32, reading: Reading) -> Result<(), StoreFault> {
        match self.side_of_place(point, place).ok_or(StoreFault::Beyond)? {
            Side::First(there) => self.first.enter(there, place, reading),
            Side::Second(there) => self.second.enter(there, place, reading),
        }
    }

    #[inline(always)]
    fn void(&mut self, point: u32, place: u32) -> Result<(), StoreFault> {
        match self.side_of_place(point, place).ok_or(StoreFault::Beyond)? {
            Side::First(there) => self.first.void(there, place),
            Side::Second(there) => self.second.void(there, place),
        }
    }
}
