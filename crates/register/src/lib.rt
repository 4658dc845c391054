// An ordered register over a lent slice: records with distinct keys, in the order of their keys.
// This file has the types; `ops` has what a register does.
#![tactic(auto)]

ghost use Rattle.std.specs.Prelude.{◌≡◌, ◌≤◌, ℕ, length, take};
ghost use Rattle.register.specs.Rising.{Rising};

mod ops;

// What a register can hold: a plain value that has a whole number as its key.
pub trait Record: Copy {
    ghost keyed: { Self → ℕ };

    fn key(&self) -> u32
        ensures { result ≡ keyed self.now };
}

// Why a call is refused.
#[derive(Clone, Copy, PartialEq, Eq, Debug)]
pub enum RegisterFault {
    Taken,
    Full,
    Absent,
}

// The lent slots, of which the first `used` hold records, each key above those before it.
// It is a slice with a length beside it, since the caller lends the slots: a `Vec` would take memory of its own.
#[derive(Drop)]
pub struct Register<'a, R: Record> {
    slots: &'a mut [R],
    used: usize,
    ghost fits: { used ≤ length slots.now },
    ghost rising: { Rising R.keyed (take used slots.now) },
}
