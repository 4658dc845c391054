// What a register does. Its searches are the library's binary searches.
ghost use Rattle.std.specs.Prelude.{◌≡◌, ◌+◌, ◌-◌, ◌<◌, ◌≤◌, [], length, take, Some, None, ◌==◌};
ghost use Rattle.std.specs.List.{insert, remove, slice_get};
ghost use Rattle.register.specs.Order.{spot, seek, Located, Inserted, Removed, Replaced, Finds, Counts};
ghost use Rattle.register.specs.Held.{held, capacity};

use crate::{Record, Register, RegisterFault};

// Puts `item` among the first `used`, at `at`; at the end this moves nothing.
// Its two writes stand apart from `insert`, since between them the slots have no order.
fn put_in<T: Copy>(slots: &mut [T], used: usize, at: usize, item: T)
    requires { (at ≤ used) × (used < length slots.old) }
    ensures { take (used + 1) slots.new ≡ insert (take used slots.old) at item }
{
    slots.copy_within(at..used, at + 1);
    slots[at] = item;
}

impl<'a, R: Record> Register<'a, R> {
    // An empty register over `slots`.
    pub fn new(slots: &'a mut [R]) -> Register<'a, R>
        ensures none { held result ≡ [] }
        ensures room { capacity result ≡ length slots.old }
        ensures untouched { result.slots.now ≡ slots.old }
    {
        Register { slots, used: 0 }
    }

    // The records, by rank.
    fn records(&self) -> &[R]
        ensures { result.now ≡ held self.now }
    {
        &self.slots[..self.used]
    }

    // How many records there are.
    pub fn len(&self) -> usize
        ensures is { result ≡ length (held self.now) }
        ensures within { result ≤ capacity self.now }
    {
        self.records().len()
    }

    // Whether there is no record.
    pub fn is_empty(&self) -> bool
        ensures { result ≡ (length (held self.now) == 0) }
    {
        self.len() == 0
    }

    // How many more records there is room for.
    pub fn free(&self) -> usize
        ensures { result ≡ capacity self.now - length (held self.now) }
    {
        self.slots.len() - self.len()
    }

    // The rank of the first record whose key is at least `key`; the length if there is none.
    pub fn first_at(&self, key: u32) -> usize
        ensures is { result ≡ spot R.keyed key (held self.now) }
        ensures within { result ≤ length (held self.now) }
    {
        self.records().partition_point(|record| record.key() < key)
    }

    // The record at a rank.
    pub fn get(&self, rank: usize) -> Option<R>
        ensures { result ≡ slice_get (held self.now) rank }
    {
        self.records().get(rank).copied()
    }

    // Where `key` stands, or where it would stand. Records often come in the order of their keys: one above the last is at the
    // end with no search.
    fn locate(&self, key: u32) -> Result<usize, usize>
        ensures { Located R.keyed key (held self.now) result }
    {
        let list = self.records();
        match list.last() {
            Some(last) if key <= last.key() => {
                list.binary_search_by_key(&key, |record| record.key())
            }
            _ => Err(list.len()),
        }
    }

    // The record with the key `key`.
    pub fn find(&self, key: u32) -> Option<R>
        ensures { result ≡ seek R.keyed key (held self.now) }
    {
        self.get(self.locate(key).ok()?)
    }

    // Puts a record at the place of its key; refused where the key stands, and then where there is no room.
    pub fn insert(&mut self, record: R) -> Result<(), RegisterFault>
        ensures done { Inserted R.keyed (capacity self.old) (held self.old) (held self.new) «record» result }
        ensures finds { Finds R.keyed (R.keyed «record») (Some «record») (held self.old) (held self.new) result }
        ensures counts { Counts (length (held self.old) + 1) (held self.old) (held self.new) result }
        ensures room { capacity self.new ≡ capacity self.old }
    {
        let Err(at) = self.locate(record.key()) else {
            return Err(RegisterFault::Taken);
        };
        if self.used == self.slots.len() {
            return Err(RegisterFault::Full);
        }
        put_in(self.slots, self.used, at, record);
        self.used += 1;
        Ok(())
    }

    // Takes the record with the key `key` out; refused where there is none.
    pub fn remove(&mut self, key: u32) -> Result<R, RegisterFault>
        ensures done { Removed R.keyed (held self.old) (held self.new) key result }
        ensures finds { Finds R.keyed key None (held self.old) (held self.new) result }
        ensures counts { Counts (length (held self.old) - 1) (held self.old) (held self.new) result }
        ensures room { capacity self.new ≡ capacity self.old }
    {
        let Ok(at) = self.locate(key) else {
            return Err(RegisterFault::Absent);
        };
        let gone = self.slots[at];
        self.slots.copy_within(at + 1..self.used, at);
        self.used -= 1;
        Ok(gone)
    }

    // Writes a record over the one with its key, and gives the old one; refused where there is none.
    pub fn replace(&mut self, record: R) -> Result<R, RegisterFault>
        ensures done { Replaced R.keyed (held self.old) (held self.new) «record» result }
        ensures finds { Finds R.keyed (R.keyed «record») (Some «record») (held self.old) (held self.new) result }
        ensures counts { Counts (length (held self.old)) (held self.old) (held self.new) result }
        ensures room { capacity self.new ≡ capacity self.old }
    {
        let Ok(at) = self.locate(record.key()) else {
            return Err(RegisterFault::Absent);
        };
        let old = self.slots[at];
        self.slots[at] = record;
        Ok(old)
    }
}
