// The days that a baseline draws on, selected for an event or an assessment, and the test days of an assessment.
// This file has the list of days; `selection` and `testing` say which days before a day are found.
#![tactic(auto)]

ghost use Rattle.std.specs.Prelude.{◌≡◌, ℕ, ◌≤◌, List, [], ◌∷◌, ◌++◌, length, take};
ghost use Rattle.std.specs.Iterator.{AlwaysYields, IsFinite};

mod laws;
mod selection;
mod testing;

pub use laws::{choice_figures_stand, choice_stands};
pub use selection::{select, select_assessed};
pub use testing::test_days;

// Up to N days, the latest first. The array and its count are its own fields, since an arrayvec's vector is not Copy.
#[derive(Clone, Copy)]
pub struct Days<const N: usize> {
    days: [u16; N],
    count: usize,
    ghost few: { count ≤ N },
}

// The selected days.
pub type Selected = Days<10>;

// The test days of an assessment.
pub type TestDays = Days<50>;

impl<const N: usize> Days<N> {
    // The first days that an iterator gives, as many as there is room for.
    fn of<I: Iterator<Item = u16>>(found: I) -> Days<N>
        requires ready { I.can_next found }
        requires ends { IsFinite (I.remaining found) }
        ensures { (xs : List ℕ) → AlwaysYields I.next_gives (λ x. x) found xs → take result.count result.days ≡ take N xs }
    {
        let mut days = Days {
            days: [0; N],
            count: 0,
        };
        for day in found {
            days.push(day);
        }
        days
    }

    // Takes one day more, where there is room.
    fn push(&mut self, day: u16)
        ensures { take self.new.count self.new.days ≡ take N (take self.old.count self.old.days ++ day ∷ []) }
    {
        if self.count < N {
            self.days[self.count] = day;
            self.count += 1;
        }
    }

    // How many days there are.
    pub fn len(&self) -> usize
        ensures is { result ≡ self.now.count }
        ensures few { result ≤ N }
    {
        self.count
    }

    // The days.
    pub fn days(&self) -> &[u16]
        ensures is { result.now ≡ take self.now.count self.now.days }
        ensures few { length result.now ≤ N }
    {
        &self.days[..self.count]
    }
}
