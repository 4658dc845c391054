// What a baseline methodology is: its rules, the laws that they keep, and the calls that answer by them.
ghost use Rattle.std.specs.Prelude.{◌≡◌, ◌≤◌, pos, negsuc, ◌≤ℤ◌};
ghost use Rattle.method.specs.Rules.{Rules, Lawful, set_by};

use crate::energies::Energies;
use crate::settings::Settings;
use calendar::DayKind;

pub trait Methodology {
    // The rules that it stands for.
    ghost meaning: { Self → Rules };

    // Its settings: the rules but for the baseline.
    fn settings(&self) -> Settings
        ensures { meaning self.now ≡ set_by result (meaning self.now).baseline };

    // The baseline of the energies, rounded down.
    fn baseline(&self, e: &Energies) -> i32
        ensures value { result ≡ (meaning self.now).baseline e.now.v e.now.w e.now.a e.now.n e.now.m }
        ensures bounds { (negsuc 4999 ≤ℤ result) × (result ≤ℤ pos 10000) };

    // Whether it serves an event on a day of the kind.
    fn serves(&self, kind: DayKind) -> bool
        ensures { result ≡ (meaning self.now).serves kind }
    {
        self.settings().serves(kind)
    }

    // Whether a past day matches an event's day.
    fn matches(&self, day: DayKind, past: DayKind) -> bool
        ensures { result ≡ (meaning self.now).matches day past }
    {
        self.settings().matches(day, past)
    }

    // How many days it selects for a day of the kind.
    fn wanted(&self, day: DayKind) -> u8
        ensures value { result ≡ (meaning self.now).wanted day }
        ensures bounds { (1 ≤ result) × ((meaning self.now).minimum day ≤ result) × (result ≤ 10) }
    {
        self.settings().count(day).wanted
    }

    // The least that it selects for a day of the kind.
    fn minimum(&self, day: DayKind) -> u8
        ensures value { result ≡ (meaning self.now).minimum day }
        ensures bounds { (1 ≤ result) × (result ≤ (meaning self.now).wanted day) × (result ≤ 10) }
    {
        self.settings().count(day).minimum
    }

    // How many past days a load is tested on in an assessment.
    fn test_days(&self) -> u8
        ensures value { result ≡ (meaning self.now).tests }
        ensures bounds { (1 ≤ result) × (result ≤ 50) }
    {
        self.settings().test_days
    }

    // The laws that every methodology owes.
    ghost lawful: { (s : Self) → Lawful (meaning s) };
}
