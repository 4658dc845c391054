// Days, their kinds and their trading intervals. Day 0 is Monday 4 January 2021.
#![tactic(auto)]

ghost use Rattle.std.specs.Prelude.{◌≡◌, ◌%◌, ◌<◌, ◌≤◌};
ghost use Rattle.std.specs.Result.{result_ok};
ghost use Rattle.calendar.specs.Days.{intervals_of, hour_of, resolution_of, kind_on, place_of, window_start, window_length};

use refusal::MakeFault;

// The most trading intervals of a day.
pub const MOST_INTERVALS: u32 = Resolution::FiveMinutes as u32;

#[derive(Clone, Copy, PartialEq, Eq, Debug)]
pub enum DayKind {
    Business,
    NonBusiness,
}

// How a day is cut into trading intervals: 48 of half an hour, or 288 of five minutes.
#[derive(Clone, Copy, PartialEq, Eq, Debug)]
pub enum Resolution {
    HalfHours = 48,
    FiveMinutes = 288,
}

// So many neighbouring intervals of a day, from the first on.
#[derive(Clone, Copy, PartialEq, Eq, Debug)]
pub struct Stretch {
    pub first: u16,
    pub count: u16,
}

// The resolution with so many intervals in a day.
impl TryFrom<u32> for Resolution {
    type Error = MakeFault;

    ghost try_from_gives = { λ intervals r. result_ok r ≡ resolution_of intervals };

    fn try_from(intervals: u32) -> Result<Resolution, MakeFault> {
        [Resolution::HalfHours, Resolution::FiveMinutes]
            .iter()
            .copied()
            .find(|resolution| resolution.intervals() == intervals)
            .ok_or(MakeFault::Limits)
    }
}

impl Resolution {
    // The trading intervals in a day.
    pub fn intervals(self) -> u32
        ensures { result ≡ intervals_of self }
    {
        self as u32
    }

    // The trading intervals in an hour.
    pub fn hour(self) -> u32
        ensures { result ≡ hour_of self }
    {
        self.intervals() / 24
    }

    // The place of an interval of a day.
    pub fn place_of(self, day: u16, interval: u16) -> u32
        ensures is { result ≡ place_of (intervals_of self) day interval }
        ensures most { result ≤ 18939615 }
    {
        u32::from(day) * self.intervals() + u32::from(interval)
    }

    // The interval of a place in its day.
    pub fn interval_of(self, place: u32) -> u16
        ensures is { result ≡ place % intervals_of self }
        ensures within { result < 288 }
    {
        (place % self.intervals()) as u16
    }

    // The adjustment window of a first interval: three hours, from four hours before it on.
    pub fn window(self, first: u16) -> Stretch
        ensures first { result.first ≡ window_start self first }
        ensures count { result.count ≡ window_length self }
    {
        let hour = self.hour() as u16;
        Stretch {
            first: first.saturating_sub(4 * hour),
            count: 3 * hour,
        }
    }
}

// A day is non-business at a weekend or where it is a holiday, else business.
pub fn kind_on(day: u32, holiday: bool) -> DayKind
    ensures { result ≡ kind_on day holiday }
{
    if day % 7 >= 5 || holiday {
        DayKind::NonBusiness
    } else {
        DayKind::Business
    }
}
