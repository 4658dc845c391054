// The made-up meters of two cold stores, in units of 0.1 kWh a half-hour: a base load, more by day than by night, less at
// the weekend, a little unrest, a warm last Friday, and a cut to about a third while an event is on.
ghost use Rattle.std.specs.Prelude.{◌≤◌};

// The base load of a point.
fn base(point: u16) -> u16
    ensures { (340 ≤ result) × (result ≤ 620) }
{
    if point == 0 { 620 } else { 340 }
}

// How warm it is: nothing at night, most at 14:00.
fn warmth(interval: u16) -> u16
    ensures { result ≤ 12 }
{
    if interval < 16 || interval > 40 {
        return 0;
    }
    if interval <= 28 {
        interval - 16
    } else {
        40 - interval
    }
}

// What the meter would show with no event.
fn usual(point: u16, day: u16, interval: u16) -> u16
    ensures { result ≤ 1000 }
{
    let unrest = (day % 31 * 7 + interval % 48 * 3 + point % 2 * 5) % 11;
    let warm = warmth(interval) * if day == 25 { 9 } else { 6 };
    let idle = if day % 7 >= 5 { 60 } else { 0 };
    base(point) - idle + warm + unrest
}

// What the meter shows.
pub fn energy(point: u16, day: u16, interval: u16) -> u16
    ensures { result ≤ 1000 }
{
    let cut = (day == 24 && interval >= 28 && interval < 32)
        || (day == 25 && interval >= 28 && interval < 34);
    let usual = usual(point, day, interval);
    if cut { usual * 7 / 20 } else { usual }
}
