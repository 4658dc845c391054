// The energies that a baseline is computed from: at most 5000 an interval, over n days of m intervals.
ghost use Rattle.std.specs.Prelude.{◌≡◌, ◌*◌, ◌<◌, ◌≤◌, MatchOption};
ghost use Rattle.method.specs.Energy.{Sound};

// The most energy of an interval, as in a meter store, on which this crate does not rest.
const MOST: u64 = 5000;

// V is the energy of the line's interval over the n days, W that of the window over them, and A that of the window on the event's day.
#[derive(Clone, Copy)]
pub struct Energies {
    pub v: u64,
    pub w: u64,
    pub a: u64,
    pub n: u16,
    pub m: u16,
    ghost some: { (0 < n) × (0 < m) },
    ghost limits: { (v ≤ 5000 * n) × (w ≤ 5000 * (n * m)) × (a ≤ 5000 * m) },
}

impl Energies {
    // None where there are no days or no intervals, or an energy is above its limit. The five numbers come apart here alone.
    pub fn new(v: u64, w: u64, a: u64, n: u16, m: u16) -> Option<Energies>
        ensures { MatchOption result (Sound v w a n m → ⊥) (λ e. Sound v w a n m × (e.v ≡ v) × (e.w ≡ w) × (e.a ≡ a) × (e.n ≡ n) × (e.m ≡ m)) }
    {
        if n == 0 || m == 0 {
            return None;
        }
        let days = u64::from(n);
        let intervals = u64::from(m);
        if v > MOST * days || w > MOST * (days * intervals) || a > MOST * intervals {
            return None;
        }
        Some(Energies { v, w, a, n, m })
    }
}
