// The presence map: one bit for each cell, eight cells to a byte, the lowest first.
// That a cell lies in the map is asked by each call and held by no type, since each call has a cell of its own.
ghost use Rattle.std.specs.Prelude.{◌≡◌, ◌+◌, ◌-◌, ◌*◌, ◌/◌, ◌^◌, ◌<◌, ◌≤◌, length, sum_by, count_ones};
ghost use Rattle.table.specs.Presence.{clear, marked, Cleared};

// Clears the bits of the cells below `cells`.
pub(crate) fn clear_below(present: &mut [u8], cells: usize)
    requires { cells ≤ 8 * length present.old }
    ensures { Cleared cells present.old present.new }
{
    let whole = cells / 8;
    present[..whole].fill(0);
    let rest = cells % 8;
    if rest > 0 {
        present[whole] = present[whole] >> rest << rest;
    }
}

// The set bits of some bytes.
fn ones(bytes: &[u8]) -> usize
    requires { length bytes.now < 2 ^ 32 }
    ensures { result ≡ sum_by count_ones bytes.now }
{
    bytes.iter().map(|byte| byte.count_ones() as usize).sum()
}

// The set bits before `cell` in its byte.
fn ones_before(present: &[u8], cell: usize) -> usize
    requires { cell ≤ 8 * length present.now }
    ensures { result + marked present.now (8 * (cell / 8)) ≡ marked present.now cell }
{
    let rest = cell % 8;
    if rest == 0 {
        return 0;
    }
    let mask = (1u8 << rest) - 1;
    (present[cell / 8] & mask).count_ones() as usize
}

// The set bits of the cells from `first` to before `end`.
pub(crate) fn ones_between(present: &[u8], first: usize, end: usize) -> usize
    requires { (first ≤ end) × ((end ≤ 8 * length present.now) × (end < 2 ^ 32)) }
    ensures { result + clear present.now first (end - first) ≡ end - first }
{
    ones(&present[first / 8..end / 8]) + ones_before(present, end) - ones_before(present, first)
}
