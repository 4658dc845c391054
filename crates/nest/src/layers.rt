// A run of calls on a clock over a pair of a table and a sparse store.
ghost use Rattle.std.specs.Prelude.{◌≡◌};
ghost use Rattle.nest.specs.Runs.{Fresh, seen};

use crate::Seen;
use sparse::{PlacedReading, Sparse};
use store::{Clock, Lent, Pair, Reading, Store};
use table::Table;

const AHEAD: u32 = 2;

// Enters x at point 0 and y at point 2, and voids x.
fn run<S: Store>(store: &mut S, x: u16, y: u16) -> Seen
    ensures { Fresh (S.meaning store.old) → result ≡ seen x y }
{
    let _ = store.enter(0, 3, Reading { energy: x });
    let _ = store.enter(2, 5, Reading { energy: y });
    Seen {
        first: store.read(0, 3),
        voiding: store.void(0, 3),
        voided: store.read(0, 3),
        second: store.read(2, 5),
        neighbour: store.read(2, 4),
        free: store.free(2),
    }
}

// The run through a clock 2 ahead, over a table of 2 points, which is lent, and a sparse store with 3 slots, of 8 places each.
pub fn through_layers(x: u16, y: u16) -> Seen
    ensures { result ≡ seen x y }
{
    let mut readings = [0u16; 16];
    let mut present = [0u8; 2];
    let mut slots = [PlacedReading::default(); 3];
    let mut table = Table::new(&mut readings, &mut present, 2, 8);
    let sparse = Sparse::new(8, &mut slots);
    let pair = Pair::new(Lent::new(&mut table), sparse);
    let mut store = Clock::new(pair, AHEAD);
    run(&mut store, x, y)
}
