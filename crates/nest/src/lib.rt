// What is entered through layers of stores is what is read through them.
// This file has the answers of a short run of calls; `layers` makes the run.
#![tactic(auto)]

use store::{Reading, StoreFault};

mod layers;

pub use layers::through_layers;

// The answers of a run that enters a reading x at point 0 and a reading y at point 2, and then voids x.
#[derive(Clone, Copy)]
pub struct Seen {
    // what stands where x was entered, before it is voided
    pub first: Option<Reading>,
    // how the voiding of x is answered
    pub voiding: Result<(), StoreFault>,
    // what stands there afterwards
    pub voided: Option<Reading>,
    // what stands where y was entered
    pub second: Option<Reading>,
    // what stands at the place before y
    pub neighbour: Option<Reading>,
    // the free number of y's point
    pub free: usize,
}
