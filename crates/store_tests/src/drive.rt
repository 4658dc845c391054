// A sequence of drawn calls, each answered by a store and by its model.
use crate::model::{Model, told};
use refusal::Refuse;
use std::process::Abort;
use store::{Reading, Store, StoreFault};

// A linear congruential generator.
#[derive(Clone, Copy)]
struct Draws {
    state: u32,
}

impl Draws {
    fn next(&mut self) -> u32 {
        self.state = self
            .state
            .wrapping_mul(1_664_525)
            .wrapping_add(1_013_904_223);
        self.state >> 16
    }
}

// The number of a refusal, 0 of a call that was done.
fn number(answer: Result<(), StoreFault>) -> u8 {
    match answer {
        Ok(()) => 0,
        Err(fault) => fault.number(),
    }
}

// One call: points, places and energies are drawn inside the limits and just beyond.
fn step<S: Store, const POINTS: usize, const SPAN: usize>(
    rt: &impl Abort,
    store: &mut S,
    model: &mut Model<POINTS, SPAN>,
    draws: &mut Draws,
) {
    let kind = draws.next() % 8;
    let point = draws.next() % 4;
    let place = draws.next() % 10;
    let reading = Reading {
        energy: (draws.next() % 5101) as u16,
    };
    match kind {
        0..=2 => {
            let answer = store.enter(point, place, reading);
            assert_eq!(rt; answer, model.enter(point, place, reading));
            assert_eq!(rt; number(answer), told(answer));
        }
        3..=4 => {
            let answer = store.void(point, place);
            assert_eq!(rt; answer, model.void(point, place));
            assert_eq!(rt; number(answer), told(answer));
        }
        5 => assert_eq!(rt; store.read(point, place), model.read(point, place)),
        6 => assert_eq!(rt; store.free(point), model.free(point)),
        _ => {
            assert_eq!(rt; store.points() as usize, POINTS);
            assert_eq!(rt; store.span() as usize, SPAN);
        }
    }
}

// The number of steps in which the store answered as its model.
pub fn drive<S: Store, const POINTS: usize, const SPAN: usize>(
    rt: &impl Abort,
    store: &mut S,
    model: &mut Model<POINTS, SPAN>,
    steps: u32,
) -> u32 {
    let mut draws = Draws { state: 20_240_229 };
    for _ in 0..steps {
        step(rt, store, model, &mut draws);
    }
    steps
}
