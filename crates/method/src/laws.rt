// What holds of the two baselines, before and after rounding, of every methodology, and worked figures.
ghost use Rattle.method.specs.Claims.{Caps, CappedFloor, AdditiveFloor, Figures};
ghost use Rattle.method.specs.Rules.{Lawful};

use crate::methodology::Methodology;

// The capped baseline is, before rounding, from four to six fifths of the average day's.
pub fn caps_stand()
    ensures { Caps }
{}

// Both baselines are rounded down, also below zero.
pub fn floors_stand()
    ensures capped { CappedFloor }
    ensures additive { AdditiveFloor }
{}

// Worked figures of methodologies 1 and 5.
pub fn figures_stand()
    ensures { Figures }
{}

// Every methodology's rules keep the laws.
pub fn laws_stand<M: Methodology>(method: &M)
    ensures { Lawful (M.meaning method.now) }
{}
