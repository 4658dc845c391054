// How a declined call is told: every enum of causes gives each case a number, and the values that go with it.
#![tactic(auto)]

ghost use Rattle.std.specs.Prelude.{◌≡◌};
ghost use Rattle.refusal.specs.Refusals.{Refusal, make_refusal};

// The causes of one layer. `refusal` gives the number and the values of each case.
pub trait Refuse {
    ghost refusal: { Self → Refusal };

    fn number(&self) -> u8
        ensures { result ≡ (refusal self.now).number };
}

// Why a store, a clock or a book cannot be made as asked.
#[derive(Clone, Copy, PartialEq, Eq, Debug)]
pub enum MakeFault {
    Limits = 22,
}

impl Refuse for MakeFault {
    ghost refusal = { make_refusal };

    fn number(&self) -> u8 {
        *self as u8
    }
}
