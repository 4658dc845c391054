// A methodology of any number, which answers as the one that it holds.
ghost use Rattle.method.specs.Methods.{numbered_rules};
ghost use Rattle.method.specs.Lawful.{numbered_lawful};

use crate::capped::Capped;
use crate::energies::Energies;
use crate::methodology::Methodology;
use crate::settings::Settings;
use crate::similar::SimilarDays;

#[derive(Clone, Copy)]
pub enum Numbered {
    Capped(Capped),
    SimilarDays(SimilarDays),
}

impl Methodology for Numbered {
    ghost meaning = { numbered_rules };

    ghost lawful = { numbered_lawful };

    fn settings(&self) -> Settings {
        match self {
            Numbered::Capped(method) => method.settings(),
            Numbered::SimilarDays(method) => method.settings(),
        }
    }

    fn baseline(&self, e: &Energies) -> i32 {
        match self {
            Numbered::Capped(method) => method.baseline(e),
            Numbered::SimilarDays(method) => method.baseline(e),
        }
    }
}
