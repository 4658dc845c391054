// The work of the statement program, on values: its input is a header of three words and a sheet, its output the text of
// each settled event, up to the first refusal. `header` reads the header, `desk` works one word, `run` the whole input.
#![tactic(auto)]

ghost use Rattle.std.specs.Prelude.{◌≡◌};
ghost use Rattle.clerk.specs.declared.WorkFault.TheVariants.{Load, Settle, Report};
ghost use Rattle.clerk.specs.Faults.{work_refusal};

use refusal::Refuse;
use report::ReportFault;
use settlement::SettleFault;
use sheet::LoadFault;

mod desk;
mod header;
mod laws;
mod making;
mod run;

pub use desk::{Page, Worked};
pub use header::{Header, word_at};
pub use laws::one_output_stands;
pub use run::statement;

// Why a word of the program's sheet is declined.
#[derive(Clone, Copy, PartialEq, Eq, Debug)]
pub enum WorkFault {
    Load(LoadFault),
    Settle(SettleFault),
    Report(ReportFault),
}

impl From<LoadFault> for WorkFault {
    ghost from_gives = { λ e r. r ≡ Load e };

    fn from(fault: LoadFault) -> WorkFault {
        WorkFault::Load(fault)
    }
}

impl From<SettleFault> for WorkFault {
    ghost from_gives = { λ e r. r ≡ Settle e };

    fn from(fault: SettleFault) -> WorkFault {
        WorkFault::Settle(fault)
    }
}

impl From<ReportFault> for WorkFault {
    ghost from_gives = { λ e r. r ≡ Report e };

    fn from(fault: ReportFault) -> WorkFault {
        WorkFault::Report(fault)
    }
}

impl Refuse for WorkFault {
    ghost refusal = { work_refusal };

    fn number(&self) -> u8 {
        match self {
            WorkFault::Load(fault) => fault.number(),
            WorkFault::Settle(fault) => fault.number(),
            WorkFault::Report(fault) => fault.number(),
        }
    }
}
