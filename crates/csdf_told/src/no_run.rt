//! Why a run has no outcome.

ghost use Rattle.std.specs.Prelude.{◌≡◌};
ghost use Rattle.csdf_told.specs.NoRun.{run_fault};

use csdf_answers::ToolFault;
use csdf_run::NoOutcome;

/// Why a run has no outcome, as the program tells it.
pub fn run_fault(fault: NoOutcome) -> ToolFault
    ensures { result ≡ run_fault fault }
{
    match fault {
        NoOutcome::Memory => ToolFault::Memory,
        NoOutcome::Worker => ToolFault::Worker,
    }
}
