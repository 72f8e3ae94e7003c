//! Why a worker gives up.

ghost use Rattle.std.specs.Prelude.{◌≡◌, ◌≢◌, IfErr, IfOk, None, Some, false};
ghost use Rattle.csdf_floor.specs.declared.fault.RunFault.TheVariants.{Memory, Worker};
ghost use Rattle.csdf_crew.specs.Causes.{cause_of_no_start, cause_untaken};

use crate::monitor::{NotStarted, NotTaken};
use csdf_floor::{DeliverFault, RunFault, StartFault};
use std::alloc::AllocError;
use std::marker::Model;

/// Why a worker gave up: memory ran out in a call of its own, or the floor did not stand where its claim
/// says. Only the functions of this file make one, each of what such a call answered.
#[derive(Drop)]
pub(crate) struct GaveUp {
    fault: RunFault,
}

impl Model for GaveUp {
    ghost use Rattle.std.specs.Prelude.{◌≢◌};
    ghost use Rattle.csdf_floor.specs.declared.fault.RunFault.{RunFault};
    ghost use Rattle.csdf_floor.specs.declared.fault.RunFault.TheVariants.{Worker};

    ghost Value = { RunFault };

    ghost view = { λ g. g.fault };

    ghost invariant = { λ g. g.fault ≢ Worker };
}

impl GaveUp {
    fn of(fault: RunFault) -> GaveUp
        requires { fault ≢ Worker }
        ensures { result ≡ fault }
    {
        GaveUp { fault }
    }

    /// The fault of the run.
    pub(crate) fn fault(&self) -> RunFault
        ensures value { result ≡ self.now }
        ensures own { result ≢ Worker }
    {
        self.fault
    }
}

/// What a worker whose start was refused answers: nothing is made where the core refuses it, and else it
/// gives up.
pub(crate) fn refused(why: NotStarted) -> Result<bool, GaveUp>
    ensures goes_on { IfOk result (λ gets_on. (gets_on ≡ false) × (cause_of_no_start why ≡ None)) }
    ensures gives_up { IfErr result (λ fault. cause_of_no_start why ≡ Some fault) }
{
    match why.fault() {
        StartFault::Refused(_) => Ok(false),
        StartFault::Memory => Err(GaveUp::of(RunFault::Memory)),
        StartFault::Unknown | StartFault::Moved(_) => Err(GaveUp::of(RunFault::Mixed)),
    }
}

/// Why a worker gives up whose result was not taken.
pub(crate) fn untaken(why: NotTaken) -> GaveUp
    ensures { result ≡ cause_untaken why }
{
    match why.fault() {
        DeliverFault::Memory => GaveUp::of(RunFault::Memory),
        DeliverFault::Stranger => GaveUp::of(RunFault::Mixed),
    }
}

/// Why a worker gives up for whose evaluation there was no memory.
pub(crate) fn unevaluated(_error: AllocError) -> GaveUp
    ensures { result ≡ Memory }
{
    GaveUp::of(RunFault::Memory)
}
