//! Why a floor refuses.

use csdf_core::Refusal;
use std::alloc::AllocError;
use thiserror::Error;

/// Why a firing was not started: the first that applies.
#[derive(Clone, Copy, Debug, PartialEq, Eq, Error)]
pub enum StartFault {
    /// There is no such actor.
    #[error("there is no such actor")]
    Unknown,
    /// The actor stands at this firing, and not at the one that was asked for.
    #[error("the actor stands at firing {0}")]
    Moved(u32),
    /// The core refuses to begin the firing.
    #[error("the begin is refused: {0:?}")]
    Refused(Refusal),
    /// Memory ran out.
    #[error("out of memory")]
    Memory,
}

/// Why a result was not taken: the first that applies.
#[derive(Clone, Copy, Debug, PartialEq, Eq, Error)]
pub enum DeliverFault {
    /// The job is not that of its actor's firing in progress.
    #[error("the job is not under way")]
    Stranger,
    /// Memory ran out.
    #[error("out of memory")]
    Memory,
}

impl From<AllocError> for StartFault {
    ghost use Rattle.std.specs.Prelude.{◌≡◌};
    ghost use Rattle.csdf_floor.specs.declared.fault.StartFault.TheVariants.{Memory};

    ghost from_gives = { λ _ fault. fault ≡ Memory };

    fn from(_error: AllocError) -> StartFault {
        StartFault::Memory
    }
}

impl From<Refusal> for StartFault {
    ghost use Rattle.std.specs.Prelude.{◌≡◌};
    ghost use Rattle.csdf_floor.specs.declared.fault.StartFault.TheVariants.{Refused};

    ghost from_gives = { λ refusal fault. fault ≡ Refused refusal };

    fn from(refusal: Refusal) -> StartFault {
        StartFault::Refused(refusal)
    }
}

impl From<AllocError> for DeliverFault {
    ghost use Rattle.std.specs.Prelude.{◌≡◌};
    ghost use Rattle.csdf_floor.specs.declared.fault.DeliverFault.TheVariants.{Memory};

    ghost from_gives = { λ _ fault. fault ≡ Memory };

    fn from(_error: AllocError) -> DeliverFault {
        DeliverFault::Memory
    }
}

/// Why a run has no outcome.
#[derive(Clone, Copy, Debug, PartialEq, Eq, Error)]
pub enum RunFault {
    /// Memory ran out.
    #[error("out of memory")]
    Memory,
    /// What came out does not belong together: another graph, other feeds, periods or limits, a total
    /// that is not the core's count, or a core that can go on.
    #[error("the floor is not at the end of this run")]
    Mixed,
    /// A worker could not be started or taken in.
    #[error("a worker could not be started or taken in")]
    Worker,
}

impl From<AllocError> for RunFault {
    ghost use Rattle.std.specs.Prelude.{◌≡◌};
    ghost use Rattle.csdf_floor.specs.declared.fault.RunFault.TheVariants.{Memory};

    ghost from_gives = { λ _ fault. fault ≡ Memory };

    fn from(_error: AllocError) -> RunFault {
        RunFault::Memory
    }
}
