//! Why a graph is not accepted.

ghost use Rattle.std.specs.Prelude.{◌≡◌};
ghost use Rattle.csdf_analysis.specs.declared.fault.AcceptFault.TheVariants.{Memory};

use std::alloc::{AllocError, AllocFailed};
use thiserror::Error;

/// Why a graph is not accepted, or that memory ran out.
///
/// The checks come in the order of the variants, each over the whole graph before the next.
#[derive(Clone, Copy, Debug, PartialEq, Eq, Error)]
pub enum AcceptFault {
    /// The first channel that no vector with entries up to 1,024 balances together with the
    /// channels before it.
    #[error("unbalanced at channel {0}")]
    Unbalanced(u32),
    /// The first channel whose full capacity is above 65,535.
    #[error("too large at channel {0}")]
    TooLarge(u32),
    /// The full capacities, of each channel its initial tokens and all that its producer puts in
    /// within a period, complete no period.
    #[error("deadlock")]
    Deadlock,
    /// The full capacities complete a period, and none that agree with the given ones do.
    #[error("too tight")]
    TooTight,
    /// Memory ran out, which says nothing of the graph.
    #[error("out of memory")]
    Memory,
}

impl From<AllocError> for AcceptFault {
    ghost from_gives = { λ _ e. e ≡ Memory };

    fn from(_e: AllocError) -> AcceptFault {
        AcceptFault::Memory
    }
}

impl<T: Drop> From<AllocFailed<T>> for AcceptFault {
    ghost from_gives = { λ _ e. e ≡ Memory };

    fn from(_e: AllocFailed<T>) -> AcceptFault {
        AcceptFault::Memory
    }
}
