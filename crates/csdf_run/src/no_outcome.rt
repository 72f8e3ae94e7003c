//! Why a run has no outcome.

use csdf_floor::{Fed, Outcome};
use thiserror::Error;

/// Why a run that a [`Watch`](crate::Watch) is told of has no outcome.
#[derive(Clone, Copy, Debug, PartialEq, Eq, Error)]
pub enum NoOutcome {
    /// Memory ran out, here or in a worker.
    #[error("out of memory")]
    Memory,
    /// A thread could not be started, of which one worker alone asks for none.
    #[error("a worker could not be started")]
    Worker,
}

/// What was run, which comes back, and what came of it.
#[derive(Drop)]
pub(crate) struct Ran {
    pub(crate) fed: Fed,
    pub(crate) outcome: Result<Outcome, NoOutcome>,
}
