//! What a run answers.

use crate::ending::Ending;
use crate::fault::RunFault;
use crate::fed::Fed;
use csdf_journal::Journal;

/// What is told of a channel at the end of a run.
#[derive(Clone, Copy, Debug, PartialEq, Eq)]
pub struct ChannelReport {
    /// How many tokens were written to it, beside its initial ones.
    pub written: u32,
    /// How many tokens were taken from it.
    pub taken: u32,
    /// How many tokens are left in it.
    pub held: u32,
    /// The most tokens that were in it at one time, the initial ones included.
    pub peak: u32,
    /// The most tokens that it may hold.
    pub capacity: u32,
    /// Whether it is open.
    pub is_open: bool,
}

/// The end of a run.
#[derive(Debug, Drop)]
pub struct Outcome {
    /// Why no firing follows.
    pub ending: Ending,
    /// What each sink took, in order; empty for an actor that is no sink.
    pub sinks: Vec<Vec<i32>>,
    /// The journal of all moves, which keeps them where the floor did.
    pub journal: Journal,
    /// What is told of each channel, in file order.
    pub report: Vec<ChannelReport>,
    /// The tokens that each channel holds, in file order.
    pub left: Vec<Vec<i32>>,
}

/// A run that has ended: what it was of, and its outcome, or why there is none.
#[derive(Drop)]
pub struct Settled {
    /// The graph and the tokens that were run, as they were handed in.
    pub fed: Fed,
    /// The outcome.
    pub outcome: Result<Outcome, RunFault>,
}
