//! What a stream answers.

use crate::reader::ReaderFault;
use csdf_floor::{ChannelReport, Ending};
use csdf_run::{NoOutcome, Stream};
use thiserror::Error;

/// What a stream answers that has ended.
#[derive(Debug, Drop)]
pub struct StreamEnd {
    /// Why no firing follows.
    pub ending: Ending,
    /// What is told of each channel, in file order, of the last segment.
    pub report: Vec<ChannelReport>,
    /// Of each sink, in file order, how many of its tokens are none of the format, or 2^64 - 1 where they
    /// are more.
    pub clipped: Vec<u64>,
}

/// Why a stream has no end. The sinks' devices have the tokens of all segments before.
#[derive(Clone, Copy, Debug, PartialEq, Eq, Error)]
pub enum StreamFault {
    /// No tokens came for this actor, a source.
    #[error("tokens of actor {0}: {1}")]
    Source(u32, ReaderFault),
    /// A segment takes more than 1,000,000 tokens of this actor, a source.
    #[error("a segment takes too many tokens of actor {0}")]
    TooMany(u32),
    /// The device of this actor, a sink, failed.
    #[error("the device of actor {0} failed")]
    Sink(u32),
    /// A segment was not run.
    #[error("{0}")]
    Run(NoOutcome),
    /// Memory ran out, which says nothing of the input.
    #[error("out of memory")]
    Memory,
}

/// A stream as it stands at its end, or where a fault ended it, and what it answers.
#[derive(Drop)]
pub struct StreamRun {
    /// The stream: its graph, and what is told of each channel over all segments.
    pub stream: Stream,
    /// What it answers.
    pub end: Result<StreamEnd, StreamFault>,
}
