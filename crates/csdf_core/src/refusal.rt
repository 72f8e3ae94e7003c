//! Why a core refuses a move.

/// Why a move was refused: for each move, the first that applies.
#[derive(Clone, Copy, Debug, PartialEq, Eq)]
pub enum Refusal {
    /// There is no such actor or channel.
    Unknown,
    /// The actor is not idle; of a close, the producer is to write.
    Busy,
    /// The actor has made as many firings as it may.
    Spent,
    /// The channel, an output of the actor, is closed.
    Closed(u32),
    /// The source's file has too few tokens for the firing.
    Dry,
    /// The channel, an input, has too few tokens.
    Short(u32),
    /// The channel, an output, would hold more than its capacity.
    Full(u32),
    /// As many firings have begun as may, of all actors together.
    Stopped,
    /// The cells for what the firing writes are held or reserved.
    NoCells,
    /// The actor has not begun, or has read already.
    NotBegun,
    /// The actor has not read, or has written already.
    NotRead,
    /// The tokens are not as many as the firing writes.
    WrongCount,
    /// The actor has not written.
    NotWritten,
}
