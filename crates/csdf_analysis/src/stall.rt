//! Where a run of a period stands still, and what its actors wait for there.

/// The capacities that bound a run.
#[derive(Clone, Copy, Debug, PartialEq, Eq)]
pub enum Bounds {
    /// The full ones: of each channel its initial tokens and all that its producer puts in within
    /// a period.
    Full,
    /// The given ones, and of each other channel the full one.
    Given,
}

/// What an actor waits for that has fired less often than in a period.
#[derive(Clone, Copy, Debug, PartialEq, Eq)]
pub enum Wait {
    /// Tokens of this channel: the first input, in file order, that holds fewer than the actor's
    /// next firing takes.
    Tokens(u32),
    /// Room in this channel: each input holds enough, and this is the first output, in file order,
    /// that would then hold more than its capacity.
    Room(u32),
}

/// Where a run stands still: no actor that has fired less often than in a period is able to fire.
#[derive(Debug, Drop)]
pub struct Stall {
    /// The capacity of each channel, in file order.
    pub bounds: Vec<u32>,
    /// How often each actor has fired, in file order.
    pub counts: Vec<u32>,
    /// How many tokens each channel holds, in file order.
    pub held: Vec<u32>,
    /// What each actor waits for, in file order: nothing where it has fired as often as in a
    /// period.
    pub waits: Vec<Option<Wait>>,
}
