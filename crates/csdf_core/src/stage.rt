//! How far an actor is in its firing.

/// Where an actor stands in its firing.
#[derive(Clone, Copy, Debug, PartialEq, Eq)]
pub enum Stage {
    Idle,
    /// It has begun, and not yet read.
    Begun,
    /// It has read, and not yet written.
    Fetched,
    /// It has written, and not yet finished.
    Written,
}
