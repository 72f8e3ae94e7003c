//! The two sides of an actor.

/// A side of an actor. What holds of inputs and outputs alike is said and done once, over the side.
#[derive(Clone, Copy)]
pub(crate) enum Side {
    /// Where channels end at it.
    Input,
    /// Where channels begin at it.
    Output,
}
