//! What a run takes of the program that it is part of.

use std::alloc::Global;

/// What a run takes of the program that it is part of.
#[derive(Drop)]
pub struct Host<'a, R> {
    /// Starts threads, and waits for them.
    pub rt: &'a R,
    /// Where memory comes from.
    pub alloc: Global,
}
