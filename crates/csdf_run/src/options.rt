//! How a run is made.

use csdf_analysis::{Length, Room};
use csdf_journal::Keeping;

/// How a run is made: what is asked for from the command line down.
#[derive(Clone, Copy, Debug)]
pub struct RunOptions {
    /// How many workers make firings.
    pub workers: u32,
    /// How long the run goes on.
    pub how_long: Length,
    /// The most firings of all actors together; no limit where it is absent.
    pub firings: Option<u32>,
    /// The room of the channels that have no capacity in the file.
    pub room: Room,
    /// Whether the run's moves are told.
    pub keeping: Keeping,
}
