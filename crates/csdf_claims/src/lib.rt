//! A board on which workers claim the firings of actors without a lock.
//!
//! The board has one word per actor: `2k` while the actor is idle at firing `k`, and `2k + 1` while some place
//! holds it at `k`. A worker's `Place` is its seat at the board, with a record of what it finished and holds.
//! Every call but the first and the last is made of atomic steps on one word, and none waits for another thread.
#![tactic(auto)]

mod board;
mod laws;
mod place;
mod rule;

pub use board::{Board, Lost, Missing};
pub use laws::{finished_below, finished_once, one_finished, one_holds};
pub use place::Place;
pub use rule::{Track, View};
