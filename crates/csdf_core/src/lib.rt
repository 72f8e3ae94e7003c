//! The moves of firings over one shared pool of cells.
#![tactic(auto)]

mod ahead;
mod block_moves;
mod engine;
mod feedback;
mod filling;
mod firing_core;
mod first_refusal;
mod gathering;
mod laws;
mod moves;
mod nexts;
mod own;
mod own_places;
mod plan;
mod planned;
mod playing;
mod readiness;
mod refusal;
mod several;
mod side;
mod stage;
mod transfer;
mod turn;

pub use engine::Block;
pub use feedback::Feedback;
pub use firing_core::Core;
pub use laws::{
    ample_by_default, has_firings, has_period, phases_return, printed_is_period, runs_for_ever,
};
pub use moves::Move;
pub use own::OwnTokens;
pub use playing::{Played, Reply, play, play_on};
pub use refusal::Refusal;
pub use stage::Stage;
pub use turn::Turn;
