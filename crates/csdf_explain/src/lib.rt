//! What the program `csdf` tells of a graph file that is refused, and of the token files of its sources.
#![tactic(auto)]

mod circle;
mod explained;
mod explanation;
mod names;
mod stalled;
mod token_note;
mod way;

pub use explained::{explain, explain_with};
pub use token_note::push_token_note;
