//! The journal of a run: always there for proofs, and kept only where the caller asks for it.
#![tactic(auto)]

mod firings;
mod journal;
mod keeping;
mod note;
mod past;

pub use journal::Journal;
pub use keeping::Keeping;
