//! Workers that run a floor: several round one lock, or the calling thread alone.
#![tactic(auto)]

mod actors;
mod alone;
mod claims;
mod gate;
mod gave_up;
mod hand;
mod heavy;
mod monitor;
mod policy;
mod ready_set;
mod run_end;
mod threads;
mod told;
mod worker;

pub use alone::run_alone;
pub use gate::{Gate, Open};
pub use heavy::gains_by_workers;
pub use policy::Crew;
pub use threads::run_crew;
pub use told::Told;
