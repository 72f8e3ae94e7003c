//! Analysis of cyclo-static dataflow graphs: the least repetition vector, schedules of a period, and
//! the least capacities under which it completes.
#![tactic(auto)]

mod accepted;
mod balance;
mod calls;
mod demand;
mod fault;
mod gcd;
mod laws;
mod length;
pub mod mask;
mod members;
mod most;
mod neighbours;
mod net;
mod room;
mod run;
mod stall;
mod vector;
mod waits;

pub use accepted::{Accepted, accept};
pub use calls::alone::{Tight, tight_channel};
pub use calls::capacities::capacities;
pub use calls::demand::demand_of;
pub use calls::raise::raise;
pub use calls::relief::{Relief, relief_of};
pub use calls::repetition::repetition;
pub use calls::schedule::schedule;
pub use calls::stall::stall_of;
pub use demand::{Demand, Ratio};
pub use fault::AcceptFault;
pub use laws::{
    every_schedule_goes_on, full_capacity_suffices, greater_capacities_complete,
    own_capacities_are_needed, room_holds_periods, room_is_accepted, room_is_refused,
};
pub use length::Length;
pub use most::most_firings;
pub use neighbours::{consumers_of, producers_of};
pub use room::{
    Refused, Room, accept_in_room, accept_or_hand_back, accept_with_room, auto_room, give_room,
};
pub use stall::{Bounds, Stall, Wait};
pub use vector::Vector;
