//! The model: cyclo-static dataflow graphs and how many tokens their firings move.
#![tactic(auto)]

mod graph;
mod limits;
mod numbers;
mod parts;
mod ports;
mod rates;

pub use graph::Graph;
pub use limits::{
    MAX_ACTORS, MAX_CAPACITY, MAX_CELLS, MAX_CHANNELS, MAX_CYCLES_PER_PERIOD, MAX_FIRINGS,
    MAX_FIRINGS_PER_ACTOR, MAX_FIRINGS_PER_PERIOD, MAX_INITIAL_TOKENS, MAX_NAME_BYTES, MAX_PERIODS,
    MAX_PHASES, MAX_ROOM, MAX_SCRIPT_LIMIT, MAX_SCRIPT_LINES, MAX_SCRIPT_SUPPLY, MAX_SHIFT,
    MAX_TOKENS_PER_FIRING, MAX_TOTAL_PER_FIRING, MAX_WEIGHT, MAX_WEIGHTS, MIN_WEIGHT,
};
pub use numbers::{actor_name, channel_name, number_in};
pub use parts::{Actor, Channel, Kernel};
pub use rates::{rate, total};
