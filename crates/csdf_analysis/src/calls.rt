//! The calls that analyse a graph, each in a file of its name.

pub(crate) mod alone;
pub(crate) mod capacities;
pub(crate) mod demand;
pub(crate) mod lowering;
pub(crate) mod raise;
pub(crate) mod relief;
pub(crate) mod repetition;
pub(crate) mod schedule;
pub(crate) mod stall;
