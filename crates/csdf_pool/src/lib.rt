//! A pool of cells that many queues share.
//!
//! Each queue is a chain of cells, linked by index through one table, and the cells that hold
//! nothing stand in one free list. Cells are taken from the free list's front and given back at
//! its end. Only [`Pool::new`] takes memory.
#![tactic(auto)]

mod ends;
mod fill;
mod iters;
mod pen;
mod pool;
mod rows;

pub use ends::{Ends, splice};
pub use iters::{Cells, Tokens};
pub use pen::Pen;
pub use pool::{NoCell, Pool};
