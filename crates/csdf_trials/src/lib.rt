//! Token files and samples, the graph, the analysis, the pool, the core, the journal and the answers tried
//! out: worked examples, on their public calls alone. They are a crate of their own, since a crate with tests is proved twice.
#![tactic(auto)]

#[cfg(test)]
mod accept_tests;
#[cfg(test)]
mod analysis_tests;
#[cfg(test)]
mod block_tests;
#[cfg(test)]
mod byte_tests;
#[cfg(test)]
mod core_tests;
#[cfg(test)]
mod explained_tests;
#[cfg(test)]
mod graph_tests;
#[cfg(test)]
mod journal_tests;
#[cfg(test)]
mod memory_tests;
#[cfg(test)]
mod misfit_tests;
#[cfg(test)]
mod note_tests;
#[cfg(test)]
mod period_tests;
#[cfg(test)]
mod piece_tests;
#[cfg(test)]
mod pool_tests;
#[cfg(test)]
mod question_tests;
#[cfg(test)]
mod room_tests;
#[cfg(test)]
mod sample_tests;
#[cfg(test)]
mod script_tests;
#[cfg(test)]
mod searches;
#[cfg(test)]
mod shared;
#[cfg(test)]
mod stall_tests;
