//! Jobs, claims, floors, runs and streams tried out: worked examples, on their public calls alone. They
//! are a crate of their own, since a crate with tests is proved twice, and apart from the other tests, so
//! that the two are proved side by side.
#![tactic(auto)]

#[cfg(test)]
mod beside;
#[cfg(test)]
mod block_tests;
#[cfg(test)]
mod claim_tests;
#[cfg(test)]
mod crew_tests;
#[cfg(test)]
mod draft_tests;
#[cfg(test)]
mod flow_tests;
#[cfg(test)]
mod gate_tests;
#[cfg(test)]
mod job_tests;
#[cfg(test)]
mod kernel_tests;
#[cfg(test)]
mod length_tests;
#[cfg(test)]
mod limits;
#[cfg(test)]
mod memory_tests;
#[cfg(test)]
mod most_tests;
#[cfg(test)]
mod oracle_tests;
#[cfg(test)]
mod outcome_tests;
#[cfg(test)]
mod random_graphs;
#[cfg(test)]
mod random_tests;
#[cfg(test)]
mod run_tests;
#[cfg(test)]
mod shared;
#[cfg(test)]
mod stream_tests;
#[cfg(test)]
mod text_tests;
