//! Calls that take memory, each at a small, a middle and the greatest size that the formats allow. No clause can
//! say that memory suffices: here each of them has to succeed. `tests/limits/sizes` runs the commands so, and with
//! them the calls that they make.

mod analysis_tests;
mod core_tests;
mod floor_tests;
mod graph_tests;
mod job_tests;
mod rows;
mod run_tests;
