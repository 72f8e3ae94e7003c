//! What the program `csdf` tells of a run or a stream: how far it has come, by how many workers, and its report,
//! or why there is none; what it tells of words that ask for nothing, and where it waits for a graph file.
#![tactic(auto)]

mod crew;
mod flow_report;
mod no_run;
mod progress;
mod refused;
mod report;
mod telling;
mod waiting;

pub use crew::{chosen, workers_for, workers_of};
pub use flow_report::stream_report;
pub use no_run::run_fault;
pub use progress::{FlowProgress, Progress};
pub use refused::{refuse_lengths, refuse_out, refuse_room, refuse_workers};
pub use report::report_object;
pub use waiting::tell_waiting;
