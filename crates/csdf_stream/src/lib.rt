//! A stream of tokens of any length through a graph, from devices to devices.
#![tactic(auto)]

mod end;
mod feeding;
mod flow;
mod lengths;
mod options;
mod ports;
mod reader;
mod report;
mod writer;

pub use end::{StreamEnd, StreamFault, StreamRun};
pub use flow::run_stream;
pub use lengths::SEGMENT_TOKENS;
pub use options::{StreamOptions, TokenFormat};
pub use ports::{sinks_of, sources_of};
pub use reader::ReaderFault;
pub use report::printed_stream;
