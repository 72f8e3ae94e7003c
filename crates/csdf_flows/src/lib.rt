//! What the program `csdf` does where its words ask for a stream: over the files of folders, or from standard input
//! to standard output.
#![tactic(auto)]

mod flow_fault;
mod flow_files;
mod stream;

pub use stream::stream_files;
