//! The files of a command over a `Disk`: the graph file, token files, files that are put, which of them may not
//! be one and the same, and why a graph file cannot be read.
#![tactic(auto)]

mod apart;
mod files;
mod unread_file;

pub use apart::{keep_apart, keep_sinks_apart};
pub use files::{feed_tokens, graph_bytes, path_in, put_file, token_path};
pub use unread_file::{explain_unread, is_of_file};
