//! Graph files: graphs, and the scripts of moves that they may hold.
#![tactic(auto)]

mod checks;
mod connected;
mod fault;
mod graph_and_script;
mod links;
mod misfit;
mod names;
mod notes;
mod passes;
mod ranges;
mod read;
mod refusal;
mod script;
mod script_text;
mod shape;
mod tree;

pub use checks::ports_fit;
pub use fault::{At, GraphFault};
pub use graph_and_script::{GraphAndScript, read_graph_and_script};
pub use names::is_name;
pub use read::read_graph;
pub use refusal::{Refusal, read_graph_explained, read_script_explained};
pub use script::Script;
pub use script_text::read_script;
