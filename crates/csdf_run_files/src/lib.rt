//! What the program `csdf` does where its words ask for a run: of the graph of a file, over the token files of a
//! folder.
#![tactic(auto)]

mod run;

pub use run::run_files;
