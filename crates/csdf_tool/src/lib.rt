//! What the program `csdf` does with the words of its command line: requests, files, the lines of
//! faults, exit statuses, and what is told at a terminal.
#![tactic(auto)]

mod answer_files;
mod explain_files;
mod program;

pub use csdf_told::tell_waiting;
pub use program::run_words;
