//! What the words of the command line ask for, by the library `clap`, and the texts of help.
#![tactic(auto)]

mod command;
mod help;
mod order;
mod rows;
mod workers;

pub use command::{Request, Unread, form_of, request_of};
pub use order::{Folders, Inquiry, RunWords, StreamWords};
pub use workers::Workers;
