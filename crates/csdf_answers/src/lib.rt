//! What the program `csdf` answers, from the bytes of a graph file to the text: the replies to the
//! moves of a script, and the answers to questions about the graph; and the lines of faults.
#![tactic(auto)]

mod answer;
mod described;
mod drawing;
mod fault;
mod line;
mod object;
mod printed;
mod question;
mod repeated;
mod replay;
mod sending;
mod session;
mod token_file;
mod turns;
mod words;

pub use described::{describe, describe_as, describe_with_room};
pub use fault::{DeviceName, Lack, Name, ToolFault, unread};
pub use object::{fault_line, memory_line};
pub use question::{Form, Question};
pub use replay::play_script;
pub use sending::send;
pub use session::accept_fault;
pub use token_file::TokenFile;
