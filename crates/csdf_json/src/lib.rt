//! JSON values, each on a line of its own: the members of objects, and the line of what is written.
#![tactic(auto)]

mod line;
mod member;

pub use line::{json_writer, line_of};
pub use member::{open_list, put_flag, put_number, put_text};
