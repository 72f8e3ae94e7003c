//! Files of the system as the program csdf needs them: which file a path stands for, a file's bytes or
//! tokens, and a file that is put in its place whole. What is called, and in which order, is said of every
//! system.
#![tactic(auto)]

mod content;
mod disk;
mod locate;
mod look;
mod making;
mod place;
mod put_fault;
mod putting;
mod system;
mod terminal;

pub use content::Content;
pub use disk::{Disk, HostDisk};
pub use making::MadeFile;
pub use place::{FilePlace, Node};
pub use put_fault::PutFault;
