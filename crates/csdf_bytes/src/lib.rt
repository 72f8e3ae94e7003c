//! Devices that give and take bytes, token files and raw samples.
#![tactic(auto)]

mod buffer;
mod device;
mod from_reader;
mod fused;
mod intake;
mod outlet;
mod quick_line;
mod sample_format;
mod sample_laws;
mod sample_reader;
mod sample_writer;
mod slice;
mod to_writer;
mod token_file;
mod token_line;
mod token_reader;
mod token_word;
mod tokens;
mod whole_lines;
mod whole_samples;

pub use device::{DeviceFailed, Intake, Outlet};
pub use from_reader::FromReader;
pub use fused::Fused;
pub use intake::{INPUT_LIMIT, InputFault, read_bytes};
pub use outlet::{WriteFault, write_bytes};
pub use sample_format::SampleFormat;
pub use sample_laws::{sample_reads_add, written_samples_read_back};
pub use sample_reader::{SampleFault, SampleReader};
pub use sample_writer::write_samples;
pub use slice::Slice;
pub use to_writer::ToWriter;
pub use token_file::read_token_file;
pub use token_reader::{ReadFault, Reading, TokenReader};
pub use token_word::{WordFault, token_of, without_carriage_return};
pub use tokens::{TOKEN_LIMIT, TokenFault, read_tokens, write_tokens, written_tokens_read_back};
