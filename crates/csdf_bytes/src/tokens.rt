//! Token files: one decimal number a line.

ghost use Rattle.std.specs.Prelude.{◌≡◌, ◌≢◌, ◌↔◌, ◌≤◌, true, Ok, Err, length, IfErr, IfOk, IfSome, OnErr, OnOk};
ghost use Rattle.std.specs.Io.KnownBytes.{Appends, IsAtEnd};
ghost use Rattle.csdf_bytes.specs.Device.{EmitsSome, TakesAtMost};
ghost use Rattle.csdf_bytes.specs.TokenText.{token_text, tokens_in};

use crate::device::{Intake, Outlet};
use crate::intake::InputFault;
use crate::outlet::{WriteFault, write_bytes};
use crate::token_file::read_token_file;
use crate::token_line::put_lines;
use std::alloc::Global;
use thiserror::Error;

/// Why the tokens of a file were not read. Lines are counted from 1.
#[derive(Clone, Copy, Debug, PartialEq, Eq, Error)]
pub enum TokenFault {
    /// The reader failed.
    #[error("the reader failed")]
    Read,
    /// There are more than 16,777,216 bytes, or more than 1,000,000 tokens.
    #[error("too many tokens")]
    TooMany,
    /// A line holds something else than a sign or none, followed by digits.
    #[error("line {0} is not a number")]
    Syntax(u32),
    /// A line's number is below -2,147,483,648 or above 2,147,483,647.
    #[error("line {0} is out of range")]
    Range(u32),
    /// A growth was refused.
    #[error("out of memory")]
    Memory,
}

/// The greatest number of tokens of a file.
pub const TOKEN_LIMIT: usize = 1_000_000;

// In digits, as documents tell it: a limit that is changed fails here.
const _: () = prove!(TOKEN_LIMIT == 1_000_000);

/// How many lines are written at a time.
const LINES: usize = 512;

/// The bytes of the buffer that they are written through: a line has twelve at most.
const ROOM: usize = 6_144;

/// The tokens of all the bytes to the end of the input, or the fault of the first faulty line.
///
/// All the bytes are read, also behind a faulty line, before anything is told. Want of memory says
/// nothing of the input.
pub fn read_tokens<I: Intake>(alloc: Global, reader: &mut I) -> Result<Vec<i32>, TokenFault>
    ensures tokens { IfOk result
        (λ v. IfSome (I.left reader.old) (λ bytes. tokens_in bytes ≡ Ok v.items)) }
    ensures fault { IfErr result (λ fault. fault ≢ TokenFault.Read → fault ≢ TokenFault.Memory
        → IfSome (I.left reader.old) (λ bytes. tokens_in bytes ≡ Err fault)) }
    ensures read { result ≡ Err TokenFault.Read ↔ (I.failed reader.new ≡ true) }
    ensures whole { OnOk result (IsAtEnd (I.left reader.new)) }
    ensures few { TakesAtMost 16777217 (I.left reader.old) (I.left reader.new) }
{
    match read_token_file(alloc, reader) {
        Ok(told) => told,
        Err(InputFault::Read) => Err(TokenFault::Read),
        Err(InputFault::TooLong) => Err(TokenFault::TooMany),
        Err(InputFault::Memory) => Err(TokenFault::Memory),
    }
}

/// Writes the text of the tokens: per token its decimal digits, with `-` where it is negative,
/// and a newline.
///
/// The lines go out through one buffer. It takes no memory. `WriteFault` is answered only where the writer failed.
pub fn write_tokens<O: Outlet>(writer: &mut O, tokens: &[i32]) -> Result<(), WriteFault>
    ensures written { OnOk result
        (Appends (O.written writer.old) (O.written writer.new) (token_text tokens.now)) }
    ensures begun { OnErr result
        (EmitsSome (O.written writer.old) (O.written writer.new) (token_text tokens.now)) }
    ensures marked { OnErr result (O.failed writer.new ≡ true) }
    ensures unmarked { OnOk result (O.failed writer.new ≡ O.failed writer.old) }
{
    let mut buffer = [0; ROOM];
    let mut done = 0;
    while done < tokens.len() {
        let count = LINES.min(tokens.len() - done);
        let start = put_lines(&mut buffer, &tokens[done..done + count]);
        if let Err(fault) = write_bytes(writer, &buffer[start..]) {
            return Err(fault);
        }
        done += count;
    }
    Ok(())
}

/// A law: the tokens of the text that is written for tokens are these tokens. The call only
/// reads them, which shows that each is in range.
pub fn written_tokens_read_back(tokens: &[i32])
    requires { length tokens.now ≤ TOKEN_LIMIT }
    ensures { tokens_in (token_text tokens.now) ≡ Ok tokens.now }
{
    for token in tokens {
        // Read for the prover: that a token is within its range.
        let _in_range = *token;
    }
}
