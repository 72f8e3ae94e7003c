//! A whole input, read from a device.

ghost use Rattle.std.specs.Prelude.{◌≡◌, ◌↔◌, ◌<◌, ◌≤◌, true, Err, length, vec_len, IfOk, IfSome, OnOk};
ghost use Rattle.std.specs.Io.KnownBytes.{IsAtEnd};
ghost use Rattle.csdf_bytes.specs.Device.{TakesAtMost};

use crate::device::{DeviceFailed, Intake};
use std::alloc::Global;
use thiserror::Error;

/// Why a whole input was not read.
#[derive(Clone, Copy, Debug, PartialEq, Eq, Error)]
pub enum InputFault {
    /// The reader failed.
    #[error("the reader failed")]
    Read,
    /// The input has more than 16,777,216 bytes.
    #[error("the input is too long")]
    TooLong,
    /// A growth was refused.
    #[error("out of memory")]
    Memory,
}

/// The greatest number of bytes of an input.
pub const INPUT_LIMIT: usize = 16_777_216;

// In digits, as documents tell it: a limit that is changed fails here.
const _: () = prove!(INPUT_LIMIT == 16_777_216);

/// How many bytes a reader is asked for at a time.
const PIECE: usize = 65_536;

/// All bytes to the end of the input, or why there are none. Want of memory says nothing of
/// the input.
///
/// No more than 16,777,217 bytes are asked for in all, in pieces of 65,536.
pub fn read_bytes<I: Intake>(alloc: Global, reader: &mut I) -> Result<Vec<u8>, InputFault>
    ensures all { IfOk result (λ v. IfSome (I.left reader.old) (λ bytes. v.items ≡ bytes)) }
    ensures short { IfOk result (λ v. vec_len v ≤ INPUT_LIMIT) }
    ensures ended { OnOk result (IsAtEnd (I.left reader.new)) }
    ensures read { result ≡ Err InputFault.Read ↔ (I.failed reader.new ≡ true) }
    ensures long { result ≡ Err InputFault.TooLong
        → IfSome (I.left reader.old) (λ bytes. INPUT_LIMIT < length bytes) }
    ensures few { TakesAtMost 16777217 (I.left reader.old) (I.left reader.new) }
{
    let mut bytes = Vec::new(alloc);
    let mut buffer = [0; PIECE];
    loop {
        let room = PIECE.min(INPUT_LIMIT + 1 - bytes.len());
        let count = match reader.fetch(&mut buffer[..room]) {
            Ok(count) => count,
            Err(DeviceFailed) => return Err(InputFault::Read),
        };
        if count == 0 {
            return Ok(bytes);
        }
        if count > INPUT_LIMIT - bytes.len() {
            return Err(InputFault::TooLong);
        }
        if bytes.extend_from_slice(&buffer[..count]).is_err() {
            return Err(InputFault::Memory);
        }
    }
}
