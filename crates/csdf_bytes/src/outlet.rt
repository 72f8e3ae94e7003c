//! Bytes, written to a device.

ghost use Rattle.std.specs.Prelude.{◌≡◌, true, OnErr, OnOk};
ghost use Rattle.std.specs.Io.KnownBytes.{Appends};
ghost use Rattle.csdf_bytes.specs.Device.{EmitsSome};

use crate::device::{DeviceFailed, Outlet};
use thiserror::Error;

/// The writer failed. A beginning of the bytes went out before, which may be none of them.
#[derive(Clone, Copy, Debug, PartialEq, Eq, Error)]
#[error("the writer failed")]
pub struct WriteFault;

/// Writes all the bytes, in as many calls as it takes. It takes no memory.
pub fn write_bytes<O: Outlet>(writer: &mut O, bytes: &[u8]) -> Result<(), WriteFault>
    ensures written { OnOk result
        (Appends (O.written writer.old) (O.written writer.new) bytes.now) }
    ensures begun { OnErr result (EmitsSome (O.written writer.old) (O.written writer.new) bytes.now) }
    ensures marked { OnErr result (O.failed writer.new ≡ true) }
    ensures unmarked { OnOk result (O.failed writer.new ≡ O.failed writer.old) }
{
    let mut done = 0;
    while done < bytes.len() {
        match writer.emit(&bytes[done..]) {
            Ok(count) => done += count,
            Err(DeviceFailed) => return Err(WriteFault),
        }
    }
    Ok(())
}
