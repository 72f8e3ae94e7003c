//! A text to its writer.

ghost use Rattle.std.specs.Prelude.{◌≡◌, true, IfErr, OnErr, OnOk};
ghost use Rattle.std.specs.Io.KnownBytes.{Appends};

use crate::fault::{DeviceName, ToolFault};
use csdf_bytes::{Outlet, write_bytes};

/// Writes an answer whole.
///
/// The error is [`ToolFault::Device`] of the standard output: the writer failed.
pub fn send<O: Outlet>(writer: &mut O, text: &[u8]) -> Result<(), ToolFault>
    ensures written { OnOk result (Appends (O.written writer.old) (O.written writer.new) text.now) }
    ensures unmarked { OnOk result (O.failed writer.new ≡ O.failed writer.old) }
    ensures refused { IfErr result (λ fault. fault ≡ ToolFault.Device DeviceName.Output) }
    ensures marked { OnErr result (O.failed writer.new ≡ true) }
{
    match write_bytes(writer, text) {
        Ok(()) => Ok(()),
        Err(_) => Err(ToolFault::Device(DeviceName::Output)),
    }
}
