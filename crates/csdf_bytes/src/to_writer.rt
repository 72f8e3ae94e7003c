//! A device over a writer of std.

ghost use Rattle.std.specs.Prelude.{◌≡◌, false};
ghost use Rattle.csdf_bytes.specs.Device.{Marked};

use crate::device::{DeviceFailed, Outlet};
use std::io::Write;
use std::marker::Model;

/// A device over a writer of std. Any error is a failure, and so is a write that takes no byte
/// of a slice that has one.
#[derive(Drop)]
pub struct ToWriter<W> {
    writer: W,
    has_failed: bool,
}

/// It is seen as its writer and its mark.
impl<W> Model for ToWriter<W> {
    ghost Value = { Marked W };

    ghost view = { λ s. record { device = s.writer; failed = s.has_failed } };
}

impl<W> ToWriter<W> {
    /// A device that hands its bytes to the writer. It does not flush.
    pub fn new(writer: W) -> ToWriter<W>
        ensures { result ≡ record { device = writer; failed = false } }
    {
        ToWriter {
            writer,
            has_failed: false,
        }
    }
}

impl<W: Write> Outlet for ToWriter<W> {
    ghost written = { λ s. W.contents s.device };

    ghost failed = { λ s. s.failed };

    fn emit(&mut self, bytes: &[u8]) -> Result<usize, DeviceFailed> {
        if self.has_failed {
            return Err(DeviceFailed);
        }
        match self.writer.write(bytes) {
            Ok(count) if count > 0 || bytes.is_empty() => Ok(count),
            _ => {
                self.has_failed = true;
                Err(DeviceFailed)
            }
        }
    }
}
