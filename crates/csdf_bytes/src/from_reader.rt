//! A device over a reader of std.

ghost use Rattle.std.specs.Prelude.{◌≡◌, false};
ghost use Rattle.csdf_bytes.specs.Device.{Marked};

use crate::device::{DeviceFailed, Intake};
use std::io::Read;
use std::marker::Model;

/// A device over a reader of std. Any error is a failure.
#[derive(Drop)]
pub struct FromReader<R> {
    reader: R,
    has_failed: bool,
}

/// It is seen as its reader and its mark.
impl<R> Model for FromReader<R> {
    ghost Value = { Marked R };

    ghost view = { λ s. record { device = s.reader; failed = s.has_failed } };
}

impl<R> FromReader<R> {
    /// A device that gives what the reader gives.
    pub fn new(reader: R) -> FromReader<R>
        ensures { result ≡ record { device = reader; failed = false } }
    {
        FromReader {
            reader,
            has_failed: false,
        }
    }
}

impl<R: Read> Intake for FromReader<R> {
    ghost left = { λ s. R.remaining s.device };

    ghost failed = { λ s. s.failed };

    fn fetch(&mut self, buffer: &mut [u8]) -> Result<usize, DeviceFailed> {
        if self.has_failed {
            return Err(DeviceFailed);
        }
        match self.reader.read(buffer) {
            Ok(count) => Ok(count),
            Err(_) => {
                self.has_failed = true;
                Err(DeviceFailed)
            }
        }
    }
}
