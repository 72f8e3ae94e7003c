//! A device over bytes in memory.

ghost use Rattle.std.specs.Prelude.{◌≡◌, ℕ, List, false, Some};

use crate::device::{DeviceFailed, Intake};
use std::marker::Model;

/// A device over bytes in memory, which never fails.
#[derive(Drop)]
pub struct Slice<'a> {
    bytes: &'a [u8],
}

/// It is seen as the bytes that are left.
impl<'a> Model for Slice<'a> {
    ghost Value = { List ℕ };

    ghost view = { λ s. s.bytes.now };
}

impl<'a> Slice<'a> {
    /// A device that gives these bytes.
    pub fn new(bytes: &'a [u8]) -> Slice<'a>
        ensures { result ≡ bytes.now }
    {
        Slice { bytes }
    }
}

impl Intake for Slice<'_> {
    ghost left = { λ s. Some s };

    ghost failed = { λ _. false };

    fn fetch(&mut self, buffer: &mut [u8]) -> Result<usize, DeviceFailed> {
        let count = self.bytes.len().min(buffer.len());
        let (front, rest) = self.bytes.split_at(count);
        buffer[..count].copy_from_slice(front);
        self.bytes = rest;
        Ok(count)
    }
}
