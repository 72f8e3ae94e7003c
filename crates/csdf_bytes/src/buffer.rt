//! The bytes that were fetched from a device and not yet read.

ghost use Rattle.std.specs.Prelude.{◌≡◌, ◌↔◌, ◌<◌, ◌≤◌, ◌+◌, ◌-◌, true, [], length, take, drop, vec_len, IfOk, IsErr, IsOk, OnErr, OnOk};
ghost use Rattle.std.specs.Io.KnownBytes.{Consumes, Keeps, IsAtEnd};
ghost use Rattle.csdf_bytes.specs.Buffered.{FetchesTo};
ghost use Rattle.csdf_bytes.specs.Device.{Fetches};

use crate::device::{DeviceFailed, Intake};
use std::alloc::{AllocError, Global};
use std::marker::Model;

/// How many bytes a buffer has room for, and by how many it grows.
const PIECE: usize = 65_536;

/// Bytes that were fetched, in the order in which they came, with room behind them.
#[derive(Drop)]
pub struct Buffer {
    bytes: Vec<u8>,
    start: usize,
    end: usize,
}

/// It is seen as the bytes that it holds, and how many more have room behind them.
impl Model for Buffer {
    ghost use Rattle.std.specs.Prelude.{◌≤◌, ◌-◌, take, drop, vec_len};
    ghost use Rattle.csdf_bytes.specs.Buffered.{Held};
    ghost use Rattle.csdf_bytes.specs.declared.buffer.TheConstants.{PIECE};

    ghost Value = { Held };

    ghost view = { λ s. record { bytes = take (s.end - s.start) (drop s.start s.bytes.items); room = vec_len s.bytes - s.end } };

    ghost invariant = { λ s. (s.start ≤ s.end) × (s.end ≤ vec_len s.bytes) × (PIECE ≤ vec_len s.bytes) };
}

impl Buffer {
    /// An empty buffer.
    pub fn new(alloc: Global) -> Result<Buffer, AllocError>
        ensures { IfOk result (λ buffer. buffer.bytes ≡ []) }
    {
        let bytes = vec![in alloc; 0; PIECE]?;
        Ok(Buffer {
            bytes,
            start: 0,
            end: 0,
        })
    }

    /// The bytes that it holds.
    pub fn held(&self) -> &[u8]
        ensures { result.now ≡ self.now.bytes }
    {
        &self.bytes[self.start..self.end]
    }

    /// Lets go of bytes at the front.
    pub fn let_go(&mut self, count: usize)
        requires { count ≤ length self.old.bytes }
        ensures { self.new.bytes ≡ drop count self.old.bytes }
    {
        self.start += count;
    }

    /// Fetches bytes, of which no more than so many come. Want of memory asks the device for nothing.
    pub fn fetch<I: Intake>(&mut self, device: &mut I, most: usize) -> Result<usize, DeviceFailed>
        requires some { 0 < most }
        requires room { 0 < self.old.room }
        ensures mark { IsErr result ↔ (I.failed device.new ≡ true) }
        ensures stays { I.failed device.old ≡ true → I.failed device.new ≡ true }
        ensures few { IfOk result (λ n. n ≤ most) }
        ensures fetched { IfOk result
            (λ n. FetchesTo (I.left device.old) (I.left device.new) self.old.bytes self.new.bytes n) }
        ensures unchanged { OnErr result (self.new.bytes ≡ self.old.bytes) }
        ensures kept { OnErr result (Keeps (I.left device.old) (I.left device.new)) }
    {
        let end = self.end;
        match fetch_behind(device, &mut self.bytes, end, most) {
            Ok(count) => {
                self.end += count;
                Ok(count)
            }
            Err(DeviceFailed) => Err(DeviceFailed),
        }
    }

    /// Sees that there is room behind the bytes.
    pub fn make_room(&mut self) -> Result<(), AllocError>
        ensures bytes { self.new.bytes ≡ self.old.bytes }
        ensures room { OnOk result (0 < self.new.room) }
        ensures short { length self.old.bytes < PIECE → IsOk result }
    {
        self.move_to_front();
        if self.end == self.bytes.len() {
            let size = self.end.checked_add(PIECE).ok_or(AllocError)?;
            self.bytes.resize(size, 0)?;
        }
        Ok(())
    }

    /// Moves the bytes to the front, so that all room is behind them.
    fn move_to_front(&mut self)
        ensures bytes { self.new.bytes ≡ self.old.bytes }
        ensures large { PIECE ≤ length self.new.bytes + self.new.room }
    {
        let (start, end) = (self.start, self.end);
        self.bytes.copy_within(start..end, 0);
        self.start = 0;
        self.end = end - start;
    }
}

/// Fetches bytes into a slice from a place on, of which no more than so many come.
fn fetch_behind<I: Intake>(
    device: &mut I,
    bytes: &mut [u8],
    end: usize,
    most: usize,
) -> Result<usize, DeviceFailed>
    requires room { end < length bytes.old }
    requires some { 0 < most }
    ensures mark { IsErr result ↔ (I.failed device.new ≡ true) }
    ensures stays { I.failed device.old ≡ true → I.failed device.new ≡ true }
    ensures length { length bytes.new ≡ length bytes.old }
    ensures front { take end bytes.new ≡ take end bytes.old }
    ensures few { IfOk result (λ n. (n ≤ most) × (end + n ≤ length bytes.old)) }
    ensures fetched { IfOk result (λ n. Consumes (I.left device.old) (I.left device.new) (take n (drop end bytes.new))) }
    ensures ended { IfOk result (λ n. n ≡ 0 → IsAtEnd (I.left device.new)) }
    ensures kept { OnErr result (Keeps (I.left device.old) (I.left device.new)) }
{
    let room = most.min(bytes.len() - end);
    device.fetch(&mut bytes[end..end + room])
}
