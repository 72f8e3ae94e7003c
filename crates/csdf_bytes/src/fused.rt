//! A device that fails.

ghost use Rattle.std.specs.Prelude.{◌≡◌, ◌↔◌, ◌+◌, ◌<◌, true, false, IsErr, IfOk, OnErr};
ghost use Rattle.std.specs.Io.KnownBytes.{Keeps};
ghost use Rattle.csdf_bytes.specs.Device.{Emits, Fetches, Fuse, is_blown};

use crate::device::{DeviceFailed, Intake, Outlet};
use std::marker::Model;

/// A device that passes a given number of calls on to another device, and then fails for good.
/// It is there for tests.
#[derive(Drop)]
pub struct Fused<D> {
    device: D,
    calls: u32,
    has_failed: bool,
}

/// It is seen as its device, the number of calls that it still passes on, and its mark.
impl<D> Model for Fused<D> {
    ghost Value = { Fuse D };

    ghost view = { λ s. record { device = s.device; calls = s.calls; failed = s.has_failed } };
}

impl<D> Fused<D> {
    /// A device that passes so many calls on.
    pub fn new(device: D, calls: u32) -> Fused<D>
        ensures { result ≡ record { device = device; calls = calls; failed = false } }
    {
        Fused {
            device,
            calls,
            has_failed: false,
        }
    }

    /// Whether no call passes any more.
    fn is_blown(&self) -> bool
        ensures { result ≡ is_blown self.now }
    {
        self.has_failed || self.calls == 0
    }
}

impl<I: Intake> Intake for Fused<I> {
    ghost left = { λ s. I.left s.device };

    ghost failed = { λ s. s.failed };

    fn fetch(&mut self, buffer: &mut [u8]) -> Result<usize, DeviceFailed>
        ensures mark { IsErr result ↔ (self.new.failed ≡ true) }
        ensures stays { self.old.failed ≡ true → self.new.failed ≡ true }
        ensures fetched { IfOk result
            (λ n. Fetches (I.left self.old.device) (I.left self.new.device) buffer.new n) }
        ensures kept { OnErr result (Keeps (I.left self.old.device) (I.left self.new.device)) }
        ensures spent { self.old.calls ≡ 0 → IsErr result }
        ensures blown { is_blown self.old ≡ true → self.new ≡ record self.old { failed = true } }
        ensures passes { 0 < self.old.calls → self.old.failed ≡ false
            → IsErr result ↔ (I.failed self.new.device ≡ true) }
        ensures counts { 0 < self.old.calls → self.old.failed ≡ false
            → self.new.calls + 1 ≡ self.old.calls }
    {
        let outcome = if self.is_blown() {
            Err(DeviceFailed)
        } else {
            self.calls -= 1;
            self.device.fetch(buffer)
        };
        self.has_failed = outcome.is_err();
        outcome
    }
}

impl<O: Outlet> Outlet for Fused<O> {
    ghost written = { λ s. O.written s.device };

    ghost failed = { λ s. s.failed };

    fn emit(&mut self, bytes: &[u8]) -> Result<usize, DeviceFailed>
        ensures mark { IsErr result ↔ (self.new.failed ≡ true) }
        ensures stays { self.old.failed ≡ true → self.new.failed ≡ true }
        ensures emitted { IfOk result
            (λ n. Emits (O.written self.old.device) (O.written self.new.device) bytes.now n) }
        ensures kept { OnErr result (Keeps (O.written self.old.device) (O.written self.new.device)) }
        ensures spent { self.old.calls ≡ 0 → IsErr result }
        ensures blown { is_blown self.old ≡ true → self.new ≡ record self.old { failed = true } }
        ensures passes { 0 < self.old.calls → self.old.failed ≡ false
            → IsErr result ↔ (O.failed self.new.device ≡ true) }
        ensures counts { 0 < self.old.calls → self.old.failed ≡ false
            → self.new.calls + 1 ≡ self.old.calls }
    {
        let outcome = if self.is_blown() {
            Err(DeviceFailed)
        } else {
            self.calls -= 1;
            self.device.emit(bytes)
        };
        self.has_failed = outcome.is_err();
        outcome
    }
}
