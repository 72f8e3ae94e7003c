//! What a device of bytes is.

ghost use Rattle.std.specs.Prelude.{◌≡◌, ◌↔◌, ℕ, List, Bool, true, Option, IsErr, IfOk, OnErr};
ghost use Rattle.std.specs.Io.KnownBytes.{Keeps};
ghost use Rattle.csdf_bytes.specs.Device.{Emits, Fetches};

/// A device failed. Each later call of it fails too.
#[derive(Clone, Copy, Debug, PartialEq, Eq)]
pub struct DeviceFailed;

/// A device that bytes come from.
pub trait Intake {
    /// The bytes that are left, where they are known.
    ghost left: { Self → Option (List ℕ) };

    /// The mark, which the first failure sets for good.
    ghost failed: { Self → Bool };

    /// Puts bytes at the front of the buffer, and tells how many: where it has room, 0 only at
    /// the end of input. A failure takes none of those that are left.
    fn fetch(&mut self, buffer: &mut [u8]) -> Result<usize, DeviceFailed>
        ensures mark { IsErr result ↔ (failed self.new ≡ true) }
        ensures stays { failed self.old ≡ true → failed self.new ≡ true }
        ensures fetched { IfOk result (λ n. Fetches (left self.old) (left self.new) buffer.new n) }
        ensures kept { OnErr result (Keeps (left self.old) (left self.new)) };
}

/// A device that bytes go to.
pub trait Outlet {
    /// The bytes that it has taken, where they are known.
    ghost written: { Self → Option (List ℕ) };

    /// The mark, which the first failure sets for good.
    ghost failed: { Self → Bool };

    /// Takes bytes from the front of the slice, and tells how many: at least one, where there
    /// is one. A failure takes none.
    fn emit(&mut self, bytes: &[u8]) -> Result<usize, DeviceFailed>
        ensures mark { IsErr result ↔ (failed self.new ≡ true) }
        ensures stays { failed self.old ≡ true → failed self.new ≡ true }
        ensures emitted { IfOk result
            (λ n. Emits (written self.old) (written self.new) bytes.now n) }
        ensures kept { OnErr result (Keeps (written self.old) (written self.new)) };
}
