//! The tokens of sinks, written to their devices.

ghost use Rattle.std.specs.Prelude.{◌≡◌, ◌<◌, ℕ, [], true, length, map, slice_index_or, IfErr, IfOk, OnErr, OnOk};
ghost use Rattle.std.specs.Io.KnownBytes.{Appends};
ghost use Rattle.csdf_bytes.specs.Device.{EmitsSome};
ghost use Rattle.csdf_floor.specs.Work.{feeds_in};
ghost use Rattle.csdf_stream.specs.Marks.{HasFailed};
ghost use Rattle.csdf_stream.specs.Writing.{AreBegun, AreClipped, AreWritten, bytes_in, clipped_in};

use crate::options::TokenFormat;
use csdf_bytes::{Outlet, WriteFault, write_samples, write_tokens};
use csdf_floor::list_at;

/// Writes the tokens in a format, and tells how many of them are none of it.
fn write_in<O: Outlet>(
    device: &mut O,
    format: TokenFormat,
    tokens: &[i32],
) -> Result<usize, WriteFault>
    ensures written { OnOk result (Appends (O.written device.old) (O.written device.new) (bytes_in format tokens.now)) }
    ensures begun { OnErr result (EmitsSome (O.written device.old) (O.written device.new) (bytes_in format tokens.now)) }
    ensures clipped { IfOk result (λ n. n ≡ clipped_in format tokens.now) }
    ensures marked { OnErr result (O.failed device.new ≡ true) }
{
    match format {
        TokenFormat::Text => match write_tokens(device, tokens) {
            Ok(()) => Ok(0),
            Err(fault) => Err(fault),
        },
        TokenFormat::Samples(format) => write_samples(device, format, tokens),
    }
}

/// Writes what each sink took to its device, in file order, and adds up how many tokens are none of the
/// format. The error is the sink whose device failed.
pub(crate) fn write_sinks<O: Outlet>(
    format: TokenFormat,
    sinks: &[u32],
    lists: &[Vec<i32>],
    devices: &mut [O],
    clipped: &mut [u64],
) -> Result<(), u32>
    requires devices { length devices.old ≡ length sinks.now }
    requires clipped { length clipped.old ≡ length sinks.now }
    ensures written { OnOk result (AreWritten format sinks.now (feeds_in lists.now) (map O.written devices.old) (map O.written devices.new)) }
    ensures clipped { OnOk result (AreClipped format sinks.now (feeds_in lists.now) clipped.old clipped.new) }
    ensures many { (length devices.new ≡ length devices.old) × (length clipped.new ≡ length clipped.old) }
    ensures begun { OnErr result (AreBegun format sinks.now (feeds_in lists.now) (map O.written devices.old) (map O.written devices.new)) }
    ensures failed { IfErr result (λ t. (k : ℕ) × (k < length sinks.now) × (slice_index_or sinks.now k t ≡ t)) }
    ensures marked { IfErr result (HasFailed sinks.now (map O.failed devices.new)) }
{
    for k in 0..sinks.len() {
        let tokens = list_at(lists, sinks[k] as usize);
        match write_in(&mut devices[k], format, tokens) {
            Ok(count) => clipped[k] = clipped[k].saturating_add(count as u64),
            Err(_) => return Err(sinks[k]),
        }
    }
    Ok(())
}
