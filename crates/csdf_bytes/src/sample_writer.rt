//! Raw samples, written to a device.

ghost use Rattle.std.specs.Prelude.{◌≡◌, ◌+◌, ◌*◌, ◌≤◌, true, length, take, IfOk, OnErr, OnOk};
ghost use Rattle.std.specs.Io.KnownBytes.{Appends};
ghost use Rattle.csdf_bytes.specs.Device.{EmitsSome};
ghost use Rattle.csdf_bytes.specs.Samples.{clipped_count, sample_bytes};

use crate::device::Outlet;
use crate::outlet::{WriteFault, write_bytes};
use crate::sample_format::SampleFormat;

/// How many samples are written at a time.
const SAMPLES: usize = 1_024;

/// The bytes of the buffer that they are written through: a sample has four at most.
const ROOM: usize = 4_096;

/// Writes the samples of the tokens, and tells how many of them are none of the format: for
/// each of these the nearest number of the format is written.
///
/// The samples go out through one buffer. It takes no memory. `WriteFault` is answered only where
/// the writer failed. All that was written has been handed to the writer when the call returns.
pub fn write_samples<O: Outlet>(
    writer: &mut O,
    format: SampleFormat,
    tokens: &[i32],
) -> Result<usize, WriteFault>
    ensures written { OnOk result
        (Appends (O.written writer.old) (O.written writer.new) (sample_bytes format tokens.now)) }
    ensures begun { OnErr result
        (EmitsSome (O.written writer.old) (O.written writer.new) (sample_bytes format tokens.now)) }
    ensures clipped { IfOk result (λ n. n ≡ clipped_count format tokens.now) }
    ensures marked { OnErr result (O.failed writer.new ≡ true) }
    ensures unmarked { OnOk result (O.failed writer.new ≡ O.failed writer.old) }
{
    let mut buffer = [0; ROOM];
    let mut done = 0;
    let mut clipped = 0;
    while done < tokens.len() {
        let count = SAMPLES.min(tokens.len() - done);
        let put = put_samples(&mut buffer, format, &tokens[done..done + count]);
        if let Err(fault) = write_bytes(writer, &buffer[..put.used]) {
            return Err(fault);
        }
        done += count;
        clipped += put.clipped;
    }
    Ok(clipped)
}

/// What was put into a buffer.
#[derive(Clone, Copy)]
struct Put {
    /// How many bytes the samples have.
    used: usize,
    /// How many numbers are none of the format.
    clipped: usize,
}

/// Puts the samples of tokens at the front of some bytes.
fn put_samples(bytes: &mut [u8], format: SampleFormat, tokens: &[i32]) -> Put
    requires { 4 * length tokens.now ≤ length bytes.old }
    ensures length { length bytes.new ≡ length bytes.old }
    ensures within { result.used ≤ length bytes.new }
    ensures samples { take result.used bytes.new ≡ sample_bytes format tokens.now }
    ensures clipped { result.clipped ≡ clipped_count format tokens.now }
{
    let size = format.size();
    let mut used = 0;
    let mut clipped = 0;
    for token in tokens {
        if !format.fits(*token) {
            clipped += 1;
        }
        format.put(&mut bytes[used..used + size], format.clamp(*token));
        used += size;
    }
    Put { used, clipped }
}
