//! The samples of bytes that are in memory.

ghost use Rattle.std.specs.Prelude.{◌≡◌, ◌+◌, ◌*◌, ◌<◌, ◌≤◌, ◌++◌, length, vec_len, vec_capacity, IsOk, OnOk};
ghost use Rattle.csdf_bytes.specs.Samples.{first_samples, size_of};

use crate::sample_format::SampleFormat;
use std::alloc::AllocError;

/// How many samples were read, and whether memory was wanting for the next.
#[derive(Clone, Copy)]
pub struct Pushed {
    /// How many samples were read.
    pub count: usize,
    /// How many bytes they have.
    pub used: usize,
    /// That a growth was refused.
    pub outcome: Result<(), AllocError>,
}

/// Appends the first samples of some bytes: so many at most.
pub fn push_samples(
    format: SampleFormat,
    bytes: &[u8],
    most: usize,
    tokens: &mut Vec<i32>,
) -> Pushed
    ensures few { result.count ≤ most }
    ensures used { result.used ≡ size_of format * result.count }
    ensures within { result.used ≤ length bytes.now }
    ensures values { tokens.new.items
        ≡ tokens.old.items ++ first_samples format result.count bytes.now }
    ensures whole { OnOk result.outcome (result.count < most
        → length bytes.now < result.used + size_of format) }
    ensures len { vec_len tokens.new ≡ vec_len tokens.old + result.count }
    ensures capacity { vec_capacity tokens.old ≤ vec_capacity tokens.new }
    ensures room { vec_len tokens.old + most ≤ vec_capacity tokens.old → IsOk result.outcome }
{
    let size = format.size();
    let mut used = 0;
    let mut count = 0;
    while count < most && bytes.len() - used >= size {
        let value = format.value_of(&bytes[used..used + size]);
        if tokens.push(value).is_err() {
            return Pushed {
                count,
                used,
                outcome: Err(AllocError),
            };
        }
        used += size;
        count += 1;
    }
    Pushed {
        count,
        used,
        outcome: Ok(()),
    }
}
