//! What is told of each channel over all segments of a stream.

ghost use Rattle.std.specs.Prelude.{◌≡◌, ◌+◌, IfOk, length, map, max, replicate};
ghost use Rattle.std.specs.List.{zip};
ghost use Rattle.csdf_run.specs.Totals.{capped, no_total, with_report};

use csdf_floor::ChannelReport;
use std::alloc::{AllocError, Global};

/// What is told of a channel over all segments so far.
#[derive(Clone, Copy, Debug, PartialEq, Eq)]
pub struct ChannelTotal {
    /// How many tokens were written to it, beside its initial ones, or 2^64 - 1 where they are more.
    pub written: u64,
    /// How many tokens were taken from it, or 2^64 - 1 where they are more.
    pub taken: u64,
    /// The most tokens that were in it at one time.
    pub peak: u32,
}

/// The sum, or 2^64 - 1 where it is greater.
fn capped_sum(sum: u64, more: u32) -> u64
    ensures { result ≡ capped (sum + more) }
{
    sum.saturating_add(u64::from(more))
}

/// The greater of two numbers.
fn greater(a: u32, b: u32) -> u32
    ensures { result ≡ max a b }
{
    if a < b { b } else { a }
}

/// The total with what is told of a segment more.
fn added(total: ChannelTotal, report: ChannelReport) -> ChannelTotal
    ensures { result ≡ with_report (total, report) }
{
    ChannelTotal {
        written: capped_sum(total.written, report.written),
        taken: capped_sum(total.taken, report.taken),
        peak: greater(total.peak, report.peak),
    }
}

/// Adds what is told of a segment more to the total of each channel.
pub(crate) fn add_report(totals: &mut [ChannelTotal], report: &[ChannelReport])
    requires { length totals.old ≡ length report.now }
    ensures { totals.new ≡ map with_report (zip totals.old report.now) }
{
    for channel in 0..report.len() {
        totals[channel] = added(totals[channel], report[channel]);
    }
}

/// No tokens, for each of so many channels. An error says that memory ran out.
pub(crate) fn no_totals(alloc: Global, channels: usize) -> Result<Vec<ChannelTotal>, AllocError>
    ensures { IfOk result (λ totals. totals.items ≡ replicate channels no_total) }
{
    let none = ChannelTotal {
        written: 0,
        taken: 0,
        peak: 0,
    };
    vec![in alloc; none; channels]
}
