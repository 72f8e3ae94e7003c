//! How many periods a segment has.

ghost use Rattle.std.specs.Prelude.{All, ◌<◌, ◌≡◌, ◌↔◌, ◌*◌, ◌≤◌, ℕ, length, map, max, min, IfSome};
ghost use Rattle.csdf_analysis.specs.Acceptance.{Accepted};
ghost use Rattle.csdf_floor.specs.Work.{HasFewFirings};
ghost use Rattle.csdf_model.specs.Graph.{channel_view};
ghost use Rattle.csdf_floor.specs.Continuing.{given_in};
ghost use Rattle.csdf_run.specs.Totals.{capped};
ghost use Rattle.csdf_stream.specs.Lengths.{FitsBelow, IsMostBelow, IsLastLength, IsUsualLength};

use csdf_analysis::Accepted;
use csdf_floor::{MAX_FEED_TOKENS, given_to, most_periods};
use csdf_model::Channel;

/// How many tokens a segment takes of a source where its length is not given, at most.
pub const SEGMENT_TOKENS: u64 = 65_536;

// In digits, as documents tell it: a limit that is changed fails here.
const _: () = prove!(SEGMENT_TOKENS == 65_536);

/// How many tokens the actor's first `firings` firings put into these channels, or 2^64 - 1 where they are
/// more.
pub(crate) fn tokens_given(channels: &[Channel], actor: u32, firings: u32) -> u64
    ensures { result ≡ capped (given_in (map channel_view channels.now) actor firings) }
{
    let mut sum: u64 = 0;
    for channel in channels {
        sum = sum.saturating_add(given_to(channel, actor, firings));
    }
    sum
}

/// The most periods, `most` of them at most, of which each takes so many tokens, with which there are no
/// more than `limit`.
fn within(limit: u64, tokens: u64, most: u32) -> u32
    ensures { (n : ℕ) → (n ≤ result) ↔ ((n ≤ most) × (n * tokens ≤ limit)) }
{
    if tokens == 0 || u64::from(most) <= limit / tokens {
        return most;
    }
    (limit / tokens) as u32
}

/// The most periods in which no actor makes more than 16,384,000 firings and each source gives no more than
/// `limit` tokens, by what it gives in one.
pub(crate) fn most_below(accepted: &Accepted, sources: &[u32], limit: u64) -> u32
    requires { All (λ i. i < length accepted.now.q) sources.now }
    ensures most { IsMostBelow accepted.now sources.now limit result }
    ensures few { (n : ℕ) → n ≤ max 1 result → HasFewFirings accepted.now n }
{
    let graph = accepted.graph();
    let firings = accepted.vector().q.as_slice();
    let mut most = most_periods(accepted);
    for source in sources {
        let tokens = tokens_given(graph.channels(), *source, firings[*source as usize]);
        most = within(limit, tokens, most);
    }
    most
}

/// The greater of 1 and the number.
fn at_least_one(number: u32) -> u32
    ensures { result ≡ max 1 number }
{
    if number < 1 { 1 } else { number }
}

/// How many periods a segment has: so many as are asked for, where its sources' tokens are no more than
/// 1,000,000 each; where nothing is asked, the most with which they are no more than 65,536; and one at least.
pub(crate) fn usual_length(accepted: &Accepted, sources: &[u32], segment: Option<u32>) -> u32
    requires { All (λ i. i < length accepted.now.q) sources.now }
    ensures usual { IsUsualLength accepted.now sources.now segment result }
    ensures few { HasFewFirings accepted.now result }
{
    match segment {
        Some(periods) => at_least_one(periods.min(most_below(
            accepted,
            sources,
            MAX_FEED_TOKENS as u64,
        ))),
        None => at_least_one(most_below(accepted, sources, SEGMENT_TOKENS)),
    }
}

/// How many periods the last segment has, where a source has run dry: as many as one has where nothing is
/// asked, and no fewer than any other.
pub(crate) fn last_length(accepted: &Accepted, sources: &[u32], usual: u32) -> u32
    requires sources { All (λ i. i < length accepted.now.q) sources.now }
    requires few { HasFewFirings accepted.now usual }
    ensures last { IsLastLength accepted.now sources.now usual result }
    ensures few { HasFewFirings accepted.now result }
{
    usual.max(usual_length(accepted, sources, None))
}
