//! The tokens of a segment, read from the devices of the sources.

ghost use Rattle.std.specs.Prelude.{◌≡◌, ◌⊎◌, ◌++◌, ◌*◌, ◌<◌, ◌≤◌, ℕ, List, ℤ, length, map, slice_index, IfErr, IfOk, OnOk};
ghost use Rattle.csdf_floor.specs.Continuing.{given_in};
ghost use Rattle.csdf_floor.specs.Work.{AreFeeds, HasFewFirings, feed_of, feeds_in};
ghost use Rattle.csdf_stream.specs.Feeding.{AreFull, AreRead, IsFullFor, IsUnfed};
ghost use Rattle.csdf_stream.specs.Marks.{IsReadMarked};
ghost use Rattle.csdf_stream.specs.Ports.{sources_in};
ghost use Rattle.csdf_stream.specs.Reading.{HasEnded, Reads};

use crate::end::StreamFault;
use crate::lengths::tokens_given;
use crate::reader::Reader;
use csdf_analysis::Accepted;
use csdf_bytes::Intake;
use csdf_floor::MAX_FEED_TOKENS;
use std::sync::Wait;

/// How many tokens a source has to have for so many firings.
///
/// The error says that these are more than 1,000,000.
fn wanted(accepted: &Accepted, actor: u32, firings: u32) -> Result<usize, StreamFault>
    ensures value { IfOk result (λ n. n ≡ given_in accepted.now.graph.channels actor firings) }
    ensures few { IfOk result (λ n. n ≤ MAX_FEED_TOKENS) }
    ensures many { IfErr result (λ why. (why ≡ StreamFault.TooMany actor) × (MAX_FEED_TOKENS < given_in accepted.now.graph.channels actor firings)) }
{
    let tokens = tokens_given(accepted.graph().channels(), actor, firings);
    if tokens > MAX_FEED_TOKENS as u64 {
        return Err(StreamFault::TooMany(actor));
    }
    Ok(tokens as usize)
}

/// Reads on for each source, in file order, until its feed has the tokens of so many periods or its device
/// has no more.
pub(crate) fn fill_feeds<R: Wait, I: Intake>(
    rt: &R,
    accepted: &Accepted,
    periods: u32,
    sources: &[u32],
    readers: &mut [Reader],
    devices: &mut [I],
    feeds: &mut [Vec<i32>],
) -> Result<(), StreamFault>
    requires sources { sources.now ≡ sources_in accepted.now.graph }
    requires readers { length readers.old ≡ length sources.now }
    requires devices { length devices.old ≡ length sources.now }
    requires few_firings { HasFewFirings accepted.now periods }
    requires fed { AreFeeds accepted.now.graph (feeds_in feeds.old) }
    ensures many { (length readers.new ≡ length readers.old) × (length devices.new ≡ length devices.old) × (length feeds.new ≡ length feeds.old) }
    ensures read { AreRead sources.now readers.old readers.new (map I.left devices.old) (map I.left devices.new) (feeds_in feeds.old) (feeds_in feeds.new) }
    ensures fed { AreFeeds accepted.now.graph (feeds_in feeds.new) }
    ensures full { OnOk result (AreFull accepted.now periods sources.now readers.new (map I.left devices.new) (feeds_in feeds.new)) }
    ensures unfed { IfErr result (IsUnfed accepted.now periods sources.now readers.new (map I.left devices.new)) }
    ensures marked { IfErr result (IsReadMarked sources.now (map I.failed devices.new)) }
{
    let firings = accepted.vector().q.as_slice();
    for k in 0..sources.len() {
        let actor = sources[k];
        let most = wanted(accepted, actor, periods * firings[actor as usize])?;
        if let Err(fault) = readers[k].fill(rt, &mut devices[k], most, &mut feeds[actor as usize]) {
            return Err(StreamFault::Source(actor, fault));
        }
    }
    Ok(())
}
