//! What a channel asks of its two actors, and what the channels before it ask.

ghost use Rattle.std.specs.Prelude.{All, ◌≡◌, ◌*◌, ◌≤◌, ◌<◌, IfErr, IfOk, List, length, map, take};
ghost use Rattle.csdf_model.specs.Graph.{Channel as ChannelModel, actor_view, channel_view};
ghost use Rattle.csdf_analysis.specs.Demands.{AskBefore, Asks, IsDemand, IsLowestOf};
ghost use Rattle.csdf_analysis.specs.Members.{AreEntries, AreMembers, IsLink};
ghost use Rattle.csdf_analysis.specs.Repetition.{IsRefused};

use crate::balance::{balanced, put_in, taken_out};
use crate::demand::{Demand, Ratio};
use crate::fault::AcceptFault;
use crate::gcd::gcd;
use crate::members::Member;
use csdf_model::{Actor, Channel, Graph, MAX_CHANNELS, MAX_PHASES, MAX_TOKENS_PER_FIRING};
use std::alloc::Global;

/// The ratio in lowest terms.
fn lowest_terms(from: u64, to: u64) -> Ratio
    requires some_from { 1 ≤ from }
    requires few_from { from ≤ MAX_PHASES * MAX_TOKENS_PER_FIRING }
    requires some_to { 1 ≤ to }
    requires few_to { to ≤ MAX_PHASES * MAX_TOKENS_PER_FIRING }
    ensures { IsLowestOf from to result }
{
    let divisor = gcd(from, to);
    Ratio {
        from: (from / divisor) as u32,
        to: (to / divisor) as u32,
    }
}

/// What the channel alone asks of its ends.
fn asked_by(actors: &[Actor], channel: &Channel) -> Ratio
    requires { IsLink (map actor_view actors.now) (channel_view channel.now) }
    ensures { Asks (map actor_view actors.now) (channel_view channel.now) result }
{
    let put = put_in(actors, channel, 1);
    let taken = taken_out(actors, channel, 1);
    lowest_terms(taken, put)
}

/// What the channels that the members stand for ask of the channel's ends, where they join them.
fn asked_of(actors: &[Actor], channel: &Channel, members: &[Member]) -> Option<Ratio>
    requires link { IsLink (map actor_view actors.now) (channel_view channel.now) }
    requires entries { AreEntries (length (map actor_view actors.now)) members.now }
    ensures { (done : List ChannelModel) → AreMembers (map actor_view actors.now) done members.now
        → AskBefore (map actor_view actors.now) done (channel_view channel.now) result }
{
    let from = members[channel.from as usize];
    let to = members[channel.to as usize];
    if from.group == to.group {
        Some(lowest_terms(u64::from(from.entry), u64::from(to.entry)))
    } else {
        None
    }
}

/// The members once each channel before this one has joined those of its ends.
fn members_before(
    alloc: Global,
    actors: &[Actor],
    channels: &[Channel],
    number: u32,
) -> Result<Vec<Member>, AcceptFault>
    requires channels { All (IsLink (map actor_view actors.now)) (map channel_view channels.now) }
    requires few { length channels.now ≤ MAX_CHANNELS }
    requires exists { number < length channels.now }
    ensures members { IfOk result (λ v. AreMembers (map actor_view actors.now) (take number (map channel_view channels.now)) v.items) }
    ensures refusal { IfErr result (IsRefused (map actor_view actors.now) (take number (map channel_view channels.now))) }
{
    balanced(alloc, actors, &channels[..number as usize])
}

/// What the channel of this number asks of its two actors, so many cycles of the producer to so
/// many of the consumer, and what the channels before it, in file order, ask of the same two.
///
/// Where [`repetition`](crate::repetition) answers
/// [`AcceptFault::Unbalanced`] with this channel, the two ratios differ, or the channels before it
/// do not join the two actors: then some entry would be above 1,024. An error is that of
/// [`repetition`](crate::repetition) for the channels before this one alone.
pub fn demand_of(alloc: Global, graph: &Graph, number: u32) -> Result<Demand, AcceptFault>
    requires { number < length graph.now.channels }
    ensures demand { IfOk result (IsDemand graph.now.actors graph.now.channels number) }
    ensures refusal { IfErr result (IsRefused graph.now.actors (take number graph.now.channels)) }
{
    let actors = graph.actors();
    let channels = graph.channels();
    let channel = &channels[number as usize];
    let members = members_before(alloc, actors, channels, number)?;
    Ok(Demand {
        own: asked_by(actors, channel),
        before: asked_of(actors, channel, &members),
    })
}
