//! The least vector that balances the channels, group by group.

ghost use Rattle.std.specs.Prelude.{◌≡◌, ◌*◌, ◌≤◌, ◌<◌, All, IfOk, IfErr, length, map, option_map};
ghost use Rattle.csdf_model.specs.Graph.{actor_view, channel_view, phases_of};
ghost use Rattle.csdf_analysis.specs.Repetition.{cycle_produced, cycle_consumed, IsRefused};
ghost use Rattle.csdf_analysis.specs.Members.{IsLink, AreEntries, AreMembers, IsMergeOf, Joins};

use crate::fault::AcceptFault;
use crate::gcd::gcd;
use crate::members::{Member, Merge, alone, merged};
use csdf_model::{
    Actor, Channel, MAX_CHANNELS, MAX_CYCLES_PER_PERIOD, MAX_PHASES, MAX_TOKENS_PER_FIRING,
};
use std::alloc::{AllocError, Global};

/// How many phases an actor has, and none where there is no such actor.
#[inline(always)]
pub(crate) fn phases_of(actors: &[Actor], number: u32) -> u32
    ensures { result ≡ phases_of (map actor_view actors.now) number }
{
    match actors.get(number as usize) {
        Some(actor) => actor.phases,
        None => 0,
    }
}

/// How many tokens so many cycles of the producer put into the channel.
pub(crate) fn put_in(actors: &[Actor], channel: &Channel, cycles: u32) -> u64
    requires { IsLink (map actor_view actors.now) (channel_view channel.now) }
    ensures { result ≡ cycles * cycle_produced (map actor_view actors.now) (channel_view channel.now) }
{
    u64::from(cycles) * channel.produced(phases_of(actors, channel.from))
}

/// How many tokens so many cycles of the consumer take out of the channel.
pub(crate) fn taken_out(actors: &[Actor], channel: &Channel, cycles: u32) -> u64
    requires { IsLink (map actor_view actors.now) (channel_view channel.now) }
    ensures { result ≡ cycles * cycle_consumed (map actor_view actors.now) (channel_view channel.now) }
{
    u64::from(cycles) * channel.consumed(phases_of(actors, channel.to))
}

/// How the group of the producer goes into that of the consumer, where the entries of these put in
/// and take out so many tokens.
fn merge_of(from: Member, to: Member, put: u64, taken: u64) -> Merge
    requires some_put { 1 ≤ put }
    requires few_put { put ≤ MAX_CYCLES_PER_PERIOD * (MAX_PHASES * MAX_TOKENS_PER_FIRING) }
    requires some_taken { 1 ≤ taken }
    requires few_taken { taken ≤ MAX_CYCLES_PER_PERIOD * (MAX_PHASES * MAX_TOKENS_PER_FIRING) }
    ensures { IsMergeOf from to put taken result }
{
    let divisor = gcd(put, taken);
    Merge {
        gone: from.group,
        gone_factor: (taken / divisor) as u32,
        into: to.group,
        into_factor: (put / divisor) as u32,
    }
}

/// The members once the channel has joined those of its ends, or nothing where no vector balances
/// the channel with those before it.
fn joined(
    alloc: Global,
    actors: &[Actor],
    channel: &Channel,
    members: Vec<Member>,
) -> Result<Option<Vec<Member>>, AllocError>
    requires channel { IsLink (map actor_view actors.now) (channel_view channel.now) }
    requires members { AreEntries (length (map actor_view actors.now)) members.items }
    ensures { IfOk result (λ next. Joins (map actor_view actors.now) (channel_view channel.now) members.items (option_map (λ v. v.items) next)) }
{
    let from = members[channel.from as usize];
    let to = members[channel.to as usize];
    let put = put_in(actors, channel, from.entry);
    let taken = taken_out(actors, channel, to.entry);
    if from.group != to.group {
        return merged(alloc, &members, merge_of(from, to, put, taken));
    }
    if put == taken {
        Ok(Some(members))
    } else {
        Ok(None)
    }
}

/// The members once each channel has joined those of its ends.
pub(crate) fn balanced(
    alloc: Global,
    actors: &[Actor],
    channels: &[Channel],
) -> Result<Vec<Member>, AcceptFault>
    requires channels { All (IsLink (map actor_view actors.now)) (map channel_view channels.now) }
    requires few { length channels.now ≤ MAX_CHANNELS }
    ensures members { IfOk result (λ v. AreMembers (map actor_view actors.now) (map channel_view channels.now) v.items) }
    ensures refusal { IfErr result (IsRefused (map actor_view actors.now) (map channel_view channels.now)) }
{
    let mut members = alone(alloc, actors.len())?;
    for (place, channel) in channels.iter().enumerate() {
        match joined(alloc, actors, channel, members)? {
            Some(next) => members = next,
            None => return Err(AcceptFault::Unbalanced(place as u32)),
        }
    }
    Ok(members)
}
