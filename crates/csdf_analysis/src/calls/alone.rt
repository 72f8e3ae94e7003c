//! Each channel's own least capacity, with no other channel in the way.

ghost use Rattle.std.specs.Prelude.{◌≡◌, ◌+◌, ◌<◌, ◌≤◌, IfOk, IfSome, MatchOption, length, map};
ghost use Rattle.csdf_model.specs.Graph.{channel_view};
ghost use Rattle.csdf_model.specs.Rates.{consumed, consumption};
ghost use Rattle.csdf_analysis.specs.Repetition.{IsRepetition, full_capacity};
ghost use Rattle.csdf_analysis.specs.Fitting.{IsBetween, IsFit};
ghost use Rattle.csdf_analysis.specs.Alone.{AreOwnBounds, AreOwnFrom, EachHasEnough, HasEnough, IsFirstTight, IsOwnBound, IsOwnIfAny, IsTight};

use crate::calls::raise::copy_of;
use crate::vector::Vector;
use csdf_model::{Channel, Graph, MAX_CAPACITY};
use std::alloc::{AllocError, Global};

/// What the channel holds once its consumer has fired as often as it can, though no more than
/// `last` times in all, and how often it has fired.
fn take_all(channel: &Channel, held: u32, taken: u32, last: u32) -> (u32, u32)
    ensures kept { result.0 + consumed (channel_view channel.now) result.1 ≡ held + consumed (channel_view channel.now) taken }
    ensures within { taken ≤ last → result.1 ≤ last }
    ensures stops { result.1 < last → result.0 < consumption (channel_view channel.now) result.1 }
{
    let mut held = held;
    let mut taken = taken;
    while taken < last {
        let tokens = channel.consumption(taken);
        if tokens > held {
            return (held, taken);
        }
        held -= tokens;
        taken += 1;
    }
    (held, taken)
}

/// The least capacity with which the two ends of the channel make their firings of a period, where
/// no other channel is in the way: the consumer fires as early as it can, the producer as late.
fn own_capacity(channel: &Channel, q: &[u32]) -> u32
    requires channel { IsBetween (length q.now) (channel_view channel.now) }
    requires room { full_capacity q.now (channel_view channel.now) ≤ MAX_CAPACITY }
    ensures { IsOwnIfAny q.now (channel_view channel.now) result }
{
    let producer = q[channel.from as usize];
    let consumer = q[channel.to as usize];
    let mut held = channel.initial.len() as u32;
    let mut taken = 0;
    let mut most = held;
    for put in 0..producer {
        // A firing of an actor into itself takes first.
        let last = if channel.from == channel.to {
            put + 1
        } else {
            consumer
        };
        let (rest, firings) = take_all(channel, held, taken, last);
        held = rest + channel.production(put);
        taken = firings;
        most = most.max(held);
    }
    most
}

/// The channel's given capacity, or else its own least one.
fn own_bound(channel: &Channel, q: &[u32]) -> u32
    requires channel { IsBetween (length q.now) (channel_view channel.now) }
    requires room { full_capacity q.now (channel_view channel.now) ≤ MAX_CAPACITY }
    ensures { IsOwnBound q.now (channel_view channel.now) result }
{
    match channel.capacity {
        Some(given) => given,
        None => own_capacity(channel, q),
    }
}

/// The given capacity of each channel, or else its own least one.
pub(crate) fn own_bounds(
    alloc: Global,
    channels: &[Channel],
    q: &[u32],
) -> Result<Vec<u32>, AllocError>
    requires { IsFit (map channel_view channels.now) q.now }
    ensures { IfOk result (λ v. AreOwnBounds (map channel_view channels.now) q.now v.items) }
{
    let mut bounds = Vec::new(alloc);
    for channel in channels {
        bounds.push(own_bound(channel, q))?;
    }
    Ok(bounds)
}

/// These bounds, with the own ones from one channel up to another.
pub(crate) fn with_own(
    alloc: Global,
    bounds: &[u32],
    own: &[u32],
    place: usize,
    end: usize,
) -> Result<Vec<u32>, AllocError>
    requires same { length own.now ≡ length bounds.now }
    requires order { place ≤ end }
    requires within { end ≤ length bounds.now }
    ensures { IfOk result (λ v. AreOwnFrom own.now bounds.now v.items place end) }
{
    let mut next = copy_of(alloc, bounds)?;
    for number in place..end {
        next[number] = own[number];
    }
    Ok(next)
}

/// A channel whose given capacity is below its own least one.
#[derive(Clone, Copy, Debug, PartialEq, Eq)]
pub struct Tight {
    /// The channel's number.
    pub channel: u32,
    /// Its given capacity.
    pub given: u32,
    /// What it needs even alone: its own least capacity, with which its two ends make their firings
    /// of a period where no other channel is in the way.
    pub needs: u32,
}

/// That the given capacity of the channel with this number is below its own least one, where it is.
fn tight_at(channel: &Channel, q: &[u32], number: u32) -> Option<Tight>
    requires channel { IsBetween (length q.now) (channel_view channel.now) }
    requires room { full_capacity q.now (channel_view channel.now) ≤ MAX_CAPACITY }
    ensures number { IfSome result (λ tight. tight.channel ≡ number) }
    ensures tight { MatchOption result (HasEnough q.now (channel_view channel.now)) (IsTight q.now (channel_view channel.now)) }
{
    let given = channel.capacity?;
    let needs = own_capacity(channel, q);
    if given < needs {
        Some(Tight {
            channel: number,
            given,
            needs,
        })
    } else {
        None
    }
}

/// The first channel whose given capacity is below its own least one.
fn first_tight(channels: &[Channel], q: &[u32]) -> Option<Tight>
    requires { IsFit (map channel_view channels.now) q.now }
    ensures { MatchOption result (EachHasEnough (map channel_view channels.now) q.now) (IsFirstTight (map channel_view channels.now) q.now) }
{
    for (number, channel) in channels.iter().enumerate() {
        if let Some(tight) = tight_at(channel, q, number as u32) {
            return Some(tight);
        }
    }
    None
}

/// The first channel, in file order, whose given capacity is below its own least one: the least
/// with which its two ends make their firings of a period where no other channel is in the way.
///
/// No capacities that agree with such a one complete a period.
pub fn tight_channel(graph: &Graph, vector: &Vector) -> Option<Tight>
    requires { IsRepetition graph.now.actors graph.now.channels vector.now.r.items vector.now.q.items }
    ensures { MatchOption result (EachHasEnough graph.now.channels vector.now.q.items) (IsFirstTight graph.now.channels vector.now.q.items) }
{
    first_tight(graph.channels(), &vector.q)
}
