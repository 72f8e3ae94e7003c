//! The least capacities under which a period of a graph completes.

ghost use Rattle.std.specs.Prelude.{◌≡◌, ◌≤◌, All, IfErr, IfOk, length, map};
ghost use Rattle.csdf_model.specs.Graph.{channel_view};
ghost use Rattle.csdf_analysis.specs.Repetition.{HaveRoom, IsRepetition, IsWithin, full_capacity};
ghost use Rattle.csdf_analysis.specs.Capacities.{AreLeastCapacities, HasNoCapacities, full_capacities};
ghost use Rattle.csdf_analysis.specs.Lowering.{IsLowered, first_bound, first_bounds};

use crate::calls::alone::{own_bounds, tight_channel};
use crate::calls::lowering::lowered;
use crate::calls::raise::{makes_all, net_of};
use crate::calls::repetition::full_capacity;
use crate::fault::AcceptFault;
use crate::net::Net;
use crate::vector::Vector;
use csdf_model::{Channel, Graph, MAX_CAPACITY};
use std::alloc::{AllocError, Global};

/// The initial tokens of each channel and all that its producer puts in within a period.
pub(crate) fn full_capacities(
    alloc: Global,
    channels: &[Channel],
    q: &[u32],
) -> Result<Vec<u32>, AllocError>
    requires channels { All (IsWithin (length q.now)) (map channel_view channels.now) }
    requires room { HaveRoom q.now (map channel_view channels.now) }
    ensures { IfOk result (λ v. v.items ≡ full_capacities q.now (map channel_view channels.now)) }
{
    let mut full = Vec::new(alloc);
    for channel in channels {
        full.push(full_capacity(channel, q) as u32)?;
    }
    Ok(full)
}

/// The given capacity of each channel, or else its full one.
pub(crate) fn first_bounds(
    alloc: Global,
    channels: &[Channel],
    q: &[u32],
) -> Result<Vec<u32>, AllocError>
    requires channels { All (IsWithin (length q.now)) (map channel_view channels.now) }
    requires room { HaveRoom q.now (map channel_view channels.now) }
    ensures { IfOk result (λ v. v.items ≡ first_bounds q.now (map channel_view channels.now)) }
{
    let mut bounds = Vec::new(alloc);
    for channel in channels {
        bounds.push(first_bound(channel, q))?;
    }
    Ok(bounds)
}

/// The channel's given capacity, or else its full one.
fn first_bound(channel: &Channel, q: &[u32]) -> u32
    requires channel { IsWithin (length q.now) (channel_view channel.now) }
    requires room { full_capacity q.now (channel_view channel.now) ≤ MAX_CAPACITY }
    ensures { result ≡ first_bound q.now (channel_view channel.now) }
{
    match channel.capacity {
        Some(given) => given,
        None => full_capacity(channel, q) as u32,
    }
}

/// The given capacity of each channel, or else its full one, where these complete a period, or why
/// none do that agree with the given ones.
fn first_that_complete(
    alloc: Global,
    graph: &Graph,
    vector: &Vector,
    net: &Net,
) -> Result<Vec<u32>, AcceptFault>
    requires vector { IsRepetition graph.now.actors graph.now.channels vector.now.r.items vector.now.q.items }
    requires channels { net.now.channels ≡ graph.now.channels }
    requires firings { net.now.firings ≡ vector.now.q.items }
    ensures first { IfOk result (λ v. IsLowered graph.now.channels vector.now.q.items 0 v.items) }
    ensures refusal { IfErr result (HasNoCapacities graph.now.channels vector.now.q.items) }
{
    let full = full_capacities(alloc, graph.channels(), &vector.q)?;
    if !makes_all(alloc, net, &full)? {
        return Err(AcceptFault::Deadlock);
    }
    if tight_channel(graph, vector).is_some() {
        return Err(AcceptFault::TooTight);
    }
    let bounds = first_bounds(alloc, graph.channels(), &vector.q)?;
    if !makes_all(alloc, net, &bounds)? {
        return Err(AcceptFault::TooTight);
    }
    Ok(bounds)
}

/// The capacities, one for each channel, that complete a period and agree with every given one,
/// and of these the lexicographically least in file order; each is at most 65,535.
///
/// No capacity below a channel's own least one, with which its two ends make their firings where no
/// other channel is in the way, is in such a list. So where these own ones together complete a
/// period, they are the least.
///
/// [`AcceptFault::Deadlock`] says that even the full capacities complete no period,
/// [`AcceptFault::TooTight`] that they do and none that agree with the given ones do, and
/// [`AcceptFault::Memory`] says nothing of the graph.
pub fn capacities(alloc: Global, graph: &Graph, vector: &Vector) -> Result<Vec<u32>, AcceptFault>
    requires { IsRepetition graph.now.actors graph.now.channels vector.now.r.items vector.now.q.items }
    ensures least { IfOk result (λ v. AreLeastCapacities graph.now.channels vector.now.q.items v.items) }
    ensures small { IfOk result (λ v. All (λ b. b ≤ MAX_CAPACITY) v.items) }
    ensures refusal { IfErr result (HasNoCapacities graph.now.channels vector.now.q.items) }
{
    let net = net_of(alloc, graph, vector)?;
    let own = own_bounds(alloc, graph.channels(), &vector.q)?;
    if makes_all(alloc, &net, &own)? {
        return Ok(own);
    }
    let bounds = first_that_complete(alloc, graph, vector, &net)?;
    let least = lowered(alloc, &net, &own, bounds)?;
    Ok(least)
}
