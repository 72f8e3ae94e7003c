//! How often each actor of a graph fires in a period.

ghost use Rattle.std.specs.Prelude.{◌≡◌, ◌≤◌, ◌<◌, All, IfOk, IfErr, length, map};
ghost use Rattle.csdf_model.specs.Graph.{actor_view, channel_view};
ghost use Rattle.csdf_model.specs.WellFormed.{IsActor};
ghost use Rattle.csdf_analysis.specs.Repetition.{full_capacity, IsWithin, HaveRoom, IsFirstOver, AreFirings, IsLeastRepetition, IsRepetition, IsRefused};
ghost use Rattle.csdf_analysis.specs.Members.{IsLink};

use crate::balance::balanced;
use crate::fault::AcceptFault;
use crate::members::Member;
use crate::vector::Vector;
use csdf_model::{Actor, Channel, Graph, MAX_CAPACITY, MAX_CHANNELS, MAX_CYCLES_PER_PERIOD};
use std::alloc::{AllocError, Global};

/// The greatest full capacity of a channel.
const GREATEST_CAPACITY: u64 = MAX_CAPACITY as u64;

fn entries(alloc: Global, members: &[Member]) -> Result<Vec<u32>, AllocError>
    ensures { IfOk result (λ v. v.items ≡ map (λ m. m.entry) members.now) }
{
    members.iter().map(|member| member.entry).collect(alloc)
}

/// The least vector of cycles.
fn cycles(alloc: Global, actors: &[Actor], channels: &[Channel]) -> Result<Vec<u32>, AcceptFault>
    requires channels { All (IsLink (map actor_view actors.now)) (map channel_view channels.now) }
    requires few { length channels.now ≤ MAX_CHANNELS }
    ensures least { IfOk result (λ r. IsLeastRepetition (map actor_view actors.now) (map channel_view channels.now) r.items) }
    ensures small { IfOk result (λ r. All (λ n. n ≤ MAX_CYCLES_PER_PERIOD) r.items) }
    ensures refusal { IfErr result (IsRefused (map actor_view actors.now) (map channel_view channels.now)) }
{
    let members = balanced(alloc, actors, channels)?;
    let r = entries(alloc, &members)?;
    Ok(r)
}

/// The firings that so many cycles of each actor are.
fn firings(alloc: Global, actors: &[Actor], r: &[u32]) -> Result<Vec<u32>, AllocError>
    requires actors { All IsActor (map actor_view actors.now) }
    requires each_actor { length r.now ≡ length actors.now }
    requires small { All (λ n. n ≤ MAX_CYCLES_PER_PERIOD) r.now }
    ensures { IfOk result (λ q. AreFirings (map actor_view actors.now) r.now q.items) }
{
    let mut q = Vec::new(alloc);
    for (number, actor) in actors.iter().enumerate() {
        q.push(actor.phases * r[number])?;
    }
    Ok(q)
}

/// The initial tokens of the channel and all that its producer puts in within a period.
pub(crate) fn full_capacity(channel: &Channel, q: &[u32]) -> u64
    requires { IsWithin (length q.now) (channel_view channel.now) }
    ensures { result ≡ full_capacity q.now (channel_view channel.now) }
{
    channel.initial.len() as u64 + channel.produced(q[channel.from as usize])
}

/// Tests that no full capacity is too great.
///
/// An error is the first channel with a greater one.
fn check_capacities(channels: &[Channel], q: &[u32]) -> Result<(), u32>
    requires channels { All (IsWithin (length q.now)) (map channel_view channels.now) }
    requires few { length channels.now ≤ MAX_CHANNELS }
    ensures room { IfOk result (λ _. HaveRoom q.now (map channel_view channels.now)) }
    ensures over { IfErr result (IsFirstOver q.now (map channel_view channels.now)) }
{
    for (place, channel) in channels.iter().enumerate() {
        if full_capacity(channel, q) > GREATEST_CAPACITY {
            return Err(place as u32);
        }
    }
    Ok(())
}

/// How often each actor fires in one period: the least repetition vector (Lee and Messerschmitt
/// 1987, with the phases of Bilsen et al. 1996).
///
/// Each entry of `r` is at most 1,024, and each full capacity, which is the channel's initial
/// tokens and all that its producer puts in within a period, is at most 65,535.
/// [`AcceptFault::Unbalanced`] names the first channel that no such vector balances together with
/// the channels before it, [`AcceptFault::TooLarge`] the first whose full capacity is greater, and
/// [`AcceptFault::Memory`] says nothing of the graph.
pub fn repetition(alloc: Global, graph: &Graph) -> Result<Vector, AcceptFault>
    ensures vector { IfOk result (λ v. IsRepetition graph.now.actors graph.now.channels v.r.items v.q.items) }
    ensures refusal { IfErr result (IsRefused graph.now.actors graph.now.channels) }
{
    let r = cycles(alloc, graph.actors(), graph.channels())?;
    let q = firings(alloc, graph.actors(), &r)?;
    check_capacities(graph.channels(), &q).map_err(AcceptFault::TooLarge)?;
    Ok(Vector { r, q })
}
