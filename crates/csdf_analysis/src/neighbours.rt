//! The actors at the other ends of an actor's channels, which alone a firing of it may make able.

ghost use Rattle.std.specs.Prelude.{◌≡◌, ◌<◌, ◌≤◌, ℕ, IfOk, length};
ghost use Rattle.csdf_analysis.specs.Waking.{AreActors, AreNeighbours, AreWoken, ConsumersIn, IsConsumerFrom, IsIn, IsProducerTo, ProducersIn};

use crate::mask::{joined, with_actor};
use csdf_model::{Graph, MAX_ACTORS};
use std::alloc::{AllocError, Global};

/// The actors that put tokens into the actor's inputs, itself among them where a channel begins and
/// ends at it: a bit for each.
pub fn producers_of(graph: &Graph, actor: u32) -> u64
    requires { actor < length graph.now.actors }
    ensures all { ProducersIn graph.now.channels actor result }
    ensures only { (b : ℕ) → IsIn result b → IsProducerTo graph.now.channels actor b }
    ensures actors { AreActors (length graph.now.actors) result }
{
    let channels = graph.channels();
    let mut mask = 0;
    for number in graph.inputs(actor) {
        let channel = &channels[*number as usize];
        mask = with_actor(mask, channel.from);
    }
    mask
}

/// The actors that take tokens out of the actor's outputs, itself among them where a channel begins
/// and ends at it: a bit for each.
pub fn consumers_of(graph: &Graph, actor: u32) -> u64
    requires { actor < length graph.now.actors }
    ensures all { ConsumersIn graph.now.channels actor result }
    ensures only { (b : ℕ) → IsIn result b → IsConsumerFrom graph.now.channels actor b }
    ensures actors { AreActors (length graph.now.actors) result }
{
    let channels = graph.channels();
    let mut mask = 0;
    for number in graph.outputs(actor) {
        let channel = &channels[*number as usize];
        mask = with_actor(mask, channel.to);
    }
    mask
}

/// The actor and those at the other ends of its channels.
fn neighbours_of(graph: &Graph, actor: u32) -> u64
    requires exists { actor < length graph.now.actors }
    requires few { length graph.now.actors ≤ MAX_ACTORS }
    ensures woken { AreWoken graph.now.channels actor result }
    ensures actors { AreActors (length graph.now.actors) result }
{
    let others = joined(producers_of(graph, actor), consumers_of(graph, actor));
    with_actor(others, actor)
}

/// The neighbours of each actor.
pub(crate) fn neighbours(alloc: Global, graph: &Graph) -> Result<Vec<u64>, AllocError>
    ensures { IfOk result (λ v. AreNeighbours graph.now.channels (length graph.now.actors) (length graph.now.actors) v.items) }
{
    let mut masks = Vec::new(alloc);
    for actor in 0..graph.actors().len() as u32 {
        masks.push(neighbours_of(graph, actor))?;
    }
    Ok(masks)
}
