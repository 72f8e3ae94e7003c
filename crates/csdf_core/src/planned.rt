//! What is looked up and added up once, when a plan is made.

ghost use Rattle.std.specs.Prelude.{◌≡◌, ◌≤◌, ◌<◌, length, map, slice_index, slice_index_or, sum_by, false, All, IfOk};
ghost use Rattle.std.specs.List.{zip};
ghost use Rattle.csdf_model.specs.Graph.{channel_view};
ghost use Rattle.csdf_core.specs.Phases.{HasPhases};
ghost use Rattle.csdf_core.specs.PlanInside.{channel_in, AreActors, AreChannels, AreEnds, AreOf, IsActor, IsFirstLoop};
ghost use Rattle.csdf_core.specs.Planned.{sources_of, with_capacity};
ghost use Rattle.csdf_core.specs.Ports.{inputs_at};
ghost use Rattle.csdf_core.specs.Sides.{amount_at, ends_at};
ghost use Rattle.csdf_core.specs.declared.planned.PlannedActor.{PlannedActor as Planned};

use crate::side::Side;
use csdf_model::{Channel, Graph, MAX_CHANNELS, MAX_TOKENS_PER_FIRING, MAX_TOTAL_PER_FIRING, rate};
use std::alloc::{AllocError, Global};

/// A channel as a core plays it.
#[derive(Drop)]
pub(crate) struct PlannedChannel {
    pub(crate) from: u32,
    pub(crate) to: u32,
    pub(crate) produce: Vec<u32>,
    pub(crate) consume: Vec<u32>,
    pub(crate) initial: Vec<i32>,
    pub(crate) capacity: u32,
}

/// The channels at a side of an actor, in file order, and how many tokens its firing moves there, phase by
/// phase; and in the first one, since most actors have no other.
#[derive(Drop)]
pub(crate) struct PlannedEnds {
    pub(crate) channels: Vec<u32>,
    pub(crate) moved: Vec<u32>,
    pub(crate) first: u32,
}

/// What is static of an actor.
#[derive(Drop)]
pub(crate) struct PlannedActor {
    pub(crate) input: PlannedEnds,
    pub(crate) output: PlannedEnds,
    pub(crate) phases: u32,
    /// The first channel from the actor to itself.
    pub(crate) own: Option<u32>,
    pub(crate) is_source: bool,
}

/// The channel with its capacity.
fn planned_channel(
    alloc: Global,
    channel: &Channel,
    capacity: u32,
) -> Result<PlannedChannel, AllocError>
    ensures { IfOk result (λ planned. channel_in planned ≡ with_capacity (channel_view channel.now, capacity)) }
{
    Ok(PlannedChannel {
        from: channel.from,
        to: channel.to,
        produce: Vec::from_slice(alloc, &channel.produce)?,
        consume: Vec::from_slice(alloc, &channel.consume)?,
        initial: Vec::from_slice(alloc, &channel.initial)?,
        capacity,
    })
}

/// The channels with their capacities.
pub(crate) fn planned_channels(
    alloc: Global,
    channels: &[Channel],
    capacities: &[u32],
) -> Result<Vec<PlannedChannel>, AllocError>
    requires { length capacities.now ≡ length channels.now }
    ensures { IfOk result (λ planned. map channel_in planned.items ≡ map with_capacity (zip (map channel_view channels.now) capacities.now)) }
{
    let mut planned = Vec::new(alloc);
    for c in 0..channels.len() {
        planned.push(planned_channel(alloc, &channels[c], capacities[c])?)?;
    }
    Ok(planned)
}

/// How many tokens a firing in this phase moves in one of these channels, at this side of its actor.
fn amount_of(channels: &[PlannedChannel], side: Side, channel: u32, phase: u32) -> u32
    requires channels { AreChannels (map channel_in channels.now) }
    requires within { channel < length channels.now }
    ensures value { result ≡ amount_at side (map channel_in channels.now) phase channel }
    ensures small { result ≤ MAX_TOKENS_PER_FIRING }
{
    let channel = &channels[channel as usize];
    match side {
        Side::Input => rate(&channel.consume, phase),
        Side::Output => rate(&channel.produce, phase),
    }
}

/// How many it moves in all of these.
fn moved_in(channels: &[PlannedChannel], side: Side, ends: &[u32], phase: u32) -> u32
    requires channels { AreChannels (map channel_in channels.now) }
    requires within { All (λ c. c < length channels.now) ends.now }
    requires few { length ends.now ≤ MAX_CHANNELS }
    ensures value { result ≡ sum_by (amount_at side (map channel_in channels.now) phase) ends.now }
    ensures small { result ≤ MAX_TOTAL_PER_FIRING }
{
    let mut sum = 0;
    for channel in ends {
        sum += amount_of(channels, side, *channel, phase);
    }
    sum
}

/// The first of the numbers, and 0 where there is none.
fn first_of(numbers: &[u32]) -> u32
    ensures { result ≡ slice_index numbers.now 0 }
{
    if numbers.is_empty() {
        return 0;
    }
    numbers[0]
}

/// The actor's channels at this side, and how many tokens its firing moves in them.
fn planned_ends(
    alloc: Global,
    channels: &[PlannedChannel],
    side: Side,
    actor: u32,
    ends: &[u32],
    phases: u32,
) -> Result<PlannedEnds, AllocError>
    requires channels { AreChannels (map channel_in channels.now) }
    requires ends { ends.now ≡ ends_at side (map channel_in channels.now) actor }
    requires few { length ends.now ≤ MAX_CHANNELS }
    requires phases { HasPhases (map channel_in channels.now) actor phases }
    ensures { IfOk result (AreEnds side (map channel_in channels.now) actor) }
{
    let mut moved = Vec::new(alloc);
    for phase in 0..phases {
        moved.push(moved_in(channels, side, ends, phase))?;
    }
    let first = first_of(&moved);
    Ok(PlannedEnds {
        channels: Vec::from_slice(alloc, ends)?,
        moved,
        first,
    })
}

/// The first of the actor's inputs that begins at the actor.
fn first_own(channels: &[PlannedChannel], inputs: &[u32], actor: u32) -> Option<u32>
    requires inputs { inputs.now ≡ inputs_at (map channel_in channels.now) actor }
    requires within { All (λ c. c < length channels.now) inputs.now }
    ensures { IsFirstLoop (map channel_in channels.now) actor result }
{
    for channel in inputs {
        if channels[*channel as usize].from == actor {
            return Some(*channel);
        }
    }
    None
}

/// What is static of the actor.
fn planned_actor(
    alloc: Global,
    graph: &Graph,
    channels: &[PlannedChannel],
    actor: u32,
) -> Result<PlannedActor, AllocError>
    requires channels { AreOf graph.now (map channel_in channels.now) }
    requires actor { actor < length graph.now.actors }
    ensures actor { IfOk result (IsActor (map channel_in channels.now) actor) }
    ensures source { IfOk result (λ planned. planned.is_source ≡ slice_index_or (sources_of graph.now) actor false) }
{
    let parts = &graph.actors()[actor as usize];
    let (phases, is_source) = (parts.phases, parts.kernel.is_source());
    let (inputs, outputs) = (graph.inputs(actor), graph.outputs(actor));
    Ok(PlannedActor {
        input: planned_ends(alloc, channels, Side::Input, actor, inputs, phases)?,
        output: planned_ends(alloc, channels, Side::Output, actor, outputs, phases)?,
        phases,
        own: first_own(channels, inputs, actor),
        is_source,
    })
}

/// What is static of each actor.
pub(crate) fn planned_actors(
    alloc: Global,
    graph: &Graph,
    channels: &[PlannedChannel],
) -> Result<Vec<PlannedActor>, AllocError>
    requires { AreOf graph.now (map channel_in channels.now) }
    ensures actors { IfOk result (λ actors. AreActors (map channel_in channels.now) actors.items) }
    ensures sources { IfOk result (λ actors. map (λ (a : Planned). a.is_source) actors.items ≡ sources_of graph.now) }
{
    let mut actors = Vec::new(alloc);
    for actor in 0..graph.actors().len() as u32 {
        actors.push(planned_actor(alloc, graph, channels, actor)?)?;
    }
    Ok(actors)
}
