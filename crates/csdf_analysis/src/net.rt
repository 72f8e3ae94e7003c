//! What a run plays: a graph and the firings of a period.

ghost use Rattle.std.specs.Prelude.{◌≡◌, ◌+◌, ◌%◌, ◌<◌, ◌≤◌, ℕ, All, IfOk, Some, length, slice_get, slice_index, sum};
ghost use Rattle.csdf_model.specs.Graph.{Channel as ChannelModel, channel_view, inputs_of, outputs_of, phases_of};
ghost use Rattle.csdf_analysis.specs.Fitting.{IsFit, IsPhased};
ghost use Rattle.csdf_analysis.specs.Waking.{AreActors, AreWoken, IsIn};

use crate::balance::phases_of;
use crate::mask::joined;
use crate::neighbours::neighbours;
use csdf_model::{
    Channel, Graph, MAX_ACTORS, MAX_CHANNELS, MAX_FIRINGS_PER_PERIOD, MAX_TOKENS_PER_FIRING,
};
use std::alloc::{AllocError, Global};
use std::marker::Model;

/// A graph with the firings of each actor in a period, and the actors that a firing of each may
/// make able.
pub(crate) struct Net<'a> {
    graph: &'a Graph,
    firings: &'a [u32],
    neighbours: Vec<u64>,
}

impl Drop for Net<'_> {
    fn drop(self) {
        let Net {
            graph: _,
            firings: _,
            neighbours: _,
        } = self;
    }
}

impl<'a> Model for Net<'a> {
    ghost use Rattle.std.specs.Prelude.{length};
    ghost use Rattle.csdf_analysis.specs.Fitting.{Period, IsFit, IsPhased};
    ghost use Rattle.csdf_analysis.specs.Waking.{AreNeighbours};

    ghost Value = { Period };

    ghost view = { λ n. record { actors = n.graph.now.actors; channels = n.graph.now.channels; firings = n.firings.now } };

    ghost invariant = { λ n. IsFit n.graph.now.channels n.firings.now × IsPhased n.graph.now.actors n.graph.now.channels n.firings.now
        × AreNeighbours n.graph.now.channels (length n.firings.now) (length n.firings.now) n.neighbours.items };
}

impl<'a> Net<'a> {
    pub(crate) fn new(
        alloc: Global,
        graph: &'a Graph,
        firings: &'a [u32],
    ) -> Result<Net<'a>, AllocError>
        requires fit { IsFit graph.now.channels firings.now }
        requires phased { IsPhased graph.now.actors graph.now.channels firings.now }
        ensures { IfOk result (λ net. net ≡ record { actors = graph.now.actors; channels = graph.now.channels; firings = firings.now }) }
    {
        let neighbours = neighbours(alloc, graph)?;
        Ok(Net {
            graph,
            firings,
            neighbours,
        })
    }

    /// The number of actors.
    pub(crate) fn actors(&self) -> usize
        ensures count { result ≡ length self.now.firings }
        ensures few { result ≤ MAX_ACTORS }
        ensures fit { IsFit self.now.channels self.now.firings }
        ensures phased { IsPhased self.now.actors self.now.channels self.now.firings }
    {
        self.firings.len()
    }

    /// The number of channels.
    pub(crate) fn channels(&self) -> usize
        ensures count { result ≡ length self.now.channels }
        ensures few { result ≤ MAX_CHANNELS }
    {
        self.graph.channels().len()
    }

    /// The channel of this number.
    #[inline(always)]
    pub(crate) fn channel(&self, number: u32) -> &Channel
        requires { number < length self.now.channels }
        ensures value { slice_get self.now.channels number ≡ Some (channel_view result.now) }
        ensures fit { IsFit self.now.channels self.now.firings }
        ensures phased { IsPhased self.now.actors self.now.channels self.now.firings }
    {
        let channels = self.graph.channels();
        &channels[number as usize]
    }

    /// How many tokens the producer puts into the channel in this phase.
    #[inline(always)]
    pub(crate) fn production(&self, number: u32, phase: u32) -> u32
        requires exists { number < length self.now.channels }
        requires phase { (c : ChannelModel) → slice_get self.now.channels number ≡ Some c → phase < phases_of self.now.actors c.from }
        ensures value { (c : ChannelModel) → slice_get self.now.channels number ≡ Some c → result ≡ slice_index c.produce phase }
        ensures small { result ≤ MAX_TOKENS_PER_FIRING }
        ensures phased { IsPhased self.now.actors self.now.channels self.now.firings }
        ensures fit { IsFit self.now.channels self.now.firings }
    {
        let channel = self.channel(number);
        channel.produce[phase as usize]
    }

    /// How many tokens the consumer takes out of the channel in this phase.
    #[inline(always)]
    pub(crate) fn consumption(&self, number: u32, phase: u32) -> u32
        requires exists { number < length self.now.channels }
        requires phase { (c : ChannelModel) → slice_get self.now.channels number ≡ Some c → phase < phases_of self.now.actors c.to }
        ensures value { (c : ChannelModel) → slice_get self.now.channels number ≡ Some c → result ≡ slice_index c.consume phase }
        ensures phased { IsPhased self.now.actors self.now.channels self.now.firings }
    {
        let channel = self.channel(number);
        channel.consume[phase as usize]
    }

    /// How many phases the actor has.
    #[inline(always)]
    fn phases(&self, actor: u32) -> u32
        ensures { result ≡ phases_of self.now.actors actor }
    {
        phases_of(self.graph.actors(), actor)
    }

    /// The actor's phase after this one: after the last comes the first.
    #[inline(always)]
    pub(crate) fn phase_after(&self, actor: u32, phase: u32) -> u32
        requires exists { actor < length self.now.firings }
        requires phase { phase < phases_of self.now.actors actor }
        ensures { result ≡ (phase + 1) % phases_of self.now.actors actor }
    {
        let phases = self.phases(actor);
        let next = phase + 1;
        if next == phases { 0 } else { next }
    }

    /// The numbers of the channels that end at the actor.
    #[inline(always)]
    pub(crate) fn inputs(&self, actor: u32) -> &[u32]
        requires { actor < length self.now.firings }
        ensures value { result.now ≡ inputs_of self.now.channels actor }
        ensures within { All (λ i. i < length self.now.channels) result.now }
    {
        self.graph.inputs(actor)
    }

    /// The numbers of the channels that begin at the actor.
    #[inline(always)]
    pub(crate) fn outputs(&self, actor: u32) -> &[u32]
        requires { actor < length self.now.firings }
        ensures value { result.now ≡ outputs_of self.now.channels actor }
        ensures within { All (λ i. i < length self.now.channels) result.now }
    {
        self.graph.outputs(actor)
    }

    /// How often the actor fires in a period.
    #[inline(always)]
    pub(crate) fn firings(&self, actor: u32) -> u32
        requires { actor < length self.now.firings }
        ensures { result ≡ slice_index self.now.firings actor }
    {
        let firings = self.firings;
        firings[actor as usize]
    }

    /// The set with the actor and those at the other ends of its channels.
    #[inline(always)]
    pub(crate) fn woken(&self, actor: u32, mask: u64) -> u64
        requires exists { actor < length self.now.firings }
        requires actors { AreActors (length self.now.firings) mask }
        ensures kept { (a : ℕ) → IsIn mask a → IsIn result a }
        ensures woken { AreWoken self.now.channels actor result }
        ensures actors { AreActors (length self.now.firings) result }
    {
        let neighbours = &self.neighbours;
        joined(mask, neighbours[actor as usize])
    }

    /// The number of all firings of a period.
    pub(crate) fn total(&self) -> u32
        ensures total { result ≡ sum self.now.firings }
        ensures few { result ≤ MAX_FIRINGS_PER_PERIOD }
    {
        self.firings.iter().sum()
    }
}
