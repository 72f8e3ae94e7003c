//! The type of a graph that has passed each check.

ghost use Rattle.std.specs.Prelude.{◌≡◌, ◌<◌, ◌≤◌, map, length, string_bytes, slice_get, All, IfOk, IfSome};
ghost use Rattle.csdf_model.specs.Graph.{actor_view, channel_view, graph_view, inputs_of, outputs_of, ports_of, ports_view, with_capacity_at, without_cells};
ghost use Rattle.csdf_model.specs.Holding.{HasAsMany, beginning_with};
ghost use Rattle.csdf_model.specs.WellFormed.{IsCapacity, IsWellFormed};
ghost use Rattle.csdf_model.specs.Names.{number_in};

use crate::limits::MAX_CHANNELS;
use crate::numbers::number_in;
use crate::parts::{Actor, Channel};
use crate::ports::{Ports, gathered};
use indexmap::IndexSet;
use std::alloc::{AllocError, Global};
use std::marker::Model;

/// A cyclo-static dataflow graph that has passed each check: its parts are well formed,
/// fit each other and are all joined.
///
/// Actors and channels are numbered from 0 in file order.
pub struct Graph {
    actors: Vec<Actor>,
    channels: Vec<Channel>,
    cells: Option<u32>,
    actor_names: IndexSet<String>,
    channel_names: IndexSet<String>,
    ports: Vec<Ports>,
}

// Written out, so that where a graph is dropped this is called, and its parts are not gone through again.
impl Drop for Graph {
    fn drop(self) {
        let Graph {
            actors: _,
            channels: _,
            cells: _,
            actor_names: _,
            channel_names: _,
            ports: _,
        } = self;
    }
}

impl Model for Graph {
    ghost use Rattle.std.specs.Prelude.{◌≡◌, length, map, string_bytes};
    ghost use Rattle.csdf_model.specs.Graph.{Graph as GraphModel, actor_view, channel_view, graph_view, ports_view};
    ghost use Rattle.csdf_model.specs.Kept.{IsKept, all_ports};

    ghost Value = { GraphModel };

    ghost view = { λ g. graph_view g.actors.items g.channels.items g.cells };

    ghost invariant = { λ g. IsKept (map string_bytes g.actor_names.keys) (map string_bytes g.channel_names.keys)
        (graph_view g.actors.items g.channels.items g.cells)
        × (map ports_view g.ports.items ≡ all_ports (map channel_view g.channels.items) (length (map actor_view g.actors.items))) };
}

impl Graph {
    ghost use Rattle.csdf_model.specs.Kept.{IsKept};

    /// The graph of these parts, with the channels of each actor gathered.
    pub fn new(
        alloc: Global,
        actors: Vec<Actor>,
        channels: Vec<Channel>,
        cells: Option<u32>,
        actor_names: IndexSet<String>,
        channel_names: IndexSet<String>,
    ) -> Result<Graph, AllocError>
        requires { IsKept (map string_bytes actor_names.keys) (map string_bytes channel_names.keys) (graph_view actors.items channels.items cells) }
        ensures { IfOk result (λ graph. graph ≡ graph_view actors.items channels.items cells) }
    {
        let ports = gathered(alloc, &channels, actors.len())?;
        Ok(Graph {
            actors,
            channels,
            cells,
            actor_names,
            channel_names,
            ports,
        })
    }

    /// The actors, in file order.
    pub fn actors(&self) -> &[Actor]
        ensures value { map actor_view result.now ≡ self.now.actors }
        ensures well_formed { IsWellFormed self.now }
    {
        &self.actors
    }

    /// The channels, in file order.
    pub fn channels(&self) -> &[Channel]
        ensures value { map channel_view result.now ≡ self.now.channels }
        ensures well_formed { IsWellFormed self.now }
    {
        &self.channels
    }

    /// The number of cells of the pool that all channels share, where the file gives one.
    pub fn cells(&self) -> Option<u32>
        ensures { result ≡ self.now.cells }
    {
        self.cells
    }

    /// The channels of the actor.
    fn ports_of(&self, actor: u32) -> &Ports
        requires { actor < length self.now.actors }
        ensures ports { ports_view result.now ≡ ports_of self.now.channels actor }
        ensures few { length self.now.channels ≤ MAX_CHANNELS }
    {
        &self.ports[actor as usize]
    }

    /// The numbers of the channels that end at the actor, in file order.
    pub fn inputs(&self, actor: u32) -> &[u32]
        requires { actor < length self.now.actors }
        ensures value { result.now ≡ inputs_of self.now.channels actor }
        ensures within { All (λ c. c < length self.now.channels) result.now }
        ensures few { length result.now ≤ MAX_CHANNELS }
    {
        &self.ports_of(actor).inputs
    }

    /// The numbers of the channels that begin at the actor, in file order.
    pub fn outputs(&self, actor: u32) -> &[u32]
        requires { actor < length self.now.actors }
        ensures value { result.now ≡ outputs_of self.now.channels actor }
        ensures within { All (λ c. c < length self.now.channels) result.now }
        ensures few { length result.now ≤ MAX_CHANNELS }
    {
        &self.ports_of(actor).outputs
    }

    /// The number of the actor with this name, by one look-up.
    #[tactic(auto, using(crate::proofs::LinkLemmas::length_of_map))]
    pub fn actor_number(&self, name: &str) -> Option<u32>
        ensures { result ≡ number_in (map (λ a. a.name) self.now.actors) name.now }
    {
        match number_in(&self.actor_names, name) {
            Some(number) => Some(number as u32),
            None => None,
        }
    }

    /// The number of the channel with this name, by one look-up.
    #[tactic(auto, using(crate::proofs::LinkLemmas::length_of_map))]
    pub fn channel_number(&self, name: &str) -> Option<u32>
        ensures { result ≡ number_in (map (λ c. c.name) self.now.channels) name.now }
    {
        match number_in(&self.channel_names, name) {
            Some(number) => Some(number as u32),
            None => None,
        }
    }

    /// An equal graph in memory of its own.
    ///
    /// An error says that memory ran out.
    pub fn try_copy(&self, alloc: Global) -> Result<Graph, AllocError>
        ensures { IfOk result (λ graph. graph ≡ self.now) }
    {
        let actors = self.actors.clone()?;
        let channels = self.channels.clone()?;
        let actor_names = self.actor_names.clone()?;
        let channel_names = self.channel_names.clone()?;
        let cells = self.cells;
        Graph::new(alloc, actors, channels, cells, actor_names, channel_names)
    }

    /// Gives the channel this capacity, in the place of the one that it was given, if any.
    pub fn give_capacity(&mut self, channel: u32, capacity: u32)
        requires exists { channel < length self.old.channels }
        requires fits { IfSome (slice_get self.old.channels channel) (λ c. IsCapacity c capacity) }
        ensures { self.new ≡ with_capacity_at channel capacity self.old }
    {
        self.channels[channel as usize].capacity = Some(capacity);
    }

    /// Puts these tokens, as many as the channel begins with, in the place of its initial ones.
    pub fn begin_with(&mut self, channel: u32, tokens: Vec<i32>)
        requires exists { channel < length self.old.channels }
        requires as_many { IfSome (slice_get self.old.channels channel) (λ c. HasAsMany c tokens.items) }
        ensures { self.new ≡ beginning_with channel tokens.items self.old }
    {
        self.channels[channel as usize].initial = tokens;
    }

    /// The same graph where no number of cells is given.
    #[tactic(auto, using(crate::proofs::CopyLemmas::kept_without_cells))]
    pub fn without_cells(self) -> Graph
        ensures { result ≡ without_cells self }
    {
        let Graph {
            actors,
            channels,
            cells: _,
            actor_names,
            channel_names,
            ports,
        } = self;
        Graph {
            actors,
            channels,
            cells: None,
            actor_names,
            channel_names,
            ports,
        }
    }
}
