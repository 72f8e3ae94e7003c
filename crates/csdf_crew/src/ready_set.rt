//! Where a worker looks: which actors may be able to begin a firing. A start tests again, so a hint that
//! is out of date costs a look. Nobody is left out who could begin where one has looked, while the lock
//! was held.

ghost use Rattle.std.specs.Prelude.{◌≡◌, ◌<◌, ◌⊎◌, ◌↔◌, ℕ, IfOk, IsTrue, length, slice_index};
ghost use Rattle.csdf_analysis.specs.Waking.{IsIn};
ghost use Rattle.csdf_crew.specs.Looking.{AreConsumers, AreProducers, CanBegin, GainsAble, HasAble};

use crate::actors::bit_of;
use csdf_analysis::mask::{apart, joined, lowest, with_actor, without_actor};
use csdf_analysis::{Accepted, consumers_of, producers_of};
use csdf_core::Core;
use csdf_model::{Graph, MAX_ACTORS};
use std::alloc::{AllocError, Global};
use std::marker::Model;

/// A bit for each actor that may be able to begin, one for each whose last start was not refused, and whom
/// the moves of each may enable.
#[derive(Drop)]
pub(crate) struct ReadySet {
    ready: u64,
    apt: u64,
    producers: Vec<u64>,
    consumers: Vec<u64>,
    are_cells_ample: bool,
}

impl Model for ReadySet {
    ghost use Rattle.csdf_crew.specs.Looking.{ReadyView};

    ghost Value = { ReadyView };

    ghost view = { λ r. record { ready = r.ready; producers = r.producers.items; consumers = r.consumers.items } };
}

/// The producers of each actor's inputs.
fn all_producers(alloc: Global, graph: &Graph) -> Result<Vec<u64>, AllocError>
    ensures count { IfOk result (λ v. length v.items ≡ length graph.now.actors) }
    ensures masks { IfOk result (λ v. AreProducers graph.now.channels (length graph.now.actors) v.items) }
{
    let mut masks = Vec::new(alloc);
    for actor in 0..graph.actors().len() as u32 {
        masks.push(producers_of(graph, actor))?;
    }
    Ok(masks)
}

/// The consumers of each actor's outputs.
fn all_consumers(alloc: Global, graph: &Graph) -> Result<Vec<u64>, AllocError>
    ensures count { IfOk result (λ v. length v.items ≡ length graph.now.actors) }
    ensures masks { IfOk result (λ v. AreConsumers graph.now.channels (length graph.now.actors) v.items) }
{
    let mut masks = Vec::new(alloc);
    for actor in 0..graph.actors().len() as u32 {
        masks.push(consumers_of(graph, actor))?;
    }
    Ok(masks)
}

/// Whether no firing can lack cells: there are as many as the capacities add up to.
fn are_cells_ample(accepted: &Accepted) -> bool {
    let mut left = accepted.cells();
    for capacity in accepted.capacities() {
        if *capacity > left {
            return false;
        }
        left -= *capacity;
    }
    true
}

fn mask_at(masks: &[u64], actor: u32) -> u64
    ensures { actor < length masks.now → result ≡ slice_index masks.now actor }
{
    match masks.get(actor as usize) {
        Some(mask) => *mask,
        None => 0,
    }
}

/// Whether the actor can begin.
fn can_begin(core: &Core, actor: u32) -> bool
    ensures { IsTrue result ↔ CanBegin core.now actor }
{
    core.can_begin(actor).is_ok()
}

/// The set with the actor where it can begin.
fn with_able(core: &Core, actor: u32, able: u64) -> u64
    requires { actor < MAX_ACTORS }
    ensures able { CanBegin core.now actor → IsIn result actor }
    ensures kept { (a : ℕ) → IsIn able a → IsIn result a }
    ensures only { (a : ℕ) → IsIn result a → IsIn able a ⊎ CanBegin core.now a }
{
    if can_begin(core, actor) {
        with_actor(able, actor)
    } else {
        able
    }
}

/// Those of these actors that can begin.
fn able_among(core: &Core, mask: u64) -> u64
    ensures able { HasAble core.now mask result }
    ensures only { (a : ℕ) → IsIn result a → CanBegin core.now a }
{
    let mut able = 0;
    let mut left = mask;
    while let Some(actor) = lowest(left) {
        left = without_actor(left, actor);
        able = with_able(core, actor, able);
    }
    able
}

impl ReadySet {
    /// Of a graph; none is told yet.
    pub(crate) fn new(alloc: Global, accepted: &Accepted) -> Result<ReadySet, AllocError>
        ensures producers { IfOk result (λ r. AreProducers accepted.now.graph.channels (length accepted.now.graph.actors) r.producers) }
        ensures consumers { IfOk result (λ r. AreConsumers accepted.now.graph.channels (length accepted.now.graph.actors) r.consumers) }
    {
        let graph = accepted.graph();
        let producers = all_producers(alloc, graph)?;
        let consumers = all_consumers(alloc, graph)?;
        Ok(ReadySet {
            ready: 0,
            apt: u64::MAX,
            producers,
            consumers,
            are_cells_ample: are_cells_ample(accepted),
        })
    }

    /// The actors that may be able to begin.
    pub(crate) fn actors(&self) -> u64
        ensures { result ≡ self.now.ready }
    {
        self.ready
    }

    /// Looks at those of these actors that are not told yet. One that can begin stays so while others
    /// move, but for the limit on all firings and for cells: then its start is refused, and told here.
    pub(crate) fn look(&mut self, core: &Core, mask: u64)
        ensures able { HasAble core.now mask self.new.ready }
        ensures gains { GainsAble core.now self.old.ready self.new.ready }
    {
        let able = able_among(core, apart(mask, self.ready));
        self.ready = joined(self.ready, able);
    }

    /// Looks at all actors.
    pub(crate) fn look_at_all(&mut self, core: &Core)
        ensures able { (a : ℕ) → a < MAX_ACTORS → CanBegin core.now a → IsIn self.new.ready a }
        ensures gains { GainsAble core.now self.old.ready self.new.ready }
    {
        self.look(core, u64::MAX);
    }

    /// Whom a move may enable that these actors alone wait for: all, where cells may be lacking.
    fn enabled(&self, mask: u64) -> u64
        ensures { (a : ℕ) → IsIn mask a → IsIn result a }
    {
        if self.are_cells_ample { mask } else { u64::MAX }
    }

    /// The actor's start was refused.
    pub(crate) fn refused(&mut self, actor: u32)
        ensures off { IsIn self.new.ready actor → actor < MAX_ACTORS → ⊥ }
        ensures others { (a : ℕ) → IsIn self.old.ready a → (a ≡ actor) ⊎ IsIn self.new.ready a }
        ensures only { (a : ℕ) → IsIn self.new.ready a → IsIn self.old.ready a }
    {
        let bit = bit_of(actor);
        self.ready = apart(self.ready, bit);
        self.apt = apart(self.apt, bit);
    }

    /// The actor has begun and read: its inputs have room again.
    pub(crate) fn started(&mut self, core: &Core, actor: u32)
        ensures able { actor < length self.old.producers → HasAble core.now (slice_index self.old.producers actor) self.new.ready }
        ensures others { (a : ℕ) → IsIn self.old.ready a → (a ≡ actor) ⊎ IsIn self.new.ready a }
    {
        let bit = bit_of(actor);
        self.ready = apart(self.ready, bit);
        self.apt = joined(self.apt, bit);
        let enabled = self.enabled(mask_at(&self.producers, actor));
        self.look(core, enabled);
    }

    /// The actor has made firings and is idle: its inputs have room again, and its outputs tokens.
    pub(crate) fn made(&mut self, core: &Core, actor: u32)
        ensures producers { actor < length self.old.producers → HasAble core.now (slice_index self.old.producers actor) self.new.ready }
        ensures consumers { actor < length self.old.consumers → HasAble core.now (slice_index self.old.consumers actor) self.new.ready }
        ensures own { actor < MAX_ACTORS → CanBegin core.now actor → IsIn self.new.ready actor }
        ensures others { (a : ℕ) → IsIn self.old.ready a → (a ≡ actor) ⊎ IsIn self.new.ready a }
    {
        let bit = bit_of(actor);
        self.ready = apart(self.ready, bit);
        self.apt = joined(self.apt, bit);
        let givers = joined(mask_at(&self.producers, actor), bit);
        let near = joined(givers, mask_at(&self.consumers, actor));
        let enabled = self.enabled(near);
        self.look(core, enabled);
    }

    /// The actors that may be able to begin once this one has delivered: its consumers, but for those
    /// whose last start was refused.
    pub(crate) fn after(&self, actor: u32) -> u64 {
        mask_at(&self.consumers, actor) & self.apt
    }

    /// The actor has written and is idle: its outputs have tokens again.
    pub(crate) fn delivered(&mut self, core: &Core, actor: u32)
        ensures able { actor < length self.old.consumers → HasAble core.now (slice_index self.old.consumers actor) self.new.ready }
        ensures own { actor < MAX_ACTORS → CanBegin core.now actor → IsIn self.new.ready actor }
        ensures others { (a : ℕ) → IsIn self.old.ready a → IsIn self.new.ready a }
    {
        let fed = joined(mask_at(&self.consumers, actor), bit_of(actor));
        let enabled = self.enabled(fed);
        self.look(core, enabled);
    }
}
