//! The values of the next firings of an actor of several phases, each with its own counts and its own part
//! of the tokens.

ghost use Rattle.std.specs.Prelude.{◌≡◌, ◌+◌, ◌++◌, ◌^◌, ◌<◌, ◌≤◌, [], false, true, IfOk, OnOk, length, slice_index_or, slice_range};
ghost use Rattle.smallvec.specs.SmallVec.{HasRoomFor};
ghost use Rattle.csdf_core.specs.Blocks.{gifts_of, needs_of};
ghost use Rattle.csdf_core.specs.Engine.{CanFire};
ghost use Rattle.csdf_core.specs.Phases.{IsInPhase};
ghost use Rattle.csdf_core.specs.Rows.{gift};
ghost use Rattle.csdf_core.specs.Step.{count, given, is_source};
ghost use Rattle.csdf_floor.specs.Making.{amount_of, amounts_of, made_value, phase_value, phase_values};
ghost use Rattle.csdf_floor.specs.Work.{feed_of, program};

use crate::book::Book;
use crate::counts::put_counts;
use crate::limits::MAX_FEED_TOKENS;
use crate::work::Work;
use csdf_core::{Block, Core, Turn};
use csdf_kernel::{Counts, Outputs, push_value};
use csdf_model::{MAX_FIRINGS_PER_ACTOR, MAX_TOTAL_PER_FIRING};
use std::alloc::AllocError;

impl Work {
    /// How many tokens the firing computes from. The core is one of this work.
    fn amount(&self, core: &Core, actor: u32, turn: Turn) -> usize
        requires exists { actor < length self.now.accepted.graph.actors }
        requires plan { core.now.plan ≡ (program self.now).plan }
        requires in_phase { IsInPhase core.now.plan.channels actor turn.firing turn.phase }
        ensures value { result ≡ amount_of (program self.now) actor turn.firing }
        ensures small { result ≤ MAX_TOTAL_PER_FIRING }
    {
        if self.is_source(actor) {
            return core.gift_at(actor, turn);
        }
        core.need_at(actor, turn)
    }

    /// The kernel's value of the firing, at the end of a list that has room for it, and how many of the
    /// tokens it computes from: the first of them. The core is one of this work.
    fn push_phase(
        &self,
        core: &Core,
        actor: u32,
        turn: Turn,
        tokens: &[i32],
        counts: &mut Counts,
        outputs: &mut Outputs,
    ) -> Result<usize, AllocError>
        requires exists { actor < length self.now.accepted.graph.actors }
        requires plan { core.now.plan ≡ (program self.now).plan }
        requires in_phase { IsInPhase core.now.plan.channels actor turn.firing turn.phase }
        requires tokens { amount_of (program self.now) actor turn.firing ≤ length tokens.now }
        requires room { HasRoomFor outputs.old (gift actor turn.firing (program self.now).plan.channels) }
        ensures amount { IfOk result (λ amount. amount ≡ amount_of (program self.now) actor turn.firing) }
        ensures items { OnOk result (outputs.new.items ≡ outputs.old.items ++ phase_value (program self.now) actor turn.firing tokens.now) }
        ensures capacity { OnOk result (outputs.new.capacity ≡ outputs.old.capacity) }
    {
        put_counts(core, actor, turn, counts)?;
        let amount = self.amount(core, actor, turn);
        let kernel = self.kernel(actor);
        push_value(outputs, kernel, counts.as_slice(), &tokens[..amount]);
        Ok(amount)
    }

    /// The kernel's values of the actor's next n firings, end to end, at the end of a list that has room
    /// for them. They compute from these tokens, one after the other. The core is one of this work.
    fn push_phases(
        &self,
        core: &Core,
        actor: u32,
        n: u32,
        tokens: &[i32],
        counts: &mut Counts,
        outputs: &mut Outputs,
    ) -> Result<(), AllocError>
        requires exists { actor < length self.now.accepted.graph.actors }
        requires plan { core.now.plan ≡ (program self.now).plan }
        requires few { count core.now.now actor + n ≤ MAX_FIRINGS_PER_ACTOR }
        requires tokens { amounts_of (program self.now) actor (count core.now.now actor) n ≤ length tokens.now }
        requires room { HasRoomFor outputs.old (gifts_of (program self.now).plan.channels actor (count core.now.now actor) n) }
        ensures { OnOk result (outputs.new.items ≡ outputs.old.items
            ++ phase_values (program self.now) actor (count core.now.now actor) n tokens.now) }
    {
        let first = core.fired(actor);
        let last = first + n;
        let mut turn = core.turn(actor);
        let mut at = 0;
        for _firing in first..last {
            at += self.push_phase(core, actor, turn, &tokens[at..], counts, outputs)?;
            turn = core.turn_after(actor, turn);
        }
        Ok(())
    }
}

impl Book {
    /// What the block computes from: what is in the actor's buffer, or for a source the next part of its file.
    #[inline(always)]
    pub(crate) fn block_inputs(&self, actor: u32, block: Block) -> &[i32]
        requires exists { actor < length self.now.shown.core.plan.sources }
        requires some { 0 < block.firings }
        requires can { CanFire self.now.shown.core.plan self.now.shown.core.now actor block.firings }
        requires given { block.given ≡ gifts_of self.now.shown.core.plan.channels actor (count self.now.shown.core.now actor) block.firings }
        requires buffer { length (slice_index_or self.now.reads actor [])
            ≡ needs_of self.now.shown.core.plan.channels actor (count self.now.shown.core.now actor) block.firings }
        ensures values { phase_values (program self.now.shown.work) actor (count self.now.shown.core.now actor) block.firings result.now
            ≡ made_value (program self.now.shown.work) actor (count self.now.shown.core.now actor) block.firings (slice_index_or self.now.reads actor []) }
        ensures long { amounts_of (program self.now.shown.work) actor (count self.now.shown.core.now actor) block.firings ≤ length result.now }
        ensures few { count self.now.shown.core.now actor + block.firings ≤ MAX_FIRINGS_PER_ACTOR }
    {
        self.core.keeps_within(actor, block.firings);
        if self.work.is_source(actor) {
            let used = self.core.written(actor) as usize;
            return self.work.part(actor, used, block.given as usize);
        }
        &self.reads[actor as usize]
    }

    /// The kernel's values of the block, whose tokens are in the actor's buffer, or for a source in its
    /// file, in the place of what the outputs hold.
    pub(crate) fn phased_values_into(
        &self,
        actor: u32,
        block: Block,
        counts: &mut Counts,
        outputs: &mut Outputs,
    ) -> Result<(), AllocError>
        requires exists { actor < length self.now.shown.core.plan.sources }
        requires some { 0 < block.firings }
        requires can { CanFire self.now.shown.core.plan self.now.shown.core.now actor block.firings }
        requires given { block.given ≡ gifts_of self.now.shown.core.plan.channels actor (count self.now.shown.core.now actor) block.firings }
        requires buffer { length (slice_index_or self.now.reads actor [])
            ≡ needs_of self.now.shown.core.plan.channels actor (count self.now.shown.core.now actor) block.firings }
        ensures { OnOk result (outputs.new.items ≡ made_value (program self.now.shown.work) actor (count self.now.shown.core.now actor) block.firings
            (slice_index_or self.now.reads actor [])) }
    {
        let _ = &self.work;
        let written = block.given as usize;
        let tokens = self.block_inputs(actor, block);
        outputs.clear();
        if written == 0 {
            return Ok(());
        }
        outputs.reserve(written)?;
        self.work
            .push_phases(&self.core, actor, block.firings, tokens, counts, outputs)
    }
}
