//! The values of firings that read what those before them in the block write, told one after another.
//!
//! The actor's buffer has what the firings read, but for the tokens of channels from the actor to itself. What these
//! hold is kept beside ([`OwnTokens`]), with the places where a firing has it: each firing reads out of it, and puts its
//! share back.

ghost use Rattle.std.specs.Prelude.{ℕ, ◌≡◌, ◌+◌, ◌*◌, ◌++◌, ◌<◌, ◌≤◌, [], false, List, ℤ, All, OnOk, OnErr, length, slice_index, slice_index_or, sum};
ghost use Rattle.smallvec.specs.SmallVec.{HasRoomFor};
ghost use Rattle.csdf_model.specs.declared.parts.Kernel.TheVariants.{Sink};
ghost use Rattle.csdf_core.specs.Blocks.{gifts_of, needs_of};
ghost use Rattle.csdf_core.specs.Engine.{CanFire, reads_of, there_of};
ghost use Rattle.csdf_core.specs.Own.{AreOwn, ArePlaced, OwnEnough, own_laid, own_passed};
ghost use Rattle.csdf_core.specs.Phases.{IsInPhase};
ghost use Rattle.csdf_core.specs.Ports.{inputs_at, outputs_at, take_at, tokens_at};
ghost use Rattle.csdf_core.specs.Rows.{gift, need};
ghost use Rattle.csdf_core.specs.Step.{count, is_source};
ghost use Rattle.csdf_kernel.specs.Value.{value_of};
ghost use Rattle.csdf_floor.specs.Making.{AreKeptValues, HasMade, IsBlock, made_moves, made_value};
ghost use Rattle.csdf_floor.specs.Work.{is_sink_kernel, program};

use crate::book::Book;
use crate::counts::{put_counts, put_counts_after};
use crate::work::Work;
use csdf_core::{Block, Core, OwnTokens, Turn};
use csdf_kernel::{Counts, Outputs, Prepared};
use csdf_model::{MAX_CHANNELS, MAX_TOKENS_PER_FIRING, MAX_TOTAL_PER_FIRING};
use std::alloc::{AllocError, Global};

/// The kernel's value of the firing, at the end of a list that has room for it. The own tokens that the firing reads
/// are put into its part of the buffer, and its share goes to them.
fn push_next(
    core: &Core,
    kernel: &Prepared<'_>,
    actor: u32,
    turn: Turn,
    counts: &[u32],
    own: &mut OwnTokens,
    part: &mut [i32],
    outputs: &mut Outputs,
) -> Result<(), AllocError>
    requires exists { actor < length core.now.plan.sources }
    requires in_phase { IsInPhase core.now.plan.channels actor turn.firing turn.phase }
    requires few_counts { length counts.now ≤ MAX_CHANNELS }
    requires small_counts { All (λ count. count ≤ MAX_TOKENS_PER_FIRING) counts.now }
    requires all_counts { sum counts.now ≡ gift actor turn.firing core.now.plan.channels }
    requires placed { ArePlaced core.now.plan.channels actor turn.firing own.old.places }
    requires each { length own.old.queues ≡ length (inputs_at core.now.plan.channels actor) }
    requires enough { OwnEnough core.now.plan.channels actor (take_at core.now.plan.channels turn.firing) own.old.queues }
    requires part { length part.old ≡ need actor turn.firing core.now.plan.channels }
    requires few { length part.old ≤ MAX_TOTAL_PER_FIRING }
    requires room { HasRoomFor outputs.old (gift actor turn.firing core.now.plan.channels) }
    ensures part { (tokens : ℕ → List ℤ) → AreOwn core.now.plan.channels actor tokens own.old.queues → part.new
        ≡ own_laid core.now.plan.channels actor (take_at core.now.plan.channels turn.firing) (inputs_at core.now.plan.channels actor) tokens part.old }
    ensures items { outputs.new.items ≡ outputs.old.items ++ value_of kernel.now counts.now part.new }
    ensures capacity { outputs.new.capacity ≡ outputs.old.capacity }
    ensures own { OnOk result ((tokens : ℕ → List ℤ) → AreOwn core.now.plan.channels actor tokens own.old.queues
        → AreOwn core.now.plan.channels actor (own_passed core.now.plan.channels actor turn.firing (value_of kernel.now counts.now part.new) tokens) own.new.queues) }
    ensures places { own.new.places ≡ own.old.places }
{
    core.lay_own(actor, turn, own, part);
    let before = outputs.len();
    kernel.push_value(outputs, counts, part);
    core.pass_own(actor, turn, own, &outputs.as_slice()[before..])
}

impl Work {
    /// The kernel's values of the actor's next n firings, end to end, in an empty list that has room for them, and what
    /// they read in the buffer, which has what is there of it. The core is one of this work.
    fn push_successive(
        &self,
        core: &Core,
        actor: u32,
        n: u32,
        own: &mut OwnTokens,
        buffer: &mut [i32],
        counts: &mut Counts,
        outputs: &mut Outputs,
    ) -> Result<(), AllocError>
        requires exists { actor < length self.now.accepted.graph.actors }
        requires plan { core.now.plan ≡ (program self.now).plan }
        requires no_source { is_source core.now.plan actor ≡ false }
        requires can { CanFire core.now.plan core.now.now actor n }
        requires own { AreOwn core.now.plan.channels actor (tokens_at core.now.now.tokens) own.old.queues }
        requires placed { ArePlaced core.now.plan.channels actor (count core.now.now actor) own.old.places }
        requires size { length buffer.old ≡ needs_of core.now.plan.channels actor (count core.now.now actor) n }
        requires there { buffer.old ≡ there_of core.now.plan.channels actor (count core.now.now actor) n core.now.now.tokens }
        requires empty { outputs.old.items ≡ [] }
        requires room { HasRoomFor outputs.old (gifts_of core.now.plan.channels actor (count core.now.now actor) n) }
        ensures read { OnOk result (buffer.new ≡ reads_of core.now.plan.channels actor (count core.now.now actor) n core.now.now.tokens outputs.new.items) }
        ensures values { OnOk result (outputs.new.items ≡ made_value (program self.now) actor (count core.now.now actor) n buffer.new) }
    {
        core.reads(actor, n);
        core.keeps_within(actor, n);
        let kernel = Prepared::new(self.kernel(actor));
        let has_one_phase = core.has_one_phase(actor);
        let mut turn = core.turn(actor);
        put_counts(core, actor, turn, counts)?;
        let mut at = 0;
        for _firing in 0..n {
            let end = at + core.need_at(actor, turn);
            let part = &mut buffer[at..end];
            push_next(
                core,
                &kernel,
                actor,
                turn,
                counts.as_slice(),
                own,
                part,
                outputs,
            )?;
            let after = core.turn_after(actor, turn);
            core.turn_own(actor, turn, after, own);
            put_counts_after(core, actor, has_one_phase, turn, after, counts)?;
            turn = after;
            at = end;
        }
        Ok(())
    }
}

impl Book {
    /// The kernel's values of the block, in the place of what the outputs hold, and what its firings read in the
    /// actor's buffer, which is as long.
    fn successive_values_into(
        &mut self,
        alloc: Global,
        actor: u32,
        block: Block,
        counts: &mut Counts,
        outputs: &mut Outputs,
    ) -> Result<(), AllocError>
        requires exists { actor < length self.old.shown.core.plan.sources }
        requires some { 0 < block.firings }
        requires block { IsBlock self.old.shown.core actor block }
        requires no_source { is_source self.old.shown.core.plan actor ≡ false }
        requires buffer { length (slice_index_or self.old.reads actor []) ≡ block.needed }
        ensures shown { self.new.shown ≡ self.old.shown }
        ensures rooms { self.new.rooms ≡ self.old.rooms }
        ensures room { self.new.room ≡ self.old.room }
        ensures width { self.new.width ≡ self.old.width }
        ensures values { OnOk result (AreKeptValues self.old.shown actor block.firings (slice_index_or self.new.reads actor []) outputs.new.items) }
    {
        let n = block.firings;
        self.core.keeps_within(actor, n);
        self.core.reads(actor, n);
        let mut own = self.core.own_tokens(alloc, actor, n)?;
        outputs.clear();
        outputs.reserve(block.given as usize)?;
        let buffer = &mut self.reads[actor as usize];
        let into = buffer.as_mut_slice();
        self.core.peek(actor, n, into);
        self.work
            .push_successive(&self.core, actor, n, &mut own, into, counts, outputs)
    }

    /// Makes the block, in which firings read what those before them write.
    pub(crate) fn make_successive(
        &mut self,
        actor: u32,
        block: Block,
        counts: &mut Counts,
        outputs: &mut Outputs,
    ) -> Result<(), AllocError>
        requires exists { actor < length self.old.shown.core.plan.sources }
        requires some { 0 < block.firings }
        requires block { IsBlock self.old.shown.core actor block }
        requires no_source { is_source self.old.shown.core.plan actor ≡ false }
        ensures made { OnOk result (HasMade self.old.shown self.new.shown actor block.firings (made_moves self.old.shown actor block.firings)) }
        ensures room { OnOk result (length (outputs_at self.old.shown.core.plan.channels actor) ≤ self.new.room) }
        ensures unchanged { OnErr result (self.new.shown ≡ self.old.shown) }
        ensures room_stays { OnErr result (self.old.room ≤ self.new.room) }
    {
        let n = block.firings;
        let alloc = *outputs.allocator();
        self.make_room_for(alloc, actor, n, block.needed as usize)?;
        self.successive_values_into(alloc, actor, block, counts, outputs)?;
        self.fire(alloc, actor, n, outputs.as_slice())
    }
}
