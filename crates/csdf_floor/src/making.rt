//! Several firings of one actor, made at once.

ghost use Rattle.std.specs.Prelude.{◌≡◌, ◌≤◌, ◌+◌, ◌*◌, ◌++◌, false, length, ◌↔◌, IsTrue, All, ◌<◌, [], None, true, IfOk, OnOk, OnErr, option_map, slice_index, slice_index_or};
ghost use Rattle.csdf_floor.specs.Making.{AreKeptValues, HasMade, IsBlock, amount_of, made_moves, made_value};
ghost use Rattle.csdf_model.specs.declared.parts.Kernel.TheVariants.{Sink};
ghost use Rattle.csdf_core.specs.declared.stage.Stage.TheVariants.{Idle};
ghost use Rattle.csdf_core.specs.Blocks.{AreReadEach, HoldAll, gifts_of, needs_of, takes_at};
ghost use Rattle.csdf_core.specs.Engine.{CanFire};
ghost use Rattle.csdf_core.specs.Moves.{Begin};
ghost use Rattle.csdf_core.specs.Phases.{HasPhases};
ghost use Rattle.csdf_core.specs.Ports.{inputs_at, outputs_at};
ghost use Rattle.csdf_core.specs.Rows.{need, gift};
ghost use Rattle.csdf_core.specs.State.{present};
ghost use Rattle.csdf_core.specs.Step.{count, given, is_source, stage, refusal};
ghost use Rattle.csdf_floor.specs.Journal.{IsHonest, inputs};
ghost use Rattle.csdf_floor.specs.Work.{program, is_sink_kernel};
ghost use Rattle.csdf_floor.specs.declared.fault.StartFault.TheVariants.{Refused};
ghost use Rattle.csdf_floor.specs.Floor.{IsStartAnswer};

use crate::book::Book;
use crate::fault::StartFault;
use crate::noting::note_firings;
use csdf_core::Block;
use csdf_kernel::{Counts, Outputs, eval_block};
use csdf_model::MAX_TOTAL_PER_FIRING;
use std::alloc::{AllocError, Global};

impl Book {
    /// Makes the buffer of the actor, which is idle, this long.
    pub(crate) fn fit_length(&mut self, actor: u32, needed: usize) -> Result<(), AllocError>
        requires exists { actor < length self.old.shown.core.plan.sources }
        requires idle { stage self.old.shown.core.now actor ≡ Idle }
        ensures shown { self.new.shown ≡ self.old.shown }
        ensures rooms { self.new.rooms ≡ self.old.rooms }
        ensures room { self.new.room ≡ self.old.room }
        ensures buffer { OnOk result (length (slice_index_or self.new.reads actor []) ≡ needed) }
    {
        self.reads[actor as usize].resize(needed, 0)
    }

    /// Makes room in the actor's list, where it is a sink, for so many tokens.
    pub(crate) fn reserve_taken(&mut self, actor: u32, needed: usize) -> Result<(), AllocError>
        requires { actor < length self.old.shown.core.plan.sources }
        ensures shown { self.new.shown ≡ self.old.shown }
        ensures reads { self.new.reads ≡ self.old.reads }
        ensures room { self.new.room ≡ self.old.room }
        ensures sink { OnOk result (is_sink_kernel (slice_index_or (program self.old.shown.work).kernels actor Sink) ≡ true
            → needed ≤ slice_index self.new.rooms actor) }
    {
        if !self.work.is_sink(actor) {
            return Ok(());
        }
        self.sinks.reserve(actor, needed)
    }

    /// Copies what the actor's next n firings read into its buffer, which is as long.
    pub(crate) fn peek(&mut self, actor: u32, n: u32)
        requires exists { actor < length self.old.shown.core.plan.sources }
        requires some { 0 < n }
        requires can { CanFire self.old.shown.core.plan self.old.shown.core.now actor n }
        requires held { HoldAll self.old.shown.core.now.tokens (takes_at self.old.shown.core.plan.channels (count self.old.shown.core.now actor) n)
            (inputs_at self.old.shown.core.plan.channels actor) }
        requires buffer { length (slice_index_or self.old.reads actor [])
            ≡ needs_of self.old.shown.core.plan.channels actor (count self.old.shown.core.now actor) n }
        ensures shown { self.new.shown ≡ self.old.shown }
        ensures rooms { self.new.rooms ≡ self.old.rooms }
        ensures room { self.new.room ≡ self.old.room }
        ensures width { self.new.width ≡ self.old.width }
        ensures buffer { length (slice_index_or self.new.reads actor []) ≡ length (slice_index_or self.old.reads actor []) }
        ensures read { AreReadEach self.old.shown.core.plan self.old.shown.core.now actor (count self.old.shown.core.now actor) n
            (slice_index_or self.new.reads actor []) }
    {
        let buffer = &mut self.reads[actor as usize];
        self.core.peek(actor, n, buffer.as_mut_slice());
    }

    /// The kernel's values of the block, of which each firing moves as much, in the place of what the outputs
    /// hold.
    fn values_into(
        &self,
        actor: u32,
        block: Block,
        counts: &mut Counts,
        outputs: &mut Outputs,
    ) -> Result<(), AllocError>
        requires exists { actor < length self.now.shown.core.plan.sources }
        requires some { 0 < block.firings }
        requires can { CanFire self.now.shown.core.plan self.now.shown.core.now actor block.firings }
        requires given { block.given ≡ gifts_of self.now.shown.core.plan.channels actor (count self.now.shown.core.now actor) block.firings }
        requires buffer { length (slice_index_or self.now.reads actor [])
            ≡ needs_of self.now.shown.core.plan.channels actor (count self.now.shown.core.now actor) block.firings }
        requires phases { HasPhases self.now.shown.core.plan.channels actor 1 }
        ensures { OnOk result (outputs.new.items ≡ made_value (program self.now.shown.work) actor (count self.now.shown.core.now actor) block.firings
            (slice_index_or self.now.reads actor [])) }
    {
        self.counts_into(actor, counts)?;
        let kernel = self.work.kernel(actor);
        let each = self.amount(actor);
        let tokens = self.block_inputs(actor, block);
        eval_block(
            kernel,
            counts.as_slice(),
            each,
            block.firings,
            tokens,
            outputs,
        )
    }

    /// The kernel's values of the block, whose tokens are in the actor's buffer, in the place of what the
    /// outputs hold.
    fn block_values_into(
        &self,
        actor: u32,
        block: Block,
        counts: &mut Counts,
        outputs: &mut Outputs,
    ) -> Result<(), AllocError>
        requires exists { actor < length self.now.shown.core.plan.sources }
        requires some { 0 < block.firings }
        requires can { CanFire self.now.shown.core.plan self.now.shown.core.now actor block.firings }
        requires given { block.given ≡ gifts_of self.now.shown.core.plan.channels actor (count self.now.shown.core.now actor) block.firings }
        requires buffer { length (slice_index_or self.now.reads actor [])
            ≡ needs_of self.now.shown.core.plan.channels actor (count self.now.shown.core.now actor) block.firings }
        ensures { OnOk result (outputs.new.items ≡ made_value (program self.now.shown.work) actor (count self.now.shown.core.now actor) block.firings
            (slice_index_or self.now.reads actor [])) }
    {
        if !self.core.has_one_phase(actor) {
            return self.phased_values_into(actor, block, counts, outputs);
        }
        self.values_into(actor, block, counts, outputs)
    }

    /// Makes the actor's next n firings, which write these tokens: the kernel's values. A sink has what they
    /// read in its buffer. Memory runs out only where the journal is kept.
    pub(crate) fn fire(
        &mut self,
        alloc: Global,
        actor: u32,
        n: u32,
        tokens: &[i32],
    ) -> Result<(), AllocError>
        requires exists { actor < length self.old.shown.core.plan.sources }
        requires some { 0 < n }
        requires can { CanFire self.old.shown.core.plan self.old.shown.core.now actor n }
        requires sink { is_sink_kernel (slice_index_or (program self.old.shown.work).kernels actor Sink) ≡ true
            → needs_of self.old.shown.core.plan.channels actor (count self.old.shown.core.now actor) n ≤ slice_index self.old.rooms actor }
        requires values { AreKeptValues self.old.shown actor n (slice_index_or self.old.reads actor []) tokens.now }
        ensures made { OnOk result (HasMade self.old.shown self.new.shown actor n (made_moves self.old.shown actor n)) }
        ensures room { OnOk result (self.old.room ≤ self.new.room + 4 * n) }
        ensures unchanged { OnErr result (self.new.shown ≡ self.old.shown) }
        ensures room_stays { OnErr result (self.old.room ≤ self.new.room) }
    {
        self.core.keeps_within(actor, n);
        note_firings(&self.core, &mut self.journal, alloc, actor, n, tokens)?;
        self.core.fire(actor, n, tokens);
        let is_sink = self.work.is_sink(actor);
        let taken = &self.reads[actor as usize];
        self.sinks.append_where(is_sink, actor, taken);
        Ok(())
    }

    /// The actor's next firings that it can make one after another, at most so many.
    pub(crate) fn block(&self, actor: u32, most: u32) -> Block
        requires { actor < length self.now.shown.core.plan.sources }
        ensures most { result.firings ≤ most }
        ensures some { 0 < most → refusal self.now.shown.core.plan self.now.shown.core.now (Begin actor) ≡ None → 0 < result.firings }
        ensures block { IsBlock self.now.shown.core actor result }
    {
        let _ = &self.work;
        self.core.ahead(actor, most)
    }

    /// Makes room for the actor's next n firings, with a buffer for so many tokens, and the closing of its
    /// outputs.
    #[inline(always)]
    pub(crate) fn make_room_for(
        &mut self,
        alloc: Global,
        actor: u32,
        n: u32,
        needed: usize,
    ) -> Result<(), AllocError>
        requires exists { actor < length self.old.shown.core.plan.sources }
        requires idle { stage self.old.shown.core.now actor ≡ Idle }
        ensures shown { self.new.shown ≡ self.old.shown }
        ensures buffer { OnOk result (length (slice_index_or self.new.reads actor []) ≡ needed) }
        ensures sink { OnOk result (is_sink_kernel (slice_index_or (program self.old.shown.work).kernels actor Sink) ≡ true
            → needed ≤ slice_index self.new.rooms actor) }
        ensures width { OnOk result (gift actor (count self.old.shown.core.now actor) self.old.shown.core.plan.channels ≤ self.new.width) }
        ensures room { OnOk result (4 * n + length (outputs_at self.old.shown.core.plan.channels actor) ≤ self.new.room) }
        ensures greater { self.old.room ≤ self.new.room }
    {
        self.fit_length(actor, needed)?;
        self.reserve_taken(actor, needed)?;
        let each = self.core.gives(actor);
        let closes = self.output_count(actor);
        self.reserve_copy(alloc, each)?;
        self.reserve(4 * n as usize + closes)
    }

    /// Makes the block at once: the actor's next firings, which find all that they read.
    pub(crate) fn make(
        &mut self,
        actor: u32,
        block: Block,
        counts: &mut Counts,
        outputs: &mut Outputs,
    ) -> Result<(), AllocError>
        requires exists { actor < length self.old.shown.core.plan.sources }
        requires some { 0 < block.firings }
        requires block { IsBlock self.old.shown.core actor block }
        requires held { HoldAll self.old.shown.core.now.tokens (takes_at self.old.shown.core.plan.channels (count self.old.shown.core.now actor) block.firings)
            (inputs_at self.old.shown.core.plan.channels actor) }
        ensures made { OnOk result (HasMade self.old.shown self.new.shown actor block.firings (made_moves self.old.shown actor block.firings)) }
        ensures room { OnOk result (length (outputs_at self.old.shown.core.plan.channels actor) ≤ self.new.room) }
        ensures unchanged { OnErr result (self.new.shown ≡ self.old.shown) }
        ensures room_stays { OnErr result (self.old.room ≤ self.new.room) }
    {
        let n = block.firings;
        let alloc = *outputs.allocator();
        self.make_room_for(alloc, actor, n, block.needed as usize)?;
        self.peek(actor, n);
        self.block_values_into(actor, block, counts, outputs)?;
        let _ = &self.work;
        self.fire(alloc, actor, n, outputs.as_slice())
    }

    /// Makes the block: at once where its firings find all that they read, or keep a state in one channel, and else
    /// with their values told one after another.
    fn make_block(
        &mut self,
        actor: u32,
        block: Block,
        counts: &mut Counts,
        outputs: &mut Outputs,
    ) -> Result<u32, AllocError>
        requires exists { actor < length self.old.shown.core.plan.sources }
        requires some { 0 < block.firings }
        requires block { IsBlock self.old.shown.core actor block }
        ensures some { IfOk result (λ made. 0 < made) }
        ensures most { IfOk result (λ made. made ≤ block.firings) }
        ensures made { IfOk result (λ made. HasMade self.old.shown self.new.shown actor made (made_moves self.old.shown actor made)) }
        ensures room { OnOk result (length (outputs_at self.old.shown.core.plan.channels actor) ≤ self.new.room) }
        ensures unchanged { OnErr result (self.new.shown ≡ self.old.shown) }
        ensures room_stays { OnErr result (self.old.room ≤ self.new.room) }
    {
        if self.core.holds(actor, block.firings) {
            self.make(actor, block, counts, outputs)?;
            return Ok(block.firings);
        }
        if let Some(feedback) = self.goes_on(actor, block.firings) {
            self.make_with_state(actor, feedback, block.firings, counts, outputs)?;
            return Ok(block.firings);
        }
        self.make_successive(actor, block, counts, outputs)?;
        Ok(block.firings)
    }

    /// What the actor's present firing computes from.
    pub(crate) fn firing_inputs(&self, actor: u32) -> &[i32]
        requires exists { actor < length self.now.shown.core.plan.sources }
        requires few { length (slice_index_or self.now.reads actor []) ≤ MAX_TOTAL_PER_FIRING }
        ensures value { result.now ≡ inputs (program self.now.shown.work) actor (count self.now.shown.core.now actor)
            (slice_index_or self.now.reads actor []) }
        ensures amount { length (slice_index_or self.now.reads actor []) ≡ need actor (count self.now.shown.core.now actor) self.now.shown.core.plan.channels
            → length result.now ≤ amount_of (program self.now.shown.work) actor (count self.now.shown.core.now actor) }
        ensures few { length result.now ≤ MAX_TOTAL_PER_FIRING }
    {
        if self.work.is_source(actor) {
            return self.feed_part(actor);
        }
        &self.reads[actor as usize]
    }

    /// Makes some of the actor's next firings at once and tells how many, or 0 where none more is wanted, the
    /// next one may not begin, or memory runs out: then nothing is made.
    fn make_more(
        &mut self,
        actor: u32,
        most: u32,
        counts: &mut Counts,
        outputs: &mut Outputs,
    ) -> u32
        requires exists { actor < length self.old.shown.core.plan.sources }
        requires room { length (outputs_at self.old.shown.core.plan.channels actor) ≤ self.old.room }
        ensures most { result ≤ most }
        ensures made { HasMade self.old.shown self.new.shown actor result (made_moves self.old.shown actor result) }
        ensures room { length (outputs_at self.old.shown.core.plan.channels actor) ≤ self.new.room }
        ensures before { IsHonest (program self.old.shown.work) self.old.shown.journal }
    {
        let _ = &self.work;
        let block = self.block(actor, most);
        if block.firings == 0 {
            return 0;
        }
        match self.make_block(actor, block, counts, outputs) {
            Ok(n) => n,
            Err(_error) => 0,
        }
    }

    /// Whether the actor may begin again after a block of so many firings: one of several phases, since a block ends
    /// with a cycle of them, and is shorter where the next firing is refused. It decides no more than how many firings
    /// one call makes.
    fn may_go_on(&self, actor: u32, n: u32) -> bool
        requires { actor < length self.now.shown.core.plan.sources }
    {
        let phases = self.work.phases(actor);
        phases > 1 && n >= phases
    }

    /// Makes the block and, where the actor may begin again after it, blocks that are no longer, until so
    /// many firings are made or the next one may not begin. It makes fewer where memory runs out after the
    /// first block.
    fn make_on(
        &mut self,
        actor: u32,
        block: Block,
        most: u32,
        counts: &mut Counts,
        outputs: &mut Outputs,
    ) -> Result<u32, AllocError>
        requires exists { actor < length self.old.shown.core.plan.sources }
        requires block { IsBlock self.old.shown.core actor block }
        requires some { 0 < block.firings }
        requires few { block.firings ≤ most }
        ensures some { IfOk result (λ n. 0 < n) }
        ensures most { IfOk result (λ n. n ≤ most) }
        ensures made { IfOk result (λ n. HasMade self.old.shown self.new.shown actor n (made_moves self.old.shown actor n)) }
        ensures room { OnOk result (length (outputs_at self.old.shown.core.plan.channels actor) ≤ self.new.room) }
        ensures unchanged { OnErr result (self.new.shown ≡ self.old.shown) }
    {
        let _ = &self.work;
        let n = self.make_block(actor, block, counts, outputs)?;
        let mut made = n;
        let mut more = n;
        for _block in n..most {
            if !self.may_go_on(actor, more) {
                break;
            }
            more = self.make_more(actor, n.min(most - made), counts, outputs);
            made += more;
        }
        Ok(made)
    }

    /// Makes the actor's next firings, a block of them or several (see [`make_on`](Book::make_on)). Whether the
    /// first may begin is asked only where no block tells it.
    pub(crate) fn make_many(
        &mut self,
        actor: u32,
        most: u32,
        counts: &mut Counts,
        outputs: &mut Outputs,
    ) -> Result<u32, StartFault>
        requires exists { actor < length self.old.shown.core.plan.sources }
        requires some { 0 < most }
        ensures answer { IsStartAnswer (option_map Refused (refusal self.old.shown.core.plan self.old.shown.core.now (Begin actor))) result }
        ensures some { IfOk result (λ n. 0 < n) }
        ensures most { IfOk result (λ n. n ≤ most) }
        ensures made { IfOk result (λ n. HasMade self.old.shown self.new.shown actor n (made_moves self.old.shown actor n)) }
        ensures room { OnOk result (length (outputs_at self.old.shown.core.plan.channels actor) ≤ self.new.room) }
        ensures unchanged { OnErr result (self.new.shown ≡ self.old.shown) }
    {
        self.core.begins(actor);
        let block = self.block(actor, most);
        let firings = block.firings;
        if firings == 0 {
            self.core.can_begin(actor)?;
            unreachable!();
        }
        match self.make_on(actor, block, most, counts, outputs) {
            Ok(n) => Ok(n),
            Err(_error) => Err(StartFault::Memory),
        }
    }
}
