//! Drafts of an actor's next firings, and how firings are made from them.

ghost use Rattle.std.specs.Prelude.{ℕ, ◌≡◌, ◌<◌, ◌≤◌, ◌*◌, All, IsTrue, IfOk, IfSome, OnOk, OnErr, List, None, ℤ, false, true, length, option_map, slice_index_or};
ghost use Rattle.csdf_model.specs.declared.parts.Kernel.TheVariants.{Sink};
ghost use Rattle.csdf_kernel.specs.Value.{HasFilterInRange};
ghost use Rattle.csdf_core.specs.Blocks.{AreReadEach, HoldAll, gifts_of, needs_of, reads_over, takes_at};
ghost use Rattle.csdf_core.specs.Engine.{AreReadWith, CanFire};
ghost use Rattle.csdf_core.specs.Feedback.{CanGoOn, IsFeedback, loop_reads};
ghost use Rattle.csdf_core.specs.Moves.{Begin};
ghost use Rattle.csdf_core.specs.Phases.{HasPhases};
ghost use Rattle.csdf_core.specs.Ports.{inputs_at, outputs_at, tokens_at};
ghost use Rattle.csdf_core.specs.Rows.{gift, need};
ghost use Rattle.csdf_core.specs.Step.{count, is_source, refusal};
ghost use Rattle.csdf_floor.specs.declared.fault.StartFault.TheVariants.{Refused};
ghost use Rattle.csdf_floor.specs.Floor.{IsStartAnswer};
ghost use Rattle.csdf_floor.specs.Drafts.{IsDraftOf, IsDrafted, Suits, products_of, taps_of};
ghost use Rattle.csdf_floor.specs.Journal.{output_counts};
ghost use Rattle.csdf_floor.specs.Making.{HasMade, IsBlock, made_moves};
ghost use Rattle.csdf_floor.specs.Work.{is_sink_kernel, program};

use crate::book::Book;
use crate::draft::Draft;
use crate::fault::StartFault;
use csdf_core::{Block, Core, Feedback};
use csdf_kernel::{Counts, Outputs};
use csdf_model::{Kernel, MAX_CHANNELS, MAX_TOKENS_PER_FIRING, MAX_TOTAL_PER_FIRING};
use std::alloc::{AllocError, Global};

/// How many taps a filter has; none for another kernel.
fn taps_of(kernel: &Kernel) -> u32
    ensures { result ≡ taps_of kernel.now }
{
    match kernel {
        Kernel::Fir { taps, .. } => *taps,
        _ => 0,
    }
}

/// Puts what the actor's next n firings read, which is so much, in the place of what the list holds.
fn read_ahead(
    core: &Core,
    actor: u32,
    n: u32,
    needed: usize,
    inputs: &mut Vec<i32>,
) -> Result<(), AllocError>
    requires exists { actor < length core.now.plan.sources }
    requires can { CanFire core.now.plan core.now.now actor n }
    requires held { HoldAll core.now.now.tokens (takes_at core.now.plan.channels (count core.now.now actor) n) (inputs_at core.now.plan.channels actor) }
    requires needed { needed ≡ needs_of core.now.plan.channels actor (count core.now.now actor) n }
    ensures there { OnOk result (inputs.new.items ≡ reads_over core.now.plan.channels (inputs_at core.now.plan.channels actor)
        (count core.now.now actor) n (tokens_at core.now.now.tokens)) }
    ensures read { OnOk result (AreReadEach core.now.plan core.now.now actor (count core.now.now actor) n inputs.new.items) }
    ensures long { OnOk result (length inputs.new.items ≡ needed) }
{
    inputs.resize(needed, 0)?;
    core.peek(actor, n, inputs.as_mut_slice());
    Ok(())
}

/// Puts the state of an actor that makes its next n firings in one go, and the other tokens that they read, in
/// the place of what the lists hold.
fn read_on(
    core: &Core,
    actor: u32,
    feedback: Feedback,
    n: u32,
    state: &mut Vec<i32>,
    others: &mut Vec<i32>,
) -> Result<(), AllocError>
    requires feedback { IsFeedback core.now.plan actor feedback }
    requires can { CanGoOn core.now.plan core.now.now actor feedback.channel n }
    ensures state { OnOk result (length state.new.items ≡ feedback.taken) }
    ensures others { OnOk result (length others.new.items ≡ n * feedback.each) }
    ensures read { OnOk result ((v : List ℤ) → length v ≡ gifts_of core.now.plan.channels actor (count core.now.now actor) n
        → AreReadWith core.now.plan core.now.now actor (count core.now.now actor) n v (loop_reads feedback.is_first feedback.each feedback.before
        (gift actor (count core.now.now actor) core.now.plan.channels) n state.new.items others.new.items v)) }
{
    state.resize(feedback.taken as usize, 0)?;
    others.resize(n as usize * feedback.each as usize, 0)?;
    core.peek_on(
        actor,
        feedback,
        n,
        state.as_mut_slice(),
        others.as_mut_slice(),
    );
    Ok(())
}

impl Book {
    /// How many tokens n firings of the actor read, which has one phase.
    fn needed(&self, actor: u32, n: u32) -> usize
        requires exists { actor < length self.now.shown.core.plan.sources }
        requires phases { HasPhases self.now.shown.core.plan.channels actor 1 }
        ensures all { result ≡ needs_of self.now.shown.core.plan.channels actor (count self.now.shown.core.now actor) n }
        ensures each { result ≡ n * need actor (count self.now.shown.core.now actor) self.now.shown.core.plan.channels }
    {
        n as usize * self.core.need(actor)
    }

    /// Whether the actor can make its next n firings one after another, where so many are asked for.
    fn can_make(&self, actor: u32, n: u32) -> bool
        requires { actor < length self.now.shown.core.plan.sources }
        ensures can { IsTrue result → CanFire self.now.shown.core.plan self.now.shown.core.now actor n }
    {
        if self.block(actor, n).firings != n {
            return false;
        }
        true
    }

    /// Whether the draft was evaluated, is of the actor's next firings, and these can be made.
    fn suits(&self, actor: u32, draft: &Draft) -> bool
        requires { actor < length self.now.shown.core.plan.sources }
        ensures made { IsTrue result → draft.now.is_made ≡ true }
        ensures suits { IsTrue result → Suits self.now.shown actor draft.now }
    {
        if !draft.is_made || draft.actor != actor || draft.firing != self.core.fired(actor) {
            return false;
        }
        self.can_make(actor, draft.firings)
    }

    /// Makes the firings of the draft, which suits the actor: nobody else takes the tokens that they read.
    fn make_suited(&mut self, alloc: Global, actor: u32, draft: &Draft) -> Result<(), AllocError>
        requires exists { actor < length self.old.shown.core.plan.sources }
        requires some { 0 < draft.now.firings }
        requires made { draft.now.is_made ≡ true }
        requires suits { Suits self.old.shown actor draft.now }
        requires drafted { IsDrafted (program self.old.shown.work) draft.now }
        ensures begins { refusal self.old.shown.core.plan self.old.shown.core.now (Begin actor) ≡ None }
        ensures made { OnOk result (HasMade self.old.shown self.new.shown actor draft.now.firings (made_moves self.old.shown actor draft.now.firings)) }
        ensures room { OnOk result (length (outputs_at self.old.shown.core.plan.channels actor) ≤ self.new.room) }
        ensures unchanged { OnErr result (self.new.shown ≡ self.old.shown) }
    {
        let n = draft.firings;
        let closes = self.output_count(actor);
        self.reserve(4 * n as usize + closes)?;
        let _ = &self.work;
        self.fire(alloc, actor, n, draft.values())
    }

    /// As [`Book::make_many`]: from the draft, where there is one that suits the actor, and has some firings
    /// and at most so many.
    pub(crate) fn make_many_from(
        &mut self,
        actor: u32,
        most: u32,
        draft: Option<&Draft>,
        counts: &mut Counts,
        outputs: &mut Outputs,
    ) -> Result<u32, StartFault>
        requires exists { actor < length self.old.shown.core.plan.sources }
        requires some { 0 < most }
        requires drafted { IfSome draft (λ draft. 0 < draft.now.firings → IsDrafted (program self.old.shown.work) draft.now) }
        ensures answer { IsStartAnswer (option_map Refused (refusal self.old.shown.core.plan self.old.shown.core.now (Begin actor))) result }
        ensures some { IfOk result (λ n. 0 < n) }
        ensures most { IfOk result (λ n. n ≤ most) }
        ensures made { IfOk result (λ n. HasMade self.old.shown self.new.shown actor n (made_moves self.old.shown actor n)) }
        ensures room { OnOk result (length (outputs_at self.old.shown.core.plan.channels actor) ≤ self.new.room) }
        ensures unchanged { OnErr result (self.new.shown ≡ self.old.shown) }
    {
        if let Some(draft) = draft {
            let n = draft.firings;
            if n > 0 && n <= most && self.suits(actor, draft) {
                self.make_suited(*outputs.allocator(), actor, draft)?;
                return Ok(n);
            }
        }
        self.make_many(actor, most, counts, outputs)
    }

    /// How many products so many firings of the actor take, as each of its outputs gets what they read:
    /// none where it is no filter.
    fn products(&self, actor: u32, n: u32) -> u64
        requires { actor < length self.now.shown.core.plan.sources }
        ensures { result ≡ n * need actor (count self.now.shown.core.now actor) self.now.shown.core.plan.channels
            * taps_of (slice_index_or (program self.now.shown.work).kernels actor Sink) }
    {
        let each = u64::from(n) * self.core.need(actor) as u64;
        each * u64::from(taps_of(self.work.kernel(actor)))
    }

    /// The actor's next firings, as many as can be made one after another and at most so many, where they take so
    /// many products at least and the actor is no source and no sink and has one phase.
    fn draftable(&self, actor: u32, most: u32, heavy: u64) -> Option<Block>
        requires { actor < length self.now.shown.core.plan.sources }
        ensures some { IfSome result (λ block. 0 < block.firings) }
        ensures most { IfSome result (λ block. block.firings ≤ most) }
        ensures block { IfSome result (IsBlock self.now.shown.core actor) }
        ensures phases { IfSome result (λ block. HasPhases self.now.shown.core.plan.channels actor 1) }
        ensures no_source { IfSome result (λ block. is_source (program self.now.shown.work).plan actor ≡ false) }
        ensures no_sink { IfSome result (λ block. is_sink_kernel (slice_index_or (program self.now.shown.work).kernels actor Sink) ≡ false) }
        ensures heavy { IfSome result (λ block. heavy ≤ block.firings * need actor (count self.now.shown.core.now actor) self.now.shown.core.plan.channels
            * taps_of (slice_index_or (program self.now.shown.work).kernels actor Sink)) }
    {
        if self.work.is_source(actor) || self.work.is_sink(actor) {
            return None;
        }
        if !self.core.has_one_phase(actor) {
            return None;
        }
        if self.products(actor, most) < heavy {
            return None;
        }
        let block = self.block(actor, most);
        if block.firings == 0 || self.products(actor, block.firings) < heavy {
            return None;
        }
        Some(block)
    }

    /// Puts what is the same for each firing of the actor into the draft, which has none: that it is the actor's,
    /// from its next one on, their kernel and counts, and how many tokens one of them reads.
    fn head_into(&self, actor: u32, draft: &mut Draft) -> Result<(), AllocError>
        requires exists { actor < length self.now.shown.core.plan.sources }
        requires empty { draft.old.firings ≡ 0 }
        requires open { draft.old.is_made ≡ false }
        ensures actor { OnOk result (draft.new.actor ≡ actor) }
        ensures firing { OnOk result (draft.new.firing ≡ count self.now.shown.core.now actor) }
        ensures kernel { OnOk result (draft.new.kernel ≡ slice_index_or (program self.now.shown.work).kernels actor Sink) }
        ensures counts { OnOk result (draft.new.counts ≡ output_counts (program self.now.shown.work) actor (count self.now.shown.core.now actor)) }
        ensures few { OnOk result (length draft.new.counts ≤ MAX_CHANNELS) }
        ensures small { OnOk result (All (λ n. n ≤ MAX_TOKENS_PER_FIRING) draft.new.counts) }
        ensures need { OnOk result (draft.new.need ≡ need actor (count self.now.shown.core.now actor) self.now.shown.core.plan.channels) }
        ensures few_inputs { OnOk result (draft.new.need ≤ MAX_TOTAL_PER_FIRING) }
        ensures in_range { OnOk result (HasFilterInRange draft.new.kernel) }
        ensures empty { draft.new.firings ≡ 0 }
        ensures open { draft.new.is_made ≡ false }
    {
        let firing = self.core.fired(actor);
        self.counts_into(actor, &mut draft.counts)?;
        draft.actor = actor;
        draft.firing = firing;
        draft.kernel = *self.work.kernel(actor);
        draft.need = self.core.need(actor);
        Ok(())
    }

    /// Drafts the actor's next n firings, which find all that they read.
    fn draft_plain(&self, actor: u32, n: u32, draft: &mut Draft) -> Result<(), AllocError>
        requires exists { actor < length self.now.shown.core.plan.sources }
        requires some { 0 < n }
        requires can { CanFire self.now.shown.core.plan self.now.shown.core.now actor n }
        requires held { HoldAll self.now.shown.core.now.tokens (takes_at self.now.shown.core.plan.channels (count self.now.shown.core.now actor) n)
            (inputs_at self.now.shown.core.plan.channels actor) }
        requires phases { HasPhases self.now.shown.core.plan.channels actor 1 }
        requires no_source { is_source (program self.now.shown.work).plan actor ≡ false }
        requires no_sink { is_sink_kernel (slice_index_or (program self.now.shown.work).kernels actor Sink) ≡ false }
        requires empty { draft.old.firings ≡ 0 }
        requires open { draft.old.is_made ≡ false }
        ensures draft { OnOk result (IsDraftOf self.now.shown actor draft.new) }
        ensures firings { OnOk result (draft.new.firings ≡ n) }
        ensures products { OnOk result (products_of draft.new ≡ n * need actor (count self.now.shown.core.now actor) self.now.shown.core.plan.channels
            * taps_of (slice_index_or (program self.now.shown.work).kernels actor Sink)) }
        ensures open { draft.new.is_made ≡ false }
        ensures none { OnErr result (draft.new.firings ≡ 0) }
    {
        self.head_into(actor, draft)?;
        let needed = self.needed(actor, n);
        read_ahead(&self.core, actor, n, needed, &mut draft.inputs)?;
        draft.state.truncate(0);
        draft.is_first = true;
        draft.before = 0;
        draft.firings = n;
        Ok(())
    }

    /// Drafts the actor's next n firings, which keep a state in a channel to itself and can be made in one go.
    fn draft_on(
        &self,
        actor: u32,
        feedback: Feedback,
        n: u32,
        draft: &mut Draft,
    ) -> Result<(), AllocError>
        requires exists { actor < length self.now.shown.core.plan.sources }
        requires some { 0 < n }
        requires can { CanFire self.now.shown.core.plan self.now.shown.core.now actor n }
        requires feedback { IsFeedback self.now.shown.core.plan actor feedback }
        requires goes_on { CanGoOn self.now.shown.core.plan self.now.shown.core.now actor feedback.channel n }
        requires apart { HoldAll self.now.shown.core.now.tokens (takes_at self.now.shown.core.plan.channels (count self.now.shown.core.now actor) n)
            (inputs_at self.now.shown.core.plan.channels actor) → ⊥ }
        requires no_sink { is_sink_kernel (slice_index_or (program self.now.shown.work).kernels actor Sink) ≡ false }
        requires empty { draft.old.firings ≡ 0 }
        requires open { draft.old.is_made ≡ false }
        ensures draft { OnOk result (IsDraftOf self.now.shown actor draft.new) }
        ensures firings { OnOk result (draft.new.firings ≡ n) }
        ensures products { OnOk result (products_of draft.new ≡ n * need actor (count self.now.shown.core.now actor) self.now.shown.core.plan.channels
            * taps_of (slice_index_or (program self.now.shown.work).kernels actor Sink)) }
        ensures open { draft.new.is_made ≡ false }
        ensures none { OnErr result (draft.new.firings ≡ 0) }
    {
        self.head_into(actor, draft)?;
        read_on(
            &self.core,
            actor,
            feedback,
            n,
            &mut draft.state,
            &mut draft.inputs,
        )?;
        draft.is_first = feedback.is_first;
        draft.before = feedback.before as usize;
        draft.firings = n;
        Ok(())
    }

    /// Puts the actor's next firings into the draft, as many as can be made one after another and at most so many,
    /// where they take so many products at least, and either find all that they read or keep a state in a channel to
    /// itself. Else the draft has none.
    pub(crate) fn draft_into(
        &self,
        actor: u32,
        most: u32,
        heavy: u64,
        draft: &mut Draft,
    ) -> Result<(), AllocError>
        requires exists { actor < length self.now.shown.core.plan.sources }
        ensures draft { OnOk result (0 < draft.new.firings → IsDraftOf self.now.shown actor draft.new) }
        ensures most { OnOk result (draft.new.firings ≤ most) }
        ensures heavy { OnOk result (0 < draft.new.firings → heavy ≤ products_of draft.new) }
        ensures open { draft.new.is_made ≡ false }
        ensures none { OnErr result (draft.new.firings ≡ 0) }
    {
        draft.clear();
        let Some(block) = self.draftable(actor, most, heavy) else {
            return Ok(());
        };
        let n = block.firings;
        if self.core.holds(actor, n) {
            return self.draft_plain(actor, n, draft);
        }
        if let Some(feedback) = self.goes_on(actor, n) {
            return self.draft_on(actor, feedback, n, draft);
        }
        Ok(())
    }
}
