//! A core, and the moves that brought it where it is.

ghost use Rattle.std.specs.Prelude.{ℕ, ◌≡◌, ◌↔◌, IsTrue, All, ◌+◌, ◌<◌, ◌≤◌, [], None, true, false, IfOk, OnOk, IsOk, length, map};
ghost use Rattle.std.specs.Prelude.{replicate, slice_range, suc, slice_index, slice_index_or};
ghost use Rattle.std.specs.List.{range_with_len};
ghost use Rattle.csdf_model.specs.declared.parts.Kernel.TheVariants.{Sink};
ghost use Rattle.csdf_core.specs.declared.stage.Stage.TheVariants.{Idle, Fetched};
ghost use Rattle.csdf_core.specs.Moves.{Begin, Read, Write, Finish, Close};
ghost use Rattle.csdf_core.specs.Plan.{Channel as ChannelModel};
ghost use Rattle.csdf_core.specs.Ports.{outputs_at};
ghost use Rattle.csdf_core.specs.Rows.{gift, need};
ghost use Rattle.csdf_core.specs.Shows.{Shows};
ghost use Rattle.csdf_core.specs.State.{opening, present};
ghost use Rattle.csdf_core.specs.Step.{count, given, stage, refusal, is_over, producer};
ghost use Rattle.csdf_journal.specs.View.{is_kept};
ghost use Rattle.csdf_kernel.specs.Value.{HasFilterInRange};
ghost use Rattle.csdf_floor.specs.Journal.{IsHonest, inputs, output_counts, program_for, value, reads_of, state_of};
ghost use Rattle.csdf_floor.specs.Making.{amount_of};
ghost use Rattle.csdf_floor.specs.Work.{AreFeeds, HasFewFirings, program, feed_of, feeds_in, is_sink_kernel};
ghost use Rattle.csdf_floor.specs.Floor.{IsUnderWay, task_of};
ghost use Rattle.csdf_floor.specs.Outcome.{report_of, report_on};
ghost use Rattle.csdf_floor.specs.Inside.{AreClosed, HasGiven, HasRoom, HasTaken, IsBook, IsNext, is_due};
ghost use Rattle.csdf_floor.specs.Beginnings.{IsBlank};

use crate::blank::BlankBook;
use crate::counts::{are_counts, put_counts};
use crate::fed::{Fed, RunBounds};
use crate::lists::Lists;
use crate::outcome::ChannelReport;
use crate::same::{are_same_tokens, is_same_kernel};
use crate::work::Work;
use csdf_analysis::Accepted;
use csdf_core::{Core, Stage};
use csdf_journal::Journal;
use csdf_kernel::{Counts, Inputs, Job};
use csdf_model::{Kernel, MAX_CHANNELS, MAX_TOKENS_PER_FIRING, MAX_TOTAL_PER_FIRING};
use std::alloc::{AllocError, Global};
use std::marker::Model;

/// What is run, its core, the moves that brought the core where it is, and what the sinks took.
pub(crate) struct Book {
    pub(crate) work: Work,
    pub(crate) core: Core,
    pub(crate) journal: Journal,
    pub(crate) sinks: Lists,
    pub(crate) reads: Vec<Vec<i32>>,
}

impl Drop for Book {
    fn drop(self) {
        let Book {
            work: _,
            core: _,
            journal: _,
            sinks: _,
            reads: _,
        } = self;
    }
}

impl Model for Book {
    ghost use Rattle.csdf_floor.specs.Work.{feeds_in};
    ghost use Rattle.csdf_floor.specs.Inside.{BookView, IsBook};

    ghost Value = { BookView };

    ghost view = { λ b. record {
      shown = record { work = b.work; core = b.core; journal = b.journal.moves; keeps = b.journal.keeps; sinks = b.sinks.lists };
      room = b.journal.room;
      width = b.journal.width;
      rooms = b.sinks.rooms;
      reads = feeds_in b.reads.items;
    } };

    ghost invariant = { λ b. IsBook (record { work = b.work; core = b.core; journal = b.journal.moves; keeps = b.journal.keeps; sinks = b.sinks.lists })
        (feeds_in b.reads.items) };
}

impl Book {
    /// The book of a core that has not moved, of a run of the graph over these feeds.
    pub(crate) fn open(fed: Fed, bounds: RunBounds, blank: BlankBook) -> Book
        requires fed { AreFeeds fed.accepted.graph (feeds_in fed.feeds.items) }
        requires some_period { 1 ≤ bounds.periods }
        requires few_firings { HasFewFirings fed.accepted bounds.periods }
        requires blank { IsBlank (program_for fed.accepted (feeds_in fed.feeds.items) bounds.periods bounds.firings).plan blank }
        ensures work { result.shown.work ≡ record { accepted = fed.accepted; feeds = feeds_in fed.feeds.items; periods = bounds.periods; firings = bounds.firings } }
        ensures journal { result.shown.journal ≡ [] }
        ensures keeps { result.shown.keeps ≡ blank.journal.keeps }
        ensures opening { result.shown.core.now ≡ present (opening result.shown.core.plan) }
        ensures room { length result.shown.core.plan.channels ≤ result.room }
    {
        let BlankBook {
            core,
            journal,
            sinks,
            reads,
        } = blank;
        Book {
            work: Work::new(fed, bounds),
            core,
            journal,
            sinks,
            reads,
        }
    }

    /// What is run.
    pub(crate) fn work(&self) -> &Work
        ensures { result.now ≡ self.now.shown.work }
    {
        &self.work
    }

    /// The accepted graph that is run.
    pub(crate) fn accepted(&self) -> &Accepted
        ensures { result.now ≡ self.now.shown.work.accepted }
    {
        self.work.accepted()
    }

    /// The core.
    pub(crate) fn core(&self) -> &Core
        ensures value { result.now ≡ self.now.shown.core }
        ensures book { IsBook self.now.shown self.now.reads }
    {
        &self.core
    }

    /// The journal of all moves.
    pub(crate) fn journal(&self) -> &Journal
        ensures value { result.now.moves ≡ self.now.shown.journal }
        ensures keeps { result.now.keeps ≡ self.now.shown.keeps }
        ensures honest { IsHonest (program self.now.shown.work) self.now.shown.journal }
    {
        &self.journal
    }

    /// What each sink took.
    pub(crate) fn sinks(&self) -> &[Vec<i32>]
        ensures { feeds_in result.now ≡ self.now.shown.sinks }
    {
        self.sinks.lists()
    }

    /// Makes room for so many moves more.
    pub(crate) fn reserve(&mut self, more: usize) -> Result<(), AllocError>
        ensures shown { self.new.shown ≡ self.old.shown }
        ensures rooms { self.new.rooms ≡ self.old.rooms }
        ensures reads { self.new.reads ≡ self.old.reads }
        ensures room { OnOk result (more ≤ self.new.room) }
        ensures greater { self.old.room ≤ self.new.room }
        ensures width { self.new.width ≡ self.old.width }
        ensures takes_nothing { self.old.shown.keeps ≡ false → IsOk result }
    {
        self.journal.reserve(more)
    }

    /// Makes room for a copy of so many tokens, those of the next move where it is a write.
    pub(crate) fn reserve_copy(&mut self, alloc: Global, tokens: usize) -> Result<(), AllocError>
        ensures shown { self.new.shown ≡ self.old.shown }
        ensures rooms { self.new.rooms ≡ self.old.rooms }
        ensures reads { self.new.reads ≡ self.old.reads }
        ensures room { self.new.room ≡ self.old.room }
        ensures width { OnOk result (tokens ≤ self.new.width) }
        ensures takes_nothing { self.old.shown.keeps ≡ false → IsOk result }
    {
        self.journal.reserve_copy(alloc, tokens)
    }

    /// Makes room for all that the actor's next firing begins with.
    pub(crate) fn make_room(&mut self, actor: u32) -> Result<(), AllocError>
        requires exists { actor < length self.old.shown.core.plan.sources }
        requires idle { stage self.old.shown.core.now actor ≡ Idle }
        ensures shown { self.new.shown ≡ self.old.shown }
        ensures room { OnOk result (HasRoom self.new actor) }
    {
        let need = self.core.need(actor);
        self.fit_length(actor, need)?;
        self.reserve_taken(actor, need)?;
        self.reserve(2)
    }

    /// Makes room for all that the actor's present firing ends with, which writes so many tokens: its
    /// last two moves, and the closing of its outputs. It takes memory only where the journal is kept.
    pub(crate) fn make_room_to_give(
        &mut self,
        alloc: Global,
        actor: u32,
        tokens: usize,
    ) -> Result<(), AllocError>
        requires { actor < length self.old.shown.core.plan.sources }
        ensures shown { self.new.shown ≡ self.old.shown }
        ensures room { OnOk result (2 + length (outputs_at self.old.shown.core.plan.channels actor) ≤ self.new.room) }
        ensures width { OnOk result (tokens ≤ self.new.width) }
        ensures takes_nothing { self.old.shown.keeps ≡ false → IsOk result }
    {
        self.reserve_copy(alloc, tokens)?;
        self.reserve(2 + self.output_count(actor))
    }

    /// Begins the actor's next firing, which may begin, and takes its tokens.
    pub(crate) fn take(&mut self, actor: u32)
        requires room { HasRoom self.old actor }
        requires accepted { refusal self.old.shown.core.plan self.old.shown.core.now (Begin actor) ≡ None }
        ensures taken { HasTaken self.old self.new actor }
        ensures room { self.old.room ≤ self.new.room + 2 }
        ensures width { self.new.width ≡ self.old.width }
    {
        // Read for the prover: what the work keeps.
        let _ = &self.work;
        self.begin(actor);
        self.read(actor);
    }

    /// Begins the actor's next firing, which may begin.
    fn begin(&mut self, actor: u32)
        requires room { 0 < self.old.room }
        requires accepted { refusal self.old.shown.core.plan self.old.shown.core.now (Begin actor) ≡ None }
        ensures next { IsNext self.old self.new (Begin actor) }
        ensures width { self.new.width ≡ self.old.width }
        ensures rooms { self.new.rooms ≡ self.old.rooms }
        ensures reads { self.new.reads ≡ self.old.reads }
    {
        self.core.begin_tested(actor);
        self.journal.note_begin(actor);
    }

    /// Takes the tokens of the actor's firing, which has begun, into the actor's buffer.
    fn read(&mut self, actor: u32)
        requires room { 0 < self.old.room }
        requires accepted { refusal self.old.shown.core.plan self.old.shown.core.now (Read actor) ≡ None }
        requires buffer { length (slice_index_or self.old.reads actor []) ≡ need actor (count self.old.shown.core.now actor) self.old.shown.core.plan.channels }
        requires sink { is_sink_kernel (slice_index_or (program self.old.shown.work).kernels actor Sink) ≡ true
            → need actor (count self.old.shown.core.now actor) self.old.shown.core.plan.channels ≤ slice_index self.old.rooms actor }
        ensures next { IsNext self.old self.new (Read actor) }
        ensures width { self.new.width ≡ self.old.width }
        ensures buffer { length (slice_index_or self.new.reads actor []) ≡ length (slice_index_or self.old.reads actor []) }
        ensures tokens { slice_index_or self.new.reads actor [] ≡ slice_index_or (reads_of (program self.new.shown.work) self.new.shown.journal) actor [] }
    {
        let buffer = &mut self.reads[actor as usize];
        self.core.read_tested(actor, buffer);
        let is_sink = self.work.is_sink(actor);
        self.sinks.append_where(is_sink, actor, buffer);
        self.journal.note_read(actor);
    }

    /// Writes the value of the actor's firing, which has read.
    pub(crate) fn write(&mut self, actor: u32, tokens: &[i32])
        requires room { 0 < self.old.room }
        requires width { length tokens.now ≤ self.old.width }
        requires accepted { refusal self.old.shown.core.plan self.old.shown.core.now (Write actor tokens.now) ≡ None }
        requires just { tokens.now ≡ value (program self.old.shown.work) actor (count self.old.shown.core.now actor)
            (slice_index_or (reads_of (program self.old.shown.work) self.old.shown.journal) actor []) }
        ensures next { IsNext self.old self.new (Write actor tokens.now) }
    {
        self.core.write_tested(actor, tokens);
        self.journal.note_write(actor, tokens);
    }

    /// Ends the actor's firing, which has written.
    pub(crate) fn finish(&mut self, actor: u32)
        requires room { 0 < self.old.room }
        requires accepted { refusal self.old.shown.core.plan self.old.shown.core.now (Finish actor) ≡ None }
        ensures next { IsNext self.old self.new (Finish actor) }
    {
        self.core.finish_tested(actor);
        self.journal.note_finish(actor);
    }

    /// Writes the value of the actor's firing, which has read, and ends the firing.
    pub(crate) fn give(&mut self, actor: u32, tokens: &[i32])
        requires room { 2 ≤ self.old.room }
        requires width { length tokens.now ≤ self.old.width }
        requires exists { actor < length self.old.shown.core.plan.sources }
        requires has_read { stage self.old.shown.core.now actor ≡ Fetched }
        requires just { tokens.now ≡ value (program self.old.shown.work) actor (count self.old.shown.core.now actor)
            (slice_index_or (reads_of (program self.old.shown.work) self.old.shown.journal) actor []) }
        ensures { HasGiven self.old self.new actor tokens.now }
    {
        let _ = &self.work;
        self.write(actor, tokens);
        self.finish(actor);
    }

    /// Closes the channel, whose producer is idle and makes no firing more.
    pub(crate) fn close(&mut self, channel: u32)
        requires room { 0 < self.old.room }
        requires accepted { refusal self.old.shown.core.plan self.old.shown.core.now (Close channel) ≡ None }
        requires idle { stage self.old.shown.core.now (producer self.old.shown.core.plan channel) ≡ Idle }
        requires over { is_over self.old.shown.core.plan self.old.shown.core.now (producer self.old.shown.core.plan channel) ≡ true }
        ensures next { IsNext self.old self.new (Close channel) }
    {
        self.core.close_tested(channel);
        self.journal.note_close(channel);
    }

    /// Closes the channel, whose producer is idle, where it is open and its producer makes no firing
    /// more.
    pub(crate) fn close_if_due(&mut self, channel: u32)
        requires room { 0 < self.old.room }
        requires exists { channel < length self.old.shown.core.plan.channels }
        requires idle { stage self.old.shown.core.now (producer self.old.shown.core.plan channel) ≡ Idle }
        ensures due { is_due self.old.shown.core.plan self.old.shown.core.now channel ≡ true → IsNext self.old self.new (Close channel) }
        ensures other { is_due self.old.shown.core.plan self.old.shown.core.now channel ≡ false → self.new ≡ self.old }
    {
        let producer = self.core.producer(channel);
        if self.core.is_open(channel) && self.core.is_over(producer) {
            self.close(channel);
        }
    }

    /// How many outputs the actor has.
    pub(crate) fn output_count(&self, actor: u32) -> usize
        requires { actor < length self.now.shown.core.plan.sources }
        ensures value { result ≡ length (outputs_at self.now.shown.core.plan.channels actor) }
        ensures few { result ≤ MAX_CHANNELS }
    {
        self.core.outputs(actor).len()
    }

    /// The output of the actor that has this place among them.
    fn output(&self, actor: u32, place: usize) -> u32
        requires exists { actor < length self.now.shown.core.plan.sources }
        requires place { place < length (outputs_at self.now.shown.core.plan.channels actor) }
        ensures value { result ≡ slice_index (outputs_at self.now.shown.core.plan.channels actor) place }
        ensures channel { result < length self.now.shown.core.plan.channels }
        ensures producer { producer self.now.shown.core.plan result ≡ actor }
    {
        self.core.outputs(actor)[place]
    }

    /// Closes the outputs of the actor, which is idle, where it makes no firing more.
    pub(crate) fn close_outputs(&mut self, actor: u32)
        requires exists { actor < length self.old.shown.core.plan.sources }
        requires room { length (outputs_at self.old.shown.core.plan.channels actor) ≤ self.old.room }
        requires idle { stage self.old.shown.core.now actor ≡ Idle }
        ensures closed { AreClosed self.old.shown self.new.shown (outputs_at self.old.shown.core.plan.channels actor) }
        ensures before { self.old.shown.core.now ≡ present (state_of (program self.old.shown.work) self.old.shown.journal) }
    {
        let _ = &self.work;
        if !self.core.is_over(actor) {
            return;
        }
        for place in 0..self.output_count(actor) {
            let channel = self.output(actor, place);
            self.close_if_due(channel);
        }
    }

    /// Closes the channels whose producers make no firing at all, before any move.
    pub(crate) fn close_at_first(&mut self)
        requires room { length self.old.shown.core.plan.channels ≤ self.old.room }
        requires idle { (a : ℕ) → stage self.old.shown.core.now a ≡ Idle }
        ensures { AreClosed self.old.shown self.new.shown (range_with_len 0 (length self.old.shown.core.plan.channels)) }
    {
        for channel in 0..self.core.channels() {
            self.close_if_due(channel);
        }
    }

    /// What is told of the channel, where every actor is idle.
    pub(crate) fn report_of(&self, channel: u32) -> ChannelReport
        requires exists { channel < length self.now.shown.core.plan.channels }
        requires idle { (a : ℕ) → a < length self.now.shown.core.plan.sources → stage self.now.shown.core.now a ≡ Idle }
        ensures { result ≡ report_of (program self.now.shown.work) self.now.shown.journal channel }
    {
        ChannelReport {
            written: self.core.put_into(channel),
            taken: self.core.taken_from(channel),
            held: self.core.len(channel),
            peak: self.core.peak(channel),
            capacity: self.core.capacity(channel),
            is_open: self.core.is_open(channel),
        }
    }

    /// What is told of each channel, in file order, where every actor is idle.
    pub(crate) fn report(&self, alloc: Global) -> Result<Vec<ChannelReport>, AllocError>
        requires { (a : ℕ) → a < length self.now.shown.core.plan.sources → stage self.now.shown.core.now a ≡ Idle }
        ensures { IfOk result (λ report. report.items ≡ report_on (program self.now.shown.work) self.now.shown.journal) }
    {
        let _ = &self.work;
        let mut report = Vec::new(alloc);
        for channel in 0..self.core.channels() {
            report.push(self.report_of(channel))?;
        }
        Ok(report)
    }

    /// The tokens that each channel holds, in file order.
    pub(crate) fn left(&self, alloc: Global) -> Result<Vec<Vec<i32>>, AllocError>
        ensures { IfOk result (λ left. feeds_in left.items ≡ (present (state_of (program self.now.shown.work) self.now.shown.journal)).tokens) }
    {
        let _ = &self.work;
        let mut left = Vec::new(alloc);
        for channel in 0..self.core.channels() {
            let tokens = self.core.tokens(alloc, channel)?;
            left.push(tokens)?;
        }
        Ok(left)
    }

    /// What is told of each channel, and the tokens that it holds, where every actor is idle.
    pub(crate) fn report_and_left(
        &self,
        alloc: Global,
    ) -> Result<(Vec<ChannelReport>, Vec<Vec<i32>>), AllocError>
        requires { (a : ℕ) → a < length self.now.shown.core.plan.sources → stage self.now.shown.core.now a ≡ Idle }
        ensures report { IfOk result (λ told. told.0.items ≡ report_on (program self.now.shown.work) self.now.shown.journal) }
        ensures left { IfOk result (λ told. feeds_in told.1.items
            ≡ (present (state_of (program self.now.shown.work) self.now.shown.journal)).tokens) }
    {
        let report = self.report(alloc)?;
        let left = self.left(alloc)?;
        Ok((report, left))
    }

    /// Whether each actor has finished as many firings.
    pub(crate) fn has_counts(&self, totals: &[u32]) -> bool
        ensures { IsTrue result ↔ (self.now.shown.core.now.counts ≡ totals.now) }
    {
        let _ = &self.work;
        if totals.len() != self.core.actors() as usize {
            return false;
        }
        for actor in 0..totals.len() {
            if totals[actor] != self.core.fired(actor as u32) {
                return false;
            }
        }
        true
    }

    /// What it was made over, the journal, and what each sink took.
    pub(crate) fn into_parts(self) -> (Fed, Journal, Vec<Vec<i32>>)
        ensures accepted { result.0.accepted ≡ self.shown.work.accepted }
        ensures feeds { feeds_in result.0.feeds.items ≡ self.shown.work.feeds }
        ensures moves { result.1.moves ≡ self.shown.journal }
        ensures keeps { result.1.keeps ≡ self.shown.keeps }
        ensures sinks { feeds_in result.2.items ≡ self.shown.sinks }
    {
        let Book {
            work,
            core: _,
            journal,
            sinks,
            reads: _,
        } = self;
        (work.into_fed(), journal, sinks.into_lists())
    }

    /// The actor's kernel.
    pub(crate) fn kernel(&self, actor: u32) -> &Kernel
        requires { actor < length self.now.shown.core.plan.sources }
        ensures value { result.now ≡ slice_index_or (program self.now.shown.work).kernels actor Sink }
        ensures in_range { HasFilterInRange result.now }
    {
        self.work.kernel(actor)
    }

    /// How many tokens the actor's next firing writes to each output, in file order, in the place of
    /// what the list holds.
    #[inline(always)]
    pub(crate) fn counts_into(&self, actor: u32, counts: &mut Counts) -> Result<(), AllocError>
        requires { actor < length self.now.shown.core.plan.sources }
        ensures value { OnOk result (counts.new.items ≡ output_counts (program self.now.shown.work) actor (count self.now.shown.core.now actor)) }
        ensures few { OnOk result (length counts.new.items ≤ MAX_CHANNELS) }
        ensures small { OnOk result (All (λ n. n ≤ MAX_TOKENS_PER_FIRING) counts.new.items) }
    {
        let turn = self.core.turn(actor);
        put_counts(&self.core, actor, turn, counts)
    }

    /// Whether these are what the actor's next firing writes to each output, in file order.
    pub(crate) fn are_counts(&self, actor: u32, counts: &[u32]) -> bool
        requires { actor < length self.now.shown.core.plan.sources }
        ensures { IsTrue result ↔ (counts.now ≡ output_counts (program self.now.shown.work) actor (count self.now.shown.core.now actor)) }
    {
        let turn = self.core.turn(actor);
        are_counts(&self.core, actor, turn, counts)
    }

    /// How many tokens the actor's next firing computes from.
    #[inline(always)]
    pub(crate) fn amount(&self, actor: u32) -> usize
        requires { actor < length self.now.shown.core.plan.sources }
        ensures value { result ≡ amount_of (program self.now.shown.work) actor (count self.now.shown.core.now actor) }
        ensures small { result ≤ MAX_TOTAL_PER_FIRING }
    {
        if self.work.is_source(actor) {
            return self.core.gives(actor);
        }
        self.core.need(actor)
    }

    /// Makes the list empty, with room for what the actor's next firing computes from.
    pub(crate) fn reserve_inputs(&self, actor: u32, into: &mut Inputs) -> Result<(), AllocError>
        requires { actor < length self.now.shown.core.plan.sources }
        ensures empty { OnOk result (into.new.items ≡ []) }
        ensures room { OnOk result (amount_of (program self.now.shown.work) actor (count self.now.shown.core.now actor) ≤ into.new.capacity) }
    {
        into.clear();
        into.reserve(self.amount(actor))
    }

    /// The part of its feed that the next firing of a source computes from.
    pub(crate) fn feed_part(&self, actor: u32) -> &[i32]
        requires { actor < length self.now.shown.core.plan.sources }
        ensures value { result.now ≡ slice_range (feed_of self.now.shown.work.feeds actor)
            (given (program self.now.shown.work).plan actor (count self.now.shown.core.now actor))
            (given (program self.now.shown.work).plan actor (suc (count self.now.shown.core.now actor))) }
        ensures part { length result.now ≤ gift actor (count self.now.shown.core.now actor) self.now.shown.core.plan.channels }
        ensures few { length result.now ≤ MAX_TOTAL_PER_FIRING }
    {
        let used = self.core.written(actor) as usize;
        self.work.part(actor, used, self.core.gives(actor))
    }

    /// Puts what the actor's present firing computes from into the list, which is empty and has room for it.
    pub(crate) fn fill(&self, actor: u32, into: &mut Inputs)
        requires exists { actor < length self.now.shown.core.plan.sources }
        requires buffer { length (slice_index_or self.now.reads actor []) ≡ need actor (count self.now.shown.core.now actor) self.now.shown.core.plan.channels }
        requires empty { into.old.items ≡ [] }
        requires room { amount_of (program self.now.shown.work) actor (count self.now.shown.core.now actor) ≤ into.old.capacity }
        ensures value { into.new.items
            ≡ inputs (program self.now.shown.work) actor (count self.now.shown.core.now actor) (slice_index_or self.now.reads actor []) }
        ensures few { length into.new.items ≤ MAX_TOTAL_PER_FIRING }
    {
        // Read for the prover: no firing needs more than 8,192 tokens.
        let _need = self.core.need(actor);
        let inputs = self.firing_inputs(actor);
        match into.extend_from_slice(inputs) {
            Ok(()) => {}
            Err(_error) => unreachable!(),
        }
    }

    /// Whether these are what the actor's present firing computes from.
    fn are_inputs(&self, actor: u32, tokens: &[i32]) -> bool
        requires exists { actor < length self.now.shown.core.plan.sources }
        ensures { IsTrue result ↔ (tokens.now
            ≡ inputs (program self.now.shown.work) actor (count self.now.shown.core.now actor) (slice_index_or self.now.reads actor [])) }
    {
        if self.work.is_source(actor) {
            are_same_tokens(tokens, self.feed_part(actor))
        } else {
            are_same_tokens(tokens, &self.reads[actor as usize])
        }
    }

    /// Whether the actor has read and not written.
    fn has_read(&self, actor: u32) -> bool
        requires { actor < length self.now.shown.core.plan.sources }
        ensures { IsTrue result ↔ (stage self.now.shown.core.now actor ≡ Fetched) }
    {
        matches!(self.core.stage(actor), Stage::Fetched)
    }

    /// Whether this is the job of its actor's firing, which has read and not written.
    pub(crate) fn is_under_way(&self, job: &Job) -> bool
        ensures { IsTrue result ↔ IsUnderWay self.now.shown (task_of job.now) }
    {
        let actor = job.actor;
        actor < self.core.actors()
            && self.has_read(actor)
            && job.firing == self.core.fired(actor)
            && is_same_kernel(&job.kernel, self.work.kernel(actor))
            && self.are_counts(actor, job.counts.as_slice())
            && self.are_inputs(actor, job.inputs.as_slice())
    }
}
