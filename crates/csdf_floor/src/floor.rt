//! The floor on which firings are started and their results delivered.

ghost use Rattle.std.specs.Prelude.{◌≡◌, ◌≢◌, ◌<◌, ◌≤◌, ◌++◌, ◌↔◌, [], ◌∷◌, All, Err, IsTrue, IfErr, IfOk, IfSome, None, OnOk, OnErr, Some, length, map, option_map, true, false};
ghost use Rattle.csdf_floor.specs.declared.fault.StartFault.TheVariants.{Refused};
ghost use Rattle.std.specs.List.{range_with_len};
ghost use Rattle.csdf_core.specs.Moves.{Begin, Read, move_of};
ghost use Rattle.csdf_core.specs.Ports.{outputs_at};
ghost use Rattle.csdf_core.specs.Shows.{Shows};
ghost use Rattle.csdf_core.specs.State.{opening, present};
ghost use Rattle.csdf_core.specs.Step.{is_open, is_over, refusal, IsQuiet};
ghost use Rattle.csdf_journal.specs.View.{is_kept, told};
ghost use Rattle.csdf_kernel.specs.Value.{HasFilterInRange, value_of};
ghost use Rattle.csdf_floor.specs.declared.fault.DeliverFault.TheVariants.{Memory};
ghost use Rattle.csdf_floor.specs.Journal.{IsHonest};
ghost use Rattle.csdf_floor.specs.Work.{AreFeeds, HasFewFirings, feeds_in, program};
ghost use Rattle.csdf_floor.specs.Making.{made_moves, closes_made};
ghost use Rattle.csdf_floor.specs.Drafts.{IsDraftOf, IsDrafted, products_of};
ghost use Rattle.csdf_floor.specs.Outcome.{HasTotals, IsEndOf, IsOutcome, journal_in};
ghost use Rattle.csdf_floor.specs.Floor.{HasGone, IsFloor, IsReady, IsStartAnswer, IsUnderWay, IsDeliverAnswer, closes, closes_after, ending_of};
ghost use Rattle.csdf_floor.specs.Floor.{present_task, start_refusal, task_of};

use crate::blank::BlankBook;
use crate::book::Book;
use crate::draft::Draft;
use crate::ending::ending_of;
use crate::fault::{DeliverFault, RunFault, StartFault};
use crate::fed::{Fed, RunBounds};
use crate::outcome::{Outcome, Settled};
use csdf_analysis::Accepted;
use csdf_core::{Core, Move};
use csdf_journal::Keeping;
use csdf_kernel::{Counts, Done, Job, Outputs};
use std::alloc::{AllocError, Global};
use std::marker::Model;

/// What a run keeps under its lock: a core, the journal of its moves, and what the sinks took.
///
/// Each actor is idle, or has read the tokens of its firing, whose job is under way. A channel is
/// closed exactly where its producer is idle and makes no firing more.
pub struct Floor {
    book: Book,
}

impl Drop for Floor {
    fn drop(self) {
        let Floor { book: _ } = self;
    }
}

impl Model for Floor {
    ghost use Rattle.csdf_floor.specs.Floor.{FloorView, IsBetween};

    ghost Value = { FloorView };

    ghost view = { λ f. f.book.shown };

    ghost invariant = { λ f. IsBetween f.book.shown.core.plan f.book.shown.core.now };
}

impl Floor {
    /// A floor on which nothing has fired, for so many periods of the graph over copies of these
    /// feeds, one for each actor and empty for one that is no source; with a limit on all firings
    /// where there is one. Each channel whose producer makes no firing at all is closed. The journal
    /// is kept.
    ///
    /// An error says that memory ran out.
    pub fn new(
        alloc: Global,
        accepted: &Accepted,
        feeds: &[Vec<i32>],
        periods: u32,
        firings: Option<u32>,
    ) -> Result<Floor, AllocError>
        requires fed { AreFeeds accepted.now.graph (feeds_in feeds.now) }
        requires some_period { 1 ≤ periods }
        requires few_firings { HasFewFirings accepted.now periods }
        ensures work { IfOk result (λ floor. floor.work
            ≡ record { accepted = accepted.now; feeds = feeds_in feeds.now; periods = periods; firings = firings }) }
        ensures journal { IfOk result (λ floor. floor.journal
            ≡ closes floor.core.plan (present (opening floor.core.plan)) (range_with_len 0 (length floor.core.plan.channels))) }
        ensures keeps { IfOk result (λ floor. floor.keeps ≡ true) }
    {
        let bounds = RunBounds { periods, firings };
        Floor::with_journal(alloc, accepted, feeds, bounds, Keeping::Kept)
    }

    /// As [`Floor::new`], with a journal that is kept or not. One that is not kept takes no memory.
    pub fn with_journal(
        alloc: Global,
        accepted: &Accepted,
        feeds: &[Vec<i32>],
        bounds: RunBounds,
        keeping: Keeping,
    ) -> Result<Floor, AllocError>
        requires fed { AreFeeds accepted.now.graph (feeds_in feeds.now) }
        requires some_period { 1 ≤ bounds.periods }
        requires few_firings { HasFewFirings accepted.now bounds.periods }
        ensures work { IfOk result (λ floor. floor.work
            ≡ record { accepted = accepted.now; feeds = feeds_in feeds.now; periods = bounds.periods; firings = bounds.firings }) }
        ensures journal { IfOk result (λ floor. floor.journal
            ≡ closes floor.core.plan (present (opening floor.core.plan)) (range_with_len 0 (length floor.core.plan.channels))) }
        ensures keeps { IfOk result (λ floor. floor.keeps ≡ is_kept keeping) }
    {
        let fed = Fed::copied(alloc, accepted, feeds)?;
        match Floor::over(alloc, fed, bounds, keeping) {
            Ok(floor) => Ok(floor),
            Err(_fed) => Err(AllocError),
        }
    }

    /// As [`Floor::with_journal`], of a graph and feeds that are handed over: no copy of them is made.
    /// [`settle_and_hand_back`](crate::settle_and_hand_back) and [`Floor::into_fed`] hand them back.
    ///
    /// An error says that memory ran out, and hands them back as well.
    pub fn over(alloc: Global, fed: Fed, bounds: RunBounds, keeping: Keeping) -> Result<Floor, Fed>
        requires fed { AreFeeds fed.accepted.graph (feeds_in fed.feeds.items) }
        requires some_period { 1 ≤ bounds.periods }
        requires few_firings { HasFewFirings fed.accepted bounds.periods }
        ensures work { IfOk result (λ floor. floor.work
            ≡ record { accepted = fed.accepted; feeds = feeds_in fed.feeds.items; periods = bounds.periods; firings = bounds.firings }) }
        ensures journal { IfOk result (λ floor. floor.journal
            ≡ closes floor.core.plan (present (opening floor.core.plan)) (range_with_len 0 (length floor.core.plan.channels))) }
        ensures keeps { IfOk result (λ floor. floor.keeps ≡ is_kept keeping) }
        ensures back { IfErr result (λ back. back ≡ fed) }
    {
        let blank = match BlankBook::of(alloc, &fed, bounds, keeping) {
            Ok(blank) => blank,
            Err(_error) => return Err(fed),
        };
        let mut book = Book::open(fed, bounds, blank);
        book.close_at_first();
        Ok(Floor { book })
    }

    /// The graph and the feeds that it was made over.
    pub fn into_fed(self) -> Fed
        ensures accepted { result.accepted ≡ self.work.accepted }
        ensures feeds { feeds_in result.feeds.items ≡ self.work.feeds }
    {
        let Floor { book } = self;
        let (fed, _journal, _sinks) = book.into_parts();
        fed
    }

    /// The accepted graph that it was made over.
    pub fn accepted(&self) -> &Accepted
        ensures { result.now ≡ self.now.work.accepted }
    {
        self.book.accepted()
    }

    /// The core.
    pub fn core(&self) -> &Core
        ensures value { result.now ≡ self.now.core }
        ensures floor { IsFloor self.now }
    {
        self.book.core()
    }

    /// Whether the journal is kept.
    pub fn keeps_journal(&self) -> bool
        ensures { result ≡ self.now.keeps }
    {
        self.book.journal().keeps()
    }

    /// All moves that were made, in order, where the journal is kept; an empty list where it is not.
    pub fn journal(&self) -> &[Move]
        ensures value { map move_of result.now ≡ told self.now.keeps self.now.journal }
        ensures honest { IsHonest (program self.now.work) self.now.journal }
    {
        self.book.journal().moves()
    }

    /// What each sink took, in order; empty for an actor that is no sink.
    pub fn sinks(&self) -> &[Vec<i32>]
        ensures { feeds_in result.now ≡ self.now.sinks }
    {
        self.book.sinks()
    }

    /// Why this is not the actor's next firing.
    fn place_fault(&self, actor: u32, firing: u32) -> Option<StartFault>
        ensures some { IfSome result (λ fault. start_refusal self.now actor firing ≡ Some fault) }
        ensures exists { result ≡ None → actor < length self.now.core.plan.sources }
        ensures none { result ≡ None → start_refusal self.now actor firing
            ≡ option_map Refused (refusal self.now.core.plan self.now.core.now (Begin actor)) }
    {
        let core = self.book.core();
        if actor >= core.actors() {
            return Some(StartFault::Unknown);
        }
        let fired = core.fired(actor);
        if fired != firing {
            return Some(StartFault::Moved(fired));
        }
        None
    }

    /// Why the actor's firing of this number can't be started, memory aside.
    fn start_refusal(&self, actor: u32, firing: u32) -> Option<StartFault>
        ensures { result ≡ start_refusal self.now actor firing }
    {
        if let Some(fault) = self.place_fault(actor, firing) {
            return Some(fault);
        }
        match self.book.core().can_begin(actor) {
            Ok(()) => None,
            Err(refusal) => Some(StartFault::Refused(refusal)),
        }
    }

    /// Starts the actor's firing of this number: it begins and reads, and the answer is its job.
    ///
    /// The refusals come in the order of [`StartFault`]. A refusal changes nothing that a reader
    /// shows.
    pub fn start(&mut self, alloc: Global, actor: u32, firing: u32) -> Result<Job, StartFault>
        ensures answer { IsStartAnswer (start_refusal self.old actor firing) result }
        ensures gone { OnOk result (HasGone self.old self.new (Begin actor ∷ Read actor ∷ [])) }
        ensures job { IfOk result (λ job. (task_of job ≡ present_task self.new actor) × IsUnderWay self.new (task_of job)) }
        ensures firing { IfOk result (λ job. job.firing ≡ firing) }
        ensures ready { IfOk result IsReady }
        ensures unchanged { OnErr result (self.new ≡ self.old) }
    {
        let mut job = Job::blank(alloc);
        self.start_into(actor, firing, &mut job)?;
        Ok(job)
    }

    /// As [`Floor::start`], with the job in the place of another.
    ///
    /// A refusal leaves the other job as it was; where memory runs out, nothing is told of what is in
    /// its place.
    pub fn start_into(&mut self, actor: u32, firing: u32, job: &mut Job) -> Result<(), StartFault>
        ensures answer { IsStartAnswer (start_refusal self.old actor firing) result }
        ensures gone { OnOk result (HasGone self.old self.new (Begin actor ∷ Read actor ∷ [])) }
        ensures job { OnOk result ((task_of job.new ≡ present_task self.new actor) × IsUnderWay self.new (task_of job.new)) }
        ensures firing { OnOk result (job.new.firing ≡ firing) }
        ensures ready { OnOk result (IsReady job.new) }
        ensures unchanged { OnErr result (self.new ≡ self.old) }
        ensures job_stays { IfSome (start_refusal self.old actor firing) (λ _. job.new ≡ job.old) }
    {
        if let Some(fault) = self.start_refusal(actor, firing) {
            return Err(fault);
        }
        self.book.counts_into(actor, &mut job.counts)?;
        self.book.reserve_inputs(actor, &mut job.inputs)?;
        self.book.make_room(actor)?;
        self.book.take(actor);
        self.book.fill(actor, &mut job.inputs);
        job.kernel = *self.book.kernel(actor);
        job.actor = actor;
        job.firing = firing;
        Ok(())
    }

    /// Makes the actor's next firings, where it stands at this firing, and closes its outputs where it
    /// makes no firing more. It answers how many they are: at most so many, and at least one where
    /// `most` is. It goes on until so many are made, the next one is refused, or memory runs out after
    /// some. They are made in blocks, and a block is made at once, though its firings may read what
    /// earlier ones of it write.
    ///
    /// The refusals are those of [`Floor::start`], and a refusal changes nothing that a reader shows.
    /// The lists are only worked in.
    pub fn make(
        &mut self,
        actor: u32,
        firing: u32,
        most: u32,
        counts: &mut Counts,
        outputs: &mut Outputs,
    ) -> Result<u32, StartFault>
        ensures answer { IsStartAnswer (start_refusal self.old actor firing) result }
        ensures most { IfOk result (λ n. n ≤ most) }
        ensures some { IfOk result (λ n. 0 < most → 0 < n) }
        ensures gone { IfOk result (λ n. 0 < n → HasGone self.old self.new (made_moves self.old actor n ++ closes_made self.old actor n)) }
        ensures none { IfOk result (λ n. n ≡ 0 → self.new ≡ self.old) }
        ensures unchanged { OnErr result (self.new ≡ self.old) }
    {
        self.make_with(actor, firing, most, None, counts, outputs)
    }

    /// Puts the actor's next firings into the draft, where the actor stands at this firing: as many as can
    /// be made at once, and at most so many. The draft has none where they take fewer products than
    /// `heavy`, and for an actor of several phases, with a channel to itself or that is a source or a sink.
    /// An error, that memory ran out, leaves none in it as well.
    pub fn draft(
        &self,
        actor: u32,
        firing: u32,
        most: u32,
        heavy: u64,
        draft: &mut Draft,
    ) -> Result<(), StartFault>
        ensures answer { IsStartAnswer (start_refusal self.now actor firing) result }
        ensures draft { OnOk result (0 < draft.new.firings → IsDraftOf self.now actor draft.new) }
        ensures most { OnOk result (draft.new.firings ≤ most) }
        ensures heavy { OnOk result (0 < draft.new.firings → heavy ≤ products_of draft.new) }
        ensures none { OnErr result (draft.new.firings ≡ 0) }
        ensures open { draft.new.is_made ≡ false }
    {
        if let Some(refused) = self.start_refusal(actor, firing) {
            draft.clear();
            return Err(refused);
        }
        self.book.draft_into(actor, most, heavy, draft)?;
        Ok(())
    }

    /// As [`Floor::make`]. Where the draft, which was drafted on a floor of the same work, was evaluated and
    /// is one of the actor's next firings, and of at most so many, these are made, and nothing is evaluated.
    pub fn make_from(
        &mut self,
        actor: u32,
        firing: u32,
        most: u32,
        draft: &Draft,
        counts: &mut Counts,
        outputs: &mut Outputs,
    ) -> Result<u32, StartFault>
        requires drafted { 0 < draft.now.firings → IsDrafted (program self.old.work) draft.now }
        ensures answer { IsStartAnswer (start_refusal self.old actor firing) result }
        ensures most { IfOk result (λ n. n ≤ most) }
        ensures some { IfOk result (λ n. 0 < most → 0 < n) }
        ensures gone { IfOk result (λ n. 0 < n → HasGone self.old self.new (made_moves self.old actor n ++ closes_made self.old actor n)) }
        ensures none { IfOk result (λ n. n ≡ 0 → self.new ≡ self.old) }
        ensures unchanged { OnErr result (self.new ≡ self.old) }
    {
        self.make_with(actor, firing, most, Some(draft), counts, outputs)
    }

    /// As [`Floor::make_from`] where there is a draft, else as [`Floor::make`].
    fn make_with(
        &mut self,
        actor: u32,
        firing: u32,
        most: u32,
        draft: Option<&Draft>,
        counts: &mut Counts,
        outputs: &mut Outputs,
    ) -> Result<u32, StartFault>
        requires drafted { IfSome draft (λ draft. 0 < draft.now.firings → IsDrafted (program self.old.work) draft.now) }
        ensures answer { IsStartAnswer (start_refusal self.old actor firing) result }
        ensures most { IfOk result (λ n. n ≤ most) }
        ensures some { IfOk result (λ n. 0 < most → 0 < n) }
        ensures gone { IfOk result (λ n. 0 < n → HasGone self.old self.new (made_moves self.old actor n ++ closes_made self.old actor n)) }
        ensures none { IfOk result (λ n. n ≡ 0 → self.new ≡ self.old) }
        ensures unchanged { OnErr result (self.new ≡ self.old) }
    {
        if let Some(refused) = self.place_fault(actor, firing) {
            return Err(refused);
        }
        if most == 0 {
            self.book.core().can_begin(actor)?;
            return Ok(0);
        }
        let n = self
            .book
            .make_many_from(actor, most, draft, counts, outputs)?;
        let producer = actor;
        self.book.close_outputs(producer);
        Ok(n)
    }

    /// Takes the result of a firing that is under way: its tokens are written, the firing ends, and
    /// each output is closed if the actor makes no firing more.
    ///
    /// The refusals come in the order of [`DeliverFault`]. A refusal changes nothing that a reader
    /// shows. Memory runs out only where the journal is kept.
    pub fn deliver(&mut self, alloc: Global, done: &Done) -> Result<(), DeliverFault>
        ensures answer { IsDeliverAnswer self.old (task_of done.now) result }
        ensures gone { OnOk result (HasGone self.old self.new (ending_of (task_of done.now) ++ closes_after self.old (task_of done.now))) }
        ensures unchanged { OnErr result (self.new ≡ self.old) }
        ensures takes_nothing { self.old.keeps ≡ false → result ≢ Err Memory }
    {
        self.deliver_value(alloc, done.job(), done.outputs())
    }

    /// As [`Floor::deliver`], of a job and its kernel's value.
    pub fn deliver_value(
        &mut self,
        alloc: Global,
        job: &Job,
        tokens: &[i32],
    ) -> Result<(), DeliverFault>
        requires { tokens.now ≡ value_of job.now.kernel job.now.counts.items job.now.inputs.items }
        ensures answer { IsDeliverAnswer self.old (task_of job.now) result }
        ensures gone { OnOk result (HasGone self.old self.new (ending_of (task_of job.now) ++ closes_after self.old (task_of job.now))) }
        ensures unchanged { OnErr result (self.new ≡ self.old) }
        ensures takes_nothing { self.old.keeps ≡ false → result ≢ Err Memory }
    {
        if !self.book.is_under_way(job) {
            return Err(DeliverFault::Stranger);
        }
        let actor = job.actor;
        self.book.make_room_to_give(alloc, actor, tokens.len())?;
        self.book.give(actor, tokens);
        self.book.close_outputs(actor);
        Ok(())
    }

    /// Whether this is a floor of such a run.
    pub(crate) fn is_of(&self, accepted: &Accepted, feeds: &[Vec<i32>], bounds: RunBounds) -> bool
        ensures { IsTrue result ↔ (self.now.work
            ≡ record { accepted = accepted.now; feeds = feeds_in feeds.now; periods = bounds.periods; firings = bounds.firings }) }
    {
        self.book.work().is(accepted, feeds, bounds)
    }

    /// Whether each actor has finished as many firings, and none can go on.
    pub(crate) fn is_at_end(&self, totals: &[u32]) -> bool
        ensures { IsTrue result ↔ IsEndOf self.now self.now.work totals.now }
    {
        self.book.has_counts(totals) && self.book.core().is_quiet()
    }

    /// What a floor that is quiet was made over, and its outcome: the end of a run whose firings the floor
    /// alone counts. The error of the outcome says that memory ran out. See [`settle`](crate::settle).
    pub fn into_settled(self, alloc: Global) -> Settled
        requires { IsQuiet self.core.plan self.core.now }
        ensures accepted { result.fed.accepted ≡ self.work.accepted }
        ensures feeds { feeds_in result.fed.feeds.items ≡ self.work.feeds }
        ensures outcome { IfOk result.outcome (IsOutcome self.work) }
        ensures journal { IfOk result.outcome (λ o. journal_in o ≡ self.journal) }
        ensures keeps { IfOk result.outcome (λ o. o.journal.keeps ≡ self.keeps) }
        ensures totals { IfOk result.outcome (λ o. HasTotals (program self.work) o self.core.now.counts) }
        ensures memory { IfErr result.outcome (λ fault. fault ≡ RunFault.Memory) }
    {
        let told = self.book.report_and_left(alloc);
        let ending = ending_of(self.book.core());
        let Floor { book } = self;
        let (fed, journal, sinks) = book.into_parts();
        match told {
            Ok((report, left)) => Settled {
                fed,
                outcome: Ok(Outcome {
                    ending,
                    sinks,
                    journal,
                    report,
                    left,
                }),
            },
            Err(_error) => Settled {
                fed,
                outcome: Err(RunFault::Memory),
            },
        }
    }
}
