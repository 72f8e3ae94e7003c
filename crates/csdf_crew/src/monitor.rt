//! What the workers share behind one lock, and how they meet there.

ghost use Rattle.std.specs.Prelude.{◌≡◌, ◌<◌, ◌≤◌, ◌++◌, ℕ, Bool, IfErr, IfOk, IsNone, IsSome, OnOk, false, true};
ghost use Rattle.csdf_analysis.specs.Waking.{IsIn};
ghost use Rattle.csdf_core.specs.Step.{IsQuiet};
ghost use Rattle.csdf_floor.specs.Floor.{HasGone, IsReady, IsStartAnswer, start_refusal};
ghost use Rattle.csdf_floor.specs.Making.{closes_made, made_moves};
ghost use Rattle.csdf_floor.specs.Work.{Work};
ghost use Rattle.csdf_crew.specs.Hand.{claim_for, claim_in};
ghost use Rattle.csdf_crew.specs.Looking.{CanBegin};
ghost use Rattle.csdf_crew.specs.Asked.{no_work};
ghost use Rattle.csdf_crew.specs.Workers.{HasTaken, IsBlockOf, IsStartOf, IsUntaken};

use crate::actors::bit_of;
use crate::claims::{Claim, most_from};
use crate::gate::Gate;
use crate::hand::Hand;
use crate::heavy::HEAVY_BLOCK;
use crate::policy::{Crew, Policy};
use crate::ready_set::ReadySet;
use crate::run_end::{EndCause, EndWord, Quiet, RunEnd};
use csdf_claims::Place;
use csdf_floor::{DeliverFault, Floor, StartFault};
use csdf_kernel::Job;
use csdf_model::MAX_ACTORS;
use std::alloc::Global;
use std::marker::{Brand, Model, PhantomData};
use std::sync::atomic::Ordering::SeqCst;
use std::sync::atomic::{AtomicU32, AtomicU64};
use std::sync::{Condvar, Mutex, MutexGuard, Wait};
use std::{hint, thread};

/// How often a worker yields before it sleeps.
const YIELDS: u32 = 100;

/// How often it looks for the lock before it sleeps.
const TRIES: u32 = 100;

/// How long it waits between two looks, since each takes the memory of the lock away from who holds it.
const PAUSES: u32 = 64;

/// What a run asks of its floor, as a type: so it is known of a floor that was behind a lock.
pub(crate) trait Asked {
    /// Whether the journal is kept.
    ghost keeps: { Bool };

    /// What is run.
    ghost work: { Work };
}

impl Asked for Brand {
    ghost keeps = { true };

    ghost work = { no_work };
}

/// That the floor has taken the result of a firing, whose claim a contract sees. Only
/// [`Shared::deliver`] makes one, and no claim is marked done without.
#[derive(Drop)]
pub(crate) struct Delivered {
    claim: Claim,
}

impl Model for Delivered {
    ghost use Rattle.csdf_crew.specs.declared.claims.Claim.{Claim};

    ghost Value = { Claim };

    ghost view = { λ d. d.claim };
}

impl Delivered {
    /// The claim of the firing.
    pub(crate) fn claim(&self) -> Claim
        ensures { result ≡ self.now }
    {
        self.claim
    }
}

/// That the floor has made firings of an actor one after another, the claimed one first: which it was,
/// and how many they are. Only [`Shared::make`] makes one, and no such claim is marked done without.
#[derive(Drop)]
pub(crate) struct Made {
    claim: Claim,
    count: u32,
}

impl Model for Made {
    ghost use Rattle.csdf_crew.specs.Workers.{Block};

    ghost Value = { Block };

    ghost view = { λ m. record { claim = m.claim; count = m.count } };
}

impl Made {
    /// The claim of the first firing.
    pub(crate) fn claim(&self) -> Claim
        ensures { result ≡ self.now.claim }
    {
        self.claim
    }

    /// How many firings.
    pub(crate) fn count(&self) -> u32
        ensures { result ≡ self.now.count }
    {
        self.count
    }
}

/// Why the floor did not start a firing, or made none. Only [`Shared`] makes one.
#[derive(Drop)]
pub(crate) struct NotStarted {
    fault: StartFault,
}

impl Model for NotStarted {
    ghost use Rattle.csdf_floor.specs.declared.fault.StartFault.{StartFault};

    ghost Value = { StartFault };

    ghost view = { λ n. n.fault };
}

impl NotStarted {
    pub(crate) fn fault(&self) -> StartFault
        ensures { result ≡ self.now }
    {
        self.fault
    }
}

/// Why the floor did not take a result. Only [`Shared::deliver`] makes one.
#[derive(Drop)]
pub(crate) struct NotTaken {
    fault: DeliverFault,
}

impl Model for NotTaken {
    ghost use Rattle.csdf_floor.specs.declared.fault.DeliverFault.{DeliverFault};

    ghost Value = { DeliverFault };

    ghost view = { λ n. n.fault };
}

impl NotTaken {
    pub(crate) fn fault(&self) -> DeliverFault
        ensures { result ≡ self.now }
    {
        self.fault
    }
}

/// What a worker knows since it had the lock last.
#[derive(Clone, Copy)]
pub(crate) struct LastSeen {
    /// Whether it tends.
    pub(crate) tends: bool,
    /// The actors that could begin.
    pub(crate) ready: u64,
    /// The actors that may be able to begin once what is in hand is delivered.
    pub(crate) next: u64,
    /// The actors of whom the worker makes firings under the lock.
    pub(crate) light: u64,
    /// The actors of whom it drafts firings.
    pub(crate) drafted: u64,
    /// Whether it is to wake another worker, once the claims that have come to their end are ended.
    pub(crate) wakes: bool,
}

/// The value behind the lock: a floor that runs what the run asks for, and keeps its journal where the run
/// does; where to look for the next firing; how many firings are under way; and what the policy goes by.
#[derive(Drop)]
pub(crate) struct Shared<K: Asked> {
    floor: Floor,
    ready: ReadySet,
    running: u32,
    policy: Policy,
    of: PhantomData<K>,
}

impl<K: Asked> Model for Shared<K> {
    ghost use Rattle.std.specs.Prelude.{◌≡◌};
    ghost use Rattle.csdf_crew.specs.Looking.{SharedView};

    ghost Value = { SharedView };

    ghost view = { λ s. record { floor = s.floor; ready = s.ready.ready; running = s.running } };

    ghost invariant = { λ s. (s.floor.keeps ≡ K.keeps) × (s.floor.work ≡ K.work) };
}

impl<K: Asked> Shared<K> {
    /// Starts the claimed firing, with its job in the place of the one in hand.
    fn start(&mut self, claim: Claim, hand: &mut Hand<K>) -> Result<(), NotStarted>
        ensures answer { IsStartAnswer (start_refusal self.old.floor claim.actor claim.firing) result }
        ensures idle { hand.new.is_made ≡ false }
        ensures job { OnOk result (claim_for hand.new.job ≡ claim) }
        ensures ready { OnOk result (IsReady hand.new.job) }
    {
        let actor = claim.actor;
        match hand.start(&mut self.floor, actor, claim.firing) {
            Ok(()) => {
                self.running = self.running.saturating_add(1);
                self.ready.started(self.floor.core(), actor);
                Ok(())
            }
            Err(fault) => {
                self.ready.refused(actor);
                Err(NotStarted { fault })
            }
        }
    }

    /// Starts what is claimed, in the place of what is in hand. False where nothing is.
    pub(crate) fn start_next(
        &mut self,
        next: Option<Claim>,
        hand: &mut Hand<K>,
    ) -> Result<bool, NotStarted>
        ensures idle { hand.new.is_made ≡ false }
        ensures started { IfOk result (λ is_started. IsStartOf next is_started hand.new.job) }
    {
        match next {
            Some(claim) => match self.start(claim, hand) {
                Ok(()) => Ok(true),
                Err(fault) => Err(fault),
            },
            None => {
                hand.put_down();
                Ok(false)
            }
        }
    }

    /// Gives the floor what is in hand, where something is.
    pub(crate) fn deliver(
        &mut self,
        alloc: Global,
        hand: &Hand<K>,
    ) -> Result<Option<Delivered>, NotTaken>
        ensures claim { IfOk result (λ delivered. delivered ≡ claim_in hand.now) }
        ensures taken { OnOk result (HasTaken hand.now.is_made hand.now.job self.old.floor self.new.floor) }
        ensures untaken { IfErr result (IsUntaken hand.now.is_made hand.now.job self.old.floor) }
    {
        let Some(tokens) = hand.tokens() else {
            return Ok(None);
        };
        let job = hand.job();
        if let Err(fault) = self.floor.deliver_value(alloc, job, tokens) {
            return Err(NotTaken { fault });
        }
        self.running = self.running.saturating_sub(1);
        self.ready.delivered(self.floor.core(), job.actor);
        let claim = Claim {
            actor: job.actor,
            firing: job.firing,
        };
        Ok(Some(Delivered { claim }))
    }

    /// Drafts firings of an actor, the claimed one first, where they are heavy. They count as under way, and
    /// nobody looks for the actor, until they are made. Then the worker tends no longer, since it leaves the
    /// lock to evaluate them.
    pub(crate) fn draft(&mut self, seen: &mut LastSeen, hand: &mut Hand<K>, claim: Claim) -> bool
        ensures { hand.new ≡ hand.old }
    {
        if !self.policy.looks_at(claim.actor) {
            return false;
        }
        if !hand.draft(&self.floor, claim, most_from(claim.firing), HEAVY_BLOCK) {
            return false;
        }
        self.running = self.running.saturating_add(1);
        self.policy.drafts(claim.actor, seen.tends);
        seen.tends = false;
        true
    }

    /// Makes firings of an actor one after another, the claimed one first, all of which pass the gate. They
    /// are those of the hand's draft where it was evaluated. Nothing is in hand then.
    pub(crate) fn make<G: Gate>(
        &mut self,
        gate: &G,
        claim: Claim,
        hand: &mut Hand<K>,
    ) -> Result<Made, NotStarted>
        requires open { (k : ℕ) → claim.firing ≤ k → G.passed gate.now claim.actor k }
        ensures idle { hand.new.is_made ≡ false }
        ensures answer { IsStartAnswer (start_refusal self.old.floor claim.actor claim.firing) result }
        ensures made { IfOk result (IsBlockOf claim) }
        ensures gone { IfOk result (λ made. HasGone self.old.floor self.new.floor
            (made_moves self.old.floor claim.actor made.count ++ closes_made self.old.floor claim.actor made.count)) }
    {
        let most = most_from(claim.firing);
        match hand.make(&mut self.floor, gate, claim, most) {
            Ok(count) => {
                self.ready.made(self.floor.core(), claim.actor);
                Ok(Made { claim, count })
            }
            Err(fault) => {
                self.ready.refused(claim.actor);
                Err(NotStarted { fault })
            }
        }
    }

    /// Firings of an actor that were drafted are about to be made, the claimed one first.
    pub(crate) fn has_drafted(&mut self, claim: Claim) {
        self.running = self.running.saturating_sub(1);
        self.policy.has_drafted(claim.actor);
    }

    /// What a worker knows that has started this job, or none.
    pub(crate) fn seen(&mut self, tended: bool, started: Option<&Job>) -> LastSeen {
        LastSeen {
            tends: self.policy.tends(tended, started),
            ready: self.ready.actors(),
            next: match started {
                Some(job) => self.ready.after(job.actor),
                None => 0,
            },
            light: self.policy.light,
            drafted: self.policy.blocks,
            wakes: false,
        }
    }

    /// That no firing is under way and none can begin, where it is so. The core, which looks at all actors,
    /// is asked only where no firing is under way and the ready set is empty; if one can begin all the same, all
    /// that can are in it from then on.
    fn is_over(&mut self) -> Option<Quiet>
        ensures floor { self.new.floor ≡ self.old.floor }
        ensures over { IsSome result → IsQuiet self.new.floor.core.plan self.new.floor.core.now }
        ensures looked { self.old.running ≡ 0 → self.old.ready ≡ 0 → IsNone result
            → (a : ℕ) → a < MAX_ACTORS → CanBegin self.new.floor.core a → IsIn self.new.ready a }
    {
        if self.running != 0 || self.ready.actors() != 0 {
            return None;
        }
        if self.floor.core().is_quiet() {
            return Some(Quiet::of(self.floor.core()));
        }
        self.ready.look_at_all(self.floor.core());
        None
    }
}

/// What the workers of a run share: a value behind its lock; what wakes a worker that sleeps; and, to be read
/// without the lock, which actors can begin, which of them are spare, how many workers look for one, and
/// whether the run has ended. When a worker is woken, and for what, is told at [`Policy`].
#[derive(Drop)]
pub(crate) struct Monitor<K: Asked> {
    shared: Mutex<Shared<K>>,
    changed: Condvar,
    ready: AtomicU64,
    spare: AtomicU64,
    looking: AtomicU32,
    end: EndWord,
    is_alone: bool,
}

/// Stores a word where it is another one, so that who reads it is not disturbed for nothing.
fn put(word: &AtomicU64, value: u64) {
    if word.load(SeqCst) != value {
        word.store(value, SeqCst);
    }
}

/// Waits for a microsecond or so.
fn pause() {
    for _ in 0..PAUSES {
        hint::spin_loop();
    }
}

impl<K: Asked> Monitor<K> {
    /// Of a floor on which a worker has looked at no actor.
    pub(crate) fn new(floor: Floor, ready: ReadySet, crew: Crew) -> Monitor<K>
        requires keeps { floor.keeps ≡ K.keeps }
        requires work { floor.work ≡ K.work }
    {
        let mut ready = ready;
        ready.look_at_all(floor.core());
        let actors = ready.actors();
        Monitor {
            shared: Mutex::new(Shared {
                floor,
                ready,
                running: 0,
                policy: Policy::new(crew),
                of: PhantomData,
            }),
            changed: Condvar::new(),
            ready: AtomicU64::new(actors),
            spare: AtomicU64::new(actors),
            looking: AtomicU32::new(0),
            end: EndWord::new(),
            is_alone: crew.is_alone(),
        }
    }

    /// The floor, once no worker shares it any more.
    pub(crate) fn into_floor(self) -> Floor
        ensures keeps { result.keeps ≡ K.keeps }
        ensures work { result.work ≡ K.work }
    {
        let Monitor { shared, .. } = self;
        let Shared { floor, .. } = shared.into_inner();
        floor
    }

    /// Holds the lock. It is held for some microseconds at a time, which is less than it takes to sleep and to
    /// be woken: so a worker looks for it a while before it sleeps.
    pub(crate) fn hold<R: Wait>(&self, rt: &R) -> MutexGuard<'_, Shared<K>> {
        for _ in 0..TRIES {
            if let Some(guard) = self.shared.try_lock() {
                return guard;
            }
            pause();
        }
        self.shared.lock(rt)
    }

    /// What a worker knows that comes in.
    pub(crate) fn first_seen(&self) -> LastSeen {
        LastSeen {
            tends: false,
            ready: self.ready.load(SeqCst),
            next: 0,
            light: if self.is_alone { u64::MAX } else { 0 },
            drafted: 0,
            wakes: false,
        }
    }

    /// Whether all is over, or a worker has given up.
    pub(crate) fn is_ended(&self) -> bool {
        self.end.get().is_some()
    }

    /// The actors that this worker may take.
    pub(crate) fn near(&self, seen: &LastSeen) -> u64 {
        if self.is_alone {
            seen.ready
        } else if seen.tends {
            self.ready.load(SeqCst)
        } else {
            self.spare.load(SeqCst)
        }
    }

    /// Those of these actors of whom this worker makes firings one after another.
    fn in_blocks(&self, seen: &LastSeen, actors: u64) -> u64 {
        if self.is_alone || seen.tends {
            actors & (seen.light | seen.drafted)
        } else {
            actors & seen.drafted
        }
    }

    /// Whether this worker makes the actor's firings one after another.
    pub(crate) fn makes_blocks(&self, seen: &LastSeen, actor: u32) -> bool {
        self.in_blocks(seen, bit_of(actor)) != 0
    }

    /// Whether this worker can go on by making an actor's firings under the lock, once what is in hand is
    /// delivered.
    pub(crate) fn has_blocks(&self, seen: &LastSeen) -> bool {
        self.in_blocks(seen, self.near(seen) | seen.next) != 0
    }

    /// Tells where to look, under the lock. True where the teller, who looks for a firing itself or makes one,
    /// is to wake a worker.
    pub(crate) fn tell(&self, shared: &mut Shared<K>, looks: bool) -> bool {
        if self.is_alone {
            return false;
        }
        let ready = shared.ready.actors();
        let spare = shared.policy.spare(ready);
        put(&self.ready, shared.policy.undrafted(ready));
        put(&self.spare, spare);
        shared
            .policy
            .wakes_one(spare, self.looking.load(SeqCst), looks)
    }

    /// Wakes a worker.
    pub(crate) fn wake(&self) {
        self.changed.notify_one();
    }

    /// Ends the run for all workers, for this cause.
    pub(crate) fn give_up<R: Wait>(&self, rt: &R, cause: EndCause<'_>) {
        let _shared = self.hold(rt);
        let _ = self.end(cause);
    }

    /// The run ends for this cause: whoever sleeps is to see it. The lock is held.
    fn end(&self, cause: EndCause<'_>) -> RunEnd {
        let end = self.end.set(cause);
        self.changed.notify_all();
        end
    }

    /// Yields until something is spare or the run has ended, or often enough.
    fn linger(&self) {
        self.looking.fetch_add(1, SeqCst);
        for _ in 0..YIELDS {
            thread::yield_now();
            if self.is_ended() || self.spare.load(SeqCst) != 0 {
                break;
            }
        }
        self.looking.fetch_sub(1, SeqCst);
    }

    /// The worker tends no longer. The end of the run, where all is over.
    fn rest<R: Wait>(&self, rt: &R, seen: &mut LastSeen) -> Option<RunEnd> {
        let mut guard = self.hold(rt);
        let shared = &mut *guard;
        shared.policy.rests(seen.tends);
        seen.tends = false;
        let over = shared.is_over();
        seen.ready = shared.ready.actors();
        if let Some(quiet) = over {
            return Some(self.end(EndCause::Quiet(quiet)));
        }
        if self.tell(shared, true) {
            self.wake();
        }
        None
    }

    /// Waits until something is spare. The end of the run, where there is nothing more to do.
    pub(crate) fn wait<R: Wait>(&self, rt: &R, seen: &mut LastSeen) -> Option<RunEnd> {
        if let Some(end) = self.end.get() {
            return Some(end);
        }
        if let Some(end) = self.rest(rt, seen) {
            return Some(end);
        }
        if self.is_alone {
            return None;
        }
        self.linger();
        let mut guard = self.hold(rt);
        for _ in rt.forever() {
            if let Some(end) = self.end.get() {
                return Some(end);
            }
            if self.spare.load(SeqCst) != 0 {
                return None;
            }
            guard.policy.sleeps();
            guard = self.changed.wait(rt, guard);
            guard.policy.is_awake();
        }
        unreachable!()
    }
}
