//! What one worker does.

ghost use Rattle.std.specs.Prelude.{◌≡◌, ◌<◌, ℕ, None, Some, IfErr, IfOk, IfSome, IsTrue, OnOk, false, true};
ghost use Rattle.csdf_claims.specs.Board.{HasFinished};
ghost use Rattle.csdf_floor.specs.Floor.{IsReady};
ghost use Rattle.csdf_floor.specs.declared.fault.RunFault.TheVariants.{Memory};
ghost use Rattle.csdf_crew.specs.Hand.{claim_for, claim_if, claim_in};
ghost use Rattle.csdf_crew.specs.Workers.{HasClaim, HasMade, HoldsJust, HoldsNothing, IsActor, IsBlockOf, IsStartOf};

use crate::claims::{Claim, claim_among, finish, finish_block, give_back};
use crate::gate::Gate;
use crate::gave_up::{GaveUp, refused, unevaluated, untaken};
use crate::hand::Hand;
use crate::monitor::{Asked, Delivered, LastSeen, Made, Monitor, NotStarted, NotTaken};
use crate::run_end::{EndCause, RunEnd};
use crate::told::Told;
use csdf_claims::{Board, Place};
use std::alloc::Global;
use std::sync::Wait;

/// A worker's place at its end, and the end of the run that it saw, or why it gave up.
#[derive(Drop)]
pub(crate) struct Ended {
    pub(crate) place: Place,
    pub(crate) answer: Result<RunEnd, GaveUp>,
}

/// Where the workers of a run meet.
#[derive(Drop)]
pub(crate) struct Site<'a, K: Asked, R, G> {
    pub(crate) rt: &'a R,
    pub(crate) alloc: Global,
    pub(crate) monitor: &'a Monitor<K>,
    pub(crate) board: &'a Board,
    pub(crate) gate: &'a G,
}

impl<'a, K: Asked, R, G> Site<'a, K, R, G> {
    /// What workers share.
    pub(crate) fn new(
        rt: &'a R,
        alloc: Global,
        monitor: &'a Monitor<K>,
        board: &'a Board,
        gate: &'a G,
    ) -> Site<'a, K, R, G>
        ensures { result.board ≡ board.entry }
    {
        Site {
            rt,
            alloc,
            monitor,
            board,
            gate,
        }
    }
}

/// A worker: its place at the board, what it knows since it had the lock last, and what it has in hand.
#[derive(Drop)]
struct Worker<'a, K: Asked, R, G> {
    site: &'a Site<'a, K, R, G>,
    place: Place,
    seen: LastSeen,
    hand: Hand<K>,
}

/// What came of a turn: what was delivered, and whether a job was started.
#[derive(Drop)]
struct JobTurn {
    delivered: Result<Option<Delivered>, NotTaken>,
    started: Result<bool, NotStarted>,
}

/// What came of a hold of the lock in which a drafted block was made: which firings these were, and whether those of
/// an actor that was claimed beside it are drafted.
#[derive(Drop)]
struct BlockTurn {
    made: Result<Made, NotStarted>,
    is_drafted: bool,
}

/// Claims the firing to start next, beside what is held: of those who can begin, or else of those who may
/// once what is held is delivered. None once all is over, and none beside what is held where the worker
/// goes on by blocks, each of which begins with nothing in hand.
fn claim_next<K: Asked, R, G>(
    site: &Site<'_, K, R, G>,
    place: &mut Place,
    seen: &LastSeen,
    beside: Option<Claim>,
    by_blocks: bool,
) -> Option<Claim>
    requires place { place.old.board ≡ site.now.board.now.id }
    requires holds { HoldsJust place.old.view beside None }
    ensures board { place.new.board ≡ site.now.board.now.id }
    ensures holds { HoldsJust place.new.view beside result }
    ensures actor { IsActor site.now.board.now.actors result }
{
    let (monitor, board) = (site.monitor, site.board);
    if monitor.is_ended() {
        return None;
    }
    if by_blocks && beside.is_some() && monitor.has_blocks(seen) {
        return None;
    }
    if let Some(claim) = claim_among(board, place, beside, monitor.near(seen)) {
        return Some(claim);
    }
    claim_among(board, place, beside, seen.next)
}

/// What becomes of a claim once a start was tried: that of a job which was started is held, and one that was
/// refused is given up.
fn settle_start<K: Asked>(
    board: &Board,
    place: &mut Place,
    next: Option<Claim>,
    started: Result<bool, NotStarted>,
    hand: &Hand<K>,
) -> Result<bool, GaveUp>
    requires place { place.old.board ≡ board.now.id }
    requires actor { IsActor board.now.actors next }
    requires holds { HoldsJust place.old.view None next }
    requires started { IfOk started (λ is_started. IsStartOf next is_started hand.now.job) }
    ensures board { place.new.board ≡ board.now.id }
    ensures holds { IfOk result (λ is_started. HoldsJust place.new.view None (claim_if is_started hand.now.job)) }
    ensures ready { IfOk result (λ is_started. IsTrue is_started → IsReady hand.now.job) }
    ensures actor { IfOk result (λ is_started. IsActor board.now.actors (claim_if is_started hand.now.job)) }
    ensures finished { (a k : ℕ) → HasFinished place.old.view a k → HasFinished place.new.view a k }
{
    let _ = hand;
    if matches!(&started, Ok(true)) {
        return Ok(true);
    }
    give_back(board, place, next, None);
    match started {
        Ok(_) => Ok(false),
        Err(why) => refused(why),
    }
}

/// Passes the gate with the firing whose job is in hand, which the worker goes on holding.
fn pass<K: Asked, G: Gate>(board: &Board, gate: &G, place: &mut Place, hand: &Hand<K>)
    requires place { place.old.board ≡ board.now.id }
    requires holds { HoldsJust place.old.view None (Some (claim_for hand.now.job)) }
    ensures board { place.new.board ≡ board.now.id }
    ensures passed { G.passed gate.now hand.now.job.actor hand.now.job.firing }
    ensures holds { HoldsJust place.new.view (Some (claim_for hand.now.job)) None }
    ensures finished { (a k : ℕ) → HasFinished place.old.view a k → HasFinished place.new.view a k }
{
    let job = hand.job();
    gate.enter(board, place, job.actor, job.firing);
}

/// Passes the gate and evaluates the job in hand.
fn fire<K: Asked, G: Gate>(
    board: &Board,
    gate: &G,
    place: &mut Place,
    hand: &mut Hand<K>,
) -> Result<(), GaveUp>
    requires place { place.old.board ≡ board.now.id }
    requires holds { HoldsJust place.old.view None (Some (claim_for hand.old.job)) }
    requires ready { IsReady hand.old.job }
    ensures board { place.new.board ≡ board.now.id }
    ensures job { hand.new.job ≡ hand.old.job }
    ensures made { OnOk result (hand.new.is_made ≡ true) }
    ensures cause { IfErr result (λ fault. fault ≡ Memory) }
    ensures holds { HoldsJust place.new.view (Some (claim_for hand.old.job)) None }
    ensures finished { (a k : ℕ) → HasFinished place.old.view a k → HasFinished place.new.view a k }
{
    pass(board, gate, place, hand);
    match hand.evaluate(gate) {
        Ok(()) => Ok(()),
        Err(error) => Err(unevaluated(error)),
    }
}

/// Ends the claim of firings that were looked for in a hold of the lock: what was made is finished, and a
/// claim that was refused is given up. What is held beside it stays so. True where some were made.
fn settle_block<K: Asked, R, G: Told>(
    site: &Site<'_, K, R, G>,
    place: &mut Place,
    claim: Claim,
    made: Result<Made, NotStarted>,
    beside: Option<Claim>,
) -> Result<bool, GaveUp>
    requires place { place.old.board ≡ site.now.board.now.id }
    requires actor { claim.actor < site.now.board.now.actors }
    requires holds { HoldsJust place.old.view (Some claim) beside }
    requires made { IfOk made (IsBlockOf claim) }
    ensures board { place.new.board ≡ site.now.board.now.id }
    ensures holds { HoldsJust place.new.view None beside }
{
    match made {
        Ok(made) => {
            finish_block(site.board, site.gate, place, made, beside);
            Ok(true)
        }
        Err(why) => {
            give_back(site.board, place, Some(claim), beside);
            refused(why)
        }
    }
}

impl<'a, K: Asked, R: Wait, G: Told> Worker<'a, K, R, G> {
    fn new(site: &'a Site<'a, K, R, G>, place: Place) -> Worker<'a, K, R, G>
        ensures site { result.site.now ≡ site.now }
        ensures place { result.place ≡ place }
        ensures idle { result.hand.is_made ≡ false }
    {
        Worker {
            site,
            place,
            seen: site.monitor.first_seen(),
            hand: Hand::new(site.alloc),
        }
    }

    /// Wakes another worker, where the last hold of the lock asks for it: once the claims have ended.
    fn wake(&self) {
        if self.seen.wakes {
            self.site.monitor.wake();
        }
    }

    /// Delivers what is in hand and starts what is claimed, in one hold of the lock.
    fn exchange(&mut self, next: Option<Claim>) -> JobTurn
        requires given { HasClaim self.old.place.view (claim_in self.old.hand) }
        requires next { HasClaim self.old.place.view next }
        ensures same { (self.new.site ≡ self.old.site) × (self.new.place ≡ self.old.place) }
        ensures idle { self.new.hand.is_made ≡ false }
        ensures delivered { IfOk result.delivered (λ delivered. delivered ≡ claim_in self.old.hand) }
        ensures started { IfOk result.started (λ is_started. IsStartOf next is_started self.new.hand.job) }
    {
        let site = self.site;
        let mut guard = site.monitor.hold(site.rt);
        let shared = &mut *guard;
        let delivered = shared.deliver(site.alloc, &self.hand);
        let started = shared.start_next(next, &mut self.hand);
        let is_started = matches!(&started, Ok(true));
        self.seen = if is_started {
            shared.seen(self.seen.tends, Some(self.hand.job()))
        } else {
            shared.seen(self.seen.tends, None)
        };
        self.seen.wakes = site.monitor.tell(shared, !is_started);
        JobTurn { delivered, started }
    }

    /// Makes firings of an actor one after another, the claimed one first, in one hold of the lock, where they
    /// are light. All of them pass the gate. Where they are heavy they are drafted, and nothing is answered.
    fn make_or_draft(&mut self, claim: Claim) -> Option<Result<Made, NotStarted>>
        requires open { (a k : ℕ) → G.passed self.old.site.now.gate.now a k }
        requires claim { HasClaim self.old.place.view (Some claim) }
        ensures same { (self.new.site ≡ self.old.site) × (self.new.place ≡ self.old.place) }
        ensures idle { IfSome result (λ _. self.new.hand.is_made ≡ false) }
        ensures made { IfSome result (λ made. IfOk made (IsBlockOf claim)) }
    {
        let site = self.site;
        let mut guard = site.monitor.hold(site.rt);
        let shared = &mut *guard;
        if shared.draft(&mut self.seen, &mut self.hand, claim) {
            self.seen.wakes = site.monitor.tell(shared, false);
            return None;
        }
        let made = shared.make(site.gate, claim, &mut self.hand);
        self.seen = shared.seen(self.seen.tends, None);
        self.seen.wakes = site.monitor.tell(shared, true);
        Some(made)
    }

    /// Makes the firings of an actor that were drafted and evaluated, the claimed one first, and drafts those
    /// of another one, which is claimed beside it, in one hold of the lock.
    fn make_and_draft(&mut self, claim: Claim, next: Option<Claim>) -> BlockTurn
        requires open { (a k : ℕ) → G.passed self.old.site.now.gate.now a k }
        requires claim { HasClaim self.old.place.view (Some claim) }
        requires next { HasClaim self.old.place.view next }
        ensures same { (self.new.site ≡ self.old.site) × (self.new.place ≡ self.old.place) }
        ensures idle { self.new.hand.is_made ≡ false }
        ensures made { IfOk result.made (IsBlockOf claim) }
    {
        let site = self.site;
        let mut guard = site.monitor.hold(site.rt);
        let shared = &mut *guard;
        shared.has_drafted(claim);
        let made = shared.make(site.gate, claim, &mut self.hand);
        self.seen = shared.seen(self.seen.tends, None);
        let is_drafted = match next {
            Some(next) => {
                site.monitor.makes_blocks(&self.seen, next.actor)
                    && shared.draft(&mut self.seen, &mut self.hand, next)
            }
            None => false,
        };
        self.seen.wakes = site.monitor.tell(shared, !is_drafted);
        BlockTurn { made, is_drafted }
    }

    /// Delivers what is in hand and starts what is claimed, in one hold of the lock. Behind it the claims end:
    /// what was given is finished, and what was refused is given up. Only then another worker is woken. True
    /// where a job was started, which is then in hand.
    fn turn(&mut self, next: Option<Claim>) -> Result<bool, GaveUp>
        requires place { self.old.place.board ≡ self.old.site.now.board.now.id }
        requires given { IsActor self.old.site.now.board.now.actors (claim_in self.old.hand) }
        requires next { IsActor self.old.site.now.board.now.actors next }
        requires holds { HoldsJust self.old.place.view (claim_in self.old.hand) next }
        ensures site { self.new.site ≡ self.old.site }
        ensures board { self.new.place.board ≡ self.old.site.now.board.now.id }
        ensures idle { self.new.hand.is_made ≡ false }
        ensures holds { IfOk result (λ is_started. HoldsJust self.new.place.view None (claim_if is_started self.new.hand.job)) }
        ensures ready { IfOk result (λ is_started. IsTrue is_started → IsReady self.new.hand.job) }
        ensures actor { IfOk result (λ is_started. IsActor self.old.site.now.board.now.actors (claim_if is_started self.new.hand.job)) }
        ensures made { IfOk result (λ _. HasMade self.new.place.view (claim_in self.old.hand)) }
    {
        let site = self.site;
        let JobTurn { delivered, started } = self.exchange(next);
        let delivered = match delivered {
            Ok(delivered) => delivered,
            Err(why) => return Err(untaken(why)),
        };
        finish(site.board, site.gate, &mut self.place, delivered, next);
        let answer = settle_start(site.board, &mut self.place, next, started, &self.hand);
        self.wake();
        answer
    }

    /// Evaluates what is drafted and makes it, and goes on so with what was drafted in the same hold of the
    /// lock, of an actor that was claimed beside. Behind each hold the claim ends; only then another worker is
    /// woken. True where the last one made some.
    fn make_drafted(&mut self, claim: Claim) -> Result<bool, GaveUp>
        requires place { self.old.place.board ≡ self.old.site.now.board.now.id }
        requires actor { claim.actor < self.old.site.now.board.now.actors }
        requires holds { HoldsJust self.old.place.view (Some claim) None }
        requires open { (a k : ℕ) → G.passed self.old.site.now.gate.now a k }
        ensures site { self.new.site ≡ self.old.site }
        ensures board { self.new.place.board ≡ self.old.site.now.board.now.id }
        ensures idle { self.new.hand.is_made ≡ false }
        ensures holds { HoldsJust self.new.place.view None None }
    {
        let site = self.site;
        let mut claim = claim;
        for _ in site.rt.forever() {
            self.hand.evaluate_draft(site.gate);
            let beside = claim_next(site, &mut self.place, &self.seen, Some(claim), false);
            let BlockTurn { made, is_drafted } = self.make_and_draft(claim, beside);
            let answer = settle_block(site, &mut self.place, claim, made, beside);
            self.wake();
            match beside {
                Some(next) if is_drafted && answer.is_ok() => claim = next,
                _ => {
                    give_back(site.board, &mut self.place, beside, None);
                    return answer;
                }
            }
        }
        unreachable!()
    }

    /// Makes firings of an actor one after another, the claimed one first, in one hold of the lock, or drafts
    /// them where they are heavy. True where some were made.
    fn make(&mut self, claim: Claim) -> Result<bool, GaveUp>
        requires place { self.old.place.board ≡ self.old.site.now.board.now.id }
        requires actor { claim.actor < self.old.site.now.board.now.actors }
        requires holds { HoldsJust self.old.place.view (Some claim) None }
        requires open { (a k : ℕ) → G.passed self.old.site.now.gate.now a k }
        ensures site { self.new.site ≡ self.old.site }
        ensures board { self.new.place.board ≡ self.old.site.now.board.now.id }
        ensures idle { self.new.hand.is_made ≡ false }
        ensures holds { HoldsJust self.new.place.view None None }
    {
        let Some(made) = self.make_or_draft(claim) else {
            self.wake();
            return self.make_drafted(claim);
        };
        let answer = settle_block(self.site, &mut self.place, claim, made, None);
        self.wake();
        answer
    }

    /// Delivers what is in hand, and makes the next firing, up to its delivery, or some firings one after
    /// another, where one can be had. True where some firing was started or made.
    fn advance(&mut self) -> Result<bool, GaveUp>
        requires place { self.old.place.board ≡ self.old.site.now.board.now.id }
        requires actor { IsActor self.old.site.now.board.now.actors (claim_in self.old.hand) }
        requires holds { HoldsJust self.old.place.view (claim_in self.old.hand) None }
        ensures site { self.new.site ≡ self.old.site }
        ensures board { self.new.place.board ≡ self.old.site.now.board.now.id }
        ensures rests { IfOk result (λ gets_on. gets_on ≡ false → self.new.hand.is_made ≡ false) }
        ensures actor { OnOk result (IsActor self.old.site.now.board.now.actors (claim_in self.new.hand)) }
        ensures holds { OnOk result (HoldsJust self.new.place.view (claim_in self.new.hand) None) }
        ensures made { OnOk result (HasMade self.new.place.view (claim_in self.old.hand)) }
    {
        let site = self.site;
        let given = self.hand.claim();
        let is_open = site.gate.is_open();
        let next = claim_next(site, &mut self.place, &self.seen, given, is_open);
        if given.is_none() {
            let Some(claim) = next else {
                return Ok(false);
            };
            if is_open && site.monitor.makes_blocks(&self.seen, claim.actor) {
                return self.make(claim);
            }
        }
        let is_started = self.turn(next)?;
        if !is_started {
            return Ok(false);
        }
        fire(site.board, site.gate, &mut self.place, &mut self.hand)?;
        Ok(true)
    }
}

/// Makes firings until the floor is quiet or a worker has given up.
pub(crate) fn work<K: Asked, R: Wait, G: Told>(site: &Site<'_, K, R, G>, place: Place) -> Ended
    requires board { place.board ≡ site.now.board.now.id }
    requires free { HoldsNothing place.view }
    ensures board { result.place.board ≡ site.now.board.now.id }
    ensures free { IfOk result.answer (λ _. HoldsNothing result.place.view) }
{
    let mut worker = Worker::new(site, place);
    for _ in site.rt.forever() {
        let is_idle = worker.hand.claim().is_none();
        match worker.advance() {
            Ok(gets_on) => {
                if is_idle && !gets_on {
                    if let Some(end) = site.monitor.wait(site.rt, &mut worker.seen) {
                        return Ended {
                            place: worker.place,
                            answer: Ok(end),
                        };
                    }
                }
            }
            Err(fault) => {
                site.monitor.give_up(site.rt, EndCause::GaveUp(&fault));
                return Ended {
                    place: worker.place,
                    answer: Err(fault),
                };
            }
        }
    }
    unreachable!()
}
