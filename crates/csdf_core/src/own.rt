//! The channels from an actor to itself, while the values of its firings are told one after another: what each of them
//! holds, out of which the next firing reads, and into which its share goes.

ghost use Rattle.std.specs.Prelude.{ℕ, ◌≡◌, ◌+◌, ◌<◌, ◌≤◌, ◌++◌, [], List, ℤ, All, IfOk, IsTrue, OnOk, if◌then◌else◌, length, take, drop};
ghost use Rattle.csdf_core.specs.Own.{AreOwn, ArePlaced, OwnEnough, own_laid, own_passed};
ghost use Rattle.csdf_core.specs.Phases.{IsInPhase};
ghost use Rattle.csdf_core.specs.Plan.{from_at};
ghost use Rattle.csdf_core.specs.Ports.{inputs_at, take_at, tokens_at, tokens_in};
ghost use Rattle.csdf_core.specs.Rows.{need, gift};

use crate::firing_core::Core;
use crate::own_places::{OwnPlace, place_anew, places_of};
use crate::plan::Plan;
use crate::turn::Turn;
use csdf_model::MAX_FIRINGS_PER_ACTOR;
use csdf_pool::Pool;
use std::alloc::{AllocError, Global};
use std::marker::Model;

/// Tokens in a list of their own, out of which they are taken from a place on, and at whose end they are put.
#[derive(Drop)]
pub(crate) struct OwnQueue {
    tokens: Vec<i32>,
    at: usize,
}

impl Model for OwnQueue {
    ghost use Rattle.std.specs.Prelude.{List, ℤ, ◌≤◌, drop, length};

    ghost Value = { List ℤ };

    ghost view = { λ q. drop q.at q.tokens.items };

    ghost invariant = { λ q. q.at ≤ length q.tokens.items };
}

impl OwnQueue {
    /// No tokens.
    fn empty(alloc: Global) -> OwnQueue
        ensures { result ≡ [] }
    {
        OwnQueue {
            tokens: Vec::new(alloc),
            at: 0,
        }
    }

    /// Copies the tokens that are next, as many as the slice is long.
    #[inline(always)]
    fn copy_front(&self, into: &mut [i32])
        requires { length into.old ≤ length self.now }
        ensures { into.new ≡ take (length into.old) self.now }
    {
        into.copy_from_slice(&self.tokens[self.at..self.at + into.len()]);
    }

    /// Takes so many tokens, and puts these.
    #[inline(always)]
    fn pass(&mut self, taken: usize, share: &[i32]) -> Result<(), AllocError>
        requires { taken ≤ length self.old }
        ensures { OnOk result (self.new ≡ drop taken (self.old ++ share.now)) }
    {
        self.tokens.extend_from_slice(share)?;
        self.at += taken;
        Ok(())
    }
}

/// What the channels from an actor to itself hold, after some firings whose values are told and not yet made, and where
/// the next firing has their tokens.
#[derive(Drop)]
pub struct OwnTokens {
    queues: Vec<OwnQueue>,
    places: Vec<OwnPlace>,
}

/// It is seen as a list of tokens and a place for each input of the actor; the tokens are none where the input is of
/// another actor.
impl Model for OwnTokens {
    ghost use Rattle.csdf_core.specs.Own.{OwnView};

    ghost Value = { OwnView };

    ghost view = { λ own. record { queues = own.queues.items; places = own.places.items } };
}

/// What the input holds, with room for what n firings give to it, where it is a channel from the actor to itself.
fn queue_of(
    alloc: Global,
    plan: &Plan,
    pool: &Pool,
    actor: u32,
    channel: u32,
    k: u32,
    n: u32,
) -> Result<OwnQueue, AllocError>
    requires channel { channel < length plan.now.channels }
    requires same { length pool.now.chains ≡ length plan.now.channels }
    requires few { k + n ≤ MAX_FIRINGS_PER_ACTOR }
    ensures { IfOk result (λ queue. from_at plan.now.channels channel ≡ actor → queue ≡ tokens_at (tokens_in pool.now) channel) }
{
    if plan.producer(channel) != actor {
        return Ok(OwnQueue::empty(alloc));
    }
    let len = pool.len(channel) as usize;
    let mut tokens = Vec::with_capacity(alloc, len + plan.given(channel, k, n) as usize)?;
    tokens.resize(len, 0)?;
    pool.copy_front(channel, &mut tokens);
    Ok(OwnQueue { tokens, at: 0 })
}

/// What each input holds that is a channel from the actor to itself, with room for what n firings give to it.
fn queues_of(
    alloc: Global,
    plan: &Plan,
    pool: &Pool,
    actor: u32,
    k: u32,
    n: u32,
) -> Result<Vec<OwnQueue>, AllocError>
    requires actor { actor < length plan.now.sources }
    requires same { length pool.now.chains ≡ length plan.now.channels }
    requires few { k + n ≤ MAX_FIRINGS_PER_ACTOR }
    ensures { IfOk result (λ queues. AreOwn plan.now.channels actor (tokens_at (tokens_in pool.now)) queues.items) }
{
    let inputs = plan.inputs(actor);
    let mut queues = Vec::with_capacity(alloc, inputs.len())?;
    for channel in inputs {
        queues.push(queue_of(alloc, plan, pool, actor, *channel, k, n)?)?;
    }
    Ok(queues)
}

/// Puts the tokens that are next in the place of those of the input, where it is a channel from the actor to itself.
#[inline(always)]
fn lay_one(is_own: bool, queue: &OwnQueue, part: &mut [i32])
    requires enough { IsTrue is_own → length part.old ≤ length queue.now }
    ensures { part.new ≡ take (length part.old) (if is_own then queue.now else part.old) }
{
    if is_own {
        queue.copy_front(part);
    }
}

/// Puts what the firing reads of channels from the actor to itself into its part of what is read.
#[inline(always)]
fn lay(
    plan: &Plan,
    actor: u32,
    turn: Turn,
    places: &[OwnPlace],
    queues: &[OwnQueue],
    part: &mut [i32],
)
    requires placed { ArePlaced plan.now.channels actor turn.firing places.now }
    requires each { length queues.now ≡ length (inputs_at plan.now.channels actor) }
    requires enough { OwnEnough plan.now.channels actor (take_at plan.now.channels turn.firing) queues.now }
    requires all { length part.old ≡ need actor turn.firing plan.now.channels }
    ensures { (tokens : ℕ → List ℤ) → AreOwn plan.now.channels actor tokens queues.now
        → part.new ≡ own_laid plan.now.channels actor (take_at plan.now.channels turn.firing) (inputs_at plan.now.channels actor) tokens part.old }
{
    for place in 0..places.len() {
        let here = places[place];
        let at = here.slot.from;
        let end = at + here.slot.taken;
        lay_one(here.is_own, &queues[place], &mut part[at..end]);
    }
}

/// Lets the input, where it is a channel from the actor to itself, give up what the firing takes, and get its share of
/// what the firing writes.
#[inline(always)]
fn pass_one(place: OwnPlace, queue: &mut OwnQueue, value: &[i32]) -> Result<(), AllocError>
    requires enough { IsTrue place.is_own → place.slot.taken ≤ length queue.old }
    requires fits { IsTrue place.is_own → place.share.from + place.share.own ≤ length value.now }
    ensures { OnOk result (IsTrue place.is_own
        → queue.new ≡ drop place.slot.taken (queue.old ++ take place.share.own (drop place.share.from value.now))) }
{
    if !place.is_own {
        return Ok(());
    }
    let share = place.share;
    queue.pass(place.slot.taken, &value[share.from..share.from + share.own])
}

/// The same for each input of the actor.
#[inline(always)]
fn pass(
    plan: &Plan,
    actor: u32,
    turn: Turn,
    places: &[OwnPlace],
    queues: &mut [OwnQueue],
    value: &[i32],
) -> Result<(), AllocError>
    requires placed { ArePlaced plan.now.channels actor turn.firing places.now }
    requires each { length queues.old ≡ length (inputs_at plan.now.channels actor) }
    requires enough { OwnEnough plan.now.channels actor (take_at plan.now.channels turn.firing) queues.old }
    requires all { length value.now ≡ gift actor turn.firing plan.now.channels }
    ensures { OnOk result ((tokens : ℕ → List ℤ) → AreOwn plan.now.channels actor tokens queues.old
        → AreOwn plan.now.channels actor (own_passed plan.now.channels actor turn.firing value.now tokens) queues.new) }
{
    for place in 0..places.len() {
        pass_one(places[place], &mut queues[place], value)?;
    }
    Ok(())
}

impl Core {
    ghost use Rattle.csdf_core.specs.Step.{count};

    /// What the channels from the actor to itself hold, with room for what its next n firings give to them, and where
    /// its next firing has their tokens.
    ///
    /// An error says that memory ran out.
    pub fn own_tokens(&self, alloc: Global, actor: u32, n: u32) -> Result<OwnTokens, AllocError>
        requires actor { actor < length self.now.plan.sources }
        requires few { count self.now.now actor + n ≤ MAX_FIRINGS_PER_ACTOR }
        ensures own { IfOk result (λ own. AreOwn self.now.plan.channels actor (tokens_at self.now.now.tokens) own.queues) }
        ensures placed { IfOk result (λ own. ArePlaced self.now.plan.channels actor (count self.now.now actor) own.places) }
    {
        let turn = self.turn(actor);
        let queues = queues_of(alloc, &self.plan, &self.pool, actor, turn.firing, n)?;
        let places = places_of(alloc, &self.plan, actor, turn)?;
        Ok(OwnTokens { queues, places })
    }

    /// Finds out where this firing has the tokens of channels from the actor to itself, where it is known of another one:
    /// with one phase it has them there too.
    #[inline]
    pub fn turn_own(&self, actor: u32, other: Turn, turn: Turn, own: &mut OwnTokens)
        requires actor { actor < length self.now.plan.sources }
        requires in_phase { IsInPhase self.now.plan.channels actor turn.firing turn.phase }
        requires placed { ArePlaced self.now.plan.channels actor other.firing own.old.places }
        ensures queues { own.new.queues ≡ own.old.queues }
        ensures placed { ArePlaced self.now.plan.channels actor turn.firing own.new.places }
    {
        if self.plan.phases(actor) == 1 {
            return;
        }
        place_anew(&self.plan, actor, turn, &mut own.places);
    }

    /// Puts what the firing reads of channels from the actor to itself into its part of what is read.
    #[inline]
    pub fn lay_own(&self, actor: u32, turn: Turn, own: &OwnTokens, part: &mut [i32])
        requires placed { ArePlaced self.now.plan.channels actor turn.firing own.now.places }
        requires each { length own.now.queues ≡ length (inputs_at self.now.plan.channels actor) }
        requires enough { OwnEnough self.now.plan.channels actor (take_at self.now.plan.channels turn.firing) own.now.queues }
        requires all { length part.old ≡ need actor turn.firing self.now.plan.channels }
        ensures { (tokens : ℕ → List ℤ) → AreOwn self.now.plan.channels actor tokens own.now.queues
            → part.new ≡ own_laid self.now.plan.channels actor (take_at self.now.plan.channels turn.firing) (inputs_at self.now.plan.channels actor) tokens part.old }
    {
        lay(&self.plan, actor, turn, &own.places, &own.queues, part);
    }

    /// Lets the channels from the actor to itself give up what the firing takes, and get their shares of what it
    /// writes.
    ///
    /// An error says that memory ran out; then these tokens are of no more use.
    #[inline]
    pub fn pass_own(
        &self,
        actor: u32,
        turn: Turn,
        own: &mut OwnTokens,
        value: &[i32],
    ) -> Result<(), AllocError>
        requires placed { ArePlaced self.now.plan.channels actor turn.firing own.old.places }
        requires each { length own.old.queues ≡ length (inputs_at self.now.plan.channels actor) }
        requires enough { OwnEnough self.now.plan.channels actor (take_at self.now.plan.channels turn.firing) own.old.queues }
        requires all { length value.now ≡ gift actor turn.firing self.now.plan.channels }
        ensures passed { OnOk result ((tokens : ℕ → List ℤ) → AreOwn self.now.plan.channels actor tokens own.old.queues
            → AreOwn self.now.plan.channels actor (own_passed self.now.plan.channels actor turn.firing value.now tokens) own.new.queues) }
        ensures places { own.new.places ≡ own.old.places }
    {
        pass(&self.plan, actor, turn, &own.places, &mut own.queues, value)
    }
}
