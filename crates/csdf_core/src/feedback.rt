//! Several firings of an actor that keeps its state in a channel to itself.
//!
//! What such a firing reads is what the firing before it wrote, so that its values come one after the other: whoever
//! computes them has the state and the other tokens at once ([`Core::peek_on`]), and then makes all moves in one
//! call ([`Core::fire`]).

ghost use Rattle.std.specs.Prelude.{ℕ, ◌≡◌, ◌≢◌, ◌+◌, ◌-◌, ◌*◌, ◌<◌, ◌≤◌, ◌↔◌, IsTrue, IfSome, IfNone, length, List, ℤ, sum_by};
ghost use Rattle.std.specs.List.{AllByRecursion};
ghost use Rattle.csdf_core.specs.Blocks.{takes_at, gives_at, gifts_of, HoldAll, from_front};
ghost use Rattle.csdf_core.specs.Engine.{AreReadWith};
ghost use Rattle.csdf_core.specs.declared.feedback.Feedback.{Feedback as FeedbackModel};
ghost use Rattle.csdf_core.specs.Feedback.{KeepsState, IsFeedback, CanGoOn, HaveRoomFor, asks_at, fills_at, before_of, in_order, loop_reads, others_of, AreNotInOrder};
ghost use Rattle.csdf_core.specs.Phases.{HasPhases, IsInPhase};
ghost use Rattle.csdf_core.specs.Plan.{from_at, to_at};
ghost use Rattle.csdf_core.specs.Ports.{inputs_at, outputs_at, take_at, give_at, tokens_at, tokens_in};
ghost use Rattle.csdf_core.specs.Rows.{gift};
ghost use Rattle.csdf_core.specs.Step.{begun_count, count, held, reserved, stage};

use crate::firing_core::Core;
use crate::first_refusal::is_at;
use crate::plan::Plan;
use crate::readiness::first_closed;
use crate::stage::Stage;
use crate::turn::Turn;
use csdf_model::{MAX_FIRINGS_PER_ACTOR, MAX_TOKENS_PER_FIRING, MAX_TOTAL_PER_FIRING};
use csdf_pool::Pool;

/// The channel in which an actor keeps its state: it goes from the actor to itself, and each firing takes all that it
/// holds and gives as many tokens back.
#[derive(Clone, Copy, Debug, PartialEq, Eq)]
pub struct Feedback {
    /// The channel.
    pub channel: u32,
    /// How many tokens a firing takes of it.
    pub taken: u32,
    /// The actor's other input, where it has one.
    pub other: Option<u32>,
    /// How many tokens a firing takes of that one.
    pub each: u32,
    /// Whether the state is read before the other tokens.
    pub is_first: bool,
    /// How many of the tokens that a firing writes stand before those that go back.
    pub before: u32,
}

/// Whether no other channel goes from the actor to itself.
fn is_only_loop(plan: &Plan, actor: u32, own: u32) -> bool
    requires { actor < length plan.now.sources }
    ensures { IsTrue result ↔ AllByRecursion (λ c. c ≢ own → from_at plan.now.channels c ≢ actor) (inputs_at plan.now.channels actor) }
{
    let inputs = plan.inputs(actor);
    for channel in inputs {
        if *channel != own && plan.producer(*channel) == actor {
            return false;
        }
    }
    true
}

/// The inputs of an actor of which one is this channel: the other one, and whether this one comes first. `None`
/// where it has more.
fn order_of(plan: &Plan, actor: u32, own: u32) -> Option<(Option<u32>, bool)>
    requires { actor < length plan.now.sources }
    ensures order { IfSome result (λ r. inputs_at plan.now.channels actor ≡ in_order r.1 own (others_of r.0)) }
    ensures apart { IfSome result (λ r. IfSome r.0 (λ c. c ≢ own)) }
    ensures none { IfNone result (AreNotInOrder (inputs_at plan.now.channels actor) own) }
{
    match plan.inputs(actor) {
        [only] if *only == own => Some((None, true)),
        [first, last] if *first == own && *last != own => Some((Some(*last), true)),
        [first, last] if *last == own && *first != own => Some((Some(*first), false)),
        _ => None,
    }
}

/// How many tokens a firing gives to the outputs that come before this one.
pub(crate) fn given_before(plan: &Plan, actor: u32, own: u32, turn: Turn) -> u32
    requires actor { actor < length plan.now.sources }
    requires in_phase { IsInPhase plan.now.channels actor turn.firing turn.phase }
    ensures value { result ≡ before_of (give_at plan.now.channels turn.firing) (outputs_at plan.now.channels actor) own }
{
    let outputs = plan.outputs(actor);
    let mut sum = 0;
    for channel in outputs {
        if *channel == own {
            return sum;
        }
        sum += plan.gives(*channel, turn);
    }
    sum
}

/// How many tokens a firing takes of the input, where there is one.
fn taken_of_other(plan: &Plan, actor: u32, other: Option<u32>, turn: Turn) -> u32
    requires actor { actor < length plan.now.sources }
    requires in_phase { IsInPhase plan.now.channels actor turn.firing turn.phase }
    requires own { IfSome other (λ c. (c < length plan.now.channels) × (to_at plan.now.channels c ≡ actor)) }
    ensures value { result ≡ sum_by (take_at plan.now.channels turn.firing) (others_of other) }
{
    match other {
        Some(channel) => plan.takes(channel, turn),
        None => 0,
    }
}

/// How many tokens n firings have to find in the input: in the channel to the actor itself those of one.
fn asked_of(plan: &Plan, actor: u32, own: u32, channel: u32, turn: Turn, n: u32) -> u64
    requires actor { actor < length plan.now.sources }
    requires channel { channel < length plan.now.channels }
    requires own { to_at plan.now.channels channel ≡ actor }
    requires in_phase { IsInPhase plan.now.channels actor turn.firing turn.phase }
    requires few { turn.firing + n ≤ MAX_FIRINGS_PER_ACTOR }
    ensures value { result ≡ asks_at plan.now.channels own turn.firing n channel }
{
    if channel == own {
        return u64::from(plan.takes(channel, turn));
    }
    plan.taken(channel, turn.firing, n)
}

/// For how many tokens n firings have to find room in the output: in the channel to the actor itself for none.
fn filled_of(plan: &Plan, own: u32, channel: u32, turn: Turn, n: u32) -> u64
    requires channel { channel < length plan.now.channels }
    requires few { turn.firing + n ≤ MAX_FIRINGS_PER_ACTOR }
    ensures value { result ≡ fills_at plan.now.channels own turn.firing n channel }
    ensures small { result ≤ MAX_TOKENS_PER_FIRING * n }
{
    if channel == own {
        return 0;
    }
    plan.given(channel, turn.firing, n)
}

/// Whether each input of the actor holds what its next n firings have to find there.
fn hold_asked(plan: &Plan, pool: &Pool, actor: u32, own: u32, turn: Turn, n: u32) -> bool
    requires actor { actor < length plan.now.sources }
    requires same { length pool.now.chains ≡ length plan.now.channels }
    requires in_phase { IsInPhase plan.now.channels actor turn.firing turn.phase }
    requires few { turn.firing + n ≤ MAX_FIRINGS_PER_ACTOR }
    ensures { IsTrue result ↔ HoldAll (tokens_in pool.now) (asks_at plan.now.channels own turn.firing n) (inputs_at plan.now.channels actor) }
{
    let inputs = plan.inputs(actor);
    for channel in inputs {
        let needed = asked_of(plan, actor, own, *channel, turn, n);
        if u64::from(pool.len(*channel)) < needed {
            return false;
        }
    }
    true
}

/// Whether each output of the actor has the room that its next n firings have to find there.
fn have_asked(plan: &Plan, pool: &Pool, actor: u32, own: u32, turn: Turn, n: u32) -> bool
    requires actor { actor < length plan.now.sources }
    requires same { length pool.now.chains ≡ length plan.now.channels }
    requires few { turn.firing + n ≤ MAX_FIRINGS_PER_ACTOR }
    ensures { IsTrue result ↔ HaveRoomFor plan.now.channels (tokens_in pool.now) (fills_at plan.now.channels own turn.firing n)
        (outputs_at plan.now.channels actor) }
{
    let outputs = plan.outputs(actor);
    for channel in outputs {
        let given = filled_of(plan, own, *channel, turn, n);
        if u64::from(pool.len(*channel)) + given > u64::from(plan.capacity(*channel)) {
            return false;
        }
    }
    true
}

/// Copies the oldest tokens of the channel, where there is one, as many as the slice is long.
fn copy_other(pool: &Pool, other: Option<u32>, into: &mut [i32])
    requires enough { IfSome other (λ c. (c < length pool.now.chains) × (length into.old ≤ length (tokens_at (tokens_in pool.now) c))) }
    requires none { IfNone other (length into.old ≡ 0) }
    ensures { into.new ≡ from_front (others_of other) (length into.old) (tokens_in pool.now) }
{
    match other {
        Some(channel) => pool.copy_front(channel, into),
        None => {}
    }
}

impl Core {
    /// What the actor keeps its state in: `None` where it has no channel to itself or more than one, where its
    /// firings take and give not as many tokens of it, for an actor of several phases, and for one with more than one
    /// other input.
    pub fn feedback(&self, actor: u32) -> Option<Feedback>
        requires { actor < length self.now.plan.sources }
        ensures some { IfSome result (IsFeedback self.now.plan actor) }
        ensures none { IfNone result ((f : FeedbackModel) → IsFeedback self.now.plan actor f → ⊥) }
    {
        let plan = &self.plan;
        if plan.phases(actor) != 1 || plan.is_source(actor) {
            return None;
        }
        let channel = plan.first_loop(actor)?;
        if !is_only_loop(plan, actor, channel) {
            return None;
        }
        let (other, is_first) = order_of(plan, actor, channel)?;
        let turn = plan.first_turn();
        let taken = plan.takes(channel, turn);
        if plan.gives(channel, turn) != taken {
            return None;
        }
        Some(Feedback {
            channel,
            taken,
            other,
            each: taken_of_other(plan, actor, other, turn),
            is_first,
            before: given_before(plan, actor, channel, turn),
        })
    }

    /// Whether the actor can make its next n firings one after the other, with no other's move between them: each of
    /// their moves is then accepted. The channel to itself has to hold just the tokens of one firing.
    pub fn can_go_on(&self, actor: u32, feedback: Feedback, n: u32) -> bool
        requires actor { actor < length self.now.plan.sources }
        requires feedback { IsFeedback self.now.plan actor feedback }
        ensures { IsTrue result ↔ CanGoOn self.now.plan self.now.now actor feedback.channel n }
    {
        let turn = self.turn(actor);
        let own = feedback.channel;
        if !is_at(self.stage(actor), Stage::Idle) {
            return false;
        }
        if u64::from(turn.firing) + u64::from(n) > u64::from(self.plan.limit(actor)) {
            return false;
        }
        if first_closed(&self.plan, &self.opens, actor).is_some() {
            return false;
        }
        if self.pool.len(own) != feedback.taken {
            return false;
        }
        if !hold_asked(&self.plan, &self.pool, actor, own, turn, n) {
            return false;
        }
        if !have_asked(&self.plan, &self.pool, actor, own, turn, n) {
            return false;
        }
        if !self.may_begin(n) {
            return false;
        }
        let beside = (self.gives(actor) as u64).saturating_sub(u64::from(feedback.taken));
        if !self.has_cells(u64::from(n) * beside) {
            return false;
        }
        true
    }

    /// Whether so many firings more may begin, of all actors together.
    fn may_begin(&self, n: u32) -> bool
        ensures { IsTrue result ↔ IfSome self.now.plan.firings (λ most. begun_count self.now.now + n ≤ most) }
    {
        match self.plan.firings() {
            Some(most) => self.started + u64::from(n) <= u64::from(most),
            None => true,
        }
    }

    /// Whether so many cells are neither held nor reserved.
    fn has_cells(&self, given: u64) -> bool
        requires { given ≤ MAX_TOTAL_PER_FIRING * MAX_FIRINGS_PER_ACTOR }
        ensures { IsTrue result ↔ held self.now.now + reserved self.now.plan self.now.now + given ≤ self.now.plan.cells }
    {
        if self.used() + given > u64::from(self.plan.cells()) {
            return false;
        }
        true
    }

    /// Copies what the channel to the actor itself holds, and the tokens of its other input that its next n firings
    /// read; it changes nothing. What they read is told by these and by what they write.
    pub fn peek_on(
        &self,
        actor: u32,
        feedback: Feedback,
        n: u32,
        state: &mut [i32],
        others: &mut [i32],
    )
        requires feedback { IsFeedback self.now.plan actor feedback }
        requires can { CanGoOn self.now.plan self.now.now actor feedback.channel n }
        requires state { length state.old ≡ feedback.taken }
        requires others { length others.old ≡ n * feedback.each }
        ensures read { (v : List ℤ) → length v ≡ gifts_of self.now.plan.channels actor (count self.now.now actor) n
            → AreReadWith self.now.plan self.now.now actor (count self.now.now actor) n v (loop_reads feedback.is_first feedback.each feedback.before
            (gift actor (count self.now.now actor) self.now.plan.channels) n state.new others.new v) }
    {
        self.plan.gives_few();
        self.pool.copy_front(feedback.channel, state);
        copy_other(&self.pool, feedback.other, others);
    }
}
