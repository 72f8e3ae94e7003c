//! What the next firings of an actor take and give in all.
//!
//! Most actors have one phase: each of their firings takes and gives as much as the next one does, so
//! that nothing is looked up or added up.

ghost use Rattle.std.specs.Prelude.{ℕ, ◌≡◌, ◌+◌, ◌*◌, ◌<◌, ◌≤◌, IsTrue, length};
ghost use Rattle.csdf_core.specs.Blocks.{needs_of, gifts_of};
ghost use Rattle.csdf_core.specs.Phases.{HasPhases, IsInPhase};
ghost use Rattle.csdf_core.specs.Rows.{need, gift};
ghost use Rattle.csdf_core.specs.Sides.{moved_ahead};

use crate::firing_core::Core;
use crate::plan::Plan;
use crate::side::Side;
use crate::turn::{Turn, turn_after};
use csdf_model::{MAX_FIRINGS_PER_ACTOR, MAX_PHASES, MAX_TOKENS_PER_FIRING, MAX_TOTAL_PER_FIRING};

/// How many tokens n firings move in all at this side of the actor, from this one on.
fn moved_in_all(plan: &Plan, side: Side, actor: u32, firing: u32, n: u32) -> u64
    requires actor { actor < length plan.now.sources }
    requires few { firing + n ≤ MAX_FIRINGS_PER_ACTOR }
    ensures { result ≡ moved_ahead side plan.now.channels actor firing n }
{
    let ends = plan.ends(side, actor);
    let mut sum = 0;
    for channel in ends {
        sum += plan.amounts(side, *channel, firing, n);
    }
    sum
}

impl Core {
    ghost use Rattle.csdf_core.specs.Plan.{consume_at, from_at, produce_at, to_at};
    ghost use Rattle.csdf_core.specs.Ports.{give_at};
    ghost use Rattle.csdf_core.specs.Step.{count};

    /// How many tokens the actor's next n firings take in all.
    #[inline(always)]
    pub(crate) fn needed_ahead(&self, actor: u32, n: u32) -> u64
        requires actor { actor < length self.now.plan.sources }
        requires few { count self.now.now actor + n ≤ MAX_FIRINGS_PER_ACTOR }
        ensures { result ≡ needs_of self.now.plan.channels actor (count self.now.now actor) n }
    {
        let each = self.need(actor) as u64;
        if n == 1 {
            return each;
        }
        if self.plan.phases(actor) == 1 {
            return u64::from(n) * each;
        }
        moved_in_all(&self.plan, Side::Input, actor, self.fired(actor), n)
    }

    /// How many tokens the actor's next n firings give in all.
    #[inline(always)]
    pub(crate) fn given_ahead(&self, actor: u32, n: u32) -> u64
        requires actor { actor < length self.now.plan.sources }
        requires few { count self.now.now actor + n ≤ MAX_FIRINGS_PER_ACTOR }
        ensures value { result ≡ gifts_of self.now.plan.channels actor (count self.now.now actor) n }
        ensures small { result ≤ MAX_TOTAL_PER_FIRING * n }
    {
        let each = self.gives(actor) as u64;
        if n == 1 {
            return each;
        }
        if self.plan.phases(actor) == 1 {
            return u64::from(n) * each;
        }
        self.plan.gives_few();
        moved_in_all(&self.plan, Side::Output, actor, self.fired(actor), n)
    }

    /// How many tokens the actor's firing takes.
    #[inline(always)]
    pub fn need_at(&self, actor: u32, turn: Turn) -> usize
        requires actor { actor < length self.now.plan.sources }
        requires in_phase { IsInPhase self.now.plan.channels actor turn.firing turn.phase }
        ensures value { result ≡ need actor turn.firing self.now.plan.channels }
        ensures small { result ≤ MAX_TOTAL_PER_FIRING }
    {
        self.plan.moved(Side::Input, actor, turn)
    }

    /// How many tokens the actor's firing gives.
    #[inline(always)]
    pub fn gift_at(&self, actor: u32, turn: Turn) -> usize
        requires actor { actor < length self.now.plan.sources }
        requires in_phase { IsInPhase self.now.plan.channels actor turn.firing turn.phase }
        ensures value { result ≡ gift actor turn.firing self.now.plan.channels }
        ensures small { result ≤ MAX_TOTAL_PER_FIRING }
    {
        self.plan.moved(Side::Output, actor, turn)
    }

    /// How many tokens the actor's firing puts into this output.
    #[inline]
    pub fn gives_at(&self, actor: u32, channel: u32, turn: Turn) -> u32
        requires channel { channel < length self.now.plan.channels }
        requires own { from_at self.now.plan.channels channel ≡ actor }
        requires in_phase { IsInPhase self.now.plan.channels actor turn.firing turn.phase }
        ensures value { result ≡ give_at self.now.plan.channels turn.firing channel }
        ensures small { result ≤ MAX_TOKENS_PER_FIRING }
    {
        self.plan.gives(channel, turn)
    }

    /// The firing after this one.
    #[inline]
    pub fn turn_after(&self, actor: u32, turn: Turn) -> Turn
        requires actor { actor < length self.now.plan.sources }
        requires in_phase { IsInPhase self.now.plan.channels actor turn.firing turn.phase }
        requires low { turn.phase < MAX_PHASES }
        requires few { turn.firing ≤ MAX_FIRINGS_PER_ACTOR }
        ensures firing { result.firing ≡ turn.firing + 1 }
        ensures in_phase { IsInPhase self.now.plan.channels actor result.firing result.phase }
        ensures low { result.phase < MAX_PHASES }
    {
        turn_after(&self.plan, actor, turn)
    }

    /// Whether each firing of the actor moves as much as any other: each of its lists of rates has
    /// one entry.
    pub fn has_one_phase(&self, actor: u32) -> bool
        requires { actor < length self.now.plan.sources }
        ensures each { IsTrue result → HasPhases self.now.plan.channels actor 1 }
        ensures takes { (c : ℕ) → c < length self.now.plan.channels → to_at self.now.plan.channels c ≡ actor
            → length (consume_at self.now.plan.channels c) ≡ 1 → IsTrue result }
        ensures gives { (c : ℕ) → c < length self.now.plan.channels → from_at self.now.plan.channels c ≡ actor
            → length (produce_at self.now.plan.channels c) ≡ 1 → IsTrue result }
    {
        self.plan.phases(actor) == 1
    }
}
