//! The engine: how many firings an actor can make one after another, and those firings in one call.

ghost use Rattle.std.specs.Prelude.{ℕ, ◌≡◌, ◌+◌, ◌-◌, ◌*◌, ◌<◌, ◌≤◌, ◌↔◌, ℤ, List, IsTrue, true, None, IfSome, length, slice_index};
ghost use Rattle.std.specs.List.{AllByRecursion};
ghost use Rattle.csdf_core.specs.Blocks.{HoldAll};
ghost use Rattle.csdf_core.specs.Engine.{FindsIn, FindsOut, GoesRound, IsHeld, HasRoom};
ghost use Rattle.csdf_core.specs.Plan.{to_at, from_at};
ghost use Rattle.csdf_core.specs.Phases.{HasPhases};
ghost use Rattle.csdf_core.specs.Ports.{inputs_at, tokens_in};
ghost use Rattle.csdf_core.specs.Sides.{ends_at, Finds, LetsThrough};

use crate::block_moves::move_block;
use crate::firing_core::Core;
use crate::first_refusal::is_at;
use crate::gathering::copy_reads;
use crate::plan::Plan;
use crate::readiness::first_closed;
use crate::several::{fire_once, hold_each};
use crate::side::Side;
use crate::stage::Stage;
use crate::transfer::raise_peaks;
use csdf_model::MAX_FIRINGS_PER_ACTOR;
use csdf_pool::Pool;

/// A number of firings that an actor can make one after the other, and how many tokens they read
/// and write in all.
#[derive(Clone, Copy, Debug, PartialEq, Eq)]
pub struct Block {
    /// How many firings.
    pub firings: u32,
    /// How many tokens they read.
    pub needed: u64,
    /// How many tokens they write.
    pub given: u64,
}

/// How many times over so many tokens can be moved where this many can be, of at most so many.
pub(crate) fn times_over(tokens: u64, each: u64, most: u32) -> u32
    ensures most { result ≤ most }
    ensures fits { result * each ≤ tokens }
{
    if each == 0 {
        return most;
    }
    let n = if each == 1 { tokens } else { tokens / each };
    if n < u64::from(most) { n as u32 } else { most }
}

/// Whether the input holds what the firings from number k to k + i take of it, one after another.
fn finds_in(plan: &Plan, pool: &Pool, actor: u32, channel: u32, k: u32, i: u32) -> bool
    requires channel { channel < length plan.now.channels }
    requires same { length pool.now.chains ≡ length plan.now.channels }
    requires few { k + i + 1 ≤ MAX_FIRINGS_PER_ACTOR }
    ensures { IsTrue result → FindsIn plan.now.channels (tokens_in pool.now) actor k i channel }
{
    let needed = plan.taken(channel, k, i + 1);
    let len = u64::from(pool.len(channel));
    if plan.producer(channel) == actor {
        return needed <= len + plan.given(channel, k, i);
    }
    needed <= len
}

/// Whether the output has room for what the firings from number k to k + i give to it, one after another.
fn finds_out(plan: &Plan, pool: &Pool, actor: u32, channel: u32, k: u32, i: u32) -> bool
    requires channel { channel < length plan.now.channels }
    requires same { length pool.now.chains ≡ length plan.now.channels }
    requires few { k + i + 1 ≤ MAX_FIRINGS_PER_ACTOR }
    ensures { IsTrue result → FindsOut plan.now.channels (tokens_in pool.now) actor k i channel }
{
    let filled = u64::from(pool.len(channel)) + plan.given(channel, k, i + 1);
    let capacity = u64::from(plan.capacity(channel));
    if plan.consumer(channel) == actor {
        return filled <= capacity + plan.taken(channel, k, i + 1);
    }
    filled <= capacity
}

/// Whether one cycle of the actor's phases goes through, as far as its channel to itself tells, and leaves
/// as many tokens there as before.
fn goes_round(plan: &Plan, pool: &Pool, actor: u32, channel: u32, k: u32, phases: u32) -> bool
    requires channel { channel < length plan.now.channels }
    requires same { length pool.now.chains ≡ length plan.now.channels }
    requires few { k + phases ≤ MAX_FIRINGS_PER_ACTOR }
    ensures { IsTrue result → GoesRound plan.now.channels (tokens_in pool.now) actor k phases channel }
{
    if plan.given(channel, k, phases) != plan.taken(channel, k, phases) {
        return false;
    }
    for i in 0..phases {
        if !finds_in(plan, pool, actor, channel, k, i) {
            return false;
        }
        if !finds_out(plan, pool, actor, channel, k, i) {
            return false;
        }
    }
    true
}

/// For how many cycles of the actor's phases, of at most so many, the input holds what they take.
#[inline(always)]
fn held_in(
    plan: &Plan,
    pool: &Pool,
    actor: u32,
    channel: u32,
    k: u32,
    phases: u32,
    most: u32,
) -> u32
    requires channel { channel < length plan.now.channels }
    requires same { length pool.now.chains ≡ length plan.now.channels }
    requires few { k + phases ≤ MAX_FIRINGS_PER_ACTOR }
    ensures most { result ≤ most }
    ensures held { IsHeld plan.now.channels (tokens_in pool.now) actor k phases result channel }
{
    if plan.producer(channel) != actor {
        let each = plan.taken(channel, k, phases);
        return times_over(u64::from(pool.len(channel)), each, most);
    }
    if most > 0 && goes_round(plan, pool, actor, channel, k, phases) {
        return most;
    }
    0
}

/// For how many cycles of the actor's phases, of at most so many, the output has room for what they give.
#[inline(always)]
fn room_in(
    plan: &Plan,
    pool: &Pool,
    actor: u32,
    channel: u32,
    k: u32,
    phases: u32,
    most: u32,
) -> u32
    requires channel { channel < length plan.now.channels }
    requires same { length pool.now.chains ≡ length plan.now.channels }
    requires few { k + phases ≤ MAX_FIRINGS_PER_ACTOR }
    ensures most { result ≤ most }
    ensures room { HasRoom plan.now.channels (tokens_in pool.now) actor k phases result channel }
{
    if plan.consumer(channel) == actor {
        return most;
    }
    let room = plan.capacity(channel).saturating_sub(pool.len(channel));
    times_over(u64::from(room), plan.given(channel, k, phases), most)
}

/// For how many cycles of the actor's phases, of at most so many, the channels at this side let them through.
#[inline(always)]
fn let_through(
    plan: &Plan,
    pool: &Pool,
    side: Side,
    actor: u32,
    k: u32,
    phases: u32,
    most: u32,
) -> u32
    requires actor { actor < length plan.now.sources }
    requires same { length pool.now.chains ≡ length plan.now.channels }
    requires few { k + phases ≤ MAX_FIRINGS_PER_ACTOR }
    ensures most { result ≤ most }
    ensures through { (j : ℕ) → j < length (ends_at side plan.now.channels actor)
        → LetsThrough side plan.now.channels (tokens_in pool.now) actor k phases result (slice_index (ends_at side plan.now.channels actor) j) }
{
    let ends = plan.ends(side, actor);
    let mut cycles = most;
    for channel in ends {
        cycles = match side {
            Side::Input => held_in(plan, pool, actor, *channel, k, phases, cycles),
            Side::Output => room_in(plan, pool, actor, *channel, k, phases, cycles),
        };
    }
    cycles
}

/// Whether the channels at this side of the actor have what the firings from number k to k + i need there.
fn ends_find(plan: &Plan, pool: &Pool, side: Side, actor: u32, k: u32, i: u32) -> bool
    requires actor { actor < length plan.now.sources }
    requires same { length pool.now.chains ≡ length plan.now.channels }
    requires few { k + i + 1 ≤ MAX_FIRINGS_PER_ACTOR }
    ensures { IsTrue result → (j : ℕ) → j < length (ends_at side plan.now.channels actor)
        → Finds side plan.now.channels (tokens_in pool.now) actor k i (slice_index (ends_at side plan.now.channels actor) j) }
{
    let ends = plan.ends(side, actor);
    for channel in ends {
        let finds = match side {
            Side::Input => finds_in(plan, pool, actor, *channel, k, i),
            Side::Output => finds_out(plan, pool, actor, *channel, k, i),
        };
        if !finds {
            return false;
        }
    }
    true
}

impl Core {
    ghost use Rattle.csdf_core.specs.declared.stage.Stage.TheVariants.{Idle};
    ghost use Rattle.csdf_core.specs.Engine.{CanFire};
    ghost use Rattle.csdf_core.specs.Blocks.{needs_of, gifts_of};
    ghost use Rattle.csdf_core.specs.Step.{count, given, is_source, begun_count, held, reserved, refusal, stage};
    ghost use Rattle.csdf_core.specs.Rows.{need, is_closed, first};
    ghost use Rattle.csdf_core.specs.Moves.{Begin};
    ghost use Rattle.csdf_core.specs.Blocks.{firings_of, AreAccepted, answers_to, takes_at, AreRead, AreReadEach, HasNoLoop};
    ghost use Rattle.csdf_core.specs.Engine.{AreReadWith};
    ghost use Rattle.csdf_core.specs.Engine.{FindsNext, HasFired, reads_of, there_of};
    ghost use Rattle.csdf_core.specs.Shows.{Plays};
    ghost use Rattle.csdf_core.specs.Rows.{gift};
    ghost use Rattle.csdf_core.specs.Blocks.{GivesBack};

    /// How many firings, of at most so many, keep within the limits on the actor's own and on all.
    fn within_limits(&self, actor: u32, most: u32) -> u32
        requires { actor < length self.now.plan.sources }
        ensures most { result ≤ most }
        ensures limit { count self.now.now actor + result ≤ slice_index self.now.plan.limits actor }
        ensures few { count self.now.now actor + result ≤ MAX_FIRINGS_PER_ACTOR }
        ensures firings { 0 < result → IfSome self.now.plan.firings (λ all. begun_count self.now.now + result ≤ all) }
    {
        let left = self.plan.limit(actor).saturating_sub(self.fired(actor));
        let n = most.min(left);
        match self.plan.firings() {
            Some(firings) => times_over(u64::from(firings).saturating_sub(self.started), 1, n),
            None => n,
        }
    }

    /// How many times over the source's file has so many tokens, where the actor is one.
    fn supplied_over(&self, actor: u32, each: u64, most: u32) -> u32
        requires { actor < length self.now.plan.sources }
        ensures most { result ≤ most }
        ensures supply { 0 < result → is_source self.now.plan actor ≡ true
            → given self.now.plan actor (count self.now.now actor) + result * each ≤ slice_index self.now.plan.supplies actor }
    {
        if !self.plan.is_source(actor) {
            return most;
        }
        let supply = u64::from(self.plan.supply(actor));
        let written = self.written(actor);
        if supply < written {
            return 0;
        }
        times_over(supply - written, each, most)
    }

    /// How many times over so many cells are neither held nor reserved.
    fn cells_over(&self, each: u64, most: u32) -> u32
        ensures most { result ≤ most }
        ensures cells { held self.now.now + reserved self.now.plan self.now.now + result * each ≤ self.now.plan.cells }
    {
        let free = u64::from(self.plan.cells()).saturating_sub(self.used());
        times_over(free, each, most)
    }

    /// Whether the actor is idle, and none of its outputs is closed.
    fn is_ready(&self, actor: u32) -> bool
        requires { actor < length self.now.plan.sources }
        ensures idle { IsTrue result → stage self.now.now actor ≡ Idle }
        ensures opens { IsTrue result → first (is_closed actor) self.now.plan.channels self.now.now.opens ≡ None }
    {
        if !is_at(self.stage(actor), Stage::Idle) {
            return false;
        }
        if first_closed(&self.plan, &self.opens, actor).is_some() {
            return false;
        }
        true
    }

    /// How many cycles of its phases the actor can make, of at most so many firings: 0 says no more than
    /// that its channels, the limits, its file and the cells do not give a whole one at once.
    fn cycles(&self, actor: u32, phases: u32, most: u32) -> u32
        requires actor { actor < length self.now.plan.sources }
        requires phases { HasPhases self.now.plan.channels actor phases }
        requires some { 1 ≤ phases }
        ensures most { result * phases ≤ most }
        ensures few { count self.now.now actor + result * phases ≤ MAX_FIRINGS_PER_ACTOR }
        ensures can { CanFire self.now.plan self.now.now actor (result * phases) }
    {
        let k = self.fired(actor);
        if !self.is_ready(actor) {
            return 0;
        }
        let limited = self.within_limits(actor, most);
        let whole = if phases == 1 {
            limited
        } else {
            limited / phases
        };
        if whole == 0 {
            return 0;
        }
        self.plan.gives_few();
        let held = let_through(&self.plan, &self.pool, Side::Input, actor, k, phases, whole);
        if held == 0 {
            return 0;
        }
        let roomy = let_through(&self.plan, &self.pool, Side::Output, actor, k, phases, held);
        let given = self.given_ahead(actor, phases);
        let supplied = self.supplied_over(actor, given, roomy);
        let need = self.need(actor) as u64;
        let more = if phases == 1 {
            given.saturating_sub(need)
        } else {
            given
        };
        self.cells_over(more, supplied)
    }

    /// Whether the actor's firing that comes i firings after the next one finds what it needs, where those
    /// before it were made.
    fn finds(&self, actor: u32, i: u32) -> bool
        requires actor { actor < length self.now.plan.sources }
        requires few { count self.now.now actor + i + 1 ≤ MAX_FIRINGS_PER_ACTOR }
        ensures { IsTrue result → FindsNext self.now.plan self.now.now actor i }
    {
        let k = self.fired(actor);
        if !ends_find(&self.plan, &self.pool, Side::Input, actor, k, i) {
            return false;
        }
        if !ends_find(&self.plan, &self.pool, Side::Output, actor, k, i) {
            return false;
        }
        let given = self.given_ahead(actor, i + 1);
        let needed = self.needed_ahead(actor, i + 1);
        if self.used() + given.saturating_sub(needed) > u64::from(self.plan.cells()) {
            return false;
        }
        !self.plan.is_source(actor)
            || self.written(actor) + given <= u64::from(self.plan.supply(actor))
    }

    /// How many firings of one cycle of its phases the actor can make, of at most so many: they are looked at
    /// one after another.
    fn walked(&self, actor: u32, phases: u32, most: u32) -> u32
        requires actor { actor < length self.now.plan.sources }
        requires phases { HasPhases self.now.plan.channels actor phases }
        ensures most { result ≤ most }
        ensures few { count self.now.now actor + result ≤ MAX_FIRINGS_PER_ACTOR }
        ensures can { CanFire self.now.plan self.now.now actor result }
    {
        self.plan.gives_few();
        if !self.is_ready(actor) {
            return 0;
        }
        let limited = self.within_limits(actor, most.min(phases));
        let mut n = 0;
        while n < limited && self.finds(actor, n) {
            n += 1;
        }
        n
    }

    /// The block of n firings.
    #[inline(always)]
    fn block_of(&self, actor: u32, n: u32) -> Block
        requires actor { actor < length self.now.plan.sources }
        requires few { count self.now.now actor + n ≤ MAX_FIRINGS_PER_ACTOR }
        ensures firings { result.firings ≡ n }
        ensures needed { result.needed ≡ needs_of self.now.plan.channels actor (count self.now.now actor) n }
        ensures given { result.given ≡ gifts_of self.now.plan.channels actor (count self.now.now actor) n }
    {
        Block {
            firings: n,
            needed: self.needed_ahead(actor, n),
            given: self.given_ahead(actor, n),
        }
    }

    /// Where the actor's begin is accepted, it can make a firing. The call does nothing.
    fn fires_one(&self, actor: u32)
        ensures can { refusal self.now.plan self.now.now (Begin actor) ≡ None → CanFire self.now.plan self.now.now actor 1 }
        ensures few { refusal self.now.plan self.now.now (Begin actor) ≡ None
            → count self.now.now actor + 1 ≤ MAX_FIRINGS_PER_ACTOR }
    {
        self.plan.gives_few();
    }

    /// Laws: an actor that can make some firings begins the first of them, and can make fewer. The call
    /// does nothing.
    pub fn begins(&self, actor: u32)
        ensures fires { (n : ℕ) → 0 < n → CanFire self.now.plan self.now.now actor n → refusal self.now.plan self.now.now (Begin actor) ≡ None }
        ensures fewer { (m n : ℕ) → m ≤ n → CanFire self.now.plan self.now.now actor n → CanFire self.now.plan self.now.now actor m }
    {
        let _plan = &self.plan;
    }

    /// How many of its next firings, at most so many, the actor can make one after the other: at least one
    /// where it can make one.
    #[inline(always)]
    fn firings_ahead(&self, actor: u32, most: u32) -> u32
        requires actor { actor < length self.now.plan.sources }
        ensures most { result ≤ most }
        ensures few { count self.now.now actor + result ≤ MAX_FIRINGS_PER_ACTOR }
        ensures can { CanFire self.now.plan self.now.now actor result }
        ensures some { 1 ≤ most → refusal self.now.plan self.now.now (Begin actor) ≡ None → 1 ≤ result }
    {
        let phases = self.plan.phases(actor);
        let cycles = self.cycles(actor, phases, most);
        if cycles >= 1 {
            return cycles * phases;
        }
        if phases > 1 {
            let walked = self.walked(actor, phases, most);
            if walked >= 1 {
                return walked;
            }
        }
        self.fires_one(actor);
        if most >= 1 && self.can_begin(actor).is_ok() {
            return 1;
        }
        0
    }

    /// How many of its next firings, at most so many, the actor can make one after the other: at least one
    /// where it can make one.
    pub fn ahead(&self, actor: u32, most: u32) -> Block
        requires actor { actor < length self.now.plan.sources }
        ensures most { result.firings ≤ most }
        ensures can { CanFire self.now.plan self.now.now actor result.firings }
        ensures some { 1 ≤ most → refusal self.now.plan self.now.now (Begin actor) ≡ None → 1 ≤ result.firings }
        ensures needed { result.needed ≡ needs_of self.now.plan.channels actor (count self.now.now actor) result.firings }
        ensures given { result.given ≡ gifts_of self.now.plan.channels actor (count self.now.now actor) result.firings }
    {
        let n = self.firings_ahead(actor, most);
        if n == 0 {
            return Block {
                firings: 0,
                needed: 0,
                given: 0,
            };
        }
        self.block_of(actor, n)
    }

    /// Makes the actor's next firing, which writes these tokens: its four moves.
    fn fire_next(&mut self, actor: u32, tokens: &[i32])
        requires begins { refusal self.old.plan self.old.now (Begin actor) ≡ None }
        requires all { length tokens.now ≡ gift actor (count self.old.now actor) self.old.plan.channels }
        ensures { HasFired self.old self.new actor tokens.now }
    {
        let turn = self.turn(actor);
        self.plan.gives_few();
        let plan = &self.plan;
        fire_once(plan, &mut self.pool, &mut self.peaks, actor, turn, tokens);
        self.started += 1;
        self.sums[actor as usize] += tokens.len() as u64;
        self.nexts.advance(&self.plan, actor, 1);
    }

    /// Makes the actor's next n firings one after the other.
    fn fire_each(&mut self, actor: u32, n: u32, tokens: &[i32])
        requires accepted { AreAccepted self.old.plan self.old.now
            (firings_of self.old.plan.channels actor (count self.old.now actor) n tokens.now) }
        requires all { length tokens.now ≡ gifts_of self.old.plan.channels actor (count self.old.now actor) n }
        ensures plays { Plays self.old self.new (firings_of self.old.plan.channels actor (count self.old.now actor) n tokens.now)
            (answers_to self.old.plan self.old.now (firings_of self.old.plan.channels actor (count self.old.now actor) n tokens.now)) }
    {
        let mut rest = tokens;
        let mut left = n;
        while left > 0 {
            let given = self.gives(actor);
            self.fire_next(actor, &rest[..given]);
            rest = &rest[given..];
            left -= 1;
        }
    }

    /// Makes the actor's next n firings, of which none takes more of a channel to itself than it gives back: the
    /// tokens move channel by channel.
    fn fire_at_once(&mut self, actor: u32, n: u32, tokens: &[i32])
        requires actor { actor < length self.old.plan.sources }
        requires some { 0 < n }
        requires few { count self.old.now actor + n ≤ MAX_FIRINGS_PER_ACTOR }
        requires back { GivesBack self.old.plan.channels actor }
        requires accepted { AreAccepted self.old.plan self.old.now
            (firings_of self.old.plan.channels actor (count self.old.now actor) n tokens.now) }
        requires all { length tokens.now ≡ gifts_of self.old.plan.channels actor (count self.old.now actor) n }
        ensures plays { Plays self.old self.new (firings_of self.old.plan.channels actor (count self.old.now actor) n tokens.now)
            (answers_to self.old.plan self.old.now (firings_of self.old.plan.channels actor (count self.old.now actor) n tokens.now)) }
    {
        let turn = self.turn(actor);
        self.plan.gives_few();
        let plan = &self.plan;
        move_block(plan, &mut self.pool, actor, turn, n, tokens);
        raise_peaks(plan, &self.pool, &mut self.peaks, actor);
        self.started += u64::from(n);
        self.sums[actor as usize] += tokens.len() as u64;
        self.nexts.advance(&self.plan, actor, n);
    }

    /// Makes the actor's next n firings, which write these tokens, one firing's after another's: their 4n
    /// moves, in order.
    pub fn fire(&mut self, actor: u32, n: u32, tokens: &[i32])
        requires can { CanFire self.old.plan self.old.now actor n }
        requires all { length tokens.now ≡ gifts_of self.old.plan.channels actor (count self.old.now actor) n }
        ensures accepted { AreAccepted self.old.plan self.old.now
            (firings_of self.old.plan.channels actor (count self.old.now actor) n tokens.now) }
        ensures plays { Plays self.old self.new (firings_of self.old.plan.channels actor (count self.old.now actor) n tokens.now)
            (answers_to self.old.plan self.old.now (firings_of self.old.plan.channels actor (count self.old.now actor) n tokens.now)) }
        ensures rest { n ≡ 1 → (m : ℕ) → CanFire self.old.plan self.old.now actor (m + 1) → CanFire self.new.plan self.new.now actor m }
    {
        if n == 1 {
            self.fire_next(actor, tokens);
            return;
        }
        if n > 0 {
            let _limit = self.plan.limit(actor);
            self.plan.gives_few();
            if self.plan.gives_back(actor) {
                self.fire_at_once(actor, n, tokens);
                return;
            }
        }
        self.fire_each(actor, n, tokens);
    }

    /// Whether the inputs hold all that the actor's next n firings read, so that none of them reads what
    /// another of them writes. It is so where no channel goes from the actor to itself.
    pub fn holds(&self, actor: u32, n: u32) -> bool
        requires actor { actor < length self.now.plan.sources }
        requires can { CanFire self.now.plan self.now.now actor n }
        ensures holds { IsTrue result ↔ HoldAll self.now.now.tokens (takes_at self.now.plan.channels (count self.now.now actor) n)
            (inputs_at self.now.plan.channels actor) }
        ensures apart { HasNoLoop self.now.plan.channels actor → IsTrue result }
        ensures one { n ≤ 1 → IsTrue result }
    {
        self.plan.gives_few();
        let _limit = self.plan.limit(actor);
        if n <= 1 {
            return true;
        }
        hold_each(&self.plan, &self.pool, actor, self.turn(actor), n)
    }

    /// A law: n firings that the actor can make keep within the limits on its firings and, of a source, on
    /// its tokens. The call does nothing.
    pub fn keeps_within(&self, actor: u32, n: u32)
        requires actor { actor < length self.now.plan.sources }
        requires can { CanFire self.now.plan self.now.now actor n }
        ensures few { count self.now.now actor + n ≤ MAX_FIRINGS_PER_ACTOR }
        ensures supply { 0 < n → is_source self.now.plan actor ≡ true
            → given self.now.plan actor (count self.now.now actor + n) ≤ slice_index self.now.plan.supplies actor }
    {
        self.plan.gives_few();
        let _limit = self.plan.limit(actor);
    }

    /// Laws: what the actor's next n firings read, for all that they write; and each of them finds it. The call does
    /// nothing.
    pub fn reads(&self, actor: u32, n: u32)
        ensures read { CanFire self.now.plan self.now.now actor n
            → (v : List ℤ) → length v ≡ gifts_of self.now.plan.channels actor (count self.now.now actor) n
            → AreReadWith self.now.plan self.now.now actor (count self.now.now actor) n v
            (reads_of self.now.plan.channels actor (count self.now.now actor) n self.now.now.tokens v) }
        ensures found { CanFire self.now.plan self.now.now actor n → (i : ℕ) → i < n
            → AllByRecursion (FindsIn self.now.plan.channels self.now.now.tokens actor (count self.now.now actor) i) (inputs_at self.now.plan.channels actor) }
    {
        self.plan.gives_few();
    }

    /// Copies what the actor's next n firings read, one firing's after another's, and changes nothing. 0
    /// stands for each token of a channel from the actor to itself that one of them is still to write.
    pub fn peek(&self, actor: u32, n: u32, into: &mut [i32])
        requires actor { actor < length self.now.plan.sources }
        requires can { CanFire self.now.plan self.now.now actor n }
        requires all { length into.old ≡ needs_of self.now.plan.channels actor (count self.now.now actor) n }
        ensures there { into.new ≡ there_of self.now.plan.channels actor (count self.now.now actor) n self.now.now.tokens }
        ensures all { HoldAll self.now.now.tokens (takes_at self.now.plan.channels (count self.now.now actor) n) (inputs_at self.now.plan.channels actor)
            → AreRead self.now.plan self.now.now actor (count self.now.now actor) n into.new }
        ensures each { HoldAll self.now.now.tokens (takes_at self.now.plan.channels (count self.now.now actor) n) (inputs_at self.now.plan.channels actor)
            → AreReadEach self.now.plan self.now.now actor (count self.now.now actor) n into.new }
    {
        self.plan.gives_few();
        let turn = self.turn(actor);
        let _limit = self.plan.limit(actor);
        copy_reads(&self.plan, &self.pool, actor, turn, n, into);
    }
}
