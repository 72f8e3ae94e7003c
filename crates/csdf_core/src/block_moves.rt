//! The tokens of several firings of an actor, moved channel by channel.
//!
//! What all of them take of an input goes at once, and what they give to an output comes firing after firing, or, to
//! an only output, in one piece. In a channel to the actor itself later firings take what earlier ones gave: what they
//! take of it beyond what it held is never put.

ghost use Rattle.std.specs.Prelude.{◌≡◌, ◌+◌, ◌-◌, ◌*◌, ◌<◌, ◌≤◌, ◌++◌, length, take, drop, slice_set, sum_by};
ghost use Rattle.csdf_core.specs.Blocks.{gifts_of, gives_at, GivesBack};
ghost use Rattle.csdf_core.specs.Engine.{gives_to};
ghost use Rattle.csdf_core.specs.Passing.{takes_apart, takes_back, passed, changed, after_block, IsShare};
ghost use Rattle.csdf_core.specs.Phases.{HasPhases, IsInPhase};
ghost use Rattle.csdf_core.specs.Plan.{from_at};
ghost use Rattle.csdf_core.specs.Ports.{inputs_at, outputs_at, tokens_at, tokens_in, takes_over, EnoughOver};
ghost use Rattle.csdf_core.specs.Rows.{gift};
ghost use Rattle.csdf_pool.specs.Pool.{IsPartition};

use crate::engine::times_over;
use crate::feedback::given_before;
use crate::plan::Plan;
use crate::several::drop_tokens;
use crate::side::Side;
use crate::transfer::put_tokens;
use crate::turn::{Turn, turn_after, turn_ahead};
use csdf_model::{MAX_FIRINGS_PER_ACTOR, MAX_PHASES, MAX_TOTAL_PER_FIRING};
use csdf_pool::Pool;

/// How many tokens n firings take of the input: none, where the actor itself fills it.
fn taken_apart(plan: &Plan, actor: u32, channel: u32, k: u32, n: u32) -> u64
    requires channel { channel < length plan.now.channels }
    requires few { k + n ≤ MAX_FIRINGS_PER_ACTOR }
    ensures { result ≡ takes_apart plan.now.channels actor k n channel }
{
    if plan.producer(channel) == actor {
        return 0;
    }
    plan.taken(channel, k, n)
}

/// How many tokens n firings take of the output: none, where it goes to another actor.
fn taken_back(plan: &Plan, actor: u32, channel: u32, k: u32, n: u32) -> u64
    requires channel { channel < length plan.now.channels }
    requires few { k + n ≤ MAX_FIRINGS_PER_ACTOR }
    ensures { result ≡ takes_back plan.now.channels actor k n channel }
{
    if plan.consumer(channel) == actor {
        return plan.taken(channel, k, n);
    }
    0
}

/// Takes so many of the oldest tokens of a channel, which are there, out and drops them.
fn drop_many(pool: &mut Pool, channel: u32, n: u64)
    requires channel { channel < length pool.old.chains }
    requires enough { n ≤ length (tokens_at (tokens_in pool.old) channel) }
    ensures left { tokens_in pool.new ≡ slice_set (tokens_in pool.old) channel (drop n (tokens_at (tokens_in pool.old) channel)) }
    ensures free { length pool.new.free ≡ length pool.old.free + n }
    ensures partition { IsPartition pool.new }
    ensures size { pool.new.size ≡ pool.old.size }
    ensures same { length pool.new.chains ≡ length pool.old.chains }
{
    prove!(n <= u64::from(pool.len(channel)));
    drop_tokens(pool, channel, n as u32);
}

/// Drops what n firings take of the inputs that other actors fill.
fn drop_apart(plan: &Plan, pool: &mut Pool, actor: u32, k: u32, n: u32)
    requires actor { actor < length plan.now.sources }
    requires same { length pool.old.chains ≡ length plan.now.channels }
    requires few { k + n ≤ MAX_FIRINGS_PER_ACTOR }
    requires enough { EnoughOver (takes_apart plan.now.channels actor k n) (inputs_at plan.now.channels actor) (tokens_in pool.old) }
    requires partition { IsPartition pool.old }
    ensures left { tokens_in pool.new ≡ takes_over (takes_apart plan.now.channels actor k n) (inputs_at plan.now.channels actor) (tokens_in pool.old) }
    ensures partition { IsPartition pool.new }
    ensures size { pool.new.size ≡ pool.old.size }
    ensures same { length pool.new.chains ≡ length pool.old.chains }
{
    let inputs = plan.inputs(actor);
    for channel in inputs {
        let taken = taken_apart(plan, actor, *channel, k, n);
        drop_many(pool, *channel, taken);
    }
}

/// Where a firing's writes have the tokens of one output: how many it writes in all, how many of them stand before
/// these, and how many these are.
#[derive(Clone, Copy)]
pub(crate) struct Share {
    pub(crate) all: usize,
    pub(crate) from: usize,
    pub(crate) own: usize,
}

/// Where the firing's writes have the tokens of the output.
#[inline(always)]
pub(crate) fn share_of(plan: &Plan, actor: u32, channel: u32, turn: Turn) -> Share
    requires actor { actor < length plan.now.sources }
    requires channel { channel < length plan.now.channels }
    requires own { from_at plan.now.channels channel ≡ actor }
    requires in_phase { IsInPhase plan.now.channels actor turn.firing turn.phase }
    ensures share { IsShare plan.now.channels actor channel turn.firing result.all result.from result.own }
    ensures small { result.all ≤ MAX_TOTAL_PER_FIRING }
{
    Share {
        all: plan.moved(Side::Output, actor, turn),
        from: given_before(plan, actor, channel, turn) as usize,
        own: plan.gives(channel, turn) as usize,
    }
}

/// The actor's firing after this one, and where it has the tokens of the output: with one phase where this one has them.
#[inline(always)]
fn share_after(
    plan: &Plan,
    actor: u32,
    channel: u32,
    phases: u32,
    turn: Turn,
    share: Share,
) -> (Turn, Share)
    requires actor { actor < length plan.now.sources }
    requires channel { channel < length plan.now.channels }
    requires own { from_at plan.now.channels channel ≡ actor }
    requires phases { HasPhases plan.now.channels actor phases }
    requires in_phase { IsInPhase plan.now.channels actor turn.firing turn.phase }
    requires low { turn.phase < MAX_PHASES }
    requires few { turn.firing < MAX_FIRINGS_PER_ACTOR }
    requires share { IsShare plan.now.channels actor channel turn.firing share.all share.from share.own }
    requires small { share.all ≤ MAX_TOTAL_PER_FIRING }
    ensures firing { result.0.firing ≡ turn.firing + 1 }
    ensures in_phase { IsInPhase plan.now.channels actor (turn.firing + 1) result.0.phase }
    ensures low { result.0.phase < MAX_PHASES }
    ensures share { IsShare plan.now.channels actor channel (turn.firing + 1) result.1.all result.1.from result.1.own }
    ensures small { result.1.all ≤ MAX_TOTAL_PER_FIRING }
{
    if phases == 1 {
        let next = Turn {
            firing: turn.firing + 1,
            phase: 0,
        };
        return (next, share);
    }
    let next = turn_after(plan, actor, turn);
    (next, share_of(plan, actor, channel, next))
}

/// Puts the share of one firing, of all that it writes, without its first few tokens.
#[inline(always)]
fn put_share(pool: &mut Pool, channel: u32, share: Share, few: usize, written: &[i32])
    requires channel { channel < length pool.old.chains }
    requires all { length written.now ≡ share.all }
    requires fits { share.from + share.own ≤ share.all }
    requires few { few ≤ share.own }
    requires room { share.own ≤ length pool.old.free + few }
    requires partition { IsPartition pool.old }
    ensures put { tokens_in pool.new ≡ slice_set (tokens_in pool.old) channel
        (tokens_at (tokens_in pool.old) channel ++ drop few (take share.own (drop share.from written.now))) }
    ensures free { length pool.new.free + share.own ≡ length pool.old.free + few }
    ensures partition { IsPartition pool.new }
    ensures size { pool.new.size ≡ pool.old.size }
    ensures same { length pool.new.chains ≡ length pool.old.chains }
{
    put_tokens(
        pool,
        channel,
        &written[share.from + few..share.from + share.own],
    );
}

/// Puts what n firings give to the output, one firing's share after another's, without the first few tokens of all.
fn put_shares(
    plan: &Plan,
    pool: &mut Pool,
    actor: u32,
    channel: u32,
    turn: Turn,
    n: u32,
    few: usize,
    tokens: &[i32],
)
    requires actor { actor < length plan.now.sources }
    requires channel { channel < length plan.now.channels }
    requires own { from_at plan.now.channels channel ≡ actor }
    requires same { length pool.old.chains ≡ length plan.now.channels }
    requires in_phase { IsInPhase plan.now.channels actor turn.firing turn.phase }
    requires low { turn.phase < MAX_PHASES }
    requires count { turn.firing + n ≤ MAX_FIRINGS_PER_ACTOR }
    requires all { length tokens.now ≡ gifts_of plan.now.channels actor turn.firing n }
    requires room { gives_at plan.now.channels turn.firing n channel ≤ length pool.old.free + few }
    requires partition { IsPartition pool.old }
    ensures put { tokens_in pool.new ≡ slice_set (tokens_in pool.old) channel
        (tokens_at (tokens_in pool.old) channel ++ drop few (gives_to plan.now.channels actor channel turn.firing n tokens.now)) }
    ensures partition { IsPartition pool.new }
    ensures size { pool.new.size ≡ pool.old.size }
    ensures same { length pool.new.chains ≡ length pool.old.chains }
{
    let phases = plan.phases(actor);
    let mut next = turn;
    let mut share = share_of(plan, actor, channel, turn);
    let mut left_out = few;
    let mut at = 0;
    for _firing in 0..n {
        let end = at + share.all;
        let none = left_out.min(share.own);
        put_share(pool, channel, share, none, &tokens[at..end]);
        left_out -= none;
        (next, share) = share_after(plan, actor, channel, phases, next, share);
        at = end;
    }
}

/// How many of n firings give no more than so many tokens to the output, one after another, where that is told without
/// going through them: with one phase.
fn firings_within(plan: &Plan, actor: u32, channel: u32, turn: Turn, n: u32, most: u64) -> u32
    requires actor { actor < length plan.now.sources }
    requires channel { channel < length plan.now.channels }
    requires own { from_at plan.now.channels channel ≡ actor }
    requires in_phase { IsInPhase plan.now.channels actor turn.firing turn.phase }
    ensures fewer { result ≤ n }
    ensures within { gives_at plan.now.channels turn.firing result channel ≤ most }
    ensures written { gifts_of plan.now.channels actor turn.firing result ≡ result * gift actor turn.firing plan.now.channels }
{
    if most == 0 || plan.phases(actor) != 1 {
        return 0;
    }
    times_over(most, u64::from(plan.gives(channel, turn)), n)
}

/// Puts what n firings give to the output, without the first few tokens of it.
fn put_given(
    plan: &Plan,
    pool: &mut Pool,
    actor: u32,
    channel: u32,
    turn: Turn,
    n: u32,
    few: u64,
    tokens: &[i32],
)
    requires actor { actor < length plan.now.sources }
    requires channel { channel < length plan.now.channels }
    requires own { from_at plan.now.channels channel ≡ actor }
    requires same { length pool.old.chains ≡ length plan.now.channels }
    requires in_phase { IsInPhase plan.now.channels actor turn.firing turn.phase }
    requires low { turn.phase < MAX_PHASES }
    requires count { turn.firing + n ≤ MAX_FIRINGS_PER_ACTOR }
    requires all { length tokens.now ≡ gifts_of plan.now.channels actor turn.firing n }
    requires few { few ≤ gives_at plan.now.channels turn.firing n channel }
    requires room { gives_at plan.now.channels turn.firing n channel ≤ length pool.old.free + few }
    requires partition { IsPartition pool.old }
    ensures put { tokens_in pool.new ≡ slice_set (tokens_in pool.old) channel
        (tokens_at (tokens_in pool.old) channel ++ drop few (gives_to plan.now.channels actor channel turn.firing n tokens.now)) }
    ensures partition { IsPartition pool.new }
    ensures size { pool.new.size ≡ pool.old.size }
    ensures same { length pool.new.chains ≡ length pool.old.chains }
{
    if plan.outputs(actor).len() == 1 {
        put_tokens(pool, channel, &tokens[few as usize..]);
        return;
    }
    let whole = firings_within(plan, actor, channel, turn, n, few);
    let first = turn_ahead(plan, actor, turn, whole);
    let rest = few - plan.given(channel, turn.firing, whole);
    let at = whole as usize * plan.moved(Side::Output, actor, turn);
    put_shares(
        plan,
        pool,
        actor,
        channel,
        first,
        n - whole,
        rest as usize,
        &tokens[at..],
    );
}

/// Moves the tokens of n firings in the output: what they take of it goes, and what they give to it comes.
fn pass_output(
    plan: &Plan,
    pool: &mut Pool,
    actor: u32,
    channel: u32,
    turn: Turn,
    n: u32,
    tokens: &[i32],
)
    requires actor { actor < length plan.now.sources }
    requires channel { channel < length plan.now.channels }
    requires own { from_at plan.now.channels channel ≡ actor }
    requires same { length pool.old.chains ≡ length plan.now.channels }
    requires in_phase { IsInPhase plan.now.channels actor turn.firing turn.phase }
    requires low { turn.phase < MAX_PHASES }
    requires count { turn.firing + n ≤ MAX_FIRINGS_PER_ACTOR }
    requires all { length tokens.now ≡ gifts_of plan.now.channels actor turn.firing n }
    requires back { takes_back plan.now.channels actor turn.firing n channel ≤ gives_at plan.now.channels turn.firing n channel }
    requires room { gives_at plan.now.channels turn.firing n channel ≤ length pool.old.free + takes_back plan.now.channels actor turn.firing n channel }
    requires partition { IsPartition pool.old }
    ensures put { tokens_in pool.new ≡ slice_set (tokens_in pool.old) channel
        (passed plan.now.channels actor turn.firing n tokens.now channel (tokens_at (tokens_in pool.old) channel)) }
    ensures partition { IsPartition pool.new }
    ensures size { pool.new.size ≡ pool.old.size }
    ensures same { length pool.new.chains ≡ length pool.old.chains }
{
    let taken = taken_back(plan, actor, channel, turn.firing, n);
    let gone = taken.min(u64::from(pool.len(channel)));
    drop_many(pool, channel, gone);
    put_given(plan, pool, actor, channel, turn, n, taken - gone, tokens);
}

/// Moves the tokens of n firings in the outputs.
fn pass_outputs(plan: &Plan, pool: &mut Pool, actor: u32, turn: Turn, n: u32, tokens: &[i32])
    requires actor { actor < length plan.now.sources }
    requires same { length pool.old.chains ≡ length plan.now.channels }
    requires in_phase { IsInPhase plan.now.channels actor turn.firing turn.phase }
    requires low { turn.phase < MAX_PHASES }
    requires count { turn.firing + n ≤ MAX_FIRINGS_PER_ACTOR }
    requires all { length tokens.now ≡ gifts_of plan.now.channels actor turn.firing n }
    requires back { GivesBack plan.now.channels actor }
    requires room { sum_by length (changed (passed plan.now.channels actor turn.firing n tokens.now) (outputs_at plan.now.channels actor) (tokens_in pool.old))
        ≤ pool.old.size }
    requires partition { IsPartition pool.old }
    ensures put { tokens_in pool.new
        ≡ changed (passed plan.now.channels actor turn.firing n tokens.now) (outputs_at plan.now.channels actor) (tokens_in pool.old) }
    ensures partition { IsPartition pool.new }
    ensures size { pool.new.size ≡ pool.old.size }
    ensures same { length pool.new.chains ≡ length pool.old.chains }
{
    let outputs = plan.outputs(actor);
    for channel in outputs {
        pass_output(plan, pool, actor, *channel, turn, n, tokens);
    }
}

/// Moves the tokens of n firings that write these: out of the inputs, and into the outputs.
pub(crate) fn move_block(
    plan: &Plan,
    pool: &mut Pool,
    actor: u32,
    turn: Turn,
    n: u32,
    tokens: &[i32],
)
    requires actor { actor < length plan.now.sources }
    requires same { length pool.old.chains ≡ length plan.now.channels }
    requires in_phase { IsInPhase plan.now.channels actor turn.firing turn.phase }
    requires low { turn.phase < MAX_PHASES }
    requires count { turn.firing + n ≤ MAX_FIRINGS_PER_ACTOR }
    requires all { length tokens.now ≡ gifts_of plan.now.channels actor turn.firing n }
    requires enough { EnoughOver (takes_apart plan.now.channels actor turn.firing n) (inputs_at plan.now.channels actor) (tokens_in pool.old) }
    requires back { GivesBack plan.now.channels actor }
    requires room { sum_by length (after_block plan.now.channels actor turn.firing n tokens.now (tokens_in pool.old)) ≤ pool.old.size }
    requires partition { IsPartition pool.old }
    ensures moved { tokens_in pool.new ≡ after_block plan.now.channels actor turn.firing n tokens.now (tokens_in pool.old) }
    ensures partition { IsPartition pool.new }
    ensures size { pool.new.size ≡ pool.old.size }
    ensures same { length pool.new.chains ≡ length pool.old.chains }
{
    drop_apart(plan, pool, actor, turn.firing, n);
    pass_outputs(plan, pool, actor, turn, n, tokens);
}
