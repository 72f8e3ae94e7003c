//! What the firings of an actor with several inputs read, put together from its channels.

ghost use Rattle.std.specs.Prelude.{ℕ, ◌≡◌, ◌+◌, ◌*◌, ◌<◌, ◌≤◌, All, length, take, drop, pos, slice_index, slice_index_or, sum_by};
ghost use Rattle.csdf_core.specs.Blocks.{needs_of, takes_at, put_from, laid, from_front, fronts, HasNoLoop, HoldAll, IsSlot};
ghost use Rattle.csdf_core.specs.Engine.{filled, there_of};
ghost use Rattle.csdf_core.specs.Phases.{IsInPhase};
ghost use Rattle.csdf_core.specs.Plan.{to_at};
ghost use Rattle.csdf_core.specs.Ports.{inputs_at, take_at, tokens_at, tokens_in};
ghost use Rattle.csdf_core.specs.Rows.{need};

use crate::plan::Plan;
use crate::side::Side;
use crate::turn::{Turn, turn_after};
use csdf_model::{MAX_CHANNELS, MAX_FIRINGS_PER_ACTOR, MAX_PHASES, MAX_TOTAL_PER_FIRING};
use csdf_pool::{Pool, Tokens};

/// How many tokens the firing takes of these inputs.
fn taken_before(plan: &Plan, actor: u32, numbers: &[u32], turn: Turn) -> usize
    requires actor { actor < length plan.now.sources }
    requires own { All (λ c. to_at plan.now.channels c ≡ actor) numbers.now }
    requires within { All (λ c. c < length plan.now.channels) numbers.now }
    requires few { length numbers.now ≤ MAX_CHANNELS }
    requires in_phase { IsInPhase plan.now.channels actor turn.firing turn.phase }
    ensures { result ≡ sum_by (take_at plan.now.channels turn.firing) numbers.now }
{
    let mut sum = 0;
    for channel in numbers {
        sum += plan.takes(*channel, turn) as usize;
    }
    sum
}

/// The next token, and 0 where there is none.
#[inline(always)]
fn next_of(tokens: &mut Tokens<'_>) -> i32
    ensures token { result ≡ slice_index_or tokens.old 0 (pos 0) }
    ensures left { tokens.new ≡ drop 1 tokens.old }
{
    match tokens.next() {
        Some(token) => token,
        None => 0,
    }
}

/// Fills the slice with the next tokens, and with 0 where there are no more.
#[inline(always)]
fn fill_next(tokens: &mut Tokens<'_>, into: &mut [i32])
    ensures filled { into.new ≡ filled (length into.old) tokens.old }
    ensures left { tokens.new ≡ drop (length into.old) tokens.old }
{
    for place in 0..into.len() {
        into[place] = next_of(tokens);
    }
}

/// Puts the next n tokens into the slice, from a place on.
#[inline(always)]
fn put_next(tokens: &mut Tokens<'_>, into: &mut [i32], place: usize, n: usize)
    requires fits { place + n ≤ length into.old }
    ensures put { into.new ≡ put_from place n (filled n tokens.old) into.old }
    ensures left { tokens.new ≡ drop n tokens.old }
{
    fill_next(tokens, &mut into[place..place + n]);
}

/// Where a firing's reads have the tokens of one input: how many it reads in all, how many of them
/// stand before these, and how many these are.
#[derive(Clone, Copy)]
pub(crate) struct Slot {
    pub(crate) need: usize,
    pub(crate) from: usize,
    pub(crate) taken: usize,
}

/// Where the firing's reads have the tokens of the input at this place.
pub(crate) fn slot_of(plan: &Plan, actor: u32, place: usize, turn: Turn) -> Slot
    requires actor { actor < length plan.now.sources }
    requires place { place < length (inputs_at plan.now.channels actor) }
    requires in_phase { IsInPhase plan.now.channels actor turn.firing turn.phase }
    ensures slot { IsSlot plan.now.channels actor place turn.firing result.need result.from result.taken }
    ensures small { result.need ≤ MAX_TOTAL_PER_FIRING }
{
    let inputs = plan.inputs(actor);
    Slot {
        need: plan.moved(Side::Input, actor, turn),
        from: taken_before(plan, actor, &inputs[..place], turn),
        taken: plan.takes(inputs[place], turn) as usize,
    }
}

/// The same for this firing, where the slot is that of another one: with one phase it is the same.
#[inline(always)]
fn slot_after(plan: &Plan, actor: u32, place: usize, other: Turn, slot: Slot, turn: Turn) -> Slot
    requires actor { actor < length plan.now.sources }
    requires place { place < length (inputs_at plan.now.channels actor) }
    requires slot { IsSlot plan.now.channels actor place other.firing slot.need slot.from slot.taken }
    requires small { slot.need ≤ MAX_TOTAL_PER_FIRING }
    requires in_phase { IsInPhase plan.now.channels actor turn.firing turn.phase }
    ensures slot { IsSlot plan.now.channels actor place turn.firing result.need result.from result.taken }
    ensures small { result.need ≤ MAX_TOTAL_PER_FIRING }
{
    if plan.phases(actor) == 1 {
        return slot;
    }
    slot_of(plan, actor, place, turn)
}

/// Puts what n firings read of one input, the one at this place, where their reads have it.
fn lay_input(
    plan: &Plan,
    pool: &Pool,
    actor: u32,
    place: usize,
    turn: Turn,
    n: u32,
    into: &mut [i32],
)
    requires actor { actor < length plan.now.sources }
    requires place { place < length (inputs_at plan.now.channels actor) }
    requires same { length pool.now.chains ≡ length plan.now.channels }
    requires in_phase { IsInPhase plan.now.channels actor turn.firing turn.phase }
    requires low { turn.phase < MAX_PHASES }
    requires few { turn.firing + n ≤ MAX_FIRINGS_PER_ACTOR }
    requires all { length into.old ≡ needs_of plan.now.channels actor turn.firing n }
    ensures { into.new ≡ laid plan.now.channels (inputs_at plan.now.channels actor) (take place (inputs_at plan.now.channels actor))
        (slice_index (inputs_at plan.now.channels actor) place) turn.firing n
        (filled (takes_at plan.now.channels turn.firing n (slice_index (inputs_at plan.now.channels actor) place))
        (tokens_at (tokens_in pool.now) (slice_index (inputs_at plan.now.channels actor) place))) into.old }
{
    let mut tokens = pool.tokens(plan.inputs(actor)[place]);
    let mut next = turn;
    let mut slot = slot_of(plan, actor, place, turn);
    let mut at = 0;
    for _firing in 0..n {
        let end = at + slot.need;
        put_next(&mut tokens, &mut into[at..end], slot.from, slot.taken);
        let after = turn_after(plan, actor, next);
        slot = slot_after(plan, actor, place, next, slot, after);
        next = after;
        at = end;
    }
}

/// Copies what n firings read, one firing's after another's, the inputs of each in file order.
fn gather(plan: &Plan, pool: &Pool, actor: u32, turn: Turn, n: u32, into: &mut [i32])
    requires actor { actor < length plan.now.sources }
    requires same { length pool.now.chains ≡ length plan.now.channels }
    requires in_phase { IsInPhase plan.now.channels actor turn.firing turn.phase }
    requires low { turn.phase < MAX_PHASES }
    requires few { turn.firing + n ≤ MAX_FIRINGS_PER_ACTOR }
    requires all { length into.old ≡ needs_of plan.now.channels actor turn.firing n }
    ensures { into.new ≡ there_of plan.now.channels actor turn.firing n (tokens_in pool.now) }
{
    let inputs = plan.inputs(actor);
    for place in 0..inputs.len() {
        lay_input(plan, pool, actor, place, turn, n, into);
    }
}

/// Copies the oldest tokens of a channel, as many as the slice is long.
fn copy_tokens(pool: &Pool, channel: u32, into: &mut [i32])
    requires channel { channel < length pool.now.chains }
    requires enough { length into.old ≤ length (tokens_at (tokens_in pool.now) channel) }
    ensures { into.new ≡ take (length into.old) (tokens_at (tokens_in pool.now) channel) }
{
    pool.copy_front(channel, into);
}

/// Copies the oldest tokens of the actor's input, where it has one, as many as the slice is long.
fn copy_block(plan: &Plan, pool: &Pool, actor: u32, into: &mut [i32])
    requires actor { actor < length plan.now.sources }
    requires same { length pool.now.chains ≡ length plan.now.channels }
    requires enough { HoldAll (tokens_in pool.now) (λ _. length into.old) (inputs_at plan.now.channels actor) }
    requires none { length (inputs_at plan.now.channels actor) ≡ 0 → length into.old ≡ 0 }
    ensures { into.new ≡ from_front (inputs_at plan.now.channels actor) (length into.old) (tokens_in pool.now) }
{
    let inputs = plan.inputs(actor);
    if inputs.is_empty() {
        return;
    }
    let input = inputs[0];
    pool.copy_front(input, into);
}

/// Copies what the next firing of the actor reads, the inputs in file order.
fn copy_next(plan: &Plan, pool: &Pool, actor: u32, turn: Turn, into: &mut [i32])
    requires actor { actor < length plan.now.sources }
    requires same { length pool.now.chains ≡ length plan.now.channels }
    requires in_phase { IsInPhase plan.now.channels actor turn.firing turn.phase }
    requires enough { HoldAll (tokens_in pool.now) (take_at plan.now.channels turn.firing) (inputs_at plan.now.channels actor) }
    requires all { length into.old ≡ need actor turn.firing plan.now.channels }
    ensures { into.new ≡ fronts (take_at plan.now.channels turn.firing) (inputs_at plan.now.channels actor) (tokens_at (tokens_in pool.now)) }
{
    let inputs = plan.inputs(actor);
    let mut at = 0;
    for channel in inputs {
        let end = at + plan.takes(*channel, turn) as usize;
        copy_tokens(pool, *channel, &mut into[at..end]);
        at = end;
    }
}

/// Copies what n firings of the actor read, one firing's after another's, as far as it is there: 0 stands
/// for a token of a channel to the actor itself that is still to be written.
pub(crate) fn copy_reads(plan: &Plan, pool: &Pool, actor: u32, turn: Turn, n: u32, into: &mut [i32])
    requires actor { actor < length plan.now.sources }
    requires same { length pool.now.chains ≡ length plan.now.channels }
    requires in_phase { IsInPhase plan.now.channels actor turn.firing turn.phase }
    requires low { turn.phase < MAX_PHASES }
    requires few { turn.firing + n ≤ MAX_FIRINGS_PER_ACTOR }
    requires enough { HasNoLoop plan.now.channels actor → HoldAll (tokens_in pool.now) (takes_at plan.now.channels turn.firing n) (inputs_at plan.now.channels actor) }
    requires first { n ≡ 1 → HoldAll (tokens_in pool.now) (takes_at plan.now.channels turn.firing 1) (inputs_at plan.now.channels actor) }
    requires all { length into.old ≡ needs_of plan.now.channels actor turn.firing n }
    ensures { into.new ≡ there_of plan.now.channels actor turn.firing n (tokens_in pool.now) }
{
    if n == 1 {
        copy_next(plan, pool, actor, turn, into);
        return;
    }
    if plan.inputs(actor).len() > 1 {
        gather(plan, pool, actor, turn, n, into);
        return;
    }
    if !plan.has_no_loop(actor) {
        gather(plan, pool, actor, turn, n, into);
        return;
    }
    copy_block(plan, pool, actor, into);
}
