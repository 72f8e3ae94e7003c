//! What a firing asks of its actor's own channels.
//!
//! The tests of one channel are inlined into the loops over an actor's channels, of which they are
//! all the work.

ghost use Rattle.std.specs.Prelude.{◌≡◌, ◌+◌, ◌<◌, ◌≤◌, length};
ghost use Rattle.csdf_core.specs.Rows.{is_closed, is_short, is_full, first};
ghost use Rattle.csdf_core.specs.Phases.{IsInPhase, IsPhase};
ghost use Rattle.csdf_core.specs.Plan.{consume_at, from_at};
ghost use Rattle.csdf_core.specs.Ports.{tokens_in, short_at, full_at, own_take_at};

use crate::plan::Plan;
use crate::turn::Turn;
use csdf_model::MAX_TOKENS_PER_FIRING;
use csdf_pool::Pool;

/// The first closed output of the actor.
pub(crate) fn first_closed(plan: &Plan, opens: &[bool], actor: u32) -> Option<u32>
    requires actor { actor < length plan.now.sources }
    requires same { length opens.now ≡ length plan.now.channels }
    ensures { result ≡ first (is_closed actor) plan.now.channels opens.now }
{
    let outputs = plan.outputs(actor);
    for channel in outputs {
        if !opens[*channel as usize] {
            return Some(*channel);
        }
    }
    None
}

/// Whether the channel has fewer tokens than the firing takes.
#[inline(always)]
fn is_short(plan: &Plan, pool: &Pool, channel: u32, turn: Turn) -> bool
    requires channel { channel < length plan.now.channels }
    requires phase { IsPhase (consume_at plan.now.channels channel) turn.firing turn.phase }
    requires same { length pool.now.chains ≡ length plan.now.channels }
    ensures { result ≡ short_at plan.now.channels turn.firing (tokens_in pool.now) channel }
{
    pool.len(channel) < plan.takes(channel, turn)
}

/// The first input of the actor with fewer tokens than the firing takes.
pub(crate) fn first_short(plan: &Plan, pool: &Pool, actor: u32, turn: Turn) -> Option<u32>
    requires actor { actor < length plan.now.sources }
    requires in_phase { IsInPhase plan.now.channels actor turn.firing turn.phase }
    requires same { length pool.now.chains ≡ length plan.now.channels }
    ensures { result ≡ first (is_short actor turn.firing) plan.now.channels (tokens_in pool.now) }
{
    let inputs = plan.inputs(actor);
    for channel in inputs {
        if is_short(plan, pool, *channel, turn) {
            return Some(*channel);
        }
    }
    None
}

/// How many tokens the actor's firing takes of the channel.
#[inline(always)]
fn own_take(plan: &Plan, actor: u32, channel: u32, turn: Turn) -> u32
    requires channel { channel < length plan.now.channels }
    requires in_phase { IsInPhase plan.now.channels actor turn.firing turn.phase }
    ensures value { result ≡ own_take_at plan.now.channels actor turn.firing channel }
    ensures small { result ≤ MAX_TOKENS_PER_FIRING }
{
    if plan.consumer(channel) == actor {
        plan.takes(channel, turn)
    } else {
        0
    }
}

/// Whether the channel would hold more than its capacity.
#[inline(always)]
fn is_full(plan: &Plan, pool: &Pool, actor: u32, channel: u32, turn: Turn) -> bool
    requires channel { channel < length plan.now.channels }
    requires in_phase { IsInPhase plan.now.channels actor turn.firing turn.phase }
    requires own { from_at plan.now.channels channel ≡ actor }
    requires same { length pool.now.chains ≡ length plan.now.channels }
    ensures { result ≡ full_at plan.now.channels actor turn.firing (tokens_in pool.now) channel }
{
    let kept = pool
        .len(channel)
        .saturating_sub(own_take(plan, actor, channel, turn));
    u64::from(kept) + u64::from(plan.gives(channel, turn)) > u64::from(plan.capacity(channel))
}

/// The first output of the actor that would hold more than its capacity.
pub(crate) fn first_full(plan: &Plan, pool: &Pool, actor: u32, turn: Turn) -> Option<u32>
    requires actor { actor < length plan.now.sources }
    requires in_phase { IsInPhase plan.now.channels actor turn.firing turn.phase }
    requires same { length pool.now.chains ≡ length plan.now.channels }
    ensures { result ≡ first (is_full actor turn.firing) plan.now.channels (tokens_in pool.now) }
{
    let outputs = plan.outputs(actor);
    for channel in outputs {
        if is_full(plan, pool, actor, *channel, turn) {
            return Some(*channel);
        }
    }
    None
}
