//! Moving the tokens of a firing out of its inputs and into its outputs.

ghost use Rattle.std.specs.Prelude.{◌≡◌, ◌+◌, ◌*◌, ◌<◌, ◌≤◌, ◌++◌, length, take, drop, slice_set};
ghost use Rattle.csdf_pool.specs.Pool.{IsPartition, after_takes, after_puts};
ghost use Rattle.csdf_core.specs.Transfers.{after_read, after_write};
ghost use Rattle.csdf_core.specs.Phases.{IsInPhase};
ghost use Rattle.csdf_core.specs.Rows.{need, gift};
ghost use Rattle.csdf_core.specs.Ports.{inputs_at, outputs_at, take_at, give_at, tokens_in, tokens_at};
ghost use Rattle.csdf_core.specs.Ports.{takes_over, taken_over, EnoughOver, puts_over, raise_over};

use crate::plan::Plan;
use crate::turn::Turn;
use csdf_pool::Pool;

/// Takes the oldest tokens of a channel, as many as the slice has places.
fn take_tokens(pool: &mut Pool, channel: u32, into: &mut [i32])
    requires channel { channel < length pool.old.chains }
    requires enough { length into.old ≤ length (tokens_at (tokens_in pool.old) channel) }
    ensures tokens { into.new ≡ take (length into.old) (tokens_at (tokens_in pool.old) channel) }
    ensures left { tokens_in pool.new ≡ slice_set (tokens_in pool.old) channel (drop (length into.old) (tokens_at (tokens_in pool.old) channel)) }
    ensures cells { pool.new ≡ after_takes pool.old channel (length into.old) }
    ensures partition { IsPartition pool.new }
    ensures size { pool.new.size ≡ pool.old.size }
    ensures same { length pool.new.chains ≡ length pool.old.chains }
{
    pool.take_into(channel, into);
}

/// Puts tokens at the end of a channel.
pub(crate) fn put_tokens(pool: &mut Pool, channel: u32, tokens: &[i32])
    requires channel { channel < length pool.old.chains }
    requires room { length tokens.now ≤ length pool.old.free }
    ensures put { tokens_in pool.new ≡ slice_set (tokens_in pool.old) channel (tokens_at (tokens_in pool.old) channel ++ tokens.now) }
    ensures cells { pool.new ≡ after_puts pool.old channel tokens.now }
    ensures free { length pool.new.free + length tokens.now ≡ length pool.old.free }
    ensures partition { IsPartition pool.new }
    ensures size { pool.new.size ≡ pool.old.size }
    ensures same { length pool.new.chains ≡ length pool.old.chains }
{
    pool.put_all(channel, tokens);
}

/// Takes the tokens of the firing out, the inputs in file order, into the front of the slice.
pub(crate) fn take_inputs(
    plan: &Plan,
    pool: &mut Pool,
    actor: u32,
    turn: Turn,
    into: &mut [i32],
) -> usize
    requires actor { actor < length plan.now.sources }
    requires in_phase { IsInPhase plan.now.channels actor turn.firing turn.phase }
    requires same { length pool.old.chains ≡ length plan.now.channels }
    requires enough { EnoughOver (take_at plan.now.channels turn.firing) (inputs_at plan.now.channels actor) (tokens_in pool.old) }
    requires room { need actor turn.firing plan.now.channels ≤ length into.old }
    requires partition { IsPartition pool.old }
    ensures count { result ≡ need actor turn.firing plan.now.channels }
    ensures answer { into.new
        ≡ taken_over (take_at plan.now.channels turn.firing) (inputs_at plan.now.channels actor) (tokens_in pool.old) ++ drop result into.old }
    ensures left { tokens_in pool.new ≡ takes_over (take_at plan.now.channels turn.firing) (inputs_at plan.now.channels actor) (tokens_in pool.old) }
    ensures cells { pool.new ≡ after_read plan.now actor turn.firing pool.old }
    ensures partition { IsPartition pool.new }
    ensures size { pool.new.size ≡ pool.old.size }
    ensures same { length pool.new.chains ≡ length pool.old.chains }
{
    let inputs = plan.inputs(actor);
    let mut at = 0;
    for channel in inputs {
        let n = plan.takes(*channel, turn) as usize;
        take_tokens(pool, *channel, &mut into[at..at + n]);
        at += n;
    }
    at
}

/// Puts the tokens of the firing in, the outputs in file order.
pub(crate) fn put_outputs(plan: &Plan, pool: &mut Pool, actor: u32, turn: Turn, tokens: &[i32])
    requires actor { actor < length plan.now.sources }
    requires in_phase { IsInPhase plan.now.channels actor turn.firing turn.phase }
    requires same { length pool.old.chains ≡ length plan.now.channels }
    requires all { gift actor turn.firing plan.now.channels ≡ length tokens.now }
    requires room { length tokens.now ≤ length pool.old.free }
    requires partition { IsPartition pool.old }
    ensures put { tokens_in pool.new ≡ puts_over (give_at plan.now.channels turn.firing) (outputs_at plan.now.channels actor) (tokens_in pool.old) tokens.now }
    ensures cells { pool.new ≡ after_write plan.now actor turn.firing pool.old tokens.now }
    ensures partition { IsPartition pool.new }
    ensures size { pool.new.size ≡ pool.old.size }
    ensures same { length pool.new.chains ≡ length pool.old.chains }
{
    let outputs = plan.outputs(actor);
    let mut at = 0;
    for channel in outputs {
        let n = plan.gives(*channel, turn) as usize;
        put_tokens(pool, *channel, &tokens[at..at + n]);
        at += n;
    }
}

/// Raises the peaks of the actor's outputs to their lengths.
pub(crate) fn raise_peaks(plan: &Plan, pool: &Pool, peaks: &mut [u32], actor: u32)
    requires actor { actor < length plan.now.sources }
    requires same { length pool.now.chains ≡ length plan.now.channels }
    requires peaked { length peaks.old ≡ length plan.now.channels }
    ensures { peaks.new ≡ raise_over (outputs_at plan.now.channels actor) (tokens_in pool.now) peaks.old }
{
    let outputs = plan.outputs(actor);
    for channel in outputs {
        let c = *channel as usize;
        peaks[c] = peaks[c].max(pool.len(*channel));
    }
}
