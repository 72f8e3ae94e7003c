//! What the firings of a block find and move, channel by channel, where an actor may have several
//! inputs and outputs.

ghost use Rattle.std.specs.Prelude.{◌≡◌, ◌+◌, ◌<◌, ◌≤◌, ◌↔◌, IsTrue, drop, length, slice_set};
ghost use Rattle.csdf_pool.specs.Pool.{IsPartition, after_takes};
ghost use Rattle.csdf_core.specs.Blocks.{takes_at, HoldAll};
ghost use Rattle.csdf_core.specs.Phases.{IsInPhase};
ghost use Rattle.csdf_core.specs.Ports.{inputs_at, outputs_at, take_at, tokens_in, tokens_at, EnoughOver, raise_over};
ghost use Rattle.csdf_core.specs.Rows.{gift};
ghost use Rattle.csdf_core.specs.Transfers.{after_read, after_write};

use crate::plan::Plan;
use crate::transfer::{put_outputs, raise_peaks};
use crate::turn::Turn;
use csdf_model::MAX_FIRINGS_PER_ACTOR;
use csdf_pool::Pool;

/// Whether each input of the actor holds what its next n firings take of it.
pub(crate) fn hold_each(plan: &Plan, pool: &Pool, actor: u32, turn: Turn, n: u32) -> bool
    requires actor { actor < length plan.now.sources }
    requires same { length pool.now.chains ≡ length plan.now.channels }
    requires few { turn.firing + n ≤ MAX_FIRINGS_PER_ACTOR }
    ensures { IsTrue result ↔ HoldAll (tokens_in pool.now) (takes_at plan.now.channels turn.firing n) (inputs_at plan.now.channels actor) }
{
    let inputs = plan.inputs(actor);
    for channel in inputs {
        let needed = plan.taken(*channel, turn.firing, n);
        if u64::from(pool.len(*channel)) < needed {
            return false;
        }
    }
    true
}

/// Takes the oldest tokens of a channel out and drops them.
pub(crate) fn drop_tokens(pool: &mut Pool, channel: u32, n: u32)
    requires channel { channel < length pool.old.chains }
    requires enough { n ≤ length (tokens_at (tokens_in pool.old) channel) }
    ensures left { tokens_in pool.new ≡ slice_set (tokens_in pool.old) channel (drop n (tokens_at (tokens_in pool.old) channel)) }
    ensures cells { pool.new ≡ after_takes pool.old channel n }
    ensures free { length pool.new.free ≡ length pool.old.free + n }
    ensures partition { IsPartition pool.new }
    ensures size { pool.new.size ≡ pool.old.size }
    ensures same { length pool.new.chains ≡ length pool.old.chains }
{
    pool.drop_front(channel, n);
}

/// Takes the tokens of the firing out, the inputs in file order, and drops them.
fn drop_inputs(plan: &Plan, pool: &mut Pool, actor: u32, turn: Turn)
    requires actor { actor < length plan.now.sources }
    requires in_phase { IsInPhase plan.now.channels actor turn.firing turn.phase }
    requires same { length pool.old.chains ≡ length plan.now.channels }
    requires enough { EnoughOver (take_at plan.now.channels turn.firing) (inputs_at plan.now.channels actor) (tokens_in pool.old) }
    requires partition { IsPartition pool.old }
    ensures cells { pool.new ≡ after_read plan.now actor turn.firing pool.old }
    ensures partition { IsPartition pool.new }
    ensures same { length pool.new.chains ≡ length pool.old.chains }
{
    let inputs = plan.inputs(actor);
    for channel in inputs {
        let n = plan.takes(*channel, turn);
        drop_tokens(pool, *channel, n);
    }
}

/// Moves the tokens of one firing: out of its inputs, and these into its outputs.
pub(crate) fn fire_once(
    plan: &Plan,
    pool: &mut Pool,
    peaks: &mut [u32],
    actor: u32,
    turn: Turn,
    tokens: &[i32],
)
    requires actor { actor < length plan.now.sources }
    requires in_phase { IsInPhase plan.now.channels actor turn.firing turn.phase }
    requires same { length pool.old.chains ≡ length plan.now.channels }
    requires peaked { length peaks.old ≡ length plan.now.channels }
    requires enough { EnoughOver (take_at plan.now.channels turn.firing) (inputs_at plan.now.channels actor) (tokens_in pool.old) }
    requires room { gift actor turn.firing plan.now.channels ≤ length (after_read plan.now actor turn.firing pool.old).free }
    requires all { length tokens.now ≡ gift actor turn.firing plan.now.channels }
    requires partition { IsPartition pool.old }
    ensures cells { pool.new ≡ after_write plan.now actor turn.firing (after_read plan.now actor turn.firing pool.old) tokens.now }
    ensures peaks { peaks.new ≡ raise_over (outputs_at plan.now.channels actor) (tokens_in pool.new) peaks.old }
    ensures partition { IsPartition pool.new }
    ensures same { length pool.new.chains ≡ length pool.old.chains }
    ensures peaked { length peaks.new ≡ length peaks.old }
{
    drop_inputs(plan, pool, actor, turn);
    put_outputs(plan, pool, actor, turn, tokens);
    raise_peaks(plan, pool, peaks, actor);
}
