//! How many tokens a firing writes to each output, read from the core by its phase.

ghost use Rattle.std.specs.Prelude.{◌≡◌, ◌↔◌, ◌<◌, ◌≤◌, All, IsTrue, OnOk, length, map};
ghost use Rattle.csdf_core.specs.Phases.{HasPhases, IsInPhase};
ghost use Rattle.csdf_core.specs.Ports.{give_at, outputs_at};

use csdf_core::{Core, Turn};
use csdf_kernel::Counts;
use csdf_model::{MAX_CHANNELS, MAX_TOKENS_PER_FIRING};
use std::alloc::AllocError;

/// How many tokens the actor's firing writes to each output, in file order, in the place of what the
/// list holds.
pub(crate) fn put_counts(
    core: &Core,
    actor: u32,
    turn: Turn,
    counts: &mut Counts,
) -> Result<(), AllocError>
    requires exists { actor < length core.now.plan.sources }
    requires in_phase { IsInPhase core.now.plan.channels actor turn.firing turn.phase }
    ensures value { OnOk result (counts.new.items ≡ map (give_at core.now.plan.channels turn.firing) (outputs_at core.now.plan.channels actor)) }
    ensures few { OnOk result (length counts.new.items ≤ MAX_CHANNELS) }
    ensures small { OnOk result (All (λ n. n ≤ MAX_TOKENS_PER_FIRING) counts.new.items) }
{
    counts.clear();
    for channel in core.outputs(actor) {
        counts.push(core.gives_at(actor, *channel, turn))?;
    }
    Ok(())
}

/// The same for this firing, where the counts are those of another one: with one phase they are the same.
#[inline(always)]
pub(crate) fn put_counts_after(
    core: &Core,
    actor: u32,
    has_one_phase: bool,
    other: Turn,
    turn: Turn,
    counts: &mut Counts,
) -> Result<(), AllocError>
    requires exists { actor < length core.now.plan.sources }
    requires phases { IsTrue has_one_phase → HasPhases core.now.plan.channels actor 1 }
    requires in_phase { IsInPhase core.now.plan.channels actor turn.firing turn.phase }
    requires counts { counts.old.items ≡ map (give_at core.now.plan.channels other.firing) (outputs_at core.now.plan.channels actor) }
    requires few { length counts.old.items ≤ MAX_CHANNELS }
    requires small { All (λ n. n ≤ MAX_TOKENS_PER_FIRING) counts.old.items }
    ensures value { OnOk result (counts.new.items ≡ map (give_at core.now.plan.channels turn.firing) (outputs_at core.now.plan.channels actor)) }
    ensures few { OnOk result (length counts.new.items ≤ MAX_CHANNELS) }
    ensures small { OnOk result (All (λ n. n ≤ MAX_TOKENS_PER_FIRING) counts.new.items) }
{
    if has_one_phase {
        return Ok(());
    }
    put_counts(core, actor, turn, counts)
}

/// Whether these are what the actor's firing writes to each output, in file order.
pub(crate) fn are_counts(core: &Core, actor: u32, turn: Turn, counts: &[u32]) -> bool
    requires exists { actor < length core.now.plan.sources }
    requires in_phase { IsInPhase core.now.plan.channels actor turn.firing turn.phase }
    ensures { IsTrue result ↔ (counts.now ≡ map (give_at core.now.plan.channels turn.firing) (outputs_at core.now.plan.channels actor)) }
{
    let outputs = core.outputs(actor);
    if counts.len() != outputs.len() {
        return false;
    }
    for i in 0..outputs.len() {
        if counts[i] != core.gives_at(actor, outputs[i], turn) {
            return false;
        }
    }
    true
}
