//! Which firing of an actor is next, and in which phase: kept, so that nothing is divided.

ghost use Rattle.std.specs.Prelude.{◌≡◌, ◌+◌, ◌%◌, ◌<◌, ◌≤◌, length};
ghost use Rattle.csdf_core.specs.Phases.{IsInPhase};

use crate::plan::Plan;
use csdf_model::{MAX_FIRINGS_PER_ACTOR, MAX_PHASES};

/// A firing of an actor, by its number, and the phase that it is in.
#[derive(Clone, Copy, Debug, PartialEq, Eq)]
pub struct Turn {
    /// Its number; an actor's first firing has number 0.
    pub firing: u32,
    /// The phase that it is in, from 0 on.
    pub phase: u32,
}

/// The actor's firing after this one: after the last phase comes the first.
pub(crate) fn turn_after(plan: &Plan, actor: u32, turn: Turn) -> Turn
    requires actor { actor < length plan.now.sources }
    requires in_phase { IsInPhase plan.now.channels actor turn.firing turn.phase }
    requires low { turn.phase < MAX_PHASES }
    requires few { turn.firing ≤ MAX_FIRINGS_PER_ACTOR }
    ensures firing { result.firing ≡ turn.firing + 1 }
    ensures in_phase { IsInPhase plan.now.channels actor (turn.firing + 1) result.phase }
    ensures low { result.phase < MAX_PHASES }
{
    let phases = plan.phases(actor);
    let next = turn.phase + 1;
    let phase = if next >= phases { 0 } else { next };
    Turn {
        firing: turn.firing + 1,
        phase,
    }
}

/// The remainder of a number, which for few phases or firings takes no division.
#[inline(always)]
fn remainder(n: u32, by: u32) -> u32
    requires { 1 ≤ by }
    ensures { result ≡ n % by }
{
    if by == 1 || n == by {
        return 0;
    }
    if n < by {
        return n;
    }
    n % by
}

/// The actor's firing n firings after this one.
pub(crate) fn turn_ahead(plan: &Plan, actor: u32, turn: Turn, n: u32) -> Turn
    requires actor { actor < length plan.now.sources }
    requires in_phase { IsInPhase plan.now.channels actor turn.firing turn.phase }
    requires low { turn.phase < MAX_PHASES }
    requires few { turn.firing ≤ MAX_FIRINGS_PER_ACTOR }
    requires ahead { n ≤ MAX_FIRINGS_PER_ACTOR }
    ensures firing { result.firing ≡ turn.firing + n }
    ensures in_phase { IsInPhase plan.now.channels actor result.firing result.phase }
    ensures low { result.phase < MAX_PHASES }
{
    let phases = plan.phases(actor);
    Turn {
        firing: turn.firing + n,
        phase: remainder(turn.phase + n, phases),
    }
}
