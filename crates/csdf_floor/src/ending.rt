//! How a run ends.

ghost use Rattle.std.specs.Prelude.{◌≡◌, ◌↔◌, ◌<◌, IsTrue, Some, length};
ghost use Rattle.csdf_core.specs.Moves.{Begin};
ghost use Rattle.csdf_core.specs.Step.{refusal};
ghost use Rattle.csdf_floor.specs.Endings.{IsEnding, SomeRefused};
ghost use Rattle.csdf_floor.specs.Laws.{AllSpent};

use csdf_core::{Core, Refusal};

/// How a run ended.
#[derive(Clone, Copy, Debug, PartialEq, Eq)]
pub enum Ending {
    /// Every actor has made all its firings.
    Complete,
    /// The limit on all firings was reached before.
    Stopped,
    /// A firing lacks cells, and none can free any.
    Starved,
    /// No firing is held back by the limit or for want of cells: a file had too few tokens.
    Dry,
}

/// Whether every actor has made all its firings.
fn are_all_spent(core: &Core) -> bool
    ensures { IsTrue result ↔ AllSpent core.now.plan core.now.now }
{
    for actor in 0..core.actors() {
        if !core.is_spent(actor) {
            return false;
        }
    }
    true
}

/// Whether the actor may not begin for this reason.
fn is_refused(core: &Core, actor: u32, why: Refusal) -> bool
    ensures { IsTrue result ↔ (refusal core.now.plan core.now.now (Begin actor) ≡ Some why) }
{
    core.can_begin(actor) == Err(why)
}

/// Whether some actor may not begin for this reason.
fn is_some_refused(core: &Core, why: Refusal) -> bool
    ensures { IsTrue result ↔ SomeRefused core.now.plan core.now.now why }
{
    for actor in 0..core.actors() {
        if is_refused(core, actor, why) {
            return true;
        }
    }
    false
}

/// How a run with this core at its end has ended.
pub(crate) fn ending_of(core: &Core) -> Ending
    ensures { IsEnding core.now.plan core.now.now result }
{
    if are_all_spent(core) {
        Ending::Complete
    } else if is_some_refused(core, Refusal::Stopped) {
        Ending::Stopped
    } else if is_some_refused(core, Refusal::NoCells) {
        Ending::Starved
    } else {
        Ending::Dry
    }
}
