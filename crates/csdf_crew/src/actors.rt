//! Sets of actors as bits, of which there is one for each actor that a graph may have.

ghost use Rattle.std.specs.Prelude.{◌≡◌, ◌<◌, ℕ};
ghost use Rattle.csdf_analysis.specs.Waking.{IsIn};

use csdf_analysis::mask::with_actor;
use csdf_model::MAX_ACTORS;

/// The set of the actor alone; the empty one for an actor that no graph has.
pub(crate) fn bit_of(actor: u32) -> u64
    ensures own { actor < MAX_ACTORS → IsIn result actor }
    ensures only { (a : ℕ) → IsIn result a → a ≡ actor }
{
    if actor < MAX_ACTORS as u32 {
        with_actor(0, actor)
    } else {
        0
    }
}
