//! Where the firings of an actor have the tokens of its channels to itself: in what they read, and in what they write.
//! For an actor of one phase that is the same for all of them, and is looked up once.

ghost use Rattle.std.specs.Prelude.{◌≡◌, ◌<◌, IfOk, length};
ghost use Rattle.csdf_core.specs.Own.{ArePlaced, IsPlaced};
ghost use Rattle.csdf_core.specs.Phases.{IsInPhase};
ghost use Rattle.csdf_core.specs.Ports.{inputs_at};

use crate::block_moves::{Share, share_of};
use crate::gathering::{Slot, slot_of};
use crate::plan::Plan;
use crate::turn::Turn;
use std::alloc::{AllocError, Global};

/// Whether an input is a channel from the actor to itself, where a firing's reads have its tokens, and, where it is one,
/// where the firing's writes have its share.
#[derive(Clone, Copy)]
pub(crate) struct OwnPlace {
    pub(crate) is_own: bool,
    pub(crate) slot: Slot,
    pub(crate) share: Share,
}

/// Where the firing has the tokens of the input at this place.
fn place_of(plan: &Plan, actor: u32, place: usize, turn: Turn) -> OwnPlace
    requires actor { actor < length plan.now.sources }
    requires place { place < length (inputs_at plan.now.channels actor) }
    requires in_phase { IsInPhase plan.now.channels actor turn.firing turn.phase }
    ensures { IsPlaced plan.now.channels actor turn.firing place result }
{
    let channel = plan.inputs(actor)[place];
    let slot = slot_of(plan, actor, place, turn);
    if plan.producer(channel) != actor {
        let share = Share {
            all: 0,
            from: 0,
            own: 0,
        };
        return OwnPlace {
            is_own: false,
            slot,
            share,
        };
    }
    OwnPlace {
        is_own: true,
        slot,
        share: share_of(plan, actor, channel, turn),
    }
}

/// Where the firing has the tokens of each input.
pub(crate) fn places_of(
    alloc: Global,
    plan: &Plan,
    actor: u32,
    turn: Turn,
) -> Result<Vec<OwnPlace>, AllocError>
    requires actor { actor < length plan.now.sources }
    requires in_phase { IsInPhase plan.now.channels actor turn.firing turn.phase }
    ensures { IfOk result (λ places. ArePlaced plan.now.channels actor turn.firing places.items) }
{
    let n = plan.inputs(actor).len();
    let mut places = Vec::with_capacity(alloc, n)?;
    for place in 0..n {
        places.push(place_of(plan, actor, place, turn))?;
    }
    Ok(places)
}

/// The same for this firing, in the place of where another one has them.
pub(crate) fn place_anew(plan: &Plan, actor: u32, turn: Turn, places: &mut [OwnPlace])
    requires actor { actor < length plan.now.sources }
    requires in_phase { IsInPhase plan.now.channels actor turn.firing turn.phase }
    requires each { length places.old ≡ length (inputs_at plan.now.channels actor) }
    ensures { ArePlaced plan.now.channels actor turn.firing places.new }
{
    for place in 0..places.len() {
        places[place] = place_of(plan, actor, place, turn);
    }
}
