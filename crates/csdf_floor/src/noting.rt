//! Several firings of an actor, as they are noted in the journal before they are made.

ghost use Rattle.std.specs.Prelude.{◌≡◌, ◌+◌, ◌*◌, ◌<◌, ◌≤◌, ◌++◌, false, IfOk, IsOk, OnOk, OnErr, length};
ghost use Rattle.csdf_core.specs.Blocks.{firings_of};
ghost use Rattle.csdf_core.specs.Step.{count};
ghost use Rattle.csdf_journal.specs.Noted.{gifts_from};

use csdf_core::Core;
use csdf_journal::Journal;
use csdf_model::MAX_FIRINGS_PER_ACTOR;
use std::alloc::{AllocError, Global};

/// How many tokens each of the actor's next n firings writes.
fn gifts_of(core: &Core, alloc: Global, actor: u32, n: u32) -> Result<Vec<usize>, AllocError>
    requires exists { actor < length core.now.plan.sources }
    requires few { count core.now.now actor + n ≤ MAX_FIRINGS_PER_ACTOR }
    ensures { IfOk result (λ gifts. gifts.items ≡ gifts_from core.now.plan.channels actor (count core.now.now actor) n) }
{
    let first = core.fired(actor);
    let last = first + n;
    let mut turn = core.turn(actor);
    let mut gifts = Vec::with_capacity(alloc, n as usize)?;
    for _firing in first..last {
        gifts.push_reserved(core.gift_at(actor, turn));
        turn = core.turn_after(actor, turn);
    }
    Ok(gifts)
}

/// Notes the next n firings of an actor of the core, which write these tokens. Memory runs out only
/// where the journal is kept; then nothing is noted.
#[inline(always)]
pub(crate) fn note_firings(
    core: &Core,
    journal: &mut Journal,
    alloc: Global,
    actor: u32,
    n: u32,
    tokens: &[i32],
) -> Result<(), AllocError>
    requires exists { actor < length core.now.plan.sources }
    requires few { count core.now.now actor + n ≤ MAX_FIRINGS_PER_ACTOR }
    ensures moves { OnOk result (journal.new.moves ≡ journal.old.moves
        ++ firings_of core.now.plan.channels actor (count core.now.now actor) n tokens.now) }
    ensures unchanged { OnErr result (journal.new.moves ≡ journal.old.moves) }
    ensures keeps { journal.new.keeps ≡ journal.old.keeps }
    ensures room { OnOk result (journal.old.room ≤ journal.new.room + 4 * n) }
    ensures room_stays { OnErr result (journal.old.room ≤ journal.new.room) }
    ensures width { journal.new.width ≡ journal.old.width }
    ensures takes_nothing { journal.old.keeps ≡ false → IsOk result }
{
    if !journal.keeps() {
        return journal.note_firings(core, actor, n, &[], tokens);
    }
    let gifts = gifts_of(core, alloc, actor, n)?;
    journal.note_firings(core, actor, n, gifts.as_slice(), tokens)
}
