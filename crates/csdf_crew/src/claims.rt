//! How a worker claims firings, and how its claims end.

ghost use Rattle.std.specs.Prelude.{◌≡◌, ◌<◌, ◌≤◌, ◌+◌, ℕ, IfSome, None, Some};
ghost use Rattle.csdf_claims.specs.Board.{HasFinished};
ghost use Rattle.csdf_crew.specs.Workers.{CanEnd, HasMade, HasMadeAll, HoldsJust, IsActor, IsClaimBeside};

use crate::monitor::{Delivered, Made};
use crate::told::Told;
use csdf_claims::{Board, Place};
use csdf_model::{MAX_ACTORS, MAX_FIRINGS_PER_ACTOR};

/// The most firings that are made in one go: some thousand tokens of each channel stay in the cache.
const BLOCK: u32 = 1_024;

/// A firing of an actor that a place holds.
#[derive(Clone, Copy)]
pub(crate) struct Claim {
    pub(crate) actor: u32,
    pub(crate) firing: u32,
}

/// Claims the present firing of an actor, beside what is held. `None` where it cannot be had.
fn try_actor(board: &Board, place: &mut Place, beside: Option<Claim>, actor: u32) -> Option<Claim>
    requires place { place.old.board ≡ board.now.id }
    requires actor { actor < board.now.actors }
    requires holds { HoldsJust place.old.view beside None }
    ensures board { place.new.board ≡ board.now.id }
    ensures claim { IsClaimBeside place.old.view place.new.view beside board.now.actors result }
{
    // `beside` is there for the contract alone, as other parameters that stand behind `let _ =`.
    let _ = beside;
    let (firing, is_held) = board.peek(place, actor);
    if is_held || firing > MAX_FIRINGS_PER_ACTOR {
        return None;
    }
    match board.try_claim(place, actor, firing) {
        Ok(()) => Some(Claim { actor, firing }),
        Err(_lost) => None,
    }
}

/// Claims a firing of one of these actors, beside what is held.
pub(crate) fn claim_among(
    board: &Board,
    place: &mut Place,
    beside: Option<Claim>,
    mask: u64,
) -> Option<Claim>
    requires place { place.old.board ≡ board.now.id }
    requires holds { HoldsJust place.old.view beside None }
    ensures board { place.new.board ≡ board.now.id }
    ensures claim { IsClaimBeside place.old.view place.new.view beside board.now.actors result }
{
    let mut left = mask;
    for _ in 0..MAX_ACTORS {
        if left == 0 {
            break;
        }
        let actor = left.trailing_zeros();
        left &= left - 1;
        if actor >= board.actors() {
            break;
        }
        if let Some(claim) = try_actor(board, place, beside, actor) {
            return Some(claim);
        }
    }
    None
}

/// Marks the claim done: its firing is finished, and held no longer.
fn mark_done(board: &Board, place: &mut Place, claim: Claim, beside: Option<Claim>)
    requires place { place.old.board ≡ board.now.id }
    requires actor { claim.actor < board.now.actors }
    requires holds { HoldsJust place.old.view (Some claim) beside }
    ensures board { place.new.board ≡ board.now.id }
    ensures holds { HoldsJust place.new.view None beside }
    ensures made { HasMade place.new.view (Some claim) }
{
    let _ = beside;
    board.done(place, claim.actor);
}

/// Marks the claim done whose result the floor has taken, where there is one, and tells of it.
pub(crate) fn finish<G: Told>(
    board: &Board,
    gate: &G,
    place: &mut Place,
    delivered: Option<Delivered>,
    beside: Option<Claim>,
)
    requires place { place.old.board ≡ board.now.id }
    requires actor { IsActor board.now.actors delivered }
    requires holds { HoldsJust place.old.view delivered beside }
    ensures board { place.new.board ≡ board.now.id }
    ensures holds { HoldsJust place.new.view None beside }
    ensures made { HasMade place.new.view delivered }
    ensures told { IfSome delivered (λ _. G.knows_made gate.now 1) }
{
    if let Some(delivered) = delivered {
        mark_done(board, place, delivered.claim(), beside);
        gate.tell_made(1);
    }
}

/// How many firings may be made in one go, this one first.
pub(crate) fn most_from(firing: u32) -> u32
    ensures some { 0 < result }
    ensures fits { 1 < result → firing + result ≤ MAX_FIRINGS_PER_ACTOR + 1 }
{
    if firing < MAX_FIRINGS_PER_ACTOR {
        BLOCK.min(MAX_FIRINGS_PER_ACTOR - firing)
    } else {
        1
    }
}

/// Marks the firings done that the floor has made, of which the first is the claimed one, and tells of
/// them. What is held beside it stays so.
pub(crate) fn finish_block<G: Told>(
    board: &Board,
    gate: &G,
    place: &mut Place,
    made: Made,
    beside: Option<Claim>,
)
    requires place { place.old.board ≡ board.now.id }
    requires actor { made.claim.actor < board.now.actors }
    requires holds { HoldsJust place.old.view (Some made.claim) beside }
    requires some { 0 < made.count }
    requires fits { CanEnd made.claim made.count }
    ensures board { place.new.board ≡ board.now.id }
    ensures holds { HoldsJust place.new.view None beside }
    ensures made { HasMadeAll place.new.view made }
    ensures told { G.knows_made gate.now made.count }
{
    let _ = beside;
    board.done_many(place, made.claim().actor, made.count());
    gate.tell_made(made.count());
}

/// The claim is given up: it is held no longer. What is held beside it stays so.
pub(crate) fn give_back(
    board: &Board,
    place: &mut Place,
    claim: Option<Claim>,
    beside: Option<Claim>,
)
    requires place { place.old.board ≡ board.now.id }
    requires actor { IsActor board.now.actors claim }
    requires holds { HoldsJust place.old.view claim beside }
    ensures board { place.new.board ≡ board.now.id }
    ensures holds { HoldsJust place.new.view None beside }
    ensures finished { (a k : ℕ) → HasFinished place.old.view a k → HasFinished place.new.view a k }
{
    let _ = beside;
    if let Some(claim) = claim {
        board.hand_back(place, claim.actor);
    }
}
