//! What a worker passes between the start of a firing and its evaluation.

ghost use Rattle.std.specs.Prelude.{◌≡◌, ℕ, ⊤, IsTrue};
ghost use Rattle.csdf_claims.specs.Board.{Holds, KeepsJust};

use csdf_claims::{Board, Place};

/// What a worker passes, without the lock, once it has started a firing and before it evaluates it; and
/// what is told how far the run has come.
pub trait Gate: Sync {
    /// What is so once a worker has passed with a firing of an actor. Only [`Gate::enter`] can show it of a
    /// gate that is not known, and no job is evaluated without it.
    ghost passed: { Self → ℕ → ℕ → Type 0 } = { λ gate actor firing. ⊤ };

    /// The worker holds the actor at this firing, and goes on holding what it holds, and no more.
    fn enter(&self, board: &Board, place: &mut Place, actor: u32, firing: u32)
        requires place { place.old.board ≡ board.now.id }
        requires holds { Holds place.old.view actor firing }
        ensures board { place.new.board ≡ place.old.board }
        ensures keeps { KeepsJust place.old.view place.new.view }
        ensures passed { passed self.now actor firing };

    /// Whether a worker may have to wait in [`Gate::enter`]. Where it never does, workers that sleep are
    /// not woken for firings that take less time than to wake them.
    fn may_wait(&self) -> bool;

    /// Whether every firing passes at once. Where it does, a worker may make several firings of an actor
    /// in one go, and enters the gate with none of them. A gate that does not say is entered with each.
    fn is_open(&self) -> bool
        ensures { IsTrue result → (a k : ℕ) → passed self.now a k }
    {
        false
    }

    /// The run begins, which makes at most so many firings. It is told once, before the first of them.
    fn begins(&self, _most: u64) {}

    /// A worker has made so many firings more, of which all have been delivered. It is told without the
    /// lock, once for several firings that are made in one go.
    fn has_made(&self, _firings: u32) {}
}

/// The gate that does nothing.
#[derive(Clone, Copy, Debug)]
pub struct Open;

impl Gate for Open {
    fn enter(&self, _board: &Board, _place: &mut Place, _actor: u32, _firing: u32) {}

    fn may_wait(&self) -> bool {
        false
    }

    fn is_open(&self) -> bool {
        true
    }
}
