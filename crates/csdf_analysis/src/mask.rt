//! Sets of actors as the bits of one number, which has a bit for each actor that a graph may have.

ghost use Rattle.std.specs.Prelude.{◌≡◌, ◌⊎◌, ◌<◌, ◌≤◌, ℕ, IfSome, MatchOption};
ghost use Rattle.csdf_analysis.specs.Waking.{AreActors, IsIn, IsLowest};

use csdf_model::MAX_ACTORS;

/// The set with the actor.
#[inline(always)]
pub fn with_actor(mask: u64, actor: u32) -> u64
    requires { actor < MAX_ACTORS }
    ensures added { IsIn result actor }
    ensures kept { (a : ℕ) → IsIn mask a → IsIn result a }
    ensures others { (a : ℕ) → IsIn result a → (a ≡ actor) ⊎ IsIn mask a }
{
    mask | (1 << actor)
}

/// The set without the actor, which is in it.
#[inline(always)]
pub fn without_actor(mask: u64, actor: u32) -> u64
    requires { IsIn mask actor }
    ensures less { result < mask }
    ensures others { (a : ℕ) → IsIn mask a → (a ≡ actor) ⊎ IsIn result a }
    ensures kept { (a : ℕ) → IsIn result a → IsIn mask a }
{
    mask & !(1 << actor)
}

/// The actors of both sets.
#[inline(always)]
pub fn joined(mask: u64, other: u64) -> u64
    ensures first { (a : ℕ) → IsIn mask a → IsIn result a }
    ensures second { (a : ℕ) → IsIn other a → IsIn result a }
    ensures either { (a : ℕ) → IsIn result a → IsIn mask a ⊎ IsIn other a }
{
    mask | other
}

/// The actors of the first set that are not in the second.
#[inline(always)]
pub fn apart(mask: u64, other: u64) -> u64
    ensures either { (a : ℕ) → IsIn mask a → IsIn other a ⊎ IsIn result a }
    ensures kept { (a : ℕ) → IsIn result a → IsIn mask a }
    ensures off { (a : ℕ) → IsIn result a → IsIn other a → ⊥ }
{
    mask & !other
}

/// The lowest-numbered actor of the set.
#[inline(always)]
pub fn lowest(mask: u64) -> Option<u32>
    ensures answer { MatchOption result ((a : ℕ) → IsIn mask a → ⊥) (IsLowest mask) }
    ensures few { IfSome result (λ actor. actor < MAX_ACTORS) }
{
    if mask == 0 {
        None
    } else {
        Some(mask.trailing_zeros())
    }
}

/// The first so many actors.
pub(crate) fn all(actors: usize) -> u64
    requires { actors ≤ MAX_ACTORS }
    ensures all { (a : ℕ) → a < actors → IsIn result a }
    ensures actors { AreActors actors result }
{
    let mut mask = 0;
    for actor in 0..actors as u32 {
        mask = with_actor(mask, actor);
    }
    mask
}
