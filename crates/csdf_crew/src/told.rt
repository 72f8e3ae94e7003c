//! What a gate is told of a run.

ghost use Rattle.std.specs.Prelude.{ℕ};

use crate::gate::Gate;

/// A gate that a run tells how far it has come. What it was told is known of a gate that is not known by
/// [`Told::tell_most`] and [`Told::tell_made`] alone.
pub trait Told: Gate {
    /// It was told that the run makes at most so many firings.
    ghost knows_most: { Self → ℕ → Type 0 };

    /// It was told that so many firings were made.
    ghost knows_made: { Self → ℕ → Type 0 };

    /// The run begins, which makes at most so many firings.
    fn tell_most(&self, most: u64)
        ensures { knows_most self.now most };

    /// So many firings more were made, of which all have been delivered.
    fn tell_made(&self, firings: u32)
        ensures { knows_made self.now firings };
}
