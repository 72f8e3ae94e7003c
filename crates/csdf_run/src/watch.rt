//! Who is told how far a run has come, and lets it go on.

ghost use Rattle.csdf_claims.specs.Board.{KeepsJust};

use csdf_claims::{Board, Place};
use csdf_crew::{Gate, Open};

/// Is told how far a run has come. Nothing of the run depends on it.
pub trait Watch: Sync {
    /// The run begins, which makes at most so many firings. It is told before the first of them; and again
    /// where a run by several workers is made anew.
    fn begins(&self, _most: u64) {}

    /// A worker has made so many firings more, of which all have been delivered. It is told once for
    /// several firings that are made in one go.
    fn has_made(&self, _firings: u32) {}
}

/// It is told, and does nothing.
impl Watch for Open {}

/// The gate of a watch, which every firing passes at once.
#[derive(Drop)]
pub(crate) struct Watching<'a, W> {
    pub(crate) watch: &'a W,
}

impl<W: Watch> Gate for Watching<'_, W> {
    fn enter(&self, _board: &Board, _place: &mut Place, _actor: u32, _firing: u32) {}

    fn may_wait(&self) -> bool {
        false
    }

    fn is_open(&self) -> bool {
        true
    }

    fn begins(&self, most: u64) {
        self.watch.begins(most);
    }

    fn has_made(&self, firings: u32) {
        self.watch.has_made(firings);
    }
}
