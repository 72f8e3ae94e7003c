//! The gate of a run's caller, which is told how far the run has come.

ghost use Rattle.std.specs.Prelude.{⊤};
ghost use Rattle.csdf_claims.specs.Board.{KeepsJust};

use csdf_claims::{Board, Place};
use csdf_crew::{Gate, Told};

/// The gate of a run's caller.
#[derive(Drop)]
pub(crate) struct Telling<'a, G> {
    pub(crate) gate: &'a G,
}

impl<G: Gate> Gate for Telling<'_, G> {
    ghost passed = { λ told actor firing. G.passed told.gate.now actor firing };

    fn enter(&self, board: &Board, place: &mut Place, actor: u32, firing: u32) {
        self.gate.enter(board, place, actor, firing);
    }

    fn may_wait(&self) -> bool {
        self.gate.may_wait()
    }

    fn is_open(&self) -> bool {
        self.gate.is_open()
    }

    fn begins(&self, most: u64) {
        self.gate.begins(most);
    }

    fn has_made(&self, firings: u32) {
        self.gate.has_made(firings);
    }
}

impl<G: Gate> Told for Telling<'_, G> {
    ghost knows_most = { λ _ _. ⊤ };

    ghost knows_made = { λ _ _. ⊤ };

    fn tell_most(&self, most: u64) {
        self.begins(most);
    }

    fn tell_made(&self, firings: u32) {
        self.has_made(firings);
    }
}
