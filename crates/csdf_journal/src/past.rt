//! The moves that were made, which exist only in proofs.
ghost use Rattle.std.specs.Prelude.{◌≡◌, List, [], ◌∷◌, ◌++◌};
ghost use base.Fml.{ftrue};
ghost use Rattle.csdf_core.specs.Moves.{Move as MoveModel};

use crate::firings::Firings;
use crate::note::Note;
use std::marker::Model;

/// The moves that were made, in order. It takes no memory, and its methods do nothing when they run.
#[derive(Debug, Drop)]
pub(crate) struct Past {
    ghost moves: { List MoveModel },
}

impl Model for Past {
    ghost also_owns = { λ _. ftrue };
}

// A past is nothing at run time, so any thread may have it or look at it.
unsafe impl Send for Past {}

unsafe impl Sync for Past {}

impl Past {
    ghost use Rattle.csdf_journal.specs.Noted.{noted, noted_all};

    /// No moves.
    pub(crate) fn new() -> Past
        ensures { result.moves ≡ [] }
    {
        Past {}
    }

    /// These moves, and then the one of the note.
    pub(crate) fn then(&self, _note: &Note<'_>) -> Past
        ensures { result.moves ≡ self.now.moves ++ noted _note.now ∷ [] }
    {
        Past {}
    }

    /// These moves, and then those of the firings.
    pub(crate) fn then_all(&self, _firings: &Firings<'_>) -> Past
        ensures { result.moves ≡ self.now.moves ++ noted_all _firings.now }
    {
        Past {}
    }
}
