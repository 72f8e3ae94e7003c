//! Whether moves are kept.

ghost use Rattle.std.specs.Prelude.{◌≡◌};

/// Whether a journal keeps its moves as data.
#[derive(Clone, Copy, Debug, PartialEq, Eq)]
pub enum Keeping {
    /// Each move is there to be read, and takes memory.
    Kept,
    /// No move is there to be read, and none takes memory.
    NotKept,
}

impl Keeping {
    ghost use Rattle.csdf_journal.specs.View.{is_kept};

    /// Whether moves are kept.
    pub fn is_kept(self) -> bool
        ensures { result ≡ is_kept self }
    {
        matches!(self, Keeping::Kept)
    }
}
