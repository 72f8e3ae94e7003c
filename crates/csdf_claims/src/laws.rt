//! Laws of a lawful board, place by place. The calls do nothing.

ghost use Rattle.csdf_claims.specs.Laws.{OneHolds, OneFinished, FinishedOnce, FinishedBelow};

/// A law: two places that hold an actor are one place.
pub fn one_holds()
    ensures { OneHolds }
{}

/// A law: two places that finished a firing are one place.
pub fn one_finished()
    ensures { OneFinished }
{}

/// A law: no place finished a firing twice.
pub fn finished_once()
    ensures { FinishedOnce }
{}

/// A law: the firings below the word's are those that some place finished. So firing `k` is won only
/// where 0 to `k - 1` are finished.
pub fn finished_below()
    ensures { FinishedBelow }
{}
