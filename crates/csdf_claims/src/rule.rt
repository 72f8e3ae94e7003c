//! What a place knows, the rule that the board keeps, and what each kind of step tells. All of it is for proofs.
use atomic_table::{Join, Play, Split, TableRule};
use std::collections::LinkedList;

/// What a place has of one actor. No value of it is made.
pub struct Track {
    /// The firing that the place holds, if any: a list of at most one.
    pub held: LinkedList<u32>,
    /// The firings that the place finished, with those of the places that were joined into it.
    pub finished: LinkedList<u32>,
    /// The greatest firing number that the place has seen.
    pub seen: u32,
}

/// What a place knows: a track for each actor, and the word that it found last. No value of it is made.
pub struct View {
    /// One track per actor.
    pub tracks: LinkedList<Track>,
    /// The word that the place found last.
    pub found: u64,
}

/// The rule of the table: between any two steps the board is lawful.
pub struct Law;

impl TableRule<(), View, u32> for Law {
    ghost use Rattle.csdf_claims.specs.Board.{IsLawful, opening_view};

    ghost holds = { λ actors s. IsLawful actors s.words s.views };

    ghost first = { opening_view };
}

/// A compare-exchange that claims a firing.
pub(crate) struct Take;

impl Play<(), View> for Take {
    ghost use Rattle.csdf_claims.specs.Steps.{ClaimTells};

    ghost then = { ClaimTells };
}

/// A store that ends a claim, the firing being finished, or several from it on.
pub(crate) struct Finish;

impl Play<(), View> for Finish {
    ghost use Rattle.csdf_claims.specs.Steps.{FinishTells};

    ghost then = { FinishTells };
}

/// A store that gives a claim up.
pub(crate) struct GiveUp;

impl Play<(), View> for GiveUp {
    ghost use Rattle.csdf_claims.specs.Steps.{GiveUpTells};

    ghost then = { GiveUpTells };
}

/// A load of an actor's word.
pub(crate) struct Look;

impl Play<(), View> for Look {
    ghost use Rattle.csdf_claims.specs.Steps.{LookTells};

    ghost then = { LookTells };
}

/// A load of the spare word.
pub(crate) struct Stand;

impl Play<(), View> for Stand {
    ghost use Rattle.csdf_claims.specs.Steps.{StandTells};

    ghost then = { StandTells };
}

/// A new place beside an old one.
pub(crate) struct Beside;

impl Split<View> for Beside {
    ghost use Rattle.csdf_claims.specs.Board.{newcomer_view};

    ghost left = { λ v. v };

    ghost right = { newcomer_view };
}

/// Two places made one.
pub(crate) struct Together;

impl Join<View> for Together {
    ghost use Rattle.csdf_claims.specs.Board.{joined_view, spent_view};

    ghost both = { joined_view };

    ghost spent = { spent_view };
}
