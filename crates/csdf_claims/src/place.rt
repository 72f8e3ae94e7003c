//! A worker's place at the board.
ghost use Rattle.std.specs.Prelude.{◌≡◌, IfOk, replicate};

use crate::rule::View;
use atomic_table::Seat;
use std::alloc::{AllocError, Global};
use std::marker::Model;

/// What a place has of one actor: how many firings it finished, and which it holds.
#[derive(Clone, Copy, Drop)]
pub(crate) struct Entry {
    pub(crate) finished: u32,
    pub(crate) held: Option<u32>,
}

/// A worker's seat at a board, with its record of each actor.
///
/// Contracts see which board it is of, and its view: the claims that it holds, the firings that it finished, per
/// actor the greatest firing number that it has seen, and the word that it found last. The memory is bounded: of
/// the finished firings only their number is kept.
#[derive(Drop)]
pub struct Place {
    pub(crate) entries: Vec<Entry>,
    pub(crate) seat: Seat<(), View>,
}

impl Model for Place {
    ghost use Rattle.csdf_claims.specs.Face.{PlaceFace, IsRecordOf};

    ghost Value = { PlaceFace };

    ghost view = { λ p. record { board = p.seat.table_id; view = p.seat.me.0 } };

    ghost invariant = { λ p. IsRecordOf p.entries.items p.seat.me p.seat.table_id };
}

// Entries of a place that holds and has finished nothing.
pub(crate) fn blank_entries(alloc: Global, actors: usize) -> Result<Vec<Entry>, AllocError>
    ensures { IfOk result (λ v. v.items ≡ replicate actors (record { finished = 0; held = None })) }
{
    let blank = Entry {
        finished: 0,
        held: None,
    };
    vec![in alloc; blank; actors]
}
