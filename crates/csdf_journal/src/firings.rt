//! Several firings of one actor, and their moves as data.

ghost use Rattle.std.specs.Prelude.{◌≡◌, ◌+◌, ◌-◌, ◌≤◌, ◌*◌, ◌++◌, [], ◌∷◌, IfOk, OnOk, OnErr, length, map};
ghost use Rattle.std.specs.Vec.{vec_capacity, vec_len};
ghost use Rattle.csdf_core.specs.Moves.{Begin, Read, Write, Finish, move_of};
ghost use Rattle.csdf_journal.specs.Noted.{moves_by, gifts_in, noted_all};

use csdf_core::{Core, Move};
use std::alloc::{AllocError, Global};

/// The next firings of an actor, so many, how many tokens each of them writes, and these tokens, one
/// firing's after another's.
#[derive(Drop)]
pub(crate) struct Firings<'a> {
    pub(crate) core: &'a Core,
    pub(crate) actor: u32,
    pub(crate) n: u32,
    /// Read only where moves are kept.
    pub(crate) gifts: &'a [usize],
    pub(crate) tokens: &'a [i32],
}

/// Puts the moves of a firing that writes these tokens at the end of the list, which has room for them.
fn push_firing(moves: &mut Vec<Move>, actor: u32, tokens: Vec<i32>)
    requires { vec_len moves.old + 4 ≤ vec_capacity moves.old }
    ensures items { map move_of moves.new.items
        ≡ map move_of moves.old.items ++ Begin actor ∷ Read actor ∷ Write actor tokens.items ∷ Finish actor ∷ [] }
    ensures len { vec_len moves.new ≡ vec_len moves.old + 4 }
    ensures capacity { vec_capacity moves.new ≡ vec_capacity moves.old }
{
    moves.push_reserved(Move::Begin(actor));
    moves.push_reserved(Move::Read(actor));
    moves.push_reserved(Move::Write(actor, tokens));
    moves.push_reserved(Move::Finish(actor));
}

/// The moves of as many firings as there are gifts, each with a copy of the tokens that it writes: so
/// many of them, or those that are left.
fn moves_by(
    alloc: Global,
    actor: u32,
    n: u32,
    gifts: &[usize],
    tokens: &[i32],
) -> Result<Vec<Move>, AllocError>
    requires { length gifts.now ≡ n }
    ensures items { IfOk result (λ moves. map move_of moves.items ≡ moves_by actor gifts.now tokens.now) }
    ensures len { IfOk result (λ moves. vec_len moves ≡ 4 * n) }
{
    let mut moves = Vec::with_capacity(alloc, 4 * n as usize)?;
    let mut left = tokens;
    for gift in gifts {
        let (part, rest) = left.split_at(left.len().min(*gift));
        push_firing(&mut moves, actor, Vec::from_slice(alloc, part)?);
        left = rest;
    }
    Ok(moves)
}

impl Firings<'_> {
    /// The moves as data.
    fn to_moves(&self, alloc: Global) -> Result<Vec<Move>, AllocError>
        requires { self.now.gifts.now ≡ gifts_in self.now }
        ensures items { IfOk result (λ moves. map move_of moves.items ≡ noted_all self.now) }
        ensures len { IfOk result (λ moves. vec_len moves ≡ 4 * self.now.n) }
    {
        moves_by(alloc, self.actor, self.n, self.gifts, self.tokens)
    }

    /// Puts the moves at the end of the list. An error says that memory ran out; then the list is as
    /// before.
    pub(crate) fn append_to(&self, moves: &mut Vec<Move>) -> Result<(), AllocError>
        requires { self.now.gifts.now ≡ gifts_in self.now }
        ensures moves { OnOk result (map move_of moves.new.items ≡ map move_of moves.old.items ++ noted_all self.now) }
        ensures unchanged { OnErr result (moves.new.items ≡ moves.old.items) }
        ensures room { OnOk result (vec_capacity moves.old - vec_len moves.old
            ≤ vec_capacity moves.new - vec_len moves.new + 4 * self.now.n) }
        ensures room_stays { OnErr result (vec_capacity moves.old - vec_len moves.old ≤ vec_capacity moves.new - vec_len moves.new) }
    {
        let mut next = self.to_moves(*moves.allocator())?;
        moves.append(&mut next)
    }
}
