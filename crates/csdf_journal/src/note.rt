//! A move, with its tokens where they lie.

ghost use Rattle.std.specs.Prelude.{◌≡◌, ◌++◌, ◌≤◌, [], false, length};
ghost use Rattle.std.specs.Vec.{vec_capacity};
ghost use Rattle.csdf_core.specs.Moves.{move_of};
ghost use Rattle.csdf_journal.specs.Noted.{noted, tokens_in, is_write};

use csdf_core::Move;
use std::mem;

/// A move of a firing, or the closing of a channel, that takes no memory.
#[derive(Clone, Copy, Drop)]
pub(crate) enum Note<'a> {
    Begin(u32),
    Read(u32),
    Write(u32, &'a [i32]),
    Finish(u32),
    Close(u32),
}

/// Puts the tokens into the list, which has room for them.
fn append(list: &mut Vec<i32>, tokens: &[i32])
    requires empty { list.old.items ≡ [] }
    requires room { length tokens.now ≤ vec_capacity list.old }
    ensures { list.new.items ≡ tokens.now }
{
    match list.extend_from_slice(tokens) {
        Ok(()) => {}
        Err(_) => unreachable!(),
    }
}

/// The spare list with the tokens in it, which leaves an empty one in its place.
fn filled(spare: &mut Vec<i32>, tokens: &[i32]) -> Vec<i32>
    requires empty { spare.old.items ≡ [] }
    requires room { length tokens.now ≤ vec_capacity spare.old }
    ensures value { result.items ≡ tokens.now }
    ensures empty { spare.new.items ≡ [] }
{
    let left = Vec::new(*spare.allocator());
    let mut list = mem::replace(spare, left);
    append(&mut list, tokens);
    list
}

impl Note<'_> {
    /// The move as data, with its tokens in the spare list, which is empty and has room for them.
    /// Another empty list takes its place.
    pub(crate) fn to_move(&self, spare: &mut Vec<i32>) -> Move
        requires empty { spare.old.items ≡ [] }
        requires room { length (tokens_in (noted self.now)) ≤ vec_capacity spare.old }
        ensures value { move_of result ≡ noted self.now }
        ensures empty { spare.new.items ≡ [] }
        ensures stays { is_write (noted self.now) ≡ false → spare.new ≡ spare.old }
    {
        match *self {
            Note::Begin(actor) => Move::Begin(actor),
            Note::Read(actor) => Move::Read(actor),
            Note::Write(actor, tokens) => Move::Write(actor, filled(spare, tokens)),
            Note::Finish(actor) => Move::Finish(actor),
            Note::Close(channel) => Move::Close(channel),
        }
    }
}
