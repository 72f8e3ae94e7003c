//! The journal of a run.
//!
//! What notes a move is inlined: where no move is kept, it is a test of one byte, and each firing notes
//! four moves.

ghost use Rattle.std.specs.Prelude.{◌≡◌, ◌<◌, ◌≤◌, ◌+◌, ◌*◌, [], ◌∷◌, ◌++◌, IsOk, OnOk, OnErr, false, true, length, map};
ghost use Rattle.csdf_core.specs.Blocks.{firings_of};
ghost use Rattle.csdf_core.specs.Moves.{Begin, Read, Write, Finish, Close, move_of};
ghost use Rattle.csdf_core.specs.Step.{count};
ghost use Rattle.csdf_journal.specs.View.{is_kept, told};

use crate::firings::Firings;
use crate::keeping::Keeping;
use crate::note::Note;
use crate::past::Past;
use csdf_core::{Core, Move};
use std::alloc::{AllocError, Global};
use std::marker::Model;

/// The moves that were made, in order. They are always there for proofs, and as data only where the
/// journal keeps them; where it does not, it takes no memory.
#[derive(Debug, Drop)]
pub struct Journal {
    past: Past,
    keeping: Keeping,
    /// The moves where they are kept, and nothing where they are not.
    moves: Vec<Move>,
    /// An empty list, with room for the tokens of a write.
    spare: Vec<i32>,
}

impl Model for Journal {
    ghost use Rattle.std.specs.Prelude.{map, ◌-◌, vec_capacity, vec_len};
    ghost use Rattle.csdf_core.specs.Moves.{move_of};
    ghost use Rattle.csdf_journal.specs.View.{JournalView, IsJournal, is_kept, room_where};

    ghost Value = { JournalView };

    ghost view = { λ j. record {
      moves = j.past.moves;
      keeps = is_kept j.keeping;
      room = room_where (is_kept j.keeping) (vec_capacity j.moves - vec_len j.moves);
      width = room_where (is_kept j.keeping) (vec_capacity j.spare);
    } };

    ghost invariant = { λ j. IsJournal (is_kept j.keeping) j.past.moves (map move_of j.moves.items) j.spare.items };
}

impl Journal {
    ghost use Rattle.csdf_journal.specs.Noted.{gifts_from, noted, tokens_in, is_write};

    /// A journal of no moves, which keeps them or does not.
    pub fn new(alloc: Global, keeping: Keeping) -> Journal
        ensures moves { result.moves ≡ [] }
        ensures keeps { result.keeps ≡ is_kept keeping }
    {
        Journal {
            past: Past::new(),
            keeping,
            moves: Vec::new(alloc),
            spare: Vec::new(alloc),
        }
    }

    /// Whether it keeps the moves.
    pub fn keeps(&self) -> bool
        ensures { result ≡ self.now.keeps }
    {
        self.keeping.is_kept()
    }

    /// The moves, where they are kept; an empty list where they are not.
    pub fn moves(&self) -> &[Move]
        ensures { map move_of result.now ≡ told self.now.keeps self.now.moves }
    {
        &self.moves
    }

    /// The moves, where they are kept; an empty list where they are not.
    pub fn into_moves(self) -> Vec<Move>
        ensures { map move_of result.items ≡ told self.keeps self.moves }
    {
        let Journal { moves, .. } = self;
        moves
    }

    /// Makes room for so many moves more, where moves are kept. Where they are not, there is always
    /// room, and it takes no memory.
    ///
    /// An error says that memory ran out.
    pub fn reserve(&mut self, more: usize) -> Result<(), AllocError>
        ensures moves { self.new.moves ≡ self.old.moves }
        ensures keeps { self.new.keeps ≡ self.old.keeps }
        ensures room { OnOk result (more ≤ self.new.room) }
        ensures greater { self.old.room ≤ self.new.room }
        ensures width { self.new.width ≡ self.old.width }
        ensures takes_nothing { self.old.keeps ≡ false → IsOk result }
    {
        if self.keeps() {
            self.moves.reserve(more)?;
        }
        Ok(())
    }

    /// Makes room for a copy of so many tokens, those of the next move where it is a write, where moves
    /// are kept. Where they are not, there is always room, and it takes no memory.
    ///
    /// An error says that memory ran out.
    pub fn reserve_copy(&mut self, alloc: Global, tokens: usize) -> Result<(), AllocError>
        ensures moves { self.new.moves ≡ self.old.moves }
        ensures keeps { self.new.keeps ≡ self.old.keeps }
        ensures room { self.new.room ≡ self.old.room }
        ensures width { OnOk result (tokens ≤ self.new.width) }
        ensures greater { self.old.width ≤ self.new.width }
        ensures takes_nothing { self.old.keeps ≡ false → IsOk result }
    {
        if self.keeps() && self.spare.capacity() < tokens {
            self.spare = Vec::with_capacity(alloc, tokens)?;
        }
        Ok(())
    }

    /// Notes the move.
    #[inline(always)]
    fn note(&mut self, note: &Note<'_>)
        requires room { 0 < self.old.room }
        requires width { length (tokens_in (noted note.now)) ≤ self.old.width }
        ensures moves { self.new.moves ≡ self.old.moves ++ noted note.now ∷ [] }
        ensures keeps { self.new.keeps ≡ self.old.keeps }
        ensures room { self.old.room ≤ self.new.room + 1 }
        ensures width { is_write (noted note.now) ≡ false → self.new.width ≡ self.old.width }
        ensures width_stays { self.old.keeps ≡ false → self.new.width ≡ self.old.width }
    {
        if self.keeps() {
            self.moves.push_reserved(note.to_move(&mut self.spare));
        }
        self.past = self.past.then(note);
    }

    /// Notes that the actor began a firing.
    #[inline(always)]
    pub fn note_begin(&mut self, actor: u32)
        requires { 0 < self.old.room }
        ensures moves { self.new.moves ≡ self.old.moves ++ Begin actor ∷ [] }
        ensures keeps { self.new.keeps ≡ self.old.keeps }
        ensures room { self.old.room ≤ self.new.room + 1 }
        ensures width { self.new.width ≡ self.old.width }
    {
        self.note(&Note::Begin(actor));
    }

    /// Notes that the actor took the tokens of its firing.
    #[inline(always)]
    pub fn note_read(&mut self, actor: u32)
        requires { 0 < self.old.room }
        ensures moves { self.new.moves ≡ self.old.moves ++ Read actor ∷ [] }
        ensures keeps { self.new.keeps ≡ self.old.keeps }
        ensures room { self.old.room ≤ self.new.room + 1 }
        ensures width { self.new.width ≡ self.old.width }
    {
        self.note(&Note::Read(actor));
    }

    /// Notes that the actor wrote these tokens.
    #[inline(always)]
    pub fn note_write(&mut self, actor: u32, tokens: &[i32])
        requires room { 0 < self.old.room }
        requires width { length tokens.now ≤ self.old.width }
        ensures moves { self.new.moves ≡ self.old.moves ++ Write actor tokens.now ∷ [] }
        ensures keeps { self.new.keeps ≡ self.old.keeps }
        ensures room { self.old.room ≤ self.new.room + 1 }
        ensures width_stays { self.old.keeps ≡ false → self.new.width ≡ self.old.width }
    {
        self.note(&Note::Write(actor, tokens));
    }

    /// Notes that the actor ended its firing.
    #[inline(always)]
    pub fn note_finish(&mut self, actor: u32)
        requires { 0 < self.old.room }
        ensures moves { self.new.moves ≡ self.old.moves ++ Finish actor ∷ [] }
        ensures keeps { self.new.keeps ≡ self.old.keeps }
        ensures room { self.old.room ≤ self.new.room + 1 }
        ensures width { self.new.width ≡ self.old.width }
    {
        self.note(&Note::Finish(actor));
    }

    /// Notes that the channel was closed.
    #[inline(always)]
    pub fn note_close(&mut self, channel: u32)
        requires { 0 < self.old.room }
        ensures moves { self.new.moves ≡ self.old.moves ++ Close channel ∷ [] }
        ensures keeps { self.new.keeps ≡ self.old.keeps }
        ensures room { self.old.room ≤ self.new.room + 1 }
        ensures width { self.new.width ≡ self.old.width }
    {
        self.note(&Note::Close(channel));
    }

    /// Notes the actor's next n firings, which the core has not made yet: they write these tokens, one
    /// firing's after another's, and each as many as its entry of the gifts. Where moves are kept it
    /// makes room for them; where they are not, it reads no gifts and does nothing when it runs.
    ///
    /// An error says that memory ran out; then nothing is noted.
    #[inline(always)]
    pub fn note_firings(
        &mut self,
        core: &Core,
        actor: u32,
        n: u32,
        gifts: &[usize],
        tokens: &[i32],
    ) -> Result<(), AllocError>
        requires gifts { self.old.keeps ≡ true → gifts.now ≡ gifts_from core.now.plan.channels actor (count core.now.now actor) n }
        ensures moves { OnOk result (self.new.moves ≡ self.old.moves
            ++ firings_of core.now.plan.channels actor (count core.now.now actor) n tokens.now) }
        ensures unchanged { OnErr result (self.new.moves ≡ self.old.moves) }
        ensures keeps { self.new.keeps ≡ self.old.keeps }
        ensures room { OnOk result (self.old.room ≤ self.new.room + 4 * n) }
        ensures room_stays { OnErr result (self.old.room ≤ self.new.room) }
        ensures width { self.new.width ≡ self.old.width }
        ensures takes_nothing { self.old.keeps ≡ false → IsOk result }
    {
        let firings = Firings {
            core,
            actor,
            n,
            gifts,
            tokens,
        };
        if self.keeps() {
            firings.append_to(&mut self.moves)?;
        }
        self.past = self.past.then_all(&firings);
        Ok(())
    }
}
