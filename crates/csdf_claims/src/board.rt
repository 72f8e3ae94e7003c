//! The board and its calls.
ghost use Rattle.std.specs.Prelude.{◌≡◌, ◌≢◌, ℕ, ◌+◌, ◌*◌, ◌/◌, ◌<◌, ◌≤◌, ◌^◌, true, List, []};
ghost use Rattle.std.specs.Prelude.{if◌then◌else◌, length, slice_index, slice_index_or};
ghost use Rattle.std.specs.Prelude.{IfOk, IfErr, OnErr, MatchResult, MatchOption, IfSome};
ghost use Rattle.std.specs.Mem.Slots.{slots_items, slots_len, IsFull};
ghost use Rattle.csdf_claims.specs.Board.{track_of, word_of, SitsAt, Finds, Holds, IsHolding, HasFinished};
ghost use Rattle.csdf_claims.specs.Board.{KeepsAll, KeepsJust, IsBlank};
ghost use Rattle.csdf_claims.specs.Board.{Gathers, Lacks, IsNew, word_after_claim, opening_view, looked};
ghost use Rattle.csdf_claims.specs.Board.{times, claimed, finished_view, finished_block, handed_back};
ghost use Rattle.csdf_claims.specs.Board.{newcomer_view, joined_view};
ghost use Rattle.csdf_claims.specs.Face.{LostBy, joined_entry, CountsTo};
ghost use Rattle.csdf_claims.specs.declared.place.Entry.{Entry};
ghost use Rattle.csdf_claims.specs.declared.rule.View.{View};

use crate::place::{Entry, Place, blank_entries};
use crate::rule::{Beside, Finish, GiveUp, Law, Look, Stand, Take, Together, View};
use atomic_table::{Closed, Seat, Table};
use csdf_model::{MAX_ACTORS, MAX_FIRINGS_PER_ACTOR};
use std::alloc::{AllocError, Global};
use std::marker::Model;
use thiserror::Error;

// The words of a board of the most actors, with the spare one.
const MOST_WORDS: usize = MAX_ACTORS + 1;

/// The board: a word for each actor, and one spare word, number 0, which belongs to no actor and stays 0.
///
/// Contracts see which board it is and how many actors it has. What the words and all places are between any two
/// steps is the rule of its table: the board is lawful.
#[derive(Drop)]
pub struct Board {
    table: Table<(), View, u32, Law, Global>,
    actors: u32,
}

impl Model for Board {
    ghost use Rattle.std.specs.Prelude.{◌≡◌, ◌+◌, ◌≤◌};
    ghost use Rattle.csdf_model.specs.declared.limits.TheConstants.{MAX_ACTORS};
    ghost use Rattle.csdf_claims.specs.Face.{BoardFace};

    ghost Value = { BoardFace };

    ghost view = { λ b. record { id = b.table.shared.table_id; actors = b.table.shared.key } };

    ghost invariant = { λ b. (b.table.shared.table_id.words ≡ b.table.shared.key + 1)
        × (b.table.shared.table_id.slots ≡ 0) × (b.table.shared.key ≤ MAX_ACTORS) × (b.actors ≡ b.table.shared.key) };
}

/// Why a claim was lost.
#[derive(Clone, Copy, PartialEq, Eq, Debug, Drop, Error)]
pub enum Lost {
    /// Some place holds the actor at this firing.
    #[error("some place holds the actor at firing {0}")]
    Held(u32),
    /// The actor is idle at this firing, which is not the one that was asked for.
    #[error("the actor is idle at firing {0}")]
    Moved(u32),
}

/// An actor, and the firing number of its word: another place finished some of the firings below it.
#[derive(Clone, Copy, PartialEq, Eq, Debug, Drop, Error)]
#[error("another place finished some of the first {1} firings of actor {0}")]
pub struct Missing(pub u32, pub u32);

impl Board {
    /// A board on which every actor is idle at firing 0, and its first place, which holds, has finished and has
    /// seen nothing. `AllocError` where memory runs out.
    pub fn new(alloc: Global, actors: u32) -> Result<(Board, Place), AllocError>
        requires { actors ≤ MAX_ACTORS }
        ensures actors { IfOk result (λ r. r.0.actors ≡ actors) }
        ensures board { IfOk result (λ r. r.1.board ≡ r.0.id) }
        ensures view { IfOk result (λ r. r.1.view ≡ opening_view actors) }
        ensures words { IfOk result (λ r. IsNew r.1.view) }
    {
        let entries = blank_entries(alloc, actors as usize)?;
        let zeros = [0; MOST_WORDS];
        let words = &zeros[..actors as usize + 1];
        let (table, seat) = open_table(alloc, words, actors)?;
        Ok((Board { table, actors }, Place { entries, seat }))
    }

    /// How many actors the board has.
    pub fn actors(&self) -> u32
        ensures value { result ≡ self.now.actors }
        ensures few { result ≤ MAX_ACTORS }
    {
        self.actors
    }

    /// Claims a firing of an actor, by one compare-exchange. A claim is won where the actor was idle at that firing.
    /// Else it is lost, and the place has seen the word that says why: no word, claim or finished firing changes.
    pub fn try_claim(&self, place: &mut Place, actor: u32, firing: u32) -> Result<(), Lost>
        requires place { place.old.board ≡ self.now.id }
        requires actor { actor < self.now.actors }
        requires firing { firing ≤ MAX_FIRINGS_PER_ACTOR }
        ensures board { place.new.board ≡ place.old.board }
        ensures answer { MatchResult result (λ _. place.new.view.found ≡ 2 * firing) (LostBy firing place.new.view.found) }
        ensures won { IfOk result (λ _. place.new.view ≡ claimed place.old.view actor firing) }
        ensures lost { IfErr result (λ _. place.new.view ≡ looked place.old.view actor place.new.view.found) }
        ensures holds { IfOk result (λ _. Holds place.new.view actor firing) }
        ensures keeps { KeepsAll place.old.view place.new.view }
        ensures no_more { OnErr result (KeepsJust place.old.view place.new.view) }
        ensures found { Finds place.old.view actor place.new.view.found }
        ensures left { Finds place.new.view actor (word_after_claim firing place.new.view.found) }
        ensures seen { (track_of place.old.view actor).seen ≤ place.new.view.found / 2 }
    {
        let idle = 2 * firing as u64;
        let seat = &mut place.seat;
        let word = actor as usize + 1;
        let found = self
            .table
            .shared
            .compare_exchange::<Take>(seat, word, idle, idle + 1);
        if found != idle {
            return Err(lost_by(found));
        }
        place.entries[actor as usize].held = Some(firing);
        Ok(())
    }

    /// The firing that the place holds is finished, by one store.
    pub fn done(&self, place: &mut Place, actor: u32)
        requires place { place.old.board ≡ self.now.id }
        requires actor { actor < self.now.actors }
        requires held { IsHolding place.old.view actor }
        ensures board { place.new.board ≡ place.old.board }
        ensures view { (k : ℕ) → Holds place.old.view actor k → place.new.view ≡ finished_view place.old.view actor k }
        ensures left { (k : ℕ) → Holds place.old.view actor k → Finds place.new.view actor (2 * k + 2) }
    {
        self.done_many(place, actor, 1);
    }

    /// The firing that the place holds is finished, and those that follow it, `count` in all, by one store. Where
    /// there are several, the last is firing 16,384,000 at most; of a single one its claim has seen to that.
    pub fn done_many(&self, place: &mut Place, actor: u32, count: u32)
        requires place { place.old.board ≡ self.now.id }
        requires actor { actor < self.now.actors }
        requires held { IsHolding place.old.view actor }
        requires count { 1 ≤ count }
        requires fits { (k : ℕ) → 1 < count → Holds place.old.view actor k → k + count ≤ MAX_FIRINGS_PER_ACTOR + 1 }
        ensures board { place.new.board ≡ place.old.board }
        ensures view { (k : ℕ) → Holds place.old.view actor k → place.new.view ≡ finished_block place.old.view actor k count }
        ensures left { (k : ℕ) → Holds place.old.view actor k → Finds place.new.view actor (2 * (k + count)) }
        ensures each { (k x : ℕ) → Holds place.old.view actor k → k ≤ x → x < k + count
            → times x (track_of place.new.view actor).finished ≡ 1 }
    {
        let index = actor as usize;
        let Some(firing) = place.entries[index].held else {
            unreachable!()
        };
        let next = 2 * (firing as u64 + count as u64);
        self.table
            .shared
            .store::<Finish>(&mut place.seat, index + 1, next);
        let entry = &mut place.entries[index];
        entry.finished += count;
        entry.held = None;
    }

    /// The claim that the place holds is given up, by one store: the actor is idle at the same firing, and nothing
    /// is finished.
    pub fn hand_back(&self, place: &mut Place, actor: u32)
        requires place { place.old.board ≡ self.now.id }
        requires actor { actor < self.now.actors }
        requires held { IsHolding place.old.view actor }
        ensures board { place.new.board ≡ place.old.board }
        ensures view { place.new.view ≡ handed_back place.old.view actor }
        ensures left { (k : ℕ) → Holds place.old.view actor k → Finds place.new.view actor (2 * k) }
    {
        let index = actor as usize;
        let Some(firing) = place.entries[index].held else {
            unreachable!()
        };
        let back = 2 * firing as u64;
        self.table
            .shared
            .store::<GiveUp>(&mut place.seat, index + 1, back);
        place.entries[index].held = None;
    }

    /// The firing at which the actor stands, and whether some place holds it there, by one load.
    pub fn peek(&self, place: &mut Place, actor: u32) -> (u32, bool)
        requires place { place.old.board ≡ self.now.id }
        requires actor { actor < self.now.actors }
        ensures board { place.new.board ≡ place.old.board }
        ensures view { place.new.view ≡ looked place.old.view actor place.new.view.found }
        ensures keeps { KeepsAll place.old.view place.new.view }
        ensures no_more { KeepsJust place.old.view place.new.view }
        ensures answer { place.new.view.found ≡ 2 * result.0 + (if result.1 then 1 else 0) }
        ensures found { Finds place.old.view actor place.new.view.found }
        ensures left { Finds place.new.view actor place.new.view.found }
        ensures seen { (track_of place.old.view actor).seen ≤ result.0 }
        ensures own { (k : ℕ) → Holds place.old.view actor k → result ≡ (k, true) }
    {
        let found = self
            .table
            .shared
            .load::<Look>(&mut place.seat, actor as usize + 1);
        ((found / 2) as u32, found % 2 == 1)
    }

    /// A new place beside an old one, which has seen what the old one has, and holds and has finished nothing.
    /// `AllocError` where memory runs out, and then nothing changes.
    pub fn split(&self, alloc: Global, place: &mut Place) -> Result<Place, AllocError>
        requires { place.old.board ≡ self.now.id }
        ensures board { IfOk result (λ new. new.board ≡ place.old.board) }
        ensures view { IfOk result (λ new. new.view ≡ newcomer_view place.old.view) }
        ensures blank { IfOk result (λ new. IsBlank new.view) }
        ensures same { place.new ≡ place.old }
        ensures keeps { KeepsAll place.old.view place.new.view }
    {
        let entries = blank_entries(alloc, place.entries.len())?;
        let seat = self.table.shared.split_seat::<Beside>(&mut place.seat);
        Ok(Place { entries, seat })
    }

    /// The claims and the finished firings of the second place go to the first. They had none in common.
    ///
    /// Both steps are loads of the spare word: the first makes one seat of the two and tells nothing, and the
    /// second shows that the seat so made is one of a lawful board.
    pub fn join(&self, place: &mut Place, other: Place)
        requires place { place.old.board ≡ self.now.id }
        requires other { other.board ≡ self.now.id }
        ensures board { place.new.board ≡ place.old.board }
        ensures view { place.new.view ≡ joined_view place.old.view other.view }
        ensures firings { (a x : ℕ) → a < self.now.actors → HasFinished place.old.view a x → ¬ HasFinished other.view a x }
        ensures claims { (a : ℕ) → a < self.now.actors → IsHolding place.old.view a → ¬ IsHolding other.view a }
        ensures left { (words : List ℕ) × (places : List View) × SitsAt place.new.view words places }
    {
        let Place { entries, seat } = other;
        self.table
            .shared
            .join_seat::<Together>(&mut place.seat, seat);
        self.table.shared.load::<Stand>(&mut place.seat, 0);
        add_entries(place.entries.as_mut_slice(), entries.as_slice());
    }

    /// Ends the board, and writes how many firings of each actor the place has finished, with those of the places
    /// that were joined into it. `Missing(a, n)`: actor `a` is the first whose word names another number, `n`, since
    /// another place finished some. The slice is then unchanged.
    pub fn gather(self, place: Place, totals: &mut [u32]) -> Result<(), Missing>
        requires place { place.board ≡ self.id }
        requires totals { length totals.old ≡ self.actors }
        ensures all { IfOk result (λ _. Gathers place.view totals.new) }
        ensures missing { IfErr result (λ m. Lacks place.view m.0 m.1) }
        ensures same { OnErr result (totals.new ≡ totals.old) }
    {
        let Board { table, actors: _ } = self;
        let Place { entries, seat } = place;
        let closed = table.close_with(seat);
        let missing = first_missing(&closed, entries.as_slice());
        closed.free();
        if let Some(missing) = missing {
            return Err(missing);
        }
        write_totals(totals, entries.as_slice());
        Ok(())
    }
}

// A table of these words, with its first seat.
fn open_table(
    alloc: Global,
    words: &[u64],
    actors: u32,
) -> Result<(Table<(), View, u32, Law, Global>, Seat<(), View>), AllocError>
    requires count { length words.now ≡ actors + 1 }
    requires zeros { (i : ℕ) → slice_index words.now i ≡ 0 }
    ensures words { IfOk result (λ t. t.0.shared.table_id.words ≡ actors + 1) }
    ensures slots { IfOk result (λ t. t.0.shared.table_id.slots ≡ 0) }
    ensures key { IfOk result (λ t. t.0.shared.key ≡ actors) }
    ensures seat { IfOk result (λ t. (t.1.table_id ≡ t.0.shared.table_id) × (t.1.me ≡ (opening_view actors, []))) }
{
    Table::of_words(alloc, words, &actors)
}

// What a word says that was found in place of an idle one.
fn lost_by(found: u64) -> Lost
    requires { found ≤ 2 * (MAX_FIRINGS_PER_ACTOR + 1) }
    ensures { (k : ℕ) → found ≢ 2 * k → LostBy k found result }
{
    let at = (found / 2) as u32;
    if found % 2 == 1 {
        Lost::Held(at)
    } else {
        Lost::Moved(at)
    }
}

// Adds the second record to the first.
fn add_entries(entries: &mut [Entry], others: &[Entry])
    requires length { length entries.old ≡ length others.now }
    requires fits { (i : ℕ) (d : Entry) → i < length others.now
        → (slice_index_or entries.old i d).finished + (slice_index_or others.now i d).finished < 2 ^ 32 }
    ensures { (i : ℕ) (d : Entry) → i < length others.now
        → slice_index_or entries.new i d ≡ joined_entry (slice_index_or entries.old i d) (slice_index_or others.now i d) }
{
    for (i, other) in others.iter().enumerate() {
        let entry = entries[i];
        entries[i] = Entry {
            finished: entry.finished + other.finished,
            held: entry.held.or(other.held),
        };
    }
}

// The first actor of which the record lacks finished firings, with its word's firing number.
fn first_missing(closed: &Closed<(), Global>, entries: &[Entry]) -> Option<Missing>
    requires full { IsFull closed.now.words }
    requires length { length entries.now + 1 ≡ slots_len closed.now.words }
    requires actors { length entries.now ≤ MAX_ACTORS }
    requires fits { (i : ℕ) → i < length entries.now → slice_index (slots_items closed.now.words) (i + 1) ≤ 2 * (MAX_FIRINGS_PER_ACTOR + 1) }
    ensures none { MatchOption result (CountsTo (length entries.now) entries.now (slots_items closed.now.words)) (λ _. Unit {0}) }
    ensures some { IfSome result (λ m. (m.0 < length entries.now) × (m.1 ≡ word_of (slots_items closed.now.words) m.0 / 2)
        × ((d : Entry) → (slice_index_or entries.now m.0 d).finished ≢ m.1)) }
    ensures first { IfSome result (λ m. CountsTo m.0 entries.now (slots_items closed.now.words)) }
{
    for (i, entry) in entries.iter().enumerate() {
        let firing = (word_at(closed, i + 1) / 2) as u32;
        if entry.finished != firing {
            return Some(Missing(i as u32, firing));
        }
    }
    None
}

fn word_at(closed: &Closed<(), Global>, i: usize) -> u64
    requires { (i < slots_len closed.now.words) × IsFull closed.now.words }
    ensures { result ≡ slice_index (slots_items closed.now.words) i }
{
    closed.word(i)
}

fn write_totals(totals: &mut [u32], entries: &[Entry])
    requires { length totals.old ≡ length entries.now }
    ensures { (i : ℕ) (d : Entry) → i < length entries.now
        → slice_index totals.new i ≡ (slice_index_or entries.now i d).finished }
{
    for (i, entry) in entries.iter().enumerate() {
        totals[i] = entry.finished;
    }
}
