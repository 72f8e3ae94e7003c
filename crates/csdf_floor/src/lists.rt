//! A list of tokens for each actor.

ghost use Rattle.std.specs.Prelude.{◌≡◌, ◌<◌, ◌≤◌, ◌++◌, [], if◌then◌else◌, IsTrue, All, IfOk, OnOk, length, map, replicate, slice_index};
ghost use Rattle.std.specs.Prelude.{slice_index_or, slice_set};
ghost use Rattle.csdf_floor.specs.Work.{feeds_in};

use std::alloc::{AllocError, Global};
use std::marker::Model;

/// A list of tokens for each actor, which grows at its end.
#[derive(Drop)]
pub(crate) struct Lists {
    lists: Vec<Vec<i32>>,
}

impl Model for Lists {
    ghost use Rattle.std.specs.Prelude.{map, ◌-◌, vec_capacity, vec_len};
    ghost use Rattle.csdf_floor.specs.Inside.{ListsView};

    ghost Value = { ListsView };

    ghost view = { λ l. record { lists = map (λ v. v.items) l.lists.items; rooms = map (λ v. vec_capacity v - vec_len v) l.lists.items } };
}

impl Lists {
    /// As many empty lists.
    pub(crate) fn new(alloc: Global, actors: u32) -> Result<Lists, AllocError>
        ensures { IfOk result (λ all. all.lists ≡ replicate actors []) }
    {
        let mut lists = Vec::new(alloc);
        for _ in 0..actors {
            lists.push(Vec::new(alloc))?;
        }
        Ok(Lists { lists })
    }

    /// The lists.
    pub(crate) fn lists(&self) -> &[Vec<i32>]
        ensures { map (λ v. v.items) result.now ≡ self.now.lists }
    {
        &self.lists
    }

    /// The lists, whole.
    pub(crate) fn into_lists(self) -> Vec<Vec<i32>>
        ensures { map (λ v. v.items) result.items ≡ self.lists }
    {
        self.lists
    }

    /// Makes room for so many more tokens of the actor.
    pub(crate) fn reserve(&mut self, actor: u32, more: usize) -> Result<(), AllocError>
        requires { actor < length self.old.lists }
        ensures lists { self.new.lists ≡ self.old.lists }
        ensures room { OnOk result (more ≤ slice_index self.new.rooms actor) }
    {
        self.lists[actor as usize].reserve(more)
    }

    /// Puts tokens at the end of the actor's list, which has room for them.
    pub(crate) fn append(&mut self, actor: u32, tokens: &[i32])
        requires exists { actor < length self.old.lists }
        requires room { length tokens.now ≤ slice_index self.old.rooms actor }
        ensures { self.new.lists ≡ slice_set self.old.lists actor (slice_index_or self.old.lists actor [] ++ tokens.now) }
    {
        match self.lists[actor as usize].extend_from_slice(tokens) {
            Ok(()) => {}
            Err(_) => unreachable!(),
        }
    }

    /// Appends the tokens to the actor's list where they are wanted, and else does nothing.
    pub(crate) fn append_where(&mut self, wanted: bool, actor: u32, tokens: &[i32])
        requires exists { actor < length self.old.lists }
        requires room { IsTrue wanted → length tokens.now ≤ slice_index self.old.rooms actor }
        ensures { self.new.lists ≡ (if wanted then slice_set self.old.lists actor (slice_index_or self.old.lists actor [] ++ tokens.now) else self.old.lists) }
    {
        if wanted {
            self.append(actor, tokens);
        }
    }
}

/// The list with this number; the empty list where there is none.
pub fn list_at(lists: &[Vec<i32>], number: usize) -> &[i32]
    ensures { result.now ≡ slice_index_or (feeds_in lists.now) number [] }
{
    match lists.get(number) {
        Some(list) => list.as_slice(),
        None => &[],
    }
}
