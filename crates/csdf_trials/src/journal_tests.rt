//! A journal that keeps its moves beside one that does not.

use crate::shared::expect_eq;
use csdf_journal::{Journal, Keeping};
use std::alloc::{AllocError, Global};
use std::test::Fail;

/// A journal of a begin and a write of actor 3.
fn journal_of(alloc: Global, keeping: Keeping) -> Result<Journal, AllocError> {
    let mut journal = Journal::new(alloc, keeping);
    journal.reserve(2)?;
    journal.note_begin(3);
    journal.reserve_copy(alloc, 2)?;
    journal.note_write(3, &[5, -6]);
    Ok(journal)
}

/// Threads may have the value, and look at it.
fn may_cross<T: Send + Sync>(_value: &T) {}

#[test]
fn moves_are_told_where_they_are_kept(rt: HostRuntime) -> Result<(), Fail> {
    let journal = journal_of(rt.alloc(), Keeping::Kept)?;
    may_cross(&journal);
    expect_eq(&rt, journal.moves().len(), 2);
    let text = format!(in rt.alloc(); "{:?}", journal.into_moves())?;
    expect_eq(&rt, text.as_str(), "[Begin(3), Write(3, [5, -6])]");
    Ok(())
}

#[test]
fn none_are_told_where_none_are_kept(rt: HostRuntime) -> Result<(), Fail> {
    let journal = journal_of(rt.alloc(), Keeping::NotKept)?;
    expect_eq(&rt, journal.moves().len(), 0);
    expect_eq(&rt, journal.into_moves().len(), 0);
    Ok(())
}
