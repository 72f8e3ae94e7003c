//! Pools, cores and their moves, journals, and boards.

ghost use Rattle.std.specs.Prelude.{◌≡◌, ◌≤◌, All, IfOk, length};

use crate::limits::rows::{SIZES, Size, accepted_of, expect_eq};
use csdf_analysis::Accepted;
use csdf_claims::{Board, Place};
use csdf_core::{Core, Move, play_on};
use csdf_journal::{Journal, Keeping};
use csdf_model::MAX_ACTORS;
use csdf_pool::Pool;
use std::alloc::{AllocError, Global};
use std::process::Abort;
use std::test::Fail;

fn check_pool(rt: &impl Abort, alloc: Global, cells: u32, chains: u32) -> Result<(), Fail> {
    assert!(rt; cells <= 8_388_480);
    assert!(rt; chains <= 128);
    let pool = Pool::new(alloc, cells, chains)?;
    expect_eq(rt, pool.free_len(), cells);
    Ok(())
}

#[test]
fn pools_have_as_many_cells_as_may_be(rt: HostRuntime) -> Result<(), Fail> {
    check_pool(&rt, rt.alloc(), 1, 1)?;
    check_pool(&rt, rt.alloc(), 4_096, 64)?;
    check_pool(&rt, rt.alloc(), 8_388_480, 128)
}

/// One firing of each actor, and no token for a source.
fn ones(alloc: Global, actors: usize) -> Result<Vec<u32>, AllocError>
    ensures length { IfOk result (λ v. length v.items ≡ actors) }
    ensures few { IfOk result (λ v. All (λ n. n ≤ 16_384_000) v.items) }
{
    let limits = vec![in alloc; 1; actors]?;
    Ok(limits)
}

fn core_of(alloc: Global, accepted: &Accepted) -> Result<Core, Fail> {
    let actors = accepted.graph().actors().len();
    let limits = ones(alloc, actors)?;
    let supply = ones(alloc, actors)?;
    Ok(Core::new(alloc, accepted, limits, supply, None)?)
}

/// The begin of the last actor, which has no token, over and over.
fn begins(alloc: Global, actor: u32, count: u32) -> Result<Vec<Move>, AllocError> {
    let mut moves = Vec::new(alloc);
    for _ in 0..count {
        moves.push(Move::Begin(actor))?;
    }
    Ok(moves)
}

fn check_moves(rt: &impl Abort, alloc: Global, core: &mut Core, count: u32) -> Result<(), Fail> {
    let last = core.actors().saturating_sub(1);
    let moves = begins(alloc, last, count)?;
    let replies = play_on(core, alloc, &moves)?;
    expect_eq(rt, replies.len(), count as usize);
    Ok(())
}

fn check_core(rt: &impl Abort, alloc: Global, size: Size, count: u32) -> Result<(), Fail> {
    let accepted = accepted_of(alloc, size)?;
    let mut core = core_of(alloc, &accepted)?;
    check_moves(rt, alloc, &mut core, count)
}

#[test]
fn cores_play_as_many_moves_as_may_be(rt: HostRuntime) -> Result<(), Fail> {
    check_core(&rt, rt.alloc(), SIZES[0], 1)?;
    check_core(&rt, rt.alloc(), SIZES[1], 1_000)?;
    check_core(&rt, rt.alloc(), SIZES[2], 100_000)
}

fn check_journal(alloc: Global, moves: u32, tokens: u32) -> Result<(), AllocError> {
    let mut journal = Journal::new(alloc, Keeping::Kept);
    journal.reserve(moves as usize)?;
    journal.reserve_copy(alloc, tokens as usize)
}

#[test]
fn journals_have_room_for_long_runs(rt: HostRuntime) -> Result<(), Fail> {
    check_journal(rt.alloc(), 1, 1)?;
    check_journal(rt.alloc(), 1_000, 64)?;
    check_journal(rt.alloc(), 16_000_000, 8_192)?;
    Ok(())
}

/// So many places beside the first.
fn check_places(
    alloc: Global,
    board: &Board,
    place: &mut Place,
    count: u32,
) -> Result<(), AllocError>
    requires { place.old.board ≡ board.now.id }
    ensures { place.new.board ≡ board.now.id }
{
    for _ in 0..count {
        let _place = board.split(alloc, place)?;
    }
    Ok(())
}

fn check_board(alloc: Global, actors: u32, places: u32) -> Result<(), AllocError>
    requires { actors ≤ MAX_ACTORS }
{
    let (board, mut place) = Board::new(alloc, actors)?;
    check_places(alloc, &board, &mut place, places)
}

#[test]
fn boards_have_a_place_for_each_worker(rt: HostRuntime) -> Result<(), Fail> {
    check_board(rt.alloc(), 1, 1)?;
    check_board(rt.alloc(), 32, 4)?;
    check_board(rt.alloc(), 64, 8)?;
    Ok(())
}
