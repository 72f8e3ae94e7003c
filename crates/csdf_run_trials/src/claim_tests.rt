ghost use Rattle.std.specs.Prelude.{◌≡◌, ◌+◌, ◌<◌, ◌≤◌, [], ◌∷◌, length, IfOk};
ghost use Rattle.csdf_claims.specs.Board.{Holds, IsLawful, KeepsAll};
ghost use Rattle.csdf_claims.specs.Laws.{first_done, second_held};

use crate::shared::expect_eq;
use csdf_claims::{Board, Lost, Missing, Place};
use csdf_model::{MAX_ACTORS, MAX_FIRINGS_PER_ACTOR};
use std::alloc::{AllocError, Global};
use std::process::Abort;
use std::sync::Wait;
use std::test::Fail;
use std::thread;
use std::thread::Threads;

// With the first firing finished in one place and the second one held in another the word is 3. With 2 in its place,
// with a second holder or without the place that finished the first one the board isn't lawful.
fn lawful_by_example()
    ensures lawful { IsLawful 1 (0 ∷ 3 ∷ []) (first_done ∷ second_held ∷ []) }
    ensures idle { ¬ IsLawful 1 (0 ∷ 2 ∷ []) (first_done ∷ second_held ∷ []) }
    ensures twice { ¬ IsLawful 1 (0 ∷ 3 ∷ []) (first_done ∷ second_held ∷ second_held ∷ []) }
    ensures undone { ¬ IsLawful 1 (0 ∷ 3 ∷ []) (second_held ∷ []) }
{}

#[test]
fn the_definition_means_what_it_says() {
    lawful_by_example();
}

const TRIES: u32 = 10_000;

// A board with so many actors and two places.
fn board_of_two(alloc: Global, actors: u32) -> Result<(Board, Place, Place), AllocError>
    requires { actors ≤ MAX_ACTORS }
    ensures { IfOk result (λ r. (r.0.actors ≡ actors) × (r.1.board ≡ r.0.id) × (r.2.board ≡ r.0.id)) }
{
    let (board, mut p) = Board::new(alloc, actors)?;
    let q = board.split(alloc, &mut p)?;
    Ok((board, p, q))
}

// Claims a firing that is there to be had.
fn win<R: Abort>(rt: &R, board: &Board, place: &mut Place, actor: u32, firing: u32)
    requires place { place.old.board ≡ board.now.id }
    requires actor { actor < board.now.actors }
    requires firing { firing ≤ MAX_FIRINGS_PER_ACTOR }
    ensures board { place.new.board ≡ place.old.board }
    ensures holds { Holds place.new.view actor firing }
{
    let won = board.try_claim(place, actor, firing);
    let Ok(()) = won else {
        panic!(rt; "lost ({actor}, {firing})")
    };
}

// What a place holds and has finished stays while it tries another actor and has a place made beside it.
fn try_another(alloc: Global, board: &Board, place: &mut Place, other: u32)
    requires place { place.old.board ≡ board.now.id }
    requires other { other < board.now.actors }
    ensures board { place.new.board ≡ place.old.board }
    ensures keeps { KeepsAll place.old.view place.new.view }
{
    let _ = board.try_claim(place, other, 0);
    let _ = board.split(alloc, place);
}

// And where it looks at another actor it has no more than before, and can finish what it holds.
fn look_and_finish(board: &Board, place: &mut Place, held: (u32, u32), other: u32)
    requires place { place.old.board ≡ board.now.id }
    requires actor { held.0 < board.now.actors }
    requires other { other < board.now.actors }
    requires holds { Holds place.old.view held.0 held.1 }
    ensures board { place.new.board ≡ place.old.board }
{
    let _ = board.peek(place, other);
    board.done(place, held.0);
}

// The first firing of the one actor: `p` claims it, `q` can't, `p` finishes it, and `q` sees that.
fn first_firing<R: Abort>(rt: &R, board: &Board, p: &mut Place, q: &mut Place)
    requires p { p.old.board ≡ board.now.id }
    requires q { q.old.board ≡ board.now.id }
    requires actors { 0 < board.now.actors }
    ensures p { p.new.board ≡ p.old.board }
    ensures q { q.new.board ≡ q.old.board }
{
    win(rt, board, p, 0, 0);
    expect_eq(rt, board.try_claim(q, 0, 0), Err(Lost::Held(0)));
    board.done(p, 0);
    expect_eq(rt, board.try_claim(q, 0, 0), Err(Lost::Moved(1)));
}

// The second one: `q` claims it and hands it back, and `p` claims and finishes it.
fn second_firing<R: Abort>(rt: &R, board: &Board, p: &mut Place, q: &mut Place)
    requires p { p.old.board ≡ board.now.id }
    requires q { q.old.board ≡ board.now.id }
    requires actors { 0 < board.now.actors }
    ensures p { p.new.board ≡ p.old.board }
    ensures q { q.new.board ≡ q.old.board }
{
    win(rt, board, q, 0, 1);
    board.hand_back(q, 0);
    expect_eq(rt, board.peek(q, 0), (1, false));
    win(rt, board, p, 0, 1);
    expect_eq(rt, board.peek(q, 0), (1, true));
    board.done(p, 0);
}

// Actor 0 at this firing is held by another place: neither this firing nor a later one is to be had.
fn check_held<R: Abort>(rt: &R, board: &Board, place: &mut Place)
    requires place { place.old.board ≡ board.now.id }
    requires actors { 0 < board.now.actors }
    ensures board { place.new.board ≡ place.old.board }
{
    expect_eq(rt, board.try_claim(place, 0, 1), Err(Lost::Held(1)));
    expect_eq(rt, board.try_claim(place, 0, 5), Err(Lost::Held(1)));
}

// Actor 0 is past firing 1, and its next one is there to be had.
fn check_moved<R: Abort>(rt: &R, board: &Board, place: &mut Place)
    requires place { place.old.board ≡ board.now.id }
    requires actors { 0 < board.now.actors }
{
    expect_eq(rt, board.try_claim(place, 0, 1), Err(Lost::Moved(2)));
    win(rt, board, place, 0, 2);
}

#[test]
fn two_places_take_turns(rt: HostRuntime) -> Result<(), Fail> {
    let (board, mut p, mut q) = board_of_two(rt.alloc(), 1)?;
    first_firing(&rt, &board, &mut p, &mut q);
    win(&rt, &board, &mut q, 0, 1);
    check_held(&rt, &board, &mut p);
    board.done(&mut q, 0);
    check_moved(&rt, &board, &mut p);
    Ok(())
}

// Of two actors the place claims and finishes the second one's first firing, while it looks at the first one.
fn check_keeping<R: Abort>(rt: &R, alloc: Global, board: &Board, place: &mut Place)
    requires place { place.old.board ≡ board.now.id }
    requires actors { board.now.actors ≡ 2 }
{
    try_another(alloc, board, place, 0);
    win(rt, board, place, 1, 0);
    look_and_finish(board, place, (1, 0), 0);
    expect_eq(rt, board.peek(place, 0), (0, true));
    expect_eq(rt, board.peek(place, 1), (1, false));
}

#[test]
fn a_place_keeps_what_it_holds(rt: HostRuntime) -> Result<(), Fail> {
    let (board, mut p) = Board::new(rt.alloc(), 2)?;
    expect_eq(&rt, board.actors(), 2);
    check_keeping(&rt, rt.alloc(), &board, &mut p);
    Ok(())
}

// Ends the board with this place, and asserts the answer and what is then in the totals.
fn check_gathered<R: Abort>(
    rt: &R,
    board: Board,
    place: Place,
    totals: &mut [u32],
    answer: Result<(), Missing>,
    wanted: &[u32],
)
    requires place { place.board ≡ board.id }
    requires totals { length totals.old ≡ board.actors }
{
    expect_eq(rt, board.gather(place, totals), answer);
    expect_eq(rt, &*totals, wanted);
}

// Both firings of the one actor.
fn both_firings<R: Abort>(rt: &R, board: &Board, p: &mut Place, q: &mut Place)
    requires p { p.old.board ≡ board.now.id }
    requires q { q.old.board ≡ board.now.id }
    requires actors { 0 < board.now.actors }
    ensures p { p.new.board ≡ p.old.board }
    ensures q { q.new.board ≡ q.old.board }
{
    first_firing(rt, board, p, q);
    second_firing(rt, board, p, q);
}

#[test]
fn a_joined_place_gathers_all(rt: HostRuntime) -> Result<(), Fail> {
    let (board, mut p, mut q) = board_of_two(rt.alloc(), 1)?;
    both_firings(&rt, &board, &mut p, &mut q);
    board.join(&mut p, q);
    check_gathered(&rt, board, p, &mut [7], Ok(()), &[2]);
    Ok(())
}

#[test]
fn a_place_alone_misses_what_the_other_finished(rt: HostRuntime) -> Result<(), Fail> {
    let (board, mut p, mut q) = board_of_two(rt.alloc(), 1)?;
    both_firings(&rt, &board, &mut p, &mut q);
    check_gathered(&rt, board, q, &mut [7], Err(Missing(0, 2)), &[7]);
    Ok(())
}

// Claims the actor's first firing, and finishes it with those that follow it.
fn finish_block<R: Abort>(rt: &R, board: &Board, place: &mut Place, actor: u32, count: u32)
    requires place { place.old.board ≡ board.now.id }
    requires actor { actor < board.now.actors }
    requires some { 1 ≤ count }
    requires fits { count ≤ MAX_FIRINGS_PER_ACTOR + 1 }
    ensures board { place.new.board ≡ place.old.board }
{
    win(rt, board, place, actor, 0);
    board.done_many(place, actor, count);
}

// `p` finishes a block of three firings, and `q` the one after them.
fn a_block_and_one<R: Abort>(rt: &R, board: &Board, p: &mut Place, q: &mut Place)
    requires p { p.old.board ≡ board.now.id }
    requires q { q.old.board ≡ board.now.id }
    requires actors { 0 < board.now.actors }
    ensures p { p.new.board ≡ p.old.board }
    ensures q { q.new.board ≡ q.old.board }
{
    finish_block(rt, board, p, 0, 3);
    expect_eq(rt, board.try_claim(q, 0, 1), Err(Lost::Moved(3)));
    win(rt, board, q, 0, 3);
    board.done(q, 0);
}

#[test]
fn a_block_is_finished_at_once(rt: HostRuntime) -> Result<(), Fail> {
    let (board, mut p, mut q) = board_of_two(rt.alloc(), 1)?;
    a_block_and_one(&rt, &board, &mut p, &mut q);
    board.join(&mut p, q);
    check_gathered(&rt, board, p, &mut [7], Ok(()), &[4]);
    Ok(())
}

// Claims and finishes the actor's first firing.
fn finish_first<R: Abort>(rt: &R, board: &Board, place: &mut Place, actor: u32)
    requires place { place.old.board ≡ board.now.id }
    requires actor { actor < board.now.actors }
    ensures board { place.new.board ≡ place.old.board }
{
    win(rt, board, place, actor, 0);
    board.done(place, actor);
}

#[test]
fn the_first_actor_that_lacks_is_named(rt: HostRuntime) -> Result<(), Fail> {
    let (board, mut p, q) = board_of_two(rt.alloc(), 3)?;
    finish_first(&rt, &board, &mut p, 2);
    finish_first(&rt, &board, &mut p, 1);
    check_gathered(
        &rt,
        board,
        q,
        &mut [7, 8, 9],
        Err(Missing(1, 1)),
        &[7, 8, 9],
    );
    Ok(())
}

// Tries each firing of the first actor once, in order, and finishes those that it won. `None` for want of memory.
fn claim_each(alloc: Global, board: &Board, mut place: Place) -> Option<Vec<u32>>
    requires place { place.board ≡ board.now.id }
    requires actors { 0 < board.now.actors }
{
    let mut won = Vec::with_capacity(alloc, TRIES as usize).ok()?;
    for firing in 0..TRIES {
        if board.try_claim(&mut place, 0, firing).is_ok() {
            board.done(&mut place, 0);
            won.push(firing).ok()?;
        }
    }
    Some(won)
}

// Both, where there are both.
fn both(first: Option<Vec<u32>>, second: Option<Vec<u32>>) -> Option<(Vec<u32>, Vec<u32>)> {
    let first = first?;
    Some((first, second?))
}

// What two threads win, each from a place of its own.
fn claim_in_two_threads<R: Threads + Wait + Sync>(
    rt: &R,
    alloc: Global,
    board: &Board,
    p: Place,
    q: Place,
) -> Option<(Vec<u32>, Vec<u32>)>
    requires p { p.board ≡ board.now.id }
    requires q { q.board ≡ board.now.id }
    requires actors { 0 < board.now.actors }
{
    thread::scope(
        thread::scope_env(),
        rt,
        move |scope| -> Option<(Vec<u32>, Vec<u32>)>
            requires { (p.board ≡ board.now.id) × (q.board ≡ board.now.id) × (0 < board.now.actors) }
        {
            let first = scope.spawn(
                move || -> Option<Vec<u32>>
                    requires { (p.board ≡ board.now.id) × (0 < board.now.actors) }
                { claim_each(alloc, board, p) },
            );
            let second = scope.spawn(
                move || -> Option<Vec<u32>>
                    requires { (q.board ≡ board.now.id) × (0 < board.now.actors) }
                { claim_each(alloc, board, q) },
            );
            let first = first.ok()?.join(rt);
            let second = second.ok()?.join(rt);
            both(first, second)
        },
    )
}

// Counts how often each firing was won.
fn count_won(counts: &mut [u8], won: &[u32]) {
    for firing in won {
        if let Some(count) = counts.get_mut(*firing as usize) {
            *count = count.saturating_add(1);
        }
    }
}

// The first firings were each won once, as many as were won together, and no others.
fn check_each_once<R: Abort>(rt: &R, first: &[u32], second: &[u32]) {
    let mut counts = [0u8; TRIES as usize];
    count_won(&mut counts, first);
    count_won(&mut counts, second);
    let together = first.len().saturating_add(second.len());
    assert!(rt; together > 0 && counts.iter().take(together).all(|count| *count == 1));
    assert!(rt; counts.iter().skip(together).all(|count| *count == 0));
}

#[test]
fn two_threads_win_each_firing_once(rt: HostRuntime) -> Result<(), Fail> {
    let (board, p, q) = board_of_two(rt.alloc(), 1)?;
    let won = claim_in_two_threads(&rt, rt.alloc(), &board, p, q);
    let Some((first, second)) = won else {
        panic!(rt; "no memory or no thread")
    };
    check_each_once(&rt, &first, &second);
    Ok(())
}
