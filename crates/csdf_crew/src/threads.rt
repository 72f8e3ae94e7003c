//! A floor that worker threads run: a place at the board for each, and how they are joined at the end.

ghost use Rattle.std.specs.Prelude.{◌≡◌, ◌≢◌, ◌≤◌, ◌<◌, ◌++◌, All, Err, IfErr, IfOk, IfSome, Ok, if◌then◌else◌, length, nat_lt, option_to_list, vec_capacity, vec_len};
ghost use Rattle.csdf_floor.specs.declared.fault.RunFault.TheVariants.{Worker};
ghost use Rattle.csdf_floor.specs.Outcome.{IsOutcome};
ghost use Rattle.csdf_floor.specs.Work.{feeds_in};
ghost use Rattle.csdf_crew.specs.Causes.{IsCauseAmong};
ghost use Rattle.csdf_crew.specs.Workers.{AnswersForAll, HoldsNothing, IsEndAt, TakesIn, both};

use crate::gave_up::GaveUp;
use crate::monitor::{Asked, Monitor};
use crate::policy::Crew;
use crate::ready_set::ReadySet;
use crate::run_end::{EndCause, RunEnd, Unstarted};
use crate::told::Told;
use crate::worker::{Ended, Site, work};
use csdf_claims::{Board, Place};
use csdf_floor::{Floor, RunFault, Settled, settle_and_hand_back};
use csdf_model::MAX_ACTORS;
use std::alloc::{AllocError, Global};
use std::marker::Brand;
use std::sync::Wait;
use std::thread;
use std::thread::{Promise, PromisedHandle, Threads};

/// The place that a worker hands back is one of this board, and holds nothing where the worker did not give up.
#[derive(Clone, Copy)]
struct OfBoard<'a>(&'a Board);

impl<'a> Promise<Ended> for OfBoard<'a> {
    ghost kept_by = { λ p r. IsEndAt p.0.now r };
}

/// A place beside the first.
fn place_beside(alloc: Global, board: &Board, place: &mut Place) -> Result<Place, AllocError>
    requires { place.old.board ≡ board.now.id }
    ensures same { place.new ≡ place.old }
    ensures place { IfOk result (λ p. (p.board ≡ board.now.id) × HoldsNothing p.view) }
{
    let new = board.split(alloc, place)?;
    Ok(new)
}

/// So many places beside the first.
fn split_places(
    alloc: Global,
    board: &Board,
    place: &mut Place,
    count: u32,
) -> Result<Vec<Place>, AllocError>
    requires { place.old.board ≡ board.now.id }
    ensures same { place.new ≡ place.old }
    ensures count { IfOk result (λ v. length v.items ≡ count) }
    ensures places { IfOk result (λ v. All (λ p. (p.board ≡ board.now.id) × HoldsNothing p.view) v.items) }
{
    let mut places = Vec::with_capacity(alloc, count as usize)?;
    for _other in 0..count {
        places.push(place_beside(alloc, board, place)?)?;
    }
    Ok(places)
}

/// Keeps the handle of a thread that was started, for which there is room.
fn keep<'a>(
    board: &'a Board,
    handles: &mut Vec<PromisedHandle<Ended, OfBoard<'a>>>,
    handle: Option<PromisedHandle<Ended, OfBoard<'a>>>,
)
    requires handle { IfSome handle (λ h. h.promise.0.now.id ≡ board.now.id) }
    requires handles { All (λ h. h.promise.0.now.id ≡ board.now.id) handles.old.items }
    requires room { vec_len handles.old < vec_capacity handles.old }
    ensures kept { handles.new.items ≡ handles.old.items ++ option_to_list handle.entry }
    ensures room { vec_capacity handles.old ≤ vec_capacity handles.new }
    ensures handles { All (λ h. h.promise.0.now.id ≡ board.now.id) handles.new.items }
{
    if let Some(handle) = handle {
        let _is_kept = handles.push(handle).is_ok();
    }
}

/// The first of two answers that is a fault.
fn both(first: Result<RunEnd, GaveUp>, second: Result<RunEnd, GaveUp>) -> Result<RunEnd, GaveUp>
    ensures { result ≡ both first second }
{
    match first {
        Ok(_) => second,
        Err(fault) => Err(fault),
    }
}

/// A fault where there are fewer threads than places, since one could not be started.
fn all_started(threads: usize, places: usize) -> Result<(), RunFault>
    ensures { result ≡ (if nat_lt threads places then Err Worker else Ok tt) }
{
    if threads < places {
        return Err(RunFault::Worker);
    }
    Ok(())
}

/// Joins the threads, one after another, and their places into the first. The answer is a fault where the
/// first worker's own was one, or that of another.
fn join_all<'a, R: Threads>(
    rt: &R,
    board: &'a Board,
    place: &mut Place,
    own: Result<RunEnd, GaveUp>,
    handles: Vec<PromisedHandle<Ended, OfBoard<'a>>>,
) -> Result<RunEnd, GaveUp>
    requires place { place.old.board ≡ board.now.id }
    requires handles { All (λ h. h.promise.0.now.id ≡ board.now.id) handles.items }
    ensures board { place.new.board ≡ board.now.id }
    ensures ends { AnswersForAll board.now (length handles.entry.items) own place.old.view result place.new.view }
{
    let mut answer = own;
    for handle in handles {
        let ended = handle.join(rt);
        board.join(place, ended.place);
        answer = both(answer, ended.answer);
    }
    answer
}

/// The place of a worker that answered, unless the answer is a fault.
fn place_after(place: Place, answer: Result<RunEnd, GaveUp>) -> Result<Place, RunFault>
    requires { IfOk answer (λ _. HoldsNothing place.view) }
    ensures same { IfOk result (λ p. p ≡ place) }
    ensures answered { IfOk result (λ _. answer ≡ Ok tt) }
    ensures cause { IfErr result (λ fault. (answer ≡ Err fault) × (fault ≢ Worker)) }
    ensures free { IfOk result (λ p. HoldsNothing p.view) }
{
    match answer {
        Ok(_) => Ok(place),
        Err(gave_up) => Err(gave_up.fault()),
    }
}

/// Runs a worker at the first place, on the calling thread.
fn alone<K: Asked, R: Wait, G: Told>(
    site: Site<'_, K, R, G>,
    first: Place,
) -> Result<Place, RunFault>
    requires { (first.board ≡ site.board.now.id) × HoldsNothing first.view }
    ensures place { IfOk result (λ p. (p.board ≡ site.entry.board.now.id) × HoldsNothing p.view) }
    ensures cause { IfErr result (λ fault. fault ≢ Worker) }
{
    let Ended { place, answer } = work(&site, first);
    place_after(place, answer)
}

/// Runs a worker at the first place on the calling thread, and one at each other place in a thread of its
/// own, and joins them into the first.
fn in_threads<K: Asked + Send + Sync, R: Threads + Wait + Sync, G: Told>(
    site: Site<'_, K, R, G>,
    first: Place,
    places: Vec<Place>,
) -> Result<Place, RunFault>
    requires first { (first.board ≡ site.board.now.id) × HoldsNothing first.view }
    requires places { All (λ p. (p.board ≡ site.board.now.id) × HoldsNothing p.view) places.items }
    ensures place { IfOk result (λ p. (p.board ≡ site.entry.board.now.id) × HoldsNothing p.view) }
    ensures threads { IfOk result (TakesIn site.entry.board.now (length places.items)) }
{
    let Site {
        rt,
        alloc,
        monitor,
        board,
        gate,
    } = site;
    thread::scope(
        thread::scope_env(),
        rt,
        move |scope| -> Result<Place, RunFault>
            requires { ((first.board ≡ board.now.id) × HoldsNothing first.view) × All (λ p. (p.board ≡ board.now.id) × HoldsNothing p.view) places.items }
            ensures { IfOk result (λ p. ((p.board ≡ board.entry.now.id) × HoldsNothing p.view) × TakesIn board.entry.now (length places.items) p) }
        {
            let count = places.len();
            let mut handles = Vec::with_capacity(alloc, count)?;
            for place in places {
                let started = scope.spawn_with(
                    OfBoard(board),
                    move || -> Ended
                        requires { (place.board ≡ board.now.id) × HoldsNothing place.view }
                        ensures { IsEndAt board.entry.now result }
                    {
                        let site = Site::new(rt, alloc, monitor, board, gate);
                        work(&site, place)
                    },
                );
                keep(board, &mut handles, started.ok());
            }
            let threads = handles.len();
            if threads < count {
                monitor.give_up(rt, EndCause::Unstarted(Unstarted::of(threads, count)));
            }
            let site = Site::new(rt, alloc, monitor, board, gate);
            let Ended { mut place, answer } = work(&site, first);
            let answer = join_all(rt, board, &mut place, answer, handles);
            let place = place_after(place, answer)?;
            all_started(threads, count)?;
            Ok(place)
        },
    )
}

/// A board and its first place.
fn first_seat(alloc: Global, actors: u32) -> Result<(Board, Place), AllocError>
    requires { actors ≤ MAX_ACTORS }
    ensures actors { IfOk result (λ s. s.0.actors ≡ actors) }
    ensures first { IfOk result (λ s. (s.1.board ≡ s.0.id) × HoldsNothing s.1.view) }
{
    Board::new(alloc, actors)
}

/// How many firings of each actor were finished.
fn totals_of(alloc: Global, board: Board, place: Place) -> Result<Vec<u32>, RunFault>
    requires { place.board ≡ board.id }
    ensures count { IfOk result (λ totals. length totals.items ≡ board.actors) }
    ensures cause { IfErr result (λ fault. fault ≢ Worker) }
{
    let mut totals = vec![in alloc; 0; board.actors() as usize]?;
    match board.gather(place, totals.as_mut_slice()) {
        Ok(()) => Ok(totals),
        Err(_) => Err(RunFault::Mixed),
    }
}

/// Runs what is behind the lock by the crew, and answers how many firings of each actor they finished.
fn finished_by<K: Asked + Send + Sync, R: Threads + Wait + Sync, G: Told>(
    rt: &R,
    alloc: Global,
    monitor: &Monitor<K>,
    crew: Crew,
    gate: &G,
) -> Result<Vec<u32>, RunFault>
    requires { crew.actors ≤ MAX_ACTORS }
    ensures count { IfOk result (λ totals. length totals.items ≡ crew.actors) }
    ensures cause { IfErr result (IsCauseAmong crew.workers) }
{
    let (board, mut first) = first_seat(alloc, crew.actors)?;
    let others = crew.workers.saturating_sub(1);
    let places = split_places(alloc, &board, &mut first, others)?;
    let site = Site::new(rt, alloc, monitor, &board, gate);
    let place = if places.is_empty() {
        alone(site, first)?
    } else {
        in_threads(site, first, places)?
    };
    totals_of(alloc, board, place)
}

/// Runs the floor by a crew, where the type `K` says what is asked: each firing is computed by one worker,
/// without the lock. The floor is settled, whether they made the run or not.
fn run_as<K: Asked + Send + Sync, R: Threads + Wait + Sync, G: Told>(
    rt: &R,
    alloc: Global,
    floor: Floor,
    crew: Crew,
    gate: &G,
) -> Settled
    requires actors { crew.actors ≤ MAX_ACTORS }
    requires floor { (floor.keeps ≡ K.keeps) × (floor.work ≡ K.work) }
    ensures accepted { result.fed.accepted ≡ K.work.accepted }
    ensures feeds { feeds_in result.fed.feeds.items ≡ K.work.feeds }
    ensures outcome { IfOk result.outcome (IsOutcome K.work) }
    ensures keeps { IfOk result.outcome (λ o. o.journal.keeps ≡ K.keeps) }
    ensures cause { IfErr result.outcome (IsCauseAmong crew.workers) }
{
    let ready = match ReadySet::new(alloc, floor.accepted()) {
        Ok(ready) => ready,
        Err(_error) => {
            return Settled {
                fed: floor.into_fed(),
                outcome: Err(RunFault::Memory),
            };
        }
    };
    let monitor: Monitor<K> = Monitor::new(floor, ready, crew);
    let totals = finished_by(rt, alloc, &monitor, crew, gate);
    let floor = monitor.into_floor();
    match totals {
        Ok(totals) => settle_and_hand_back(alloc, floor, totals.as_slice()),
        Err(fault) => Settled {
            fed: floor.into_fed(),
            outcome: Err(fault),
        },
    }
}

/// Runs the floor by a crew, to its end, and settles it: what it was made over comes back, whether there is an
/// outcome or not.
///
/// [`RunFault::Memory`] says that memory ran out, here or in a worker, [`RunFault::Worker`] that a thread
/// could not be started, and [`RunFault::Mixed`] that the floor did not stand where a claim says, or that an
/// actor can go on where the workers have ended.
pub fn run_crew<R: Threads + Wait + Sync, G: Told>(
    rt: &R,
    alloc: Global,
    floor: Floor,
    crew: Crew,
    gate: &G,
) -> Settled
    requires { crew.actors ≤ MAX_ACTORS }
    ensures accepted { result.fed.accepted ≡ floor.work.accepted }
    ensures feeds { feeds_in result.fed.feeds.items ≡ floor.work.feeds }
    ensures outcome { IfOk result.outcome (IsOutcome floor.work) }
    ensures keeps { IfOk result.outcome (λ o. o.journal.keeps ≡ floor.keeps) }
    ensures cause { IfErr result.outcome (IsCauseAmong crew.workers) }
{
    run_as::<Brand, R, G>(rt, alloc, floor, crew, gate)
}
