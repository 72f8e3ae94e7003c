//! How many workers make a run, where as many are asked for as pay.

ghost use Rattle.std.specs.Prelude.{◌≡◌, ◌≤◌, ℕ, IfOk};
ghost use Rattle.csdf_analysis.specs.Room.{HasSomePeriod};
ghost use Rattle.csdf_words.specs.Workers.{AreFew, most_workers};
ghost use Rattle.csdf_told.specs.Crews.{AreAsked, ArePaying, chosen, paying_workers, workers_of};

use csdf_analysis::{Accepted, Room, accept_or_hand_back};
use csdf_crew::gains_by_workers;
use csdf_model::Graph;
use csdf_words::Workers;
use std::alloc::{AllocError, Global};
use std::thread::{Threads, available_parallelism};

/// How many workers pay for an accepted graph, where there are so many processors.
fn paying_workers(accepted: &Accepted, processors: u32) -> u32
    ensures value { result ≡ paying_workers accepted.now processors }
    ensures least { 1 ≤ result }
    ensures most { result ≤ 8 }
{
    if gains_by_workers(accepted) {
        processors.min(8).max(1)
    } else {
        1
    }
}

/// How many processors there are for threads of the program, as far as that is known: else one.
fn processors(rt: &impl Threads) -> u32 {
    match available_parallelism(rt) {
        Ok(count) => u32::try_from(count.get()).unwrap_or(u32::MAX),
        Err(_) => 1,
    }
}

/// How many workers pay for a graph with this room: one where it is not accepted.
fn workers_that_pay(
    rt: &impl Threads,
    alloc: Global,
    graph: &Graph,
    room: Room,
) -> Result<u32, AllocError>
    requires { HasSomePeriod room }
    ensures paying { IfOk result (ArePaying room graph.now) }
    ensures least { IfOk result (λ n. 1 ≤ n) }
    ensures most { IfOk result (λ n. n ≤ 8) }
{
    let copy = graph.try_copy(alloc)?;
    match accept_or_hand_back(alloc, copy, room) {
        Ok(accepted) => Ok(paying_workers(&accepted, processors(rt))),
        Err(_) => Ok(1),
    }
}

/// How many workers make a run of a graph with this room, where so many or as many as pay are asked for.
///
/// The error is want of memory.
pub fn workers_for(
    rt: &impl Threads,
    alloc: Global,
    workers: Workers,
    graph: &Graph,
    room: Room,
) -> Result<u32, AllocError>
    requires few_workers { AreFew workers }
    requires some_room { HasSomePeriod room }
    ensures asked { IfOk result (AreAsked workers room graph.now) }
    ensures least { IfOk result (λ n. 1 ≤ n) }
    ensures most { IfOk result (λ n. n ≤ most_workers workers) }
    ensures few { IfOk result (λ n. n ≤ 8) }
{
    match workers {
        Workers::Count(count) => Ok(count),
        Workers::Auto => workers_that_pay(rt, alloc, graph, room),
    }
}

/// How many workers make a stream of an accepted graph, where so many or as many as pay are asked for.
pub fn workers_of(rt: &impl Threads, workers: Workers, accepted: &Accepted) -> u32
    requires { AreFew workers }
    ensures value { (processors : ℕ) × (result ≡ workers_of workers accepted.now processors) }
    ensures least { 1 ≤ result }
    ensures most { result ≤ most_workers workers }
    ensures few { result ≤ 8 }
{
    match workers {
        Workers::Count(count) => count,
        Workers::Auto => paying_workers(accepted, processors(rt)),
    }
}

/// How many workers were chosen, where as many as pay were asked for.
pub fn chosen(workers: Workers, count: u32) -> Option<u32>
    ensures { result ≡ chosen workers count }
{
    match workers {
        Workers::Count(_) => None,
        Workers::Auto => Some(count),
    }
}
