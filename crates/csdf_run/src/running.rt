//! A run by worker threads.

ghost use Rattle.std.specs.Prelude.{◌≡◌, ◌≤◌, IfErr, IfOk, true};
ghost use Rattle.csdf_floor.specs.Journal.{program_for};
ghost use Rattle.csdf_floor.specs.Work.{AreFeeds, HasFewFirings, feeds_in};
ghost use Rattle.csdf_floor.specs.Outcome.{HasHonestJournal, EndsSettled, TakesInOrder, StaysWithinCapacities, LeavesClosedAlone};
ghost use Rattle.csdf_floor.specs.Outcome.{TellsSinks, TellsReport, TellsLeft, TellsEnding, IsAsSequentialRun, IsAsInAnyRoom, CompletesWhereAmple, IsOutcome};
ghost use Rattle.csdf_run.specs.Causes.{IsCauseAmong, IsWantAmong};
ghost use Rattle.csdf_run.specs.Requests.{IsFedOf, KnowsMost};

use crate::alone::outcome_alone;
use crate::no_outcome::{NoOutcome, Ran};
use crate::options::RunOptions;
use crate::request::RunRequest;
use crate::telling::Telling;
use crate::watch::{Watch, Watching};
use csdf_analysis::{Accepted, Length, Room};
use csdf_crew::{Crew, Gate, Told, run_crew};
use csdf_floor::{Fed, Outcome, RunFault, Settled};
use csdf_journal::Keeping;
use std::alloc::Global;
use std::sync::Wait;
use std::thread::{Threads, available_parallelism};

/// How many processors there are for threads of the program, as far as that is known.
fn processors(rt: &impl Threads) -> u32 {
    match available_parallelism(rt) {
        Ok(count) => u32::try_from(count.get()).unwrap_or(u32::MAX),
        Err(_) => u32::MAX,
    }
}

/// How many workers make the firings of a run: as many as are asked for, and no more than there are processors for
/// them, since others would only sleep.
fn busy_workers(rt: &impl Threads, asked: u32) -> u32
    ensures { result ≤ asked }
{
    asked.min(processors(rt))
}

/// What [`outcome_of`] answers, by a gate that is told how far the run has come.
fn outcome_told<R: Threads + Wait + Sync, G: Told>(
    rt: &R,
    alloc: Global,
    request: RunRequest,
    gate: &G,
) -> Settled
    ensures fed { IsFedOf request.work result.fed }
    ensures outcome { IfOk result.outcome (IsOutcome request.work) }
    ensures cause { IfErr result.outcome (IsCauseAmong request.workers) }
    ensures most { IfOk result.outcome (KnowsMost (G.knows_most gate.now) request.work) }
    ensures keeps { IfOk result.outcome (λ o. o.journal.keeps ≡ request.keeps) }
{
    let crew = Crew {
        actors: request.actors(),
        workers: request.workers(),
        busy: processors(rt),
        may_wait: gate.may_wait(),
    };
    let most = match request.most_firings(alloc) {
        Ok(most) => most,
        Err(_error) => {
            return Settled {
                fed: request.into_fed(),
                outcome: Err(RunFault::Memory),
            };
        }
    };
    let floor = match request.into_floor(alloc) {
        Ok(floor) => floor,
        Err(fed) => {
            return Settled {
                fed,
                outcome: Err(RunFault::Memory),
            };
        }
    };
    gate.tell_most(most);
    run_crew(rt, alloc, floor, crew, gate)
}

/// What [`run`] answers, with a journal that is kept where it is asked for, and what was run, which comes
/// back.
pub(crate) fn outcome_of<R: Threads + Wait + Sync, G: Gate>(
    rt: &R,
    alloc: Global,
    request: RunRequest,
    gate: &G,
) -> Settled
    ensures fed { IsFedOf request.work result.fed }
    ensures outcome { IfOk result.outcome (IsOutcome request.work) }
    ensures cause { IfErr result.outcome (IsCauseAmong request.workers) }
    ensures keeps { IfOk result.outcome (λ o. o.journal.keeps ≡ request.keeps) }
{
    let told = Telling { gate };
    outcome_told(rt, alloc, request, &told)
}

/// What a request comes to that is carried out by several workers, of which a watch is told, and what was run, which
/// comes back.
///
/// Where the floor and the board do not fit together, which is not seen, the calling thread makes the run anew: so
/// this is no fault.
fn outcome_by_crew<R: Threads + Wait + Sync, W: Watch>(
    rt: &R,
    alloc: Global,
    request: RunRequest,
    watch: &W,
) -> Ran
    ensures fed { IsFedOf request.work result.fed }
    ensures outcome { IfOk result.outcome (IsOutcome request.work) }
    ensures cause { IfErr result.outcome (IsWantAmong request.workers) }
    ensures keeps { IfOk result.outcome (λ o. o.journal.keeps ≡ request.keeps) }
{
    let gate = Watching { watch };
    let told = Telling { gate: &gate };
    let terms = request.terms();
    let Settled { fed, outcome } = outcome_of(rt, alloc, request, &gate);
    match outcome {
        Ok(outcome) => Ran {
            fed,
            outcome: Ok(outcome),
        },
        Err(RunFault::Memory) => Ran {
            fed,
            outcome: Err(NoOutcome::Memory),
        },
        Err(RunFault::Worker) => Ran {
            fed,
            outcome: Err(NoOutcome::Worker),
        },
        Err(RunFault::Mixed) => outcome_alone(rt, alloc, RunRequest::on(fed, terms), &told),
    }
}

/// What a request comes to of which a watch is told, and what was run, which comes back.
///
/// One worker needs no lock and no board. A run in which fewer than two actors are heavy is made by the calling thread
/// too: the firings of one come one after another, whoever makes them, and the others are light. There are no more
/// workers than processors.
pub(crate) fn watched_outcome_of<R: Threads + Wait + Sync, W: Watch>(
    rt: &R,
    alloc: Global,
    request: RunRequest,
    watch: &W,
) -> Ran
    ensures fed { IsFedOf request.work result.fed }
    ensures outcome { IfOk result.outcome (IsOutcome request.work) }
    ensures cause { IfErr result.outcome (IsWantAmong request.workers) }
    ensures keeps { IfOk result.outcome (λ o. o.journal.keeps ≡ request.keeps) }
{
    let workers = busy_workers(rt, request.workers());
    if workers <= 1 || !request.gains_by_workers() {
        let gate = Watching { watch };
        let told = Telling { gate: &gate };
        return outcome_alone(rt, alloc, request, &told);
    }
    outcome_by_crew(rt, alloc, request.by(workers), watch)
}

/// Runs so many periods of an accepted graph over these feeds by worker threads: each firing is computed
/// by one worker, without the lock, and up to `workers` at the same time. With `firings` given, no more
/// firings than that are made.
///
/// The feeds are one list for each actor, empty for one that is no source. Each worker passes the gate
/// with its place, which holds the actor at the firing that it is about to compute.
///
/// [`RunFault::Memory`] says that memory ran out, here or in a worker; [`RunFault::Worker`] that a thread
/// could not be started, which one worker alone asks for none of; [`RunFault::Mixed`] does not come.
///
/// The outcome does not depend on the number of workers, but for the order of the journal, which is kept,
/// and the peaks: see [`settle`]. Which worker makes which firing is open. Nor do the sinks of complete
/// runs depend on the capacities and the number of cells.
pub fn run<R: Threads + Wait + Sync, G: Gate>(
    rt: &R,
    alloc: Global,
    accepted: &Accepted,
    feeds: &[Vec<i32>],
    workers: u32,
    periods: u32,
    firings: Option<u32>,
    gate: &G,
) -> Result<Outcome, RunFault>
    requires fed { AreFeeds accepted.now.graph (feeds_in feeds.now) }
    requires some_worker { 1 ≤ workers }
    requires few_workers { workers ≤ 8 }
    requires some_period { 1 ≤ periods }
    requires few_firings { HasFewFirings accepted.now periods }
    ensures honest { IfOk result (HasHonestJournal (program_for accepted.now (feeds_in feeds.now) periods firings)) }
    ensures settled { IfOk result (EndsSettled (program_for accepted.now (feeds_in feeds.now) periods firings)) }
    ensures order { IfOk result (TakesInOrder (program_for accepted.now (feeds_in feeds.now) periods firings)) }
    ensures capacities { IfOk result (StaysWithinCapacities (program_for accepted.now (feeds_in feeds.now) periods firings)) }
    ensures closing { IfOk result (LeavesClosedAlone (program_for accepted.now (feeds_in feeds.now) periods firings)) }
    ensures sinks { IfOk result (TellsSinks (program_for accepted.now (feeds_in feeds.now) periods firings)) }
    ensures report { IfOk result (TellsReport (program_for accepted.now (feeds_in feeds.now) periods firings)) }
    ensures left { IfOk result (TellsLeft (program_for accepted.now (feeds_in feeds.now) periods firings)) }
    ensures ending { IfOk result (TellsEnding (program_for accepted.now (feeds_in feeds.now) periods firings)) }
    ensures sequential { IfOk result (IsAsSequentialRun (program_for accepted.now (feeds_in feeds.now) periods firings)) }
    ensures rooms { IfOk result (IsAsInAnyRoom (program_for accepted.now (feeds_in feeds.now) periods firings)) }
    ensures complete { IfOk result (CompletesWhereAmple accepted.now (feeds_in feeds.now) periods firings) }
    ensures keeps { IfOk result (λ o. o.journal.keeps ≡ true) }
    ensures cause { IfErr result (IsCauseAmong workers) }
{
    let fed = Fed::copied(alloc, accepted, feeds)?;
    let options = RunOptions {
        workers,
        how_long: Length::Periods(periods),
        firings,
        room: Room::Least,
        keeping: Keeping::Kept,
    };
    let request = RunRequest::new(fed, options);
    let Settled { fed: _, outcome } = outcome_of(rt, alloc, request, gate);
    let outcome = outcome?;
    Ok(outcome)
}
