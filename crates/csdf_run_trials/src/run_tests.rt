ghost use Rattle.std.specs.Prelude.{◌≤◌, IfOk, length};
ghost use Rattle.csdf_kernel.specs.Value.{HasFilterInRange};
ghost use Rattle.csdf_floor.specs.Floor.{IsReady};

use crate::beside::{Beside, Extent, Turn};
use crate::shared::{
    Asked, asked_for, deliver, done_of, expect_eq, floor_for, ran, settled, started, told_of,
};
use csdf_analysis::Accepted;
use csdf_core::Refusal;
use csdf_floor::{DeliverFault, Ending, Floor, Outcome, RunFault, StartFault};
use csdf_journal::Keeping;
use csdf_kernel::{Counts, Done, Inputs, Job};
use csdf_model::{Kernel, MAX_TOTAL_PER_FIRING};
use csdf_run::Open;
use std::alloc::Global;
use std::process::Abort;
use std::sync::Wait;
use std::test::Fail;
use std::thread::Threads;

const ACCUMULATED: &str = r#"actor = [
  { name = "src", kernel = "source", phases = 2 },
  { name = "acc", kernel = "sum" },
  { name = "snk", kernel = "sink" },
]
channel = [
  { name = "x", from = "src", to = "acc", produce = [2, 1], consume = [3] },
  { name = "y", from = "acc", to = "snk", produce = [1], consume = [1] },
]
"#;

/// A running sum, whose state is in a channel to itself.
const SUMS: &str = r#"actor = [
  { name = "src", kernel = "source" },
  { name = "acc", kernel = "sum" },
  { name = "snk", kernel = "sink" },
]
channel = [
  { name = "x", from = "src", to = "acc", produce = [1], consume = [1] },
  { name = "s", from = "acc", to = "acc", produce = [1], consume = [1], initial = [0] },
  { name = "y", from = "acc", to = "snk", produce = [1], consume = [1] },
]
"#;

const CHAIN_OF_FOUR: &str = r#"cells = 4
actor = [
  { name = "a", kernel = "source" },
  { name = "b", kernel = "copy" },
  { name = "c", kernel = "sink" },
]
channel = [
  { name = "x", from = "a", to = "b", produce = [2], consume = [3] },
  { name = "y", from = "b", to = "c", produce = [1], consume = [2] },
]
"#;

const CHAIN_OF_THREE: &str = r#"cells = 3
actor = [
  { name = "a", kernel = "source" },
  { name = "b", kernel = "copy" },
  { name = "c", kernel = "sink" },
]
channel = [
  { name = "x", from = "a", to = "b", produce = [2], consume = [3] },
  { name = "y", from = "b", to = "c", produce = [1], consume = [2] },
]
"#;

const RING: &str = r#"actor = [
  { name = "a", kernel = "copy" },
  { name = "b", kernel = "copy" },
  { name = "c", kernel = "copy" },
]
channel = [
  { name = "x", from = "a", to = "b", produce = [1], consume = [1] },
  { name = "y", from = "b", to = "c", produce = [1], consume = [1] },
  { name = "z", from = "c", to = "a", produce = [1], consume = [1], initial = [5] },
]
"#;

/// A run of a graph in which none but actor 0 is a source, and what its sinks took with its printed report.
#[derive(Clone, Copy)]
pub(crate) struct Case {
    pub(crate) graph: &'static str,
    pub(crate) feed: &'static [i32],
    pub(crate) periods: u32,
    pub(crate) firings: Option<u32>,
    wanted: &'static str,
}

pub(crate) const CASES: [Case; 11] = [
    // enough tokens
    Case {
        graph: ACCUMULATED,
        feed: &[1, 2, 3, 4, 5, 6],
        periods: 2,
        firings: None,
        wanted: "6 15 \n\
               ending complete\n\
               x written 6 taken 6 held 0 peak 3 capacity 3 closed\n\
               y written 2 taken 2 held 0 peak 1 capacity 1 closed\n",
    },
    // one token short
    Case {
        graph: ACCUMULATED,
        feed: &[1, 2, 3, 4, 5],
        periods: 2,
        firings: None,
        wanted: "6 \n\
               ending dry\n\
               x written 5 taken 3 held 2 peak 3 capacity 3 closed\n\
               y written 1 taken 1 held 0 peak 1 capacity 1 open\n",
    },
    // a channel from an actor to itself
    Case {
        graph: SUMS,
        feed: &[1, 2, 3],
        periods: 3,
        firings: None,
        wanted: "1 3 6 \n\
               ending complete\n\
               x written 3 taken 3 held 0 peak 1 capacity 1 closed\n\
               s written 3 taken 3 held 1 peak 1 capacity 1 closed\n\
               y written 3 taken 3 held 0 peak 1 capacity 1 closed\n",
    },
    // no token at all
    Case {
        graph: ACCUMULATED,
        feed: &[],
        periods: 2,
        firings: None,
        wanted: "\n\
               ending dry\n\
               x written 0 taken 0 held 0 peak 0 capacity 3 closed\n\
               y written 0 taken 0 held 0 peak 0 capacity 1 open\n",
    },
    // no source
    Case {
        graph: RING,
        feed: &[],
        periods: 2,
        firings: None,
        wanted: "\n\
               ending complete\n\
               x written 2 taken 2 held 0 peak 1 capacity 1 closed\n\
               y written 2 taken 2 held 0 peak 1 capacity 1 closed\n\
               z written 2 taken 2 held 1 peak 1 capacity 1 closed\n",
    },
    // four cells are enough
    Case {
        graph: CHAIN_OF_FOUR,
        feed: &[1, 2, 3, 4, 5, 6],
        periods: 1,
        firings: None,
        wanted: "1 4 \n\
               ending complete\n\
               x written 6 taken 6 held 0 peak 4 capacity 4 closed\n\
               y written 2 taken 2 held 0 peak 2 capacity 2 closed\n",
    },
    // three cells starve
    Case {
        graph: CHAIN_OF_THREE,
        feed: &[1, 2, 3, 4, 5, 6],
        periods: 1,
        firings: None,
        wanted: "\n\
               ending starved\n\
               x written 2 taken 0 held 2 peak 2 capacity 4 open\n\
               y written 0 taken 0 held 0 peak 0 capacity 2 open\n",
    },
    // eight firings are enough
    Case {
        graph: ACCUMULATED,
        feed: &[1, 2, 3, 4, 5, 6],
        periods: 2,
        firings: Some(8),
        wanted: "6 15 \n\
               ending complete\n\
               x written 6 taken 6 held 0 peak 3 capacity 3 closed\n\
               y written 2 taken 2 held 0 peak 1 capacity 1 closed\n",
    },
    // seven stop before the last
    Case {
        graph: ACCUMULATED,
        feed: &[1, 2, 3, 4, 5, 6],
        periods: 2,
        firings: Some(7),
        wanted: "6 \n\
               ending stopped\n\
               x written 6 taken 6 held 0 peak 3 capacity 3 closed\n\
               y written 2 taken 1 held 1 peak 1 capacity 1 closed\n",
    },
    // three fill the second channel
    Case {
        graph: ACCUMULATED,
        feed: &[1, 2, 3, 4, 5, 6],
        periods: 2,
        firings: Some(3),
        wanted: "\n\
               ending stopped\n\
               x written 3 taken 3 held 0 peak 3 capacity 3 open\n\
               y written 1 taken 0 held 1 peak 1 capacity 1 open\n",
    },
    // no firing is allowed
    Case {
        graph: ACCUMULATED,
        feed: &[1, 2, 3, 4, 5, 6],
        periods: 2,
        firings: Some(0),
        wanted: "\n\
               ending stopped\n\
               x written 0 taken 0 held 0 peak 0 capacity 3 open\n\
               y written 0 taken 0 held 0 peak 0 capacity 1 open\n",
    },
];

fn check_told<R: Abort>(
    rt: &R,
    alloc: Global,
    accepted: &Accepted,
    outcome: &Outcome,
    wanted: &str,
) -> Result<(), Fail> {
    let told = told_of(alloc, accepted, outcome)?;
    expect_eq(&rt, told.as_str(), wanted);
    Ok(())
}

fn check_by<R: Threads + Wait + Abort + Sync>(
    rt: &R,
    alloc: Global,
    case: &Case,
    workers: u32,
) -> Result<(), Fail> {
    let asked = asked_for(alloc, case.graph, case.feed)?;
    let (periods, firings) = (case.periods, case.firings);
    let outcome = ran(rt, alloc, &asked, workers, periods, firings, &Open)?;
    check_told(rt, alloc, &asked.accepted, &outcome, case.wanted)
}

/// Every case by so many workers.
fn check_all_by<R: Threads + Wait + Abort + Sync>(
    rt: &R,
    alloc: Global,
    workers: u32,
) -> Result<(), Fail> {
    for case in &CASES {
        check_by(rt, alloc, case, workers)?;
    }
    Ok(())
}

#[test]
fn runs_by_some_workers(rt: HostRuntime) -> Result<(), Fail> {
    for workers in [1, 2, 8] {
        check_all_by(&rt, rt.alloc(), workers)?;
    }
    Ok(())
}

/// The actor makes all that it can.
fn turn_of(actor: u32) -> Turn {
    Turn {
        actor,
        most: 1000,
        is_drafted: false,
    }
}

/// Lets the three actors have turns until none can begin.
fn go(alloc: Global, floors: &mut Beside) -> Result<(), Fail> {
    let turns = [turn_of(0), turn_of(1), turn_of(2)];
    for _ in 0..100 {
        if !floors.pass(alloc, &turns)? {
            break;
        }
    }
    Ok(())
}

/// The case by a floor that makes firings in blocks, and beside it by one that makes the same one by one.
fn check_in_blocks(
    rt: &impl Abort,
    alloc: Global,
    case: &Case,
    keeping: Keeping,
) -> Result<(), Fail> {
    let asked = asked_for(alloc, case.graph, case.feed)?;
    let extent = Extent {
        periods: case.periods,
        firings: case.firings,
    };
    let mut floors = Beside::new(rt, alloc, &asked, extent, keeping)?;
    go(alloc, &mut floors)?;
    let told = floors.end(rt, alloc, &asked, extent, case.graph)?;
    expect_eq(rt, told.as_str(), case.wanted);
    Ok(())
}

/// As many firings are made at once as memory allows, so `tests/memory/run` leaves this one out.
#[test]
fn runs_are_made_in_blocks(rt: HostRuntime) -> Result<(), Fail> {
    for case in &CASES {
        check_in_blocks(&rt, rt.alloc(), case, Keeping::Kept)?;
        check_in_blocks(&rt, rt.alloc(), case, Keeping::NotKept)?;
    }
    Ok(())
}

// ---- a floor driven by hand

/// Does the job, and delivers it.
fn finish(alloc: Global, floor: &mut Floor, job: Job) -> Result<(), Fail>
    requires { IsReady job }
{
    let done = done_of(alloc, job)?;
    deliver(alloc, floor, &done)
}

/// Makes the actor's firing, from its start to its delivery.
fn fire(alloc: Global, floor: &mut Floor, actor: u32, firing: u32) -> Result<(), Fail> {
    let job = started(alloc, floor, actor, firing)?;
    finish(alloc, floor, job)
}

/// Asserts that the result is a stranger to the floor, and is not taken.
fn expect_stranger<R: Abort>(rt: &R, alloc: Global, floor: &mut Floor, done: &Done) {
    expect_eq(&rt, floor.deliver(alloc, done), Err(DeliverFault::Stranger));
}

/// Asserts that the result is taken.
fn expect_taken<R: Abort>(rt: &R, alloc: Global, floor: &mut Floor, done: &Done) {
    expect_eq(&rt, floor.deliver(alloc, done), Ok(()));
}

/// The job, with other inputs in the place of its own.
fn altered(alloc: Global, job: &Job, inputs: &[i32]) -> Result<Job, Fail>
    requires ready { IsReady job.now }
    requires few { length inputs.now ≤ MAX_TOTAL_PER_FIRING }
    ensures { IfOk result IsReady }
{
    Ok(Job {
        kernel: job.kernel,
        actor: job.actor,
        firing: job.firing,
        counts: Counts::from_slice(alloc, job.counts.as_slice())?,
        inputs: Inputs::from_slice(alloc, inputs)?,
    })
}

/// A floor over these tokens, on which nothing has fired.
fn floor_over<R: Abort>(rt: &R, alloc: Global, feed: &[i32]) -> Result<Floor, Fail> {
    let asked = asked_for(alloc, ACCUMULATED, feed)?;
    floor_for(rt, alloc, &asked, 2)
}

/// Starts and computes the firing, whose counts and inputs are these.
fn done_with<R: Abort>(
    rt: &R,
    alloc: Global,
    floor: &mut Floor,
    firing: u32,
    counts: &[u32],
    inputs: &[i32],
) -> Result<Done, Fail> {
    let job = started(alloc, floor, 0, firing)?;
    expect_eq(&rt, job.counts.as_slice(), counts);
    expect_eq(&rt, job.inputs.as_slice(), inputs);
    done_of(alloc, job)
}

fn check_taken_once<R: Abort>(rt: &R, alloc: Global, floor: &mut Floor) -> Result<(), Fail> {
    let done = done_with(rt, alloc, floor, 0, &[2], &[1, 2])?;
    expect_taken(rt, alloc, floor, &done);
    expect_stranger(rt, alloc, floor, &done);
    Ok(())
}

/// Why the firing was not started.
fn refusal_of(alloc: Global, floor: &mut Floor, actor: u32, firing: u32) -> Option<StartFault> {
    match floor.start(alloc, actor, firing) {
        Ok(_) => None,
        Err(fault) => Some(fault),
    }
}

#[test]
fn a_result_is_taken_once(rt: HostRuntime) -> Result<(), Fail> {
    let mut floor = floor_over(&rt, rt.alloc(), &[1, 2, 3, 4, 5, 6])?;
    check_taken_once(&rt, rt.alloc(), &mut floor)?;
    expect_eq(
        &rt,
        refusal_of(rt.alloc(), &mut floor, 0, 0),
        Some(StartFault::Moved(1)),
    );
    Ok(())
}

/// The firing with other inputs than its own is a stranger, and with its own it is taken.
fn check_strangers<R: Abort>(rt: &R, alloc: Global, floor: &mut Floor) -> Result<(), Fail> {
    let job = started(alloc, floor, 0, 1)?;
    check_altered(rt, alloc, floor, &job)?;
    check_taken(rt, alloc, floor, job)
}

fn check_altered<R: Abort>(rt: &R, alloc: Global, floor: &mut Floor, job: &Job) -> Result<(), Fail>
    requires { IsReady job.now }
{
    let stranger = altered(alloc, job, &[4])?;
    check_stranger(rt, alloc, floor, stranger)
}

fn check_taken<R: Abort>(rt: &R, alloc: Global, floor: &mut Floor, job: Job) -> Result<(), Fail>
    requires { IsReady job }
{
    let done = done_of(alloc, job)?;
    expect_taken(rt, alloc, floor, &done);
    Ok(())
}

fn check_stranger<R: Abort>(rt: &R, alloc: Global, floor: &mut Floor, job: Job) -> Result<(), Fail>
    requires { IsReady job }
{
    let done = done_of(alloc, job)?;
    expect_stranger(rt, alloc, floor, &done);
    expect_eq(&rt, floor.journal().len(), 6);
    Ok(())
}

#[test]
fn altered_tokens_are_not_taken(rt: HostRuntime) -> Result<(), Fail> {
    let mut floor = floor_over(&rt, rt.alloc(), &[1, 2, 3, 4, 5, 6])?;
    fire(rt.alloc(), &mut floor, 0, 0)?;
    check_strangers(&rt, rt.alloc(), &mut floor)?;
    let refusal = refusal_of(rt.alloc(), &mut floor, 0, 2);
    expect_eq(&rt, refusal, Some(StartFault::Refused(Refusal::Full(0))));
    Ok(())
}

/// A result of a first firing with one output of one token, whatever the floor has started.
fn other_done(alloc: Global, kernel: Kernel, actor: u32, inputs: &[i32]) -> Result<Done, Fail>
    requires few { length inputs.now ≤ MAX_TOTAL_PER_FIRING }
    requires filter { HasFilterInRange kernel }
{
    let mut counts = Counts::new(alloc);
    counts.push(1)?;
    let job = Job {
        kernel,
        actor,
        firing: 0,
        counts,
        inputs: Inputs::from_slice(alloc, inputs)?,
    };
    done_of(alloc, job)
}

fn check_other<R: Abort>(
    rt: &R,
    alloc: Global,
    floor: &mut Floor,
    kernel: Kernel,
    actor: u32,
    inputs: &[i32],
) -> Result<(), Fail>
    requires few { length inputs.now ≤ MAX_TOTAL_PER_FIRING }
    requires filter { HasFilterInRange kernel }
{
    let done = other_done(alloc, kernel, actor, inputs)?;
    expect_stranger(rt, alloc, floor, &done);
    Ok(())
}

/// Of a firing that was not started, and of the started one with one token fewer to write.
#[test]
fn results_of_other_firings_are_strangers(rt: HostRuntime) -> Result<(), Fail> {
    let mut floor = floor_over(&rt, rt.alloc(), &[1, 2, 3, 4, 5, 6])?;
    expect_eq(&rt, refusal_of(rt.alloc(), &mut floor, 0, 0), None);
    let alloc = rt.alloc();
    check_other(&rt, alloc, &mut floor, Kernel::Sum, 1, &[1, 2, 3])?;
    check_other(&rt, alloc, &mut floor, Kernel::Source, 0, &[1, 2])
}

#[test]
fn a_start_is_refused_in_order(rt: HostRuntime) -> Result<(), Fail> {
    let mut floor = floor_over(&rt, rt.alloc(), &[1, 2, 3, 4, 5, 6])?;
    expect_eq(
        &rt,
        refusal_of(rt.alloc(), &mut floor, 9, 0),
        Some(StartFault::Unknown),
    );
    let short = refusal_of(rt.alloc(), &mut floor, 2, 0);
    expect_eq(&rt, short, Some(StartFault::Refused(Refusal::Short(1))));
    expect_eq(&rt, refusal_of(rt.alloc(), &mut floor, 0, 0), None);
    let busy = refusal_of(rt.alloc(), &mut floor, 0, 0);
    expect_eq(&rt, busy, Some(StartFault::Refused(Refusal::Busy)));
    Ok(())
}

/// Makes these firings, each of an actor and its number.
fn drive(alloc: Global, floor: &mut Floor, firings: &[(u32, u32)]) -> Result<(), Fail> {
    for (actor, firing) in firings {
        fire(alloc, floor, *actor, *firing)?;
    }
    Ok(())
}

/// A floor over these tokens, on which these firings were made.
fn floor_after<R: Abort>(
    rt: &R,
    alloc: Global,
    feed: &[i32],
    firings: &[(u32, u32)],
) -> Result<Floor, Fail> {
    let mut floor = floor_over(rt, alloc, feed)?;
    drive(alloc, &mut floor, firings)?;
    Ok(floor)
}

/// One token is missing for the last firings, and these are all others.
const DRY_FEED: [i32; 5] = [1, 2, 3, 4, 5];

const DRY_FIRINGS: [(u32, u32); 5] = [(0, 0), (0, 1), (1, 0), (0, 2), (2, 0)];

const DRY: &str = "6 \nending dry\nx written 5 taken 3 held 2 peak 3 capacity 3 closed\n\
    y written 1 taken 1 held 0 peak 1 capacity 1 open\n";

fn check_dry<R: Abort>(rt: &R, alloc: Global, asked: &Asked) -> Result<(), Fail> {
    let floor = floor_after(rt, alloc, &DRY_FEED, &DRY_FIRINGS)?;
    match settled(rt, alloc, floor, asked, 2, None, &[3, 1, 1]) {
        Ok(outcome) => {
            expect_eq(&rt, outcome.ending, Ending::Dry);
            check_told(rt, alloc, &asked.accepted, &outcome, DRY)
        }
        Err(fault) => Err(fault.into()),
    }
}

#[test]
fn a_dry_floor_is_settled(rt: HostRuntime) -> Result<(), Fail> {
    let asked = asked_for(rt.alloc(), ACCUMULATED, &DRY_FEED)?;
    check_dry(&rt, rt.alloc(), &asked)
}

/// A floor's feed and firings, and for what it is settled: a feed, a limit on firings, and totals.
struct Mixed {
    feed: &'static [i32],
    made: &'static [(u32, u32)],
    asked: &'static [i32],
    limit: Option<u32>,
    totals: &'static [u32],
}

const MIXED: [Mixed; 4] = [
    // another total
    Mixed {
        feed: &DRY_FEED,
        made: &DRY_FIRINGS,
        asked: &DRY_FEED,
        limit: None,
        totals: &[3, 1, 0],
    },
    // another feed
    Mixed {
        feed: &DRY_FEED,
        made: &DRY_FIRINGS,
        asked: &[1, 2, 3, 4, 6],
        limit: None,
        totals: &[3, 1, 1],
    },
    // another limit
    Mixed {
        feed: &DRY_FEED,
        made: &DRY_FIRINGS,
        asked: &DRY_FEED,
        limit: Some(9),
        totals: &[3, 1, 1],
    },
    // a floor that can go on
    Mixed {
        feed: &[1, 2, 3, 4, 5, 6],
        made: &[(0, 0)],
        asked: &[1, 2, 3, 4, 5, 6],
        limit: None,
        totals: &[1, 0, 0],
    },
];

/// The floor is not at the end of what is asked.
fn check_mixed<R: Abort>(rt: &R, alloc: Global, asked: &Asked, row: &Mixed) -> Result<(), Fail> {
    let floor = floor_after(rt, alloc, row.feed, row.made)?;
    let answer = settled(rt, alloc, floor, asked, 2, row.limit, row.totals);
    assert!(rt; matches!(answer, Err(RunFault::Mixed)));
    Ok(())
}

#[test]
fn other_floors_are_mixed(rt: HostRuntime) -> Result<(), Fail> {
    for row in &MIXED {
        let asked = asked_for(rt.alloc(), ACCUMULATED, row.asked)?;
        check_mixed(&rt, rt.alloc(), &asked, row)?;
    }
    Ok(())
}
