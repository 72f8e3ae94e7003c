//! Floors and runs that take memory, for `tests/memory/run`: it refuses them one allocation after
//! another. A test then ends for want of memory, or as it does where nothing is refused.

ghost use Rattle.std.specs.Prelude.{◌≡◌, ◌<◌, IfOk, OnOk, length};
ghost use Rattle.csdf_floor.specs.Floor.{IsReady};

use crate::shared::{
    Asked, asked_for, deliver, done_of, expect_eq, floor_for, floor_that_keeps, ran, settled,
    started, told_of,
};
use csdf_analysis::Accepted;
use csdf_core::Core;
use csdf_floor::{
    DeliverFault, Fed, Floor, Outcome, RunBounds, RunFault, Settled, StartFault, are_feeds,
    may_run, settle_and_hand_back,
};
use csdf_journal::Keeping;
use csdf_kernel::{Done, Job, Outputs, eval, eval_into};
use csdf_run::{Open, run_texts};
use std::alloc::{AllocError, Global};
use std::process::Abort;
use std::sync::Wait;
use std::test::Fail;
use std::thread::Threads;

/// Each firing has more inputs, and the source more outputs, than a job holds without memory.
const WIDE: &str = r#"actor = [
  { name = "src", kernel = "source" },
  { name = "acc", kernel = "copy" },
  { name = "snk", kernel = "sink" },
]
channel = [
  { name = "a", from = "src", to = "acc", produce = [4], consume = [4] },
  { name = "b", from = "src", to = "acc", produce = [4], consume = [4] },
  { name = "c", from = "src", to = "acc", produce = [4], consume = [4] },
  { name = "d", from = "src", to = "acc", produce = [4], consume = [4] },
  { name = "e", from = "src", to = "acc", produce = [4], consume = [4] },
  { name = "y", from = "acc", to = "snk", produce = [18], consume = [18] },
]
"#;

const FEED: [i32; 20] = [
    1, 2, 3, 4, 5, 6, 7, 8, 9, 10, 11, 12, 13, 14, 15, 16, 17, 18, 19, 20,
];

/// What the sinks took and the report.
const TOLD: &str = "1 2 3 4 5 6 7 8 9 10 11 12 13 14 15 16 17 18 \n\
    ending complete\n\
    a written 4 taken 4 held 0 peak 4 capacity 4 closed\n\
    b written 4 taken 4 held 0 peak 4 capacity 4 closed\n\
    c written 4 taken 4 held 0 peak 4 capacity 4 closed\n\
    d written 4 taken 4 held 0 peak 4 capacity 4 closed\n\
    e written 4 taken 4 held 0 peak 4 capacity 4 closed\n\
    y written 18 taken 18 held 0 peak 18 capacity 18 closed\n";

// ---- what a floor shows

fn show_actors(text: &mut String, core: &Core) -> Result<(), AllocError> {
    for actor in 0..core.actors() {
        let fired = core.fired(actor);
        let stage = core.stage(actor);
        let need = core.need(actor);
        let gives = core.gives(actor);
        write!(text, "{actor}: {fired} {stage:?} {need} {gives}\n")?;
    }
    Ok(())
}

fn show_channel(text: &mut String, core: &Core, channel: u32) -> Result<(), AllocError>
    requires { channel < length core.now.plan.channels }
{
    let len = core.len(channel);
    let peak = core.peak(channel);
    let is_open = core.is_open(channel);
    write!(text, "{channel}: {len} {peak} {is_open}")?;
    for cell in core.cells(channel) {
        write!(text, " {cell}")?;
    }
    write!(text, "\n")?;
    Ok(())
}

fn show_channels(text: &mut String, core: &Core) -> Result<(), AllocError> {
    for channel in 0..core.channels() {
        show_channel(text, core, channel)?;
    }
    Ok(())
}

fn show_rest_of_core(text: &mut String, core: &Core) -> Result<(), AllocError> {
    for cell in core.free_cells() {
        write!(text, "{cell} ")?;
    }
    let is_quiet = core.is_quiet();
    write!(text, "\n{is_quiet}\n")?;
    Ok(())
}

fn show_journal(text: &mut String, floor: &Floor) -> Result<(), AllocError> {
    for next in floor.journal() {
        write!(text, "{next:?}\n")?;
    }
    Ok(())
}

fn show_sinks(text: &mut String, floor: &Floor) -> Result<(), AllocError> {
    for sink in floor.sinks() {
        write!(text, "{sink:?}\n")?;
    }
    Ok(())
}

fn show_all(text: &mut String, floor: &Floor) -> Result<(), AllocError> {
    show_actors(text, floor.core())?;
    show_channels(text, floor.core())?;
    show_rest_of_core(text, floor.core())?;
    show_journal(text, floor)?;
    show_sinks(text, floor)
}

/// All that the readers show.
fn shown(alloc: Global, floor: &Floor) -> Result<String, Fail> {
    let mut text = String::new(alloc);
    show_all(&mut text, floor)?;
    Ok(text)
}

// ---- calls that are made again where memory was wanting

/// Asserts that the floor shows what it did.
fn check_unchanged<R: Abort>(
    rt: &R,
    alloc: Global,
    floor: &Floor,
    before: &str,
) -> Result<(), Fail> {
    let now = shown(alloc, floor)?;
    expect_eq(&rt, now.as_str(), before);
    Ok(())
}

/// Starts the actor's first firing. A start that lacked memory has changed nothing that is shown.
fn started_at_last<R: Abort>(
    rt: &R,
    alloc: Global,
    floor: &mut Floor,
    actor: u32,
) -> Result<Job, Fail>
    ensures { IfOk result IsReady }
{
    let before = shown(alloc, floor)?;
    match floor.start(alloc, actor, 0) {
        Ok(job) => Ok(job),
        Err(fault) => {
            expect_eq(&rt, fault, StartFault::Memory);
            check_unchanged(rt, alloc, floor, before.as_str())?;
            started(alloc, floor, actor, 0)
        }
    }
}

fn done_at_last<R: Abort>(rt: &R, alloc: Global, job: Job) -> Result<Done, Fail>
    requires { IsReady job }
{
    match eval(alloc, job) {
        Ok(done) => Ok(done),
        Err((job, _)) => done_of(alloc, job),
    }
}

/// Delivers. A delivery that lacked memory has changed nothing that is shown.
fn deliver_at_last<R: Abort>(
    rt: &R,
    alloc: Global,
    floor: &mut Floor,
    done: &Done,
) -> Result<(), Fail> {
    let before = shown(alloc, floor)?;
    match floor.deliver(alloc, done) {
        Ok(()) => Ok(()),
        Err(fault) => {
            expect_eq(&rt, fault, DeliverFault::Memory);
            check_unchanged(rt, alloc, floor, before.as_str())?;
            deliver(alloc, floor, done)
        }
    }
}

/// Makes the actor's first firing.
fn fire<R: Abort>(rt: &R, alloc: Global, floor: &mut Floor, actor: u32) -> Result<(), Fail> {
    let job = started_at_last(rt, alloc, floor, actor)?;
    let done = done_at_last(rt, alloc, job)?;
    deliver_at_last(rt, alloc, floor, &done)
}

fn check_told<R: Abort>(
    rt: &R,
    alloc: Global,
    accepted: &Accepted,
    answer: Result<Outcome, RunFault>,
) -> Result<(), Fail> {
    match answer {
        Ok(outcome) => {
            let told = told_of(alloc, accepted, &outcome)?;
            expect_eq(&rt, told.as_str(), TOLD);
            // four moves of each firing, and a close of each channel
            expect_eq(&rt, outcome.journal.moves().len(), 18);
            Ok(())
        }
        Err(fault) => Err(fault.into()),
    }
}

/// Makes the first firing of each actor.
fn fire_all<R: Abort>(rt: &R, alloc: Global, floor: &mut Floor) -> Result<(), Fail> {
    for actor in 0..3 {
        fire(rt, alloc, floor, actor)?;
    }
    Ok(())
}

/// A floor on which each actor has fired.
fn driven<R: Abort>(rt: &R, alloc: Global, asked: &Asked) -> Result<Floor, Fail> {
    let mut floor = floor_for(rt, alloc, asked, 1)?;
    fire_all(rt, alloc, &mut floor)?;
    Ok(floor)
}

#[test]
fn a_floor_is_driven_to_its_end(rt: HostRuntime) -> Result<(), Fail> {
    let asked = asked_for(rt.alloc(), WIDE, &FEED)?;
    let floor = driven(&rt, rt.alloc(), &asked)?;
    let answer = settled(&rt, rt.alloc(), floor, &asked, 1, None, &[1, 1, 1]);
    check_told(&rt, rt.alloc(), &asked.accepted, answer)
}

// ---- a floor over a graph and feeds that are handed over

/// Asserts that what comes back is what was handed in.
fn check_fed<R: Abort>(rt: &R, fed: &Fed) {
    expect_eq(rt, fed.accepted.graph().actors().len(), 3);
    assert!(rt; fed.feeds.len() == 3);
    expect_eq(rt, fed.feeds[0].as_slice(), &FEED[..]);
    expect_eq(rt, fed.feeds[1].len(), 0);
}

/// A floor over what is asked for, which comes back where memory is wanting.
fn floor_over<R: Abort>(rt: &R, alloc: Global, asked: Asked) -> Result<Floor, Fail> {
    let Asked { accepted, feeds } = asked;
    assert!(rt; are_feeds(accepted.graph(), &feeds));
    assert!(rt; may_run(&accepted, 1));
    let bounds = RunBounds {
        periods: 1,
        firings: None,
    };
    match Floor::over(alloc, Fed { accepted, feeds }, bounds, Keeping::Kept) {
        Ok(floor) => Ok(floor),
        Err(fed) => {
            check_fed(rt, &fed);
            Err(RunFault::Memory.into())
        }
    }
}

#[test]
fn what_a_floor_was_made_over_comes_back(rt: HostRuntime) -> Result<(), Fail> {
    let asked = asked_for(rt.alloc(), WIDE, &FEED)?;
    let mut floor = floor_over(&rt, rt.alloc(), asked)?;
    fire_all(&rt, rt.alloc(), &mut floor)?;
    let Settled { fed, outcome } = settle_and_hand_back(rt.alloc(), floor, &[1, 1, 1]);
    check_fed(&rt, &fed);
    check_told(&rt, rt.alloc(), &fed.accepted, outcome)
}

// ---- a floor that keeps no journal, with one job and one list of outputs for all firings

/// Starts the actor's first firing. A start that lacked memory has changed nothing that is shown.
fn start_again<R: Abort>(
    rt: &R,
    alloc: Global,
    floor: &mut Floor,
    actor: u32,
    job: &mut Job,
) -> Result<(), Fail>
    ensures { OnOk result (IsReady job.new) }
{
    let before = shown(alloc, floor)?;
    match floor.start_into(actor, 0, job) {
        Ok(()) => Ok(()),
        Err(fault) => {
            expect_eq(&rt, fault, StartFault::Memory);
            check_unchanged(rt, alloc, floor, before.as_str())?;
            Ok(floor.start_into(actor, 0, job)?)
        }
    }
}

/// Makes the actor's first firing. A delivery without a journal lacks no memory.
fn fire_again<R: Abort>(
    rt: &R,
    alloc: Global,
    floor: &mut Floor,
    actor: u32,
    job: &mut Job,
    outputs: &mut Outputs,
) -> Result<(), Fail> {
    start_again(rt, alloc, floor, actor, job)?;
    eval_into(job, outputs)?;
    expect_eq(
        &rt,
        floor.deliver_value(alloc, job, outputs.as_slice()),
        Ok(()),
    );
    Ok(())
}

fn check_sink<R: Abort>(rt: &R, sinks: &[Vec<i32>]) {
    assert!(rt; sinks.len() == 3);
    expect_eq(rt, sinks[2].as_slice(), &FEED[..18]);
}

/// Makes the first firing of each actor by one job and one list of outputs.
fn fire_all_again<R: Abort>(rt: &R, alloc: Global, floor: &mut Floor) -> Result<(), Fail> {
    let mut job = Job::blank(alloc);
    let mut outputs = Outputs::new(alloc);
    for actor in 0..3 {
        fire_again(rt, alloc, floor, actor, &mut job, &mut outputs)?;
    }
    Ok(())
}

fn check_one_job<R: Abort>(rt: &R, alloc: Global, asked: &Asked) -> Result<(), Fail> {
    let mut floor = floor_that_keeps(rt, alloc, asked, 1, Keeping::NotKept)?;
    fire_all_again(rt, alloc, &mut floor)?;
    check_sink(rt, floor.sinks());
    expect_eq(&rt, floor.journal().len(), 0);
    Ok(())
}

#[test]
fn one_job_serves_all_firings(rt: HostRuntime) -> Result<(), Fail> {
    let asked = asked_for(rt.alloc(), WIDE, &FEED)?;
    check_one_job(&rt, rt.alloc(), &asked)
}

fn check_run<R: Threads + Wait + Abort + Sync>(
    rt: &R,
    alloc: Global,
    workers: u32,
) -> Result<(), Fail> {
    let asked = asked_for(alloc, WIDE, &FEED)?;
    let answer = ran(rt, alloc, &asked, workers, 1, None, &Open);
    check_told(rt, alloc, &asked.accepted, answer)
}

#[test]
fn one_worker_runs(rt: HostRuntime) -> Result<(), Fail> {
    check_run(&rt, rt.alloc(), 1)
}

#[test]
fn two_workers_run(rt: HostRuntime) -> Result<(), Fail> {
    check_run(&rt, rt.alloc(), 2)
}

#[test]
fn eight_workers_run(rt: HostRuntime) -> Result<(), Fail> {
    check_run(&rt, rt.alloc(), 8)
}

/// The tokens, one a line.
fn lines_of(alloc: Global, tokens: &str) -> Result<String, Fail> {
    Ok(tokens.replace(alloc, " ", "\n")?)
}

fn text_of_feed(alloc: Global) -> Result<Vec<u8>, Fail> {
    let feed = lines_of(alloc, "1 2 3 4 5 6 7 8 9 10 11 12 13 14 15 16 17 18 19 20")?;
    Ok(Vec::from_slice(alloc, feed.as_bytes())?)
}

fn check_texts<R: Abort>(rt: &R, alloc: Global, sinks: &[Vec<u8>]) -> Result<(), Fail> {
    let sink = lines_of(alloc, "1 2 3 4 5 6 7 8 9 10 11 12 13 14 15 16 17 18 ")?;
    assert!(rt; sinks.len() == 1);
    expect_eq(&rt, sinks[0].as_slice(), sink.as_bytes());
    Ok(())
}

fn check_texts_of<R: Threads + Wait + Abort + Sync>(
    rt: &R,
    alloc: Global,
    feeds: &[Vec<u8>],
) -> Result<(), Fail> {
    match run_texts(rt, alloc, WIDE.as_bytes(), feeds, 2, 1, None) {
        Ok(texts) => check_texts(rt, alloc, &texts.sinks),
        Err(fault) => Err(fault.into()),
    }
}

#[test]
fn texts_are_run(rt: HostRuntime) -> Result<(), Fail> {
    let feed = text_of_feed(rt.alloc())?;
    check_texts_of(&rt, rt.alloc(), std::slice::from_ref(&feed))
}
