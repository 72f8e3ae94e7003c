//! Graphs and steps with which several tests begin.

ghost use Rattle.std.specs.Prelude.{◌≤◌, length, All, IfOk};
ghost use Rattle.csdf_kernel.specs.Value.{HasFilterInRange};
ghost use Rattle.csdf_floor.specs.Floor.{IsReady};

use csdf_analysis::{Accepted, accept};
use csdf_floor::{Floor, Outcome, RunBounds, RunFault, are_feeds, may_run, printed_report, settle};
use csdf_graph::read_graph;
use csdf_journal::Keeping;
use csdf_kernel::{Counts, Done, Inputs, Job, eval};
use csdf_model::{Kernel, MAX_TOKENS_PER_FIRING, MAX_TOTAL_PER_FIRING};
use csdf_run::{Gate, run};
use std::alloc::Global;
use std::fmt::Debug;
use std::process::Abort;
use std::sync::Wait;
use std::test::Fail;
use std::thread::Threads;

/// Two sources, and the sums of their tokens.
pub(crate) const TWO_SOURCES: &str = r#"actor = [
  { name = "p", kernel = "source" },
  { name = "q", kernel = "source" },
  { name = "add", kernel = "sum" },
  { name = "snk", kernel = "sink" },
]
channel = [
  { name = "x", from = "p", to = "add", produce = [1], consume = [1] },
  { name = "y", from = "q", to = "add", produce = [1], consume = [1] },
  { name = "z", from = "add", to = "snk", produce = [1], consume = [1] },
]
"#;

/// The graph of the file, which is accepted.
pub(crate) fn accepted_in(alloc: Global, text: &str) -> Result<Accepted, Fail> {
    match accept(alloc, read_graph(alloc, text.as_bytes())?) {
        Ok(accepted) => Ok(accepted),
        Err((_, fault)) => Err(fault.into()),
    }
}

/// The feed of actor 0, and empty ones of the others.
fn feeds_of(alloc: Global, feed: &[i32], actors: usize) -> Result<Vec<Vec<i32>>, Fail> {
    let mut lists = Vec::new(alloc);
    lists.push(Vec::from_slice(alloc, feed)?)?;
    for _ in 1..actors {
        lists.push(Vec::new(alloc))?;
    }
    Ok(lists)
}

/// What a floor or a run is asked for: a graph, and a feed for each actor.
#[derive(Drop)]
pub(crate) struct Asked {
    pub(crate) accepted: Accepted,
    pub(crate) feeds: Vec<Vec<i32>>,
}

/// The graph of the file, whose only source is actor 0, over this feed.
pub(crate) fn asked_for(alloc: Global, text: &str, feed: &[i32]) -> Result<Asked, Fail> {
    let accepted = accepted_in(alloc, text)?;
    let feeds = feeds_of(alloc, feed, accepted.graph().actors().len())?;
    Ok(Asked { accepted, feeds })
}

/// A floor for so many periods, on which nothing has fired.
pub(crate) fn floor_for(
    rt: &impl Abort,
    alloc: Global,
    asked: &Asked,
    periods: u32,
) -> Result<Floor, Fail> {
    let (accepted, feeds) = (&asked.accepted, &asked.feeds);
    assert!(rt; are_feeds(accepted.graph(), feeds));
    assert!(rt; 1 <= periods);
    assert!(rt; may_run(accepted, periods));
    Ok(Floor::new(alloc, accepted, feeds, periods, None)?)
}

/// The same where it is said whether the moves are kept.
pub(crate) fn floor_that_keeps(
    rt: &impl Abort,
    alloc: Global,
    asked: &Asked,
    periods: u32,
    keeping: Keeping,
) -> Result<Floor, Fail> {
    limited_floor(rt, alloc, asked, periods, None, keeping)
}

/// The same with a limit on all firings, where there is one.
pub(crate) fn limited_floor(
    rt: &impl Abort,
    alloc: Global,
    asked: &Asked,
    periods: u32,
    firings: Option<u32>,
    keeping: Keeping,
) -> Result<Floor, Fail> {
    let (accepted, feeds) = (&asked.accepted, &asked.feeds);
    assert!(rt; are_feeds(accepted.graph(), feeds));
    assert!(rt; 1 <= periods);
    assert!(rt; may_run(accepted, periods));
    let bounds = RunBounds { periods, firings };
    Ok(Floor::with_journal(alloc, accepted, feeds, bounds, keeping)?)
}

/// How many firings the actor has made, where there is one.
pub(crate) fn fired_by(floor: &Floor, actor: u32) -> u32 {
    if actor < floor.core().actors() {
        floor.core().fired(actor)
    } else {
        0
    }
}

/// The moves that the floor keeps.
pub(crate) fn moves_of(alloc: Global, floor: &Floor) -> Result<String, Fail> {
    Ok(format!(in alloc; "{:?}", floor.journal())?)
}

/// Asserts that what is found is as wanted: a call of this is proved in a fraction of the time that the
/// macro takes in its place.
pub(crate) fn expect_eq<T: PartialEq + Debug + Drop>(rt: &impl Abort, found: T, want: T) {
    assert_eq!(rt; found, want);
}

/// Asserts that a number is at most another.
fn expect_at_most(rt: &impl Abort, found: u32, most: u32)
    ensures { found ≤ most }
{
    assert!(rt; found <= most);
}

/// Asserts that a filter's number of taps and its shift are in range.
fn expect_filter(rt: &impl Abort, kernel: &Kernel)
    ensures { HasFilterInRange kernel.now }
{
    if let Kernel::Fir { taps, shift, .. } = kernel {
        expect_at_most(rt, *taps, 16);
        expect_at_most(rt, *shift, 31);
    }
}

/// Asserts that the counts are few and small.
fn expect_counts(rt: &impl Abort, counts: &[u32])
    ensures few { length counts.now ≤ 128 }
    ensures small { All (λ n. n ≤ MAX_TOKENS_PER_FIRING) counts.now }
{
    assert!(rt; counts.len() <= 128);
    assert!(rt; counts.iter().all(|count| *count <= 64));
}

/// The job over the inputs, with counts that were copied.
fn job_with(alloc: Global, kernel: Kernel, counts: Counts, inputs: &[i32]) -> Result<Job, Fail>
    requires few { length counts.items ≤ 128 }
    requires small { All (λ n. n ≤ MAX_TOKENS_PER_FIRING) counts.items }
    requires inputs { length inputs.now ≤ MAX_TOTAL_PER_FIRING }
    requires filter { HasFilterInRange kernel }
    ensures { IfOk result IsReady }
{
    Ok(Job {
        kernel,
        actor: 3,
        firing: 5,
        counts,
        inputs: Inputs::from_slice(alloc, inputs)?,
    })
}

/// A job of actor 3 at its firing 5.
pub(crate) fn job_of(
    rt: &impl Abort,
    alloc: Global,
    kernel: Kernel,
    counts: &[u32],
    inputs: &[i32],
) -> Result<Job, Fail>
    ensures { IfOk result IsReady }
{
    expect_filter(rt, &kernel);
    expect_counts(rt, counts);
    assert!(rt; inputs.len() <= MAX_TOTAL_PER_FIRING);
    let copy = Counts::from_slice(alloc, counts)?;
    job_with(alloc, kernel, copy, inputs)
}

fn tell_sink(text: &mut String, sink: &[i32]) -> Result<(), Fail> {
    for token in sink {
        write!(text, "{token} ")?;
    }
    Ok(())
}

fn tell_sinks(text: &mut String, sinks: &[Vec<i32>]) -> Result<(), Fail> {
    for sink in sinks {
        tell_sink(text, sink)?;
    }
    Ok(())
}

fn tell_report(
    alloc: Global,
    text: &mut String,
    accepted: &Accepted,
    outcome: &Outcome,
) -> Result<(), Fail> {
    let report = printed_report(alloc, accepted.graph(), outcome)?;
    write!(text, "\n{report}")?;
    Ok(())
}

/// What the sinks took, and the report.
pub(crate) fn told_of(
    alloc: Global,
    accepted: &Accepted,
    outcome: &Outcome,
) -> Result<String, Fail> {
    let mut text = String::new(alloc);
    tell_sinks(&mut text, &outcome.sinks)?;
    tell_report(alloc, &mut text, accepted, outcome)?;
    Ok(text)
}

/// Starts the actor's firing.
pub(crate) fn started(
    alloc: Global,
    floor: &mut Floor,
    actor: u32,
    firing: u32,
) -> Result<Job, Fail>
    ensures { IfOk result IsReady }
{
    match floor.start(alloc, actor, firing) {
        Ok(job) => Ok(job),
        Err(fault) => Err(fault.into()),
    }
}

/// Does the job.
pub(crate) fn done_of(alloc: Global, job: Job) -> Result<Done, Fail>
    requires { IsReady job }
{
    match eval(alloc, job) {
        Ok(done) => Ok(done),
        Err((_, fault)) => Err(fault.into()),
    }
}

pub(crate) fn deliver(alloc: Global, floor: &mut Floor, done: &Done) -> Result<(), Fail> {
    match floor.deliver(alloc, done) {
        Ok(()) => Ok(()),
        Err(fault) => Err(fault.into()),
    }
}

/// Runs the graph over its feeds.
pub(crate) fn ran<R: Threads + Wait + Abort + Sync, G: Gate>(
    rt: &R,
    alloc: Global,
    asked: &Asked,
    workers: u32,
    periods: u32,
    firings: Option<u32>,
    gate: &G,
) -> Result<Outcome, RunFault> {
    let (accepted, feeds) = (&asked.accepted, &asked.feeds);
    assert!(rt; are_feeds(accepted.graph(), feeds));
    assert!(rt; 1 <= workers && workers <= 8);
    assert!(rt; 1 <= periods);
    assert!(rt; may_run(accepted, periods));
    run(rt, alloc, accepted, feeds, workers, periods, firings, gate)
}

/// The end of the floor with these totals.
pub(crate) fn settled<R: Abort>(
    rt: &R,
    alloc: Global,
    floor: Floor,
    asked: &Asked,
    periods: u32,
    firings: Option<u32>,
    totals: &[u32],
) -> Result<Outcome, RunFault> {
    let (accepted, feeds) = (&asked.accepted, &asked.feeds);
    assert!(rt; are_feeds(accepted.graph(), feeds));
    assert!(rt; 1 <= periods);
    assert!(rt; totals.len() == accepted.graph().actors().len());
    assert!(rt; may_run(accepted, periods));
    settle(alloc, floor, accepted, feeds, periods, firings, totals)
}
