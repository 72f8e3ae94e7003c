//! A floor driven by hand: one firing by its start, its evaluation and its delivery, the others by `make`,
//! and what came of it.

ghost use Rattle.std.specs.Prelude.{None, IfOk};
ghost use Rattle.csdf_floor.specs.Journal.{program_for};
ghost use Rattle.csdf_floor.specs.Outcome.{IsAsSequentialRun};
ghost use Rattle.csdf_floor.specs.Work.{feeds_in};

use crate::analysis::accepted_in;
use anyhow::{anyhow, bail, ensure};
use csdf_analysis::Accepted;
use csdf_floor::{Floor, Outcome, StartFault, are_feeds, may_run, settle};
use csdf_kernel::{Counts, Outputs, eval};
use std::alloc::{AllocError, Global};
use std::io;

/// A source, an actor that adds up 3 tokens, and a sink.
pub const SUMS: &str = r#"actor = [
  { name = "src", kernel = "source" },
  { name = "add", kernel = "sum" },
  { name = "snk", kernel = "sink" },
]
channel = [
  { name = "x", from = "src", to = "add", produce = [1], consume = [3] },
  { name = "y", from = "add", to = "snk", produce = [1], consume = [1] },
]
"#;

/// The tokens for the source, and none for the two other actors.
pub fn feeds_of(alloc: Global, tokens: &[i32]) -> Result<Vec<Vec<i32>>, AllocError> {
    let feed = Vec::from_slice(alloc, tokens)?;
    Ok(vec![in alloc; feed, Vec::new(alloc), Vec::new(alloc)]?)
}

/// Makes the actor's firing of this number: it begins and reads, is evaluated, which needs no floor, and
/// its tokens are written.
fn fire(alloc: Global, floor: &mut Floor, actor: u32, firing: u32) -> anyhow::Result<()> {
    let job = floor
        .start(alloc, actor, firing)
        .map_err(|fault| anyhow!("{fault}"))?;
    let done = eval(alloc, job).map_err(|(_, error)| error)?;
    floor
        .deliver(alloc, &done)
        .map_err(|fault| anyhow!("{fault}"))
}

/// How many firings the actor has finished, where there is one.
fn fired_by(floor: &Floor, actor: u32) -> u32 {
    if actor < floor.core().actors() {
        floor.core().fired(actor)
    } else {
        0
    }
}

/// Lets each actor in turn make all the firings that it can. False where none can begin one.
fn turn(rt: &impl Print, alloc: Global, floor: &mut Floor) -> anyhow::Result<bool> {
    let (mut counts, mut outputs) = (Counts::new(alloc), Outputs::new(alloc));
    let mut has_made = false;
    for actor in 0..floor.core().actors() {
        let firing = fired_by(floor, actor);
        match floor.make(actor, firing, u32::MAX, &mut counts, &mut outputs) {
            Ok(made) => {
                println!(rt; "actor {actor} made {made} firings")?;
                has_made = true;
            }
            Err(StartFault::Refused(_)) => {}
            Err(fault) => bail!("{fault}"),
        }
    }
    Ok(has_made)
}

/// Takes turns until no actor can begin a firing.
fn finish(rt: &impl Print, alloc: Global, floor: &mut Floor) -> anyhow::Result<()> {
    for _ in 0..u32::MAX {
        if !turn(rt, alloc, floor)? {
            break;
        }
    }
    Ok(())
}

/// How many firings each actor has finished.
fn totals_of(alloc: Global, floor: &Floor) -> Result<Vec<u32>, AllocError> {
    let mut totals = Vec::new(alloc);
    for actor in 0..floor.core().actors() {
        totals.push(fired_by(floor, actor))?;
    }
    Ok(totals)
}

/// Makes all firings of so many periods. What came of it is what comes of one actor after another, or the
/// beginning of that where cells are wanting.
fn outcome_of(
    rt: &impl Print,
    alloc: Global,
    accepted: &Accepted,
    feeds: &[Vec<i32>],
    periods: u32,
) -> anyhow::Result<Outcome>
    ensures { IfOk result (IsAsSequentialRun (program_for accepted.now (feeds_in feeds.now) periods None)) }
{
    ensure!(
        are_feeds(accepted.graph(), feeds),
        "not the feeds of this graph"
    );
    ensure!(1 <= periods, "no periods");
    ensure!(may_run(accepted, periods), "too many firings");
    let mut floor = Floor::new(alloc, accepted, feeds, periods, None)?;
    fire(alloc, &mut floor, 0, 0)?;
    finish(rt, alloc, &mut floor)?;
    let totals = totals_of(alloc, &floor)?;
    ensure!(
        totals.len() == accepted.graph().actors().len(),
        "not the floor of this graph"
    );
    match settle(alloc, floor, accepted, feeds, periods, None, &totals) {
        Ok(outcome) => Ok(outcome),
        Err(fault) => Err(anyhow!("{fault}")),
    }
}

/// Prints what each actor took, of which a sink keeps it, and how the run ended.
pub fn print_outcome(rt: &impl Print, accepted: &Accepted, outcome: &Outcome) -> io::Result<()> {
    for (actor, sink) in accepted.graph().actors().iter().zip(&outcome.sinks) {
        println!(rt; "{} took {sink:?}", actor.name)?;
    }
    println!(rt; "ending {:?}", outcome.ending)
}

/// Shows the firings of two periods, and what came of them.
pub fn show(rt: &impl Print, alloc: Global) -> anyhow::Result<()> {
    let accepted = accepted_in(alloc, SUMS)?;
    let feeds = feeds_of(alloc, &[1, 2, 3, 4, 5, 6])?;
    let outcome = outcome_of(rt, alloc, &accepted, &feeds, 2)?;
    print_outcome(rt, &accepted, &outcome)?;
    Ok(())
}
