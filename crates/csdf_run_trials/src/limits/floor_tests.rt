//! Floors, by single firings.

ghost use Rattle.std.specs.Prelude.{IfOk};
ghost use Rattle.csdf_floor.specs.Floor.{IsReady};

use crate::limits::rows::{SIZES, Size, accepted_of, expect_eq};
use csdf_analysis::Accepted;
use csdf_floor::{Floor, Outcome, RunBounds, RunFault, are_feeds, may_run, printed_report, settle};
use csdf_journal::Keeping;
use csdf_kernel::{Done, Job, eval};
use std::alloc::{AllocError, Global};
use std::process::Abort;
use std::test::Fail;

/// A row, and so many tokens for its source.
#[derive(Drop)]
pub(crate) struct Asked {
    pub(crate) accepted: Accepted,
    pub(crate) feeds: Vec<Vec<i32>>,
}

fn feeds_of(alloc: Global, actors: usize, tokens: u32) -> Result<Vec<Vec<i32>>, AllocError> {
    let mut feeds = Vec::new(alloc);
    feeds.push(vec![in alloc; 7; tokens as usize]?)?;
    for _ in 1..actors {
        feeds.push(Vec::new(alloc))?;
    }
    Ok(feeds)
}

pub(crate) fn asked_for(alloc: Global, size: Size, tokens: u32) -> Result<Asked, Fail> {
    let accepted = accepted_of(alloc, size)?;
    let feeds = feeds_of(alloc, accepted.graph().actors().len(), tokens)?;
    Ok(Asked { accepted, feeds })
}

/// A floor for so many periods.
fn floor_for(
    rt: &impl Abort,
    alloc: Global,
    asked: &Asked,
    periods: u32,
    keeping: Keeping,
) -> Result<Floor, Fail> {
    let (accepted, feeds) = (&asked.accepted, &asked.feeds);
    assert!(rt; are_feeds(accepted.graph(), feeds));
    assert!(rt; 1 <= periods);
    assert!(rt; may_run(accepted, periods));
    let bounds = RunBounds {
        periods,
        firings: None,
    };
    Ok(Floor::with_journal(alloc, accepted, feeds, bounds, keeping)?)
}

fn started(alloc: Global, floor: &mut Floor, actor: u32) -> Result<Job, Fail>
    ensures { IfOk result IsReady }
{
    match floor.start(alloc, actor, 0) {
        Ok(job) => Ok(job),
        Err(fault) => Err(fault.into()),
    }
}

fn done_of(alloc: Global, job: Job) -> Result<Done, Fail>
    requires { IsReady job }
{
    match eval(alloc, job) {
        Ok(done) => Ok(done),
        Err((_, fault)) => Err(fault.into()),
    }
}

fn deliver(alloc: Global, floor: &mut Floor, done: &Done) -> Result<(), Fail> {
    match floor.deliver(alloc, done) {
        Ok(()) => Ok(()),
        Err(fault) => Err(fault.into()),
    }
}

/// The actor's first firing.
fn fire(alloc: Global, floor: &mut Floor, actor: u32) -> Result<(), Fail> {
    let job = started(alloc, floor, actor)?;
    let done = done_of(alloc, job)?;
    deliver(alloc, floor, &done)
}

/// The first firing of each actor.
fn fire_each(alloc: Global, floor: &mut Floor) -> Result<(), Fail> {
    for actor in 0..floor.core().actors() {
        fire(alloc, floor, actor)?;
    }
    Ok(())
}

/// The end of the floor with these totals.
fn settled<R: Abort>(
    rt: &R,
    alloc: Global,
    floor: Floor,
    asked: &Asked,
    periods: u32,
    totals: &[u32],
) -> Result<Outcome, RunFault> {
    let (accepted, feeds) = (&asked.accepted, &asked.feeds);
    assert!(rt; are_feeds(accepted.graph(), feeds));
    assert!(rt; 1 <= periods);
    assert!(rt; totals.len() == accepted.graph().actors().len());
    assert!(rt; may_run(accepted, periods));
    settle(alloc, floor, accepted, feeds, periods, None, totals)
}

fn outcome_of<R: Abort>(
    rt: &R,
    alloc: Global,
    floor: Floor,
    asked: &Asked,
    totals: &[u32],
) -> Result<Outcome, Fail> {
    match settled(rt, alloc, floor, asked, 1, totals) {
        Ok(outcome) => Ok(outcome),
        Err(fault) => Err(fault.into()),
    }
}

fn check_report(rt: &impl Abort, alloc: Global, asked: &Asked, end: &Outcome) -> Result<(), Fail> {
    let text = printed_report(alloc, asked.accepted.graph(), end)?;
    let lines = asked.accepted.graph().channels().len().saturating_add(1);
    expect_eq(rt, text.lines().count(), lines);
    Ok(())
}

fn check_firings(rt: &impl Abort, alloc: Global, size: Size) -> Result<(), Fail> {
    let asked = asked_for(alloc, size, 1)?;
    let mut floor = floor_for(rt, alloc, &asked, 1, Keeping::Kept)?;
    fire_each(alloc, &mut floor)?;
    let totals = vec![in alloc; 1; size.actors as usize]?;
    let outcome = outcome_of(rt, alloc, floor, &asked, &totals)?;
    check_report(rt, alloc, &asked, &outcome)
}

#[test]
fn each_actor_of_a_row_fires(rt: HostRuntime) -> Result<(), Fail> {
    for size in &SIZES {
        check_firings(&rt, rt.alloc(), *size)?;
    }
    Ok(())
}
