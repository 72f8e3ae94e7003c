//! A run by two workers, through a gate of its own that counts the firings.

ghost use Rattle.std.specs.Prelude.{◌≡◌, None, IfOk};
ghost use Rattle.csdf_claims.specs.Board.{Holds, KeepsJust};
ghost use Rattle.csdf_floor.specs.Journal.{program_for};
ghost use Rattle.csdf_floor.specs.Outcome.{IsAsSequentialRun};
ghost use Rattle.csdf_floor.specs.Work.{feeds_in};

use crate::analysis::accepted_in;
use crate::floor::{SUMS, feeds_of, print_outcome};
use anyhow::{anyhow, ensure};
use csdf_analysis::Accepted;
use csdf_claims::{Board, Place};
use csdf_floor::{Outcome, are_feeds, may_run};
use csdf_run::{Gate, run};
use std::alloc::Global;
use std::sync::Wait;
use std::sync::atomic::AtomicU32;
use std::sync::atomic::Ordering::SeqCst;
use std::thread::Threads;

/// A gate that counts the firings that pass it.
#[derive(Drop)]
struct Counter {
    passed: AtomicU32,
}

impl Gate for Counter {
    fn enter(&self, _board: &Board, _place: &mut Place, _actor: u32, _firing: u32) {
        self.passed.fetch_add(1, SeqCst);
    }

    fn may_wait(&self) -> bool {
        false
    }
}

/// Runs so many periods by two workers, whose every firing passes the gate. What comes of it is what comes
/// of one actor after another, or the beginning of that where cells are wanting.
fn outcome_of<R: Threads + Wait + Sync>(
    rt: &R,
    alloc: Global,
    accepted: &Accepted,
    feeds: &[Vec<i32>],
    periods: u32,
    gate: &Counter,
) -> anyhow::Result<Outcome>
    ensures { IfOk result (IsAsSequentialRun (program_for accepted.now (feeds_in feeds.now) periods None)) }
{
    ensure!(
        are_feeds(accepted.graph(), feeds),
        "not the feeds of this graph"
    );
    ensure!(1 <= periods, "no periods");
    ensure!(may_run(accepted, periods), "too many firings");
    match run(rt, alloc, accepted, feeds, 2, periods, None, gate) {
        Ok(outcome) => Ok(outcome),
        Err(fault) => Err(anyhow!("{fault}")),
    }
}

/// Shows a run of two periods.
pub fn show<R: Print + Threads + Wait + Sync>(rt: &R, alloc: Global) -> anyhow::Result<()> {
    let accepted = accepted_in(alloc, SUMS)?;
    let feeds = feeds_of(alloc, &[1, 2, 3, 4, 5, 6])?;
    let gate = Counter {
        passed: AtomicU32::new(0),
    };
    let outcome = outcome_of(rt, alloc, &accepted, &feeds, 2, &gate)?;
    print_outcome(rt, &accepted, &outcome)?;
    println!(rt; "{} firings passed the gate", gate.passed.load(SeqCst))?;
    Ok(())
}
