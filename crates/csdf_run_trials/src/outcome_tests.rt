//! What can be done with the outcome of a run.

use crate::shared::{asked_for, expect_eq, ran};
use csdf_core::Move;
use csdf_floor::Outcome;
use csdf_run::Open;
use std::alloc::Global;
use std::process::Abort;
use std::sync::Wait;
use std::test::Fail;
use std::thread;
use std::thread::Threads;

const PAIR: &str = r#"actor = [
  { name = "src", kernel = "source" },
  { name = "snk", kernel = "sink" },
]
channel = [{ name = "x", from = "src", to = "snk", produce = [1], consume = [1] }]
"#;

/// Each firing has four moves, and the channel is closed once the source makes no firing more.
const MOVES: &str = "Begin(0)\nRead(0)\nWrite(0, [5])\nFinish(0)\nClose(0)\n\
    Begin(1)\nRead(1)\nWrite(1, [])\nFinish(1)\n";

/// One period of the pair by one worker.
fn outcome_of<R: Threads + Wait + Abort + Sync>(rt: &R, alloc: Global) -> Result<Outcome, Fail> {
    let asked = asked_for(alloc, PAIR, &[5])?;
    Ok(ran(rt, alloc, &asked, 1, 1, None, &Open)?)
}

/// The moves, one a line.
fn lines_of(alloc: Global, moves: &[Move]) -> Result<String, Fail> {
    let mut text = String::new(alloc);
    for next in moves {
        write!(text, "{next:?}\n")?;
    }
    Ok(text)
}

/// The moves of an outcome.
fn moves_of(outcome: Outcome) -> Vec<Move> {
    let Outcome {
        ending: _,
        sinks: _,
        journal,
        report: _,
        left: _,
    } = outcome;
    journal.into_moves()
}

#[test]
fn a_journal_is_taken_out_of_its_outcome(rt: HostRuntime) -> Result<(), Fail> {
    let outcome = outcome_of(&rt, rt.alloc())?;
    expect_eq(&rt, outcome.journal.keeps(), true);
    let text = lines_of(rt.alloc(), &moves_of(outcome))?;
    expect_eq(&rt, text.as_str(), MOVES);
    Ok(())
}

/// How many moves another thread sees in the outcome; nothing where no thread can be started.
fn moves_seen_elsewhere<R: Threads + Wait + Sync>(rt: &R, outcome: &Outcome) -> Option<usize> {
    thread::scope(thread::scope_env(), rt, move |scope| -> Option<usize> {
        let handle = scope.spawn(move || -> usize { outcome.journal.moves().len() });
        Some(handle.ok()?.join(rt))
    })
}

#[test]
fn an_outcome_is_lent_to_a_thread(rt: HostRuntime) -> Result<(), Fail> {
    let outcome = outcome_of(&rt, rt.alloc())?;
    expect_eq(&rt, moves_seen_elsewhere(&rt, &outcome), Some(9));
    Ok(())
}
