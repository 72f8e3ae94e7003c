ghost use Rattle.std.specs.Prelude.{◌<◌, length};

use crate::analysis_tests::{CONVERTER, TWO_PHASES, TWO_TOKENS, UNEVEN_PHASES, graph};
use crate::shared::{CHAIN, DISAGREEING, STUCK_CYCLE, accepted_in, expect_eq, expect_eq_of};
use csdf_analysis::{AcceptFault, Accepted, accept, capacities, raise, schedule};
use std::alloc::{AllocError, Global};
use std::process::Abort;
use std::test::Fail;

/// The chain where the first channel has too small a capacity, and where it has a large one.
pub(crate) const TIGHT_CHAIN: &str = r#"cells = 7
actor = [
  { name = "a", kernel = "source" },
  { name = "b", kernel = "copy" },
  { name = "c", kernel = "sink" },
]
channel = [
  { name = "x", from = "a", to = "b", produce = [2], consume = [3], capacity = 3 },
  { name = "y", from = "b", to = "c", produce = [1], consume = [2] },
]
"#;

pub(crate) const WIDE_CHAIN: &str = r#"cells = 7
actor = [
  { name = "a", kernel = "source" },
  { name = "b", kernel = "copy" },
  { name = "c", kernel = "sink" },
]
channel = [
  { name = "x", from = "a", to = "b", produce = [2], consume = [3], capacity = 5 },
  { name = "y", from = "b", to = "c", produce = [1], consume = [2] },
]
"#;

pub(crate) const CYCLE: &str =
    r#"actor = [{ name = "a", kernel = "copy" }, { name = "b", kernel = "copy" }]
channel = [
  { name = "x", from = "a", to = "b", produce = [1], consume = [1] },
  { name = "y", from = "b", to = "a", produce = [1], consume = [1], initial = [5] },
]
"#;

/// The first actor takes two tokens of the cycle, which has one.
const SHORT_CYCLE: &str =
    r#"actor = [{ name = "a", kernel = "copy" }, { name = "b", kernel = "copy" }]
channel = [
  { name = "x", from = "a", to = "b", produce = [2], consume = [1] },
  { name = "y", from = "b", to = "a", produce = [1], consume = [2], initial = [5] },
]
"#;

const SELF_LOOP: &str = r#"actor = [{ name = "a", kernel = "copy" }]
channel = [{ name = "s", from = "a", to = "a", produce = [1], consume = [1], initial = [0] }]
"#;

/// The sink first fires after sixteen firings of the source.
const LATE_SINK: &str = r#"actor = [
  { name = "a", kernel = "source", phases = 16 },
  { name = "b", kernel = "sink", phases = 16 },
]
channel = [
  { name = "x", from = "a", to = "b", produce = [64, 64, 64, 64, 64, 64, 64, 64, 64, 64, 64, 64, 64, 64, 64, 64], consume = [64, 64, 64, 64, 64, 64, 64, 64, 64, 64, 64, 64, 64, 64, 64, 64] },
  { name = "y", from = "a", to = "b", produce = [0, 0, 0, 0, 0, 0, 0, 0, 0, 0, 0, 0, 0, 0, 0, 1], consume = [1, 0, 0, 0, 0, 0, 0, 0, 0, 0, 0, 0, 0, 0, 0, 0] },
]
"#;

const LATE_SINK_GIVEN_SECOND: &str = r#"actor = [
  { name = "a", kernel = "source", phases = 16 },
  { name = "b", kernel = "sink", phases = 16 },
]
channel = [
  { name = "x", from = "a", to = "b", produce = [64, 64, 64, 64, 64, 64, 64, 64, 64, 64, 64, 64, 64, 64, 64, 64], consume = [64, 64, 64, 64, 64, 64, 64, 64, 64, 64, 64, 64, 64, 64, 64, 64] },
  { name = "y", from = "a", to = "b", produce = [0, 0, 0, 0, 0, 0, 0, 0, 0, 0, 0, 0, 0, 0, 0, 1], consume = [1, 0, 0, 0, 0, 0, 0, 0, 0, 0, 0, 0, 0, 0, 0, 0], capacity = 2 },
]
"#;

const LATE_SINK_TOO_TIGHT: &str = r#"actor = [
  { name = "a", kernel = "source", phases = 16 },
  { name = "b", kernel = "sink", phases = 16 },
]
channel = [
  { name = "x", from = "a", to = "b", produce = [64, 64, 64, 64, 64, 64, 64, 64, 64, 64, 64, 64, 64, 64, 64, 64], consume = [64, 64, 64, 64, 64, 64, 64, 64, 64, 64, 64, 64, 64, 64, 64, 64], capacity = 1023 },
  { name = "y", from = "a", to = "b", produce = [0, 0, 0, 0, 0, 0, 0, 0, 0, 0, 0, 0, 0, 0, 0, 1], consume = [1, 0, 0, 0, 0, 0, 0, 0, 0, 0, 0, 0, 0, 0, 0, 0] },
]
"#;

pub(crate) fn check_capacities(
    rt: &impl Abort,
    accepted: &Accepted,
    text: &str,
    capacities: &[u32],
    cells: u32,
) {
    expect_eq_of(rt, accepted.capacities(), capacities, text);
    expect_eq_of(rt, accepted.cells(), cells, text);
}

/// Asserts the capacities of the graph, and its number of cells.
fn expect_capacities(
    rt: &(impl Abort + AllocGlobal),
    text: &str,
    capacities: &[u32],
    cells: u32,
) -> Result<(), Fail> {
    let accepted = accepted_in(rt.alloc(), text)?;
    check_capacities(rt, &accepted, text, capacities, cells);
    Ok(())
}

/// Graphs, their least capacities, and their cells.
const LEAST: [(&str, &[u32], u32); 10] = [
    (CHAIN, &[4, 2], 6),
    (TWO_PHASES, &[1], 1),
    (TWO_TOKENS, &[2], 2),
    (UNEVEN_PHASES, &[3], 3),
    (CYCLE, &[1, 1], 2),
    (SELF_LOOP, &[1], 1),
    (WIDE_CHAIN, &[5, 2], 7),
    (LATE_SINK, &[1024, 1], 1025),
    (LATE_SINK_GIVEN_SECOND, &[1024, 2], 1026),
    (CONVERTER, &[1, 4, 8, 14, 5], 32),
];

#[test]
fn finds_the_least_capacities(rt: HostRuntime) -> Result<(), Fail> {
    for (text, capacities, cells) in &LEAST {
        expect_capacities(&rt, *text, *capacities, *cells)?;
    }
    Ok(())
}

/// Graphs, and why they are refused.
const REFUSED: [(&str, AcceptFault); 5] = [
    (DISAGREEING, AcceptFault::Unbalanced(1)),
    (STUCK_CYCLE, AcceptFault::Deadlock),
    (SHORT_CYCLE, AcceptFault::Deadlock),
    (TIGHT_CHAIN, AcceptFault::TooTight),
    (LATE_SINK_TOO_TIGHT, AcceptFault::TooTight),
];

/// Why the graph is refused.
fn refusal_of(rt: &impl AllocGlobal, text: &str) -> Result<Option<AcceptFault>, Fail> {
    match accept(rt.alloc(), graph(rt, text)?) {
        Ok(_) => Ok(None),
        Err((_, fault)) => Ok(Some(fault)),
    }
}

#[test]
fn says_why_a_graph_is_refused(rt: HostRuntime) -> Result<(), Fail> {
    for (text, want) in &REFUSED {
        expect_eq_of(&rt, refusal_of(&rt, *text)?, Some(*want), *text);
    }
    Ok(())
}

/// Asserts what the printed schedule is.
fn expect_schedule(
    rt: &(impl Abort + AllocGlobal),
    accepted: &Accepted,
    want: &[u32],
) -> Result<(), Fail> {
    let firings = schedule(rt.alloc(), accepted)?;
    expect_eq(rt, firings.as_slice(), want);
    Ok(())
}

#[test]
fn prints_the_schedule(rt: HostRuntime) -> Result<(), Fail> {
    let chain = accepted_in(rt.alloc(), CHAIN)?;
    expect_schedule(&rt, &chain, &[0, 0, 1, 0, 1, 2])
}

fn check_copy(rt: &impl Abort, copy: &Accepted) {
    expect_eq(rt, copy.capacities(), [4, 2].as_slice());
    expect_eq(rt, copy.vector().q.as_slice(), [3, 2, 1].as_slice());
    expect_eq(rt, copy.graph().channels().len(), 2);
}

fn copy_of(alloc: Global, text: &str) -> Result<Accepted, Fail> {
    let accepted = accepted_in(alloc, text)?;
    Ok(accepted.try_copy(alloc)?)
}

#[test]
fn copies_what_is_accepted(rt: HostRuntime) -> Result<(), Fail> {
    let copy = copy_of(rt.alloc(), CHAIN)?;
    check_copy(&rt, &copy);
    Ok(())
}

/// The search of one channel, from the least capacities.
fn raised(alloc: Global, accepted: &Accepted, c: u32) -> Result<(u32, u32), AllocError>
    requires { c < length accepted.now.capacities }
{
    raise(
        alloc,
        accepted.graph(),
        accepted.vector(),
        accepted.capacities(),
        c,
    )
}

#[test]
fn raises_one_capacity_in_one_run(rt: HostRuntime) -> Result<(), Fail> {
    let late_sink = accepted_in(rt.alloc(), LATE_SINK)?;
    if !late_sink.capacities().is_empty() {
        expect_eq(&rt, raised(rt.alloc(), &late_sink, 0)?, (1024, 32));
    }
    Ok(())
}
