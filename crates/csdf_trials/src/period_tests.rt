//! Printed schedules, played over and over.
use crate::core_tests::opening_core;
use crate::shared::{accepted_in, expect_eq};
use csdf_analysis::{Accepted, schedule};
use csdf_core::Core;
use std::alloc::{AllocError, Global};
use std::process::Abort;
use std::test::Fail;

/// A source that makes 2 and 1 tokens in turn, and a sink that takes 3.
const PAIR: &str = r#"actor = [
  { name = "src", kernel = "source", phases = 2 },
  { name = "snk", kernel = "sink" },
]
channel = [{ name = "x", from = "src", to = "snk", produce = [2, 1], consume = [3] }]
"#;

/// A running sum, whose state is in a channel to itself.
const SUMS: &str = r#"actor = [
  { name = "src", kernel = "source" },
  { name = "acc", kernel = "sum" },
  { name = "snk", kernel = "sink" },
]
channel = [
  { name = "x", from = "src", to = "acc", produce = [1], consume = [1] },
  { name = "s", from = "acc", to = "acc", produce = [1], consume = [1], initial = [0] },
  { name = "y", from = "acc", to = "snk", produce = [1], consume = [1] },
]
"#;

/// Two actors in a circle with one token in it.
const CIRCLE: &str = r#"actor = [{ name = "a", kernel = "copy" }, { name = "b", kernel = "copy" }]
channel = [
  { name = "x", from = "a", to = "b", produce = [1], consume = [1], initial = [5] },
  { name = "y", from = "b", to = "a", produce = [1], consume = [1] },
]
"#;

/// A source that gives 2, a stage that takes 3 and gives 1, and a sink that takes 2, over as many
/// cells as the least capacities add up to.
const CELLS: &str = r#"cells = 6
actor = [
  { name = "a", kernel = "source" },
  { name = "b", kernel = "copy" },
  { name = "c", kernel = "sink" },
]
channel = [
  { name = "x", from = "a", to = "b", produce = [2], consume = [3] },
  { name = "y", from = "b", to = "c", produce = [1], consume = [2] },
]
"#;

/// From 44.1 kHz to 48 kHz in three stages, by rates that differ from phase to phase.
const RATES: &str = r#"actor = [
  { name = "disc", kernel = "source" },
  { name = "up", kernel = "copy", phases = 4 },
  { name = "down", kernel = "copy", phases = 5 },
  { name = "out", kernel = "copy", phases = 8 },
  { name = "dac", kernel = "sink" },
]
channel = [
  { name = "a", from = "disc", to = "up", produce = [1], consume = [1, 1, 1, 0] },
  { name = "b", from = "up", to = "down", produce = [1, 1, 1, 1], consume = [1, 2, 1, 2, 1] },
  { name = "c", from = "down", to = "out", produce = [1, 1, 1, 1, 1], consume = [1, 1, 1, 1, 1, 1, 1, 0] },
  { name = "d", from = "out", to = "dac", produce = [1, 1, 1, 1, 1, 1, 1, 1], consume = [1] },
]
"#;

/// A loop that learns from the error of four samples what to take off the next four.
const CANCELLER: &str = r#"actor = [
  { name = "far", kernel = "source" },
  { name = "microphone", kernel = "source" },
  { name = "estimate", kernel = "fir", weights = [3, 4], shift = 2 },
  { name = "left", kernel = "fir", weights = [1, -1], shift = 0 },
  { name = "step", kernel = "fir", weights = [1, 1, 1, 1], shift = 3 },
  { name = "learned", kernel = "sum" },
  { name = "line", kernel = "sink" },
]
channel = [
  { name = "speech", from = "far", to = "estimate", produce = [1], consume = [1] },
  { name = "correction", from = "learned", to = "estimate", produce = [4], consume = [1], initial = [0, 0, 0, 0] },
  { name = "heard", from = "microphone", to = "left", produce = [1], consume = [1] },
  { name = "echo", from = "estimate", to = "left", produce = [1], consume = [1] },
  { name = "error", from = "left", to = "step", produce = [1], consume = [4] },
  { name = "change", from = "step", to = "learned", produce = [1], consume = [1] },
  { name = "so_far", from = "learned", to = "learned", produce = [1], consume = [1], initial = [0] },
  { name = "clean", from = "left", to = "line", produce = [1], consume = [1] },
]
"#;

fn read(rt: &impl Abort, alloc: Global, core: &mut Core, actor: u32) -> Result<(), Fail> {
    let mut inputs = vec![in alloc; 0; core.need(actor)]?;
    assert!(rt; core.need(actor) <= inputs.len());
    core.read(actor, &mut inputs)?;
    Ok(())
}

/// Writes zeros.
fn write(alloc: Global, core: &mut Core, actor: u32) -> Result<(), Fail> {
    let outputs = vec![in alloc; 0; core.gives(actor)]?;
    core.write(actor, &outputs)?;
    Ok(())
}

/// Makes a whole firing of the actor, which writes zeros.
fn fire(rt: &impl Abort, alloc: Global, core: &mut Core, actor: u32) -> Result<(), Fail> {
    core.begin(actor)?;
    read(rt, alloc, core, actor)?;
    write(alloc, core, actor)?;
    core.finish(actor)?;
    Ok(())
}

/// How many tokens each channel holds.
fn lengths(alloc: Global, core: &Core) -> Result<Vec<u32>, AllocError> {
    let mut lengths = Vec::new(alloc);
    for channel in 0..core.channels() {
        lengths.push(core.len(channel))?;
    }
    Ok(lengths)
}

/// Makes the firings of a period: no move is refused.
fn play_period(
    rt: &impl Abort,
    alloc: Global,
    core: &mut Core,
    firings: &[u32],
) -> Result<(), Fail> {
    for actor in firings {
        fire(rt, alloc, core, *actor)?;
    }
    Ok(())
}

/// Plays the firings of a period three times over: each time the channels hold in the end what
/// they held at first.
fn play_three(
    rt: &impl Abort,
    alloc: Global,
    core: &mut Core,
    firings: &[u32],
) -> Result<(), Fail> {
    let first = lengths(alloc, core)?;
    for _ in 0..3 {
        play_period(rt, alloc, core, firings)?;
        let now = lengths(alloc, core)?;
        expect_eq(rt, now.as_slice(), first.as_slice());
    }
    Ok(())
}

/// Plays the firings of a period three times over on a new core.
fn play_on_new(
    rt: &impl Abort,
    alloc: Global,
    accepted: &Accepted,
    firings: &[u32],
) -> Result<(), Fail> {
    let mut core = opening_core(alloc, accepted)?;
    play_three(rt, alloc, &mut core, firings)
}

/// Plays the printed schedule of the graph three times over.
fn play_schedule(rt: &impl Abort, alloc: Global, accepted: &Accepted) -> Result<(), Fail> {
    let firings = schedule(alloc, accepted)?;
    play_on_new(rt, alloc, accepted, &firings)
}

#[test]
fn schedules_are_played_over_and_over(rt: HostRuntime) -> Result<(), Fail> {
    let alloc = rt.alloc();
    for text in [PAIR, SUMS, CIRCLE, CELLS, RATES, CANCELLER] {
        let accepted = accepted_in(alloc, text)?;
        play_schedule(&rt, alloc, &accepted)?;
    }
    Ok(())
}
