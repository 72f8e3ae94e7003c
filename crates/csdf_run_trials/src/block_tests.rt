//! A pipeline on a floor that makes several firings at once, for `tests/memory/run` too: it refuses one
//! allocation after another.

ghost use Rattle.std.specs.Prelude.{IfOk};

use crate::beside::block_of;
use crate::shared::{
    Asked, asked_for, deliver, done_of, expect_eq, fired_by, floor_that_keeps, moves_of,
};
use csdf_floor::{Floor, StartFault};
use csdf_journal::Keeping;
use csdf_kernel::{Counts, Outputs};
use std::alloc::Global;
use std::process::Abort;
use std::test::Fail;

/// A source, a copy and a sink, with room for three tokens between two.
const LINE: &str = r#"actor = [
  { name = "a", kernel = "source" },
  { name = "b", kernel = "copy" },
  { name = "c", kernel = "sink" },
]
channel = [
  { name = "x", from = "a", to = "b", produce = [1], consume = [1], capacity = 3 },
  { name = "y", from = "b", to = "c", produce = [1], consume = [1], capacity = 3 },
]
"#;

/// The same where each actor has two phases: in the first it moves one token of an input, in the second
/// two. The copy gives its token twice, and then the first of its two.
const PHASES: &str = r#"actor = [
  { name = "a", kernel = "source", phases = 2 },
  { name = "b", kernel = "copy", phases = 2 },
  { name = "c", kernel = "sink", phases = 2 },
]
channel = [
  { name = "x", from = "a", to = "b", produce = [1, 2], consume = [1, 2], capacity = 3 },
  { name = "y", from = "b", to = "c", produce = [2, 1], consume = [1, 2], capacity = 3 },
]
"#;

/// The same as the first with a sum in the place of the copy, which keeps its state in a channel to itself.
const SUMS: &str = r#"actor = [
  { name = "a", kernel = "source" },
  { name = "b", kernel = "sum" },
  { name = "c", kernel = "sink" },
]
channel = [
  { name = "x", from = "a", to = "b", produce = [1], consume = [1], capacity = 3 },
  { name = "s", from = "b", to = "b", produce = [1], consume = [1], initial = [0] },
  { name = "y", from = "b", to = "c", produce = [1], consume = [1], capacity = 3 },
]
"#;

/// A filter that reads its state first and gives it back behind one token for the sink.
const FILTER: &str = r#"actor = [
  { name = "a", kernel = "source" },
  { name = "b", kernel = "fir", weights = [1, 2], shift = 0 },
  { name = "c", kernel = "sink" },
]
channel = [
  { name = "y", from = "b", to = "c", produce = [1], consume = [1], capacity = 3 },
  { name = "s", from = "b", to = "b", produce = [2], consume = [2], initial = [1, 1] },
  { name = "x", from = "a", to = "b", produce = [1], consume = [1], capacity = 3 },
]
"#;

/// A delay line of eight tokens beside the input, of which each firing takes the oldest.
const DELAY: &str = r#"actor = [
  { name = "a", kernel = "source" },
  { name = "b", kernel = "sum" },
  { name = "c", kernel = "sink" },
]
channel = [
  { name = "x", from = "a", to = "b", produce = [1], consume = [1], capacity = 4 },
  { name = "s", from = "b", to = "b", produce = [1], consume = [1], initial = [1, 2, 3, 4, 5, 6, 7, 8] },
  { name = "y", from = "b", to = "c", produce = [1], consume = [1], capacity = 4 },
]
"#;

/// The same where each firing takes the three oldest.
const WIDE_DELAY: &str = r#"actor = [
  { name = "a", kernel = "source" },
  { name = "b", kernel = "sum" },
  { name = "c", kernel = "sink" },
]
channel = [
  { name = "x", from = "a", to = "b", produce = [1], consume = [1], capacity = 3 },
  { name = "s", from = "b", to = "b", produce = [3], consume = [3], initial = [1, 2, 3, 4, 5, 6, 7, 8] },
  { name = "y", from = "b", to = "c", produce = [1], consume = [1], capacity = 3 },
]
"#;

/// A second delay line, of two tokens.
const TWO_DELAYS: &str = r#"actor = [
  { name = "a", kernel = "source" },
  { name = "b", kernel = "sum" },
  { name = "c", kernel = "sink" },
]
channel = [
  { name = "x", from = "a", to = "b", produce = [1], consume = [1], capacity = 3 },
  { name = "s", from = "b", to = "b", produce = [3], consume = [3], initial = [1, 2, 3, 4, 5, 6, 7, 8] },
  { name = "t", from = "b", to = "b", produce = [1], consume = [1], initial = [10, 20] },
  { name = "y", from = "b", to = "c", produce = [1], consume = [1], capacity = 3 },
]
"#;

/// A delay line beside two inputs, of which the source's first token goes to the one and its second to
/// the other.
const DELAY_BESIDE_TWO: &str = r#"actor = [
  { name = "a", kernel = "source" },
  { name = "b", kernel = "sum" },
  { name = "c", kernel = "sink" },
]
channel = [
  { name = "x", from = "a", to = "b", produce = [1], consume = [1], capacity = 3 },
  { name = "w", from = "a", to = "b", produce = [1], consume = [1], capacity = 3 },
  { name = "s", from = "b", to = "b", produce = [1], consume = [1], initial = [1, 2, 3, 4, 5, 6, 7, 8] },
  { name = "y", from = "b", to = "c", produce = [1], consume = [1], capacity = 3 },
]
"#;

/// An actor of two phases, of which the first takes two tokens of its delay line and the second one.
const DELAY_OF_PHASES: &str = r#"actor = [
  { name = "a", kernel = "source" },
  { name = "b", kernel = "sum", phases = 2 },
  { name = "c", kernel = "sink" },
]
channel = [
  { name = "x", from = "a", to = "b", produce = [1], consume = [1, 1], capacity = 8 },
  { name = "s", from = "b", to = "b", produce = [2, 1], consume = [2, 1], initial = [1, 2, 3, 4, 5, 6, 7, 8, 9, 10, 11, 12] },
  { name = "y", from = "b", to = "c", produce = [1, 1], consume = [1], capacity = 8 },
]
"#;

/// Lets each actor in turn make all that it can of ten firings, and tells how many they were; false where
/// no actor can begin.
fn turn(
    floor: &mut Floor,
    counts: &mut Counts,
    outputs: &mut Outputs,
    told: &mut String,
) -> Result<bool, Fail> {
    let mut has_made = false;
    for actor in 0..3 {
        let firing = fired_by(floor, actor);
        match floor.make(actor, firing, 10, counts, outputs) {
            Ok(made) => {
                has_made = true;
                write!(told, "{made} ")?;
            }
            Err(StartFault::Refused(_)) => {}
            Err(fault) => return Err(fault.into()),
        }
    }
    Ok(has_made)
}

/// Turns until no actor can begin, and what the sinks took then.
fn turns(alloc: Global, floor: &mut Floor) -> Result<String, Fail> {
    let mut told = String::new(alloc);
    let mut counts = Counts::new(alloc);
    let mut outputs = Outputs::new(alloc);
    for _ in 0..10 {
        if !turn(floor, &mut counts, &mut outputs, &mut told)? {
            break;
        }
    }
    for sink in floor.sinks() {
        write!(told, "{sink:?}")?;
    }
    Ok(told)
}

/// Makes a firing of the actor by its four moves; false where it can't begin.
fn single(alloc: Global, floor: &mut Floor, actor: u32) -> Result<bool, Fail> {
    let firing = fired_by(floor, actor);
    match floor.start(alloc, actor, firing) {
        Ok(job) => {
            let done = done_of(alloc, job)?;
            deliver(alloc, floor, &done)?;
            Ok(true)
        }
        Err(StartFault::Refused(_)) => Ok(false),
        Err(fault) => Err(fault.into()),
    }
}

/// The same as [`turn`], but one firing after another.
fn single_turn(alloc: Global, floor: &mut Floor) -> Result<(), Fail> {
    for actor in 0..3 {
        for _ in 0..10 {
            if !single(alloc, floor, actor)? {
                break;
            }
        }
    }
    Ok(())
}

fn single_turns(alloc: Global, floor: &mut Floor) -> Result<(), Fail> {
    for _ in 0..10 {
        single_turn(alloc, floor)?;
    }
    Ok(())
}

/// What comes of four periods of the graph, and the moves that are kept.
fn made_at_once(
    rt: &impl Abort,
    alloc: Global,
    asked: &Asked,
    keeping: Keeping,
    wanted: &str,
) -> Result<String, Fail> {
    let mut floor = floor_that_keeps(rt, alloc, asked, 4, keeping)?;
    let told = turns(alloc, &mut floor)?;
    expect_eq(rt, told.as_str(), wanted);
    moves_of(alloc, &floor)
}

/// The moves of the same firings one by one.
fn made_singly(rt: &impl Abort, alloc: Global, asked: &Asked) -> Result<String, Fail> {
    let mut floor = floor_that_keeps(rt, alloc, asked, 4, Keeping::Kept)?;
    single_turns(alloc, &mut floor)?;
    moves_of(alloc, &floor)
}

/// What comes of a graph of one phase. Three firings fill a channel, so three are made at once, and then
/// the fourth.
const OF_LINE: &str = "3 3 3 1 1 1 [][][5, -6, 7, 8]";

/// Graphs of one phase whose middle actor keeps a state, and what comes of them.
const GRAPHS: [(&str, &str); 2] = [
    // running sums: each firing reads what the one before it wrote to itself
    (SUMS, "3 3 3 1 1 1 [][][5, -1, 6, 14]"),
    // from 1, 1 and 5: 3 goes to the sink, and 3, 11 are the next state; then 25, and 25, -1; 23, and
    // 23, 13; 49
    (FILTER, "3 3 3 1 1 1 [][][3, 25, 23, 49]"),
];

/// What comes of two phases, of which two firings fill a channel: 5 gives 5, 5, and -6, 7 give -6; then 8
/// gives 8, 8, of which the sink takes one.
const OF_PHASES: &str = "2 2 2 1 1 1 [][][5, 5, -6, 8]";

fn check_not_kept(rt: &impl Abort, alloc: Global, graph: &str, wanted: &str) -> Result<(), Fail> {
    let asked = asked_for(alloc, graph, &[5, -6, 7, 8])?;
    let moves = made_at_once(rt, alloc, &asked, Keeping::NotKept, wanted)?;
    expect_eq(rt, moves.as_str(), "[]");
    Ok(())
}

#[test]
fn firings_are_made_at_once(rt: HostRuntime) -> Result<(), Fail> {
    for (graph, wanted) in &GRAPHS {
        check_not_kept(&rt, rt.alloc(), *graph, *wanted)?;
    }
    check_not_kept(&rt, rt.alloc(), LINE, OF_LINE)?;
    check_not_kept(&rt, rt.alloc(), PHASES, OF_PHASES)
}

/// Firings that are made at once leave the moves of firings one by one.
fn check_kept(rt: &impl Abort, alloc: Global, graph: &str, wanted: &str) -> Result<(), Fail> {
    let asked = asked_for(alloc, graph, &[5, -6, 7, 8])?;
    let moves = made_at_once(rt, alloc, &asked, Keeping::Kept, wanted)?;
    let singly = made_singly(rt, alloc, &asked)?;
    expect_eq(rt, moves.as_str(), singly.as_str());
    Ok(())
}

#[test]
fn moves_of_firings_are_kept(rt: HostRuntime) -> Result<(), Fail> {
    check_kept(&rt, rt.alloc(), LINE, OF_LINE)
}

/// Each firing of these reads what the one before it wrote. `tests/memory/run` leaves this one out.
#[test]
fn moves_of_states_are_kept(rt: HostRuntime) -> Result<(), Fail> {
    for (graph, wanted) in &GRAPHS {
        check_kept(&rt, rt.alloc(), *graph, *wanted)?;
    }
    Ok(())
}

/// A block ends with a cycle of phases here, and others are made after it, or not, where memory runs out.
/// So `tests/memory/run` leaves this one out.
#[test]
fn moves_of_phases_are_kept(rt: HostRuntime) -> Result<(), Fail> {
    check_kept(&rt, rt.alloc(), PHASES, OF_PHASES)
}

/// A graph whose middle actor has delay lines, what the source reads, how many firings the middle actor
/// can make then, and what comes of four periods.
struct Delayed {
    graph: &'static str,
    feed: &'static [i32],
    block: u32,
    wanted: &'static str,
}

const DELAYS: [Delayed; 5] = [
    Delayed {
        graph: DELAY,
        feed: &[5, -6, 7, 8],
        block: 4,
        wanted: "4 4 4 [][][6, -4, 10, 12]",
    },
    // 5 + 1 + 2 + 3, -6 + 4 + 5 + 6, and then 7 + 7 + 8 + 11, of which the 11 came first
    Delayed {
        graph: WIDE_DELAY,
        feed: &[5, -6, 7, 8],
        block: 3,
        wanted: "3 3 3 1 1 1 [][][11, 9, 33, 39]",
    },
    // the same and 10, 20, 21 and 29 of the second line: 21, 29, 7 + 7 + 8 + 21 + 21, 8 + 21 + 21 + 29 + 29
    Delayed {
        graph: TWO_DELAYS,
        feed: &[5, -6, 7, 8],
        block: 3,
        wanted: "3 3 3 1 1 1 [][][21, 29, 64, 108]",
    },
    // 5 - 6 + 1 and 7 + 8 + 2, and then the source's file is at its end
    Delayed {
        graph: DELAY_BESIDE_TWO,
        feed: &[5, -6, 7, 8],
        block: 2,
        wanted: "2 2 2 [][][0, 17]",
    },
    // 5 + 1 + 2, -6 + 3, 7 + 4 + 5, 8 + 6, 1 + 7 + 8, 2 + 9, 3 + 10 + 11, 4 + 12. There are eight cells for the
    // five tokens that a cycle gives, and not for those of two
    Delayed {
        graph: DELAY_OF_PHASES,
        feed: &[5, -6, 7, 8, 1, 2, 3, 4],
        block: 2,
        wanted: "8 8 8 [][][8, -3, 16, 14, 16, 11, 24, 16]",
    },
];

/// How many firings the middle actor can make once the source has made all that it can.
fn first_block(rt: &impl Abort, alloc: Global, asked: &Asked) -> Result<u32, Fail> {
    let mut floor = floor_that_keeps(rt, alloc, asked, 4, Keeping::NotKept)?;
    let mut counts = Counts::new(alloc);
    let mut outputs = Outputs::new(alloc);
    floor.make(0, 0, 10, &mut counts, &mut outputs)?;
    Ok(block_of(floor.core(), 1, 10))
}

fn check_delayed(rt: &impl Abort, alloc: Global, delayed: &Delayed) -> Result<(), Fail> {
    let asked = asked_for(alloc, delayed.graph, delayed.feed)?;
    expect_eq(rt, first_block(rt, alloc, &asked)?, delayed.block);
    let moves = made_at_once(rt, alloc, &asked, Keeping::Kept, delayed.wanted)?;
    let singly = made_singly(rt, alloc, &asked)?;
    expect_eq(rt, moves.as_str(), singly.as_str());
    Ok(())
}

/// Some of these are made one by one, and then fewer where memory runs out after the first. So
/// `tests/memory/run` leaves this one out.
#[test]
fn firings_with_delay_lines_are_made_at_once(rt: HostRuntime) -> Result<(), Fail> {
    for delayed in &DELAYS {
        check_delayed(&rt, rt.alloc(), delayed)?;
    }
    Ok(())
}
