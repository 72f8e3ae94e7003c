//! Blocks of firings beside the same firings made move by move.

use crate::core_tests::{AMPLE, PAIR, opening_core, shown, state_after};
use crate::shared::{accepted_in, expect_eq, expect_eq_of};
use csdf_analysis::Accepted;
use csdf_core::{Block, Core};
use std::alloc::Global;
use std::process::Abort;
use std::test::Fail;

/// A source, a stage and a sink, each of one token a firing, with four cells between two.
const PIPELINE: &str = r#"actor = [
  { name = "a", kernel = "source" },
  { name = "b", kernel = "copy" },
  { name = "c", kernel = "sink" },
]
channel = [
  { name = "x", from = "a", to = "b", produce = [1], consume = [1], capacity = 4 },
  { name = "y", from = "b", to = "c", produce = [1], consume = [1], capacity = 4 },
]
"#;

/// Four firings of the source, then three of the stage and three of the sink, move by move.
const PIPELINE_MOVES: &str =
    "begin 0 / read 0 / write 0 5 / finish 0 / begin 0 / read 0 / write 0 6 / finish 0 / \
    begin 0 / read 0 / write 0 7 / finish 0 / begin 0 / read 0 / write 0 8 / finish 0 / \
    begin 1 / read 1 / write 1 5 / finish 1 / begin 1 / read 1 / write 1 6 / finish 1 / \
    begin 1 / read 1 / write 1 7 / finish 1 / begin 2 / read 2 / write 2 / finish 2 / \
    begin 2 / read 2 / write 2 / finish 2 / begin 2 / read 2 / write 2 / finish 2";

/// What the pipeline then shows: the free list is a queue, so the stage's tokens lie in cells 4 to 6.
const PIPELINE_STATE: &str = r#"actor 0: 4 fired, Idle, needs 0, gives 1
actor 1: 3 fired, Idle, needs 1, gives 1
actor 2: 3 fired, Idle, needs 1, gives 0
channel 0: holds 1, peak 4, open true, cells 3
channel 1: holds 0, peak 3, open true, cells
free cells 7 0 1 2 4 5 6
quiet false
actor 64: needs 0
"#;

/// Both phases of the source of the pair, then a firing of its sink, move by move.
const PAIR_MOVES: &str =
    "begin 0 / read 0 / write 0 5 6 / finish 0 / begin 0 / read 0 / write 0 7 / finish 0 / \
    begin 1 / read 1 / write 1 / finish 1";

const PAIR_STATE: &str = r#"actor 0: 2 fired, Idle, needs 0, gives 2
actor 1: 1 fired, Idle, needs 3, gives 0
channel 0: holds 0, peak 3, open true, cells
free cells 0 1 2
quiet false
actor 64: needs 0
"#;

/// Two sources, a sum with an input from each and two outputs, and two sinks.
const JOIN: &str = r#"actor = [
  { name = "a", kernel = "source" },
  { name = "b", kernel = "source" },
  { name = "c", kernel = "sum" },
  { name = "d", kernel = "sink" },
  { name = "e", kernel = "sink" },
]
channel = [
  { name = "x", from = "a", to = "c", produce = [1], consume = [2], capacity = 4 },
  { name = "y", from = "b", to = "c", produce = [1], consume = [1], capacity = 2 },
  { name = "z", from = "c", to = "d", produce = [1], consume = [1], capacity = 2 },
  { name = "w", from = "c", to = "e", produce = [1], consume = [1], capacity = 2 },
]
"#;

/// Four firings of the first source, two of the second and two of the sum, move by move.
const JOIN_MOVES: &str =
    "begin 0 / read 0 / write 0 1 / finish 0 / begin 0 / read 0 / write 0 2 / finish 0 / \
    begin 0 / read 0 / write 0 3 / finish 0 / begin 0 / read 0 / write 0 4 / finish 0 / \
    begin 1 / read 1 / write 1 10 / finish 1 / begin 1 / read 1 / write 1 20 / finish 1 / \
    begin 2 / read 2 / write 2 13 13 / finish 2 / begin 2 / read 2 / write 2 27 27 / finish 2";

/// What the join then shows: the sum's first firing frees cells 0, 1 and 4 and takes 6 and 7, its
/// second one frees 2, 3 and 5 and takes 8 and 9.
const JOIN_STATE: &str = r#"actor 0: 4 fired, Idle, needs 0, gives 1
actor 1: 2 fired, Idle, needs 0, gives 1
actor 2: 2 fired, Idle, needs 3, gives 2
actor 3: 0 fired, Idle, needs 1, gives 0
actor 4: 0 fired, Idle, needs 1, gives 0
channel 0: holds 0, peak 4, open true, cells
channel 1: holds 0, peak 2, open true, cells
channel 2: holds 2, peak 2, open true, cells 6 8
channel 3: holds 2, peak 2, open true, cells 7 9
free cells 0 1 4 2 3 5
quiet false
actor 64: needs 0
"#;

/// And after the two firings as a block: first both free their cells, then channel 2 takes two and channel 3 two.
const JOIN_BLOCK_STATE: &str = r#"actor 0: 4 fired, Idle, needs 0, gives 1
actor 1: 2 fired, Idle, needs 0, gives 1
actor 2: 2 fired, Idle, needs 3, gives 2
actor 3: 0 fired, Idle, needs 1, gives 0
actor 4: 0 fired, Idle, needs 1, gives 0
channel 0: holds 0, peak 4, open true, cells
channel 1: holds 0, peak 2, open true, cells
channel 2: holds 2, peak 2, open true, cells 6 7
channel 3: holds 2, peak 2, open true, cells 8 9
free cells 0 1 2 3 4 5
quiet false
actor 64: needs 0
"#;

/// A source, a sum with two delay lines, of which a firing takes three tokens and one, and a sink.
const DELAYS: &str = r#"actor = [
  { name = "a", kernel = "source" },
  { name = "b", kernel = "sum" },
  { name = "c", kernel = "sink" },
]
channel = [
  { name = "x", from = "a", to = "b", produce = [1], consume = [1], capacity = 4 },
  { name = "s", from = "b", to = "b", produce = [3], consume = [3], initial = [1, 2, 3, 4, 5, 6, 7, 8], capacity = 8 },
  { name = "t", from = "b", to = "b", produce = [1], consume = [1], initial = [10, 20], capacity = 2 },
  { name = "y", from = "b", to = "c", produce = [1], consume = [1], capacity = 4 },
]
"#;

/// Four firings of the source and four of the sum, move by move.
const DELAYS_MOVES: &str =
    "begin 0 / read 0 / write 0 5 / finish 0 / begin 0 / read 0 / write 0 6 / finish 0 / \
    begin 0 / read 0 / write 0 7 / finish 0 / begin 0 / read 0 / write 0 8 / finish 0 / \
    begin 1 / read 1 / write 1 21 21 21 21 21 / finish 1 / \
    begin 1 / read 1 / write 1 41 41 41 41 41 / finish 1 / \
    begin 1 / read 1 / write 1 64 64 64 64 64 / finish 1 / \
    begin 1 / read 1 / write 1 1 2 3 4 5 / finish 1";

/// What the delay lines then show: cells 0 to 7 and 8 and 9 hold their initial tokens, 10 to 13 the
/// source's. Each firing of the sum frees five and takes the five that have been free the longest.
const DELAYS_STATE: &str = r#"actor 0: 4 fired, Idle, needs 0, gives 1
actor 1: 4 fired, Idle, needs 5, gives 5
actor 2: 0 fired, Idle, needs 1, gives 0
channel 0: holds 0, peak 4, open true, cells
channel 1: holds 8, peak 8, open true, cells 1 2 3 4 5 6 7 14
channel 2: holds 2, peak 2, open true, cells 9 17
channel 3: holds 4, peak 4, open true, cells 10 11 12 13
free cells 15 16 0 8
quiet false
actor 64: needs 0
"#;

/// And after its four firings as a block: the source's four cells are freed first. Then channel 1 frees its eight and
/// takes the eight that have been free the longest, channel 2 its two, and channel 3 takes four.
const DELAYS_BLOCK_STATE: &str = r#"actor 0: 4 fired, Idle, needs 0, gives 1
actor 1: 4 fired, Idle, needs 5, gives 5
actor 2: 0 fired, Idle, needs 1, gives 0
channel 0: holds 0, peak 4, open true, cells
channel 1: holds 8, peak 8, open true, cells 14 15 16 17 10 11 12 13
channel 2: holds 2, peak 2, open true, cells 0 1
channel 3: holds 4, peak 4, open true, cells 2 3 4 5
free cells 6 7 8 9
quiet false
actor 64: needs 0
"#;

/// The actor's next firings, at most so many; none where there is no such actor.
fn block_of(core: &Core, actor: u32, most: u32) -> Block {
    if actor >= core.actors() {
        return Block {
            firings: 0,
            needed: 0,
            given: 0,
        };
    }
    core.ahead(actor, most)
}

/// What the actor's next firings, at most `most`, read as far as it is there, once they have written
/// these tokens; nothing where they would write another number.
fn made(
    alloc: Global,
    core: &mut Core,
    actor: u32,
    most: u32,
    tokens: &[i32],
) -> Result<Vec<i32>, Fail> {
    if actor >= core.actors() {
        return Ok(Vec::new(alloc));
    }
    let block = core.ahead(actor, most);
    if block.firings == 0 {
        return Ok(Vec::new(alloc));
    }
    if block.given != tokens.len() as u64 {
        return Ok(Vec::new(alloc));
    }
    let mut read = vec![in alloc; 0; block.needed as usize]?;
    core.peek(actor, block.firings, &mut read);
    core.fire(actor, block.firings, tokens);
    Ok(read)
}

/// Asserts the actor's next firings, at most `most`: how many, and what they read and write.
fn expect_block(rt: &impl Abort, core: &Core, actor: u32, most: u32, want: (u32, u64, u64)) {
    let block = block_of(core, actor, most);
    expect_eq(rt, (block.firings, block.needed, block.given), want);
}

/// A block: its actor, the most firings that are asked for, how many it has and what they read and
/// write, the tokens that it writes, and those that it reads. It is made where it writes so many.
struct Step {
    actor: u32,
    most: u32,
    block: (u32, u64, u64),
    written: &'static [i32],
    read: &'static [i32],
}

fn make(rt: &impl Abort, alloc: Global, core: &mut Core, step: &Step) -> Result<(), Fail> {
    expect_block(rt, core, step.actor, step.most, step.block);
    let read = made(alloc, core, step.actor, step.most, step.written)?;
    expect_eq(rt, read.as_slice(), step.read);
    Ok(())
}

fn make_all(rt: &impl Abort, alloc: Global, core: &mut Core, steps: &[Step]) -> Result<(), Fail> {
    for step in steps {
        make(rt, alloc, core, step)?;
    }
    Ok(())
}

fn check_shown(rt: &impl Abort, alloc: Global, core: &Core, want: &str) -> Result<(), Fail> {
    let state = shown(alloc, core)?;
    expect_eq(rt, state.as_str(), want);
    Ok(())
}

/// Makes the blocks, and asserts what the core shows then.
fn play_blocks(
    rt: &impl Abort,
    alloc: Global,
    core: &mut Core,
    steps: &[Step],
    want: &str,
) -> Result<(), Fail> {
    make_all(rt, alloc, core, steps)?;
    check_shown(rt, alloc, core, want)
}

/// Makes the blocks on a new core, and asserts what it shows then.
fn check_blocks(
    rt: &impl Abort,
    alloc: Global,
    accepted: &Accepted,
    steps: &[Step],
    want: &str,
) -> Result<(), Fail> {
    let mut core = opening_core(alloc, accepted)?;
    play_blocks(rt, alloc, &mut core, steps, want)
}

/// Makes the blocks on a new core of the graph.
fn check_graph(
    rt: &impl Abort,
    alloc: Global,
    graph: &str,
    steps: &[Step],
    want: &str,
) -> Result<(), Fail> {
    let accepted = accepted_in(alloc, graph)?;
    check_blocks(rt, alloc, &accepted, steps, want)
}

const PIPELINE_BLOCKS: [Step; 3] = [
    Step {
        actor: 0,
        most: 8,
        block: (4, 0, 4),
        written: &[5, 6, 7, 8],
        read: &[],
    },
    Step {
        actor: 1,
        most: 3,
        block: (3, 3, 3),
        written: &[5, 6, 7],
        read: &[5, 6, 7],
    },
    Step {
        actor: 2,
        most: 8,
        block: (3, 3, 0),
        written: &[],
        read: &[5, 6, 7],
    },
];

const PAIR_BLOCKS: [Step; 2] = [
    Step {
        actor: 0,
        most: 8,
        block: (2, 0, 3),
        written: &[5, 6, 7],
        read: &[],
    },
    Step {
        actor: 1,
        most: 8,
        block: (1, 3, 0),
        written: &[],
        read: &[5, 6, 7],
    },
];

/// The sum's first block, of one firing, is looked at and not made.
const JOIN_BLOCKS: [Step; 5] = [
    Step {
        actor: 0,
        most: 8,
        block: (4, 0, 4),
        written: &[1, 2, 3, 4],
        read: &[],
    },
    Step {
        actor: 1,
        most: 1,
        block: (1, 0, 1),
        written: &[10],
        read: &[],
    },
    Step {
        actor: 2,
        most: 8,
        block: (1, 3, 2),
        written: &[],
        read: &[],
    },
    Step {
        actor: 1,
        most: 8,
        block: (1, 0, 1),
        written: &[20],
        read: &[],
    },
    Step {
        actor: 2,
        most: 8,
        block: (2, 6, 4),
        written: &[13, 13, 27, 27],
        read: &[1, 2, 10, 3, 4, 20],
    },
];

/// Two firings find their tokens in the delay lines. The next two read what the first two write, but for
/// the two of the eight that are left: 0 stands for it.
const DELAYS_BLOCKS: [Step; 2] = [
    Step {
        actor: 0,
        most: 8,
        block: (4, 0, 4),
        written: &[5, 6, 7, 8],
        read: &[],
    },
    Step {
        actor: 1,
        most: 8,
        block: (4, 20, 20),
        written: &[
            21, 21, 21, 21, 21, 41, 41, 41, 41, 41, 64, 64, 64, 64, 64, 1, 2, 3, 4, 5,
        ],
        read: &[5, 1, 2, 3, 10, 6, 4, 5, 6, 20, 7, 7, 8, 0, 0, 8, 0, 0, 0, 0],
    },
];

/// A graph, some blocks, what the core shows after them, the same firings move by move, and what it shows after those.
const GRAPHS: [(&str, &[Step], &str, &str, &str); 4] = [
    (
        PIPELINE,
        &PIPELINE_BLOCKS,
        PIPELINE_STATE,
        PIPELINE_MOVES,
        PIPELINE_STATE,
    ),
    (PAIR, &PAIR_BLOCKS, PAIR_STATE, PAIR_MOVES, PAIR_STATE),
    (JOIN, &JOIN_BLOCKS, JOIN_BLOCK_STATE, JOIN_MOVES, JOIN_STATE),
    (
        DELAYS,
        &DELAYS_BLOCKS,
        DELAYS_BLOCK_STATE,
        DELAYS_MOVES,
        DELAYS_STATE,
    ),
];

#[test]
fn firings_in_blocks(rt: HostRuntime) -> Result<(), Fail> {
    for (graph, blocks, want, _, _) in &GRAPHS {
        check_graph(&rt, rt.alloc(), *graph, *blocks, *want)?;
    }
    Ok(())
}

/// Asserts what the graph's core shows after the moves.
fn check_moves(
    rt: &impl Abort,
    alloc: Global,
    graph: &str,
    moves: &str,
    want: &str,
) -> Result<(), Fail> {
    let state = state_after(alloc, graph, &AMPLE, moves)?;
    expect_eq_of(rt, state.as_str(), want, moves);
    Ok(())
}

#[test]
fn firings_move_by_move(rt: HostRuntime) -> Result<(), Fail> {
    for (graph, _, _, moves, want) in &GRAPHS {
        check_moves(&rt, rt.alloc(), *graph, *moves, *want)?;
    }
    Ok(())
}

/// Asserts the first blocks of the pair.
fn check_lengths(rt: &impl Abort, alloc: Global, accepted: &Accepted) -> Result<(), Fail> {
    let core = opening_core(alloc, accepted)?;
    expect_block(rt, &core, 0, 8, (2, 0, 3));
    expect_block(rt, &core, 0, 1, (1, 0, 2));
    expect_block(rt, &core, 1, 8, (0, 0, 0));
    Ok(())
}

#[test]
fn a_block_is_as_long_as_room_and_tokens_last(rt: HostRuntime) -> Result<(), Fail> {
    let accepted = accepted_in(rt.alloc(), PAIR)?;
    check_lengths(&rt, rt.alloc(), &accepted)
}
