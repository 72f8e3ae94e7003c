ghost use Rattle.std.specs.Prelude.{◌≡◌, ◌≤◌, All, length, IfOk};

use crate::shared::{CHAIN, accepted_in, expect_eq, expect_eq_of};
use csdf_analysis::Accepted;
use csdf_core::{Core, Move, Played, Reply, play};
use csdf_model::{Actor, Kernel};
use csdf_pool::Cells;
use std::alloc::{AllocError, Global};
use std::fmt::Write;
use std::process::Abort;
use std::str::SplitWhitespace;
use std::test::Fail;

/// A source that makes 2 and 1 tokens in turn, and a sink that takes 3.
pub(crate) const PAIR: &str = r#"actor = [
  { name = "src", kernel = "source", phases = 2 },
  { name = "snk", kernel = "sink" },
]
channel = [
  { name = "x", from = "src", to = "snk", produce = [2, 1], consume = [3], capacity = 3 },
]
"#;

/// What the core of the chain shows when the source has fired twice and written a third time, and
/// the stage has fired once.
const STATE: &str = r#"actor 0: 2 fired, Written, needs 0, gives 2
actor 1: 1 fired, Idle, needs 3, gives 1
actor 2: 0 fired, Idle, needs 2, gives 0
channel 0: holds 3, peak 4, open true, cells 3 5 0
channel 1: holds 1, peak 1, open true, cells 4
free cells 1 2
quiet false
actor 64: needs 0
"#;

/// An actor that hands its one token to itself.
pub(crate) const LOOP: &str = r#"actor = [{ name = "a", kernel = "copy" }]
channel = [
  { name = "s", from = "a", to = "a", produce = [1], consume = [1], initial = [1] },
]
"#;

/// A limit for every actor, a number of tokens for every source, and a limit on all firings.
#[derive(Clone, Copy)]
pub(crate) struct Limits {
    limit: u32,
    supply: u32,
    firings: Option<u32>,
    ghost few: { limit ≤ 16_384_000 },
}

pub(crate) const AMPLE: Limits = Limits {
    limit: 1_000_000,
    supply: 1_000_000,
    firings: None,
};

/// The tokens of the words.
fn tokens_in(alloc: Global, words: SplitWhitespace<'_>) -> Result<Vec<i32>, Fail> {
    let mut tokens = Vec::new(alloc);
    for word in words {
        tokens.push(word.parse::<i32>()?)?;
    }
    Ok(tokens)
}

/// A move by its verb, the number of its actor or channel, and its tokens.
fn move_in(alloc: Global, line: &str) -> Result<Move, Fail> {
    let mut words = line.split_whitespace();
    let verb = words.next().unwrap_or("");
    let number = words.next().unwrap_or("").parse::<u32>()?;
    Ok(match verb {
        "begin" => Move::Begin(number),
        "read" => Move::Read(number),
        "write" => Move::Write(number, tokens_in(alloc, words)?),
        "finish" => Move::Finish(number),
        _ => Move::Close(number),
    })
}

/// The moves of the script, with slashes between them.
pub(crate) fn moves_in(alloc: Global, script: &str) -> Result<Vec<Move>, Fail> {
    let mut moves = Vec::new(alloc);
    for line in script.split(" / ") {
        moves.push(move_in(alloc, line)?)?;
    }
    Ok(moves)
}

/// So many tokens for a source, and none for another actor.
fn supply_of(tokens: u32, actor: &Actor) -> u32 {
    match actor.kernel {
        Kernel::Source => tokens,
        _ => 0,
    }
}

fn supplies(alloc: Global, actors: &[Actor], tokens: u32) -> Result<Vec<u32>, AllocError>
    ensures { IfOk result (λ supply. length supply.items ≡ length actors.now) }
{
    actors
        .iter()
        .map(|actor| supply_of(tokens, actor))
        .collect(alloc)
}

fn limits_of(alloc: Global, actors: &[Actor], limit: u32) -> Result<Vec<u32>, AllocError>
    requires { limit ≤ 16_384_000 }
    ensures length { IfOk result (λ limits. length limits.items ≡ length actors.now) }
    ensures few { IfOk result (λ limits. All (λ n. n ≤ 16_384_000) limits.items) }
{
    vec![in alloc; limit; actors.len()]
}

/// A core of the graph with ample limits, on which nothing has fired.
pub(crate) fn opening_core(alloc: Global, accepted: &Accepted) -> Result<Core, Fail> {
    let actors = accepted.graph().actors();
    let limits = limits_of(alloc, actors, AMPLE.limit)?;
    let supply = supplies(alloc, actors, AMPLE.supply)?;
    Ok(Core::new(alloc, accepted, limits, supply, AMPLE.firings)?)
}

/// Plays the script from the start.
fn played(
    alloc: Global,
    accepted: &Accepted,
    limits: &Limits,
    script: &str,
) -> Result<Played, Fail> {
    let moves = moves_in(alloc, script)?;
    let actors = accepted.graph().actors();
    let each = limits_of(alloc, actors, limits.limit)?;
    let supply = supplies(alloc, actors, limits.supply)?;
    let played = play(alloc, accepted, each, supply, limits.firings, &moves)?;
    Ok(played)
}

/// The reply, with the tokens that a read handed out.
fn tell(text: &mut String, reply: &Reply) -> Result<(), AllocError> {
    match reply {
        Ok(tokens) => {
            write!(text, "ok")?;
            for token in tokens {
                write!(text, " {token}")?;
            }
        }
        Err(refusal) => write!(text, "{refusal:?}")?,
    }
    Ok(())
}

/// The replies, in order.
pub(crate) fn text_of(alloc: Global, replies: &[Reply]) -> Result<String, Fail> {
    let mut text = String::new(alloc);
    for reply in replies {
        if !text.is_empty() {
            write!(text, " / ")?;
        }
        tell(&mut text, reply)?;
    }
    Ok(text)
}

/// What the graph of the file answers to the script.
fn answers(alloc: Global, text: &str, limits: &Limits, script: &str) -> Result<String, Fail> {
    let accepted = accepted_in(alloc, text)?;
    let played = played(alloc, &accepted, limits, script)?;
    text_of(alloc, &played.replies)
}

/// Asserts that the script is answered by these replies.
fn expect(
    rt: &impl Abort,
    alloc: Global,
    text: &str,
    limits: &Limits,
    script: &str,
    replies: &str,
) -> Result<(), Fail> {
    let answers = answers(alloc, text, limits, script)?;
    expect_eq_of(rt, answers.as_str(), replies, script);
    Ok(())
}

/// The cells, a space before each.
fn show_cells(text: &mut String, cells: Cells<'_>) -> Result<(), AllocError> {
    for cell in cells {
        write!(text, " {cell}")?;
    }
    Ok(())
}

/// A line for each actor.
fn show_actors(text: &mut String, core: &Core) -> Result<(), AllocError> {
    for actor in 0..core.actors() {
        let fired = core.fired(actor);
        let stage = core.stage(actor);
        let need = core.need(actor);
        let gives = core.gives(actor);
        write!(
            text,
            "actor {actor}: {fired} fired, {stage:?}, needs {need}, gives {gives}\n"
        )?;
    }
    Ok(())
}

/// A line for each channel.
fn show_channels(text: &mut String, core: &Core) -> Result<(), AllocError> {
    for channel in 0..core.channels() {
        let len = core.len(channel);
        let peak = core.peak(channel);
        let is_open = core.is_open(channel);
        write!(
            text,
            "channel {channel}: holds {len}, peak {peak}, open {is_open}, cells"
        )?;
        show_cells(text, core.cells(channel))?;
        write!(text, "\n")?;
    }
    Ok(())
}

/// The free cells, whether the core is quiet, and what an actor that is not there needs.
fn show_rest(text: &mut String, core: &Core) -> Result<(), AllocError> {
    write!(text, "free cells")?;
    show_cells(text, core.free_cells())?;
    let is_quiet = core.is_quiet();
    let need = core.need(64);
    write!(text, "\nquiet {is_quiet}\nactor 64: needs {need}\n")?;
    Ok(())
}

fn show_all(text: &mut String, core: &Core) -> Result<(), AllocError> {
    show_actors(text, core)?;
    show_channels(text, core)?;
    show_rest(text, core)
}

/// All that the core shows, and what an actor that is not there needs.
pub(crate) fn shown(alloc: Global, core: &Core) -> Result<String, Fail> {
    let mut text = String::new(alloc);
    show_all(&mut text, core)?;
    Ok(text)
}

/// What the core of the file's graph shows after the script.
pub(crate) fn state_after(
    alloc: Global,
    text: &str,
    limits: &Limits,
    script: &str,
) -> Result<String, Fail> {
    let accepted = accepted_in(alloc, text)?;
    let played = played(alloc, &accepted, limits, script)?;
    shown(alloc, &played.core)
}

const WHOLE_SCRIPTS: [(&str, &str); 3] = [
    (
        "begin 0 / read 0 / write 0 5 6 / finish 0 / begin 0 / read 0 / write 0 7 / finish 0 / begin 1 / read 1 / write 1 / finish 1",
        "ok / ok / ok / ok / ok / ok / ok / ok / ok / ok 5 6 7 / ok / ok",
    ),
    (
        "begin 0 / read 0 / write 0 5 6 / finish 0 / begin 0 / read 0 / write 0 7 / finish 0 / begin 0 / begin 1 / read 1 / begin 0",
        "ok / ok / ok / ok / ok / ok / ok / ok / Full(0) / ok / ok 5 6 7 / ok",
    ),
    (
        "begin 0 / close 0 / read 0 / close 0 / write 0 5 6 / finish 0 / close 0 / begin 0 / close 0 / close 128",
        "ok / Busy / ok / Busy / ok / ok / ok / Closed(0) / Closed(0) / Unknown",
    ),
];

#[test]
fn answers_whole_scripts(rt: HostRuntime) -> Result<(), Fail> {
    for (script, replies) in &WHOLE_SCRIPTS {
        expect(&rt, rt.alloc(), PAIR, &AMPLE, *script, *replies)?;
    }
    Ok(())
}

/// Limits, a script of the pair, and the replies.
const LIMITED: [(Limits, &str, &str); 3] = [
    (
        Limits {
            limit: 1,
            supply: 2,
            firings: None,
        },
        "begin 64 / read 0 / begin 1 / begin 0 / begin 0 / write 0 5 6 / finish 0 / read 0 / write 0 5 / write 0 5 6 / finish 0 / begin 0",
        "Unknown / NotBegun / Short(0) / ok / Busy / NotRead / NotWritten / ok / WrongCount / ok / ok / Spent",
    ),
    (
        Limits {
            limit: 1_000_000,
            supply: 2,
            firings: None,
        },
        "begin 0 / read 0 / write 0 5 6 / finish 0 / begin 0",
        "ok / ok / ok / ok / Dry",
    ),
    (
        Limits {
            limit: 1_000_000,
            supply: 1_000_000,
            firings: Some(1),
        },
        "begin 0 / begin 1 / read 0 / write 0 5 6 / finish 0 / begin 0",
        "ok / Short(0) / ok / ok / ok / Stopped",
    ),
];

#[test]
fn keeps_to_the_limits(rt: HostRuntime) -> Result<(), Fail> {
    for (limits, script, replies) in &LIMITED {
        expect(&rt, rt.alloc(), PAIR, limits, *script, *replies)?;
    }
    Ok(())
}

/// Asserts the replies of the graph whose file begins with its number of cells.
fn expect_with_cells(
    rt: &impl Abort,
    alloc: Global,
    cells: &str,
    graph: &str,
    script: &str,
    replies: &str,
) -> Result<(), Fail> {
    let text = format!(in alloc; "{cells}{graph}")?;
    expect(rt, alloc, text.as_str(), &AMPLE, script, replies)
}

/// A number of cells, a graph, a script, and the replies.
const WITH_CELLS: [(&str, &str, &str, &str); 3] = [
    (
        "cells = 3\n",
        CHAIN,
        "begin 0 / read 0 / write 0 1 2 / finish 0 / begin 0",
        "ok / ok / ok / ok / NoCells",
    ),
    (
        "cells = 4\n",
        CHAIN,
        "begin 0 / read 0 / write 0 1 2 / finish 0 / begin 0 / read 0 / write 0 3 4 / finish 0 / \
        begin 1 / read 1 / write 1 9 / finish 1 / begin 0 / read 0 / write 0 5 6 / finish 0 / \
        begin 1 / read 1 / write 1 8 / finish 1 / begin 2 / begin 0 / read 0 / write 0 7 7 / \
        finish 0 / begin 0 / read 2 / begin 0",
        "ok / ok / ok / ok / ok / ok / ok / ok / ok / ok 1 2 3 / ok / ok / ok / ok / ok / ok / \
        ok / ok 4 5 6 / ok / ok / ok / ok / ok / ok / ok / NoCells / ok 9 8 / ok",
    ),
    ("cells = 1\n", LOOP, "begin 0", "ok"),
];

#[test]
fn reserves_cells(rt: HostRuntime) -> Result<(), Fail> {
    for (cells, graph, script, replies) in &WITH_CELLS {
        expect_with_cells(&rt, rt.alloc(), *cells, *graph, *script, *replies)?;
    }
    Ok(())
}

#[test]
fn shows_its_cells(rt: HostRuntime) -> Result<(), Fail> {
    let script =
        "begin 0 / read 0 / write 0 1 2 / finish 0 / begin 0 / read 0 / write 0 3 4 / finish 0 / \
        begin 1 / read 1 / write 1 9 / finish 1 / begin 0 / read 0 / write 0 5 6";
    let state = state_after(rt.alloc(), CHAIN, &AMPLE, script)?;
    expect_eq(&rt, state.as_str(), STATE);
    Ok(())
}
