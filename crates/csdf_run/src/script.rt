//! The moves of a run as the table `script` of a graph file.

ghost use Rattle.std.specs.Prelude.{◌≡◌, ◌++◌, codes, map, option_map, string_bytes, IfOk, OnOk};
ghost use Rattle.csdf_core.specs.Moves.{move_of};
ghost use Rattle.csdf_run.specs.Scripts.{kept_script, move_entries, move_entry, move_text, script_text, spaced_tokens};

use csdf_core::Move;
use csdf_journal::Journal;
use csdf_model::{Graph, actor_name, channel_name};
use std::alloc::{AllocError, Global};

/// Appends a verb, and the name of what it speaks of.
fn push_words(text: &mut String, verb: &str, name: &str) -> Result<(), AllocError>
    ensures { OnOk result (string_bytes text.new ≡ string_bytes text.old ++ (verb.now ++ name.now)) }
{
    text.push_str(verb)?;
    text.push_str(name)
}

/// Appends each token after a space.
fn push_tokens(text: &mut String, tokens: &[i32]) -> Result<(), AllocError>
    ensures { OnOk result (string_bytes text.new ≡ string_bytes text.old ++ spaced_tokens tokens.now) }
{
    for token in tokens {
        write!(text, " {token}")?;
    }
    Ok(())
}

/// Appends a write with its tokens.
fn push_write(text: &mut String, name: &str, tokens: &[i32]) -> Result<(), AllocError>
    ensures { OnOk result (string_bytes text.new ≡ string_bytes text.old ++ (codes "write " ++ name.now ++ spaced_tokens tokens.now)) }
{
    push_words(text, "write ", name)?;
    push_tokens(text, tokens)
}

/// Appends the line of a move.
fn push_move(text: &mut String, graph: &Graph, next: &Move) -> Result<(), AllocError>
    ensures { OnOk result (string_bytes text.new ≡ string_bytes text.old ++ move_text graph.now (move_of next.now)) }
{
    match next {
        Move::Begin(actor) => push_words(
            text,
            "begin ",
            actor_name(graph.actors(), *actor as usize),
        ),
        Move::Read(actor) => push_words(text, "read ", actor_name(graph.actors(), *actor as usize)),
        Move::Write(actor, tokens) => push_write(
            text,
            actor_name(graph.actors(), *actor as usize),
            tokens,
        ),
        Move::Finish(actor) => push_words(
            text,
            "finish ",
            actor_name(graph.actors(), *actor as usize),
        ),
        Move::Close(channel) => push_words(
            text,
            "close ",
            channel_name(graph.channels(), *channel as usize),
        ),
    }
}

/// Appends the string of a move.
fn push_entry(text: &mut String, graph: &Graph, next: &Move) -> Result<(), AllocError>
    ensures { OnOk result (string_bytes text.new ≡ string_bytes text.old ++ move_entry graph.now (move_of next.now)) }
{
    text.push_str("  \"")?;
    push_move(text, graph, next)?;
    text.push_str("\",\n")
}

/// Appends the strings of all moves.
fn push_entries(text: &mut String, graph: &Graph, moves: &[Move]) -> Result<(), AllocError>
    ensures { OnOk result (string_bytes text.new ≡ string_bytes text.old ++ move_entries graph.now (map move_of moves.now)) }
{
    for next in moves {
        push_entry(text, graph, next)?;
    }
    Ok(())
}

/// The table `script` with these moves.
fn script_text(alloc: Global, graph: &Graph, moves: &[Move]) -> Result<String, AllocError>
    ensures { IfOk result (λ text. string_bytes text ≡ script_text graph.now (map move_of moves.now)) }
{
    let mut text = String::new(alloc);
    text.push_str("[script]\nmoves = [\n")?;
    push_entries(&mut text, graph, moves)?;
    text.push_str("]\n")?;
    Ok(text)
}

/// The table `script` with the moves of a journal, where it keeps them, as a graph file has it: a line for
/// each move, with the names of the graph.
///
/// The error is want of memory.
pub fn kept_script(
    alloc: Global,
    graph: &Graph,
    journal: &Journal,
) -> Result<Option<Vec<u8>>, AllocError>
    ensures { IfOk result (λ text. option_map (λ t. t.items) text ≡ kept_script graph.now journal.now) }
{
    if !journal.keeps() {
        return Ok(None);
    }
    let text = script_text(alloc, graph, journal.moves())?;
    Ok(Some(text.into_bytes()))
}
