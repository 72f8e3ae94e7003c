//! What a line of a script asks for.

ghost use Rattle.std.specs.Prelude.{◌≡◌, map, IfOk, option_map, None, if◌then◌else◌};
ghost use Rattle.csdf_model.specs.Names.{is_name};
ghost use Rattle.csdf_core.specs.Moves.{move_of};
ghost use Rattle.csdf_answers.specs.Lines.{Play, alone, move_in, asked_by, line_in, line_view};

use crate::words::{actor_in, channel_in, tokens_of, words_of};
use csdf_core::Move;
use csdf_graph::is_name;
use csdf_model::Graph;
use std::alloc::{AllocError, Global};

/// A line of a script.
#[derive(Drop)]
pub enum Line<'a> {
    /// A move, under the first two words of the line.
    Play(&'a str, &'a str, Move),
    /// The cells are asked for.
    Cells,
}

/// The move, where no word is left.
fn alone(rest: &[&str], next: Move) -> Option<Move>
    ensures { option_map move_of result ≡ alone (map (λ word. word.now) rest.now) (move_of next) }
{
    if rest.is_empty() { Some(next) } else { None }
}

/// The move that a verb, a name and the words after them ask for.
#[tactic(auto, unfolding(crate::specs::Lines::move_in))]
fn move_in(
    alloc: Global,
    graph: &Graph,
    verb: &str,
    name: &str,
    rest: &[&str],
) -> Result<Option<Move>, AllocError>
    ensures { IfOk result (λ found. option_map move_of found ≡ move_in graph.now verb.now name.now (map (λ word. word.now) rest.now)) }
{
    match verb {
        "begin" => Ok(alone(rest, Move::Begin(actor_in(graph, name)))),
        "read" => Ok(alone(rest, Move::Read(actor_in(graph, name)))),
        "write" => match tokens_of(alloc, rest)? {
            Some(tokens) => Ok(Some(Move::Write(actor_in(graph, name), tokens))),
            None => Ok(None),
        },
        "finish" => Ok(alone(rest, Move::Finish(actor_in(graph, name)))),
        "close" => Ok(alone(rest, Move::Close(channel_in(graph, name)))),
        _ => Ok(None),
    }
}

/// The line of a move, by its verb, a name and the words after them, where they have a meaning.
fn played_by<'a>(
    alloc: Global,
    graph: &Graph,
    verb: &'a str,
    name: &'a str,
    rest: &[&str],
) -> Result<Option<Line<'a>>, AllocError>
    ensures { IfOk result (λ found. option_map line_view found ≡ (if is_name name.now
        then option_map (Play verb.now name.now) (move_in graph.now verb.now name.now (map (λ word. word.now) rest.now)) else None)) }
{
    if !is_name(name) {
        return Ok(None);
    }
    match move_in(alloc, graph, verb, name, rest)? {
        Some(next) => Ok(Some(Line::Play(verb, name, next))),
        None => Ok(None),
    }
}

/// What the words of a line ask for, where they have a meaning.
fn asked_by<'a>(
    alloc: Global,
    graph: &Graph,
    words: &[&'a str],
) -> Result<Option<Line<'a>>, AllocError>
    ensures { IfOk result (λ found. option_map line_view found ≡ asked_by graph.now (map (λ word. word.now) words.now)) }
{
    match words {
        [] => Ok(None),
        [verb] => {
            if *verb == "cells" {
                Ok(Some(Line::Cells))
            } else {
                Ok(None)
            }
        }
        [verb, name, rest @ ..] => played_by(alloc, graph, verb, name, rest),
    }
}

/// What a line asks for, where it has a meaning.
pub(crate) fn line_in<'a>(
    alloc: Global,
    graph: &Graph,
    text: &'a str,
) -> Result<Option<Line<'a>>, AllocError>
    ensures { IfOk result (λ found. option_map line_view found ≡ line_in graph.now text.now) }
{
    let words = words_of(alloc, text)?;
    asked_by(alloc, graph, &words)
}
