//! The words of a script's lines.

ghost use Rattle.std.specs.Prelude.{◌≡◌, map, IfOk, option_map, unwrap_or};
ghost use Rattle.csdf_answers.specs.Lines.{words_of, tokens_of, actor_in, channel_in};

use csdf_bytes::token_of;
use csdf_model::{Graph, MAX_ACTORS, MAX_CHANNELS};
use std::alloc::{AllocError, Global};

/// The words of a line, which stand apart by one space or more.
pub(crate) fn words_of<'a>(alloc: Global, line: &'a str) -> Result<Vec<&'a str>, AllocError>
    ensures { IfOk result (λ words. map (λ word. word.now) words.items ≡ words_of line.now) }
{
    line.split(' ')
        .filter(|word| !word.is_empty())
        .collect(alloc)
}

/// The tokens that the words are, where each is one.
pub(crate) fn tokens_of(alloc: Global, words: &[&str]) -> Result<Option<Vec<i32>>, AllocError>
    ensures { IfOk result (λ found. option_map (λ tokens. tokens.items) found ≡ tokens_of (map (λ word. word.now) words.now)) }
{
    let mut tokens = Vec::new(alloc);
    for word in words {
        match token_of(word.as_bytes()) {
            Ok(token) => tokens.push(token)?,
            Err(_) => return Ok(None),
        }
    }
    Ok(Some(tokens))
}

/// The actor's number, or one that no graph has: numbers begin at 0.
pub(crate) fn actor_in(graph: &Graph, name: &str) -> u32
    ensures { result ≡ actor_in graph.now name.now }
{
    graph.actor_number(name).unwrap_or(MAX_ACTORS as u32)
}

/// The channel's number, or one that no graph has.
pub(crate) fn channel_in(graph: &Graph, name: &str) -> u32
    ensures { result ≡ channel_in graph.now name.now }
{
    graph.channel_number(name).unwrap_or(MAX_CHANNELS as u32)
}
