//! Printed text: the replies to the moves of a script, and the cells.

ghost use Rattle.std.specs.Prelude.{◌≡◌, ◌<◌, ◌≤◌, ◌++◌, ℕ, List, None, length, map, string_bytes, IfSome, OnOk};
ghost use Rattle.std.specs.List.{enumerate_from};
ghost use Rattle.csdf_model.specs.Graph.{channel_view};
ghost use Rattle.csdf_pool.specs.Pool.{chain_of};
ghost use Rattle.csdf_core.specs.Shows.{as_reply};
ghost use Rattle.csdf_answers.specs.Printed.{names_of, name_at, spaced, spaced_tokens, refusal_text, reply_text, reply_line, chain_line, chain_lines, cells_text};

use csdf_core::{Core, Refusal, Reply};
use csdf_model::{Channel, MAX_CHANNELS, channel_name};
use csdf_pool::Cells;
use std::alloc::AllocError;

/// Appends a text.
fn push(text: &mut String, more: &str) -> Result<(), AllocError>
    ensures { OnOk result (string_bytes text.new ≡ string_bytes text.old ++ more.now) }
{
    text.push_str(more)
}

/// Appends a refusal's name, and the name of the channel that it speaks of.
fn push_channel(
    text: &mut String,
    channels: &[Channel],
    word: &str,
    number: u32,
) -> Result<(), AllocError>
    ensures { OnOk result (string_bytes text.new ≡ string_bytes text.old ++ (word.now ++ name_at (names_of (map channel_view channels.now)) number)) }
{
    push(text, word)?;
    push(text, channel_name(channels, number as usize))
}

/// A refusal's name, and the channel that it speaks of, where it does.
fn refusal_parts(refusal: Refusal) -> (&'static str, Option<u32>)
    ensures channel { IfSome result.1 (λ number. (names : List (List ℕ)) → refusal_text names refusal ≡ result.0.now ++ name_at names number) }
    ensures alone { result.1 ≡ None → (names : List (List ℕ)) → refusal_text names refusal ≡ result.0.now }
{
    match refusal {
        Refusal::Unknown => ("Unknown", None),
        Refusal::Busy => ("Busy", None),
        Refusal::Spent => ("Spent", None),
        Refusal::Closed(number) => ("Closed ", Some(number)),
        Refusal::Dry => ("Dry", None),
        Refusal::Short(number) => ("Short ", Some(number)),
        Refusal::Full(number) => ("Full ", Some(number)),
        Refusal::Stopped => ("Stopped", None),
        Refusal::NoCells => ("NoCells", None),
        Refusal::NotBegun => ("NotBegun", None),
        Refusal::NotRead => ("NotRead", None),
        Refusal::WrongCount => ("WrongCount", None),
        Refusal::NotWritten => ("NotWritten", None),
    }
}

/// Appends a refusal.
fn push_refusal(text: &mut String, channels: &[Channel], refusal: Refusal) -> Result<(), AllocError>
    ensures { OnOk result (string_bytes text.new ≡ string_bytes text.old ++ refusal_text (names_of (map channel_view channels.now)) refusal) }
{
    let (word, channel) = refusal_parts(refusal);
    match channel {
        Some(number) => push_channel(text, channels, word, number),
        None => push(text, word),
    }
}

/// Appends each token after a space.
fn push_tokens(text: &mut String, tokens: &[i32]) -> Result<(), AllocError>
    ensures { OnOk result (string_bytes text.new ≡ string_bytes text.old ++ spaced_tokens tokens.now) }
{
    for token in tokens {
        write!(text, " {token}")?;
    }
    Ok(())
}

/// Appends a reply.
fn push_reply(text: &mut String, channels: &[Channel], reply: &Reply) -> Result<(), AllocError>
    ensures { OnOk result (string_bytes text.new ≡ string_bytes text.old ++ reply_text (names_of (map channel_view channels.now))
        (as_reply (λ tokens. tokens.items) reply.now)) }
{
    match reply {
        Ok(tokens) => {
            push(text, "ok")?;
            push_tokens(text, tokens)
        }
        Err(refusal) => {
            push(text, "refused ")?;
            push_refusal(text, channels, *refusal)
        }
    }
}

/// Appends the line of a move.
pub(crate) fn push_reply_line(
    text: &mut String,
    channels: &[Channel],
    verb: &str,
    name: &str,
    reply: &Reply,
) -> Result<(), AllocError>
    ensures { OnOk result (string_bytes text.new ≡ string_bytes text.old ++ reply_line (names_of (map channel_view channels.now))
        verb.now name.now (as_reply (λ tokens. tokens.items) reply.now)) }
{
    write!(text, "{verb} {name}: ")?;
    push_reply(text, channels, reply)?;
    push(text, "\n")
}

/// Appends each cell after a space.
fn push_cells(text: &mut String, cells: Cells<'_>) -> Result<(), AllocError>
    ensures { OnOk result (string_bytes text.new ≡ string_bytes text.old ++ spaced cells.entry) }
{
    for cell in cells {
        write!(text, " {cell}")?;
    }
    Ok(())
}

/// Appends the line of a channel: its cells, front first.
fn push_chain(text: &mut String, name: &str, core: &Core, number: u32) -> Result<(), AllocError>
    requires { number < length core.now.plan.channels }
    ensures { OnOk result (string_bytes text.new ≡ string_bytes text.old ++ chain_line name.now (chain_of core.now.pool number)) }
{
    write!(text, "cells {name}:")?;
    push_cells(text, core.cells(number))?;
    push(text, "\n")
}

/// Appends the lines of all channels.
fn push_chains(text: &mut String, channels: &[Channel], core: &Core) -> Result<(), AllocError>
    requires same { length channels.now ≡ length core.now.plan.channels }
    requires few { length channels.now ≤ MAX_CHANNELS }
    ensures { OnOk result (string_bytes text.new ≡ string_bytes text.old ++ chain_lines core.now.pool
        (enumerate_from 0 (names_of (map channel_view channels.now)))) }
{
    for (number, channel) in channels.iter().enumerate() {
        push_chain(text, channel.name.as_str(), core, number as u32)?;
    }
    Ok(())
}

/// Appends the lines of all channels and that of the free cells.
pub(crate) fn push_cells_text(
    text: &mut String,
    channels: &[Channel],
    core: &Core,
) -> Result<(), AllocError>
    requires same { length channels.now ≡ length core.now.plan.channels }
    requires few { length channels.now ≤ MAX_CHANNELS }
    ensures text { OnOk result (string_bytes text.new ≡ string_bytes text.old ++ cells_text (names_of (map channel_view channels.now)) core.now.pool) }
    ensures size { OnOk result (core.now.pool.size ≡ core.now.plan.cells) }
{
    push_chains(text, channels, core)?;
    push(text, "free:")?;
    push_cells(text, core.free_cells())?;
    push(text, "\n")
}
