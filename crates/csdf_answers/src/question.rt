//! Questions about a graph, and the text of their answers.

ghost use Rattle.std.specs.Prelude.{◌≡◌, ◌++◌, length, map, string_bytes, IfOk, OnOk};
ghost use Rattle.std.specs.List.{enumerate_from};
ghost use Rattle.csdf_model.specs.Graph.{actor_view, channel_view};
ghost use Rattle.csdf_answers.specs.Described.{actor_names, check_text, repetition_text, schedule_text, capacity_lines, capacity_text};
ghost use Rattle.csdf_answers.specs.Printed.{names_of, name_at};

use crate::repeated::Repeated;
use csdf_analysis::Accepted;
use csdf_model::{Actor, Channel, actor_name};
use std::alloc::{AllocError, Global};

/// What is asked about a graph.
#[derive(Clone, Copy, Debug, PartialEq, Eq)]
pub enum Question {
    /// Whether it has a least repetition vector.
    Check,
    /// Its least repetition vector.
    Repetition,
    /// The order in which the actors fire in a period.
    Schedule,
    /// The least capacities of its channels.
    Capacity,
    /// A drawing of it, in the language of Graphviz.
    Dot,
}

/// In which form an answer or a fault is told.
#[derive(Clone, Copy, Debug, PartialEq, Eq)]
pub enum Form {
    /// Lines of text.
    Text,
    /// A JSON object on one line.
    Json,
}

/// How many actors and channels a consistent graph has.
pub(crate) fn check_text(
    alloc: Global,
    actors: usize,
    channels: usize,
) -> Result<String, AllocError>
    ensures { IfOk result (λ text. string_bytes text ≡ check_text actors channels) }
{
    let mut text = String::new(alloc);
    write!(text, "consistent: {actors} actors, {channels} channels\n")?;
    Ok(text)
}

/// A line for each actor: its name, its cycles and its firings in a period.
pub(crate) fn repetition_text(alloc: Global, found: &Repeated) -> Result<String, AllocError>
    ensures { IfOk result (λ text. string_bytes text ≡ repetition_text found.now.vector.r.items found.now.vector.q.items
        (enumerate_from 0 (actor_names found.now.graph.actors))) }
{
    let mut text = String::new(alloc);
    let actors = found.graph.actors();
    for (number, actor) in actors.iter().enumerate() {
        let name = actor.name.as_str();
        let cycles = found.vector.r[number];
        let firings = found.vector.q[number];
        write!(text, "{name} {cycles} {firings}\n")?;
    }
    Ok(text)
}

/// A line for each firing: its actor's name.
pub(crate) fn schedule_text(
    alloc: Global,
    actors: &[Actor],
    firings: &[u32],
) -> Result<String, AllocError>
    ensures { IfOk result (λ text. string_bytes text ≡ schedule_text (actor_names (map actor_view actors.now)) firings.now) }
{
    let mut text = String::new(alloc);
    for actor in firings {
        let name = actor_name(actors, *actor as usize);
        write!(text, "{name}\n")?;
    }
    Ok(text)
}

/// Appends a line for each channel: its name and its capacity.
fn push_capacities(
    text: &mut String,
    channels: &[Channel],
    capacities: &[u32],
) -> Result<(), AllocError>
    requires { length capacities.now ≡ length channels.now }
    ensures { OnOk result (string_bytes text.new ≡ string_bytes text.old ++ capacity_lines capacities.now
        (enumerate_from 0 (names_of (map channel_view channels.now)))) }
{
    for (number, channel) in channels.iter().enumerate() {
        let name = channel.name.as_str();
        let capacity = capacities[number];
        write!(text, "{name} {capacity}\n")?;
    }
    Ok(())
}

/// A line for each channel, and the number of cells that all share.
pub(crate) fn capacity_text(alloc: Global, accepted: &Accepted) -> Result<String, AllocError>
    ensures { IfOk result (λ text. string_bytes text ≡ capacity_text accepted.now) }
{
    let mut text = String::new(alloc);
    push_capacities(
        &mut text,
        accepted.graph().channels(),
        accepted.capacities(),
    )?;
    let cells = accepted.cells();
    write!(text, "cells {cells}\n")?;
    Ok(text)
}
