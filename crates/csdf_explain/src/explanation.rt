//! The text of an explanation: what is the matter with a graph.

ghost use Rattle.std.specs.Prelude.{◌≡◌, ◌++◌, Some, map, slice_get, string_bytes, IfOk, OnOk};
ghost use Rattle.csdf_model.specs.Graph.{actor_view, channel_view};
ghost use Rattle.csdf_explain.specs.Explained.{accepted_line, accepted_text, asked_text, before_text, circle_lines, few_cells_text, phases_at, ratio_text, too_large_text, unbalanced_heading, unbalanced_text};
ghost use Rattle.csdf_explain.specs.Explained.{relief_line, relief_text, tight_line, tight_text, way_line, way_lines, way_text};
ghost use Rattle.csdf_answers.specs.Printed.{names_of};

use crate::names::{actor_of, channel_of};
use csdf_analysis::{Demand, Ratio, Relief, Tight};
use csdf_model::{Actor, Channel, Graph};
use std::alloc::{AllocError, Global};

/// That a graph is accepted.
fn accepted_line() -> &'static str
    ensures { result.now ≡ accepted_line }
{
    "accepted: a period completes, and can be repeated for ever\n"
}

/// That a graph is accepted with the cells that its capacities add up to, and that the file gives
/// too few.
fn few_cells_text(alloc: Global, needed: u32, given: u32) -> Result<String, AllocError>
    ensures { IfOk result (λ text. string_bytes text ≡ few_cells_text needed given) }
{
    let mut text = String::new(alloc);
    write!(
        text,
        "accepted: a period completes, and can be repeated for ever, with as many cells as the capacities add up to, {needed}\nthe file gives {given}: a run may end starved, for want of cells\n"
    )?;
    Ok(text)
}

/// That a graph is accepted, where its file gives so many cells.
fn accepted_with(alloc: Global, needed: u32, given: u32) -> Result<String, AllocError>
    ensures { IfOk result (λ text. string_bytes text ≡ accepted_text needed (Some given)) }
{
    if given < needed {
        few_cells_text(alloc, needed, given)
    } else {
        String::from_str(alloc, accepted_line())
    }
}

/// That a graph is accepted, by the cells that its capacities add up to and those that its file
/// gives.
pub(crate) fn accepted_text(
    alloc: Global,
    needed: u32,
    given: Option<u32>,
) -> Result<String, AllocError>
    ensures { IfOk result (λ text. string_bytes text ≡ accepted_text needed given) }
{
    match given {
        Some(given) => accepted_with(alloc, needed, given),
        None => String::from_str(alloc, accepted_line()),
    }
}

/// Appends what a channel asks of its two actors.
fn push_asked(text: &mut String, from: &str, to: &str, ratio: Ratio) -> Result<(), AllocError>
    ensures { OnOk result (string_bytes text.new ≡ string_bytes text.old ++ asked_text from.now to.now ratio) }
{
    let one = ratio.from;
    let other = ratio.to;
    write!(text, " asks {one} of {from} to {other} of {to}")
}

/// Appends the ratio that the channels before it ask.
fn push_ratio(text: &mut String, ratio: Ratio) -> Result<(), AllocError>
    ensures { OnOk result (string_bytes text.new ≡ string_bytes text.old ++ ratio_text ratio) }
{
    let one = ratio.from;
    let other = ratio.to;
    write!(text, ", those before it {one} to {other}\n")
}

/// Appends what the channels before it ask of the same two.
fn push_before(text: &mut String, before: Option<Ratio>) -> Result<(), AllocError>
    ensures { OnOk result (string_bytes text.new ≡ string_bytes text.old ++ before_text before) }
{
    match before {
        Some(ratio) => push_ratio(text, ratio),
        None => text.push_str(", whom those before it do not join\n"),
    }
}

/// What such a line begins with: where the channels before it do not join its ends, the numbers agree, and
/// are too great.
fn unbalanced_heading(before: Option<Ratio>) -> &'static str
    ensures { result.now ≡ unbalanced_heading before }
{
    match before {
        Some(_) => "unbalanced: ",
        None => "consistent so far, but more than 1024 cycles of some actor in a period: ",
    }
}

/// The line of a channel that is not balanced, by its name and those of its ends.
pub(crate) fn unbalanced_text(
    alloc: Global,
    name: &str,
    from: &str,
    to: &str,
    demand: Demand,
) -> Result<String, AllocError>
    ensures { IfOk result (λ text. string_bytes text ≡ unbalanced_text name.now from.now to.now demand) }
{
    let mut text = String::new(alloc);
    let heading = unbalanced_heading(demand.before);
    write!(text, "{heading}{name}")?;
    push_asked(&mut text, from, to, demand.own)?;
    push_before(&mut text, demand.before)?;
    Ok(text)
}

/// How many phases the actor with this number has.
fn phases_at(actors: &[Actor], number: u32) -> u32
    ensures { result ≡ phases_at (map actor_view actors.now) number }
{
    match actors.get(number as usize) {
        Some(actor) => actor.phases,
        None => 0,
    }
}

/// Appends the line of a channel of a circle, with what a cycle of each of its ends moves.
fn push_way_line(text: &mut String, graph: &Graph, channel: &Channel) -> Result<(), AllocError>
    ensures { OnOk result (string_bytes text.new ≡ string_bytes text.old ++ way_line graph.now (Some (channel_view channel.now))) }
{
    let name = channel.name.as_str();
    let actors = graph.actors();
    let gives = channel.produced(phases_at(actors, channel.from));
    let takes = channel.consumed(phases_at(actors, channel.to));
    let from = actor_of(graph, channel.from as usize);
    let to = actor_of(graph, channel.to as usize);
    write!(
        text,
        "{name}: {gives} from each cycle of {from}, {takes} to each of {to}\n"
    )
}

/// Appends the line of the channel with this number, where there is one.
fn push_way_at(text: &mut String, graph: &Graph, number: u32) -> Result<(), AllocError>
    ensures { OnOk result (string_bytes text.new ≡ string_bytes text.old ++ way_line graph.now (slice_get graph.now.channels number)) }
{
    match graph.channels().get(number as usize) {
        Some(channel) => push_way_line(text, graph, channel),
        None => Ok(()),
    }
}

/// Appends the lines of the channels with these numbers.
fn push_way_lines(text: &mut String, graph: &Graph, way: &[u32]) -> Result<(), AllocError>
    ensures { OnOk result (string_bytes text.new ≡ string_bytes text.old ++ way_lines graph.now way.now) }
{
    for number in way {
        push_way_at(text, graph, *number)?;
    }
    Ok(())
}

/// Appends the circle that a channel closes with these.
fn push_circle_lines(
    text: &mut String,
    graph: &Graph,
    number: u32,
    way: &[u32],
) -> Result<(), AllocError>
    ensures { OnOk result (string_bytes text.new ≡ string_bytes text.old ++ circle_lines graph.now number way.now) }
{
    text.push_str("one of these, which lie in a circle, does not fit the others:\n")?;
    push_way_at(text, graph, number)?;
    push_way_lines(text, graph, way)
}

/// Appends the circle that a channel closes with these, where there are some.
pub(crate) fn push_circle_of(
    text: &mut String,
    graph: &Graph,
    number: u32,
    way: &[u32],
) -> Result<(), AllocError>
    ensures { OnOk result (string_bytes text.new ≡ string_bytes text.old ++ way_text graph.now number way.now) }
{
    if way.len() == 0 {
        return Ok(());
    }
    push_circle_lines(text, graph, number, way)
}

/// The line of a channel whose full capacity is too great.
pub(crate) fn too_large_text(alloc: Global, name: &str) -> Result<String, AllocError>
    ensures { IfOk result (λ text. string_bytes text ≡ too_large_text name.now) }
{
    let mut text = String::new(alloc);
    write!(
        text,
        "too large: {name} is given more than 65535 tokens in a period, its first ones counted\n"
    )?;
    Ok(text)
}

/// Appends the line of a channel whose given capacity is too small.
fn push_tight_line(text: &mut String, name: &str, given: u32, needs: u32) -> Result<(), AllocError>
    ensures { OnOk result (string_bytes text.new ≡ string_bytes text.old ++ tight_line name.now given needs) }
{
    write!(
        text,
        "too tight: {name} is given {given}, and needs {needs} even alone\n"
    )
}

/// Appends the line of the channel whose given capacity is too small even where no other channel is
/// in the way, where there is one.
pub(crate) fn push_tight(
    text: &mut String,
    graph: &Graph,
    tight: Option<Tight>,
) -> Result<(), AllocError>
    ensures { OnOk result (string_bytes text.new ≡ string_bytes text.old ++ tight_text (names_of graph.now.channels) tight) }
{
    match tight {
        Some(tight) => push_tight_line(
            text,
            channel_of(graph, tight.channel),
            tight.given,
            tight.needs,
        ),
        None => Ok(()),
    }
}

/// Appends the line of a channel with a greater capacity of which a period completes.
fn push_relief_line(text: &mut String, name: &str, capacity: u32) -> Result<(), AllocError>
    ensures { OnOk result (string_bytes text.new ≡ string_bytes text.old ++ relief_line name.now capacity) }
{
    write!(
        text,
        "with {capacity} in {name}, and the others as given, a period completes\n"
    )
}

/// Appends the line of the channel with a greater capacity of which a period completes, where there is
/// one.
pub(crate) fn push_relief(
    text: &mut String,
    graph: &Graph,
    relief: Option<Relief>,
) -> Result<(), AllocError>
    ensures { OnOk result (string_bytes text.new ≡ string_bytes text.old ++ relief_text (names_of graph.now.channels) relief) }
{
    match relief {
        Some(relief) => {
            let name = channel_of(graph, relief.channel);
            push_relief_line(text, name, relief.capacity)
        }
        None => Ok(()),
    }
}
