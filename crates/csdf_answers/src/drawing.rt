//! A graph in the language of Graphviz.

ghost use Rattle.std.specs.Prelude.{◌≡◌, ◌++◌, length, map, string_bytes, IfOk, OnOk};
ghost use Rattle.std.specs.List.{enumerate_from};
ghost use Rattle.csdf_model.specs.Graph.{actor_view, channel_view};
ghost use Rattle.csdf_answers.specs.Drawing.{kernel_text, dots, actor_line, rates_text, facts_text, channel_line, actor_lines, channel_lines, dot_text};
ghost use Rattle.csdf_answers.specs.Printed.{spaced};

use csdf_analysis::Accepted;
use csdf_model::{Actor, Channel, Kernel};
use std::alloc::{AllocError, Global};

/// The kernel's name in a graph file.
fn kernel_name(kernel: &Kernel) -> &'static str
    ensures { result.now ≡ kernel_text kernel.now }
{
    match kernel {
        Kernel::Source => "source",
        Kernel::Sink => "sink",
        Kernel::Copy => "copy",
        Kernel::Sum => "sum",
        Kernel::Fir { .. } => "fir",
    }
}

/// Appends each number after a space.
fn push_numbers(text: &mut String, numbers: &[u32]) -> Result<(), AllocError>
    ensures { OnOk result (string_bytes text.new ≡ string_bytes text.old ++ spaced numbers.now) }
{
    for number in numbers {
        write!(text, " {number}")?;
    }
    Ok(())
}

/// Appends a dot for each token, or their number and a dot where they are many.
#[tactic(auto, unfolding(crate::specs::Drawing::dots))]
fn push_dots(text: &mut String, tokens: &[i32]) -> Result<(), AllocError>
    ensures { OnOk result (string_bytes text.new ≡ string_bytes text.old ++ dots tokens.now) }
{
    let count = tokens.len();
    if count > 8 {
        return write!(text, "{count} •");
    }
    for _ in tokens {
        text.push_str("•")?;
    }
    Ok(())
}

/// Appends the line of an actor.
fn push_actor(
    text: &mut String,
    number: usize,
    actor: &Actor,
    firings: u32,
) -> Result<(), AllocError>
    ensures { OnOk result (string_bytes text.new ≡ string_bytes text.old ++ actor_line number (actor_view actor.now) firings) }
{
    let name = actor.name.as_str();
    let kernel = kernel_name(&actor.kernel);
    let phases = actor.phases;
    write!(text, "  n{number} [label=\"{name}\\n{kernel}")?;
    write!(text, "\\nphases {phases}, firings {firings}\"];\n")
}

/// Appends the rates of a channel.
fn push_rates(text: &mut String, channel: &Channel) -> Result<(), AllocError>
    ensures { OnOk result (string_bytes text.new ≡ string_bytes text.old ++ rates_text (channel_view channel.now)) }
{
    push_numbers(text, &channel.produce)?;
    text.push_str(" /")?;
    push_numbers(text, &channel.consume)
}

/// Appends what is told of a channel below its name.
fn push_facts(text: &mut String, channel: &Channel, capacity: u32) -> Result<(), AllocError>
    ensures { OnOk result (string_bytes text.new ≡ string_bytes text.old ++ facts_text (channel_view channel.now) capacity) }
{
    text.push_str("\\nrates")?;
    push_rates(text, channel)?;
    write!(text, "\\ncapacity {capacity}\\n")?;
    push_dots(text, &channel.initial)
}

/// Appends the line of a channel.
fn push_channel(text: &mut String, channel: &Channel, capacity: u32) -> Result<(), AllocError>
    ensures { OnOk result (string_bytes text.new ≡ string_bytes text.old ++ channel_line (channel_view channel.now) capacity) }
{
    let from = channel.from;
    let to = channel.to;
    let name = channel.name.as_str();
    write!(text, "  n{from} -> n{to} [label=\"{name}")?;
    push_facts(text, channel, capacity)?;
    text.push_str("\"];\n")
}

/// Appends the lines of all actors.
fn push_actors(text: &mut String, actors: &[Actor], firings: &[u32]) -> Result<(), AllocError>
    requires { length firings.now ≡ length actors.now }
    ensures { OnOk result (string_bytes text.new ≡ string_bytes text.old ++ actor_lines firings.now
        (enumerate_from 0 (map actor_view actors.now))) }
{
    for (number, actor) in actors.iter().enumerate() {
        push_actor(text, number, actor, firings[number])?;
    }
    Ok(())
}

/// Appends the lines of all channels.
fn push_channels(
    text: &mut String,
    channels: &[Channel],
    capacities: &[u32],
) -> Result<(), AllocError>
    requires { length capacities.now ≡ length channels.now }
    ensures { OnOk result (string_bytes text.new ≡ string_bytes text.old ++ channel_lines capacities.now
        (enumerate_from 0 (map channel_view channels.now))) }
{
    for (number, channel) in channels.iter().enumerate() {
        push_channel(text, channel, capacities[number])?;
    }
    Ok(())
}

/// The graph with what was found of it, as Graphviz reads it.
pub(crate) fn dot_text(alloc: Global, accepted: &Accepted) -> Result<String, AllocError>
    ensures { IfOk result (λ text. string_bytes text ≡ dot_text accepted.now) }
{
    let graph = accepted.graph();
    let mut text = String::new(alloc);
    text.push_str("digraph csdf {\n  rankdir=LR;\n  node [shape=box];\n")?;
    push_actors(&mut text, graph.actors(), &accepted.vector().q)?;
    push_channels(&mut text, graph.channels(), accepted.capacities())?;
    text.push_str("}\n")?;
    Ok(text)
}
