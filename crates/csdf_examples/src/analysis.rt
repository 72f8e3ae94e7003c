//! What is known of a graph before it runs: how often each actor fires in a period, the least capacity of
//! each channel, the cells that they share, and the firings of a period in order.

ghost use Rattle.std.specs.Prelude.{IfOk};
ghost use Rattle.csdf_analysis.specs.Acceptance.{IsAccepted};

use csdf_analysis::{Accepted, accept, schedule};
use csdf_graph::read_graph;
use std::alloc::Global;
use std::io;

/// A source that gives 2 tokens, an actor that adds up 3, and a sink that takes 2.
const CHAIN: &str = r#"actor = [
  { name = "src", kernel = "source" },
  { name = "add", kernel = "sum" },
  { name = "snk", kernel = "sink" },
]
channel = [
  { name = "x", from = "src", to = "add", produce = [2], consume = [3] },
  { name = "y", from = "add", to = "snk", produce = [1], consume = [2] },
]
"#;

/// Two actors that wait for each other, since no channel begins with a token.
const CIRCLE: &str = r#"actor = [{ name = "a", kernel = "copy" }, { name = "b", kernel = "copy" }]
channel = [
  { name = "x", from = "a", to = "b", produce = [1], consume = [1] },
  { name = "y", from = "b", to = "a", produce = [1], consume = [1] },
]
"#;

/// The graph of the text, which is accepted: it can run for ever in bounded channels.
///
/// An error says why the text is no graph, or why the graph can't.
pub fn accepted_in(alloc: Global, text: &str) -> anyhow::Result<Accepted>
    ensures { IfOk result IsAccepted }
{
    match accept(alloc, read_graph(alloc, text.as_bytes())?) {
        Ok(accepted) => Ok(accepted),
        Err((_, fault)) => Err(fault.into()),
    }
}

/// Prints how often each actor fires in a period.
fn print_vector(rt: &impl Print, accepted: &Accepted) -> io::Result<()> {
    let firings = accepted.vector().q.as_slice();
    for (actor, count) in accepted.graph().actors().iter().zip(firings) {
        println!(rt; "{} fires {count} times", actor.name)?;
    }
    Ok(())
}

/// Prints the least capacity of each channel, and how many cells all channels share.
fn print_capacities(rt: &impl Print, accepted: &Accepted) -> io::Result<()> {
    let channels = accepted.graph().channels();
    for (channel, capacity) in channels.iter().zip(accepted.capacities()) {
        println!(rt; "{} holds {capacity} tokens at most", channel.name)?;
    }
    println!(rt; "cells {}", accepted.cells())
}

/// Prints the actors of a period in order.
fn print_schedule(rt: &impl Print, alloc: Global, accepted: &Accepted) -> io::Result<()> {
    let actors = accepted.graph().actors();
    print!(rt; "schedule")?;
    for number in schedule(alloc, accepted)? {
        if let Some(actor) = actors.get(number as usize) {
            print!(rt; " {}", actor.name)?;
        }
    }
    println!(rt; "")
}

/// Prints all that is known of a graph.
fn print_all(rt: &impl Print, alloc: Global, accepted: &Accepted) -> io::Result<()> {
    print_vector(rt, accepted)?;
    print_capacities(rt, accepted)?;
    print_schedule(rt, alloc, accepted)
}

/// Shows what is known of the two graphs.
pub fn show(rt: &impl Print, alloc: Global) -> anyhow::Result<()> {
    let accepted = accepted_in(alloc, CHAIN)?;
    print_all(rt, alloc, &accepted)?;
    if let Err(fault) = accepted_in(alloc, CIRCLE) {
        println!(rt; "the circle is refused: {fault}")?;
    }
    Ok(())
}
