//! Rows of actors of each size.

use csdf_analysis::{Accepted, accept};
use csdf_graph::read_graph;
use csdf_model::Graph;
use std::alloc::{AllocError, Global};
use std::fmt::Debug;
use std::process::Abort;
use std::test::Fail;

/// A size of a graph: how many actors stand in a row, and how many channels there are.
#[derive(Clone, Copy)]
pub(crate) struct Size {
    pub(crate) actors: u32,
    pub(crate) channels: u32,
}

/// A small size, a middle one, and the greatest.
pub(crate) const SIZES: [Size; 3] = [
    Size {
        actors: 2,
        channels: 1,
    },
    Size {
        actors: 32,
        channels: 64,
    },
    Size {
        actors: 64,
        channels: 128,
    },
];

fn push_actor(text: &mut String, at: u32, actors: u32) -> Result<(), AllocError> {
    let kernel = if at == 0 {
        "source"
    } else if at.saturating_add(1) == actors {
        "sink"
    } else {
        "copy"
    };
    write!(text, "  {{ name = \"a{at}\", kernel = \"{kernel}\" }},\n")
}

/// Where a channel begins. Those that are more than a row needs stand side by side in its midst.
fn place_of(number: u32, actors: u32) -> u32 {
    let ends = actors.saturating_sub(1);
    let inner = actors.saturating_sub(3).max(1);
    if number < ends {
        number
    } else {
        (number % inner).saturating_add(1)
    }
}

fn push_channel(text: &mut String, number: u32, actors: u32) -> Result<(), AllocError> {
    let from = place_of(number, actors);
    let to = from.saturating_add(1);
    let ends = "produce = [1], consume = [1]";
    write!(
        text,
        "  {{ name = \"c{number}\", from = \"a{from}\", to = \"a{to}\", {ends} }},\n"
    )
}

fn push_actors(text: &mut String, actors: u32) -> Result<(), AllocError> {
    text.push_str("actor = [\n")?;
    for at in 0..actors {
        push_actor(text, at, actors)?;
    }
    text.push_str("]\n")
}

fn push_channels(text: &mut String, size: Size) -> Result<(), AllocError> {
    text.push_str("channel = [\n")?;
    for number in 0..size.channels {
        push_channel(text, number, size.actors)?;
    }
    text.push_str("]\n")
}

/// A row of actors of rate 1, each of which hands on what it gets.
pub(crate) fn row(alloc: Global, size: Size) -> Result<String, AllocError> {
    let mut text = String::new(alloc);
    push_actors(&mut text, size.actors)?;
    push_channels(&mut text, size)?;
    Ok(text)
}

/// The graph of a row.
pub(crate) fn graph_of(alloc: Global, size: Size) -> Result<Graph, Fail> {
    let text = row(alloc, size)?;
    Ok(read_graph(alloc, text.as_bytes())?)
}

/// A row with its least capacities.
pub(crate) fn accepted_of(alloc: Global, size: Size) -> Result<Accepted, Fail> {
    match accept(alloc, graph_of(alloc, size)?) {
        Ok(accepted) => Ok(accepted),
        Err((_, fault)) => Err(fault.into()),
    }
}

/// Asserts that what is found is as wanted.
pub(crate) fn expect_eq<T: PartialEq + Debug + Drop>(rt: &impl Abort, found: T, want: T) {
    assert_eq!(rt; found, want);
}
