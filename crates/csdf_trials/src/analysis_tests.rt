use crate::shared::{CHAIN, DISAGREEING, expect_eq_of};
use csdf_analysis::{AcceptFault, repetition};
use csdf_graph::read_graph;
use csdf_model::Graph;
use std::process::Abort;
use std::test::Fail;

pub(crate) const TWO_PHASES: &str = r#"actor = [
  { name = "a", kernel = "source", phases = 2 },
  { name = "b", kernel = "sink", phases = 2 },
]
channel = [{ name = "x", from = "a", to = "b", produce = [1, 1], consume = [1, 1] }]
"#;

pub(crate) const TWO_TOKENS: &str = r#"actor = [
  { name = "a", kernel = "source" },
  { name = "b", kernel = "sink" },
]
channel = [{ name = "x", from = "a", to = "b", produce = [2], consume = [2] }]
"#;

pub(crate) const UNEVEN_PHASES: &str = r#"actor = [
  { name = "a", kernel = "source", phases = 3 },
  { name = "b", kernel = "sink", phases = 2 },
]
channel = [{ name = "x", from = "a", to = "b", produce = [1, 0, 2], consume = [0, 3] }]
"#;

/// From compact disc to digital tape: 147 samples in, 160 out.
pub(crate) const CONVERTER: &str = r#"actor = [
  { name = "a", kernel = "source" },
  { name = "b", kernel = "copy" },
  { name = "c", kernel = "copy" },
  { name = "d", kernel = "copy" },
  { name = "e", kernel = "copy" },
  { name = "f", kernel = "sink" },
]
channel = [
  { name = "ab", from = "a", to = "b", produce = [1], consume = [1] },
  { name = "bc", from = "b", to = "c", produce = [2], consume = [3] },
  { name = "cd", from = "c", to = "d", produce = [2], consume = [7] },
  { name = "de", from = "d", to = "e", produce = [8], consume = [7] },
  { name = "ef", from = "e", to = "f", produce = [5], consume = [1] },
]
"#;

/// The first actor would fire 4,096 times.
pub(crate) const STEEP: &str = r#"actor = [
  { name = "a", kernel = "source" },
  { name = "b", kernel = "copy" },
  { name = "c", kernel = "sink" },
]
channel = [
  { name = "x", from = "a", to = "b", produce = [1], consume = [64] },
  { name = "y", from = "b", to = "c", produce = [1], consume = [64] },
]
"#;

/// The vector is 67 1024, and the channel would hold 68,608 tokens.
pub(crate) const WIDE: &str = r#"actor = [
  { name = "a", kernel = "source", phases = 16 },
  { name = "b", kernel = "sink", phases = 2 },
]
channel = [{ name = "x", from = "a", to = "b", produce = [64, 64, 64, 64, 64, 64, 64, 64, 64, 64, 64, 64, 64, 64, 64, 64], consume = [64, 3] }]
"#;

pub(crate) fn graph(rt: &impl AllocGlobal, text: &str) -> Result<Graph, Fail> {
    Ok(read_graph(rt.alloc(), text.as_bytes())?)
}

/// Asserts the vector of the graph, in cycles and in firings.
fn expect_vector(
    rt: &(impl Abort + AllocGlobal),
    text: &str,
    r: &[u32],
    q: &[u32],
) -> Result<(), Fail> {
    let graph = graph(rt, text)?;
    let vector = repetition(rt.alloc(), &graph)?;
    expect_eq_of(rt, vector.r.as_slice(), r, text);
    expect_eq_of(rt, vector.q.as_slice(), q, text);
    Ok(())
}

/// Graphs and their vectors.
const VECTORS: [(&str, &[u32], &[u32]); 5] = [
    (CHAIN, &[3, 2, 1], &[3, 2, 1]),
    (TWO_PHASES, &[1, 1], &[2, 2]),
    (TWO_TOKENS, &[1, 1], &[1, 1]),
    (UNEVEN_PHASES, &[1, 1], &[3, 2]),
    (
        CONVERTER,
        &[147, 147, 98, 28, 32, 160],
        &[147, 147, 98, 28, 32, 160],
    ),
];

#[test]
fn finds_the_least_vector(rt: HostRuntime) -> Result<(), Fail> {
    for (text, r, q) in &VECTORS {
        expect_vector(&rt, *text, *r, *q)?;
    }
    Ok(())
}

/// Why the graph has no vector.
fn refusal_of(rt: &impl AllocGlobal, text: &str) -> Result<Option<AcceptFault>, Fail> {
    let graph = graph(rt, text)?;
    Ok(repetition(rt.alloc(), &graph).err())
}

const REFUSED: [(&str, AcceptFault); 3] = [
    (DISAGREEING, AcceptFault::Unbalanced(1)),
    (STEEP, AcceptFault::Unbalanced(1)),
    (WIDE, AcceptFault::TooLarge(0)),
];

#[test]
fn names_the_channel_that_is_refused(rt: HostRuntime) -> Result<(), Fail> {
    for (text, want) in &REFUSED {
        expect_eq_of(&rt, refusal_of(&rt, *text)?, Some(*want), *text);
    }
    Ok(())
}
