use crate::shared::{TWO_SOURCES, expect_eq};
use csdf_analysis::AcceptFault;
use csdf_bytes::TokenFault;
use csdf_floor::Ending;
use csdf_graph::GraphFault;
use csdf_run::{Texts, TextsFault, run_texts};
use std::alloc::Global;
use std::process::Abort;
use std::sync::Wait;
use std::test::Fail;
use std::thread::Threads;

/// Two channels that ask for different vectors.
const DISAGREEING: &str = r#"actor = [
  { name = "a", kernel = "source" },
  { name = "b", kernel = "sink" },
]
channel = [
  { name = "x", from = "a", to = "b", produce = [1], consume = [1] },
  { name = "y", from = "a", to = "b", produce = [2], consume = [1] },
]
"#;

const TWO_SINKS: &str = r#"actor = [
  { name = "b", kernel = "sink" },
  { name = "a", kernel = "source" },
  { name = "c", kernel = "sink" },
]
channel = [
  { name = "x", from = "a", to = "b", produce = [1], consume = [1] },
  { name = "y", from = "a", to = "c", produce = [1], consume = [1] },
]
"#;

fn add_texts(alloc: Global, texts: &mut Vec<Vec<u8>>, feeds: &[&str]) -> Result<(), Fail> {
    for feed in feeds {
        texts.push(Vec::from_slice(alloc, feed.as_bytes())?)?;
    }
    Ok(())
}

fn texts_in(alloc: Global, feeds: &[&str]) -> Result<Vec<Vec<u8>>, Fail> {
    let mut texts = Vec::new(alloc);
    add_texts(alloc, &mut texts, feeds)?;
    Ok(texts)
}

/// A period of the graph over these texts, by one worker.
fn period_of<R: Threads + Wait + Sync>(
    rt: &R,
    alloc: Global,
    graph: &str,
    feeds: &[&str],
) -> Result<Result<Texts, TextsFault>, Fail> {
    let texts = texts_in(alloc, feeds)?;
    Ok(run_texts(rt, alloc, graph.as_bytes(), &texts, 1, 1, None))
}

fn check_refused<R: Threads + Wait + Abort + Sync>(
    rt: &R,
    alloc: Global,
    graph: &str,
    feeds: &[&str],
    fault: TextsFault,
) -> Result<(), Fail> {
    match period_of(rt, alloc, graph, feeds)? {
        Ok(_) => Err(Fail::new("not refused")),
        Err(found) => {
            expect_eq(&rt, found, fault);
            Ok(())
        }
    }
}

fn check_sinks<R: Abort>(rt: &R, found: &[Vec<u8>], sinks: &[&str]) {
    expect_eq(&rt, found.len(), sinks.len());
    for (text, sink) in found.iter().zip(sinks) {
        expect_eq(&rt, text.as_slice(), sink.as_bytes());
    }
}

fn check_texts<R: Abort>(rt: &R, texts: &Texts, sinks: &[&str], report: &str) {
    expect_eq(&rt, texts.ending, Ending::Complete);
    expect_eq(&rt, texts.report.as_slice(), report.as_bytes());
    check_sinks(rt, &texts.sinks, sinks);
}

fn check_told<R: Threads + Wait + Abort + Sync>(
    rt: &R,
    alloc: Global,
    graph: &str,
    feeds: &[&str],
    sinks: &[&str],
    report: &str,
) -> Result<(), Fail> {
    let Ok(texts) = period_of(rt, alloc, graph, feeds)? else {
        return Err(Fail::new("refused"));
    };
    check_texts(rt, &texts, sinks, report);
    Ok(())
}

/// A graph, its texts, and why they are refused.
const REFUSED: [(&str, &[&str], TextsFault); 6] = [
    ("[[actor", &[], TextsFault::Graph(GraphFault::NotToml)),
    (
        DISAGREEING,
        &[],
        TextsFault::Accept(AcceptFault::Unbalanced(1)),
    ),
    // one text and three texts for two sources
    (TWO_SOURCES, &["x\n"], TextsFault::FeedCount),
    (TWO_SOURCES, &["1\n", "10\n", ""], TextsFault::FeedCount),
    // a second text that is no number, and two
    (
        TWO_SOURCES,
        &["1\n", "x\n"],
        TextsFault::Feed(1, TokenFault::Syntax(1)),
    ),
    (
        TWO_SOURCES,
        &["x\n", "y\n"],
        TextsFault::Feed(0, TokenFault::Syntax(1)),
    ),
];

#[test]
fn texts_are_refused(rt: HostRuntime) -> Result<(), Fail> {
    for (graph, feeds, fault) in &REFUSED {
        check_refused(&rt, rt.alloc(), *graph, *feeds, *fault)?;
    }
    Ok(())
}

/// A graph, its texts, those of its sinks, and the report.
const TOLD: [(&str, &[&str], &[&str], &str); 2] = [
    // a sum of two texts
    (
        TWO_SOURCES,
        &["1\n", "10\n"],
        &["11\n"],
        "ending complete\n\
         x written 1 taken 1 held 0 peak 1 capacity 1 closed\n\
         y written 1 taken 1 held 0 peak 1 capacity 1 closed\n\
         z written 1 taken 1 held 0 peak 1 capacity 1 closed\n",
    ),
    // a text for each of two sinks
    (
        TWO_SINKS,
        &["-7\n8\n"],
        &["-7\n", "8\n"],
        "ending complete\n\
         x written 1 taken 1 held 0 peak 1 capacity 1 closed\n\
         y written 1 taken 1 held 0 peak 1 capacity 1 closed\n",
    ),
];

#[test]
fn texts_are_told(rt: HostRuntime) -> Result<(), Fail> {
    for (graph, feeds, sinks, report) in &TOLD {
        check_told(&rt, rt.alloc(), *graph, *feeds, *sinks, *report)?;
    }
    Ok(())
}
