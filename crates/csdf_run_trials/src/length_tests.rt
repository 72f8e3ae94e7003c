use crate::shared::{accepted_in, expect_eq};
use csdf_analysis::{Length, Room};
use csdf_floor::{Ending, may_run, most_periods};
use csdf_journal::Keeping;
use csdf_run::{Host, Open, RunOptions, Texts, run_texts_with};
use std::alloc::Global;
use std::process::Abort;
use std::sync::Wait;
use std::test::Fail;
use std::thread::Threads;

const PAIR: &str = r#"actor = [
  { name = "a", kernel = "source" },
  { name = "b", kernel = "sink" },
]
channel = [{ name = "x", from = "a", to = "b", produce = [1], consume = [1] }]
"#;

/// The source fires seven times in a period.
const SEVEN: &str = r#"actor = [
  { name = "b", kernel = "sink" },
  { name = "a", kernel = "source" },
]
channel = [{ name = "x", from = "a", to = "b", produce = [1], consume = [7] }]
"#;

fn check_most<R: Abort>(rt: &R, alloc: Global, graph: &str, most: u32) -> Result<(), Fail> {
    let accepted = accepted_in(alloc, graph)?;
    expect_eq(rt, most_periods(&accepted), most);
    expect_eq(rt, may_run(&accepted, most), true);
    expect_eq(rt, may_run(&accepted, most.saturating_add(1)), false);
    Ok(())
}

#[test]
fn periods_have_a_limit(rt: HostRuntime) -> Result<(), Fail> {
    for (graph, most) in [(PAIR, 16_384_000), (SEVEN, 2_340_571)] {
        check_most(&rt, rt.alloc(), graph, most)?;
    }
    Ok(())
}

/// The graph until it is dry, over one text.
fn dry_run<R: Threads + Wait + Sync>(
    rt: &R,
    alloc: Global,
    graph: &str,
    feed: &str,
) -> Result<Texts, Fail> {
    let feed = Vec::from_slice(alloc, feed.as_bytes())?;
    let feeds = std::slice::from_ref(&feed);
    let options = RunOptions {
        workers: 2,
        how_long: Length::UntilDry,
        firings: None,
        room: Room::Least,
        keeping: Keeping::NotKept,
    };
    match run_texts_with(Host { rt, alloc }, graph.as_bytes(), feeds, options, &Open) {
        Ok(texts) => Ok(texts),
        Err(fault) => Err(fault.into()),
    }
}

/// Sixteen tokens are two firings of the sink, and two tokens stay in the channel.
#[test]
fn a_run_until_its_source_is_dry(rt: HostRuntime) -> Result<(), Fail> {
    let feed = "1\n2\n3\n4\n5\n6\n7\n8\n9\n10\n11\n12\n13\n14\n15\n16\n";
    let texts = dry_run(&rt, rt.alloc(), SEVEN, feed)?;
    expect_eq(&rt, texts.ending, Ending::Dry);
    assert!(rt; texts.sinks.len() == 1);
    let sink = "1\n2\n3\n4\n5\n6\n7\n8\n9\n10\n11\n12\n13\n14\n";
    expect_eq(&rt, texts.sinks[0].as_slice(), sink.as_bytes());
    Ok(())
}
