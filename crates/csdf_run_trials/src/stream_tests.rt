//! Runs that go on, segment after segment.

use crate::shared::{accepted_in, asked_for, expect_eq};
use csdf_floor::{Ending, are_exact, are_feeds, may_run};
use csdf_run::{ChannelTotal, Host, Open, Part, Stream, Stretch};
use std::alloc::Global;
use std::process::Abort;
use std::sync::Wait;
use std::test::Fail;
use std::thread::Threads;

/// A source and a sink, with a token between them at first.
const DELAYED: &str = r#"actor = [
  { name = "src", kernel = "source" },
  { name = "snk", kernel = "sink" },
]
channel = [{ name = "x", from = "src", to = "snk", produce = [1], consume = [1], initial = [9] }]
"#;

/// A running sum, whose state is in a channel to itself.
const SUMS: &str = r#"actor = [
  { name = "src", kernel = "source" },
  { name = "acc", kernel = "sum" },
  { name = "snk", kernel = "sink" },
]
channel = [
  { name = "x", from = "src", to = "acc", produce = [1], consume = [1] },
  { name = "s", from = "acc", to = "acc", produce = [1], consume = [1], initial = [0] },
  { name = "y", from = "acc", to = "snk", produce = [1], consume = [1] },
]
"#;

/// The feed of actor 0, and empty ones for the others of the stream's graph.
fn feeds_for(alloc: Global, stream: &Stream, feed: &[i32]) -> Result<Vec<Vec<i32>>, Fail> {
    let mut feeds = Vec::new(alloc);
    feeds.push(Vec::from_slice(alloc, feed)?)?;
    for _ in 1..stream.accepted().graph().actors().len() {
        feeds.push(Vec::new(alloc))?;
    }
    Ok(feeds)
}

/// The stream after a segment by two workers over the feed of actor 0, and what it answers.
fn segment_of<R: Threads + Wait + Abort + Sync>(
    rt: &R,
    alloc: Global,
    stream: Stream,
    feed: &[i32],
    periods: u32,
) -> Result<(Stream, Part), Fail> {
    let feeds = feeds_for(alloc, &stream, feed)?;
    assert!(rt; !stream.is_over());
    assert!(rt; are_feeds(stream.accepted().graph(), &feeds));
    assert!(rt; 1 <= periods);
    assert!(rt; may_run(stream.accepted(), periods));
    let Stretch {
        stream,
        feeds: _,
        part,
    } = stream.segment(Host { rt, alloc }, feeds, 2, periods, &Open);
    Ok((stream, part?))
}

/// What the actor took in the segment.
fn sink_of(part: &Part, actor: usize) -> &[i32] {
    match part.sinks.get(actor) {
        Some(sink) => sink.as_slice(),
        None => &[],
    }
}

#[test]
fn a_stream_goes_on_with_the_token_that_waits(rt: HostRuntime) -> Result<(), Fail> {
    let alloc = rt.alloc();
    let stream = Stream::new(alloc, accepted_in(alloc, DELAYED)?)?;
    let (stream, first) = segment_of(&rt, alloc, stream, &[5, 6], 2)?;
    expect_eq(&rt, sink_of(&first, 1), [9, 5].as_slice());
    expect_eq(&rt, first.ending, Ending::Complete);
    let (stream, last) = segment_of(&rt, alloc, stream, &[7], 2)?;
    expect_eq(&rt, sink_of(&last, 1), [6, 7].as_slice());
    expect_eq(&rt, last.ending, Ending::Dry);
    expect_eq(&rt, stream.is_over(), true);
    let total = ChannelTotal {
        written: 3,
        taken: 4,
        peak: 1,
    };
    expect_eq(&rt, stream.totals(), [total].as_slice());
    Ok(())
}

#[test]
fn a_running_sum_goes_on_over_segments(rt: HostRuntime) -> Result<(), Fail> {
    let alloc = rt.alloc();
    let stream = Stream::new(alloc, accepted_in(alloc, SUMS)?)?;
    let (stream, first) = segment_of(&rt, alloc, stream, &[1, 2], 2)?;
    expect_eq(&rt, sink_of(&first, 2), [1, 3].as_slice());
    let (stream, second) = segment_of(&rt, alloc, stream, &[3], 1)?;
    expect_eq(&rt, sink_of(&second, 2), [6].as_slice());
    let (stream, third) = segment_of(&rt, alloc, stream, &[4, 5, 6], 3)?;
    expect_eq(&rt, sink_of(&third, 2), [10, 15, 21].as_slice());
    expect_eq(&rt, stream.is_over(), false);
    Ok(())
}

#[test]
fn a_stream_is_over_where_tokens_are_left(rt: HostRuntime) -> Result<(), Fail> {
    let alloc = rt.alloc();
    let stream = Stream::new(alloc, accepted_in(alloc, SUMS)?)?;
    let (stream, part) = segment_of(&rt, alloc, stream, &[1, 2, 3], 2)?;
    expect_eq(&rt, sink_of(&part, 2), [1, 3].as_slice());
    expect_eq(&rt, part.ending, Ending::Complete);
    expect_eq(&rt, stream.is_over(), true);
    Ok(())
}

/// Whether so many tokens are just what the source of the running sum gives in two periods.
fn is_just(rt: &impl Abort, alloc: Global, feed: &[i32]) -> Result<bool, Fail> {
    let asked = asked_for(alloc, SUMS, feed)?;
    assert!(rt; are_feeds(asked.accepted.graph(), &asked.feeds));
    assert!(rt; may_run(&asked.accepted, 2));
    Ok(are_exact(&asked.accepted, &asked.feeds, 2))
}

#[test]
fn feeds_are_exact_with_a_token_for_each_firing(rt: HostRuntime) -> Result<(), Fail> {
    expect_eq(&rt, is_just(&rt, rt.alloc(), &[1])?, false);
    expect_eq(&rt, is_just(&rt, rt.alloc(), &[1, 2])?, true);
    expect_eq(&rt, is_just(&rt, rt.alloc(), &[1, 2, 3])?, false);
    Ok(())
}
