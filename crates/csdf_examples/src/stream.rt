//! A run over tokens that come in pieces: each piece is a segment of whole periods, and begins with the
//! tokens that wait in the channels at the end of the one before.

use crate::analysis::accepted_in;
use crate::floor::feeds_of;
use anyhow::{anyhow, ensure};
use csdf_floor::{are_feeds, may_run};
use csdf_run::{Host, Open, Part, Stream, Stretch};
use std::alloc::Global;
use std::io;
use std::sync::Wait;
use std::thread::Threads;

/// A running sum, whose state is the token in a channel to itself.
const RUNNING: &str = r#"actor = [
  { name = "src", kernel = "source" },
  { name = "acc", kernel = "sum" },
  { name = "snk", kernel = "sink" },
]
channel = [
  { name = "x", from = "src", to = "acc", produce = [1], consume = [1] },
  { name = "s", from = "acc", to = "acc", produce = [1], consume = [1], initial = [0] },
  { name = "y", from = "acc", to = "snk", produce = [1], consume = [1] },
]
"#;

/// The stream after one segment more, by two workers, with a period for each token.
fn goes_on<R: Threads + Wait + Sync>(
    rt: &R,
    alloc: Global,
    stream: Stream,
    tokens: &[i32],
) -> anyhow::Result<(Stream, Part)> {
    let feeds = feeds_of(alloc, tokens)?;
    let periods = u32::try_from(tokens.len())?;
    ensure!(!stream.is_over(), "no segment follows");
    ensure!(
        are_feeds(stream.accepted().graph(), &feeds),
        "not the feeds of this graph"
    );
    ensure!(1 <= periods, "no periods");
    ensure!(may_run(stream.accepted(), periods), "too many firings");
    let Stretch {
        stream,
        feeds: _,
        part,
    } = stream.segment(Host { rt, alloc }, feeds, 2, periods, &Open);
    match part {
        Ok(part) => Ok((stream, part)),
        Err(fault) => Err(anyhow!("{fault}")),
    }
}

/// Prints what each sink took in a segment.
fn print_part(rt: &impl Print, part: &Part) -> io::Result<()> {
    for sink in &part.sinks {
        if !sink.is_empty() {
            println!(rt; "the segment gave {sink:?}")?;
        }
    }
    Ok(())
}

/// Prints how many tokens each channel has carried in all segments.
fn print_totals(rt: &impl Print, stream: &Stream) -> io::Result<()> {
    let channels = stream.accepted().graph().channels();
    for (channel, total) in channels.iter().zip(stream.totals()) {
        println!(rt; "{} carried {} tokens", channel.name, total.taken)?;
    }
    Ok(())
}

/// Shows a running sum over two pieces: the second goes on from the sum of the first.
pub fn show<R: Print + Threads + Wait + Sync>(rt: &R, alloc: Global) -> anyhow::Result<()> {
    let stream = Stream::new(alloc, accepted_in(alloc, RUNNING)?)?;
    let (stream, part) = goes_on(rt, alloc, stream, &[1, 2, 3])?;
    print_part(rt, &part)?;
    let (stream, part) = goes_on(rt, alloc, stream, &[4, 5])?;
    print_part(rt, &part)?;
    print_totals(rt, &stream)?;
    Ok(())
}
