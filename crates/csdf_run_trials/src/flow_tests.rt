//! Streams of text and of raw samples, in segments of any length.

use csdf_analysis::{Accepted, accept};
use csdf_bytes::{Fused, Intake, Outlet, SampleFormat, Slice, ToWriter};
use csdf_floor::Ending;
use csdf_graph::read_graph;
use csdf_run::Open;
use csdf_stream::{
    ReaderFault, StreamFault, StreamOptions, StreamRun, TokenFormat, printed_stream, run_stream,
    sinks_of, sources_of,
};
use std::alloc::Global;
use std::process::Abort;
use std::sync::Wait;
use std::test::Fail;
use std::thread::Threads;

/// A running sum, whose state is in a channel to itself.
const SUMS: &str = r#"actor = [
  { name = "src", kernel = "source" },
  { name = "acc", kernel = "sum" },
  { name = "snk", kernel = "sink" },
]
channel = [
  { name = "x", from = "src", to = "acc", produce = [1], consume = [1] },
  { name = "s", from = "acc", to = "acc", produce = [1], consume = [1], initial = [0] },
  { name = "y", from = "acc", to = "snk", produce = [1], consume = [1] },
]
"#;

/// Two sources, of which the second has a sink of its own too.
const BRANCHES: &str = r#"actor = [
  { name = "a", kernel = "source" },
  { name = "b", kernel = "source" },
  { name = "add", kernel = "sum" },
  { name = "both", kernel = "sink" },
  { name = "alone", kernel = "sink" },
]
channel = [
  { name = "x", from = "a", to = "add", produce = [1], consume = [1] },
  { name = "y", from = "b", to = "add", produce = [1], consume = [1], capacity = 4 },
  { name = "z", from = "add", to = "both", produce = [1], consume = [1] },
  { name = "w", from = "b", to = "alone", produce = [1], consume = [1] },
]
"#;

/// A firing of the second source takes two of these, one for each of its channels.
const TENS: &[u8] = b"10\n20\n30\n40\n50\n60\n70\n80\n90\n100\n110\n120\n130\n140\n150\n160\n";

/// The graph of the file, which is accepted.
fn accepted_in(alloc: Global, text: &str) -> Result<Accepted, Fail> {
    match accept(alloc, read_graph(alloc, text.as_bytes())?) {
        Ok(accepted) => Ok(accepted),
        Err((_, fault)) => Err(fault.into()),
    }
}

/// A stream by two workers in segments of so many periods, for so many periods in all.
fn options(
    rt: &impl Abort,
    segment: Option<u32>,
    periods: Option<u32>,
    format: TokenFormat,
) -> StreamOptions {
    assert!(rt; segment != Some(0));
    assert!(rt; periods != Some(0));
    StreamOptions {
        workers: 2,
        segment,
        periods,
        format,
    }
}

/// Runs the graph of the file over devices, as many as it has sources and sinks.
fn streamed<R: Threads + Wait + Abort + AllocGlobal + Sync, I: Intake, O: Outlet>(
    rt: &R,
    text: &str,
    options: StreamOptions,
    intakes: &mut [I],
    outlets: &mut [O],
) -> Result<StreamRun, Fail> {
    let alloc = rt.alloc();
    let accepted = accepted_in(alloc, text)?;
    assert!(rt; sources_of(alloc, accepted.graph())?.len() == intakes.len());
    assert!(rt; sinks_of(alloc, accepted.graph())?.len() == outlets.len());
    Ok(run_stream(rt, alloc, accepted, options, intakes, outlets, &Open)?)
}

/// The lengths of segments that are tried: the last one is that of which nothing is said.
const SEGMENTS: [Option<u32>; 5] = [Some(1), Some(2), Some(3), Some(17), None];

/// Asserts what a stream of running sums writes for these bytes, and the fault that ends it where there is one.
fn expect_sums<R: Threads + Wait + Abort + AllocGlobal + Sync>(
    rt: &R,
    options: StreamOptions,
    bytes: &[u8],
    want: &[u8],
    fault: Option<StreamFault>,
) -> Result<StreamRun, Fail> {
    let mut written = Vec::new(rt.alloc());
    let run = streamed(
        rt,
        SUMS,
        options,
        &mut [Slice::new(bytes)],
        &mut [ToWriter::new(&mut written)],
    )?;
    assert_eq!(rt; written.as_slice(), want);
    let found = match &run.end {
        Ok(_) => None,
        Err(fault) => Some(*fault),
    };
    assert_eq!(rt; found, fault);
    Ok(run)
}

#[test]
fn segments_of_any_length_give_the_same_text(rt: HostRuntime) -> Result<(), Fail> {
    for segment in SEGMENTS {
        let asked = options(&rt, segment, None, TokenFormat::Text);
        let run = expect_sums(
            &rt,
            asked,
            b"1\n2\n\n 3\r\n4\n5",
            b"1\n3\n6\n10\n15\n",
            None,
        )?;
        let end = run.end?;
        assert_eq!(rt; end.ending, Ending::Dry);
        assert_eq!(rt; end.clipped.as_slice(), [0].as_slice());
        let graph = run.stream.accepted().graph();
        let report = printed_stream(rt.alloc(), graph, run.stream.totals(), &end)?;
        assert!(rt;
            report
                .as_str()
                .starts_with("ending dry\nx written 5 taken 5 held 0 peak ")
        );
    }
    Ok(())
}

#[test]
fn a_stream_ends_after_its_periods(rt: HostRuntime) -> Result<(), Fail> {
    for segment in SEGMENTS {
        let asked = options(&rt, segment, Some(3), TokenFormat::Text);
        let run = expect_sums(&rt, asked, b"1\n2\n3\n4\n5\n", b"1\n3\n6\n", None)?;
        assert_eq!(rt; run.end?.ending, Ending::Complete);
    }
    Ok(())
}

#[test]
fn a_faulty_line_is_counted_over_the_stream(rt: HostRuntime) -> Result<(), Fail> {
    let fault = StreamFault::Source(0, ReaderFault::Syntax(3));
    let asked = options(&rt, Some(1), None, TokenFormat::Text);
    expect_sums(&rt, asked, b"1\n2\nx\n4\n", b"1\n3\n", Some(fault))?;
    let asked = options(&rt, Some(2), None, TokenFormat::Text);
    expect_sums(
        &rt,
        asked,
        b"1\n2\n3\n3000000000\n",
        b"1\n3\n",
        Some(StreamFault::Source(0, ReaderFault::Range(4))),
    )?;
    Ok(())
}

#[test]
fn samples_are_clipped_and_cut_off(rt: HostRuntime) -> Result<(), Fail> {
    let format = TokenFormat::Samples(SampleFormat::S16Le);
    let asked = options(&rt, Some(1), None, format);
    let run = expect_sums(
        &rt,
        asked,
        b"\xff\x7f\x01\x00\xfe\xff",
        b"\xff\x7f\xff\x7f\xfe\x7f",
        None,
    )?;
    assert_eq!(rt; run.end?.clipped.as_slice(), [1].as_slice());
    let fault = StreamFault::Source(0, ReaderFault::CutOff(2));
    expect_sums(&rt, asked, b"\x01\x00\x02", b"\x01\x00", Some(fault))?;
    Ok(())
}

#[test]
fn a_source_that_is_dry_lets_the_others_go_on(rt: HostRuntime) -> Result<(), Fail> {
    for segment in SEGMENTS {
        let mut both = Vec::new(rt.alloc());
        let mut alone = Vec::new(rt.alloc());
        let asked = options(&rt, segment, None, TokenFormat::Text);
        let run = streamed(
            &rt,
            BRANCHES,
            asked,
            &mut [Slice::new(b"1\n2\n"), Slice::new(TENS)],
            &mut [ToWriter::new(&mut both), ToWriter::new(&mut alone)],
        )?;
        assert_eq!(rt; run.end?.ending, Ending::Dry);
        assert_eq!(rt; both.as_slice(), b"11\n32\n".as_slice());
        assert_eq!(rt; alone.as_slice(), b"20\n40\n60\n80\n100\n120\n".as_slice());
    }
    Ok(())
}

#[test]
fn a_sink_that_fails_has_the_segments_before(rt: HostRuntime) -> Result<(), Fail> {
    let mut written = Vec::new(rt.alloc());
    let asked = options(&rt, Some(1), None, TokenFormat::Text);
    let run = streamed(
        &rt,
        SUMS,
        asked,
        &mut [Slice::new(b"1\n2\n3\n4\n")],
        &mut [Fused::new(ToWriter::new(&mut written), 2)],
    )?;
    assert_eq!(rt; written.as_slice(), b"1\n3\n".as_slice());
    match run.end {
        Ok(_) => assert!(rt; false),
        Err(fault) => assert_eq!(rt; fault, StreamFault::Sink(2)),
    }
    Ok(())
}
