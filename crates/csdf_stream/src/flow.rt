//! A stream, from the devices of its sources to those of its sinks.

ghost use Rattle.std.specs.Prelude.{◌≡◌, ◌≤◌, ◌<◌, ℕ, Bool, List, false, true, [], length, map, max, min, All, IfErr, IfOk, IfSome, IsTrue, OnErr, ◌↔◌, ◌⊎◌, Some, replicate};
ghost use Rattle.csdf_analysis.specs.Acceptance.{Accepted};
ghost use Rattle.csdf_floor.specs.Work.{AreFeeds, HasFewFirings, feed_of, feeds_in};
ghost use Rattle.csdf_run.specs.Streaming.{StandsAfter};
ghost use Rattle.csdf_stream.specs.Feeding.{AreFull, AreRead, IsUnfed};
ghost use Rattle.csdf_stream.specs.Flowing.{AreBuffersFor, GoesOnTo, HasNotRun, HasRun, IsAlike, IsNoneFed, IsPlanOf, IsReady, IsSegmentOf, IsStopped, IsStreamed, IsUnfedBy, StopsAt, devices};
ghost use Rattle.csdf_stream.specs.Lengths.{left_after, shortest};
ghost use Rattle.csdf_stream.specs.Marks.{IsMarked, IsReadMarked};
ghost use Rattle.csdf_stream.specs.Ports.{sinks_in, sources_in};
ghost use Rattle.csdf_stream.specs.Reading.{fresh};

use crate::end::{StreamEnd, StreamFault, StreamRun};
use crate::feeding::fill_feeds;
use crate::lengths::{last_length, usual_length};
use crate::options::{StreamOptions, TokenFormat};
use crate::ports::{sinks_of, sources_of};
use crate::reader::Reader;
use crate::writer::write_sinks;
use csdf_analysis::Accepted;
use csdf_bytes::{Intake, Outlet};
use csdf_floor::are_exact;
use csdf_run::{Host, Part, Stream, Stretch, Watch};
use std::alloc::{AllocError, Global};
use std::sync::Wait;
use std::thread::Threads;

/// How a stream is run: what stays the same from segment to segment.
#[derive(Drop)]
struct FlowPlan {
    /// The actors that are sources, in file order.
    sources: Vec<u32>,
    /// The actors that are sinks, in file order.
    sinks: Vec<u32>,
    workers: u32,
    format: TokenFormat,
    /// How many periods a segment has.
    usual: u32,
    /// How many the last one has, where a source has run dry.
    last: u32,
}

/// How the graph is to be run.
///
/// The error says that memory ran out.
fn plan_of(
    alloc: Global,
    accepted: &Accepted,
    options: StreamOptions,
) -> Result<FlowPlan, AllocError>
    ensures { IfOk result (IsPlanOf accepted.now options) }
{
    let sources = sources_of(alloc, accepted.graph())?;
    let sinks = sinks_of(alloc, accepted.graph())?;
    let usual = usual_length(accepted, &sources, options.segment);
    let last = last_length(accepted, &sources, usual);
    Ok(FlowPlan {
        sources,
        sinks,
        workers: options.workers,
        format: options.format,
        usual,
        last,
    })
}

/// What a stream goes on with from segment to segment.
#[derive(Drop)]
struct Buffers {
    /// The reader of each source, in file order.
    readers: Vec<Reader>,
    /// The tokens for each actor.
    feeds: Vec<Vec<i32>>,
    /// Of each sink, in file order, how many of its tokens are none of the format.
    clipped: Vec<u64>,
}

/// A reader for each source, of which nothing was read.
fn readers_for(
    alloc: Global,
    sources: usize,
    format: TokenFormat,
) -> Result<Vec<Reader>, AllocError>
    ensures { IfOk result (λ readers. readers.items ≡ replicate sources (fresh format)) }
{
    let mut readers = Vec::new(alloc);
    for made in 0..sources {
        readers.push(Reader::new(alloc, format)?)?;
    }
    Ok(readers)
}

/// No tokens for each of so many actors.
fn no_feeds(alloc: Global, actors: usize) -> Result<Vec<Vec<i32>>, AllocError>
    ensures many { IfOk result (λ feeds. length feeds.items ≡ actors) }
    ensures none { IfOk result (λ feeds. IsNoneFed (feeds_in feeds.items)) }
{
    let mut feeds = Vec::new(alloc);
    for made in 0..actors {
        feeds.push(Vec::new(alloc))?;
    }
    Ok(feeds)
}

/// What a stream begins with.
///
/// The error says that memory ran out.
fn buffers_for(alloc: Global, plan: &FlowPlan, actors: usize) -> Result<Buffers, AllocError>
    ensures readers { IfOk result (λ b. b.readers.items ≡ replicate (length plan.now.sources.items) (fresh plan.now.format)) }
    ensures feeds { IfOk result (λ b. length b.feeds.items ≡ actors) }
    ensures none { IfOk result (λ b. IsNoneFed (feeds_in b.feeds.items)) }
    ensures clipped { IfOk result (λ b. b.clipped.items ≡ replicate (length plan.now.sinks.items) 0) }
{
    let readers = readers_for(alloc, plan.sources.len(), plan.format)?;
    let feeds = no_feeds(alloc, actors)?;
    let clipped = vec![in alloc; 0; plan.sinks.len()];
    Ok(Buffers {
        readers,
        feeds,
        clipped: clipped?,
    })
}

/// Takes all tokens out of the lists.
fn clear(feeds: &mut [Vec<i32>])
    ensures many { length feeds.new ≡ length feeds.old }
    ensures none { IsNoneFed (feeds_in feeds.new) }
{
    for actor in 0..feeds.len() {
        feeds[actor].clear();
    }
}

/// So many periods, or those that are left where these are fewer.
fn at_most(periods: u32, left: Option<u32>) -> u32
    ensures { result ≡ shortest periods left }
{
    match left {
        Some(left) => periods.min(left),
        None => periods,
    }
}

/// Reads the tokens of the next segment, and answers how many periods it has: as many as usual; or more
/// where a source has run dry, so that the other sources go as far as they can.
fn read_segment<R: Wait, I: Intake>(
    rt: &R,
    accepted: &Accepted,
    plan: &FlowPlan,
    left: Option<u32>,
    readers: &mut [Reader],
    intakes: &mut [I],
    feeds: &mut [Vec<i32>],
) -> Result<u32, StreamFault>
    requires plan { IsReady accepted.now plan.now }
    requires left { IfSome left (λ n. 1 ≤ n) }
    requires readers { length readers.old ≡ length plan.now.sources.items }
    requires intakes { length intakes.old ≡ length plan.now.sources.items }
    requires fed { AreFeeds accepted.now.graph (feeds_in feeds.old) }
    ensures many { (length readers.new ≡ length readers.old) × (length intakes.new ≡ length intakes.old) × (length feeds.new ≡ length feeds.old) }
    ensures fed { AreFeeds accepted.now.graph (feeds_in feeds.new) }
    ensures read { AreRead plan.now.sources.items readers.old readers.new (map I.left intakes.old) (map I.left intakes.new) (feeds_in feeds.old) (feeds_in feeds.new) }
    ensures segment { IfOk result (IsSegmentOf accepted.now plan.now left) }
    ensures full { IfOk result (λ periods. AreFull accepted.now periods plan.now.sources.items readers.new (map I.left intakes.new) (feeds_in feeds.new)) }
    ensures unfed { IfErr result (IsUnfedBy accepted.now plan.now readers.new (map I.left intakes.new)) }
    ensures marked { IfErr result (IsReadMarked plan.now.sources.items (map I.failed intakes.new)) }
{
    let usual = at_most(plan.usual, left);
    fill_feeds(rt, accepted, usual, &plan.sources, readers, intakes, feeds)?;
    if are_exact(accepted, feeds, usual) {
        return Ok(usual);
    }
    let last = at_most(plan.last, left);
    fill_feeds(rt, accepted, last, &plan.sources, readers, intakes, feeds)?;
    Ok(last)
}

/// A stream on its way.
#[derive(Drop)]
struct Flow {
    stream: Stream,
    buffers: Buffers,
    /// How many periods are left, where there is a number of them.
    left: Option<u32>,
}

impl Flow {
    /// Whether no segment follows.
    fn is_done(&self) -> bool
        ensures { IsTrue result ↔ ((self.now.stream.is_over ≡ true) ⊎ (self.now.left ≡ Some 0)) }
    {
        self.stream.is_over() || self.left == Some(0)
    }
}

/// How many periods are left after so many.
fn without(left: Option<u32>, periods: u32) -> Option<u32>
    ensures { result ≡ left_after left periods }
{
    match left {
        Some(left) => Some(left.saturating_sub(periods)),
        None => None,
    }
}

/// Runs a segment whose tokens were read, and writes what its sinks took.
fn run_segment<R: Threads + Wait + Sync, O: Outlet, W: Watch>(
    rt: &R,
    alloc: Global,
    plan: &FlowPlan,
    flow: Flow,
    periods: u32,
    outlets: &mut [O],
    watch: &W,
) -> (Flow, Result<Part, StreamFault>)
    requires goes_on { flow.stream.is_over ≡ false }
    requires plan { IsReady flow.stream.accepted plan.now }
    requires segment { IsSegmentOf flow.stream.accepted plan.now flow.left periods }
    requires buffers { AreBuffersFor flow.stream.accepted plan.now flow.buffers }
    requires outlets { length outlets.old ≡ length plan.now.sinks.items }
    ensures many { length outlets.new ≡ length outlets.old }
    ensures readers { result.0.buffers.readers ≡ flow.buffers.readers }
    ensures runs { IfOk result.1 (HasRun plan.now flow result.0 periods (map O.written outlets.old) (map O.written outlets.new)) }
    ensures stops { IfErr result.1 (HasNotRun plan.now flow result.0 periods (map O.written outlets.old) (map O.written outlets.new)) }
    ensures marked { (ins : List Bool) → IfErr result.1 (IsMarked plan.now.sources.items plan.now.sinks.items ins (map O.failed outlets.new)) }
{
    let Flow {
        stream,
        buffers,
        left,
    } = flow;
    let Buffers {
        readers,
        feeds,
        mut clipped,
    } = buffers;
    let Stretch {
        stream,
        feeds,
        part,
    } = stream.segment(Host { rt, alloc }, feeds, plan.workers, periods, watch);
    let part = match part {
        Ok(part) => part,
        Err(fault) => {
            let buffers = Buffers {
                readers,
                feeds,
                clipped,
            };
            let flow = Flow {
                stream,
                buffers,
                left,
            };
            return (flow, Err(StreamFault::Run(fault)));
        }
    };
    let written = write_sinks(plan.format, &plan.sinks, &part.sinks, outlets, &mut clipped);
    let buffers = Buffers {
        readers,
        feeds,
        clipped,
    };
    let left = without(left, periods);
    let flow = Flow {
        stream,
        buffers,
        left,
    };
    match written {
        Ok(()) => (flow, Ok(part)),
        Err(sink) => (flow, Err(StreamFault::Sink(sink))),
    }
}

/// Makes a segment: reads its tokens, runs it, and writes what its sinks took.
fn advance<R: Threads + Wait + Sync, I: Intake, O: Outlet, W: Watch>(
    rt: &R,
    alloc: Global,
    plan: &FlowPlan,
    flow: Flow,
    intakes: &mut [I],
    outlets: &mut [O],
    watch: &W,
) -> (Flow, Result<Part, StreamFault>)
    requires goes_on { flow.stream.is_over ≡ false }
    requires plan { IsReady flow.stream.accepted plan.now }
    requires left { IfSome flow.left (λ n. 1 ≤ n) }
    requires buffers { AreBuffersFor flow.stream.accepted plan.now flow.buffers }
    requires intakes { length intakes.old ≡ length plan.now.sources.items }
    requires outlets { length outlets.old ≡ length plan.now.sinks.items }
    ensures many { (length intakes.new ≡ length intakes.old) × (length outlets.new ≡ length outlets.old) }
    ensures goes_on { IfOk result.1 (GoesOnTo plan.now flow result.0 (devices (map I.left intakes.old) (map I.left intakes.new)
        (map O.written outlets.old) (map O.written outlets.new))) }
    ensures stops { IfErr result.1 (StopsAt plan.now flow result.0 (devices (map I.left intakes.old) (map I.left intakes.new)
        (map O.written outlets.old) (map O.written outlets.new))) }
    ensures marked { IfErr result.1 (IsMarked plan.now.sources.items plan.now.sinks.items (map I.failed intakes.new) (map O.failed outlets.new)) }
{
    let Flow {
        stream,
        mut buffers,
        left,
    } = flow;
    clear(&mut buffers.feeds);
    let read = read_segment(
        rt,
        stream.accepted(),
        plan,
        left,
        &mut buffers.readers,
        intakes,
        &mut buffers.feeds,
    );
    let flow = Flow {
        stream,
        buffers,
        left,
    };
    match read {
        Ok(periods) => run_segment(rt, alloc, plan, flow, periods, outlets, watch),
        Err(fault) => (flow, Err(fault)),
    }
}

/// The end of a stream after its last segment.
fn finish(flow: Flow, part: Part) -> StreamRun
    ensures stream { result.stream ≡ flow.stream }
    ensures end { IfOk result.end (λ end. (end.ending ≡ part.ending) × (end.report ≡ part.report) × (end.clipped ≡ flow.buffers.clipped)) }
    ensures ends { OnErr result.end ⊥ }
{
    let Flow {
        stream,
        buffers,
        left: _,
    } = flow;
    let end = StreamEnd {
        ending: part.ending,
        report: part.report,
        clipped: buffers.clipped,
    };
    StreamRun {
        stream,
        end: Ok(end),
    }
}

/// The flow of a stream of which nothing has run, or the stream where memory ran out.
fn flow_of(
    alloc: Global,
    plan: &FlowPlan,
    stream: Stream,
    left: Option<u32>,
) -> Result<Flow, Stream>
    ensures flow { IfOk result (λ flow. (flow.stream ≡ stream) × (flow.left ≡ left)
        × (flow.buffers.readers.items ≡ replicate (length plan.now.sources.items) (fresh plan.now.format))
        × (length flow.buffers.feeds.items ≡ length stream.accepted.graph.actors) × IsNoneFed (feeds_in flow.buffers.feeds.items)
        × (flow.buffers.clipped.items ≡ replicate (length plan.now.sinks.items) 0)) }
    ensures back { IfErr result (λ back. back ≡ stream) }
{
    let actors = stream.accepted().graph().actors().len();
    match buffers_for(alloc, plan, actors) {
        Ok(buffers) => Ok(Flow {
            stream,
            buffers,
            left,
        }),
        Err(AllocError) => Err(stream),
    }
}

/// Runs a stream of which nothing has run, segment after segment, until none follows or there is a fault.
fn run_new<R: Threads + Wait + Sync, I: Intake, O: Outlet, W: Watch>(
    rt: &R,
    alloc: Global,
    stream: Stream,
    options: StreamOptions,
    intakes: &mut [I],
    outlets: &mut [O],
    watch: &W,
) -> StreamRun
    requires goes_on { stream.is_over ≡ false }
    requires new { StandsAfter stream.accepted [] stream }
    requires intakes { length intakes.old ≡ length (sources_in stream.accepted.graph) }
    requires outlets { length outlets.old ≡ length (sinks_in stream.accepted.graph) }
    ensures streamed { IfOk result.end (IsStreamed stream.accepted options.format options.periods result.stream
        (devices (map I.left intakes.old) (map I.left intakes.new) (map O.written outlets.old) (map O.written outlets.new))) }
    ensures stopped { IfErr result.end (IsStopped stream.accepted options.format options.workers
        (devices (map I.left intakes.old) (map I.left intakes.new) (map O.written outlets.old) (map O.written outlets.new))) }
    ensures marked { IfErr result.end (IsMarked (sources_in stream.accepted.graph) (sinks_in stream.accepted.graph)
        (map I.failed intakes.new) (map O.failed outlets.new)) }
    ensures alike { IsAlike stream.accepted result.stream.accepted }
{
    let plan = match plan_of(alloc, stream.accepted(), options) {
        Ok(plan) => plan,
        Err(AllocError) => {
            return StreamRun {
                stream,
                end: Err(StreamFault::Memory),
            };
        }
    };
    let mut flow = match flow_of(alloc, &plan, stream, options.periods) {
        Ok(flow) => flow,
        Err(stream) => {
            return StreamRun {
                stream,
                end: Err(StreamFault::Memory),
            };
        }
    };
    for _ in rt.forever() {
        let (next, answer) = advance(rt, alloc, &plan, flow, intakes, outlets, watch);
        match answer {
            Ok(part) => {
                if next.is_done() {
                    return finish(next, part);
                }
                flow = next;
            }
            Err(fault) => {
                return StreamRun {
                    stream: next.stream,
                    end: Err(fault),
                };
            }
        }
    }
    unreachable!()
}

/// Runs an accepted graph over a stream: segment after segment over the tokens that come from the
/// devices of its sources, one for each in file order, each segment's tokens written to the devices of its
/// sinks, one for each in file order, before those of the next one are waited for.
///
/// It ends complete after the periods that are asked for, or dry where a source has too few tokens for its
/// next firing, with all that can be made of what there was; or starved where cells are too few. What the
/// sinks' devices have is a front of what the sinks take in one long run over all tokens that were read
/// (Kahn 1974), and it is the same where the stream ends complete or dry. The number of workers and the
/// length of segments do not show.
///
/// A fault ends it. Then each sink's device has the tokens of all segments before; where a sink's device
/// failed, beginnings of those of one segment more.
///
/// An error says that memory ran out before anything was read.
pub fn run_stream<R: Threads + Wait + Sync, I: Intake, O: Outlet, W: Watch>(
    rt: &R,
    alloc: Global,
    accepted: Accepted,
    options: StreamOptions,
    intakes: &mut [I],
    outlets: &mut [O],
    watch: &W,
) -> Result<StreamRun, AllocError>
    requires intakes { length intakes.old ≡ length (sources_in accepted.graph) }
    requires outlets { length outlets.old ≡ length (sinks_in accepted.graph) }
    ensures streamed { IfOk result (λ run. IfOk run.end (IsStreamed accepted options.format options.periods run.stream
        (devices (map I.left intakes.old) (map I.left intakes.new) (map O.written outlets.old) (map O.written outlets.new)))) }
    ensures stopped { IfOk result (λ run. IfErr run.end (IsStopped accepted options.format options.workers
        (devices (map I.left intakes.old) (map I.left intakes.new) (map O.written outlets.old) (map O.written outlets.new)))) }
    ensures marked { IfOk result (λ run. IfErr run.end (IsMarked (sources_in accepted.graph) (sinks_in accepted.graph)
        (map I.failed intakes.new) (map O.failed outlets.new))) }
    ensures alike { IfOk result (λ run. IsAlike accepted run.stream.accepted) }
    ensures unread { OnErr result ((intakes.new ≡ intakes.old) × (outlets.new ≡ outlets.old)) }
{
    // Called for the prover: what the graph keeps.
    let _ = accepted.graph();
    let stream = Stream::new(alloc, accepted)?;
    Ok(run_new(rt, alloc, stream, options, intakes, outlets, watch))
}
