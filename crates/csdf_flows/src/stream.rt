//! A stream of the graph of a file, from standard input to standard output or over the files of folders.

ghost use Rattle.std.specs.Prelude.{ℕ, List, ◌≡◌, ◌≢◌, ◌⊎◌, ◌<◌, ◌≤◌, ◌^◌, true, false, None, Err, length, map, is_none, IfErr, IfOk, OnErr, OnOk};
ghost use Rattle.std.specs.Mem.{type_size};
ghost use Rattle.csdf_analysis.specs.Acceptance.{IsAccepted, IsNotAccepted};
ghost use Rattle.csdf_analysis.specs.Room.{IsWithRoom};
ghost use Rattle.csdf_analysis.specs.declared.fault.AcceptFault.{AcceptFault as AcceptFaultModel};
ghost use Rattle.csdf_answers.specs.Faults.{accept_fault};
ghost use Rattle.csdf_answers.specs.Printed.{names_of};
ghost use Rattle.csdf_stream.specs.Flowing.{Devices as Flow, devices as flow};
ghost use Rattle.csdf_stream.specs.Ports.{sinks_in, sources_in};
ghost use Rattle.csdf_words.specs.CommandLine.{folders_view, stream_view};
ghost use Rattle.csdf_disk.specs.Acts.{Asks, devices, marks};
ghost use Rattle.csdf_flows.specs.Flows.{FlowsOverFiles, IsAcceptedOf, IsFlow, IsStoppedBy, RefusesStream, StopsFiles, StopsMade, StopsOnGraph, StopsOverFiles, StopsStandard};
ghost use Rattle.csdf_flows.specs.Flows.{StopsStream, Streams, StreamsFiles, StreamsStandard, count_of, flow_file_view, keeps, lack_by, lack_of, one_for, reads_graph, standard, standard_flow, through};
ghost use Rattle.csdf_files.specs.GraphFiles.{IsGivenBy, IsNotGiven, is_input};

use crate::flow_fault::{Medium, stream_fault};
use crate::flow_files::{
    FlowFile, give_up, keep_all, make_all, open_all, sink_files, source_files,
};
use csdf_analysis::{Accepted, accept_or_hand_back};
use csdf_answers::{DeviceName, Lack, ToolFault, accept_fault};
use csdf_bytes::{Intake, Outlet, write_bytes};
use csdf_disk::Disk;
use csdf_files::{graph_bytes, keep_sinks_apart};
use csdf_graph::read_graph;
use csdf_model::Graph;
use csdf_stream::{StreamOptions, StreamRun, run_stream, sinks_of, sources_of};
use csdf_told::{FlowProgress, chosen, stream_report, workers_of};
use csdf_words::{Folders, StreamWords};
use std::alloc::{AllocError, Global};
use std::sync::Wait;
use std::thread::Threads;
use std::{mem, slice};

/// What words lack for a graph of so many sources and sinks: without folders it has one of each at most, and
/// without sources it needs a number of periods.
fn lack_by(is_standard: bool, is_endless: bool, sources: usize, sinks: usize) -> Option<Lack>
    ensures { result ≡ lack_by is_standard is_endless sources sinks }
{
    if is_standard && sources > 1 {
        return Some(Lack::SourcesFolder);
    }
    if is_standard && sinks > 1 {
        return Some(Lack::SinksFolder);
    }
    if is_endless && sources == 0 {
        return Some(Lack::Periods);
    }
    None
}

/// What the words lack for this graph.
///
/// The error is want of memory.
fn lack_of(alloc: Global, order: StreamWords<'_>, graph: &Graph) -> Result<Option<Lack>, AllocError>
    ensures { IfOk result (λ lack. lack ≡ lack_of (stream_view order.entry) graph.now) }
{
    let sources = sources_of(alloc, graph)?;
    let sinks = sinks_of(alloc, graph)?;
    Ok(lack_by(
        order.folders.is_none(),
        order.options.periods.is_none(),
        sources.len(),
        sinks.len(),
    ))
}

/// Accepts a graph with the room that is asked for.
fn accepted_in_room(
    alloc: Global,
    order: StreamWords<'_>,
    graph: Graph,
) -> Result<Accepted, ToolFault>
    ensures room { IfOk result (λ a. IsWithRoom order.entry.room a.q graph a.graph) }
    ensures accepted { IfOk result IsAccepted }
    ensures refused { IfErr result (λ fault. (fault ≡ ToolFault.Memory)
        ⊎ ((refusal : AcceptFaultModel) × IsNotAccepted graph refusal × (fault ≡ accept_fault (names_of graph.channels) refusal))) }
{
    match accept_or_hand_back(alloc, graph, order.room) {
        Ok(accepted) => Ok(accepted),
        Err(refused) => {
            let fault = accept_fault(alloc, &refused.graph, refused.fault)?;
            Err(fault)
        }
    }
}

/// The accepted graph of a graph file, which fits the words.
fn accepted_of(alloc: Global, order: StreamWords<'_>, bytes: &[u8]) -> Result<Accepted, ToolFault>
    ensures accepted { IfOk result (IsAcceptedOf (stream_view order.entry) bytes.now) }
    ensures refused { IfErr result (λ fault. (fault ≡ ToolFault.Memory) ⊎ RefusesStream (stream_view order.entry) bytes.now fault) }
{
    let graph = read_graph(alloc, bytes)?;
    if let Some(lack) = lack_of(alloc, order, &graph)? {
        return Err(ToolFault::Lacks(lack));
    }
    accepted_in_room(alloc, order, graph)
}

/// The accepted graph of the graph file that the words name.
fn accepted_by<D: Disk, I: Intake>(
    alloc: Global,
    disk: &mut D,
    order: StreamWords<'_>,
    reader: &mut I,
) -> Result<Accepted, ToolFault>
    ensures accepted { IfOk result (λ a. (bytes : List ℕ) × IsGivenBy order.entry.graph.now (devices (I.left reader.old) (D.acts disk.old) (D.acts disk.new)) bytes
        × IsAcceptedOf (stream_view order.entry) bytes a) }
    ensures refused { IfErr result (λ fault. IsNotGiven order.entry.graph.now (devices (I.left reader.old) (D.acts disk.old) (D.acts disk.new)) (I.failed reader.new) fault
        ⊎ StopsOnGraph (stream_view order.entry) (devices (I.left reader.old) (D.acts disk.old) (D.acts disk.new)) fault) }
    ensures input { is_input order.entry.graph.now ≡ true → I.failed reader.new ≡ true → result ≡ Err (ToolFault.Device DeviceName.Input) }
    ensures other { IfErr result (λ fault. fault ≢ ToolFault.Device DeviceName.Output) }
    ensures untouched { is_input order.entry.graph.now ≡ false → reader.new ≡ reader.old }
{
    let bytes = graph_bytes(alloc, disk, order.graph, reader)?;
    accepted_of(alloc, order, &bytes)
}

/// Runs a stream of an accepted graph over these devices, and answers its report.
fn flow_over<R: AllocGlobal + Eprint + Threads + Wait + Sync, I: Intake, O: Outlet>(
    rt: &R,
    accepted: Accepted,
    order: StreamWords<'_>,
    medium: Medium,
    intakes: &mut [I],
    outlets: &mut [O],
) -> Result<Vec<u8>, ToolFault>
    requires intakes { length intakes.old ≡ length (sources_in accepted.graph) }
    requires outlets { length outlets.old ≡ length (sinks_in accepted.graph) }
    ensures flows { IfOk result (λ report. IsFlow (stream_view order.entry) accepted
        (flow (map I.left intakes.old) (map I.left intakes.new) (map O.written outlets.old) (map O.written outlets.new)) report.items) }
    ensures stopped { IfErr result (λ fault. (fault ≡ ToolFault.Memory) ⊎ IsStoppedBy (stream_view order.entry) medium accepted
        (flow (map I.left intakes.old) (map I.left intakes.new) (map O.written outlets.old) (map O.written outlets.new))
        (map I.failed intakes.new) (map O.failed outlets.new) fault) }
{
    let alloc = rt.alloc();
    let workers = workers_of(rt, order.workers, &accepted);
    let crew = chosen(order.workers, workers);
    let progress = FlowProgress::begin(rt, order.progress, crew);
    let options = StreamOptions {
        workers,
        segment: order.options.segment,
        periods: order.options.periods,
        format: order.options.format,
    };
    let StreamRun { stream, end } = run_stream(
        rt, alloc, accepted, options, intakes, outlets, &progress,
    )?;
    progress.end();
    let graph = stream.accepted().graph();
    match end {
        Ok(end) => {
            let report = stream_report(alloc, order.form, graph, stream.totals(), &end)?;
            Ok(report)
        }
        Err(fault) => Err(stream_fault(alloc, medium, graph.actors(), fault)?),
    }
}

/// Whether a value takes fewer bytes than half of what a pointer reaches, as every value does: the prover is
/// told of no type that it does.
fn is_in_memory<T>(value: &T) -> bool
    ensures fits { result ≡ true → type_size T.row < 2 ^ 63 }
    ensures large { result ≡ false → 2 ^ 63 ≤ type_size T.row }
{
    mem::size_of_val(value) <= isize::MAX as usize
}

/// Runs a stream of an accepted graph, which has one source at most, from standard input to these devices.
fn flow_from_input<R: AllocGlobal + Eprint + Threads + Wait + Sync, I: Intake, O: Outlet>(
    rt: &R,
    accepted: Accepted,
    order: StreamWords<'_>,
    has_source: bool,
    reader: &mut I,
    outlets: &mut [O],
) -> Result<Vec<u8>, ToolFault>
    requires memory { type_size I.row < 2 ^ 63 }
    requires sources { length (sources_in accepted.graph) ≡ count_of has_source }
    requires outlets { length outlets.old ≡ length (sinks_in accepted.graph) }
    ensures flows { IfOk result (λ report. IsFlow (stream_view order.entry) accepted
        (flow (one_for (sources_in accepted.graph) (I.left reader.old)) (one_for (sources_in accepted.graph) (I.left reader.new))
        (map O.written outlets.old) (map O.written outlets.new)) report.items) }
    ensures stopped { IfErr result (λ fault. (fault ≡ ToolFault.Memory) ⊎ IsStoppedBy (stream_view order.entry) Medium.Standard accepted
        (flow (one_for (sources_in accepted.graph) (I.left reader.old)) (one_for (sources_in accepted.graph) (I.left reader.new))
        (map O.written outlets.old) (map O.written outlets.new))
        (one_for (sources_in accepted.graph) (I.failed reader.new)) (map O.failed outlets.new) fault) }
{
    if has_source {
        flow_over(
            rt,
            accepted,
            order,
            Medium::Standard,
            slice::from_mut(reader),
            outlets,
        )
    } else {
        flow_over::<R, I, O>(rt, accepted, order, Medium::Standard, &mut [], outlets)
    }
}

/// Runs a stream of an accepted graph, which has one source and one sink at most, from standard input to
/// standard output.
fn flow_in_memory<R: AllocGlobal + Eprint + Threads + Wait + Sync, I: Intake, O: Outlet>(
    rt: &R,
    accepted: Accepted,
    order: StreamWords<'_>,
    has_source: bool,
    has_sink: bool,
    reader: &mut I,
    out: &mut O,
) -> Result<Vec<u8>, ToolFault>
    requires memory_in { type_size I.row < 2 ^ 63 }
    requires memory_out { type_size O.row < 2 ^ 63 }
    requires sources { length (sources_in accepted.graph) ≡ count_of has_source }
    requires sinks { length (sinks_in accepted.graph) ≡ count_of has_sink }
    ensures flows { IfOk result (λ report. IsFlow (stream_view order.entry) accepted
        (standard_flow accepted.graph (I.left reader.old) (I.left reader.new) (O.written out.old) (O.written out.new)) report.items) }
    ensures stopped { IfErr result (λ fault. (fault ≡ ToolFault.Memory) ⊎ IsStoppedBy (stream_view order.entry) Medium.Standard accepted
        (standard_flow accepted.graph (I.left reader.old) (I.left reader.new) (O.written out.old) (O.written out.new))
        (one_for (sources_in accepted.graph) (I.failed reader.new)) (one_for (sinks_in accepted.graph) (O.failed out.new)) fault) }
{
    if has_sink {
        let outlets = slice::from_mut(out);
        flow_from_input(rt, accepted, order, has_source, reader, outlets)
    } else {
        flow_from_input::<R, I, O>(rt, accepted, order, has_source, reader, &mut [])
    }
}

/// Runs a stream of an accepted graph, which has one source and one sink at most, from standard input to
/// standard output, and answers its report.
fn flow_standard<R: AllocGlobal + Eprint + Threads + Wait + Sync, I: Intake, O: Outlet>(
    rt: &R,
    accepted: Accepted,
    order: StreamWords<'_>,
    reader: &mut I,
    out: &mut O,
) -> Result<Vec<u8>, ToolFault>
    requires sources { length (sources_in accepted.graph) ≤ 1 }
    requires sinks { length (sinks_in accepted.graph) ≤ 1 }
    ensures flows { IfOk result (λ report. IsFlow (stream_view order.entry) accepted
        (standard_flow accepted.graph (I.left reader.old) (I.left reader.new) (O.written out.old) (O.written out.new)) report.items) }
    ensures stopped { IfErr result (λ fault. (fault ≡ ToolFault.Memory) ⊎ IsStoppedBy (stream_view order.entry) Medium.Standard accepted
        (standard_flow accepted.graph (I.left reader.old) (I.left reader.new) (O.written out.old) (O.written out.new))
        (one_for (sources_in accepted.graph) (I.failed reader.new)) (one_for (sinks_in accepted.graph) (O.failed out.new)) fault) }
{
    let has_source = !sources_of(rt.alloc(), accepted.graph())?.is_empty();
    let has_sink = !sinks_of(rt.alloc(), accepted.graph())?.is_empty();
    if !is_in_memory(&*reader) || !is_in_memory(&*out) {
        return Err(ToolFault::Memory);
    }
    flow_in_memory(rt, accepted, order, has_source, has_sink, reader, out)
}

/// Runs a stream of an accepted graph over files that are open and made, puts those of the sinks in their
/// places, and answers its report. Where there is none, the sinks' files are given up.
fn flow_made<R: AllocGlobal + Eprint + Threads + Wait + Sync, D: Disk>(
    rt: &R,
    disk: &mut D,
    accepted: Accepted,
    order: StreamWords<'_>,
    sources: &mut [D::Source],
    files: &[FlowFile],
    sinks: &mut [D::Sink],
) -> Result<Vec<u8>, ToolFault>
    requires sources { length sources.old ≡ length (sources_in accepted.graph) }
    requires sinks { length sinks.old ≡ length (sinks_in accepted.graph) }
    requires files { length files.now ≡ length sinks.old }
    ensures flows { IfOk result (λ report. (d : Flow) × IsFlow (stream_view order.entry) accepted d report.items
        × Asks (D.acts disk.old) (D.acts disk.new) (keeps (map flow_file_view files.now) d.after)) }
    ensures stopped { IfErr result (StopsMade (stream_view order.entry) accepted (map flow_file_view files.now) (D.acts disk.old) (D.acts disk.new)) }
{
    match flow_over(rt, accepted, order, Medium::Files, sources, sinks) {
        Ok(report) => {
            keep_all(rt.alloc(), disk, files, sinks)?;
            Ok(report)
        }
        Err(fault) => {
            give_up(disk, files, sinks);
            Err(fault)
        }
    }
}

/// Runs a stream of an accepted graph over the files of folders, and answers its report.
fn flow_files<R: AllocGlobal + Eprint + Threads + Wait + Sync, D: Disk>(
    rt: &R,
    disk: &mut D,
    accepted: Accepted,
    order: StreamWords<'_>,
    folders: Folders<'_>,
) -> Result<Vec<u8>, ToolFault>
    ensures flows { IfOk result (λ report. FlowsOverFiles (stream_view order.entry) (folders_view folders.entry) accepted (D.acts disk.old) (D.acts disk.new) report.items) }
    ensures stopped { IfErr result (StopsFiles (stream_view order.entry) (folders_view folders.entry) accepted (D.acts disk.old) (D.acts disk.new)) }
{
    let alloc = rt.alloc();
    let actors = accepted.graph().actors();
    keep_sinks_apart(alloc, disk, folders.sinks, actors)?;
    let files_in = source_files(alloc, folders.sources, actors)?;
    let files_out = sink_files(alloc, folders.sinks, actors)?;
    let mut sources = open_all(alloc, disk, &files_in)?;
    let mut sinks = make_all(alloc, disk, &files_out)?;
    flow_made(
        rt,
        disk,
        accepted,
        order,
        &mut sources,
        &files_out,
        &mut sinks,
    )
}

/// Streams from standard input to standard output, and then writes the report to standard error. A failure of
/// standard error changes nothing.
fn stream_standard<
    R: AllocGlobal + Eprint + Threads + Wait + Sync,
    D: Disk,
    I: Intake,
    O: Outlet,
    E: Outlet,
>(
    rt: &R,
    disk: &mut D,
    order: StreamWords<'_>,
    reader: &mut I,
    out: &mut O,
    err: &mut E,
) -> Result<(), ToolFault>
    requires { order.folders ≡ None }
    ensures streamed { OnOk result (StreamsStandard (stream_view order.entry) (devices (I.left reader.old) (D.acts disk.old) (D.acts disk.new))
        (standard (I.left reader.old) (I.left reader.new) (O.written out.old) (O.written out.new) (E.written err.old) (E.written err.new) (E.failed err.new))) }
    ensures silent { OnErr result (err.new ≡ err.old) }
    ensures failed { result ≡ Err (ToolFault.Device DeviceName.Output) → O.failed out.new ≡ true }
    ensures stopped { IfErr result (StopsStandard (stream_view order.entry) (devices (I.left reader.old) (D.acts disk.old) (D.acts disk.new))
        (through (I.left reader.old) (I.left reader.new) (O.written out.old) (O.written out.new)) (marks (I.failed reader.new) (O.failed out.new))) }
{
    if order.graph == "-" {
        return Err(ToolFault::Lacks(Lack::GraphFile));
    }
    let accepted = accepted_by(rt.alloc(), disk, order, reader)?;
    let report = flow_standard(rt, accepted, order, reader, out)?;
    let _ = write_bytes(err, &report);
    Ok(())
}

/// Streams over the files of folders, and then writes the report to standard output.
fn stream_over_files<
    R: AllocGlobal + Eprint + Threads + Wait + Sync,
    D: Disk,
    I: Intake,
    O: Outlet,
>(
    rt: &R,
    disk: &mut D,
    order: StreamWords<'_>,
    folders: Folders<'_>,
    reader: &mut I,
    out: &mut O,
) -> Result<(), ToolFault>
    ensures streamed { OnOk result (StreamsFiles (stream_view order.entry) (folders_view folders.entry) (devices (I.left reader.old) (D.acts disk.old) (D.acts disk.new))
        (O.written out.old) (O.written out.new)) }
    ensures unwritten { IfErr result (λ fault. fault ≢ ToolFault.Device DeviceName.Output → out.new ≡ out.old) }
    ensures failed { result ≡ Err (ToolFault.Device DeviceName.Output) → O.failed out.new ≡ true }
    ensures stopped { IfErr result (λ fault. IsNotGiven order.entry.graph.now (devices (I.left reader.old) (D.acts disk.old) (D.acts disk.new)) (I.failed reader.new) fault
        ⊎ (StopsOnGraph (stream_view order.entry) (devices (I.left reader.old) (D.acts disk.old) (D.acts disk.new)) fault
        ⊎ StopsOverFiles (stream_view order.entry) (folders_view folders.entry) (devices (I.left reader.old) (D.acts disk.old) (D.acts disk.new))
        (marks (I.failed reader.new) (O.failed out.new)) fault)) }
    ensures input { is_input order.entry.graph.now ≡ true → I.failed reader.new ≡ true → result ≡ Err (ToolFault.Device DeviceName.Input) }
{
    let accepted = accepted_by(rt.alloc(), disk, order, reader)?;
    let report = flow_files(rt, disk, accepted, order, folders)?;
    match write_bytes(out, &report) {
        Ok(()) => Ok(()),
        Err(_) => Err(ToolFault::Device(DeviceName::Output)),
    }
}

/// Streams through the graph of a file, or of standard input: over the files of folders, where some are
/// named, and else from standard input to standard output.
pub fn stream_files<
    R: AllocGlobal + Eprint + Threads + Wait + Sync,
    D: Disk,
    I: Intake,
    O: Outlet,
    E: Outlet,
>(
    rt: &R,
    disk: &mut D,
    order: StreamWords<'_>,
    reader: &mut I,
    out: &mut O,
    err: &mut E,
) -> Result<(), ToolFault>
    ensures streamed { OnOk result (Streams (stream_view order.entry) (devices (I.left reader.old) (D.acts disk.old) (D.acts disk.new))
        (standard (I.left reader.old) (I.left reader.new) (O.written out.old) (O.written out.new) (E.written err.old) (E.written err.new) (E.failed err.new))) }
    ensures unwritten { is_none (stream_view order.entry).folders ≡ false → IfErr result (λ fault. fault ≢ ToolFault.Device DeviceName.Output → out.new ≡ out.old) }
    ensures silent { OnErr result (err.new ≡ err.old) }
    ensures unspoken { is_none (stream_view order.entry).folders ≡ false → err.new ≡ err.old }
    ensures failed { result ≡ Err (ToolFault.Device DeviceName.Output) → O.failed out.new ≡ true }
    ensures stopped { IfErr result (StopsStream (stream_view order.entry) (devices (I.left reader.old) (D.acts disk.old) (D.acts disk.new))
        (through (I.left reader.old) (I.left reader.new) (O.written out.old) (O.written out.new)) (marks (I.failed reader.new) (O.failed out.new))) }
    ensures input { reads_graph (stream_view order.entry) ≡ true → I.failed reader.new ≡ true → result ≡ Err (ToolFault.Device DeviceName.Input) }
{
    match order.folders {
        Some(folders) => stream_over_files(rt, disk, order, folders, reader, out),
        None => stream_standard(rt, disk, order, reader, out, err),
    }
}
