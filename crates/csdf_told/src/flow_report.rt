//! The report of a stream in a form.

ghost use Rattle.std.specs.Prelude.{◌≡◌, ◌++◌, codes, map, IfOk, OnOk};
ghost use Rattle.std.specs.List.{enumerate_from};
ghost use Rattle.json.specs.Tree.{items_tokens, json_tokens};
ghost use Rattle.csdf_json.specs.Lines.{IsLineOf, flag_tokens, list_tokens, number_tokens};
ghost use Rattle.csdf_model.specs.Graph.{actor_view, channel_view};
ghost use Rattle.csdf_stream.specs.Ports.{sinks_in};
ghost use Rattle.csdf_stream.specs.Printed.{actor_names, clipped_at, names_of, total_at};
ghost use Rattle.csdf_told.specs.Reports.{TellsStream, clipped_items, clipped_object, flow_channel_object, flow_items, stream_object};

use csdf_answers::Form;
use csdf_floor::{ChannelReport, ending_word};
use csdf_json::{json_writer, line_of, open_list, put_flag, put_number, put_text};
use csdf_model::{Actor, Channel, Graph, actor_name, channel_name};
use csdf_run::ChannelTotal;
use csdf_stream::{StreamEnd, printed_stream, sinks_of};
use json::Writer;
use std::alloc::{AllocError, Global};

/// The total with this number; that of no tokens where there is none.
fn total_at(totals: &[ChannelTotal], number: usize) -> ChannelTotal
    ensures { result ≡ total_at totals.now number }
{
    match totals.get(number) {
        Some(total) => *total,
        None => ChannelTotal {
            written: 0,
            taken: 0,
            peak: 0,
        },
    }
}

/// How many tokens the sink in this place clipped; none where nothing is told of it.
fn clipped_at(counts: &[u64], place: usize) -> u64
    ensures { result ≡ clipped_at counts.now place }
{
    match counts.get(place) {
        Some(count) => *count,
        None => 0,
    }
}

/// Appends how many tokens were written to a channel and taken from it in all segments, and left in it.
fn put_tokens(
    writer: &mut Writer,
    total: &ChannelTotal,
    report: &ChannelReport,
) -> Result<(), AllocError>
    ensures tokens { OnOk result (writer.new.tokens ≡ writer.old.tokens ++ (number_tokens (codes "written") total.now.written
        ++ (number_tokens (codes "taken") total.now.taken ++ number_tokens (codes "held") report.now.held))) }
    ensures before { writer.new.before ≡ writer.old.before }
{
    put_number(writer, "written", total.written)?;
    put_number(writer, "taken", total.taken)?;
    put_number(writer, "held", report.held as u64)
}

/// Appends the greatest length of a channel in all segments, its capacity, and whether it is open.
fn put_room(
    writer: &mut Writer,
    total: &ChannelTotal,
    report: &ChannelReport,
) -> Result<(), AllocError>
    ensures tokens { OnOk result (writer.new.tokens ≡ writer.old.tokens ++ (number_tokens (codes "peak") total.now.peak
        ++ (number_tokens (codes "capacity") report.now.capacity ++ flag_tokens (codes "open") report.now.is_open))) }
    ensures before { writer.new.before ≡ writer.old.before }
{
    put_number(writer, "peak", total.peak as u64)?;
    put_number(writer, "capacity", report.capacity as u64)?;
    put_flag(writer, "open", report.is_open)
}

/// Appends the object of a channel.
fn put_channel(
    writer: &mut Writer,
    name: &str,
    total: &ChannelTotal,
    report: &ChannelReport,
) -> Result<(), AllocError>
    ensures tokens { OnOk result (writer.new.tokens ≡ writer.old.tokens ++ json_tokens (flow_channel_object name.now total.now report.now)) }
    ensures before { writer.new.before ≡ writer.old.before }
{
    writer.begin_object()?;
    put_text(writer, "channel", name)?;
    put_tokens(writer, total, report)?;
    put_room(writer, total, report)?;
    writer.end_object()
}

/// Appends the objects of all channels, and the end of their list.
fn put_channels(
    writer: &mut Writer,
    channels: &[Channel],
    totals: &[ChannelTotal],
    reports: &[ChannelReport],
) -> Result<(), AllocError>
    ensures tokens { OnOk result (writer.new.tokens ≡ writer.old.tokens ++ items_tokens (flow_items (names_of (map channel_view channels.now)) totals.now
        (enumerate_from 0 reports.now))) }
    ensures before { writer.new.before ≡ writer.old.before }
{
    for (number, report) in reports.iter().enumerate() {
        let name = channel_name(channels, number);
        let total = total_at(totals, number);
        put_channel(writer, name, &total, report)?;
    }
    writer.end_array()
}

/// Appends the list of all channels.
fn put_channel_list(
    writer: &mut Writer,
    channels: &[Channel],
    totals: &[ChannelTotal],
    reports: &[ChannelReport],
) -> Result<(), AllocError>
    ensures tokens { OnOk result (writer.new.tokens ≡ writer.old.tokens ++ (list_tokens (codes "channels")
        ++ items_tokens (flow_items (names_of (map channel_view channels.now)) totals.now (enumerate_from 0 reports.now)))) }
    ensures before { writer.new.before ≡ writer.old.before }
{
    open_list(writer, "channels")?;
    put_channels(writer, channels, totals, reports)
}

/// Appends the object of a sink: how many of its tokens are none of the format.
fn put_clipped(writer: &mut Writer, name: &str, count: u64) -> Result<(), AllocError>
    ensures tokens { OnOk result (writer.new.tokens ≡ writer.old.tokens ++ json_tokens (clipped_object name.now count)) }
    ensures before { writer.new.before ≡ writer.old.before }
{
    writer.begin_object()?;
    put_text(writer, "sink", name)?;
    put_number(writer, "tokens", count)?;
    writer.end_object()
}

/// Appends the objects of all sinks, by their numbers, and the end of their list.
fn put_all_clipped(
    writer: &mut Writer,
    actors: &[Actor],
    sinks: &[u32],
    counts: &[u64],
) -> Result<(), AllocError>
    ensures tokens { OnOk result (writer.new.tokens ≡ writer.old.tokens ++ items_tokens (clipped_items (actor_names (map actor_view actors.now)) counts.now
        (enumerate_from 0 sinks.now))) }
    ensures before { writer.new.before ≡ writer.old.before }
{
    for (place, sink) in sinks.iter().enumerate() {
        let name = actor_name(actors, *sink as usize);
        put_clipped(writer, name, clipped_at(counts, place))?;
    }
    writer.end_array()
}

/// Appends the list of all sinks.
fn put_clipped_list(
    writer: &mut Writer,
    actors: &[Actor],
    sinks: &[u32],
    counts: &[u64],
) -> Result<(), AllocError>
    ensures tokens { OnOk result (writer.new.tokens ≡ writer.old.tokens ++ (list_tokens (codes "clipped")
        ++ items_tokens (clipped_items (actor_names (map actor_view actors.now)) counts.now (enumerate_from 0 sinks.now)))) }
    ensures before { writer.new.before ≡ writer.old.before }
{
    open_list(writer, "clipped")?;
    put_all_clipped(writer, actors, sinks, counts)
}

/// Appends the object of a stream, of which these are the sinks.
fn put_stream(
    writer: &mut Writer,
    graph: &Graph,
    sinks: &[u32],
    totals: &[ChannelTotal],
    end: &StreamEnd,
) -> Result<(), AllocError>
    requires { sinks.now ≡ sinks_in graph.now }
    ensures tokens { OnOk result (writer.new.tokens ≡ writer.old.tokens ++ json_tokens (stream_object graph.now totals.now end.now)) }
    ensures before { writer.new.before ≡ writer.old.before }
{
    writer.begin_object()?;
    put_text(writer, "ending", ending_word(end.ending))?;
    put_channel_list(writer, graph.channels(), totals, &end.report)?;
    put_clipped_list(writer, graph.actors(), sinks, &end.clipped)?;
    writer.end_object()
}

/// The report of a stream as an object on a line.
fn stream_object(
    alloc: Global,
    graph: &Graph,
    totals: &[ChannelTotal],
    end: &StreamEnd,
) -> Result<Vec<u8>, AllocError>
    ensures { IfOk result (λ line. IsLineOf (stream_object graph.now totals.now end.now) line.items) }
{
    let sinks = sinks_of(alloc, graph)?;
    let mut writer = json_writer(alloc);
    put_stream(&mut writer, graph, &sinks, totals, end)?;
    line_of(writer)
}

/// The report of a stream: its ending, what is told of each channel in file order, and how many tokens of
/// each sink were clipped.
///
/// The error is want of memory.
pub fn stream_report(
    alloc: Global,
    form: Form,
    graph: &Graph,
    totals: &[ChannelTotal],
    end: &StreamEnd,
) -> Result<Vec<u8>, AllocError>
    ensures { IfOk result (λ text. TellsStream form graph.now totals.now end.now text.items) }
{
    match form {
        Form::Text => Ok(printed_stream(alloc, graph, totals, end)?.into_bytes()),
        Form::Json => stream_object(alloc, graph, totals, end),
    }
}
