//! The report of a run as a JSON object on a line.

ghost use Rattle.std.specs.Prelude.{◌≡◌, ◌++◌, codes, map, IfOk, OnOk};
ghost use Rattle.std.specs.List.{enumerate_from};
ghost use Rattle.json.specs.Tree.{items_tokens, json_tokens};
ghost use Rattle.csdf_json.specs.Lines.{IsLineOf, flag_tokens, number_tokens};
ghost use Rattle.csdf_model.specs.Graph.{channel_view};
ghost use Rattle.csdf_floor.specs.Report.{names_of};
ghost use Rattle.csdf_told.specs.Reports.{channel_items, channel_object, report_object};

use csdf_floor::{ChannelReport, Ending, ending_word};
use csdf_json::{json_writer, line_of, open_list, put_flag, put_number, put_text};
use csdf_model::{Channel, Graph, channel_name};
use json::Writer;
use std::alloc::{AllocError, Global};

/// Appends how many tokens were written to a channel, taken from it and left in it.
fn put_tokens(writer: &mut Writer, report: &ChannelReport) -> Result<(), AllocError>
    ensures tokens { OnOk result (writer.new.tokens ≡ writer.old.tokens ++ (number_tokens (codes "written") report.now.written
        ++ (number_tokens (codes "taken") report.now.taken ++ number_tokens (codes "held") report.now.held))) }
    ensures before { writer.new.before ≡ writer.old.before }
{
    put_number(writer, "written", report.written as u64)?;
    put_number(writer, "taken", report.taken as u64)?;
    put_number(writer, "held", report.held as u64)
}

/// Appends the greatest length of a channel, its capacity, and whether it is open.
fn put_room(writer: &mut Writer, report: &ChannelReport) -> Result<(), AllocError>
    ensures tokens { OnOk result (writer.new.tokens ≡ writer.old.tokens ++ (number_tokens (codes "peak") report.now.peak
        ++ (number_tokens (codes "capacity") report.now.capacity ++ flag_tokens (codes "open") report.now.is_open))) }
    ensures before { writer.new.before ≡ writer.old.before }
{
    put_number(writer, "peak", report.peak as u64)?;
    put_number(writer, "capacity", report.capacity as u64)?;
    put_flag(writer, "open", report.is_open)
}

/// Appends the object of a channel.
fn put_channel(writer: &mut Writer, name: &str, report: &ChannelReport) -> Result<(), AllocError>
    ensures tokens { OnOk result (writer.new.tokens ≡ writer.old.tokens ++ json_tokens (channel_object name.now report.now)) }
    ensures before { writer.new.before ≡ writer.old.before }
{
    writer.begin_object()?;
    put_text(writer, "channel", name)?;
    put_tokens(writer, report)?;
    put_room(writer, report)?;
    writer.end_object()
}

/// Appends the objects of all channels, and the end of their list.
fn put_channels(
    writer: &mut Writer,
    channels: &[Channel],
    reports: &[ChannelReport],
) -> Result<(), AllocError>
    ensures tokens { OnOk result (writer.new.tokens ≡ writer.old.tokens ++ items_tokens (channel_items (names_of (map channel_view channels.now))
        (enumerate_from 0 reports.now))) }
    ensures before { writer.new.before ≡ writer.old.before }
{
    for (number, report) in reports.iter().enumerate() {
        put_channel(writer, channel_name(channels, number), report)?;
    }
    writer.end_array()
}

/// Appends the object of a report.
fn put_report(
    writer: &mut Writer,
    channels: &[Channel],
    ending: Ending,
    reports: &[ChannelReport],
) -> Result<(), AllocError>
    ensures tokens { OnOk result (writer.new.tokens ≡ writer.old.tokens
        ++ json_tokens (report_object (names_of (map channel_view channels.now)) ending reports.now)) }
    ensures before { writer.new.before ≡ writer.old.before }
{
    writer.begin_object()?;
    put_text(writer, "ending", ending_word(ending))?;
    open_list(writer, "channels")?;
    put_channels(writer, channels, reports)?;
    writer.end_object()
}

/// The report of a run as an object: its ending, and what is told of each channel in file order.
///
/// The error is want of memory.
pub fn report_object(
    alloc: Global,
    graph: &Graph,
    ending: Ending,
    reports: &[ChannelReport],
) -> Result<Vec<u8>, AllocError>
    ensures { IfOk result (λ line. IsLineOf (report_object (names_of graph.now.channels) ending reports.now) line.items) }
{
    let mut writer = json_writer(alloc);
    put_report(&mut writer, graph.channels(), ending, reports)?;
    line_of(writer)
}
