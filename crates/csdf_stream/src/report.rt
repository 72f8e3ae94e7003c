//! The printed report of a stream.

ghost use Rattle.std.specs.Prelude.{◌≡◌, ◌++◌, map, string_bytes, IfOk, OnOk};
ghost use Rattle.std.specs.Fmt.{decimal};
ghost use Rattle.std.specs.List.{enumerate_from};
ghost use Rattle.csdf_model.specs.Graph.{actor_view, channel_view};
ghost use Rattle.csdf_stream.specs.Printed.{actor_names, channel_line, channel_lines, clipped_at, clipped_line, clipped_lines, names_of, room_part, state_word, stream_report, tokens_part, total_at};

use crate::end::StreamEnd;
use crate::ports::sinks_of;
use csdf_floor::{ChannelReport, ending_word};
use csdf_model::{Actor, Channel, Graph, actor_name, channel_name};
use csdf_run::ChannelTotal;
use std::alloc::{AllocError, Global};

/// Appends a text.
fn push(text: &mut String, more: &str) -> Result<(), AllocError>
    ensures { OnOk result (string_bytes text.new ≡ string_bytes text.old ++ more.now) }
{
    text.push_str(more)
}

/// Appends a word and a number.
fn push_count(text: &mut String, word: &str, count: u64) -> Result<(), AllocError>
    ensures { OnOk result (string_bytes text.new ≡ string_bytes text.old ++ (word.now ++ decimal count)) }
{
    write!(text, "{word}{count}")
}

/// The word for whether a channel is open.
fn state_word(is_open: bool) -> &'static str
    ensures { result.now ≡ state_word is_open }
{
    if is_open { "open" } else { "closed" }
}

/// The total with this number; that of no tokens where there is none.
fn total_at(totals: &[ChannelTotal], number: usize) -> ChannelTotal
    ensures { result ≡ total_at totals.now number }
{
    match totals.get(number) {
        Some(total) => *total,
        None => ChannelTotal {
            written: 0,
            taken: 0,
            peak: 0,
        },
    }
}

/// Appends how many tokens were written and taken in all segments, and are left.
fn push_tokens_part(
    text: &mut String,
    total: &ChannelTotal,
    report: &ChannelReport,
) -> Result<(), AllocError>
    ensures { OnOk result (string_bytes text.new ≡ string_bytes text.old ++ tokens_part total.now report.now) }
{
    push_count(text, " written ", total.written)?;
    push_count(text, " taken ", total.taken)?;
    push_count(text, " held ", u64::from(report.held))
}

/// Appends the greatest length in all segments, the capacity, and whether the channel is open.
fn push_room_part(
    text: &mut String,
    total: &ChannelTotal,
    report: &ChannelReport,
) -> Result<(), AllocError>
    ensures { OnOk result (string_bytes text.new ≡ string_bytes text.old ++ room_part total.now report.now) }
{
    push_count(text, " peak ", u64::from(total.peak))?;
    push_count(text, " capacity ", u64::from(report.capacity))?;
    push(text, " ")?;
    push(text, state_word(report.is_open))
}

/// Appends the line of a channel.
fn push_channel(
    text: &mut String,
    name: &str,
    total: &ChannelTotal,
    report: &ChannelReport,
) -> Result<(), AllocError>
    ensures { OnOk result (string_bytes text.new ≡ string_bytes text.old ++ channel_line name.now total.now report.now) }
{
    push(text, name)?;
    push_tokens_part(text, total, report)?;
    push_room_part(text, total, report)?;
    push(text, "\n")
}

/// Appends the lines of all channels.
fn push_channels(
    text: &mut String,
    channels: &[Channel],
    totals: &[ChannelTotal],
    reports: &[ChannelReport],
) -> Result<(), AllocError>
    ensures { OnOk result (string_bytes text.new ≡ string_bytes text.old
        ++ channel_lines (names_of (map channel_view channels.now)) totals.now (enumerate_from 0 reports.now)) }
{
    for (number, report) in reports.iter().enumerate() {
        let name = channel_name(channels, number);
        let total = total_at(totals, number);
        push_channel(text, name, &total, report)?;
    }
    Ok(())
}

/// How many tokens the sink in this place clipped; none where nothing is told of it.
fn clipped_at(counts: &[u64], place: usize) -> u64
    ensures { result ≡ clipped_at counts.now place }
{
    match counts.get(place) {
        Some(count) => *count,
        None => 0,
    }
}

/// Appends the line of a sink, where it clipped.
fn push_clipped(text: &mut String, name: &str, count: u64) -> Result<(), AllocError>
    ensures { OnOk result (string_bytes text.new ≡ string_bytes text.old ++ clipped_line name.now count) }
{
    if count == 0 {
        return Ok(());
    }
    push(text, name)?;
    push_count(text, " clipped ", count)?;
    push(text, "\n")
}

/// Appends the lines of all sinks that clipped, by their numbers.
fn push_all_clipped(
    text: &mut String,
    actors: &[Actor],
    sinks: &[u32],
    counts: &[u64],
) -> Result<(), AllocError>
    ensures { OnOk result (string_bytes text.new ≡ string_bytes text.old
        ++ clipped_lines (actor_names (map actor_view actors.now)) counts.now (enumerate_from 0 sinks.now)) }
{
    for (place, sink) in sinks.iter().enumerate() {
        let name = actor_name(actors, *sink as usize);
        push_clipped(text, name, clipped_at(counts, place))?;
    }
    Ok(())
}

/// The report of a stream as a text: its ending, a line for each channel of the graph in file order,
/// with its total over all segments, and one for each sink that clipped.
///
/// An error says that memory ran out.
pub fn printed_stream(
    alloc: Global,
    graph: &Graph,
    totals: &[ChannelTotal],
    end: &StreamEnd,
) -> Result<String, AllocError>
    ensures { IfOk result (λ text. string_bytes text ≡ stream_report graph.now totals.now end.now) }
{
    let sinks = sinks_of(alloc, graph)?;
    let mut text = String::new(alloc);
    push(&mut text, "ending ")?;
    push(&mut text, ending_word(end.ending))?;
    push(&mut text, "\n")?;
    push_channels(&mut text, graph.channels(), totals, &end.report)?;
    push_all_clipped(&mut text, graph.actors(), &sinks, &end.clipped)?;
    Ok(text)
}
