//! The printed report of a run.

ghost use Rattle.std.specs.Prelude.{◌≡◌, ◌++◌, codes, map, string_bytes, IfOk, OnOk};
ghost use Rattle.std.specs.Fmt.{decimal};
ghost use Rattle.std.specs.List.{enumerate_from};
ghost use Rattle.csdf_model.specs.Graph.{channel_view};
ghost use Rattle.csdf_floor.specs.Report.{ending_word, names_of, newline, report_line, report_lines, report_text, room_part, state_word, tokens_part};

use crate::ending::Ending;
use crate::outcome::{ChannelReport, Outcome};
use csdf_model::{Channel, Graph, channel_name};
use std::alloc::{AllocError, Global};

/// The word that a report has for an ending.
pub fn ending_word(ending: Ending) -> &'static str
    ensures { result.now ≡ ending_word ending }
{
    match ending {
        Ending::Complete => "complete",
        Ending::Stopped => "stopped",
        Ending::Starved => "starved",
        Ending::Dry => "dry",
    }
}

fn state_word(is_open: bool) -> &'static str
    ensures { result.now ≡ state_word is_open }
{
    if is_open { "open" } else { "closed" }
}

/// Appends a text.
fn push(text: &mut String, more: &str) -> Result<(), AllocError>
    ensures { OnOk result (string_bytes text.new ≡ string_bytes text.old ++ more.now) }
{
    text.push_str(more)
}

/// Appends a word and a number.
fn push_count(text: &mut String, word: &str, count: u32) -> Result<(), AllocError>
    ensures { OnOk result (string_bytes text.new ≡ string_bytes text.old ++ (word.now ++ decimal count)) }
{
    write!(text, "{word}{count}")
}

/// Appends how many tokens were written, taken and left.
fn push_tokens_part(text: &mut String, report: &ChannelReport) -> Result<(), AllocError>
    ensures { OnOk result (string_bytes text.new ≡ string_bytes text.old ++ tokens_part report.now) }
{
    push_count(text, " written ", report.written)?;
    push_count(text, " taken ", report.taken)?;
    push_count(text, " held ", report.held)
}

/// Appends the greatest length, the capacity, and whether the channel is open.
fn push_room_part(text: &mut String, report: &ChannelReport) -> Result<(), AllocError>
    ensures { OnOk result (string_bytes text.new ≡ string_bytes text.old ++ room_part report.now) }
{
    push_count(text, " peak ", report.peak)?;
    push_count(text, " capacity ", report.capacity)?;
    push(text, " ")?;
    push(text, state_word(report.is_open))
}

/// Appends the line of a channel.
fn push_line(text: &mut String, name: &str, report: &ChannelReport) -> Result<(), AllocError>
    ensures { OnOk result (string_bytes text.new ≡ string_bytes text.old ++ report_line name.now report.now) }
{
    push(text, name)?;
    push_tokens_part(text, report)?;
    push_room_part(text, report)?;
    push(text, "\n")
}

/// Appends the lines of all channels.
fn push_lines(
    text: &mut String,
    channels: &[Channel],
    reports: &[ChannelReport],
) -> Result<(), AllocError>
    ensures { OnOk result (string_bytes text.new ≡ string_bytes text.old
        ++ report_lines (names_of (map channel_view channels.now)) (enumerate_from 0 reports.now)) }
{
    for (number, report) in reports.iter().enumerate() {
        push_line(text, channel_name(channels, number), report)?;
    }
    Ok(())
}

/// The report of a run as a text: its ending, and a line for each channel of the graph in file order.
///
/// An error says that memory ran out.
pub fn printed_report(alloc: Global, graph: &Graph, outcome: &Outcome) -> Result<String, AllocError>
    ensures { IfOk result (λ text. string_bytes text ≡ report_text (names_of graph.now.channels) outcome.now.ending outcome.now.report.items) }
{
    let mut text = String::new(alloc);
    push(&mut text, "ending ")?;
    push(&mut text, ending_word(outcome.ending))?;
    push(&mut text, "\n")?;
    push_lines(&mut text, graph.channels(), outcome.report.as_slice())?;
    Ok(text)
}
