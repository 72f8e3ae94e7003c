//! The answers to questions and the faults as JSON objects, each on a line.

ghost use Rattle.std.specs.Prelude.{◌≡◌, ◌++◌, codes, length, map, string_bytes, IfOk, OnOk};
ghost use Rattle.std.specs.List.{enumerate_from};
ghost use Rattle.json.specs.Tree.{items_tokens, json_tokens};
ghost use Rattle.csdf_json.specs.Lines.{IsLineOf, number_tokens};
ghost use Rattle.csdf_model.specs.Graph.{actor_view, channel_view};
ghost use Rattle.csdf_answers.specs.Described.{actor_names};
ghost use Rattle.csdf_answers.specs.Faults.{fault_text, reason_text};
ghost use Rattle.csdf_answers.specs.Objects.{actor_items, actor_object, capacity_object, channel_items, channel_object, check_object, fault_object, firing_items, reason_object, repetition_object, schedule_object, TellsFault};
ghost use Rattle.csdf_answers.specs.Printed.{names_of, newline};

use crate::fault::{Reason, ToolFault};
use crate::question::Form;
use crate::repeated::Repeated;
use csdf_analysis::Accepted;
use csdf_json::{json_writer, line_of, open_list, put_flag, put_number, put_text};
use csdf_model::{Actor, Channel, actor_name};
use json::Writer;
use std::alloc::{AllocError, Global};

/// Appends the object of a consistent graph.
pub(crate) fn put_check(
    writer: &mut Writer,
    actors: usize,
    channels: usize,
) -> Result<(), AllocError>
    ensures tokens { OnOk result (writer.new.tokens ≡ writer.old.tokens ++ json_tokens (check_object actors channels)) }
    ensures before { writer.new.before ≡ writer.old.before }
{
    writer.begin_object()?;
    put_flag(writer, "consistent", true)?;
    put_number(writer, "actors", actors as u64)?;
    put_number(writer, "channels", channels as u64)?;
    writer.end_object()
}

/// Appends the object of an actor.
fn put_actor(writer: &mut Writer, name: &str, cycles: u32, firings: u32) -> Result<(), AllocError>
    ensures tokens { OnOk result (writer.new.tokens ≡ writer.old.tokens ++ json_tokens (actor_object name.now cycles firings)) }
    ensures before { writer.new.before ≡ writer.old.before }
{
    writer.begin_object()?;
    put_text(writer, "actor", name)?;
    put_number(writer, "cycles", cycles as u64)?;
    put_number(writer, "firings", firings as u64)?;
    writer.end_object()
}

/// Appends the objects of all actors, and the end of their list.
fn put_actors(writer: &mut Writer, found: &Repeated) -> Result<(), AllocError>
    ensures tokens { OnOk result (writer.new.tokens ≡ writer.old.tokens ++ items_tokens (actor_items found.now.vector.r.items found.now.vector.q.items
        (enumerate_from 0 (actor_names found.now.graph.actors)))) }
    ensures before { writer.new.before ≡ writer.old.before }
{
    let actors = found.graph.actors();
    for (number, actor) in actors.iter().enumerate() {
        let name = actor.name.as_str();
        let cycles = found.vector.r[number];
        let firings = found.vector.q[number];
        put_actor(writer, name, cycles, firings)?;
    }
    writer.end_array()
}

/// Appends the object of the least vector.
pub(crate) fn put_repetition(writer: &mut Writer, found: &Repeated) -> Result<(), AllocError>
    ensures tokens { OnOk result (writer.new.tokens ≡ writer.old.tokens ++ json_tokens (repetition_object found.now.vector.r.items found.now.vector.q.items
        (enumerate_from 0 (actor_names found.now.graph.actors)))) }
    ensures before { writer.new.before ≡ writer.old.before }
{
    writer.begin_object()?;
    open_list(writer, "repetition")?;
    put_actors(writer, found)?;
    writer.end_object()
}

/// Appends the name of the actor of each firing, and the end of the list.
fn put_firings(writer: &mut Writer, actors: &[Actor], firings: &[u32]) -> Result<(), AllocError>
    ensures tokens { OnOk result (writer.new.tokens ≡ writer.old.tokens ++ items_tokens (firing_items (actor_names (map actor_view actors.now)) firings.now)) }
    ensures before { writer.new.before ≡ writer.old.before }
{
    for actor in firings {
        writer.string(actor_name(actors, *actor as usize))?;
    }
    writer.end_array()
}

/// Appends the object of a schedule.
pub(crate) fn put_schedule(
    writer: &mut Writer,
    actors: &[Actor],
    firings: &[u32],
) -> Result<(), AllocError>
    ensures tokens { OnOk result (writer.new.tokens ≡ writer.old.tokens ++ json_tokens (schedule_object (actor_names (map actor_view actors.now)) firings.now)) }
    ensures before { writer.new.before ≡ writer.old.before }
{
    writer.begin_object()?;
    open_list(writer, "schedule")?;
    put_firings(writer, actors, firings)?;
    writer.end_object()
}

/// Appends the object of a channel.
fn put_channel(writer: &mut Writer, name: &str, capacity: u32) -> Result<(), AllocError>
    ensures tokens { OnOk result (writer.new.tokens ≡ writer.old.tokens ++ json_tokens (channel_object name.now capacity)) }
    ensures before { writer.new.before ≡ writer.old.before }
{
    writer.begin_object()?;
    put_text(writer, "channel", name)?;
    put_number(writer, "capacity", capacity as u64)?;
    writer.end_object()
}

/// Appends the objects of all channels, and the end of their list.
fn put_channels(
    writer: &mut Writer,
    channels: &[Channel],
    capacities: &[u32],
) -> Result<(), AllocError>
    requires { length capacities.now ≡ length channels.now }
    ensures tokens { OnOk result (writer.new.tokens ≡ writer.old.tokens ++ items_tokens (channel_items capacities.now
        (enumerate_from 0 (names_of (map channel_view channels.now))))) }
    ensures before { writer.new.before ≡ writer.old.before }
{
    for (number, channel) in channels.iter().enumerate() {
        let name = channel.name.as_str();
        let capacity = capacities[number];
        put_channel(writer, name, capacity)?;
    }
    writer.end_array()
}

/// Appends the number of cells.
fn put_cells(writer: &mut Writer, cells: u32) -> Result<(), AllocError>
    ensures tokens { OnOk result (writer.new.tokens ≡ writer.old.tokens ++ number_tokens (codes "cells") cells) }
    ensures before { writer.new.before ≡ writer.old.before }
{
    put_number(writer, "cells", cells as u64)
}

/// Appends the object of the capacities.
pub(crate) fn put_capacities(writer: &mut Writer, accepted: &Accepted) -> Result<(), AllocError>
    ensures tokens { OnOk result (writer.new.tokens ≡ writer.old.tokens ++ json_tokens (capacity_object accepted.now)) }
    ensures before { writer.new.before ≡ writer.old.before }
{
    writer.begin_object()?;
    open_list(writer, "capacities")?;
    put_channels(writer, accepted.graph().channels(), accepted.capacities())?;
    put_cells(writer, accepted.cells())?;
    writer.end_object()
}

/// Appends the object of a reason and an exit status.
fn put_reason(writer: &mut Writer, reason: &str, status: u8) -> Result<(), AllocError>
    ensures tokens { OnOk result (writer.new.tokens ≡ writer.old.tokens ++ json_tokens (reason_object reason.now status)) }
    ensures before { writer.new.before ≡ writer.old.before }
{
    writer.begin_object()?;
    put_text(writer, "fault", reason)?;
    put_number(writer, "status", status as u64)?;
    writer.end_object()
}

/// A reason and an exit status.
fn reason_object(alloc: Global, reason: &str, status: u8) -> Result<Vec<u8>, AllocError>
    ensures { IfOk result (λ line. IsLineOf (reason_object reason.now status) line.items) }
{
    let mut writer = json_writer(alloc);
    put_reason(&mut writer, reason, status)?;
    line_of(writer)
}

/// The reason of a fault in memory of its own.
fn reason_of(alloc: Global, fault: &ToolFault) -> Result<String, AllocError>
    ensures { IfOk result (λ text. string_bytes text ≡ reason_text fault.now) }
{
    let mut text = String::new(alloc);
    let reason = Reason(fault);
    write!(text, "{reason}")?;
    Ok(text)
}

/// The object of a fault.
fn fault_object(alloc: Global, fault: &ToolFault) -> Result<Vec<u8>, AllocError>
    ensures { IfOk result (λ line. IsLineOf (fault_object fault.now) line.items) }
{
    let reason = reason_of(alloc, fault)?;
    reason_object(alloc, reason.as_str(), fault.status())
}

/// The line of a fault.
fn text_line(alloc: Global, fault: &ToolFault) -> Result<Vec<u8>, AllocError>
    ensures { IfOk result (λ line. line.items ≡ fault_text fault.now ++ newline) }
{
    let mut line = String::new(alloc);
    write!(line, "{fault}\n")?;
    Ok(line.into_bytes())
}

/// What tells a fault in a form: its line, or its object on a line.
///
/// The error is want of memory.
pub fn fault_line(alloc: Global, form: Form, fault: &ToolFault) -> Result<Vec<u8>, AllocError>
    ensures { IfOk result (λ line. TellsFault form fault.now line.items) }
{
    match form {
        Form::Text => text_line(alloc, fault),
        Form::Json => fault_object(alloc, fault),
    }
}

/// What tells want of memory in a form. It takes none.
pub fn memory_line(form: Form) -> &'static str
    ensures { TellsFault form ToolFault.Memory result.now }
{
    match form {
        Form::Text => "csdf: memory\n",
        Form::Json => "{\"fault\":\"memory\",\"status\":3}\n",
    }
}
