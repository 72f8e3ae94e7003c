//! A question about a graph file, from its bytes to its answer.

ghost use Rattle.std.specs.Prelude.{◌≡◌, ◌≢◌, ℕ, List, true, Ok, Err, IfErr, OnOk};
ghost use Rattle.std.specs.Io.KnownBytes.{Appends};
ghost use Rattle.csdf_analysis.specs.Room.{HasSomePeriod};
ghost use Rattle.csdf_answers.specs.Described.{IsDescription};
ghost use Rattle.csdf_answers.specs.Faults.{Tells};
ghost use Rattle.csdf_answers.specs.Objects.{IsDescriptionAs};
ghost use Rattle.csdf_answers.specs.declared.fault.DeviceName.{DeviceName};

use crate::answer::answer_to;
use crate::fault::ToolFault;
use crate::question::{Form, Question};
use crate::sending::send;
use csdf_analysis::Room;
use csdf_bytes::Outlet;
use csdf_graph::read_graph;
use std::alloc::Global;

/// What tells the answer to a question about a graph file with this room in a form, or its first fault.
fn description_of(
    alloc: Global,
    question: Question,
    form: Form,
    bytes: &[u8],
    room: Room,
) -> Result<Vec<u8>, ToolFault>
    requires { HasSomePeriod room }
    ensures { Tells (λ text. text.items) result (IsDescriptionAs form question room bytes.now) }
{
    let graph = read_graph(alloc, bytes)?;
    let answer = answer_to(alloc, question, graph, room)?;
    let text = answer.told(alloc, form)?;
    Ok(text)
}

/// Writes the answer to a question about the graph of a file, which has its least capacities.
///
/// The error is the first fault of [`read_graph`], then of [`repetition`] for
/// [`Question::Check`] and [`Question::Repetition`] or of [`accept`](csdf_analysis::accept) for
/// the others; then [`ToolFault::Device`] where the writer failed, and nothing was written but for
/// that one. [`ToolFault::Memory`] may come in place of another answer, and says nothing of the
/// file.
pub fn describe<O: Outlet>(
    alloc: Global,
    question: Question,
    bytes: &[u8],
    writer: &mut O,
) -> Result<(), ToolFault>
    ensures written { OnOk result ((text : List ℕ) × IsDescription question Room.Least bytes.now (Ok text)
        × Appends (O.written writer.old) (O.written writer.new) text) }
    ensures unmarked { OnOk result (O.failed writer.new ≡ O.failed writer.old) }
    ensures refused { IfErr result (λ fault. fault ≢ ToolFault.Memory → fault ≢ ToolFault.Device DeviceName.Output
        → IsDescription question Room.Least bytes.now (Err fault)) }
    ensures unwritten { IfErr result (λ fault. fault ≢ ToolFault.Device DeviceName.Output → writer.new ≡ writer.old) }
    ensures failed { result ≡ Err (ToolFault.Device DeviceName.Output)
        → ((text : List ℕ) × IsDescription question Room.Least bytes.now (Ok text)) × (O.failed writer.new ≡ true) }
{
    describe_with_room(alloc, question, bytes, Room::Least, writer)
}

/// As [`describe`], where the channels that have no capacity in the file have this room.
///
/// It is the room of the schedule, the capacities and the drawing; the other answers need none. The
/// errors are those of [`describe`]: room is no cause of one.
pub fn describe_with_room<O: Outlet>(
    alloc: Global,
    question: Question,
    bytes: &[u8],
    room: Room,
    writer: &mut O,
) -> Result<(), ToolFault>
    requires { HasSomePeriod room }
    ensures written { OnOk result ((text : List ℕ) × IsDescription question room bytes.now (Ok text)
        × Appends (O.written writer.old) (O.written writer.new) text) }
    ensures unmarked { OnOk result (O.failed writer.new ≡ O.failed writer.old) }
    ensures refused { IfErr result (λ fault. fault ≢ ToolFault.Memory → fault ≢ ToolFault.Device DeviceName.Output
        → IsDescription question room bytes.now (Err fault)) }
    ensures unwritten { IfErr result (λ fault. fault ≢ ToolFault.Device DeviceName.Output → writer.new ≡ writer.old) }
    ensures failed { result ≡ Err (ToolFault.Device DeviceName.Output)
        → ((text : List ℕ) × IsDescription question room bytes.now (Ok text)) × (O.failed writer.new ≡ true) }
{
    describe_as(alloc, question, Form::Text, bytes, room, writer)
}

/// As [`describe_with_room`], in a form: as the same text, or as a JSON object on one line.
///
/// A drawing is text in either form. The errors are those of [`describe`].
pub fn describe_as<O: Outlet>(
    alloc: Global,
    question: Question,
    form: Form,
    bytes: &[u8],
    room: Room,
    writer: &mut O,
) -> Result<(), ToolFault>
    requires { HasSomePeriod room }
    ensures written { OnOk result ((text : List ℕ) × IsDescriptionAs form question room bytes.now (Ok text)
        × Appends (O.written writer.old) (O.written writer.new) text) }
    ensures unmarked { OnOk result (O.failed writer.new ≡ O.failed writer.old) }
    ensures refused { IfErr result (λ fault. fault ≢ ToolFault.Memory → fault ≢ ToolFault.Device DeviceName.Output
        → IsDescriptionAs form question room bytes.now (Err fault)) }
    ensures unwritten { IfErr result (λ fault. fault ≢ ToolFault.Device DeviceName.Output → writer.new ≡ writer.old) }
    ensures failed { result ≡ Err (ToolFault.Device DeviceName.Output)
        → ((text : List ℕ) × IsDescriptionAs form question room bytes.now (Ok text)) × (O.failed writer.new ≡ true) }
{
    let text = description_of(alloc, question, form, bytes, room)?;
    send(writer, &text)?;
    Ok(())
}
