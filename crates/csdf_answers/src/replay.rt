//! A script from its bytes to its replies.

ghost use Rattle.std.specs.Prelude.{◌≡◌, ◌≢◌, ℕ, List, true, Ok, Err, map, string_bytes, IfErr, IfOk, OnOk};
ghost use Rattle.std.specs.Io.KnownBytes.{Appends};
ghost use Rattle.csdf_graph.specs.ScriptText.{script_view};
ghost use Rattle.csdf_answers.specs.Faults.{Tells};
ghost use Rattle.csdf_answers.specs.Lines.{line_view};
ghost use Rattle.csdf_answers.specs.Session.{IsReplay, IsReplayOf, IsAnswer};
ghost use Rattle.csdf_answers.specs.declared.fault.DeviceName.{DeviceName};

use crate::fault::ToolFault;
use crate::line::Line;
use crate::sending::send;
use crate::session::{accepted_of, lines_of, opening_core};
use crate::turns::turn_all;
use csdf_analysis::Accepted;
use csdf_bytes::Outlet;
use csdf_graph::{Script, read_graph_and_script};
use csdf_model::Graph;
use std::alloc::{AllocError, Global};

/// The text of lines on an accepted graph.
fn text_on(
    alloc: Global,
    accepted: &Accepted,
    script: &Script,
    lines: &[Line<'_>],
) -> Result<String, AllocError>
    ensures { IfOk result (λ text. IsReplay accepted.now.graph (script_view script.now) (map line_view lines.now) (Ok (string_bytes text))) }
{
    let mut core = opening_core(alloc, accepted, script)?;
    let channels = accepted.graph().channels();
    turn_all(alloc, channels, &mut core, lines)
}

/// The text of a script that is played on a graph, or its first fault.
fn replay(alloc: Global, graph: Graph, script: &Script) -> Result<String, ToolFault>
    ensures { Tells string_bytes result (IsReplayOf graph (script_view script.now)) }
{
    let lines = lines_of(alloc, &graph, &script.lines)?;
    let accepted = accepted_of(alloc, graph)?;
    let text = text_on(alloc, &accepted, script, &lines)?;
    Ok(text)
}

/// The text that is printed for a graph file, or its first fault.
fn text_of(alloc: Global, bytes: &[u8]) -> Result<String, ToolFault>
    ensures { Tells string_bytes result (IsAnswer bytes.now) }
{
    let read = read_graph_and_script(alloc, bytes)?;
    replay(alloc, read.graph, &read.script)
}

/// Plays the script of a graph file on its graph, and writes the reply to each move.
///
/// Nothing is written before the last move is played. The error is the first fault of
/// [`read_graph_and_script`], of the script's lines and of
/// [`accept`](csdf_analysis::accept); then [`ToolFault::Device`] where the writer failed.
/// [`ToolFault::Memory`] may come in place of another answer, and says nothing of the file.
pub fn play_script<O: Outlet>(alloc: Global, bytes: &[u8], writer: &mut O) -> Result<(), ToolFault>
    ensures written { OnOk result ((text : List ℕ) × IsAnswer bytes.now (Ok text)
        × Appends (O.written writer.old) (O.written writer.new) text) }
    ensures unmarked { OnOk result (O.failed writer.new ≡ O.failed writer.old) }
    ensures refused { IfErr result (λ fault. fault ≢ ToolFault.Memory → fault ≢ ToolFault.Device DeviceName.Output
        → IsAnswer bytes.now (Err fault)) }
    ensures unwritten { IfErr result (λ fault. fault ≢ ToolFault.Device DeviceName.Output → writer.new ≡ writer.old) }
    ensures failed { result ≡ Err (ToolFault.Device DeviceName.Output)
        → ((text : List ℕ) × IsAnswer bytes.now (Ok text)) × (O.failed writer.new ≡ true) }
{
    let text = text_of(alloc, bytes)?;
    send(writer, text.as_bytes())?;
    Ok(())
}
