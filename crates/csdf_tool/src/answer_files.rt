//! What is answered of the graph file that a word names: the replies to its script, or to a question.

ghost use Rattle.std.specs.Prelude.{◌≡◌, ◌≢◌, true, Err, IfErr, OnOk};
ghost use Rattle.csdf_answers.specs.Objects.{IsDescriptionAs};
ghost use Rattle.csdf_answers.specs.Session.{IsAnswer};
ghost use Rattle.csdf_disk.specs.Acts.{devices, marks};
ghost use Rattle.csdf_tool.specs.Carried.{LacksAnswer, PutsOut};
ghost use Rattle.csdf_files.specs.GraphFiles.{is_input};

use csdf_answers::{DeviceName, ToolFault, describe_as, play_script};
use csdf_bytes::{Intake, Outlet};
use csdf_disk::Disk;
use csdf_files::graph_bytes;
use csdf_words::Inquiry;
use std::alloc::Global;

/// Plays the script of the graph file that a word names, and writes the replies.
pub(crate) fn play_file<D: Disk, I: Intake, O: Outlet>(
    alloc: Global,
    disk: &mut D,
    word: &str,
    reader: &mut I,
    out: &mut O,
) -> Result<(), ToolFault>
    ensures written { OnOk result (PutsOut IsAnswer word.now (devices (I.left reader.old) (D.acts disk.old) (D.acts disk.new))
        (O.written out.old) (O.written out.new)) }
    ensures unwritten { IfErr result (λ fault. fault ≢ ToolFault.Device DeviceName.Output → out.new ≡ out.old) }
    ensures failed { result ≡ Err (ToolFault.Device DeviceName.Output) → O.failed out.new ≡ true }
    ensures caused { IfErr result (LacksAnswer IsAnswer word.now (devices (I.left reader.old) (D.acts disk.old) (D.acts disk.new))
        (marks (I.failed reader.new) (O.failed out.new))) }
    ensures input { is_input word.now ≡ true → I.failed reader.new ≡ true → result ≡ Err (ToolFault.Device DeviceName.Input) }
{
    let bytes = graph_bytes(alloc, disk, word, reader)?;
    play_script(alloc, &bytes, out)
}

/// Answers a question about the graph file that its word names, in the form that is asked for.
pub(crate) fn ask_file<D: Disk, I: Intake, O: Outlet>(
    alloc: Global,
    disk: &mut D,
    asks: Inquiry<'_>,
    reader: &mut I,
    out: &mut O,
) -> Result<(), ToolFault>
    ensures written { OnOk result (PutsOut (IsDescriptionAs asks.entry.form asks.entry.question asks.entry.room) asks.entry.graph.now
        (devices (I.left reader.old) (D.acts disk.old) (D.acts disk.new)) (O.written out.old) (O.written out.new)) }
    ensures unwritten { IfErr result (λ fault. fault ≢ ToolFault.Device DeviceName.Output → out.new ≡ out.old) }
    ensures failed { result ≡ Err (ToolFault.Device DeviceName.Output) → O.failed out.new ≡ true }
    ensures caused { IfErr result (LacksAnswer (IsDescriptionAs asks.entry.form asks.entry.question asks.entry.room) asks.entry.graph.now
        (devices (I.left reader.old) (D.acts disk.old) (D.acts disk.new)) (marks (I.failed reader.new) (O.failed out.new))) }
    ensures input { is_input asks.entry.graph.now ≡ true → I.failed reader.new ≡ true → result ≡ Err (ToolFault.Device DeviceName.Input) }
{
    let bytes = graph_bytes(alloc, disk, asks.graph, reader)?;
    describe_as(alloc, asks.question, asks.form, &bytes, asks.room, out)
}
