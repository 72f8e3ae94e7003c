//! An explanation of a graph file, and of the token files of a folder.

ghost use Rattle.std.specs.Prelude.{◌≡◌, ◌≢◌, ◌⊎◌, ◌++◌, [], ◌∷◌, ℕ, List, true, map, option_map, string_bytes, Some, Err, IfErr, IfOk, OnOk};
ghost use Rattle.std.specs.Io.KnownBytes.{Appends};
ghost use Rattle.csdf_model.specs.Graph.{actor_view};
ghost use Rattle.csdf_disk.specs.Acts.{Act, Asks, devices, marks};
ghost use Rattle.csdf_tool.specs.Carried.{LacksExplanation};
ghost use Rattle.csdf_tool.specs.Explaining.{Explains, Looked, AreNotes, AreNotesOf, IsExplanation, IsNotedAfter, look_of, note_of};
ghost use Rattle.csdf_files.specs.GraphFiles.{is_input};

use csdf_answers::{DeviceName, ToolFault};
use csdf_bytes::{Intake, Outlet};
use csdf_disk::Disk;
use csdf_explain::{explain, explain_with, push_token_note};
use csdf_files::{explain_unread, graph_bytes, is_of_file, token_path};
use csdf_graph::{GraphFault, read_graph};
use csdf_model::Actor;
use std::alloc::Global;

/// Appends the line of a source on its token file.
fn push_note<D: Disk>(
    alloc: Global,
    disk: &mut D,
    text: &mut String,
    folder: &str,
    source: &str,
) -> Result<(), ToolFault>
    ensures told { OnOk result ((l : Looked) × (l.source ≡ source.now) × (string_bytes text.new ≡ string_bytes text.old ++ note_of folder.now l)
        × Asks (D.acts disk.old) (D.acts disk.new) (look_of folder.now l ∷ [])) }
    ensures memory { IfErr result (λ fault. fault ≡ ToolFault.Memory) }
{
    let path = token_path(alloc, folder, source)?;
    let at = path.as_str();
    let file = disk.look(at)?;
    push_token_note(alloc, text, source, at, &file)?;
    Ok(())
}

/// Appends the line of an actor on its token file, where it is a source.
fn push_actor_note<D: Disk>(
    alloc: Global,
    disk: &mut D,
    text: &mut String,
    folder: &str,
    actor: &Actor,
) -> Result<(), ToolFault>
    ensures noted { OnOk result (IsNotedAfter folder.now (actor_view actor.now) (D.acts disk.old) (D.acts disk.new)
        (string_bytes text.old) (string_bytes text.new)) }
    ensures memory { IfErr result (λ fault. fault ≡ ToolFault.Memory) }
{
    if !actor.kernel.is_source() {
        return Ok(());
    }
    push_note(alloc, disk, text, folder, actor.name.as_str())?;
    Ok(())
}

/// The line of each source on its token file, in file order.
fn source_notes<D: Disk>(
    alloc: Global,
    disk: &mut D,
    folder: &str,
    actors: &[Actor],
) -> Result<String, ToolFault>
    ensures told { IfOk result (λ text. (all : List Looked) × AreNotes folder.now (map actor_view actors.now) all (string_bytes text)
        × Asks (D.acts disk.old) (D.acts disk.new) (map (look_of folder.now) all)) }
    ensures memory { IfErr result (λ fault. fault ≡ ToolFault.Memory) }
{
    let mut text = String::new(alloc);
    for actor in actors {
        push_actor_note(alloc, disk, &mut text, folder, actor)?;
    }
    Ok(text)
}

/// The lines on the token files of a graph file, none where its graph is refused.
fn notes_of<D: Disk>(
    alloc: Global,
    disk: &mut D,
    folder: &str,
    bytes: &[u8],
) -> Result<String, ToolFault>
    ensures told { IfOk result (λ text. (all : List Looked) × AreNotesOf folder.now bytes.now all (string_bytes text)
        × Asks (D.acts disk.old) (D.acts disk.new) (map (look_of folder.now) all)) }
    ensures memory { IfErr result (λ fault. fault ≡ ToolFault.Memory) }
{
    match read_graph(alloc, bytes) {
        Ok(graph) => source_notes(alloc, disk, folder, graph.actors()),
        Err(GraphFault::Memory) => Err(ToolFault::Memory),
        Err(_) => Ok(String::new(alloc)),
    }
}

/// Explains a graph file, and what is wrong with the token files of a folder.
fn explain_with_folder<D: Disk, O: Outlet>(
    alloc: Global,
    disk: &mut D,
    bytes: &[u8],
    folder: &str,
    out: &mut O,
) -> Result<(), ToolFault>
    ensures written { OnOk result ((looks : List Act) × (text : List ℕ) × IsExplanation (Some folder.now) bytes.now looks text
        × Asks (D.acts disk.old) (D.acts disk.new) looks × Appends (O.written out.old) (O.written out.new) text) }
    ensures refused { IfErr result (λ fault. (fault ≡ ToolFault.Memory) ⊎ (fault ≡ ToolFault.Device DeviceName.Output)) }
    ensures unwritten { IfErr result (λ fault. fault ≢ ToolFault.Device DeviceName.Output → out.new ≡ out.old) }
    ensures failed { result ≡ Err (ToolFault.Device DeviceName.Output) → ((looks : List Act) × (text : List ℕ)
        × IsExplanation (Some folder.now) bytes.now looks text × Asks (D.acts disk.old) (D.acts disk.new) looks) × (O.failed out.new ≡ true) }
{
    let notes = notes_of(alloc, disk, folder, bytes)?;
    explain_with(alloc, bytes, notes.as_str(), out)
}

/// Explains a graph file, and where a folder is named, what is wrong with the token files there.
fn explain_in<D: Disk, O: Outlet>(
    alloc: Global,
    disk: &mut D,
    bytes: &[u8],
    folder: Option<&str>,
    out: &mut O,
) -> Result<(), ToolFault>
    ensures written { OnOk result ((looks : List Act) × (text : List ℕ) × IsExplanation (option_map (λ f. f.now) folder.entry) bytes.now looks text
        × Asks (D.acts disk.old) (D.acts disk.new) looks × Appends (O.written out.old) (O.written out.new) text) }
    ensures refused { IfErr result (λ fault. (fault ≡ ToolFault.Memory) ⊎ (fault ≡ ToolFault.Device DeviceName.Output)) }
    ensures unwritten { IfErr result (λ fault. fault ≢ ToolFault.Device DeviceName.Output → out.new ≡ out.old) }
    ensures failed { result ≡ Err (ToolFault.Device DeviceName.Output) → ((looks : List Act) × (text : List ℕ)
        × IsExplanation (option_map (λ f. f.now) folder.entry) bytes.now looks text × Asks (D.acts disk.old) (D.acts disk.new) looks)
        × (O.failed out.new ≡ true) }
{
    match folder {
        Some(folder) => explain_with_folder(alloc, disk, bytes, folder, out),
        None => explain(alloc, bytes, out),
    }
}

/// Explains the graph file that a word names, and where a folder is named, what is wrong with the
/// token files there. Of a graph file that cannot be read it tells why.
pub(crate) fn explain_files<D: Disk, I: Intake, O: Outlet>(
    alloc: Global,
    disk: &mut D,
    graph: &str,
    folder: Option<&str>,
    reader: &mut I,
    out: &mut O,
) -> Result<(), ToolFault>
    ensures written { OnOk result (Explains graph.now (option_map (λ f. f.now) folder.entry)
        (devices (I.left reader.old) (D.acts disk.old) (D.acts disk.new)) (O.written out.old) (O.written out.new)) }
    ensures unwritten { IfErr result (λ fault. fault ≢ ToolFault.Device DeviceName.Output → out.new ≡ out.old) }
    ensures failed { result ≡ Err (ToolFault.Device DeviceName.Output) → O.failed out.new ≡ true }
    ensures caused { IfErr result (LacksExplanation graph.now (option_map (λ f. f.now) folder.entry)
        (devices (I.left reader.old) (D.acts disk.old) (D.acts disk.new)) (marks (I.failed reader.new) (O.failed out.new))) }
    ensures input { is_input graph.now ≡ true → I.failed reader.new ≡ true → result ≡ Err (ToolFault.Device DeviceName.Input) }
{
    match graph_bytes(alloc, disk, graph, reader) {
        Ok(bytes) => explain_in(alloc, disk, &bytes, folder, out),
        Err(fault) if is_of_file(&fault) => explain_unread(alloc, disk, graph, fault, out),
        Err(fault) => Err(fault),
    }
}
