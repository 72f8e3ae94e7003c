//! Why a graph file is refused, in words for those who wrote it.

ghost use Rattle.std.specs.Prelude.{◌≡◌, ◌≢◌, Ok, Err, IfErr, IfOk};
ghost use Rattle.csdf_graph.specs.GraphText.{IsGraphOf};
ghost use Rattle.csdf_graph.specs.ScriptText.{script_view, script_of};

use crate::fault::{At, GraphFault};
use crate::names::is_name;
use crate::notes::{Note, Notes};
use crate::read::{file_of, graph_of};
use crate::script::Script;
use crate::script_text::script_in;
use crate::tree::entries_at;
use csdf_model::Graph;
use std::alloc::{AllocError, Global};
use toml::{Table, Value};

/// Why a graph file is refused: its first fault, and what there is to say of it.
#[derive(Debug, Drop)]
pub struct Refusal {
    pub fault: GraphFault,
    /// Lines: the name of the table or its place, the key, what was found there and what is wanted,
    /// and the same of each other actor and channel at which the check of the fault fails; of bytes
    /// that are no TOML, the line and the column, and the line itself.
    pub words: String,
}

/// The list that the table at a place is in, and its number there.
fn listed(at: At) -> Option<(&'static str, u32)> {
    match at {
        At::Actor(number) => Some(("actor", number)),
        At::Channel(number) => Some(("channel", number)),
        At::File | At::Script => None,
    }
}

/// The name of an entry of a list, where it is a table with a name of the right form.
fn name_of(entry: Option<&Value>) -> Option<&str> {
    let name = entry?.as_table()?.get("name")?.as_str()?;
    if is_name(name) { Some(name) } else { None }
}

/// Appends where a table without a name stands among those of its list.
fn push_number(
    words: &mut String,
    at: At,
    entries: &[Value],
    number: u32,
) -> Result<(), AllocError> {
    let (nth, all) = (u64::from(number) + 1, entries.len());
    write!(words, "{at} is number {nth} of {all}")?;
    match name_of(entries.get((number as usize).wrapping_sub(1))) {
        Some(name) => write!(words, ", after {name}\n"),
        None => words.push_str("\n"),
    }
}

/// Appends which actor or channel is at a place, where it is one of these: its name, or its place
/// where it has none.
fn push_table(words: &mut String, file: &Table, at: At) -> Result<(), AllocError> {
    let Some((list, number)) = listed(at) else {
        return Ok(());
    };
    let entries = entries_at(file, list);
    match name_of(entries.get(number as usize)) {
        Some(name) => write!(words, "{at} is {name}\n"),
        None => push_number(words, at, entries, number),
    }
}

/// Appends what was noted of a file.
fn push_notes(words: &mut String, file: &Table, notes: &[Note]) -> Result<(), AllocError> {
    for note in notes {
        push_table(words, file, note.at)?;
        words.push_str(&note.words)?;
    }
    Ok(())
}

/// The refusal of a file for a fault of which this was noted.
fn refused(alloc: Global, file: &Table, notes: &Notes, fault: GraphFault) -> Refusal
    ensures { result.fault ≢ GraphFault.Memory → result.fault ≡ fault }
{
    let mut words = String::new(alloc);
    let is_told = push_notes(&mut words, file, notes.as_slice()).is_ok();
    let fault = if is_told && !notes.lack_memory() {
        fault
    } else {
        GraphFault::Memory
    };
    Refusal { fault, words }
}

/// Reads a graph as [`read_graph`](crate::read_graph) does, and says of a file that is refused what
/// is wrong with it.
pub fn read_graph_explained(alloc: Global, bytes: &[u8]) -> Result<Graph, Refusal>
    ensures graph { IfOk result (λ graph. IsGraphOf bytes.now (Ok graph)) }
    ensures fault { IfErr result (λ refusal. refusal.fault ≢ GraphFault.Memory
        → IsGraphOf bytes.now (Err refusal.fault)) }
{
    let mut notes = Notes::asked(alloc);
    let file = match file_of(alloc, bytes, &mut notes) {
        Ok(file) => file,
        Err(fault) => return Err(refused(alloc, &Table::new(alloc), &notes, fault)),
    };
    match graph_of(alloc, &file, &mut notes) {
        Ok(graph) => Ok(graph),
        Err(fault) => Err(refused(alloc, &file, &notes, fault)),
    }
}

/// Reads a script as [`read_script`](crate::read_script) does, and says of a file whose script is
/// refused what is wrong with it.
pub fn read_script_explained(alloc: Global, bytes: &[u8]) -> Result<Script, Refusal>
    ensures script { IfOk result (λ script. script_of bytes.now ≡ Ok (script_view script)) }
    ensures fault { IfErr result (λ refusal. refusal.fault ≢ GraphFault.Memory
        → script_of bytes.now ≡ Err refusal.fault) }
{
    let mut notes = Notes::asked(alloc);
    let file = match file_of(alloc, bytes, &mut notes) {
        Ok(file) => file,
        Err(fault) => return Err(refused(alloc, &Table::new(alloc), &notes, fault)),
    };
    match script_in(alloc, &file, &mut notes) {
        Ok(script) => Ok(script),
        Err(fault) => Err(refused(alloc, &file, &notes, fault)),
    }
}
