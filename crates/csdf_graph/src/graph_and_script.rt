//! The graph and the script of one text.

ghost use Rattle.std.specs.Prelude.{◌≡◌, ◌≢◌, Ok, IfErr, IfOk};
ghost use Rattle.csdf_graph.specs.GraphText.{IsGraphOf};
ghost use Rattle.csdf_graph.specs.ScriptText.{script_view, script_of, IsFirstFaultOf};

use crate::fault::GraphFault;
use crate::notes::Notes;
use crate::read::{file_of, graph_of};
use crate::script::Script;
use crate::script_text::script_in;
use csdf_model::Graph;
use std::alloc::Global;

/// A graph, and the script that stands in its file.
#[derive(Drop)]
pub struct GraphAndScript {
    pub graph: Graph,
    pub script: Script,
}

/// Reads what [`read_graph`](crate::read_graph) and [`read_script`](crate::read_script) read, and
/// goes through the text once.
///
/// The error is the first fault of the graph; where the text has a graph, the first fault of its
/// script; or [`GraphFault::Memory`], which says nothing of the text.
pub fn read_graph_and_script(alloc: Global, bytes: &[u8]) -> Result<GraphAndScript, GraphFault>
    ensures graph { IfOk result (λ read. IsGraphOf bytes.now (Ok read.graph)) }
    ensures script { IfOk result (λ read. script_of bytes.now ≡ Ok (script_view read.script)) }
    ensures fault { IfErr result (λ fault. fault ≢ GraphFault.Memory
        → IsFirstFaultOf bytes.now fault) }
{
    let mut notes = Notes::unasked(alloc);
    let file = file_of(alloc, bytes, &mut notes)?;
    let graph = graph_of(alloc, &file, &mut notes)?;
    let script = script_in(alloc, &file, &mut notes)?;
    Ok(GraphAndScript { graph, script })
}
