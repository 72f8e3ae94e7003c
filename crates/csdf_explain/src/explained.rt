//! Why a graph file is refused, or that it is accepted: from its bytes to the explanation.

ghost use Rattle.std.specs.Prelude.{◌≡◌, ◌≢◌, ◌⊎◌, ◌<◌, ◌++◌, ℕ, List, true, length, sum, Ok, Err, string_bytes, IfErr, IfOk, OnOk};
ghost use Rattle.std.specs.Io.KnownBytes.{Appends};
ghost use Rattle.csdf_analysis.specs.Acceptance.{IsNotAccepted};
ghost use Rattle.csdf_analysis.specs.Demands.{IsDemand};
ghost use Rattle.csdf_analysis.specs.Repetition.{IsRepetition};
ghost use Rattle.csdf_explain.specs.Explained.{AppendsTooTight, ExplainsFault, ExplainsGraph, IsExplained, TellsRefusal, TellsDemand, TellsStall, TellsTight, TellsUnbalanced, accepted_text};
ghost use Rattle.csdf_answers.specs.Faults.{fault_of, fault_text};
ghost use Rattle.csdf_answers.specs.Printed.{newline};
ghost use Rattle.csdf_answers.specs.declared.fault.DeviceName.{DeviceName};

use crate::explanation::{
    accepted_text, push_circle_of, push_relief, push_tight, too_large_text, unbalanced_text,
};
use crate::names::{actor_of, channel_of};
use crate::stalled::Stalled;
use crate::way::joining;
use csdf_analysis::{
    AcceptFault, Accepted, Bounds, Demand, Vector, accept, demand_of, relief_of, repetition,
    stall_of, tight_channel,
};
use csdf_answers::{ToolFault, send};
use csdf_bytes::Outlet;
use csdf_graph::{GraphFault, Refusal, read_graph_explained};
use csdf_model::Graph;
use std::alloc::{AllocError, Global};

/// The line of a channel that asks this of its two actors.
fn demand_text(
    alloc: Global,
    graph: &Graph,
    number: u32,
    demand: Demand,
) -> Result<String, AllocError>
    requires demand { IsDemand graph.now.actors graph.now.channels number demand }
    requires within { number < length graph.now.channels }
    ensures { IfOk result (λ text. TellsDemand graph.now number (string_bytes text)) }
{
    let channels = graph.channels();
    let channel = &channels[number as usize];
    let from = actor_of(graph, channel.from as usize);
    let to = actor_of(graph, channel.to as usize);
    unbalanced_text(alloc, channel_of(graph, number), from, to, demand)
}

/// What the channel asks of its two actors, and what those before it ask, and the circle that it closes.
fn tell_unbalanced(alloc: Global, graph: &Graph, number: u32) -> Result<String, ToolFault>
    requires { number < length graph.now.channels }
    ensures told { IfOk result (λ text. TellsUnbalanced graph.now number (string_bytes text)) }
    ensures memory { IfErr result (λ fault. fault ≡ ToolFault.Memory) }
{
    let Ok(demand) = demand_of(alloc, graph, number) else {
        return Err(ToolFault::Memory);
    };
    let mut text = demand_text(alloc, graph, number, demand)?;
    let (actors, channels) = (graph.actors(), graph.channels());
    let way = joining(alloc, channels, actors.len(), number)?;
    push_circle_of(&mut text, graph, number, &way)?;
    Ok(text)
}

/// The actors that wait where a run stands still under the full capacities.
fn tell_deadlock(alloc: Global, graph: Graph) -> Result<String, ToolFault>
    ensures told { IfOk result (λ text. TellsStall graph Bounds.Full (string_bytes text)) }
    ensures memory { IfErr result (λ fault. fault ≡ ToolFault.Memory) }
{
    let Ok(vector) = repetition(alloc, &graph) else {
        return Err(ToolFault::Memory);
    };
    let bounds = Bounds::Full;
    let stall = stall_of(alloc, &graph, &vector, bounds)?;
    let stalled = Stalled {
        graph,
        bounds,
        stall,
    };
    let mut text = String::new(alloc);
    stalled.push(alloc, &mut text)?;
    Ok(text)
}

/// Appends what a run that stands still under the given capacities says of the graph, and a channel with a
/// greater capacity of which a period completes.
fn push_too_tight(
    alloc: Global,
    text: &mut String,
    graph: Graph,
    vector: &Vector,
) -> Result<(), AllocError>
    requires { IsRepetition graph.actors graph.channels vector.now.r.items vector.now.q.items }
    ensures { OnOk result (AppendsTooTight graph vector.now.q.items (string_bytes text.old) (string_bytes text.new)) }
{
    let bounds = Bounds::Given;
    let stall = stall_of(alloc, &graph, vector, bounds)?;
    let relief = relief_of(alloc, &graph, vector, &stall)?;
    let stalled = Stalled {
        graph,
        bounds,
        stall,
    };
    stalled.push(alloc, text)?;
    push_relief(text, &stalled.graph, relief)?;
    Ok(())
}

/// The first channel whose given capacity is too small even alone, the actors that wait where a run
/// stands still under the given capacities, and a channel with a greater capacity of which a period
/// completes.
fn tell_tight(alloc: Global, graph: Graph) -> Result<String, ToolFault>
    ensures told { IfOk result (λ text. TellsTight graph (string_bytes text)) }
    ensures memory { IfErr result (λ fault. fault ≡ ToolFault.Memory) }
{
    let Ok(vector) = repetition(alloc, &graph) else {
        return Err(ToolFault::Memory);
    };
    let mut text = String::new(alloc);
    push_tight(&mut text, &graph, tight_channel(&graph, &vector))?;
    push_too_tight(alloc, &mut text, graph, &vector)?;
    Ok(text)
}

/// Why the graph is not accepted.
fn tell_refusal(alloc: Global, graph: Graph, fault: AcceptFault) -> Result<String, ToolFault>
    requires { IsNotAccepted graph fault }
    ensures told { IfOk result (λ text. TellsRefusal graph fault (string_bytes text)) }
    ensures memory { IfErr result (λ fault. fault ≡ ToolFault.Memory) }
{
    match fault {
        AcceptFault::Unbalanced(number) => tell_unbalanced(alloc, &graph, number),
        AcceptFault::TooLarge(number) => Ok(too_large_text(alloc, channel_of(&graph, number))?),
        AcceptFault::Deadlock => tell_deadlock(alloc, graph),
        AcceptFault::TooTight => tell_tight(alloc, graph),
        AcceptFault::Memory => Err(ToolFault::Memory),
    }
}

/// That the graph is accepted, and with how many cells where its file gives fewer.
fn tell_accepted(alloc: Global, accepted: &Accepted) -> Result<String, AllocError>
    ensures { IfOk result (λ text. string_bytes text ≡ accepted_text (sum accepted.now.capacities) accepted.now.graph.cells) }
{
    let needed = accepted.total_capacity();
    accepted_text(alloc, needed, accepted.graph().cells())
}

/// That the graph is accepted, or why not.
fn tell_graph(alloc: Global, graph: Graph) -> Result<String, ToolFault>
    ensures told { IfOk result (λ text. ExplainsGraph graph (string_bytes text)) }
    ensures memory { IfErr result (λ fault. fault ≡ ToolFault.Memory) }
{
    match accept(alloc, graph) {
        Ok(accepted) => {
            let text = tell_accepted(alloc, &accepted)?;
            Ok(text)
        }
        Err((graph, fault)) => tell_refusal(alloc, graph, fault),
    }
}

/// Appends the line of a fault of a graph file.
fn push_fault(text: &mut String, fault: GraphFault) -> Result<(), AllocError>
    ensures { OnOk result (string_bytes text.new ≡ string_bytes text.old ++ (fault_text (fault_of fault) ++ newline)) }
{
    let told = ToolFault::from(fault);
    write!(text, "{told}\n")
}

/// The line of a fault of a graph file, and what else there is to say of it.
fn tell_fault(alloc: Global, refusal: &Refusal) -> Result<String, ToolFault>
    ensures told { IfOk result (λ text. ExplainsFault refusal.now.fault (string_bytes text)) }
    ensures memory { IfErr result (λ fault. fault ≡ ToolFault.Memory) }
{
    let mut text = String::new(alloc);
    push_fault(&mut text, refusal.fault)?;
    text.push_str(&refusal.words)?;
    Ok(text)
}

/// The explanation of a graph file.
fn explanation_of(alloc: Global, bytes: &[u8]) -> Result<String, ToolFault>
    ensures told { IfOk result (λ text. IsExplained bytes.now (Ok (string_bytes text))) }
    ensures memory { IfErr result (λ fault. fault ≡ ToolFault.Memory) }
{
    match read_graph_explained(alloc, bytes) {
        Ok(graph) => tell_graph(alloc, graph),
        Err(refusal) if refusal.fault == GraphFault::Memory => Err(ToolFault::Memory),
        Err(refusal) => tell_fault(alloc, &refusal),
    }
}

/// Writes why the graph of a file is refused, or that it is accepted.
///
/// The error is [`ToolFault::Device`] where the writer failed, or [`ToolFault::Memory`], and
/// nothing was written but for the first.
pub fn explain<O: Outlet>(alloc: Global, bytes: &[u8], writer: &mut O) -> Result<(), ToolFault>
    ensures written { OnOk result ((text : List ℕ) × IsExplained bytes.now (Ok text) × Appends (O.written writer.old) (O.written writer.new) text) }
    ensures unmarked { OnOk result (O.failed writer.new ≡ O.failed writer.old) }
    ensures refused { IfErr result (λ fault. (fault ≡ ToolFault.Memory) ⊎ (fault ≡ ToolFault.Device DeviceName.Output)) }
    ensures unwritten { IfErr result (λ fault. fault ≢ ToolFault.Device DeviceName.Output → writer.new ≡ writer.old) }
    ensures failed { result ≡ Err (ToolFault.Device DeviceName.Output)
        → ((text : List ℕ) × IsExplained bytes.now (Ok text)) × (O.failed writer.new ≡ true) }
{
    explain_with(alloc, bytes, "", writer)
}

/// As [`explain`], and then more lines.
///
/// The errors are those of [`explain`].
pub fn explain_with<O: Outlet>(
    alloc: Global,
    bytes: &[u8],
    lines: &str,
    writer: &mut O,
) -> Result<(), ToolFault>
    ensures written { OnOk result ((text : List ℕ) × IsExplained bytes.now (Ok text)
        × Appends (O.written writer.old) (O.written writer.new) (text ++ lines.now)) }
    ensures unmarked { OnOk result (O.failed writer.new ≡ O.failed writer.old) }
    ensures refused { IfErr result (λ fault. (fault ≡ ToolFault.Memory) ⊎ (fault ≡ ToolFault.Device DeviceName.Output)) }
    ensures unwritten { IfErr result (λ fault. fault ≢ ToolFault.Device DeviceName.Output → writer.new ≡ writer.old) }
    ensures failed { result ≡ Err (ToolFault.Device DeviceName.Output)
        → ((text : List ℕ) × IsExplained bytes.now (Ok text)) × (O.failed writer.new ≡ true) }
{
    let mut text = explanation_of(alloc, bytes)?;
    text.push_str(lines)?;
    send(writer, text.as_bytes())?;
    Ok(())
}
