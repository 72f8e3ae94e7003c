//! What a script plays on a graph.

ghost use Rattle.std.specs.Prelude.{◌≡◌, ◌≢◌, length, map, replicate, string_bytes, IfErr, IfOk};
ghost use Rattle.csdf_model.specs.Graph.{actor_view};
ghost use Rattle.csdf_graph.specs.ScriptText.{script_view};
ghost use Rattle.csdf_analysis.specs.Acceptance.{IsAccepted};
ghost use Rattle.csdf_analysis.specs.Room.{HasSomePeriod, IsWithRoom};
ghost use Rattle.csdf_core.specs.Shows.{Shows};
ghost use Rattle.csdf_core.specs.State.{opening};
ghost use Rattle.csdf_answers.specs.Faults.{Gives, accept_fault};
ghost use Rattle.csdf_answers.specs.Lines.{line_view};
ghost use Rattle.csdf_answers.specs.Printed.{names_of};
ghost use Rattle.csdf_answers.specs.Session.{lines_from, supply_of, plan_in, RefusesGraph};

use crate::fault::{Name, ToolFault};
use crate::line::{Line, line_in};
use csdf_analysis::{AcceptFault, Accepted, Room, accept, accept_in_room};
use csdf_core::Core;
use csdf_graph::Script;
use csdf_model::{Actor, Graph, channel_name};
use std::alloc::{AllocError, Global};

/// What each line asks for, or the first that asks for nothing that there is.
pub(crate) fn lines_of<'a>(
    alloc: Global,
    graph: &Graph,
    texts: &'a [String],
) -> Result<Vec<Line<'a>>, ToolFault>
    ensures { Gives (λ lines. map line_view lines.items) result (lines_from graph.now 0 (map string_bytes texts.now)) }
{
    let mut lines = Vec::new(alloc);
    for (number, text) in texts.iter().enumerate() {
        match line_in(alloc, graph, text.as_str())? {
            Some(line) => lines.push(line)?,
            None => return Err(ToolFault::Line(number)),
        }
    }
    Ok(lines)
}

/// Why the graph is not accepted, as the program tells it: channels by their names.
///
/// The error is want of memory.
pub fn accept_fault(
    alloc: Global,
    graph: &Graph,
    fault: AcceptFault,
) -> Result<ToolFault, AllocError>
    ensures { IfOk result (λ told. told ≡ accept_fault (names_of graph.now.channels) fault) }
{
    let channels = graph.channels();
    match fault {
        AcceptFault::Unbalanced(number) => {
            let name = Name::new(alloc, channel_name(channels, number as usize))?;
            Ok(ToolFault::Unbalanced(name))
        }
        AcceptFault::TooLarge(number) => {
            let name = Name::new(alloc, channel_name(channels, number as usize))?;
            Ok(ToolFault::TooLarge(name))
        }
        AcceptFault::Deadlock => Ok(ToolFault::Deadlock),
        AcceptFault::TooTight => Ok(ToolFault::TooTight),
        AcceptFault::Memory => Ok(ToolFault::Memory),
    }
}

/// The graph with its capacities, or why it is not accepted.
pub(crate) fn accepted_of(alloc: Global, graph: Graph) -> Result<Accepted, ToolFault>
    ensures graph { IfOk result (λ accepted. accepted.graph ≡ graph) }
    ensures accepted { IfOk result IsAccepted }
    ensures refused { IfErr result (λ fault. fault ≢ ToolFault.Memory → RefusesGraph graph fault) }
{
    match accept(alloc, graph) {
        Ok(accepted) => Ok(accepted),
        Err((graph, fault)) => Err(accept_fault(alloc, &graph, fault)?),
    }
}

/// The graph with this room and its capacities, or why it is not accepted.
pub(crate) fn accepted_in(alloc: Global, graph: &Graph, room: Room) -> Result<Accepted, ToolFault>
    requires { HasSomePeriod room }
    ensures graph { IfOk result (λ accepted. IsWithRoom room accepted.q graph.now accepted.graph) }
    ensures accepted { IfOk result IsAccepted }
    ensures refused { IfErr result (λ fault. fault ≢ ToolFault.Memory → RefusesGraph graph.now fault) }
{
    let copy = graph.try_copy(alloc)?;
    match accept_in_room(alloc, copy, room) {
        Ok(accepted) => Ok(accepted),
        Err(fault) => Err(accept_fault(alloc, graph, fault)?),
    }
}

/// How many tokens the actor's file has.
fn supply_of(supply: u32, actor: &Actor) -> u32
    ensures { result ≡ supply_of supply (actor_view actor.now) }
{
    if actor.kernel.is_source() { supply } else { 0 }
}

/// How many tokens each actor's file has.
fn supplies_of(alloc: Global, actors: &[Actor], supply: u32) -> Result<Vec<u32>, AllocError>
    ensures { IfOk result (λ v. v.items ≡ map (λ actor. supply_of supply (actor_view actor)) actors.now) }
{
    actors
        .iter()
        .map(|actor| supply_of(supply, actor))
        .collect(alloc)
}

/// How often each actor may begin a firing.
fn limits_of(alloc: Global, actors: &[Actor], limit: u32) -> Result<Vec<u32>, AllocError>
    ensures { IfOk result (λ v. v.items ≡ replicate (length actors.now) limit) }
{
    Ok(vec![in alloc; limit; actors.len()]?)
}

/// The core on which the script is played, under its limit for each actor.
fn core_under(
    alloc: Global,
    accepted: &Accepted,
    script: &Script,
    limits: Vec<u32>,
) -> Result<Core, AllocError>
    requires { limits.items ≡ replicate (length accepted.now.graph.actors) (script_view script.now).limit }
    ensures plan { IfOk result (λ core. core.plan ≡ plan_in accepted.now (script_view script.now)) }
    ensures opening { IfOk result (λ core. Shows core (opening core.plan)) }
{
    let supply = supplies_of(alloc, accepted.graph().actors(), script.supply)?;
    Core::new(alloc, accepted, limits, supply, script.firings)
}

/// The core on which the script is played.
pub(crate) fn opening_core(
    alloc: Global,
    accepted: &Accepted,
    script: &Script,
) -> Result<Core, AllocError>
    ensures plan { IfOk result (λ core. core.plan ≡ plan_in accepted.now (script_view script.now)) }
    ensures opening { IfOk result (λ core. Shows core (opening core.plan)) }
    ensures channels { IfOk result (λ core. length core.plan.channels ≡ length accepted.now.graph.channels) }
{
    let limits = limits_of(alloc, accepted.graph().actors(), script.limit)?;
    core_under(alloc, accepted, script, limits)
}
