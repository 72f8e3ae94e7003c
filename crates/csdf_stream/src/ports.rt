//! The actors of a graph that have devices: its sources and its sinks.

ghost use Rattle.std.specs.Prelude.{◌≡◌, ◌++◌, [], ◌∷◌, IfOk, OnOk, if◌then◌else◌};
ghost use Rattle.csdf_stream.specs.Ports.{sinks_in, sources_in};

use csdf_model::Graph;
use std::alloc::{AllocError, Global};

/// Appends the number where it is wanted.
fn push_where(numbers: &mut Vec<u32>, is_wanted: bool, number: u32) -> Result<(), AllocError>
    ensures { OnOk result (numbers.new.items ≡ numbers.old.items ++ (if is_wanted then number ∷ [] else [])) }
{
    if is_wanted {
        numbers.push(number)?;
    }
    Ok(())
}

/// The numbers of the sources, in file order. The error is want of memory.
pub fn sources_of(alloc: Global, graph: &Graph) -> Result<Vec<u32>, AllocError>
    ensures { IfOk result (λ sources. sources.items ≡ sources_in graph.now) }
{
    let actors = graph.actors();
    let mut sources = Vec::new(alloc);
    for (number, actor) in actors.iter().enumerate() {
        push_where(&mut sources, actor.kernel.is_source(), number as u32)?;
    }
    Ok(sources)
}

/// The numbers of the sinks, in file order. The error is want of memory.
pub fn sinks_of(alloc: Global, graph: &Graph) -> Result<Vec<u32>, AllocError>
    ensures { IfOk result (λ sinks. sinks.items ≡ sinks_in graph.now) }
{
    let actors = graph.actors();
    let mut sinks = Vec::new(alloc);
    for (number, actor) in actors.iter().enumerate() {
        push_where(&mut sinks, actor.kernel.is_sink(), number as u32)?;
    }
    Ok(sinks)
}
