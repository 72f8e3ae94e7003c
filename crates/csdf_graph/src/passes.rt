//! Passes over lists, which go on behind a fault.

ghost use Rattle.csdf_graph.specs.Passes.{Gives, one_more};

use crate::fault::GraphFault;

/// What a pass made, and one more, or the first fault of the pass.
pub(crate) fn one_more<T: Drop>(
    pass: Result<Vec<T>, GraphFault>,
    next: Result<T, GraphFault>,
) -> Result<Vec<T>, GraphFault>
    ensures { Gives (λ v. v.items) result (one_more pass next) }
{
    let mut made = pass?;
    made.push(next?)?;
    Ok(made)
}
