//! A graph with its least repetition vector.

ghost use Rattle.std.specs.Prelude.{◌≡◌, length};

use csdf_analysis::Vector;
use csdf_model::Graph;

/// A graph, and how often each of its actors fires in a period.
#[derive(Drop)]
pub(crate) struct Repeated {
    pub(crate) graph: Graph,
    pub(crate) vector: Vector,
    ghost cycles: { length vector.r.items ≡ length graph.actors },
    ghost firings: { length vector.q.items ≡ length graph.actors },
}
