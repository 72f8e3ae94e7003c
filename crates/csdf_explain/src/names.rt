//! The names of a graph's actors and channels.

ghost use Rattle.std.specs.Prelude.{◌≡◌};
ghost use Rattle.csdf_answers.specs.Described.{actor_names};
ghost use Rattle.csdf_answers.specs.Printed.{names_of, name_at};

use csdf_model::{Graph, actor_name, channel_name};

/// The name of the actor with this number; the empty text where there is none.
pub(crate) fn actor_of(graph: &Graph, number: usize) -> &str
    ensures { result.now ≡ name_at (actor_names graph.now.actors) number }
{
    actor_name(graph.actors(), number)
}

/// The name of the channel with this number; the empty text where there is none.
pub(crate) fn channel_of(graph: &Graph, number: u32) -> &str
    ensures { result.now ≡ name_at (names_of graph.now.channels) number }
{
    channel_name(graph.channels(), number as usize)
}
