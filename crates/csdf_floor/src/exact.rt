//! Whether feeds have just the tokens that a run takes.

ghost use Rattle.std.specs.Prelude.{◌≡◌, ◌<◌, ◌↔◌, IsTrue, length, map, true};
ghost use Rattle.csdf_model.specs.Graph.{channel_view};
ghost use Rattle.csdf_floor.specs.Continuing.{AreExact, given_in, given_to};
ghost use Rattle.csdf_floor.specs.Work.{AreFeeds, HasFewFirings, feeds_in, is_source_of};

use csdf_analysis::Accepted;
use csdf_model::{Channel, Graph};

/// How many tokens the actor's first `firings` firings put into the channel.
pub fn given_to(channel: &Channel, actor: u32, firings: u32) -> u64
    ensures { result ≡ given_to actor firings (channel_view channel.now) }
{
    if channel.from == actor {
        channel.produced(firings)
    } else {
        0
    }
}

/// Whether the actor's first `firings` firings put so many tokens into these channels.
fn gives(channels: &[Channel], actor: u32, firings: u32, tokens: u64) -> bool
    ensures { IsTrue result ↔ (tokens ≡ given_in (map channel_view channels.now) actor firings) }
{
    let mut rest = tokens;
    for channel in channels {
        let given = given_to(channel, actor, firings);
        if rest < given {
            return false;
        }
        rest -= given;
    }
    rest == 0
}

/// Whether the actor is no source, or gives so many tokens in so many firings.
fn is_just(graph: &Graph, actor: u32, firings: u32, tokens: u64) -> bool
    requires { actor < length graph.now.actors }
    ensures { IsTrue result ↔ (is_source_of graph.now actor ≡ true → tokens ≡ given_in graph.now.channels actor firings) }
{
    let kernel = &graph.actors()[actor as usize].kernel;
    !kernel.is_source() || gives(graph.channels(), actor, firings, tokens)
}

/// Whether each source's list has just the tokens that the source gives in so many periods: all of them,
/// and no more.
pub fn are_exact(accepted: &Accepted, feeds: &[Vec<i32>], periods: u32) -> bool
    requires fed { AreFeeds accepted.now.graph (feeds_in feeds.now) }
    requires few_firings { HasFewFirings accepted.now periods }
    ensures { IsTrue result ↔ AreExact accepted.now (feeds_in feeds.now) periods }
{
    let graph = accepted.graph();
    let firings = accepted.vector().q.as_slice();
    for actor in 0..feeds.len() {
        let all = periods * firings[actor];
        let tokens = feeds[actor].len() as u64;
        if !is_just(graph, actor as u32, all, tokens) {
            return false;
        }
    }
    true
}
