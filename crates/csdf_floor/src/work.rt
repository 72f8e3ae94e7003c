//! What a run is asked for, and what its firings compute from.

ghost use Rattle.std.specs.Prelude.{◌≡◌, ◌↔◌, ◌+◌, ◌*◌, ◌^◌, ◌<◌, ◌≤◌, All, IsTrue, IfOk, OnOk, Some, length, map, slice_get, slice_index_or, slice_range};
ghost use Rattle.csdf_model.specs.declared.parts.Kernel.TheVariants.{Sink};
ghost use Rattle.csdf_core.specs.Step.{is_source};
ghost use Rattle.csdf_kernel.specs.Value.{HasFilterInRange};
ghost use Rattle.csdf_floor.specs.Journal.{output_counts};
ghost use Rattle.csdf_floor.specs.Work.{AreFeeds, HasFewFirings, IsFeed, IsWork, feeds_in, feed_of, is_sink_kernel, program};

use crate::fed::{Fed, RunBounds};
use crate::limits::MAX_FEED_TOKENS;
use crate::same::{are_same_feeds, is_same_accepted, is_same_limit};
use csdf_analysis::Accepted;
use csdf_kernel::Counts;
use csdf_model::{Actor, Graph, Kernel};
use std::alloc::{AllocError, Global};
use std::marker::Model;

/// What is run: an accepted graph, the contents of its sources' files, for how many periods, and the
/// limit on all firings where there is one.
#[derive(Drop)]
pub(crate) struct Work {
    accepted: Accepted,
    feeds: Vec<Vec<i32>>,
    bounds: RunBounds,
}

impl Model for Work {
    ghost use Rattle.csdf_floor.specs.Work.{Work as WorkModel, IsWork, feeds_in};

    ghost Value = { WorkModel };

    ghost view = { λ w. record { accepted = w.accepted; feeds = feeds_in w.feeds.items; periods = w.bounds.periods; firings = w.bounds.firings } };

    ghost invariant = { λ w. IsWork (record { accepted = w.accepted; feeds = feeds_in w.feeds.items; periods = w.bounds.periods; firings = w.bounds.firings }) };
}

/// The part of the list between these places, or as much of it as there is.
fn part_of(feed: &[i32], from: usize, to: usize) -> &[i32]
    ensures { result.now ≡ slice_range feed.now from to }
{
    let end = to.min(feed.len());
    &feed[from.min(end)..end]
}

/// The actor's kernel.
fn kernel_in(actor: &Actor) -> &Kernel
    ensures { result.now ≡ actor.now.kernel }
{
    &actor.kernel
}

impl Work {
    /// What is run.
    pub(crate) fn new(fed: Fed, bounds: RunBounds) -> Work
        requires fed { AreFeeds fed.accepted.graph (feeds_in fed.feeds.items) }
        requires some_period { 1 ≤ bounds.periods }
        requires few_firings { HasFewFirings fed.accepted bounds.periods }
        ensures value { result ≡ record { accepted = fed.accepted; feeds = feeds_in fed.feeds.items; periods = bounds.periods; firings = bounds.firings } }
        ensures work { IsWork result }
    {
        let Fed { accepted, feeds } = fed;
        // Read for the prover: what an accepted graph keeps.
        let _graph = accepted.graph();
        Work {
            accepted,
            feeds,
            bounds,
        }
    }

    /// The graph and the feeds, whole.
    pub(crate) fn into_fed(self) -> Fed
        ensures accepted { result.accepted ≡ self.accepted }
        ensures feeds { feeds_in result.feeds.items ≡ self.feeds }
    {
        let Work {
            accepted,
            feeds,
            bounds: _,
        } = self;
        Fed { accepted, feeds }
    }

    /// The accepted graph.
    pub(crate) fn accepted(&self) -> &Accepted
        ensures { result.now ≡ self.now.accepted }
    {
        &self.accepted
    }

    /// The actor's kernel.
    pub(crate) fn kernel(&self, actor: u32) -> &Kernel
        requires { actor < length self.now.accepted.graph.actors }
        ensures value { result.now ≡ slice_index_or (program self.now).kernels actor Sink }
        ensures in_range { HasFilterInRange result.now }
    {
        kernel_in(&self.accepted.graph().actors()[actor as usize])
    }

    /// How many phases the actor has.
    pub(crate) fn phases(&self, actor: u32) -> u32
        requires { actor < length self.now.accepted.graph.actors }
    {
        self.accepted.graph().actors()[actor as usize].phases
    }

    /// Whether the actor is a source.
    pub(crate) fn is_source(&self, actor: u32) -> bool
        requires { actor < length self.now.accepted.graph.actors }
        ensures { result ≡ is_source (program self.now).plan actor }
    {
        self.kernel(actor).is_source()
    }

    /// Whether the actor is a sink.
    pub(crate) fn is_sink(&self, actor: u32) -> bool
        requires { actor < length self.now.accepted.graph.actors }
        ensures { result ≡ is_sink_kernel (slice_index_or (program self.now).kernels actor Sink) }
    {
        self.kernel(actor).is_sink()
    }

    /// So many tokens for the actor from this place on, or as many as there are.
    pub(crate) fn part(&self, actor: u32, from: usize, count: usize) -> &[i32]
        requires { from + count < 2 ^ 64 }
        ensures { result.now ≡ slice_range (feed_of self.now.feeds actor) from (from + count) }
    {
        match self.feeds.get(actor as usize) {
            Some(feed) => part_of(feed, from, from + count),
            None => &[],
        }
    }

    /// Whether it is this work.
    pub(crate) fn is(&self, accepted: &Accepted, feeds: &[Vec<i32>], bounds: RunBounds) -> bool
        ensures { IsTrue result ↔ (self.now ≡ record { accepted = accepted.now; feeds = feeds_in feeds.now; periods = bounds.periods; firings = bounds.firings }) }
    {
        self.bounds.periods == bounds.periods
            && is_same_limit(self.bounds.firings, bounds.firings)
            && are_same_feeds(&self.feeds, feeds)
            && is_same_accepted(&self.accepted, accepted)
    }
}

/// Whether the list can be the feed of the actor: it is short enough, and empty where the actor is no
/// source.
fn is_feed(graph: &Graph, actor: u32, feed: &[i32]) -> bool
    requires { actor < length graph.now.actors }
    ensures { IsTrue result ↔ IsFeed graph.now actor feed.now }
{
    let kernel = &graph.actors()[actor as usize].kernel;
    feed.len() <= MAX_FEED_TOKENS && (feed.is_empty() || kernel.is_source())
}

/// Whether the lists can be the feeds of a run of the graph: one for each actor, of at most `MAX_FEED_TOKENS`
/// tokens, and empty for an actor that is no source.
pub fn are_feeds(graph: &Graph, feeds: &[Vec<i32>]) -> bool
    ensures { IsTrue result ↔ AreFeeds graph.now (feeds_in feeds.now) }
{
    if feeds.len() != graph.actors().len() {
        return false;
    }
    for actor in 0..feeds.len() {
        if !is_feed(graph, actor as u32, &feeds[actor]) {
            return false;
        }
    }
    true
}
