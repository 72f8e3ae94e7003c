//! Graphs that can run for ever in bounded buffers.

ghost use Rattle.std.specs.Prelude.{◌≡◌, ◌<◌, ◌≤◌, ◌^◌, All, IfErr, IfOk, IfSome, length, slice_get, sum};
ghost use Rattle.csdf_model.specs.Holding.{HasAsMany, HaveAsMany};
ghost use Rattle.csdf_analysis.specs.Acceptance.{IsAccepted, IsNotAccepted, cells_of};
ghost use Rattle.csdf_analysis.specs.Capacities.{AreLeastCapacities};
ghost use Rattle.csdf_analysis.specs.Continued.{accepted_beginning, continued, lists_in};
ghost use Rattle.csdf_analysis.specs.Repetition.{IsRepetition};

use crate::calls::capacities::capacities;
use crate::calls::repetition::repetition;
use crate::fault::AcceptFault;
use crate::vector::Vector;
use csdf_model::{Graph, MAX_CAPACITY};
use std::alloc::{AllocError, Global};
use std::marker::Model;

/// A graph with its least repetition vector and its least capacities.
pub struct Accepted {
    graph: Graph,
    vector: Vector,
    capacities: Vec<u32>,
}

// Written out, so that where one is dropped this is called, and its parts are not gone through again.
impl Drop for Accepted {
    fn drop(self) {
        let Accepted {
            graph: _,
            vector: _,
            capacities: _,
        } = self;
    }
}

impl Model for Accepted {
    ghost use Rattle.csdf_analysis.specs.Acceptance.{Accepted as AcceptedModel, IsAccepted};

    ghost Value = { AcceptedModel };

    ghost view = { λ a. record { graph = a.graph; r = a.vector.r.items; q = a.vector.q.items; capacities = a.capacities.items } };

    ghost invariant = { λ a. IsAccepted (record { graph = a.graph; r = a.vector.r.items; q = a.vector.q.items; capacities = a.capacities.items }) };
}

/// The least repetition vector of the graph and its least capacities, or the first refusal.
fn judged(alloc: Global, graph: &Graph) -> Result<(Vector, Vec<u32>), AcceptFault>
    ensures repetition { IfOk result (λ found. IsRepetition graph.now.actors graph.now.channels found.0.r.items found.0.q.items) }
    ensures least { IfOk result (λ found. AreLeastCapacities graph.now.channels found.0.q.items found.1.items) }
    ensures small { IfOk result (λ found. All (λ b. b ≤ MAX_CAPACITY) found.1.items) }
    ensures refusal { IfErr result (IsNotAccepted graph.now) }
{
    let vector = repetition(alloc, graph)?;
    let capacities = capacities(alloc, graph, &vector)?;
    Ok((vector, capacities))
}

/// Accepts a graph that has a least repetition vector within the limits and capacities that
/// complete a period.
///
/// The refusals are those of [`repetition`] and then those of [`capacities`]; each hands the graph
/// back as it was.
pub fn accept(alloc: Global, graph: Graph) -> Result<Accepted, (Graph, AcceptFault)>
    ensures graph { IfOk result (λ accepted. accepted.graph ≡ graph) }
    ensures accepted { IfOk result IsAccepted }
    ensures unchanged { IfErr result (λ refused. refused.0 ≡ graph) }
    ensures refusal { IfErr result (λ refused. IsNotAccepted graph refused.1) }
{
    match judged(alloc, &graph) {
        Ok((vector, capacities)) => Ok(Accepted {
            graph,
            vector,
            capacities,
        }),
        Err(fault) => Err((graph, fault)),
    }
}

/// The sum of the numbers.
fn sum_of(numbers: &[u32]) -> u32
    requires { sum numbers.now < 2 ^ 32 }
    ensures { result ≡ sum numbers.now }
{
    numbers.iter().sum()
}

/// An equal vector.
fn copy_of(alloc: Global, vector: &Vector) -> Result<Vector, AllocError>
    ensures cycles { IfOk result (λ copy. copy.r.items ≡ vector.now.r.items) }
    ensures firings { IfOk result (λ copy. copy.q.items ≡ vector.now.q.items) }
{
    let r = Vec::from_slice(alloc, &vector.r)?;
    let q = Vec::from_slice(alloc, &vector.q)?;
    Ok(Vector { r, q })
}

impl Accepted {
    /// The graph, accepted with this vector and these capacities.
    pub(crate) fn new(graph: Graph, vector: Vector, capacities: Vec<u32>) -> Accepted
        requires { IsAccepted (record { graph = graph; r = vector.r.items; q = vector.q.items; capacities = capacities.items }) }
        ensures graph { result.graph ≡ graph }
        ensures firings { result.q ≡ vector.q.items }
        ensures accepted { IsAccepted result }
    {
        Accepted {
            graph,
            vector,
            capacities,
        }
    }

    /// The graph that was accepted.
    pub fn graph(&self) -> &Graph
        ensures graph { result.now ≡ self.now.graph }
        ensures accepted { IsAccepted self.now }
    {
        &self.graph
    }

    /// The graph that was accepted, once nothing else is asked of it.
    pub fn into_graph(self) -> Graph
        ensures { result ≡ self.graph }
    {
        let Accepted {
            graph: accepted,
            vector: _,
            capacities: _,
        } = self;
        accepted
    }

    /// How often each actor fires in a period.
    pub fn vector(&self) -> &Vector
        ensures cycles { result.now.r.items ≡ self.now.r }
        ensures firings { result.now.q.items ≡ self.now.q }
        ensures accepted { IsAccepted self.now }
    {
        &self.vector
    }

    /// The capacity of each channel, in file order: the lexicographically least that complete a
    /// period and agree with every given one.
    pub fn capacities(&self) -> &[u32]
        ensures value { result.now ≡ self.now.capacities }
        ensures accepted { IsAccepted self.now }
    {
        &self.capacities
    }

    /// The sum of the capacities: with so many cells all channels can be full at once.
    pub fn total_capacity(&self) -> u32
        ensures { result ≡ sum self.now.capacities }
    {
        sum_of(&self.capacities)
    }

    /// The number of cells that all channels share: the number that the file gives, or else the
    /// sum of the capacities.
    pub fn cells(&self) -> u32
        ensures { result ≡ cells_of self.now }
    {
        match self.graph.cells() {
            Some(cells) => cells,
            None => self.total_capacity(),
        }
    }

    /// Puts these tokens, as many as the channel begins with, in the place of its initial ones. The
    /// graph stays accepted, with the same vector and the same capacities.
    pub fn begin_with(&mut self, channel: u32, tokens: Vec<i32>)
        requires exists { channel < length self.old.graph.channels }
        requires as_many { IfSome (slice_get self.old.graph.channels channel) (λ c. HasAsMany c tokens.items) }
        ensures value { self.new ≡ accepted_beginning channel tokens.items self.old }
        ensures accepted { IsAccepted self.new }
    {
        self.graph.begin_with(channel, tokens);
    }

    /// The graph as it goes on where its channels hold these tokens, as many in each as it begins
    /// with: they stand in the place of the initial ones, in file order.
    pub fn going_on(self, left: Vec<Vec<i32>>) -> Accepted
        requires { HaveAsMany (lists_in left.items) self.graph.channels }
        ensures value { result ≡ continued (lists_in left.items) self }
        ensures accepted { IsAccepted result }
    {
        let mut next = self;
        let mut channel: u32 = 0;
        for tokens in left {
            next.begin_with(channel, tokens);
            channel += 1;
        }
        next
    }

    /// An equal value in memory of its own.
    ///
    /// An error says that memory ran out.
    pub fn try_copy(&self, alloc: Global) -> Result<Accepted, AllocError>
        ensures { IfOk result (λ accepted. accepted ≡ self.now) }
    {
        let vector = copy_of(alloc, &self.vector)?;
        let capacities = Vec::from_slice(alloc, &self.capacities)?;
        let graph = self.graph.try_copy(alloc)?;
        Ok(Accepted {
            graph,
            vector,
            capacities,
        })
    }
}
