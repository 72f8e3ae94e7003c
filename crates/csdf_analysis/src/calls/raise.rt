//! The least capacity of one channel, by one run that raises it at stalls.

ghost use Rattle.std.specs.Prelude.{◌≡◌, ℕ, ◌<◌, ◌≤◌, ◌↔◌, All, IfOk, IsTrue, Some, length, slice_get, slice_set, sum};
ghost use Rattle.csdf_model.specs.Graph.{Channel};
ghost use Rattle.csdf_analysis.specs.Repetition.{IsRepetition};
ghost use Rattle.csdf_analysis.specs.Period.{CompletesPeriod, HoldInitial};
ghost use Rattle.csdf_analysis.specs.Capacities.{IsLeastCapacity};

use crate::mask::all;
use crate::net::Net;
use crate::run::Run;
use crate::vector::Vector;
use csdf_model::{Graph, MAX_CAPACITY};
use std::alloc::{AllocError, Global};

/// The same numbers in a list of their own.
pub(crate) fn copy_of(alloc: Global, numbers: &[u32]) -> Result<Vec<u32>, AllocError>
    ensures { IfOk result (λ v. v.items ≡ numbers.now) }
{
    numbers.iter().copied().collect(alloc)
}

/// Whether a run under these bounds makes all firings of a period.
pub(crate) fn makes_all(alloc: Global, net: &Net, bounds: &[u32]) -> Result<bool, AllocError>
    requires each_channel { length bounds.now ≡ length net.now.channels }
    requires initial { HoldInitial net.now.channels bounds.now }
    ensures { IfOk result (λ done. IsTrue done ↔ CompletesPeriod net.now.channels net.now.firings bounds.now) }
{
    let bounds = copy_of(alloc, bounds)?;
    let mut run = Run::new(alloc, net, bounds)?;
    let mut waiting = all(net.actors());
    run.go_on(net, &mut waiting);
    Ok(run.firings == net.total())
}

/// The channel's least capacity with these bounds of the others, and the number of firings, where
/// it is known that none below `from` completes a period.
pub(crate) fn least_bound(
    alloc: Global,
    net: &Net,
    bounds: &[u32],
    number: u32,
    from: u32,
) -> Result<(u32, u32), AllocError>
    requires exists { number < length net.now.channels }
    requires fits { (c : Channel) → slice_get net.now.channels number ≡ Some c → length c.initial ≤ from }
    requires low { (w : ℕ) → CompletesPeriod net.now.channels net.now.firings (slice_set bounds.now number w) → from ≤ w }
    requires completes { CompletesPeriod net.now.channels net.now.firings bounds.now }
    ensures least { IfOk result (λ found. IsLeastCapacity net.now.channels net.now.firings bounds.now number found.0) }
    ensures firings { IfOk result (λ found. found.1 ≡ sum net.now.firings) }
{
    let mut start = copy_of(alloc, bounds)?;
    start[number as usize] = from;
    let mut run = Run::new(alloc, net, start)?;
    let mut waiting = all(net.actors());
    run.go_on(net, &mut waiting);
    while run.firings < net.total() {
        run.raise(net, number, &mut waiting);
        run.go_on(net, &mut waiting);
    }
    Ok((run.bounds[number as usize], run.firings))
}

/// The least capacity of the channel that completes a period with the other entries of `bounds`,
/// and how many firings the search made, which is the sum of all `q`.
///
/// The run starts at the channel's initial tokens, or at 1 where it has none. At a stall it raises the capacity to the least
/// that lets the channel's producer fire there, and goes on from the counts that it reached: under
/// every capacity that completes a period the producer can fire there. An error says that memory
/// ran out.
pub fn raise(
    alloc: Global,
    graph: &Graph,
    vector: &Vector,
    bounds: &[u32],
    c: u32,
) -> Result<(u32, u32), AllocError>
    requires vector { IsRepetition graph.now.actors graph.now.channels vector.now.r.items vector.now.q.items }
    requires exists { c < length graph.now.channels }
    requires small { All (λ b. b ≤ MAX_CAPACITY) bounds.now }
    requires completes { CompletesPeriod graph.now.channels vector.now.q.items bounds.now }
    ensures least { IfOk result (λ found. IsLeastCapacity graph.now.channels vector.now.q.items bounds.now c found.0) }
    ensures firings { IfOk result (λ found. found.1 ≡ sum vector.now.q.items) }
{
    let net = net_of(alloc, graph, vector)?;
    let first = (net.channel(c).initial.len() as u32).max(1);
    least_bound(alloc, &net, bounds, c, first)
}

/// The graph with the firings of a period.
pub(crate) fn net_of<'a>(
    alloc: Global,
    graph: &'a Graph,
    vector: &'a Vector,
) -> Result<Net<'a>, AllocError>
    requires { IsRepetition graph.now.actors graph.now.channels vector.now.r.items vector.now.q.items }
    ensures channels { IfOk result (λ net. net.channels ≡ graph.now.channels) }
    ensures firings { IfOk result (λ net. net.firings ≡ vector.now.q.items) }
{
    // Read for the prover: what every graph keeps.
    let _well_formed = graph.channels();
    Net::new(alloc, graph, &vector.q)
}
