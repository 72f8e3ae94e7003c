//! The channel whose capacity alone is to be raised where a run stands still for want of room.

ghost use Rattle.std.specs.Prelude.{◌≡◌, ◌<◌, ℕ, Some, None, IfOk, MatchOption, length, slice_index_or};
ghost use Rattle.csdf_analysis.specs.Capacities.{IsLeastCapacity};
ghost use Rattle.csdf_analysis.specs.Lowering.{first_bounds};
ghost use Rattle.csdf_analysis.specs.Relief.{HasNoRelief, HaveNoRelief, IsFirstRelief, IsReliefOf, NoneIsEnough, roomy_bounds};
ghost use Rattle.csdf_analysis.specs.Repetition.{IsRepetition};
ghost use Rattle.csdf_analysis.specs.Stalling.{IsStall, bounds_for};

use crate::calls::raise::{makes_all, net_of, raise};
use crate::calls::stall::bounds_of;
use crate::stall::{Bounds, Stall, Wait};
use crate::vector::Vector;
use csdf_model::Graph;
use std::alloc::{AllocError, Global};

/// A channel with a greater capacity of which a period completes, while the others keep theirs.
#[derive(Clone, Copy, Debug, PartialEq, Eq)]
pub struct Relief {
    /// The channel's number.
    pub channel: u32,
    /// Its least such capacity.
    pub capacity: u32,
}

/// The given capacities, and elsewhere the full ones, but the full one for this channel.
fn roomy_bounds(
    alloc: Global,
    graph: &Graph,
    vector: &Vector,
    number: u32,
) -> Result<Vec<u32>, AllocError>
    requires vector { IsRepetition graph.now.actors graph.now.channels vector.now.r.items vector.now.q.items }
    requires exists { number < length graph.now.channels }
    ensures { IfOk result (λ v. v.items ≡ roomy_bounds vector.now.q.items graph.now.channels number) }
{
    let full = bounds_of(alloc, graph, vector, Bounds::Full)?;
    let mut bounds = bounds_of(alloc, graph, vector, Bounds::Given)?;
    bounds[number as usize] = full[number as usize];
    Ok(bounds)
}

/// The least capacity of the channel that completes a period with those of the others, where there is
/// one.
fn least_enough(
    alloc: Global,
    graph: &Graph,
    vector: &Vector,
    number: u32,
) -> Result<Option<u32>, AllocError>
    requires vector { IsRepetition graph.now.actors graph.now.channels vector.now.r.items vector.now.q.items }
    requires exists { number < length graph.now.channels }
    ensures { IfOk result (λ found. MatchOption found (NoneIsEnough graph.now.channels vector.now.q.items number)
        (IsLeastCapacity graph.now.channels vector.now.q.items (first_bounds vector.now.q.items graph.now.channels) number)) }
{
    // Read for the prover: what every graph keeps.
    let _well_formed = graph.channels();
    let bounds = roomy_bounds(alloc, graph, vector, number)?;
    let net = net_of(alloc, graph, vector)?;
    if makes_all(alloc, &net, &bounds)? {
        let (least, _) = raise(alloc, graph, vector, &bounds, number)?;
        Ok(Some(least))
    } else {
        Ok(None)
    }
}

/// The relief of an actor that waits so, where there is one.
fn relief_by(
    alloc: Global,
    graph: &Graph,
    vector: &Vector,
    wait: Option<Wait>,
) -> Result<Option<Relief>, AllocError>
    requires vector { IsRepetition graph.now.actors graph.now.channels vector.now.r.items vector.now.q.items }
    requires exists { (c : ℕ) → wait ≡ Some (Wait.Room c) → c < length graph.now.channels }
    ensures { IfOk result (λ found. MatchOption found (HasNoRelief graph.now.channels vector.now.q.items wait)
        (IsReliefOf graph.now.channels vector.now.q.items wait)) }
{
    let Some(Wait::Room(channel)) = wait else {
        return Ok(None);
    };
    match least_enough(alloc, graph, vector, channel)? {
        Some(capacity) => Ok(Some(Relief { channel, capacity })),
        None => Ok(None),
    }
}

/// The relief of the first of the actors that wait so, where there is one.
fn first_relief(
    alloc: Global,
    graph: &Graph,
    vector: &Vector,
    waits: &[Option<Wait>],
) -> Result<Option<Relief>, AllocError>
    requires vector { IsRepetition graph.now.actors graph.now.channels vector.now.r.items vector.now.q.items }
    requires exist { (a c : ℕ) → slice_index_or waits.now a None ≡ Some (Wait.Room c) → c < length graph.now.channels }
    ensures { IfOk result (λ found. MatchOption found (HaveNoRelief graph.now.channels vector.now.q.items waits.now)
        (IsFirstRelief graph.now.channels vector.now.q.items waits.now)) }
{
    for wait in waits {
        if let Some(relief) = relief_by(alloc, graph, vector, *wait)? {
            return Ok(Some(relief));
        }
    }
    Ok(None)
}

/// Where a run stands still under the given capacities: a channel in which an actor waits for room,
/// and its least capacity with which a period completes while the others keep theirs. Of the actors
/// for which there is one it is the first, in file order; nothing where no single channel is enough.
pub fn relief_of(
    alloc: Global,
    graph: &Graph,
    vector: &Vector,
    stall: &Stall,
) -> Result<Option<Relief>, AllocError>
    requires vector { IsRepetition graph.now.actors graph.now.channels vector.now.r.items vector.now.q.items }
    requires stall { IsStall graph.now.channels vector.now.q.items (bounds_for Bounds.Given vector.now.q.items graph.now.channels) stall.now }
    ensures { IfOk result (λ found. MatchOption found (HaveNoRelief graph.now.channels vector.now.q.items stall.now.waits.items)
        (IsFirstRelief graph.now.channels vector.now.q.items stall.now.waits.items)) }
{
    first_relief(alloc, graph, vector, &stall.waits)
}
