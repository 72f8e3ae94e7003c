//! Where a run of a period stands still.

ghost use Rattle.std.specs.Prelude.{◌≡◌, IfOk};
ghost use Rattle.csdf_analysis.specs.Repetition.{IsRepetition};
ghost use Rattle.csdf_analysis.specs.Stalling.{IsStall, bounds_for};

use crate::calls::capacities::{first_bounds, full_capacities};
use crate::calls::raise::net_of;
use crate::mask::all;
use crate::run::Run;
use crate::stall::{Bounds, Stall};
use crate::vector::Vector;
use crate::waits::waits_of;
use csdf_model::Graph;
use std::alloc::{AllocError, Global};

/// The capacities that bound a run.
pub(crate) fn bounds_of(
    alloc: Global,
    graph: &Graph,
    vector: &Vector,
    bounds: Bounds,
) -> Result<Vec<u32>, AllocError>
    requires { IsRepetition graph.now.actors graph.now.channels vector.now.r.items vector.now.q.items }
    ensures { IfOk result (λ v. v.items ≡ bounds_for bounds vector.now.q.items graph.now.channels) }
{
    match bounds {
        Bounds::Full => full_capacities(alloc, graph.channels(), &vector.q),
        Bounds::Given => first_bounds(alloc, graph.channels(), &vector.q),
    }
}

/// Where a run of a period stands still under these capacities, which may be its end: a run in
/// which actors fire as long as one that has fired less often than in a period is able to. Every
/// such run ends with the same counts.
///
/// Where [`capacities`](crate::capacities) answers
/// [`AcceptFault::Deadlock`](crate::AcceptFault::Deadlock), the run under [`Bounds::Full`] stands
/// still before the end of a period; where it answers
/// [`AcceptFault::TooTight`](crate::AcceptFault::TooTight), that under [`Bounds::Given`] does. An
/// error says that memory ran out.
pub fn stall_of(
    alloc: Global,
    graph: &Graph,
    vector: &Vector,
    bounds: Bounds,
) -> Result<Stall, AllocError>
    requires { IsRepetition graph.now.actors graph.now.channels vector.now.r.items vector.now.q.items }
    ensures { IfOk result (IsStall graph.now.channels vector.now.q.items (bounds_for bounds vector.now.q.items graph.now.channels)) }
{
    let bounds = bounds_of(alloc, graph, vector, bounds)?;
    let net = net_of(alloc, graph, vector)?;
    let mut run = Run::new(alloc, &net, bounds)?;
    let mut waiting = all(net.actors());
    run.go_on(&net, &mut waiting);
    let waits = waits_of(alloc, &net, &run)?;
    Ok(run.into_stall(waits))
}
