//! The printed schedule of a period.

ghost use Rattle.std.specs.Prelude.{IfOk};
ghost use Rattle.csdf_analysis.specs.Period.{CompletesPeriod, IsScheduleOf};

use crate::accepted::Accepted;
use crate::calls::raise::{copy_of, net_of};
use crate::mask::all;
use crate::net::Net;
use crate::run::Run;
use std::alloc::{AllocError, Global};

/// The actors of a period under these bounds, the lowest-numbered that can fire first.
fn in_order(alloc: Global, net: &Net, bounds: Vec<u32>) -> Result<Vec<u32>, AllocError>
    requires { CompletesPeriod net.now.channels net.now.firings bounds.items }
    ensures { IfOk result (λ v. IsScheduleOf net.now.channels net.now.firings bounds.items v.items) }
{
    let mut run = Run::new(alloc, net, bounds)?;
    let mut waiting = all(net.actors());
    let mut schedule = Vec::with_capacity(alloc, net.total() as usize)?;
    while let Some(actor) = run.next(net, &mut waiting) {
        schedule.push(actor)?;
        run.step(net, actor, &mut waiting);
    }
    Ok(schedule)
}

/// The actors of one period in order: at each place the lowest-numbered actor that is able to fire
/// under the capacities and stands there fewer times before than it fires in a period (a class S
/// algorithm of Lee and Messerschmitt 1987).
///
/// An error says that memory ran out.
pub fn schedule(alloc: Global, accepted: &Accepted) -> Result<Vec<u32>, AllocError>
    ensures { IfOk result (λ v. IsScheduleOf accepted.now.graph.channels accepted.now.q accepted.now.capacities v.items) }
{
    let net = net_of(alloc, accepted.graph(), accepted.vector())?;
    let bounds = copy_of(alloc, accepted.capacities())?;
    in_order(alloc, &net, bounds)
}
