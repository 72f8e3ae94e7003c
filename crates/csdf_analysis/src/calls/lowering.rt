//! The search for the least capacities where the channels stand in each other's way.

ghost use Rattle.std.specs.Prelude.{◌≡◌, ◌<◌, ◌≤◌, All, IfOk, length, suc};
ghost use Rattle.csdf_analysis.specs.Alone.{AreOwnBounds};
ghost use Rattle.csdf_analysis.specs.Lowering.{IsLowered};
ghost use Rattle.csdf_analysis.specs.Period.{HoldInitial};

use crate::calls::alone::with_own;
use crate::calls::raise::{least_bound, makes_all};
use crate::net::Net;
use csdf_model::MAX_CAPACITY;
use std::alloc::{AllocError, Global};

/// These bounds, once this channel's capacity, if it is not given, is the least that completes a
/// period with the others.
fn lowered_at(
    alloc: Global,
    net: &Net,
    own: &[u32],
    bounds: Vec<u32>,
    place: u32,
) -> Result<Vec<u32>, AllocError>
    requires own { AreOwnBounds net.now.channels net.now.firings own.now }
    requires exists { place < length net.now.channels }
    requires first { IsLowered net.now.channels net.now.firings place bounds.items }
    ensures { IfOk result (λ v. IsLowered net.now.channels net.now.firings (suc place) v.items) }
{
    let mut bounds = bounds;
    if net.channel(place).capacity.is_none() {
        let (least, _) = least_bound(alloc, net, &bounds, place, own[place as usize])?;
        bounds[place as usize] = least;
    }
    Ok(bounds)
}

/// Before which channel the own ones are tried to end next: by a step, where it is not known that
/// they must end before `limit`, and else by half of what is left.
fn next_end(place: u32, limit: u32, step: u32) -> u32
    requires { place < limit }
    ensures some { place < result }
    ensures within { result ≤ limit }
{
    let rest = limit - place;
    let far = if step == 0 { rest / 2 } else { step };
    place + far.clamp(1, rest)
}

/// These bounds, once each capacity that is not given is the least that completes a period with
/// the others.
///
/// The own ones from a channel on up to some end complete a period or not: where they do, they are
/// the least of these channels, and so they are up to each end before. The greatest such end is
/// found by halving, since it is known that not all of them complete; behind it the next channel's
/// capacity is raised. From there on the steps begin with one channel and double, so that
/// neighbours above their own ones cost two runs each.
pub(crate) fn lowered(
    alloc: Global,
    net: &Net,
    own: &[u32],
    bounds: Vec<u32>,
) -> Result<Vec<u32>, AllocError>
    requires own { AreOwnBounds net.now.channels net.now.firings own.now }
    requires small { All (λ b. b ≤ MAX_CAPACITY) own.now }
    requires initial { HoldInitial net.now.channels own.now }
    requires first { IsLowered net.now.channels net.now.firings 0 bounds.items }
    ensures { IfOk result (λ v. IsLowered net.now.channels net.now.firings (length net.now.channels) v.items) }
{
    let mut bounds = bounds;
    let count = net.channels() as u32;
    let mut place = 0;
    let mut limit = count.saturating_sub(1);
    let mut step = 0;
    while place < count {
        if place < limit {
            let end = next_end(place, limit, step);
            let next = with_own(alloc, &bounds, own, place as usize, end as usize)?;
            if makes_all(alloc, net, &next)? {
                bounds = next;
                step = 2 * step.min(count);
                place = end;
            } else {
                limit = end - 1;
                step = 0;
            }
        } else {
            bounds = lowered_at(alloc, net, own, bounds, place)?;
            place += 1;
            limit = count;
            step = 1;
        }
    }
    Ok(bounds)
}
