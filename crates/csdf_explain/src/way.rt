//! Which channels join the two actors of another one.

ghost use Rattle.std.specs.Prelude.{◌≡◌, ◌<◌, ◌≤◌, ◌+◌, ◌^◌, ℕ, true, false, length, map, take, slice_get, Some, None, IfOk, IfSome};
ghost use Rattle.csdf_model.specs.Graph.{channel_view};
ghost use Rattle.csdf_explain.specs.Distances.{AreDistances, EndsWithin, IsFirstStep, IsStep, Spreads, distance_at, is_far, is_reached, is_unknown, nearer, reached, unknown_count};
ghost use Rattle.csdf_explain.specs.Ways.{ClosesCircle, IsFirstWay, across};

use csdf_model::Channel;
use std::alloc::{AllocError, Global};

/// The other end of a channel that has the actor at one end.
fn across(channel: &Channel, actor: u32) -> Option<u32>
    ensures { result ≡ across (Some (channel_view channel.now)) actor }
{
    if channel.from == actor {
        Some(channel.to)
    } else if channel.to == actor {
        Some(channel.from)
    } else {
        None
    }
}

/// How many channels the actor is away, where it was come to.
fn distance_at(distances: &[Option<usize>], actor: u32) -> Option<usize>
    ensures { result ≡ distance_at distances.now actor }
{
    distances.get(actor as usize).copied().unwrap_or(None)
}

/// Whether the actor is so many channels away.
fn is_far(distances: &[Option<usize>], actor: u32, count: usize) -> bool
    ensures { result ≡ is_far (distance_at distances.now actor) count }
{
    match distance_at(distances, actor) {
        Some(distance) => distance == count,
        None => false,
    }
}

/// Whether nobody has come to the actor.
fn is_unknown(distances: &[Option<usize>], actor: u32) -> bool
    ensures { result ≡ is_unknown (distance_at distances.now actor) }
{
    match distance_at(distances, actor) {
        Some(_) => false,
        None => true,
    }
}

/// Whether nobody has come to an actor that is next to one so many channels away.
fn is_reached(distances: &[Option<usize>], near: u32, far: u32, count: usize) -> bool
    ensures { result ≡ is_reached distances.now near far count }
{
    is_far(distances, near, count) && is_unknown(distances, far)
}

/// Comes to an actor that is next to one so many channels away, where nobody has come to it yet.
/// Whether it did.
fn reach(distances: &mut [Option<usize>], near: u32, far: u32, count: usize) -> bool
    requires exists { far < length distances.old }
    requires fits { count + 1 < 2 ^ 64 }
    ensures new { distances.new ≡ reached distances.old near far count }
    ensures told { result ≡ is_reached distances.old near far count }
{
    let is_new = is_reached(distances, near, far, count);
    if is_new {
        distances[far as usize] = Some(count + 1);
    }
    is_new
}

/// Comes to the actors that are next to those so many channels away. Whether there were some.
fn spread(distances: &mut [Option<usize>], channels: &[Channel], count: usize) -> bool
    requires within { EndsWithin (length distances.old) (map channel_view channels.now) }
    requires fits { count + 1 < 2 ^ 64 }
    ensures length { length distances.new ≡ length distances.old }
    ensures spreads { Spreads (map channel_view channels.now) (length channels.now) count distances.old distances.new }
    ensures fewer { result ≡ true → unknown_count distances.new < unknown_count distances.old }
    ensures same { result ≡ false → distances.new ≡ distances.old }
{
    let mut is_more = false;
    for channel in channels {
        let there = reach(distances, channel.from, channel.to, count);
        let back = reach(distances, channel.to, channel.from, count);
        is_more = is_more | there | back;
    }
    is_more
}

/// How many channels each actor is away from this one, where a way over these leads there.
fn distances_from(
    alloc: Global,
    channels: &[Channel],
    actors: usize,
    start: u32,
) -> Result<Vec<Option<usize>>, AllocError>
    requires exists { start < actors }
    requires within { EndsWithin actors (map channel_view channels.now) }
    ensures { IfOk result (λ v. AreDistances (map channel_view channels.now) start v.items) }
{
    let mut distances = vec![in alloc; None; actors]?;
    distances[start as usize] = Some(0);
    let mut count = 0;
    while spread(&mut distances, channels, count) {
        count += 1;
    }
    Ok(distances)
}

/// Where the channel leads from the actor, if that is so many channels away.
fn nearer(channel: &Channel, distances: &[Option<usize>], actor: u32, count: usize) -> Option<u32>
    ensures { result ≡ nearer distances.now (across (Some (channel_view channel.now)) actor) count }
{
    let other = across(channel, actor)?;
    if is_far(distances, other, count) {
        Some(other)
    } else {
        None
    }
}

/// The first channel that leads from the actor to one that is so many channels away, and that one.
fn step(
    channels: &[Channel],
    distances: &[Option<usize>],
    actor: u32,
    count: usize,
) -> Option<(u32, u32)>
    requires { length channels.now < 2 ^ 32 }
    ensures found { IfSome result (λ s. IsFirstStep (map channel_view channels.now) distances.now actor count s.0 s.1) }
    ensures none { result ≡ None → (n b : ℕ) → IsStep (map channel_view channels.now) distances.now actor count n b → ⊥ }
{
    for (number, channel) in channels.iter().enumerate() {
        if let Some(other) = nearer(channel, distances, actor, count) {
            return Some((number as u32, other));
        }
    }
    None
}

/// The first of the shortest ways from an actor that is so many channels away.
fn way_down(
    alloc: Global,
    channels: &[Channel],
    distances: &[Option<usize>],
    from: u32,
    count: usize,
) -> Result<Vec<u32>, AllocError>
    requires few { length channels.now < 2 ^ 32 }
    ensures { IfOk result (λ way. (start : ℕ) → AreDistances (map channel_view channels.now) start distances.now
        → distance_at distances.now from ≡ Some count → IsFirstWay (map channel_view channels.now) from start way.items) }
{
    let mut way = Vec::new(alloc);
    let mut actor = from;
    let mut left = count;
    while left > 0 {
        left -= 1;
        let Some((number, next)) = step(channels, distances, actor, left) else {
            break;
        };
        way.push(number)?;
        actor = next;
    }
    Ok(way)
}

/// The channels before this one that join its ends, from its consumer to its producer: the first of the shortest
/// ways; none where no way leads.
pub(crate) fn joining(
    alloc: Global,
    channels: &[Channel],
    actors: usize,
    number: u32,
) -> Result<Vec<u32>, AllocError>
    requires exists { number < length channels.now }
    requires within { EndsWithin actors (map channel_view channels.now) }
    ensures { IfOk result (λ way. ClosesCircle (map channel_view channels.now) number way.items) }
{
    let channel = &channels[number as usize];
    let before = &channels[..number as usize];
    let distances = distances_from(alloc, before, actors, channel.from)?;
    match distance_at(&distances, channel.to) {
        Some(count) => way_down(alloc, before, &distances, channel.to, count),
        None => Ok(Vec::new(alloc)),
    }
}
