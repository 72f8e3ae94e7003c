//! The circle of actors that hold each other up where a run stands still.

ghost use Rattle.std.specs.Prelude.{◌≡◌, ◌==◌, [], map, slice_index, slice_index_or, None, IfOk};
ghost use Rattle.std.specs.List.{list_any};
ghost use Rattle.csdf_model.specs.Graph.{channel_view};
ghost use Rattle.csdf_explain.specs.Circle.{awaited, awaited_by, circle, circle_at, consumers, is_other, producers, waiting_but, walked};

use csdf_analysis::Wait;
use csdf_model::Channel;
use std::alloc::{AllocError, Global};

/// The number of the channel's producer.
fn producer_at(channels: &[Channel], number: u32) -> usize
    ensures { result ≡ slice_index (producers (map channel_view channels.now)) number }
{
    match channels.get(number as usize) {
        Some(channel) => channel.from as usize,
        None => 0,
    }
}

/// The number of the channel's consumer.
fn consumer_at(channels: &[Channel], number: u32) -> usize
    ensures { result ≡ slice_index (consumers (map channel_view channels.now)) number }
{
    match channels.get(number as usize) {
        Some(channel) => channel.to as usize,
        None => 0,
    }
}

/// What the actor with this number waits for, where it does.
pub(crate) fn wait_at(waits: &[Option<Wait>], actor: usize) -> Option<Wait>
    ensures { result ≡ slice_index_or waits.now actor None }
{
    waits.get(actor).copied().unwrap_or(None)
}

/// The actor that one with this wait waits for.
fn awaited_by(channels: &[Channel], actor: usize, wait: Option<Wait>) -> usize
    ensures { result ≡ awaited_by (map channel_view channels.now) actor wait }
{
    match wait {
        Some(Wait::Tokens(number)) => producer_at(channels, number),
        Some(Wait::Room(number)) => consumer_at(channels, number),
        None => actor,
    }
}

/// The actor that this one waits for.
fn awaited(channels: &[Channel], waits: &[Option<Wait>], actor: usize) -> usize
    ensures { result ≡ awaited (map channel_view channels.now) waits.now actor }
{
    awaited_by(channels, actor, wait_at(waits, actor))
}

/// The actor that is come to from this one in as many steps as there are actors.
fn walked(channels: &[Channel], waits: &[Option<Wait>], start: usize) -> usize
    ensures { result ≡ walked (map channel_view channels.now) waits.now waits.now start }
{
    let mut actor = start;
    for _ in waits {
        actor = awaited(channels, waits, actor);
    }
    actor
}

/// The circle from this actor, which is in it.
fn circle_at(
    alloc: Global,
    channels: &[Channel],
    waits: &[Option<Wait>],
    first: usize,
) -> Result<Vec<usize>, AllocError>
    ensures { IfOk result (λ found. found.items ≡ circle_at (map channel_view channels.now) waits.now first) }
{
    let mut found = Vec::new(alloc);
    let mut actor = first;
    for _ in waits {
        found.push(actor)?;
        actor = awaited(channels, waits, actor);
        if actor == first {
            return Ok(found);
        }
    }
    Ok(found)
}

/// Whether the number is among these.
fn is_among(numbers: &[usize], number: usize) -> bool
    ensures { result ≡ list_any (λ b. b == number) numbers.now }
{
    numbers.iter().any(|other| *other == number)
}

/// Whether an actor waits, and is none of these.
fn is_other(these: &[usize], actor: usize, wait: Option<Wait>) -> bool
    ensures { result ≡ is_other these.now actor wait }
{
    match wait {
        Some(_) => !is_among(these, actor),
        None => false,
    }
}

/// The actors that wait, but for these, in file order.
pub(crate) fn waiting_but(
    alloc: Global,
    these: &[usize],
    waits: &[Option<Wait>],
) -> Result<Vec<usize>, AllocError>
    ensures { IfOk result (λ others. others.items ≡ waiting_but these.now 0 waits.now) }
{
    let mut others = Vec::new(alloc);
    for (actor, wait) in waits.iter().enumerate() {
        if is_other(these, actor, *wait) {
            others.push(actor)?;
        }
    }
    Ok(others)
}

/// The first of the numbers, and 0 where there is none.
fn first_of(numbers: &[usize]) -> usize
    ensures { result ≡ slice_index numbers.now 0 }
{
    numbers.get(0).copied().unwrap_or(0)
}

/// The circle that the first actor that waits leads to.
pub(crate) fn circle_of(
    alloc: Global,
    channels: &[Channel],
    waits: &[Option<Wait>],
) -> Result<Vec<usize>, AllocError>
    ensures { IfOk result (λ found. found.items ≡ circle (map channel_view channels.now) waits.now) }
{
    let waiting = waiting_but(alloc, &[], waits)?;
    let first = walked(channels, waits, first_of(&waiting));
    circle_at(alloc, channels, waits, first)
}
