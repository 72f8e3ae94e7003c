//! How often the actors of a graph can fire at most, by the tokens that its sources have.

ghost use Rattle.std.specs.Prelude.{◌≡◌, ◌≤◌, ◌<◌, ◌*◌, ℕ, All, IfOk, List, length, map, false, true, nat_lt, slice_index, sum};
ghost use Rattle.csdf_model.specs.Graph.{channel_view};
ghost use Rattle.csdf_analysis.specs.Fewer.{AreFewRates, AreHeldIn, AreMostAlone, HaveFewRates, IsHeld, IsLoweredTo, IsMostAlone, IsMostGiven, IsMostMoved};
ghost use Rattle.csdf_analysis.specs.Laws.{IsWithinAll};
ghost use Rattle.csdf_analysis.specs.Most.{AreMost, FitsChannel, FitsChannels, given_by, given_to};

use crate::accepted::Accepted;
use csdf_model::{Channel, MAX_CHANNELS, MAX_FIRINGS_PER_ACTOR, total};
use std::alloc::{AllocError, Global};

/// The greatest number of firings, at most `before`, that move at most so many tokens by these rates.
fn most_moved(rates: &[u32], tokens: u64, before: u32) -> u32
    requires { AreFewRates rates.now }
    ensures { IsMostMoved rates.now tokens before result }
{
    if total(rates, before) <= tokens {
        return before;
    }
    // Whole cycles first, and then firing by firing: at most as many as there are phases.
    let phases = rates.len() as u32;
    let whole = (tokens / total(rates, phases)) as u32 * phases;
    for firings in whole..before {
        if total(rates, firings + 1) > tokens {
            return firings;
        }
    }
    before
}

/// How many tokens the first `firings` firings of the actor put into the channel: none where it is not
/// the producer.
fn given_to(channel: &Channel, actor: u32, firings: u32) -> u64
    ensures { result ≡ given_to actor firings (channel_view channel.now) }
{
    if channel.from == actor {
        channel.produced(firings)
    } else {
        0
    }
}

/// How many tokens the first `firings` firings of the actor put into all channels.
fn given_by(channels: &[Channel], actor: u32, firings: u32) -> u64
    requires few { length channels.now ≤ MAX_CHANNELS }
    requires rates { HaveFewRates (map channel_view channels.now) }
    ensures { result ≡ given_by (map channel_view channels.now) actor firings }
{
    let mut given = 0;
    for channel in channels {
        given += given_to(channel, actor, firings);
    }
    given
}

/// The greatest number of firings of the actor, at most `before`, that put at most so many tokens into
/// all channels.
fn most_given(channels: &[Channel], actor: u32, tokens: u64, before: u32) -> u32
    requires few { length channels.now ≤ MAX_CHANNELS }
    requires rates { HaveFewRates (map channel_view channels.now) }
    ensures { IsMostGiven (map channel_view channels.now) actor tokens before result }
{
    if given_by(channels, actor, before) <= tokens {
        return before;
    }
    let mut low = 0;
    let mut high = before;
    while low < high {
        let middle = high - (high - low) / 2;
        if given_by(channels, actor, middle) <= tokens {
            low = middle;
        } else {
            high = middle - 1;
        }
    }
    low
}

/// How often the actor may fire by itself: as often as in the periods, and a source as often as it has
/// the tokens for.
fn most_alone(accepted: &Accepted, periods: u32, tokens: &[usize], actor: usize) -> u32
    requires exists { actor < length accepted.now.graph.actors }
    requires each_actor { length tokens.now ≡ length accepted.now.graph.actors }
    requires few_firings { All (λ q. periods * q ≤ MAX_FIRINGS_PER_ACTOR) accepted.now.q }
    ensures { IsMostAlone accepted.now periods tokens.now actor result }
{
    let most = periods * accepted.vector().q[actor];
    let graph = accepted.graph();
    if graph.actors()[actor].kernel.is_source() {
        most_given(graph.channels(), actor as u32, tokens[actor] as u64, most)
    } else {
        most
    }
}

/// How often each actor may fire by itself.
fn all_alone(
    alloc: Global,
    accepted: &Accepted,
    periods: u32,
    tokens: &[usize],
) -> Result<Vec<u32>, AllocError>
    requires each_actor { length tokens.now ≡ length accepted.now.graph.actors }
    requires few_firings { All (λ q. periods * q ≤ MAX_FIRINGS_PER_ACTOR) accepted.now.q }
    ensures { IfOk result (λ alone. AreMostAlone accepted.now periods tokens.now alone.items) }
{
    let mut alone = Vec::new(alloc);
    for actor in 0..tokens.len() {
        alone.push(most_alone(accepted, periods, tokens, actor))?;
    }
    Ok(alone)
}

/// Lowers the actor's number to the greatest that moves at most so many tokens by these rates, and tells
/// whether that is a lower one.
fn lower(most: &mut [u32], actor: usize, rates: &[u32], tokens: u64) -> bool
    requires exists { actor < length most.old }
    requires rates { AreFewRates rates.now }
    ensures lowered { IsLoweredTo rates.now tokens actor most.old most.new }
    ensures tells { result ≡ nat_lt (slice_index most.new actor) (slice_index most.old actor) }
{
    let before = most[actor];
    let now = most_moved(rates, tokens, before);
    most[actor] = now;
    now < before
}

/// Lowers the numbers of the channel's ends to what it allows, and tells whether one is lower: the consumer
/// can't take what was not put in, nor the producer put in what there is no room for.
fn lower_ends(most: &mut [u32], channel: &Channel, capacity: u32) -> bool
    requires { IsHeld (length most.old) capacity (channel_view channel.now) }
    ensures within { IsWithinAll most.new most.old }
    ensures kept { (n : List ℕ) → FitsChannel capacity n (channel_view channel.now) → IsWithinAll n most.old → IsWithinAll n most.new }
    ensures lower { result ≡ true → sum most.new < sum most.old }
    ensures same { result ≡ false → most.new ≡ most.old }
    ensures fits { result ≡ false → FitsChannel capacity most.new (channel_view channel.now) }
{
    let initial = channel.initial.len() as u64;
    let there = initial + channel.produced(most[channel.from as usize]);
    let takes_less = lower(most, channel.to as usize, &channel.consume, there);
    let room = u64::from(capacity) - initial + channel.consumed(most[channel.to as usize]);
    let gives_less = lower(most, channel.from as usize, &channel.produce, room);
    takes_less | gives_less
}

/// Lowers the numbers to what each channel allows, one after the other, and tells whether one is lower.
fn lower_all(most: &mut [u32], channels: &[Channel], capacities: &[u32]) -> bool
    requires each_channel { length capacities.now ≡ length channels.now }
    requires held { AreHeldIn (length most.old) (map channel_view channels.now) capacities.now }
    ensures within { IsWithinAll most.new most.old }
    ensures kept { (n : List ℕ) → FitsChannels (map channel_view channels.now) capacities.now n → IsWithinAll n most.old → IsWithinAll n most.new }
    ensures lower { result ≡ true → sum most.new < sum most.old }
    ensures fits { result ≡ false → FitsChannels (map channel_view channels.now) capacities.now most.new }
{
    let mut is_lower = false;
    for number in 0..channels.len() {
        is_lower |= lower_ends(most, &channels[number], capacities[number]);
    }
    is_lower
}

/// Lowers the numbers until each channel allows them.
fn lower_until_fitting(most: &mut [u32], channels: &[Channel], capacities: &[u32])
    requires each_channel { length capacities.now ≡ length channels.now }
    requires held { AreHeldIn (length most.old) (map channel_view channels.now) capacities.now }
    ensures within { IsWithinAll most.new most.old }
    ensures kept { (n : List ℕ) → FitsChannels (map channel_view channels.now) capacities.now n → IsWithinAll n most.old → IsWithinAll n most.new }
    ensures fits { FitsChannels (map channel_view channels.now) capacities.now most.new }
{
    while lower_all(most, channels, capacities) {}
}

/// How often each actor can fire at most in so many periods, where the sources have so many tokens and the
/// channels their least capacities: the greatest counts of firings that fit. Of an actor that is no source
/// the number of tokens says nothing.
///
/// An error says that memory ran out.
pub fn most_firings(
    alloc: Global,
    accepted: &Accepted,
    periods: u32,
    tokens: &[usize],
) -> Result<Vec<u32>, AllocError>
    requires each_actor { length tokens.now ≡ length accepted.now.graph.actors }
    requires few_firings { All (λ q. periods * q ≤ MAX_FIRINGS_PER_ACTOR) accepted.now.q }
    ensures { IfOk result (λ most. AreMost accepted.now periods tokens.now most.items) }
{
    let mut most = all_alone(alloc, accepted, periods, tokens)?;
    lower_until_fitting(
        &mut most,
        accepted.graph().channels(),
        accepted.capacities(),
    );
    Ok(most)
}
