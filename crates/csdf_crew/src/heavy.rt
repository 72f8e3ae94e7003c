//! Which actors have firings that several workers gain by, and which graphs have enough of them.

ghost use Rattle.std.specs.Prelude.{◌≡◌, ◌≤◌, ◌*◌, count_by, length, map, sum_by};
ghost use Rattle.std.specs.List.{enumerate_from, list_all, zip};
ghost use Rattle.csdf_model.specs.Graph.{actor_view, channel_view};
ghost use Rattle.csdf_crew.specs.Heavy.{firings_of_block, gains_by_workers, has_blocks, hold_all, holds, is_heavy, keeps_state, products, read_from, taps_of, written_to};

use csdf_analysis::Accepted;
use csdf_model::{Actor, Channel, Kernel, MAX_CHANNELS};

/// The products of a firing for which another worker is woken.
const HEAVY_FIRING: u64 = 16_384;

/// How many products make a block of firings heavy, so that it is evaluated without the lock: some 45
/// microseconds.
pub(crate) const HEAVY_BLOCK: u64 = 98_304;

/// How many weights of a filter count; none of another kernel.
fn taps_of(kernel: &Kernel) -> u32
    ensures value { result ≡ taps_of kernel.now }
    ensures few { result ≤ 16 }
{
    match kernel {
        Kernel::Fir { taps, .. } => (*taps).min(16),
        _ => 0,
    }
}

/// How many tokens the first firing of an actor reads from a channel.
fn read_from(actor: usize, channel: &Channel) -> u32
    ensures { result ≡ read_from actor (channel_view channel.now) }
{
    if channel.to as usize == actor {
        channel.consumption(0)
    } else {
        0
    }
}

/// How many tokens the first firing of an actor writes to a channel.
fn written_to(actor: usize, channel: &Channel) -> u32
    ensures { result ≡ written_to actor (channel_view channel.now) }
{
    if channel.from as usize == actor {
        channel.production(0)
    } else {
        0
    }
}

/// How many tokens the first firing of an actor reads.
fn reads(channels: &[Channel], actor: usize) -> u64
    requires { length channels.now ≤ MAX_CHANNELS }
    ensures value { result ≡ sum_by (read_from actor) (map channel_view channels.now) }
    ensures few { result ≤ 128 * 4294967295 }
{
    let mut sum = 0;
    for channel in channels {
        sum += u64::from(read_from(actor, channel));
    }
    sum
}

/// How many products it takes.
fn products(channels: &[Channel], number: usize, actor: &Actor) -> u64
    requires { length channels.now ≤ MAX_CHANNELS }
    ensures value { result ≡ products (map channel_view channels.now) number (actor_view actor.now) }
    ensures few { result ≤ 128 * 4294967295 * 16 }
{
    reads(channels, number) * u64::from(taps_of(&actor.kernel))
}

/// How many firings of so many products each make a heavy block.
fn firings_of_block(each: u64) -> u64
    requires some { 1 ≤ each }
    requires few { each ≤ 128 * 4294967295 * 16 }
    ensures value { result ≡ firings_of_block each }
    ensures few { result ≤ 98304 }
{
    (HEAVY_BLOCK - 1 + each) / each
}

/// Whether a channel from an actor to itself keeps its state: its first firing takes all the tokens of it, and gives as
/// many back.
fn keeps_state(actor: usize, channel: &Channel) -> bool
    ensures { result ≡ keeps_state actor (channel_view channel.now) }
{
    let taken = read_from(actor, channel);
    channel.initial.len() == taken as usize && taken == written_to(actor, channel)
}

/// Whether a channel holds what so many firings of an actor move, or leads from it to itself and keeps its state.
fn holds(actor: usize, firings: u64, channel: &Channel, capacity: u32) -> bool
    requires { firings ≤ 98304 }
    ensures { result ≡ holds actor firings (channel_view channel.now) capacity }
{
    if channel.from as usize == actor && channel.to as usize == actor {
        return keeps_state(actor, channel);
    }
    let read = firings * u64::from(read_from(actor, channel));
    let written = firings * u64::from(written_to(actor, channel));
    let most = u64::from(capacity);
    read <= most && written <= most
}

/// Whether all channels do.
fn hold_all(actor: usize, firings: u64, channels: &[Channel], capacities: &[u32]) -> bool
    requires { firings ≤ 98304 }
    ensures { result ≡ list_all (λ row. holds actor firings (channel_view row.0) row.1) (zip channels.now capacities.now) }
{
    channels.iter().zip(capacities.iter()).all(|(channel, capacity)| holds(
        actor, firings, channel, *capacity,
    ))
}

/// Whether an actor has one phase, and its channels hold the firings of a heavy block.
fn has_blocks(channels: &[Channel], capacities: &[u32], number: usize, actor: &Actor) -> bool
    requires { length channels.now ≤ MAX_CHANNELS }
    ensures { result ≡ has_blocks (map channel_view channels.now) capacities.now number (actor_view actor.now) }
{
    let each = products(channels, number, actor);
    if actor.phases != 1 || each == 0 {
        return false;
    }
    hold_all(number, firings_of_block(each), channels, capacities)
}

/// Whether an actor's first firing is heavy, or its firings come in heavy blocks.
fn is_heavy(channels: &[Channel], capacities: &[u32], number: usize, actor: &Actor) -> bool
    requires { length channels.now ≤ MAX_CHANNELS }
    ensures { result ≡ is_heavy (map channel_view channels.now) capacities.now number (actor_view actor.now) }
{
    products(channels, number, actor) >= HEAVY_FIRING
        || has_blocks(channels, capacities, number, actor)
}

/// How many of these actors are heavy.
fn heavy_count(actors: &[Actor], channels: &[Channel], capacities: &[u32]) -> usize
    requires { length channels.now ≤ MAX_CHANNELS }
    ensures { result ≡ count_by (λ row. is_heavy (map channel_view channels.now) capacities.now row.0 (actor_view row.1)) (enumerate_from 0 actors.now) }
{
    actors
        .iter()
        .enumerate()
        .filter(|(number, actor)| is_heavy(channels, capacities, *number, actor))
        .count()
}

/// Whether several workers can make a run of an accepted graph faster than one: two of its actors or more are heavy.
///
/// An actor is heavy whose first firing takes 16,384 products or more, which are its weights times the tokens that it
/// reads; or which has one phase, and its channels hold the firings of a block of 98,304 products. Heavy firings of one
/// actor alone come one after another, by however many workers.
pub fn gains_by_workers(accepted: &Accepted) -> bool
    ensures { result ≡ gains_by_workers accepted.now.graph.actors accepted.now.graph.channels accepted.now.capacities }
{
    let graph = accepted.graph();
    heavy_count(graph.actors(), graph.channels(), accepted.capacities()) >= 2
}
