//! Room for the tokens of several periods.

ghost use Rattle.std.specs.Prelude.{◌≡◌, ◌≤◌, All, IfErr, IfOk, length, map};
ghost use Rattle.csdf_model.specs.Graph.{channel_view};
ghost use Rattle.csdf_analysis.specs.Acceptance.{IsAccepted, IsNotAccepted};
ghost use Rattle.csdf_analysis.specs.Repetition.{HaveRoom, IsRepetition, IsWithin, full_capacity};
ghost use Rattle.csdf_analysis.specs.Room.{HasSomePeriod, IsAutoRoom, IsWithRoom, capacities_with_room, capacity_with_room, carried, most_carried, room_for, with_room};

use crate::accepted::{Accepted, accept};
use crate::calls::capacities::full_capacities;
use crate::calls::raise::{makes_all, net_of};
use crate::calls::repetition::repetition;
use crate::fault::AcceptFault;
use crate::vector::Vector;
use csdf_model::{Channel, Graph, MAX_CAPACITY};
use std::alloc::{AllocError, Global};

/// The most tokens that a channel without a capacity of its own is to carry in the periods that
/// [`auto_room`] answers.
const MOST_CARRIED: u32 = 4_096;

// In digits, as documents tell it: a limit that is changed fails here.
const _: () = prove!(MOST_CARRIED == 4_096);

/// The initial tokens of the channel and all that its producer puts in within so many periods, and
/// at most 65,535.
fn room_for(channel: &Channel, q: &[u32], periods: u32) -> u32
    requires channel { IsWithin (length q.now) (channel_view channel.now) }
    requires full { full_capacity q.now (channel_view channel.now) ≤ MAX_CAPACITY }
    ensures { result ≡ room_for q.now periods (channel_view channel.now) }
{
    let period = channel.produced(q[channel.from as usize]);
    let tokens = channel.initial.len() as u64 + u64::from(periods) * period;
    tokens.min(u64::from(MAX_CAPACITY)) as u32
}

/// The channel's given capacity, or else its room for so many periods.
fn capacity_with_room(channel: &Channel, q: &[u32], periods: u32) -> u32
    requires channel { IsWithin (length q.now) (channel_view channel.now) }
    requires full { full_capacity q.now (channel_view channel.now) ≤ MAX_CAPACITY }
    ensures { result ≡ capacity_with_room q.now periods (channel_view channel.now) }
{
    match channel.capacity {
        Some(given) => given,
        None => room_for(channel, q, periods),
    }
}

/// Gives each channel that has no capacity of its own room for so many periods: for its initial
/// tokens and all that its producer puts in within them, and at most for 65,535 tokens.
///
/// Given capacities and the number of cells stay.
pub fn give_room(graph: &mut Graph, vector: &Vector, periods: u32)
    requires vector { IsRepetition graph.old.actors graph.old.channels vector.now.r.items vector.now.q.items }
    requires some { 1 ≤ periods }
    ensures { graph.new ≡ with_room vector.now.q.items periods graph.old }
{
    for number in 0..graph.channels().len() {
        let capacity = capacity_with_room(&graph.channels()[number], &vector.q, periods);
        graph.give_capacity(number as u32, capacity);
    }
}

/// The room of the channels that have no capacity of their own.
#[derive(Clone, Copy, Debug, PartialEq, Eq)]
pub enum Room {
    /// The least capacities.
    Least,
    /// For the tokens of so many periods, at least one.
    Periods(u32),
    /// For the most periods in which no such channel carries more than 4,096 tokens: see
    /// [`auto_room`].
    Auto,
}

/// A graph that is not accepted, as it was handed in, and why.
#[derive(Drop)]
pub struct Refused {
    /// The graph, equal to the one that was handed in.
    pub graph: Graph,
    /// Why it is not accepted.
    pub fault: AcceptFault,
}

/// The given capacity of each channel, or else its room for so many periods.
fn capacities_with_room(
    alloc: Global,
    channels: &[Channel],
    q: &[u32],
    periods: u32,
) -> Result<Vec<u32>, AllocError>
    requires channels { All (IsWithin (length q.now)) (map channel_view channels.now) }
    requires room { HaveRoom q.now (map channel_view channels.now) }
    ensures { IfOk result (λ v. v.items ≡ capacities_with_room q.now periods (map channel_view channels.now)) }
{
    let mut capacities = Vec::new(alloc);
    for channel in channels {
        capacities.push(capacity_with_room(channel, q, periods))?;
    }
    Ok(capacities)
}

/// The capacities with which the graph, whose vector this is, is accepted once it has room for so many
/// periods.
fn capacities_in_room(
    alloc: Global,
    graph: &Graph,
    vector: &Vector,
    periods: u32,
) -> Result<Vec<u32>, AcceptFault>
    requires vector { IsRepetition graph.now.actors graph.now.channels vector.now.r.items vector.now.q.items }
    requires some { 1 ≤ periods }
    ensures accepted { IfOk result (λ v. IsAccepted (record {
      graph = with_room vector.now.q.items periods graph.now;
      r = vector.now.r.items;
      q = vector.now.q.items;
      capacities = v.items;
    })) }
    ensures refusal { IfErr result (IsNotAccepted graph.now) }
{
    let net = net_of(alloc, graph, vector)?;
    let capacities = capacities_with_room(alloc, graph.channels(), &vector.q, periods)?;
    if makes_all(alloc, &net, &capacities)? {
        return Ok(capacities);
    }
    let full = full_capacities(alloc, graph.channels(), &vector.q)?;
    if makes_all(alloc, &net, &full)? {
        Err(AcceptFault::TooTight)
    } else {
        Err(AcceptFault::Deadlock)
    }
}

/// Accepts the graph, whose vector this is, with room for so many periods.
fn accept_roomy(
    alloc: Global,
    graph: Graph,
    vector: Vector,
    periods: u32,
) -> Result<Accepted, Refused>
    requires vector { IsRepetition graph.actors graph.channels vector.r.items vector.q.items }
    requires some { 1 ≤ periods }
    ensures graph { IfOk result (λ accepted. accepted.graph ≡ with_room vector.q.items periods graph) }
    ensures firings { IfOk result (λ accepted. accepted.q ≡ vector.q.items) }
    ensures accepted { IfOk result IsAccepted }
    ensures unchanged { IfErr result (λ refused. refused.graph ≡ graph) }
    ensures refusal { IfErr result (λ refused. IsNotAccepted graph refused.fault) }
{
    match capacities_in_room(alloc, &graph, &vector, periods) {
        Ok(capacities) => {
            let mut roomy = graph;
            give_room(&mut roomy, &vector, periods);
            Ok(Accepted::new(roomy, vector, capacities))
        }
        Err(fault) => Err(Refused { graph, fault }),
    }
}

/// Accepts the graph with room for so many periods, as [`give_room`] gives it.
fn accept_for_periods(alloc: Global, graph: Graph, periods: u32) -> Result<Accepted, Refused>
    requires { 1 ≤ periods }
    ensures graph { IfOk result (λ accepted. accepted.graph ≡ with_room accepted.q periods graph) }
    ensures accepted { IfOk result IsAccepted }
    ensures unchanged { IfErr result (λ refused. refused.graph ≡ graph) }
    ensures refusal { IfErr result (λ refused. IsNotAccepted graph refused.fault) }
{
    match repetition(alloc, &graph) {
        Ok(vector) => accept_roomy(alloc, graph, vector, periods),
        Err(fault) => Err(Refused { graph, fault }),
    }
}

/// Accepts the graph with the room that [`auto_room`] answers.
fn accept_with_auto_room(alloc: Global, graph: Graph) -> Result<Accepted, Refused>
    ensures graph { IfOk result (λ accepted. IsWithRoom Room.Auto accepted.q graph accepted.graph) }
    ensures accepted { IfOk result IsAccepted }
    ensures unchanged { IfErr result (λ refused. refused.graph ≡ graph) }
    ensures refusal { IfErr result (λ refused. IsNotAccepted graph refused.fault) }
{
    match repetition(alloc, &graph) {
        Ok(vector) => {
            let periods = auto_room(&graph, &vector);
            accept_roomy(alloc, graph, vector, periods)
        }
        Err(fault) => Err(Refused { graph, fault }),
    }
}

/// Accepts the graph with its least capacities.
fn accept_least(alloc: Global, graph: Graph) -> Result<Accepted, Refused>
    ensures graph { IfOk result (λ accepted. accepted.graph ≡ graph) }
    ensures accepted { IfOk result IsAccepted }
    ensures unchanged { IfErr result (λ refused. refused.graph ≡ graph) }
    ensures refusal { IfErr result (λ refused. IsNotAccepted graph refused.fault) }
{
    match accept(alloc, graph) {
        Ok(accepted) => Ok(accepted),
        Err((graph, fault)) => Err(Refused { graph, fault }),
    }
}

/// Accepts the graph with this room, or hands it back as it was.
///
/// An error is one that [`accept`] has for the graph itself.
pub fn accept_or_hand_back(alloc: Global, graph: Graph, room: Room) -> Result<Accepted, Refused>
    requires { HasSomePeriod room }
    ensures graph { IfOk result (λ accepted. IsWithRoom room accepted.q graph accepted.graph) }
    ensures accepted { IfOk result IsAccepted }
    ensures unchanged { IfErr result (λ refused. refused.graph ≡ graph) }
    ensures refusal { IfErr result (λ refused. IsNotAccepted graph refused.fault) }
{
    match room {
        Room::Least => accept_least(alloc, graph),
        Room::Periods(periods) => accept_for_periods(alloc, graph, periods),
        Room::Auto => accept_with_auto_room(alloc, graph),
    }
}

/// Accepts the graph with this room.
///
/// An error is one that [`accept`] has for the graph itself.
pub fn accept_in_room(alloc: Global, graph: Graph, room: Room) -> Result<Accepted, AcceptFault>
    requires { HasSomePeriod room }
    ensures graph { IfOk result (λ accepted. IsWithRoom room accepted.q graph accepted.graph) }
    ensures accepted { IfOk result IsAccepted }
    ensures refusal { IfErr result (IsNotAccepted graph) }
{
    match accept_or_hand_back(alloc, graph, room) {
        Ok(accepted) => Ok(accepted),
        Err(refused) => Err(refused.fault),
    }
}

/// Accepts the graph with room for so many periods, as [`give_room`] gives it.
///
/// An error is one that [`accept`] has for the graph itself.
pub fn accept_with_room(alloc: Global, graph: Graph, periods: u32) -> Result<Accepted, AcceptFault>
    requires { 1 ≤ periods }
    ensures graph { IfOk result (λ accepted. accepted.graph ≡ with_room accepted.q periods graph) }
    ensures accepted { IfOk result IsAccepted }
    ensures refusal { IfErr result (IsNotAccepted graph) }
{
    accept_in_room(alloc, graph, Room::Periods(periods))
}

/// How many tokens a period puts into the channel, or 0 where it has a capacity of its own.
fn carried(channel: &Channel, q: &[u32]) -> u32
    requires channel { IsWithin (length q.now) (channel_view channel.now) }
    requires full { full_capacity q.now (channel_view channel.now) ≤ MAX_CAPACITY }
    ensures { result ≡ carried q.now (channel_view channel.now) }
{
    match channel.capacity {
        Some(_) => 0,
        None => channel.produced(q[channel.from as usize]) as u32,
    }
}

/// The most tokens that a period puts into one of the channels that have no capacity of their own,
/// or 0 where there is no such channel.
fn most_carried(channels: &[Channel], q: &[u32]) -> u32
    requires channels { All (IsWithin (length q.now)) (map channel_view channels.now) }
    requires room { HaveRoom q.now (map channel_view channels.now) }
    ensures { result ≡ most_carried q.now (map channel_view channels.now) }
{
    let mut most = 0;
    for channel in channels {
        most = most.max(carried(channel, q));
    }
    most
}

/// The greatest number of periods in which no channel without a capacity of its own carries more
/// than 4,096 tokens, and at least 1.
///
/// It is 1 where every channel has a capacity of its own, since room changes none of these.
pub fn auto_room(graph: &Graph, vector: &Vector) -> u32
    requires { IsRepetition graph.now.actors graph.now.channels vector.now.r.items vector.now.q.items }
    ensures { IsAutoRoom vector.now.q.items graph.now.channels result }
{
    let most = most_carried(graph.channels(), &vector.q);
    if most == 0 {
        return 1;
    }
    (MOST_CARRIED / most).max(1)
}
