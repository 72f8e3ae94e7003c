//! Numbers and counts are within their limits.

ghost use Rattle.std.specs.Prelude.{◌≡◌, ◌-◌, ◌≤◌, ◌++◌, nat_le, pos, replicate, map, option_map, length, if◌then◌else◌, None, is_ok, OnOk};
ghost use Rattle.csdf_graph.specs.Passes.{Finds, Gives, Reads, each, itself};
ghost use Rattle.csdf_graph.specs.Tree.{all_some};
ghost use Rattle.csdf_model.specs.Graph.{actor_view};
ghost use Rattle.csdf_graph.specs.Shape.{kernel_view, actor_view as draft_of_actor, channel_view as draft_of_channel, draft_view};
ghost use Rattle.csdf_graph.specs.Ranges.{number_within, signed_within, weights_within, kernel_within, actor_within, tokens_within, capacity_within};
ghost use Rattle.csdf_graph.specs.Ranges.{initial_count, counts_fit, cells_within, lists_view, lists_within, channel_within, ranged_view, ranged_actor, ranged_channel, file_view, range_of};

use crate::fault::{At, GraphFault, Unfit, fault_place};
use crate::misfit::Misfit;
use crate::notes::Notes;
use crate::passes::one_more;
use crate::shape::{ActorDraft, ChannelDraft, GraphDraft, KernelDraft};
use csdf_model::{
    Actor, Kernel, MAX_ACTORS, MAX_CAPACITY, MAX_CELLS, MAX_CHANNELS, MAX_INITIAL_TOKENS,
    MAX_PHASES, MAX_SHIFT, MAX_TOKENS_PER_FIRING, MAX_WEIGHT, MAX_WEIGHTS, MIN_WEIGHT,
};
use std::alloc::Global;

pub(crate) fn number_within(low: u32, high: u32, number: i64) -> Option<u32>
    ensures { result ≡ number_within low high number }
{
    match u32::try_from(number) {
        Ok(n) if low <= n && n <= high => Some(n),
        _ => None,
    }
}

fn weight_of(number: i64) -> Result<i32, Misfit<'static>>
    ensures { Finds itself result (signed_within 15 number) }
{
    match i16::try_from(number) {
        Ok(weight) => Ok(i32::from(weight)),
        Err(_) => {
            let (least, most) = (i64::from(MIN_WEIGHT), i64::from(MAX_WEIGHT));
            Err(Misfit::outside("weights", number, least, most))
        }
    }
}

fn token_of(number: i64) -> Result<i32, Misfit<'static>>
    ensures { Finds itself result (signed_within 31 number) }
{
    match i32::try_from(number) {
        Ok(token) => Ok(token),
        Err(_) => {
            let (least, most) = (i64::from(i32::MIN), i64::from(i32::MAX));
            Err(Misfit::outside("initial", number, least, most))
        }
    }
}

/// The number at a key.
pub(crate) fn checked(
    key: &'static str,
    low: u32,
    high: u32,
    number: i64,
) -> Result<u32, Misfit<'static>>
    ensures { Finds itself result (number_within low high number) }
{
    match number_within(low, high, number) {
        Some(n) => Ok(n),
        None => Err(Misfit::outside(key, number, i64::from(low), i64::from(high))),
    }
}

fn numbers_within(
    alloc: Global,
    key: &'static str,
    low: u32,
    high: u32,
    numbers: &[i64],
) -> Result<Vec<u32>, Unfit<'static>>
    ensures { Reads (λ v. v.items) result (all_some (number_within low high) numbers.now) }
{
    let mut within = Vec::new(alloc);
    for number in numbers {
        within.push(checked(key, low, high, *number)?)?;
    }
    Ok(within)
}

#[tactic(auto, unfolding(crate::specs::Ranges::tokens_within))]
fn tokens_within(alloc: Global, numbers: &[i64]) -> Result<Vec<i32>, Unfit<'static>>
    ensures { Reads (λ v. v.items) result (tokens_within numbers.now) }
{
    let (count, most) = (numbers.len(), MAX_INITIAL_TOKENS);
    if count > most {
        return Err(Unfit::Fault(Misfit::counted("initial", count, 0, most as i64)));
    }
    tokens_of(alloc, numbers)
}

fn tokens_of(alloc: Global, numbers: &[i64]) -> Result<Vec<i32>, Unfit<'static>>
    ensures { Reads (λ v. v.items) result (all_some (signed_within 31) numbers.now) }
{
    let mut tokens = Vec::new(alloc);
    for number in numbers {
        tokens.push(token_of(*number)?)?;
    }
    Ok(tokens)
}

/// The weights, with zeros up to the most.
#[tactic(auto, unfolding(crate::specs::Ranges::weights_within))]
fn weights_within(numbers: &[i64]) -> Result<[i32; MAX_WEIGHTS], Misfit<'static>>
    ensures value { Finds itself result (weights_within numbers.now) }
    ensures few { OnOk result (length numbers.now ≤ MAX_WEIGHTS) }
{
    let (count, most) = (numbers.len(), MAX_WEIGHTS);
    if count == 0 || count > most {
        return Err(Misfit::counted("weights", count, 1, most as i64));
    }
    padded(numbers)
}

fn padded(numbers: &[i64]) -> Result<[i32; MAX_WEIGHTS], Misfit<'static>>
    requires { length numbers.now ≤ MAX_WEIGHTS }
    ensures { Finds itself result (option_map (λ zs. zs ++ replicate (MAX_WEIGHTS - length numbers.now) (pos 0)) (all_some (signed_within 15) numbers.now)) }
{
    let mut weights = [0; MAX_WEIGHTS];
    for (i, number) in numbers.iter().enumerate() {
        weights[i] = weight_of(*number)?;
    }
    Ok(weights)
}

#[tactic(auto, unfolding(crate::specs::Ranges::kernel_within))]
fn kernel_within(draft: &KernelDraft) -> Result<Kernel, Misfit<'static>>
    ensures { Finds itself result (kernel_within (kernel_view draft.now)) }
{
    match draft {
        KernelDraft::Source => Ok(Kernel::Source),
        KernelDraft::Sink => Ok(Kernel::Sink),
        KernelDraft::Copy => Ok(Kernel::Copy),
        KernelDraft::Sum => Ok(Kernel::Sum),
        KernelDraft::Fir {
            weights: numbers,
            shift,
        } => {
            let weights = weights_within(numbers)?;
            let taps = numbers.len() as u32;
            let shift = checked("shift", 0, MAX_SHIFT, *shift)?;
            Ok(Kernel::Fir {
                weights,
                taps,
                shift,
            })
        }
    }
}

#[tactic(auto, unfolding(crate::specs::Ranges::actor_within))]
fn actor_within(alloc: Global, draft: &ActorDraft<'_>) -> Result<Actor, Unfit<'static>>
    ensures { Reads actor_view result (actor_within (draft_of_actor draft.now)) }
{
    let kernel = kernel_within(&draft.kernel)?;
    let phases = checked("phases", 1, MAX_PHASES, draft.phases)?;
    let name = String::from_str(alloc, draft.name)?;
    Ok(Actor {
        name,
        kernel,
        phases,
    })
}

#[tactic(auto, using(crate::proofs::PassLemmas::gives_read))]
fn ranged_actor(
    alloc: Global,
    place: usize,
    draft: &ActorDraft<'_>,
    notes: &mut Notes,
) -> Result<Actor, GraphFault>
    ensures { Gives actor_view result (ranged_actor place (draft_of_actor draft.now)) }
{
    let fault = GraphFault::Range(At::Actor(fault_place(place)));
    notes.answer_of(alloc, fault, actor_within(alloc, draft))
}

fn ranged_actors(
    alloc: Global,
    drafts: &[ActorDraft<'_>],
    notes: &mut Notes,
) -> Result<Vec<Actor>, GraphFault>
    ensures { Gives (λ v. map actor_view v.items) result (each ranged_actor 0 (map draft_of_actor drafts.now)) }
{
    let mut actors = Ok(Vec::new(alloc));
    for (place, draft) in drafts.iter().enumerate() {
        actors = one_more(actors, ranged_actor(alloc, place, draft, notes));
    }
    actors
}

/// A channel in range, with its ends by name.
#[derive(Drop)]
pub(crate) struct RangedChannel<'a> {
    pub(crate) name: &'a str,
    pub(crate) from: &'a str,
    pub(crate) to: &'a str,
    pub(crate) produce: Vec<u32>,
    pub(crate) consume: Vec<u32>,
    pub(crate) initial: Vec<i32>,
    pub(crate) capacity: Option<u32>,
}

/// The capacity, with room for so many initial tokens.
fn capacity_within(held: usize, capacity: Option<i64>) -> Result<Option<u32>, Misfit<'static>>
    ensures { Finds itself result (capacity_within held capacity) }
{
    let Some(number) = capacity else {
        return Ok(None);
    };
    match number_within(1, MAX_CAPACITY, number) {
        Some(capacity) if capacity as usize >= held => Ok(Some(capacity)),
        _ => {
            let least = i64::try_from(held.max(1)).unwrap_or(i64::MAX);
            Err(Misfit::outside("capacity", number, least, i64::from(MAX_CAPACITY)))
        }
    }
}

/// The lists of a channel, in range.
#[derive(Drop)]
struct RangedLists {
    produce: Vec<u32>,
    consume: Vec<u32>,
    initial: Vec<i32>,
}

#[tactic(auto, unfolding(crate::specs::Ranges::lists_within))]
fn lists_within(alloc: Global, draft: &ChannelDraft<'_>) -> Result<RangedLists, Unfit<'static>>
    ensures { Reads lists_view result (lists_within (draft_of_channel draft.now)) }
{
    let most = MAX_TOKENS_PER_FIRING;
    let produce = numbers_within(alloc, "produce", 0, most, &draft.produce)?;
    let consume = numbers_within(alloc, "consume", 0, most, &draft.consume)?;
    let initial = tokens_within(alloc, &draft.initial)?;
    Ok(RangedLists {
        produce,
        consume,
        initial,
    })
}

#[tactic(auto, unfolding(crate::specs::Ranges::channel_within, crate::specs::Ranges::lists_within))]
fn channel_within<'a>(
    alloc: Global,
    draft: &ChannelDraft<'a>,
) -> Result<RangedChannel<'a>, Unfit<'static>>
    ensures { Reads ranged_view result (channel_within (draft_of_channel draft.now)) }
{
    let lists = lists_within(alloc, draft)?;
    let capacity = capacity_within(draft.initial.len(), draft.capacity)?;
    Ok(RangedChannel {
        name: draft.name,
        from: draft.from,
        to: draft.to,
        produce: lists.produce,
        consume: lists.consume,
        initial: lists.initial,
        capacity,
    })
}

#[tactic(auto, using(crate::proofs::PassLemmas::gives_read))]
fn channel_ranged<'a>(
    alloc: Global,
    place: usize,
    draft: &ChannelDraft<'a>,
    notes: &mut Notes,
) -> Result<RangedChannel<'a>, GraphFault>
    ensures { Gives ranged_view result (ranged_channel place (draft_of_channel draft.now)) }
{
    let fault = GraphFault::Range(At::Channel(fault_place(place)));
    notes.answer_of(alloc, fault, channel_within(alloc, draft))
}

fn ranged_channels<'a>(
    alloc: Global,
    drafts: &[ChannelDraft<'a>],
    notes: &mut Notes,
) -> Result<Vec<RangedChannel<'a>>, GraphFault>
    ensures { Gives (λ v. map ranged_view v.items) result (each ranged_channel 0 (map draft_of_channel drafts.now)) }
{
    let mut channels = Ok(Vec::new(alloc));
    for (place, draft) in drafts.iter().enumerate() {
        channels = one_more(channels, channel_ranged(alloc, place, draft, notes));
    }
    channels
}

/// Whether so many cells have room for all initial tokens.
fn have_room(channels: &[ChannelDraft<'_>], cells: usize) -> bool
    ensures { result ≡ nat_le (initial_count (map draft_of_channel channels.now)) cells }
{
    let mut room = cells;
    for channel in channels {
        if channel.initial.len() > room {
            return false;
        }
        room -= channel.initial.len();
    }
    true
}

/// How many tokens the channels begin with, or the most that is counted.
fn initial_count(channels: &[ChannelDraft<'_>]) -> i64 {
    let mut count: i64 = 0;
    for channel in channels {
        count = count.saturating_add(channel.initial.len() as i64);
    }
    count
}

/// The number of cells, with room for all initial tokens.
fn cells_within(
    channels: &[ChannelDraft<'_>],
    cells: Option<i64>,
) -> Result<Option<u32>, Misfit<'static>>
    ensures { Finds itself result (cells_within (map draft_of_channel channels.now) cells) }
{
    let Some(number) = cells else {
        return Ok(None);
    };
    match number_within(0, MAX_CELLS, number) {
        Some(cells) if have_room(channels, cells as usize) => Ok(Some(cells)),
        _ => {
            let (least, most) = (initial_count(channels), i64::from(MAX_CELLS));
            Err(Misfit::outside("cells", number, least, most))
        }
    }
}

/// Checks that there are some actors, and no more actors or channels than the most.
fn check_counts(draft: &GraphDraft<'_>) -> Result<(), Misfit<'static>>
    ensures { is_ok result ≡ counts_fit (draft_view draft.now) }
{
    let (actors, channels) = (draft.actors.len(), draft.channels.len());
    if actors == 0 || actors > MAX_ACTORS {
        return Err(Misfit::counted("actor", actors, 1, MAX_ACTORS as i64));
    }
    if channels > MAX_CHANNELS {
        return Err(Misfit::counted("channel", channels, 0, MAX_CHANNELS as i64));
    }
    Ok(())
}

/// The number of cells, where the counts of the file fit.
fn file_within(draft: &GraphDraft<'_>) -> Result<Option<u32>, Unfit<'static>>
    ensures { Reads itself result (if counts_fit (draft_view draft.now) then cells_within (draft_view draft.now).channels (draft_view draft.now).cells else None) }
{
    check_counts(draft)?;
    let cells = cells_within(&draft.channels, draft.cells)?;
    Ok(cells)
}

/// A file whose numbers are in range.
#[derive(Drop)]
pub(crate) struct Ranged<'a> {
    pub(crate) actors: Vec<Actor>,
    pub(crate) channels: Vec<RangedChannel<'a>>,
    pub(crate) cells: Option<u32>,
}

#[tactic(auto, unfolding(crate::specs::Ranges::range_of))]
pub(crate) fn range_of<'a>(
    alloc: Global,
    draft: &GraphDraft<'a>,
    notes: &mut Notes,
) -> Result<Ranged<'a>, GraphFault>
    ensures { Gives file_view result (range_of (draft_view draft.now)) }
{
    let cells = notes.answer_of(alloc, GraphFault::Range(At::File), file_within(draft));
    let actors = ranged_actors(alloc, &draft.actors, notes);
    let channels = ranged_channels(alloc, &draft.channels, notes);
    let cells = cells?;
    let actors = actors?;
    let channels = channels?;
    Ok(Ranged {
        actors,
        channels,
        cells,
    })
}
