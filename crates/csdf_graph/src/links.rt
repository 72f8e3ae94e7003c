//! The ends of each channel, by name in the file and by number in the graph.

ghost use Rattle.std.specs.Prelude.{◌≡◌, map, string_bytes, ◌<◌, ◌≤◌, length, IfSome};
ghost use Rattle.csdf_graph.specs.Passes.{Finds, Gives, Reads, each, itself};
ghost use Rattle.csdf_model.specs.Graph.{channel_view};
ghost use Rattle.csdf_graph.specs.Ranges.{ranged_view};
ghost use Rattle.csdf_model.specs.Names.{number_in};
ghost use Rattle.csdf_graph.specs.Links.{linked, linked_at};

use crate::fault::{GraphFault, Unfit, fault_place};
use crate::misfit::{Found, Misfit};
use crate::notes::Notes;
use crate::passes::one_more;
use crate::ranges::RangedChannel;
use csdf_model::{Channel, MAX_ACTORS, number_in};
use indexmap::IndexSet;
use std::alloc::Global;

/// The number of the actor with the name that stands at a key.
fn end_of<'a>(names: &IndexSet<String>, key: &'a str, name: &'a str) -> Result<u32, Misfit<'a>>
    requires { length names.now.keys ≤ MAX_ACTORS }
    ensures { Finds itself result (number_in (map string_bytes names.now.keys) name.now) }
{
    match number_in(names, name) {
        Some(number) => Ok(number as u32),
        None => Err(Misfit::new(key, Found::Text(name), "the name of an actor")),
    }
}

#[tactic(auto, unfolding(crate::specs::Links::linked))]
fn linked<'a>(
    alloc: Global,
    names: &IndexSet<String>,
    channel: RangedChannel<'a>,
) -> Result<Channel, Unfit<'a>>
    requires { length names.now.keys ≤ MAX_ACTORS }
    ensures { Reads channel_view result (linked (map string_bytes names.now.keys) (ranged_view channel.entry)) }
{
    let from = end_of(names, "from", channel.from)?;
    let to = end_of(names, "to", channel.to)?;
    Ok(Channel {
        name: String::from_str(alloc, channel.name)?,
        from,
        to,
        produce: channel.produce,
        consume: channel.consume,
        initial: channel.initial,
        capacity: channel.capacity,
    })
}

#[tactic(auto, using(crate::proofs::PassLemmas::gives_read))]
fn channel_linked(
    alloc: Global,
    names: &IndexSet<String>,
    place: usize,
    channel: RangedChannel<'_>,
    notes: &mut Notes,
) -> Result<Channel, GraphFault>
    requires { length names.now.keys ≤ MAX_ACTORS }
    ensures { Gives channel_view result (linked_at (map string_bytes names.now.keys) place (ranged_view channel.entry)) }
{
    let fault = GraphFault::UnknownActor(fault_place(place));
    notes.answer_of(alloc, fault, linked(alloc, names, channel))
}

/// The channels, with the numbers of their ends.
pub(crate) fn linked_channels(
    alloc: Global,
    names: &IndexSet<String>,
    channels: Vec<RangedChannel<'_>>,
    notes: &mut Notes,
) -> Result<Vec<Channel>, GraphFault>
    requires { length names.now.keys ≤ MAX_ACTORS }
    ensures { Gives (λ v. map channel_view v.items) result (each (linked_at (map string_bytes names.now.keys)) 0 (map ranged_view channels.entry.items)) }
{
    let mut linked = Ok(Vec::new(alloc));
    for (place, channel) in channels.into_iter().enumerate() {
        linked = one_more(linked, channel_linked(alloc, names, place, channel, notes));
    }
    linked
}
