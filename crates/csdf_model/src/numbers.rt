//! Names and the numbers that stand for them.

ghost use Rattle.std.specs.Prelude.{◌≡◌, map, string_bytes, ◌<◌, length, IfSome};
ghost use Rattle.csdf_model.specs.Graph.{actor_view, channel_view};
ghost use Rattle.csdf_model.specs.Names.{actor_names, channel_names, name_at, number_in};

use crate::parts::{Actor, Channel};
use indexmap::IndexSet;

/// The number of a name: its place, by one look-up.
#[tactic(auto, using(crate::proofs::LinkLemmas::position_map, crate::proofs::LinkLemmas::length_of_map))]
pub fn number_in(names: &IndexSet<String>, name: &str) -> Option<usize>
    ensures value { result ≡ number_in (map string_bytes names.now.keys) name.now }
    ensures within { IfSome result (λ i. i < length (map string_bytes names.now.keys)) }
{
    names.get_index_of(name)
}

/// The name of the actor with this number; the empty text where there is none.
pub fn actor_name(actors: &[Actor], number: usize) -> &str
    ensures { result.now ≡ name_at (actor_names (map actor_view actors.now)) number }
{
    match actors.get(number) {
        Some(actor) => actor.name.as_str(),
        None => "",
    }
}

/// The name of the channel with this number; the empty text where there is none.
pub fn channel_name(channels: &[Channel], number: usize) -> &str
    ensures { result.now ≡ name_at (channel_names (map channel_view channels.now)) number }
{
    match channels.get(number) {
        Some(channel) => channel.name.as_str(),
        None => "",
    }
}
