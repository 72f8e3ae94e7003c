//! The graph of a text.

ghost use Rattle.std.specs.Prelude.{◌≡◌, ◌≤◌, map, length, string_bytes, IfOk};
ghost use Rattle.toml.specs.View.{table_view};
ghost use Rattle.csdf_graph.specs.declared.names.Kind.TheVariants as kind;
ghost use Rattle.csdf_graph.specs.declared.fault.GraphFault.TheVariants.{NotToml};
ghost use Rattle.csdf_graph.specs.Passes.{Gives, Tells, itself, or_fault};
ghost use Rattle.csdf_graph.specs.Names.{names_of};
ghost use Rattle.csdf_model.specs.Kept.{IsUnjoined};
ghost use Rattle.csdf_graph.specs.GraphText.{parts_view, parts_of, unjoined_in, IsJudged, IsGraphIn, IsGraphOf, file_of};
ghost use Rattle.csdf_graph.specs.Shape.{draft_view};
ghost use Rattle.csdf_graph.specs.Ranges.{file_view};

use crate::checks::{check_phase_lengths, check_ports, check_rates, name_of};
use crate::connected::unjoined;
use crate::fault::GraphFault;
use crate::links::linked_channels;
use crate::misfit::{Apart, Unparsed};
use crate::names::{Kind, Names, numbered};
use crate::notes::Notes;
use crate::ranges::{Ranged, range_of};
use crate::shape::{ActorDraft, ChannelDraft, GraphDraft, draft_of};
use csdf_model::{Actor, Channel, Graph, MAX_ACTORS};
use indexmap::IndexSet;
use std::alloc::{AllocError, Global};
use toml::Table;

fn actor_names<'a>(alloc: Global, drafts: &[ActorDraft<'a>]) -> Result<Vec<&'a str>, AllocError>
    ensures { IfOk result (λ v. v.items ≡ map (λ a. a.name) drafts.now) }
{
    drafts.iter().map(|draft| draft.name).collect(alloc)
}

fn channel_names<'a>(alloc: Global, drafts: &[ChannelDraft<'a>]) -> Result<Vec<&'a str>, AllocError>
    ensures { IfOk result (λ v. v.items ≡ map (λ c. c.name) drafts.now) }
{
    drafts.iter().map(|draft| draft.name).collect(alloc)
}

#[tactic(auto, using(crate::proofs::ReadLemmas::map_map))]
fn numbered_actors(
    alloc: Global,
    draft: &GraphDraft<'_>,
    notes: &mut Notes,
) -> Result<Names, GraphFault>
    ensures { Gives (λ n. map string_bytes n.numbers.keys) result (names_of kind.Actor (map (λ a. a.name) (draft_view draft.now).actors)) }
{
    let names = actor_names(alloc, &draft.actors)?;
    numbered(alloc, Kind::Actor, &names, notes)
}

#[tactic(auto, using(crate::proofs::ReadLemmas::map_map))]
fn numbered_channels(
    alloc: Global,
    draft: &GraphDraft<'_>,
    notes: &mut Notes,
) -> Result<Names, GraphFault>
    ensures { Gives (λ n. map string_bytes n.numbers.keys) result (names_of kind.Channel (map (λ c. c.name) (draft_view draft.now).channels)) }
{
    let names = channel_names(alloc, &draft.channels)?;
    numbered(alloc, Kind::Channel, &names, notes)
}

/// Actors and channels that fit each other.
#[derive(Drop)]
struct JoinedParts {
    actors: Vec<Actor>,
    channels: Vec<Channel>,
    cells: Option<u32>,
}

/// The checks of channels against actors.
#[tactic(auto, unfolding(crate::specs::GraphText::parts_of))]
fn parts_of(
    alloc: Global,
    names: &IndexSet<String>,
    ranged: Ranged<'_>,
    notes: &mut Notes,
) -> Result<JoinedParts, GraphFault>
    requires { length names.now.keys ≤ MAX_ACTORS }
    ensures { Gives parts_view result (parts_of (map string_bytes names.now.keys) (file_view ranged.entry)) }
{
    let channels = linked_channels(alloc, names, ranged.channels, notes)?;
    let actors = ranged.actors;
    check_phase_lengths(alloc, &actors, &channels, notes)?;
    check_rates(alloc, &channels, notes)?;
    check_ports(alloc, &actors, &channels, notes)?;
    Ok(JoinedParts {
        actors,
        channels,
        cells: ranged.cells,
    })
}

/// The parts of a graph, with the names that have become numbers.
struct Named {
    parts: JoinedParts,
    actor_names: Names,
    channel_names: Names,
}

impl Drop for Named {
    fn drop(self) {
        let Named {
            parts: _,
            actor_names: _,
            channel_names: _,
        } = self;
    }
}

/// All checks but the last.
#[tactic(auto, unfolding(crate::specs::GraphText::unjoined_in))]
fn named_parts(alloc: Global, file: &Table, notes: &mut Notes) -> Result<Named, GraphFault>
    ensures value { Gives (λ n. parts_view n.parts) result (unjoined_in (table_view file.now)) }
    ensures kept { IfOk result (λ n. IsUnjoined (map string_bytes n.actor_names.numbers.keys) (map string_bytes n.channel_names.numbers.keys) (parts_view n.parts)) }
{
    let draft = draft_of(alloc, file, notes)?;
    let actor_names = numbered_actors(alloc, &draft, notes);
    let channel_names = numbered_channels(alloc, &draft, notes);
    let channel_names = notes.heeded(channel_names);
    let actor_names = actor_names?;
    let channel_names = channel_names?;
    let ranged = range_of(alloc, &draft, notes)?;
    let parts = parts_of(alloc, &actor_names.numbers, ranged, notes)?;
    Ok(Named {
        parts,
        actor_names,
        channel_names,
    })
}

impl Named {
    /// The graph of the parts, where any two of its actors are joined.
    fn judged(self, alloc: Global, notes: &mut Notes) -> Result<Graph, GraphFault>
        requires { IsUnjoined (map string_bytes self.actor_names.numbers.keys) (map string_bytes self.channel_names.numbers.keys) (parts_view self.parts) }
        ensures { Tells itself result (IsJudged (parts_view self.parts)) }
    {
        let parts = &self.parts;
        if let Some(number) = unjoined(alloc, parts.actors.len(), &parts.channels)? {
            let (name, first) = (name_of(&parts.actors, number), name_of(&parts.actors, 0));
            let fault = GraphFault::NotConnected;
            return Err(notes.refuse(alloc, fault, &Apart(name, first)));
        }
        let Named {
            parts,
            actor_names,
            channel_names,
        } = self;
        let JoinedParts {
            actors,
            channels,
            cells,
        } = parts;
        let actor_numbers = actor_names.into_numbers();
        let channel_numbers = channel_names.into_numbers();
        let graph = Graph::new(
            alloc,
            actors,
            channels,
            cells,
            actor_numbers,
            channel_numbers,
        )?;
        Ok(graph)
    }
}

/// The graph of a file.
pub(crate) fn graph_of(alloc: Global, file: &Table, notes: &mut Notes) -> Result<Graph, GraphFault>
    ensures { Tells itself result (IsGraphIn (table_view file.now)) }
{
    let named = named_parts(alloc, file, notes)?;
    named.judged(alloc, notes)
}

/// The file that the bytes are.
pub(crate) fn file_of(alloc: Global, bytes: &[u8], notes: &mut Notes) -> Result<Table, GraphFault>
    ensures { Gives table_view result (or_fault NotToml (file_of bytes.now)) }
{
    match toml::table_from_slice(alloc, bytes) {
        Ok(file) => Ok(file),
        Err(error) if error.is_memory() => Err(GraphFault::Memory),
        Err(error) => {
            let found = Unparsed {
                bytes,
                error: &error,
            };
            Err(notes.refuse(alloc, GraphFault::NotToml, &found))
        }
    }
}

/// Reads a graph from the text of a graph file (Bilsen et al. 1996 has the model).
///
/// The error is the first fault of the file, in the order of [`GraphFault`]'s variants, each check
/// over the whole file before the next; or [`GraphFault::Memory`], which says nothing of the file.
pub fn read_graph(alloc: Global, bytes: &[u8]) -> Result<Graph, GraphFault>
    ensures { Tells itself result (IsGraphOf bytes.now) }
{
    let mut notes = Notes::unasked(alloc);
    let file = file_of(alloc, bytes, &mut notes)?;
    graph_of(alloc, &file, &mut notes)
}
