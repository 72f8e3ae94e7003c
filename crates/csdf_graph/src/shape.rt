//! The shape of a file: each table has its keys, of their kinds, and no others.

ghost use Rattle.std.specs.Prelude.{◌≡◌, codes, map, option_map, is_ok, is_some};
ghost use Rattle.toml.specs.Data.{no_members, as_table, get_member};
ghost use Rattle.toml.specs.View.{table_view};
ghost use Rattle.csdf_graph.specs.Shape.{plain_kernel, kernel_of, kernel_with, kernel_view, actor_of, actor_view, actor_at, lists_of, lists_view, channel_of, channel_view, channel_at};
ghost use Rattle.csdf_graph.specs.Shape.{tables_of_file, tables_view, draft_of, draft_view};
ghost use Rattle.csdf_graph.specs.Passes.{Finds, Gives, Reads, each};
ghost use Rattle.csdf_graph.specs.Tree.{found_or};

use crate::fault::{At, GraphFault, Unfit, fault_place};
use crate::misfit::{Found, Misfit};
use crate::notes::Notes;
use crate::passes::one_more;
use crate::tree::{
    FILE_KEYS, entries_at, has_only, integer_or, integers_at, integers_or_none, of_kind,
    optional_integer_at, optional_integers_at, tables_at, tables_or_none, text_at, value_at,
};
use std::alloc::Global;
use toml::Table;

/// A kernel with its numbers as they stand in the file.
#[derive(Drop)]
pub(crate) enum KernelDraft {
    Source,
    Sink,
    Copy,
    Sum,
    Fir { weights: Vec<i64>, shift: i64 },
}

/// An actor with its numbers as they stand in the file.
pub(crate) struct ActorDraft<'a> {
    pub(crate) name: &'a str,
    pub(crate) kernel: KernelDraft,
    pub(crate) phases: i64,
}

impl Drop for ActorDraft<'_> {
    fn drop(self) {
        let ActorDraft {
            name: _,
            kernel: _,
            phases: _,
        } = self;
    }
}

const ACTOR_KEYS: [&str; 5] = ["name", "kernel", "phases", "weights", "shift"];

/// The kernel of a word that asks no numbers.
#[tactic(auto, unfolding(crate::specs::Shape::plain_kernel))]
fn plain_kernel(word: &str) -> Result<KernelDraft, Misfit<'_>>
    ensures { Finds kernel_view result (plain_kernel word.now) }
{
    match word {
        "source" => Ok(KernelDraft::Source),
        "sink" => Ok(KernelDraft::Sink),
        "copy" => Ok(KernelDraft::Copy),
        "sum" => Ok(KernelDraft::Sum),
        _ => {
            let words = "source, sink, copy, sum or fir";
            Err(Misfit::new("kernel", Found::Text(word), words))
        }
    }
}

/// A key that a filter lacks.
fn lacking(key: &str) -> Misfit<'_> {
    Misfit::new(key, Found::Nothing, "it where kernel is \"fir\"")
}

/// A key that only a filter has, in the table of another kernel.
fn superfluous(key: &str) -> Misfit<'_> {
    Misfit::new(key, Found::Unlisted, "it only where kernel is \"fir\"")
}

/// The kernel of a word, with the weights and the shift that stand beside it.
#[tactic(auto, unfolding(crate::specs::Shape::kernel_with))]
fn kernel_with(
    word: &str,
    weights: Option<Vec<i64>>,
    shift: Option<i64>,
) -> Result<KernelDraft, Misfit<'_>>
    ensures { Finds kernel_view result (kernel_with word.now (option_map (λ v. v.items) weights) shift) }
{
    if word == "fir" {
        let Some(weights) = weights else {
            return Err(lacking("weights"));
        };
        let Some(shift) = shift else {
            return Err(lacking("shift"));
        };
        return Ok(KernelDraft::Fir { weights, shift });
    }
    let kernel = plain_kernel(word)?;
    if weights.is_some() {
        return Err(superfluous("weights"));
    }
    if shift.is_some() {
        return Err(superfluous("shift"));
    }
    Ok(kernel)
}

/// The kernel of a word, with the weights and the shift of the table.
#[tactic(auto, using(crate::proofs::ShapeLemmas::kernel_read, crate::proofs::ShapeLemmas::no_weights, crate::proofs::ShapeLemmas::no_shift))]
fn kernel_of<'a>(alloc: Global, word: &'a str, table: &'a Table) -> Result<KernelDraft, Unfit<'a>>
    ensures { Reads kernel_view result (kernel_of word.now (table_view table.now)) }
{
    let weights = optional_integers_at(alloc, table, "weights")?;
    let shift = optional_integer_at(table, "shift")?;
    let kernel = kernel_with(word, weights, shift)?;
    Ok(kernel)
}

#[tactic(auto, unfolding(crate::specs::Shape::actor_of))]
fn actor_of(alloc: Global, table: &Table) -> Result<ActorDraft<'_>, Unfit<'_>>
    ensures { Reads actor_view result (actor_of (table_view table.now)) }
{
    has_only(table, &ACTOR_KEYS, "name, kernel, phases, weights or shift")?;
    let name = text_at(table, "name")?;
    let word = text_at(table, "kernel")?;
    let phases = integer_or(1, table, "phases")?;
    let kernel = kernel_of(alloc, word, table)?;
    Ok(ActorDraft {
        name,
        kernel,
        phases,
    })
}

/// A channel with its numbers and ends as they stand in the file.
pub(crate) struct ChannelDraft<'a> {
    pub(crate) name: &'a str,
    pub(crate) from: &'a str,
    pub(crate) to: &'a str,
    pub(crate) produce: Vec<i64>,
    pub(crate) consume: Vec<i64>,
    pub(crate) initial: Vec<i64>,
    pub(crate) capacity: Option<i64>,
}

impl Drop for ChannelDraft<'_> {
    fn drop(self) {
        let ChannelDraft {
            name: _,
            from: _,
            to: _,
            produce: _,
            consume: _,
            initial: _,
            capacity: _,
        } = self;
    }
}

const CHANNEL_KEYS: [&str; 7] = [
    "name", "from", "to", "produce", "consume", "initial", "capacity",
];

/// The lists of a channel.
#[derive(Drop)]
struct ChannelLists {
    produce: Vec<i64>,
    consume: Vec<i64>,
    initial: Vec<i64>,
}

#[tactic(auto, unfolding(crate::specs::Shape::lists_of))]
fn lists_of(alloc: Global, table: &Table) -> Result<ChannelLists, Unfit<'_>>
    ensures { Reads lists_view result (lists_of (table_view table.now)) }
{
    let produce = integers_at(alloc, table, "produce")?;
    let consume = integers_at(alloc, table, "consume")?;
    let initial = integers_or_none(alloc, table, "initial")?;
    Ok(ChannelLists {
        produce,
        consume,
        initial,
    })
}

#[tactic(auto, unfolding(crate::specs::Shape::channel_of, crate::specs::Shape::lists_of))]
fn channel_of(alloc: Global, table: &Table) -> Result<ChannelDraft<'_>, Unfit<'_>>
    ensures { Reads channel_view result (channel_of (table_view table.now)) }
{
    let words = "name, from, to, produce, consume, initial or capacity";
    has_only(table, &CHANNEL_KEYS, words)?;
    let name = text_at(table, "name")?;
    let from = text_at(table, "from")?;
    let to = text_at(table, "to")?;
    let lists = lists_of(alloc, table)?;
    let capacity = optional_integer_at(table, "capacity")?;
    Ok(ChannelDraft {
        name,
        from,
        to,
        produce: lists.produce,
        consume: lists.consume,
        initial: lists.initial,
        capacity,
    })
}

#[tactic(auto, using(crate::proofs::PassLemmas::gives_read))]
fn actor_at<'a>(
    alloc: Global,
    place: usize,
    table: &'a Table,
    notes: &mut Notes,
) -> Result<ActorDraft<'a>, GraphFault>
    ensures { Gives actor_view result (actor_at place (table_view table.now)) }
{
    let fault = GraphFault::Shape(At::Actor(fault_place(place)));
    notes.answer_of(alloc, fault, actor_of(alloc, table))
}

fn actors_of<'a>(
    alloc: Global,
    tables: &[&'a Table],
    notes: &mut Notes,
) -> Result<Vec<ActorDraft<'a>>, GraphFault>
    ensures { Gives (λ v. map actor_view v.items) result (each actor_at 0 (map (λ t. table_view t.now) tables.now)) }
{
    let mut actors = Ok(Vec::new(alloc));
    for (place, table) in tables.iter().enumerate() {
        actors = one_more(actors, actor_at(alloc, place, table, notes));
    }
    actors
}

#[tactic(auto, using(crate::proofs::PassLemmas::gives_read))]
fn channel_at<'a>(
    alloc: Global,
    place: usize,
    table: &'a Table,
    notes: &mut Notes,
) -> Result<ChannelDraft<'a>, GraphFault>
    ensures { Gives channel_view result (channel_at place (table_view table.now)) }
{
    let fault = GraphFault::Shape(At::Channel(fault_place(place)));
    notes.answer_of(alloc, fault, channel_of(alloc, table))
}

fn channels_of<'a>(
    alloc: Global,
    tables: &[&'a Table],
    notes: &mut Notes,
) -> Result<Vec<ChannelDraft<'a>>, GraphFault>
    ensures { Gives (λ v. map channel_view v.items) result (each channel_at 0 (map (λ t. table_view t.now) tables.now)) }
{
    let mut channels = Ok(Vec::new(alloc));
    for (place, table) in tables.iter().enumerate() {
        channels = one_more(channels, channel_at(alloc, place, table, notes));
    }
    channels
}

/// The tables of a file, and its number of cells.
struct FileTables<'a> {
    actors: Vec<&'a Table>,
    channels: Vec<&'a Table>,
    cells: Option<i64>,
}

impl Drop for FileTables<'_> {
    fn drop(self) {
        let FileTables {
            actors: _,
            channels: _,
            cells: _,
        } = self;
    }
}

/// Checks that the value at the key `script` is a table, where there is one.
fn check_script(file: &Table) -> Result<(), Misfit<'_>>
    ensures { is_ok result ≡ is_some (found_or no_members as_table (get_member (codes "script") (table_view file.now))) }
{
    match value_at(file, "script") {
        Some(script) if !script.is_table() => Err(of_kind("script", script, "a table")),
        _ => Ok(()),
    }
}

#[tactic(auto, unfolding(crate::specs::Shape::tables_of_file))]
fn file_tables(alloc: Global, file: &Table) -> Result<FileTables<'_>, Unfit<'_>>
    ensures { Reads tables_view result (tables_of_file (table_view file.now)) }
{
    has_only(file, &FILE_KEYS, "actor, channel, script or cells")?;
    let actors = tables_at(alloc, file, "actor")?;
    let channels = tables_or_none(alloc, file, "channel")?;
    check_script(file)?;
    let cells = optional_integer_at(file, "cells")?;
    Ok(FileTables {
        actors,
        channels,
        cells,
    })
}

/// Notes what is out of shape in the actors of a file whose own keys do not fit.
fn note_actors(alloc: Global, file: &Table, notes: &mut Notes) {
    for (place, entry) in entries_at(file, "actor").iter().enumerate() {
        if let Some(table) = entry.as_table() {
            // The file has its fault: of the actor, the note alone is kept.
            let _ = actor_at(alloc, place, table, notes);
        }
    }
}

/// Notes what is out of shape in the channels of a file whose own keys do not fit.
fn note_channels(alloc: Global, file: &Table, notes: &mut Notes) {
    for (place, entry) in entries_at(file, "channel").iter().enumerate() {
        if let Some(table) = entry.as_table() {
            let _ = channel_at(alloc, place, table, notes);
        }
    }
}

/// A file that has the right shape.
pub(crate) struct GraphDraft<'a> {
    pub(crate) actors: Vec<ActorDraft<'a>>,
    pub(crate) channels: Vec<ChannelDraft<'a>>,
    pub(crate) cells: Option<i64>,
}

impl Drop for GraphDraft<'_> {
    fn drop(self) {
        let GraphDraft {
            actors: _,
            channels: _,
            cells: _,
        } = self;
    }
}

/// The file's tables, read, or the first that is out of shape.
#[tactic(auto, unfolding(crate::specs::Shape::draft_of), using(crate::proofs::PassLemmas::gives_read))]
pub(crate) fn draft_of<'a>(
    alloc: Global,
    file: &'a Table,
    notes: &mut Notes,
) -> Result<GraphDraft<'a>, GraphFault>
    ensures { Gives draft_view result (draft_of (table_view file.now)) }
{
    let fault = GraphFault::Shape(At::File);
    let tables = match notes.answer_of(alloc, fault, file_tables(alloc, file)) {
        Ok(tables) => tables,
        Err(fault) => {
            note_actors(alloc, file, notes);
            note_channels(alloc, file, notes);
            return Err(fault);
        }
    };
    let actors = actors_of(alloc, &tables.actors, notes);
    let channels = channels_of(alloc, &tables.channels, notes);
    let actors = actors?;
    let channels = channels?;
    Ok(GraphDraft {
        actors,
        channels,
        cells: tables.cells,
    })
}
