//! The files of a run, and whether one that it is to write is in use.

ghost use Rattle.std.specs.Prelude.{◌≡◌, ◌⊎◌, ◌++◌, [], ◌∷◌, List, true, false, map, option_map, option_to_list, IfErr, IfOk, OnErr, OnOk};
ghost use Rattle.csdf_model.specs.Graph.{actor_view};
ghost use Rattle.csdf_words.specs.CommandLine.{order_view};
ghost use Rattle.csdf_disk.specs.Acts.{Act, Asks, OnlyReads};
ghost use Rattle.csdf_files.specs.Places.{Apart, IsInUse, file_on, files_of_moves, files_on, graph_path, is_among, is_in_use, listed, listed_view, located, listed_files, sink_places};

use crate::files::path_in;
use csdf_answers::{Name, ToolFault};
use csdf_disk::{Disk, FilePlace};
use csdf_model::Actor;
use csdf_words::RunWords;
use std::alloc::{AllocError, Global};

/// A file of a run: its folder, its name there, and whether the run writes it.
#[derive(Drop)]
struct RunFile<'a> {
    folder: &'a str,
    name: Name,
    is_written: bool,
}

/// The token files that a run reads, or those that it writes.
#[derive(Clone, Copy)]
enum Side {
    Sources,
    Sinks,
}

/// The token file of an actor that is a source.
fn source_file<'a>(
    alloc: Global,
    folder: &'a str,
    actor: &Actor,
) -> Result<Option<RunFile<'a>>, AllocError>
    ensures { IfOk result (λ file. option_map listed_view file ≡ file_on Side.Sources folder.entry.now (actor_view actor.now)) }
{
    if !actor.kernel.is_source() {
        return Ok(None);
    }
    let name = Name::with_ending(alloc, actor.name.as_str(), ".in")?;
    Ok(Some(RunFile {
        folder,
        name,
        is_written: false,
    }))
}

/// The token file of an actor that is a sink.
fn sink_file<'a>(
    alloc: Global,
    folder: &'a str,
    actor: &Actor,
) -> Result<Option<RunFile<'a>>, AllocError>
    ensures { IfOk result (λ file. option_map listed_view file ≡ file_on Side.Sinks folder.entry.now (actor_view actor.now)) }
{
    if !actor.kernel.is_sink() {
        return Ok(None);
    }
    let name = Name::with_ending(alloc, actor.name.as_str(), ".out")?;
    Ok(Some(RunFile {
        folder,
        name,
        is_written: true,
    }))
}

/// The token file of an actor, where it has one on this side.
fn file_on<'a>(
    alloc: Global,
    side: Side,
    folder: &'a str,
    actor: &Actor,
) -> Result<Option<RunFile<'a>>, AllocError>
    ensures { IfOk result (λ file. option_map listed_view file ≡ file_on side folder.entry.now (actor_view actor.now)) }
{
    match side {
        Side::Sources => source_file(alloc, folder, actor),
        Side::Sinks => sink_file(alloc, folder, actor),
    }
}

/// Appends the token file of an actor, where it has one on this side.
fn push_file<'a>(
    alloc: Global,
    side: Side,
    folder: &'a str,
    actor: &Actor,
    files: &mut Vec<RunFile<'a>>,
) -> Result<(), AllocError>
    ensures { OnOk result (map listed_view files.new.items
        ≡ map listed_view files.old.items ++ option_to_list (file_on side folder.entry.now (actor_view actor.now))) }
{
    if let Some(file) = file_on(alloc, side, folder, actor)? {
        files.push(file)?;
    }
    Ok(())
}

/// Appends the token files of all actors on this side, in file order.
fn push_files<'a>(
    alloc: Global,
    side: Side,
    folder: &'a str,
    actors: &[Actor],
    files: &mut Vec<RunFile<'a>>,
) -> Result<(), AllocError>
    ensures { OnOk result (map listed_view files.new.items
        ≡ map listed_view files.old.items ++ files_on side folder.entry.now (map actor_view actors.now)) }
{
    for actor in actors {
        push_file(alloc, side, folder, actor, files)?;
    }
    Ok(())
}

/// Appends the file at a path.
fn push_path(
    alloc: Global,
    path: &str,
    is_written: bool,
    files: &mut Vec<RunFile<'_>>,
) -> Result<(), AllocError>
    ensures { OnOk result (map listed_view files.new.items ≡ map listed_view files.old.items ++ listed [] path.now is_written ∷ []) }
{
    let name = Name::new(alloc, path)?;
    files.push(RunFile {
        folder: "",
        name,
        is_written,
    })?;
    Ok(())
}

/// The path of the graph file: that of standard input where the word is `-`.
fn graph_path(word: &str) -> &str
    ensures { result.now ≡ graph_path word.now }
{
    if word == "-" { "/dev/stdin" } else { word }
}

/// Appends the files that are read, and then that of the moves, where one is asked for.
fn push_files_of_moves<'a>(
    alloc: Global,
    order: RunWords<'a>,
    actors: &[Actor],
    files: &mut Vec<RunFile<'a>>,
) -> Result<(), AllocError>
    ensures { OnOk result (map listed_view files.new.items ≡ map listed_view files.old.items
        ++ files_of_moves (order_view order.entry) (map actor_view actors.now) (order_view order.entry).journal) }
{
    let Some(path) = order.journal else {
        return Ok(());
    };
    push_path(alloc, graph_path(order.graph), false, files)?;
    push_files(alloc, Side::Sources, order.folder, actors, files)?;
    push_path(alloc, path, true, files)
}

/// Standard output and then the files of the sinks of a folder, as they are looked for.
fn files_of_sinks<'a>(
    alloc: Global,
    folder: &'a str,
    actors: &[Actor],
) -> Result<Vec<RunFile<'a>>, AllocError>
    ensures { IfOk result (λ files. map listed_view files.items ≡ sink_places folder.entry.now (map actor_view actors.now)) }
{
    let mut files = Vec::new(alloc);
    push_path(alloc, "/dev/stdout", false, &mut files)?;
    push_files(alloc, Side::Sinks, folder, actors, &mut files)?;
    Ok(files)
}

/// The files of a run in the order in which they are looked for: a file that is written stands behind
/// those that it must not be.
fn files_of_run<'a>(
    alloc: Global,
    order: RunWords<'a>,
    actors: &[Actor],
) -> Result<Vec<RunFile<'a>>, AllocError>
    ensures { IfOk result (λ files. map listed_view files.items ≡ listed_files (order_view order.entry) (map actor_view actors.now)) }
{
    let mut files = files_of_sinks(alloc, order.sink_folder, actors)?;
    push_files_of_moves(alloc, order, actors, &mut files)?;
    Ok(files)
}

/// Whether a place is one of these.
fn is_among(place: &FilePlace, places: &[FilePlace]) -> bool
    ensures { result ≡ is_among place.now places.now }
{
    for other in places {
        if place.is_one(other) {
            return true;
        }
    }
    false
}

/// Whether a file is to be written and is one of these.
fn is_in_use(file: &RunFile<'_>, place: &FilePlace, places: &[FilePlace]) -> bool
    ensures { result ≡ is_in_use (listed_view file.now) place.now places.now }
{
    file.is_written && is_among(place, places)
}

/// Looks for a file, and keeps its place. One that is to be written is refused where it is in use.
fn look_for<D: Disk>(
    alloc: Global,
    disk: &mut D,
    file: &RunFile<'_>,
    places: &mut Vec<FilePlace>,
) -> Result<(), ToolFault>
    ensures apart { OnOk result ((p : FilePlace) × Asks (D.acts disk.old) (D.acts disk.new) (located (listed_view file.now) p ∷ [])
        × (is_in_use (listed_view file.now) p places.old.items ≡ false) × (places.new.items ≡ places.old.items ++ p ∷ [])) }
    ensures in_use { IfErr result (λ fault. (fault ≡ ToolFault.Memory) ⊎ ((p : FilePlace) × Asks (D.acts disk.old) (D.acts disk.new) (located (listed_view file.now) p ∷ [])
        × (is_in_use (listed_view file.now) p places.old.items ≡ true) × (fault ≡ ToolFault.InUse (listed_view file.now).name))) }
    ensures only { OnErr result (OnlyReads (D.acts disk.old) (D.acts disk.new)) }
{
    let path = path_in(alloc, file.folder, &file.name)?;
    let place = disk.locate(path.as_str())?;
    if is_in_use(file, &place, places) {
        let name = Name::new(alloc, file.name.as_str())?;
        return Err(ToolFault::InUse(name));
    }
    places.push(place)?;
    Ok(())
}

/// Looks for files, one after another, until one that is to be written is in use.
fn look_for_all<D: Disk>(
    alloc: Global,
    disk: &mut D,
    files: &[RunFile<'_>],
) -> Result<(), ToolFault>
    ensures apart { OnOk result ((acts : List Act) × Asks (D.acts disk.old) (D.acts disk.new) acts × Apart (map listed_view files.now) acts) }
    ensures in_use { IfErr result (λ fault. (fault ≡ ToolFault.Memory) ⊎ ((acts : List Act) × Asks (D.acts disk.old) (D.acts disk.new) acts
        × IsInUse (map listed_view files.now) acts fault)) }
    ensures only { OnErr result (OnlyReads (D.acts disk.old) (D.acts disk.new)) }
{
    let mut places = Vec::new(alloc);
    for file in files {
        look_for(alloc, disk, file, &mut places)?;
    }
    Ok(())
}

/// Sees that no file that a run is to write is in use: that it is not the file that standard output is,
/// nor, for the file of the moves, one that the run reads or another one that it writes.
///
/// The error is the first file that is in use, by its name, or want of memory.
pub fn keep_apart<D: Disk>(
    alloc: Global,
    disk: &mut D,
    order: RunWords<'_>,
    actors: &[Actor],
) -> Result<(), ToolFault>
    ensures apart { OnOk result ((acts : List Act) × Asks (D.acts disk.old) (D.acts disk.new) acts
        × Apart (listed_files (order_view order.entry) (map actor_view actors.now)) acts) }
    ensures in_use { IfErr result (λ fault. (fault ≡ ToolFault.Memory) ⊎ ((acts : List Act) × Asks (D.acts disk.old) (D.acts disk.new) acts
        × IsInUse (listed_files (order_view order.entry) (map actor_view actors.now)) acts fault)) }
    ensures only { OnErr result (OnlyReads (D.acts disk.old) (D.acts disk.new)) }
{
    let files = files_of_run(alloc, order, actors)?;
    look_for_all(alloc, disk, &files)
}

/// Sees that no file of a folder that sinks are to be written to is in use: that it is not the file that
/// standard output is, nor that of another sink.
///
/// The error is the first file that is in use, by its name, or want of memory.
pub fn keep_sinks_apart<D: Disk>(
    alloc: Global,
    disk: &mut D,
    folder: &str,
    actors: &[Actor],
) -> Result<(), ToolFault>
    ensures apart { OnOk result ((acts : List Act) × Asks (D.acts disk.old) (D.acts disk.new) acts
        × Apart (sink_places folder.now (map actor_view actors.now)) acts) }
    ensures in_use { IfErr result (λ fault. (fault ≡ ToolFault.Memory) ⊎ ((acts : List Act) × Asks (D.acts disk.old) (D.acts disk.new) acts
        × IsInUse (sink_places folder.now (map actor_view actors.now)) acts fault)) }
    ensures only { OnErr result (OnlyReads (D.acts disk.old) (D.acts disk.new)) }
{
    let files = files_of_sinks(alloc, folder, actors)?;
    look_for_all(alloc, disk, &files)
}
