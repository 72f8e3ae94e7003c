//! The files of a stream: opened, made, and put in their places or given up.

ghost use Rattle.std.specs.Prelude.{◌≡◌, ◌≤◌, ◌++◌, ◌⊎◌, List, [], ◌∷◌, map, length, take, IfErr, IfOk, OnOk};
ghost use Rattle.csdf_model.specs.Graph.{actor_view};
ghost use Rattle.csdf_disk.specs.Acts.{Act, Asks};
ghost use Rattle.csdf_flows.specs.Flows.{IsUnkept, IsUnkeptAt, IsUnmade, IsUnopened, flow_file_view, keeps, leave_of, make_of, miss_of, open_of, placed, sink_at, sinks_at, source_at, sources_at, unmade_of};
ghost use Rattle.csdf_files.specs.Files.{put_fault};

use csdf_answers::{DeviceName, Name, ToolFault};
use csdf_disk::{Disk, PutFault};
use csdf_files::path_in;
use csdf_model::Actor;
use std::alloc::{AllocError, Global};
use std::path::PathBuf;

/// A file of a stream: its path, and its name in its folder.
#[derive(Drop)]
pub(crate) struct FlowFile {
    path: PathBuf,
    name: Name,
}

/// Appends the file of an actor: its name, with this ending.
fn push_file(
    alloc: Global,
    folder: &str,
    actor: &str,
    ending: &str,
    files: &mut Vec<FlowFile>,
) -> Result<(), AllocError>
    ensures { OnOk result (map flow_file_view files.new.items ≡ map flow_file_view files.old.items ++ placed folder.now (actor.now ++ ending.now) ∷ []) }
{
    let name = Name::with_ending(alloc, actor, ending)?;
    let path = path_in(alloc, folder, &name)?;
    files.push(FlowFile { path, name })?;
    Ok(())
}

/// Appends the file of an actor, where it is a source.
fn push_source(
    alloc: Global,
    folder: &str,
    actor: &Actor,
    files: &mut Vec<FlowFile>,
) -> Result<(), AllocError>
    ensures { OnOk result (map flow_file_view files.new.items ≡ map flow_file_view files.old.items ++ source_at folder.now (actor_view actor.now)) }
{
    if actor.kernel.is_source() {
        push_file(alloc, folder, actor.name.as_str(), ".in", files)?;
    }
    Ok(())
}

/// Appends the file of an actor, where it is a sink.
fn push_sink(
    alloc: Global,
    folder: &str,
    actor: &Actor,
    files: &mut Vec<FlowFile>,
) -> Result<(), AllocError>
    ensures { OnOk result (map flow_file_view files.new.items ≡ map flow_file_view files.old.items ++ sink_at folder.now (actor_view actor.now)) }
{
    if actor.kernel.is_sink() {
        push_file(alloc, folder, actor.name.as_str(), ".out", files)?;
    }
    Ok(())
}

/// The files of the sources in a folder, in file order.
pub(crate) fn source_files(
    alloc: Global,
    folder: &str,
    actors: &[Actor],
) -> Result<Vec<FlowFile>, AllocError>
    ensures { IfOk result (λ files. map flow_file_view files.items ≡ sources_at folder.now (map actor_view actors.now)) }
{
    let mut files = Vec::new(alloc);
    for actor in actors {
        push_source(alloc, folder, actor, &mut files)?;
    }
    Ok(files)
}

/// The files of the sinks in a folder, in file order.
pub(crate) fn sink_files(
    alloc: Global,
    folder: &str,
    actors: &[Actor],
) -> Result<Vec<FlowFile>, AllocError>
    ensures { IfOk result (λ files. map flow_file_view files.items ≡ sinks_at folder.now (map actor_view actors.now)) }
{
    let mut files = Vec::new(alloc);
    for actor in actors {
        push_sink(alloc, folder, actor, &mut files)?;
    }
    Ok(files)
}

/// Opens a file to be read.
fn open_file<D: Disk>(alloc: Global, disk: &mut D, file: &FlowFile) -> Result<D::Source, ToolFault>
    ensures opened { OnOk result (Asks (D.acts disk.old) (D.acts disk.new) (open_of (flow_file_view file.now) ∷ [])) }
    ensures unopened { IfErr result (λ fault. (fault ≡ ToolFault.Memory)
        ⊎ (Asks (D.acts disk.old) (D.acts disk.new) (miss_of (flow_file_view file.now) ∷ []) × (fault ≡ ToolFault.Device (DeviceName.File (flow_file_view file.now).name)))) }
{
    let name = Name::new(alloc, file.name.as_str())?;
    match disk.open(file.path.as_str()) {
        Ok(source) => Ok(source),
        Err(_) => Err(ToolFault::Device(DeviceName::File(name))),
    }
}

/// Opens files to be read, in order, until one is not opened.
pub(crate) fn open_all<D: Disk>(
    alloc: Global,
    disk: &mut D,
    files: &[FlowFile],
) -> Result<Vec<D::Source>, ToolFault>
    ensures opened { OnOk result (Asks (D.acts disk.old) (D.acts disk.new) (map open_of (map flow_file_view files.now))) }
    ensures many { IfOk result (λ sources. length sources.items ≡ length files.now) }
    ensures unopened { IfErr result (λ fault. (fault ≡ ToolFault.Memory) ⊎ ((acts : List Act) × Asks (D.acts disk.old) (D.acts disk.new) acts
        × IsUnopened (map flow_file_view files.now) acts fault)) }
{
    let mut sources = Vec::new(alloc);
    for file in files {
        let source = open_file(alloc, disk, file)?;
        sources.push(source)?;
    }
    Ok(sources)
}

/// Makes a file that is to be written.
fn make_file<D: Disk>(alloc: Global, disk: &mut D, file: &FlowFile) -> Result<D::Sink, ToolFault>
    ensures made { OnOk result (Asks (D.acts disk.old) (D.acts disk.new) (make_of (flow_file_view file.now) ∷ [])) }
    ensures unmade { IfErr result (λ fault. ((fault ≡ ToolFault.Memory) × (disk.new ≡ disk.old)) ⊎ ((come : PutFault)
        × Asks (D.acts disk.old) (D.acts disk.new) (unmade_of come (flow_file_view file.now) ∷ []) × (fault ≡ put_fault (flow_file_view file.now).name come))) }
{
    let name = Name::new(alloc, file.name.as_str())?;
    match disk.make(file.path.as_str()) {
        Ok(sink) => Ok(sink),
        Err(fault) => Err(put_fault(name, fault)),
    }
}

/// Why a file was not put in its place, as the program tells it.
fn put_fault(name: Name, fault: PutFault) -> ToolFault
    ensures { result ≡ put_fault name fault }
{
    match fault {
        PutFault::Device => ToolFault::Device(DeviceName::File(name)),
        PutFault::Memory => ToolFault::Memory,
    }
}

/// Gives up the files that were made.
pub(crate) fn give_up<D: Disk>(disk: &mut D, files: &[FlowFile], sinks: &[D::Sink])
    requires { length sinks.now ≤ length files.now }
    ensures { Asks (D.acts disk.old) (D.acts disk.new) (map leave_of (take (length sinks.now) (map flow_file_view files.now))) }
{
    for k in 0..sinks.len() {
        disk.leave(files[k].path.as_str(), &sinks[k]);
    }
}

/// Makes the files that are to be written, in order. Where one is not made, those before it are given up.
pub(crate) fn make_all<D: Disk>(
    alloc: Global,
    disk: &mut D,
    files: &[FlowFile],
) -> Result<Vec<D::Sink>, ToolFault>
    ensures made { OnOk result (Asks (D.acts disk.old) (D.acts disk.new) (map make_of (map flow_file_view files.now))) }
    ensures many { IfOk result (λ sinks. length sinks.items ≡ length files.now) }
    ensures unmade { IfErr result (λ fault. (fault ≡ ToolFault.Memory) ⊎ ((acts : List Act) × Asks (D.acts disk.old) (D.acts disk.new) acts
        × IsUnmade (map flow_file_view files.now) acts fault)) }
{
    let mut sinks = Vec::with_capacity(alloc, files.len())?;
    for file in files {
        match make_file(alloc, disk, file) {
            Ok(sink) => sinks.push(sink)?,
            Err(fault) => {
                give_up(disk, files, &sinks);
                return Err(fault);
            }
        }
    }
    Ok(sinks)
}

/// A file that was not put in its place, by its number, and why.
#[derive(Clone, Copy)]
struct Unkept {
    number: usize,
    why: PutFault,
}

/// Puts files in their places, in order, until one is not put.
fn keep_front<D: Disk>(disk: &mut D, files: &[FlowFile], sinks: &[D::Sink]) -> Result<(), Unkept>
    requires { length sinks.now ≡ length files.now }
    ensures kept { OnOk result (Asks (D.acts disk.old) (D.acts disk.new) (keeps (map flow_file_view files.now) (map D.Sink.written sinks.now))) }
    ensures unkept { IfErr result (IsUnkeptAt (map flow_file_view files.now) (map D.Sink.written sinks.now) (D.acts disk.old) (D.acts disk.new)) }
{
    for k in 0..files.len() {
        if let Err(why) = disk.keep(files[k].path.as_str(), &sinks[k]) {
            return Err(Unkept { number: k, why });
        }
    }
    Ok(())
}

/// Puts the files that were made in their places, in order. Where one is not put, those behind it are given up.
pub(crate) fn keep_all<D: Disk>(
    alloc: Global,
    disk: &mut D,
    files: &[FlowFile],
    sinks: &[D::Sink],
) -> Result<(), ToolFault>
    requires { length sinks.now ≡ length files.now }
    ensures kept { OnOk result (Asks (D.acts disk.old) (D.acts disk.new) (keeps (map flow_file_view files.now) (map D.Sink.written sinks.now))) }
    ensures unkept { IfErr result (λ fault. (acts : List Act) × Asks (D.acts disk.old) (D.acts disk.new) acts
        × IsUnkept (map flow_file_view files.now) (map D.Sink.written sinks.now) acts fault) }
{
    match keep_front(disk, files, sinks) {
        Ok(()) => Ok(()),
        Err(unkept) => {
            let behind = unkept.number + 1;
            give_up(disk, &files[behind..], &sinks[behind..]);
            let name = Name::new(alloc, files[unkept.number].name.as_str())?;
            Err(put_fault(name, unkept.why))
        }
    }
}
