//! A text in the place of a file: beside it first, and there when it is whole.

ghost use Rattle.std.specs.Prelude.{◌≡◌, [], ◌∷◌, List, true, false, IfErr, IfOk, OnOk, is_ok, option_map, string_bytes};
ghost use Rattle.std.specs.Fs.{permissions_mode};
ghost use Rattle.csdf_disk.specs.Contents.{content_text};
ghost use Rattle.csdf_disk.specs.SystemCalls.{Call, Called, Puts, PutsBeside, Says, Steps, part_of, permits, step_of, steps_beside};

use crate::content::Content;
use crate::put_fault::PutFault;
use crate::system::System;
use std::alloc::{AllocError, Global};
use std::fs::{Metadata, Permissions};
use std::io::{self, ErrorKind};

/// What stands at a path.
#[derive(Drop)]
pub(crate) enum There {
    /// Nothing.
    Free,
    /// A plain file with these permissions.
    Plain(Permissions),
    /// Something else, as a FIFO, a folder or a link.
    Other,
}

/// What stands at a path, by what the system tells.
pub(crate) fn there_of(told: io::Result<Metadata>) -> Result<There, PutFault>
    ensures { Says told result }
{
    match told {
        Ok(told) if told.is_file() => Ok(There::Plain(told.permissions())),
        Ok(_) => Ok(There::Other),
        Err(error) if error.kind() == ErrorKind::NotFound => Ok(There::Free),
        Err(_) => Err(PutFault::Device),
    }
}

/// The path beside it at which a file is made before it is put in its place.
pub(crate) fn part_of(alloc: Global, path: &str) -> Result<String, AllocError>
    ensures { IfOk result (λ part. string_bytes part ≡ part_of path.now) }
{
    let mut part = String::from_str(alloc, path)?;
    part.push_str(".part")?;
    Ok(part)
}

/// What the end of a call is for a put.
pub(crate) fn ended(call: io::Result<()>) -> Result<(), PutFault>
    ensures well { OnOk result (is_ok call ≡ true) }
    ensures failed { IfErr result (λ why. (why ≡ PutFault.Device) × (is_ok call ≡ false)) }
{
    if call.is_err() {
        return Err(PutFault::Device);
    }
    Ok(())
}

/// What is done to a part.
#[derive(Clone, Copy)]
enum PartStage<'a> {
    /// It is made or emptied, and this is written to it.
    Write(&'a str, Content<'a>),
    /// It is put in the place of a file.
    Rename(&'a str, &'a str),
}

/// Does one thing to a part.
fn advance<S: System>(system: &mut S, stage: PartStage<'_>) -> Result<(), PutFault>
    ensures { Steps (step_of stage.entry ∷ []) (S.calls system.old) (S.calls system.new) result }
{
    match stage {
        PartStage::Write(part, content) => ended(system.write(part, content)),
        PartStage::Rename(part, path) => ended(system.rename(part, path)),
    }
}

/// Gives a part the permissions of the file that it is to replace, where there is one.
pub(crate) fn permit<S: System>(
    system: &mut S,
    part: &str,
    permissions: Option<Permissions>,
) -> Result<(), PutFault>
    ensures { Steps (permits part.now (option_map permissions_mode permissions)) (S.calls system.old) (S.calls system.new) result }
{
    match permissions {
        Some(permissions) => ended(system.set_permissions(part, permissions)),
        None => Ok(()),
    }
}

/// Writes a text to a part, and puts that in its place when it is whole.
fn put_whole<S: System>(
    system: &mut S,
    part: &str,
    permissions: Option<Permissions>,
    path: &str,
    content: Content<'_>,
) -> Result<(), PutFault>
    ensures { Steps (steps_beside part.now (option_map permissions_mode permissions) path.now (content_text content.entry)) (S.calls system.old) (S.calls system.new) result }
{
    advance(system, PartStage::Write(part, Content::Bytes(&[])))?;
    permit(system, part, permissions)?;
    advance(system, PartStage::Write(part, content))?;
    advance(system, PartStage::Rename(part, path))
}

/// Puts a text beside its place and then there. A part that is not put there is taken away.
fn put_beside<S: System>(
    alloc: Global,
    system: &mut S,
    permissions: Option<Permissions>,
    path: &str,
    content: Content<'_>,
) -> Result<(), PutFault>
    ensures { (calls : List Call) × Called (S.calls system.old) (S.calls system.new) calls
        × PutsBeside (option_map permissions_mode permissions) path.now (content_text content.entry) calls result }
{
    let Ok(part) = part_of(alloc, path) else {
        return Err(PutFault::Memory);
    };
    match put_whole(system, part.as_str(), permissions, path, content) {
        Ok(()) => Ok(()),
        Err(why) => {
            let _ = system.remove_file(part.as_str());
            Err(why)
        }
    }
}

/// Puts a text in the place of a file.
///
/// A plain file is made beside its place, as `PATH.part`, and renamed when it is whole, so that a failure
/// leaves what was there. What is no plain file, as a FIFO or a link, is written to.
pub(crate) fn put_at<S: System>(
    alloc: Global,
    system: &mut S,
    path: &str,
    content: Content<'_>,
) -> Result<(), PutFault>
    ensures { Puts path.now (content_text content.entry) (S.calls system.old) (S.calls system.new) result }
{
    match there_of(system.symlink_metadata(path)) {
        Ok(There::Free) => put_beside(alloc, system, None, path, content),
        Ok(There::Plain(permissions)) => put_beside(
            alloc,
            system,
            Some(permissions),
            path,
            content,
        ),
        Ok(There::Other) => ended(system.write(path, content)),
        Err(why) => Err(why),
    }
}
