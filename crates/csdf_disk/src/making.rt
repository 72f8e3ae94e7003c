//! A file that is written piece by piece: beside its place first, and there when it is whole.

ghost use Rattle.std.specs.Prelude.{◌≡◌, [], ◌∷◌, List, None, Option, false, IfErr, IfOk, is_ok, option_map};
ghost use Rattle.std.specs.Fs.{permissions_mode};
ghost use Rattle.csdf_disk.specs.Acts.{made_as};
ghost use Rattle.csdf_disk.specs.SystemCalls.{Call, Called, Create, KeepsMade, KeepsPart, LeavesMade, Makes, MakesBeside, MakesItself, Steps, part_made, part_path, steps_made};

use crate::put_fault::PutFault;
use crate::putting::{There, ended, part_of, permit, there_of};
use crate::system::System;
use csdf_bytes::{DeviceFailed, Outlet, ToWriter};
use std::alloc::Global;
use std::fs::Permissions;
use std::io::Write;

/// A file that is being written: a part beside its place, or what stands there and is no plain file.
#[derive(Drop)]
pub struct MadeFile<F> {
    file: ToWriter<F>,
    part: Option<String>,
}

impl<F: Write> Outlet for MadeFile<F> {
    ghost written = { λ s. F.contents s.file.device };

    ghost failed = { λ s. s.file.failed };

    fn emit(&mut self, bytes: &[u8]) -> Result<usize, DeviceFailed> {
        self.file.emit(bytes)
    }
}

/// Makes a file, or empties the one that is there, and opens it to be written.
fn create<S: System>(system: &mut S, path: &str) -> Result<S::File, PutFault>
    ensures called { Called (S.calls system.old) (S.calls system.new) (Create path.now (is_ok result) ∷ []) }
    ensures failed { IfErr result (λ why. why ≡ PutFault.Device) }
{
    match system.create(path) {
        Ok(file) => Ok(file),
        Err(_) => Err(PutFault::Device),
    }
}

/// Makes a part with the permissions of the file that it is to replace, where there is one.
fn make_part<S: System>(
    system: &mut S,
    part: &str,
    permissions: Option<Permissions>,
) -> Result<S::File, PutFault>
    ensures { Steps (steps_made part.now (option_map permissions_mode permissions)) (S.calls system.old) (S.calls system.new) (made_as result) }
{
    let file = create(system, part)?;
    permit(system, part, permissions)?;
    Ok(file)
}

/// Makes a file beside its place. A part that does not get its permissions is taken away.
fn make_beside<S: System>(
    alloc: Global,
    system: &mut S,
    permissions: Option<Permissions>,
    path: &str,
) -> Result<MadeFile<S::File>, PutFault>
    ensures made { (calls : List Call) × Called (S.calls system.old) (S.calls system.new) calls
        × MakesBeside (option_map permissions_mode permissions) path.now calls (part_made result) }
    ensures unmarked { IfOk result (λ made. made.file.failed ≡ false) }
{
    let Ok(part) = part_of(alloc, path) else {
        return Err(PutFault::Memory);
    };
    match make_part(system, part.as_str(), permissions) {
        Ok(file) => Ok(MadeFile {
            file: ToWriter::new(file),
            part: Some(part),
        }),
        Err(why) => {
            let _ = system.remove_file(part.as_str());
            Err(why)
        }
    }
}

/// Opens what is no plain file to be written itself.
fn make_itself<S: System>(system: &mut S, path: &str) -> Result<MadeFile<S::File>, PutFault>
    ensures made { (calls : List Call) × Called (S.calls system.old) (S.calls system.new) calls × MakesItself path.now calls (part_made result) }
    ensures unmarked { IfOk result (λ made. made.file.failed ≡ false) }
{
    let file = create(system, path)?;
    Ok(MadeFile {
        file: ToWriter::new(file),
        part: None,
    })
}

/// Makes a file that is to be written piece by piece.
///
/// A plain file is made beside its place, as `PATH.part`, and stays there until it is kept, so that a
/// failure leaves what was there. What is no plain file, as a FIFO or a link, is opened itself.
pub(crate) fn make_at<S: System>(
    alloc: Global,
    system: &mut S,
    path: &str,
) -> Result<MadeFile<S::File>, PutFault>
    ensures made { Makes path.now (S.calls system.old) (S.calls system.new) (part_made result) }
    ensures unmarked { IfOk result (λ made. made.file.failed ≡ false) }
{
    match there_of(system.symlink_metadata(path)) {
        Ok(There::Free) => make_beside(alloc, system, None, path),
        Ok(There::Plain(permissions)) => make_beside(alloc, system, Some(permissions), path),
        Ok(There::Other) => make_itself(system, path),
        Err(why) => Err(why),
    }
}

/// Puts a part in its place. One that can't be put there is taken away.
fn keep_part<S: System>(system: &mut S, part: &str, path: &str) -> Result<(), PutFault>
    ensures { KeepsPart part.now path.now (S.calls system.old) (S.calls system.new) result }
{
    match ended(system.rename(part, path)) {
        Ok(()) => Ok(()),
        Err(why) => {
            let _ = system.remove_file(part);
            Err(why)
        }
    }
}

/// Puts a file that was made in its place. What is no plain file stands there.
pub(crate) fn keep_at<S: System>(
    system: &mut S,
    path: &str,
    made: &MadeFile<S::File>,
) -> Result<(), PutFault>
    ensures { KeepsMade (part_path made.now) path.now (S.calls system.old) (S.calls system.new) result }
{
    match &made.part {
        Some(part) => keep_part(system, part.as_str(), path),
        None => Ok(()),
    }
}

/// Gives a file up that was made: its part is taken away.
pub(crate) fn leave_at<S: System>(system: &mut S, made: &MadeFile<S::File>)
    ensures { LeavesMade (part_path made.now) (S.calls system.old) (S.calls system.new) }
{
    if let Some(path) = &made.part {
        let _ = system.remove_file(path.as_str());
    }
}
