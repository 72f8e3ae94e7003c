//! The explanation of a graph file that cannot be read: why.

ghost use Rattle.std.specs.Prelude.{◌≡◌, ◌≢◌, ◌⊎◌, true, string_bytes, Some, Err, IfErr, IfOk, OnOk};
ghost use Rattle.std.specs.Io.KnownBytes.{Appends};
ghost use Rattle.csdf_files.specs.Unread.{FindsThen, LacksWhy, is_of_file, unread_text, why_unread};

use csdf_answers::{DeviceName, Name, TokenFile, ToolFault};
use csdf_bytes::{Outlet, write_bytes};
use csdf_disk::Disk;
use csdf_explain::push_token_note;
use std::alloc::{AllocError, Global};

/// Whether a fault is that a file cannot be read.
pub fn is_of_file(fault: &ToolFault) -> bool
    ensures { result ≡ is_of_file fault.now }
{
    matches!(fault, ToolFault::Device(DeviceName::File(_)))
}

/// What is told of a file that was not read, by what was found of it then; nothing of one that can be read
/// by then.
fn why_unread(found: TokenFile) -> Option<TokenFile>
    ensures { result ≡ why_unread found }
{
    match found {
        TokenFile::Missing => Some(TokenFile::Missing),
        TokenFile::Folder => Some(TokenFile::Folder),
        TokenFile::Forbidden => Some(TokenFile::Forbidden),
        TokenFile::Special | TokenFile::Unread => Some(TokenFile::Unread),
        TokenFile::TooLong | TokenFile::Bytes(_) => None,
    }
}

/// The line of the fault that a file cannot be read, and the line that tells why.
fn unread_text(alloc: Global, path: &str, why: &TokenFile) -> Result<String, AllocError>
    ensures { IfOk result (λ text. string_bytes text ≡ unread_text path.now why.now) }
{
    let name = Name::new(alloc, path)?;
    let fault = ToolFault::Device(DeviceName::File(name));
    let mut text = String::new(alloc);
    write!(text, "{fault}\n")?;
    push_token_note(alloc, &mut text, "csdf", path, why)?;
    Ok(text)
}

/// Writes why a file cannot be read.
fn tell_unread<O: Outlet>(
    alloc: Global,
    path: &str,
    why: &TokenFile,
    out: &mut O,
) -> Result<(), ToolFault>
    ensures written { OnOk result (Appends (O.written out.old) (O.written out.new) (unread_text path.now why.now)) }
    ensures refused { IfErr result (λ told. (told ≡ ToolFault.Memory) ⊎ (told ≡ ToolFault.Device DeviceName.Output)) }
    ensures unwritten { IfErr result (λ told. told ≢ ToolFault.Device DeviceName.Output → out.new ≡ out.old) }
    ensures failed { result ≡ Err (ToolFault.Device DeviceName.Output) → O.failed out.new ≡ true }
{
    let text = unread_text(alloc, path, why)?;
    match write_bytes(out, text.as_bytes()) {
        Ok(()) => Ok(()),
        Err(_) => Err(ToolFault::Device(DeviceName::Output)),
    }
}

/// Writes why a graph file could not be read, by what is found at its path then.
///
/// The error is the fault of the file as it was, where what is found tells nothing, a failure of `out`, or want of
/// memory.
pub fn explain_unread<D: Disk, O: Outlet>(
    alloc: Global,
    disk: &mut D,
    path: &str,
    fault: ToolFault,
    out: &mut O,
) -> Result<(), ToolFault>
    requires { is_of_file fault ≡ true }
    ensures written { OnOk result ((why : TokenFile) × FindsThen path.now (D.acts disk.old) (D.acts disk.new) (Some why)
        × Appends (O.written out.old) (O.written out.new) (unread_text path.now why)) }
    ensures caused { IfErr result (λ told. (told ≡ ToolFault.Memory)
        ⊎ LacksWhy path.now (D.acts disk.old) (D.acts disk.new) fault (O.failed out.new) told) }
    ensures unwritten { IfErr result (λ told. told ≢ ToolFault.Device DeviceName.Output → out.new ≡ out.old) }
    ensures failed { result ≡ Err (ToolFault.Device DeviceName.Output) → O.failed out.new ≡ true }
{
    let found = disk.look(path)?;
    match why_unread(found) {
        Some(why) => tell_unread(alloc, path, &why, out),
        None => Err(fault),
    }
}
