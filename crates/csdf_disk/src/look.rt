//! What is found at the path of a file that is to be read.

ghost use Rattle.std.specs.Prelude.{◌≡◌, ◌↔◌, ℕ, List, [], ◌∷◌, true, false, None, Ok, IfErr, IfOk, IfSome, OnErr, Option, is_none, is_ok};
ghost use Rattle.std.specs.Fs.{IsDir, IsFile};
ghost use Rattle.std.specs.IoError.{error_kind};
ghost use Rattle.std.specs.declared.io.ErrorKind.{ErrorKind};
ghost use Rattle.csdf_disk.specs.Contents.{AreTokensOf};
ghost use Rattle.csdf_disk.specs.SystemCalls.{Called, Open, unopened_as};
ghost use Rattle.csdf_disk.specs.TokenFiles.{IsOpenedAs, IsReadOf, Looks, unopened};

use crate::system::System;
use csdf_answers::{TokenFile, ToolFault};
use csdf_bytes::{
    DeviceFailed, FromReader, InputFault, Intake, TokenFault, read_bytes, read_token_file,
};
use std::alloc::Global;
use std::fs::FileType;
use std::io::{self, ErrorKind, Read};

/// What an error of the system says of a token file.
fn unopened(kind: ErrorKind) -> Result<TokenFile, ToolFault>
    ensures found { result ≡ unopened kind }
    ensures memory { IfErr result (λ fault. fault ≡ ToolFault.Memory) }
{
    match kind {
        ErrorKind::NotFound | ErrorKind::NotADirectory => Ok(TokenFile::Missing),
        ErrorKind::PermissionDenied => Ok(TokenFile::Forbidden),
        ErrorKind::OutOfMemory => Err(ToolFault::Memory),
        _ => Ok(TokenFile::Unread),
    }
}

/// What is read of a token file.
fn read_file<I: Intake>(alloc: Global, reader: &mut I) -> Result<TokenFile, ToolFault>
    ensures found { IfOk result (IsReadOf (I.left reader.old)) }
    ensures device { result ≡ Ok TokenFile.Unread ↔ (I.failed reader.new ≡ true) }
    ensures memory { IfErr result (λ fault. fault ≡ ToolFault.Memory) }
{
    match read_bytes(alloc, reader) {
        Ok(bytes) => Ok(TokenFile::Bytes(bytes)),
        Err(InputFault::Read) => Ok(TokenFile::Unread),
        Err(InputFault::TooLong) => Ok(TokenFile::TooLong),
        Err(InputFault::Memory) => Err(ToolFault::Memory),
    }
}

/// What is found of a token file that was to be opened.
fn opened_file<F: Read + Drop>(alloc: Global, opened: io::Result<F>) -> Result<TokenFile, ToolFault>
    ensures found { IfOk opened (λ file. IfOk result (IsReadOf (F.remaining file))) }
    ensures opened { IsOpenedAs (unopened_as opened) result }
    ensures memory { IfErr result (λ fault. fault ≡ ToolFault.Memory) }
{
    match opened {
        Ok(file) => read_file(alloc, &mut FromReader::new(file)),
        Err(error) => unopened(error.kind()),
    }
}

/// What the kind of a file says of a token file: nothing of a plain one.
fn by_kind(kind: FileType) -> Option<TokenFile>
    ensures folder { IsDir kind → result ≡ Some TokenFile.Folder }
    ensures special { ¬ IsDir kind → ¬ IsFile kind → result ≡ Some TokenFile.Special }
    ensures plain { IsFile kind → result ≡ None }
{
    if kind.is_dir() {
        Some(TokenFile::Folder)
    } else if kind.is_file() {
        None
    } else {
        Some(TokenFile::Special)
    }
}

/// What is found at the path of a token file.
///
/// Only a file is opened: to open a pipe may wait, and to read it takes what it gives.
pub(crate) fn token_file_at<S: System>(
    alloc: Global,
    system: &mut S,
    path: &str,
) -> Result<TokenFile, ToolFault>
    ensures looked { Looks path.now (S.calls system.old) (S.calls system.new) result }
    ensures memory { IfErr result (λ fault. fault ≡ ToolFault.Memory) }
{
    match system.metadata(path) {
        Ok(told) => match by_kind(told.file_type()) {
            Some(file) => Ok(file),
            None => opened_file(alloc, system.open(path)),
        },
        Err(error) => unopened(error.kind()),
    }
}

/// All bytes of a file that was to be opened.
fn opened_bytes<F: Read + Drop>(alloc: Global, opened: io::Result<F>) -> Result<Vec<u8>, InputFault>
    ensures all { IfOk opened (λ file. IfOk result (λ bytes. IfSome (F.remaining file) (λ left. bytes.items ≡ left))) }
    ensures unopened { OnErr opened (result ≡ Err InputFault.Read) }
{
    match opened {
        Ok(file) => read_bytes(alloc, &mut FromReader::new(file)),
        Err(_) => Err(InputFault::Read),
    }
}

/// All bytes of the file at a path. One that can't be opened is one that fails.
pub(crate) fn bytes_at<S: System>(
    alloc: Global,
    system: &mut S,
    path: &str,
) -> Result<Vec<u8>, InputFault>
    ensures { (why : Option ErrorKind) × Called (S.calls system.old) (S.calls system.new) (Open path.now why ∷ [])
        × IfSome why (λ kind. result ≡ Err InputFault.Read) }
{
    opened_bytes(alloc, system.open(path))
}

/// The tokens of a file that was to be opened.
fn opened_tokens<F: Read + Drop>(
    alloc: Global,
    opened: io::Result<F>,
) -> Result<Result<Vec<i32>, TokenFault>, InputFault>
    ensures came { IfOk opened (λ file. IfOk result (λ told. (text : List ℕ) × IfSome (F.remaining file) (λ left. text ≡ left) × AreTokensOf text told)) }
    ensures unopened { OnErr opened (result ≡ Err InputFault.Read) }
{
    let Ok(file) = opened else {
        return Err(InputFault::Read);
    };
    read_token_file(alloc, &mut FromReader::new(file))
}

/// The tokens of the file at a path, or the fault of its first faulty line. One that can't be opened is one
/// that fails.
pub(crate) fn tokens_at<S: System>(
    alloc: Global,
    system: &mut S,
    path: &str,
) -> Result<Result<Vec<i32>, TokenFault>, InputFault>
    ensures called { (why : Option ErrorKind) × Called (S.calls system.old) (S.calls system.new) (Open path.now why ∷ [])
        × IfSome why (λ kind. result ≡ Err InputFault.Read) }
    ensures came { IfOk result (λ told. (text : List ℕ) × AreTokensOf text told) }
{
    opened_tokens(alloc, system.open(path))
}

/// The file at a path, opened to be read.
pub(crate) fn source_at<S: System>(
    system: &mut S,
    path: &str,
) -> Result<FromReader<S::File>, DeviceFailed>
    ensures opened { (why : Option ErrorKind) × Called (S.calls system.old) (S.calls system.new) (Open path.now why ∷ [])
        × (is_ok result ≡ is_none why) }
    ensures unmarked { IfOk result (λ source. source.failed ≡ false) }
{
    match system.open(path) {
        Ok(file) => Ok(FromReader::new(file)),
        Err(_) => Err(DeviceFailed),
    }
}
