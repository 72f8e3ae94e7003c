//! Whole files, read and put in their places, and standard input.

ghost use Rattle.std.specs.Prelude.{◌≡◌, ◌≢◌, ◌⊎◌, ◌↔◌, ℕ, [], ◌∷◌, List, true, false, Ok, Err, IfErr, IfOk, IfSome, OnErr, OnOk};
ghost use Rattle.std.specs.Path.{path_buf_bytes, path_join};
ghost use Rattle.csdf_answers.specs.Faults.{unread};
ghost use Rattle.csdf_disk.specs.Acts.{Act, Asks, OnlyReads, Put, Read, devices};
ghost use Rattle.csdf_disk.specs.Contents.{AreTokensOf, content_text};
ghost use Rattle.csdf_files.specs.Files.{token_path, IsFeedMissing, IsUnput};
ghost use Rattle.csdf_files.specs.GraphFiles.{graph_reads, is_input, IsInputFault, IsNamed, IsNotGiven};
ghost use Rattle.csdf_files.specs.Places.{in_file};

use csdf_answers::{DeviceName, Name, ToolFault, unread};
use csdf_bytes::{InputFault, Intake, TokenFault, read_bytes};
use csdf_disk::{Content, Disk, PutFault};
use std::alloc::{AllocError, Global};
use std::path::{Path, PathBuf};

/// All bytes of standard input.
fn input_bytes<I: Intake>(alloc: Global, reader: &mut I) -> Result<Vec<u8>, ToolFault>
    ensures all { IfOk result (λ bytes. IfSome (I.left reader.old) (λ all. bytes.items ≡ all)) }
    ensures missing { IfErr result (λ fault. (why : InputFault) × IsInputFault (I.left reader.old) (I.failed reader.new) why
        × (fault ≡ unread DeviceName.Input why)) }
    ensures device { result ≡ Err (ToolFault.Device DeviceName.Input) ↔ (I.failed reader.new ≡ true) }
    ensures other { IfErr result (λ fault. fault ≢ ToolFault.Device DeviceName.Output) }
{
    match read_bytes(alloc, reader) {
        Ok(bytes) => Ok(bytes),
        Err(fault) => Err(unread(DeviceName::Input, fault)),
    }
}

/// All bytes of a file that the command line names.
fn file_bytes<D: Disk>(alloc: Global, disk: &mut D, path: &str) -> Result<Vec<u8>, ToolFault>
    ensures read { IfOk result (λ bytes. Asks (D.acts disk.old) (D.acts disk.new) (Read path.now (Ok bytes.items) ∷ [])) }
    ensures unread { OnErr result (OnlyReads (D.acts disk.old) (D.acts disk.new)) }
    ensures missing { IfErr result (λ fault. (fault ≡ ToolFault.Memory) ⊎ ((why : InputFault)
        × Asks (D.acts disk.old) (D.acts disk.new) (Read path.now (Err why) ∷ []) × (fault ≡ unread (DeviceName.File path.now) why))) }
    ensures other { IfErr result (λ fault. fault ≢ ToolFault.Device DeviceName.Output) }
{
    let name = Name::new(alloc, path)?;
    match disk.read(path) {
        Ok(bytes) => Ok(bytes),
        Err(fault) => Err(unread(DeviceName::File(name), fault)),
    }
}

/// All bytes of a command's graph file: those of standard input where the word is `-`.
///
/// The error is that the file or standard input cannot be read or is too long, by its name, or want of memory.
pub fn graph_bytes<D: Disk, I: Intake>(
    alloc: Global,
    disk: &mut D,
    word: &str,
    reader: &mut I,
) -> Result<Vec<u8>, ToolFault>
    ensures read { IfOk result (λ bytes. Asks (D.acts disk.old) (D.acts disk.new) (graph_reads word.now bytes.items)) }
    ensures unread { OnErr result (OnlyReads (D.acts disk.old) (D.acts disk.new)) }
    ensures named { IfOk result (λ bytes. IsNamed word.now (I.left reader.old) bytes.items) }
    ensures missing { IfErr result (IsNotGiven word.now (devices (I.left reader.old) (D.acts disk.old) (D.acts disk.new)) (I.failed reader.new)) }
    ensures other { IfErr result (λ fault. fault ≢ ToolFault.Device DeviceName.Output) }
    ensures device { is_input word.now ≡ true → (result ≡ Err (ToolFault.Device DeviceName.Input) ↔ (I.failed reader.new ≡ true)) }
    ensures untouched { is_input word.now ≡ false → reader.new ≡ reader.old }
{
    if word == "-" {
        input_bytes(alloc, reader)
    } else {
        file_bytes(alloc, disk, word)
    }
}

/// The path of a file of a folder.
///
/// The error is want of memory.
pub fn path_in(alloc: Global, folder: &str, file: &Name) -> Result<PathBuf, AllocError>
    ensures { IfOk result (λ path. path_buf_bytes path ≡ path_join folder.now file.now) }
{
    Path::new(folder).join(alloc, file.as_str())
}

/// The tokens of the token file of a source, `NAME.in` in the folder, or the fault of its first faulty line.
///
/// The error is that the file cannot be read, by its name, that it is too long, by the source's name, or want of
/// memory.
pub fn feed_tokens<D: Disk>(
    alloc: Global,
    disk: &mut D,
    folder: &str,
    source: &str,
) -> Result<Result<Vec<i32>, TokenFault>, ToolFault>
    ensures read { IfOk result (λ told. (text : List ℕ) × Asks (D.acts disk.old) (D.acts disk.new)
        (Read (path_join folder.now (in_file source.now)) (Ok text) ∷ []) × AreTokensOf text told) }
    ensures only { OnErr result (OnlyReads (D.acts disk.old) (D.acts disk.new)) }
    ensures missing { IfErr result (λ fault. (fault ≡ ToolFault.Memory)
        ⊎ IsFeedMissing folder.now source.now (D.acts disk.old) (D.acts disk.new) fault) }
{
    let source = Name::new(alloc, source)?;
    let file = Name::with_ending(alloc, source.as_str(), ".in")?;
    let path = path_in(alloc, folder, &file)?;
    match disk.tokens(path.as_str()) {
        Ok(told) => Ok(told),
        Err(InputFault::Read) => Err(ToolFault::Device(DeviceName::File(file))),
        Err(InputFault::TooLong) => Err(ToolFault::TooManyTokens(source)),
        Err(InputFault::Memory) => Err(ToolFault::Memory),
    }
}

/// The path of the token file of a source: `NAME.in` in the folder.
///
/// The error is want of memory.
pub fn token_path(alloc: Global, folder: &str, source: &str) -> Result<PathBuf, AllocError>
    ensures { IfOk result (λ path. path_buf_bytes path ≡ token_path folder.now source.now) }
{
    let file = Name::with_ending(alloc, source, ".in")?;
    path_in(alloc, folder, &file)
}

/// Puts a content in the place of a file of a folder.
///
/// The error is that it cannot be put, by the file's name, or want of memory.
pub fn put_file<D: Disk>(
    alloc: Global,
    disk: &mut D,
    folder: &str,
    file: &Name,
    content: Content<'_>,
) -> Result<(), ToolFault>
    ensures put { OnOk result (Asks (D.acts disk.old) (D.acts disk.new)
        (Put (path_join folder.now file.now) (content_text content.entry) (Ok tt) ∷ [])) }
    ensures unput { IfErr result (λ fault. (acts : List Act) × Asks (D.acts disk.old) (D.acts disk.new) acts
        × IsUnput (record { folder = folder.now; name = file.now; text = content_text content.entry }) acts fault) }
{
    let name = Name::new(alloc, file.as_str())?;
    let path = path_in(alloc, folder, file)?;
    match disk.put(path.as_str(), content) {
        Ok(()) => Ok(()),
        Err(PutFault::Device) => Err(ToolFault::Device(DeviceName::File(name))),
        Err(PutFault::Memory) => Err(ToolFault::Memory),
    }
}
