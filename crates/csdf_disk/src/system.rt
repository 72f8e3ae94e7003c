//! The calls of the system that files are read and put by.

ghost use Rattle.std.specs.Prelude.{[], ◌∷◌, List, None, Option, is_ok};
ghost use Rattle.std.specs.Fs.{permissions_mode};
ghost use Rattle.csdf_disk.specs.Contents.{content_text};
ghost use Rattle.csdf_disk.specs.SystemCalls.{Call, Called, Create, Follow, Link, Open, Permit, Remove, Rename, See, Write, text_of, unopened_as};

use crate::content::Content;
use csdf_bytes::{ToWriter, write_tokens};
use std::fs::{self, Metadata, Permissions};
use std::io::{self, ErrorKind, Read, Write};
use std::path::PathBuf;
use std::rt::Files;

/// The calls of the system on files, each as std has it.
pub(crate) trait System {
    /// A file that is open, to be read or to be written.
    type File: Read + Write + Drop;

    /// What was called so far and how it ended, in order, where that is known.
    ghost calls: { Self → Option (List Call) };

    /// What is told of the file at a path, or at the end of the links there.
    fn metadata(&mut self, path: &str) -> io::Result<Metadata>
        ensures { Called (calls self.old) (calls self.new) (Follow path.now result ∷ []) };

    /// What is told of what stands at a path, which may be a link.
    fn symlink_metadata(&mut self, path: &str) -> io::Result<Metadata>
        ensures { Called (calls self.old) (calls self.new) (See path.now result ∷ []) };

    /// The text of a link.
    fn read_link(&mut self, path: &str) -> io::Result<PathBuf>
        ensures { Called (calls self.old) (calls self.new) (Link path.now (text_of result) ∷ []) };

    /// Opens a file to be read.
    fn open(&mut self, path: &str) -> io::Result<Self::File>
        ensures { Called (calls self.old) (calls self.new) (Open path.now (unopened_as result) ∷ []) };

    /// Makes a file, or empties the one that is there, and opens it to be written.
    fn create(&mut self, path: &str) -> io::Result<Self::File>
        ensures { Called (calls self.old) (calls self.new) (Create path.now (is_ok result) ∷ []) };

    /// Makes a file, or empties the one that is there, and writes this content to it.
    fn write(&mut self, path: &str, content: Content<'_>) -> io::Result<()>
        ensures { Called (calls self.old) (calls self.new) (Write path.now (content_text content.entry) (is_ok result) ∷ []) };

    /// Gives a file permissions.
    fn set_permissions(&mut self, path: &str, permissions: Permissions) -> io::Result<()>
        ensures { Called (calls self.old) (calls self.new) (Permit path.now (permissions_mode permissions) (is_ok result) ∷ []) };

    /// Gives a file another path, in place of what stands there.
    fn rename(&mut self, from: &str, to: &str) -> io::Result<()>
        ensures { Called (calls self.old) (calls self.new) (Rename from.now to.now (is_ok result) ∷ []) };

    /// Takes a file away.
    fn remove_file(&mut self, path: &str) -> io::Result<()>
        ensures { Called (calls self.old) (calls self.new) (Remove path.now (is_ok result) ∷ []) };
}

/// The calls of std. What comes of them is not known to any contract: that each method is the call of its
/// name is by reading.
#[derive(Clone, Copy)]
pub(crate) struct HostSystem<'a, R>(pub(crate) &'a R);

impl<R: Files + AllocGlobal> System for HostSystem<'_, R> {
    type File = R::File;

    ghost calls = { λ _. None };

    fn metadata(&mut self, path: &str) -> io::Result<Metadata> {
        fs::metadata(self.0, path)
    }

    fn symlink_metadata(&mut self, path: &str) -> io::Result<Metadata> {
        fs::symlink_metadata(self.0, path)
    }

    fn read_link(&mut self, path: &str) -> io::Result<PathBuf> {
        fs::read_link(self.0, path)
    }

    fn open(&mut self, path: &str) -> io::Result<R::File> {
        fs::open(self.0, path)
    }

    fn create(&mut self, path: &str) -> io::Result<R::File> {
        fs::create(self.0, path)
    }

    fn write(&mut self, path: &str, content: Content<'_>) -> io::Result<()> {
        match content {
            Content::Bytes(bytes) => fs::write(self.0, path, bytes),
            Content::Tokens(tokens) => write_lines(fs::create(self.0, path)?, tokens),
        }
    }

    fn set_permissions(&mut self, path: &str, permissions: Permissions) -> io::Result<()> {
        fs::set_permissions(self.0, path, permissions)
    }

    fn rename(&mut self, from: &str, to: &str) -> io::Result<()> {
        fs::rename(self.0, from, to)
    }

    fn remove_file(&mut self, path: &str) -> io::Result<()> {
        fs::remove_file(self.0, path)
    }
}

/// Writes the text of tokens to a file.
fn write_lines<W: Write + Drop>(file: W, tokens: &[i32]) -> io::Result<()> {
    match write_tokens(&mut ToWriter::new(file), tokens) {
        Ok(()) => Ok(()),
        Err(_) => Err(io::Error::from(ErrorKind::Other)),
    }
}
