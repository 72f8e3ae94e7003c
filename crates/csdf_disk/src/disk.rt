//! Files, as the program asks for them.

ghost use Rattle.std.specs.Prelude.{◌≡◌, ℕ, [], ◌∷◌, List, Option, None, Ok, Err, IfErr, IfOk, is_ok};
ghost use Rattle.csdf_disk.specs.Acts.{Act, Asks, Keep, Leave, Locate, Look, Make, Open, Read, Put, Terminal, found, given, made_as, placed};
ghost use Rattle.csdf_disk.specs.Contents.{AreTokensOf, content_text};

use crate::content::Content;
use crate::locate::place_at;
use crate::look::{bytes_at, source_at, token_file_at, tokens_at};
use crate::making::{MadeFile, keep_at, leave_at, make_at};
use crate::place::FilePlace;
use crate::put_fault::PutFault;
use crate::putting::put_at;
use crate::system::HostSystem;
use crate::terminal::is_input_terminal;
use csdf_answers::{TokenFile, ToolFault};
use csdf_bytes::{DeviceFailed, FromReader, InputFault, Intake, Outlet, TokenFault};
use std::alloc::AllocError;
use std::rt::Files;

/// Files by their paths.
pub trait Disk {
    /// A file that is open to be read.
    type Source: Intake + Drop;

    /// A file that is being written.
    type Sink: Outlet + Drop;

    /// What was asked for so far and what came of it, in order, where that is known.
    ghost acts: { Self → Option (List Act) };

    /// All bytes of a file. One that can't be opened is one that fails.
    fn read(&mut self, path: &str) -> Result<Vec<u8>, InputFault>
        ensures { Asks (acts self.old) (acts self.new) (Read path.now (given result) ∷ []) };

    /// The tokens of a file, or the fault of its first faulty line. One that can't be opened is one that
    /// fails. Of its text no copy is kept.
    fn tokens(&mut self, path: &str) -> Result<Result<Vec<i32>, TokenFault>, InputFault>
        ensures read { IfOk result (λ told. (text : List ℕ) × Asks (acts self.old) (acts self.new) (Read path.now (Ok text) ∷ []) × AreTokensOf text told) }
        ensures unread { IfErr result (λ why. Asks (acts self.old) (acts self.new) (Read path.now (Err why) ∷ [])) };

    /// What is found at the path of a token file: no wait for a pipe. The error says that memory ran out.
    fn look(&mut self, path: &str) -> Result<TokenFile, ToolFault>
        ensures found { Asks (acts self.old) (acts self.new) (Look path.now (found result) ∷ []) }
        ensures memory { IfErr result (λ fault. fault ≡ ToolFault.Memory) };

    /// Which file a path stands for: it is neither read nor written.
    fn locate(&mut self, path: &str) -> Result<FilePlace, AllocError>
        ensures { Asks (acts self.old) (acts self.new) (Locate path.now (placed result) ∷ []) };

    /// Puts a file with this content in its place, in that of a file that is there.
    fn put(&mut self, path: &str, content: Content<'_>) -> Result<(), PutFault>
        ensures { Asks (acts self.old) (acts self.new) (Put path.now (content_text content.entry) result ∷ []) };

    /// Opens a file to be read. Of a pipe it waits for the other end.
    fn open(&mut self, path: &str) -> Result<Self::Source, DeviceFailed>
        ensures { Asks (acts self.old) (acts self.new) (Open path.now (is_ok result) ∷ []) };

    /// Makes a file that is to be written: a plain one beside its place, and what is no plain file itself.
    fn make(&mut self, path: &str) -> Result<Self::Sink, PutFault>
        ensures { Asks (acts self.old) (acts self.new) (Make path.now (made_as result) ∷ []) };

    /// Puts a file that was made for this path in its place.
    fn keep(&mut self, path: &str, sink: &Self::Sink) -> Result<(), PutFault>
        ensures { Asks (acts self.old) (acts self.new) (Keep path.now (Self.Sink.written sink.now) result ∷ []) };

    /// Gives a file up that was made for this path: what stood in its place stands there still, and what
    /// is no plain file has what was written.
    fn leave(&mut self, path: &str, sink: &Self::Sink)
        ensures { Asks (acts self.old) (acts self.new) (Leave path.now ∷ []) };

    /// Whether standard input is a terminal.
    fn is_input_terminal(&mut self) -> bool
        ensures { Asks (acts self.old) (acts self.new) (Terminal result ∷ []) };
}

/// The files of the system. What is asked of them is known to no contract here: what each call comes to is
/// told by the function that it is handed on to, over the calls of the system.
#[derive(Clone, Copy)]
pub struct HostDisk<'a, R> {
    rt: &'a R,
}

impl<'a, R: Files + AllocGlobal> HostDisk<'a, R> {
    /// The files that these handles reach.
    pub fn new(rt: &'a R) -> HostDisk<'a, R> {
        HostDisk { rt }
    }
}

impl<R: Files + AllocGlobal> Disk for HostDisk<'_, R> {
    type Source = FromReader<R::File>;

    type Sink = MadeFile<R::File>;

    ghost acts = { λ _. None };

    fn read(&mut self, path: &str) -> Result<Vec<u8>, InputFault> {
        bytes_at(self.rt.alloc(), &mut HostSystem(self.rt), path)
    }

    fn tokens(&mut self, path: &str) -> Result<Result<Vec<i32>, TokenFault>, InputFault> {
        tokens_at(self.rt.alloc(), &mut HostSystem(self.rt), path)
    }

    fn look(&mut self, path: &str) -> Result<TokenFile, ToolFault> {
        token_file_at(self.rt.alloc(), &mut HostSystem(self.rt), path)
    }

    fn locate(&mut self, path: &str) -> Result<FilePlace, AllocError> {
        place_at(self.rt.alloc(), &mut HostSystem(self.rt), path)
    }

    fn put(&mut self, path: &str, content: Content<'_>) -> Result<(), PutFault> {
        put_at(self.rt.alloc(), &mut HostSystem(self.rt), path, content)
    }

    fn open(&mut self, path: &str) -> Result<FromReader<R::File>, DeviceFailed> {
        source_at(&mut HostSystem(self.rt), path)
    }

    fn make(&mut self, path: &str) -> Result<MadeFile<R::File>, PutFault> {
        make_at(self.rt.alloc(), &mut HostSystem(self.rt), path)
    }

    fn keep(&mut self, path: &str, sink: &MadeFile<R::File>) -> Result<(), PutFault> {
        keep_at(&mut HostSystem(self.rt), path, sink)
    }

    fn leave(&mut self, _path: &str, sink: &MadeFile<R::File>) {
        leave_at(&mut HostSystem(self.rt), sink);
    }

    fn is_input_terminal(&mut self) -> bool {
        is_input_terminal(&mut HostSystem(self.rt))
    }
}
