//! What is told where a graph file is waited for at a terminal.

ghost use Rattle.std.specs.Prelude.{◌≡◌, ◌≢◌, ◌⊎◌, [], ◌∷◌, Bool, true, MatchBool};
ghost use Rattle.std.specs.Io.KnownBytes.{Appends};
ghost use Rattle.csdf_disk.specs.Acts.{Asks, Terminal};
ghost use Rattle.csdf_told.specs.Waiting.{waiting_line};

use csdf_bytes::{Outlet, write_bytes};
use csdf_disk::Disk;

/// The line that tells so.
const WAITING: &str =
    "csdf: waiting for a graph file on standard input; 'csdf --help' tells the commands\n";

/// Where the command line has no words and standard input is a terminal, tells on `err` that a graph file is
/// waited for, and where help is. Whoever calls the program reads the file next.
///
/// A failure of `err` changes nothing.
pub fn tell_waiting<D: Disk, E: Outlet>(disk: &mut D, words: &[String], err: &mut E)
    ensures told { words.now ≡ [] → (is : Bool) × Asks (D.acts disk.old) (D.acts disk.new) (Terminal is ∷ [])
        × MatchBool is (Appends (E.written err.old) (E.written err.new) waiting_line ⊎ (E.failed err.new ≡ true)) (err.new ≡ err.old) }
    ensures silent { words.now ≢ [] → (disk.new ≡ disk.old) × (err.new ≡ err.old) }
{
    if !words.is_empty() {
        return;
    }
    if disk.is_input_terminal() {
        let _ = write_bytes(err, WAITING.as_bytes());
    }
}
