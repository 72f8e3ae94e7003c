//! Whether standard input is a terminal.

ghost use Rattle.std.specs.Prelude.{◌≡◌, ℕ, [], ◌∷◌, List, Option};
ghost use Rattle.csdf_disk.specs.SystemCalls.{Called, Link};
ghost use Rattle.csdf_disk.specs.Terminals.{input_link, is_terminal, leads_to_terminal};

use crate::system::System;

/// The link of the system that leads to standard input.
const INPUT: &str = "/proc/self/fd/0";

/// Whether a path is that of a terminal: of a window, a console or a serial line.
fn is_terminal(path: &str) -> bool
    ensures { result ≡ is_terminal path.now }
{
    let bytes = path.as_bytes();
    bytes.starts_with(b"/dev/pts/") || bytes.starts_with(b"/dev/tty") || path == "/dev/console"
}

/// Whether standard input is a terminal, by the path that its link leads to. Where there is no such link,
/// it is taken for none.
pub(crate) fn is_input_terminal<S: System>(system: &mut S) -> bool
    ensures { (link : Option (List ℕ)) × Called (S.calls system.old) (S.calls system.new) (Link input_link link ∷ [])
        × (result ≡ leads_to_terminal link) }
{
    match system.read_link(INPUT) {
        Ok(path) => is_terminal(path.as_str()),
        Err(_) => false,
    }
}
