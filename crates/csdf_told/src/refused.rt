//! Words that the parser takes and that ask for nothing.

ghost use Rattle.std.specs.Prelude.{◌≡◌, ◌⊎◌, ◌++◌, true, codes, OnErr, OnOk};
ghost use Rattle.std.specs.Io.KnownBytes.{Appends};
ghost use Rattle.csdf_told.specs.Refused.{lengths_refusal, out_refusal, room_refusal, workers_refusal};

use csdf_bytes::{Outlet, WriteFault, write_bytes};

/// Writes a text between two others.
fn write_between<E: Outlet>(
    front: &str,
    text: &str,
    back: &str,
    err: &mut E,
) -> Result<(), WriteFault>
    ensures written { OnOk result (Appends (E.written err.old) (E.written err.new) (front.now ++ (text.now ++ back.now))) }
    ensures failed { OnErr result (E.failed err.new ≡ true) }
{
    write_bytes(err, front.as_bytes())?;
    write_bytes(err, text.as_bytes())?;
    write_bytes(err, back.as_bytes())
}

/// Tells a text between two others. Where the device fails, that is all that comes of it.
fn tell_between<E: Outlet>(front: &str, text: &str, back: &str, err: &mut E)
    ensures { Appends (E.written err.old) (E.written err.new) (front.now ++ (text.now ++ back.now)) ⊎ (E.failed err.new ≡ true) }
{
    let _ = write_between(front, text, back, err);
}

/// What is told behind a text that names no room.
const NO_ROOM: &str =
    "' for '--room <M>': it is neither 'auto' nor in 1..=65535\n\nFor more information, try '--help'.\n";

/// What is told behind a text that names no workers.
const NO_WORKERS: &str =
    "' for '--workers <N>': it is neither 'auto' nor in 1..=8\n\nFor more information, try '--help'.\n";

/// Tells that a text is no value, with this behind it, and answers the exit status of refused words.
fn refuse_value<E: Outlet>(text: &str, why: &str, err: &mut E) -> u8
    ensures status { result ≡ 2 }
    ensures told { Appends (E.written err.old) (E.written err.new) (codes "error: invalid value '" ++ (text.now ++ why.now)) ⊎ (E.failed err.new ≡ true) }
{
    tell_between("error: invalid value '", text, why, err);
    2
}

/// Tells that a text names no room, and answers the exit status of refused words.
pub fn refuse_room<E: Outlet>(text: &str, err: &mut E) -> u8
    ensures status { result ≡ 2 }
    ensures told { Appends (E.written err.old) (E.written err.new) (room_refusal text.now) ⊎ (E.failed err.new ≡ true) }
{
    refuse_value(text, NO_ROOM, err)
}

/// Tells that a text names no workers, and answers the exit status of refused words.
pub fn refuse_workers<E: Outlet>(text: &str, err: &mut E) -> u8
    ensures status { result ≡ 2 }
    ensures told { Appends (E.written err.old) (E.written err.new) (workers_refusal text.now) ⊎ (E.failed err.new ≡ true) }
{
    refuse_value(text, NO_WORKERS, err)
}

/// Tells that a run has two lengths, and answers the exit status of refused words.
pub fn refuse_lengths<E: Outlet>(err: &mut E) -> u8
    ensures status { result ≡ 2 }
    ensures told { Appends (E.written err.old) (E.written err.new) lengths_refusal ⊎ (E.failed err.new ≡ true) }
{
    tell_between(
        "",
        "error: '--until-dry' and '--periods <K>' exclude each other\n\nFor more information, try '--help'.\n",
        "",
        err,
    );
    2
}

/// Tells that a stream has a folder for its sinks and none for its sources, and answers the exit status of
/// refused words.
pub fn refuse_out<E: Outlet>(err: &mut E) -> u8
    ensures status { result ≡ 2 }
    ensures told { Appends (E.written err.old) (E.written err.new) out_refusal ⊎ (E.failed err.new ≡ true) }
{
    tell_between(
        "",
        "error: '--out <FOLDER>' needs DIR\n\nFor more information, try '--help'.\n",
        "",
        err,
    );
    2
}
