//! Playing the lines of a script on a core.

ghost use Rattle.std.specs.Prelude.{◌≡◌, ◌≤◌, length, map, string_bytes, IfOk, OnOk};
ghost use Rattle.csdf_model.specs.Graph.{channel_view};
ghost use Rattle.csdf_core.specs.Moves.{move_of};
ghost use Rattle.csdf_answers.specs.Lines.{Play, line_view};
ghost use Rattle.csdf_answers.specs.Printed.{names_of};
ghost use Rattle.csdf_answers.specs.Turns.{Turns, TurnsAll};

use crate::line::Line;
use crate::printed::{push_cells_text, push_reply_line};
use csdf_core::{Core, Move, play_on};
use csdf_model::{Channel, MAX_CHANNELS};
use std::alloc::{AllocError, Global};
use std::slice;

/// Makes one move, and appends its line.
fn turn_move(
    alloc: Global,
    channels: &[Channel],
    core: &mut Core,
    verb: &str,
    name: &str,
    next: &Move,
    text: &mut String,
) -> Result<(), AllocError>
    ensures { OnOk result (Turns (names_of (map channel_view channels.now)) core.old core.new
        (Play verb.now name.now (move_of next.now)) (string_bytes text.old) (string_bytes text.new)) }
{
    let replies = play_on(core, alloc, slice::from_ref(next))?;
    match replies.first() {
        Some(reply) => push_reply_line(text, channels, verb, name, reply),
        None => Ok(()),
    }
}

/// Plays one line, and appends its text.
fn turn(
    alloc: Global,
    channels: &[Channel],
    core: &mut Core,
    line: &Line<'_>,
    text: &mut String,
) -> Result<(), AllocError>
    requires same { length channels.now ≡ length core.old.plan.channels }
    requires few { length channels.now ≤ MAX_CHANNELS }
    ensures { OnOk result (Turns (names_of (map channel_view channels.now)) core.old core.new
        (line_view line.now) (string_bytes text.old) (string_bytes text.new)) }
{
    match line {
        Line::Play(verb, name, next) => turn_move(alloc, channels, core, verb, name, next, text),
        Line::Cells => push_cells_text(text, channels, core),
    }
}

/// Plays the lines, and gives their text.
pub(crate) fn turn_all(
    alloc: Global,
    channels: &[Channel],
    core: &mut Core,
    lines: &[Line<'_>],
) -> Result<String, AllocError>
    requires same { length channels.now ≡ length core.old.plan.channels }
    requires few { length channels.now ≤ MAX_CHANNELS }
    ensures { IfOk result (λ text. TurnsAll (names_of (map channel_view channels.now)) core.old (map line_view lines.now) (string_bytes text)) }
{
    let mut text = String::new(alloc);
    for line in lines {
        turn(alloc, channels, core, line, &mut text)?;
    }
    Ok(text)
}
