//! What is told of a run on the way.

ghost use Rattle.std.specs.Prelude.{◌≡◌, ◌⊎◌, ◌+◌, ℕ, List, Option, true, false, min, OnOk};
ghost use Rattle.std.specs.Io.KnownBytes.{Appends};
ghost use Rattle.csdf_told.specs.Telling.{crew_text, is_due, line, line_text, made_after, most_text};

use csdf_bytes::DeviceFailed;
use std::fmt;

/// After how many firings the line is told again: what half a second makes where they are made one by one.
const STEP: u64 = 2_000_000;

/// How many firings there are at most, where that is known.
#[derive(Clone, Copy)]
struct Most(Option<u64>);

impl fmt::Display for Most {
    ghost use Rattle.std.specs.Prelude.{Some};
    ghost use Rattle.csdf_told.specs.Telling.{most_text};

    ghost output = { λ most. Some (most_text most.0) };

    fn fmt<W: fmt::Write>(&self, f: &mut fmt::Formatter<W>) -> fmt::Result {
        match self.0 {
            Some(most) => write!(f, " of at most {most}"),
            None => Ok(()),
        }
    }
}

/// How many workers were chosen, where as many as pay were asked for.
#[derive(Clone, Copy)]
struct ChosenWorkers(Option<u32>);

impl fmt::Display for ChosenWorkers {
    ghost use Rattle.std.specs.Prelude.{Some};
    ghost use Rattle.csdf_told.specs.Telling.{crew_text};

    ghost output = { λ crew. Some (crew_text crew.0) };

    fn fmt<W: fmt::Write>(&self, f: &mut fmt::Formatter<W>) -> fmt::Result {
        match self.0 {
            Some(count) => write!(f, ", workers: {count}"),
            None => Ok(()),
        }
    }
}

/// What a line tells beside the firings that were made: how many there are at most, where that is known, and
/// how many workers were chosen, where as many as pay were asked for.
#[derive(Clone, Copy)]
pub(crate) struct Extra {
    pub(crate) most: Option<u64>,
    pub(crate) crew: Option<u32>,
}

/// A line that tells how many firings were made, and what stands beside. Each is written over the one before,
/// and the last one ends with a newline.
#[derive(Clone, Copy)]
pub(crate) struct ProgressLine {
    made: u64,
    beside: Extra,
    is_last: bool,
}

impl fmt::Display for ProgressLine {
    ghost use Rattle.std.specs.Prelude.{Some};
    ghost use Rattle.csdf_told.specs.Telling.{line_text};

    ghost output = { λ line. Some (line_text line) };

    fn fmt<W: fmt::Write>(&self, f: &mut fmt::Formatter<W>) -> fmt::Result {
        let made = self.made;
        let most = Most(self.beside.most);
        let crew = ChosenWorkers(self.beside.crew);
        if self.is_last {
            write!(f, "\rcsdf: {made}{most} firings{crew}\n")
        } else {
            write!(f, "\rcsdf: {made}{most} firings{crew}")
        }
    }
}

/// Where lines are told.
pub(crate) trait ProgressOutput {
    /// What was told so far, where that is known.
    ghost told: { Self → Option (List ℕ) };

    /// Tells a line.
    fn tell(&mut self, line: ProgressLine) -> Result<(), DeviceFailed>
        ensures { OnOk result (Appends (told self.old) (told self.new) (line_text line)) };
}

/// Tells that a run begins, where it is asked for.
pub(crate) fn tell_begin<T: ProgressOutput>(
    place: &mut T,
    is_asked: bool,
    beside: Extra,
) -> Result<(), DeviceFailed>
    ensures told { is_asked ≡ true → OnOk result (Appends (T.told place.old) (T.told place.new) (line_text (line 0 beside false))) }
    ensures silent { is_asked ≡ false → place.new ≡ place.old }
{
    if !is_asked {
        return Ok(());
    }
    place.tell(ProgressLine {
        made: 0,
        beside,
        is_last: false,
    })
}

/// Whether the line is due again: more than so many firings were made now than before.
fn is_due(before: u64, made: u64) -> bool
    ensures { result ≡ is_due before made }
{
    before / STEP != made / STEP
}

/// Tells that so many firings more were made than before, where that is asked for and the line is due.
pub(crate) fn tell_made<T: ProgressOutput>(
    place: &mut T,
    is_asked: bool,
    before: u64,
    firings: u32,
    beside: Extra,
) -> Result<(), DeviceFailed>
    ensures told { is_asked ≡ true → is_due before (made_after before firings) ≡ true
        → OnOk result (Appends (T.told place.old) (T.told place.new) (line_text (line (made_after before firings) beside false))) }
    ensures silent { (is_asked ≡ false) ⊎ (is_due before (made_after before firings) ≡ false) → place.new ≡ place.old }
{
    let made = before.saturating_add(u64::from(firings));
    if !is_asked || !is_due(before, made) {
        return Ok(());
    }
    place.tell(ProgressLine {
        made,
        beside,
        is_last: false,
    })
}

/// Tells how many firings a run has made that has ended, where that is asked for.
pub(crate) fn tell_end<T: ProgressOutput>(
    place: &mut T,
    is_asked: bool,
    made: u64,
    beside: Extra,
) -> Result<(), DeviceFailed>
    ensures told { is_asked ≡ true → OnOk result (Appends (T.told place.old) (T.told place.new) (line_text (line made beside true))) }
    ensures silent { is_asked ≡ false → place.new ≡ place.old }
{
    if !is_asked {
        return Ok(());
    }
    place.tell(ProgressLine {
        made,
        beside,
        is_last: true,
    })
}
