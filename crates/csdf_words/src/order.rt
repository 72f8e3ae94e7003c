//! What the commands ask for that take more than a file.

ghost use Rattle.std.specs.Prelude.{◌≡◌, ◌≤◌, is_some};
ghost use Rattle.csdf_analysis.specs.Room.{HasSomePeriod};
ghost use Rattle.csdf_journal.specs.View.{is_kept};
ghost use Rattle.csdf_words.specs.Rooms.{HasSomePeriod-prop};
ghost use Rattle.csdf_words.specs.HowLong.{MayBeAsked, MayBeAsked-prop};
ghost use Rattle.csdf_words.specs.Workers.{AreFew, AreFew-prop, most_workers};

use crate::workers::Workers;
use csdf_analysis::Room;
use csdf_answers::{Form, Question};
use csdf_run::RunOptions;
use csdf_stream::StreamOptions;

/// A question about the graph of a file.
#[derive(Clone, Copy)]
pub struct Inquiry<'a> {
    pub question: Question,
    /// The form of the answer, and of a fault.
    pub form: Form,
    /// The graph file.
    pub graph: &'a str,
    /// The room of the channels that have no capacity in the file.
    pub room: Room,
    ghost some_room: { HasSomePeriod room } by { HasSomePeriod-prop room },
}

/// The words of `csdf run`: a run of the graph of a file over the token files of a folder, to files of a
/// folder.
#[derive(Clone, Copy)]
pub struct RunWords<'a> {
    /// The graph file.
    pub graph: &'a str,
    /// The folder of the sources' files.
    pub folder: &'a str,
    /// The folder that the sinks' files are written to.
    pub sink_folder: &'a str,
    /// How many workers make it.
    pub workers: Workers,
    /// How the run is made, by as many workers as there may be.
    pub options: RunOptions,
    /// The file that the run's moves are written to, where they are asked for.
    pub journal: Option<&'a str>,
    /// Whether standard error is to tell how far the run has come.
    pub progress: bool,
    /// The form of the report, and of a fault.
    pub form: Form,
    ghost few_workers: { AreFew workers } by { AreFew-prop workers },
    ghost most_workers: { options.workers ≡ most_workers workers },
    ghost may_be_asked: { MayBeAsked options.how_long } by { MayBeAsked-prop options.how_long },
    ghost some_room: { HasSomePeriod options.room } by { HasSomePeriod-prop options.room },
    ghost told: { is_kept options.keeping ≡ is_some journal },
}

/// The folders of a stream's files.
#[derive(Clone, Copy)]
pub struct Folders<'a> {
    /// That of the sources' files.
    pub sources: &'a str,
    /// That of the sinks' files.
    pub sinks: &'a str,
}

/// The words of `csdf stream`: a run of the graph of a file over streams of any length, which are files
/// of folders, or standard input and standard output.
#[derive(Clone, Copy)]
pub struct StreamWords<'a> {
    /// The graph file.
    pub graph: &'a str,
    /// The folders of the files. Where they are absent, the source reads standard input, and the sink
    /// writes standard output.
    pub folders: Option<Folders<'a>>,
    /// The room of the channels that have no capacity in the file.
    pub room: Room,
    /// How many workers make it.
    pub workers: Workers,
    /// How the stream is made, by as many workers as there may be.
    pub options: StreamOptions,
    /// Whether standard error is to tell how far the stream has come.
    pub progress: bool,
    /// The form of the report, and of a fault.
    pub form: Form,
    ghost few_workers: { AreFew workers } by { AreFew-prop workers },
    ghost most_workers: { options.workers ≡ most_workers workers },
    ghost some_room: { HasSomePeriod room } by { HasSomePeriod-prop room },
}
