//! The commands and what each takes, as rows of a table.

use crate::help::HelpEnding;
use csdf_model::{MAX_FIRINGS, MAX_PERIODS};

/// What is given for an argument.
#[derive(Clone, Copy)]
pub(crate) enum Given<'a> {
    /// A word in the argument's place.
    Place,
    /// A word in the argument's place, which may be left out.
    LastPlace,
    /// The option alone.
    Nothing,
    /// A text after the option.
    Text(&'a str),
    /// A number in a range after the option.
    Number(&'a str, (u32, u32)),
    /// One of these names after the option.
    Name(&'a str, &'a [&'a str]),
}

/// An argument of a command.
#[derive(Clone, Copy)]
pub(crate) struct ArgumentRow<'a> {
    pub(crate) name: &'a str,
    pub(crate) given: Given<'a>,
    pub(crate) help: &'a str,
}

/// A command of the program.
#[derive(Clone, Copy)]
pub(crate) struct CommandRow<'a> {
    pub(crate) name: &'a str,
    pub(crate) about: &'a str,
    /// What its help ends with.
    pub(crate) ending: HelpEnding,
    pub(crate) arguments: &'a [ArgumentRow<'a>],
}

pub(crate) const GRAPH: &str = "GRAPH";

pub(crate) const FOLDER: &str = "DIR";

pub(crate) const WORKERS: &str = "workers";

pub(crate) const PERIODS: &str = "periods";

pub(crate) const UNTIL_DRY: &str = "until-dry";

pub(crate) const FIRINGS: &str = "firings";

pub(crate) const SEGMENT: &str = "segment";

pub(crate) const FORMAT: &str = "format";

pub(crate) const OUT: &str = "out";

pub(crate) const JOURNAL: &str = "journal";

pub(crate) const PROGRESS: &str = "progress";

pub(crate) const ROOM: &str = "room";

pub(crate) const JSON: &str = "json";

/// The names of the formats of tokens.
pub(crate) const FORMATS: &[&str] = &["text", "u8", "s8", "s16le", "s16be", "s32le", "s32be"];

const GRAPH_ROW: ArgumentRow<'static> = ArgumentRow {
    name: GRAPH,
    given: Given::Place,
    help: "The graph file; - is standard input",
};

const WORKERS_ROW: ArgumentRow<'static> = ArgumentRow {
    name: WORKERS,
    given: Given::Text("N"),
    help: "How many workers fire: 1 to 8, or auto; 1 where absent",
};

const PROGRESS_ROW: ArgumentRow<'static> = ArgumentRow {
    name: PROGRESS,
    given: Given::Nothing,
    help: "Tell on standard error how many firings were made",
};

const ROOM_ROW: ArgumentRow<'static> = ArgumentRow {
    name: ROOM,
    given: Given::Text("M"),
    help: "Room for so many periods: 1 to 65535, or auto; least capacities where absent",
};

const JSON_ROW: ArgumentRow<'static> = ArgumentRow {
    name: JSON,
    given: Given::Nothing,
    help: "Print a JSON object on one line, for a fault too",
};

/// What `run` takes.
const OF_A_RUN: &[ArgumentRow<'static>] = &[
    GRAPH_ROW,
    ArgumentRow {
        name: FOLDER,
        given: Given::Place,
        help: "The folder of the token files",
    },
    WORKERS_ROW,
    ArgumentRow {
        name: PERIODS,
        given: Given::Number("K", (1, MAX_PERIODS)),
        help: "How many periods to run: 1 to 1000, 1 where absent",
    },
    ArgumentRow {
        name: UNTIL_DRY,
        given: Given::Nothing,
        help: "Run until a source has run dry, in place of a number of periods",
    },
    ArgumentRow {
        name: FIRINGS,
        given: Given::Number("F", (0, MAX_FIRINGS)),
        help: "The most firings of all actors: 0 to 1048576000, no limit where absent",
    },
    ArgumentRow {
        name: OUT,
        given: Given::Text("FOLDER"),
        help: "The folder that the sinks' files are written to: DIR where absent",
    },
    ArgumentRow {
        name: JOURNAL,
        given: Given::Text("FILE"),
        help: "A file for the moves of the run, as the script of a graph file",
    },
    PROGRESS_ROW,
    ROOM_ROW,
    JSON_ROW,
];

/// What `stream` takes.
const OF_A_STREAM: &[ArgumentRow<'static>] = &[
    GRAPH_ROW,
    ArgumentRow {
        name: FOLDER,
        given: Given::LastPlace,
        help: "The folder of the files; standard input and output where absent",
    },
    WORKERS_ROW,
    ArgumentRow {
        name: ROOM,
        given: Given::Text("M"),
        help: "Room for so many periods: 1 to 65535, or auto; auto where absent",
    },
    ArgumentRow {
        name: SEGMENT,
        given: Given::Number("P", (1, u32::MAX)),
        help: "How many periods a segment has: 1 to 4294967295, by the graph where absent",
    },
    ArgumentRow {
        name: PERIODS,
        given: Given::Number("K", (1, u32::MAX)),
        help: "How many periods to run: 1 to 4294967295, until a source is dry where absent",
    },
    ArgumentRow {
        name: OUT,
        given: Given::Text("FOLDER"),
        help: "The folder that the sinks' files are written to: DIR where absent",
    },
    ArgumentRow {
        name: FORMAT,
        given: Given::Name("F", FORMATS),
        help: "How tokens lie in bytes, text where absent",
    },
    PROGRESS_ROW,
    JSON_ROW,
];

/// What `explain` takes.
const OF_AN_EXPLANATION: &[ArgumentRow<'static>] = &[
    GRAPH_ROW,
    ArgumentRow {
        name: FOLDER,
        given: Given::LastPlace,
        help: "The folder of the token files, to look at them too",
    },
];

/// The program's commands.
pub(crate) const COMMANDS: &[CommandRow<'static>] = &[
    CommandRow {
        name: "run",
        about: "Run a graph on token files",
        ending: HelpEnding::Run,
        arguments: OF_A_RUN,
    },
    CommandRow {
        name: "stream",
        about: "Run a graph on a stream of tokens of any length",
        ending: HelpEnding::Stream,
        arguments: OF_A_STREAM,
    },
    CommandRow {
        name: "moves",
        about: "Play the script of a graph file",
        ending: HelpEnding::Moves,
        arguments: &[GRAPH_ROW],
    },
    CommandRow {
        name: "check",
        about: "Tell whether a graph is consistent",
        ending: HelpEnding::Check,
        arguments: &[GRAPH_ROW, JSON_ROW],
    },
    CommandRow {
        name: "repetition",
        about: "Print each actor's cycles and firings in a period",
        ending: HelpEnding::Repetition,
        arguments: &[GRAPH_ROW, JSON_ROW],
    },
    CommandRow {
        name: "schedule",
        about: "Print the actor of each firing of a period",
        ending: HelpEnding::Schedule,
        arguments: &[GRAPH_ROW, ROOM_ROW, JSON_ROW],
    },
    CommandRow {
        name: "capacity",
        about: "Print the least channel capacities",
        ending: HelpEnding::Capacity,
        arguments: &[GRAPH_ROW, ROOM_ROW, JSON_ROW],
    },
    CommandRow {
        name: "dot",
        about: "Print the graph for Graphviz, which draws it",
        ending: HelpEnding::Dot,
        arguments: &[GRAPH_ROW, ROOM_ROW],
    },
    CommandRow {
        name: "explain",
        about: "Tell why a graph is refused, or that it is accepted",
        ending: HelpEnding::Explain,
        arguments: OF_AN_EXPLANATION,
    },
];
