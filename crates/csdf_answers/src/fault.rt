//! Why a command gave no answer.

ghost use Rattle.std.specs.Prelude.{◌≡◌, ◌++◌, None, codes, IfOk, IfSome};
ghost use Rattle.csdf_answers.specs.Faults.{graph_text, lack_text, reason_text, status_of, stream_text, unread};
ghost use Rattle.csdf_answers.specs.FaultParts.{detail_text};
ghost use Rattle.csdf_graph.specs.FaultPlace.{place_text};
ghost use Rattle.csdf_answers.specs.declared.fault.ToolFault.TheVariants.{Memory};

use csdf_bytes::InputFault;
use csdf_graph::{At, GraphFault};
use std::alloc::{AllocError, AllocFailed, Global};
use std::error::Error;
use std::fmt;
use std::marker::Model;

/// The name of a channel or a file.
#[derive(Debug, Drop)]
pub struct Name(String);

/// It is seen as its bytes.
impl Model for Name {
    ghost use Rattle.std.specs.Prelude.{ℕ, List, string_bytes};

    ghost Value = { List ℕ };

    ghost view = { λ n. string_bytes n.0 };
}

impl Name {
    /// The name in memory of its own.
    pub fn new(alloc: Global, name: &str) -> Result<Name, AllocError>
        ensures { IfOk result (λ n. n ≡ name.now) }
    {
        Ok(Name(String::from_str(alloc, name)?))
    }

    /// The name of a file: a name and what it ends with.
    pub fn with_ending(alloc: Global, name: &str, ending: &str) -> Result<Name, AllocError>
        ensures { IfOk result (λ n. n ≡ name.now ++ ending.now) }
    {
        let mut text = String::from_str(alloc, name)?;
        text.push_str(ending)?;
        Ok(Name(text))
    }

    /// The name.
    pub fn as_str(&self) -> &str
        ensures { result.now ≡ self.now }
    {
        self.0.as_str()
    }
}

impl fmt::Display for Name {
    ghost use Rattle.std.specs.Prelude.{Some};

    ghost output = { λ name. Some name };

    fn fmt<W: fmt::Write>(&self, f: &mut fmt::Formatter<W>) -> fmt::Result {
        let name = self.0.as_str();
        write!(f, "{name}")
    }
}

/// The name of what the program reads from or writes to.
#[derive(Debug, Drop)]
pub enum DeviceName {
    Input,
    Output,
    /// The file of this name, as the command line gave it.
    File(Name),
}

impl DeviceName {
    /// Its text.
    fn as_str(&self) -> &str
        ensures { result.now ≡ stream_text self.now }
    {
        match self {
            DeviceName::Input => "standard input",
            DeviceName::Output => "standard output",
            DeviceName::File(file) => file.as_str(),
        }
    }
}

impl fmt::Display for DeviceName {
    ghost use Rattle.std.specs.Prelude.{Some};
    ghost use Rattle.csdf_answers.specs.Faults.{stream_text};

    ghost output = { λ stream. Some (stream_text stream) };

    fn fmt<W: fmt::Write>(&self, f: &mut fmt::Formatter<W>) -> fmt::Result {
        let text = self.as_str();
        write!(f, "{text}")
    }
}

/// What the line of a fault of a graph file begins with, and the place that it ends with, where it
/// has one.
fn graph_parts(fault: GraphFault) -> (&'static str, Option<At>)
    ensures placed { IfSome result.1 (λ at. graph_text fault ≡ result.0.now ++ place_text at) }
    ensures alone { result.1 ≡ None → graph_text fault ≡ result.0.now }
{
    match fault {
        GraphFault::NotToml => ("not TOML", None),
        GraphFault::Shape(at) => ("shape at ", Some(at)),
        GraphFault::Name(at) => ("name at ", Some(at)),
        GraphFault::Range(at) => ("range at ", Some(at)),
        GraphFault::UnknownActor(channel) => ("unknown actor at ", Some(At::Channel(channel))),
        GraphFault::PhaseLength(channel) => ("phase length at ", Some(At::Channel(channel))),
        GraphFault::ZeroRate(channel) => ("zero rate at ", Some(At::Channel(channel))),
        GraphFault::KernelPorts(actor) => ("kernel ports at ", Some(At::Actor(actor))),
        GraphFault::NotConnected => ("not connected", None),
        GraphFault::Memory => ("out of memory", None),
    }
}

/// A fault of a graph file, in the words of the line that tells it.
#[derive(Clone, Copy)]
struct InWords(GraphFault);

impl fmt::Display for InWords {
    ghost use Rattle.std.specs.Prelude.{Some};
    ghost use Rattle.csdf_answers.specs.Faults.{graph_text};

    ghost output = { λ words. Some (graph_text words.0) };

    fn fmt<W: fmt::Write>(&self, f: &mut fmt::Formatter<W>) -> fmt::Result {
        let (words, place) = graph_parts(self.0);
        match place {
            Some(at) => write!(f, "{words}{at}"),
            None => write!(f, "{words}"),
        }
    }
}

/// What a fault of a line or a sample of a token file ends with.
#[derive(Clone, Copy)]
enum LineEnd {
    Syntax(u64),
    Range(u64),
    CutOff(u64),
}

impl fmt::Display for LineEnd {
    ghost use Rattle.std.specs.Prelude.{Some};
    ghost use Rattle.csdf_answers.specs.Faults.{end_text};

    ghost output = { λ end. Some (end_text end) };

    fn fmt<W: fmt::Write>(&self, f: &mut fmt::Formatter<W>) -> fmt::Result {
        match self {
            LineEnd::Syntax(line) => write!(f, ": syntax at line {line}"),
            LineEnd::Range(line) => write!(f, ": range at line {line}"),
            LineEnd::CutOff(sample) => write!(f, ": cut off at sample {sample}"),
        }
    }
}

/// What the words that ask for a stream lack, though the graph needs it.
#[derive(Clone, Copy, Debug, PartialEq, Eq)]
pub enum Lack {
    /// A folder of the files of its several sources.
    SourcesFolder,
    /// A folder of the files of its several sinks.
    SinksFolder,
    /// How many periods there are: no source of it runs dry.
    Periods,
    /// A file of the graph, since standard input has the tokens of its source.
    GraphFile,
}

impl Lack {
    /// Its text.
    fn as_str(self) -> &'static str
        ensures { result.now ≡ lack_text self }
    {
        match self {
            Lack::SourcesFolder => "DIR is needed: the graph has several sources",
            Lack::SinksFolder => "DIR is needed: the graph has several sinks",
            Lack::Periods => "--periods is needed: the graph has no source",
            Lack::GraphFile => "a graph file is needed: standard input has the tokens",
        }
    }
}

/// Why a command gave no answer. Its text is the line that the program prints.
#[derive(Debug, Drop)]
pub enum ToolFault {
    /// The graph file has this fault.
    Graph(GraphFault),
    /// This line of the script, counted from 0, asks for nothing that there is.
    Line(usize),
    /// The first channel that no repetition vector balances together with those before it.
    Unbalanced(Name),
    /// The first channel whose full capacity is too large.
    TooLarge(Name),
    /// No capacities complete a period of the graph.
    Deadlock,
    /// No capacities that agree with the given ones complete a period of the graph.
    TooTight,
    /// The input has more than 16,777,216 bytes.
    TooLong,
    /// This line of the source's tokens, counted from 1, is no number.
    TokenSyntax(Name, u64),
    /// The number in this line of the source's tokens is no token.
    TokenRange(Name, u64),
    /// The source's tokens end within this sample, counted from 1.
    TokenCutOff(Name, u64),
    /// The source's token file has more than 1,000,000 tokens or 16,777,216 bytes.
    TooManyTokens(Name),
    /// The file of this name, which a run is to write, is another of its files too.
    InUse(Name),
    /// The words that ask for a stream lack this.
    Lacks(Lack),
    /// A worker could not be started.
    Worker,
    /// A stream failed.
    Device(DeviceName),
    /// Memory ran out, which says nothing of the input.
    Memory,
}

/// What a reason ends with.
#[derive(Clone, Copy)]
enum Detail {
    /// These words.
    Words(&'static str),
    Graph(InWords),
    Number(usize),
    End(LineEnd),
}

impl fmt::Display for Detail {
    ghost use Rattle.std.specs.Prelude.{Some};
    ghost use Rattle.csdf_answers.specs.FaultParts.{detail_text};

    ghost output = { λ detail. Some (detail_text detail) };

    fn fmt<W: fmt::Write>(&self, f: &mut fmt::Formatter<W>) -> fmt::Result {
        match self {
            Detail::Words(words) => write!(f, "{words}"),
            Detail::Graph(words) => write!(f, "{words}"),
            Detail::Number(number) => write!(f, "{number}"),
            Detail::End(end) => write!(f, "{end}"),
        }
    }
}

/// A reason in parts: what it begins with, a name or the empty text, and what it ends with.
#[derive(Clone, Copy)]
struct Parts<'a> {
    words: &'static str,
    name: &'a str,
    detail: Detail,
}

/// Parts that end with the name, if not before it.
fn named<'a>(words: &'static str, name: &'a str) -> Parts<'a>
    ensures { result.words.now ++ (result.name.now ++ detail_text result.detail) ≡ words.entry.now ++ name.entry.now }
{
    Parts {
        words,
        name,
        detail: Detail::Words(""),
    }
}

/// Parts with no name.
fn nameless<'a>(words: &'static str, detail: Detail) -> Parts<'a>
    ensures { result.words.now ++ (result.name.now ++ detail_text result.detail) ≡ words.entry.now ++ detail_text detail }
{
    Parts {
        words,
        name: "",
        detail,
    }
}

/// Parts of the reason of a fault in a token file.
fn of_tokens<'a>(name: &'a Name, detail: Detail) -> Parts<'a>
    ensures { result.words.now ++ (result.name.now ++ detail_text result.detail) ≡ codes "tokens " ++ (name.entry.now ++ detail_text detail) }
{
    Parts {
        words: "tokens ",
        name: name.as_str(),
        detail,
    }
}

/// The parts of the reason of a fault.
fn parts_of<'a>(fault: &'a ToolFault) -> Parts<'a>
    ensures { result.words.now ++ (result.name.now ++ detail_text result.detail) ≡ reason_text fault.entry.now }
{
    match fault {
        ToolFault::Graph(fault) => nameless("graph: ", Detail::Graph(InWords(*fault))),
        ToolFault::Line(number) => nameless("script: line ", Detail::Number(*number)),
        ToolFault::Unbalanced(name) => named("graph: unbalanced at channel ", name.as_str()),
        ToolFault::TooLarge(name) => named("graph: too large at channel ", name.as_str()),
        ToolFault::Deadlock => named("graph: deadlock", ""),
        ToolFault::TooTight => named("graph: too tight", ""),
        ToolFault::TooLong => named("input too long", ""),
        ToolFault::TokenSyntax(name, line) => of_tokens(name, Detail::End(LineEnd::Syntax(*line))),
        ToolFault::TokenRange(name, line) => of_tokens(name, Detail::End(LineEnd::Range(*line))),
        ToolFault::TokenCutOff(name, sample) => {
            of_tokens(name, Detail::End(LineEnd::CutOff(*sample)))
        }
        ToolFault::TooManyTokens(name) => of_tokens(name, Detail::Words(": too many")),
        ToolFault::InUse(name) => named("file in use: ", name.as_str()),
        ToolFault::Lacks(lack) => named("stream: ", lack.as_str()),
        ToolFault::Worker => named("run: worker", ""),
        ToolFault::Device(stream) => named("device: ", stream.as_str()),
        ToolFault::Memory => named("memory", ""),
    }
}

/// The reason of a fault: its line without the name of the program.
#[derive(Drop)]
pub(crate) struct Reason<'a>(pub(crate) &'a ToolFault);

impl fmt::Display for Reason<'_> {
    ghost use Rattle.std.specs.Prelude.{Some};
    ghost use Rattle.csdf_answers.specs.Faults.{reason_text};

    ghost output = { λ reason. Some (reason_text reason.0.now) };

    fn fmt<W: fmt::Write>(&self, f: &mut fmt::Formatter<W>) -> fmt::Result {
        let parts = parts_of(self.0);
        let words = parts.words;
        let name = parts.name;
        let detail = parts.detail;
        write!(f, "{words}{name}{detail}")
    }
}

impl fmt::Display for ToolFault {
    ghost use Rattle.std.specs.Prelude.{Some};
    ghost use Rattle.csdf_answers.specs.Faults.{fault_text};

    ghost output = { λ fault. Some (fault_text fault) };

    fn fmt<W: fmt::Write>(&self, f: &mut fmt::Formatter<W>) -> fmt::Result {
        let reason = Reason(self);
        write!(f, "csdf: {reason}")
    }
}

impl ToolFault {
    /// The exit status: 1 where an input was refused, 2 where the files or the words of the command line are,
    /// 3 where a device, memory or a run failed.
    pub fn status(&self) -> u8
        ensures { result ≡ status_of self.now }
    {
        match self {
            ToolFault::Graph(_)
            | ToolFault::Line(_)
            | ToolFault::Unbalanced(_)
            | ToolFault::TooLarge(_)
            | ToolFault::Deadlock
            | ToolFault::TooTight
            | ToolFault::TooLong
            | ToolFault::TokenSyntax(_, _)
            | ToolFault::TokenRange(_, _)
            | ToolFault::TokenCutOff(_, _)
            | ToolFault::TooManyTokens(_) => 1,
            ToolFault::InUse(_) | ToolFault::Lacks(_) => 2,
            ToolFault::Worker | ToolFault::Device(_) | ToolFault::Memory => 3,
        }
    }
}

impl Error for ToolFault {}

impl From<AllocError> for ToolFault {
    ghost from_gives = { λ _ e. e ≡ Memory };

    fn from(_e: AllocError) -> ToolFault {
        ToolFault::Memory
    }
}

impl<T: Drop> From<AllocFailed<T>> for ToolFault {
    ghost from_gives = { λ _ e. e ≡ Memory };

    fn from(_e: AllocFailed<T>) -> ToolFault {
        ToolFault::Memory
    }
}

impl From<GraphFault> for ToolFault {
    ghost use Rattle.std.specs.Prelude.{◌≡◌};
    ghost use Rattle.csdf_answers.specs.Faults.{fault_of};

    ghost from_gives = { λ fault e. e ≡ fault_of fault };

    fn from(fault: GraphFault) -> ToolFault {
        match fault {
            GraphFault::Memory => ToolFault::Memory,
            _ => ToolFault::Graph(fault),
        }
    }
}

/// Why a stream was not read, as the program tells it.
pub fn unread(stream: DeviceName, fault: InputFault) -> ToolFault
    ensures { result ≡ unread stream fault }
{
    match fault {
        InputFault::Read => ToolFault::Device(stream),
        InputFault::TooLong => ToolFault::TooLong,
        InputFault::Memory => ToolFault::Memory,
    }
}
