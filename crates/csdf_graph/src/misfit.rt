//! A key whose value does not fit, in words.

use crate::fault::fault_place;
use crate::names::Kind;
use std::fmt;

/// A number of things, with the words for one and for several.
#[derive(Clone, Copy)]
struct Counted(usize, &'static str, &'static str);

impl fmt::Display for Counted {
    fn fmt<W: fmt::Write>(&self, f: &mut fmt::Formatter<W>) -> fmt::Result {
        let words = if self.0 == 1 { self.1 } else { self.2 };
        write!(f, "{} {words}", self.0)
    }
}

/// Writes how many inputs and outputs there are.
fn write_ports<W: fmt::Write>(
    f: &mut fmt::Formatter<W>,
    inputs: usize,
    outputs: usize,
) -> fmt::Result {
    let inputs = Counted(inputs, "input", "inputs");
    let outputs = Counted(outputs, "output", "outputs");
    write!(f, "{inputs} and {outputs}")
}

/// Writes of which kind something is.
fn write_kind<W: fmt::Write>(
    f: &mut fmt::Formatter<W>,
    something: &str,
    kind: &str,
) -> fmt::Result {
    write!(f, "{something} of kind {kind}")
}

/// Writes a name, and which of those with these names has it.
fn write_taken<W: fmt::Write>(
    f: &mut fmt::Formatter<W>,
    name: &str,
    kind: Kind,
    names: &[&str],
) -> fmt::Result {
    let first = names.iter().position(|n| *n == name).unwrap_or(usize::MAX);
    let at = kind.at(fault_place(first));
    write!(f, "{name:?}, the name of {at}")
}

/// What stands at a key.
#[derive(Clone, Copy)]
pub(crate) enum Found<'a> {
    Nothing,
    Unlisted,
    /// A value of this kind.
    Kind(&'static str),
    /// An array with an entry of this kind.
    Entry(&'static str),
    Number(i64),
    Text(&'a str),
    /// A name that stands earlier among these names.
    Taken(&'a str, Kind, &'a [&'a str]),
    /// An array of so many entries.
    Entries(usize),
    Zeros,
    /// So many inputs and outputs.
    Ports(usize, usize),
}

impl fmt::Display for Found<'_> {
    fn fmt<W: fmt::Write>(&self, f: &mut fmt::Formatter<W>) -> fmt::Result {
        match self {
            Found::Nothing => f.write_str("nothing"),
            Found::Unlisted => f.write_str("a key that this table has not"),
            Found::Kind(kind) => write_kind(f, "a value", kind),
            Found::Entry(kind) => write_kind(f, "an entry", kind),
            Found::Number(number) => write!(f, "{number}"),
            Found::Text(text) => write!(f, "{text:?}"),
            Found::Taken(name, kind, names) => write_taken(f, name, *kind, names),
            Found::Entries(count) => Counted(*count, "entry", "entries").fmt(f),
            Found::Zeros => f.write_str("zeros alone"),
            Found::Ports(inputs, outputs) => write_ports(f, *inputs, *outputs),
        }
    }
}

/// What is wanted at a key.
#[derive(Clone, Copy)]
pub(crate) enum Wanted<'a> {
    Words(&'static str),
    /// A number from one to another.
    Number(i64, i64),
    /// So many rates, one for each phase of the actor with this name.
    Rates(usize, &'a str),
}

impl fmt::Display for Wanted<'_> {
    fn fmt<W: fmt::Write>(&self, f: &mut fmt::Formatter<W>) -> fmt::Result {
        match self {
            Wanted::Words(words) => f.write_str(words),
            Wanted::Number(least, most) => write!(f, "{least} to {most}"),
            Wanted::Rates(count, actor) => write!(f, "{count}, one for each phase of {actor}"),
        }
    }
}

/// A key, what stands there, and what is wanted: a line.
#[derive(Clone, Copy)]
pub(crate) struct Misfit<'a> {
    pub(crate) key: &'a str,
    pub(crate) found: Found<'a>,
    pub(crate) wanted: Wanted<'a>,
}

impl<'a> Misfit<'a> {
    /// A key at which this was found, with what is wanted in words.
    pub(crate) fn new(key: &'a str, found: Found<'a>, words: &'static str) -> Misfit<'a> {
        Misfit {
            key,
            found,
            wanted: Wanted::Words(words),
        }
    }

    /// A key with a number outside these limits.
    pub(crate) fn outside(key: &'a str, number: i64, least: i64, most: i64) -> Misfit<'a> {
        Misfit {
            key,
            found: Found::Number(number),
            wanted: Wanted::Number(least, most),
        }
    }

    /// A key with an array whose number of entries is outside these limits.
    pub(crate) fn counted(key: &'a str, count: usize, least: i64, most: i64) -> Misfit<'a> {
        Misfit {
            key,
            found: Found::Entries(count),
            wanted: Wanted::Number(least, most),
        }
    }
}

impl fmt::Display for Misfit<'_> {
    fn fmt<W: fmt::Write>(&self, f: &mut fmt::Formatter<W>) -> fmt::Result {
        let Misfit { key, found, wanted } = self;
        write!(f, "{key}: found {found}, wanted {wanted}\n")
    }
}

/// Two actors that no channels join, the later one before the other.
#[derive(Clone, Copy)]
pub(crate) struct Apart<'a>(pub(crate) &'a str, pub(crate) &'a str);

impl fmt::Display for Apart<'_> {
    fn fmt<W: fmt::Write>(&self, f: &mut fmt::Formatter<W>) -> fmt::Result {
        write!(f, "no channels join {} with {}\n", self.0, self.1)
    }
}

/// Bytes that are no TOML, with what the parser says of them.
#[derive(Clone, Copy)]
pub(crate) struct Unparsed<'a> {
    pub(crate) bytes: &'a [u8],
    pub(crate) error: &'a toml::de::Error,
}

/// The bytes of the line in which this place is.
fn line_at(bytes: &[u8], place: usize) -> &[u8] {
    let (before, after) = bytes.split_at(place.min(bytes.len()));
    let start = match before.iter().rposition(|byte| *byte == b'\n') {
        Some(newline) => newline + 1,
        None => 0,
    };
    let end = match after.iter().position(|byte| *byte == b'\n') {
        Some(newline) => before.len() + newline,
        None => bytes.len(),
    };
    &bytes[start..end]
}

impl fmt::Display for Unparsed<'_> {
    fn fmt<W: fmt::Write>(&self, f: &mut fmt::Formatter<W>) -> fmt::Result {
        write!(f, "{}", self.error)?;
        let place = match self.error.span() {
            Some(span) => span.start,
            None => 0,
        };
        match str::from_utf8(line_at(self.bytes, place)) {
            Ok(line) if !line.is_empty() => write!(f, "{line}\n"),
            _ => Ok(()),
        }
    }
}
