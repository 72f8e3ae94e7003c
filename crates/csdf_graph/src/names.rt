//! Names have the right form, and none is used twice.

ghost use Rattle.std.specs.Prelude.{◌≡◌, map, string_bytes, is_ok};
ghost use Rattle.std.specs.List.{list_all};
ghost use Rattle.csdf_graph.specs.Passes.{Gives};
ghost use Rattle.csdf_model.specs.Names.{is_word_byte, is_name};
ghost use Rattle.csdf_graph.specs.Names.{is_free, at, names_of};

use crate::fault::{At, GraphFault, fault_place};
use crate::misfit::{Found, Misfit};
use crate::notes::Notes;
use csdf_model::MAX_NAME_BYTES;
use indexmap::IndexSet;
use std::alloc::Global;

/// What has a name.
#[derive(Clone, Copy)]
pub(crate) enum Kind {
    Actor,
    Channel,
}

impl Kind {
    pub(crate) fn at(self, number: u32) -> At
        ensures { result ≡ at self number }
    {
        match self {
            Kind::Actor => At::Actor(number),
            Kind::Channel => At::Channel(number),
        }
    }
}

fn is_word_byte(byte: u8) -> bool
    ensures { result ≡ is_word_byte byte }
{
    byte.is_ascii_alphanumeric() || byte == b'_'
}

fn are_word_bytes(bytes: &[u8]) -> bool
    ensures { result ≡ list_all is_word_byte bytes.now }
{
    bytes.iter().all(|byte| is_word_byte(*byte))
}

/// Whether the text has the form of a name: an ASCII letter, then at most 31 letters, digits or
/// underscores.
pub fn is_name(text: &str) -> bool
    ensures { result ≡ is_name text.now }
{
    match text.as_bytes() {
        [first, rest @ ..] => first.is_ascii_alphabetic()
            && rest.len() < MAX_NAME_BYTES
            && are_word_bytes(rest),
        [] => false,
    }
}

/// Checks that the text is a name, and none of those that are taken, which stand earlier among the
/// names.
#[tactic(auto, using(crate::proofs::TreeLemmas::list_any_map))]
fn check_name<'a>(
    kind: Kind,
    names: &'a [&'a str],
    name: &'a str,
    taken: &IndexSet<String>,
) -> Result<(), Misfit<'a>>
    ensures { is_ok result ≡ is_free name.now (map string_bytes taken.now.keys) }
{
    if !is_name(name) {
        let words = "a letter, then at most 31 letters, digits or underscores";
        return Err(Misfit::new("name", Found::Text(name), words));
    }
    if taken.contains(name) {
        let found = Found::Taken(name, kind, names);
        return Err(Misfit::new("name", found, "a name that no earlier table has"));
    }
    Ok(())
}

/// Names that differ, each with its place as its number.
pub(crate) struct Names {
    pub(crate) numbers: IndexSet<String>,
}

impl Drop for Names {
    fn drop(self) {
        let Names { numbers: _ } = self;
    }
}

impl Names {
    pub(crate) fn into_numbers(self) -> IndexSet<String>
        ensures { result ≡ self.numbers }
    {
        let Names { numbers } = self;
        numbers
    }
}

/// The names in order, so that each has its place as its number.
pub(crate) fn numbered(
    alloc: Global,
    kind: Kind,
    names: &[&str],
    notes: &mut Notes,
) -> Result<Names, GraphFault>
    ensures { Gives (λ n. map string_bytes n.numbers.keys) result (names_of kind (map (λ n. n.now) names.now)) }
{
    let mut taken = Names {
        numbers: IndexSet::new(alloc),
    };
    let mut checked = Ok(());
    for (place, name) in names.iter().enumerate() {
        match check_name(kind, names, name, &taken.numbers) {
            Ok(()) => {
                taken.numbers.insert(String::from_str(alloc, name)?)?;
            }
            Err(misfit) => {
                let fault = GraphFault::Name(kind.at(fault_place(place)));
                checked = checked.and(Err(notes.refuse(alloc, fault, &misfit)));
            }
        }
    }
    checked?;
    Ok(taken)
}
