use crate::shared::{expect_eq, expect_eq_of};
use csdf_graph::{GraphFault, Refusal, read_graph_explained, read_script_explained};
use std::alloc::{AllocError, Global};
use std::process::Abort;
use std::test::*;

pub(crate) const PAIR: &str = r#"actor = [
  { name = "src", kernel = "source", phases = 2 },
  { name = "snk", kernel = "sink" },
]
[[channel]]
name = "x"
from = "src"
to = "snk"
produce = [2, 1]
consume = [3]
"#;

/// A change of the file, and the explanation.
struct Case {
    old: &'static str,
    new: &'static str,
    told: &'static str,
}

const CASES: [Case; 20] = [
    Case {
        old: "to = \"snk\"",
        new: "to \"snk\"",
        told: "TOML parse error at line 8, column 4\nkey with no value, expected `=`\nto \"snk\"\n",
    },
    Case {
        old: "[[channel]]",
        new: "cell = 3\n[[channel]]",
        told: "cell: found a key that this table has not, wanted actor, channel, script or cells\n",
    },
    Case {
        old: "phases = 2",
        new: "phase = 2",
        told: "actor 0 is src\nphase: found a key that this table has not, wanted name, kernel, phases, weights or shift\n",
    },
    Case {
        old: "phases = 2",
        new: "phases = 2.0",
        told: "actor 0 is src\nphases: found a value of kind float, wanted an integer\n",
    },
    Case {
        old: "\"sink\"",
        new: "\"drain\"",
        told: "actor 1 is snk\nkernel: found \"drain\", wanted source, sink, copy, sum or fir\n",
    },
    Case {
        old: "\"sink\"",
        new: "\"fir\", shift = 1",
        told: "actor 1 is snk\nweights: found nothing, wanted it where kernel is \"fir\"\n",
    },
    Case {
        old: "\"sink\"",
        new: "\"sink\", shift = 1",
        told: "actor 1 is snk\nshift: found a key that this table has not, wanted it only where kernel is \"fir\"\n",
    },
    Case {
        old: "from = \"src\"",
        new: "",
        told: "channel 0 is x\nfrom: found nothing, wanted a string\n",
    },
    Case {
        old: "[2, 1]",
        new: "[2, \"1\"]",
        told: "channel 0 is x\nproduce: found an entry of kind string, wanted an array of integers\n",
    },
    Case {
        old: "name = \"snk\"",
        new: "name = \"s-k\"",
        told: "actor 1 is number 2 of 2, after src\nname: found \"s-k\", wanted a letter, then at most 31 letters, digits or underscores\n",
    },
    Case {
        old: "name = \"snk\"",
        new: "name = \"src\"",
        told: "actor 1 is src\nname: found \"src\", the name of actor 0, wanted a name that no earlier table has\n",
    },
    Case {
        old: "phases = 2",
        new: "phases = 17",
        told: "actor 0 is src\nphases: found 17, wanted 1 to 16\n",
    },
    Case {
        old: "[[channel]]",
        new: "[[channel]]\ninitial = [1, 2]\ncapacity = 1",
        told: "channel 0 is x\ncapacity: found 1, wanted 2 to 65535\n",
    },
    Case {
        old: "[2, 1]",
        new: "[2, 65]",
        told: "channel 0 is x\nproduce: found 65, wanted 0 to 64\n",
    },
    Case {
        old: "[[channel]]",
        new: "cells = -1\n[[channel]]",
        told: "cells: found -1, wanted 0 to 8388480\n",
    },
    Case {
        old: "to = \"snk\"",
        new: "to = \"sink\"",
        told: "channel 0 is x\nto: found \"sink\", wanted the name of an actor\n",
    },
    Case {
        old: "[2, 1]",
        new: "[3]",
        told: "channel 0 is x\nproduce: found 1 entry, wanted 2, one for each phase of src\n",
    },
    Case {
        old: "[3]",
        new: "[0]",
        told: "channel 0 is x\nconsume: found zeros alone, wanted a rate above 0 in some phase\n",
    },
    Case {
        old: "\"sink\"",
        new: "\"source\"",
        told: "actor 1 is snk\nkernel: found 1 input and 0 outputs, wanted no input and at least one output, as a source has\n",
    },
    Case {
        old: "{ name = \"snk\", kernel = \"sink\" },",
        new: "{ name = \"snk\", kernel = \"sink\" }, { name = \"a\", kernel = \"copy\" },",
        told: "actor 2 is a\nkernel: found 0 inputs and 0 outputs, wanted at least one of each\n",
    },
];

/// The words of a refusal, and want of memory as an error.
fn words_of(refusal: Refusal) -> Result<String, AllocError> {
    let Refusal { fault, words } = refusal;
    if fault == GraphFault::Memory {
        return Err(AllocError);
    }
    Ok(words)
}

/// What is said of a text that is refused, and nothing of one that is not.
fn explained(alloc: Global, bytes: &[u8]) -> Result<String, AllocError> {
    match read_graph_explained(alloc, bytes) {
        Ok(_) => Ok(String::new(alloc)),
        Err(refusal) => words_of(refusal),
    }
}

/// Asserts what is said of a text that came of an edit.
pub(crate) fn expect_explained(
    rt: &(impl Abort + AllocGlobal),
    text: &str,
    told: &str,
    edit: &str,
) -> Result<(), Fail> {
    let found = explained(rt.alloc(), text.as_bytes())?;
    expect_eq_of(rt, found.as_str(), told, edit);
    Ok(())
}

fn check_case(rt: &(impl Abort + AllocGlobal), case: &Case) -> Result<(), Fail> {
    let text = PAIR.replacen(rt.alloc(), case.old, case.new, 1)?;
    expect_explained(rt, text.as_str(), case.told, case.new)
}

#[test]
fn explains_refused_files(rt: HostRuntime) -> Result<(), Fail> {
    for case in &CASES {
        check_case(&rt, case)?;
    }
    Ok(())
}

/// A script's table, and the explanation.
const SCRIPTS: [(&str, &str); 6] = [
    (
        "move = []",
        "move: found a key that this table has not, wanted limit, supply, firings or moves\n",
    ),
    (
        "name = \"x\"",
        "name: found a key that this table has not, wanted limit, supply, firings or moves\n",
    ),
    (
        "supply = \"2\"",
        "supply: found a value of kind string, wanted an integer\n",
    ),
    (
        "moves = [\"begin src\", 1]",
        "moves: found an entry of kind integer, wanted an array of strings\n",
    ),
    (
        "limit = 1000001",
        "limit: found 1000001, wanted 0 to 1000000\n",
    ),
    (
        "firings = -1",
        "firings: found -1, wanted 0 to 1048576000\n",
    ),
];

/// What is said of a text whose script is refused.
fn explained_script(alloc: Global, text: &str) -> Result<String, Fail> {
    match read_script_explained(alloc, text.as_bytes()) {
        Ok(_) => Err(Fail::from("a script is taken")),
        Err(refusal) => Ok(words_of(refusal)?),
    }
}

/// Asserts what is said of the pair with this table of its script.
pub(crate) fn check_script(
    rt: &(impl Abort + AllocGlobal),
    table: &str,
    wanted: &str,
) -> Result<(), Fail> {
    let text = format!(in rt.alloc(); "{PAIR}[script]\n{table}\n")?;
    let told = explained_script(rt.alloc(), text.as_str())?;
    expect_eq(rt, told.as_str(), wanted);
    Ok(())
}

#[test]
fn explains_refused_scripts(rt: HostRuntime) -> Result<(), Fail> {
    for (table, wanted) in &SCRIPTS {
        check_script(&rt, *table, *wanted)?;
    }
    Ok(())
}

#[test]
fn explains_actors_apart(rt: HostRuntime) -> Result<(), Fail> {
    let text = r#"actor = [
  { name = "a", kernel = "source" },
  { name = "b", kernel = "sink" },
  { name = "c", kernel = "source" },
  { name = "d", kernel = "sink" },
]
channel = [
  { name = "x", from = "a", to = "b", produce = [1], consume = [1] },
  { name = "y", from = "c", to = "d", produce = [1], consume = [1] },
]
"#;
    let told = explained(rt.alloc(), text.as_bytes())?;
    expect_eq(&rt, told.as_str(), "no channels join c with a\n");
    Ok(())
}
