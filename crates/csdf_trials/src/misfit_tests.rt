//! What is said of each key and limit of a graph file and its script: a table for each kind of fault.

use crate::explained_tests::{PAIR, check_script, expect_explained};
use std::alloc::{AllocError, Global};
use std::process::Abort;
use std::test::*;

/// What stands in the pair, what is put in its place, and the explanation.
type Row = (&'static str, &'static str, &'static str);

/// Asserts what is said of the pair after a change.
fn check_row(rt: &(impl Abort + AllocGlobal), row: &Row) -> Result<(), Fail> {
    let (old, new, told) = *row;
    let text = PAIR.replacen(rt.alloc(), old, new, 1)?;
    expect_explained(rt, text.as_str(), told, new)
}

fn check_rows(rt: &(impl Abort + AllocGlobal), rows: &[Row]) -> Result<(), Fail> {
    for row in rows {
        check_row(rt, row)?;
    }
    Ok(())
}

/// Whole files, and the explanation.
const FILES: [(&str, &str); 9] = [
    (
        "cells = 1",
        "actor: found nothing, wanted an array of tables\n",
    ),
    (
        "actor = 3",
        "actor: found a value of kind integer, wanted an array of tables\n",
    ),
    (
        "actor = [3]",
        "actor: found an entry of kind integer, wanted an array of tables\n",
    ),
    (
        "actor = []\nchannel = {}",
        "channel: found a value of kind table, wanted an array of tables\n",
    ),
    (
        "actor = []\nscript = 1",
        "script: found a value of kind integer, wanted a table\n",
    ),
    (
        "actor = []\n[[script]]",
        "script: found a value of kind array, wanted a table\n",
    ),
    (
        "actor = []\ncells = \"3\"",
        "cells: found a value of kind string, wanted an integer\n",
    ),
    (
        "actor = []\nlimit = 3",
        "limit: found a key that this table has not, wanted actor, channel, script or cells\n",
    ),
    ("actor = []", "actor: found 0 entries, wanted 1 to 64\n"),
];

#[test]
fn explains_keys_of_the_file(rt: HostRuntime) -> Result<(), Fail> {
    for (text, told) in &FILES {
        expect_explained(&rt, *text, *told, *text)?;
    }
    Ok(())
}

const KEYS_OF_ACTORS: [Row; 9] = [
    (
        "name = \"src\", ",
        "",
        "actor 0 is number 1 of 2\nname: found nothing, wanted a string\n",
    ),
    (
        "name = \"snk\"",
        "name = 3",
        "actor 1 is number 2 of 2, after src\nname: found a value of kind integer, wanted a string\n",
    ),
    (
        ", kernel = \"sink\"",
        "",
        "actor 1 is snk\nkernel: found nothing, wanted a string\n",
    ),
    (
        "\"sink\"",
        "true",
        "actor 1 is snk\nkernel: found a value of kind boolean, wanted a string\n",
    ),
    (
        "\"sink\"",
        "\"sink\", weights = [1]",
        "actor 1 is snk\nweights: found a key that this table has not, wanted it only where kernel is \"fir\"\n",
    ),
    (
        "\"sink\"",
        "\"fir\", weights = [1]",
        "actor 1 is snk\nshift: found nothing, wanted it where kernel is \"fir\"\n",
    ),
    (
        "\"sink\"",
        "\"fir\", weights = 1, shift = 1",
        "actor 1 is snk\nweights: found a value of kind integer, wanted an array of integers\n",
    ),
    (
        "\"sink\"",
        "\"fir\", weights = [1, 2.5], shift = 1",
        "actor 1 is snk\nweights: found an entry of kind float, wanted an array of integers\n",
    ),
    (
        "\"sink\"",
        "\"fir\", weights = [1], shift = \"1\"",
        "actor 1 is snk\nshift: found a value of kind string, wanted an integer\n",
    ),
];

const KEYS_OF_CHANNELS: [Row; 9] = [
    (
        "name = \"x\"",
        "",
        "channel 0 is number 1 of 1\nname: found nothing, wanted a string\n",
    ),
    (
        "to = \"snk\"",
        "",
        "channel 0 is x\nto: found nothing, wanted a string\n",
    ),
    (
        "from = \"src\"",
        "from = 0",
        "channel 0 is x\nfrom: found a value of kind integer, wanted a string\n",
    ),
    (
        "produce = [2, 1]",
        "",
        "channel 0 is x\nproduce: found nothing, wanted an array of integers\n",
    ),
    (
        "consume = [3]",
        "consume = 3",
        "channel 0 is x\nconsume: found a value of kind integer, wanted an array of integers\n",
    ),
    (
        "consume = [3]",
        "consume = [3]\ninitial = 1",
        "channel 0 is x\ninitial: found a value of kind integer, wanted an array of integers\n",
    ),
    (
        "consume = [3]",
        "consume = [3]\ncapacity = 9.5",
        "channel 0 is x\ncapacity: found a value of kind float, wanted an integer\n",
    ),
    (
        "consume = [3]",
        "consume = [3]\nrate = 1",
        "channel 0 is x\nrate: found a key that this table has not, wanted name, from, to, produce, consume, initial or capacity\n",
    ),
    (
        "consume = [3]",
        "consume = [3]\ncells = 9",
        "channel 0 is x\ncells: found a key that this table has not, wanted it at the top of the file, above all tables\n",
    ),
];

const NUMBERS: [Row; 13] = [
    (
        "phases = 2",
        "phases = 0",
        "actor 0 is src\nphases: found 0, wanted 1 to 16\n",
    ),
    (
        "\"sink\"",
        "\"fir\", weights = [], shift = 0",
        "actor 1 is snk\nweights: found 0 entries, wanted 1 to 16\n",
    ),
    (
        "\"sink\"",
        "\"fir\", weights = [1, 32768], shift = 0",
        "actor 1 is snk\nweights: found 32768, wanted -32768 to 32767\n",
    ),
    (
        "\"sink\"",
        "\"fir\", weights = [-32769], shift = 0",
        "actor 1 is snk\nweights: found -32769, wanted -32768 to 32767\n",
    ),
    (
        "\"sink\"",
        "\"fir\", weights = [1], shift = 32",
        "actor 1 is snk\nshift: found 32, wanted 0 to 31\n",
    ),
    (
        "[2, 1]",
        "[2, -1]",
        "channel 0 is x\nproduce: found -1, wanted 0 to 64\n",
    ),
    (
        "[3]",
        "[65]",
        "channel 0 is x\nconsume: found 65, wanted 0 to 64\n",
    ),
    (
        "[3]",
        "[3]\ninitial = [2147483648]",
        "channel 0 is x\ninitial: found 2147483648, wanted -2147483648 to 2147483647\n",
    ),
    (
        "[3]",
        "[3]\ninitial = [-2147483649]",
        "channel 0 is x\ninitial: found -2147483649, wanted -2147483648 to 2147483647\n",
    ),
    (
        "[3]",
        "[3]\ncapacity = 0",
        "channel 0 is x\ncapacity: found 0, wanted 1 to 65535\n",
    ),
    (
        "[3]",
        "[3]\ncapacity = 65536",
        "channel 0 is x\ncapacity: found 65536, wanted 1 to 65535\n",
    ),
    (
        "[[channel]]",
        "cells = 8388481\n[[channel]]",
        "cells: found 8388481, wanted 0 to 8388480\n",
    ),
    (
        "[[channel]]",
        "cells = 1\n[[channel]]\ninitial = [5, 6]",
        "cells: found 1, wanted 2 to 8388480\n",
    ),
];

/// A text with so many entries, each with its number: what stands before them, before and behind the
/// number of each, and behind them.
fn with_many(
    alloc: Global,
    front: &str,
    entry: (&str, &str),
    count: u32,
    end: &str,
) -> Result<String, AllocError> {
    let mut text = String::from_str(alloc, front)?;
    for number in 0..count {
        write!(text, "{}{number}{}", entry.0, entry.1)?;
    }
    text.push_str(end)?;
    Ok(text)
}

/// A list that is too long, and the explanation.
struct List {
    front: &'static str,
    entry: (&'static str, &'static str),
    count: u32,
    end: &'static str,
    told: &'static str,
}

const LISTS: [List; 4] = [
    List {
        front: "actor = [",
        entry: ("{ name = \"a", "\", kernel = \"source\" }, "),
        count: 65,
        end: "]",
        told: "actor: found 65 entries, wanted 1 to 64\n",
    },
    List {
        front: "actor = [{ name = \"a\", kernel = \"copy\" }]\nchannel = [",
        entry: (
            "{ name = \"x",
            "\", from = \"a\", to = \"a\", produce = [1], consume = [1] }, ",
        ),
        count: 129,
        end: "]",
        told: "channel: found 129 entries, wanted 0 to 128\n",
    },
    List {
        front: "actor = [{ name = \"a\", kernel = \"fir\", shift = 0, weights = [",
        entry: ("", ", "),
        count: 17,
        end: "] }]",
        told: "actor 0 is a\nweights: found 17 entries, wanted 1 to 16\n",
    },
    List {
        front: "actor = [{ name = \"a\", kernel = \"copy\" }]\n[[channel]]\nname = \"x\"\nfrom = \"a\"\nto = \"a\"\nproduce = [1]\nconsume = [1]\ninitial = [",
        entry: ("", ", "),
        count: 257,
        end: "]",
        told: "channel 0 is x\ninitial: found 257 entries, wanted 0 to 256\n",
    },
];

fn check_list(rt: &(impl Abort + AllocGlobal), list: &List) -> Result<(), Fail> {
    let text = with_many(rt.alloc(), list.front, list.entry, list.count, list.end)?;
    expect_explained(rt, text.as_str(), list.told, list.told)
}

#[test]
fn explains_long_lists(rt: HostRuntime) -> Result<(), Fail> {
    for list in &LISTS {
        check_list(&rt, list)?;
    }
    Ok(())
}

const NAMES: [Row; 5] = [
    (
        "name = \"x\"",
        "name = \"\"",
        "channel 0 is number 1 of 1\nname: found \"\", wanted a letter, then at most 31 letters, digits or underscores\n",
    ),
    (
        "name = \"src\"",
        "name = \"2nd\"",
        "actor 0 is number 1 of 2\nname: found \"2nd\", wanted a letter, then at most 31 letters, digits or underscores\n",
    ),
    (
        "name = \"x\"",
        "name = \"a23456789012345678901234567890123\"",
        "channel 0 is number 1 of 1\nname: found \"a23456789012345678901234567890123\", wanted a letter, then at most 31 letters, digits or underscores\n",
    ),
    (
        "consume = [3]",
        "consume = [3]\n[[channel]]\nname = \"x\"\nfrom = \"src\"\nto = \"snk\"\nproduce = [2, 1]\nconsume = [3]",
        "channel 1 is x\nname: found \"x\", the name of channel 0, wanted a name that no earlier table has\n",
    ),
    (
        "from = \"src\"",
        "from = \"a\"",
        "channel 0 is x\nfrom: found \"a\", wanted the name of an actor\n",
    ),
];

const RATES: [Row; 4] = [
    (
        "[3]",
        "[3, 3]",
        "channel 0 is x\nconsume: found 2 entries, wanted 1, one for each phase of snk\n",
    ),
    (
        "[2, 1]",
        "[]",
        "channel 0 is x\nproduce: found 0 entries, wanted 2, one for each phase of src\n",
    ),
    (
        "phases = 2",
        "phases = 3",
        "channel 0 is x\nproduce: found 2 entries, wanted 3, one for each phase of src\n",
    ),
    (
        "[2, 1]",
        "[0, 0]",
        "channel 0 is x\nproduce: found zeros alone, wanted a rate above 0 in some phase\n",
    ),
];

const KERNELS: [Row; 5] = [
    (
        "\"source\"",
        "\"sink\"",
        "actor 0 is src\nkernel: found 0 inputs and 1 output, wanted at least one input and no output, as a sink has\n",
    ),
    (
        "\"source\"",
        "\"copy\"",
        "actor 0 is src\nkernel: found 0 inputs and 1 output, wanted at least one of each\n",
    ),
    (
        "\"sink\"",
        "\"sum\"",
        "actor 1 is snk\nkernel: found 1 input and 0 outputs, wanted at least one of each\n",
    ),
    (
        "\"sink\"",
        "\"fir\", weights = [1], shift = 0",
        "actor 1 is snk\nkernel: found 1 input and 0 outputs, wanted at least one of each\n",
    ),
    (
        "consume = [3]",
        "consume = [3]\n[[channel]]\nname = \"y\"\nfrom = \"snk\"\nto = \"snk\"\nproduce = [1]\nconsume = [1]",
        "actor 1 is snk\nkernel: found 2 inputs and 1 output, wanted at least one input and no output, as a sink has\n",
    ),
];

const TABLES: [&[Row]; 6] = [
    &KEYS_OF_ACTORS,
    &KEYS_OF_CHANNELS,
    &NUMBERS,
    &NAMES,
    &RATES,
    &KERNELS,
];

#[test]
fn explains_changes_of_the_pair(rt: HostRuntime) -> Result<(), Fail> {
    for rows in &TABLES {
        check_rows(&rt, *rows)?;
    }
    Ok(())
}

/// A script's table, and the explanation.
const SCRIPTS: [(&str, &str); 8] = [
    ("limit = -1", "limit: found -1, wanted 0 to 1000000\n"),
    (
        "supply = 1000001",
        "supply: found 1000001, wanted 0 to 1000000\n",
    ),
    (
        "firings = 1048576001",
        "firings: found 1048576001, wanted 0 to 1048576000\n",
    ),
    (
        "limit = 1.0",
        "limit: found a value of kind float, wanted an integer\n",
    ),
    (
        "firings = true",
        "firings: found a value of kind boolean, wanted an integer\n",
    ),
    (
        "moves = \"begin src\"",
        "moves: found a value of kind string, wanted an array of strings\n",
    ),
    (
        "cells = 3",
        "cells: found a key that this table has not, wanted it at the top of the file, above all tables\n",
    ),
    (
        "channel = []",
        "channel: found a key that this table has not, wanted it at the top of the file, above all tables\n",
    ),
];

#[test]
fn explains_scripts(rt: HostRuntime) -> Result<(), Fail> {
    for (table, told) in &SCRIPTS {
        check_script(&rt, *table, *told)?;
    }
    Ok(())
}

#[test]
fn explains_a_script_that_is_too_long(rt: HostRuntime) -> Result<(), Fail> {
    let table = with_many(rt.alloc(), "moves = [", ("\"", "\", "), 100_001, "]")?;
    let told = "moves: found 100001 entries, wanted 0 to 100000\n";
    check_script(&rt, table.as_str(), told)
}
