//! Worked examples of scripts.

use crate::core_tests::LOOP;
use crate::shared::{CHAIN, DISAGREEING, STUCK_CYCLE, expect_eq, line_of, written_or_line};
use csdf_answers::{DeviceName, Lack, Name, ToolFault, play_script};
use csdf_bytes::{Fused, ToWriter};
use csdf_graph::{At, GraphFault};
use std::process::Abort;
use std::test::Fail;

/// A source that makes 2 and 1 tokens in turn, and a sink that takes 3.
const PAIR: &str = r#"[[actor]]
name = "src"
kernel = "source"
phases = 2

[[actor]]
name = "snk"
kernel = "sink"

[[channel]]
name = "x"
from = "src"
to = "snk"
produce = [2, 1]
consume = [3]
capacity = 3
"#;

/// A channel whose full capacity is above 65,535.
const HUGE: &str = r#"actor = [
  { name = "a", kernel = "source", phases = 16 },
  { name = "b", kernel = "sink", phases = 2 },
]
[[channel]]
name = "x"
from = "a"
to = "b"
produce = [64, 64, 64, 64, 64, 64, 64, 64, 64, 64, 64, 64, 64, 64, 64, 64]
consume = [64, 3]
"#;

/// A row whose first channel is given too small a capacity.
const TIGHT: &str = r#"actor = [
  { name = "a", kernel = "source" },
  { name = "b", kernel = "copy" },
  { name = "c", kernel = "sink" },
]
channel = [
  { name = "x", from = "a", to = "b", produce = [2], consume = [3], capacity = 3 },
  { name = "y", from = "b", to = "c", produce = [1], consume = [2] },
]
"#;

/// A file's answer: what is written for it, or the line of its fault, for which nothing is.
fn answer_of(rt: &(impl Abort + AllocGlobal), file: &str) -> Result<String, Fail> {
    let mut written = Vec::new(rt.alloc());
    let mut writer = ToWriter::new(&mut written);
    let answer = play_script(rt.alloc(), file.as_bytes(), &mut writer);
    written_or_line(rt, written, answer)
}

/// The answer to the graph's and the script's file.
fn answer_to(rt: &(impl Abort + AllocGlobal), graph: &str, script: &str) -> Result<String, Fail> {
    let file = format!(in rt.alloc(); "{graph}{script}")?;
    answer_of(rt, file.as_str())
}

/// Asserts what is answered to a file.
fn expect(
    rt: &(impl Abort + AllocGlobal),
    graph: &str,
    script: &str,
    want: &str,
) -> Result<(), Fail> {
    let answer = answer_to(rt, graph, script)?;
    expect_eq(rt, answer.as_str(), want);
    Ok(())
}

const SCRIPTS_OF_THE_PAIR: [(&str, &str); 6] = [
    (
        r#"[script]
moves = [
  "begin src", "read src", "write src 5 6", "finish src",
  "begin src", "read src", "write src 7", "finish src",
  "begin src", "begin snk", "read snk", "begin src",
]
"#,
        "begin src: ok\nread src: ok\nwrite src: ok\nfinish src: ok\n\
             begin src: ok\nread src: ok\nwrite src: ok\nfinish src: ok\n\
             begin src: refused Full x\nbegin snk: ok\nread snk: ok 5 6 7\nbegin src: ok\n",
    ),
    (
        r#"[script]
moves = [
  "begin src", "close x", "read src", "close x", "write src 5 6", "finish src", "close x",
  "begin src", "close x", "close zz",
]
"#,
        "begin src: ok\nclose x: refused Busy\nread src: ok\nclose x: refused Busy\n\
             write src: ok\nfinish src: ok\nclose x: ok\nbegin src: refused Closed x\n\
             close x: refused Closed x\nclose zz: refused Unknown\n",
    ),
    (
        r#"[script]
limit = 1
supply = 2
moves = [
  "begin zzz", "read src", "begin snk", "begin src", "begin src", "write src 5 6", "finish src",
  "read src", "write src 5", "write src 5 6", "finish src", "begin src",
]
"#,
        "begin zzz: refused Unknown\nread src: refused NotBegun\nbegin snk: refused Short x\n\
             begin src: ok\nbegin src: refused Busy\nwrite src: refused NotRead\n\
             finish src: refused NotWritten\nread src: ok\nwrite src: refused WrongCount\n\
             write src: ok\nfinish src: ok\nbegin src: refused Spent\n",
    ),
    (
        r#"[script]
supply = 2
moves = ["begin src", "read src", "write src 5 6", "finish src", "begin src"]
"#,
        "begin src: ok\nread src: ok\nwrite src: ok\nfinish src: ok\nbegin src: refused Dry\n",
    ),
    (
        r#"[script]
firings = 1
moves = ["begin src", "begin snk", "read src", "write src 5 6", "finish src", "begin src"]
"#,
        "begin src: ok\nbegin snk: refused Short x\nread src: ok\nwrite src: ok\n\
             finish src: ok\nbegin src: refused Stopped\n",
    ),
    ("", ""),
];

#[test]
fn a_pair_fires_and_is_refused(rt: HostRuntime) -> Result<(), Fail> {
    for (script, want) in &SCRIPTS_OF_THE_PAIR {
        expect(&rt, PAIR, *script, *want)?;
    }
    Ok(())
}

#[test]
fn cells_are_shown(rt: HostRuntime) -> Result<(), Fail> {
    let script = r#"[script]
moves = [
  "begin a", "read a", "write a 1 2", "finish a",
  "begin a", "read a", "write a 3 4", "finish a",
  "begin b", "read b", "write b 9", "finish b",
  "begin a", "read a", "write a 5 6", "cells",
]
"#;
    let want = "begin a: ok\nread a: ok\nwrite a: ok\nfinish a: ok\n\
                begin a: ok\nread a: ok\nwrite a: ok\nfinish a: ok\n\
                begin b: ok\nread b: ok 1 2 3\nwrite b: ok\nfinish b: ok\n\
                begin a: ok\nread a: ok\nwrite a: ok\n\
                cells x: 3 5 0\ncells y: 4\nfree: 1 2\n";
    expect(&rt, CHAIN, script, want)
}

/// A row with tokens in both channels, and two cells more than they need.
const FILLED: &str = r#"cells = 5
actor = [
  { name = "a", kernel = "source" },
  { name = "b", kernel = "copy" },
  { name = "c", kernel = "sink" },
]
channel = [
  { name = "x", from = "a", to = "b", produce = [1], consume = [2], initial = [5, 6] },
  { name = "y", from = "b", to = "c", produce = [1], consume = [1], initial = [7] },
]
"#;

#[test]
fn initial_tokens_are_in_the_lowest_cells(rt: HostRuntime) -> Result<(), Fail> {
    let script = r#"[script]
moves = [
  "cells", "begin c", "read c", "write c", "finish c", "begin b", "read b", "cells", "write b 11",
  "finish b", "begin a", "read a", "write a 12", "cells",
]
"#;
    let want = "cells x: 0 1\ncells y: 2\nfree: 3 4\n\
                begin c: ok\nread c: ok 7\nwrite c: ok\nfinish c: ok\n\
                begin b: ok\nread b: ok 5 6\ncells x:\ncells y:\nfree: 3 4 2 0 1\n\
                write b: ok\nfinish b: ok\nbegin a: ok\nread a: ok\nwrite a: ok\n\
                cells x: 4\ncells y: 3\nfree: 2 0 1\n";
    expect(&rt, FILLED, script, want)
}

/// Asserts what is answered to a file that begins with its number of cells.
fn expect_with_cells(
    rt: &(impl Abort + AllocGlobal),
    cells: &str,
    graph: &str,
    script: &str,
    want: &str,
) -> Result<(), Fail> {
    let file = format!(in rt.alloc(); "{cells}{graph}")?;
    expect(rt, file.as_str(), script, want)
}

const FEW_CELLS: [(&str, &str, &str, &str); 4] = [
    (
        "cells = 3\n",
        CHAIN,
        r#"[script]
moves = ["begin a", "read a", "write a 1 2", "finish a", "begin a", "cells"]
"#,
        "begin a: ok\nread a: ok\nwrite a: ok\nfinish a: ok\nbegin a: refused NoCells\n\
             cells x: 0 1\ncells y:\nfree: 2\n",
    ),
    (
        "cells = 4\n",
        CHAIN,
        r#"[script]
moves = [
  "begin a", "read a", "write a 1 2", "finish a", "begin a", "read a", "write a 3 4", "finish a",
  "begin b", "read b", "write b 9", "finish b", "begin a", "read a", "write a 5 6", "finish a",
  "begin b", "read b", "write b 8", "finish b", "begin c",
  "begin a", "read a", "write a 7 8", "finish a", "begin a", "read c", "begin a",
]
"#,
        "begin a: ok\nread a: ok\nwrite a: ok\nfinish a: ok\n\
             begin a: ok\nread a: ok\nwrite a: ok\nfinish a: ok\n\
             begin b: ok\nread b: ok 1 2 3\nwrite b: ok\nfinish b: ok\n\
             begin a: ok\nread a: ok\nwrite a: ok\nfinish a: ok\n\
             begin b: ok\nread b: ok 4 5 6\nwrite b: ok\nfinish b: ok\nbegin c: ok\n\
             begin a: ok\nread a: ok\nwrite a: ok\nfinish a: ok\n\
             begin a: refused NoCells\nread c: ok 9 8\nbegin a: ok\n",
    ),
    (
        "cells = 1\n",
        LOOP,
        "[script]\nmoves = [\"begin a\"]\n",
        "begin a: ok\n",
    ),
    (
        "cells = 0\n",
        LOOP,
        "[script]\nmoves = [\"begin a\"]\n",
        "csdf: graph: range at file",
    ),
];

#[test]
fn cells_may_be_fewer_than_the_capacities(rt: HostRuntime) -> Result<(), Fail> {
    for (cells, graph, script, want) in &FEW_CELLS {
        expect_with_cells(&rt, *cells, *graph, *script, *want)?;
    }
    Ok(())
}

const FAULTY: &str =
    "[script]\nmoves = [\"begin src\", \"read src\", \"write src 5 6\", \"begin\"]\n";

const FIRST_FAULTS: [(&str, &str, &str); 11] = [
    (PAIR, FAULTY, "csdf: script: line 3"),
    (
        PAIR,
        "[script]\nmoves = [\"begin src\"\n",
        "csdf: graph: not TOML",
    ),
    (
        PAIR,
        "[script]\nlimit = -1\n",
        "csdf: graph: range at script",
    ),
    (
        PAIR,
        "[script]\nmoves = [1]\n",
        "csdf: graph: shape at script",
    ),
    (DISAGREEING, "", "csdf: graph: unbalanced at channel y"),
    (HUGE, "", "csdf: graph: too large at channel x"),
    (STUCK_CYCLE, "", "csdf: graph: deadlock"),
    (TIGHT, "", "csdf: graph: too tight"),
    (STUCK_CYCLE, FAULTY, "csdf: script: line 3"),
    (
        STUCK_CYCLE,
        "[script]\nlimit = -1\nmoves = [\"begin\"]\n",
        "csdf: graph: range at script",
    ),
    (
        STUCK_CYCLE,
        "[[channel]]\n[script]\nlimit = -1\n",
        "csdf: graph: not TOML",
    ),
];

#[test]
fn the_first_fault_is_told(rt: HostRuntime) -> Result<(), Fail> {
    for (graph, script, want) in &FIRST_FAULTS {
        expect(&rt, *graph, *script, *want)?;
    }
    Ok(())
}

/// Asserts what is answered to one line of the pair's script.
fn expect_line(rt: &(impl Abort + AllocGlobal), line: &str, want: &str) -> Result<(), Fail> {
    let script = format!(in rt.alloc(); "[script]\nmoves = [\"{line}\"]\n")?;
    expect(rt, PAIR, script.as_str(), want)
}

const LINES: [(&str, &str); 17] = [
    ("", "csdf: script: line 0"),
    ("   ", "csdf: script: line 0"),
    ("begin", "csdf: script: line 0"),
    ("begin src snk", "csdf: script: line 0"),
    ("begin 9x", "csdf: script: line 0"),
    ("begin\\tsrc", "csdf: script: line 0"),
    ("begin src\\r", "csdf: script: line 0"),
    ("Begin src", "csdf: script: line 0"),
    ("read src 1", "csdf: script: line 0"),
    ("write src 1x", "csdf: script: line 0"),
    ("write src 2147483648", "csdf: script: line 0"),
    ("cells x", "csdf: script: line 0"),
    ("close x y", "csdf: script: line 0"),
    ("  begin   src ", "begin src: ok\n"),
    ("write zz", "write zz: refused Unknown\n"),
    ("write src +1 -0 007", "write src: refused NotRead\n"),
    ("cells", "cells x:\nfree: 0 1 2\n"),
];

#[test]
fn lines_have_a_grammar(rt: HostRuntime) -> Result<(), Fail> {
    for (line, want) in &LINES {
        expect_line(&rt, *line, *want)?;
    }
    Ok(())
}

/// The fault of a file's script whose answer can't be written.
fn fault_of_writing(rt: &impl AllocGlobal, file: &str) -> Result<ToolFault, Fail> {
    let mut written = Vec::new(rt.alloc());
    let mut writer = Fused::new(ToWriter::new(&mut written), 0);
    match play_script(rt.alloc(), file.as_bytes(), &mut writer) {
        Ok(()) => Err(Fail::from("the writer failed")),
        Err(fault) => Ok(fault),
    }
}

fn line_of_writing(rt: &impl AllocGlobal, file: &str) -> Result<String, Fail> {
    let fault = fault_of_writing(rt, file)?;
    line_of(rt, &fault)
}

#[test]
fn a_failing_writer_is_told(rt: HostRuntime) -> Result<(), Fail> {
    let file = format!(in rt.alloc(); "{PAIR}[script]\nmoves = [\"begin src\"]\n")?;
    let line = line_of_writing(&rt, file.as_str())?;
    expect_eq(&rt, line.as_str(), "csdf: device: standard output");
    Ok(())
}

/// Asserts the line and the exit status of a fault.
fn expect_told(
    rt: &(impl Abort + AllocGlobal),
    fault: &ToolFault,
    line: &str,
    status: u8,
) -> Result<(), Fail> {
    let text = format!(in rt.alloc(); "{fault}")?;
    expect_eq(rt, text.as_str(), line);
    expect_eq(rt, fault.status(), status);
    Ok(())
}

/// Asserts the same of a fault that is then let go: a call of this drops it in one place.
fn expect_told_once(
    rt: &(impl Abort + AllocGlobal),
    fault: ToolFault,
    line: &str,
    status: u8,
) -> Result<(), Fail> {
    expect_told(rt, &fault, line, status)
}

const GRAPH_FAULTS: [(GraphFault, &str); 9] = [
    (GraphFault::NotToml, "csdf: graph: not TOML"),
    (GraphFault::Shape(At::File), "csdf: graph: shape at file"),
    (
        GraphFault::Name(At::Actor(1)),
        "csdf: graph: name at actor 1",
    ),
    (
        GraphFault::Range(At::Script),
        "csdf: graph: range at script",
    ),
    (
        GraphFault::UnknownActor(2),
        "csdf: graph: unknown actor at channel 2",
    ),
    (
        GraphFault::PhaseLength(3),
        "csdf: graph: phase length at channel 3",
    ),
    (
        GraphFault::ZeroRate(4),
        "csdf: graph: zero rate at channel 4",
    ),
    (
        GraphFault::KernelPorts(5),
        "csdf: graph: kernel ports at actor 5",
    ),
    (GraphFault::NotConnected, "csdf: graph: not connected"),
];

#[test]
fn faults_of_graphs_have_a_line(rt: HostRuntime) -> Result<(), Fail> {
    for (fault, line) in &GRAPH_FAULTS {
        expect_told_once(&rt, ToolFault::Graph(*fault), *line, 1)?;
    }
    Ok(())
}

/// Faults that name nothing, their lines, and their statuses.
const FAULTS: [(ToolFault, &str, u8); 12] = [
    (ToolFault::Deadlock, "csdf: graph: deadlock", 1),
    (ToolFault::TooTight, "csdf: graph: too tight", 1),
    (ToolFault::Line(99_999), "csdf: script: line 99999", 1),
    (ToolFault::TooLong, "csdf: input too long", 1),
    (ToolFault::Worker, "csdf: run: worker", 3),
    (ToolFault::Memory, "csdf: memory", 3),
    (
        ToolFault::Device(DeviceName::Input),
        "csdf: device: standard input",
        3,
    ),
    (
        ToolFault::Device(DeviceName::Output),
        "csdf: device: standard output",
        3,
    ),
    (
        ToolFault::Lacks(Lack::SourcesFolder),
        "csdf: stream: DIR is needed: the graph has several sources",
        2,
    ),
    (
        ToolFault::Lacks(Lack::SinksFolder),
        "csdf: stream: DIR is needed: the graph has several sinks",
        2,
    ),
    (
        ToolFault::Lacks(Lack::Periods),
        "csdf: stream: --periods is needed: the graph has no source",
        2,
    ),
    (
        ToolFault::Lacks(Lack::GraphFile),
        "csdf: stream: a graph file is needed: standard input has the tokens",
        2,
    ),
];

#[test]
fn faults_have_a_line(rt: HostRuntime) -> Result<(), Fail> {
    for (fault, line, status) in &FAULTS {
        expect_told(&rt, fault, *line, *status)?;
    }
    Ok(())
}

#[test]
fn a_channel_that_is_refused_is_named(rt: HostRuntime) -> Result<(), Fail> {
    let fault = ToolFault::Unbalanced(Name::new(rt.alloc(), "x")?);
    expect_told_once(&rt, fault, "csdf: graph: unbalanced at channel x", 1)
}

#[test]
fn a_channel_that_is_too_large_is_named(rt: HostRuntime) -> Result<(), Fail> {
    let fault = ToolFault::TooLarge(Name::new(rt.alloc(), "y")?);
    expect_told_once(&rt, fault, "csdf: graph: too large at channel y", 1)
}

#[test]
fn a_sample_that_is_cut_off_is_told_by_its_source(rt: HostRuntime) -> Result<(), Fail> {
    let fault = ToolFault::TokenCutOff(Name::new(rt.alloc(), "src")?, 3);
    expect_told_once(&rt, fault, "csdf: tokens src: cut off at sample 3", 1)
}

#[test]
fn a_line_beyond_32_bits_is_told_whole(rt: HostRuntime) -> Result<(), Fail> {
    let fault = ToolFault::TokenSyntax(Name::new(rt.alloc(), "src")?, 4_294_967_297);
    let line = "csdf: tokens src: syntax at line 4294967297";
    expect_told_once(&rt, fault, line, 1)
}

#[test]
fn a_file_that_failed_is_named(rt: HostRuntime) -> Result<(), Fail> {
    let fault = ToolFault::Device(DeviceName::File(Name::new(rt.alloc(), "a.toml")?));
    expect_told_once(&rt, fault, "csdf: device: a.toml", 3)
}
