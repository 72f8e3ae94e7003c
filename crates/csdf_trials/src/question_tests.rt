//! Worked examples of questions.

use crate::shared::{CHAIN, DISAGREEING, STUCK_CYCLE, expect_eq, written_or_line};
use csdf_analysis::Room;
use csdf_answers::{
    DeviceName, Form, Name, Question, ToolFault, describe, describe_as, describe_with_room,
    fault_line, memory_line,
};
use csdf_bytes::ToWriter;
use std::process::Abort;
use std::test::Fail;

/// The answer to a question, or the line of the fault, for which nothing is written.
fn answer_to(
    rt: &(impl Abort + AllocGlobal),
    question: Question,
    graph: &str,
) -> Result<String, Fail> {
    let mut written = Vec::new(rt.alloc());
    let mut writer = ToWriter::new(&mut written);
    let answer = describe(rt.alloc(), question, graph.as_bytes(), &mut writer);
    written_or_line(rt, written, answer)
}

/// Asserts the answer to a question.
fn expect(
    rt: &(impl Abort + AllocGlobal),
    question: Question,
    graph: &str,
    want: &str,
) -> Result<(), Fail> {
    let answer = answer_to(rt, question, graph)?;
    expect_eq(rt, answer.as_str(), want);
    Ok(())
}

const ANSWERS: [(Question, &str, &str); 8] = [
    (Question::Check, CHAIN, "consistent: 3 actors, 2 channels\n"),
    (Question::Repetition, CHAIN, "a 3 3\nb 2 2\nc 1 1\n"),
    (Question::Schedule, CHAIN, "a\na\nb\na\nb\nc\n"),
    (Question::Capacity, CHAIN, "x 4\ny 2\ncells 6\n"),
    (
        Question::Check,
        STUCK_CYCLE,
        "consistent: 2 actors, 2 channels\n",
    ),
    (Question::Capacity, STUCK_CYCLE, "csdf: graph: deadlock"),
    (
        Question::Check,
        DISAGREEING,
        "csdf: graph: unbalanced at channel y",
    ),
    (Question::Schedule, "[[actor", "csdf: graph: not TOML"),
];

#[test]
fn questions_are_answered(rt: HostRuntime) -> Result<(), Fail> {
    for (question, graph, want) in &ANSWERS {
        expect(&rt, *question, *graph, *want)?;
    }
    Ok(())
}

#[test]
fn room_is_told(rt: HostRuntime) -> Result<(), Fail> {
    let mut written = Vec::new(rt.alloc());
    let mut writer = ToWriter::new(&mut written);
    let (question, room) = (Question::Capacity, Room::Periods(2));
    let answer = describe_with_room(rt.alloc(), question, CHAIN.as_bytes(), room, &mut writer);
    let text = written_or_line(&rt, written, answer)?;
    expect_eq(&rt, text.as_str(), "x 12\ny 4\ncells 16\n");
    Ok(())
}

#[test]
fn fewer_cells_are_told(rt: HostRuntime) -> Result<(), Fail> {
    let graph = format!(in rt.alloc(); "cells = 4\n{CHAIN}")?;
    expect(
        &rt,
        Question::Capacity,
        graph.as_str(),
        "x 4\ny 2\ncells 4\n",
    )
}

/// A fault as it is told in a form.
fn told_in(rt: &impl AllocGlobal, form: Form, fault: &ToolFault) -> Result<String, Fail> {
    let line = fault_line(rt.alloc(), form, fault)?;
    Ok(String::from_utf8(line)?)
}

/// Asserts how a fault is told in a form.
fn expect_told(
    rt: &(impl Abort + AllocGlobal),
    form: Form,
    fault: &ToolFault,
    want: &str,
) -> Result<(), Fail> {
    let told = told_in(rt, form, fault)?;
    expect_eq(rt, told.as_str(), want);
    Ok(())
}

/// The answer to a question as JSON, or the object of the fault, for which nothing is written.
fn object_for(
    rt: &(impl Abort + AllocGlobal),
    question: Question,
    graph: &str,
) -> Result<String, Fail> {
    let mut written = Vec::new(rt.alloc());
    let mut writer = ToWriter::new(&mut written);
    let (form, room) = (Form::Json, Room::Least);
    match describe_as(
        rt.alloc(),
        question,
        form,
        graph.as_bytes(),
        room,
        &mut writer,
    ) {
        Ok(()) => Ok(String::from_utf8(written)?),
        Err(fault) => {
            expect_eq(rt, written.len(), 0);
            told_in(rt, form, &fault)
        }
    }
}

const CHECK_OBJECT: &str = r#"{"consistent":true,"actors":3,"channels":2}
"#;

const REPETITION_OBJECT: &str =
    r#"{"repetition":[{"actor":"a","cycles":3,"firings":3},{"actor":"b","cycles":2,"firings":2},{"actor":"c","cycles":1,"firings":1}]}
"#;

const SCHEDULE_OBJECT: &str = r#"{"schedule":["a","a","b","a","b","c"]}
"#;

const CAPACITY_OBJECT: &str =
    r#"{"capacities":[{"channel":"x","capacity":4},{"channel":"y","capacity":2}],"cells":6}
"#;

const DEADLOCK_OBJECT: &str = r#"{"fault":"graph: deadlock","status":1}
"#;

const OBJECTS: [(Question, &str, &str); 6] = [
    (Question::Check, CHAIN, CHECK_OBJECT),
    (Question::Repetition, CHAIN, REPETITION_OBJECT),
    (Question::Schedule, CHAIN, SCHEDULE_OBJECT),
    (Question::Capacity, CHAIN, CAPACITY_OBJECT),
    (Question::Capacity, STUCK_CYCLE, DEADLOCK_OBJECT),
    (Question::Dot, CHAIN, DRAWN_CHAIN),
];

#[test]
fn questions_are_answered_as_json(rt: HostRuntime) -> Result<(), Fail> {
    for (question, graph, want) in &OBJECTS {
        let answer = object_for(&rt, *question, *graph)?;
        expect_eq(&rt, answer.as_str(), *want);
    }
    Ok(())
}

const UNREAD_OBJECT: &str = r#"{"fault":"device: a \"b\\c\"\t\u001fé","status":3}
"#;

#[test]
fn texts_are_escaped(rt: HostRuntime) -> Result<(), Fail> {
    let name = Name::new(rt.alloc(), "a \"b\\c\"\t\u{1f}é")?;
    let fault = ToolFault::Device(DeviceName::File(name));
    expect_told(&rt, Form::Json, &fault, UNREAD_OBJECT)
}

#[test]
fn want_of_memory_is_told_without_memory(rt: HostRuntime) -> Result<(), Fail> {
    for form in [Form::Text, Form::Json] {
        expect_told(&rt, form, &ToolFault::Memory, memory_line(form))?;
    }
    Ok(())
}

/// A row whose first channel begins with three tokens, whose second with as many as are drawn, and
/// whose third with one more; its middle is a filter of two phases, which feeds itself.
const FILLED: &str = r#"actor = [
  { name = "src", kernel = "source" },
  { name = "mean", kernel = "fir", weights = [1, 1], shift = 1, phases = 2 },
  { name = "snk", kernel = "sink" },
]
channel = [
  { name = "x", from = "src", to = "mean", produce = [3], consume = [2, 1], initial = [7, 8, 9] },
  { name = "y", from = "mean", to = "snk", produce = [0, 1], consume = [1], initial = [1, 2, 3, 4, 5, 6, 7, 8] },
  { name = "z", from = "mean", to = "mean", produce = [1, 1], consume = [1, 1], initial = [1, 2, 3, 4, 5, 6, 7, 8, 9] },
]
"#;

const DRAWN_CHAIN: &str = r#"digraph csdf {
  rankdir=LR;
  node [shape=box];
  n0 [label="a\nsource\nphases 1, firings 3"];
  n1 [label="b\ncopy\nphases 1, firings 2"];
  n2 [label="c\nsink\nphases 1, firings 1"];
  n0 -> n1 [label="x\nrates 2 / 3\ncapacity 4\n"];
  n1 -> n2 [label="y\nrates 1 / 2\ncapacity 2\n"];
}
"#;

const DRAWN_FILLED: &str = r#"digraph csdf {
  rankdir=LR;
  node [shape=box];
  n0 [label="src\nsource\nphases 1, firings 1"];
  n1 [label="mean\nfir\nphases 2, firings 2"];
  n2 [label="snk\nsink\nphases 1, firings 1"];
  n0 -> n1 [label="x\nrates 3 / 2 1\ncapacity 3\n•••"];
  n1 -> n2 [label="y\nrates 0 1 / 1\ncapacity 8\n••••••••"];
  n1 -> n1 [label="z\nrates 1 1 / 1 1\ncapacity 9\n9 •"];
}
"#;

#[test]
fn a_graph_is_drawn(rt: HostRuntime) -> Result<(), Fail> {
    expect(&rt, Question::Dot, CHAIN, DRAWN_CHAIN)?;
    expect(&rt, Question::Dot, FILLED, DRAWN_FILLED)?;
    expect(&rt, Question::Dot, STUCK_CYCLE, "csdf: graph: deadlock")
}
