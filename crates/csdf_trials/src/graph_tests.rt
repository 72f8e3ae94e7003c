use crate::shared::expect_eq;
use csdf_graph::{At, GraphFault, Script, read_graph, read_graph_and_script, read_script};
use csdf_model::{Actor, Channel, Graph, Kernel};
use std::process::Abort;
use std::test::Fail;

/// A source that makes 2 and 1 tokens in turn, and a sink that takes 3.
const PAIR: &str = r#"[[actor]]
name = "src"
kernel = "source"
phases = 2

[[actor]]
name = "snk"
kernel = "sink"

[[channel]]
name = "x"
from = "src"
to = "snk"
produce = [2, 1]
consume = [3]
capacity = 3

[script]
moves = [
  "begin src", "read src", "write src 5 6", "finish src",
  "begin src", "read src", "write src 7", "finish src",
  "begin snk", "read snk", "write snk", "finish snk",
]
"#;

const CHANNEL: &str = r#"[[channel]]
name = "x"
from = "src"
to = "snk"
produce = [2, 1]
consume = [3]
capacity = 3
"#;

/// Two sources, each with a sink of its own.
const APART: &str = r#"actor = [
  { name = "a", kernel = "source" },
  { name = "b", kernel = "sink" },
  { name = "c", kernel = "source" },
  { name = "d", kernel = "sink" },
]
channel = [
  { name = "x", from = "a", to = "b", produce = [1], consume = [1] },
  { name = "y", from = "c", to = "d", produce = [1], consume = [1] },
]
"#;

/// An actor that hands its one token to itself.
const LOOP: &str = r#"[[actor]]
name = "a"
kernel = "copy"

[[channel]]
name = "s"
from = "a"
to = "a"
produce = [1]
consume = [1]
initial = [1]
"#;

fn refusal(rt: &impl AllocGlobal, text: &str) -> Option<GraphFault> {
    match read_graph(rt.alloc(), text.as_bytes()) {
        Ok(_) => None,
        Err(fault) => Some(fault),
    }
}

/// Asserts what reading the pair answers with one edit of its text.
fn expect_edited(
    rt: &(impl Abort + AllocGlobal),
    old: &str,
    new: &str,
    fault: Option<GraphFault>,
) -> Result<(), Fail> {
    let text = PAIR.replace(rt.alloc(), old, new)?;
    expect_eq(rt, refusal(rt, text.as_str()), fault);
    Ok(())
}

/// A copy of the file's graph.
fn copy_of(rt: &impl AllocGlobal, text: &str) -> Result<Graph, Fail> {
    let graph = read_graph(rt.alloc(), text.as_bytes())?;
    Ok(graph.try_copy(rt.alloc())?)
}

fn check_names(rt: &impl Abort, graph: &Graph) {
    expect_eq(rt, graph.actor_number("snk"), Some(1));
    expect_eq(rt, graph.actor_number("x"), None);
    expect_eq(rt, graph.channel_number("x"), Some(0));
}

fn check_channel(rt: &impl Abort, channel: &Channel) {
    expect_eq(rt, (channel.from, channel.to), (0, 1));
    expect_eq(rt, channel.produce.as_slice(), [2, 1].as_slice());
    expect_eq(rt, channel.consume.as_slice(), [3].as_slice());
    expect_eq(rt, channel.initial.len(), 0);
    expect_eq(rt, channel.capacity, Some(3));
}

fn check_rates(rt: &impl Abort, channel: &Channel) {
    expect_eq(rt, (channel.production(4), channel.produced(5)), (2, 8));
    expect_eq(rt, (channel.consumption(4), channel.consumed(5)), (3, 15));
}

#[test]
fn reads_the_pair(rt: HostRuntime) -> Result<(), Fail> {
    let graph = copy_of(&rt, PAIR)?;
    expect_eq(&rt, (graph.actors().len(), graph.channels().len()), (2, 1));
    expect_eq(&rt, graph.cells(), None);
    check_names(&rt, &graph);
    Ok(())
}

#[test]
fn reads_the_tables_of_the_pair(rt: HostRuntime) -> Result<(), Fail> {
    let graph = copy_of(&rt, PAIR)?;
    for actor in graph.actors() {
        assert!(rt; matches!(actor.kernel, Kernel::Source | Kernel::Sink));
    }
    for channel in graph.channels() {
        check_channel(&rt, channel);
        check_rates(&rt, channel);
    }
    Ok(())
}

/// Asserts which channels an actor reads, and which it writes.
fn check_gathered(rt: &impl Abort, graph: &Graph, actor: u32, inputs: &[u32], outputs: &[u32]) {
    assert!(rt; (actor as usize) < graph.actors().len());
    expect_eq(rt, graph.inputs(actor), inputs);
    expect_eq(rt, graph.outputs(actor), outputs);
}

#[test]
fn gathers_channels_of_two(rt: HostRuntime) -> Result<(), Fail> {
    let pair = read_graph(rt.alloc(), PAIR.as_bytes())?;
    expect_eq(&rt, pair.actors().len(), 2);
    check_gathered(&rt, &pair, 0, &[], &[0]);
    check_gathered(&rt, &pair, 1, &[0], &[]);
    Ok(())
}

#[test]
fn gathers_channels_of_one(rt: HostRuntime) -> Result<(), Fail> {
    let own = copy_of(&rt, LOOP)?;
    expect_eq(&rt, own.actors().len(), 1);
    check_gathered(&rt, &own, 0, &[0], &[0]);
    Ok(())
}

const EDITS_OF_ACTORS: [(&str, &str, GraphFault); 8] = [
    ("\"source\"", "\"mix\"", GraphFault::Shape(At::Actor(0))),
    (
        "phases = 2",
        "phases = 2\nshift = 0",
        GraphFault::Shape(At::Actor(0)),
    ),
    (
        "\"snk\"\nkernel",
        "\"9x\"\nkernel",
        GraphFault::Name(At::Actor(1)),
    ),
    ("phases = 2", "phases = 0", GraphFault::Range(At::Actor(0))),
    ("phases = 2", "phases = 17", GraphFault::Range(At::Actor(0))),
    ("\"source\"", "\"copy\"", GraphFault::KernelPorts(0)),
    (CHANNEL, "", GraphFault::KernelPorts(0)),
    ("finish snk\",\n]", "finish snk\",\n", GraphFault::NotToml),
];

#[test]
fn refuses_edits_of_actors(rt: HostRuntime) -> Result<(), Fail> {
    for (old, new, fault) in &EDITS_OF_ACTORS {
        expect_edited(&rt, *old, *new, Some(*fault))?;
    }
    Ok(())
}

const MANY: &str = "initial = [1, 2, 3, 4]\ncapacity";

/// A second channel of the same name.
const TWICE: &str = "capacity = 3\n[[channel]]\nname = \"x\"\nfrom = \"src\"\nto = \"snk\"\n\
    produce = [2, 1]\nconsume = [3]";

/// A capacity out of range, to an actor that is not there.
const FAULTY_TWICE: &str = "\"zz\"\nproduce = [2, 1]\nconsume = [3]\ncapacity = 0";

const EDITS_OF_THE_CHANNEL: [(&str, &str, GraphFault); 12] = [
    (
        "capacity",
        "rate = 1\ncapacity",
        GraphFault::Shape(At::Channel(0)),
    ),
    ("[2, 1]", "[2.0, 1.0]", GraphFault::Shape(At::Channel(0))),
    (
        "capacity = 3",
        "capacity = 0",
        GraphFault::Range(At::Channel(0)),
    ),
    (
        "capacity = 3",
        "capacity = 65536",
        GraphFault::Range(At::Channel(0)),
    ),
    ("[2, 1]", "[2, 65]", GraphFault::Range(At::Channel(0))),
    ("capacity", MANY, GraphFault::Range(At::Channel(0))),
    ("to = \"snk\"", "to = \"zz\"", GraphFault::UnknownActor(0)),
    ("[2, 1]", "[2]", GraphFault::PhaseLength(0)),
    ("[2, 1]", "[0]", GraphFault::PhaseLength(0)),
    ("[2, 1]", "[0, 0]", GraphFault::ZeroRate(0)),
    ("capacity = 3", TWICE, GraphFault::Name(At::Channel(1))),
    (
        "\"snk\"\nproduce = [2, 1]\nconsume = [3]\ncapacity = 3",
        FAULTY_TWICE,
        GraphFault::Range(At::Channel(0)),
    ),
];

#[test]
fn refuses_edits_of_the_channel(rt: HostRuntime) -> Result<(), Fail> {
    for (old, new, fault) in &EDITS_OF_THE_CHANNEL {
        expect_edited(&rt, *old, *new, Some(*fault))?;
    }
    Ok(())
}

#[test]
fn refuses_texts(rt: HostRuntime) {
    expect_eq(&rt, refusal(&rt, APART), Some(GraphFault::NotConnected));
    expect_eq(&rt, refusal(&rt, "[[actor"), Some(GraphFault::NotToml));
    expect_eq(&rt, refusal(&rt, ""), Some(GraphFault::Shape(At::File)));
}

#[test]
fn a_graph_is_read_beside_a_faulty_script(rt: HostRuntime) -> Result<(), Fail> {
    expect_edited(&rt, "[script]\n", "[script]\nlimit = -1\n", None)
}

/// The number of cells that the file gives, or why it is refused.
fn cells_of(rt: &impl AllocGlobal, text: &str) -> Result<Option<u32>, GraphFault> {
    match read_graph(rt.alloc(), text.as_bytes()) {
        Ok(graph) => Ok(graph.cells()),
        Err(fault) => Err(fault),
    }
}

/// What stands before the loop, and the number of cells.
const CELLS: [(&str, Result<Option<u32>, GraphFault>); 4] = [
    ("cells = 1\n", Ok(Some(1))),
    ("cells = 8388480\n", Ok(Some(8_388_480))),
    ("cells = 0\n", Err(GraphFault::Range(At::File))),
    ("cells = 8388481\n", Err(GraphFault::Range(At::File))),
];

#[test]
fn reads_cells(rt: HostRuntime) -> Result<(), Fail> {
    for (cells, want) in &CELLS {
        let text = format!(in rt.alloc(); "{cells}{LOOP}")?;
        expect_eq(&rt, cells_of(&rt, text.as_str()), *want);
    }
    Ok(())
}

/// Asserts the fault of the pair's script with one edit of its text.
fn expect_script_fault(
    rt: &(impl Abort + AllocGlobal),
    old: &str,
    new: &str,
    fault: GraphFault,
) -> Result<(), Fail> {
    let text = PAIR.replace(rt.alloc(), old, new)?;
    let answer = read_script(rt.alloc(), text.as_bytes());
    expect_eq(rt, answer.err(), Some(fault));
    Ok(())
}

fn check_script(rt: &impl Abort, script: &Script) {
    expect_eq(rt, (script.limit, script.supply), (1_000_000, 1_000_000));
    expect_eq(rt, script.firings, None);
    assert!(rt; script.lines.len() == 12);
    expect_eq(rt, script.lines[2].as_str(), "write src 5 6");
}

#[test]
fn reads_scripts(rt: HostRuntime) -> Result<(), Fail> {
    let script = read_script(rt.alloc(), PAIR.as_bytes())?;
    check_script(&rt, &script);
    Ok(())
}

#[test]
fn reads_no_script(rt: HostRuntime) -> Result<(), Fail> {
    let none = read_script(rt.alloc(), LOOP.as_bytes())?;
    expect_eq(&rt, (none.limit, none.lines.len()), (1_000_000, 0));
    Ok(())
}

#[test]
fn reads_the_limit_on_firings(rt: HostRuntime) -> Result<(), Fail> {
    let text = PAIR.replace(rt.alloc(), "[script]\n", "[script]\nfirings = 1\n")?;
    let script = read_script(rt.alloc(), text.as_bytes())?;
    expect_eq(&rt, script.firings, Some(1));
    Ok(())
}

const EDITS_OF_THE_SCRIPT: [(&str, &str, GraphFault); 4] = [
    (
        "[script]\n",
        "[script]\nlimit = -1\n",
        GraphFault::Range(At::Script),
    ),
    (
        "[script]\n",
        "[script]\nfirings = 1048576001\n",
        GraphFault::Range(At::Script),
    ),
    ("  \"begin src\", ", "  1, ", GraphFault::Shape(At::Script)),
    ("finish snk\",\n]", "finish snk\",\n", GraphFault::NotToml),
];

#[test]
fn refuses_scripts(rt: HostRuntime) -> Result<(), Fail> {
    for (old, new, fault) in &EDITS_OF_THE_SCRIPT {
        expect_script_fault(&rt, *old, *new, *fault)?;
    }
    Ok(())
}

#[test]
fn reads_graphs_with_scripts(rt: HostRuntime) -> Result<(), Fail> {
    let read = read_graph_and_script(rt.alloc(), PAIR.as_bytes())?;
    expect_eq(&rt, read.graph.actors().len(), 2);
    expect_eq(&rt, read.script.lines.len(), 12);
    Ok(())
}

const REFUSED_WITH_SCRIPTS: [(&str, GraphFault); 3] = [
    ("x", GraphFault::NotToml),
    (
        "actor = []\n[script]\nlimit = -1\n",
        GraphFault::Range(At::File),
    ),
    ("script = 1\nactor = []\n", GraphFault::Shape(At::File)),
];

#[test]
fn refuses_graphs_with_scripts(rt: HostRuntime) {
    for (text, fault) in &REFUSED_WITH_SCRIPTS {
        let answer = read_graph_and_script(rt.alloc(), text.as_bytes());
        expect_eq(&rt, answer.err(), Some(*fault));
    }
}

#[test]
fn refuses_a_script_beside_a_graph(rt: HostRuntime) -> Result<(), Fail> {
    let text = PAIR.replace(rt.alloc(), "[script]\n", "[script]\nlimit = -1\n")?;
    let answer = read_graph_and_script(rt.alloc(), text.as_bytes());
    expect_eq(&rt, answer.err(), Some(GraphFault::Range(At::Script)));
    Ok(())
}
