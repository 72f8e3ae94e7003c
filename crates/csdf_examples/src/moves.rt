//! The moves of firings, made one by one on a core, and its reply to each.

ghost use Rattle.std.specs.Prelude.{IfOk};
ghost use Rattle.csdf_core.specs.Shows.{Shows};
ghost use Rattle.csdf_core.specs.State.{opening};

use crate::analysis::accepted_in;
use csdf_analysis::Accepted;
use csdf_core::Core;
use csdf_model::{Actor, Kernel};
use std::alloc::{AllocError, Global};
use std::io;

/// A source that gives 2 tokens and 1 in turn, and a sink that takes 3.
const PAIR: &str = r#"actor = [
  { name = "src", kernel = "source", phases = 2 },
  { name = "snk", kernel = "sink" },
]
channel = [{ name = "x", from = "src", to = "snk", produce = [2, 1], consume = [3] }]
"#;

const SRC: u32 = 0;

const SNK: u32 = 1;

/// How many tokens there are for the actor: four for a source.
fn supply_of(actor: &Actor) -> u32 {
    if matches!(actor.kernel, Kernel::Source) {
        4
    } else {
        0
    }
}

/// A core of the graph on which nothing has fired. Each actor may fire three times.
fn core_of(alloc: Global, accepted: &Accepted) -> Result<Core, AllocError>
    ensures { IfOk result (λ core. Shows core (opening core.plan)) }
{
    let actors = accepted.graph().actors();
    let limits = vec![in alloc; 3; actors.len()]?;
    let supply = actors.iter().map(supply_of).collect(alloc)?;
    Core::new(alloc, accepted, limits, supply, None)
}

/// Makes the four moves of the actor's next firing, which writes these tokens, and prints the replies.
fn fire(
    rt: &impl Print,
    alloc: Global,
    core: &mut Core,
    actor: u32,
    tokens: &[i32],
) -> io::Result<()> {
    println!(rt; "begin {actor}: {:?}", core.begin(actor))?;
    let mut read = vec![in alloc; 0; core.need(actor)]?;
    let reply = core.read(actor, &mut read);
    println!(rt; "read {actor}: {reply:?} {read:?}")?;
    println!(rt; "write {actor}: {:?}", core.write(actor, tokens))?;
    println!(rt; "finish {actor}: {:?}", core.finish(actor))
}

/// Makes the moves of three firings, and two moves that are refused.
fn play(rt: &impl Print, alloc: Global, core: &mut Core) -> io::Result<()> {
    println!(rt; "begin {SNK}: {:?}", core.begin(SNK))?;
    fire(rt, alloc, core, SRC, &[5, 6])?;
    fire(rt, alloc, core, SRC, &[7])?;
    fire(rt, alloc, core, SNK, &[])?;
    println!(rt; "write {SRC}: {:?}", core.write(SRC, &[8, 9]))
}

/// Shows the replies to some moves.
pub fn show(rt: &impl Print, alloc: Global) -> anyhow::Result<()> {
    let accepted = accepted_in(alloc, PAIR)?;
    let mut core = core_of(alloc, &accepted)?;
    play(rt, alloc, &mut core)?;
    Ok(())
}
