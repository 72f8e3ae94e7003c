//! Random graphs, whose firings are made in blocks and beside them one by one.

use crate::beside::{Beside, Extent, Turn};
use crate::random_graphs::{Dice, Sketch, sketch_of};
use crate::shared::Asked;
use csdf_analysis::{AcceptFault, accept};
use csdf_graph::read_graph;
use csdf_journal::Keeping;
use std::alloc::Global;
use std::process::Abort;
use std::test::Fail;

/// What is asked for over the graph, where it can go on for ever in its capacities.
pub(crate) fn asked_of(
    alloc: Global,
    dice: &mut Dice,
    sketch: &Sketch,
) -> Result<Option<Asked>, Fail> {
    match accept(alloc, read_graph(alloc, sketch.text.as_bytes())?) {
        Ok(accepted) => {
            let feeds = sketch.feeds(alloc, dice)?;
            Ok(Some(Asked { accepted, feeds }))
        }
        Err((_, AcceptFault::Memory)) => Err(Fail::new("memory")),
        Err(_) => Ok(None),
    }
}

pub(crate) fn extent_of(dice: &mut Dice) -> Extent {
    let limit = dice.roll(0, 80);
    Extent {
        periods: dice.roll(1, 6),
        firings: if dice.is_one_in(4) { Some(limit) } else { None },
    }
}

/// A turn for each of so many actors.
fn turns_of(alloc: Global, dice: &mut Dice, actors: u32) -> Result<Vec<Turn>, Fail> {
    let mut turns = Vec::new(alloc);
    for actor in 0..actors {
        turns.push(Turn {
            actor,
            most: dice.roll(0, 20),
            is_drafted: dice.is_one_in(3),
        })?;
    }
    Ok(turns)
}

/// Lets all actors have turns until none can begin.
fn go(alloc: Global, dice: &mut Dice, floors: &mut Beside, actors: u32) -> Result<(), Fail> {
    for _ in 0..10_000 {
        let turns = turns_of(alloc, dice, actors)?;
        if !floors.pass(alloc, &turns)? {
            break;
        }
    }
    Ok(())
}

/// Makes the firings of the graph of this seed in blocks and one by one, and compares what comes of them.
/// Tells how many the blocks made at once, or none where the graph is refused.
fn check(rt: &impl Abort, alloc: Global, seed: u64) -> Result<Option<u32>, Fail> {
    let mut dice = Dice::new(seed);
    let sketch = sketch_of(alloc, &mut dice)?;
    let Some(asked) = asked_of(alloc, &mut dice, &sketch)? else {
        return Ok(None);
    };
    let extent = extent_of(&mut dice);
    let keeping = if dice.is_one_in(2) {
        Keeping::Kept
    } else {
        Keeping::NotKept
    };
    let mut floors = Beside::new(rt, alloc, &asked, extent, keeping)?;
    go(alloc, &mut dice, &mut floors, sketch.actors())?;
    let at_once = floors.at_once;
    floors.end(rt, alloc, &asked, extent, &sketch.text)?;
    Ok(Some(at_once))
}

/// Most of the graphs are accepted, and thousands of firings are made together with others. As many of them
/// are made as memory allows, so `tests/memory/run` leaves this one out.
#[test]
fn random_graphs_are_made_in_blocks(rt: HostRuntime) -> Result<(), Fail> {
    let (mut graphs, mut at_once): (u32, u32) = (0, 0);
    for seed in 0..300 {
        if let Some(firings) = check(&rt, rt.alloc(), seed)? {
            graphs = graphs.saturating_add(1);
            at_once = at_once.saturating_add(firings);
        }
    }
    assert!(rt; 200 <= graphs && 5000 <= at_once);
    Ok(())
}
