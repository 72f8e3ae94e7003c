//! A floor that makes firings in blocks, and beside it one that makes the same firings one by one.

use crate::shared::{
    Asked, deliver, done_of, expect_eq, fired_by, limited_floor, moves_of, settled, started,
    told_of,
};
use csdf_core::Core;
use csdf_floor::{Draft, Floor, StartFault};
use csdf_journal::Keeping;
use csdf_kernel::{Counts, Outputs};
use std::alloc::Global;
use std::process::Abort;
use std::test::Fail;

/// How far a floor goes: the number of periods, and the greatest number of all firings.
#[derive(Clone, Copy)]
pub(crate) struct Extent {
    pub(crate) periods: u32,
    pub(crate) firings: Option<u32>,
}

/// Whose next firings are asked for, and how: at most so many, and by a draft that was evaluated before
/// or not.
#[derive(Clone, Copy)]
pub(crate) struct Turn {
    pub(crate) actor: u32,
    pub(crate) most: u32,
    pub(crate) is_drafted: bool,
}

/// Two floors over the same graph and feeds, and what the first one works in.
#[derive(Drop)]
pub(crate) struct Beside {
    blocks: Floor,
    singly: Floor,
    draft: Draft,
    counts: Counts,
    outputs: Outputs,
    /// How many firings were made together with others.
    pub(crate) at_once: u32,
}

/// How many of the actor's next firings can be made one after another, with none of others between.
pub(crate) fn block_of(core: &Core, actor: u32, most: u32) -> u32 {
    if core.actors() <= actor {
        return 0;
    }
    core.ahead(actor, most).firings
}

impl Beside {
    /// Two floors on which nothing has fired. The one that makes firings one by one keeps its moves.
    pub(crate) fn new(
        rt: &impl Abort,
        alloc: Global,
        asked: &Asked,
        extent: Extent,
        keeping: Keeping,
    ) -> Result<Beside, Fail> {
        let (periods, firings) = (extent.periods, extent.firings);
        Ok(Beside {
            blocks: limited_floor(rt, alloc, asked, periods, firings, keeping)?,
            singly: limited_floor(rt, alloc, asked, periods, firings, Keeping::Kept)?,
            draft: Draft::new(alloc),
            counts: Counts::new(alloc),
            outputs: Outputs::new(alloc),
            at_once: 0,
        })
    }

    /// How many of the actor's next firings are made at once, as the turn asks for them.
    fn make(&mut self, turn: Turn, firing: u32) -> Result<u32, StartFault> {
        let (actor, most) = (turn.actor, turn.most);
        let (counts, outputs) = (&mut self.counts, &mut self.outputs);
        if !turn.is_drafted {
            return self.blocks.make(actor, firing, most, counts, outputs);
        }
        self.blocks.draft(actor, firing, most, 0, &mut self.draft)?;
        self.draft.evaluate()?;
        self.blocks
            .make_from(actor, firing, most, &self.draft, counts, outputs)
    }

    /// Makes so many firings of the actor one by one.
    fn follow(&mut self, alloc: Global, actor: u32, firing: u32, count: u32) -> Result<(), Fail> {
        for number in 0..count {
            let next = firing.saturating_add(number);
            let job = started(alloc, &mut self.singly, actor, next)?;
            let done = done_of(alloc, job)?;
            deliver(alloc, &mut self.singly, &done)?;
        }
        Ok(())
    }

    /// Makes firings of the actor in both ways. False where its next one is refused.
    fn step(&mut self, alloc: Global, turn: Turn) -> Result<bool, Fail> {
        let actor = turn.actor;
        let firing = fired_by(&self.blocks, actor);
        let block = block_of(self.blocks.core(), actor, turn.most);
        match self.make(turn, firing) {
            Ok(made) => {
                if block > 1 {
                    self.at_once = self.at_once.saturating_add(block.min(made));
                }
                self.follow(alloc, actor, firing, made)?;
                Ok(true)
            }
            Err(StartFault::Refused(_)) => Ok(false),
            Err(fault) => Err(fault.into()),
        }
    }

    /// Lets the actors have these turns. False where none of them can begin.
    pub(crate) fn pass(&mut self, alloc: Global, turns: &[Turn]) -> Result<bool, Fail> {
        let mut has_begun = false;
        for turn in turns {
            if self.step(alloc, *turn)? {
                has_begun = true;
            }
        }
        Ok(has_begun)
    }

    /// Asserts that both floors have made the same moves, where they are kept, and that they end with
    /// the same sinks and the same report. A failure tells the graph's file as well.
    pub(crate) fn end(
        self,
        rt: &impl Abort,
        alloc: Global,
        asked: &Asked,
        extent: Extent,
        graph: &str,
    ) -> Result<String, Fail> {
        let Beside { blocks, singly, .. } = self;
        check_moves(rt, alloc, &blocks, &singly)?;
        let told = told_at_end(rt, alloc, blocks, asked, extent)?;
        let wanted = told_at_end(rt, alloc, singly, asked, extent)?;
        expect_eq(rt, (graph, told.as_str()), (graph, wanted.as_str()));
        Ok(told)
    }
}

fn check_moves(rt: &impl Abort, alloc: Global, blocks: &Floor, singly: &Floor) -> Result<(), Fail> {
    if blocks.keeps_journal() {
        let (found, wanted) = (moves_of(alloc, blocks)?, moves_of(alloc, singly)?);
        expect_eq(rt, found.as_str(), wanted.as_str());
    }
    Ok(())
}

/// How many firings each actor has made.
fn totals_of(alloc: Global, floor: &Floor) -> Result<Vec<u32>, Fail> {
    let mut totals = Vec::new(alloc);
    for actor in 0..floor.core().actors() {
        totals.push(fired_by(floor, actor))?;
    }
    Ok(totals)
}

/// The sinks and the report at the floor's end; an error where it can go on.
fn told_at_end(
    rt: &impl Abort,
    alloc: Global,
    floor: Floor,
    asked: &Asked,
    extent: Extent,
) -> Result<String, Fail> {
    let totals = totals_of(alloc, &floor)?;
    let (periods, firings) = (extent.periods, extent.firings);
    match settled(rt, alloc, floor, asked, periods, firings, &totals) {
        Ok(outcome) => told_of(alloc, &asked.accepted, &outcome),
        Err(fault) => Err(fault.into()),
    }
}
