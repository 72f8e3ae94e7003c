//! What a floor begins with.

ghost use Rattle.std.specs.Prelude.{◌≡◌, ◌*◌, ◌≤◌, [], All, IfOk, length, map, replicate};
ghost use Rattle.csdf_core.specs.Plan.{Channel as ChannelModel};
ghost use Rattle.csdf_core.specs.Shows.{Shows};
ghost use Rattle.csdf_core.specs.State.{opening};
ghost use Rattle.csdf_journal.specs.View.{is_kept};
ghost use Rattle.csdf_floor.specs.Beginnings.{IsBlank};
ghost use Rattle.csdf_floor.specs.Inside.{first_peaks};
ghost use Rattle.csdf_floor.specs.Journal.{program_for};
ghost use Rattle.csdf_floor.specs.Work.{AreFeeds, HasFewFirings, feeds_in};

use crate::fed::{Fed, RunBounds};
use crate::limits::MAX_FEED_TOKENS;
use crate::lists::Lists;
use csdf_analysis::Accepted;
use csdf_core::Core;
use csdf_journal::{Journal, Keeping};
use csdf_model::MAX_FIRINGS_PER_ACTOR;
use std::alloc::{AllocError, Global};

/// All of a book that takes memory, but what it is made over: a core that has not moved, a journal of no moves
/// with room for the closing of each channel, an empty list for each actor, and an empty buffer.
#[derive(Drop)]
pub(crate) struct BlankBook {
    pub(crate) core: Core,
    pub(crate) journal: Journal,
    pub(crate) sinks: Lists,
    pub(crate) reads: Vec<Vec<i32>>,
}

/// How many firings each actor makes in so many periods.
fn limits_of(alloc: Global, accepted: &Accepted, periods: u32) -> Result<Vec<u32>, AllocError>
    requires { HasFewFirings accepted.now periods }
    ensures value { IfOk result (λ limits. limits.items ≡ map (λ q. periods * q) accepted.now.q) }
    ensures few { IfOk result (λ limits. All (λ n. n ≤ MAX_FIRINGS_PER_ACTOR) limits.items) }
    ensures each_actor { length accepted.now.q ≡ length accepted.now.graph.actors }
{
    let firings = accepted.vector().q.as_slice();
    let mut limits = Vec::new(alloc);
    for actor in 0..firings.len() {
        limits.push(periods * firings[actor])?;
    }
    Ok(limits)
}

/// How many tokens there are for each actor.
fn supplies_of(alloc: Global, feeds: &[Vec<i32>]) -> Result<Vec<u32>, AllocError>
    requires { All (λ feed. length feed ≤ MAX_FEED_TOKENS) (feeds_in feeds.now) }
    ensures { IfOk result (λ supply. supply.items ≡ map length (feeds_in feeds.now)) }
{
    let mut supply = Vec::new(alloc);
    for feed in feeds {
        supply.push(feed.len() as u32)?;
    }
    Ok(supply)
}

/// A core that has not moved, of what is run of these. An error says that memory ran out.
fn core_of(
    alloc: Global,
    accepted: &Accepted,
    feeds: &[Vec<i32>],
    bounds: RunBounds,
) -> Result<Core, AllocError>
    requires fed { AreFeeds accepted.now.graph (feeds_in feeds.now) }
    requires few_firings { HasFewFirings accepted.now bounds.periods }
    ensures plan { IfOk result (λ core. core.plan ≡ (program_for accepted.now (feeds_in feeds.now) bounds.periods bounds.firings).plan) }
    ensures opening { IfOk result (λ core. Shows core (opening core.plan)) }
    ensures peaks { IfOk result (λ core. core.peaks ≡ map length (map (λ (c : ChannelModel). c.initial) core.plan.channels)) }
{
    let limits = limits_of(alloc, accepted, bounds.periods)?;
    let supply = supplies_of(alloc, feeds)?;
    Core::new(alloc, accepted, limits, supply, bounds.firings)
}

/// As many empty buffers.
fn no_reads(alloc: Global, actors: u32) -> Result<Vec<Vec<i32>>, AllocError>
    ensures { IfOk result (λ reads. length reads.items ≡ actors) }
{
    let mut reads = Vec::new(alloc);
    for _ in 0..actors {
        reads.push(Vec::new(alloc))?;
    }
    Ok(reads)
}

/// A journal of no moves, with room for so many.
fn empty_journal(alloc: Global, keeping: Keeping, room: usize) -> Result<Journal, AllocError>
    ensures moves { IfOk result (λ journal. journal.moves ≡ []) }
    ensures keeps { IfOk result (λ journal. journal.keeps ≡ is_kept keeping) }
    ensures room { IfOk result (λ journal. room ≤ journal.room) }
{
    let mut journal = Journal::new(alloc, keeping);
    journal.reserve(room)?;
    Ok(journal)
}

/// What the sinks of so many actors took, and what the actors read: nothing.
fn no_tokens(alloc: Global, actors: u32) -> Result<(Lists, Vec<Vec<i32>>), AllocError>
    ensures sinks { IfOk result (λ lists. lists.0.lists ≡ replicate actors []) }
    ensures reads { IfOk result (λ lists. length lists.1.items ≡ actors) }
{
    let sinks = Lists::new(alloc, actors)?;
    let reads = no_reads(alloc, actors)?;
    Ok((sinks, reads))
}

/// The parts of a book of this core, which has not moved.
fn parts_of(alloc: Global, core: Core, keeping: Keeping) -> Result<BlankBook, AllocError>
    requires opening { Shows core (opening core.plan) }
    requires peaks { core.peaks ≡ first_peaks core.plan }
    ensures blank { IfOk result (IsBlank core.plan) }
    ensures keeps { IfOk result (λ blank. blank.journal.keeps ≡ is_kept keeping) }
{
    let journal = empty_journal(alloc, keeping, core.channels() as usize)?;
    let (sinks, reads) = no_tokens(alloc, core.actors())?;
    Ok(BlankBook {
        core,
        journal,
        sinks,
        reads,
    })
}

impl BlankBook {
    /// That of a run of the graph over these feeds. An error says that memory ran out.
    pub(crate) fn of(
        alloc: Global,
        fed: &Fed,
        bounds: RunBounds,
        keeping: Keeping,
    ) -> Result<BlankBook, AllocError>
        requires fed { AreFeeds fed.now.accepted.graph (feeds_in fed.now.feeds.items) }
        requires few_firings { HasFewFirings fed.now.accepted bounds.periods }
        ensures blank { IfOk result (IsBlank (program_for fed.now.accepted (feeds_in fed.now.feeds.items) bounds.periods bounds.firings).plan) }
        ensures keeps { IfOk result (λ blank. blank.journal.keeps ≡ is_kept keeping) }
    {
        let core = core_of(alloc, &fed.accepted, &fed.feeds, bounds)?;
        parts_of(alloc, core, keeping)
    }
}
