//! The end of a run.

ghost use Rattle.std.specs.Prelude.{◌≡◌, ◌≤◌, IfOk, length};
ghost use Rattle.csdf_floor.specs.Journal.{program_for};
ghost use Rattle.csdf_floor.specs.Work.{AreFeeds, HasFewFirings, feeds_in, program};
ghost use Rattle.csdf_floor.specs.Outcome.{IsEndOf, IsOutcome, IsSettleAnswer, HasTotals, HasHonestJournal, EndsSettled, TakesInOrder};
ghost use Rattle.csdf_floor.specs.Outcome.{StaysWithinCapacities, LeavesClosedAlone, TellsSinks, TellsReport, TellsLeft, TellsEnding};
ghost use Rattle.csdf_floor.specs.Outcome.{IsAsSequentialRun, IsAsInAnyRoom, CompletesWhereAmple, journal_in};

use crate::fault::RunFault;
use crate::fed::RunBounds;
use crate::floor::Floor;
use crate::outcome::{Outcome, Settled};
use csdf_analysis::Accepted;
use std::alloc::Global;

/// The end of a run that this floor was for: its ending, what the sinks took, its journal, and what is
/// told of each channel.
///
/// [`RunFault::Mixed`] says that the floor is not for this graph, these feeds, periods and firings; that
/// a total is not the number of firings that the actor has finished; or that an actor can go on. Want of
/// memory comes after that. A refusal does not hand the floor back.
///
/// Whoever made the firings, and in whatever order, the sinks took what they take in the sequential run
/// (the determinacy of dataflow graphs: Lee and Messerschmitt 1987), or a front of it where the limit on
/// all firings or want of cells held the run back. The capacities and the number of cells do not show
/// where a run is complete: any other complete run of the same work has the same sinks.
pub fn settle(
    alloc: Global,
    floor: Floor,
    accepted: &Accepted,
    feeds: &[Vec<i32>],
    periods: u32,
    firings: Option<u32>,
    totals: &[u32],
) -> Result<Outcome, RunFault>
    requires fed { AreFeeds accepted.now.graph (feeds_in feeds.now) }
    requires some_period { 1 ≤ periods }
    requires few_firings { HasFewFirings accepted.now periods }
    requires totals { length totals.now ≡ length accepted.now.graph.actors }
    ensures answer { IsSettleAnswer
        (IsEndOf floor (record { accepted = accepted.now; feeds = feeds_in feeds.now; periods = periods; firings = firings }) totals.now) result }
    ensures journal { IfOk result (λ o. journal_in o ≡ floor.journal) }
    ensures keeps { IfOk result (λ o. o.journal.keeps ≡ floor.keeps) }
    ensures honest { IfOk result (HasHonestJournal (program_for accepted.now (feeds_in feeds.now) periods firings)) }
    ensures settled { IfOk result (EndsSettled (program_for accepted.now (feeds_in feeds.now) periods firings)) }
    ensures order { IfOk result (TakesInOrder (program_for accepted.now (feeds_in feeds.now) periods firings)) }
    ensures capacities { IfOk result (StaysWithinCapacities (program_for accepted.now (feeds_in feeds.now) periods firings)) }
    ensures closing { IfOk result (LeavesClosedAlone (program_for accepted.now (feeds_in feeds.now) periods firings)) }
    ensures sinks { IfOk result (TellsSinks (program_for accepted.now (feeds_in feeds.now) periods firings)) }
    ensures report { IfOk result (TellsReport (program_for accepted.now (feeds_in feeds.now) periods firings)) }
    ensures left { IfOk result (TellsLeft (program_for accepted.now (feeds_in feeds.now) periods firings)) }
    ensures ending { IfOk result (TellsEnding (program_for accepted.now (feeds_in feeds.now) periods firings)) }
    ensures totals { IfOk result (λ o. HasTotals (program_for accepted.now (feeds_in feeds.now) periods firings) o totals.now) }
    ensures sequential { IfOk result (IsAsSequentialRun (program_for accepted.now (feeds_in feeds.now) periods firings)) }
    ensures rooms { IfOk result (IsAsInAnyRoom (program_for accepted.now (feeds_in feeds.now) periods firings)) }
    ensures complete { IfOk result (CompletesWhereAmple accepted.now (feeds_in feeds.now) periods firings) }
{
    let bounds = RunBounds { periods, firings };
    if !floor.is_of(accepted, feeds, bounds) {
        return Err(RunFault::Mixed);
    }
    let Settled { fed: _, outcome } = settle_and_hand_back(alloc, floor, totals);
    let outcome = outcome?;
    Ok(outcome)
}

/// As [`settle`], of whatever the floor was made over, which comes back, whether there is an outcome or
/// not.
///
/// [`RunFault::Mixed`] says that a total is not the number of firings that the actor has finished, or that
/// an actor can go on. Want of memory comes after that.
pub fn settle_and_hand_back(alloc: Global, floor: Floor, totals: &[u32]) -> Settled
    ensures accepted { result.fed.accepted ≡ floor.work.accepted }
    ensures feeds { feeds_in result.fed.feeds.items ≡ floor.work.feeds }
    ensures answer { IsSettleAnswer (IsEndOf floor floor.work totals.now) result.outcome }
    ensures journal { IfOk result.outcome (λ o. journal_in o ≡ floor.journal) }
    ensures keeps { IfOk result.outcome (λ o. o.journal.keeps ≡ floor.keeps) }
    ensures outcome { IfOk result.outcome (IsOutcome floor.work) }
    ensures totals { IfOk result.outcome (λ o. HasTotals (program floor.work) o totals.now) }
{
    if !floor.is_at_end(totals) {
        return Settled {
            fed: floor.into_fed(),
            outcome: Err(RunFault::Mixed),
        };
    }
    floor.into_settled(alloc)
}
