//! How many tokens a source may have, and how many periods a run.

ghost use Rattle.std.specs.Prelude.{◌≡◌, ◌↔◌, ◌*◌, ◌≤◌, ℕ, IsTrue};
ghost use Rattle.csdf_floor.specs.Work.{FewInThousand, HasFewFirings, IsMostPeriods};

use csdf_analysis::Accepted;
use csdf_model::{MAX_FIRINGS_PER_ACTOR, MAX_PERIODS};

/// The most tokens that a source may have: as many as a token file.
pub const MAX_FEED_TOKENS: usize = 1_000_000;

// In digits, as documents tell it: a limit that is changed fails here.
const _: () = prove!(MAX_FEED_TOKENS == 1_000_000);

/// The most periods, of at most 16,384,000, in which an actor that fires so often in each makes no more
/// firings than that.
fn most_for(firings: u32) -> u32
    ensures { (n : ℕ) → (n ≤ result) ↔ ((n ≤ MAX_FIRINGS_PER_ACTOR) × (n * firings ≤ MAX_FIRINGS_PER_ACTOR)) }
{
    if firings == 0 {
        return MAX_FIRINGS_PER_ACTOR;
    }
    MAX_FIRINGS_PER_ACTOR / firings
}

/// How many periods a run of the graph may have: of at most 16,384,000, the most in which no actor makes
/// more firings than that. It is at least 1,000 for every graph.
pub fn most_periods(accepted: &Accepted) -> u32
    ensures most { IsMostPeriods accepted.now result }
    ensures many { MAX_PERIODS ≤ result }
{
    let firings = accepted.vector().q.as_slice();
    let mut most: u32 = MAX_FIRINGS_PER_ACTOR;
    for actor in 0..firings.len() {
        let over = most.saturating_sub(most_for(firings[actor]));
        most -= over;
    }
    most
}

/// Whether a run of the graph may have so many periods: no actor makes more than 16,384,000 firings in
/// them.
pub fn may_run(accepted: &Accepted, periods: u32) -> bool
    ensures { IsTrue result ↔ HasFewFirings accepted.now periods }
{
    let firings = accepted.vector().q.as_slice();
    for actor in 0..firings.len() {
        if u64::from(periods) * u64::from(firings[actor]) > u64::from(MAX_FIRINGS_PER_ACTOR) {
            return false;
        }
    }
    true
}

/// A law: a run of an accepted graph may have 1,000 periods.
pub fn few_in_thousand()
    ensures { FewInThousand }
{}
