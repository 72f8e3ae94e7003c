//! What a run is asked for.

ghost use Rattle.std.specs.Prelude.{◌≡◌, ◌≤◌, ℕ, IfErr, IfOk, length, map};
ghost use Rattle.csdf_analysis.specs.Acceptance.{IsAccepted};
ghost use Rattle.csdf_journal.specs.View.{is_kept};
ghost use Rattle.csdf_floor.specs.Work.{AreFeeds, HasFewFirings, feeds_in};
ghost use Rattle.csdf_run.specs.Requests.{IsFedOf, IsMostFirings};
ghost use Rattle.csdf_run.specs.Texts.{GoesOnFor, MayGoOnOver, work_for};

use crate::options::RunOptions;
use crate::periods::periods_of;
use csdf_analysis::most_firings;
use csdf_crew::gains_by_workers;
use csdf_floor::{Fed, Floor, RunBounds};
use csdf_model::MAX_ACTORS;
use std::alloc::{AllocError, Global};
use std::marker::Model;

/// What a run is asked for: an accepted graph and the feeds of its sources, and how it is run, which
/// comes to so many periods.
///
/// A contract sees the work apart from the number of workers and from whether the journal is kept, since
/// no outcome depends on these.
#[derive(Drop)]
pub(crate) struct RunRequest {
    fed: Fed,
    periods: u32,
    options: RunOptions,
}

impl Model for RunRequest {
    ghost use Rattle.std.specs.Prelude.{◌≤◌};
    ghost use Rattle.csdf_floor.specs.Work.{AreFeeds, HasFewFirings, feeds_in};
    ghost use Rattle.csdf_journal.specs.View.{is_kept};
    ghost use Rattle.csdf_run.specs.Requests.{RequestView};
    ghost use Rattle.csdf_run.specs.Texts.{work_for};

    ghost Value = { RequestView };

    ghost view = { λ r. record {
      work = work_for r.fed.accepted (feeds_in r.fed.feeds.items) r.periods r.options.firings;
      workers = r.options.workers;
      keeps = is_kept r.options.keeping;
    } };

    ghost invariant = { λ r. AreFeeds r.fed.accepted.graph (feeds_in r.fed.feeds.items) × (1 ≤ r.periods)
        × HasFewFirings r.fed.accepted r.periods };
}

/// How a request is carried out: for so many periods, and as its options say.
#[derive(Clone, Copy)]
pub(crate) struct Terms {
    pub(crate) periods: u32,
    pub(crate) options: RunOptions,
}

/// How many tokens there are for each actor.
fn lengths_of(alloc: Global, feeds: &[Vec<i32>]) -> Result<Vec<usize>, AllocError>
    ensures { IfOk result (λ lengths. lengths.items ≡ map length (feeds_in feeds.now)) }
{
    let mut lengths = Vec::new(alloc);
    for feed in feeds {
        lengths.push(feed.len())?;
    }
    Ok(lengths)
}

impl RunRequest {
    pub(crate) fn new(fed: Fed, options: RunOptions) -> RunRequest
        requires fed { AreFeeds fed.accepted.graph (feeds_in fed.feeds.items) }
        requires goes_on { MayGoOnOver options.how_long fed.accepted }
        ensures work { (periods : ℕ) × GoesOnFor options.how_long fed.accepted periods
            × (result.work ≡ work_for fed.accepted (feeds_in fed.feeds.items) periods options.firings) }
        ensures workers { result.workers ≡ options.workers }
        ensures keeps { result.keeps ≡ is_kept options.keeping }
    {
        let periods = periods_of(options.how_long, &fed.accepted);
        RunRequest {
            fed,
            periods,
            options,
        }
    }

    /// A request that is carried out so.
    pub(crate) fn on(fed: Fed, terms: Terms) -> RunRequest
        requires fed { AreFeeds fed.accepted.graph (feeds_in fed.feeds.items) }
        requires some_period { 1 ≤ terms.periods }
        requires few_firings { HasFewFirings fed.accepted terms.periods }
        ensures work { result.work ≡ work_for fed.accepted (feeds_in fed.feeds.items) terms.periods terms.options.firings }
        ensures workers { result.workers ≡ terms.options.workers }
        ensures keeps { result.keeps ≡ is_kept terms.options.keeping }
    {
        let Terms { periods, options } = terms;
        RunRequest {
            fed,
            periods,
            options,
        }
    }

    /// How it is carried out.
    pub(crate) fn terms(&self) -> Terms
        ensures work { self.now.work ≡ work_for self.now.work.accepted self.now.work.feeds result.periods result.options.firings }
        ensures workers { result.options.workers ≡ self.now.workers }
        ensures keeps { is_kept result.options.keeping ≡ self.now.keeps }
        ensures fed { AreFeeds self.now.work.accepted.graph self.now.work.feeds }
        ensures some_period { 1 ≤ result.periods }
        ensures few_firings { HasFewFirings self.now.work.accepted result.periods }
    {
        Terms {
            periods: self.periods,
            options: self.options,
        }
    }

    /// How many actors the graph has.
    pub(crate) fn actors(&self) -> u32
        ensures count { result ≡ length self.now.work.accepted.graph.actors }
        ensures few { result ≤ MAX_ACTORS }
    {
        self.fed.accepted.graph().actors().len() as u32
    }

    /// How many workers are asked for.
    pub(crate) fn workers(&self) -> u32
        ensures { result ≡ self.now.workers }
    {
        self.options.workers
    }

    /// The same, by so many workers.
    pub(crate) fn by(self, workers: u32) -> RunRequest
        ensures work { result.work ≡ self.work }
        ensures workers { result.workers ≡ workers }
        ensures keeps { result.keeps ≡ self.keeps }
    {
        let RunRequest {
            fed,
            periods,
            options,
        } = self;
        RunRequest {
            fed,
            periods,
            options: RunOptions { workers, ..options },
        }
    }

    /// Whether several workers can be faster than one: two actors of its graph or more are heavy.
    pub(crate) fn gains_by_workers(&self) -> bool {
        gains_by_workers(&self.fed.accepted)
    }

    /// How many firings it makes at most, by the tokens of the sources, its periods and its limit. An
    /// error says that memory ran out.
    pub(crate) fn most_firings(&self, alloc: Global) -> Result<u64, AllocError>
        ensures most { IfOk result (IsMostFirings self.now.work) }
        ensures accepted { IsAccepted self.now.work.accepted }
    {
        let accepted = &self.fed.accepted;
        let _graph = accepted.graph();
        let tokens = lengths_of(alloc, &self.fed.feeds)?;
        let counts = most_firings(alloc, accepted, self.periods, &tokens)?;
        let mut all: u64 = 0;
        for count in &counts {
            all += u64::from(*count);
        }
        match self.options.firings {
            Some(most) if u64::from(most) < all => Ok(u64::from(most)),
            _ => Ok(all),
        }
    }

    /// What is run, handed back.
    pub(crate) fn into_fed(self) -> Fed
        ensures { IsFedOf self.work result }
    {
        self.fed
    }

    /// A floor for it on which nothing has fired, with a journal that keeps its moves where they are asked
    /// for. What is run comes back where memory runs out.
    pub(crate) fn into_floor(self, alloc: Global) -> Result<Floor, Fed>
        ensures work { IfOk result (λ floor. floor.work ≡ self.work) }
        ensures keeps { IfOk result (λ floor. floor.keeps ≡ self.keeps) }
        ensures back { IfErr result (IsFedOf self.work) }
    {
        let RunRequest {
            fed,
            periods,
            options,
        } = self;
        let bounds = RunBounds {
            periods,
            firings: options.firings,
        };
        Floor::over(alloc, fed, bounds, options.keeping)
    }
}
