//! A run that goes on, segment after segment, in the memory of one.

ghost use Rattle.std.specs.Prelude.{◌≡◌, ◌≤◌, ◌↔◌, [], false, true, IfErr, IfOk, IsTrue, length, map};
ghost use Rattle.std.specs.List.{zip};
ghost use Rattle.csdf_analysis.specs.Acceptance.{IsAccepted};
ghost use Rattle.csdf_model.specs.Holding.{HaveAsMany};
ghost use Rattle.csdf_floor.specs.declared.ending.Ending.TheVariants.{Complete};
ghost use Rattle.csdf_floor.specs.Work.{AreFeeds, HasFewFirings, feeds_in};
ghost use Rattle.csdf_run.specs.Causes.{IsWantAmong};
ghost use Rattle.csdf_run.specs.Totals.{totals_of, with_report};

use crate::host::Host;
use crate::no_outcome::{NoOutcome, Ran};
use crate::options::RunOptions;
use crate::request::RunRequest;
use crate::running::watched_outcome_of;
use crate::totals::{ChannelTotal, add_report, no_totals};
use crate::watch::Watch;
use csdf_analysis::{Accepted, Length, Room};
use csdf_floor::{ChannelReport, Ending, Fed, Outcome, are_exact};
use csdf_journal::Keeping;
use std::alloc::{AllocError, Global};
use std::marker::Model;
use std::sync::Wait;
use std::thread::Threads;

/// What a segment of a stream answers.
#[derive(Debug, Drop)]
pub struct Part {
    /// Why no firing follows in it.
    pub ending: Ending,
    /// What each sink took in it, in order; empty for an actor that is no sink.
    pub sinks: Vec<Vec<i32>>,
    /// What is told of each channel, in file order, of this segment alone.
    pub report: Vec<ChannelReport>,
}

/// An accepted graph that is run segment after segment: each begins with the tokens that the channels
/// held at the end of the one before.
///
/// A contract sees the graph that the next segment runs, what is told of each channel over all segments so
/// far, and whether no segment follows.
pub struct Stream {
    accepted: Accepted,
    totals: Vec<ChannelTotal>,
    is_over: bool,
}

// Written out, so that where one is dropped this is called, and its parts are not gone through again.
impl Drop for Stream {
    fn drop(self) {
        let Stream {
            accepted: _,
            totals: _,
            is_over: _,
        } = self;
    }
}

impl Model for Stream {
    ghost use Rattle.std.specs.Prelude.{◌≡◌, length};
    ghost use Rattle.csdf_run.specs.Streaming.{StreamView};

    ghost Value = { StreamView };

    ghost view = { λ s. record { accepted = s.accepted; totals = s.totals.items; is_over = s.is_over } };

    ghost invariant = { λ s. length s.totals.items ≡ length s.accepted.graph.channels };
}

/// A stream after a segment, the tokens that were handed in, and what the segment answers, or why it was
/// not run.
#[derive(Drop)]
pub struct Stretch {
    /// The stream: it goes on or is over, or stands where it stood where there is a fault.
    pub stream: Stream,
    /// The tokens for each actor, as they were handed in.
    pub feeds: Vec<Vec<i32>>,
    /// What the segment answers.
    pub part: Result<Part, NoOutcome>,
}

/// Whether a stream goes on after a segment that ended so.
fn goes_on_after(ending: Ending, is_exact: bool) -> bool
    ensures { IsTrue result ↔ ((is_exact ≡ true) × (ending ≡ Complete)) }
{
    is_exact && ending == Ending::Complete
}

impl Stream {
    ghost use Rattle.csdf_run.specs.Streaming.{IsAfter, IsStretch};

    /// The stream of a graph of which nothing has run. An error says that memory ran out.
    pub fn new(alloc: Global, accepted: Accepted) -> Result<Stream, AllocError>
        ensures { IfOk result (λ stream. stream ≡ record { accepted = accepted; totals = totals_of accepted []; is_over = false }) }
    {
        let totals = no_totals(alloc, accepted.graph().channels().len())?;
        let is_over = false;
        Ok(Stream {
            accepted,
            totals,
            is_over,
        })
    }

    /// The graph that the next segment runs: its channels begin with the tokens that they hold now.
    pub fn accepted(&self) -> &Accepted
        ensures { result.now ≡ self.now.accepted }
    {
        &self.accepted
    }

    /// What is told of each channel, in file order, over all segments so far.
    pub fn totals(&self) -> &[ChannelTotal]
        ensures { result.now ≡ self.now.totals }
    {
        &self.totals
    }

    /// Whether no segment follows.
    pub fn is_over(&self) -> bool
        ensures { result ≡ self.now.is_over }
    {
        self.is_over
    }

    /// The stream after an outcome, and what is told of it. It goes on where the outcome is complete, over
    /// feeds that were exact.
    fn after(
        accepted: Accepted,
        totals: Vec<ChannelTotal>,
        outcome: Outcome,
        is_exact: bool,
    ) -> (Stream, Part)
        requires each_channel { length totals.items ≡ length accepted.graph.channels }
        requires each_told { length outcome.report.items ≡ length accepted.graph.channels }
        requires as_many { is_exact ≡ true → outcome.ending ≡ Complete → HaveAsMany (feeds_in outcome.left.items) accepted.graph.channels }
        ensures stream { IsAfter accepted outcome is_exact result.0 }
        ensures totals { result.0.totals ≡ map with_report (zip totals.items outcome.report.items) }
        ensures ending { result.1.ending ≡ outcome.ending }
        ensures sinks { result.1.sinks ≡ outcome.sinks }
        ensures report { result.1.report ≡ outcome.report }
    {
        let Outcome {
            ending,
            sinks,
            journal: _,
            report,
            left,
        } = outcome;
        let mut totals = totals;
        add_report(&mut totals, &report);
        let part = Part {
            ending,
            sinks,
            report,
        };
        let goes_on = goes_on_after(ending, is_exact);
        let accepted = if goes_on {
            accepted.going_on(left)
        } else {
            accepted
        };
        let stream = Stream {
            accepted,
            totals,
            is_over: !goes_on,
        };
        (stream, part)
    }

    /// Runs so many periods more by worker threads, over these feeds, as [`run`](crate::run) does without a
    /// limit on all firings; the journal is not kept.
    ///
    /// The stream goes on where the segment ends complete and each source's list has just the tokens that
    /// the source gives in these periods ([`are_exact`]): the next segment begins with the tokens that the
    /// channels hold. Else it is over. At any number of segments, what each sink has taken in all of them is
    /// a front of what it takes in the one long run over all feeds so far; and it is the same where the last
    /// one ended complete or dry.
    ///
    /// The watch is told how far the segment has come. Where there is a fault, the stream stands where it stood.
    pub fn segment<R: Threads + Wait + Sync, W: Watch>(
        self,
        host: Host<'_, R>,
        feeds: Vec<Vec<i32>>,
        workers: u32,
        periods: u32,
        watch: &W,
    ) -> Stretch
        requires goes_on { self.is_over ≡ false }
        requires fed { AreFeeds self.accepted.graph (feeds_in feeds.items) }
        requires some_worker { 1 ≤ workers }
        requires few_workers { workers ≤ 8 }
        requires some_period { 1 ≤ periods }
        requires few_firings { HasFewFirings self.accepted periods }
        ensures feeds { feeds_in result.feeds.items ≡ feeds_in feeds.items }
        ensures part { IfOk result.part (IsStretch self (feeds_in feeds.items) periods result.stream) }
        ensures stands { IfErr result.part (λ _. result.stream ≡ self) }
        ensures cause { IfErr result.part (IsWantAmong workers) }
    {
        let Stream {
            accepted,
            totals,
            is_over: _,
        } = self;
        // Called for the prover: what the graph keeps.
        let _ = accepted.graph();
        let is_exact = are_exact(&accepted, &feeds, periods);
        let options = RunOptions {
            workers,
            how_long: Length::Periods(periods),
            firings: None,
            room: Room::Least,
            keeping: Keeping::NotKept,
        };
        let Host { rt, alloc } = host;
        let request = RunRequest::new(Fed { accepted, feeds }, options);
        let Ran { fed, outcome } = watched_outcome_of(rt, alloc, request, watch);
        let Fed { accepted, feeds } = fed;
        match outcome {
            Ok(outcome) => {
                let (stream, part) = Stream::after(accepted, totals, outcome, is_exact);
                Stretch {
                    stream,
                    feeds,
                    part: Ok(part),
                }
            }
            Err(fault) => Stretch {
                stream: Stream {
                    accepted,
                    totals,
                    is_over: false,
                },
                feeds,
                part: Err(fault),
            },
        }
    }
}
