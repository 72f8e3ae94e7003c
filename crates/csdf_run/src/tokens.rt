//! A run over tokens that were read.

ghost use Rattle.std.specs.Prelude.{◌≡◌, ◌≤◌, ℕ, List, IfErr, IfOk};
ghost use Rattle.csdf_analysis.specs.Room.{HasSomePeriod};
ghost use Rattle.csdf_floor.specs.declared.outcome.Outcome.{Outcome as OutcomeCode};
ghost use Rattle.csdf_floor.specs.Work.{feeds_in};
ghost use Rattle.csdf_journal.specs.View.{is_kept};
ghost use Rattle.csdf_run.specs.Texts.{AreTextsOf, IsHandedBack, MayGraphGoOn};
ghost use Rattle.csdf_run.specs.Tokens.{AreReadOf, IsGraphRun, IsGraphRunSameInAnyRoom, IsSequentialGraphRun, IsTokensCause, IsTokensRefusal};

use crate::host::Host;
use crate::no_outcome::{NoOutcome, Ran};
use crate::options::RunOptions;
use crate::request::RunRequest;
use crate::running::watched_outcome_of;
use crate::watch::Watch;
use csdf_analysis::{AcceptFault, Room, accept_or_hand_back};
use csdf_bytes::TokenFault;
use csdf_floor::{Fed, Outcome};
use csdf_model::Graph;
use std::alloc::Global;
use std::sync::Wait;
use std::thread::Threads;
use thiserror::Error;

/// Why the text of a source holds no tokens.
#[derive(Clone, Copy, Debug, PartialEq, Eq, Error)]
#[error("tokens of actor {actor}: {fault}")]
pub struct FeedFault {
    /// The source, by its number in the graph.
    pub actor: u32,
    /// Why its text is refused.
    pub fault: TokenFault,
}

/// Why what was read makes no run: the first that applies.
#[derive(Clone, Copy, Debug, PartialEq, Eq, Error)]
pub enum TokensFault {
    /// The graph is not accepted.
    #[error("{0}")]
    Accept(AcceptFault),
    /// The text of a source, the first such one, is refused.
    #[error("{0}")]
    Feed(FeedFault),
    /// The run has no outcome.
    #[error("{0}")]
    Run(NoOutcome),
}

/// What came of a run over tokens, and the graph, which is handed back.
#[derive(Drop)]
pub struct TokensRun {
    /// The graph that was handed in. Once it was accepted, its channels have their room as capacities;
    /// nothing else of it changes.
    pub graph: Graph,
    /// The outcome of the run, or why there is none.
    pub outcome: Result<Outcome, TokensFault>,
}

/// A graph that is handed back, and why it is not run.
#[derive(Drop)]
struct UnfedTokens {
    graph: Graph,
    fault: TokensFault,
}

/// The graph, accepted with this room, and the tokens for its sources.
fn fed_with(
    alloc: Global,
    graph: Graph,
    feeds: Result<Vec<Vec<i32>>, FeedFault>,
    room: Room,
) -> Result<Fed, UnfedTokens>
    requires { HasSomePeriod room }
    ensures fed { (texts : List (List ℕ)) → AreReadOf graph.actors texts feeds
        → IfOk result (λ fed. AreTextsOf room graph texts fed.accepted (feeds_in fed.feeds.items)) }
    ensures graph { IfErr result (λ unfed. IsHandedBack room graph unfed.graph) }
    ensures refused { (texts : List (List ℕ)) → AreReadOf graph.actors texts feeds
        → IfErr result (λ unfed. IsTokensRefusal room graph texts unfed.fault) }
    ensures cause { IfErr result (λ unfed. (n : ℕ) → IsTokensCause n unfed.fault) }
{
    let accepted = match accept_or_hand_back(alloc, graph, room) {
        Ok(accepted) => accepted,
        Err(refused) => {
            return Err(UnfedTokens {
                graph: refused.graph,
                fault: TokensFault::Accept(refused.fault),
            });
        }
    };
    match feeds {
        Ok(feeds) => Ok(Fed { accepted, feeds }),
        Err(fault) => Err(UnfedTokens {
            graph: accepted.into_graph(),
            fault: TokensFault::Feed(fault),
        }),
    }
}

/// An outcome, or why there is none, as that of tokens.
fn told_of(outcome: Result<Outcome, NoOutcome>) -> Result<Outcome, TokensFault>
    ensures told { IfOk outcome (λ o. result ≡ Ok o) }
    ensures failed { IfErr outcome (λ why. result ≡ Err (TokensFault.Run why)) }
{
    match outcome {
        Ok(outcome) => Ok(outcome),
        Err(fault) => Err(TokensFault::Run(fault)),
    }
}

/// Runs a graph by worker threads over the tokens that were read for its actors, in file order and
/// none for one that is no source, and hands the graph back. Where the text of a source was refused,
/// the first such one is handed in, and is told once the graph was accepted.
///
/// The refusals come in the order of [`TokensFault`]: those of [`accept`](csdf_analysis::accept), the
/// text, and why the run itself has no outcome. The watch is told how far the run has come.
///
/// What the sinks take does not depend on the number of workers: it is what they take in the sequential
/// run (the determinacy of dataflow graphs: Lee and Messerschmitt 1987), or a front of it where the limit
/// on all firings or want of cells held the run back.
pub fn run_tokens<R: Threads + Wait + Sync, W: Watch>(
    host: Host<'_, R>,
    graph: Graph,
    feeds: Result<Vec<Vec<i32>>, FeedFault>,
    options: RunOptions,
    watch: &W,
) -> TokensRun
    requires some_worker { 1 ≤ options.workers }
    requires few_workers { options.workers ≤ 8 }
    requires some_room { HasSomePeriod options.room }
    requires goes_on { MayGraphGoOn options.room graph options.how_long }
    requires read { (texts : List (List ℕ)) × AreReadOf graph.actors texts feeds }
    ensures graph { IsHandedBack options.room graph result.graph }
    ensures run { (texts : List (List ℕ)) → AreReadOf graph.actors texts feeds
        → IfOk result.outcome (IsGraphRun options.room graph texts options.how_long options.firings) }
    ensures sequential { (texts : List (List ℕ)) → AreReadOf graph.actors texts feeds
        → IfOk result.outcome (IsSequentialGraphRun options.room graph texts options.how_long options.firings) }
    ensures rooms { (texts : List (List ℕ)) → AreReadOf graph.actors texts feeds
        → IfOk result.outcome (IsGraphRunSameInAnyRoom graph texts options.how_long) }
    ensures kept { IfOk result.outcome (λ o. o.journal.keeps ≡ is_kept options.keeping) }
    ensures refused { (texts : List (List ℕ)) → AreReadOf graph.actors texts feeds
        → IfErr result.outcome (IsTokensRefusal options.room graph texts) }
    ensures cause { IfErr result.outcome (IsTokensCause options.workers) }
{
    let Host { rt, alloc } = host;
    let fed = match fed_with(alloc, graph, feeds, options.room) {
        Ok(fed) => fed,
        Err(unfed) => {
            return TokensRun {
                graph: unfed.graph,
                outcome: Err(unfed.fault),
            };
        }
    };
    let request = RunRequest::new(fed, options);
    let Ran { fed, outcome } = watched_outcome_of(rt, alloc, request, watch);
    TokensRun {
        graph: fed.accepted.into_graph(),
        outcome: told_of(outcome),
    }
}
