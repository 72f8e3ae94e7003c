//! A run from texts to texts.

ghost use Rattle.std.specs.Prelude.{◌≡◌, ◌++◌, ◌∷◌, ◌≤◌, ℕ, [], Bool, Ok, Err, IfErr, IfOk, OnOk, is_some, length, map, option_map, slice_index_or, string_bytes};
ghost use Rattle.csdf_model.specs.Graph.{actor_view};
ghost use Rattle.csdf_bytes.specs.TokenText.{token_line, token_text};
ghost use Rattle.csdf_analysis.specs.Room.{HasSomePeriod};
ghost use Rattle.csdf_run.specs.Texts.{AreTextsOf, IsFeedFault, IsGraphRefusal, IsHandedBack, IsReadFault, IsRefusal, IsRunCause, MayGoOn, MayGraphGoOn, TellOutcome};
ghost use Rattle.csdf_run.specs.Texts.{TellGraphRun, TellGraphSameInAnyRoom, TellRun, TellSameInAnyRoom, TellSequentialGraphRun, TellSequentialRun};
ghost use Rattle.csdf_run.specs.Texts.{feed_in, feeds_from, sink_texts, source_count, texts_in, work_for};
ghost use Rattle.csdf_floor.specs.declared.outcome.Outcome.{Outcome as OutcomeCode};
ghost use Rattle.csdf_floor.specs.Report.{names_of, report_text};
ghost use Rattle.csdf_floor.specs.Outcome.{IsOutcome};
ghost use Rattle.csdf_floor.specs.Work.{AreFeeds, Work, feeds_in};
ghost use Rattle.csdf_journal.specs.View.{is_kept};
ghost use Rattle.csdf_run.specs.Scripts.{kept_script};

use crate::host::Host;
use crate::options::RunOptions;
use crate::request::RunRequest;
use crate::running::outcome_of;
use crate::script::kept_script;
use csdf_analysis::{AcceptFault, Length, Room, accept_or_hand_back};
use csdf_bytes::{Slice, TokenFault, read_tokens};
use csdf_crew::{Gate, Open};
use csdf_floor::{ChannelReport, Ending, Fed, Outcome, RunFault, Settled, list_at, printed_report};
use csdf_graph::{GraphFault, read_graph};
use csdf_journal::Keeping;
use csdf_model::{Actor, Graph, MAX_ACTORS};
use std::alloc::{AllocError, Global};
use std::sync::Wait;
use std::thread::Threads;
use thiserror::Error;

/// What is told of a run.
#[derive(Debug, Drop)]
pub struct Texts {
    /// Why no firing follows.
    pub ending: Ending,
    /// The tokens that each sink took, in order, one a line; one text for each sink, in file order.
    pub sinks: Vec<Vec<u8>>,
    /// The printed report.
    pub report: Vec<u8>,
    /// What the report tells of each channel, in file order.
    pub channels: Vec<ChannelReport>,
    /// The run's moves as the table `script` of a graph file, where they were asked for.
    pub journal: Option<Vec<u8>>,
}

/// Why texts make no run: the first that applies.
///
/// Want of memory is told where it was met.
#[derive(Clone, Copy, Debug, PartialEq, Eq, Error)]
pub enum TextsFault {
    /// The graph file is refused.
    #[error("{0}")]
    Graph(GraphFault),
    /// Its graph is not accepted.
    #[error("{0}")]
    Accept(AcceptFault),
    /// There is not one text for each source.
    #[error("there is not one text for each source")]
    FeedCount,
    /// The text of this source, the first such one, is refused.
    #[error("tokens of actor {0}: {1}")]
    Feed(u32, TokenFault),
    /// The run has no outcome.
    #[error("{0}")]
    Run(RunFault),
}

/// What came of a run of a graph, and the graph, which is handed back.
#[derive(Drop)]
pub struct GraphRun {
    /// The graph that was handed in. Once it was accepted, its channels have their room as capacities;
    /// nothing else of it changes.
    pub graph: Graph,
    /// What is told of the run, or why there is none.
    pub texts: Result<Texts, TextsFault>,
}

/// How many sources there are.
fn source_count(actors: &[Actor]) -> usize
    requires { length actors.now ≤ MAX_ACTORS }
    ensures { result ≡ source_count (map actor_view actors.now) }
{
    let mut count = 0;
    for actor in actors {
        if actor.kernel.is_source() {
            count += 1;
        }
    }
    count
}

/// The text with this number; the empty text where there is none.
fn text_at(texts: &[Vec<u8>], number: usize) -> &[u8]
    ensures { result.now ≡ slice_index_or (texts_in texts.now) number [] }
{
    match texts.get(number) {
        Some(text) => text.as_slice(),
        None => &[],
    }
}

/// The tokens in the text of the actor.
fn feed_of(alloc: Global, actor: u32, text: &[u8]) -> Result<Vec<i32>, TextsFault>
    ensures tokens { IfOk result (λ feed. feed_in actor text.now ≡ Ok feed.items) }
    ensures refused { IfErr result (IsReadFault (feed_in actor text.now)) }
{
    match read_tokens(alloc, &mut Slice::new(text)) {
        Ok(feed) => Ok(feed),
        Err(fault) => Err(TextsFault::Feed(actor, fault)),
    }
}

/// Appends the tokens for the actor.
fn push_feed(feeds: &mut Vec<Vec<i32>>, actor: u32, feed: Vec<i32>) -> Result<(), TextsFault>
    ensures pushed { OnOk result (feeds_in feeds.new.items ≡ feeds_in feeds.old.items ++ feed.items ∷ []) }
    ensures refused { IfErr result (λ fault. fault ≡ TextsFault.Feed actor TokenFault.Memory) }
{
    match feeds.push(feed) {
        Ok(()) => Ok(()),
        Err(_) => Err(TextsFault::Feed(actor, TokenFault::Memory)),
    }
}

/// The tokens for each actor, from one text for each source.
fn feeds_of(alloc: Global, actors: &[Actor], texts: &[Vec<u8>]) -> Result<Vec<Vec<i32>>, TextsFault>
    requires { length actors.now ≤ MAX_ACTORS }
    ensures feeds { IfOk result (λ feeds. feeds_from 0 (map actor_view actors.now) (texts_in texts.now) ≡ Ok (feeds_in feeds.items)) }
    ensures refused { IfErr result (IsReadFault (feeds_from 0 (map actor_view actors.now) (texts_in texts.now))) }
{
    let mut feeds = Vec::new(alloc);
    let mut next = 0;
    for (number, actor) in actors.iter().enumerate() {
        if actor.kernel.is_source() {
            let feed = feed_of(alloc, number as u32, text_at(texts, next))?;
            push_feed(&mut feeds, number as u32, feed)?;
            next += 1;
        } else {
            push_feed(&mut feeds, number as u32, Vec::new(alloc))?;
        }
    }
    Ok(feeds)
}

/// The tokens for each actor of the graph, where there is one text for each source.
fn counted_feeds(
    alloc: Global,
    graph: &Graph,
    texts: &[Vec<u8>],
) -> Result<Vec<Vec<i32>>, TextsFault>
    ensures each_source { OnOk result (length texts.now ≡ source_count graph.now.actors) }
    ensures feeds { IfOk result (λ feeds. feeds_from 0 graph.now.actors (texts_in texts.now) ≡ Ok (feeds_in feeds.items)) }
    ensures refused { IfErr result (IsFeedFault graph.now.actors (texts_in texts.now)) }
{
    let actors = graph.actors();
    if texts.len() != source_count(actors) {
        return Err(TextsFault::FeedCount);
    }
    feeds_of(alloc, actors, texts)
}

/// A graph that is handed back, and why there are no tokens for its actors.
#[derive(Drop)]
struct UnfedTexts {
    graph: Graph,
    fault: TextsFault,
}

/// The graph, accepted with this room, and the tokens in the texts for its sources.
fn fed_of(alloc: Global, graph: Graph, texts: &[Vec<u8>], room: Room) -> Result<Fed, UnfedTexts>
    requires { HasSomePeriod room }
    ensures read { IfOk result (λ fed. AreTextsOf room graph (texts_in texts.now) fed.accepted (feeds_in fed.feeds.items)) }
    ensures graph { IfErr result (λ unfed. IsHandedBack room graph unfed.graph) }
    ensures refused { IfErr result (λ unfed. IsGraphRefusal room graph (texts_in texts.now) unfed.fault) }
    ensures cause { IfErr result (λ unfed. (n : ℕ) → IsRunCause n unfed.fault) }
{
    let accepted = match accept_or_hand_back(alloc, graph, room) {
        Ok(accepted) => accepted,
        Err(refused) => {
            return Err(UnfedTexts {
                graph: refused.graph,
                fault: TextsFault::Accept(refused.fault),
            });
        }
    };
    match counted_feeds(alloc, accepted.graph(), texts) {
        Ok(feeds) => Ok(Fed { accepted, feeds }),
        Err(fault) => Err(UnfedTexts {
            graph: accepted.into_graph(),
            fault,
        }),
    }
}

/// Appends a token's line.
fn push_token(text: &mut String, token: i32) -> Result<(), AllocError>
    ensures { OnOk result (string_bytes text.new ≡ string_bytes text.old ++ token_line token) }
{
    write!(text, "{token}\n")
}

/// The written text of tokens.
fn text_of(alloc: Global, tokens: &[i32]) -> Result<Vec<u8>, AllocError>
    ensures { IfOk result (λ text. text.items ≡ token_text tokens.now) }
{
    let mut text = String::new(alloc);
    for token in tokens {
        push_token(&mut text, *token)?;
    }
    Ok(text.into_bytes())
}

/// The written text of each sink's list.
fn sink_texts(
    alloc: Global,
    actors: &[Actor],
    lists: &[Vec<i32>],
) -> Result<Vec<Vec<u8>>, AllocError>
    ensures { IfOk result (λ texts. texts_in texts.items ≡ sink_texts (map actor_view actors.now) (feeds_in lists.now)) }
{
    let mut texts = Vec::new(alloc);
    for (number, actor) in actors.iter().enumerate() {
        if actor.kernel.is_sink() {
            texts.push(text_of(alloc, list_at(lists, number))?)?;
        }
    }
    Ok(texts)
}

/// What is told of an outcome.
fn texts_of(alloc: Global, graph: &Graph, outcome: &Outcome) -> Result<Texts, AllocError>
    ensures ending { IfOk result (λ texts. texts.ending ≡ outcome.now.ending) }
    ensures sinks { IfOk result (λ texts. texts_in texts.sinks.items ≡ sink_texts graph.now.actors (feeds_in outcome.now.sinks.items)) }
    ensures report { IfOk result (λ texts. texts.report.items ≡ report_text (names_of graph.now.channels) outcome.now.ending outcome.now.report.items) }
    ensures channels { IfOk result (λ texts. texts.channels.items ≡ outcome.now.report.items) }
    ensures journal { IfOk result (λ texts. option_map (λ t. t.items) texts.journal ≡ kept_script graph.now outcome.now.journal) }
{
    let sinks = sink_texts(alloc, graph.actors(), &outcome.sinks)?;
    let report = printed_report(alloc, graph, outcome)?;
    let channels = Vec::from_slice(alloc, &outcome.report)?;
    let journal = kept_script(alloc, graph, &outcome.journal)?;
    Ok(Texts {
        ending: outcome.ending,
        sinks,
        report: report.into_bytes(),
        channels,
        journal,
    })
}

/// What is told of an outcome, where there is one.
fn texts_where(
    alloc: Global,
    graph: &Graph,
    outcome: Result<Outcome, RunFault>,
) -> Result<Texts, RunFault>
    ensures told { (w : Work) → w.accepted.graph ≡ graph.now → IfOk outcome (IsOutcome w)
        → IfOk result (λ texts. (o : OutcomeCode) × TellOutcome w o texts) }
    ensures kept { (keeps : Bool) → IfOk outcome (λ o. o.journal.keeps ≡ keeps) → IfOk result (λ texts. is_some texts.journal ≡ keeps) }
    ensures failed { IfErr outcome (λ why. result ≡ Err why) }
    ensures memory { OnOk outcome (IfErr result (λ why. why ≡ RunFault.Memory)) }
{
    let outcome = outcome?;
    let texts = texts_of(alloc, graph, &outcome)?;
    Ok(texts)
}

/// What is told of an outcome, or why there is none, as that of texts.
fn told_of(
    alloc: Global,
    graph: &Graph,
    outcome: Result<Outcome, RunFault>,
) -> Result<Texts, TextsFault>
    ensures told { (w : Work) → w.accepted.graph ≡ graph.now → IfOk outcome (IsOutcome w)
        → IfOk result (λ texts. (o : OutcomeCode) × TellOutcome w o texts) }
    ensures kept { (keeps : Bool) → IfOk outcome (λ o. o.journal.keeps ≡ keeps) → IfOk result (λ texts. is_some texts.journal ≡ keeps) }
    ensures failed { IfErr outcome (λ why. result ≡ Err (TextsFault.Run why)) }
    ensures memory { OnOk outcome (IfErr result (λ fault. fault ≡ TextsFault.Run RunFault.Memory)) }
{
    match texts_where(alloc, graph, outcome) {
        Ok(texts) => Ok(texts),
        Err(fault) => Err(TextsFault::Run(fault)),
    }
}

/// Runs so many periods of the graph of a file by worker threads, over one text of tokens for each
/// source, in file order. No actor may come to more than 16,384,000 firings in them, which holds of
/// 1,000 periods of any graph (see [`most_periods`](csdf_floor::most_periods)). With `firings` given, no
/// more firings than that are made. Channels have their least capacities.
///
/// The refusals come in the order of [`TextsFault`]: those of [`read_graph`], those of [`accept`], a
/// wrong number of texts, the first source whose text [`read_tokens`] refuses, and those of [`run`].
///
/// The sinks' texts do not depend on the number of workers: each is what its sink takes in the
/// sequential run (the determinacy of dataflow graphs: Lee and Messerschmitt 1987), or a front of it
/// where the limit on all firings or want of cells held the run back.
pub fn run_texts<R: Threads + Wait + Sync>(
    rt: &R,
    alloc: Global,
    graph: &[u8],
    feeds: &[Vec<u8>],
    workers: u32,
    periods: u32,
    firings: Option<u32>,
) -> Result<Texts, TextsFault>
    requires some_worker { 1 ≤ workers }
    requires few_workers { workers ≤ 8 }
    requires goes_on { MayGoOn Room.Least graph.now (Length.Periods periods) }
    ensures run { IfOk result (TellRun Room.Least graph.now (texts_in feeds.now) (Length.Periods periods) firings) }
    ensures sequential { IfOk result (TellSequentialRun Room.Least graph.now (texts_in feeds.now) (Length.Periods periods) firings) }
    ensures rooms { IfOk result (TellSameInAnyRoom graph.now (texts_in feeds.now) (Length.Periods periods)) }
    ensures refused { IfErr result (IsRefusal Room.Least graph.now (texts_in feeds.now)) }
    ensures cause { IfErr result (IsRunCause workers) }
{
    let options = RunOptions {
        workers,
        how_long: Length::Periods(periods),
        firings,
        room: Room::Least,
        keeping: Keeping::NotKept,
    };
    run_texts_with(Host { rt, alloc }, graph, feeds, options, &Open)
}

/// As [`run_texts`], for so many periods or until a source has run dry, where the channels that have no
/// capacity in the file have room, and each worker passes the gate as in [`run`](crate::run).
///
/// The refusals are those of [`run_texts`]: room is no cause of one. Where a run is complete, its sinks'
/// texts are those of every other complete run of the same file, texts and length, in whatever room.
pub fn run_texts_with<R: Threads + Wait + Sync, G: Gate>(
    host: Host<'_, R>,
    graph: &[u8],
    feeds: &[Vec<u8>],
    options: RunOptions,
    gate: &G,
) -> Result<Texts, TextsFault>
    requires some_worker { 1 ≤ options.workers }
    requires few_workers { options.workers ≤ 8 }
    requires some_room { HasSomePeriod options.room }
    requires goes_on { MayGoOn options.room graph.now options.how_long }
    ensures run { IfOk result (TellRun options.room graph.now (texts_in feeds.now) options.how_long options.firings) }
    ensures sequential { IfOk result (TellSequentialRun options.room graph.now (texts_in feeds.now) options.how_long options.firings) }
    ensures rooms { IfOk result (TellSameInAnyRoom graph.now (texts_in feeds.now) options.how_long) }
    ensures kept { IfOk result (λ texts. is_some texts.journal ≡ is_kept options.keeping) }
    ensures refused { IfErr result (IsRefusal options.room graph.now (texts_in feeds.now)) }
    ensures cause { IfErr result (IsRunCause options.workers) }
{
    match read_graph(host.alloc, graph) {
        Ok(graph) => run_graph_with(host, graph, feeds, options, gate),
        Err(fault) => Err(TextsFault::Graph(fault)),
    }
}

/// As [`run_texts_with`], of a graph that was read.
///
/// The refusals are those of `run_texts_with` but for those of the graph file, [`TextsFault::Graph`].
pub fn run_graph_with<R: Threads + Wait + Sync, G: Gate>(
    host: Host<'_, R>,
    graph: Graph,
    feeds: &[Vec<u8>],
    options: RunOptions,
    gate: &G,
) -> Result<Texts, TextsFault>
    requires some_worker { 1 ≤ options.workers }
    requires few_workers { options.workers ≤ 8 }
    requires some_room { HasSomePeriod options.room }
    requires goes_on { MayGraphGoOn options.room graph options.how_long }
    ensures run { IfOk result (TellGraphRun options.room graph (texts_in feeds.now) options.how_long options.firings) }
    ensures sequential { IfOk result (TellSequentialGraphRun options.room graph (texts_in feeds.now) options.how_long options.firings) }
    ensures rooms { IfOk result (TellGraphSameInAnyRoom graph (texts_in feeds.now) options.how_long) }
    ensures kept { IfOk result (λ texts. is_some texts.journal ≡ is_kept options.keeping) }
    ensures refused { IfErr result (IsGraphRefusal options.room graph (texts_in feeds.now)) }
    ensures cause { IfErr result (IsRunCause options.workers) }
{
    let GraphRun { graph: _, texts } = run_and_hand_back(host, graph, feeds, options, gate);
    texts
}

/// As [`run_graph_with`], and hands the graph back.
///
/// Names, kernels, rates and initial tokens of the graph that is handed back are those of the one that
/// was handed in. Where that one is not accepted, it is equal to it.
pub fn run_and_hand_back<R: Threads + Wait + Sync, G: Gate>(
    host: Host<'_, R>,
    graph: Graph,
    feeds: &[Vec<u8>],
    options: RunOptions,
    gate: &G,
) -> GraphRun
    requires some_worker { 1 ≤ options.workers }
    requires few_workers { options.workers ≤ 8 }
    requires some_room { HasSomePeriod options.room }
    requires goes_on { MayGraphGoOn options.room graph options.how_long }
    ensures graph { IsHandedBack options.room graph result.graph }
    ensures run { IfOk result.texts (TellGraphRun options.room graph (texts_in feeds.now) options.how_long options.firings) }
    ensures sequential { IfOk result.texts (TellSequentialGraphRun options.room graph (texts_in feeds.now) options.how_long options.firings) }
    ensures rooms { IfOk result.texts (TellGraphSameInAnyRoom graph (texts_in feeds.now) options.how_long) }
    ensures kept { IfOk result.texts (λ texts. is_some texts.journal ≡ is_kept options.keeping) }
    ensures refused { IfErr result.texts (IsGraphRefusal options.room graph (texts_in feeds.now)) }
    ensures cause { IfErr result.texts (IsRunCause options.workers) }
{
    let Host { rt, alloc } = host;
    let fed = match fed_of(alloc, graph, feeds, options.room) {
        Ok(fed) => fed,
        Err(unfed) => {
            return GraphRun {
                graph: unfed.graph,
                texts: Err(unfed.fault),
            };
        }
    };
    let request = RunRequest::new(fed, options);
    let Settled { fed, outcome } = outcome_of(rt, alloc, request, gate);
    let texts = told_of(alloc, fed.accepted.graph(), outcome);
    GraphRun {
        graph: fed.accepted.into_graph(),
        texts,
    }
}
