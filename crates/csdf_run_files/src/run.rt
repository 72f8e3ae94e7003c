//! A run of a graph file over the token files of a folder.

ghost use Rattle.std.specs.Prelude.{◌≡◌, ◌≢◌, ◌⊎◌, ◌≤◌, ◌++◌, ℕ, List, [], true, Err, is_some, length, map, option_map, option_to_list, slice_index_or, IfErr, IfOk, OnErr, OnOk};
ghost use Rattle.csdf_model.specs.Graph.{Graph as GraphModel, actor_view};
ghost use Rattle.csdf_graph.specs.GraphText.{IsGraphOf};
ghost use Rattle.csdf_core.specs.Planned.{is_source_kernel};
ghost use Rattle.csdf_run.specs.Scripts.{kept_script};
ghost use Rattle.csdf_run.specs.Tokens.{AreReadOf, IsGraphRun, IsSequentialGraphRun, read_in, told_at, with_last};
ghost use Rattle.csdf_floor.specs.Work.{feeds_in};
ghost use Rattle.csdf_words.specs.CommandLine.{order_view};
ghost use Rattle.csdf_disk.specs.Acts.{Act, Asks, OnlyReads, devices, marks};
ghost use Rattle.csdf_disk.specs.Contents.{told_tokens};
ghost use Rattle.csdf_files.specs.GraphFiles.{is_input};
ghost use Rattle.csdf_told.specs.Reports.{TellsReport};
ghost use Rattle.csdf_run_files.specs.Running.{AreNamedAlike, EndsBeforeFiles, EndsOnFiles, IsCutShort, IsFeedOf, IsKeptFrom, IsReadAll, LacksFeed, RefusesGraphRun, RunsOn, RunsOnFiles};
ghost use Rattle.csdf_files.specs.Files.{IsFeedMissing};
ghost use Rattle.csdf_run_files.specs.Running.{file_view, files_of, journal_files, put_whole, run_asks, sink_files_from, token_fault, tokens_fault};
ghost use Rattle.csdf_files.specs.Places.{Apart, listed_files};

use csdf_answers::{DeviceName, Form, Name, ToolFault, accept_fault};
use csdf_bytes::{Intake, Outlet, TokenFault, write_bytes};
use csdf_disk::{Content, Disk};
use csdf_files::{feed_tokens, graph_bytes, keep_apart, put_file};
use csdf_floor::{Outcome, list_at, printed_report};
use csdf_graph::read_graph;
use csdf_model::{Actor, Graph, MAX_ACTORS, actor_name};
use csdf_run::{FeedFault, Host, RunOptions, TokensFault, TokensRun, kept_script, run_tokens};
use csdf_told::{Progress, chosen, report_object, run_fault, workers_for};
use csdf_words::RunWords;
use std::alloc::{AllocError, Global};
use std::sync::Wait;
use std::thread::Threads;

/// The tokens of an actor's token file, where it is a source; else none.
fn actor_tokens<D: Disk>(
    alloc: Global,
    disk: &mut D,
    folder: &str,
    actor: &Actor,
) -> Result<Result<Vec<i32>, TokenFault>, ToolFault>
    ensures read { IfOk result (λ told. IsFeedOf folder.now (actor_view actor.now) (D.acts disk.old) (D.acts disk.new) (told_tokens told)) }
    ensures only { OnErr result (OnlyReads (D.acts disk.old) (D.acts disk.new)) }
    ensures missing { IfErr result (λ fault. (fault ≡ ToolFault.Memory) ⊎ ((is_source_kernel (actor_view actor.now).kernel ≡ true)
        × IsFeedMissing folder.now (actor_view actor.now).name (D.acts disk.old) (D.acts disk.new) fault)) }
{
    if !actor.kernel.is_source() {
        return Ok(Ok(Vec::new(alloc)));
    }
    feed_tokens(alloc, disk, folder, actor.name.as_str())
}

/// What was read for the actors before one, and then what was read for that one. The first fault stays.
fn with_feed(
    feeds: Result<Vec<Vec<i32>>, FeedFault>,
    actor: u32,
    told: Result<Vec<i32>, TokenFault>,
) -> Result<Result<Vec<Vec<i32>>, FeedFault>, AllocError>
    ensures { IfOk result (λ more. read_in more ≡ with_last (read_in feeds) (told_at actor (told_tokens told))) }
{
    let mut feeds = match feeds {
        Ok(feeds) => feeds,
        Err(fault) => return Ok(Err(fault)),
    };
    match told {
        Ok(feed) => {
            feeds.push(feed)?;
            Ok(Ok(feeds))
        }
        Err(fault) => Ok(Err(FeedFault { actor, fault })),
    }
}

/// The tokens of the token file of each source, in file order, and none for any other actor; or the first
/// source whose file has a faulty line. All files are read, also behind that one.
fn read_feeds<D: Disk>(
    alloc: Global,
    disk: &mut D,
    folder: &str,
    actors: &[Actor],
) -> Result<Result<Vec<Vec<i32>>, FeedFault>, ToolFault>
    requires { length actors.now ≤ MAX_ACTORS }
    ensures read { IfOk result (λ feeds. (texts : List (List ℕ)) × IsReadAll folder.now (map actor_view actors.now) (D.acts disk.old) (D.acts disk.new) texts
        × AreReadOf (map actor_view actors.now) texts feeds) }
    ensures only { OnErr result (OnlyReads (D.acts disk.old) (D.acts disk.new)) }
    ensures missing { IfErr result (λ fault. (fault ≡ ToolFault.Memory) ⊎ ((acts : List Act) × Asks (D.acts disk.old) (D.acts disk.new) acts
        × LacksFeed folder.now (map actor_view actors.now) acts fault)) }
{
    let mut feeds = Ok(Vec::new(alloc));
    for (number, actor) in actors.iter().enumerate() {
        let told = actor_tokens(alloc, disk, folder, actor)?;
        feeds = with_feed(feeds, number as u32, told)?;
    }
    Ok(feeds)
}

/// Why the token file of a source is refused, as the program tells it.
fn token_fault(alloc: Global, source: &str, fault: TokenFault) -> Result<ToolFault, AllocError>
    ensures { IfOk result (λ told. told ≡ token_fault source.now fault) }
{
    let name = Name::new(alloc, source)?;
    match fault {
        TokenFault::Syntax(line) => Ok(ToolFault::TokenSyntax(name, u64::from(line))),
        TokenFault::Range(line) => Ok(ToolFault::TokenRange(name, u64::from(line))),
        TokenFault::TooMany => Ok(ToolFault::TooManyTokens(name)),
        TokenFault::Memory => Ok(ToolFault::Memory),
        TokenFault::Read => {
            let file = Name::with_ending(alloc, source, ".in")?;
            Ok(ToolFault::Device(DeviceName::File(file)))
        }
    }
}

/// Why tokens make no run, as the program tells it: actors and channels by their names.
fn tokens_fault(alloc: Global, graph: &Graph, fault: TokensFault) -> Result<ToolFault, AllocError>
    ensures { IfOk result (λ told. told ≡ tokens_fault graph.now fault) }
{
    match fault {
        TokensFault::Accept(fault) => accept_fault(alloc, graph, fault),
        TokensFault::Feed(feed) => {
            token_fault(
                alloc,
                actor_name(graph.actors(), feed.actor as usize),
                feed.fault,
            )
        }
        TokensFault::Run(fault) => Ok(run_fault(fault)),
    }
}

/// The graph of a run as it was handed back, and the outcome.
#[derive(Drop)]
struct RunOfGraph {
    graph: Graph,
    outcome: Outcome,
}

/// Runs a graph over the tokens of its sources' token files.
fn ran_over<R: AllocGlobal + Eprint + Threads + Wait + Sync>(
    rt: &R,
    graph: Graph,
    feeds: Result<Vec<Vec<i32>>, FeedFault>,
    order: RunWords<'_>,
) -> Result<RunOfGraph, ToolFault>
    requires read { (texts : List (List ℕ)) × AreReadOf graph.actors texts feeds }
    ensures told { (texts : List (List ℕ)) → AreReadOf graph.actors texts feeds
        → IfOk result (λ ran. IsGraphRun order.entry.options.room graph texts order.entry.options.how_long order.entry.options.firings ran.outcome) }
    ensures sequential { (texts : List (List ℕ)) → AreReadOf graph.actors texts feeds
        → IfOk result (λ ran. IsSequentialGraphRun order.entry.options.room graph texts order.entry.options.how_long order.entry.options.firings ran.outcome) }
    ensures kept { IfOk result (λ ran. ran.outcome.journal.keeps ≡ is_some order.entry.journal) }
    ensures alike { IfOk result (λ ran. AreNamedAlike graph ran.graph) }
    ensures refused { (texts : List (List ℕ)) → AreReadOf graph.actors texts feeds
        → IfErr result (λ fault. fault ≢ ToolFault.Memory → RefusesGraphRun order.entry.options.room graph texts fault) }
{
    let alloc = rt.alloc();
    let asked = order.options;
    let workers = workers_for(rt, alloc, order.workers, &graph, asked.room)?;
    let crew = chosen(order.workers, workers);
    let progress = Progress::new(rt, order.progress, crew);
    let options = RunOptions { workers, ..asked };
    let TokensRun { graph, outcome } = run_tokens(
        Host { rt, alloc },
        graph,
        feeds,
        options,
        &progress,
    );
    progress.end();
    match outcome {
        Ok(outcome) => Ok(RunOfGraph { graph, outcome }),
        Err(fault) => Err(tokens_fault(alloc, &graph, fault)?),
    }
}

/// Runs a graph over the tokens of its sources' token files, where no file that it is to write is in use.
fn ran_apart<R: AllocGlobal + Eprint + Threads + Wait + Sync, D: Disk>(
    rt: &R,
    disk: &mut D,
    graph: Graph,
    feeds: Result<Vec<Vec<i32>>, FeedFault>,
    order: RunWords<'_>,
) -> Result<RunOfGraph, ToolFault>
    requires read { (texts : List (List ℕ)) × AreReadOf graph.actors texts feeds }
    ensures told { (texts : List (List ℕ)) → AreReadOf graph.actors texts feeds
        → IfOk result (λ ran. IsGraphRun order.entry.options.room graph texts order.entry.options.how_long order.entry.options.firings ran.outcome) }
    ensures sequential { (texts : List (List ℕ)) → AreReadOf graph.actors texts feeds
        → IfOk result (λ ran. IsSequentialGraphRun order.entry.options.room graph texts order.entry.options.how_long order.entry.options.firings ran.outcome) }
    ensures kept { IfOk result (λ ran. ran.outcome.journal.keeps ≡ is_some order.entry.journal) }
    ensures alike { IfOk result (λ ran. AreNamedAlike graph ran.graph) }
    ensures apart { OnOk result ((looks : List Act) × Asks (D.acts disk.old) (D.acts disk.new) looks × Apart (listed_files (order_view order.entry) graph.actors) looks) }
    ensures refused { (texts : List (List ℕ)) → AreReadOf graph.actors texts feeds
        → IfErr result (λ fault. (fault ≡ ToolFault.Memory) ⊎ ((looks : List Act) × Asks (D.acts disk.old) (D.acts disk.new) looks
        × IsKeptFrom (order_view order.entry) graph texts looks fault)) }
    ensures only { OnErr result (OnlyReads (D.acts disk.old) (D.acts disk.new)) }
{
    keep_apart(rt.alloc(), disk, order, graph.actors())?;
    ran_over(rt, graph, feeds, order)
}

/// Reads the files of a run, and runs.
fn ran_by<R: AllocGlobal + Eprint + Threads + Wait + Sync, D: Disk, I: Intake>(
    rt: &R,
    disk: &mut D,
    order: RunWords<'_>,
    reader: &mut I,
) -> Result<RunOfGraph, ToolFault>
    ensures ran { IfOk result (λ ran. (graph : GraphModel) × (bytes : List ℕ) × (feeds : List (List ℕ))
        × RunsOn (order_view order.entry) (I.left reader.old) graph bytes feeds ran.outcome
        × AreNamedAlike graph ran.graph × (looks : List Act) × Apart (listed_files (order_view order.entry) graph.actors) looks
        × Asks (D.acts disk.old) (D.acts disk.new) (run_asks (order_view order.entry) graph bytes feeds looks)) }
    ensures stopped { IfErr result (EndsBeforeFiles (order_view order.entry) (devices (I.left reader.old) (D.acts disk.old) (D.acts disk.new))
        (I.failed reader.new)) }
    ensures input { is_input order.entry.graph.now ≡ true → I.failed reader.new ≡ true → result ≡ Err (ToolFault.Device DeviceName.Input) }
    ensures other { IfErr result (λ fault. fault ≢ ToolFault.Device DeviceName.Output) }
{
    let alloc = rt.alloc();
    let bytes = graph_bytes(alloc, disk, order.graph, reader)?;
    let graph = read_graph(alloc, &bytes)?;
    let feeds = read_feeds(alloc, disk, order.folder, graph.actors())?;
    ran_apart(rt, disk, graph, feeds, order)
}

/// A file that is to be put: its folder, its name there and its content.
#[derive(Drop)]
struct SinkFile<'a> {
    folder: &'a str,
    name: Name,
    content: Content<'a>,
}

/// The file of each sink in the folder that is asked for, in file order.
fn sink_files<'a>(
    alloc: Global,
    order: RunWords<'a>,
    actors: &[Actor],
    lists: &'a [Vec<i32>],
) -> Result<Vec<SinkFile<'a>>, AllocError>
    ensures { IfOk result (λ files. map file_view files.items
        ≡ sink_files_from 0 (order_view order.entry).sink_folder (map actor_view actors.now) (feeds_in lists.entry.now)) }
{
    let folder = order.sink_folder;
    let mut files = Vec::new(alloc);
    for (number, actor) in actors.iter().enumerate() {
        if actor.kernel.is_sink() {
            let name = Name::with_ending(alloc, actor.name.as_str(), ".out")?;
            let content = Content::Tokens(list_at(lists, number));
            files.push(SinkFile {
                folder,
                name,
                content,
            })?;
        }
    }
    Ok(files)
}

/// The file of the moves, where one is asked for and they were kept.
fn journal_file<'a>(
    alloc: Global,
    path: Option<&'a str>,
    moves: Option<&'a [u8]>,
) -> Result<Option<SinkFile<'a>>, AllocError>
    ensures { IfOk result (λ file. option_to_list (option_map file_view file)
        ≡ journal_files (option_map (λ p. p.now) path.entry) (option_map (λ m. m.now) moves.entry)) }
{
    let Some(path) = path else {
        return Ok(None);
    };
    let Some(moves) = moves else {
        return Ok(None);
    };
    let name = Name::new(alloc, path)?;
    Ok(Some(SinkFile {
        folder: "",
        name,
        content: Content::Bytes(moves),
    }))
}

/// The files that a run writes: those of the sinks, and then that of its moves.
fn files_of<'a>(
    alloc: Global,
    order: RunWords<'a>,
    ran: &'a RunOfGraph,
    moves: Option<&'a [u8]>,
) -> Result<Vec<SinkFile<'a>>, AllocError>
    ensures { IfOk result (λ files. map file_view files.items
        ≡ sink_files_from 0 (order_view order.entry).sink_folder ran.entry.now.graph.actors (feeds_in ran.entry.now.outcome.sinks.items)
        ++ journal_files (order_view order.entry).journal (option_map (λ m. m.now) moves.entry)) }
{
    let mut files = sink_files(alloc, order, ran.graph.actors(), &ran.outcome.sinks)?;
    if let Some(file) = journal_file(alloc, order.journal, moves)? {
        files.push(file)?;
    }
    Ok(files)
}

/// Puts each file in its place, in order.
fn put_files<D: Disk>(alloc: Global, disk: &mut D, files: &[SinkFile<'_>]) -> Result<(), ToolFault>
    ensures put { OnOk result (Asks (D.acts disk.old) (D.acts disk.new) (map put_whole (map file_view files.now))) }
    ensures cut { IfErr result (λ fault. (acts : List Act) × Asks (D.acts disk.old) (D.acts disk.new) acts
        × IsCutShort (map file_view files.now) acts fault) }
{
    for file in files {
        put_file(alloc, disk, file.folder, &file.name, file.content)?;
    }
    Ok(())
}

/// The files of a run, where memory suffices, and puts them in their places.
fn put_listed<D: Disk>(
    alloc: Global,
    disk: &mut D,
    order: RunWords<'_>,
    ran: &RunOfGraph,
    moves: Option<&[u8]>,
) -> Result<(), ToolFault>
    ensures put { option_map (λ m. m.now) moves.entry ≡ kept_script ran.now.graph ran.now.outcome.journal → OnOk result (Asks (D.acts disk.old) (D.acts disk.new)
        (map put_whole (files_of (order_view order.entry) ran.now.graph ran.now.outcome))) }
    ensures cut { option_map (λ m. m.now) moves.entry ≡ kept_script ran.now.graph ran.now.outcome.journal → IfErr result (λ fault. (acts : List Act)
        × Asks (D.acts disk.old) (D.acts disk.new) acts × IsCutShort (files_of (order_view order.entry) ran.now.graph ran.now.outcome) acts fault) }
{
    match files_of(alloc, order, ran, moves) {
        Ok(files) => put_files(alloc, disk, &files),
        Err(_) => Err(ToolFault::Memory),
    }
}

/// Puts what each sink took in the place of its file, in file order, and then the moves in that of
/// theirs.
fn put_sinks<D: Disk>(
    alloc: Global,
    disk: &mut D,
    order: RunWords<'_>,
    ran: &RunOfGraph,
) -> Result<(), ToolFault>
    ensures put { OnOk result (Asks (D.acts disk.old) (D.acts disk.new)
        (map put_whole (files_of (order_view order.entry) ran.now.graph ran.now.outcome))) }
    ensures cut { IfErr result (λ fault. (acts : List Act) × Asks (D.acts disk.old) (D.acts disk.new) acts
        × IsCutShort (files_of (order_view order.entry) ran.now.graph ran.now.outcome) acts fault) }
{
    match kept_script(alloc, &ran.graph, &ran.outcome.journal) {
        Ok(Some(moves)) => put_listed(alloc, disk, order, ran, Some(&moves)),
        Ok(None) => put_listed(alloc, disk, order, ran, None),
        Err(_) => Err(ToolFault::Memory),
    }
}

/// The report of a run in a form.
fn report_in(alloc: Global, form: Form, ran: &RunOfGraph) -> Result<Vec<u8>, AllocError>
    ensures { IfOk result (λ text. TellsReport form ran.now.graph ran.now.outcome text.items) }
{
    match form {
        Form::Text => Ok(printed_report(alloc, &ran.graph, &ran.outcome)?.into_bytes()),
        Form::Json => report_object(alloc, &ran.graph, ran.outcome.ending, &ran.outcome.report),
    }
}

/// Runs the graph of a file, or of standard input, over the token files of a folder: puts what each
/// sink took in its file, and then writes the report.
pub fn run_files<R: AllocGlobal + Eprint + Threads + Wait + Sync, D: Disk, I: Intake, O: Outlet>(
    rt: &R,
    disk: &mut D,
    order: RunWords<'_>,
    reader: &mut I,
    out: &mut O,
) -> Result<(), ToolFault>
    ensures written { OnOk result (RunsOnFiles (order_view order.entry) (devices (I.left reader.old) (D.acts disk.old) (D.acts disk.new))
        (O.written out.old) (O.written out.new)) }
    ensures unwritten { IfErr result (λ fault. fault ≢ ToolFault.Device DeviceName.Output → out.new ≡ out.old) }
    ensures failed { result ≡ Err (ToolFault.Device DeviceName.Output) → O.failed out.new ≡ true }
    ensures ended { IfErr result (EndsOnFiles (order_view order.entry) (devices (I.left reader.old) (D.acts disk.old) (D.acts disk.new))
        (marks (I.failed reader.new) (O.failed out.new))) }
    ensures input { is_input order.entry.graph.now ≡ true → I.failed reader.new ≡ true → result ≡ Err (ToolFault.Device DeviceName.Input) }
{
    let ran = ran_by(rt, disk, order, reader)?;
    let report = report_in(rt.alloc(), order.form, &ran)?;
    put_sinks(rt.alloc(), disk, order, &ran)?;
    match write_bytes(out, &report) {
        Ok(()) => Ok(()),
        Err(_) => Err(ToolFault::Device(DeviceName::Output)),
    }
}
