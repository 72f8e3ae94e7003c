//! Crews of several workers that make the firings of a floor, beside the calling thread alone: of worked examples,
//! of random graphs and of filters whose blocks are heavy. Runs over tokens and texts start no threads where fewer
//! than two actors are heavy, so these call the crew themselves.

ghost use Rattle.std.specs.Prelude.{⊤};
ghost use Rattle.csdf_claims.specs.Board.{KeepsJust};

use crate::beside::Extent;
use crate::random_graphs::{Dice, sketch_of};
use crate::random_tests::{asked_of, extent_of};
use crate::shared::{Asked, accepted_in, asked_for, expect_eq, limited_floor};
use crate::{oracle_tests, run_tests};
use csdf_claims::{Board, Place};
use csdf_crew::{Crew, Gate, Told, run_alone, run_crew};
use csdf_floor::{ChannelReport, Ending, Floor, Outcome};
use csdf_journal::Keeping;
use csdf_model::MAX_ACTORS;
use std::alloc::Global;
use std::process::Abort;
use std::sync::Wait;
use std::sync::atomic::AtomicU64;
use std::sync::atomic::Ordering::SeqCst;
use std::test::Fail;
use std::thread::Threads;

/// How firings pass the gate.
#[derive(Clone, Copy)]
enum Pass {
    /// At once, so that several of an actor are made in one go.
    AtOnce,
    /// One by one.
    Singly,
    /// One by one, where a worker may have to wait: others are woken for whatever can begin.
    Waiting,
}

const PASSES: [Pass; 3] = [Pass::AtOnce, Pass::Singly, Pass::Waiting];

/// A gate that holds up no firing, and counts those that it is told of.
#[derive(Drop)]
struct Counting {
    pass: Pass,
    made: AtomicU64,
}

impl Counting {
    fn new(pass: Pass) -> Counting {
        Counting {
            pass,
            made: AtomicU64::new(0),
        }
    }
}

impl Gate for Counting {
    fn enter(&self, _board: &Board, _place: &mut Place, _actor: u32, _firing: u32) {}

    fn may_wait(&self) -> bool {
        matches!(self.pass, Pass::Waiting)
    }

    fn is_open(&self) -> bool {
        matches!(self.pass, Pass::AtOnce)
    }
}

impl Told for Counting {
    ghost knows_most = { λ _ _. ⊤ };

    ghost knows_made = { λ _ _. ⊤ };

    fn tell_most(&self, _most: u64) {}

    fn tell_made(&self, firings: u32) {
        self.made.fetch_add(u64::from(firings), SeqCst);
    }
}

/// What a run came to, and how many firings its gate was told of.
#[derive(Drop)]
struct Made {
    outcome: Outcome,
    firings: u64,
}

/// What is run: the text of a graph's file, what is asked for over it, and how far it goes.
#[derive(Drop)]
struct Work {
    graph: String,
    asked: Asked,
    extent: Extent,
}

fn floor_of(rt: &impl Abort, alloc: Global, work: &Work) -> Result<Floor, Fail> {
    let Extent { periods, firings } = work.extent;
    limited_floor(rt, alloc, &work.asked, periods, firings, Keeping::NotKept)
}

/// The run by the calling thread alone.
fn made_alone<R: Wait + Abort>(rt: &R, alloc: Global, work: &Work) -> Result<Made, Fail> {
    let mut floor = floor_of(rt, alloc, work)?;
    let gate = Counting::new(Pass::AtOnce);
    run_alone(rt, alloc, &mut floor, &gate)?;
    Ok(Made {
        outcome: floor.into_settled(alloc).outcome?,
        firings: gate.made.load(SeqCst),
    })
}

/// The run by a crew.
fn made_by<R: Threads + Wait + Abort + Sync>(
    rt: &R,
    alloc: Global,
    work: &Work,
    workers: u32,
    pass: Pass,
) -> Result<Made, Fail> {
    let floor = floor_of(rt, alloc, work)?;
    let actors = work.asked.accepted.graph().actors().len();
    assert!(rt; actors <= MAX_ACTORS);
    let gate = Counting::new(pass);
    let crew = Crew {
        actors: actors as u32,
        workers,
        busy: workers,
        may_wait: gate.may_wait(),
    };
    Ok(Made {
        outcome: run_crew(rt, alloc, floor, crew, &gate).outcome?,
        firings: gate.made.load(SeqCst),
    })
}

/// Tells what was written to each channel, taken from it and left in it, and whether it is open.
fn tell_channels(text: &mut String, reports: &[ChannelReport]) -> Result<(), Fail> {
    for report in reports {
        let (written, taken, held) = (report.written, report.taken, report.held);
        let is_open = report.is_open;
        write!(text, "{written} {taken} {held} {is_open}\n")?;
    }
    Ok(())
}

/// All that is told of a run, but for the peaks of its channels.
fn told_of(alloc: Global, made: &Made) -> Result<String, Fail> {
    let (outcome, firings) = (&made.outcome, made.firings);
    let (ending, sinks, left) = (outcome.ending, &outcome.sinks, &outcome.left);
    let mut text = format!(in alloc; "{ending:?} {firings}\n{sinks:?}\n{left:?}\n")?;
    tell_channels(&mut text, &outcome.report)?;
    Ok(text)
}

/// Whether nothing but the peaks depends on the order of the firings.
fn is_whole(made: &Made) -> bool {
    matches!(made.outcome.ending, Ending::Complete | Ending::Dry)
}

/// Asserts that each sink took a beginning of what it took in the other run, or the other way round.
fn check_fronts(rt: &impl Abort, found: &[Vec<i32>], wanted: &[Vec<i32>]) {
    for (sink, other) in found.iter().zip(wanted) {
        let count = sink.len().min(other.len());
        expect_eq(rt, &sink[..count], &other[..count]);
    }
}

/// Asserts that a run is as another one: the same where both are whole. A graph that says how many cells
/// there are may starve in one order and not in another.
fn check_same(
    rt: &impl Abort,
    alloc: Global,
    graph: &str,
    found: &Made,
    wanted: &Made,
) -> Result<(), Fail> {
    if is_whole(found) && is_whole(wanted) {
        let (told, want) = (told_of(alloc, found)?, told_of(alloc, wanted)?);
        expect_eq(rt, (graph, told.as_str()), (graph, want.as_str()));
    } else if !graph.contains("cells") {
        let (ending, other) = (found.outcome.ending, wanted.outcome.ending);
        expect_eq(rt, (graph, ending), (graph, other));
    }
    check_fronts(rt, &found.outcome.sinks, &wanted.outcome.sinks);
    Ok(())
}

/// Runs the work by so many workers, in each way, and compares it with a run.
fn check_by<R: Threads + Wait + Abort + Sync>(
    rt: &R,
    alloc: Global,
    work: &Work,
    workers: u32,
    wanted: &Made,
) -> Result<(), Fail> {
    for pass in PASSES {
        let found = made_by(rt, alloc, work, workers, pass)?;
        check_same(rt, alloc, &work.graph, &found, wanted)?;
    }
    Ok(())
}

/// Runs the work by crews, and compares each run with that of the calling thread alone. Tells whether that one was
/// whole.
fn check<R: Threads + Wait + Abort + Sync>(
    rt: &R,
    alloc: Global,
    work: &Work,
) -> Result<bool, Fail> {
    let wanted = made_alone(rt, alloc, work)?;
    for workers in [1, 2, 3, 4, 8] {
        check_by(rt, alloc, work, workers, &wanted)?;
    }
    Ok(is_whole(&wanted))
}

/// A worked example of a run whose only source is actor 0.
fn work_of(alloc: Global, case: &run_tests::Case) -> Result<Work, Fail> {
    Ok(Work {
        graph: String::from_str(alloc, case.graph)?,
        asked: asked_for(alloc, case.graph, case.feed)?,
        extent: Extent {
            periods: case.periods,
            firings: case.firings,
        },
    })
}

#[test]
fn crews_run_worked_examples(rt: HostRuntime) -> Result<(), Fail> {
    for case in &run_tests::CASES {
        let work = work_of(rt.alloc(), case)?;
        check(&rt, rt.alloc(), &work)?;
    }
    Ok(())
}

/// A worked example of a run that is complete.
fn sample_work(alloc: Global, sample: &oracle_tests::Sample) -> Result<Work, Fail> {
    Ok(Work {
        graph: String::from_str(alloc, sample.graph)?,
        asked: oracle_tests::asked_in(alloc, sample)?,
        extent: Extent {
            periods: sample.periods,
            firings: None,
        },
    })
}

#[test]
fn crews_run_samples(rt: HostRuntime) -> Result<(), Fail> {
    for sample in &oracle_tests::SAMPLES {
        let work = sample_work(rt.alloc(), sample)?;
        assert!(rt; check(&rt, rt.alloc(), &work)?);
    }
    Ok(())
}

/// What is run of the random graph of this seed, where it is accepted.
fn random_work(alloc: Global, seed: u64) -> Result<Option<Work>, Fail> {
    let mut dice = Dice::new(seed);
    let sketch = sketch_of(alloc, &mut dice)?;
    let Some(asked) = asked_of(alloc, &mut dice, &sketch)? else {
        return Ok(None);
    };
    Ok(Some(Work {
        graph: sketch.text,
        asked,
        extent: extent_of(&mut dice),
    }))
}

/// Most of the graphs are accepted, and most of their runs are whole.
#[test]
fn crews_run_random_graphs(rt: HostRuntime) -> Result<(), Fail> {
    let mut whole: u32 = 0;
    for seed in 0..60 {
        if let Some(work) = random_work(rt.alloc(), seed)? {
            if check(&rt, rt.alloc(), &work)? {
                whole = whole.saturating_add(1);
            }
        }
    }
    assert!(rt; 30 <= whole);
    Ok(())
}

/// Filters of 16 weights over 64 tokens, of which the last keeps a state: the channels hold the 100 firings of a
/// heavy block.
const FILTERS: &str = r#"actor = [
  { name = "src", kernel = "source" },
  { name = "one", kernel = "fir", shift = 4, weights = [1, -2, 3, 4, -5, 6, 7, -8, 9, 1, -2, 3, 4, -5, 6, 7] },
  { name = "two", kernel = "fir", shift = 3, weights = [2, 7, 1, -8, 2, 8, -1, 8, 2, -8, 4, 5, 9, 0, -4, 5] },
  { name = "own", kernel = "fir", shift = 5, weights = [3, 1, -4, 1, 5, 9, -2, 6, 5, 3, -5, 8, 9, 7, -9, 3] },
  { name = "snk", kernel = "sink" },
]
channel = [
  { name = "x", from = "src", to = "one", produce = [64], consume = [64], capacity = 6400 },
  { name = "y", from = "one", to = "two", produce = [64], consume = [64], capacity = 6400 },
  { name = "z", from = "two", to = "own", produce = [64], consume = [64], capacity = 6400 },
  { name = "s", from = "own", to = "own", produce = [2], consume = [2], initial = [1, -1] },
  { name = "w", from = "own", to = "snk", produce = [64], consume = [64], capacity = 6400 },
]
"#;

/// Three hundred firings of each filter.
fn heavy_work(alloc: Global) -> Result<Work, Fail> {
    let feed = Dice::new(7).tokens(alloc, 19_200)?;
    Ok(Work {
        graph: String::from_str(alloc, FILTERS)?,
        asked: asked_for(alloc, FILTERS, &feed)?,
        extent: Extent {
            periods: 300,
            firings: None,
        },
    })
}

#[test]
fn crews_share_heavy_filters(rt: HostRuntime) -> Result<(), Fail> {
    let work = heavy_work(rt.alloc())?;
    assert!(rt; check(&rt, rt.alloc(), &work)?);
    Ok(())
}
