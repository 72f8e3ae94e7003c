ghost use Rattle.std.specs.Prelude.{◌≡◌};
ghost use Rattle.csdf_claims.specs.Board.{Holds, KeepsAll};

use crate::shared::{Asked, TWO_SOURCES, accepted_in, expect_eq, ran};
use csdf_claims::{Board, Place};
use csdf_floor::Outcome;
use csdf_run::Gate;
use std::alloc::Global;
use std::process::Abort;
use std::sync::Wait;
use std::sync::atomic::Ordering::SeqCst;
use std::sync::atomic::{AtomicBool, AtomicU32};
use std::test::Fail;
use std::thread::Threads;

/// How often a gate looks for another worker.
const LOOKS: u32 = 200_000_000;

/// A gate at which the first firings of actors 0 and 1 meet, look at each other, and meet again.
#[derive(Drop)]
struct Meeting {
    came: [AtomicBool; 2],
    looked: [AtomicBool; 2],
    met: AtomicU32,
    held: AtomicU32,
}

fn is_seen(flag: &AtomicBool) -> bool {
    for _ in 0..LOOKS {
        if flag.load(SeqCst) {
            return true;
        }
    }
    false
}

/// Sets a flag, and waits for the other.
fn meet(flags: &[AtomicBool; 2], own: usize, met: &AtomicU32) {
    if own == 0 {
        flags[0].store(true, SeqCst);
    } else {
        flags[1].store(true, SeqCst);
    }
    let is_other_seen = if own == 0 {
        is_seen(&flags[1])
    } else {
        is_seen(&flags[0])
    };
    if is_other_seen {
        met.fetch_add(1, SeqCst);
    }
}

impl Gate for Meeting {
    fn enter(&self, board: &Board, place: &mut Place, actor: u32, firing: u32) {
        if firing != 0 || actor > 1 || board.actors() < 2 {
            return;
        }
        meet(&self.came, actor as usize, &self.met);
        if board.peek(place, 1 - actor) == (0, true) {
            self.held.fetch_add(1, SeqCst);
        }
        meet(&self.looked, actor as usize, &self.met);
    }

    fn may_wait(&self) -> bool {
        true
    }
}

/// A gate at which the first firings of actors 0 to 7 are counted, until there are eight.
#[derive(Drop)]
struct Counting {
    came: AtomicU32,
    saw_all: AtomicU32,
}

impl Gate for Counting {
    fn enter(&self, _board: &Board, _place: &mut Place, actor: u32, firing: u32) {
        if firing != 0 || actor > 7 {
            return;
        }
        self.came.fetch_add(1, SeqCst);
        for _ in 0..LOOKS {
            if self.came.load(SeqCst) == 8 {
                self.saw_all.fetch_add(1, SeqCst);
                return;
            }
        }
    }

    fn may_wait(&self) -> bool {
        true
    }
}

/// One token for each of the first actors, and none for the others.
fn single_tokens(alloc: Global, tokens: &[i32], actors: usize) -> Result<Vec<Vec<i32>>, Fail> {
    let mut lists = Vec::new(alloc);
    for actor in 0..actors {
        let mut list = Vec::new(alloc);
        if let Some(token) = tokens.get(actor) {
            list.push(*token)?;
        }
        lists.push(list)?;
    }
    Ok(lists)
}

/// The graph of the file over these feeds.
fn asked_singly(alloc: Global, text: &str, tokens: &[i32]) -> Result<Asked, Fail> {
    let accepted = accepted_in(alloc, text)?;
    let feeds = single_tokens(alloc, tokens, accepted.graph().actors().len())?;
    Ok(Asked { accepted, feeds })
}

fn outcome_of<R: Threads + Wait + Abort + Sync, G: Gate>(
    rt: &R,
    alloc: Global,
    text: &str,
    tokens: &[i32],
    workers: u32,
    gate: &G,
) -> Result<Outcome, Fail> {
    let asked = asked_singly(alloc, text, tokens)?;
    Ok(ran(rt, alloc, &asked, workers, 1, None, gate)?)
}

/// All that the sinks took.
fn taken(alloc: Global, outcome: &Outcome) -> Result<Vec<i32>, Fail> {
    let mut all = Vec::new(alloc);
    for sink in &outcome.sinks {
        all.extend_from_slice(sink)?;
    }
    Ok(all)
}

fn check_taken<R: Abort>(
    rt: &R,
    alloc: Global,
    outcome: &Outcome,
    wanted: i32,
) -> Result<(), Fail> {
    let all = taken(alloc, outcome)?;
    expect_eq(&rt, all.as_slice(), [wanted].as_slice());
    Ok(())
}

#[test]
fn two_firings_at_the_same_time(rt: HostRuntime) -> Result<(), Fail> {
    let gate = Meeting {
        came: [AtomicBool::new(false), AtomicBool::new(false)],
        looked: [AtomicBool::new(false), AtomicBool::new(false)],
        met: AtomicU32::new(0),
        held: AtomicU32::new(0),
    };
    let outcome = outcome_of(&rt, rt.alloc(), TWO_SOURCES, &[1, 10], 2, &gate)?;
    expect_eq(&rt, gate.met.load(SeqCst), 4);
    expect_eq(&rt, gate.held.load(SeqCst), 2);
    check_taken(&rt, rt.alloc(), &outcome, 11)
}

/// Eight sources that one actor sums up.
const EIGHT_SOURCES: &str = r#"actor = [
  { name = "s0", kernel = "source" },
  { name = "s1", kernel = "source" },
  { name = "s2", kernel = "source" },
  { name = "s3", kernel = "source" },
  { name = "s4", kernel = "source" },
  { name = "s5", kernel = "source" },
  { name = "s6", kernel = "source" },
  { name = "s7", kernel = "source" },
  { name = "add", kernel = "sum" },
  { name = "snk", kernel = "sink" },
]
channel = [
  { name = "x0", from = "s0", to = "add", produce = [1], consume = [1] },
  { name = "x1", from = "s1", to = "add", produce = [1], consume = [1] },
  { name = "x2", from = "s2", to = "add", produce = [1], consume = [1] },
  { name = "x3", from = "s3", to = "add", produce = [1], consume = [1] },
  { name = "x4", from = "s4", to = "add", produce = [1], consume = [1] },
  { name = "x5", from = "s5", to = "add", produce = [1], consume = [1] },
  { name = "x6", from = "s6", to = "add", produce = [1], consume = [1] },
  { name = "x7", from = "s7", to = "add", produce = [1], consume = [1] },
  { name = "y", from = "add", to = "snk", produce = [1], consume = [1] },
]
"#;

fn check_eight<R: Threads + Wait + Abort + Sync>(
    rt: &R,
    alloc: Global,
    gate: &Counting,
) -> Result<(), Fail> {
    let tokens = [1, 2, 3, 4, 5, 6, 7, 8];
    let outcome = outcome_of(rt, alloc, EIGHT_SOURCES, &tokens, 8, gate)?;
    expect_eq(&rt, gate.saw_all.load(SeqCst), 8);
    check_taken(rt, alloc, &outcome, 36)
}

#[test]
fn eight_firings_at_the_same_time(rt: HostRuntime) -> Result<(), Fail> {
    let gate = Counting {
        came: AtomicU32::new(0),
        saw_all: AtomicU32::new(0),
    };
    check_eight(&rt, rt.alloc(), &gate)
}

/// A chain of 62 stages between a source and a sink.
fn write_long_chain(text: &mut String) -> Result<(), Fail> {
    text.push_str("[[actor]]\nname = \"a0\"\nkernel = \"source\"\n")?;
    for i in 1..63 {
        write!(text, "[[actor]]\nname = \"a{i}\"\nkernel = \"copy\"\n")?;
    }
    text.push_str("[[actor]]\nname = \"a63\"\nkernel = \"sink\"\n")?;
    for i in 0..63 {
        let next = i + 1;
        write!(
            text,
            "[[channel]]\nname = \"c{i}\"\nfrom = \"a{i}\"\nto = \"a{next}\"\n"
        )?;
        text.push_str("produce = [1]\nconsume = [1]\n")?;
    }
    Ok(())
}

fn long_chain(alloc: Global) -> Result<String, Fail> {
    let mut text = String::new(alloc);
    write_long_chain(&mut text)?;
    Ok(text)
}

#[test]
fn sixty_four_actors_by_eight_workers(rt: HostRuntime) -> Result<(), Fail> {
    let text = long_chain(rt.alloc())?;
    let outcome = outcome_of(&rt, rt.alloc(), text.as_str(), &[7], 8, &csdf_run::Open)?;
    check_taken(&rt, rt.alloc(), &outcome, 7)
}
