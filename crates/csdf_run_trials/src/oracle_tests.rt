use crate::shared::{Asked, accepted_in, expect_eq, ran};
use csdf_floor::{Ending, Outcome};
use csdf_model::{Channel, Graph, Kernel};
use csdf_run::Open;
use std::alloc::Global;
use std::process::Abort;
use std::sync::Wait;
use std::test::Fail;
use std::thread::Threads;

/// A run that is complete, and needs all tokens of its feeds.
#[derive(Clone, Copy)]
pub(crate) struct Sample {
    pub(crate) graph: &'static str,
    feeds: &'static [&'static [i32]],
    pub(crate) periods: u32,
}

pub(crate) const SAMPLES: [Sample; 4] = [
    // rates that differ by phase
    Sample {
        graph: r#"actor = [
  { name = "src", kernel = "source", phases = 2 },
  { name = "acc", kernel = "sum", phases = 3 },
  { name = "snk", kernel = "sink" },
]
channel = [
  { name = "x", from = "src", to = "acc", produce = [2, 1], consume = [1, 2, 3] },
  { name = "y", from = "acc", to = "snk", produce = [1, 0, 2], consume = [3] },
]
"#,
        feeds: &[&[1, -2, 3, 4, -5, 6, 7, 8, -9, 10, 11, 12], &[], &[]],
        periods: 2,
    },
    // a state kept in a channel from an actor to itself, and a sum beyond the range of a token
    Sample {
        graph: r#"actor = [
  { name = "snk", kernel = "sink" },
  { name = "acc", kernel = "sum" },
  { name = "src", kernel = "source" },
]
channel = [
  { name = "s", from = "acc", to = "acc", produce = [1], consume = [1], initial = [5] },
  { name = "x", from = "src", to = "acc", produce = [1], consume = [1] },
  { name = "y", from = "acc", to = "snk", produce = [1], consume = [1] },
]
"#,
        feeds: &[&[], &[], &[1, 2000000000, 2000000000, -7]],
        periods: 4,
    },
    // two ways that part and join again
    Sample {
        graph: r#"actor = [
  { name = "a", kernel = "source" },
  { name = "b", kernel = "sum" },
  { name = "c", kernel = "sum" },
  { name = "d", kernel = "sum" },
  { name = "e", kernel = "sink" },
  { name = "f", kernel = "sink" },
]
channel = [
  { name = "ab", from = "a", to = "b", produce = [2], consume = [1] },
  { name = "ac", from = "a", to = "c", produce = [1], consume = [2] },
  { name = "bd", from = "b", to = "d", produce = [1], consume = [4] },
  { name = "cd", from = "c", to = "d", produce = [3], consume = [3] },
  { name = "de", from = "d", to = "e", produce = [2], consume = [1] },
  { name = "cf", from = "c", to = "f", produce = [1], consume = [1] },
]
"#,
        feeds: &[
            &[1, 2, 3, 4, 5, 6, 7, 8, 9, 10, 11, 12],
            &[],
            &[],
            &[],
            &[],
            &[],
        ],
        periods: 2,
    },
    // two sources, and a ring of two actors
    Sample {
        graph: r#"actor = [
  { name = "p", kernel = "source" },
  { name = "q", kernel = "source" },
  { name = "u", kernel = "sum" },
  { name = "v", kernel = "sum" },
  { name = "w", kernel = "sink" },
]
channel = [
  { name = "pu", from = "p", to = "u", produce = [1], consume = [1] },
  { name = "qv", from = "q", to = "v", produce = [3], consume = [3] },
  { name = "uv", from = "u", to = "v", produce = [1], consume = [1] },
  { name = "vu", from = "v", to = "u", produce = [1], consume = [1], initial = [-1] },
  { name = "vw", from = "v", to = "w", produce = [2], consume = [2] },
]
"#,
        feeds: &[&[3, 1, 4], &[1, 5, 9, 2, 6, 5, 3, 5, 8], &[], &[], &[]],
        periods: 3,
    },
];

/// A queue as plain as can be: all tokens ever put in, and how many were taken.
#[derive(Drop)]
struct Queue {
    tokens: Vec<i32>,
    taken: usize,
}

impl Queue {
    fn new(alloc: Global, tokens: &[i32]) -> Result<Queue, Fail> {
        let tokens = Vec::from_slice(alloc, tokens)?;
        Ok(Queue { tokens, taken: 0 })
    }

    fn waiting(&self) -> usize {
        self.tokens.len().saturating_sub(self.taken)
    }

    /// Takes so many tokens.
    fn take(&mut self, count: u32, into: &mut Vec<i32>) -> Result<(), Fail> {
        for _ in 0..count {
            if let Some(token) = self.tokens.get(self.taken) {
                into.push(*token)?;
                self.taken = self.taken.saturating_add(1);
            }
        }
        Ok(())
    }
}

/// The rate of the phase that stands at this firing.
fn rate(rates: &[u32], fired: usize) -> u32 {
    match fired.checked_rem(rates.len()) {
        Some(phase) => rates.get(phase).copied().unwrap_or(0),
        None => 0,
    }
}

/// A run by hand: every actor fires as soon as its tokens are there, in queues without a bound.
#[derive(Drop)]
struct Plain {
    channels: Vec<Queue>,
    feeds: Vec<Queue>,
    fired: Vec<usize>,
    sinks: Vec<Vec<i32>>,
}

fn plain_of(alloc: Global, graph: &Graph, feeds: &[Vec<i32>]) -> Result<Plain, Fail> {
    let mut plain = Plain {
        channels: Vec::new(alloc),
        feeds: Vec::new(alloc),
        fired: Vec::new(alloc),
        sinks: Vec::new(alloc),
    };
    add_channels(alloc, &mut plain.channels, graph)?;
    plain.add_feeds(alloc, feeds)?;
    Ok(plain)
}

fn add_channels(alloc: Global, queues: &mut Vec<Queue>, graph: &Graph) -> Result<(), Fail> {
    for channel in graph.channels() {
        queues.push(Queue::new(alloc, &channel.initial)?)?;
    }
    Ok(())
}

/// The sum of the tokens, within the range of a token.
fn clamped_sum(tokens: &[i32]) -> i32 {
    let mut sum: i64 = 0;
    for token in tokens {
        sum = sum.saturating_add(i64::from(*token));
    }
    sum.clamp(-2147483648, 2147483647) as i32
}

/// So many equal tokens.
fn same(alloc: Global, token: i32, count: u32) -> Result<Queue, Fail> {
    let mut queue = Queue::new(alloc, &[])?;
    for _ in 0..count {
        queue.tokens.push(token)?;
    }
    Ok(queue)
}

impl Plain {
    fn add_feeds(&mut self, alloc: Global, feeds: &[Vec<i32>]) -> Result<(), Fail> {
        for feed in feeds {
            self.feeds.push(Queue::new(alloc, feed)?)?;
            self.fired.push(0)?;
            self.sinks.push(Vec::new(alloc))?;
        }
        Ok(())
    }

    fn fired(&self, actor: u32) -> usize {
        self.fired.get(actor as usize).copied().unwrap_or(0)
    }

    /// Whether the tokens that the actor is to read are there.
    fn has_tokens(&self, graph: &Graph, actor: u32) -> bool {
        let fired = self.fired(actor);
        for (channel, queue) in graph.channels().iter().zip(&self.channels) {
            if channel.to == actor && queue.waiting() < rate(&channel.consume, fired) as usize {
                return false;
            }
        }
        true
    }

    /// How many tokens the actor is to write.
    fn to_write(&self, graph: &Graph, actor: u32) -> u32 {
        let fired = self.fired(actor);
        let mut count: u32 = 0;
        for channel in graph.channels() {
            if channel.from == actor {
                count = count.saturating_add(rate(&channel.produce, fired));
            }
        }
        count
    }

    /// Whether the feed of a source has so many tokens left.
    fn has_feed(&self, actor: u32, count: u32) -> bool {
        match self.feeds.get(actor as usize) {
            Some(feed) => feed.waiting() >= count as usize,
            None => false,
        }
    }

    fn read(&mut self, alloc: Global, graph: &Graph, actor: u32) -> Result<Vec<i32>, Fail> {
        let fired = self.fired(actor);
        let mut inputs = Vec::new(alloc);
        for (number, channel) in graph.channels().iter().enumerate() {
            if channel.to == actor {
                if let Some(queue) = self.channels.get_mut(number) {
                    queue.take(rate(&channel.consume, fired), &mut inputs)?;
                }
            }
        }
        Ok(inputs)
    }

    fn write(&mut self, graph: &Graph, actor: u32, outputs: &mut Queue) -> Result<(), Fail> {
        let fired = self.fired(actor);
        for (number, channel) in graph.channels().iter().enumerate() {
            if channel.from == actor {
                if let Some(queue) = self.channels.get_mut(number) {
                    outputs.take(rate(&channel.produce, fired), &mut queue.tokens)?;
                }
            }
        }
        Ok(())
    }

    /// What the firing gives for these inputs.
    fn outputs(
        &mut self,
        alloc: Global,
        kernel: &Kernel,
        actor: u32,
        inputs: &[i32],
        count: u32,
    ) -> Result<Queue, Fail> {
        if !matches!(kernel, Kernel::Source) {
            return same(alloc, clamped_sum(inputs), count);
        }
        let mut queue = Queue::new(alloc, &[])?;
        if let Some(feed) = self.feeds.get_mut(actor as usize) {
            feed.take(count, &mut queue.tokens)?;
        }
        Ok(queue)
    }

    /// Counts the firing, and keeps what a sink read.
    fn end(&mut self, kernel: &Kernel, actor: u32, inputs: &[i32]) -> Result<(), Fail> {
        if let Some(fired) = self.fired.get_mut(actor as usize) {
            *fired = fired.saturating_add(1);
        }
        if matches!(kernel, Kernel::Sink) {
            if let Some(sink) = self.sinks.get_mut(actor as usize) {
                sink.extend_from_slice(inputs)?;
            }
        }
        Ok(())
    }

    /// Fires the actor, where its tokens are there.
    fn fire(
        &mut self,
        alloc: Global,
        graph: &Graph,
        kernel: &Kernel,
        actor: u32,
    ) -> Result<bool, Fail> {
        let count = self.to_write(graph, actor);
        if !self.has_tokens(graph, actor) {
            return Ok(false);
        }
        if matches!(kernel, Kernel::Source) && !self.has_feed(actor, count) {
            return Ok(false);
        }
        let inputs = self.read(alloc, graph, actor)?;
        let mut outputs = self.outputs(alloc, kernel, actor, &inputs, count)?;
        self.write(graph, actor, &mut outputs)?;
        self.end(kernel, actor, &inputs)?;
        Ok(true)
    }

    /// Fires the first actor that can. False where none can.
    fn fire_first(&mut self, alloc: Global, graph: &Graph) -> Result<bool, Fail> {
        for (number, actor) in graph.actors().iter().enumerate() {
            if self.fire(alloc, graph, &actor.kernel, number as u32)? {
                return Ok(true);
            }
        }
        Ok(false)
    }
}

/// What the sinks take where one actor fires after the other.
fn plain_sinks(alloc: Global, graph: &Graph, feeds: &[Vec<i32>]) -> Result<Vec<Vec<i32>>, Fail> {
    let mut plain = plain_of(alloc, graph, feeds)?;
    for _ in 0..1000 {
        if !plain.fire_first(alloc, graph)? {
            break;
        }
    }
    Ok(plain.sinks)
}

fn feeds_of(alloc: Global, feeds: &[&[i32]]) -> Result<Vec<Vec<i32>>, Fail> {
    let mut lists = Vec::new(alloc);
    for feed in feeds {
        lists.push(Vec::from_slice(alloc, *feed)?)?;
    }
    Ok(lists)
}

/// What the sample asks for.
pub(crate) fn asked_in(alloc: Global, sample: &Sample) -> Result<Asked, Fail> {
    let accepted = accepted_in(alloc, sample.graph)?;
    let feeds = feeds_of(alloc, sample.feeds)?;
    Ok(Asked { accepted, feeds })
}

fn check_sinks<R: Abort>(rt: &R, outcome: &Outcome, sinks: &[Vec<i32>]) {
    expect_eq(&rt, outcome.ending, Ending::Complete);
    check_lists(rt, &outcome.sinks, sinks);
}

fn check_lists<R: Abort>(rt: &R, found: &[Vec<i32>], wanted: &[Vec<i32>]) {
    expect_eq(&rt, found.len(), wanted.len());
    for (list, want) in found.iter().zip(wanted) {
        expect_eq(&rt, list.as_slice(), want.as_slice());
    }
}

/// The run by one to eight workers gives the sinks what the plain run gives them.
fn check_by_all<R: Threads + Wait + Abort + Sync>(
    rt: &R,
    alloc: Global,
    asked: &Asked,
    periods: u32,
) -> Result<(), Fail> {
    let sinks = plain_sinks(alloc, asked.accepted.graph(), &asked.feeds)?;
    for workers in 1..9 {
        let outcome = ran(rt, alloc, asked, workers, periods, None, &Open)?;
        check_sinks(rt, &outcome, &sinks);
    }
    Ok(())
}

fn check<R: Threads + Wait + Abort + Sync>(
    rt: &R,
    alloc: Global,
    sample: &Sample,
) -> Result<(), Fail> {
    let asked = asked_in(alloc, sample)?;
    check_by_all(rt, alloc, &asked, sample.periods)
}

#[test]
fn sinks_take_what_they_take_in_a_plain_run(rt: HostRuntime) -> Result<(), Fail> {
    for sample in &SAMPLES {
        check(&rt, rt.alloc(), sample)?;
    }
    Ok(())
}

fn check_first<R: Abort>(rt: &R, sinks: &[Vec<i32>], wanted: &[i32]) -> Result<(), Fail> {
    let Some(taken) = sinks.first() else {
        return Err(Fail::new("no sink"));
    };
    expect_eq(&rt, taken.as_slice(), wanted);
    Ok(())
}

fn check_sums<R: Abort>(
    rt: &R,
    alloc: Global,
    graph: &Graph,
    feeds: &[Vec<i32>],
) -> Result<(), Fail> {
    let sinks = plain_sinks(alloc, graph, feeds)?;
    let wanted = [6, 2_000_000_006, 2_147_483_647, 2_147_483_640];
    check_first(rt, &sinks, &wanted)
}

#[test]
fn the_plain_run_sums(rt: HostRuntime) -> Result<(), Fail> {
    let asked = asked_in(rt.alloc(), &SAMPLES[1])?;
    check_sums(&rt, rt.alloc(), asked.accepted.graph(), &asked.feeds)
}
