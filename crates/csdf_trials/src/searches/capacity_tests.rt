//! The least capacities, beside those of the plain search.

use crate::searches::plain::{Found, Plain, at};
use crate::searches::sketch::random_graph;
use csdf_analysis::{AcceptFault, Tight, capacities, repetition, tight_channel};
use csdf_graph::read_graph;
use std::alloc::Global;
use std::process::Abort;
use std::test::Fail;

/// How many graphs there were of each kind: by the number of channels above their own least capacities,
/// and by why they have none.
#[derive(Clone, Copy)]
struct Seen {
    none: u32,
    one: u32,
    several: u32,
    deadlocks: u32,
    tight: u32,
}

/// What the library finds, as the plain search tells it.
fn found_of(answer: Result<Vec<u32>, AcceptFault>) -> Result<Found, Fail> {
    match answer {
        Ok(least) => Ok(Found::Least(least)),
        Err(AcceptFault::Deadlock) => Ok(Found::Deadlock),
        Err(AcceptFault::TooTight) => Ok(Found::TooTight),
        Err(fault) => Err(fault.into()),
    }
}

/// The first channel whose given capacity is below its own least one, by the plain search.
fn tight_of(alloc: Global, plain: Plain<'_>) -> Result<Option<Tight>, Fail> {
    for (number, channel) in plain.channels.iter().enumerate() {
        let needs = plain.own(alloc, number)?;
        if let Some(given) = channel.capacity {
            if given < needs {
                return Ok(Some(Tight {
                    channel: u32::try_from(number)?,
                    given,
                    needs,
                }));
            }
        }
    }
    Ok(None)
}

/// How many channels have more than their own least capacities.
fn above(alloc: Global, plain: Plain<'_>, least: &[u32]) -> Result<u32, Fail> {
    let mut count = 0_u32;
    for (number, channel) in plain.channels.iter().enumerate() {
        let own = plain.own(alloc, number)?;
        if channel.capacity.is_none() && own < at(least, number) {
            count = count.saturating_add(1);
        }
    }
    Ok(count)
}

/// Notes what was found.
fn note(alloc: Global, plain: Plain<'_>, found: &Found, seen: &mut Seen) -> Result<(), Fail> {
    let place = match found {
        Found::Deadlock => &mut seen.deadlocks,
        Found::TooTight => &mut seen.tight,
        Found::Least(least) => match above(alloc, plain, least.as_slice())? {
            0 => &mut seen.none,
            1 => &mut seen.one,
            _ => &mut seen.several,
        },
    };
    *place = place.saturating_add(1);
    Ok(())
}

/// Compares what the library finds of a graph with what the plain search does.
fn check(rt: &impl Abort, alloc: Global, text: &str, seen: &mut Seen) -> Result<(), Fail> {
    let graph = read_graph(alloc, text.as_bytes())?;
    let vector = repetition(alloc, &graph)?;
    let plain = Plain {
        channels: graph.channels(),
        q: vector.q.as_slice(),
    };
    let want = plain.search(alloc)?;
    assert_eq!(rt;
        found_of(capacities(alloc, &graph, &vector))?,
        want,
        "{text}"
    );
    if want != Found::Deadlock {
        assert_eq!(rt;
            tight_channel(&graph, &vector),
            tight_of(alloc, plain)?,
            "{text}"
        );
    }
    note(alloc, plain, &want, seen)
}

const UNSEEN: Seen = Seen {
    none: 0,
    one: 0,
    several: 0,
    deadlocks: 0,
    tight: 0,
};

#[test]
fn random_graphs_have_the_capacities_of_a_plain_search(rt: HostRuntime) -> Result<(), Fail> {
    let mut seen = UNSEEN;
    for seed in 0..300 {
        let text = random_graph(rt.alloc(), seed)?;
        check(&rt, rt.alloc(), text.as_str(), &mut seen)?;
    }
    assert!(rt; 60 <= seen.none && 20 <= seen.one && 20 <= seen.several);
    assert!(rt; 5 <= seen.deadlocks && 5 <= seen.tight);
    Ok(())
}

/// No channel is above its own least capacity.
const ROW: &str = r#"actor = [
  { name = "a", kernel = "source" },
  { name = "b", kernel = "copy" },
  { name = "c", kernel = "sink" },
]
channel = [
  { name = "x", from = "a", to = "b", produce = [2], consume = [3] },
  { name = "y", from = "b", to = "c", produce = [1], consume = [2] },
]
"#;

/// The first channel is: while `c` waits for its second token, `b` can take none.
const SIDE_WAY: &str = r#"actor = [
  { name = "a", kernel = "source" },
  { name = "b", kernel = "sum" },
  { name = "c", kernel = "copy" },
  { name = "d", kernel = "sink" },
]
channel = [
  { name = "x", from = "a", to = "b", produce = [1], consume = [1] },
  { name = "y", from = "a", to = "c", produce = [1], consume = [2] },
  { name = "z", from = "c", to = "b", produce = [2], consume = [1] },
  { name = "w", from = "b", to = "d", produce = [1], consume = [4] },
]
"#;

/// The first two are, and stand beside one another.
const SIDE_WAYS: &str = r#"actor = [
  { name = "a", kernel = "source" },
  { name = "b", kernel = "sum" },
  { name = "c", kernel = "copy" },
  { name = "e", kernel = "sum" },
  { name = "f", kernel = "copy" },
  { name = "d", kernel = "sink" },
]
channel = [
  { name = "x", from = "a", to = "b", produce = [1], consume = [1] },
  { name = "u", from = "b", to = "e", produce = [1], consume = [1] },
  { name = "y", from = "a", to = "c", produce = [1], consume = [2] },
  { name = "z", from = "c", to = "b", produce = [2], consume = [1] },
  { name = "v", from = "b", to = "f", produce = [1], consume = [2] },
  { name = "t", from = "f", to = "e", produce = [2], consume = [1] },
  { name = "w", from = "e", to = "d", produce = [1], consume = [4] },
]
"#;

/// The given capacity is kept where the others' own ones complete with it.
const GIVEN: &str = r#"actor = [
  { name = "a", kernel = "source" },
  { name = "b", kernel = "copy" },
  { name = "c", kernel = "sink" },
]
channel = [
  { name = "x", from = "a", to = "b", produce = [1], consume = [1], capacity = 5 },
  { name = "y", from = "b", to = "c", produce = [1], consume = [2] },
]
"#;

/// Graphs, their least capacities, and how many of these are above the channels' own ones.
const LEAST: [(&str, &[u32], u32); 4] = [
    (ROW, &[4, 2], 0),
    (SIDE_WAY, &[2, 2, 2, 4], 1),
    (SIDE_WAYS, &[2, 2, 2, 2, 2, 2, 4], 2),
    (GIVEN, &[5, 2], 0),
];

fn check_least(
    rt: &impl Abort,
    alloc: Global,
    text: &str,
    want: &[u32],
    count: u32,
) -> Result<(), Fail> {
    let graph = read_graph(alloc, text.as_bytes())?;
    let vector = repetition(alloc, &graph)?;
    let least = capacities(alloc, &graph, &vector)?;
    assert_eq!(rt; least.as_slice(), want, "{text}");
    let plain = Plain {
        channels: graph.channels(),
        q: vector.q.as_slice(),
    };
    assert_eq!(rt; above(alloc, plain, least.as_slice())?, count, "{text}");
    Ok(())
}

#[test]
fn channels_above_their_own_least_capacities_are_raised(rt: HostRuntime) -> Result<(), Fail> {
    for (text, want, count) in &LEAST {
        check_least(&rt, rt.alloc(), *text, *want, *count)?;
    }
    Ok(())
}

/// A given capacity that is too small even where its channel is the only one.
const TOO_SMALL: &str = r#"actor = [
  { name = "a", kernel = "source" },
  { name = "b", kernel = "copy" },
  { name = "c", kernel = "sink" },
]
channel = [
  { name = "x", from = "a", to = "b", produce = [1], consume = [1], capacity = 1 },
  { name = "y", from = "b", to = "c", produce = [2], consume = [3], capacity = 3 },
]
"#;

#[test]
fn a_given_capacity_below_its_channels_own_is_told(rt: HostRuntime) -> Result<(), Fail> {
    let graph = read_graph(rt.alloc(), TOO_SMALL.as_bytes())?;
    let vector = repetition(rt.alloc(), &graph)?;
    let want = Tight {
        channel: 1,
        given: 3,
        needs: 4,
    };
    assert_eq!(rt; tight_channel(&graph, &vector), Some(want));
    assert_eq!(rt;
        capacities(rt.alloc(), &graph, &vector).err(),
        Some(AcceptFault::TooTight)
    );
    Ok(())
}
