//! How often the actors can fire at most, by the tokens of the sources.

use crate::shared::{TWO_SOURCES, accepted_in, expect_eq};
use csdf_analysis::most_firings;
use csdf_floor::may_run;
use std::process::Abort;
use std::test::Fail;

/// A source that gives 2, a stage that takes 3 and gives 1, and a sink that takes 2, whose channels stand in
/// the order against that of the tokens.
const CHAIN: &str = r#"actor = [
  { name = "a", kernel = "source" },
  { name = "b", kernel = "copy" },
  { name = "c", kernel = "sink" },
]
channel = [
  { name = "y", from = "b", to = "c", produce = [1], consume = [2] },
  { name = "x", from = "a", to = "b", produce = [2], consume = [3] },
]
"#;

/// A source of three phases, and a sink of two.
const PHASED: &str = r#"actor = [
  { name = "a", kernel = "source", phases = 3 },
  { name = "b", kernel = "sink", phases = 2 },
]
channel = [{ name = "x", from = "a", to = "b", produce = [1, 0, 2], consume = [1, 2] }]
"#;

/// A source that gives one token to the one sink and two to the other, of which one is there from the start.
const FORK: &str = r#"actor = [
  { name = "a", kernel = "source" },
  { name = "b", kernel = "sink" },
  { name = "c", kernel = "sink" },
]
channel = [
  { name = "x", from = "a", to = "b", produce = [1], consume = [1] },
  { name = "y", from = "a", to = "c", produce = [2], consume = [1], initial = [7] },
]
"#;

/// Two actors that give each other a token.
const CYCLE: &str = r#"actor = [{ name = "a", kernel = "copy" }, { name = "b", kernel = "copy" }]
channel = [
  { name = "x", from = "a", to = "b", produce = [1], consume = [1], initial = [1] },
  { name = "y", from = "b", to = "a", produce = [1], consume = [1] },
]
"#;

/// Asserts the greatest counts in so many periods, where the actors have so many tokens.
fn expect_most(
    rt: &(impl Abort + AllocGlobal),
    text: &str,
    periods: u32,
    tokens: &[usize],
    want: &[u32],
) -> Result<(), Fail> {
    let accepted = accepted_in(rt.alloc(), text)?;
    assert!(rt; may_run(&accepted, periods));
    assert!(rt; tokens.len() == accepted.graph().actors().len());
    let most = most_firings(rt.alloc(), &accepted, periods, tokens)?;
    expect_eq(rt, most.as_slice(), want);
    Ok(())
}

/// Where it gives 8 of 9 tokens, 6 of these are taken; where no more than two periods are asked for they end
/// all.
#[test]
fn tokens_last_for_so_many_firings(rt: HostRuntime) -> Result<(), Fail> {
    expect_most(&rt, CHAIN, 1_000, &[9, 0, 0], &[4, 2, 1])?;
    expect_most(&rt, CHAIN, 1_000, &[0, 5, 5], &[0, 0, 0])?;
    expect_most(&rt, CHAIN, 2, &[100, 0, 0], &[6, 4, 2])?;
    expect_most(&rt, PHASED, 1_000, &[4, 0], &[5, 3])?;
    expect_most(&rt, FORK, 1_000, &[7, 0, 0], &[2, 2, 5])?;
    expect_most(&rt, CYCLE, 3, &[0, 0], &[3, 3])
}

/// A source whose tokens find no room is held back: the other one has fewer.
#[test]
fn room_holds_a_source_back(rt: HostRuntime) -> Result<(), Fail> {
    expect_most(&rt, TWO_SOURCES, 1_000, &[100, 3, 0, 0], &[4, 3, 3, 3])
}
