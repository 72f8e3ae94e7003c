//! Firings that are evaluated before they are made, for `tests/memory/run` too: it refuses one allocation
//! after another.

ghost use Rattle.std.specs.Prelude.{◌≡◌, ◌<◌, IfOk, OnOk};
ghost use Rattle.csdf_floor.specs.Drafts.{IsDrafted};
ghost use Rattle.csdf_floor.specs.Work.{program};

use crate::shared::{asked_for, expect_eq, fired_by, floor_that_keeps};
use csdf_floor::{Draft, Floor};
use csdf_journal::Keeping;
use csdf_kernel::{Counts, Outputs};
use std::alloc::Global;
use std::process::Abort;
use std::test::Fail;

/// A filter that adds up each two tokens, with room for two of its firings.
const PAIRS: &str = r#"actor = [
  { name = "a", kernel = "source" },
  { name = "b", kernel = "fir", weights = [1, 1], shift = 0 },
  { name = "c", kernel = "sink" },
]
channel = [
  { name = "x", from = "a", to = "b", produce = [2], consume = [2], capacity = 4 },
  { name = "y", from = "b", to = "c", produce = [1], consume = [1], capacity = 4 },
]
"#;

/// The lists in which a floor makes firings.
#[derive(Drop)]
struct Lists {
    counts: Counts,
    outputs: Outputs,
}

/// Makes all firings of the actor that can be made.
fn make(floor: &mut Floor, actor: u32, lists: &mut Lists) -> Result<u32, Fail>
    ensures { OnOk result (floor.new.work ≡ floor.old.work) }
{
    let firing = fired_by(floor, actor);
    Ok(floor.make(actor, firing, 10, &mut lists.counts, &mut lists.outputs)?)
}

/// The same of the filter, by the draft where it is one of these firings.
fn make_from(floor: &mut Floor, draft: &Draft, lists: &mut Lists) -> Result<u32, Fail>
    requires { 0 < draft.now.firings → IsDrafted (program floor.old.work) draft.now }
    ensures { OnOk result (floor.new.work ≡ floor.old.work) }
{
    let firing = fired_by(floor, 1);
    Ok(floor.make_from(1, firing, 10, draft, &mut lists.counts, &mut lists.outputs)?)
}

/// The filter's next firings, where they take so many products, evaluated.
fn drafted(alloc: Global, floor: &Floor, heavy: u64) -> Result<Draft, Fail>
    ensures { IfOk result (λ draft. 0 < draft.firings → IsDrafted (program floor.now.work) draft) }
{
    let mut draft = Draft::new(alloc);
    floor.draft(1, fired_by(floor, 1), 10, heavy, &mut draft)?;
    draft.evaluate()?;
    Ok(draft)
}

/// Asserts what the third actor took.
fn check_sink(rt: &impl Abort, sinks: &[Vec<i32>], wanted: &[i32]) {
    assert!(rt; sinks.len() == 3);
    expect_eq(rt, sinks[2].as_slice(), wanted);
}

/// Makes two firings of the filter by the draft, and asserts what the sink took then.
fn check_made(
    rt: &impl Abort,
    floor: &mut Floor,
    draft: &Draft,
    lists: &mut Lists,
    wanted: &[i32],
) -> Result<(), Fail>
    requires { 0 < draft.now.firings → IsDrafted (program floor.old.work) draft.now }
    ensures { OnOk result (floor.new.work ≡ floor.old.work) }
{
    expect_eq(rt, make_from(floor, draft, lists)?, 2);
    expect_eq(rt, make(floor, 2, lists)?, 2);
    check_sink(rt, floor.sinks(), wanted);
    Ok(())
}

/// Two firings take eight products. The draft of the first two does for these, and for the next two,
/// whose tokens are others, the floor evaluates anew.
fn check_drafts(rt: &impl Abort, alloc: Global, floor: &mut Floor) -> Result<(), Fail> {
    let mut lists = Lists {
        counts: Counts::new(alloc),
        outputs: Outputs::new(alloc),
    };
    expect_eq(rt, make(floor, 0, &mut lists)?, 2);
    expect_eq(rt, drafted(alloc, floor, 9)?.firings(), 0);
    let draft = drafted(alloc, floor, 8)?;
    expect_eq(rt, draft.firings(), 2);
    check_made(rt, floor, &draft, &mut lists, &[3, 7])?;
    expect_eq(rt, make(floor, 0, &mut lists)?, 2);
    check_made(rt, floor, &draft, &mut lists, &[3, 7, 11, 15])
}

#[test]
fn drafted_firings_are_made(rt: HostRuntime) -> Result<(), Fail> {
    let asked = asked_for(rt.alloc(), PAIRS, &[1, 2, 3, 4, 5, 6, 7, 8])?;
    let mut floor = floor_that_keeps(&rt, rt.alloc(), &asked, 4, Keeping::NotKept)?;
    check_drafts(&rt, rt.alloc(), &mut floor)
}
