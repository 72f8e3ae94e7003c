use crate::accept_tests::TIGHT_CHAIN;
use crate::analysis_tests::{STEEP, graph};
use crate::shared::{CHAIN, DISAGREEING, STUCK_CYCLE, expect_eq};
use csdf_analysis::{Bounds, Ratio, Stall, Wait, demand_of, repetition, stall_of};
use std::process::Abort;
use std::test::Fail;

fn stall_in(rt: &impl AllocGlobal, text: &str, bounds: Bounds) -> Result<Stall, Fail> {
    let graph = graph(rt, text)?;
    let vector = repetition(rt.alloc(), &graph)?;
    Ok(stall_of(rt.alloc(), &graph, &vector, bounds)?)
}

/// Where a period of a graph stands still: the capacities, how often each actor has fired, what each channel
/// holds, and what each actor waits for.
struct Row {
    text: &'static str,
    bounds: Bounds,
    capacities: &'static [u32],
    counts: &'static [u32],
    held: &'static [u32],
    waits: &'static [Option<Wait>],
}

const STALLS: [Row; 3] = [
    // a cycle without tokens
    Row {
        text: STUCK_CYCLE,
        bounds: Bounds::Full,
        capacities: &[1, 1],
        counts: &[0, 0],
        held: &[0, 0],
        waits: &[Some(Wait::Tokens(1)), Some(Wait::Tokens(0))],
    },
    // a full channel
    Row {
        text: TIGHT_CHAIN,
        bounds: Bounds::Given,
        capacities: &[3, 2],
        counts: &[1, 0, 0],
        held: &[2, 0],
        waits: &[
            Some(Wait::Room(0)),
            Some(Wait::Tokens(0)),
            Some(Wait::Tokens(1)),
        ],
    },
    // a whole period, which waits for nothing
    Row {
        text: CHAIN,
        bounds: Bounds::Full,
        capacities: &[6, 2],
        counts: &[3, 2, 1],
        held: &[0, 0],
        waits: &[None, None, None],
    },
];

fn check_stall(rt: &(impl Abort + AllocGlobal), row: &Row) -> Result<(), Fail> {
    let stall = stall_in(rt, row.text, row.bounds)?;
    expect_eq(rt, stall.bounds.as_slice(), row.capacities);
    expect_eq(rt, stall.counts.as_slice(), row.counts);
    expect_eq(rt, stall.held.as_slice(), row.held);
    expect_eq(rt, stall.waits.as_slice(), row.waits);
    Ok(())
}

#[test]
fn periods_stand_still(rt: HostRuntime) -> Result<(), Fail> {
    for row in &STALLS {
        check_stall(&rt, row)?;
    }
    Ok(())
}

/// Asserts what the second of two channels asks, and what the first one asks of the same actors.
fn expect_demand(
    rt: &(impl Abort + AllocGlobal),
    text: &str,
    own: Ratio,
    before: Option<Ratio>,
) -> Result<(), Fail> {
    let graph = graph(rt, text)?;
    assert!(rt; graph.channels().len() == 2);
    let demand = demand_of(rt.alloc(), &graph, 1)?;
    expect_eq(rt, (demand.own, demand.before), (own, before));
    Ok(())
}

#[test]
fn channels_ask_for_different_ratios(rt: HostRuntime) -> Result<(), Fail> {
    let own = Ratio { from: 1, to: 2 };
    expect_demand(&rt, DISAGREEING, own, Some(Ratio { from: 1, to: 1 }))
}

#[test]
fn a_channel_that_joins_asks_alone(rt: HostRuntime) -> Result<(), Fail> {
    expect_demand(&rt, STEEP, Ratio { from: 64, to: 1 }, None)
}
