//! The analysis of graphs, and what is told of them.

use crate::limits::rows::{SIZES, Size, accepted_of, expect_eq, graph_of};
use csdf_analysis::{
    Accepted, Bounds, Room, accept_in_room, accept_with_room, capacities, demand_of, repetition,
    schedule, stall_of,
};
use csdf_model::Graph;
use std::alloc::Global;
use std::process::Abort;
use std::test::Fail;

fn check_stall(rt: &impl Abort, alloc: Global, graph: &Graph, size: Size) -> Result<(), Fail> {
    let vector = repetition(alloc, graph)?;
    let stall = stall_of(alloc, graph, &vector, Bounds::Full)?;
    expect_eq(rt, stall.counts.len(), size.actors as usize);
    expect_eq(rt, stall.held.len(), size.channels as usize);
    let found = capacities(alloc, graph, &vector)?;
    expect_eq(rt, found.len(), size.channels as usize);
    Ok(())
}

fn check_demand(rt: &impl Abort, alloc: Global, graph: &Graph) -> Result<(), Fail> {
    let last = graph.channels().len().saturating_sub(1);
    assert!(rt; last < graph.channels().len());
    let demand = demand_of(alloc, graph, last as u32)?;
    expect_eq(rt, (demand.own.from, demand.own.to), (1, 1));
    Ok(())
}

fn check_graph(rt: &impl Abort, alloc: Global, size: Size) -> Result<(), Fail> {
    let graph = graph_of(alloc, size)?;
    check_stall(rt, alloc, &graph, size)?;
    check_demand(rt, alloc, &graph)
}

#[test]
fn graphs_of_each_size_are_analysed(rt: HostRuntime) -> Result<(), Fail> {
    for size in &SIZES {
        check_graph(&rt, rt.alloc(), *size)?;
    }
    Ok(())
}

fn check_accepted(
    rt: &impl Abort,
    alloc: Global,
    accepted: &Accepted,
    size: Size,
) -> Result<(), Fail> {
    let copy = accepted.try_copy(alloc)?;
    expect_eq(rt, copy.cells(), size.channels);
    let firings = schedule(alloc, &copy)?;
    expect_eq(rt, firings.len(), size.actors as usize);
    Ok(())
}

fn check_least(rt: &impl Abort, alloc: Global, size: Size) -> Result<(), Fail> {
    let accepted = accepted_of(alloc, size)?;
    check_accepted(rt, alloc, &accepted, size)
}

#[test]
fn graphs_of_each_size_are_accepted(rt: HostRuntime) -> Result<(), Fail> {
    for size in &SIZES {
        check_least(&rt, rt.alloc(), *size)?;
    }
    Ok(())
}

fn check_room(rt: &impl Abort, alloc: Global, size: Size) -> Result<(), Fail> {
    let accepted = accept_with_room(alloc, graph_of(alloc, size)?, 65_535)?;
    expect_eq(rt, accepted.cells(), size.channels.saturating_mul(65_535));
    Ok(())
}

fn check_auto_room(rt: &impl Abort, alloc: Global, size: Size) -> Result<(), Fail> {
    let accepted = accept_in_room(alloc, graph_of(alloc, size)?, Room::Auto)?;
    expect_eq(rt, accepted.cells(), size.channels.saturating_mul(4_096));
    Ok(())
}

#[test]
fn graphs_of_each_size_get_room(rt: HostRuntime) -> Result<(), Fail> {
    for size in &SIZES {
        check_room(&rt, rt.alloc(), *size)?;
        check_auto_room(&rt, rt.alloc(), *size)?;
    }
    Ok(())
}
