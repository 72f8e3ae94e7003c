//! Calls on graphs, and moves, that take memory, for `tests/memory/run`: it refuses them one allocation
//! after another.

use crate::analysis_tests::graph;
use crate::core_tests::{PAIR, moves_in, opening_core, shown, text_of};
use crate::shared::{CHAIN, accepted_in, expect_eq};
use csdf_analysis::{AcceptFault, Accepted, accept, capacities, repetition};
use csdf_core::{Core, Move, Reply, play_on};
use csdf_model::Graph;
use std::alloc::Global;
use std::process::Abort;
use std::test::Fail;

fn capacities_of(alloc: Global, graph: &Graph) -> Result<Vec<u32>, Fail> {
    let vector = repetition(alloc, graph)?;
    Ok(capacities(alloc, graph, &vector)?)
}

#[test]
fn finds_capacities_of_a_vector(rt: HostRuntime) -> Result<(), Fail> {
    let chain = graph(&rt, CHAIN)?;
    let found = capacities_of(rt.alloc(), &chain)?;
    expect_eq(&rt, found.as_slice(), [4, 2].as_slice());
    Ok(())
}

fn check_chain(rt: &impl Abort, accepted: &Accepted) {
    expect_eq(rt, accepted.vector().q.as_slice(), [3, 2, 1].as_slice());
    expect_eq(rt, accepted.capacities(), [4, 2].as_slice());
}

/// Where memory is wanting the graph comes back, and is accepted once there is some.
#[test]
fn hands_the_graph_back(rt: HostRuntime) -> Result<(), Fail> {
    match accept(rt.alloc(), graph(&rt, CHAIN)?) {
        Ok(accepted) => check_chain(&rt, &accepted),
        Err((chain, fault)) => {
            expect_eq(&rt, fault, AcceptFault::Memory);
            match accept(rt.alloc(), chain) {
                Ok(accepted) => check_chain(&rt, &accepted),
                Err((_, fault)) => return Err(fault.into()),
            }
        }
    }
    Ok(())
}

const SCRIPT: &str =
    "begin 0 / read 0 / write 0 5 6 / finish 0 / begin 0 / read 0 / write 0 7 / finish 0 / \
    begin 1 / read 1 / write 1 / finish 1";

const REPLIES: &str = "ok / ok / ok / ok / ok / ok / ok / ok / ok / ok 5 6 7 / ok / ok";

/// Whether the core shows this.
fn shows(alloc: Global, core: &Core, state: &str) -> Result<bool, Fail> {
    let now = shown(alloc, core)?;
    Ok(now.as_str() == state)
}

/// Whether the core shows this now, or after some of the moves, from the first on.
fn comes_to_show(
    alloc: Global,
    core: &mut Core,
    moves: &[Move],
    state: &str,
) -> Result<bool, Fail> {
    let mut found = shows(alloc, core, state)?;
    for next in moves {
        play_on(core, alloc, std::slice::from_ref(next))?;
        found |= shows(alloc, core, state)?;
    }
    Ok(found)
}

/// Whether the core shows what one does after some of the moves, from the first on.
fn is_after_a_front(
    alloc: Global,
    accepted: &Accepted,
    core: &Core,
    moves: &[Move],
) -> Result<bool, Fail> {
    let state = shown(alloc, core)?;
    let mut other = opening_core(alloc, accepted)?;
    comes_to_show(alloc, &mut other, moves, state.as_str())
}

/// Plays the moves: all of them with the wanted replies, or for want of memory a front of them.
fn play_front(
    rt: &impl Abort,
    alloc: Global,
    accepted: &Accepted,
    moves: &[Move],
) -> Result<(), Fail> {
    let mut core = opening_core(alloc, accepted)?;
    play_front_on(rt, alloc, accepted, &mut core, moves)
}

fn play_front_on(
    rt: &impl Abort,
    alloc: Global,
    accepted: &Accepted,
    core: &mut Core,
    moves: &[Move],
) -> Result<(), Fail> {
    match play_on(core, alloc, moves) {
        Ok(replies) => check_replies(rt, alloc, &replies),
        Err(_) => check_front(rt, alloc, accepted, core, moves),
    }
}

fn check_replies(rt: &impl Abort, alloc: Global, replies: &[Reply]) -> Result<(), Fail> {
    let text = text_of(alloc, replies)?;
    expect_eq(rt, text.as_str(), REPLIES);
    Ok(())
}

fn check_front(
    rt: &impl Abort,
    alloc: Global,
    accepted: &Accepted,
    core: &Core,
    moves: &[Move],
) -> Result<(), Fail> {
    let is_front = is_after_a_front(alloc, accepted, core, moves)?;
    assert!(rt; is_front);
    Ok(())
}

fn play_script_front(rt: &impl Abort, alloc: Global, accepted: &Accepted) -> Result<(), Fail> {
    let moves = moves_in(alloc, SCRIPT)?;
    play_front(rt, alloc, accepted, &moves)
}

#[test]
fn plays_a_front_of_the_moves(rt: HostRuntime) -> Result<(), Fail> {
    let accepted = accepted_in(rt.alloc(), PAIR)?;
    play_script_front(&rt, rt.alloc(), &accepted)
}
