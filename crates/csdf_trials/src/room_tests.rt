//! Room for several periods.

ghost use Rattle.csdf_analysis.specs.Room.{HasSomePeriod};

use crate::accept_tests::{CYCLE, TIGHT_CHAIN, WIDE_CHAIN, check_capacities};
use crate::analysis_tests::graph;
use crate::shared::{CHAIN, DISAGREEING, STUCK_CYCLE, expect_eq_of};
use csdf_analysis::{AcceptFault, Room, accept_in_room};
use std::process::Abort;
use std::test::Fail;

/// Asserts the capacities of the graph with this room, and its number of cells.
fn expect_room(
    rt: &(impl Abort + AllocGlobal),
    text: &str,
    room: Room,
    capacities: &[u32],
    cells: u32,
) -> Result<(), Fail>
    requires { HasSomePeriod room }
{
    let accepted = accept_in_room(rt.alloc(), graph(rt, text)?, room)?;
    check_capacities(rt, &accepted, text, capacities, cells);
    Ok(())
}

#[test]
fn gives_room_for_periods(rt: HostRuntime) -> Result<(), Fail> {
    expect_room(&rt, CHAIN, Room::Periods(1), &[6, 2], 8)?;
    expect_room(&rt, CHAIN, Room::Periods(4), &[24, 8], 32)?;
    expect_room(
        &rt,
        CHAIN,
        Room::Periods(4_294_967_295),
        &[65_535, 65_535],
        131_070,
    )?;
    expect_room(&rt, WIDE_CHAIN, Room::Periods(3), &[5, 6], 7)?;
    expect_room(&rt, CYCLE, Room::Periods(4), &[4, 5], 9)
}

#[test]
fn gives_the_least_or_the_room_that_is_told(rt: HostRuntime) -> Result<(), Fail> {
    expect_room(&rt, CHAIN, Room::Least, &[4, 2], 6)?;
    expect_room(&rt, CHAIN, Room::Auto, &[4_092, 1_364], 5_456)?;
    expect_room(&rt, WIDE_CHAIN, Room::Auto, &[5, 4_096], 7)
}

/// Asserts why the graph is refused with room.
fn expect_refused(
    rt: &(impl Abort + AllocGlobal),
    text: &str,
    want: AcceptFault,
) -> Result<(), Fail> {
    let answer = accept_in_room(rt.alloc(), graph(rt, text)?, Room::Periods(8));
    expect_eq_of(rt, answer.err(), Some(want), text);
    Ok(())
}

#[test]
fn refuses_with_room_what_is_refused_without(rt: HostRuntime) -> Result<(), Fail> {
    expect_refused(&rt, DISAGREEING, AcceptFault::Unbalanced(1))?;
    expect_refused(&rt, STUCK_CYCLE, AcceptFault::Deadlock)?;
    expect_refused(&rt, TIGHT_CHAIN, AcceptFault::TooTight)
}
