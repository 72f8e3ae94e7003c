//! What the actors of a run wait for.

ghost use Rattle.std.specs.Prelude.{◌≡◌, ◌<◌, ◌≤◌, ◌↔◌, ℕ, IfOk, IsTrue, MatchOption, length};
ghost use Rattle.csdf_analysis.specs.Running.{IsRun, IsStalled};
ghost use Rattle.csdf_analysis.specs.Stalling.{AreWaits, IsFirst, IsFull, IsShort, SaysOf};

use crate::net::Net;
use crate::run::Run;
use crate::stall::Wait;
use std::alloc::{AllocError, Global};

/// Whether the channel is an input of the actor that holds too few tokens for its next firing.
fn is_short(net: &Net, run: &Run, actor: u32, number: u32) -> bool
    requires run { IsRun net.now run.now }
    requires actor { actor < length net.now.firings }
    requires exists { number < length net.now.channels }
    ensures { IsTrue result ↔ IsShort net.now.channels run.now.counts.items actor number }
{
    if net.channel(number).to != actor {
        return false;
    }
    let phase = run.phase(net, actor);
    !run.holds_enough(net, number, phase)
}

/// Whether the channel is an output of the actor that would hold too many tokens after its next
/// firing.
fn is_full(net: &Net, run: &Run, actor: u32, number: u32) -> bool
    requires run { IsRun net.now run.now }
    requires exists { number < length net.now.channels }
    ensures { IsTrue result ↔ IsFull net.now.channels run.now.bounds.items run.now.counts.items actor number }
{
    net.channel(number).from == actor && run.filled(net, number) > run.bounds[number as usize]
}

/// The first input of the actor that holds too few tokens for its next firing.
fn first_short(net: &Net, run: &Run, actor: u32) -> Option<u32>
    requires run { IsRun net.now run.now }
    requires actor { actor < length net.now.firings }
    ensures { MatchOption result ((i : ℕ) → IsShort net.now.channels run.now.counts.items actor i → ⊥)
        (IsFirst (IsShort net.now.channels run.now.counts.items actor)) }
{
    for number in 0..net.channels() as u32 {
        if is_short(net, run, actor, number) {
            return Some(number);
        }
    }
    None
}

/// The first output of the actor that would hold too many tokens after its next firing.
fn first_full(net: &Net, run: &Run, actor: u32) -> Option<u32>
    requires run { IsRun net.now run.now }
    ensures { MatchOption result ((i : ℕ) → IsFull net.now.channels run.now.bounds.items run.now.counts.items actor i → ⊥)
        (IsFirst (IsFull net.now.channels run.now.bounds.items run.now.counts.items actor)) }
{
    for number in 0..net.channels() as u32 {
        if is_full(net, run, actor, number) {
            return Some(number);
        }
    }
    None
}

/// What the actor waits for at a stall, or nothing where it has fired as often as in a period.
fn wait_of(net: &Net, run: &Run, actor: u32) -> Option<Wait>
    requires run { IsRun net.now run.now }
    requires actor { actor < length net.now.firings }
    requires stalled { IsStalled net.now.channels net.now.firings run.now.bounds.items run.now.counts.items }
    ensures { SaysOf net.now.channels net.now.firings run.now.bounds.items run.now.counts.items actor result }
{
    if run.counts[actor as usize] >= net.firings(actor) {
        return None;
    }
    if let Some(number) = first_short(net, run, actor) {
        return Some(Wait::Tokens(number));
    }
    let number = first_full(net, run, actor)?;
    Some(Wait::Room(number))
}

/// What each actor waits for at a stall.
pub(crate) fn waits_of(alloc: Global, net: &Net, run: &Run) -> Result<Vec<Option<Wait>>, AllocError>
    requires run { IsRun net.now run.now }
    requires stalled { IsStalled net.now.channels net.now.firings run.now.bounds.items run.now.counts.items }
    ensures { IfOk result (λ v. AreWaits net.now.channels net.now.firings run.now.bounds.items run.now.counts.items v.items) }
{
    let mut waits = Vec::new(alloc);
    for actor in 0..net.actors() as u32 {
        waits.push(wait_of(net, run, actor))?;
    }
    Ok(waits)
}
