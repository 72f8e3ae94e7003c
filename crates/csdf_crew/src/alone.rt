//! A floor that the calling thread runs alone: nothing is behind a lock, and no firing has to be claimed.

ghost use Rattle.std.specs.Prelude.{◌≡◌, ◌<◌, ◌++◌, IfOk, OnErr, OnOk};
ghost use Rattle.csdf_core.specs.Step.{IsQuiet};
ghost use Rattle.csdf_floor.specs.Floor.{HasGone};
ghost use Rattle.csdf_floor.specs.Making.{closes_made, made_moves};

use crate::claims::most_from;
use crate::ready_set::ReadySet;
use crate::told::Told;
use csdf_analysis::mask::lowest;
use csdf_floor::{Floor, StartFault};
use csdf_kernel::{Counts, Outputs};
use std::alloc::{AllocError, Global};
use std::sync::Wait;

/// The lists that firings are worked out in, again and again.
#[derive(Drop)]
struct Bench {
    counts: Counts,
    outputs: Outputs,
}

/// Makes firings of the actor, as many as go in one call, and tells the ready set and the gate of them. It answers
/// how many they are: none where it can't make one. An error says that memory ran out.
fn make_some<G: Told>(
    floor: &mut Floor,
    ready: &mut ReadySet,
    actor: u32,
    bench: &mut Bench,
    gate: &G,
) -> Result<u32, AllocError>
    ensures made { IfOk result (λ n. 0 < n → HasGone floor.old floor.new (made_moves floor.old actor n ++ closes_made floor.old actor n)) }
    ensures none { IfOk result (λ n. n ≡ 0 → floor.new ≡ floor.old) }
    ensures unchanged { OnErr result (floor.new ≡ floor.old) }
    ensures told { IfOk result (λ n. 0 < n → G.knows_made gate.now n) }
{
    if actor >= floor.core().actors() {
        ready.refused(actor);
        return Ok(0);
    }
    let firing = floor.core().fired(actor);
    let most = most_from(firing);
    match floor.make(actor, firing, most, &mut bench.counts, &mut bench.outputs) {
        Ok(count) => {
            ready.made(floor.core(), actor);
            gate.tell_made(count);
            Ok(count)
        }
        Err(StartFault::Memory) => Err(AllocError),
        Err(_) => {
            ready.refused(actor);
            Ok(0)
        }
    }
}

/// Runs the floor by the calling thread alone: it makes firings until none can begin, of the actors that can
/// always the first in file order. The gate lets every firing through. An error says that memory ran out.
pub fn run_alone<R: Wait, G: Told>(
    rt: &R,
    alloc: Global,
    floor: &mut Floor,
    gate: &G,
) -> Result<(), AllocError>
    ensures keeps { floor.new.keeps ≡ floor.old.keeps }
    ensures work { floor.new.work ≡ floor.old.work }
    ensures quiet { OnOk result (IsQuiet floor.new.core.plan floor.new.core.now) }
{
    let mut ready = ReadySet::new(alloc, floor.accepted())?;
    let mut bench = Bench {
        counts: Counts::new(alloc),
        outputs: Outputs::new(alloc),
    };
    ready.look_at_all(floor.core());
    for _ in rt.forever() {
        if let Some(actor) = lowest(ready.actors()) {
            let _made = make_some(floor, &mut ready, actor, &mut bench, gate)?;
        } else if floor.core().is_quiet() {
            return Ok(());
        } else {
            ready.look_at_all(floor.core());
        }
    }
    unreachable!()
}
