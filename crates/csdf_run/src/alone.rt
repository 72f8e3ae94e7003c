//! A run by the calling thread alone.

ghost use Rattle.std.specs.Prelude.{◌≡◌, Ok, Err, IfErr, IfOk};
ghost use Rattle.csdf_floor.specs.declared.fault.RunFault.TheVariants.{Memory};
ghost use Rattle.csdf_floor.specs.Outcome.{IsOutcome};
ghost use Rattle.csdf_run.specs.Requests.{IsFedOf, KnowsMost};

use crate::no_outcome::{NoOutcome, Ran};
use crate::request::RunRequest;
use csdf_crew::{Told, run_alone};
use csdf_floor::Settled;
use std::alloc::Global;
use std::sync::Wait;

/// What a floor has come to that was quiet.
fn told_of(settled: Settled) -> Ran
    requires { IfErr settled.outcome (λ fault. fault ≡ Memory) }
    ensures fed { result.fed ≡ settled.fed }
    ensures told { IfOk settled.outcome (λ o. result.outcome ≡ Ok o) }
    ensures memory { IfErr settled.outcome (λ _. result.outcome ≡ Err NoOutcome.Memory) }
{
    let Settled { fed, outcome } = settled;
    match outcome {
        Ok(outcome) => Ran {
            fed,
            outcome: Ok(outcome),
        },
        Err(_fault) => Ran {
            fed,
            outcome: Err(NoOutcome::Memory),
        },
    }
}

/// What a request comes to that is carried out by the calling thread alone. The gate lets every firing through.
pub(crate) fn outcome_alone<R: Wait, G: Told>(
    rt: &R,
    alloc: Global,
    request: RunRequest,
    gate: &G,
) -> Ran
    ensures fed { IsFedOf request.work result.fed }
    ensures outcome { IfOk result.outcome (IsOutcome request.work) }
    ensures cause { IfErr result.outcome (λ why. why ≡ NoOutcome.Memory) }
    ensures most { IfOk result.outcome (KnowsMost (G.knows_most gate.now) request.work) }
    ensures keeps { IfOk result.outcome (λ o. o.journal.keeps ≡ request.keeps) }
{
    let most = match request.most_firings(alloc) {
        Ok(most) => most,
        Err(_error) => {
            return Ran {
                fed: request.into_fed(),
                outcome: Err(NoOutcome::Memory),
            };
        }
    };
    let mut floor = match request.into_floor(alloc) {
        Ok(floor) => floor,
        Err(fed) => {
            return Ran {
                fed,
                outcome: Err(NoOutcome::Memory),
            };
        }
    };
    gate.tell_most(most);
    match run_alone(rt, alloc, &mut floor, gate) {
        Ok(()) => told_of(floor.into_settled(alloc)),
        Err(_error) => Ran {
            fed: floor.into_fed(),
            outcome: Err(NoOutcome::Memory),
        },
    }
}
