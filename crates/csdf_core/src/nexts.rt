//! The next firing of each actor: kept, so that no move divides.

ghost use Rattle.std.specs.Prelude.{◌≡◌, ◌+◌, ◌<◌, ◌≤◌, length, replicate, slice_index, slice_set, IfOk};
ghost use Rattle.csdf_core.specs.Phases.{AreInPhase};

use crate::plan::Plan;
use crate::turn::{Turn, turn_ahead};
use csdf_model::MAX_FIRINGS_PER_ACTOR;
use std::alloc::{AllocError, Global};

/// The next firing of each actor.
#[derive(Drop)]
pub(crate) struct Nexts {
    /// How many firings are finished: the number of the next one.
    pub(crate) counts: Vec<u32>,
    /// The phase that it is in.
    pub(crate) phases: Vec<u32>,
}

impl Nexts {
    /// The first firings.
    ///
    /// An error says that memory ran out.
    pub(crate) fn first(alloc: Global, plan: &Plan) -> Result<Nexts, AllocError>
        ensures counts { IfOk result (λ nexts. nexts.counts.items ≡ replicate (length plan.now.sources) 0) }
        ensures phases { IfOk result (λ nexts. AreInPhase plan.now nexts.counts.items nexts.phases.items) }
    {
        let (actors, first) = (plan.actors(), plan.first_turn());
        Ok(Nexts {
            counts: vec![in alloc; first.firing; actors]?,
            phases: vec![in alloc; first.phase; actors]?,
        })
    }

    /// Goes on to the actor's firing that comes n firings later.
    pub(crate) fn advance(&mut self, plan: &Plan, actor: u32, n: u32)
        requires actor { actor < length plan.now.sources }
        requires counted { length self.old.counts.items ≡ length plan.now.sources }
        requires few { slice_index self.old.counts.items actor ≤ MAX_FIRINGS_PER_ACTOR }
        requires ahead { n ≤ MAX_FIRINGS_PER_ACTOR }
        requires phases { AreInPhase plan.now self.old.counts.items self.old.phases.items }
        ensures counts { self.new.counts.items ≡ slice_set self.old.counts.items actor (slice_index self.old.counts.items actor + n) }
        ensures phases { AreInPhase plan.now self.new.counts.items self.new.phases.items }
    {
        let a = actor as usize;
        let turn = Turn {
            firing: self.counts[a],
            phase: self.phases[a],
        };
        let next = turn_ahead(plan, actor, turn, n);
        self.counts[a] = next.firing;
        self.phases[a] = next.phase;
    }
}
