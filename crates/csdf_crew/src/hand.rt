//! What a worker has in hand: one job and one list of outputs, which it uses again and again.

ghost use Rattle.std.specs.Prelude.{◌≡◌, ◌<◌, ◌≤◌, ◌++◌, ℕ, IfOk, MatchOption, OnOk, false, true};
ghost use Rattle.csdf_kernel.specs.Value.{value_of};
ghost use Rattle.csdf_floor.specs.Floor.{HasGone, IsReady, IsStartAnswer, start_refusal};
ghost use Rattle.csdf_floor.specs.Making.{closes_made, made_moves};
ghost use Rattle.csdf_crew.specs.Hand.{claim_in};

use crate::claims::Claim;
use crate::gate::Gate;
use crate::monitor::Asked;
use csdf_floor::{Draft, Floor, StartFault};
use csdf_kernel::{Job, Outputs, eval_into};
use std::alloc::{AllocError, Global};
use std::marker::{Model, PhantomData};

/// A job, and its outputs once it was evaluated behind the gate. Only [`Hand::evaluate`] says so of a job,
/// and no other call lends out tokens to deliver than [`Hand::tokens`]. A contract sees the job and
/// whether it was made: the job determines the outputs. Beside it there is a draft of firings that are
/// made at once, which is of what the run asks for.
pub(crate) struct Hand<K: Asked> {
    job: Job,
    outputs: Outputs,
    draft: Draft,
    is_made: bool,
    of: PhantomData<K>,
}

impl<K: Asked> Drop for Hand<K> {
    fn drop(self) {
        let Hand {
            job: _,
            outputs: _,
            draft: _,
            is_made: _,
            of: _,
        } = self;
    }
}

impl<K: Asked> Model for Hand<K> {
    ghost use Rattle.std.specs.Prelude.{◌≡◌, ◌<◌, true};
    ghost use Rattle.csdf_kernel.specs.Value.{value_of};
    ghost use Rattle.csdf_floor.specs.Drafts.{IsDrafted};
    ghost use Rattle.csdf_floor.specs.Work.{program};
    ghost use Rattle.csdf_crew.specs.Hand.{HandView};

    ghost Value = { HandView };

    ghost view = { λ h. record { job = h.job; is_made = h.is_made } };

    ghost invariant = { λ h. (h.is_made ≡ true → h.outputs.items ≡ value_of h.job.kernel h.job.counts.items h.job.inputs.items)
        × (0 < h.draft.firings → IsDrafted (program K.work) h.draft) };
}

impl<K: Asked> Hand<K> {
    /// Nothing in hand.
    pub(crate) fn new(alloc: Global) -> Hand<K>
        ensures { result.is_made ≡ false }
    {
        Hand {
            job: Job::blank(alloc),
            outputs: Outputs::new(alloc),
            draft: Draft::new(alloc),
            is_made: false,
            of: PhantomData,
        }
    }

    /// The job.
    pub(crate) fn job(&self) -> &Job
        ensures { result.now ≡ self.now.job }
    {
        &self.job
    }

    /// The claim of what is to be delivered.
    pub(crate) fn claim(&self) -> Option<Claim>
        ensures { result ≡ claim_in self.now }
    {
        if !self.is_made {
            return None;
        }
        Some(Claim {
            actor: self.job.actor,
            firing: self.job.firing,
        })
    }

    /// The tokens to deliver, where the job was evaluated.
    pub(crate) fn tokens(&self) -> Option<&[i32]>
        ensures { MatchOption result (self.now.is_made ≡ false) (λ tokens.
            (tokens.now ≡ value_of self.now.job.kernel self.now.job.counts.items self.now.job.inputs.items) × (self.now.is_made ≡ true)) }
    {
        if !self.is_made {
            return None;
        }
        Some(self.outputs.as_slice())
    }

    /// What was delivered is no longer in hand.
    pub(crate) fn put_down(&mut self)
        ensures { self.new.is_made ≡ false }
    {
        self.is_made = false;
    }

    /// Starts a firing on the floor, with its job in the place of the one in hand.
    pub(crate) fn start(
        &mut self,
        floor: &mut Floor,
        actor: u32,
        firing: u32,
    ) -> Result<(), StartFault>
        ensures answer { IsStartAnswer (start_refusal floor.old actor firing) result }
        ensures idle { self.new.is_made ≡ false }
        ensures job { OnOk result ((self.new.job.actor ≡ actor) × (self.new.job.firing ≡ firing)) }
        ensures ready { OnOk result (IsReady self.new.job) }
        ensures keeps { floor.new.keeps ≡ floor.old.keeps }
        ensures work { floor.new.work ≡ floor.old.work }
    {
        self.is_made = false;
        match floor.start_into(actor, firing, &mut self.job) {
            Ok(()) => Ok(()),
            Err(fault) => Err(fault),
        }
    }

    /// Drafts firings of an actor, the claimed one first: at most so many, which take so many products at
    /// least. False where there are none.
    pub(crate) fn draft(&mut self, floor: &Floor, claim: Claim, most: u32, heavy: u64) -> bool
        requires work { floor.now.work ≡ K.work }
        ensures { self.new ≡ self.old }
    {
        let draft = &mut self.draft;
        match floor.draft(claim.actor, claim.firing, most, heavy, draft) {
            Ok(()) => draft.firings() > 0,
            Err(_fault) => false,
        }
    }

    /// Evaluates the draft, all of whose firings pass the gate. Where memory runs out it is not evaluated.
    pub(crate) fn evaluate_draft<G: Gate>(&mut self, gate: &G)
        requires open { (a k : ℕ) → G.passed gate.now a k }
        ensures { self.new ≡ self.old }
    {
        let _ = gate;
        match self.draft.evaluate() {
            Ok(()) | Err(_) => {}
        }
    }

    /// Makes firings of an actor on the floor, the claimed one first: at most so many, all of which
    /// pass the gate. They are those of the draft where it was evaluated. Nothing is in hand then.
    pub(crate) fn make<G: Gate>(
        &mut self,
        floor: &mut Floor,
        gate: &G,
        claim: Claim,
        most: u32,
    ) -> Result<u32, StartFault>
        requires open { (k : ℕ) → claim.firing ≤ k → G.passed gate.now claim.actor k }
        requires some { 0 < most }
        requires work { floor.old.work ≡ K.work }
        ensures idle { self.new.is_made ≡ false }
        ensures answer { IsStartAnswer (start_refusal floor.old claim.actor claim.firing) result }
        ensures some { IfOk result (λ n. 0 < n) }
        ensures most { IfOk result (λ n. n ≤ most) }
        ensures gone { IfOk result (λ n. HasGone floor.old floor.new
            (made_moves floor.old claim.actor n ++ closes_made floor.old claim.actor n)) }
        ensures keeps { floor.new.keeps ≡ floor.old.keeps }
        ensures work { floor.new.work ≡ floor.old.work }
    {
        let _ = gate;
        self.is_made = false;
        let counts = &mut self.job.counts;
        let outputs = &mut self.outputs;
        let draft = &self.draft;
        floor.make_from(claim.actor, claim.firing, most, draft, counts, outputs)
    }

    /// Evaluates the job, whose worker has passed the gate.
    pub(crate) fn evaluate<G: Gate>(&mut self, gate: &G) -> Result<(), AllocError>
        requires ready { IsReady self.old.job }
        requires passed { G.passed gate.now self.old.job.actor self.old.job.firing }
        ensures job { self.new.job ≡ self.old.job }
        ensures made { OnOk result (self.new.is_made ≡ true) }
    {
        let _ = gate;
        self.is_made = false;
        eval_into(&self.job, &mut self.outputs)?;
        self.is_made = true;
        Ok(())
    }
}
