//! Jobs and their values: what the kernel of an actor gives for the tokens that one firing read.
#![tactic(auto)]

ghost use Rattle.std.specs.Prelude.{◌≡◌, ◌≤◌, [], length, sum, replicate, pos, All, IsOk, IfOk, OnOk, OnErr, IfErr};
ghost use Rattle.csdf_model.specs.declared.parts.Kernel.TheVariants.{Sink};
ghost use Rattle.csdf_kernel.specs.Value.{value_of, HasFilterInRange};

mod channels;
mod filter;
mod light;
mod looping;
mod numbers;
mod outputs;
mod prepared;
mod small;

use csdf_model::{Kernel, MAX_CHANNELS, MAX_TOKENS_PER_FIRING, MAX_TOTAL_PER_FIRING};
pub use looping::eval_loop;
use outputs::outputs_into;
pub use outputs::{Outputs, eval_block, push_value};
pub use prepared::Prepared;
use smallvec::SmallVec;
use std::alloc::{AllocError, Global};
use std::marker::Model;

/// How many tokens a firing writes to each output channel, in file order.
pub type Counts = SmallVec<u32, 4>;

/// The tokens that a firing read, input channels in file order, or for a source its part of a file.
pub type Inputs = SmallVec<i32, 16>;

/// One firing's work, which needs nothing but what is in it.
#[derive(Debug, Drop)]
pub struct Job {
    pub kernel: Kernel,
    /// The number of the actor that fires.
    pub actor: u32,
    /// The number of its firing, counted from 0.
    pub firing: u32,
    pub counts: Counts,
    pub inputs: Inputs,
}

impl Job {
    /// A job of no firing, which another takes the place of: that of a sink with no channel.
    pub fn blank(alloc: Global) -> Job
        ensures kernel { result.kernel ≡ Sink }
        ensures actor { result.actor ≡ 0 }
        ensures firing { result.firing ≡ 0 }
        ensures counts { result.counts.items ≡ [] }
        ensures inputs { result.inputs.items ≡ [] }
    {
        Job {
            kernel: Kernel::Sink,
            actor: 0,
            firing: 0,
            counts: Counts::new(alloc),
            inputs: Inputs::new(alloc),
        }
    }
}

/// A job that is done: it has the kernel's value as its outputs, whoever made it. A contract sees it
/// as its job, which determines the outputs.
#[derive(Debug, Drop)]
pub struct Done {
    job: Job,
    outputs: Outputs,
}

impl Model for Done {
    ghost use Rattle.std.specs.Prelude.{◌≡◌};
    ghost use Rattle.csdf_kernel.specs.declared.Job.{Job};
    ghost use Rattle.csdf_kernel.specs.Value.{value_of};

    ghost Value = { Job };

    ghost view = { λ d. d.job };

    ghost invariant = { λ d. d.outputs.items
        ≡ value_of d.job.kernel d.job.counts.items d.job.inputs.items };
}

impl Done {
    /// The job that was done.
    pub fn job(&self) -> &Job
        ensures { result.now ≡ self.now }
    {
        &self.job
    }

    /// The kernel's value of the job: the tokens to write, output channels in file order, to each as
    /// many as its count. With no input each of them is 0.
    #[tactic(auto, using(crate::proofs::ValueLemmas::length_of_value, crate::proofs::ValueLemmas::value_of_none))]
    pub fn outputs(&self) -> &[i32]
        ensures value { result.now
            ≡ value_of self.now.kernel self.now.counts.items self.now.inputs.items }
        ensures count { length result.now ≡ sum self.now.counts.items }
        ensures no_input { self.now.inputs.items ≡ []
            → result.now ≡ replicate (sum self.now.counts.items) (pos 0) }
    {
        self.outputs.as_slice()
    }
}

/// Does a job, with the kernel's value in the place of what the outputs hold: the tokens to write,
/// output channels in file order, to each as many as its count. With no input each of them is 0.
/// It allocates once at most, and not at all where the outputs have room for so many.
///
/// An error says that memory ran out; then the outputs hold what they held.
#[tactic(auto, using(crate::proofs::ValueLemmas::length_of_value, crate::proofs::ValueLemmas::value_of_none))]
pub fn eval_into(job: &Job, outputs: &mut Outputs) -> Result<(), AllocError>
    requires few_counts { length job.now.counts.items ≤ MAX_CHANNELS }
    requires small_counts { All (λ count. count ≤ MAX_TOKENS_PER_FIRING) job.now.counts.items }
    requires few_inputs { length job.now.inputs.items ≤ MAX_TOTAL_PER_FIRING }
    requires filter_in_range { HasFilterInRange job.now.kernel }
    ensures value { OnOk result
        (outputs.new.items ≡ value_of job.now.kernel job.now.counts.items job.now.inputs.items) }
    ensures count { OnOk result (length outputs.new.items ≡ sum job.now.counts.items) }
    ensures no_input { OnOk result (job.now.inputs.items ≡ []
        → outputs.new.items ≡ replicate (sum job.now.counts.items) (pos 0)) }
    ensures unchanged { OnErr result (outputs.new ≡ outputs.old) }
    ensures room { sum job.now.counts.items ≤ outputs.old.capacity → IsOk result }
{
    outputs_into(
        &job.kernel,
        job.counts.as_slice(),
        job.inputs.as_slice(),
        outputs,
    )
}

/// Does a job. It allocates once at most, and not at all for 16 outputs or fewer. Where there is no
/// memory for the outputs it hands the job back.
pub fn eval(alloc: Global, job: Job) -> Result<Done, (Job, AllocError)>
    requires few_counts { length job.counts.items ≤ MAX_CHANNELS }
    requires small_counts { All (λ count. count ≤ MAX_TOKENS_PER_FIRING) job.counts.items }
    requires few_inputs { length job.inputs.items ≤ MAX_TOTAL_PER_FIRING }
    requires filter_in_range { HasFilterInRange job.kernel }

    // A `Done` is seen as its job, and its outputs are the value of that job.
    ensures done { IfOk result (λ done. done ≡ job) }
    ensures handed_back { IfErr result (λ refused. refused.0 ≡ job) }

    // Memory is asked for only where the outputs do not fit inline.
    ensures inline { sum job.counts.items ≤ 16 → IsOk result }
{
    let mut outputs = Outputs::new(alloc);
    match eval_into(&job, &mut outputs) {
        Ok(()) => Ok(Done { job, outputs }),
        Err(error) => Err((job, error)),
    }
}
