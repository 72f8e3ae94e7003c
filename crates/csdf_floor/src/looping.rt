//! Several firings of an actor that keeps its state in a channel to itself, made at once.
//!
//! Their values are computed one after the other: the actor's buffer has the state, a window as long as what a firing
//! reads, and behind it the tokens of the other input.

ghost use Rattle.std.specs.Prelude.{◌≡◌, ◌+◌, ◌*◌, ◌<◌, ◌≤◌, [], false, All, IfSome, OnOk, OnErr, length, slice_index_or, sum};
ghost use Rattle.csdf_model.specs.declared.parts.Kernel.TheVariants.{Sink};
ghost use Rattle.csdf_core.specs.Engine.{CanFire};
ghost use Rattle.csdf_core.specs.Feedback.{CanGoOn, IsFeedback};
ghost use Rattle.csdf_core.specs.Ports.{outputs_at};
ghost use Rattle.csdf_core.specs.Rows.{need};
ghost use Rattle.csdf_core.specs.Step.{count};
ghost use Rattle.csdf_kernel.specs.Value.{HasFilterInRange};
ghost use Rattle.csdf_floor.specs.Making.{HasMade, AreLoopValues, AreOwnValues, made_moves};
ghost use Rattle.csdf_floor.specs.Work.{program, is_sink_kernel};

use crate::book::Book;
use csdf_core::{Core, Feedback};
use csdf_kernel::{Counts, Outputs, eval_loop};
use csdf_model::{Kernel, MAX_CHANNELS, MAX_TOKENS_PER_FIRING};
use std::alloc::AllocError;

/// The kernel's values of the actor's next n firings, in the place of what the outputs hold, worked out in the buffer.
fn own_values(
    core: &Core,
    kernel: &Kernel,
    counts: &[u32],
    actor: u32,
    feedback: Feedback,
    n: u32,
    buffer: &mut [i32],
    outputs: &mut Outputs,
) -> Result<(), AllocError>
    requires feedback { IsFeedback core.now.plan actor feedback }
    requires can { CanGoOn core.now.plan core.now.now actor feedback.channel n }
    requires few_counts { length counts.now ≤ MAX_CHANNELS }
    requires small_counts { All (λ count. count ≤ MAX_TOKENS_PER_FIRING) counts.now }
    requires filter_in_range { HasFilterInRange kernel.now }
    requires part { feedback.before + feedback.taken ≤ sum counts.now }
    requires buffer { length buffer.old ≡ feedback.taken + need actor (count core.now.now actor) core.now.plan.channels + n * feedback.each }
    ensures values { OnOk result (AreLoopValues core.now kernel.now counts.now actor n feedback outputs.new.items) }
{
    let need = core.need(actor);
    let (state, rest) = buffer.split_at_mut(feedback.taken as usize);
    let (window, others) = rest.split_at_mut(need);
    core.peek_on(actor, feedback, n, state, others);
    eval_loop(
        kernel,
        counts,
        feedback.is_first,
        feedback.before as usize,
        n,
        state,
        others,
        window,
        outputs,
    )
}

impl Book {
    /// The channel in which an actor keeps its state, where it can make its next n firings in one go. `None`
    /// for a sink.
    pub(crate) fn goes_on(&self, actor: u32, n: u32) -> Option<Feedback>
        requires { actor < length self.now.shown.core.plan.sources }
        ensures feedback { IfSome result (IsFeedback self.now.shown.core.plan actor) }
        ensures can { IfSome result (λ f. CanGoOn self.now.shown.core.plan self.now.shown.core.now actor f.channel n) }
        ensures other { IfSome result (λ f. is_sink_kernel (slice_index_or (program self.now.shown.work).kernels actor Sink) ≡ false) }
    {
        if self.work.is_sink(actor) {
            return None;
        }
        let feedback = self.core.feedback(actor)?;
        if !self.core.can_go_on(actor, feedback, n) {
            return None;
        }
        Some(feedback)
    }

    /// The kernel's values of the actor's next n firings, in the place of what the outputs hold. The buffer is long
    /// enough.
    fn own_values_into(
        &mut self,
        actor: u32,
        feedback: Feedback,
        n: u32,
        counts: &mut Counts,
        outputs: &mut Outputs,
    ) -> Result<(), AllocError>
        requires feedback { IsFeedback self.old.shown.core.plan actor feedback }
        requires can { CanGoOn self.old.shown.core.plan self.old.shown.core.now actor feedback.channel n }
        requires buffer { length (slice_index_or self.old.reads actor [])
            ≡ feedback.taken + need actor (count self.old.shown.core.now actor) self.old.shown.core.plan.channels + n * feedback.each }
        ensures shown { self.new.shown ≡ self.old.shown }
        ensures rooms { self.new.rooms ≡ self.old.rooms }
        ensures room { self.new.room ≡ self.old.room }
        ensures width { self.new.width ≡ self.old.width }
        ensures values { OnOk result (AreOwnValues self.old.shown actor n outputs.new.items) }
    {
        self.counts_into(actor, counts)?;
        let kernel = self.work.kernel(actor);
        let buffer = &mut self.reads[actor as usize];
        own_values(
            &self.core,
            kernel,
            counts.as_slice(),
            actor,
            feedback,
            n,
            buffer.as_mut_slice(),
            outputs,
        )
    }

    /// Makes the actor's next n firings at once.
    pub(crate) fn make_with_state(
        &mut self,
        actor: u32,
        feedback: Feedback,
        n: u32,
        counts: &mut Counts,
        outputs: &mut Outputs,
    ) -> Result<(), AllocError>
        requires some { 0 < n }
        requires feedback { IsFeedback self.old.shown.core.plan actor feedback }
        requires can { CanGoOn self.old.shown.core.plan self.old.shown.core.now actor feedback.channel n }
        requires fires { CanFire self.old.shown.core.plan self.old.shown.core.now actor n }
        requires other { is_sink_kernel (slice_index_or (program self.old.shown.work).kernels actor Sink) ≡ false }
        ensures made { OnOk result (HasMade self.old.shown self.new.shown actor n (made_moves self.old.shown actor n)) }
        ensures room { OnOk result (length (outputs_at self.old.shown.core.plan.channels actor) ≤ self.new.room) }
        ensures unchanged { OnErr result (self.new.shown ≡ self.old.shown) }
        ensures room_stays { OnErr result (self.old.room ≤ self.new.room) }
    {
        let taken = feedback.taken as usize;
        let each = feedback.each as usize;
        let long = taken + self.core.need(actor) + n as usize * each;
        let alloc = *outputs.allocator();
        self.make_room_for(alloc, actor, n, long)?;
        self.own_values_into(actor, feedback, n, counts, outputs)?;
        self.fire(alloc, actor, n, outputs.as_slice())
    }
}
