//! The outputs of a job, in one list.
ghost use Rattle.std.specs.Prelude.{◌≡◌, ◌≤◌, ◌<◌, ◌^◌, ◌*◌, ◌++◌, ◌∷◌, [], length, sum, take, All, IsOk, IsTrue, OnOk, OnErr};
ghost use Rattle.smallvec.specs.SmallVec.{HasRoomFor};
ghost use Rattle.csdf_kernel.specs.Filter.{HasGreatest, IsFilterOf, IsInRange, IsNarrow};
ghost use Rattle.csdf_kernel.specs.Value.{value_of, values_of, GivesAsRead, HasFilterInRange};

use crate::channels::{push_copies, push_filtered, push_same, push_source};
use crate::filter::Filter;
use crate::light::{are_light, light_values_into};
use crate::numbers::{clamped, sum_of};
use csdf_model::{Kernel, MAX_CHANNELS, MAX_TOKENS_PER_FIRING, MAX_TOTAL_PER_FIRING};
use smallvec::SmallVec;
use std::alloc::AllocError;

/// Tokens to be written.
pub type Outputs = SmallVec<i32, 16>;

/// How many tokens the counts add up to.
pub(crate) fn total_of(counts: &[u32]) -> usize
    requires { sum counts.now < 2 ^ 32 }
    ensures { result ≡ sum counts.now }
{
    counts.iter().sum::<u32>() as usize
}

/// The filter of the kernel, with its weights gone through once; where it is none, one that nobody asks.
pub(crate) fn filter_of(kernel: &Kernel) -> Filter<'_>
    requires { HasFilterInRange kernel.now }
    ensures filter { IsFilterOf kernel.now result }
    ensures in_range { IsInRange result }
    ensures greatest { HasGreatest result }
{
    match kernel {
        Kernel::Fir {
            weights,
            taps,
            shift,
        } => Filter::new(weights, *taps, *shift),
        Kernel::Source | Kernel::Sink | Kernel::Copy | Kernel::Sum => Filter::new(&[], 0, 0),
    }
}

/// The kernel's value of one firing, at the end of a list that has room for it. Its filter is there, and
/// is narrow where it is marked so.
#[tactic(auto, unfolding(crate::specs::Value::value_of))]
pub(crate) fn push_value_by(
    outputs: &mut Outputs,
    kernel: &Kernel,
    filter: &Filter<'_>,
    narrow: bool,
    counts: &[u32],
    inputs: &[i32],
)
    requires few_counts { length counts.now ≤ MAX_CHANNELS }
    requires small_counts { All (λ count. count ≤ MAX_TOKENS_PER_FIRING) counts.now }
    requires few_inputs { length inputs.now ≤ MAX_TOTAL_PER_FIRING }
    requires filter { IsFilterOf kernel.now filter.now }
    requires in_range { IsInRange filter.now }
    requires narrow { IsTrue narrow → IsNarrow filter.now inputs.now }
    requires room { HasRoomFor outputs.old (sum counts.now) }
    ensures items { outputs.new.items ≡ outputs.old.items ++ value_of kernel.now counts.now inputs.now }
    ensures capacity { outputs.new.capacity ≡ outputs.old.capacity }
{
    let count = total_of(counts);
    match kernel {
        Kernel::Source => push_source(outputs, count, inputs),
        Kernel::Sink => push_same(outputs, count, 0),
        Kernel::Copy => push_copies(outputs, counts, inputs),
        Kernel::Sum => push_same(outputs, count, clamped(sum_of(inputs))),
        Kernel::Fir { .. } => push_filtered(outputs, counts, filter, narrow, inputs),
    }
}

/// The kernel's value of one firing, at the end of a list that has room for it.
pub fn push_value(outputs: &mut Outputs, kernel: &Kernel, counts: &[u32], inputs: &[i32])
    requires few_counts { length counts.now ≤ MAX_CHANNELS }
    requires small_counts { All (λ count. count ≤ MAX_TOKENS_PER_FIRING) counts.now }
    requires few_inputs { length inputs.now ≤ MAX_TOTAL_PER_FIRING }
    requires filter_in_range { HasFilterInRange kernel.now }
    requires room { HasRoomFor outputs.old (sum counts.now) }
    ensures items { outputs.new.items ≡ outputs.old.items ++ value_of kernel.now counts.now inputs.now }
    ensures capacity { outputs.new.capacity ≡ outputs.old.capacity }
{
    let filter = filter_of(kernel);
    let narrow = filter.is_narrow(inputs);
    push_value_by(outputs, kernel, &filter, narrow, counts, inputs);
}

/// Room for so many tokens in the place of what the list holds, which is let go.
///
/// An error says that memory ran out; then the list is as it was.
pub(crate) fn make_room(outputs: &mut Outputs, count: usize) -> Result<(), AllocError>
    ensures room { OnOk result (HasRoomFor outputs.new count) }
    ensures items { OnOk result (outputs.new.items ≡ []) }
    ensures unchanged { OnErr result (outputs.new ≡ outputs.old) }
    ensures fits { count ≤ outputs.old.capacity → IsOk result }
{
    let more = count.saturating_sub(outputs.len());
    outputs.reserve_exact(more)?;
    outputs.clear();
    Ok(())
}

/// The kernel's value, in the place of what the list holds.
///
/// An error says that memory ran out; then the list is as it was.
pub(crate) fn outputs_into(
    kernel: &Kernel,
    counts: &[u32],
    inputs: &[i32],
    outputs: &mut Outputs,
) -> Result<(), AllocError>
    requires few_counts { length counts.now ≤ MAX_CHANNELS }
    requires small_counts { All (λ count. count ≤ MAX_TOKENS_PER_FIRING) counts.now }
    requires few_inputs { length inputs.now ≤ MAX_TOTAL_PER_FIRING }
    requires filter_in_range { HasFilterInRange kernel.now }
    ensures value { OnOk result (outputs.new.items ≡ value_of kernel.now counts.now inputs.now) }
    ensures unchanged { OnErr result (outputs.new ≡ outputs.old) }
    ensures room { sum counts.now ≤ outputs.old.capacity → IsOk result }
{
    make_room(outputs, total_of(counts))?;
    push_value(outputs, kernel, counts, inputs);
    Ok(())
}

/// Whether there is one count, and it is this one.
#[tactic(auto, using(crate::proofs::ValueLemmas::one_alone))]
fn is_just(counts: &[u32], count: usize) -> bool
    ensures { IsTrue result → counts.now ≡ count ∷ [] }
{
    if counts.len() != 1 {
        return false;
    }
    counts[0] as usize == count
}

/// Whether a firing that reads so many tokens writes just these: to one channel, each of them once.
#[tactic(auto, using(crate::proofs::ValueLemmas::source_as_read, crate::proofs::ValueLemmas::copy_as_read, crate::proofs::ValueLemmas::one_sum))]
fn gives_as_read(kernel: &Kernel, counts: &[u32], need: usize) -> bool
    ensures as_read { IsTrue result → GivesAsRead kernel.now counts.now need }
    ensures many { IsTrue result → sum counts.now ≡ need }
{
    match kernel {
        Kernel::Source => is_just(counts, need),
        Kernel::Copy => is_just(counts, need),
        Kernel::Sink | Kernel::Sum | Kernel::Fir { .. } => false,
    }
}

/// Tokens, at the end of a list that has room for them.
fn push_all(outputs: &mut Outputs, tokens: &[i32])
    requires { HasRoomFor outputs.old (length tokens.now) }
    ensures { outputs.new.items ≡ outputs.old.items ++ tokens.now }
{
    match outputs.extend_from_slice(tokens) {
        Ok(()) => {}
        Err(_error) => unreachable!(),
    }
}

/// The kernel's values of so many firings of the same counts, end to end, at the end of a list that has
/// room for them. Each firing has the next `need` of the inputs. Whether a filter's products are narrow is
/// looked at once for all of them.
fn push_values(
    outputs: &mut Outputs,
    kernel: &Kernel,
    filter: &Filter<'_>,
    counts: &[u32],
    need: usize,
    firings: u32,
    inputs: &[i32],
)
    requires few_counts { length counts.now ≤ MAX_CHANNELS }
    requires small_counts { All (λ count. count ≤ MAX_TOKENS_PER_FIRING) counts.now }
    requires few_inputs { need ≤ MAX_TOTAL_PER_FIRING }
    requires filter { IsFilterOf kernel.now filter.now }
    requires in_range { IsInRange filter.now }
    requires greatest { HasGreatest filter.now }
    requires whole { firings * need ≤ length inputs.now }
    requires room { HasRoomFor outputs.old (firings * sum counts.now) }
    ensures { outputs.new.items ≡ outputs.old.items ++ values_of kernel.now counts.now need firings inputs.now }
{
    let narrow = filter.is_narrow(inputs);
    let mut at = 0;
    for _firing in 0..firings {
        push_value_by(
            outputs,
            kernel,
            filter,
            narrow,
            counts,
            &inputs[at..at + need],
        );
        at += need;
    }
}

/// Just what firings read, in the place of what the outputs hold: so many firings, each of which writes as
/// many tokens as it reads.
///
/// An error says that memory ran out; then the outputs hold what they held.
fn push_as_read(
    need: usize,
    firings: u32,
    inputs: &[i32],
    outputs: &mut Outputs,
) -> Result<(), AllocError>
    requires few_inputs { need ≤ MAX_TOTAL_PER_FIRING }
    requires whole { firings * need ≤ length inputs.now }
    ensures values { OnOk result (outputs.new.items ≡ take (firings * need) inputs.now) }
    ensures unchanged { OnErr result (outputs.new ≡ outputs.old) }
    ensures room { firings * need ≤ outputs.old.capacity → IsOk result }
{
    let count = firings as usize * need;
    make_room(outputs, count)?;
    push_all(outputs, &inputs[..count]);
    Ok(())
}

/// The kernel's values of a block of firings with the same counts, end to end, in the place of what
/// the outputs hold. Each firing has the next `need` of the inputs, and its value is what `eval` gives
/// for these. It allocates once at most, before the first firing, and not at all where the outputs
/// have room for all values.
///
/// An error says that memory ran out; then the outputs hold what they held.
pub fn eval_block(
    kernel: &Kernel,
    counts: &[u32],
    need: usize,
    firings: u32,
    inputs: &[i32],
    outputs: &mut Outputs,
) -> Result<(), AllocError>
    requires few_counts { length counts.now ≤ MAX_CHANNELS }
    requires small_counts { All (λ count. count ≤ MAX_TOKENS_PER_FIRING) counts.now }
    requires few_inputs { need ≤ MAX_TOTAL_PER_FIRING }
    requires filter_in_range { HasFilterInRange kernel.now }
    requires whole { firings * need ≤ length inputs.now }
    ensures values { OnOk result (outputs.new.items ≡ values_of kernel.now counts.now need firings inputs.now) }
    ensures unchanged { OnErr result (outputs.new ≡ outputs.old) }
    ensures room { firings * sum counts.now ≤ outputs.old.capacity → IsOk result }
{
    if gives_as_read(kernel, counts, need) {
        return push_as_read(need, firings, inputs, outputs);
    }
    let filter = filter_of(kernel);
    if are_light(kernel, &filter, counts, firings) {
        return light_values_into(&filter, counts[0], need, firings, inputs, outputs);
    }
    make_room(outputs, firings as usize * total_of(counts))?;
    if counts.is_empty() {
        return Ok(());
    }
    push_values(outputs, kernel, &filter, counts, need, firings, inputs);
    Ok(())
}
