//! The values of many firings of a light filter: one with small weights that gives few tokens a firing, to one
//! channel. The same place of all firings is told in one loop, whose body has a constant length.
ghost use Rattle.std.specs.Prelude.{◌≡◌, ◌≢◌, ◌≤◌, ◌<◌, ◌+◌, ◌*◌, ◌^◌, ◌∷◌, ℕ, [], length, slice_index, slice_range, IsOk, IsTrue, OnOk, OnErr};
ghost use Rattle.csdf_model.specs.declared.parts.Kernel.TheVariants.{Fir};
ghost use Rattle.csdf_kernel.specs.Filter.{AreNarrow, AreSmall, AreTapsAt, HasGreatest, IsFilterOf, IsInRange, IsPadded};
ghost use Rattle.csdf_kernel.specs.Light.{HoldsPlace, IsLight, KeepsOthers, firing_token};
ghost use Rattle.csdf_kernel.specs.Value.{filter_token, values_of};

use crate::filter::Filter;
use crate::outputs::Outputs;
use crate::small::{narrow_shifted, narrow_sum_at, small_clamped, small_shifted, small_sum_at};
use csdf_model::{Kernel, MAX_SHIFT, MAX_TOTAL_PER_FIRING, MAX_WEIGHTS};
use std::alloc::AllocError;

/// The most tokens that a firing of a light filter gives.
const MOST_GIVEN: u32 = 8;

/// The fewest firings that are told place by place.
const FEWEST_FIRINGS: u32 = 4;

/// Whether there is one count, and it is low.
#[tactic(auto, using(crate::proofs::ValueLemmas::one_alone))]
fn is_low(counts: &[u32]) -> bool
    ensures alone { IsTrue result → counts.now ≡ slice_index counts.now 0 ∷ [] }
    ensures low { IsTrue result → slice_index counts.now 0 ≤ MOST_GIVEN }
{
    if counts.len() != 1 {
        return false;
    }
    counts[0] <= MOST_GIVEN
}

/// Whether these are firings of a light filter, and enough of them.
pub(crate) fn are_light(kernel: &Kernel, filter: &Filter<'_>, counts: &[u32], firings: u32) -> bool
    requires { IsFilterOf kernel.now filter.now }
    ensures kernel { IsTrue result → kernel.now ≡ Fir filter.now.weights.now filter.now.taps filter.now.shift }
    ensures small { IsTrue result → IsTrue filter.now.small }
    ensures alone { IsTrue result → counts.now ≡ slice_index counts.now 0 ∷ [] }
    ensures low { IsTrue result → slice_index counts.now 0 ≤ MOST_GIVEN }
{
    if firings < FEWEST_FIRINGS || !filter.small {
        return false;
    }
    match kernel {
        Kernel::Fir { .. } => is_low(counts),
        Kernel::Source | Kernel::Sink | Kernel::Copy | Kernel::Sum => false,
    }
}

/// Makes the list so long. What it holds is of no interest.
///
/// An error says that memory ran out; then the list is as it was.
fn fit(outputs: &mut Outputs, count: usize) -> Result<(), AllocError>
    ensures long { OnOk result (length outputs.new.items ≡ count) }
    ensures unchanged { OnErr result (outputs.new ≡ outputs.old) }
    ensures room { count ≤ outputs.old.capacity → IsOk result }
{
    let more = count.saturating_sub(outputs.len());
    outputs.reserve_exact(more)?;
    match outputs.resize(count, 0) {
        Ok(()) => Ok(()),
        Err(_error) => unreachable!(),
    }
}

/// The values of so many firings of a light filter, which give so many tokens each, in the place of what the list
/// holds. Each firing has the next `need` of the inputs.
///
/// An error says that memory ran out; then the list is as it was.
pub(crate) fn light_values_into(
    filter: &Filter<'_>,
    each: u32,
    need: usize,
    firings: u32,
    inputs: &[i32],
    outputs: &mut Outputs,
) -> Result<(), AllocError>
    requires in_range { IsInRange filter.now }
    requires greatest { HasGreatest filter.now }
    requires small { IsTrue filter.now.small }
    requires low { each ≤ MOST_GIVEN }
    requires few_needed { need ≤ MAX_TOTAL_PER_FIRING }
    requires whole { firings * need ≤ length inputs.now }
    ensures values { OnOk result (outputs.new.items
        ≡ values_of (Fir filter.now.weights.now filter.now.taps filter.now.shift) (each ∷ []) need firings inputs.now) }
    ensures unchanged { OnErr result (outputs.new ≡ outputs.old) }
    ensures room { firings * each ≤ outputs.old.capacity → IsOk result }
{
    let block = LightBlock {
        filter: *filter,
        narrow: filter.has_narrow_products(inputs),
        each: each as usize,
        need,
        firings: firings as usize,
        inputs,
    };
    fit(outputs, block.firings * block.each)?;
    block.fill(outputs.as_mut_slice());
    Ok(())
}

/// Firings of a light filter.
#[derive(Clone, Copy)]
struct LightBlock<'a> {
    filter: Filter<'a>,
    /// Whether the products of its weights with the inputs are narrow.
    narrow: bool,
    /// How many tokens a firing gives.
    each: usize,
    /// How many tokens a firing reads.
    need: usize,
    firings: usize,
    inputs: &'a [i32],
}

impl LightBlock<'_> {
    /// The values of all firings, in the place of as many tokens.
    fn fill(&self, values: &mut [i32])
        requires light { IsLight self.now }
        requires long { length values.old ≡ self.now.firings * self.now.each }
        ensures { values.new ≡ values_of (Fir self.now.filter.weights.now self.now.filter.taps self.now.filter.shift) (self.now.each ∷ []) self.now.need self.now.firings self.now.inputs.now }
    {
        for place in 0..self.each {
            self.fill_at(values, place);
        }
    }

    /// The token at one place of each firing.
    fn fill_at(&self, values: &mut [i32], place: usize)
        requires light { IsLight self.now }
        requires place { place < self.now.each }
        requires long { length values.old ≡ self.now.firings * self.now.each }
        ensures long { length values.new ≡ length values.old }
        ensures told { HoldsPlace (firing_token self.now place) self.now.each values.new place 0 self.now.firings }
        ensures others { KeepsOthers self.now.each values.old values.new place 0 self.now.firings }
    {
        let have = self.filter.taps_at(self.need, place);
        let weights = self.filter.padded(have);
        if have <= 4 {
            self.fill_by::<4>(values, place, &weights, have);
        } else if have <= 8 {
            self.fill_by::<8>(values, place, &weights, have);
        } else {
            self.fill_by::<16>(values, place, &weights, have);
        }
    }

    /// The token at one place of each firing, by the first `N` of the padded weights. Near the end of the inputs,
    /// where these go past it, it is told by the filter.
    fn fill_by<const N: usize>(
        &self,
        values: &mut [i32],
        place: usize,
        weights: &[i32],
        have: usize,
    )
        requires few { N ≤ MAX_WEIGHTS }
        requires enough { have ≤ N }
        requires light { IsLight self.now }
        requires taps { AreTapsAt self.now.filter.weights.now self.now.filter.taps self.now.need place have }
        requires padded { IsPadded self.now.filter.weights.now have weights.now }
        requires place { place < self.now.each }
        requires long { length values.old ≡ self.now.firings * self.now.each }
        ensures long { length values.new ≡ length values.old }
        ensures told { HoldsPlace (firing_token self.now place) self.now.each values.new place 0 self.now.firings }
        ensures others { KeepsOthers self.now.each values.old values.new place 0 self.now.firings }
    {
        // `have` is there for the contract alone.
        let _ = have;
        let (need, each) = (self.need, self.each);
        let front = self.firings_with(place + N);
        self.fill_late(values, place, front);
        if self.narrow {
            fill_front::<N, true>(
                values,
                weights,
                self.filter.shift,
                self.inputs,
                need,
                each,
                place,
                front,
            );
        } else {
            fill_front::<N, false>(
                values,
                weights,
                self.filter.shift,
                self.inputs,
                need,
                each,
                place,
                front,
            );
        }
    }

    /// A number of firings from the first on, each of which has so many tokens among those of the block.
    fn firings_with(&self, reach: usize) -> usize
        ensures few { result ≤ self.now.firings }
        ensures there { (f : ℕ) → f < result → f * self.now.need + reach ≤ self.now.firings * self.now.need }
    {
        if self.need == 0 {
            return 0;
        }
        self.firings.saturating_sub(reach / self.need)
    }

    /// The token at one place of each firing from this one on.
    fn fill_late(&self, values: &mut [i32], place: usize, first: usize)
        requires light { IsLight self.now }
        requires place { place < self.now.each }
        requires first { first ≤ self.now.firings }
        requires long { length values.old ≡ self.now.firings * self.now.each }
        ensures long { length values.new ≡ length values.old }
        ensures told { HoldsPlace (firing_token self.now place) self.now.each values.new place first self.now.firings }
        ensures others { KeepsOthers self.now.each values.old values.new place first self.now.firings }
    {
        for firing in first..self.firings {
            let from = firing * self.need;
            let own = &self.inputs[from..from + self.need];
            values[firing * self.each + place] = self.filter.small_token(own, place);
        }
    }
}

/// The token at one place of each of the first firings, by the first `N` weights, which find a token each. It stands
/// by itself, so that its loop has the registers for itself.
#[inline(never)]
fn fill_front<const N: usize, const NARROW: bool>(
    values: &mut [i32],
    weights: &[i32],
    shift: u32,
    inputs: &[i32],
    need: usize,
    each: usize,
    place: usize,
    front: usize,
)
    requires few { N ≤ MAX_WEIGHTS }
    requires weights { N ≤ length weights.now }
    requires small { AreSmall weights.now N }
    requires narrow { IsTrue NARROW → AreNarrow weights.now inputs.now }
    requires shift { shift ≤ MAX_SHIFT }
    requires low { each ≤ MOST_GIVEN }
    requires few_needed { need ≤ MAX_TOTAL_PER_FIRING }
    requires place { place < each }
    requires there { (f : ℕ) → f < front → f * need + place + N ≤ length inputs.now }
    requires long { front * each ≤ length values.old }
    ensures long { length values.new ≡ length values.old }
    ensures told { HoldsPlace (λ f. filter_token weights.now N shift inputs.now (f * need + place)) each values.new place 0 front }
    ensures others { KeepsOthers each values.old values.new place 0 front }
{
    let mut at = place;
    let mut to = place;
    for _firing in 0..front {
        values[to] = padded_token::<N, NARROW>(weights, inputs, at, shift);
        at += need;
        to += each;
    }
}

/// The token at a place whose first `N` weights find a token each.
#[inline]
#[tactic(auto, unfolding(crate::specs::Value::filter_token))]
fn padded_token<const N: usize, const NARROW: bool>(
    weights: &[i32],
    inputs: &[i32],
    at: usize,
    shift: u32,
) -> i32
    requires few { N ≤ MAX_WEIGHTS }
    requires weights { N ≤ length weights.now }
    requires small { AreSmall weights.now N }
    requires narrow { IsTrue NARROW → AreNarrow weights.now inputs.now }
    requires shift { shift ≤ MAX_SHIFT }
    requires there { at + N ≤ length inputs.now }
    ensures { result ≡ filter_token weights.now N shift inputs.now at }
{
    if NARROW {
        narrow_shifted(narrow_sum_at::<N>(weights, inputs, at), shift)
    } else {
        small_clamped(small_shifted(small_sum_at::<N>(weights, inputs, at), shift))
    }
}
