//! A filter, told token by token. A place of its inputs is called whole where there are sixteen taps,
//! all with small weights, and each finds a token.
ghost use Rattle.std.specs.Prelude.{◌≡◌, ◌<◌, ◌≤◌, ◌+◌, ℕ, IsTrue, length};
ghost use Rattle.csdf_kernel.specs.Filter.{filtered, AreNarrow, AreTapsAt, HasGreatest, IsInRange, IsNarrow, IsPadded, IsWhole, IsWindow};
ghost use Rattle.csdf_kernel.specs.Value.{places};

use crate::numbers::{clamped, full_taps, products_at, shifted};
use crate::small::{
    are_narrow, eight_narrow_tokens_at, greatest_size, is_small, narrow_shifted,
    sixteen_narrow_products_at, small_clamped, small_products_at, small_shifted, small_sum_at,
};
use csdf_model::{MAX_SHIFT, MAX_TOTAL_PER_FIRING, MAX_WEIGHTS};

/// A filter: the first `taps` weights count, and each sum of products is divided by two to the power
/// of `shift`.
#[derive(Clone, Copy)]
pub(crate) struct Filter<'a> {
    pub(crate) weights: &'a [i32],
    pub(crate) taps: u32,
    pub(crate) shift: u32,
    /// Whether each weight is so small that 64 bits hold every sum.
    pub(crate) small: bool,
    /// The greatest size of a weight.
    pub(crate) greatest: u32,
}

impl<'a> Filter<'a> {
    /// The filter of these weights, which are gone through once.
    pub(crate) fn new(weights: &'a [i32], taps: u32, shift: u32) -> Filter<'a>
        requires taps { taps ≤ MAX_WEIGHTS }
        requires shift { shift ≤ MAX_SHIFT }
        ensures weights { result.weights.now ≡ weights.now }
        ensures taps { result.taps ≡ taps }
        ensures shift { result.shift ≡ shift }
        ensures in_range { IsInRange result }
        ensures greatest { HasGreatest result }
    {
        let greatest = greatest_size(weights);
        Filter {
            weights,
            taps,
            shift,
            small: is_small(greatest),
            greatest,
        }
    }

    /// Whether there are sixteen taps, all with small weights.
    fn is_sixteen(&self) -> bool
        ensures small { IsTrue result → IsTrue self.now.small }
        ensures taps { IsTrue result → self.now.taps ≡ 16 }
        ensures weights { IsTrue result → 16 ≤ length self.now.weights.now }
    {
        self.small && self.taps == 16 && self.weights.len() >= 16
    }

    /// How many places are whole: those from the first on, as many as this.
    pub(crate) fn whole_places(&self, inputs: &[i32]) -> usize
        ensures whole { (i : ℕ) → i < result → IsWhole self.now inputs.now i }
        ensures within { result ≤ length inputs.now }
    {
        if self.is_sixteen() {
            inputs.len().saturating_sub(15)
        } else {
            0
        }
    }

    /// Whether each product of a weight with one of these tokens is narrow.
    pub(crate) fn has_narrow_products(&self, inputs: &[i32]) -> bool
        requires { HasGreatest self.now }
        ensures { IsTrue result → AreNarrow self.now.weights.now inputs.now }
    {
        are_narrow(self.weights, self.greatest, inputs)
    }

    /// Whether there are sixteen taps, and each product of a weight with one of these tokens is narrow.
    pub(crate) fn is_narrow(&self, inputs: &[i32]) -> bool
        requires { HasGreatest self.now }
        ensures { IsTrue result → IsNarrow self.now inputs.now }
    {
        if self.is_sixteen() {
            return self.has_narrow_products(inputs);
        }
        false
    }

    /// How many taps have a weight, and find a token at this place of a firing that reads so many.
    pub(crate) fn taps_at(&self, need: usize, place: usize) -> usize
        ensures taps { AreTapsAt self.now.weights.now self.now.taps need place result }
        ensures weights { result ≤ length self.now.weights.now }
    {
        full_taps(self.weights, self.taps as usize, need, place)
    }

    /// The first so many weights, and zeros after them.
    pub(crate) fn padded(&self, have: usize) -> [i32; MAX_WEIGHTS]
        requires few { have ≤ MAX_WEIGHTS }
        requires there { have ≤ length self.now.weights.now }
        ensures { IsPadded self.now.weights.now have result }
    {
        let mut padded = [0; MAX_WEIGHTS];
        for tap in 0..have {
            padded[tap] = self.weights[tap];
        }
        padded
    }

    /// The token at a whole place, where the products are narrow.
    #[tactic(auto, unfolding(crate::specs::Value::filter_token))]
    pub(crate) fn narrow_token(&self, inputs: &[i32], place: usize) -> i32
        requires in_range { IsInRange self.now }
        requires whole { IsWhole self.now inputs.now place }
        requires narrow { IsNarrow self.now inputs.now }
        ensures { result ≡ filtered self.now inputs.now place }
    {
        let sum = sixteen_narrow_products_at(self.weights, inputs, place);
        narrow_shifted(sum, self.shift)
    }

    /// The tokens at eight whole places, the first of them `place`, where the products are narrow.
    pub(crate) fn eight_narrow_tokens(&self, inputs: &[i32], place: usize) -> [i32; 8]
        requires in_range { IsInRange self.now }
        requires whole { IsWhole self.now inputs.now (place + 7) }
        requires narrow { IsNarrow self.now inputs.now }
        ensures { result ≡ places (λ i. filtered self.now inputs.now (place + i)) 8 }
    {
        eight_narrow_tokens_at(self.weights, inputs, place, self.shift)
    }

    /// The tokens at eight places near the end of the inputs, the first of them `place`, where the products are
    /// narrow. The window has what their taps find.
    pub(crate) fn eight_window_tokens(
        &self,
        window: &[i32],
        base: usize,
        inputs: &[i32],
        place: usize,
    ) -> [i32; 8]
        requires in_range { IsInRange self.now }
        requires narrow { IsNarrow self.now inputs.now }
        requires window { IsWindow inputs.now base window.now }
        requires near { (base ≤ place) × (place ≤ base + 8) }
        ensures { result ≡ places (λ i. filtered self.now inputs.now (place + i)) 8 }
    {
        // `inputs` is there for the contract alone.
        let _ = inputs;
        eight_narrow_tokens_at(self.weights, window, place - base, self.shift)
    }

    /// The token at a whole place.
    #[tactic(auto, unfolding(crate::specs::Value::filter_token))]
    pub(crate) fn whole_token(&self, inputs: &[i32], place: usize) -> i32
        requires in_range { IsInRange self.now }
        requires whole { IsWhole self.now inputs.now place }
        ensures { result ≡ filtered self.now inputs.now place }
    {
        let sum = small_sum_at::<16>(self.weights, inputs, place);
        small_clamped(small_shifted(sum, self.shift))
    }

    /// The token at this place, where the weights are small.
    #[tactic(auto, unfolding(crate::specs::Value::filter_token))]
    pub(crate) fn small_token(&self, inputs: &[i32], place: usize) -> i32
        requires in_range { IsInRange self.now }
        requires small { IsTrue self.now.small }
        requires place { place ≤ MAX_TOTAL_PER_FIRING }
        ensures { result ≡ filtered self.now inputs.now place }
    {
        let sum = small_products_at(self.weights, self.taps as usize, inputs, place);
        small_clamped(small_shifted(sum, self.shift))
    }

    /// The token at this place, whatever the weights.
    #[tactic(auto, unfolding(crate::specs::Value::filter_token))]
    pub(crate) fn wide_token(&self, inputs: &[i32], place: usize) -> i32
        requires in_range { IsInRange self.now }
        requires place { place ≤ MAX_TOTAL_PER_FIRING }
        ensures { result ≡ filtered self.now inputs.now place }
    {
        let sum = products_at(self.weights, self.taps as usize, inputs, place);
        clamped(shifted(sum, self.shift))
    }
}
