//! The arithmetic of filters whose weights are small, in 64 bits, or in 32 where the tokens are small too.
ghost use Rattle.std.specs.Prelude.{◌≡◌, ◌+◌, ◌*ℤ◌, ◌^◌, ◌≤◌, ℕ, IsTrue, length, unsigned_abs};
ghost use Rattle.csdf_kernel.specs.Filter.{AreNarrow, AreSmall, IsWindow};
ghost use Rattle.csdf_kernel.specs.Value.{clamp, convolution, filter_token, floor, places, token_at};

use crate::numbers::full_taps;
use csdf_model::{MAX_SHIFT, MAX_TOTAL_PER_FIRING, MAX_WEIGHTS};

/// The greatest size of a small weight: sixteen products with tokens of 32 bits stay within 2^62.
const GREATEST_SMALL: u32 = 1 << 27;

/// The greatest size of a narrow product: sixteen of them stay within 2^30.
const GREATEST_NARROW: u64 = 1 << 26;

/// The greatest size of the numbers.
pub(crate) fn greatest_size(numbers: &[i32]) -> u32
    ensures { (j : ℕ) → unsigned_abs (token_at numbers.now j) ≤ result }
{
    let mut greatest = 0;
    for number in numbers {
        greatest = number.unsigned_abs().max(greatest);
    }
    greatest
}

/// Whether a weight of this size is small. Greater ones may add up in 64 bits too, and are not asked for.
pub(crate) fn is_small(size: u32) -> bool
    ensures { IsTrue result → size ≤ 2 ^ 27 }
{
    size <= GREATEST_SMALL
}

/// Whether the product of any weight, of at most this size, with any token is narrow.
pub(crate) fn are_narrow(weights: &[i32], greatest: u32, inputs: &[i32]) -> bool
    requires { (j : ℕ) → unsigned_abs (token_at weights.now j) ≤ greatest }
    ensures { IsTrue result → AreNarrow weights.now inputs.now }
{
    // `weights` is there for the contract alone.
    let _ = weights;
    u64::from(greatest) * u64::from(greatest_size(inputs)) <= GREATEST_NARROW
}

/// A narrow product.
fn narrow_product(weight: i32, token: i32) -> i32
    requires { unsigned_abs (weight *ℤ token) ≤ 2 ^ 26 }
    ensures value { result ≡ weight *ℤ token }
    ensures bound { unsigned_abs result ≤ 2 ^ 26 }
{
    weight * token
}

/// The sum of the products of `N` weights with the tokens from `place` on, which are all there, where each
/// product is narrow. Its loop has a constant length, so that the compiler makes vectors of it.
#[inline]
pub(crate) fn narrow_sum_at<const N: usize>(weights: &[i32], inputs: &[i32], place: usize) -> i32
    requires few { N ≤ MAX_WEIGHTS }
    requires weights { N ≤ length weights.now }
    requires tokens { place + N ≤ length inputs.now }
    requires narrow { AreNarrow weights.now inputs.now }
    ensures { result ≡ convolution weights.now N inputs.now place }
{
    let mut sum = 0;
    for tap in 0..N {
        sum += narrow_product(weights[tap], inputs[place + tap]);
    }
    sum
}

/// The same sum for sixteen weights. It stands by itself, so that the compiler makes vectors of it.
#[inline(never)]
pub(crate) fn sixteen_narrow_products_at(weights: &[i32], inputs: &[i32], place: usize) -> i32
    requires weights { 16 ≤ length weights.now }
    requires tokens { place + 16 ≤ length inputs.now }
    requires narrow { AreNarrow weights.now inputs.now }
    ensures { result ≡ convolution weights.now 16 inputs.now place }
{
    narrow_sum_at::<16>(weights, inputs, place)
}

/// A narrow sum divided by two to the power of `shift`, rounded down: no size grows, so nothing is clamped.
#[tactic(auto, using(crate::proofs::NumberLemmas::shr_clamped))]
pub(crate) fn narrow_shifted(sum: i32, shift: u32) -> i32
    requires { shift ≤ MAX_SHIFT }
    ensures { result ≡ clamp (floor sum (2 ^ shift)) }
{
    sum >> shift
}

/// The token at a place whose taps all find one, where each product is narrow.
#[inline]
#[tactic(auto, unfolding(crate::specs::Value::filter_token))]
fn narrow_token_at(weights: &[i32], inputs: &[i32], place: usize, shift: u32) -> i32
    requires weights { 16 ≤ length weights.now }
    requires tokens { place + 16 ≤ length inputs.now }
    requires narrow { AreNarrow weights.now inputs.now }
    requires shift { shift ≤ MAX_SHIFT }
    ensures { result ≡ filter_token weights.now 16 shift inputs.now place }
{
    narrow_shifted(narrow_sum_at::<16>(weights, inputs, place), shift)
}

/// The tokens at eight places in a row, whose taps all find one, where each product is narrow. It stands by
/// itself, so that the compiler makes vectors of it.
#[inline(never)]
pub(crate) fn eight_narrow_tokens_at(
    weights: &[i32],
    inputs: &[i32],
    place: usize,
    shift: u32,
) -> [i32; 8]
    requires weights { 16 ≤ length weights.now }
    requires tokens { place + 23 ≤ length inputs.now }
    requires narrow { AreNarrow weights.now inputs.now }
    requires shift { shift ≤ MAX_SHIFT }
    ensures { result ≡ places (λ i. filter_token weights.now 16 shift inputs.now (place + i)) 8 }
{
    [
        narrow_token_at(weights, inputs, place, shift),
        narrow_token_at(weights, inputs, place + 1, shift),
        narrow_token_at(weights, inputs, place + 2, shift),
        narrow_token_at(weights, inputs, place + 3, shift),
        narrow_token_at(weights, inputs, place + 4, shift),
        narrow_token_at(weights, inputs, place + 5, shift),
        narrow_token_at(weights, inputs, place + 6, shift),
        narrow_token_at(weights, inputs, place + 7, shift),
    ]
}

/// The tokens from `base` on, and zeros past the end of the inputs.
pub(crate) fn window_from(inputs: &[i32], base: usize) -> [i32; 32]
    requires { base ≤ length inputs.now }
    ensures { IsWindow inputs.now base result }
{
    let mut window = [0; 32];
    let there = (inputs.len() - base).min(32);
    for at in 0..there {
        window[at] = inputs[base + at];
    }
    window
}

/// The product with a small weight.
fn small_product(weight: i32, token: i32) -> i64
    requires { unsigned_abs weight ≤ 2 ^ 27 }
    ensures value { result ≡ weight *ℤ token }
    ensures bound { unsigned_abs result ≤ 2 ^ 58 }
{
    i64::from(weight) * i64::from(token)
}

/// The sum of the products of `N` small weights with the tokens from `place` on, which are all there.
/// Its loop has a constant length, so that the compiler unrolls it.
pub(crate) fn small_sum_at<const N: usize>(weights: &[i32], inputs: &[i32], place: usize) -> i64
    requires few { N ≤ MAX_WEIGHTS }
    requires weights { N ≤ length weights.now }
    requires tokens { place + N ≤ length inputs.now }
    requires small { AreSmall weights.now N }
    ensures { result ≡ convolution weights.now N inputs.now place }
{
    let mut sum = 0;
    for next in 0..N {
        sum += small_product(weights[next], inputs[place + next]);
    }
    sum
}

/// The sum of the products of the first `taps` weights with the tokens from `place` on.
pub(crate) fn small_products_at(weights: &[i32], taps: usize, inputs: &[i32], place: usize) -> i64
    requires taps { taps ≤ MAX_WEIGHTS }
    requires place { place ≤ MAX_TOTAL_PER_FIRING }
    requires small { AreSmall weights.now taps }
    ensures { result ≡ convolution weights.now taps inputs.now place }
{
    let mut sum = 0;
    for tap in 0..full_taps(weights, taps, inputs.len(), place) {
        sum += small_product(weights[tap], inputs[place + tap]);
    }
    sum
}

/// A sum divided by two to the power of `shift`, rounded down.
#[tactic(auto, using(crate::proofs::NumberLemmas::shr_is))]
pub(crate) fn small_shifted(total: i64, shift: u32) -> i64
    requires { shift ≤ MAX_SHIFT }
    ensures { result ≡ floor total (2 ^ shift) }
{
    total >> shift
}

/// The nearest number in the range of `i32`.
#[tactic(auto, using(crate::proofs::NumberLemmas::clamp_is))]
pub(crate) fn small_clamped(quotient: i64) -> i32
    ensures { result ≡ clamp quotient }
{
    quotient.clamp(i32::MIN as i64, i32::MAX as i64) as i32
}
