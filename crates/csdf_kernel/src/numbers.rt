//! The arithmetic of kernels, in 128 bits, which hold every sum.
ghost use Rattle.std.specs.Prelude.{◌≡◌, ◌⊎◌, ◌+◌, ◌*◌, ◌^◌, ◌≤◌, length, pos, ◌+ℤ◌, ◌*ℤ◌, ◌≤ℤ◌, ◌<ℤ◌, unsigned_abs};
ghost use Rattle.csdf_kernel.specs.Value.{token_at, total, clamp, floor, convolution};

use csdf_model::{MAX_SHIFT, MAX_TOTAL_PER_FIRING, MAX_WEIGHTS};

/// Token `place` of the inputs, or 0 past their end.
pub(crate) fn token(inputs: &[i32], place: usize) -> i32
    ensures { result ≡ token_at inputs.now place }
{
    match inputs.get(place) {
        Some(token) => *token,
        None => 0,
    }
}

/// The nearest number in the range of `i32`.
#[tactic(auto, using(crate::proofs::NumberLemmas::clamp_is))]
pub(crate) fn clamped(value: i128) -> i32
    ensures { result ≡ clamp value }
{
    value.clamp(i32::MIN as i128, i32::MAX as i128) as i32
}

/// The sum of the tokens.
pub(crate) fn sum_of(inputs: &[i32]) -> i128
    requires { length inputs.now ≤ MAX_TOTAL_PER_FIRING }
    ensures { result ≡ total inputs.now }
{
    let mut sum = 0;
    for token in inputs {
        sum += i128::from(*token);
    }
    sum
}

/// The product of two numbers.
fn product(a: i32, b: i32) -> i128
    ensures value { result ≡ a *ℤ b }
    ensures bound { unsigned_abs result ≤ 2 ^ 62 }
{
    i128::from(i64::from(a) * i64::from(b))
}

/// How many of the taps have a weight, and a token from `place` on among so many.
pub(crate) fn full_taps(weights: &[i32], taps: usize, tokens: usize, place: usize) -> usize
    ensures taps { result ≤ taps }
    ensures weights { result ≤ length weights.now }
    ensures tokens { place + result ≤ tokens ⊎ result ≡ 0 }
    ensures all { result ≡ taps ⊎ length weights.now ≤ result ⊎ tokens ≤ place + result }
{
    taps.min(weights.len()).min(tokens.saturating_sub(place))
}

/// The sum of the products of the first `taps` weights with the tokens from `place` on.
pub(crate) fn products_at(weights: &[i32], taps: usize, inputs: &[i32], place: usize) -> i128
    requires taps { taps ≤ MAX_WEIGHTS }
    requires place { place ≤ MAX_TOTAL_PER_FIRING }
    ensures value { result ≡ convolution weights.now taps inputs.now place }
    ensures bound { unsigned_abs result ≤ taps * 2 ^ 62 }
{
    let mut sum = 0;
    for tap in 0..full_taps(weights, taps, inputs.len(), place) {
        sum += product(weights[tap], inputs[place + tap]);
    }
    sum
}

/// A number divided by two to the power of `shift`, rounded down.
#[tactic(auto, using(crate::proofs::NumberLemmas::shr_is))]
pub(crate) fn shifted(value: i128, shift: u32) -> i128
    requires { shift ≤ MAX_SHIFT }
    ensures value { result ≡ floor value (2 ^ shift) }

    // Times that power it is at most the value, and one more would be too great.
    ensures below { (result *ℤ pos (2 ^ shift)) ≤ℤ value }
    ensures above { value <ℤ ((result +ℤ pos 1) *ℤ pos (2 ^ shift)) }
{
    value >> shift
}
