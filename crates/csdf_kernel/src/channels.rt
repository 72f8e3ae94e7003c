//! What each kernel adds to a list of outputs that has room for it.
ghost use Rattle.std.specs.Prelude.{ℕ, ◌≡◌, ◌+◌, ◌*◌, ◌%◌, ◌<◌, ◌≤◌, ◌++◌, IsTrue, length, sum, flat_map, replicate};
ghost use Rattle.smallvec.specs.SmallVec.{HasRoomFor};
ghost use Rattle.csdf_kernel.specs.Filter.{filtered, IsInRange, IsNarrow, IsWhole, IsWindow};
ghost use Rattle.csdf_kernel.specs.Value.{places, token_at, copy_token};

use crate::filter::Filter;
use crate::numbers::token;
use crate::outputs::Outputs;
use crate::small::window_from;
use csdf_model::MAX_TOTAL_PER_FIRING;

/// The first tokens of the inputs.
#[tactic(auto, using(crate::proofs::PlaceLemmas::one_place))]
pub(crate) fn push_source(outputs: &mut Outputs, count: usize, inputs: &[i32])
    requires { HasRoomFor outputs.old count }
    ensures items { outputs.new.items ≡ outputs.old.items ++ places (token_at inputs.now) count }
    ensures capacity { outputs.new.capacity ≡ outputs.old.capacity }
{
    for place in 0..count {
        outputs.push_reserved(token(inputs, place));
    }
}

/// One token over and over.
pub(crate) fn push_same(outputs: &mut Outputs, count: usize, same: i32)
    requires { HasRoomFor outputs.old count }
    ensures items { outputs.new.items ≡ outputs.old.items ++ replicate count same }
    ensures capacity { outputs.new.capacity ≡ outputs.old.capacity }
{
    for _place in 0..count {
        outputs.push_reserved(same);
    }
}

/// The inputs over and over, for each channel from their start.
#[tactic(auto, using(crate::proofs::PlaceLemmas::one_channel))]
pub(crate) fn push_copies(outputs: &mut Outputs, counts: &[u32], inputs: &[i32])
    requires { HasRoomFor outputs.old (sum counts.now) }
    ensures items { outputs.new.items ≡ outputs.old.items
        ++ flat_map (places (copy_token inputs.now)) counts.now }
    ensures capacity { outputs.new.capacity ≡ outputs.old.capacity }
{
    for count in counts {
        push_copy(outputs, *count as usize, inputs);
    }
}

/// The inputs over and over, for one channel.
#[tactic(auto, using(crate::proofs::PlaceLemmas::one_place))]
fn push_copy(outputs: &mut Outputs, count: usize, inputs: &[i32])
    requires { HasRoomFor outputs.old count }
    ensures items { outputs.new.items ≡ outputs.old.items ++ places (copy_token inputs.now) count }
    ensures capacity { outputs.new.capacity ≡ outputs.old.capacity }
{
    let mut at = 0;
    for _copied in 0..count {
        outputs.push_reserved(token(inputs, at));
        at = place_after(at, inputs);
    }
}

/// The place after this one where the inputs are repeated: after the last comes the first. Nothing is
/// divided by their number.
fn place_after(place: usize, inputs: &[i32]) -> usize
    requires { place ≤ length inputs.now }
    ensures next { place < length inputs.now → result ≡ (place + 1) % length inputs.now }
    ensures within { result ≤ length inputs.now }
{
    let next = place + 1;
    if next < inputs.len() {
        return next;
    }
    0
}

/// The filtered inputs, for each channel from their start. The products are narrow where they are marked so.
#[tactic(auto, using(crate::proofs::PlaceLemmas::one_channel))]
pub(crate) fn push_filtered(
    outputs: &mut Outputs,
    counts: &[u32],
    filter: &Filter<'_>,
    narrow: bool,
    inputs: &[i32],
)
    requires room { HasRoomFor outputs.old (sum counts.now) }
    requires few { sum counts.now ≤ MAX_TOTAL_PER_FIRING }
    requires in_range { IsInRange filter.now }
    requires narrow { IsTrue narrow → IsNarrow filter.now inputs.now }
    ensures items { outputs.new.items ≡ outputs.old.items ++ flat_map (places (filtered filter.now inputs.now)) counts.now }
    ensures capacity { outputs.new.capacity ≡ outputs.old.capacity }
{
    for count in counts {
        push_filter(outputs, *count as usize, filter, narrow, inputs);
    }
}

/// The filtered inputs, for one channel.
fn push_filter(
    outputs: &mut Outputs,
    count: usize,
    filter: &Filter<'_>,
    narrow: bool,
    inputs: &[i32],
)
    requires room { HasRoomFor outputs.old count }
    requires few { count ≤ MAX_TOTAL_PER_FIRING }
    requires in_range { IsInRange filter.now }
    requires narrow { IsTrue narrow → IsNarrow filter.now inputs.now }
    ensures items { outputs.new.items ≡ outputs.old.items ++ places (filtered filter.now inputs.now) count }
    ensures capacity { outputs.new.capacity ≡ outputs.old.capacity }
{
    if narrow {
        push_narrow(outputs, count, filter, inputs);
    } else if filter.small {
        push_small(outputs, count, filter, inputs);
    } else {
        push_wide(outputs, count, filter, inputs);
    }
}

/// The filtered inputs, for one channel, whatever the weights.
#[tactic(auto, using(crate::proofs::PlaceLemmas::one_place))]
fn push_wide(outputs: &mut Outputs, count: usize, filter: &Filter<'_>, inputs: &[i32])
    requires room { HasRoomFor outputs.old count }
    requires few { count ≤ MAX_TOTAL_PER_FIRING }
    requires in_range { IsInRange filter.now }
    ensures items { outputs.new.items ≡ outputs.old.items ++ places (filtered filter.now inputs.now) count }
    ensures capacity { outputs.new.capacity ≡ outputs.old.capacity }
{
    for place in 0..count {
        outputs.push_reserved(filter.wide_token(inputs, place));
    }
}

/// The filtered inputs, for one channel, where the weights are small.
#[tactic(auto, using(crate::proofs::PlaceLemmas::one_place))]
fn push_small(outputs: &mut Outputs, count: usize, filter: &Filter<'_>, inputs: &[i32])
    requires room { HasRoomFor outputs.old count }
    requires few { count ≤ MAX_TOTAL_PER_FIRING }
    requires in_range { IsInRange filter.now }
    requires small { IsTrue filter.now.small }
    ensures items { outputs.new.items ≡ outputs.old.items ++ places (filtered filter.now inputs.now) count }
    ensures capacity { outputs.new.capacity ≡ outputs.old.capacity }
{
    let whole = filter.whole_places(inputs).min(count);
    push_whole(outputs, whole, filter, inputs);
    for place in whole..count {
        outputs.push_reserved(filter.small_token(inputs, place));
    }
}

/// The filtered inputs, for one channel, where there are sixteen taps and all products are narrow.
#[tactic(auto, using(crate::proofs::PlaceLemmas::one_place))]
fn push_narrow(outputs: &mut Outputs, count: usize, filter: &Filter<'_>, inputs: &[i32])
    requires room { HasRoomFor outputs.old count }
    requires few { count ≤ MAX_TOTAL_PER_FIRING }
    requires in_range { IsInRange filter.now }
    requires narrow { IsNarrow filter.now inputs.now }
    ensures items { outputs.new.items ≡ outputs.old.items ++ places (filtered filter.now inputs.now) count }
    ensures capacity { outputs.new.capacity ≡ outputs.old.capacity }
{
    let whole = filter.whole_places(inputs).min(count);
    push_narrow_whole(outputs, whole, filter, inputs);
    if whole == count {
        return;
    }
    let window = window_from(inputs, whole);
    let first = (count - whole).min(8);
    push_late(outputs, first, filter, &window, whole, inputs, whole);
    let second = (count - whole - first).min(8);
    push_late(
        outputs,
        second,
        filter,
        &window,
        whole,
        inputs,
        whole + first,
    );
    for place in whole + first + second..count {
        outputs.push_reserved(filter.small_token(inputs, place));
    }
}

/// The filtered inputs at up to eight places near their end, the first of them `place`, where the products are
/// narrow. The window has the tokens from `base` on.
#[tactic(auto, using(crate::proofs::PlaceLemmas::one_place))]
fn push_late(
    outputs: &mut Outputs,
    count: usize,
    filter: &Filter<'_>,
    window: &[i32],
    base: usize,
    inputs: &[i32],
    place: usize,
)
    requires room { HasRoomFor outputs.old count }
    requires few { count ≤ 8 }
    requires in_range { IsInRange filter.now }
    requires narrow { IsNarrow filter.now inputs.now }
    requires window { IsWindow inputs.now base window.now }
    requires near { (base ≤ place) × (place ≤ base + 8) }
    ensures items { outputs.new.items ≡ outputs.old.items
        ++ places (λ i. filtered filter.now inputs.now (place + i)) count }
    ensures capacity { outputs.new.capacity ≡ outputs.old.capacity }
{
    if count == 0 {
        return;
    }
    let tokens = filter.eight_window_tokens(window, base, inputs, place);
    push_each(outputs, &tokens[..count]);
}

/// The filtered inputs, for places that are all whole: none of them asks again how many taps find a
/// token.
#[tactic(auto, using(crate::proofs::PlaceLemmas::one_place))]
fn push_whole(outputs: &mut Outputs, count: usize, filter: &Filter<'_>, inputs: &[i32])
    requires room { HasRoomFor outputs.old count }
    requires in_range { IsInRange filter.now }
    requires whole { (i : ℕ) → i < count → IsWhole filter.now inputs.now i }
    ensures items { outputs.new.items ≡ outputs.old.items ++ places (filtered filter.now inputs.now) count }
    ensures capacity { outputs.new.capacity ≡ outputs.old.capacity }
{
    for next in 0..count {
        outputs.push_reserved(filter.whole_token(inputs, next));
    }
}

/// The filtered inputs, for places that are all whole, where the products are narrow: eight at a time, and what
/// is left over one by one.
#[tactic(auto, using(crate::proofs::PlaceLemmas::one_place))]
fn push_narrow_whole(outputs: &mut Outputs, count: usize, filter: &Filter<'_>, inputs: &[i32])
    requires room { HasRoomFor outputs.old count }
    requires in_range { IsInRange filter.now }
    requires whole { (i : ℕ) → i < count → IsWhole filter.now inputs.now i }
    requires narrow { IsNarrow filter.now inputs.now }
    ensures items { outputs.new.items ≡ outputs.old.items ++ places (filtered filter.now inputs.now) count }
    ensures capacity { outputs.new.capacity ≡ outputs.old.capacity }
{
    let eights = count / 8;
    push_narrow_eights(outputs, eights, filter, inputs);
    for next in eights * 8..count {
        outputs.push_reserved(filter.narrow_token(inputs, next));
    }
}

/// The filtered inputs, for so many times eight places that are all whole, where the products are narrow.
#[tactic(auto, using(crate::proofs::PlaceLemmas::one_place))]
fn push_narrow_eights(outputs: &mut Outputs, eights: usize, filter: &Filter<'_>, inputs: &[i32])
    requires room { HasRoomFor outputs.old (eights * 8) }
    requires in_range { IsInRange filter.now }
    requires whole { (i : ℕ) → i < eights * 8 → IsWhole filter.now inputs.now i }
    requires narrow { IsNarrow filter.now inputs.now }
    ensures items { outputs.new.items ≡ outputs.old.items ++ places (filtered filter.now inputs.now) (eights * 8) }
    ensures capacity { outputs.new.capacity ≡ outputs.old.capacity }
{
    for eight in 0..eights {
        push_each(outputs, &filter.eight_narrow_tokens(inputs, eight * 8));
    }
}

/// Tokens, at the end of a list that has room for them.
fn push_each(outputs: &mut Outputs, tokens: &[i32])
    requires { HasRoomFor outputs.old (length tokens.now) }
    ensures items { outputs.new.items ≡ outputs.old.items ++ tokens.now }
    ensures capacity { outputs.new.capacity ≡ outputs.old.capacity }
{
    for token in tokens {
        outputs.push_reserved(*token);
    }
}
