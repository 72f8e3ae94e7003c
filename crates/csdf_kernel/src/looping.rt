//! The values of firings that keep a state.

ghost use Rattle.std.specs.Prelude.{◌≡◌, ◌≤◌, ◌<◌, ◌+◌, ◌-◌, ◌*◌, length, sum, All, OnOk, OnErr, IsOk};
ghost use Rattle.csdf_kernel.specs.Loop.{beside, latest_of, loop_values};
ghost use Rattle.csdf_kernel.specs.Value.{HasFilterInRange};

use crate::outputs::{Outputs, filter_of, make_room, push_value_by, total_of};
use csdf_model::{Kernel, MAX_CHANNELS, MAX_TOKENS_PER_FIRING, MAX_TOTAL_PER_FIRING};
use std::alloc::AllocError;

/// Lays the state and the other tokens beside each other.
fn lay(window: &mut [i32], is_first: bool, state: &[i32], others: &[i32])
    requires { length window.old ≡ length state.now + length others.now }
    ensures { window.new ≡ beside is_first state.now others.now }
{
    let (front, back) = if is_first {
        (state, others)
    } else {
        (others, state)
    };
    let middle = front.len();
    window[..middle].copy_from_slice(front);
    window[middle..].copy_from_slice(back);
}

/// The state after these values, each of which has so many tokens.
fn latest<'a>(state: &'a [i32], values: &'a [i32], size: usize, before: usize) -> &'a [i32]
    requires { before + length state.now ≤ size }
    ensures { result.now ≡ latest_of state.now values.now size before }
{
    if values.len() < size {
        return state;
    }
    let from = values.len() - size + before;
    &values[from..from + state.len()]
}

/// The kernel's values of a block of firings of the same counts that keep a state, end to end, in the place of what
/// the outputs hold. Each firing reads the state, before or after the next other tokens, and so many tokens of its value
/// behind the first few are the state of the next one. The window is as long as what a firing reads, and only worked in.
///
/// It allocates once at most, before the first firing. An error says that memory ran out; then the outputs hold what
/// they held.
pub fn eval_loop(
    kernel: &Kernel,
    counts: &[u32],
    is_first: bool,
    before: usize,
    firings: u32,
    state: &[i32],
    others: &[i32],
    window: &mut [i32],
    outputs: &mut Outputs,
) -> Result<(), AllocError>
    requires few_counts { length counts.now ≤ MAX_CHANNELS }
    requires small_counts { All (λ count. count ≤ MAX_TOKENS_PER_FIRING) counts.now }
    requires few_inputs { length window.old ≤ MAX_TOTAL_PER_FIRING }
    requires filter_in_range { HasFilterInRange kernel.now }
    requires window { length state.now ≤ length window.old }
    requires whole { firings * (length window.old - length state.now) ≤ length others.now }
    requires part { before + length state.now ≤ sum counts.now }
    ensures values { OnOk result (outputs.new.items
        ≡ loop_values kernel.now counts.now is_first (length window.old - length state.now) before firings state.now others.now) }
    ensures unchanged { OnErr result (outputs.new ≡ outputs.old) }
    ensures room { firings * sum counts.now ≤ outputs.old.capacity → IsOk result }
{
    let size = total_of(counts);
    make_room(outputs, firings as usize * size)?;
    let filter = filter_of(kernel);
    let each = window.len() - state.len();
    let mut at = 0;
    for _firing in 0..firings {
        let own = latest(state, outputs.as_slice(), size, before);
        lay(window, is_first, own, &others[at..at + each]);
        let narrow = filter.is_narrow(window);
        push_value_by(outputs, kernel, &filter, narrow, counts, window);
        at += each;
    }
    Ok(())
}
