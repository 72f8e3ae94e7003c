//! A kernel that is asked for the values of many firings, one after another.

ghost use Rattle.std.specs.Prelude.{◌≡◌, ◌≤◌, ◌++◌, length, sum, All};
ghost use Rattle.smallvec.specs.SmallVec.{HasRoomFor};
ghost use Rattle.csdf_kernel.specs.Value.{value_of, HasFilterInRange};

use crate::filter::Filter;
use crate::outputs::{Outputs, filter_of, push_value_by};
use csdf_model::{Kernel, MAX_CHANNELS, MAX_TOKENS_PER_FIRING, MAX_TOTAL_PER_FIRING};
use std::marker::Model;

/// A kernel, with the weights of its filter gone through once. A contract sees it as the kernel.
#[derive(Drop)]
pub struct Prepared<'a> {
    kernel: &'a Kernel,
    filter: Filter<'a>,
}

impl<'a> Model for Prepared<'a> {
    ghost use Rattle.csdf_model.specs.declared.parts.Kernel.{Kernel};
    ghost use Rattle.csdf_kernel.specs.Filter.{HasGreatest, IsFilterOf, IsInRange};

    ghost Value = { Kernel };

    ghost view = { λ p. p.kernel.now };

    ghost invariant = { λ p. IsFilterOf p.kernel.now p.filter × IsInRange p.filter × HasGreatest p.filter };
}

impl<'a> Prepared<'a> {
    /// Prepares the kernel: goes through the weights of its filter, where it is one.
    pub fn new(kernel: &'a Kernel) -> Prepared<'a>
        requires { HasFilterInRange kernel.now }
        ensures { result ≡ kernel.now }
    {
        Prepared {
            kernel,
            filter: filter_of(kernel),
        }
    }

    /// The kernel's value of one firing, at the end of a list that has room for it.
    pub fn push_value(&self, outputs: &mut Outputs, counts: &[u32], inputs: &[i32])
        requires few_counts { length counts.now ≤ MAX_CHANNELS }
        requires small_counts { All (λ count. count ≤ MAX_TOKENS_PER_FIRING) counts.now }
        requires few_inputs { length inputs.now ≤ MAX_TOTAL_PER_FIRING }
        requires room { HasRoomFor outputs.old (sum counts.now) }
        ensures items { outputs.new.items ≡ outputs.old.items ++ value_of self.now counts.now inputs.now }
        ensures capacity { outputs.new.capacity ≡ outputs.old.capacity }
    {
        let narrow = self.filter.is_narrow(inputs);
        push_value_by(outputs, self.kernel, &self.filter, narrow, counts, inputs);
    }
}
