//! Firings that are evaluated before they are made.

ghost use Rattle.std.specs.Prelude.{◌≡◌, ◌<◌, OnOk, OnErr, false, true};
ghost use Rattle.csdf_floor.specs.Drafts.{IsDrafted, IsSameDraft, values_in};
ghost use Rattle.csdf_floor.specs.Journal.{Program};

use csdf_kernel::{Counts, Outputs, eval_block, eval_loop};
use csdf_model::Kernel;
use std::alloc::{AllocError, Global};
use std::marker::Model;

/// Several firings of an actor that are evaluated before they are made: which they are, what they compute
/// from, and then their values. Where the actor keeps a state in a channel to itself the firings' values come one
/// after the other, each from the state that the one before wrote. It needs nothing but what is in it. A contract
/// sees no values: all else determines them.
#[derive(Drop)]
pub struct Draft {
    pub(crate) actor: u32,
    pub(crate) firing: u32,
    pub(crate) kernel: Kernel,
    pub(crate) counts: Counts,
    pub(crate) need: usize,
    pub(crate) is_first: bool,
    pub(crate) before: usize,
    pub(crate) firings: u32,
    pub(crate) state: Vec<i32>,
    pub(crate) inputs: Vec<i32>,
    pub(crate) window: Vec<i32>,
    pub(crate) outputs: Outputs,
    pub(crate) is_made: bool,
}

impl Model for Draft {
    ghost use Rattle.std.specs.Prelude.{◌≡◌, ◌<◌, ◌-◌, true, length};
    ghost use Rattle.csdf_kernel.specs.Loop.{loop_values};
    ghost use Rattle.csdf_floor.specs.Drafts.{DraftView, IsSound};

    ghost Value = { DraftView };

    ghost view = { λ d. record { actor = d.actor; firing = d.firing; kernel = d.kernel; counts = d.counts.items; need = d.need; is_first = d.is_first; before = d.before; firings = d.firings; state = d.state.items; inputs = d.inputs.items; is_made = d.is_made } };

    ghost invariant = { λ d. (0 < d.firings → IsSound d.kernel d.counts.items d.need d.before d.firings d.state.items d.inputs.items)
        × (d.is_made ≡ true → d.outputs.items ≡ loop_values d.kernel d.counts.items d.is_first (d.need - length d.state.items) d.before d.firings d.state.items d.inputs.items) };
}

impl Draft {
    /// A draft of no firing.
    pub fn new(alloc: Global) -> Draft
        ensures firings { result.firings ≡ 0 }
        ensures is_made { result.is_made ≡ false }
    {
        Draft {
            actor: 0,
            firing: 0,
            kernel: Kernel::Sink,
            counts: Counts::new(alloc),
            need: 0,
            is_first: true,
            before: 0,
            firings: 0,
            state: Vec::new(alloc),
            inputs: Vec::new(alloc),
            window: Vec::new(alloc),
            outputs: Outputs::new(alloc),
            is_made: false,
        }
    }

    /// How many firings.
    pub fn firings(&self) -> u32
        ensures { result ≡ self.now.firings }
    {
        self.firings
    }

    /// From now on it has no firing.
    pub(crate) fn clear(&mut self)
        ensures firings { self.new.firings ≡ 0 }
        ensures is_made { self.new.is_made ≡ false }
    {
        let Draft {
            firings,
            is_made,
            ..
        } = self;
        *firings = 0;
        *is_made = false;
    }

    /// The kernel's values, end to end, where the draft was evaluated.
    pub(crate) fn values(&self) -> &[i32]
        requires { self.now.is_made ≡ true }
        ensures { result.now ≡ values_in self.now }
    {
        self.outputs.as_slice()
    }

    /// Evaluates the firings, of which there are some, one after the other, each from the state that the one before
    /// wrote.
    fn evaluate_on(&mut self) -> Result<(), AllocError>
        requires some { 0 < self.old.firings }
        requires open { self.old.is_made ≡ false }
        ensures same { IsSameDraft self.old self.new }
        ensures made { OnOk result (self.new.is_made ≡ true) }
        ensures none { OnErr result (self.new.is_made ≡ false) }
    {
        let firings = self.firings;
        self.window.resize(self.need, 0)?;
        eval_loop(
            &self.kernel,
            self.counts.as_slice(),
            self.is_first,
            self.before,
            firings,
            self.state.as_slice(),
            self.inputs.as_slice(),
            self.window.as_mut_slice(),
            &mut self.outputs,
        )?;
        let Draft { is_made, .. } = self;
        *is_made = true;
        Ok(())
    }

    /// Evaluates the firings. Where there are none it does nothing.
    ///
    /// An error says that memory ran out; then they are not evaluated.
    pub fn evaluate(&mut self) -> Result<(), AllocError>
        ensures actor { self.new.actor ≡ self.old.actor }
        ensures firing { self.new.firing ≡ self.old.firing }
        ensures kernel { self.new.kernel ≡ self.old.kernel }
        ensures counts { self.new.counts ≡ self.old.counts }
        ensures need { self.new.need ≡ self.old.need }
        ensures firings { self.new.firings ≡ self.old.firings }
        ensures inputs { self.new.inputs ≡ self.old.inputs }
        ensures drafted { (w : Program) → IsDrafted w self.old → IsDrafted w self.new }
        ensures made { OnOk result (0 < self.old.firings → self.new.is_made ≡ true) }
        ensures none { OnErr result (self.new.is_made ≡ false) }
    {
        self.is_made = false;
        let firings = self.firings;
        if firings == 0 {
            return Ok(());
        }
        if !self.state.is_empty() {
            return self.evaluate_on();
        }
        eval_block(
            &self.kernel,
            self.counts.as_slice(),
            self.need,
            firings,
            self.inputs.as_slice(),
            &mut self.outputs,
        )?;
        self.is_made = true;
        Ok(())
    }
}
