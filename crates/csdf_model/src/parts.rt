//! What a graph is made of: actors with their kernels, and channels.

use crate::limits::MAX_WEIGHTS;
use std::alloc::AllocError;

/// What an actor does with its tokens.
#[derive(Clone, Copy, Debug, PartialEq, Eq)]
pub enum Kernel {
    /// Gives the tokens of a file, in order.
    Source,
    /// Takes tokens and gives none.
    Sink,
    /// Gives each output the tokens read, over and over.
    Copy,
    /// Gives the sum of the tokens read.
    Sum,
    /// A finite impulse response filter. The first `taps` weights count, and the rest are 0; each
    /// sum of products is divided by two to the power of `shift`.
    Fir {
        weights: [i32; MAX_WEIGHTS],
        taps: u32,
        shift: u32,
    },
}

impl Kernel {
    ghost use Rattle.std.specs.Prelude.{◌≡◌};
    ghost use Rattle.csdf_model.specs.Kernels.{is_source_kernel, is_sink_kernel};

    /// Whether an actor with this kernel is a source.
    #[inline(always)]
    pub fn is_source(&self) -> bool
        ensures { result ≡ is_source_kernel self.now }
    {
        matches!(self, Kernel::Source)
    }

    /// Whether an actor with this kernel is a sink.
    #[inline(always)]
    pub fn is_sink(&self) -> bool
        ensures { result ≡ is_sink_kernel self.now }
    {
        matches!(self, Kernel::Sink)
    }
}

/// An actor: its firing number `k`, counted from 0, is in phase `k` modulo `phases`.
#[derive(Debug, Drop)]
pub struct Actor {
    pub name: String,
    pub kernel: Kernel,
    pub phases: u32,
}

/// A first-in first-out queue from one actor to another (Bilsen et al. 1996).
#[derive(Debug, Drop)]
pub struct Channel {
    pub name: String,
    /// The number of the producer.
    pub from: u32,
    /// The number of the consumer.
    pub to: u32,
    /// How many tokens a firing of the producer puts in, one rate for each of its phases.
    pub produce: Vec<u32>,
    /// How many tokens a firing of the consumer takes out, one rate for each of its phases.
    pub consume: Vec<u32>,
    /// The tokens that the channel begins with, the oldest first.
    pub initial: Vec<i32>,
    /// The most tokens that it may hold, where the file gives a number.
    pub capacity: Option<u32>,
}

impl Clone for Actor {
    ghost use Rattle.std.specs.Prelude.{◌≡◌};
    ghost use Rattle.csdf_model.specs.Graph.{actor_view};

    ghost is_clone = { λ old new. actor_view new ≡ actor_view old };

    fn clone(&self) -> Result<Actor, AllocError> {
        Ok(Actor {
            name: self.name.clone()?,
            kernel: self.kernel,
            phases: self.phases,
        })
    }
}

impl Clone for Channel {
    ghost use Rattle.std.specs.Prelude.{◌≡◌};
    ghost use Rattle.csdf_model.specs.Graph.{channel_view};

    ghost is_clone = { λ old new. channel_view new ≡ channel_view old };

    fn clone(&self) -> Result<Channel, AllocError> {
        Ok(Channel {
            name: self.name.clone()?,
            from: self.from,
            to: self.to,
            produce: self.produce.clone()?,
            consume: self.consume.clone()?,
            initial: self.initial.clone()?,
            capacity: self.capacity,
        })
    }
}
