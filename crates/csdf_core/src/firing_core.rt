//! The firing core, and what it shows.
//!
//! The readers that are marked so are inlined: each firing calls several of them, and a call costs more
//! than the load that it makes.

ghost use Rattle.std.specs.Prelude.{◌≡◌, ◌-◌, ◌*◌, ◌^◌, ◌<◌, ◌≤◌, suc, length, map, sum, IfOk, All, slice_index};
ghost use Rattle.csdf_pool.specs.Pool.{chain_of, held_cells};

use crate::filling::{blank_lists, filled_pool, lengths_of};
use crate::nexts::Nexts;
use crate::plan::Plan;
use crate::side::Side;
use crate::stage::Stage;
use crate::turn::Turn;
use csdf_analysis::Accepted;
use csdf_model::{
    MAX_ACTORS, MAX_CHANNELS, MAX_FIRINGS_PER_ACTOR, MAX_PHASES, MAX_TOTAL_PER_FIRING,
};
use csdf_pool::{Cells, Pool};
use std::alloc::{AllocError, Global};
use std::marker::Model;

/// A machine whose moves are those of firings, over one pool of cells that all channels share.
///
/// A refused move changes nothing. Tokens that were read are not kept.
pub struct Core {
    pub(crate) plan: Plan,
    pub(crate) nexts: Nexts,
    pub(crate) stages: Vec<Stage>,
    pub(crate) opens: Vec<bool>,
    pub(crate) sums: Vec<u64>,
    pub(crate) peaks: Vec<u32>,
    pub(crate) started: u64,
    pub(crate) reserved: u64,
    pub(crate) pool: Pool,
}

impl Drop for Core {
    fn drop(self) {
        let Core {
            plan: _,
            nexts: _,
            stages: _,
            opens: _,
            sums: _,
            peaks: _,
            started: _,
            reserved: _,
            pool: _,
        } = self;
    }
}

impl Model for Core {
    ghost use Rattle.csdf_core.specs.Shows.{View};

    ghost Value = { View };

    ghost use Rattle.csdf_core.specs.Inside.{view_in, IsKept};

    ghost view = { view_in };

    ghost invariant = { IsKept };
}

impl Core {
    ghost use Rattle.csdf_core.specs.State.{opening};
    ghost use Rattle.csdf_core.specs.Shows.{Shows};
    ghost use Rattle.csdf_core.specs.Step.{is_open, given, reserved, count, stage};
    ghost use Rattle.csdf_core.specs.Phases.{IsInPhase};
    ghost use Rattle.csdf_core.specs.Rows.{need, gift};
    ghost use Rattle.csdf_core.specs.Ports.{inputs_at, outputs_at, tokens_at};
    ghost use Rattle.csdf_core.specs.Headline.{capacity_of};
    ghost use Rattle.csdf_core.specs.Plan.{Channel as ChannelModel, consume_at, from_at, produce_at, to_at};
    ghost use Rattle.csdf_model.specs.Rates.{total};
    ghost use Rattle.csdf_core.specs.Planned.{plan_for};
    ghost use Rattle.csdf_core.specs.Transfers.{opening_pool};

    /// A core of the accepted graph, of which it keeps what it plays, in the state in which nothing has fired:
    /// the initial tokens are in the channels, in order. Each actor has its greatest number of firings
    /// (`limits`), and the number of tokens in its file, 0 where it is no source (`supply`). There is a
    /// greatest number of firings that begin, of all actors together, where `firings` says so.
    ///
    /// An error says that memory ran out.
    pub fn new(
        alloc: Global,
        accepted: &Accepted,
        limits: Vec<u32>,
        supply: Vec<u32>,
        firings: Option<u32>,
    ) -> Result<Core, AllocError>
        requires limits { length limits.items ≡ length accepted.now.graph.actors }
        requires supply { length supply.items ≡ length accepted.now.graph.actors }
        requires few { All (λ n. n ≤ MAX_FIRINGS_PER_ACTOR) limits.items }
        ensures plan { IfOk result (λ core. core.plan
            ≡ plan_for accepted.now limits.items supply.items firings) }
        ensures opening { IfOk result (λ core. Shows core (opening core.plan)) }
        ensures peaks { IfOk result (λ core. core.peaks ≡ map length (map (λ (c : ChannelModel). c.initial) core.plan.channels)) }
        ensures cells { IfOk result (λ core. core.pool ≡ opening_pool core.plan) }
    {
        let plan = Plan::new(alloc, accepted, limits, supply, firings)?;
        let pool = filled_pool(alloc, &plan)?;
        let peaks = lengths_of(alloc, &pool, plan.channels() as u32)?;
        let nexts = Nexts::first(alloc, &plan)?;
        let blank = blank_lists(alloc, &plan)?;
        Ok(Core {
            plan,
            nexts,
            stages: blank.stages,
            opens: blank.opens,
            sums: blank.sums,
            peaks,
            started: 0,
            reserved: 0,
            pool,
        })
    }

    /// How many actors there are.
    pub fn actors(&self) -> u32
        ensures value { result ≡ length self.now.plan.sources }
        ensures few { result ≤ MAX_ACTORS }
    {
        self.plan.actors() as u32
    }

    /// How many channels there are.
    pub fn channels(&self) -> u32
        ensures value { result ≡ length self.now.plan.channels }
        ensures few { result ≤ MAX_CHANNELS }
    {
        self.plan.channels() as u32
    }

    /// The channels that end at the actor, in file order.
    #[inline]
    pub fn inputs(&self, actor: u32) -> &[u32]
        requires { actor < length self.now.plan.sources }
        ensures value { result.now ≡ inputs_at self.now.plan.channels actor }
        ensures own { All (λ c. to_at self.now.plan.channels c ≡ actor) result.now }
        ensures within { All (λ c. c < length self.now.plan.channels) result.now }
        ensures few { length result.now ≤ MAX_CHANNELS }
    {
        self.plan.inputs(actor)
    }

    /// The channels that begin at the actor, in file order.
    #[inline]
    pub fn outputs(&self, actor: u32) -> &[u32]
        requires { actor < length self.now.plan.sources }
        ensures value { result.now ≡ outputs_at self.now.plan.channels actor }
        ensures own { All (λ c. from_at self.now.plan.channels c ≡ actor) result.now }
        ensures within { All (λ c. c < length self.now.plan.channels) result.now }
        ensures few { length result.now ≤ MAX_CHANNELS }
    {
        self.plan.outputs(actor)
    }

    /// The actor that writes into the channel.
    pub fn producer(&self, channel: u32) -> u32
        requires { channel < length self.now.plan.channels }
        ensures value { result ≡ from_at self.now.plan.channels channel }
        ensures within { result < length self.now.plan.sources }
    {
        self.plan.producer(channel)
    }

    /// The actor that reads from the channel.
    pub fn consumer(&self, channel: u32) -> u32
        requires { channel < length self.now.plan.channels }
        ensures value { result ≡ to_at self.now.plan.channels channel }
        ensures within { result < length self.now.plan.sources }
    {
        self.plan.consumer(channel)
    }

    /// How many tokens the channel may hold.
    pub fn capacity(&self, channel: u32) -> u32
        requires { channel < length self.now.plan.channels }
        ensures { result ≡ capacity_of self.now.plan channel }
    {
        self.plan.capacity(channel)
    }

    /// How many tokens the finished firings of its producer put into the channel.
    pub fn put_into(&self, channel: u32) -> u32
        requires { channel < length self.now.plan.channels }
        ensures { result ≡ total (produce_at self.now.plan.channels channel) (count self.now.now (from_at self.now.plan.channels channel)) }
    {
        let fired = self.fired(self.producer(channel));
        self.plan.given(channel, 0, fired) as u32
    }

    /// How many tokens the finished firings of its consumer took out of the channel.
    pub fn taken_from(&self, channel: u32) -> u32
        requires { channel < length self.now.plan.channels }
        ensures { result ≡ total (consume_at self.now.plan.channels channel) (count self.now.now (to_at self.now.plan.channels channel)) }
    {
        let fired = self.fired(self.consumer(channel));
        self.plan.taken(channel, 0, fired) as u32
    }

    /// How many firings of the actor are finished.
    #[inline]
    pub fn fired(&self, actor: u32) -> u32
        requires { actor < length self.now.plan.sources }
        ensures value { result ≡ count self.now.now actor }
        ensures few { result ≤ MAX_FIRINGS_PER_ACTOR }
    {
        self.nexts.counts[actor as usize]
    }

    /// The actor's next firing.
    #[inline(always)]
    pub fn turn(&self, actor: u32) -> Turn
        requires { actor < length self.now.plan.sources }
        ensures firing { result.firing ≡ count self.now.now actor }
        ensures in_phase { IsInPhase self.now.plan.channels actor result.firing result.phase }
        ensures low { result.phase < MAX_PHASES }
        ensures few { result.firing ≤ MAX_FIRINGS_PER_ACTOR }
    {
        Turn {
            firing: self.fired(actor),
            phase: self.nexts.phases[actor as usize],
        }
    }

    /// Where the actor stands in its firing.
    #[inline]
    pub fn stage(&self, actor: u32) -> Stage
        requires { actor < length self.now.plan.sources }
        ensures { result ≡ stage self.now.now actor }
    {
        let stages = &self.stages;
        stages[actor as usize]
    }

    /// How many tokens wait in the channel.
    #[inline]
    pub fn len(&self, channel: u32) -> u32
        requires { channel < length self.now.plan.channels }
        ensures { result ≡ length (tokens_at self.now.now.tokens channel) }
    {
        self.pool.len(channel)
    }

    /// The greatest number of tokens that the channel has held so far.
    pub fn peak(&self, channel: u32) -> u32
        requires { channel < length self.now.plan.channels }
        ensures { result ≡ slice_index self.now.peaks channel }
    {
        self.peaks[channel as usize]
    }

    /// Whether the channel takes tokens.
    #[inline]
    pub fn is_open(&self, channel: u32) -> bool
        requires { channel < length self.now.plan.channels }
        ensures { result ≡ is_open self.now.now channel }
    {
        let opens = &self.opens;
        opens[channel as usize]
    }

    /// The tokens that wait in the channel, the oldest first, in a list of their own.
    ///
    /// An error says that memory ran out.
    pub fn tokens(&self, alloc: Global, channel: u32) -> Result<Vec<i32>, AllocError>
        requires { channel < length self.now.plan.channels }
        ensures { IfOk result (λ tokens. tokens.items ≡ tokens_at self.now.now.tokens channel) }
    {
        let mut tokens = vec![in alloc; 0; self.pool.len(channel) as usize]?;
        self.pool.copy_front(channel, &mut tokens);
        Ok(tokens)
    }

    /// The cells of the channel's tokens, the oldest first.
    pub fn cells(&self, channel: u32) -> Cells<'_>
        requires { channel < length self.now.plan.channels }
        ensures { result ≡ held_cells (chain_of self.now.pool channel) }
    {
        self.pool.cells(channel)
    }

    /// The free cells, the next to be taken first.
    pub fn free_cells(&self) -> Cells<'_>
        ensures value { result ≡ self.now.pool.free }
        ensures size { self.now.pool.size ≡ self.now.plan.cells }
    {
        self.pool.free_cells()
    }

    /// How many tokens firing number `fired(actor)` reads; 0 where there is no such actor.
    #[inline]
    pub fn need(&self, actor: u32) -> usize
        ensures value { result ≡ need actor (count self.now.now actor) self.now.plan.channels }
        ensures unknown { length self.now.plan.sources ≤ actor → result ≡ 0 }
        ensures small { result ≤ MAX_TOTAL_PER_FIRING }
    {
        if actor as usize >= self.plan.actors() {
            return 0;
        }
        self.plan.moved(Side::Input, actor, self.turn(actor))
    }

    /// How many tokens firing number `fired(actor)` writes; 0 where there is no such actor.
    #[inline]
    pub fn gives(&self, actor: u32) -> usize
        ensures value { result ≡ given self.now.plan actor (suc (count self.now.now actor)) - given self.now.plan actor (count self.now.now actor) }
        ensures sum { result ≡ gift actor (count self.now.now actor) self.now.plan.channels }
        ensures unknown { length self.now.plan.sources ≤ actor → result ≡ 0 }
        ensures small { result ≤ MAX_TOTAL_PER_FIRING }
    {
        if actor as usize >= self.plan.actors() {
            return 0;
        }
        self.plan.moved(Side::Output, actor, self.turn(actor))
    }

    /// How many tokens the actor's finished firings wrote, over all its outputs: for a source, how
    /// many of its file are used.
    #[inline]
    pub fn written(&self, actor: u32) -> u64
        requires { actor < length self.now.plan.sources }
        ensures value { result ≡ given self.now.plan actor (count self.now.now actor) }
        ensures small { result ≤ MAX_TOTAL_PER_FIRING * 2 ^ 32 }
    {
        self.sums[actor as usize]
    }
}
