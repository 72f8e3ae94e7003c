//! What a core plays: a graph with its capacities and limits, looked up and added up once.
//!
//! The readers that are marked so are inlined: each firing calls several of them for each of its
//! channels, and a call costs more than the loads that it makes.

ghost use Rattle.std.specs.Prelude.{ℕ, ◌≡◌, ◌+◌, ◌*◌, ◌<◌, ◌≤◌, ◌↔◌, IsTrue, length, map, slice_get, slice_index, slice_index_or, false, All, IfOk, Some};
ghost use Rattle.csdf_core.specs.Plan.{Channel as ChannelModel, consume_at, from_at, produce_at, to_at};
ghost use Rattle.csdf_core.specs.PlanInside.{channel_in, AreEnds, HasSmallRates, IsActor, IsFirstLoop};
ghost use Rattle.csdf_core.specs.Planned.{plan_for};
ghost use Rattle.csdf_model.specs.Rates.{total};
ghost use Rattle.csdf_core.specs.Blocks.{takes_at, gives_at, GivesBack, HasNoLoop};
ghost use Rattle.csdf_core.specs.Playable.{IsPlayable};
ghost use Rattle.csdf_core.specs.Rows.{gift};
ghost use Rattle.csdf_core.specs.Streams.{part};
ghost use Rattle.csdf_core.specs.Ports.{inputs_at, outputs_at, take_at, give_at};
ghost use Rattle.csdf_core.specs.Phases.{HasPhases, IsInPhase, IsPhase};
ghost use Rattle.csdf_core.specs.Sides.{amounts_at, ends_at, moved, owner_at, rates_at};

use crate::planned::{PlannedActor, PlannedChannel, PlannedEnds, planned_actors, planned_channels};
use crate::side::Side;
use crate::turn::Turn;
use csdf_analysis::Accepted;
use csdf_model::{
    MAX_ACTORS, MAX_CHANNELS, MAX_FIRINGS_PER_ACTOR, MAX_PHASES, MAX_TOKENS_PER_FIRING,
    MAX_TOTAL_PER_FIRING, rate, total,
};
use std::alloc::{AllocError, Global};
use std::marker::Model;

/// What is static of each actor and each channel, the greatest number of all firings, and the number of cells.
#[derive(Drop)]
pub(crate) struct Plan {
    actors: Vec<PlannedActor>,
    channels: Vec<PlannedChannel>,
    limits: Vec<u32>,
    supply: Vec<u32>,
    firings: Option<u32>,
    cells: u32,
}

impl Model for Plan {
    ghost use Rattle.csdf_core.specs.Plan.{Plan as PlanModel};

    ghost Value = { PlanModel };

    ghost use Rattle.csdf_core.specs.PlanInside.{plan_in, IsPlanned};

    ghost view = { plan_in };

    ghost invariant = { IsPlanned };
}

/// How many tokens n firings move at these rates, from this one on.
#[inline(always)]
fn moved_at(rates: &[u32], firing: u32, n: u32) -> u64
    requires { firing + n ≤ MAX_FIRINGS_PER_ACTOR }
    ensures { total rates.now firing + result ≡ total rates.now (firing + n) }
{
    // Most actors have one phase, and then nothing is divided. Blocks of one firing are many.
    if rates.len() == 1 {
        return u64::from(n) * u64::from(rates[0]);
    }
    if n == 1 {
        return u64::from(rate(rates, firing));
    }
    total(rates, firing + n) - total(rates, firing)
}

impl Plan {
    /// The plan of an accepted graph with the greatest number of firings of each actor,
    /// the number of tokens in the file of each source, and the greatest number of all firings.
    ///
    /// An error says that memory ran out.
    pub(crate) fn new(
        alloc: Global,
        accepted: &Accepted,
        limits: Vec<u32>,
        supply: Vec<u32>,
        firings: Option<u32>,
    ) -> Result<Plan, AllocError>
        requires limits { length limits.items ≡ length accepted.now.graph.actors }
        requires supply { length supply.items ≡ length accepted.now.graph.actors }
        requires few { All (λ n. n ≤ MAX_FIRINGS_PER_ACTOR) limits.items }
        ensures plan { IfOk result (λ plan. plan
            ≡ plan_for accepted.now limits.items supply.items firings) }
        ensures playable { IfOk result IsPlayable }
    {
        let graph = accepted.graph();
        let channels = planned_channels(alloc, graph.channels(), accepted.capacities())?;
        let actors = planned_actors(alloc, graph, &channels)?;
        Ok(Plan {
            actors,
            channels,
            limits,
            supply,
            firings,
            cells: accepted.cells(),
        })
    }

    /// The number of actors.
    pub(crate) fn actors(&self) -> usize
        ensures count { result ≡ length self.now.sources }
        ensures few { result ≤ MAX_ACTORS }
    {
        self.actors.len()
    }

    /// The number of channels.
    pub(crate) fn channels(&self) -> usize
        ensures count { result ≡ length self.now.channels }
        ensures few { result ≤ MAX_CHANNELS }
    {
        self.channels.len()
    }

    /// What is static of the actor.
    #[inline(always)]
    fn actor(&self, actor: u32) -> &PlannedActor
        requires { actor < length self.now.sources }
        ensures actor { IsActor self.now.channels actor result.now }
        ensures source { result.now.is_source ≡ slice_index_or self.now.sources actor false }
    {
        &self.actors[actor as usize]
    }

    /// What is static of the actor at this side.
    #[inline(always)]
    fn side(&self, side: Side, actor: u32) -> &PlannedEnds
        requires { actor < length self.now.sources }
        ensures { AreEnds side self.now.channels actor result.now }
    {
        let actor = self.actor(actor);
        match side {
            Side::Input => &actor.input,
            Side::Output => &actor.output,
        }
    }

    /// The channel.
    #[inline(always)]
    fn channel(&self, channel: u32) -> &PlannedChannel
        requires { channel < length self.now.channels }
        ensures value { slice_get self.now.channels channel ≡ Some (channel_in result.now) }
        ensures small { HasSmallRates (channel_in result.now) }
    {
        &self.channels[channel as usize]
    }

    /// The channel's rates at this side.
    #[inline(always)]
    fn rates(&self, side: Side, channel: u32) -> &[u32]
        requires { channel < length self.now.channels }
        ensures value { result.now ≡ rates_at side self.now.channels channel }
        ensures small { All (λ n. n ≤ MAX_TOKENS_PER_FIRING) result.now }
    {
        let channel = self.channel(channel);
        match side {
            Side::Input => &channel.consume,
            Side::Output => &channel.produce,
        }
    }

    /// The channels that end at the actor, in file order.
    #[inline(always)]
    pub(crate) fn inputs(&self, actor: u32) -> &[u32]
        requires { actor < length self.now.sources }
        ensures value { result.now ≡ inputs_at self.now.channels actor }
        ensures own { All (λ c. to_at self.now.channels c ≡ actor) result.now }
        ensures within { All (λ c. c < length self.now.channels) result.now }
        ensures few { length result.now ≤ MAX_CHANNELS }
    {
        self.ends(Side::Input, actor)
    }

    /// The channels that begin at the actor, in file order.
    #[inline(always)]
    pub(crate) fn outputs(&self, actor: u32) -> &[u32]
        requires { actor < length self.now.sources }
        ensures value { result.now ≡ outputs_at self.now.channels actor }
        ensures own { All (λ c. from_at self.now.channels c ≡ actor) result.now }
        ensures within { All (λ c. c < length self.now.channels) result.now }
        ensures few { length result.now ≤ MAX_CHANNELS }
    {
        self.ends(Side::Output, actor)
    }

    /// The channels at this side of the actor, in file order.
    #[inline(always)]
    pub(crate) fn ends(&self, side: Side, actor: u32) -> &[u32]
        requires { actor < length self.now.sources }
        ensures value { result.now ≡ ends_at side self.now.channels actor }
        ensures own { All (λ c. owner_at side self.now.channels c ≡ actor) result.now }
        ensures within { All (λ c. c < length self.now.channels) result.now }
        ensures few { length result.now ≤ MAX_CHANNELS }
    {
        &self.side(side, actor).channels
    }

    /// No firing gives many tokens. The call does nothing.
    #[inline(always)]
    pub(crate) fn gives_few(&self)
        ensures { (a k : ℕ) → gift a k self.now.channels ≤ MAX_TOTAL_PER_FIRING }
    {
        // Read for the prover: what the plan keeps.
        let _channels = &self.channels;
    }

    /// How many phases the actor has.
    #[inline(always)]
    pub(crate) fn phases(&self, actor: u32) -> u32
        requires { actor < length self.now.sources }
        ensures phases { HasPhases self.now.channels actor result }
        ensures some { 1 ≤ result }
        ensures few { result ≤ MAX_PHASES }
    {
        self.actor(actor).phases
    }

    /// The first firing of every actor.
    pub(crate) fn first_turn(&self) -> Turn
        ensures firing { result.firing ≡ 0 }
        ensures phase { result.phase ≡ 0 }
        ensures in_phase { (a : ℕ) → IsInPhase self.now.channels a 0 0 }
    {
        // The proof takes what the plan keeps from this look into it.
        let _channels = &self.channels;
        Turn {
            firing: 0,
            phase: 0,
        }
    }

    /// How many tokens a firing of the channel's consumer takes out.
    #[inline(always)]
    pub(crate) fn takes(&self, channel: u32, turn: Turn) -> u32
        requires channel { channel < length self.now.channels }
        requires phase { IsPhase (consume_at self.now.channels channel) turn.firing turn.phase }
        ensures value { result ≡ take_at self.now.channels turn.firing channel }
        ensures small { result ≤ MAX_TOKENS_PER_FIRING }
    {
        let rates = self.rates(Side::Input, channel);
        rates[turn.phase as usize]
    }

    /// How many tokens a firing of the channel's producer puts in.
    #[inline(always)]
    pub(crate) fn gives(&self, channel: u32, turn: Turn) -> u32
        requires channel { channel < length self.now.channels }
        requires phase { IsPhase (produce_at self.now.channels channel) turn.firing turn.phase }
        ensures value { result ≡ give_at self.now.channels turn.firing channel }
        ensures small { result ≤ MAX_TOKENS_PER_FIRING }
    {
        let rates = self.rates(Side::Output, channel);
        rates[turn.phase as usize]
    }

    /// How many tokens n firings of the channel's consumer take out, from this one on.
    #[inline(always)]
    pub(crate) fn taken(&self, channel: u32, firing: u32, n: u32) -> u64
        requires channel { channel < length self.now.channels }
        requires few { firing + n ≤ MAX_FIRINGS_PER_ACTOR }
        ensures value { result ≡ takes_at self.now.channels firing n channel }
        ensures small { result ≤ MAX_TOKENS_PER_FIRING * n }
    {
        self.amounts(Side::Input, channel, firing, n)
    }

    /// How many tokens n firings of the channel's producer put in, from this one on.
    #[inline(always)]
    pub(crate) fn given(&self, channel: u32, firing: u32, n: u32) -> u64
        requires channel { channel < length self.now.channels }
        requires few { firing + n ≤ MAX_FIRINGS_PER_ACTOR }
        ensures value { result ≡ gives_at self.now.channels firing n channel }
        ensures small { result ≤ MAX_TOKENS_PER_FIRING * n }
    {
        self.amounts(Side::Output, channel, firing, n)
    }

    /// How many tokens n firings of the actor at this side of the channel move in it, from this one on.
    #[inline(always)]
    pub(crate) fn amounts(&self, side: Side, channel: u32, firing: u32, n: u32) -> u64
        requires channel { channel < length self.now.channels }
        requires few { firing + n ≤ MAX_FIRINGS_PER_ACTOR }
        ensures value { result ≡ amounts_at side self.now.channels firing n channel }
        ensures small { result ≤ MAX_TOKENS_PER_FIRING * n }
    {
        moved_at(self.rates(side, channel), firing, n)
    }

    /// The channel's producer.
    pub(crate) fn producer(&self, channel: u32) -> u32
        requires { channel < length self.now.channels }
        ensures { result ≡ from_at self.now.channels channel }
    {
        self.channel(channel).from
    }

    /// The channel's consumer.
    #[inline(always)]
    pub(crate) fn consumer(&self, channel: u32) -> u32
        requires { channel < length self.now.channels }
        ensures { result ≡ to_at self.now.channels channel }
    {
        self.channel(channel).to
    }

    /// The channel's capacity.
    #[inline(always)]
    pub(crate) fn capacity(&self, channel: u32) -> u32
        requires { channel < length self.now.channels }
        ensures { result ≡ slice_index (map (λ (c : ChannelModel). c.capacity) self.now.channels) channel }
    {
        self.channel(channel).capacity
    }

    /// The channel's initial tokens.
    pub(crate) fn initial(&self, channel: u32) -> &[i32]
        requires { channel < length self.now.channels }
        ensures { result.now ≡ part channel (map (λ (c : ChannelModel). c.initial) self.now.channels) }
    {
        &self.channel(channel).initial
    }

    /// The greatest number of firings of the actor.
    #[inline(always)]
    pub(crate) fn limit(&self, actor: u32) -> u32
        requires { actor < length self.now.sources }
        ensures value { result ≡ slice_index self.now.limits actor }
        ensures small { result ≤ MAX_FIRINGS_PER_ACTOR }
    {
        self.limits[actor as usize]
    }

    /// The number of tokens in the actor's file.
    #[inline(always)]
    pub(crate) fn supply(&self, actor: u32) -> u32
        requires { actor < length self.now.sources }
        ensures { result ≡ slice_index self.now.supplies actor }
    {
        self.supply[actor as usize]
    }

    /// Whether the actor is a source.
    #[inline(always)]
    pub(crate) fn is_source(&self, actor: u32) -> bool
        requires { actor < length self.now.sources }
        ensures { result ≡ slice_index_or self.now.sources actor false }
    {
        self.actor(actor).is_source
    }

    /// How many tokens the actor's firing moves at this side.
    #[inline(always)]
    pub(crate) fn moved(&self, side: Side, actor: u32, turn: Turn) -> usize
        requires actor { actor < length self.now.sources }
        requires in_phase { IsInPhase self.now.channels actor turn.firing turn.phase }
        ensures value { result ≡ moved side actor turn.firing self.now.channels }
        ensures small { result ≤ MAX_TOTAL_PER_FIRING }
    {
        let ends = self.side(side, actor);
        if self.phases(actor) == 1 {
            return ends.first as usize;
        }
        let moved = &ends.moved;
        // An actor with no channel there moves nothing, in whichever phase.
        if turn.phase as usize >= moved.len() {
            return 0;
        }
        moved[turn.phase as usize] as usize
    }

    /// The first channel from the actor to itself.
    #[inline(always)]
    pub(crate) fn first_loop(&self, actor: u32) -> Option<u32>
        requires { actor < length self.now.sources }
        ensures { IsFirstLoop self.now.channels actor result }
    {
        self.actor(actor).own
    }

    /// Whether no channel goes from the actor to itself.
    #[inline(always)]
    pub(crate) fn has_no_loop(&self, actor: u32) -> bool
        requires { actor < length self.now.sources }
        ensures { IsTrue result ↔ HasNoLoop self.now.channels actor }
    {
        match self.first_loop(actor) {
            Some(_) => false,
            None => true,
        }
    }

    /// Whether the actor has one phase or no channel to itself: then no firing takes more of an output than it
    /// gives to it.
    #[inline(always)]
    pub(crate) fn gives_back(&self, actor: u32) -> bool
        requires { actor < length self.now.sources }
        ensures { IsTrue result → GivesBack self.now.channels actor }
    {
        let _channels = &self.channels;
        if self.has_no_loop(actor) {
            return true;
        }
        self.phases(actor) == 1
    }

    /// The greatest number of firings of all actors, where there is one.
    pub(crate) fn firings(&self) -> Option<u32>
        ensures { result ≡ self.now.firings }
    {
        self.firings
    }

    /// The number of cells that all channels share.
    pub(crate) fn cells(&self) -> u32
        ensures { result ≡ self.now.cells }
    {
        self.cells
    }
}
