//! A run of a period: actors fire as long as one can.

ghost use Rattle.std.specs.Prelude.{◌≡◌, ◌+◌, ◌-◌, ◌%◌, ◌<◌, ◌≤◌, ◌↔◌, ◌==◌, if◌then◌else◌, ◌⊎◌, ℕ, IfOk, IsTrue, MatchOption, Some, length, replicate};
ghost use Rattle.std.specs.Prelude.{slice_get, slice_index, slice_set, sum};
ghost use Rattle.csdf_model.specs.Graph.{Channel as ChannelModel, phases_of};
ghost use Rattle.csdf_model.specs.Rates.{consumption};
ghost use Rattle.csdf_analysis.specs.Fitting.{IsFit, IsPhased};
ghost use Rattle.csdf_analysis.specs.Period.{CanGo, IsNext, fired, held, held_after, no_firings};
ghost use Rattle.csdf_analysis.specs.Waking.{AreActors, AreWaiting, IsIn};
ghost use Rattle.csdf_analysis.specs.Running.{CanComplete, HasRoom, HasTokens, IsLow, IsRun, IsStalled};

use crate::mask::{lowest, without_actor};
use crate::net::Net;
use crate::stall::{Stall, Wait};
use csdf_model::MAX_CAPACITY;
use std::alloc::{AllocError, Global};

/// Where a run stands: the capacities that bound it, how often each actor has fired and in which
/// phase it is, how many tokens each channel holds, and the number of all firings so far.
pub(crate) struct Run {
    pub(crate) bounds: Vec<u32>,
    pub(crate) counts: Vec<u32>,
    phases: Vec<u32>,
    pub(crate) lengths: Vec<u32>,
    pub(crate) firings: u32,
}

impl Drop for Run {
    fn drop(self) {
        let Run {
            bounds: _,
            counts: _,
            phases: _,
            lengths: _,
            firings: _,
        } = self;
    }
}

/// How many tokens each channel begins with.
fn initial_lengths(alloc: Global, net: &Net) -> Result<Vec<u32>, AllocError>
    ensures count { IfOk result (λ v. length v.items ≡ length net.now.channels) }
    ensures initial { IfOk result (λ v. (i : ℕ) (c : ChannelModel) → slice_get net.now.channels i ≡ Some c → slice_index v.items i ≡ length c.initial) }
{
    let mut lengths = Vec::new(alloc);
    for number in 0..net.channels() as u32 {
        lengths.push(net.channel(number).initial.len() as u32)?;
    }
    Ok(lengths)
}

/// How many tokens the producer takes out of its own channel in this phase: none where another
/// actor is the consumer.
#[inline(always)]
fn own_consumption(net: &Net, number: u32, phase: u32) -> u32
    requires exists { number < length net.now.channels }
    requires phase { (c : ChannelModel) → slice_get net.now.channels number ≡ Some c → phase < phases_of net.now.actors c.from }
    ensures { (c : ChannelModel) → slice_get net.now.channels number ≡ Some c → result ≡ (if c.to == c.from then slice_index c.consume phase else 0) }
{
    let channel = net.channel(number);
    if channel.to == channel.from {
        net.consumption(number, phase)
    } else {
        0
    }
}

/// Takes the tokens of a firing in this phase out of the actor's inputs.
#[inline(always)]
fn take(net: &Net, actor: u32, phase: u32, lengths: &mut [u32])
    requires exists { actor < length net.now.firings }
    requires phase { phase < phases_of net.now.actors actor }
    requires each_channel { length lengths.old ≡ length net.now.channels }
    requires enough { (i : ℕ) (c : ChannelModel) → slice_get net.now.channels i ≡ Some c → c.to ≡ actor
        → slice_index c.consume phase ≤ slice_index lengths.old i }
    ensures { (i : ℕ) (c : ChannelModel) → slice_get net.now.channels i ≡ Some c
        → slice_index lengths.new i ≡ (if c.to == actor then slice_index lengths.old i - slice_index c.consume phase else slice_index lengths.old i) }
{
    for number in net.inputs(actor) {
        lengths[*number as usize] -= net.consumption(*number, phase);
    }
}

/// Puts the tokens of a firing in this phase into the actor's outputs.
#[inline(always)]
fn put(net: &Net, actor: u32, phase: u32, lengths: &mut [u32])
    requires exists { actor < length net.now.firings }
    requires phase { phase < phases_of net.now.actors actor }
    requires each_channel { length lengths.old ≡ length net.now.channels }
    requires small { (i : ℕ) (c : ChannelModel) → slice_get net.now.channels i ≡ Some c → slice_index lengths.old i ≤ MAX_CAPACITY }
    ensures { (i : ℕ) (c : ChannelModel) → slice_get net.now.channels i ≡ Some c
        → slice_index lengths.new i ≡ (if c.from == actor then slice_index lengths.old i + slice_index c.produce phase else slice_index lengths.old i) }
{
    for number in net.outputs(actor) {
        lengths[*number as usize] += net.production(*number, phase);
    }
}

/// As many zeros.
fn zeros(alloc: Global, count: usize) -> Result<Vec<u32>, AllocError>
    ensures { IfOk result (λ v. v.items ≡ replicate count 0) }
{
    vec![in alloc; 0; count]
}

impl Run {
    /// A run in which nothing has fired.
    pub(crate) fn new(alloc: Global, net: &Net, bounds: Vec<u32>) -> Result<Run, AllocError>
        requires { length bounds.items ≡ length net.now.channels }
        ensures run { IfOk result (λ run. IsRun net.now run) }
        ensures bounds { IfOk result (λ run. run.bounds.items ≡ bounds.items) }
        ensures counts { IfOk result (λ run. run.counts.items ≡ no_firings net.now.firings) }
    {
        let counts = zeros(alloc, net.actors())?;
        let phases = zeros(alloc, net.actors())?;
        let lengths = initial_lengths(alloc, net)?;
        Ok(Run {
            bounds,
            counts,
            phases,
            lengths,
            firings: 0,
        })
    }

    /// The phase of the actor's next firing.
    #[inline(always)]
    pub(crate) fn phase(&self, net: &Net, actor: u32) -> u32
        requires run { IsRun net.now self.now }
        requires exists { actor < length net.now.firings }
        ensures value { result ≡ slice_index self.now.counts.items actor % phases_of net.now.actors actor }
        ensures within { result < phases_of net.now.actors actor }
        ensures phased { IsPhased net.now.actors net.now.channels net.now.firings }
        ensures fit { IsFit net.now.channels net.now.firings }
    {
        let _fit = net.actors();
        self.phases[actor as usize]
    }

    /// Whether the channel holds what the consumer takes in this phase, which is its next firing's.
    #[inline(always)]
    pub(crate) fn holds_enough(&self, net: &Net, number: u32, phase: u32) -> bool
        requires run { IsRun net.now self.now }
        requires exists { number < length net.now.channels }
        requires within { (c : ChannelModel) → slice_get net.now.channels number ≡ Some c → phase < phases_of net.now.actors c.to }
        requires phase { (c : ChannelModel) → slice_get net.now.channels number ≡ Some c
            → phase ≡ slice_index self.now.counts.items c.to % phases_of net.now.actors c.to }
        ensures { IsTrue result ↔ ((c : ChannelModel) → slice_get net.now.channels number ≡ Some c
            → consumption c (slice_index self.now.counts.items c.to) ≤ held c self.now.counts.items) }
    {
        net.consumption(number, phase) <= self.lengths[number as usize]
    }

    /// How many tokens the channel would hold after the next firing of its producer.
    #[inline(always)]
    pub(crate) fn filled(&self, net: &Net, number: u32) -> u32
        requires run { IsRun net.now self.now }
        requires exists { number < length net.now.channels }
        ensures { (c : ChannelModel) → slice_get net.now.channels number ≡ Some c → result ≡ held_after c.from self.now.counts.items c }
    {
        let phase = self.phase(net, net.channel(number).from);
        let own = own_consumption(net, number, phase);
        self.lengths[number as usize].saturating_sub(own) + net.production(number, phase)
    }

    /// Whether each input of the actor holds what its next firing takes.
    #[inline(always)]
    fn has_tokens(&self, net: &Net, actor: u32) -> bool
        requires run { IsRun net.now self.now }
        requires exists { actor < length net.now.firings }
        ensures { IsTrue result ↔ HasTokens net.now.channels self.now.counts.items actor }
    {
        let phase = self.phase(net, actor);
        for number in net.inputs(actor) {
            if !self.holds_enough(net, *number, phase) {
                return false;
            }
        }
        true
    }

    /// Whether each output of the actor has room for what its next firing puts in.
    #[inline(always)]
    fn has_room(&self, net: &Net, actor: u32) -> bool
        requires run { IsRun net.now self.now }
        requires exists { actor < length net.now.firings }
        ensures { IsTrue result ↔ HasRoom net.now.channels self.now.bounds.items self.now.counts.items actor }
    {
        for number in net.outputs(actor) {
            if self.filled(net, *number) > self.bounds[*number as usize] {
                return false;
            }
        }
        true
    }

    /// Whether the actor can fire, and has fired less often than in a period.
    #[inline(always)]
    fn can_go(&self, net: &Net, actor: u32) -> bool
        requires run { IsRun net.now self.now }
        requires exists { actor < length net.now.firings }
        ensures { IsTrue result ↔ CanGo net.now.channels net.now.firings self.now.bounds.items self.now.counts.items actor }
    {
        self.counts[actor as usize] < net.firings(actor)
            && self.has_tokens(net, actor)
            && self.has_room(net, actor)
    }

    /// The lowest-numbered actor that can fire and has fired less often than in a period. Takes
    /// those before it out of the set.
    #[inline(always)]
    pub(crate) fn next(&self, net: &Net, waiting: &mut u64) -> Option<u32>
        requires run { IsRun net.now self.now }
        requires waiting { AreWaiting net.now.channels net.now.firings self.now.bounds.items self.now.counts.items waiting.old }
        ensures found { MatchOption result (IsStalled net.now.channels net.now.firings self.now.bounds.items self.now.counts.items)
            (IsNext net.now.channels net.now.firings self.now.bounds.items self.now.counts.items) }
        ensures waiting { AreWaiting net.now.channels net.now.firings self.now.bounds.items self.now.counts.items waiting.new }
    {
        while let Some(actor) = lowest(*waiting) {
            if self.can_go(net, actor) {
                return Some(actor);
            }
            *waiting = without_actor(*waiting, actor);
        }
        None
    }

    /// Fires the actor once.
    #[inline(always)]
    fn fire(&mut self, net: &Net, actor: u32)
        requires run { IsRun net.now self.old }
        requires can_go { CanGo net.now.channels net.now.firings self.old.bounds.items self.old.counts.items actor }
        ensures run { IsRun net.now self.new }
        ensures bounds { self.new.bounds.items ≡ self.old.bounds.items }
        ensures counts { self.new.counts.items ≡ fired self.old.counts.items actor }
        ensures firings { self.new.firings ≡ self.old.firings + 1 }
        ensures exists { actor < length net.now.firings }
    {
        let phase = self.phase(net, actor);
        take(net, actor, phase, &mut self.lengths);
        put(net, actor, phase, &mut self.lengths);
        self.phases[actor as usize] = net.phase_after(actor, phase);
        self.counts[actor as usize] += 1;
        self.firings += 1;
    }

    /// Fires the actor, and puts those into the set that this may make able.
    #[inline(always)]
    pub(crate) fn step(&mut self, net: &Net, actor: u32, waiting: &mut u64)
        requires run { IsRun net.now self.old }
        requires can_go { CanGo net.now.channels net.now.firings self.old.bounds.items self.old.counts.items actor }
        requires actors { AreActors (length net.now.firings) waiting.old }
        requires able { (b : ℕ) → CanGo net.now.channels net.now.firings self.old.bounds.items self.old.counts.items b → (b ≡ actor) ⊎ IsIn waiting.old b }
        ensures run { IsRun net.now self.new }
        ensures bounds { self.new.bounds.items ≡ self.old.bounds.items }
        ensures counts { self.new.counts.items ≡ fired self.old.counts.items actor }
        ensures firings { self.new.firings ≡ self.old.firings + 1 }
        ensures waiting { AreWaiting net.now.channels net.now.firings self.new.bounds.items self.new.counts.items waiting.new }
    {
        self.fire(net, actor);
        *waiting = net.woken(actor, *waiting);
    }

    /// Fires actors of the set, and those that this makes able, until none can.
    pub(crate) fn go_on(&mut self, net: &Net, waiting: &mut u64)
        requires run { IsRun net.now self.old }
        requires waiting { AreWaiting net.now.channels net.now.firings self.old.bounds.items self.old.counts.items waiting.old }
        ensures run { IsRun net.now self.new }
        ensures bounds { self.new.bounds.items ≡ self.old.bounds.items }
        ensures firings { self.old.firings ≤ self.new.firings }
        ensures stalled { IsStalled net.now.channels net.now.firings self.new.bounds.items self.new.counts.items }
        ensures waiting { AreWaiting net.now.channels net.now.firings self.new.bounds.items self.new.counts.items waiting.new }
    {
        while let Some(actor) = self.next(net, waiting) {
            self.step(net, actor, waiting);
        }
    }

    /// At a stall, raises the channel's bound to the least that lets its producer fire, and fires
    /// it.
    pub(crate) fn raise(&mut self, net: &Net, number: u32, waiting: &mut u64)
        requires exists { number < length net.now.channels }
        requires run { IsRun net.now self.old }
        requires stalled { IsStalled net.now.channels net.now.firings self.old.bounds.items self.old.counts.items }
        requires left { self.old.firings < sum net.now.firings }
        requires can { CanComplete net.now.channels net.now.firings self.old.bounds.items number }
        requires low { IsLow net.now.channels net.now.firings self.old.bounds.items number }
        requires actors { AreActors (length net.now.firings) waiting.old }
        ensures run { IsRun net.now self.new }
        ensures bounds { self.new.bounds.items ≡ slice_set self.old.bounds.items number (slice_index self.new.bounds.items number) }
        ensures raised { slice_index self.old.bounds.items number ≤ slice_index self.new.bounds.items number }
        ensures low { IsLow net.now.channels net.now.firings self.new.bounds.items number }
        ensures firings { self.new.firings ≡ self.old.firings + 1 }
        ensures waiting { AreWaiting net.now.channels net.now.firings self.new.bounds.items self.new.counts.items waiting.new }
    {
        let producer = net.channel(number).from;
        self.bounds[number as usize] = self.filled(net, number);
        self.step(net, producer, waiting);
    }

    /// Where the run stands, with what its actors wait for there.
    pub(crate) fn into_stall(self, waits: Vec<Option<Wait>>) -> Stall
        ensures { result ≡ record { bounds = self.bounds; counts = self.counts; held = self.lengths; waits = waits } }
    {
        let Run {
            bounds,
            counts,
            phases: _,
            lengths,
            firings: _,
        } = self;
        Stall {
            bounds,
            counts,
            held: lengths,
            waits,
        }
    }
}
