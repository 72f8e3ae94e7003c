//! Which refusal a move of the core meets first.
//!
//! The tests that are marked so are inlined: each begin goes through them, and most compare two
//! numbers.

ghost use Rattle.std.specs.Prelude.{◌≡◌, ◌≢◌, ◌↔◌, ◌||◌, IsTrue, Some, Err, IfSome, ◌+◌, ◌-◌, ◌<◌, ◌≤◌, length};
ghost use Rattle.csdf_core.specs.Step.{is_stage, exceeds};

use crate::firing_core::Core;
use crate::readiness::{first_closed, first_full, first_short};
use crate::refusal::Refusal;
use crate::stage::Stage;
use crate::turn::Turn;
use csdf_model::{MAX_CELLS, MAX_TOTAL_PER_FIRING};

/// Whether the stage is the wanted one.
#[inline(always)]
pub(crate) fn is_at(stage: Stage, wanted: Stage) -> bool
    ensures { result ≡ is_stage stage wanted }
{
    stage == wanted
}

/// Whether an actor in this stage is still to write.
fn is_at_work(stage: Stage) -> bool
    ensures { result ≡ (is_stage stage Stage.Begun || is_stage stage Stage.Fetched) }
{
    is_at(stage, Stage::Begun) || is_at(stage, Stage::Fetched)
}

/// Whether a firing asks for more cells than there are beside those in use.
#[inline(always)]
fn exceeds(cells: u64, used: u64, need: u64, gift: u64) -> bool
    requires used { used ≤ MAX_CELLS }
    requires gift { gift ≤ MAX_TOTAL_PER_FIRING }
    ensures { result ≡ exceeds cells used need gift }
{
    need < gift && cells < used + (gift - need)
}

impl Core {
    ghost use Rattle.csdf_core.specs.State.{State};
    ghost use Rattle.csdf_core.specs.Shows.{Shows, Follows};
    ghost use Rattle.csdf_core.specs.Moves.{Begin, Read, Finish, Close};
    ghost use Rattle.csdf_core.specs.Step.{refusal, refused, first_of, firing_table, space_table, write_table, held, reserved, count, stage};
    ghost use Rattle.csdf_core.specs.Step.{is_dry, is_spent, is_over, is_stopped, lacks_cells, is_stage, IsQuiet, Rests};
    ghost use Rattle.csdf_core.specs.Phases.{IsInPhase};
    ghost use Rattle.csdf_core.specs.Rows.{need, gift};
    ghost use Rattle.csdf_core.specs.Plan.{HasAmpleCells};
    ghost use Rattle.csdf_core.specs.declared.refusal.Refusal.TheVariants.{NoCells};

    /// Whether the actor is idle and can't begin a firing.
    fn is_resting(&self, actor: u32) -> bool
        requires { actor < length self.now.plan.sources }
        ensures { IsTrue result ↔ Rests self.now.plan self.now.now actor }
    {
        is_at(self.stage(actor), Stage::Idle) && self.begin_refusal(actor).is_some()
    }

    /// Whether every actor is idle and none can begin a firing.
    #[tactic(auto, unfolding(crate::specs::Step::IsQuiet))]
    pub fn is_quiet(&self) -> bool
        ensures quiet { IsTrue result ↔ IsQuiet self.now.plan self.now.now }
        ensures shown { (s : State) × Shows self.now s }
        ensures room { held self.now.now + reserved self.now.plan self.now.now ≤ self.now.plan.cells }
    {
        for actor in 0..self.nexts.counts.len() as u32 {
            if !self.is_resting(actor) {
                return false;
            }
        }
        true
    }

    /// Whether the actor is a source that has not the tokens for its next firing.
    #[inline(always)]
    fn is_dry(&self, actor: u32) -> bool
        requires { actor < length self.now.plan.sources }
        ensures { result ≡ is_dry self.now.plan self.now.now actor }
    {
        let gives = self.gives(actor) as u64;
        let written = self.written(actor);
        self.plan.is_source(actor) && written + gives > u64::from(self.plan.supply(actor))
    }

    /// Whether the actor has made as many firings as it may.
    pub fn is_spent(&self, actor: u32) -> bool
        requires { actor < length self.now.plan.sources }
        ensures { result ≡ is_spent self.now.plan self.now.now actor }
    {
        self.nexts.counts[actor as usize] >= self.plan.limit(actor)
    }

    /// Whether the actor makes no firing more: it has made as many as it may, or its file has too few
    /// tokens for the next.
    pub fn is_over(&self, actor: u32) -> bool
        requires { actor < length self.now.plan.sources }
        ensures { result ≡ is_over self.now.plan self.now.now actor }
    {
        self.is_spent(actor) || self.is_dry(actor)
    }

    /// Whether as many firings have begun as may.
    #[inline(always)]
    fn is_stopped(&self) -> bool
        ensures { result ≡ is_stopped self.now.plan self.now.now }
    {
        match self.plan.firings() {
            Some(firings) => self.started >= u64::from(firings),
            None => false,
        }
    }

    /// How many cells are held or reserved.
    #[inline(always)]
    pub(crate) fn used(&self) -> u64
        ensures value { result ≡ held self.now.now + reserved self.now.plan self.now.now }
        ensures small { result ≤ MAX_CELLS }
    {
        let cells = u64::from(self.plan.cells());
        let free = u64::from(self.pool.free_len());
        cells - free + self.reserved
    }

    /// Whether the cells for the actor's next firing are held or reserved.
    #[inline(always)]
    fn lacks_cells(&self, actor: u32) -> bool
        requires { actor < length self.now.plan.sources }
        ensures { result ≡ lacks_cells self.now.plan self.now.now actor }
    {
        let need = self.need(actor) as u64;
        let gift = self.gives(actor) as u64;
        exceeds(u64::from(self.plan.cells()), self.used(), need, gift)
    }

    /// The first refusal of the actor's next firing.
    pub(crate) fn begin_refusal(&self, actor: u32) -> Option<Refusal>
        ensures answer { result ≡ refusal self.now.plan self.now.now (Begin actor) }
        ensures follows { IfSome result (λ why. Follows self.now self.now (Begin actor) (Err why)) }
        ensures ample { HasAmpleCells self.now.plan → result ≢ Some NoCells }
    {
        if actor as usize >= self.nexts.counts.len() {
            return Some(Refusal::Unknown);
        }
        self.firing_refusal(actor)
    }

    /// The first refusal of the next firing of an actor that is there.
    fn firing_refusal(&self, actor: u32) -> Option<Refusal>
        requires { actor < length self.now.plan.sources }
        ensures { result ≡ first_of (firing_table self.now.plan self.now.now actor) }
    {
        let a = actor as usize;
        if !is_at(self.stages[a], Stage::Idle) {
            return Some(Refusal::Busy);
        }
        let turn = self.turn(actor);
        if turn.firing >= self.plan.limit(actor) {
            return Some(Refusal::Spent);
        }
        if let Some(channel) = first_closed(&self.plan, &self.opens, actor) {
            return Some(Refusal::Closed(channel));
        }
        if self.is_dry(actor) {
            return Some(Refusal::Dry);
        }
        self.space_refusal(actor, turn)
    }

    /// The first refusal for want of tokens, space, firings or cells.
    #[inline(always)]
    fn space_refusal(&self, actor: u32, turn: Turn) -> Option<Refusal>
        requires actor { actor < length self.now.plan.sources }
        requires firing { turn.firing ≡ count self.now.now actor }
        requires in_phase { IsInPhase self.now.plan.channels actor turn.firing turn.phase }
        ensures { result ≡ first_of (space_table self.now.plan self.now.now actor) }
    {
        if let Some(channel) = first_short(&self.plan, &self.pool, actor, turn) {
            return Some(Refusal::Short(channel));
        }
        if let Some(channel) = first_full(&self.plan, &self.pool, actor, turn) {
            return Some(Refusal::Full(channel));
        }
        if self.is_stopped() {
            return Some(Refusal::Stopped);
        }
        if self.lacks_cells(actor) {
            return Some(Refusal::NoCells);
        }
        None
    }

    /// What `begin` would answer.
    pub fn can_begin(&self, actor: u32) -> Result<(), Refusal>
        ensures answer { refused result ≡ refusal self.now.plan self.now.now (Begin actor) }
        ensures ample { HasAmpleCells self.now.plan → refused result ≢ Some NoCells }
    {
        match self.begin_refusal(actor) {
            Some(refusal) => Err(refusal),
            None => Ok(()),
        }
    }

    pub(crate) fn read_refusal(&self, actor: u32) -> Option<Refusal>
        ensures { result ≡ refusal self.now.plan self.now.now (Read actor) }
    {
        if actor as usize >= self.nexts.counts.len() {
            return Some(Refusal::Unknown);
        }
        if !is_at(self.stages[actor as usize], Stage::Begun) {
            return Some(Refusal::NotBegun);
        }
        None
    }

    pub(crate) fn write_refusal(&self, actor: u32, tokens: &[i32]) -> Option<Refusal>
        ensures { result ≡ first_of (write_table self.now.plan self.now.now actor tokens.now) }
    {
        if actor as usize >= self.nexts.counts.len() {
            return Some(Refusal::Unknown);
        }
        if !is_at(self.stages[actor as usize], Stage::Fetched) {
            return Some(Refusal::NotRead);
        }
        if tokens.len() != self.gives(actor) {
            return Some(Refusal::WrongCount);
        }
        None
    }

    pub(crate) fn finish_refusal(&self, actor: u32) -> Option<Refusal>
        ensures { result ≡ refusal self.now.plan self.now.now (Finish actor) }
    {
        if actor as usize >= self.nexts.counts.len() {
            return Some(Refusal::Unknown);
        }
        if !is_at(self.stages[actor as usize], Stage::Written) {
            return Some(Refusal::NotWritten);
        }
        None
    }

    pub(crate) fn close_refusal(&self, channel: u32) -> Option<Refusal>
        ensures { result ≡ refusal self.now.plan self.now.now (Close channel) }
    {
        if channel as usize >= self.opens.len() {
            return Some(Refusal::Unknown);
        }
        if !self.opens[channel as usize] {
            return Some(Refusal::Closed(channel));
        }
        let producer = self.plan.producer(channel);
        if is_at_work(self.stage(producer)) {
            return Some(Refusal::Busy);
        }
        None
    }
}
