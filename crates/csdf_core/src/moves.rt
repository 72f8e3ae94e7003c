//! The moves of a core: what it may be asked for, and how it makes each.

ghost use Rattle.std.specs.Prelude.{◌≡◌, ◌≢◌, Some, None, Ok, ◌+◌, ◌-◌, ◌<◌, ◌≤◌, [], length, take, drop, IfOk, OnOk, OnErr};

use crate::firing_core::Core;
use crate::refusal::Refusal;
use crate::stage::Stage;
use crate::transfer::{put_outputs, raise_peaks, take_inputs};

/// A move of a firing, or the closing of a channel.
#[derive(Debug, Drop)]
pub enum Move {
    /// The actor begins its next firing, where its tokens and the space for what it writes are there.
    Begin(u32),
    /// The actor takes the tokens of its firing out of its inputs.
    Read(u32),
    /// The actor puts these tokens into its outputs.
    Write(u32, Vec<i32>),
    /// The actor ends its firing.
    Finish(u32),
    /// The channel takes no more tokens.
    Close(u32),
}

impl Core {
    ghost use Rattle.csdf_core.specs.Shows.{Follows, as_reply};
    ghost use Rattle.csdf_core.specs.Transfers.{after_read, after_write};
    ghost use Rattle.csdf_core.specs.Moves.{Begin, Read, Write, Finish, Close};
    ghost use Rattle.csdf_core.specs.Step.{refusal, refused, count};
    ghost use Rattle.csdf_core.specs.Rows.{need, gift};
    ghost use Rattle.csdf_core.specs.Plan.{HasAmpleCells};
    ghost use Rattle.csdf_core.specs.declared.refusal.Refusal.TheVariants.{NoCells};

    /// Begins the actor's next firing, or answers the first refusal of `Unknown`, `Busy`, `Spent`,
    /// `Closed`, `Dry`, `Short`, `Full`, `Stopped` and `NoCells`.
    pub fn begin(&mut self, actor: u32) -> Result<(), Refusal>
        ensures refusal { refused result ≡ refusal self.old.plan self.old.now (Begin actor) }
        ensures step { Follows self.old self.new (Begin actor) (as_reply (λ _. []) result) }
        ensures unchanged { OnErr result (self.new ≡ self.old) }
        ensures ample { HasAmpleCells self.old.plan → refused result ≢ Some NoCells }
        ensures cells { self.new.pool ≡ self.old.pool }
        ensures counts { self.new.now.counts ≡ self.old.now.counts }
    {
        if let Some(refusal) = self.begin_refusal(actor) {
            return Err(refusal);
        }
        self.begin_tested(actor);
        Ok(())
    }

    /// Begins the actor's next firing where [`can_begin`](Core::can_begin) answers `Ok`: the test is
    /// not made again.
    pub fn begin_tested(&mut self, actor: u32)
        requires { refusal self.old.plan self.old.now (Begin actor) ≡ None }
        ensures step { Follows self.old self.new (Begin actor) (Ok []) }
        ensures cells { self.new.pool ≡ self.old.pool }
        ensures counts { self.new.now.counts ≡ self.old.now.counts }
    {
        let need = self.need(actor) as u64;
        let gift = self.gives(actor) as u64;
        self.started += 1;
        self.reserved += gift.saturating_sub(need);
        self.stages[actor as usize] = Stage::Begun;
    }

    /// Takes the firing's tokens out, the inputs in file order, into the front of the slice, and
    /// answers how many; or the first refusal of `Unknown` and `NotBegun`.
    pub fn read(&mut self, actor: u32, into: &mut [i32]) -> Result<usize, Refusal>
        requires { need actor (count self.old.now actor) self.old.plan.channels ≤ length into.old }
        ensures refusal { refused result ≡ refusal self.old.plan self.old.now (Read actor) }
        ensures step { Follows self.old self.new (Read actor) (as_reply (λ n. take n into.new) result) }
        ensures count { IfOk result (λ n. n ≡ need actor (count self.old.now actor) self.old.plan.channels) }
        ensures rest { IfOk result (λ n. drop n into.new ≡ drop n into.old) }
        ensures cells { OnOk result (self.new.pool ≡ after_read self.old.plan actor (count self.old.now actor) self.old.pool) }
        ensures unchanged { OnErr result (self.new ≡ self.old) }
        ensures unread { OnErr result (into.new ≡ into.old) }
    {
        // Read for the prover: what a core keeps.
        let _plan = &self.plan;
        if let Some(refusal) = self.read_refusal(actor) {
            return Err(refusal);
        }
        let n = self.need(actor);
        self.read_tested(actor, &mut into[..n]);
        Ok(n)
    }

    /// Takes the tokens of the firing, which has begun and not read, out into the slice, the inputs
    /// in file order. The slice has a place for each of them.
    pub fn read_tested(&mut self, actor: u32, into: &mut [i32])
        requires accepted { refusal self.old.plan self.old.now (Read actor) ≡ None }
        requires whole { length into.old ≡ need actor (count self.old.now actor) self.old.plan.channels }
        ensures step { Follows self.old self.new (Read actor) (Ok into.new) }
        ensures whole { length into.new ≡ length into.old }
        ensures cells { self.new.pool ≡ after_read self.old.plan actor (count self.old.now actor) self.old.pool }
    {
        let turn = self.turn(actor);
        let need = self.need(actor) as u64;
        let gift = self.gives(actor) as u64;
        let plan = &self.plan;
        take_inputs(plan, &mut self.pool, actor, turn, into);
        self.reserved = self.reserved - gift.saturating_sub(need) + gift;
        self.stages[actor as usize] = Stage::Fetched;
    }

    /// Puts the firing's tokens in, the outputs in file order, or answers the first refusal of
    /// `Unknown`, `NotRead` and `WrongCount`.
    pub fn write(&mut self, actor: u32, tokens: &[i32]) -> Result<(), Refusal>
        ensures refusal { refused result ≡ refusal self.old.plan self.old.now (Write actor tokens.now) }
        ensures step { Follows self.old self.new (Write actor tokens.now) (as_reply (λ _. []) result) }
        ensures unchanged { OnErr result (self.new ≡ self.old) }
        ensures cells { OnOk result (self.new.pool ≡ after_write self.old.plan actor (count self.old.now actor) self.old.pool tokens.now) }
    {
        let _plan = &self.plan;
        if let Some(refusal) = self.write_refusal(actor, tokens) {
            return Err(refusal);
        }
        self.write_tested(actor, tokens);
        Ok(())
    }

    /// Puts the tokens of the firing, which has read and not written, in, the outputs in file order.
    /// They are as many as it gives.
    pub fn write_tested(&mut self, actor: u32, tokens: &[i32])
        requires { refusal self.old.plan self.old.now (Write actor tokens.now) ≡ None }
        ensures step { Follows self.old self.new (Write actor tokens.now) (Ok []) }
        ensures cells { self.new.pool ≡ after_write self.old.plan actor (count self.old.now actor) self.old.pool tokens.now }
    {
        let turn = self.turn(actor);
        prove!(tokens.len() <= self.pool.free_len() as usize);
        let plan = &self.plan;
        put_outputs(plan, &mut self.pool, actor, turn, tokens);
        raise_peaks(plan, &self.pool, &mut self.peaks, actor);
        self.reserved -= tokens.len() as u64;
        self.stages[actor as usize] = Stage::Written;
    }

    /// Ends the actor's firing, or answers the first refusal of `Unknown` and `NotWritten`.
    pub fn finish(&mut self, actor: u32) -> Result<(), Refusal>
        ensures refusal { refused result ≡ refusal self.old.plan self.old.now (Finish actor) }
        ensures step { Follows self.old self.new (Finish actor) (as_reply (λ _. []) result) }
        ensures unchanged { OnErr result (self.new ≡ self.old) }
        ensures cells { self.new.pool ≡ self.old.pool }
    {
        let _plan = &self.plan;
        if let Some(refusal) = self.finish_refusal(actor) {
            return Err(refusal);
        }
        self.finish_tested(actor);
        Ok(())
    }

    /// Ends the actor's firing, which has written.
    pub fn finish_tested(&mut self, actor: u32)
        requires { refusal self.old.plan self.old.now (Finish actor) ≡ None }
        ensures step { Follows self.old self.new (Finish actor) (Ok []) }
        ensures cells { self.new.pool ≡ self.old.pool }
    {
        let written = self.gives(actor) as u64;
        self.sums[actor as usize] += written;
        self.nexts.advance(&self.plan, actor, 1);
        self.stages[actor as usize] = Stage::Idle;
    }

    /// Closes the channel, or answers the first refusal of `Unknown`, `Closed` and `Busy`. Its
    /// consumer may go on taking what it holds.
    pub fn close(&mut self, channel: u32) -> Result<(), Refusal>
        ensures refusal { refused result ≡ refusal self.old.plan self.old.now (Close channel) }
        ensures step { Follows self.old self.new (Close channel) (as_reply (λ _. []) result) }
        ensures unchanged { OnErr result (self.new ≡ self.old) }
        ensures cells { self.new.pool ≡ self.old.pool }
    {
        let _plan = &self.plan;
        if let Some(refusal) = self.close_refusal(channel) {
            return Err(refusal);
        }
        self.close_tested(channel);
        Ok(())
    }

    /// Closes the channel, which is open, and whose producer is not between its begin and its write.
    pub fn close_tested(&mut self, channel: u32)
        requires { refusal self.old.plan self.old.now (Close channel) ≡ None }
        ensures step { Follows self.old self.new (Close channel) (Ok []) }
        ensures cells { self.new.pool ≡ self.old.pool }
    {
        self.opens[channel as usize] = false;
    }
}
