//! Tokens, read piece by piece from a device.

ghost use Rattle.std.specs.Prelude.{◌≡◌, ◌≢◌, ◌+◌, ◌<◌, ◌≤◌, true, false, Ok, Err, [], ◌∷◌, length, IfErr, IfOk, OnErr, OnOk};
ghost use Rattle.std.specs.Io.KnownBytes.{IsAtEnd, Keeps};
ghost use Rattle.csdf_bytes.specs.Buffered.{FetchesTo};
ghost use Rattle.csdf_bytes.specs.Device.{TakesSome};
ghost use Rattle.csdf_bytes.specs.TokenStream.{GivesTokens, HasLine, IsFaulty, IsNext, IsOneLine, ReadsEntry, ReadsOn, entries_left, entry_at};

use crate::buffer::Buffer;
use crate::device::{DeviceFailed, Intake};
use crate::whole_lines::{push_token, read_whole_lines};
use std::alloc::{AllocError, Global};
use std::marker::Model;
use thiserror::Error;

/// Why a reader gave no token. Lines are counted from 1 over all that its device gave, and
/// 18,446,744,073,709,551,615 stands for all lines from there on.
#[derive(Clone, Copy, Debug, PartialEq, Eq, Error)]
pub enum ReadFault {
    /// The device failed.
    #[error("the reader failed")]
    Read,
    /// A line holds something else than a sign or none, followed by digits.
    #[error("line {0} is not a number")]
    Syntax(u64),
    /// A line's number is below -2,147,483,648 or above 2,147,483,647.
    #[error("line {0} is out of range")]
    Range(u64),
    /// A growth was refused.
    #[error("out of memory")]
    Memory,
}

/// Whether a stream goes on.
#[derive(Clone, Copy, Debug, PartialEq, Eq)]
pub enum Reading {
    /// More tokens may follow.
    GoesOn,
    /// The end was reached: all tokens were given.
    Ended,
}

/// A reader of token text, of any length. It keeps one buffer, which grows only for a line that
/// is longer.
#[derive(Drop)]
pub struct TokenReader {
    buffer: Buffer,
    line: u64,
}

/// It is seen as the bytes that were fetched and not read, and the number of the line that is next.
impl Model for TokenReader {
    ghost use Rattle.csdf_bytes.specs.Buffered.{Unread};

    ghost Value = { Unread };

    ghost view = { λ s. record { bytes = s.buffer.bytes; line = s.line } };
}

impl TokenReader {
    /// A reader whose next line is the first.
    pub fn new(alloc: Global) -> Result<TokenReader, AllocError>
        ensures { IfOk result (λ reader. reader ≡ record { bytes = []; line = 1 }) }
    {
        let buffer = Buffer::new(alloc)?;
        Ok(TokenReader { buffer, line: 1 })
    }

    /// Appends the next tokens, `most` of them at most, and tells whether more may follow.
    ///
    /// Where a whole line was fetched before, or `most` is 0, the device is asked for nothing.
    /// Else it is asked once, and all of what it gave is looked at: so a call may give no token
    /// though more follow. Blank lines have none either.
    ///
    /// `Read` says that the device failed. `Syntax` and `Range` are the fault of the line that is
    /// next: the tokens before it were appended, and every later call meets it again. After
    /// `Memory` the reader can go on.
    pub fn read<I: Intake>(
        &mut self,
        device: &mut I,
        most: usize,
        tokens: &mut Vec<i32>,
    ) -> Result<Reading, ReadFault>
        ensures given { GivesTokens most (entries_left self.old (I.left device.old))
            (entries_left self.new (I.left device.new)) tokens.old.items tokens.new.items }
        ensures fault { IfErr result (λ fault. fault ≢ ReadFault.Read → fault ≢ ReadFault.Memory
            → IsNext fault (entries_left self.new (I.left device.new))) }
        ensures ended { result ≡ Ok Reading.Ended → (self.new.bytes ≡ []) × IsAtEnd (I.left device.new) }
        ensures whole { result ≡ Ok Reading.GoesOn
            → length tokens.new.items < length tokens.old.items + most → IsOneLine self.new.bytes }
        ensures asked { result ≡ Ok Reading.GoesOn → 0 < most → IsOneLine self.old.bytes
            → TakesSome (I.left device.old) (I.left device.new) }
        ensures unasked { HasLine self.old.bytes → device.new ≡ device.old }
        ensures unwanted { most ≡ 0 → device.new ≡ device.old }
        ensures marked { result ≡ Err ReadFault.Read → I.failed device.new ≡ true }
        ensures unmarked { result ≢ Err ReadFault.Read → I.failed device.new ≡ I.failed device.old }
    {
        if most == 0 {
            return Ok(Reading::GoesOn);
        }
        let has_read = self.read_lines(most, tokens)?;
        if has_read {
            return Ok(Reading::GoesOn);
        }
        let count = self.fetch(device, usize::MAX)?;
        if count == 0 {
            if let Err(fault) = self.read_last(tokens) {
                return Err(fault);
            }
            return Ok(Reading::Ended);
        }
        let _ = self.read_lines(most, tokens)?;
        Ok(Reading::GoesOn)
    }

    /// Appends the tokens of the whole lines that were fetched, so many at most, and tells
    /// whether a line was read.
    pub(crate) fn read_lines(
        &mut self,
        most: usize,
        tokens: &mut Vec<i32>,
    ) -> Result<bool, ReadFault>
        ensures read { ReadsOn self.old.line self.old.bytes self.new.line self.new.bytes
            tokens.old.items tokens.new.items }
        ensures few { length tokens.new.items ≤ length tokens.old.items + most }
        ensures early { OnErr result (length tokens.new.items < length tokens.old.items + most) }
        ensures idle { result ≡ Ok false → (self.new.line ≡ self.old.line)
            × (self.new.bytes ≡ self.old.bytes) × (tokens.new.items ≡ tokens.old.items) }
        ensures found { result ≡ Ok true → HasLine self.old.bytes }
        ensures whole { OnOk result (length tokens.new.items < length tokens.old.items + most
            → IsOneLine self.new.bytes) }
        ensures fault { IfErr result (λ fault. fault ≢ ReadFault.Memory
            → IsFaulty self.new.line self.new.bytes fault) }
        ensures unread { result ≢ Err ReadFault.Read }
    {
        let stop = read_whole_lines(self.buffer.held(), self.line, most, tokens);
        self.buffer.let_go(stop.used);
        self.line = stop.line;
        if let Err(fault) = stop.outcome {
            return Err(fault);
        }
        Ok(stop.used > 0)
    }

    /// Appends the token of the last line, which has no newline: all that was fetched.
    pub(crate) fn read_last(&mut self, tokens: &mut Vec<i32>) -> Result<(), ReadFault>
        ensures read { OnOk result (ReadsEntry self.old.line self.old.bytes tokens.old.items tokens.new.items) }
        ensures emptied { OnOk result (self.new.bytes ≡ []) }
        ensures kept { OnErr result ((self.new.line ≡ self.old.line)
            × (self.new.bytes ≡ self.old.bytes) × (tokens.new.items ≡ tokens.old.items)) }
        ensures fault { IfErr result (λ fault. fault ≢ ReadFault.Memory
            → entry_at self.old.line self.old.bytes ≡ Err fault ∷ []) }
        ensures unread { result ≢ Err ReadFault.Read }
    {
        push_token(self.buffer.held(), self.line, tokens)?;
        self.forget();
        Ok(())
    }

    /// Lets go of all that was fetched.
    pub(crate) fn forget(&mut self)
        ensures { self.new.bytes ≡ [] }
    {
        let count = self.buffer.held().len();
        self.buffer.let_go(count);
    }

    /// Fetches bytes from the device, of which no more than so many come: 0 only at the end.
    pub(crate) fn fetch<I: Intake>(
        &mut self,
        device: &mut I,
        most: usize,
    ) -> Result<usize, ReadFault>
        requires { 0 < most }
        ensures line { self.new.line ≡ self.old.line }
        ensures few { IfOk result (λ n. n ≤ most) }
        ensures fetched { IfOk result
            (λ n. FetchesTo (I.left device.old) (I.left device.new) self.old.bytes self.new.bytes n) }
        ensures unchanged { OnErr result (self.new.bytes ≡ self.old.bytes) }
        ensures kept { OnErr result (Keeps (I.left device.old) (I.left device.new)) }
        ensures clear { OnOk result (I.failed device.new ≡ false) }
        ensures cause { IfErr result (λ fault. fault ≢ ReadFault.Read → fault ≡ ReadFault.Memory) }
        ensures marked { result ≡ Err ReadFault.Read → I.failed device.new ≡ true }
        ensures unmarked { result ≢ Err ReadFault.Read → I.failed device.new ≡ I.failed device.old }
    {
        if self.buffer.make_room().is_err() {
            return Err(ReadFault::Memory);
        }
        match self.buffer.fetch(device, most) {
            Ok(count) => Ok(count),
            Err(DeviceFailed) => Err(ReadFault::Read),
        }
    }
}
