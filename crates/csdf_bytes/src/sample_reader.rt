//! Raw samples, read piece by piece from a device.

ghost use Rattle.std.specs.Prelude.{◌≡◌, ◌≢◌, ◌+◌, ◌<◌, ◌≤◌, true, false, Ok, Err, [], length, vec_len, vec_capacity, IfErr, IfOk, OnErr, OnOk};
ghost use Rattle.std.specs.Io.KnownBytes.{IsAtEnd, Keeps};
ghost use Rattle.csdf_bytes.specs.Buffered.{FetchesTo};
ghost use Rattle.csdf_bytes.specs.Device.{TakesSome};
ghost use Rattle.csdf_bytes.specs.Samples.{size_of};
ghost use Rattle.csdf_bytes.specs.SampleStream.{GivesSamples, IsCutOff, ReadsSamples};

use crate::buffer::Buffer;
use crate::device::{DeviceFailed, Intake};
use crate::sample_format::SampleFormat;
use crate::token_reader::Reading;
use crate::whole_samples::push_samples;
use std::alloc::{AllocError, Global};
use std::marker::Model;
use thiserror::Error;

/// Why a reader gave no sample. Samples are counted from 1 over all that its device gave, and
/// 18,446,744,073,709,551,615 stands for all samples from there on.
#[derive(Clone, Copy, Debug, PartialEq, Eq, Error)]
pub enum SampleFault {
    /// The device failed.
    #[error("the reader failed")]
    Read,
    /// The input ends within a sample.
    #[error("sample {0} is cut off")]
    CutOff(u64),
    /// A growth of the list of tokens was refused.
    #[error("out of memory")]
    Memory,
}

/// A reader of raw samples, of any number. It keeps one buffer, which does not grow.
#[derive(Drop)]
pub struct SampleReader {
    buffer: Buffer,
    format: SampleFormat,
    number: u64,
}

/// It is seen as its format, the bytes that were fetched and not read, and the number of the
/// sample that is next.
impl Model for SampleReader {
    ghost use Rattle.csdf_bytes.specs.SampleState.{Unsampled};

    ghost Value = { Unsampled };

    ghost view = { λ s. record { format = s.format; bytes = s.buffer.bytes; number = s.number } };
}

impl SampleReader {
    /// A reader whose next sample is the first.
    pub fn new(alloc: Global, format: SampleFormat) -> Result<SampleReader, AllocError>
        ensures { IfOk result (λ reader. reader ≡ record { format = format; bytes = []; number = 1 }) }
    {
        let buffer = Buffer::new(alloc)?;
        Ok(SampleReader {
            buffer,
            format,
            number: 1,
        })
    }

    /// Appends the next samples, `most` of them at most, and tells whether more may follow.
    ///
    /// Where a whole sample was fetched before, or `most` is 0, the device is asked for nothing.
    /// Else it is asked once, and all of what it gave is looked at: so a call may give no token
    /// though more follow.
    ///
    /// `Read` says that the device failed. `CutOff` says that the input ended within the sample
    /// of this number: all samples before it were given, and every later call meets it again.
    /// `Memory` comes only where the list of tokens has no room for `most` more, and the reader
    /// can go on after it.
    pub fn read<I: Intake>(
        &mut self,
        device: &mut I,
        most: usize,
        tokens: &mut Vec<i32>,
    ) -> Result<Reading, SampleFault>
        ensures given { ReadsSamples most self.old self.new (I.left device.old) (I.left device.new)
            tokens.old.items tokens.new.items }
        ensures cut { IfErr result (λ fault. fault ≢ SampleFault.Read → fault ≢ SampleFault.Memory
            → IsCutOff fault self.new (I.left device.new)) }
        ensures ended { result ≡ Ok Reading.Ended → (self.new.bytes ≡ []) × IsAtEnd (I.left device.new) }
        ensures whole { result ≡ Ok Reading.GoesOn
            → length tokens.new.items < length tokens.old.items + most
            → length self.new.bytes < size_of self.new.format }
        ensures asked { result ≡ Ok Reading.GoesOn → 0 < most
            → length self.old.bytes < size_of self.old.format
            → TakesSome (I.left device.old) (I.left device.new) }
        ensures unasked { size_of self.old.format ≤ length self.old.bytes → device.new ≡ device.old }
        ensures unwanted { most ≡ 0 → device.new ≡ device.old }
        ensures room { vec_len tokens.old + most ≤ vec_capacity tokens.old
            → result ≢ Err SampleFault.Memory }
        ensures marked { result ≡ Err SampleFault.Read → I.failed device.new ≡ true }
        ensures unmarked { result ≢ Err SampleFault.Read → I.failed device.new ≡ I.failed device.old }
    {
        let has_read = self.read_fetched(most, tokens)?;
        if has_read || most == 0 {
            return Ok(Reading::GoesOn);
        }
        let count = self.fetch(device)?;
        if count == 0 {
            return self.end();
        }
        let _ = self.read_fetched(most, tokens)?;
        Ok(Reading::GoesOn)
    }

    /// Appends the samples that were fetched, so many at most, and tells whether one was read.
    fn read_fetched(&mut self, most: usize, tokens: &mut Vec<i32>) -> Result<bool, SampleFault>
        ensures read { GivesSamples most self.old self.old.bytes self.new tokens.old.items
            tokens.new.items }
        ensures idle { result ≡ Ok false → (self.new ≡ self.old)
            × (tokens.new.items ≡ tokens.old.items) × (vec_len tokens.new ≡ vec_len tokens.old) }
        ensures capacity { vec_capacity tokens.old ≤ vec_capacity tokens.new }
        ensures found { result ≡ Ok true → size_of self.old.format ≤ length self.old.bytes }
        ensures whole { OnOk result (length tokens.new.items < length tokens.old.items + most
            → length self.new.bytes < size_of self.new.format) }
        ensures room { vec_len tokens.old + most ≤ vec_capacity tokens.old → OnErr result ⊥ }
        ensures cause { IfErr result (λ fault. fault ≡ SampleFault.Memory) }
    {
        let pushed = push_samples(self.format, self.buffer.held(), most, tokens);
        self.buffer.let_go(pushed.used);
        self.number = self.number.saturating_add(pushed.count as u64);
        if pushed.outcome.is_err() {
            return Err(SampleFault::Memory);
        }
        Ok(pushed.count > 0)
    }

    /// Tells the end of the input, where it is no sample's.
    fn end(&self) -> Result<Reading, SampleFault>
        ensures whole { IfOk result (λ reading. (reading ≡ Reading.Ended) × (self.now.bytes ≡ [])) }
        ensures cut { IfErr result (λ fault. (fault ≡ SampleFault.CutOff self.now.number)
            × (0 < length self.now.bytes)) }
    {
        if self.buffer.held().is_empty() {
            Ok(Reading::Ended)
        } else {
            Err(SampleFault::CutOff(self.number))
        }
    }

    /// Fetches bytes from the device: 0 only at the end.
    fn fetch<I: Intake>(&mut self, device: &mut I) -> Result<usize, SampleFault>
        requires { length self.old.bytes < size_of self.old.format }
        ensures stays { (self.new.format ≡ self.old.format) × (self.new.number ≡ self.old.number) }
        ensures fetched { IfOk result
            (λ n. FetchesTo (I.left device.old) (I.left device.new) self.old.bytes self.new.bytes n) }
        ensures unchanged { OnErr result (self.new.bytes ≡ self.old.bytes) }
        ensures kept { OnErr result (Keeps (I.left device.old) (I.left device.new)) }
        ensures cause { IfErr result (λ fault. fault ≡ SampleFault.Read) }
        ensures marked { OnErr result (I.failed device.new ≡ true) }
        ensures unmarked { OnOk result (I.failed device.new ≡ I.failed device.old) }
    {
        // It has room: no sample has as many bytes as the buffer.
        if self.buffer.make_room().is_err() {
            unreachable!();
        }
        match self.buffer.fetch(device, usize::MAX) {
            Ok(count) => Ok(count),
            Err(DeviceFailed) => Err(SampleFault::Read),
        }
    }
}
