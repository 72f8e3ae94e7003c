//! The tokens of a source, read piece by piece from its device.

ghost use Rattle.std.specs.Prelude.{◌≡◌, ◌≢◌, ◌⊎◌, ◌++◌, ◌≤◌, ℕ, List, ℤ, true, length, max, Err, IfErr, IfOk, OnOk};
ghost use Rattle.csdf_stream.specs.Reading.{HasEnded, IsFaultAt, Reads, fresh, of_samples, of_text};

use crate::options::TokenFormat;
use csdf_bytes::{Intake, ReadFault, Reading, SampleFault, SampleReader, TokenReader};
use std::alloc::{AllocError, Global};
use std::sync::Wait;
use thiserror::Error;

/// Why a reader gave no token.
#[derive(Clone, Copy, Debug, PartialEq, Eq, Error)]
pub enum ReaderFault {
    /// The device failed.
    #[error("the device failed")]
    Read,
    /// The line of this number is no number.
    #[error("line {0} is no whole number")]
    Syntax(u64),
    /// The number in this line is no token.
    #[error("the number in line {0} is out of range")]
    Range(u64),
    /// The bytes end within this sample.
    #[error("sample {0} is cut off")]
    CutOff(u64),
    /// A growth was refused.
    #[error("out of memory")]
    Memory,
}

/// A reader of the tokens of a source.
#[derive(Drop)]
pub(crate) enum Reader {
    Text(TokenReader),
    Samples(SampleReader),
}

/// A fault of a text.
fn of_text(fault: ReadFault) -> ReaderFault
    ensures { result ≡ of_text fault }
{
    match fault {
        ReadFault::Read => ReaderFault::Read,
        ReadFault::Syntax(line) => ReaderFault::Syntax(line),
        ReadFault::Range(line) => ReaderFault::Range(line),
        ReadFault::Memory => ReaderFault::Memory,
    }
}

/// A fault of samples.
fn of_samples(fault: SampleFault) -> ReaderFault
    ensures { result ≡ of_samples fault }
{
    match fault {
        SampleFault::Read => ReaderFault::Read,
        SampleFault::CutOff(number) => ReaderFault::CutOff(number),
        SampleFault::Memory => ReaderFault::Memory,
    }
}

/// Appends the next tokens of a text.
fn read_text<I: Intake>(
    reader: &mut TokenReader,
    device: &mut I,
    most: usize,
    tokens: &mut Vec<i32>,
) -> Result<Reading, ReaderFault>
    ensures given { (given : List ℤ) × (length given ≤ most) × (tokens.new.items ≡ tokens.old.items ++ given)
        × Reads (Reader.Text reader.old) (Reader.Text reader.new) (I.left device.old) (I.left device.new) given }
    ensures ended { result ≡ Ok Reading.Ended → HasEnded (Reader.Text reader.new) (I.left device.new) }
    ensures fault { IfErr result (λ why. IsFaultAt why (Reader.Text reader.new) (I.left device.new)) }
    ensures marked { result ≡ Err ReaderFault.Read → I.failed device.new ≡ true }
{
    match reader.read(device, most, tokens) {
        Ok(reading) => Ok(reading),
        Err(fault) => Err(of_text(fault)),
    }
}

/// Appends the next samples.
fn read_samples<I: Intake>(
    reader: &mut SampleReader,
    device: &mut I,
    most: usize,
    tokens: &mut Vec<i32>,
) -> Result<Reading, ReaderFault>
    ensures given { (given : List ℤ) × (length given ≤ most) × (tokens.new.items ≡ tokens.old.items ++ given)
        × Reads (Reader.Samples reader.old) (Reader.Samples reader.new) (I.left device.old) (I.left device.new) given }
    ensures ended { result ≡ Ok Reading.Ended → HasEnded (Reader.Samples reader.new) (I.left device.new) }
    ensures fault { IfErr result (λ why. IsFaultAt why (Reader.Samples reader.new) (I.left device.new)) }
    ensures marked { result ≡ Err ReaderFault.Read → I.failed device.new ≡ true }
{
    match reader.read(device, most, tokens) {
        Ok(reading) => Ok(reading),
        Err(fault) => Err(of_samples(fault)),
    }
}

impl Reader {
    /// A reader of which nothing was read.
    pub(crate) fn new(alloc: Global, format: TokenFormat) -> Result<Reader, AllocError>
        ensures { IfOk result (λ reader. reader ≡ fresh format) }
    {
        match format {
            TokenFormat::Text => Ok(Reader::Text(TokenReader::new(alloc)?)),
            TokenFormat::Samples(format) => Ok(Reader::Samples(SampleReader::new(alloc, format)?)),
        }
    }

    /// Appends the next tokens, `most` of them at most, and tells whether more may follow.
    fn read<I: Intake>(
        &mut self,
        device: &mut I,
        most: usize,
        tokens: &mut Vec<i32>,
    ) -> Result<Reading, ReaderFault>
        ensures given { (given : List ℤ) × (length given ≤ most) × (tokens.new.items ≡ tokens.old.items ++ given)
            × Reads self.old self.new (I.left device.old) (I.left device.new) given }
        ensures ended { result ≡ Ok Reading.Ended → HasEnded self.new (I.left device.new) }
        ensures fault { IfErr result (λ why. IsFaultAt why self.new (I.left device.new)) }
        ensures marked { result ≡ Err ReaderFault.Read → I.failed device.new ≡ true }
    {
        match self {
            Reader::Text(reader) => read_text(reader, device, most, tokens),
            Reader::Samples(reader) => read_samples(reader, device, most, tokens),
        }
    }

    /// Appends the next tokens until the list has `most`, or the device has no more.
    pub(crate) fn fill<R: Wait, I: Intake>(
        &mut self,
        rt: &R,
        device: &mut I,
        most: usize,
        tokens: &mut Vec<i32>,
    ) -> Result<(), ReaderFault>
        ensures given { (given : List ℤ) × (tokens.new.items ≡ tokens.old.items ++ given)
            × Reads self.old self.new (I.left device.old) (I.left device.new) given }
        ensures few { length tokens.new.items ≤ max (length tokens.old.items) most }
        ensures full { OnOk result ((most ≤ length tokens.new.items) ⊎ HasEnded self.new (I.left device.new)) }
        ensures fault { IfErr result (λ why. IsFaultAt why self.new (I.left device.new)) }
        ensures marked { result ≡ Err ReaderFault.Read → I.failed device.new ≡ true }
    {
        for _ in rt.forever() {
            let missing = most.saturating_sub(tokens.len());
            if missing == 0 {
                return Ok(());
            }
            match self.read(device, missing, tokens) {
                Ok(Reading::GoesOn) => {}
                Ok(Reading::Ended) => return Ok(()),
                Err(fault) => return Err(fault),
            }
        }
        unreachable!()
    }
}
