//! The formats of raw samples.

ghost use Rattle.std.specs.Prelude.{◌≡◌, ◌≢◌, length, true, IfNone, IfSome};
ghost use Rattle.csdf_bytes.specs.Samples.{bytes_of, clamped, fits, greatest, least, name_of, size_of, value_of};

use std::fmt;

/// How a number lies in the bytes of a sample.
#[derive(Clone, Copy, Debug, PartialEq, Eq)]
pub enum SampleFormat {
    /// One byte, from 0 to 255.
    U8,
    /// One byte, from -128 to 127.
    S8,
    /// Two bytes, the lower one first, from -32,768 to 32,767.
    S16Le,
    /// Two bytes, the higher one first, from -32,768 to 32,767.
    S16Be,
    /// Four bytes, the lowest one first, from -2,147,483,648 to 2,147,483,647.
    S32Le,
    /// Four bytes, the highest one first, from -2,147,483,648 to 2,147,483,647.
    S32Be,
}

impl SampleFormat {
    /// The format of a name: `u8`, `s8`, `s16le`, `s16be`, `s32le` or `s32be`.
    pub fn named(name: &str) -> Option<SampleFormat>
        ensures named { IfSome result (λ format. name.now ≡ name_of format) }
        ensures unknown { IfNone result ((format : SampleFormat) → name.now ≢ name_of format) }
    {
        match name {
            "u8" => Some(SampleFormat::U8),
            "s8" => Some(SampleFormat::S8),
            "s16le" => Some(SampleFormat::S16Le),
            "s16be" => Some(SampleFormat::S16Be),
            "s32le" => Some(SampleFormat::S32Le),
            "s32be" => Some(SampleFormat::S32Be),
            _ => None,
        }
    }

    /// Its name.
    pub fn name(self) -> &'static str
        ensures { result.now ≡ name_of self }
    {
        match self {
            SampleFormat::U8 => "u8",
            SampleFormat::S8 => "s8",
            SampleFormat::S16Le => "s16le",
            SampleFormat::S16Be => "s16be",
            SampleFormat::S32Le => "s32le",
            SampleFormat::S32Be => "s32be",
        }
    }

    /// How many bytes a sample has.
    pub fn size(self) -> usize
        ensures { result ≡ size_of self }
    {
        match self {
            SampleFormat::U8 | SampleFormat::S8 => 1,
            SampleFormat::S16Le | SampleFormat::S16Be => 2,
            SampleFormat::S32Le | SampleFormat::S32Be => 4,
        }
    }

    /// Whether the number is one of the format.
    pub(crate) fn fits(self, number: i32) -> bool
        ensures { result ≡ fits self number }
    {
        self.least() <= number && number <= self.greatest()
    }

    /// The number of the format that is nearest.
    pub(crate) fn clamp(self, number: i32) -> i32
        ensures nearest { result ≡ clamped self number }
        ensures fits { fits self result ≡ true }
    {
        number.clamp(self.least(), self.greatest())
    }

    /// The least number.
    fn least(self) -> i32
        ensures { result ≡ least self }
    {
        match self {
            SampleFormat::U8 => 0,
            SampleFormat::S8 => -128,
            SampleFormat::S16Le | SampleFormat::S16Be => -32_768,
            SampleFormat::S32Le | SampleFormat::S32Be => i32::MIN,
        }
    }

    /// The greatest number.
    fn greatest(self) -> i32
        ensures { result ≡ greatest self }
    {
        match self {
            SampleFormat::U8 => 255,
            SampleFormat::S8 => 127,
            SampleFormat::S16Le | SampleFormat::S16Be => 32_767,
            SampleFormat::S32Le | SampleFormat::S32Be => i32::MAX,
        }
    }

    /// The number of a sample.
    pub(crate) fn value_of(self, sample: &[u8]) -> i32
        requires { length sample.now ≡ size_of self }
        ensures { result ≡ value_of self sample.now }
    {
        match self {
            SampleFormat::U8 => i32::from(sample[0]),
            SampleFormat::S8 => i32::from(i8::from_le_bytes([sample[0]])),
            SampleFormat::S16Le => i32::from(i16::from_le_bytes([sample[0], sample[1]])),
            SampleFormat::S16Be => i32::from(i16::from_be_bytes([sample[0], sample[1]])),
            SampleFormat::S32Le => {
                i32::from_le_bytes([sample[0], sample[1], sample[2], sample[3]])
            }
            SampleFormat::S32Be => {
                i32::from_be_bytes([sample[0], sample[1], sample[2], sample[3]])
            }
        }
    }

    /// Puts the sample of a number of the format.
    pub(crate) fn put(self, sample: &mut [u8], number: i32)
        requires size { length sample.old ≡ size_of self }
        requires fits { fits self number ≡ true }
        ensures { sample.new ≡ bytes_of self number }
    {
        match self {
            SampleFormat::U8 => sample.copy_from_slice(&[number as u8]),
            SampleFormat::S8 => sample.copy_from_slice(&(number as i8).to_le_bytes()),
            SampleFormat::S16Le => sample.copy_from_slice(&(number as i16).to_le_bytes()),
            SampleFormat::S16Be => sample.copy_from_slice(&(number as i16).to_be_bytes()),
            SampleFormat::S32Le => sample.copy_from_slice(&number.to_le_bytes()),
            SampleFormat::S32Be => sample.copy_from_slice(&number.to_be_bytes()),
        }
    }
}

impl fmt::Display for SampleFormat {
    ghost use Rattle.std.specs.Prelude.{Some};

    ghost output = { λ format. Some (name_of format) };

    fn fmt<W: fmt::Write>(&self, f: &mut fmt::Formatter<W>) -> fmt::Result {
        let name = self.name();
        write!(f, "{name}")
    }
}
