//! How a stream is made.

ghost use Rattle.std.specs.Prelude.{◌≡◌, ◌≢◌, ◌≤◌, IfNone, IfSome};
ghost use Rattle.csdf_stream.specs.Formats.{IsSome-prop, format_name};

use csdf_bytes::SampleFormat;
use std::fmt;

/// How tokens lie in bytes.
#[derive(Clone, Copy, Debug, PartialEq, Eq)]
pub enum TokenFormat {
    /// A decimal number a line, as in a token file.
    Text,
    /// Raw samples.
    Samples(SampleFormat),
}

impl TokenFormat {
    /// The format of a name: `text`, or that of a format of samples.
    pub fn named(name: &str) -> Option<TokenFormat>
        ensures named { IfSome result (λ format. name.now ≡ format_name format) }
        ensures unknown { IfNone result ((format : TokenFormat) → name.now ≢ format_name format) }
    {
        if name == "text" {
            return Some(TokenFormat::Text);
        }
        match SampleFormat::named(name) {
            Some(format) => Some(TokenFormat::Samples(format)),
            None => None,
        }
    }

    /// Its name.
    pub fn name(self) -> &'static str
        ensures { result.now ≡ format_name self }
    {
        match self {
            TokenFormat::Text => "text",
            TokenFormat::Samples(format) => format.name(),
        }
    }
}

impl fmt::Display for TokenFormat {
    ghost use Rattle.std.specs.Prelude.{Some};
    ghost use Rattle.csdf_stream.specs.Formats.{format_name};

    ghost output = { λ format. Some (format_name format) };

    fn fmt<W: fmt::Write>(&self, f: &mut fmt::Formatter<W>) -> fmt::Result {
        let name = self.name();
        write!(f, "{name}")
    }
}

/// How a stream is made: what is asked for from the command line down.
#[derive(Clone, Copy, Debug)]
pub struct StreamOptions {
    /// How many workers make firings.
    pub workers: u32,
    /// How many periods a segment has; where it is absent, as many as leave each source at 65,536 tokens.
    pub segment: Option<u32>,
    /// How many periods there are in all; where it is absent, until a source has run dry.
    pub periods: Option<u32>,
    /// How the tokens lie in the bytes of the devices.
    pub format: TokenFormat,
    ghost some_worker: { 1 ≤ workers },
    ghost few_workers: { workers ≤ 8 },
    ghost some_segment: { IfSome segment (λ n. 1 ≤ n) } by { IsSome-prop segment },
    ghost some_period: { IfSome periods (λ n. 1 ≤ n) } by { IsSome-prop periods },
}
