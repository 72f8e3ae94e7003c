//! How many workers are asked for.

ghost use Rattle.std.specs.Prelude.{◌≡◌, ◌≤◌};
ghost use Rattle.csdf_words.specs.Workers.{AreFew, most_workers};

/// How many workers are asked for.
#[derive(Clone, Copy, Debug, PartialEq, Eq)]
pub enum Workers {
    /// As many as pay for the graph, and at most 8.
    Auto,
    /// So many.
    Count(u32),
}

impl Workers {
    /// How many there are at most.
    pub fn most(self) -> u32
        requires { AreFew self }
        ensures value { result ≡ most_workers self }
        ensures least { 1 ≤ result }
        ensures most { result ≤ 8 }
    {
        match self {
            Workers::Auto => 8,
            Workers::Count(count) => count,
        }
    }
}
