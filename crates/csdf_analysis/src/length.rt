//! How long a run goes on.

/// How long a run goes on.
#[derive(Clone, Copy, Debug, PartialEq, Eq)]
pub enum Length {
    /// So many periods.
    Periods(u32),
    /// As many periods as a run of the graph may have, so that it goes on until a source has no more
    /// tokens for its next firing, unless that number ends it before.
    UntilDry,
}
