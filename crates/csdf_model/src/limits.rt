//! The limits of graph files, of their scripts and of runs, under the names that clauses have for them too.

/// The most actors of a graph.
pub const MAX_ACTORS: usize = 64;

/// The most channels of a graph.
pub const MAX_CHANNELS: usize = 128;

/// The most bytes of a name.
pub const MAX_NAME_BYTES: usize = 32;

/// The most phases of an actor.
pub const MAX_PHASES: u32 = 16;

/// The most weights of a filter.
pub const MAX_WEIGHTS: usize = 16;

/// The least weight of a filter.
pub const MIN_WEIGHT: i32 = -32_768;

/// The greatest weight of a filter.
pub const MAX_WEIGHT: i32 = 32_767;

/// The greatest shift of a filter.
pub const MAX_SHIFT: u32 = 31;

/// The most tokens that a firing puts into a channel, or takes out of one.
pub const MAX_TOKENS_PER_FIRING: u32 = 64;

/// The most tokens that a firing takes out of all its inputs, or puts into all its outputs: those of
/// a channel for each of the most channels.
pub const MAX_TOTAL_PER_FIRING: usize = 8_192;

/// The most tokens that a channel begins with.
pub const MAX_INITIAL_TOKENS: usize = 256;

/// The greatest capacity of a channel.
pub const MAX_CAPACITY: u32 = 65_535;

/// The most cells of a pool: the greatest capacity for each of the most channels.
pub const MAX_CELLS: u32 = 8_388_480;

/// The greatest limit that a script may set on the firings of each actor.
pub const MAX_SCRIPT_LIMIT: u32 = 1_000_000;

/// The most tokens that a script may give each source.
pub const MAX_SCRIPT_SUPPLY: u32 = 1_000_000;

/// The most lines of a script.
pub const MAX_SCRIPT_LINES: usize = 100_000;

/// The most times that an actor goes through its phases in a period.
pub const MAX_CYCLES_PER_PERIOD: u32 = 1_024;

/// The most firings of all actors in a period: those of the most phases, as often as they may be
/// gone through, for each of the most actors.
pub const MAX_FIRINGS_PER_PERIOD: u32 = 1_048_576;

/// The most firings of an actor in a run: those of the most phases, as often as they may be gone
/// through, in each of the most periods.
pub const MAX_FIRINGS_PER_ACTOR: u32 = 16_384_000;

/// The most periods that a run may be asked for by their number: every graph may have them.
pub const MAX_PERIODS: u32 = 1_000;

/// The most periods that channels may be given room for: in each, one token or more goes through a
/// channel, which has the greatest capacity at most.
pub const MAX_ROOM: u32 = 65_535;

/// The most firings of all actors in a run: those of an actor for each of the most actors.
pub const MAX_FIRINGS: u32 = 1_048_576_000;

// Clauses name these limits. Here they are told in digits, as documents tell them: a limit that is changed fails here.
const _: () = prove!(
    MAX_ACTORS == 64
        && MAX_CHANNELS == 128
        && MAX_NAME_BYTES == 32
        && MAX_PHASES == 16
        && MAX_WEIGHTS == 16
        && MIN_WEIGHT == -32_768
        && MAX_WEIGHT == 32_767
        && MAX_SHIFT == 31
        && MAX_TOKENS_PER_FIRING == 64
        && MAX_TOTAL_PER_FIRING == 8_192
        && MAX_INITIAL_TOKENS == 256
        && MAX_CAPACITY == 65_535
        && MAX_CELLS == 8_388_480
        && MAX_SCRIPT_LIMIT == 1_000_000
        && MAX_SCRIPT_SUPPLY == 1_000_000
        && MAX_SCRIPT_LINES == 100_000
        && MAX_CYCLES_PER_PERIOD == 1_024
        && MAX_FIRINGS_PER_PERIOD == 1_048_576
        && MAX_FIRINGS_PER_ACTOR == 16_384_000
        && MAX_PERIODS == 1_000
        && MAX_ROOM == 65_535
        && MAX_FIRINGS == 1_048_576_000
);
