//! The script of a graph file.

ghost use Rattle.std.specs.Prelude.{◌≤◌};
ghost use Rattle.std.specs.Option.{ForSome};
ghost use Rattle.csdf_model.specs.declared.limits.TheConstants.{MAX_SCRIPT_LIMIT, MAX_SCRIPT_SUPPLY, MAX_FIRINGS};

/// A list of moves in words, one a line, and what they are played with.
#[derive(Debug, Drop)]
pub struct Script {
    /// The greatest number of firings of each actor.
    pub limit: u32,
    /// The number of tokens in the file of each source.
    pub supply: u32,
    /// The greatest number of firings of all actors together, where the file gives one.
    pub firings: Option<u32>,
    /// The lines, in file order.
    pub lines: Vec<String>,
    pub ghost limit_within: { limit ≤ MAX_SCRIPT_LIMIT },
    pub ghost supply_within: { supply ≤ MAX_SCRIPT_SUPPLY },
    pub ghost firings_within: { ForSome firings (λ n. n ≤ MAX_FIRINGS) },
}
