//! What a floor is made over, and for how long it runs.

ghost use Rattle.std.specs.Prelude.{◌≡◌, IfOk};
ghost use Rattle.csdf_floor.specs.Work.{feeds_in};

use csdf_analysis::Accepted;
use std::alloc::{AllocError, Global};

/// An accepted graph, and the tokens for its actors: one list for each, empty for one that is no source.
#[derive(Drop)]
pub struct Fed {
    /// The graph.
    pub accepted: Accepted,
    /// The tokens for each actor.
    pub feeds: Vec<Vec<i32>>,
}

/// How long a run goes on.
#[derive(Clone, Copy, Debug)]
pub struct RunBounds {
    /// For how many periods, at most.
    pub periods: u32,
    /// The most firings of all actors together; no limit where it is absent.
    pub firings: Option<u32>,
}

/// A copy of the lists.
fn copies_of(alloc: Global, feeds: &[Vec<i32>]) -> Result<Vec<Vec<i32>>, AllocError>
    ensures { IfOk result (λ copies. feeds_in copies.items ≡ feeds_in feeds.now) }
{
    let mut copies = Vec::new(alloc);
    for feed in feeds {
        copies.push(Vec::from_slice(alloc, feed)?)?;
    }
    Ok(copies)
}

impl Fed {
    /// A copy of the graph and of the tokens. An error says that memory ran out.
    pub fn copied(alloc: Global, accepted: &Accepted, feeds: &[Vec<i32>]) -> Result<Fed, AllocError>
        ensures accepted { IfOk result (λ fed. fed.accepted ≡ accepted.now) }
        ensures feeds { IfOk result (λ fed. feeds_in fed.feeds.items ≡ feeds_in feeds.now) }
    {
        let accepted = accepted.try_copy(alloc)?;
        let feeds = copies_of(alloc, feeds)?;
        Ok(Fed { accepted, feeds })
    }
}
