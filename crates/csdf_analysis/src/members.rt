//! Groups of actors, each with a vector of its own.

ghost use Rattle.std.specs.Prelude.{◌≡◌, ◌≤◌, ◌<◌, MatchOption, IfOk, option_map};
ghost use Rattle.csdf_analysis.specs.Members.{factor, moved, Moves, alone};

use csdf_model::MAX_CYCLES_PER_PERIOD;
use std::alloc::{AllocError, Global};

/// An actor while channels join actors to groups: the number of its group, and its entry in the
/// least vector that balances the group's channels.
#[derive(Clone, Copy)]
pub(crate) struct Member {
    pub(crate) group: usize,
    pub(crate) entry: u32,
}

/// How one group goes into another: the entries of either are scaled.
#[derive(Clone, Copy)]
pub(crate) struct Merge {
    pub(crate) gone: usize,
    pub(crate) gone_factor: u32,
    pub(crate) into: usize,
    pub(crate) into_factor: u32,
}

impl Merge {
    fn factor(self, group: usize) -> u32
        ensures { result ≡ factor self group }
    {
        if group == self.gone {
            self.gone_factor
        } else if group == self.into {
            self.into_factor
        } else {
            1
        }
    }

    /// The member once the groups are one, or nothing where its entry would be too great.
    fn moved(self, member: Member) -> Option<Member>
        ensures { MatchOption result (MAX_CYCLES_PER_PERIOD < (moved self member).entry) (λ next. (next ≡ moved self member) × (next.entry ≤ MAX_CYCLES_PER_PERIOD)) }
    {
        let entry = u64::from(member.entry) * u64::from(self.factor(member.group));
        if entry > u64::from(MAX_CYCLES_PER_PERIOD) {
            return None;
        }
        let group = if member.group == self.gone {
            self.into
        } else {
            member.group
        };
        Some(Member {
            group,
            entry: entry as u32,
        })
    }
}

/// The members once the groups are one, or nothing where an entry would be too great.
pub(crate) fn merged(
    alloc: Global,
    members: &[Member],
    merge: Merge,
) -> Result<Option<Vec<Member>>, AllocError>
    ensures { IfOk result (λ next. Moves merge members.now (option_map (λ v. v.items) next)) }
{
    let mut next = Vec::new(alloc);
    for member in members {
        let Some(member) = merge.moved(*member) else {
            return Ok(None);
        };
        next.push(member)?;
    }
    Ok(Some(next))
}

/// Each of so many actors in a group of its own, with entry 1.
pub(crate) fn alone(alloc: Global, count: usize) -> Result<Vec<Member>, AllocError>
    ensures { IfOk result (λ v. v.items ≡ alone count) }
{
    (0..count)
        .map(|group| Member { group, entry: 1 })
        .collect(alloc)
}
