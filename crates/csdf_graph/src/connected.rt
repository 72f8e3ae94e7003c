//! Whether all actors are joined by channels, directions ignored.

ghost use Rattle.std.specs.Prelude.{◌≡◌, ◌==◌, map, IfOk, IsTrue, is_none, slice_get, ◌↔◌};
ghost use Rattle.std.specs.List.{list_all, range_with_len};
ghost use Rattle.csdf_model.specs.Graph.{channel_view};
ghost use Rattle.csdf_model.specs.Joined.{HasEnds, AreJoined};
ghost use Rattle.csdf_graph.specs.Connected.{relabel, merge, groups_of, are_one_group};

use csdf_model::Channel;
use std::alloc::{AllocError, Global};

fn relabeled(
    alloc: Global,
    groups: &[usize],
    old: usize,
    new: usize,
) -> Result<Vec<usize>, AllocError>
    ensures { IfOk result (λ v. v.items ≡ relabel old new groups.now) }
{
    groups
        .iter()
        .map(|group| if *group == old { new } else { *group })
        .collect(alloc)
}

/// The groups once the channel has joined those of its ends.
fn merged(alloc: Global, groups: &[usize], channel: &Channel) -> Result<Vec<usize>, AllocError>
    ensures { IfOk result (λ v. v.items ≡ merge (slice_get groups.now channel.now.from) (slice_get groups.now channel.now.to) groups.now) }
{
    let Some(from) = groups.get(channel.from as usize) else {
        return Vec::from_slice(alloc, groups);
    };
    let Some(to) = groups.get(channel.to as usize) else {
        return Vec::from_slice(alloc, groups);
    };
    relabeled(alloc, groups, *from, *to)
}

fn numbers(alloc: Global, count: usize) -> Result<Vec<usize>, AllocError>
    ensures { IfOk result (λ v. v.items ≡ range_with_len 0 count) }
{
    (0..count).collect(alloc)
}

/// A number for each of so many actors, the same for those that channels join.
fn groups_of(alloc: Global, count: usize, channels: &[Channel]) -> Result<Vec<usize>, AllocError>
    ensures { IfOk result (λ v. v.items ≡ groups_of count (map channel_view channels.now)) }
{
    let mut groups = numbers(alloc, count)?;
    for channel in channels {
        groups = merged(alloc, &groups, channel)?;
    }
    Ok(groups)
}

/// The first that is not in this group.
fn first_outside(groups: &[usize], group: usize) -> Option<usize>
    ensures { is_none result ≡ list_all (λ g. g == group) groups.now }
{
    groups.iter().position(|g| *g != group)
}

/// The first of so many actors that does not end up in one group with actor 0.
fn first_apart(
    alloc: Global,
    count: usize,
    channels: &[Channel],
) -> Result<Option<usize>, AllocError>
    ensures { IfOk result (λ o. is_none o ≡ are_one_group count (map channel_view channels.now)) }
{
    let groups = groups_of(alloc, count, channels)?;
    match groups.first() {
        Some(group) => Ok(first_outside(&groups, *group)),
        None => Ok(None),
    }
}

/// The first of so many actors that the channels do not join with actor 0, or none where they join
/// any two.
pub(crate) fn unjoined(
    alloc: Global,
    count: usize,
    channels: &[Channel],
) -> Result<Option<usize>, AllocError>
    requires { HasEnds count (map channel_view channels.now) }
    ensures { IfOk result (λ o. IsTrue (is_none o) ↔ AreJoined count (map channel_view channels.now)) }
{
    let apart = first_apart(alloc, count, channels)?;
    Ok(apart)
}
