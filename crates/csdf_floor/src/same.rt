//! Whether two values are the same.

ghost use Rattle.std.specs.Prelude.{◌≡◌, ◌↔◌, IsTrue, map};
ghost use Rattle.csdf_model.specs.Graph.{actor_view, channel_view};
ghost use Rattle.csdf_floor.specs.Work.{feeds_in};

use csdf_analysis::Accepted;
use csdf_model::{Actor, Channel, Graph, Kernel};

/// Whether two kernels are the same.
pub(crate) fn is_same_kernel(left: &Kernel, right: &Kernel) -> bool
    ensures { IsTrue result ↔ (left.now ≡ right.now) }
{
    match (left, right) {
        (Kernel::Source, Kernel::Source)
        | (Kernel::Sink, Kernel::Sink)
        | (Kernel::Copy, Kernel::Copy)
        | (Kernel::Sum, Kernel::Sum) => true,
        (
            Kernel::Fir {
                weights,
                taps,
                shift,
            },
            Kernel::Fir {
                weights: others,
                taps: other_taps,
                shift: other_shift,
            },
        ) => *taps == *other_taps && *shift == *other_shift && are_same_tokens(weights, others),
        _ => false,
    }
}

/// Whether two lists of tokens are the same.
pub(crate) fn are_same_tokens(left: &[i32], right: &[i32]) -> bool
    ensures { IsTrue result ↔ (left.now ≡ right.now) }
{
    left == right
}

/// Whether two lists of numbers are the same.
pub(crate) fn are_same_numbers(left: &[u32], right: &[u32]) -> bool
    ensures { IsTrue result ↔ (left.now ≡ right.now) }
{
    left == right
}

/// Whether two limits, where there are any, are the same.
pub(crate) fn is_same_limit(left: Option<u32>, right: Option<u32>) -> bool
    ensures { IsTrue result ↔ (left ≡ right) }
{
    match (left, right) {
        (Some(left), Some(right)) => left == right,
        (None, None) => true,
        _ => false,
    }
}

fn is_same_actor(left: &Actor, right: &Actor) -> bool
    ensures { IsTrue result ↔ (actor_view left.now ≡ actor_view right.now) }
{
    left.phases == right.phases
        && is_same_kernel(&left.kernel, &right.kernel)
        && left.name == right.name
}

fn is_same_channel(left: &Channel, right: &Channel) -> bool
    ensures { IsTrue result ↔ (channel_view left.now ≡ channel_view right.now) }
{
    left.from == right.from
        && left.to == right.to
        && is_same_limit(left.capacity, right.capacity)
        && are_same_numbers(&left.produce, &right.produce)
        && are_same_numbers(&left.consume, &right.consume)
        && are_same_tokens(&left.initial, &right.initial)
        && left.name == right.name
}

fn are_same_actors(left: &[Actor], right: &[Actor]) -> bool
    ensures { IsTrue result ↔ (map actor_view left.now ≡ map actor_view right.now) }
{
    if left.len() != right.len() {
        return false;
    }
    for i in 0..left.len() {
        if !is_same_actor(&left[i], &right[i]) {
            return false;
        }
    }
    true
}

fn are_same_channels(left: &[Channel], right: &[Channel]) -> bool
    ensures { IsTrue result ↔ (map channel_view left.now ≡ map channel_view right.now) }
{
    if left.len() != right.len() {
        return false;
    }
    for i in 0..left.len() {
        if !is_same_channel(&left[i], &right[i]) {
            return false;
        }
    }
    true
}

/// Whether two lists of lists are the same.
pub(crate) fn are_same_feeds(left: &[Vec<i32>], right: &[Vec<i32>]) -> bool
    ensures { IsTrue result ↔ (feeds_in left.now ≡ feeds_in right.now) }
{
    if left.len() != right.len() {
        return false;
    }
    for i in 0..left.len() {
        if !are_same_tokens(&left[i], &right[i]) {
            return false;
        }
    }
    true
}

fn is_same_graph(left: &Graph, right: &Graph) -> bool
    ensures { IsTrue result ↔ (left.now ≡ right.now) }
{
    is_same_limit(left.cells(), right.cells())
        && are_same_actors(left.actors(), right.actors())
        && are_same_channels(left.channels(), right.channels())
}

/// Whether two accepted graphs are the same.
pub(crate) fn is_same_accepted(left: &Accepted, right: &Accepted) -> bool
    ensures { IsTrue result ↔ (left.now ≡ right.now) }
{
    are_same_numbers(&left.vector().r, &right.vector().r)
        && are_same_numbers(&left.vector().q, &right.vector().q)
        && are_same_numbers(left.capacities(), right.capacities())
        && is_same_graph(left.graph(), right.graph())
}
