//! A graph in which a run stands still, and what is told of it.

ghost use Rattle.std.specs.Prelude.{◌≡◌, ◌++◌, slice_index, string_bytes, OnOk};
ghost use Rattle.csdf_explain.specs.Stalled.{beside_text, circle_heading, circle_text, heading, lacking_at, more_line, others_text, room_line, some_lines, stall_text, tokens_line, wait_line, wait_lines, wait_text, waits_text};

use crate::circle::{circle_of, wait_at, waiting_but};
use crate::names::{actor_of, channel_of};
use csdf_analysis::{Bounds, Stall, Wait};
use csdf_model::Graph;
use std::alloc::{AllocError, Global};

/// A graph, and where a run under these capacities stands still.
#[derive(Drop)]
pub(crate) struct Stalled {
    pub(crate) graph: Graph,
    pub(crate) bounds: Bounds,
    pub(crate) stall: Stall,
}

/// What the matter is with a run that stands still under these capacities.
fn heading(bounds: Bounds) -> &'static str
    ensures { result.now ≡ heading bounds }
{
    match bounds {
        Bounds::Full => {
            "deadlock: under full capacities no actor can fire any more, and the period is not complete\n"
        }
        Bounds::Given => {
            "too tight: under the given capacities no actor can fire any more, and the period is not complete\n"
        }
    }
}

/// The number in a place, and 0 where there is none.
fn number_at(numbers: &[u32], place: u32) -> u32
    ensures { result ≡ slice_index numbers.now place }
{
    numbers.get(place as usize).copied().unwrap_or(0)
}

/// Appends the line of an actor that waits for tokens.
fn push_tokens_line(
    text: &mut String,
    actor: &str,
    name: &str,
    holds: u32,
    lacks: u32,
) -> Result<(), AllocError>
    ensures { OnOk result (string_bytes text.new ≡ string_bytes text.old ++ tokens_line actor.now name.now holds lacks) }
{
    write!(
        text,
        "{actor} waits for tokens of {name}, which holds {holds}, {lacks} too few\n"
    )
}

/// Appends the line of an actor that waits for room.
fn push_room_line(
    text: &mut String,
    actor: &str,
    name: &str,
    holds: u32,
    most: u32,
) -> Result<(), AllocError>
    ensures { OnOk result (string_bytes text.new ≡ string_bytes text.old ++ room_line actor.now name.now holds most) }
{
    write!(
        text,
        "{actor} waits for room in {name}, which holds {holds} of {most}\n"
    )
}

/// Appends how many more there are.
fn push_more(text: &mut String, count: usize) -> Result<(), AllocError>
    ensures { OnOk result (string_bytes text.new ≡ string_bytes text.old ++ more_line count) }
{
    write!(text, "and {count} more\n")
}

/// Who waits for whom in a circle of so many actors.
fn circle_heading(count: usize) -> &'static str
    ensures { result.now ≡ circle_heading count }
{
    if count == 1 {
        "this one waits for itself:\n"
    } else {
        "each of these waits for the next one, and the last for the first:\n"
    }
}

impl Stalled {
    /// How many tokens the channel's consumer lacks there for its next firing.
    fn lacking_at(&self, number: u32) -> u32
        ensures { result ≡ lacking_at self.now number }
    {
        match self.graph.channels().get(number as usize) {
            Some(channel) => {
                let firings = number_at(&self.stall.counts, channel.to);
                let holds = number_at(&self.stall.held, number);
                channel.consumption(firings).saturating_sub(holds)
            }
            None => 0,
        }
    }

    /// Appends the line of an actor that waits.
    fn push_wait_line(&self, text: &mut String, actor: &str, wait: Wait) -> Result<(), AllocError>
        ensures { OnOk result (string_bytes text.new ≡ string_bytes text.old ++ wait_line self.now actor.now wait) }
    {
        match wait {
            Wait::Tokens(number) => {
                let holds = number_at(&self.stall.held, number);
                let lacks = self.lacking_at(number);
                push_tokens_line(text, actor, channel_of(&self.graph, number), holds, lacks)
            }
            Wait::Room(number) => {
                let holds = number_at(&self.stall.held, number);
                let most = number_at(&self.stall.bounds, number);
                push_room_line(text, actor, channel_of(&self.graph, number), holds, most)
            }
        }
    }

    /// Appends the line of an actor, where it waits.
    fn push_wait(
        &self,
        text: &mut String,
        actor: &str,
        wait: Option<Wait>,
    ) -> Result<(), AllocError>
        ensures { OnOk result (string_bytes text.new ≡ string_bytes text.old ++ wait_text self.now actor.now wait) }
    {
        match wait {
            Some(wait) => self.push_wait_line(text, actor, wait),
            None => Ok(()),
        }
    }

    /// Appends the lines of the actors with these numbers.
    fn push_waits(&self, text: &mut String, numbers: &[usize]) -> Result<(), AllocError>
        ensures { OnOk result (string_bytes text.new ≡ string_bytes text.old ++ wait_lines self.now numbers.now) }
    {
        for number in numbers {
            let wait = wait_at(&self.stall.waits, *number);
            self.push_wait(text, actor_of(&self.graph, *number), wait)?;
        }
        Ok(())
    }

    /// Appends the lines of the first ten of the actors with these numbers, and how many more there are.
    fn push_some(&self, text: &mut String, numbers: &[usize]) -> Result<(), AllocError>
        ensures { OnOk result (string_bytes text.new ≡ string_bytes text.old ++ some_lines self.now numbers.now) }
    {
        let count = numbers.len();
        if count > 10 {
            self.push_waits(text, &numbers[..10])?;
            push_more(text, count - 10)
        } else {
            self.push_waits(text, numbers)
        }
    }

    /// Appends the lines of actors that wait beside the circle.
    fn push_beside(&self, text: &mut String, numbers: &[usize]) -> Result<(), AllocError>
        ensures { OnOk result (string_bytes text.new ≡ string_bytes text.old ++ beside_text self.now numbers.now) }
    {
        text.push_str("so these wait too:\n")?;
        self.push_some(text, numbers)
    }

    /// Appends the lines of those that wait beside the circle, where some do.
    fn push_others(&self, text: &mut String, numbers: &[usize]) -> Result<(), AllocError>
        ensures { OnOk result (string_bytes text.new ≡ string_bytes text.old ++ others_text self.now numbers.now) }
    {
        if numbers.len() == 0 {
            Ok(())
        } else {
            self.push_beside(text, numbers)
        }
    }

    /// Appends the lines of the circle.
    fn push_circle(&self, text: &mut String, numbers: &[usize]) -> Result<(), AllocError>
        ensures { OnOk result (string_bytes text.new ≡ string_bytes text.old ++ circle_text self.now numbers.now) }
    {
        text.push_str(circle_heading(numbers.len()))?;
        self.push_waits(text, numbers)
    }

    /// Appends the circle that keeps the others waiting, and then these.
    fn push_stall(&self, alloc: Global, text: &mut String) -> Result<(), AllocError>
        ensures { OnOk result (string_bytes text.new ≡ string_bytes text.old ++ waits_text self.now) }
    {
        let these = circle_of(alloc, self.graph.channels(), &self.stall.waits)?;
        let others = waiting_but(alloc, &these, &self.stall.waits)?;
        self.push_circle(text, &these)?;
        self.push_others(text, &others)
    }

    /// Appends that it stands still, and what its actors wait for there.
    pub(crate) fn push(&self, alloc: Global, text: &mut String) -> Result<(), AllocError>
        ensures { OnOk result (string_bytes text.new ≡ string_bytes text.old ++ stall_text self.now) }
    {
        text.push_str(heading(self.bounds))?;
        self.push_stall(alloc, text)
    }
}
