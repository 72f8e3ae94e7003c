//! The checks of channels against actors, once numbers stand for names.

ghost use Rattle.std.specs.Prelude.{◌≡◌, ◌==◌, not, map, sum, length, is_ok};
ghost use Rattle.csdf_graph.specs.declared.fault.GraphFault.TheVariants.{PhaseLength, ZeroRate, KernelPorts};
ghost use Rattle.csdf_graph.specs.Passes.{Gives, check, itself};
ghost use Rattle.csdf_model.specs.Graph.{actor_view, channel_view, phases_of, input_count, output_count};
ghost use Rattle.csdf_model.specs.Checks.{phase_lengths_fit, has_rates, ports_fit, has_ports};

use crate::fault::{GraphFault, fault_place};
use crate::misfit::{Found, Misfit, Wanted};
use crate::notes::Notes;
use csdf_model::{Actor, Channel, Kernel};
use std::alloc::Global;

/// How many phases an actor has, and none where there is no such actor.
fn phases_of(actors: &[Actor], number: u32) -> usize
    ensures { result ≡ phases_of (map actor_view actors.now) number }
{
    match actors.get(number as usize) {
        Some(actor) => actor.phases as usize,
        None => 0,
    }
}

/// The name of an actor, and none where there is no such actor.
pub(crate) fn name_of(actors: &[Actor], number: usize) -> &str {
    match actors.get(number) {
        Some(actor) => actor.name.as_str(),
        None => "",
    }
}

/// Checks that a rate list has an entry for each phase of its actor.
fn check_length<'a>(
    key: &'static str,
    rates: &[u32],
    actors: &'a [Actor],
    number: u32,
) -> Result<(), Misfit<'a>>
    ensures { is_ok result ≡ (length rates.now == phases_of (map actor_view actors.now) number) }
{
    let phases = phases_of(actors, number);
    if rates.len() == phases {
        return Ok(());
    }
    Err(Misfit {
        key,
        found: Found::Entries(rates.len()),
        wanted: Wanted::Rates(phases, name_of(actors, number as usize)),
    })
}

fn check_lengths<'a>(actors: &'a [Actor], channel: &Channel) -> Result<(), Misfit<'a>>
    ensures { is_ok result ≡ phase_lengths_fit (map actor_view actors.now) 0 (channel_view channel.now) }
{
    check_length("produce", &channel.produce, actors, channel.from)?;
    check_length("consume", &channel.consume, actors, channel.to)
}

pub(crate) fn check_phase_lengths(
    alloc: Global,
    actors: &[Actor],
    channels: &[Channel],
    notes: &mut Notes,
) -> Result<(), GraphFault>
    ensures { Gives itself result (check PhaseLength (phase_lengths_fit (map actor_view actors.now)) 0 (map channel_view channels.now)) }
{
    let mut checked = Ok(());
    for (place, channel) in channels.iter().enumerate() {
        if let Err(misfit) = check_lengths(actors, channel) {
            let fault = GraphFault::PhaseLength(fault_place(place));
            checked = checked.and(Err(notes.refuse(alloc, fault, &misfit)));
        }
    }
    checked
}

/// Checks that a rate list does not sum to 0.
fn check_rate(key: &'static str, rates: &[u32]) -> Result<(), Misfit<'static>>
    ensures { is_ok result ≡ not (sum rates.now == 0) }
{
    if rates.iter().any(|rate| *rate != 0) {
        return Ok(());
    }
    let words = "a rate above 0 in some phase";
    Err(Misfit::new(key, Found::Zeros, words))
}

fn check_channel_rates(channel: &Channel) -> Result<(), Misfit<'static>>
    ensures { is_ok result ≡ has_rates 0 (channel_view channel.now) }
{
    check_rate("produce", &channel.produce)?;
    check_rate("consume", &channel.consume)
}

pub(crate) fn check_rates(
    alloc: Global,
    channels: &[Channel],
    notes: &mut Notes,
) -> Result<(), GraphFault>
    ensures { Gives itself result (check ZeroRate has_rates 0 (map channel_view channels.now)) }
{
    let mut checked = Ok(());
    for (place, channel) in channels.iter().enumerate() {
        if let Err(misfit) = check_channel_rates(channel) {
            let fault = GraphFault::ZeroRate(fault_place(place));
            checked = checked.and(Err(notes.refuse(alloc, fault, &misfit)));
        }
    }
    checked
}

fn input_count(channels: &[Channel], number: usize) -> usize
    ensures { result ≡ input_count (map channel_view channels.now) number }
{
    channels
        .iter()
        .filter(|channel| channel.to as usize == number)
        .count()
}

fn output_count(channels: &[Channel], number: usize) -> usize
    ensures { result ≡ output_count (map channel_view channels.now) number }
{
    channels
        .iter()
        .filter(|channel| channel.from as usize == number)
        .count()
}

/// Whether an actor of this kernel may have so many inputs and outputs.
pub fn ports_fit(kernel: Kernel, inputs: usize, outputs: usize) -> bool
    ensures { result ≡ ports_fit kernel inputs outputs }
{
    match kernel {
        Kernel::Source => inputs == 0 && outputs >= 1,
        Kernel::Sink => inputs >= 1 && outputs == 0,
        Kernel::Copy | Kernel::Sum | Kernel::Fir { .. } => inputs >= 1 && outputs >= 1,
    }
}

/// What a kernel asks, in words.
fn asked_of(kernel: Kernel) -> &'static str {
    match kernel {
        Kernel::Source => "no input and at least one output, as a source has",
        Kernel::Sink => "at least one input and no output, as a sink has",
        Kernel::Copy | Kernel::Sum | Kernel::Fir { .. } => "at least one of each",
    }
}

/// Checks that an actor has the channels that its kernel asks.
fn check_actor_ports(
    channels: &[Channel],
    number: usize,
    actor: &Actor,
) -> Result<(), Misfit<'static>>
    ensures { is_ok result ≡ has_ports (map channel_view channels.now) number (actor_view actor.now) }
{
    let inputs = input_count(channels, number);
    let outputs = output_count(channels, number);
    if ports_fit(actor.kernel, inputs, outputs) {
        return Ok(());
    }
    let found = Found::Ports(inputs, outputs);
    Err(Misfit::new("kernel", found, asked_of(actor.kernel)))
}

pub(crate) fn check_ports(
    alloc: Global,
    actors: &[Actor],
    channels: &[Channel],
    notes: &mut Notes,
) -> Result<(), GraphFault>
    ensures { Gives itself result (check KernelPorts (has_ports (map channel_view channels.now)) 0 (map actor_view actors.now)) }
{
    let mut checked = Ok(());
    for (place, actor) in actors.iter().enumerate() {
        if let Err(misfit) = check_actor_ports(channels, place, actor) {
            let fault = GraphFault::KernelPorts(fault_place(place));
            checked = checked.and(Err(notes.refuse(alloc, fault, &misfit)));
        }
    }
    checked
}
