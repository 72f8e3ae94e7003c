//! The channels of each actor, gathered once.

ghost use Rattle.std.specs.Prelude.{◌≡◌, ◌≤◌, length, map, IfOk};
ghost use Rattle.csdf_model.specs.Graph.{channel_view, inputs_of, outputs_of, ports_view};
ghost use Rattle.csdf_model.specs.Kept.{all_ports};

use crate::limits::{MAX_ACTORS, MAX_CHANNELS};
use crate::parts::Channel;
use std::alloc::{AllocError, Global};

/// The numbers of an actor's channels, in file order. A channel from an actor to itself is among
/// both.
#[derive(Drop)]
pub(crate) struct Ports {
    /// The channels that end at it.
    pub(crate) inputs: Vec<u32>,
    /// The channels that begin at it.
    pub(crate) outputs: Vec<u32>,
}

impl Ports {
    /// The channels of this actor. An error says that memory ran out.
    fn of(alloc: Global, channels: &[Channel], actor: u32) -> Result<Ports, AllocError>
        requires { length channels.now ≤ MAX_CHANNELS }
        ensures inputs { IfOk result (λ ports. ports.inputs.items ≡ inputs_of (map channel_view channels.now) actor) }
        ensures outputs { IfOk result (λ ports. ports.outputs.items ≡ outputs_of (map channel_view channels.now) actor) }
    {
        let inputs = inputs_of(alloc, channels, actor)?;
        let outputs = outputs_of(alloc, channels, actor)?;
        Ok(Ports { inputs, outputs })
    }
}

/// The channels of each of so many actors.
pub(crate) fn gathered(
    alloc: Global,
    channels: &[Channel],
    actors: usize,
) -> Result<Vec<Ports>, AllocError>
    requires few_actors { actors ≤ MAX_ACTORS }
    requires few_channels { length channels.now ≤ MAX_CHANNELS }
    ensures { IfOk result (λ v. map ports_view v.items ≡ all_ports (map channel_view channels.now) actors) }
{
    let mut ports = Vec::new(alloc);
    for actor in 0..actors {
        ports.push(Ports::of(alloc, channels, actor as u32)?)?;
    }
    Ok(ports)
}

fn inputs_of(alloc: Global, channels: &[Channel], actor: u32) -> Result<Vec<u32>, AllocError>
    requires { length channels.now ≤ MAX_CHANNELS }
    ensures { IfOk result (λ v. v.items ≡ inputs_of (map channel_view channels.now) actor) }
{
    let mut inputs = Vec::new(alloc);
    for (number, channel) in channels.iter().enumerate() {
        if channel.to == actor {
            inputs.push(number as u32)?;
        }
    }
    Ok(inputs)
}

fn outputs_of(alloc: Global, channels: &[Channel], actor: u32) -> Result<Vec<u32>, AllocError>
    requires { length channels.now ≤ MAX_CHANNELS }
    ensures { IfOk result (λ v. v.items ≡ outputs_of (map channel_view channels.now) actor) }
{
    let mut outputs = Vec::new(alloc);
    for (number, channel) in channels.iter().enumerate() {
        if channel.from == actor {
            outputs.push(number as u32)?;
        }
    }
    Ok(outputs)
}
