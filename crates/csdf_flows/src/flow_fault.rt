//! Why a stream stopped, as the program tells it.

ghost use Rattle.std.specs.Prelude.{◌≡◌, map, IfOk};
ghost use Rattle.csdf_model.specs.Graph.{actor_view};
ghost use Rattle.csdf_answers.specs.Described.{actor_names};
ghost use Rattle.csdf_flows.specs.Flows.{sink_stream, source_fault, source_stream, stream_fault};

use csdf_answers::{DeviceName, Name, ToolFault};
use csdf_model::{Actor, actor_name};
use csdf_stream::{ReaderFault, StreamFault};
use csdf_told::run_fault;
use std::alloc::{AllocError, Global};

/// Where the tokens of a stream come from and go to.
#[derive(Clone, Copy)]
pub(crate) enum Medium {
    /// Standard input and standard output.
    Standard,
    /// The files of folders.
    Files,
}

/// Where the tokens of a source come from.
fn source_stream(alloc: Global, medium: Medium, source: &str) -> Result<DeviceName, AllocError>
    ensures { IfOk result (λ stream. stream ≡ source_stream medium source.now) }
{
    match medium {
        Medium::Standard => Ok(DeviceName::Input),
        Medium::Files => {
            let file = Name::with_ending(alloc, source, ".in")?;
            Ok(DeviceName::File(file))
        }
    }
}

/// Where the tokens of a sink go to.
fn sink_stream(alloc: Global, medium: Medium, sink: &str) -> Result<DeviceName, AllocError>
    ensures { IfOk result (λ stream. stream ≡ sink_stream medium sink.now) }
{
    match medium {
        Medium::Standard => Ok(DeviceName::Output),
        Medium::Files => {
            let file = Name::with_ending(alloc, sink, ".out")?;
            Ok(DeviceName::File(file))
        }
    }
}

/// Why no token came of a source.
fn source_fault(
    alloc: Global,
    medium: Medium,
    source: &str,
    fault: ReaderFault,
) -> Result<ToolFault, AllocError>
    ensures { IfOk result (λ told. told ≡ source_fault medium source.now fault) }
{
    let name = Name::new(alloc, source)?;
    match fault {
        ReaderFault::Syntax(line) => Ok(ToolFault::TokenSyntax(name, line)),
        ReaderFault::Range(line) => Ok(ToolFault::TokenRange(name, line)),
        ReaderFault::CutOff(number) => Ok(ToolFault::TokenCutOff(name, number)),
        ReaderFault::Memory => Ok(ToolFault::Memory),
        ReaderFault::Read => {
            let stream = source_stream(alloc, medium, source)?;
            Ok(ToolFault::Device(stream))
        }
    }
}

/// Why a stream stopped, as the program tells it: actors by their names, and their devices.
pub(crate) fn stream_fault(
    alloc: Global,
    medium: Medium,
    actors: &[Actor],
    fault: StreamFault,
) -> Result<ToolFault, AllocError>
    ensures { IfOk result (λ told. told ≡ stream_fault medium (actor_names (map actor_view actors.now)) fault) }
{
    match fault {
        StreamFault::Source(actor, fault) => {
            source_fault(alloc, medium, actor_name(actors, actor as usize), fault)
        }
        StreamFault::TooMany(actor) => {
            let name = Name::new(alloc, actor_name(actors, actor as usize))?;
            Ok(ToolFault::TooManyTokens(name))
        }
        StreamFault::Sink(actor) => {
            let stream = sink_stream(alloc, medium, actor_name(actors, actor as usize))?;
            Ok(ToolFault::Device(stream))
        }
        StreamFault::Run(fault) => Ok(run_fault(fault)),
        StreamFault::Memory => Ok(ToolFault::Memory),
    }
}
