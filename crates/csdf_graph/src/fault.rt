//! Why a graph file was refused.

ghost use Rattle.std.specs.Prelude.{◌≡◌};
ghost use Rattle.csdf_graph.specs.declared.fault.GraphFault.TheVariants.{Memory};
ghost use Rattle.csdf_graph.specs.FaultPlace.{fault_place};

use crate::misfit::Misfit;
use std::alloc::{AllocError, AllocFailed};
use std::fmt;
use thiserror::Error;

/// The place of a fault: the file itself, a table counted from 0, or the table `script`.
///
/// A place that does not fit is told as 4,294,967,295.
#[derive(Clone, Copy, Debug, PartialEq, Eq)]
pub enum At {
    File,
    Actor(u32),
    Channel(u32),
    Script,
}

impl fmt::Display for At {
    ghost use Rattle.std.specs.Prelude.{Some};
    ghost use Rattle.csdf_graph.specs.FaultPlace.{place_text};

    ghost output = { λ at. Some (place_text at) };

    fn fmt<W: fmt::Write>(&self, f: &mut fmt::Formatter<W>) -> fmt::Result {
        match self {
            At::File => write!(f, "file"),
            At::Actor(number) => write!(f, "actor {number}"),
            At::Channel(number) => write!(f, "channel {number}"),
            At::Script => write!(f, "script"),
        }
    }
}

/// The first fault of a graph file, or that memory ran out.
///
/// The checks come in the order of the variants, each over the whole file before the next.
#[derive(Clone, Copy, Debug, PartialEq, Eq, Error)]
pub enum GraphFault {
    /// The bytes are not UTF-8, or not TOML.
    #[error("not TOML")]
    NotToml,
    /// A key is missing, of the wrong kind or unknown.
    #[error("shape at {0}")]
    Shape(At),
    /// A name of the wrong form, or one that stands earlier.
    #[error("name at {0}")]
    Name(At),
    /// A number or a count outside its limits.
    #[error("range at {0}")]
    Range(At),
    /// An end of the channel names no actor.
    #[error("unknown actor at channel {0}")]
    UnknownActor(u32),
    /// A rate list of the channel has not one entry for each phase of its actor.
    #[error("phase length at channel {0}")]
    PhaseLength(u32),
    /// A rate list of the channel sums to 0.
    #[error("zero rate at channel {0}")]
    ZeroRate(u32),
    /// The actor has not the channels that its kernel asks.
    #[error("kernel ports at actor {0}")]
    KernelPorts(u32),
    /// Two actors are not joined by channels, directions ignored.
    #[error("not connected")]
    NotConnected,
    /// Memory ran out, which says nothing of the file.
    #[error("out of memory")]
    Memory,
}

impl From<AllocError> for GraphFault {
    ghost from_gives = { λ _ e. e ≡ Memory };

    fn from(_e: AllocError) -> GraphFault {
        GraphFault::Memory
    }
}

impl<T: Drop> From<AllocFailed<T>> for GraphFault {
    ghost from_gives = { λ _ e. e ≡ Memory };

    fn from(_e: AllocFailed<T>) -> GraphFault {
        GraphFault::Memory
    }
}

/// Why a table was not read: a key that does not fit, or memory ran out.
#[derive(Clone, Copy)]
pub(crate) enum Unfit<'a> {
    Fault(Misfit<'a>),
    Memory,
}

impl<'a> From<Misfit<'a>> for Unfit<'a> {
    ghost use Rattle.csdf_graph.specs.declared.fault.Unfit.TheVariants as unfit;
    ghost use Rattle.std.specs.Prelude.{◌≡◌};

    ghost from_gives = { λ misfit e. e ≡ unfit.Fault misfit };

    fn from(misfit: Misfit<'a>) -> Unfit<'a> {
        Unfit::Fault(misfit)
    }
}

impl<'a> From<AllocError> for Unfit<'a> {
    ghost use Rattle.csdf_graph.specs.declared.fault.Unfit.TheVariants as unfit;
    ghost use Rattle.std.specs.Prelude.{◌≡◌};

    ghost from_gives = { λ _ e. e ≡ unfit.Memory };

    fn from(_e: AllocError) -> Unfit<'a> {
        Unfit::Memory
    }
}

impl<'a, T: Drop> From<AllocFailed<T>> for Unfit<'a> {
    ghost use Rattle.csdf_graph.specs.declared.fault.Unfit.TheVariants as unfit;
    ghost use Rattle.std.specs.Prelude.{◌≡◌};

    ghost from_gives = { λ _ e. e ≡ unfit.Memory };

    fn from(_e: AllocFailed<T>) -> Unfit<'a> {
        Unfit::Memory
    }
}

/// A place as a fault tells it.
pub(crate) fn fault_place(place: usize) -> u32
    ensures { result ≡ fault_place place }
{
    u32::try_from(place).unwrap_or(u32::MAX)
}
