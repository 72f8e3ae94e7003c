//! What is said of a refused file, where someone asks for it.

ghost use Rattle.std.specs.Prelude.{◌≡◌, ◌≢◌};
ghost use Rattle.csdf_graph.specs.Passes.{Gives, answer_of, itself};

use crate::fault::{At, GraphFault, Unfit};
use csdf_model::{MAX_ACTORS, MAX_CHANNELS};
use std::alloc::{AllocError, Global};
use std::fmt;

/// What was found at a place of the file, in words.
#[derive(Drop)]
pub(crate) struct Note {
    pub(crate) at: At,
    pub(crate) words: String,
}

/// What was found wrong with a file, in the order in which it was met.
#[derive(Drop)]
pub(crate) struct Notes {
    is_asked: bool,
    lacks_memory: bool,
    notes: Vec<Note>,
}

/// The place of a fault, where it has one.
fn place_of(fault: GraphFault) -> At {
    match fault {
        GraphFault::Shape(at) | GraphFault::Name(at) | GraphFault::Range(at) => at,
        GraphFault::UnknownActor(number)
        | GraphFault::PhaseLength(number)
        | GraphFault::ZeroRate(number) => At::Channel(number),
        GraphFault::KernelPorts(number) => At::Actor(number),
        GraphFault::NotToml | GraphFault::NotConnected | GraphFault::Memory => At::File,
    }
}

/// Whether a place is among those that a graph may have.
fn is_within(at: At) -> bool {
    match at {
        At::File | At::Script => true,
        At::Actor(number) => (number as usize) < MAX_ACTORS,
        At::Channel(number) => (number as usize) < MAX_CHANNELS,
    }
}

impl Notes {
    /// Notes that keep nothing.
    pub(crate) fn unasked(alloc: Global) -> Notes {
        Notes {
            is_asked: false,
            lacks_memory: false,
            notes: Vec::new(alloc),
        }
    }

    /// Notes that keep what was found first, and what else was found in the actors and channels that
    /// a graph may have.
    pub(crate) fn asked(alloc: Global) -> Notes {
        Notes {
            is_asked: true,
            lacks_memory: false,
            notes: Vec::new(alloc),
        }
    }

    fn keep<D: fmt::Display>(
        &mut self,
        alloc: Global,
        at: At,
        found: &D,
    ) -> Result<(), AllocError> {
        if self.is_asked && (self.notes.is_empty() || is_within(at)) {
            let words = format!(in alloc; "{found}")?;
            self.notes.push(Note { at, words })?;
        }
        Ok(())
    }

    /// The fault of which this was found, or want of memory.
    pub(crate) fn refuse<D: fmt::Display>(
        &mut self,
        alloc: Global,
        fault: GraphFault,
        found: &D,
    ) -> GraphFault
        ensures { result ≢ GraphFault.Memory → result ≡ fault }
    {
        match self.keep(alloc, place_of(fault), found) {
            Ok(()) => fault,
            Err(_) => {
                self.lacks_memory = true;
                GraphFault::Memory
            }
        }
    }

    /// What a reader of one table answered, as the pass over the file tells it: out of shape is this
    /// fault.
    pub(crate) fn answer_of<T>(
        &mut self,
        alloc: Global,
        fault: GraphFault,
        read: Result<T, Unfit<'_>>,
    ) -> Result<T, GraphFault>
        ensures { Gives itself result (answer_of fault read.entry) }
    {
        match read {
            Ok(found) => Ok(found),
            Err(Unfit::Fault(misfit)) => Err(self.refuse(alloc, fault, &misfit)),
            Err(Unfit::Memory) => {
                self.lacks_memory = true;
                Err(GraphFault::Memory)
            }
        }
    }

    /// What a pass answered. Where memory ran out for it, not all is noted.
    pub(crate) fn heeded<T>(&mut self, pass: Result<T, GraphFault>) -> Result<T, GraphFault>
        ensures { result ≡ pass }
    {
        if let Err(GraphFault::Memory) = &pass {
            self.lacks_memory = true;
        }
        pass
    }

    /// Whether memory ran out, so that something may not be noted.
    pub(crate) fn lack_memory(&self) -> bool {
        self.lacks_memory
    }

    pub(crate) fn as_slice(&self) -> &[Note] {
        &self.notes
    }
}
