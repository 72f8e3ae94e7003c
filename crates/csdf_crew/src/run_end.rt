//! The end of a run: why it comes, and who knows of it.

ghost use Rattle.std.specs.Prelude.{◌<◌};
ghost use Rattle.csdf_core.specs.Step.{IsQuiet};

use crate::gave_up::GaveUp;
use csdf_core::Core;
use std::marker::Model;
use std::sync::atomic::AtomicBool;
use std::sync::atomic::Ordering::SeqCst;

/// That a floor was quiet. Only [`Quiet::of`] makes one, which asks for it.
#[derive(Drop)]
pub(crate) struct Quiet {
    _seen: (),
}

impl Quiet {
    /// Of a core that is quiet.
    pub(crate) fn of(core: &Core) -> Quiet
        requires { IsQuiet core.now.plan core.now.now }
    {
        let _ = core;
        Quiet { _seen: () }
    }
}

/// That a thread could not be started. Only [`Unstarted::of`] makes one, which asks for it.
#[derive(Drop)]
pub(crate) struct Unstarted {
    _seen: (),
}

impl Unstarted {
    /// Of fewer threads than places.
    pub(crate) fn of(threads: usize, places: usize) -> Unstarted
        requires { threads < places }
    {
        let _ = (threads, places);
        Unstarted { _seen: () }
    }
}

/// Why a run ends.
#[derive(Drop)]
pub(crate) enum EndCause<'a> {
    /// No firing was under way, and none could begin.
    Quiet(Quiet),
    /// A worker has given up.
    GaveUp(&'a GaveUp),
    /// A thread could not be started.
    Unstarted(Unstarted),
}

/// That a run has ended. Only [`EndWord`] makes one. A contract sees no more than that it is there.
#[derive(Drop)]
pub(crate) struct RunEnd {
    _seen: (),
}

impl Model for RunEnd {
    ghost Value = { Unit {0} };

    ghost view = { λ _. tt };
}

/// Whether a run has ended, to be read without the lock. It is set where its cause is shown, and never
/// cleared.
#[derive(Drop)]
pub(crate) struct EndWord {
    is_set: AtomicBool,
}

impl EndWord {
    /// Of a run that goes on.
    pub(crate) fn new() -> EndWord {
        EndWord {
            is_set: AtomicBool::new(false),
        }
    }

    /// The run ends, for this cause.
    pub(crate) fn set(&self, _cause: EndCause<'_>) -> RunEnd {
        self.is_set.store(true, SeqCst);
        RunEnd { _seen: () }
    }

    /// The end, once the run has ended.
    pub(crate) fn get(&self) -> Option<RunEnd> {
        if self.is_set.load(SeqCst) {
            Some(RunEnd { _seen: () })
        } else {
            None
        }
    }
}
