//! How far a run or a stream has come, on standard error.

ghost use Rattle.std.specs.Prelude.{None};

use crate::telling::{Extra, ProgressLine, ProgressOutput, tell_begin, tell_end, tell_made};
use csdf_bytes::DeviceFailed;
use csdf_run::Watch;
use std::sync::atomic::Ordering::SeqCst;
use std::sync::atomic::{AtomicBool, AtomicU64};

/// Standard error. What it takes is known to no contract: that a line is written there is by reading.
#[derive(Clone, Copy)]
struct OnError<'a, R>(&'a R);

impl<R: Eprint> ProgressOutput for OnError<'_, R> {
    ghost told = { λ _. None };

    fn tell(&mut self, line: ProgressLine) -> Result<(), DeviceFailed> {
        eprint!(self.0; "{line}").map_err(|_| DeviceFailed)
    }
}

/// The watch of a run. Where it is asked to, it tells over and over how many firings were made, of how many at
/// most, and by how many workers where these were chosen; and nothing of a run that never begins. A failure of
/// standard error changes nothing.
#[derive(Drop)]
pub struct Progress<'a, R> {
    rt: &'a R,
    is_asked: bool,
    crew: Option<u32>,
    has_begun: AtomicBool,
    made: AtomicU64,
    most: AtomicU64,
}

impl<'a, R: Eprint> Progress<'a, R> {
    /// Of a run that has not begun and is made by so many workers, where these were chosen.
    pub fn new(rt: &'a R, is_asked: bool, crew: Option<u32>) -> Progress<'a, R> {
        Progress {
            rt,
            is_asked,
            crew,
            has_begun: AtomicBool::new(false),
            made: AtomicU64::new(0),
            most: AtomicU64::new(0),
        }
    }

    /// What is told beside the firings that were made.
    fn beside(&self) -> Extra {
        Extra {
            most: Some(self.most.load(SeqCst)),
            crew: self.crew,
        }
    }

    /// Tells of a run that has ended, where it had begun.
    pub fn end(&self) {
        let is_told = self.is_asked && self.has_begun.load(SeqCst);
        let made = self.made.load(SeqCst);
        let _ = tell_end(&mut OnError(self.rt), is_told, made, self.beside());
    }
}

impl<R: Eprint + Sync> Watch for Progress<'_, R> {
    fn begins(&self, most: u64) {
        self.has_begun.store(true, SeqCst);
        self.made.store(0, SeqCst);
        self.most.store(most, SeqCst);
        let _ = tell_begin(&mut OnError(self.rt), self.is_asked, self.beside());
    }

    fn has_made(&self, firings: u32) {
        if self.is_asked {
            let before = self.made.fetch_add(u64::from(firings), SeqCst);
            let out = &mut OnError(self.rt);
            let _ = tell_made(out, self.is_asked, before, firings, self.beside());
        }
    }
}

/// The watch of a stream. Where it is asked to, it tells over and over how many firings were made in all
/// segments, and by how many workers where these were chosen. A failure of standard error changes nothing.
#[derive(Drop)]
pub struct FlowProgress<'a, R> {
    rt: &'a R,
    is_asked: bool,
    beside: Extra,
    made: AtomicU64,
}

impl<'a, R: Eprint> FlowProgress<'a, R> {
    /// Of a stream that begins.
    pub fn begin(rt: &'a R, is_asked: bool, crew: Option<u32>) -> FlowProgress<'a, R> {
        let beside = Extra { most: None, crew };
        let _ = tell_begin(&mut OnError(rt), is_asked, beside);
        FlowProgress {
            rt,
            is_asked,
            beside,
            made: AtomicU64::new(0),
        }
    }

    /// Tells of a stream that has ended.
    pub fn end(&self) {
        let made = self.made.load(SeqCst);
        let _ = tell_end(&mut OnError(self.rt), self.is_asked, made, self.beside);
    }
}

impl<R: Eprint + Sync> Watch for FlowProgress<'_, R> {
    fn has_made(&self, firings: u32) {
        if self.is_asked {
            let before = self.made.fetch_add(u64::from(firings), SeqCst);
            let out = &mut OnError(self.rt);
            let _ = tell_made(out, self.is_asked, before, firings, self.beside);
        }
    }
}
