//! The policy of the workers: who tends the graph, who sleeps, and who is woken.

use crate::actors::bit_of;
use csdf_kernel::Job;
use csdf_model::Kernel;

/// How many products, or tokens, make a firing heavy: it takes about as long as to wake a worker.
const HEAVY: usize = 16_384;

/// So many blocks of a run are all looked at, whether they are heavy.
const LOOKED_AT: u32 = 256;

/// After these one in so many is: a prime number, so that it is now this actor's and now that one's.
const ONE_IN: u32 = 17;

/// The workers of a run.
#[derive(Clone, Copy)]
pub struct Crew {
    /// How many actors there are, whose firings they make.
    pub actors: u32,
    /// How many there are.
    pub workers: u32,
    /// How many of them can be busy at a time: as many as there are processors for them.
    pub busy: u32,
    /// Whether one may have to wait for another at the gate.
    pub may_wait: bool,
}

impl Crew {
    /// Whether there is one alone.
    pub(crate) fn is_alone(self) -> bool {
        self.workers <= 1
    }
}

/// Which actors are heavy, whether a worker tends, how many sleep, and how many were woken and have not
/// looked yet. All of it changes under the lock alone.
///
/// One worker *tends*: it makes light firings and comes back soon, for to hand one over takes longer than
/// to make it. *Spare* is what the others may take: the heavy ones of the actors that can begin, and all
/// of them where nobody tends. An actor is heavy where its last firing was, and each is where a worker may
/// wait at the gate. Who starts a heavy firing, or finds nothing to start, tends no longer.
///
/// No wake-up is lost: what is spare changes under the lock alone, and whoever changes it tells: it wakes a
/// worker where more is spare than there are workers who look, or were woken to look. Each of those sees
/// under the lock that nothing is spare before it sleeps, or starts a firing and tells in its turn.
///
/// Firings of a light actor are made one after another under the lock by the one who tends, or by the one
/// worker that there is, which makes those of all. An actor is light once it is seen to be so.
///
/// A block of firings that is heavy is evaluated without the lock: a worker *drafts* it, tends no longer,
/// and in its next hold of the lock makes it and drafts the next one. Whose firings were drafted once is
/// spare too, since they may be heavy again, and nobody looks for the actor while they are drafted.
///
/// As many workers are busy as there are processors: where so many draft or tend, nothing is spare but
/// heavy firings, since more workers would only wait for the lock. No wake-up is lost by that: each of these
/// comes back soon, and tells what is spare then.
///
/// None is woken in vain: it is woken for an actor that nobody else looks for and for which there is a
/// processor, once the claims of the one who wakes it have ended, and finds it unless another was faster or
/// its start is refused.
#[derive(Drop)]
pub(crate) struct Policy {
    heavy: u64,
    /// The actors that are light.
    pub(crate) light: u64,
    /// The actors of whom firings were drafted.
    pub(crate) blocks: u64,
    drafted: u64,
    drafting: u32,
    busy: u32,
    looks: u32,
    is_tended: bool,
    sleeping: u32,
    woken: u32,
    may_wait: bool,
    is_alone: bool,
}

/// Whether the firing of a job is worth waking a worker for.
fn is_heavy(job: &Job) -> bool {
    let each = match job.kernel {
        Kernel::Fir { taps, .. } => taps as usize,
        _ => 1,
    };
    job.inputs.len().saturating_mul(each) >= HEAVY
}

impl Policy {
    /// Of a crew of which no worker tends or sleeps.
    pub(crate) fn new(crew: Crew) -> Policy {
        Policy {
            heavy: if crew.may_wait { u64::MAX } else { 0 },
            light: if crew.is_alone() { u64::MAX } else { 0 },
            blocks: 0,
            drafted: 0,
            drafting: 0,
            busy: crew.busy,
            looks: 0,
            is_tended: false,
            sleeping: 0,
            woken: 0,
            may_wait: crew.may_wait,
            is_alone: crew.is_alone(),
        }
    }

    /// Whether the job that is started is heavy, which is kept for its actor's next firing.
    fn weighs(&mut self, job: &Job) -> bool {
        let is_heavy = self.may_wait || is_heavy(job);
        let bit = bit_of(job.actor);
        if is_heavy {
            self.heavy |= bit;
            self.light &= !bit;
        } else {
            self.heavy &= !bit;
            self.light |= bit;
        }
        is_heavy
    }

    /// Whether a worker tends from now on that has started this job, or none: it does unless the job is
    /// heavy or another worker tends.
    pub(crate) fn tends(&mut self, tended: bool, started: Option<&Job>) -> bool {
        let is_heavy = match started {
            Some(job) => self.weighs(job),
            None => false,
        };
        let another_tends = self.is_tended && !tended;
        let tends = !is_heavy && !another_tends;
        self.is_tended = tends || another_tends;
        tends
    }

    /// Whether to look if the actor's next firings are heavy: where some of them were, and else not each
    /// time, since a look costs a tenth of a light firing. One worker alone has none to evaluate beside others.
    pub(crate) fn looks_at(&mut self, actor: u32) -> bool {
        if self.is_alone {
            return false;
        }
        if self.blocks & bit_of(actor) != 0 {
            return true;
        }
        self.looks = self.looks.wrapping_add(1);
        self.looks <= LOOKED_AT || self.looks % ONE_IN == 0
    }

    /// A worker that tended or not has drafted firings of an actor, and tends no longer. It may draft again,
    /// however few firings there are in between.
    pub(crate) fn drafts(&mut self, actor: u32, tended: bool) {
        let bit = bit_of(actor);
        self.blocks |= bit;
        self.drafted |= bit;
        self.drafting = self.drafting.saturating_add(1);
        self.rests(tended);
    }

    /// The drafted firings of an actor are about to be made.
    pub(crate) fn has_drafted(&mut self, actor: u32) {
        self.drafted &= !bit_of(actor);
        self.drafting = self.drafting.saturating_sub(1);
    }

    /// Those of these actors of whom no firings are drafted.
    pub(crate) fn undrafted(&self, ready: u64) -> u64 {
        ready & !self.drafted
    }

    /// A worker that finds nothing to start tends no longer.
    pub(crate) fn rests(&mut self, tended: bool) {
        self.is_tended = self.is_tended && !tended;
    }

    /// How many workers more can be busy, beside those who draft and the one who tends.
    fn slots(&self) -> u32 {
        let tending = if self.is_tended { 1 } else { 0 };
        self.busy
            .saturating_sub(self.drafting)
            .saturating_sub(tending)
    }

    /// The spare ones of the actors that can begin.
    pub(crate) fn spare(&self, ready: u64) -> u64 {
        let free = self.undrafted(ready);
        if self.slots() == 0 {
            free & self.heavy
        } else if self.is_tended {
            free & (self.heavy | self.blocks)
        } else {
            free
        }
    }

    /// How many workers find something among these, which are spare: one for each heavy firing, one for
    /// each block while there are processors for them, and one for all light ones.
    fn places(&self, spare: u64) -> u32 {
        let blocks = spare & self.blocks & !self.heavy;
        let light = spare & !self.blocks & !self.heavy;
        let tends = if light == 0 { 0 } else { 1 };
        (spare & self.heavy).count_ones().saturating_add(
            blocks.count_ones().saturating_add(tends).min(self.slots()),
        )
    }

    /// Whether the teller, who looks for a firing itself or has one, is to wake a worker, which then counts as
    /// woken.
    pub(crate) fn wakes_one(&mut self, spare: u64, looking: u32, looks: bool) -> bool {
        let own = if looks { 1 } else { 0 };
        let awake = looking.saturating_add(self.woken).saturating_add(own);
        if self.sleeping == 0 || self.places(spare) <= awake {
            return false;
        }
        self.sleeping -= 1;
        self.woken = self.woken.saturating_add(1);
        true
    }

    /// A worker goes to sleep.
    pub(crate) fn sleeps(&mut self) {
        self.sleeping = self.sleeping.saturating_add(1);
    }

    /// A worker has woken up: one that was told to, or at the end of the run.
    pub(crate) fn is_awake(&mut self) {
        if self.woken > 0 {
            self.woken -= 1;
        } else {
            self.sleeping = self.sleeping.saturating_sub(1);
        }
    }
}
