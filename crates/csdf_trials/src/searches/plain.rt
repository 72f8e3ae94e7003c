//! The least capacities by a plain search: channel by channel, each capacity from 0 on tried by a run of a
//! period of its own.

use csdf_model::Channel;
use std::alloc::Global;
use std::test::Fail;

/// What the search finds.
#[derive(Debug, PartialEq, Drop)]
pub(crate) enum Found {
    Least(Vec<u32>),
    Deadlock,
    TooTight,
}

/// Channels, and how often each actor fires in a period.
#[derive(Clone, Copy)]
pub(crate) struct Plain<'a> {
    pub(crate) channels: &'a [Channel],
    pub(crate) q: &'a [u32],
}

/// Where a run stands: how often each actor has fired, and how many tokens each channel holds.
#[derive(Drop)]
struct Play {
    counts: Vec<u32>,
    held: Vec<u32>,
}

/// The number at a place, or 0.
pub(crate) fn at(numbers: &[u32], place: usize) -> u32 {
    numbers.get(place).copied().unwrap_or(0)
}

fn set(numbers: &mut [u32], place: usize, number: u32) {
    if let Some(old) = numbers.get_mut(place) {
        *old = number;
    }
}

/// The rate of a firing, by its number.
fn rate_of(rates: &[u32], firing: u32) -> u32 {
    let phase = (firing as usize).checked_rem(rates.len()).unwrap_or(0);
    at(rates, phase)
}

/// How many tokens a firing of the actor takes out of the channel, and how many it puts in.
fn moved(channel: &Channel, actor: usize, firing: u32) -> (u32, u32) {
    let taken = if channel.to as usize == actor {
        rate_of(channel.consume.as_slice(), firing)
    } else {
        0
    };
    let put = if channel.from as usize == actor {
        rate_of(channel.produce.as_slice(), firing)
    } else {
        0
    };
    (taken, put)
}

/// What the channel holds after a firing of the actor.
fn held_after(channel: &Channel, held: u32, actor: usize, firing: u32) -> u32 {
    let (taken, put) = moved(channel, actor, firing);
    held.saturating_sub(taken).saturating_add(put)
}

/// Whether the channel lets the actor fire: it holds what is taken, and has room for what is put in.
fn lets_fire(channel: &Channel, held: u32, bound: u32, actor: usize, firing: u32) -> bool {
    let (taken, _) = moved(channel, actor, firing);
    let has_room = channel.from as usize != actor
        || held_after(channel, held, actor, firing) <= bound;
    taken <= held && has_room
}

/// The initial tokens of the channel and all that its producer puts in within a period.
fn full_of(channel: &Channel, firings: u32) -> Result<u32, Fail> {
    let mut tokens = u32::try_from(channel.initial.len())?;
    for firing in 0..firings {
        tokens = tokens.saturating_add(rate_of(channel.produce.as_slice(), firing));
    }
    Ok(tokens)
}

impl Plain<'_> {
    fn full(&self, alloc: Global) -> Result<Vec<u32>, Fail> {
        let mut full = Vec::new(alloc);
        for channel in self.channels {
            full.push(full_of(channel, at(self.q, channel.from as usize))?)?;
        }
        Ok(full)
    }

    /// The given capacity of each channel, or else its full one.
    fn given(&self, alloc: Global, full: &[u32]) -> Result<Vec<u32>, Fail> {
        let mut given = Vec::new(alloc);
        for (number, channel) in self.channels.iter().enumerate() {
            given.push(channel.capacity.unwrap_or(at(full, number)))?;
        }
        Ok(given)
    }

    fn first(&self, alloc: Global) -> Result<Play, Fail> {
        let counts = vec![in alloc; 0_u32; self.q.len()]?;
        let mut held = Vec::new(alloc);
        for channel in self.channels {
            held.push(u32::try_from(channel.initial.len())?)?;
        }
        Ok(Play { counts, held })
    }

    /// Whether the actor has firings of the period left, and every channel lets it make one.
    fn can_fire(&self, play: &Play, bounds: &[u32], actor: usize) -> bool {
        let firing = at(play.counts.as_slice(), actor);
        let mut can = firing < at(self.q, actor);
        for (number, channel) in self.channels.iter().enumerate() {
            let held = at(play.held.as_slice(), number);
            let lets = lets_fire(channel, held, at(bounds, number), actor, firing);
            can = can && lets;
        }
        can
    }

    fn fire(&self, play: &mut Play, actor: usize) {
        let firing = at(play.counts.as_slice(), actor);
        for (number, channel) in self.channels.iter().enumerate() {
            let held = held_after(channel, at(play.held.as_slice(), number), actor, firing);
            set(play.held.as_mut_slice(), number, held);
        }
        set(play.counts.as_mut_slice(), actor, firing.saturating_add(1));
    }

    /// The first actor that can fire.
    fn next(&self, play: &Play, bounds: &[u32]) -> Option<usize> {
        for actor in 0..self.q.len() {
            if self.can_fire(play, bounds, actor) {
                return Some(actor);
            }
        }
        None
    }

    /// Whether the initial tokens fit.
    fn fits(&self, bounds: &[u32]) -> bool {
        let mut fits = true;
        for (number, channel) in self.channels.iter().enumerate() {
            fits = fits && channel.initial.len() <= at(bounds, number) as usize;
        }
        fits
    }

    fn firings(&self) -> u32 {
        let mut firings = 0_u32;
        for count in self.q {
            firings = firings.saturating_add(*count);
        }
        firings
    }

    /// Whether a period completes under these capacities.
    fn completes(&self, alloc: Global, bounds: &[u32]) -> Result<bool, Fail> {
        if !self.fits(bounds) {
            return Ok(false);
        }
        let mut play = self.first(alloc)?;
        for _ in 0..self.firings() {
            match self.next(&play, bounds) {
                Some(actor) => self.fire(&mut play, actor),
                None => return Ok(false),
            }
        }
        Ok(true)
    }

    /// Gives the channel the first capacity that completes a period with the others.
    fn lower(&self, alloc: Global, bounds: &mut [u32], number: usize) -> Result<(), Fail> {
        for bound in 0..at(bounds, number) {
            let most = at(bounds, number);
            set(bounds, number, bound);
            if self.completes(alloc, bounds)? {
                return Ok(());
            }
            set(bounds, number, most);
        }
        Ok(())
    }

    /// The least capacities, or why there are none.
    pub(crate) fn search(&self, alloc: Global) -> Result<Found, Fail> {
        let full = self.full(alloc)?;
        if !self.completes(alloc, full.as_slice())? {
            return Ok(Found::Deadlock);
        }
        let mut bounds = self.given(alloc, full.as_slice())?;
        if !self.completes(alloc, bounds.as_slice())? {
            return Ok(Found::TooTight);
        }
        for (number, channel) in self.channels.iter().enumerate() {
            if channel.capacity.is_none() {
                self.lower(alloc, bounds.as_mut_slice(), number)?;
            }
        }
        Ok(Found::Least(bounds))
    }

    /// The least capacity of the channel, where it is the only one.
    pub(crate) fn own(&self, alloc: Global, number: usize) -> Result<u32, Fail> {
        let end = number.saturating_add(1);
        let alone = Plain {
            channels: self.channels.get(number..end).unwrap_or(&[]),
            q: self.q,
        };
        let mut bounds = alone.full(alloc)?;
        alone.lower(alloc, bounds.as_mut_slice(), 0)?;
        Ok(at(bounds.as_slice(), 0))
    }
}
