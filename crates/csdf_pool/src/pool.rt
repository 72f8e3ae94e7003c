//! The pool: chains and a free list through one table of links.

ghost use Rattle.std.specs.Prelude.{◌≡◌, ℕ, ◌+◌, ◌<◌, ◌≤◌, ◌↔◌, ◌++◌, [], length, take, drop, zip, slice_set, slice_get, replicate};
ghost use Rattle.std.specs.Prelude.{IfOk, IfNone, IsErr, OnOk, OnErr, OnSome, sum_by};
ghost use Rattle.std.specs.List.{range_with_len};
ghost use Rattle.csdf_pool.specs.Pool.{chain_of, held_cells, held_tokens, IsPartition, after_put, after_puts, after_take, after_takes};

use crate::ends::{Ends, move_cells};
use crate::fill::{copy_out, end_after, fill};
use crate::iters::{Cells, Tokens};
use csdf_model::{MAX_CELLS, MAX_CHANNELS};
use std::alloc::{AllocError, Global};
use std::marker::Model;
use thiserror::Error;

/// No cell is free.
#[derive(Clone, Copy, Debug, PartialEq, Eq, Error)]
#[error("no cell is free")]
pub struct NoCell;

/// Queues of tokens, the chains, that share the cells of one pool: eight bytes a cell. A cell is
/// named by its index, and stands in one chain or in the free list.
#[derive(Drop)]
pub struct Pool {
    links: Vec<u32>,
    tokens: Vec<i32>,
    chains: Vec<Ends>,
    free: Ends,
}

impl Model for Pool {
    ghost use Rattle.csdf_pool.specs.Pool.{Shared};

    ghost Value = { Shared };

    ghost use Rattle.csdf_pool.specs.Inside.{shared_of, IsSound};

    ghost view = { λ p. shared_of p.links.items p.tokens.items p.chains.items p.free };

    ghost invariant = { λ p. IsSound p.links.items p.tokens.items p.chains.items p.free };
}

// Links by which each cell is followed by the next higher one.
fn ascending_links(alloc: Global, cells: u32) -> Result<Vec<u32>, AllocError>
    requires { cells ≤ MAX_CELLS }
    ensures { IfOk result (λ links. links.items ≡ range_with_len 1 cells) }
{
    let mut links = Vec::with_capacity(alloc, cells as usize)?;
    for cell in 0..cells {
        links.push(cell + 1)?;
    }
    Ok(links)
}

impl Pool {
    /// A pool of so many cells, at most 8,388,480 and all of them free in ascending order, and of
    /// so many chains, at most 128 and all of them empty.
    pub fn new(alloc: Global, cells: u32, chains: u32) -> Result<Pool, AllocError>
        requires few_cells { cells ≤ MAX_CELLS }
        requires few_chains { chains ≤ MAX_CHANNELS }
        ensures size { IfOk result (λ pool. pool.size ≡ cells) }
        ensures chains { IfOk result (λ pool. pool.chains ≡ replicate chains []) }
        ensures free { IfOk result (λ pool. pool.free ≡ range_with_len 0 cells) }
        ensures shared_out { IfOk result IsPartition }
    {
        let links = ascending_links(alloc, cells)?;
        let tokens = vec![in alloc; 0; cells as usize]?;
        let ends = vec![in alloc; Ends::EMPTY; chains as usize]?;
        let free = Ends {
            front: 0,
            end: cells.saturating_sub(1),
            length: cells as usize,
        };
        Ok(Pool {
            links,
            tokens,
            chains: ends,
            free,
        })
    }

    /// Moves the front of the free list to the end of the chain, with the token.
    ///
    /// # Errors
    ///
    /// [`NoCell`] where no cell is free, and then nothing is changed.
    pub fn put(&mut self, chain: u32, token: i32) -> Result<(), NoCell>
        requires { chain < length self.old.chains }
        ensures full { IsErr result ↔ (self.old.free ≡ []) }
        ensures refused { OnErr result (self.new ≡ self.old) }
        ensures put { OnOk result (self.new ≡ after_put self.old chain token) }
        ensures shared_out { IsPartition self.new }
    {
        if self.free.length == 0 {
            return Err(NoCell);
        }
        self.put_all(chain, &[token]);
        Ok(())
    }

    /// Moves the front of the chain to the end of the free list, and answers its token: `None`
    /// where the chain is empty, and then nothing is changed.
    pub fn take(&mut self, chain: u32) -> Option<i32>
        requires { chain < length self.old.chains }
        ensures token { result ≡ slice_get (held_tokens (chain_of self.old chain)) 0 }
        ensures none { IfNone result (self.new ≡ self.old) }
        ensures taken { OnSome result (self.new ≡ after_take self.old chain) }
        ensures shared_out { IsPartition self.new }
    {
        if self.chains[chain as usize].length == 0 {
            return None;
        }
        let mut token = [0];
        self.take_into(chain, &mut token);
        Some(token[0])
    }

    /// Puts all the tokens, in order. The cells go over as one segment: at most two links are set.
    pub fn put_all(&mut self, chain: u32, tokens: &[i32])
        requires chain { chain < length self.old.chains }
        requires room { length tokens.now ≤ length self.old.free }
        ensures chains { self.new.chains ≡ slice_set self.old.chains chain
            (chain_of self.old chain ++ zip (take (length tokens.now) self.old.free) tokens.now) }
        ensures free { self.new.free ≡ drop (length tokens.now) self.old.free }
        ensures one_by_one { self.new ≡ after_puts self.old chain tokens.now }
        ensures size { self.new.size ≡ self.old.size }
        ensures shared_out { IsPartition self.new }
    {
        let mut ends = self.chains[chain as usize];
        if tokens.is_empty() {
            return;
        }
        let n = tokens.len() as u32;
        let last = fill(&self.links, &mut self.tokens, self.free.front, tokens);
        move_cells(&mut self.links, &mut self.free, &mut ends, last, n);
        self.chains[chain as usize] = ends;
    }

    /// Takes as many tokens as the slice is long, in order. The cells go back as one segment: at
    /// most two links are set.
    pub fn take_into(&mut self, chain: u32, tokens: &mut [i32])
        requires chain { chain < length self.old.chains }
        requires enough { length tokens.old ≤ length (chain_of self.old chain) }
        ensures tokens { tokens.new ≡ held_tokens (take (length tokens.old) (chain_of self.old chain)) }
        ensures chains { self.new.chains ≡ slice_set self.old.chains chain
            (drop (length tokens.old) (chain_of self.old chain)) }
        ensures free { self.new.free
            ≡ self.old.free ++ held_cells (take (length tokens.old) (chain_of self.old chain)) }
        ensures one_by_one { self.new ≡ after_takes self.old chain (length tokens.old) }
        ensures size { self.new.size ≡ self.old.size }
        ensures shared_out { IsPartition self.new }
    {
        let mut ends = self.chains[chain as usize];
        if tokens.is_empty() {
            return;
        }
        let n = tokens.len() as u32;
        let last = copy_out(&self.links, &self.tokens, ends.front, tokens);
        move_cells(&mut self.links, &mut ends, &mut self.free, last, n);
        self.chains[chain as usize] = ends;
    }

    /// Moves the first `n` cells of the chain to the end of the free list, as
    /// [`take_into`](Pool::take_into) does, and copies no token.
    pub fn drop_front(&mut self, chain: u32, n: u32)
        requires chain { chain < length self.old.chains }
        requires enough { n ≤ length (chain_of self.old chain) }
        ensures chains { self.new.chains ≡ slice_set self.old.chains chain (drop n (chain_of self.old chain)) }
        ensures free { self.new.free ≡ self.old.free ++ held_cells (take n (chain_of self.old chain)) }
        ensures one_by_one { self.new ≡ after_takes self.old chain n }
        ensures size { self.new.size ≡ self.old.size }
        ensures shared_out { IsPartition self.new }
    {
        let mut rest = self.chains[chain as usize];
        if n == 0 {
            return;
        }
        let end = end_after(&self.links, rest, n);
        move_cells(&mut self.links, &mut rest, &mut self.free, end, n);
        self.chains[chain as usize] = rest;
    }

    /// Copies the oldest tokens of the chain, as many as the slice is long, in order.
    pub fn copy_front(&self, chain: u32, tokens: &mut [i32])
        requires chain { chain < length self.now.chains }
        requires enough { length tokens.old ≤ length (chain_of self.now chain) }
        ensures { tokens.new ≡ held_tokens (take (length tokens.old) (chain_of self.now chain)) }
    {
        let from = self.chains[chain as usize];
        if tokens.is_empty() {
            return;
        }
        copy_out(&self.links, &self.tokens, from.front, tokens);
    }

    /// How many tokens the chain holds.
    pub fn len(&self, chain: u32) -> u32
        requires { chain < length self.now.chains }
        ensures { result ≡ length (chain_of self.now chain) }
    {
        self.chains[chain as usize].length as u32
    }

    /// How many cells are free.
    pub fn free_len(&self) -> u32
        ensures free { result ≡ length self.now.free }
        ensures shared_out { IsPartition self.now }
        ensures accounted { sum_by length self.now.chains + result ≡ self.now.size }
    {
        self.free.length as u32
    }

    /// The tokens of the chain, front first.
    pub fn tokens(&self, chain: u32) -> Tokens<'_>
        requires { chain < length self.now.chains }
        ensures { result ≡ held_tokens (chain_of self.now chain) }
    {
        Tokens::new(&self.tokens, self.cells(chain))
    }

    /// The cells of the chain, front first.
    pub fn cells(&self, chain: u32) -> Cells<'_>
        requires { chain < length self.now.chains }
        ensures { result ≡ held_cells (chain_of self.now chain) }
    {
        let ends = self.chains[chain as usize];
        Cells::new(&self.links, ends.front, ends.length)
    }

    /// The free cells, front first.
    pub fn free_cells(&self) -> Cells<'_>
        ensures { result ≡ self.now.free }
    {
        Cells::new(&self.links, self.free.front, self.free.length)
    }
}
