//! The two ends of a chain, and moving whole segments between chains.

ghost use Rattle.std.specs.Prelude.{◌≡◌, ℕ, ◌+◌, ◌-◌, ◌<◌, ◌≤◌, ◌++◌, length, slice_index, take, drop};
ghost use Rattle.csdf_pool.specs.Cells.{times, EachOnce};
ghost use Rattle.csdf_pool.specs.Chains.{cells_of, IsChain, MovesCells};
ghost use Rattle.csdf_pool.specs.Pens.{links_of, written_of, KeepsTable};

use crate::pen::Pen;

/// A chain of cells: its first cell, its last cell and how many cells it has. Where it has none,
/// the two cells mean nothing.
#[derive(Clone, Copy, Debug, PartialEq, Eq)]
pub struct Ends {
    /// The first cell.
    pub front: u32,
    /// The last cell.
    pub end: u32,
    /// How many cells the chain has.
    pub length: usize,
}

impl Ends {
    /// A chain with no cell.
    pub const EMPTY: Ends = Ends {
        front: 0,
        end: 0,
        length: 0,
    };
}

// What is left of a chain without its first `n` cells, the last of which is `last`.
fn rest_of(pen: &Pen<'_>, chain: Ends, last: u32, n: u32) -> Ends
    requires chain { IsChain (links_of pen.now) chain }
    requires some { 0 < n }
    requires enough { n ≤ chain.length }
    requires last { last ≡ slice_index (cells_of (links_of pen.now) chain) (n - 1) }
    ensures cells { cells_of (links_of pen.now) result ≡ drop n (cells_of (links_of pen.now) chain) }
    ensures chain { IsChain (links_of pen.now) result }
{
    if n as usize == chain.length {
        return Ends::EMPTY;
    }
    Ends {
        front: pen.get(last),
        end: chain.end,
        length: chain.length - n as usize,
    }
}

// A chain with a segment of linked cells behind its own.
fn joined(pen: &mut Pen<'_>, chain: Ends, segment: Ends) -> Ends
    requires unwritten { written_of pen.old ≡ 0 }
    requires chain { IsChain (links_of pen.old) chain }
    requires segment { IsChain (links_of pen.old) segment }
    requires apart { EachOnce (cells_of (links_of pen.old) segment ++ cells_of (links_of pen.old) chain) }
    requires some { 0 < segment.length }
    ensures cells { cells_of (links_of pen.new) result
        ≡ cells_of (links_of pen.old) chain ++ cells_of (links_of pen.old) segment }
    ensures chain { IsChain (links_of pen.new) result }
    ensures others { (cell : ℕ) → times cell (cells_of (links_of pen.old) chain) ≡ 0
        → slice_index (links_of pen.new) cell ≡ slice_index (links_of pen.old) cell }
    ensures same_size { length (links_of pen.new) ≡ length (links_of pen.old) }
    ensures written { written_of pen.new ≤ 2 }
    ensures table { KeepsTable pen.old pen.new }
{
    if chain.length == 0 {
        return segment;
    }
    prove!(chain.length <= pen.len());
    prove!(segment.length <= pen.len() - chain.length);
    pen.set(chain.end, segment.front);
    Ends {
        front: chain.front,
        end: segment.end,
        length: chain.length + segment.length,
    }
}

/// Moves the first `n` cells of `from`, the last of which is `last`, to the end of `to`. At most
/// two links are set, however many cells move.
pub fn splice(pen: &mut Pen<'_>, from: &mut Ends, to: &mut Ends, last: u32, n: u32)
    requires unwritten { written_of pen.old ≡ 0 }
    requires from_chain { IsChain (links_of pen.old) from.old }
    requires to_chain { IsChain (links_of pen.old) to.old }
    requires apart { EachOnce (cells_of (links_of pen.old) from.old ++ cells_of (links_of pen.old) to.old) }
    requires some { 0 < n }
    requires enough { n ≤ from.old.length }
    requires last { last ≡ slice_index (cells_of (links_of pen.old) from.old) (n - 1) }

    ensures from { cells_of (links_of pen.new) from.new ≡ drop n (cells_of (links_of pen.old) from.old) }
    ensures to { cells_of (links_of pen.new) to.new
        ≡ cells_of (links_of pen.old) to.old ++ take n (cells_of (links_of pen.old) from.old) }
    ensures from_chain { IsChain (links_of pen.new) from.new }
    ensures to_chain { IsChain (links_of pen.new) to.new }

    ensures others { (cell : ℕ)
        → times cell (cells_of (links_of pen.old) from.old ++ cells_of (links_of pen.old) to.old) ≡ 0
        → slice_index (links_of pen.new) cell ≡ slice_index (links_of pen.old) cell }
    ensures same_size { length (links_of pen.new) ≡ length (links_of pen.old) }
    ensures written { written_of pen.new ≤ 2 }
    ensures table { KeepsTable pen.old pen.new }
{
    let segment = Ends {
        front: from.front,
        end: last,
        length: n as usize,
    };
    let rest = rest_of(pen, *from, last, n);
    *to = joined(pen, *to, segment);
    *from = rest;
}

// Moves the first `n` cells of one chain to the end of another, through a pen of its own.
pub(crate) fn move_cells(links: &mut [u32], from: &mut Ends, to: &mut Ends, last: u32, n: u32)
    requires from_chain { IsChain links.old from.old }
    requires to_chain { IsChain links.old to.old }
    requires apart { EachOnce (cells_of links.old from.old ++ cells_of links.old to.old) }
    requires some { 0 < n }
    requires enough { n ≤ from.old.length }
    requires last { last ≡ slice_index (cells_of links.old from.old) (n - 1) }
    ensures { MovesCells links.old links.new from.old from.new to.old to.new n }
{
    let mut pen = Pen::new(links);
    splice(&mut pen, from, to, last, n);
}
