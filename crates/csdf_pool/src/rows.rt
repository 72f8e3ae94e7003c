//! Cells that stand in a row: they follow one another in the table as they do in the chain. Their
//! tokens are one piece of the table.

ghost use Rattle.std.specs.Prelude.{◌≡◌, ◌+◌, ◌-◌, ◌<◌, ◌≤◌, ◌↔◌, ◌++◌, length, take, drop, IsTrue, false};
ghost use Rattle.csdf_pool.specs.Rows.{IsRow};

use std::cmp::min;

// Where fewer tokens are moved, rows are not looked for.
pub(crate) const ROW: usize = 16;

// A long row has so many cells, or twice as many, and so on.
pub(crate) const LONG_ROW: usize = 64;

// After so many cells in no long row one is looked for again.
const APART: usize = 512;

// The next cells of a walk that are gone over together.
#[derive(Clone, Copy)]
pub(crate) struct CellStretch {
    // How many they are.
    pub(crate) cells: usize,
    // Whether they stand in a long row.
    pub(crate) in_row: bool,
}

// Whether a cell has a link to the one behind it.
pub(crate) fn leads_on(links: &[u32], at: u32) -> bool
    requires { at < length links.now }
    ensures { IsTrue result ↔ IsRow links.now at 1 }
{
    links[at as usize] as usize == at as usize + 1
}

// Whether so many cells from one on stand in a row, each linked to the one behind it. (In this form
// the compiler makes vectors of the loop.)
#[inline(always)]
fn is_row(links: &[u32], at: u32, n: usize) -> bool
    requires in_table { at + n ≤ length links.now }
    requires small { at + n ≤ 4_294_967_295 }
    requires some { 0 < n }
    ensures { IsTrue result ↔ IsRow links.now at n }
{
    let from = at as usize;
    let next = at + 1;
    let mut differ = 0;
    for i in 0..n {
        differ |= links[from + i].wrapping_sub(i as u32) ^ next;
    }
    differ == 0
}

// Whether a row begins at a cell. (None begins where the table may end before it.)
#[inline(always)]
pub(crate) fn starts_row(links: &[u32], at: u32) -> bool
    ensures { IsTrue result → IsRow links.now at ROW }
{
    let end = at as usize + ROW;
    if end > links.len() || end > u32::MAX as usize {
        return false;
    }
    is_row(links, at, ROW)
}

// How many cells of a row are gone over together, of so many: `ROW`, or all where they are fewer.
pub(crate) fn portion(cells: usize) -> usize
    requires { 0 < cells }
    ensures some { 0 < result }
    ensures fits { result ≤ cells }
{
    min(cells, ROW)
}

// How many of so many cells from one on stand in a long row.
fn row_length(links: &[u32], at: u32, cells: usize) -> usize
    requires { at ≤ length links.now }
    ensures row { IsRow links.now at result }
    ensures fits { result ≤ cells }
{
    let ahead = min(links.len(), u32::MAX as usize) - at as usize;
    let most = min(cells, ahead);
    let mut length = 0;
    while most - length >= LONG_ROW {
        if !is_row(links, at + length as u32, LONG_ROW) {
            return length;
        }
        length += LONG_ROW;
    }
    length
}

// Cells that stand in no long row: so many, but no more than `APART`, so that one is looked for
// again.
fn walk_of(cells: usize) -> CellStretch
    requires { 0 < cells }
    ensures some { 0 < result.cells }
    ensures fits { result.cells ≤ cells }
    ensures no_row { result.in_row ≡ false }
{
    CellStretch {
        cells: min(cells, APART),
        in_row: false,
    }
}

// What is gone over next, of so many cells from one on. Behind a long row stands no other.
pub(crate) fn stretch_at(links: &[u32], at: u32, cells: usize, behind_row: bool) -> CellStretch
    requires start { at < length links.now }
    requires cells { 0 < cells }
    ensures some { 0 < result.cells }
    ensures fits { result.cells ≤ cells }
    ensures row { IsTrue result.in_row → IsRow links.now at result.cells }
{
    if behind_row {
        return walk_of(cells);
    }
    if !leads_on(links, at) {
        return walk_of(cells);
    }
    let row = row_length(links, at, cells);
    if row == 0 {
        return walk_of(cells);
    }
    CellStretch {
        cells: row,
        in_row: true,
    }
}

// Writes the tokens into the cells of a row, and answers the last of these.
pub(crate) fn fill_row(table: &mut [i32], first: u32, tokens: &[i32]) -> u32
    requires in_table { first + length tokens.now ≤ length table.old }
    requires some { 0 < length tokens.now }
    requires small { first + length tokens.now ≤ 4_294_967_295 }
    ensures tokens { table.new ≡ take first table.old ++ (tokens.now ++ drop (first + length tokens.now) table.old) }
    ensures last { result ≡ first + (length tokens.now - 1) }
{
    let from = first as usize;
    let end = from + tokens.len();
    table[from..end].copy_from_slice(tokens);
    (end - 1) as u32
}

// Copies the tokens of the cells of a row, and answers the last of these.
pub(crate) fn copy_row(table: &[i32], first: u32, tokens: &mut [i32]) -> u32
    requires in_table { first + length tokens.old ≤ length table.now }
    requires some { 0 < length tokens.old }
    requires small { first + length tokens.old ≤ 4_294_967_295 }
    ensures tokens { tokens.new ≡ take (length tokens.old) (drop first table.now) }
    ensures last { result ≡ first + (length tokens.old - 1) }
{
    let from = first as usize;
    let end = from + tokens.len();
    tokens.copy_from_slice(&table[from..end]);
    (end - 1) as u32
}
