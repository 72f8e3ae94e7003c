//! Writing and reading the tokens of linked cells.

ghost use Rattle.std.specs.Prelude.{◌≡◌, ℕ, ◌-◌, ◌<◌, ◌≤◌, length, map, slice_index, All, IsTrue};
ghost use Rattle.csdf_pool.specs.Cells.{times, EachOnce};
ghost use Rattle.csdf_pool.specs.Chains.{linked_from, cells_of, IsChain};
ghost use Rattle.csdf_pool.specs.Inside.{token_at};
ghost use Rattle.csdf_pool.specs.Rows.{IsRow};

use crate::ends::Ends;
use crate::rows::{LONG_ROW, ROW, copy_row, fill_row, leads_on, portion, starts_row, stretch_at};

// Writes the tokens into as many cells, from `first` on, link by link, and answers the last of
// these.
fn fill_linked(links: &[u32], table: &mut [i32], first: u32, tokens: &[i32]) -> u32
    requires in_links { All (λ cell. cell < length links.now) (linked_from links.now first (length tokens.now)) }
    requires in_table { All (λ cell. cell < length table.old) (linked_from links.now first (length tokens.now)) }
    requires once { EachOnce (linked_from links.now first (length tokens.now)) }
    requires some { 0 < length tokens.now }
    ensures tokens { map (token_at table.new) (linked_from links.now first (length tokens.now)) ≡ tokens.now }
    ensures others { (cell : ℕ) → times cell (linked_from links.now first (length tokens.now)) ≡ 0
        → token_at table.new cell ≡ token_at table.old cell }
    ensures last { result ≡ slice_index (linked_from links.now first (length tokens.now)) (length tokens.now - 1) }
{
    let mut last = first;
    let mut next = first;
    for token in tokens {
        last = next;
        table[last as usize] = *token;
        next = links[last as usize];
    }
    last
}

// Does what `fill_linked` does, and all at once where the cells are `ROW` that stand in a row.
fn fill_some(links: &[u32], table: &mut [i32], first: u32, tokens: &[i32]) -> u32
    requires in_links { All (λ cell. cell < length links.now) (linked_from links.now first (length tokens.now)) }
    requires in_table { All (λ cell. cell < length table.old) (linked_from links.now first (length tokens.now)) }
    requires once { EachOnce (linked_from links.now first (length tokens.now)) }
    requires some { 0 < length tokens.now }
    ensures tokens { map (token_at table.new) (linked_from links.now first (length tokens.now)) ≡ tokens.now }
    ensures others { (cell : ℕ) → times cell (linked_from links.now first (length tokens.now)) ≡ 0
        → token_at table.new cell ≡ token_at table.old cell }
    ensures last { result ≡ slice_index (linked_from links.now first (length tokens.now)) (length tokens.now - 1) }
{
    if tokens.len() == ROW && starts_row(links, first) {
        return fill_row(table, first, tokens);
    }
    fill_linked(links, table, first, tokens)
}

// Does what `fill_linked` does, up to `ROW` cells at a time.
#[inline(never)]
fn fill_in_rows(links: &[u32], table: &mut [i32], first: u32, tokens: &[i32]) -> u32
    requires in_links { All (λ cell. cell < length links.now) (linked_from links.now first (length tokens.now)) }
    requires in_table { All (λ cell. cell < length table.old) (linked_from links.now first (length tokens.now)) }
    requires once { EachOnce (linked_from links.now first (length tokens.now)) }
    requires some { 0 < length tokens.now }
    ensures tokens { map (token_at table.new) (linked_from links.now first (length tokens.now)) ≡ tokens.now }
    ensures others { (cell : ℕ) → times cell (linked_from links.now first (length tokens.now)) ≡ 0
        → token_at table.new cell ≡ token_at table.old cell }
    ensures last { result ≡ slice_index (linked_from links.now first (length tokens.now)) (length tokens.now - 1) }
{
    let mut last = first;
    let mut next = first;
    let mut done = 0;
    while done < tokens.len() {
        let end = done + portion(tokens.len() - done);
        last = fill_some(links, table, next, &tokens[done..end]);
        next = links[last as usize];
        done = end;
    }
    last
}

// Does what `fill_linked` does, and all at once where the cells are known to stand in a row.
fn fill_stretch(links: &[u32], table: &mut [i32], first: u32, tokens: &[i32], in_row: bool) -> u32
    requires row { IsTrue in_row → IsRow links.now first (length tokens.now) }
    requires in_links { All (λ cell. cell < length links.now) (linked_from links.now first (length tokens.now)) }
    requires in_table { All (λ cell. cell < length table.old) (linked_from links.now first (length tokens.now)) }
    requires once { EachOnce (linked_from links.now first (length tokens.now)) }
    requires some { 0 < length tokens.now }
    ensures tokens { map (token_at table.new) (linked_from links.now first (length tokens.now)) ≡ tokens.now }
    ensures others { (cell : ℕ) → times cell (linked_from links.now first (length tokens.now)) ≡ 0
        → token_at table.new cell ≡ token_at table.old cell }
    ensures last { result ≡ slice_index (linked_from links.now first (length tokens.now)) (length tokens.now - 1) }
{
    if in_row {
        return fill_row(table, first, tokens);
    }
    fill_in_rows(links, table, first, tokens)
}

// Does what `fill_linked` does, and all cells of a long row at once.
#[inline(never)]
fn fill_in_long_rows(links: &[u32], table: &mut [i32], first: u32, tokens: &[i32]) -> u32
    requires in_links { All (λ cell. cell < length links.now) (linked_from links.now first (length tokens.now)) }
    requires in_table { All (λ cell. cell < length table.old) (linked_from links.now first (length tokens.now)) }
    requires once { EachOnce (linked_from links.now first (length tokens.now)) }
    requires some { 0 < length tokens.now }
    ensures tokens { map (token_at table.new) (linked_from links.now first (length tokens.now)) ≡ tokens.now }
    ensures others { (cell : ℕ) → times cell (linked_from links.now first (length tokens.now)) ≡ 0
        → token_at table.new cell ≡ token_at table.old cell }
    ensures last { result ≡ slice_index (linked_from links.now first (length tokens.now)) (length tokens.now - 1) }
{
    let mut last = first;
    let mut next = first;
    let mut done = 0;
    let mut behind_row = false;
    while done < tokens.len() {
        let stretch = stretch_at(links, next, tokens.len() - done, behind_row);
        let end = done + stretch.cells;
        last = fill_stretch(links, table, next, &tokens[done..end], stretch.in_row);
        next = links[last as usize];
        done = end;
        behind_row = stretch.in_row;
    }
    last
}

// Does what `fill_linked` does, for `ROW` tokens and more. (A function of its own, so that the
// calls for fewer tokens stay small.)
#[inline(never)]
fn fill_many(links: &[u32], table: &mut [i32], first: u32, tokens: &[i32]) -> u32
    requires in_links { All (λ cell. cell < length links.now) (linked_from links.now first (length tokens.now)) }
    requires in_table { All (λ cell. cell < length table.old) (linked_from links.now first (length tokens.now)) }
    requires once { EachOnce (linked_from links.now first (length tokens.now)) }
    requires some { 0 < length tokens.now }
    ensures tokens { map (token_at table.new) (linked_from links.now first (length tokens.now)) ≡ tokens.now }
    ensures others { (cell : ℕ) → times cell (linked_from links.now first (length tokens.now)) ≡ 0
        → token_at table.new cell ≡ token_at table.old cell }
    ensures last { result ≡ slice_index (linked_from links.now first (length tokens.now)) (length tokens.now - 1) }
{
    if tokens.len() < LONG_ROW {
        return fill_in_rows(links, table, first, tokens);
    }
    if !leads_on(links, first) {
        return fill_in_rows(links, table, first, tokens);
    }
    fill_in_long_rows(links, table, first, tokens)
}

// Writes the tokens into as many cells, from `first` on, and answers the last of these.
pub(crate) fn fill(links: &[u32], table: &mut [i32], first: u32, tokens: &[i32]) -> u32
    requires in_links { All (λ cell. cell < length links.now) (linked_from links.now first (length tokens.now)) }
    requires in_table { All (λ cell. cell < length table.old) (linked_from links.now first (length tokens.now)) }
    requires once { EachOnce (linked_from links.now first (length tokens.now)) }
    requires some { 0 < length tokens.now }
    ensures tokens { map (token_at table.new) (linked_from links.now first (length tokens.now)) ≡ tokens.now }
    ensures others { (cell : ℕ) → times cell (linked_from links.now first (length tokens.now)) ≡ 0
        → token_at table.new cell ≡ token_at table.old cell }
    ensures last { result ≡ slice_index (linked_from links.now first (length tokens.now)) (length tokens.now - 1) }
{
    if tokens.len() < ROW {
        return fill_linked(links, table, first, tokens);
    }
    fill_many(links, table, first, tokens)
}

// Copies the tokens of as many cells as the slice is long, from `first` on, link by link, and
// answers the last of these.
fn copy_linked(links: &[u32], table: &[i32], first: u32, tokens: &mut [i32]) -> u32
    requires in_links { All (λ cell. cell < length links.now) (linked_from links.now first (length tokens.old)) }
    requires in_table { All (λ cell. cell < length table.now) (linked_from links.now first (length tokens.old)) }
    requires some { 0 < length tokens.old }
    ensures tokens { tokens.new ≡ map (token_at table.now) (linked_from links.now first (length tokens.old)) }
    ensures last { result ≡ slice_index (linked_from links.now first (length tokens.old)) (length tokens.old - 1) }
{
    let mut last = first;
    let mut next = first;
    for token in tokens.iter_mut() {
        last = next;
        *token = table[last as usize];
        next = links[last as usize];
    }
    last
}

// Does what `copy_linked` does, and all at once where the cells are `ROW` that stand in a row.
fn copy_some(links: &[u32], table: &[i32], first: u32, tokens: &mut [i32]) -> u32
    requires in_links { All (λ cell. cell < length links.now) (linked_from links.now first (length tokens.old)) }
    requires in_table { All (λ cell. cell < length table.now) (linked_from links.now first (length tokens.old)) }
    requires some { 0 < length tokens.old }
    ensures tokens { tokens.new ≡ map (token_at table.now) (linked_from links.now first (length tokens.old)) }
    ensures last { result ≡ slice_index (linked_from links.now first (length tokens.old)) (length tokens.old - 1) }
{
    if tokens.len() == ROW && starts_row(links, first) {
        return copy_row(table, first, tokens);
    }
    copy_linked(links, table, first, tokens)
}

// Does what `copy_linked` does, up to `ROW` cells at a time.
#[inline(never)]
fn copy_in_rows(links: &[u32], table: &[i32], first: u32, tokens: &mut [i32]) -> u32
    requires in_links { All (λ cell. cell < length links.now) (linked_from links.now first (length tokens.old)) }
    requires in_table { All (λ cell. cell < length table.now) (linked_from links.now first (length tokens.old)) }
    requires some { 0 < length tokens.old }
    ensures tokens { tokens.new ≡ map (token_at table.now) (linked_from links.now first (length tokens.old)) }
    ensures last { result ≡ slice_index (linked_from links.now first (length tokens.old)) (length tokens.old - 1) }
{
    let mut last = first;
    let mut next = first;
    let mut done = 0;
    while done < tokens.len() {
        let end = done + portion(tokens.len() - done);
        last = copy_some(links, table, next, &mut tokens[done..end]);
        next = links[last as usize];
        done = end;
    }
    last
}

// Does what `copy_linked` does, and all at once where the cells are known to stand in a row.
fn copy_stretch(links: &[u32], table: &[i32], first: u32, tokens: &mut [i32], in_row: bool) -> u32
    requires row { IsTrue in_row → IsRow links.now first (length tokens.old) }
    requires in_links { All (λ cell. cell < length links.now) (linked_from links.now first (length tokens.old)) }
    requires in_table { All (λ cell. cell < length table.now) (linked_from links.now first (length tokens.old)) }
    requires some { 0 < length tokens.old }
    ensures tokens { tokens.new ≡ map (token_at table.now) (linked_from links.now first (length tokens.old)) }
    ensures last { result ≡ slice_index (linked_from links.now first (length tokens.old)) (length tokens.old - 1) }
{
    if in_row {
        return copy_row(table, first, tokens);
    }
    copy_in_rows(links, table, first, tokens)
}

// Does what `copy_linked` does, and all cells of a long row at once.
#[inline(never)]
fn copy_in_long_rows(links: &[u32], table: &[i32], first: u32, tokens: &mut [i32]) -> u32
    requires in_links { All (λ cell. cell < length links.now) (linked_from links.now first (length tokens.old)) }
    requires in_table { All (λ cell. cell < length table.now) (linked_from links.now first (length tokens.old)) }
    requires some { 0 < length tokens.old }
    ensures tokens { tokens.new ≡ map (token_at table.now) (linked_from links.now first (length tokens.old)) }
    ensures last { result ≡ slice_index (linked_from links.now first (length tokens.old)) (length tokens.old - 1) }
{
    let mut last = first;
    let mut next = first;
    let mut done = 0;
    let mut behind_row = false;
    while done < tokens.len() {
        let stretch = stretch_at(links, next, tokens.len() - done, behind_row);
        let end = done + stretch.cells;
        last = copy_stretch(links, table, next, &mut tokens[done..end], stretch.in_row);
        next = links[last as usize];
        done = end;
        behind_row = stretch.in_row;
    }
    last
}

// Does what `copy_linked` does, for `ROW` tokens and more.
#[inline(never)]
fn copy_many(links: &[u32], table: &[i32], first: u32, tokens: &mut [i32]) -> u32
    requires in_links { All (λ cell. cell < length links.now) (linked_from links.now first (length tokens.old)) }
    requires in_table { All (λ cell. cell < length table.now) (linked_from links.now first (length tokens.old)) }
    requires some { 0 < length tokens.old }
    ensures tokens { tokens.new ≡ map (token_at table.now) (linked_from links.now first (length tokens.old)) }
    ensures last { result ≡ slice_index (linked_from links.now first (length tokens.old)) (length tokens.old - 1) }
{
    if tokens.len() < LONG_ROW {
        return copy_in_rows(links, table, first, tokens);
    }
    if !leads_on(links, first) {
        return copy_in_rows(links, table, first, tokens);
    }
    copy_in_long_rows(links, table, first, tokens)
}

// Copies the tokens of as many cells as the slice is long, from `first` on, and answers the last
// of these.
pub(crate) fn copy_out(links: &[u32], table: &[i32], first: u32, tokens: &mut [i32]) -> u32
    requires in_links { All (λ cell. cell < length links.now) (linked_from links.now first (length tokens.old)) }
    requires in_table { All (λ cell. cell < length table.now) (linked_from links.now first (length tokens.old)) }
    requires some { 0 < length tokens.old }
    ensures tokens { tokens.new ≡ map (token_at table.now) (linked_from links.now first (length tokens.old)) }
    ensures last { result ≡ slice_index (linked_from links.now first (length tokens.old)) (length tokens.old - 1) }
{
    if tokens.len() < ROW {
        return copy_linked(links, table, first, tokens);
    }
    copy_many(links, table, first, tokens)
}

// The last of so many linked cells, from `first` on, link by link.
fn last_linked(links: &[u32], first: u32, n: u32) -> u32
    requires in_links { All (λ cell. cell < length links.now) (linked_from links.now first n) }
    requires some { 0 < n }
    ensures { result ≡ slice_index (linked_from links.now first n) (n - 1) }
{
    let mut last = first;
    let mut next = first;
    for _cell in 0..n {
        last = next;
        next = links[last as usize];
    }
    last
}

// The last of so many linked cells, from `first` on: no walk where they are `ROW` in a row.
fn last_of_some(links: &[u32], first: u32, n: u32) -> u32
    requires in_links { All (λ cell. cell < length links.now) (linked_from links.now first n) }
    requires some { 0 < n }
    ensures { result ≡ slice_index (linked_from links.now first n) (n - 1) }
{
    if n == ROW as u32 && starts_row(links, first) {
        return first + (n - 1);
    }
    last_linked(links, first, n)
}

// Does what `last_linked` does, up to `ROW` cells at a time.
#[inline(never)]
fn last_in_rows(links: &[u32], first: u32, n: u32) -> u32
    requires in_links { All (λ cell. cell < length links.now) (linked_from links.now first n) }
    requires some { 0 < n }
    ensures { result ≡ slice_index (linked_from links.now first n) (n - 1) }
{
    let mut last = first;
    let mut next = first;
    let mut done = 0;
    while done < n {
        let some = portion((n - done) as usize) as u32;
        last = last_of_some(links, next, some);
        next = links[last as usize];
        done += some;
    }
    last
}

// The last of so many linked cells, from `first` on: no walk where they are known to stand in a row.
fn last_of_stretch(links: &[u32], first: u32, n: u32, in_row: bool) -> u32
    requires row { IsTrue in_row → IsRow links.now first n }
    requires in_links { All (λ cell. cell < length links.now) (linked_from links.now first n) }
    requires some { 0 < n }
    ensures { result ≡ slice_index (linked_from links.now first n) (n - 1) }
{
    if in_row {
        return first + (n - 1);
    }
    last_in_rows(links, first, n)
}

// Does what `last_linked` does, with no walk along a long row.
#[inline(never)]
fn last_in_long_rows(links: &[u32], first: u32, n: u32) -> u32
    requires in_links { All (λ cell. cell < length links.now) (linked_from links.now first n) }
    requires some { 0 < n }
    ensures { result ≡ slice_index (linked_from links.now first n) (n - 1) }
{
    let mut last = first;
    let mut next = first;
    let mut done = 0;
    let mut behind_row = false;
    while done < n {
        let stretch = stretch_at(links, next, (n - done) as usize, behind_row);
        let some = stretch.cells as u32;
        last = last_of_stretch(links, next, some, stretch.in_row);
        next = links[last as usize];
        done += some;
        behind_row = stretch.in_row;
    }
    last
}

// Does what `last_linked` does, for `ROW` cells and more.
#[inline(never)]
fn last_of_many(links: &[u32], first: u32, n: u32) -> u32
    requires in_links { All (λ cell. cell < length links.now) (linked_from links.now first n) }
    requires some { 0 < n }
    ensures { result ≡ slice_index (linked_from links.now first n) (n - 1) }
{
    if n < LONG_ROW as u32 {
        return last_in_rows(links, first, n);
    }
    if !leads_on(links, first) {
        return last_in_rows(links, first, n);
    }
    last_in_long_rows(links, first, n)
}

// The last of so many linked cells, from `first` on.
pub(crate) fn last_of(links: &[u32], first: u32, n: u32) -> u32
    requires in_links { All (λ cell. cell < length links.now) (linked_from links.now first n) }
    requires some { 0 < n }
    ensures { result ≡ slice_index (linked_from links.now first n) (n - 1) }
{
    if n < ROW as u32 {
        return last_linked(links, first, n);
    }
    last_of_many(links, first, n)
}

// The cell at which the first `n` cells of a chain end: no walk where they are all.
pub(crate) fn end_after(links: &[u32], chain: Ends, n: u32) -> u32
    requires chain { IsChain links.now chain }
    requires some { 0 < n }
    requires enough { n ≤ chain.length }
    ensures { result ≡ slice_index (cells_of links.now chain) (n - 1) }
{
    if n as usize == chain.length {
        return chain.end;
    }
    last_of(links, chain.front, n)
}
