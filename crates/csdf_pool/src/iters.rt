//! Iterators over a chain, front first.

ghost use Rattle.std.specs.Prelude.{◌≡◌, ℕ, ◌<◌, List, length, map, slice_index_or, All, pos};
ghost use Rattle.csdf_pool.specs.Chains.{linked_from};

use std::marker::Model;

/// The cells of a chain, front first.
#[derive(Drop)]
pub struct Cells<'a> {
    links: &'a [u32],
    at: u32,
    left: usize,
}

impl<'a> Model for Cells<'a> {
    ghost Value = { List ℕ };

    ghost view = { λ c. linked_from c.links.now c.at c.left };

    ghost invariant = { λ c. All (λ cell. cell < length c.links.now) (linked_from c.links.now c.at c.left) };
}

impl<'a> Cells<'a> {
    // So many cells, from one on.
    pub(crate) fn new(links: &'a [u32], at: u32, left: usize) -> Cells<'a>
        requires { All (λ cell. cell < length links.now) (linked_from links.now at left) }
        ensures { result ≡ linked_from links.now at left }
    {
        Cells { links, at, left }
    }
}

impl Iterator for Cells<'_> {
    ghost use Rattle.std.specs.Iterator.{YieldsFirst, item_count};

    type Item = u32;

    ghost next_gives = { YieldsFirst (λ cells. cells) };

    ghost remaining = { item_count (λ cells. cells) };

    fn next(&mut self) -> Option<u32> {
        if self.left == 0 {
            return None;
        }
        let cell = self.at;
        self.at = self.links[cell as usize];
        self.left -= 1;
        Some(cell)
    }
}

/// The tokens of a chain, front first.
#[derive(Drop)]
pub struct Tokens<'a> {
    tokens: &'a [i32],
    cells: Cells<'a>,
}

impl<'a> Model for Tokens<'a> {
    ghost use Rattle.std.specs.Prelude.{ℤ, List, length, map, slice_index_or, All, pos, ◌<◌};

    ghost Value = { List ℤ };

    ghost view = { λ t. map (λ cell. slice_index_or t.tokens.now cell (pos 0)) t.cells };

    ghost invariant = { λ t. All (λ cell. cell < length t.tokens.now) t.cells };
}

impl<'a> Tokens<'a> {
    // The tokens of these cells.
    pub(crate) fn new(tokens: &'a [i32], cells: Cells<'a>) -> Tokens<'a>
        requires { All (λ cell. cell < length tokens.now) cells }
        ensures { result ≡ map (λ cell. slice_index_or tokens.now cell (pos 0)) cells.entry }
    {
        Tokens { tokens, cells }
    }
}

impl Iterator for Tokens<'_> {
    ghost use Rattle.std.specs.Iterator.{YieldsFirst, item_count};

    type Item = i32;

    ghost next_gives = { YieldsFirst (λ tokens. tokens) };

    ghost remaining = { item_count (λ tokens. tokens) };

    fn next(&mut self) -> Option<i32> {
        let cell = self.cells.next()?;
        Some(self.tokens[cell as usize])
    }
}
