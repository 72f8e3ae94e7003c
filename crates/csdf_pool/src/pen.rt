//! Writing links, each of them counted.

ghost use Rattle.std.specs.Prelude.{◌≡◌, ◌+◌, ◌<◌, length, slice_index, slice_set};
ghost use Rattle.csdf_pool.specs.Pens.{links_of, written_of, KeepsTable, WritesTo};

/// A borrowed table of links that counts how many links were set through it.
#[derive(Drop)]
pub struct Pen<'a> {
    links: &'a mut [u32],
    written: u32,
}

impl<'a> Pen<'a> {
    /// Borrows the table. No link is set yet.
    pub fn new(links: &'a mut [u32]) -> Pen<'a>
        ensures links { links_of result ≡ links.old }
        ensures written { written_of result ≡ 0 }
        ensures table { WritesTo result links.entry }
    {
        Pen { links, written: 0 }
    }

    // How many links the table has.
    pub(crate) fn len(&self) -> usize
        ensures { result ≡ length (links_of self.now) }
    {
        self.links.len()
    }

    /// How many links were set.
    pub fn written(&self) -> u32
        ensures { result ≡ written_of self.now }
    {
        self.written
    }

    /// Link `i`.
    pub fn get(&self, i: u32) -> u32
        requires { i < length (links_of self.now) }
        ensures { result ≡ slice_index (links_of self.now) i }
    {
        self.links[i as usize]
    }

    /// Sets link `i`, and counts it.
    pub fn set(&mut self, i: u32, next: u32)
        requires countable { written_of self.old < 4_294_967_295 }
        requires in_table { i < length (links_of self.old) }
        ensures links { links_of self.new ≡ slice_set (links_of self.old) i next }
        ensures written { written_of self.new ≡ written_of self.old + 1 }
        ensures table { KeepsTable self.old self.new }
    {
        let Pen { links, written } = self;
        links[i as usize] = next;
        *written += 1;
    }
}
