//! A pool as lists alone.

use std::alloc::{AllocError, Global};
use std::collections::VecDeque;

// Two chains of cells with their tokens, and the free cells.
#[derive(Drop)]
pub struct Plain {
    first: VecDeque<(u32, i32)>,
    second: VecDeque<(u32, i32)>,
    free: VecDeque<u32>,
}

impl Plain {
    pub fn new(alloc: Global, cells: u32) -> Result<Plain, AllocError> {
        let mut free = VecDeque::new(alloc);
        for cell in 0..cells {
            free.push_back(cell)?;
        }
        Ok(Plain {
            first: VecDeque::new(alloc),
            second: VecDeque::new(alloc),
            free,
        })
    }

    // Whether a cell was free.
    pub fn put(&mut self, chain: u32, token: i32) -> Result<bool, AllocError> {
        let Some(cell) = self.free.pop_front() else {
            return Ok(false);
        };
        if chain == 0 {
            self.first.push_back((cell, token))?;
        } else {
            self.second.push_back((cell, token))?;
        }
        Ok(true)
    }

    pub fn take(&mut self, chain: u32) -> Result<Option<i32>, AllocError> {
        let front = if chain == 0 {
            self.first.pop_front()
        } else {
            self.second.pop_front()
        };
        let Some((cell, token)) = front else {
            return Ok(None);
        };
        self.free.push_back(cell)?;
        Ok(Some(token))
    }

    // Whether there was room for all the tokens.
    pub fn put_all(&mut self, chain: u32, tokens: &[i32]) -> Result<bool, AllocError> {
        if tokens.len() > self.free.len() {
            return Ok(false);
        }
        for token in tokens {
            self.put(chain, *token)?;
        }
        Ok(true)
    }

    // So many tokens, or none where the chain has fewer.
    pub fn take_some(
        &mut self,
        alloc: Global,
        chain: u32,
        n: usize,
    ) -> Result<Vec<i32>, AllocError> {
        let mut tokens = Vec::new(alloc);
        let held = if chain == 0 {
            self.first.len()
        } else {
            self.second.len()
        };
        if n > held {
            return Ok(tokens);
        }
        for _ in 0..n {
            if let Some(token) = self.take(chain)? {
                tokens.push(token)?;
            }
        }
        Ok(tokens)
    }

    fn show(&self, text: &mut String) -> Result<(), AllocError> {
        show_chain(text, &self.first)?;
        show_chain(text, &self.second)?;
        for cell in &self.free {
            write!(text, "{cell} ")?;
        }
        Ok(())
    }

    // The cells and tokens of both chains, and the free cells, as `1=8 | 2=9 | 3 0`.
    pub fn shown(&self, alloc: Global) -> Result<String, AllocError> {
        let mut text = String::new(alloc);
        self.show(&mut text)?;
        Ok(text)
    }
}

fn show_chain(text: &mut String, chain: &VecDeque<(u32, i32)>) -> Result<(), AllocError> {
    for (cell, token) in chain {
        write!(text, "{cell}={token} ")?;
    }
    write!(text, "| ")?;
    Ok(())
}
