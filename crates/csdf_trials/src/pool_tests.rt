//! Worked examples, and a plain pool of lists that is played beside the real one.

mod plain;

ghost use Rattle.std.specs.Prelude.{◌≡◌, ◌<◌, length, IfOk};

use crate::shared::expect_eq;
use csdf_pool::{NoCell, Pool};
use plain::Plain;
use std::alloc::{AllocError, Global};
use std::process::Abort;
use std::test::Fail;

// A pool of two chains.
#[derive(Drop)]
struct Two {
    pool: Pool,
    ghost two: { length pool.chains ≡ 2 },
}

impl Two {
    fn new(alloc: Global, cells: u32) -> Result<Two, AllocError>
        requires { cells < 1000 }
    {
        let pool = Pool::new(alloc, cells, 2)?;
        Ok(Two { pool })
    }

    fn put(&mut self, chain: u32, token: i32) -> Result<(), NoCell> {
        self.pool.put(chain % 2, token)
    }

    fn take(&mut self, chain: u32) -> Option<i32> {
        self.pool.take(chain % 2)
    }

    // Whether there was room for all the tokens.
    fn put_all(&mut self, chain: u32, tokens: &[i32]) -> bool {
        if tokens.len() > self.pool.free_len() as usize {
            return false;
        }
        self.pool.put_all(chain % 2, tokens);
        true
    }

    // So many tokens, or none where the chain has fewer.
    fn take_some(&mut self, alloc: Global, chain: u32, n: usize) -> Result<Vec<i32>, AllocError> {
        if n > self.pool.len(chain % 2) as usize {
            return Ok(Vec::new(alloc));
        }
        let mut tokens = vec![in alloc; 0; n]?;
        self.pool.take_into(chain % 2, &mut tokens);
        Ok(tokens)
    }

    // Whether the chain has so many tokens, which are then gone.
    fn drop_some(&mut self, chain: u32, n: u32) -> bool {
        if n > self.pool.len(chain % 2) {
            return false;
        }
        self.pool.drop_front(chain % 2, n);
        true
    }

    fn show_chain(&self, text: &mut String, chain: u32) -> Result<(), AllocError>
        requires { chain < 2 }
    {
        for (cell, token) in self.pool.cells(chain).zip(self.pool.tokens(chain)) {
            write!(text, "{cell}={token} ")?;
        }
        write!(text, "| ")?;
        Ok(())
    }

    fn show(&self, text: &mut String) -> Result<(), AllocError> {
        self.show_chain(text, 0)?;
        self.show_chain(text, 1)?;
        for cell in self.pool.free_cells() {
            write!(text, "{cell} ")?;
        }
        Ok(())
    }

    // The cells and tokens of both chains, and the free cells, as `1=8 | 2=9 | 3 0`.
    fn shown(&self, alloc: Global) -> Result<String, AllocError> {
        let mut text = String::new(alloc);
        self.show(&mut text)?;
        Ok(text)
    }
}

// One call on a pool of two chains, and what it is to answer.
enum Call {
    Put(u32, i32, Result<(), NoCell>),
    Take(u32, Option<i32>),
    PutAll(u32, &'static [i32]),
    TakeInto(u32, &'static [i32]),
}

// A call, and what the pool is to show after it.
struct Step(Call, &'static str);

fn check_taken(
    rt: &impl Abort,
    alloc: Global,
    two: &mut Two,
    chain: u32,
    answer: &[i32],
) -> Result<(), Fail> {
    let taken = two.take_some(alloc, chain, answer.len())?;
    expect_eq(rt, taken.as_slice(), answer);
    Ok(())
}

fn check_call(rt: &impl Abort, alloc: Global, two: &mut Two, call: &Call) -> Result<(), Fail> {
    match call {
        Call::Put(chain, token, answer) => expect_eq(rt, two.put(*chain, *token), *answer),
        Call::Take(chain, answer) => expect_eq(rt, two.take(*chain), *answer),
        Call::PutAll(chain, tokens) => assert!(rt; two.put_all(*chain, *tokens)),
        Call::TakeInto(chain, answer) => return check_taken(rt, alloc, two, *chain, *answer),
    }
    Ok(())
}

fn check_shown(rt: &impl Abort, alloc: Global, two: &Two, want: &str) -> Result<(), Fail> {
    let shown = two.shown(alloc)?;
    expect_eq(rt, shown.as_str(), want);
    Ok(())
}

fn check_step(rt: &impl Abort, alloc: Global, two: &mut Two, step: &Step) -> Result<(), Fail> {
    check_call(rt, alloc, two, &step.0)?;
    check_shown(rt, alloc, two, step.1)
}

fn plays(rt: &impl Abort, alloc: Global, cells: u32, steps: &[Step]) -> Result<(), Fail>
    requires { cells < 1000 }
{
    let mut two = Two::new(alloc, cells)?;
    for step in steps {
        check_step(rt, alloc, &mut two, step)?;
    }
    Ok(())
}

const SINGLE_CALLS: [Step; 10] = [
    Step(Call::Put(0, 7, Ok(())), "0=7 | | 1 2 3 "),
    Step(Call::Put(0, 8, Ok(())), "0=7 1=8 | | 2 3 "),
    Step(Call::Take(0, Some(7)), "1=8 | | 2 3 0 "),
    Step(Call::Put(1, 9, Ok(())), "1=8 | 2=9 | 3 0 "),
    Step(Call::Put(1, 5, Ok(())), "1=8 | 2=9 3=5 | 0 "),
    Step(Call::Put(0, 6, Ok(())), "1=8 0=6 | 2=9 3=5 | "),
    Step(Call::Put(1, 4, Err(NoCell)), "1=8 0=6 | 2=9 3=5 | "),
    Step(Call::Take(0, Some(8)), "0=6 | 2=9 3=5 | 1 "),
    Step(Call::Take(0, Some(6)), "| 2=9 3=5 | 1 0 "),
    Step(Call::Take(0, None), "| 2=9 3=5 | 1 0 "),
];

#[test]
fn single_calls(rt: HostRuntime) -> Result<(), Fail> {
    plays(&rt, rt.alloc(), 4, &SINGLE_CALLS)
}

const WHOLE_SEGMENTS: [Step; 8] = [
    Step(Call::PutAll(0, &[1, 2, 3, 4]), "0=1 1=2 2=3 3=4 | | 4 5 "),
    Step(Call::TakeInto(0, &[1, 2]), "2=3 3=4 | | 4 5 0 1 "),
    Step(Call::PutAll(1, &[5, 6, 7]), "2=3 3=4 | 4=5 5=6 0=7 | 1 "),
    Step(Call::TakeInto(0, &[3, 4]), "| 4=5 5=6 0=7 | 1 2 3 "),
    Step(Call::Put(0, 8, Ok(())), "1=8 | 4=5 5=6 0=7 | 2 3 "),
    Step(Call::PutAll(1, &[9, 10]), "1=8 | 4=5 5=6 0=7 2=9 3=10 | "),
    Step(
        Call::Put(0, 11, Err(NoCell)),
        "1=8 | 4=5 5=6 0=7 2=9 3=10 | ",
    ),
    Step(Call::PutAll(1, &[]), "1=8 | 4=5 5=6 0=7 2=9 3=10 | "),
];

#[test]
fn whole_segments(rt: HostRuntime) -> Result<(), Fail> {
    plays(&rt, rt.alloc(), 6, &WHOLE_SEGMENTS)
}

fn check_no_chains(rt: &impl Abort, alloc: Global) -> Result<(), Fail> {
    let pool = Pool::new(alloc, 0, 0)?;
    expect_eq(rt, pool.free_len(), 0);
    expect_eq(rt, pool.free_cells().count(), 0);
    Ok(())
}

fn check_no_cells(rt: &impl Abort, two: &mut Two) {
    expect_eq(rt, two.put(0, 1), Err(NoCell));
    expect_eq(rt, two.take(0), None);
}

#[test]
fn no_cells_and_no_chains(rt: HostRuntime) -> Result<(), Fail> {
    check_no_chains(&rt, rt.alloc())?;
    let mut two = Two::new(rt.alloc(), 0)?;
    check_no_cells(&rt, &mut two);
    Ok(())
}

// The next number of a fixed sequence.
fn next(seed: u64) -> u64 {
    (seed % 1_000_003 * 48_271 + 11) % 1_000_003
}

// Takes so many tokens from both pools: whether they are the same.
fn same_taken(
    alloc: Global,
    two: &mut Two,
    plain: &mut Plain,
    chain: u32,
    n: usize,
) -> Result<bool, AllocError> {
    let taken = two.take_some(alloc, chain, n)?;
    Ok(taken.as_slice() == plain.take_some(alloc, chain, n)?.as_slice())
}

// One call on both pools, picked by the number: whether both answered alike.
fn same_answer(
    alloc: Global,
    two: &mut Two,
    plain: &mut Plain,
    pick: u64,
) -> Result<bool, AllocError> {
    let chain = (pick / 8 % 2) as u32;
    let n = (pick / 16 % 4) as usize;
    let token = (pick % 1000) as i32;
    match pick % 8 {
        0..=2 => Ok(two.put(chain, token).is_ok() == plain.put(chain, token)?),
        3 | 4 => Ok(two.take(chain) == plain.take(chain)?),
        5 | 6 => {
            let tokens = [token, token + 1, token + 2];
            let put = two.put_all(chain, &tokens[..n.min(3)]);
            Ok(put == plain.put_all(chain, &tokens[..n.min(3)])?)
        }
        _ => same_taken(alloc, two, plain, chain, n),
    }
}

// Both pools show the same.
fn check_alike(rt: &impl Abort, alloc: Global, two: &Two, plain: &Plain) -> Result<(), Fail> {
    let shown = plain.shown(alloc)?;
    check_shown(rt, alloc, two, shown.as_str())
}

// Makes many calls on both pools.
fn play_both(rt: &impl Abort, alloc: Global, two: &mut Two, plain: &mut Plain) -> Result<(), Fail> {
    let mut pick = 5;
    for _ in 0..2000 {
        pick = next(pick);
        assert!(rt; same_answer(alloc, two, plain, pick)?);
        check_alike(rt, alloc, two, plain)?;
    }
    Ok(())
}

#[test]
fn beside_the_plain_pool(rt: HostRuntime) -> Result<(), Fail> {
    let mut two = Two::new(rt.alloc(), 11)?;
    let mut plain = Plain::new(rt.alloc(), 11)?;
    play_both(&rt, rt.alloc(), &mut two, &mut plain)
}

// Forty tokens.
fn forty(alloc: Global) -> Result<Vec<i32>, AllocError> {
    let mut tokens = vec![in alloc; 0; 40]?;
    for (i, token) in tokens.iter_mut().enumerate() {
        *token = 100 + i as i32 % 40;
    }
    Ok(tokens)
}

// Puts the tokens on both pools.
fn put_both(
    rt: &impl Abort,
    two: &mut Two,
    plain: &mut Plain,
    chain: u32,
    tokens: &[i32],
) -> Result<(), Fail> {
    assert!(rt; two.put_all(chain, tokens) && plain.put_all(chain, tokens)?);
    Ok(())
}

// Takes so many tokens from both pools, which are the same.
fn take_both(
    rt: &impl Abort,
    alloc: Global,
    two: &mut Two,
    plain: &mut Plain,
    chain: u32,
    n: usize,
) -> Result<(), Fail> {
    assert!(rt; same_taken(alloc, two, plain, chain, n)?);
    Ok(())
}

// Drops 38 tokens of the second chain on both pools.
fn drop_both(rt: &impl Abort, alloc: Global, two: &mut Two, plain: &mut Plain) -> Result<(), Fail> {
    assert!(rt; two.drop_some(1, 38) && plain.take_some(alloc, 1, 38)?.len() == 38);
    Ok(())
}

// Puts the forty tokens and takes them, on both pools, and then puts them and drops all but two.
fn play_forty(
    rt: &impl Abort,
    alloc: Global,
    two: &mut Two,
    plain: &mut Plain,
    tokens: &[i32],
) -> Result<(), Fail> {
    put_both(rt, two, plain, 0, tokens)?;
    check_alike(rt, alloc, two, plain)?;
    take_both(rt, alloc, two, plain, 0, 40)?;
    check_alike(rt, alloc, two, plain)?;
    put_both(rt, two, plain, 1, tokens)?;
    drop_both(rt, alloc, two, plain)?;
    check_alike(rt, alloc, two, plain)?;
    take_both(rt, alloc, two, plain, 1, 2)
}

// Takes all cells by turns for both chains and gives them back, so that no two of them are next
// to each other in the free list and in the table.
fn play_turns(
    rt: &impl Abort,
    alloc: Global,
    two: &mut Two,
    plain: &mut Plain,
) -> Result<(), Fail> {
    for turn in 0..50 {
        let chain = turn % 2;
        assert!(rt; two.put(chain, 7).is_ok() && plain.put(chain, 7)?);
    }
    assert!(rt; same_taken(alloc, two, plain, 0, 25)? && same_taken(alloc, two, plain, 1, 25)?);
    Ok(())
}

// In rows of cells, and then in cells of which no two are in a row.
fn play_forties(
    rt: &impl Abort,
    alloc: Global,
    two: &mut Two,
    plain: &mut Plain,
    tokens: &[i32],
) -> Result<(), Fail> {
    play_forty(rt, alloc, two, plain, tokens)?;
    play_turns(rt, alloc, two, plain)?;
    play_forty(rt, alloc, two, plain, tokens)
}

#[test]
fn forty_at_once(rt: HostRuntime) -> Result<(), Fail> {
    let mut two = Two::new(rt.alloc(), 50)?;
    let mut plain = Plain::new(rt.alloc(), 50)?;
    let tokens = forty(rt.alloc())?;
    play_forties(&rt, rt.alloc(), &mut two, &mut plain, &tokens)
}
