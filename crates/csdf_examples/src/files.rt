//! A run over files: from a graph file and a file of tokens to the text of what each sink took.

use anyhow::anyhow;
use csdf_analysis::{Length, Room};
use csdf_journal::Keeping;
use csdf_run::{Host, Open, RunOptions, Texts, run_texts_with};
use std::alloc::Global;
use std::rt::Files;
use std::sync::Wait;
use std::thread::Threads;
use std::{fs, str};

/// Where the graph file and the tokens of its source stand.
const GRAPH: &str = "average.toml";

const TOKENS: &str = "samples.in";

/// Runs a graph file over the texts of its sources, one for each in file order, by two workers, until a source
/// has no more tokens. Channels have room for several periods, so that more firings are made at a time.
fn texts_of<R: Threads + Wait + Sync>(
    rt: &R,
    alloc: Global,
    graph: &[u8],
    feeds: &[Vec<u8>],
) -> anyhow::Result<Texts> {
    let options = RunOptions {
        workers: 2,
        how_long: Length::UntilDry,
        firings: None,
        room: Room::Auto,
        keeping: Keeping::NotKept,
    };
    match run_texts_with(Host { rt, alloc }, graph, feeds, options, &Open) {
        Ok(texts) => Ok(texts),
        Err(fault) => Err(anyhow!("{fault}")),
    }
}

/// Shows what the sinks of a graph file take of a file of tokens.
pub fn show<R: Print + Files + AllocGlobal + Threads + Wait + Sync>(rt: &R) -> anyhow::Result<()> {
    let alloc = rt.alloc();
    let graph = fs::read(rt, GRAPH)?;
    let feeds = vec![in alloc; fs::read(rt, TOKENS)?]?;
    let texts = texts_of(rt, alloc, &graph, &feeds)?;
    for sink in &texts.sinks {
        print!(rt; "{}", str::from_utf8(sink)?)?;
    }
    println!(rt; "ending {:?}", texts.ending)?;
    Ok(())
}
