//! Bytes, graphs and scripts.

use crate::limits::rows::{SIZES, Size, expect_eq, graph_of, row};
use csdf_bytes::{Slice, read_bytes, read_tokens};
use csdf_graph::{read_graph_and_script, read_script};
use std::alloc::{AllocError, Global};
use std::process::Abort;
use std::test::Fail;

fn check_copy(rt: &impl Abort, alloc: Global, size: Size) -> Result<(), Fail> {
    let graph = graph_of(alloc, size)?;
    let copy = graph.try_copy(alloc)?;
    expect_eq(rt, copy.actors().len(), size.actors as usize);
    expect_eq(rt, copy.channels().len(), size.channels as usize);
    Ok(())
}

#[test]
fn graphs_of_each_size_are_copied(rt: HostRuntime) -> Result<(), Fail> {
    for size in &SIZES {
        check_copy(&rt, rt.alloc(), *size)?;
    }
    Ok(())
}

/// A script that begins an actor so often.
fn script_of(alloc: Global, lines: u32) -> Result<String, AllocError> {
    let mut text = String::from_str(alloc, "[script]\nmoves = [\n")?;
    for _ in 0..lines {
        text.push_str("  \"begin a0\",\n")?;
    }
    text.push_str("]\n")?;
    Ok(text)
}

/// A graph file with such a script.
fn file_of(alloc: Global, size: Size, lines: u32) -> Result<String, AllocError> {
    let mut text = row(alloc, size)?;
    let script = script_of(alloc, lines)?;
    text.push_str(script.as_str())?;
    Ok(text)
}

fn check_script(rt: &impl Abort, alloc: Global, lines: u32) -> Result<(), Fail> {
    let text = script_of(alloc, lines)?;
    let script = read_script(alloc, text.as_bytes())?;
    expect_eq(rt, script.lines.len(), lines as usize);
    Ok(())
}

fn check_file(rt: &impl Abort, alloc: Global, size: Size, lines: u32) -> Result<(), Fail> {
    let text = file_of(alloc, size, lines)?;
    let read = read_graph_and_script(alloc, text.as_bytes())?;
    expect_eq(rt, read.script.lines.len(), lines as usize);
    Ok(())
}

#[test]
fn scripts_of_each_length_are_read(rt: HostRuntime) -> Result<(), Fail> {
    for lines in [1, 1_000, 100_000] {
        check_script(&rt, rt.alloc(), lines)?;
    }
    Ok(())
}

#[test]
fn files_of_each_size_are_read(rt: HostRuntime) -> Result<(), Fail> {
    check_file(&rt, rt.alloc(), SIZES[0], 1)?;
    check_file(&rt, rt.alloc(), SIZES[1], 1_000)?;
    check_file(&rt, rt.alloc(), SIZES[2], 100_000)
}

/// A text of so many blanks.
fn bytes_of(alloc: Global, length: u32) -> Result<Vec<u8>, AllocError> {
    let bytes = vec![in alloc; b' '; length as usize]?;
    Ok(bytes)
}

fn check_bytes(rt: &impl Abort, alloc: Global, length: u32) -> Result<(), Fail> {
    let text = bytes_of(alloc, length)?;
    let bytes = read_bytes(alloc, &mut Slice::new(&text))?;
    expect_eq(rt, bytes.len(), length as usize);
    let tokens = read_tokens(alloc, &mut Slice::new(&text))?;
    expect_eq(rt, tokens.len(), 0);
    Ok(())
}

#[test]
fn texts_of_each_length_are_read(rt: HostRuntime) -> Result<(), Fail> {
    for length in [1, 65_537, 16_777_216] {
        check_bytes(&rt, rt.alloc(), length)?;
    }
    Ok(())
}

/// The text of so many tokens.
fn tokens_of(alloc: Global, count: u32) -> Result<String, AllocError> {
    let mut text = String::new(alloc);
    for _ in 0..count {
        text.push_str("-2147483648\n")?;
    }
    Ok(text)
}

fn check_tokens(rt: &impl Abort, alloc: Global, count: u32) -> Result<(), Fail> {
    let text = tokens_of(alloc, count)?;
    let tokens = read_tokens(alloc, &mut Slice::new(text.as_bytes()))?;
    expect_eq(rt, tokens.len(), count as usize);
    Ok(())
}

#[test]
fn as_many_tokens_as_may_be_are_read(rt: HostRuntime) -> Result<(), Fail> {
    for count in [1, 1_000, 1_000_000] {
        check_tokens(&rt, rt.alloc(), count)?;
    }
    Ok(())
}
