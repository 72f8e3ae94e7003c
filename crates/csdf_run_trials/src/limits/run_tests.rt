//! Runs by one worker, by two and by eight.

use crate::limits::floor_tests::{Asked, asked_for};
use crate::limits::rows::{SIZES, Size, expect_eq, row};
use csdf_floor::{are_feeds, may_run};
use csdf_run::{Open, run, run_texts};
use std::alloc::{AllocError, Global};
use std::process::Abort;
use std::sync::Wait;
use std::test::Fail;
use std::thread::Threads;

fn check_run<R: Threads + Wait + Abort + Sync>(
    rt: &R,
    alloc: Global,
    asked: &Asked,
    workers: u32,
    periods: u32,
) -> Result<(), Fail> {
    let (accepted, feeds) = (&asked.accepted, &asked.feeds);
    assert!(rt; are_feeds(accepted.graph(), feeds));
    assert!(rt; 1 <= workers && workers <= 8);
    assert!(rt; 1 <= periods);
    assert!(rt; may_run(accepted, periods));
    match run(rt, alloc, accepted, feeds, workers, periods, None, &Open) {
        Ok(outcome) => {
            expect_eq(rt, outcome.report.len(), accepted.graph().channels().len());
            Ok(())
        }
        Err(fault) => Err(fault.into()),
    }
}

fn check_size<R: Threads + Wait + Abort + Sync>(
    rt: &R,
    alloc: Global,
    size: Size,
    workers: u32,
    periods: u32,
) -> Result<(), Fail> {
    let asked = asked_for(alloc, size, periods)?;
    check_run(rt, alloc, &asked, workers, periods)
}

#[test]
fn rows_of_each_size_are_run(rt: HostRuntime) -> Result<(), Fail> {
    check_size(&rt, rt.alloc(), SIZES[0], 1, 1)?;
    check_size(&rt, rt.alloc(), SIZES[1], 2, 100)?;
    check_size(&rt, rt.alloc(), SIZES[2], 8, 1_000)
}

/// The text of so many tokens.
fn tokens_of(alloc: Global, count: u32) -> Result<Vec<u8>, AllocError> {
    let mut text = String::new(alloc);
    for _ in 0..count {
        text.push_str("7\n")?;
    }
    Ok(text.into_bytes())
}

fn check_texts<R: Threads + Wait + Abort + Sync>(
    rt: &R,
    alloc: Global,
    size: Size,
    workers: u32,
) -> Result<(), Fail> {
    let text = row(alloc, size)?;
    let feed = tokens_of(alloc, 100)?;
    assert!(rt; 1 <= workers && workers <= 8);
    let feeds = std::slice::from_ref(&feed);
    match run_texts(rt, alloc, text.as_bytes(), feeds, workers, 100, None) {
        Ok(texts) => {
            expect_eq(rt, texts.channels.len(), size.channels as usize);
            Ok(())
        }
        Err(fault) => Err(fault.into()),
    }
}

#[test]
fn texts_of_each_size_are_run(rt: HostRuntime) -> Result<(), Fail> {
    check_texts(&rt, rt.alloc(), SIZES[0], 1)?;
    check_texts(&rt, rt.alloc(), SIZES[1], 2)?;
    check_texts(&rt, rt.alloc(), SIZES[2], 8)
}
