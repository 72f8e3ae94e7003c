//! The worked examples, and a job at its limits.
use crate::shared::{done_of, expect_eq, job_of};
use csdf_kernel::Done;
use csdf_model::Kernel;
use std::alloc::Global;
use std::process::Abort;
use std::test::Fail;

fn check_done(rt: &impl Abort, done: &Done, inputs: &[i32], wanted: &[i32]) {
    expect_eq(rt, done.outputs(), wanted);
    expect_eq(rt, (done.job().actor, done.job().firing), (3, 5));
    expect_eq(rt, done.job().inputs.as_slice(), inputs);
}

/// Evaluates a job, whose outputs have to be these.
fn gives(
    rt: &impl Abort,
    alloc: Global,
    kernel: Kernel,
    counts: &[u32],
    inputs: &[i32],
    wanted: &[i32],
) -> Result<(), Fail> {
    let job = job_of(rt, alloc, kernel, counts, inputs)?;
    let done = done_of(alloc, job)?;
    check_done(rt, &done, inputs, wanted);
    Ok(())
}

const LOW: i32 = i32::MIN;

const HIGH: i32 = i32::MAX;

/// The greatest small weight, and its opposite.
const UP: i32 = 134217728;

const DOWN: i32 = -134217728;

/// Filters of sixteen taps of one weight.
const UP_BY_0: Kernel = Kernel::Fir {
    weights: [UP; 16],
    taps: 16,
    shift: 0,
};

const UP_BY_31: Kernel = Kernel::Fir {
    weights: [UP; 16],
    taps: 16,
    shift: 31,
};

const DOWN_BY_0: Kernel = Kernel::Fir {
    weights: [DOWN; 16],
    taps: 16,
    shift: 0,
};

const DOWN_BY_31: Kernel = Kernel::Fir {
    weights: [DOWN; 16],
    taps: 16,
    shift: 31,
};

/// The same with weights that are one further from zero.
const FURTHER_UP_BY_20: Kernel = Kernel::Fir {
    weights: [134217729; 16],
    taps: 16,
    shift: 20,
};

const FURTHER_UP_BY_31: Kernel = Kernel::Fir {
    weights: [134217729; 16],
    taps: 16,
    shift: 31,
};

const FURTHER_DOWN_BY_31: Kernel = Kernel::Fir {
    weights: [-134217729; 16],
    taps: 16,
    shift: 31,
};

const THREE_TAPS: Kernel = Kernel::Fir {
    weights: [1, 2, 1, 0, 0, 0, 0, 0, 0, 0, 0, 0, 0, 0, 0, 0],
    taps: 3,
    shift: 2,
};

const SIXTEEN_TAPS: Kernel = Kernel::Fir {
    weights: [1, 2, 3, 4, 5, 6, 7, 8, 9, 10, 11, 12, 13, 14, 15, 16],
    taps: 16,
    shift: 3,
};

const ONE_TO_TWENTY: [i32; 20] = [
    1, 2, 3, 4, 5, 6, 7, 8, 9, 10, 11, 12, 13, 14, 15, 16, 17, 18, 19, 20,
];

/// Of sixteen taps the third output over these has fifteen products.
const SEVENTEEN_LOW: [i32; 17] = [LOW; 17];

/// A kernel, counts, inputs, and the outputs.
const VALUES: [(Kernel, &[u32], &[i32], &[i32]); 17] = [
    (Kernel::Sum, &[2], &[HIGH, 1], &[HIGH, HIGH]),
    (Kernel::Sum, &[2], &[LOW, -1], &[LOW, LOW]),
    (Kernel::Sum, &[2], &[], &[0, 0]),
    (THREE_TAPS, &[3], &[4, 8, 12, -7], &[8, 6, -1]),
    (
        SIXTEEN_TAPS,
        &[6],
        &ONE_TO_TWENTY,
        &[187, 204, 221, 238, 255, 230],
    ),
    // sixteen products of 2^27 and -2^31 add up to -2^62
    (UP_BY_0, &[3], &SEVENTEEN_LOW, &[LOW, LOW, LOW]),
    (UP_BY_31, &[3], &SEVENTEEN_LOW, &[LOW, LOW, -2013265920]),
    (DOWN_BY_0, &[3], &SEVENTEEN_LOW, &[HIGH, HIGH, HIGH]),
    (DOWN_BY_31, &[3], &SEVENTEEN_LOW, &[HIGH, HIGH, 2013265920]),
    (
        FURTHER_UP_BY_31,
        &[3],
        &SEVENTEEN_LOW,
        &[LOW, LOW, -2013265935],
    ),
    (
        FURTHER_DOWN_BY_31,
        &[3],
        &SEVENTEEN_LOW,
        &[HIGH, HIGH, 2013265935],
    ),
    (FURTHER_UP_BY_20, &[2], &[-3; 16], &[-6145, -5761]),
    (Kernel::Copy, &[2, 4], &[1, 2, 3], &[1, 2, 1, 2, 3, 1]),
    (Kernel::Copy, &[7], &[4, 5], &[4, 5, 4, 5, 4, 5, 4]),
    (Kernel::Copy, &[2, 4], &[], &[0, 0, 0, 0, 0, 0]),
    (Kernel::Source, &[1, 3], &[7, 8, 9], &[7, 8, 9, 0]),
    (Kernel::Sink, &[2], &[7, 8, 9], &[0, 0]),
];

#[test]
fn gives_values(rt: HostRuntime) -> Result<(), Fail> {
    for (kernel, counts, inputs, wanted) in &VALUES {
        gives(&rt, rt.alloc(), *kernel, *counts, *inputs, *wanted)?;
    }
    Ok(())
}

/// Gives so many times the same output.
fn gives_the_same(
    rt: &impl Abort,
    alloc: Global,
    kernel: Kernel,
    counts: &[u32],
    inputs: &[i32],
    output: i32,
) -> Result<(), Fail> {
    let wanted = vec![in alloc; output; 8192]?;
    gives(rt, alloc, kernel, counts, inputs, &wanted)
}

/// Gives the same output to as many and as great counts as there may be.
fn gives_to_all(
    rt: &impl Abort,
    alloc: Global,
    kernel: Kernel,
    inputs: &[i32],
    output: i32,
) -> Result<(), Fail> {
    let counts = vec![in alloc; 64u32; 128]?;
    gives_the_same(rt, alloc, kernel, &counts, inputs, output)
}

/// As many and as great counts, inputs, weights, taps and shift as there may be. With k inputs left, at
/// most 16 of them in reach, a sum of products is k * 2^62, and k * 2^31 once it is shifted: it clamps.
#[test]
fn meets_the_limits(rt: HostRuntime) -> Result<(), Fail> {
    let alloc = rt.alloc();
    let low = i32::MIN;
    let inputs = vec![in alloc; low; 8192]?;
    let kernel = Kernel::Fir {
        weights: [low; 16],
        taps: 16,
        shift: 31,
    };
    gives_to_all(&rt, alloc, kernel, &inputs, i32::MAX)?;
    gives_to_all(&rt, alloc, Kernel::Sum, &inputs, low)
}
