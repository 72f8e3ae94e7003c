//! Jobs that take memory, for `tests/memory/run`: it refuses one allocation after another.

ghost use Rattle.csdf_floor.specs.Floor.{IsReady};

use crate::shared::{done_of, expect_eq, job_of};
use csdf_kernel::{Done, Job, Outputs, eval, eval_into};
use csdf_model::Kernel;
use std::alloc::Global;
use std::process::Abort;
use std::test::Fail;

const OUTPUTS: [i32; 20] = [1, 2, 3, 1, 2, 3, 1, 2, 3, 1, 2, 3, 1, 2, 3, 1, 2, 3, 1, 2];

fn check_job(rt: &impl Abort, job: &Job) {
    assert!(rt; matches!(job.kernel, Kernel::Copy));
    expect_eq(rt, (job.actor, job.firing), (3, 5));
    expect_eq(rt, job.counts.as_slice(), [20].as_slice());
    expect_eq(rt, job.inputs.as_slice(), [1, 2, 3].as_slice());
}

fn check_done(rt: &impl Abort, done: &Done) {
    check_job(rt, done.job());
    expect_eq(rt, done.outputs(), OUTPUTS.as_slice());
}

/// The job that came back is done now.
fn check_done_now(rt: &impl Abort, alloc: Global, job: Job) -> Result<(), Fail>
    requires { IsReady job }
{
    check_job(rt, &job);
    let done = done_of(alloc, job)?;
    check_done(rt, &done);
    Ok(())
}

/// Where memory is wanting the job comes back, and is done once there is some.
#[test]
fn hands_the_job_back(rt: HostRuntime) -> Result<(), Fail> {
    let job = job_of(&rt, rt.alloc(), Kernel::Copy, &[20], &[1, 2, 3])?;
    match eval(rt.alloc(), job) {
        Ok(done) => {
            check_done(&rt, &done);
            Ok(())
        }
        Err((job, _)) => check_done_now(&rt, rt.alloc(), job),
    }
}

/// Puts the value of a job into the outputs.
fn fill(
    rt: &impl Abort,
    alloc: Global,
    kernel: Kernel,
    counts: &[u32],
    inputs: &[i32],
    outputs: &mut Outputs,
) -> Result<(), Fail> {
    let job = job_of(rt, alloc, kernel, counts, inputs)?;
    Ok(eval_into(&job, outputs)?)
}

/// Puts two sums into the outputs.
fn fill_sums(rt: &impl Abort, alloc: Global, outputs: &mut Outputs) -> Result<(), Fail> {
    fill(rt, alloc, Kernel::Sum, &[2], &[5, 6], outputs)?;
    expect_eq(rt, outputs.as_slice(), [11, 11].as_slice());
    Ok(())
}

/// Puts a value in the place of two sums; where memory is wanting, the sums stay.
fn fill_next(rt: &impl Abort, alloc: Global, outputs: &mut Outputs) -> Result<(), Fail> {
    let answer = fill(rt, alloc, Kernel::Copy, &[20], &[1, 2, 3], outputs);
    let wanted = if answer.is_ok() {
        OUTPUTS.as_slice()
    } else {
        [11, 11].as_slice()
    };
    expect_eq(rt, outputs.as_slice(), wanted);
    answer
}

/// One list has the value of one job after another.
#[test]
fn fills_the_outputs_again(rt: HostRuntime) -> Result<(), Fail> {
    let mut outputs = Outputs::new(rt.alloc());
    fill_sums(&rt, rt.alloc(), &mut outputs)?;
    fill_next(&rt, rt.alloc(), &mut outputs)?;
    fill_sums(&rt, rt.alloc(), &mut outputs)
}

fn check_blank(rt: &impl Abort, job: &Job) {
    assert!(rt; matches!(job.kernel, Kernel::Sink));
    expect_eq(rt, (job.actor, job.firing), (0, 0));
}

fn check_empty(rt: &impl Abort, job: &Job, outputs: &mut Outputs) -> Result<(), Fail>
    requires { IsReady job.now }
{
    eval_into(job, outputs)?;
    expect_eq(rt, outputs.len(), 0);
    Ok(())
}

/// A blank job gives nothing.
#[test]
fn begins_with_a_blank_job(rt: HostRuntime) -> Result<(), Fail> {
    let job = Job::blank(rt.alloc());
    check_blank(&rt, &job);
    let mut outputs = Outputs::new(rt.alloc());
    check_empty(&rt, &job, &mut outputs)
}
