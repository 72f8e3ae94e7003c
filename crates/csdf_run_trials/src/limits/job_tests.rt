//! The values of kernels.

ghost use Rattle.std.specs.Prelude.{◌≡◌, ◌≤◌, All, IfOk, length};
ghost use Rattle.csdf_floor.specs.Floor.{IsReady};

use crate::limits::rows::expect_eq;
use csdf_kernel::{Counts, Inputs, Job, Outputs, eval, eval_block, eval_into};
use csdf_model::{Kernel, MAX_TOKENS_PER_FIRING, MAX_TOTAL_PER_FIRING};
use std::alloc::{AllocError, Global};
use std::process::Abort;
use std::test::Fail;

/// The same count for each of some outputs.
fn counts_of(alloc: Global, outputs: u32, count: u32) -> Result<Counts, AllocError>
    requires few { outputs ≤ 128 }
    requires small { count ≤ MAX_TOKENS_PER_FIRING }
    ensures few { IfOk result (λ counts. length counts.items ≤ 128) }
    ensures small { IfOk result (λ counts. All (λ n. n ≤ MAX_TOKENS_PER_FIRING) counts.items) }
{
    let counts = vec![in alloc; count; outputs as usize]?;
    Counts::from_slice(alloc, &counts)
}

/// So many tokens.
fn inputs_of(alloc: Global, tokens: u32) -> Result<Inputs, AllocError>
    requires { tokens ≤ MAX_TOTAL_PER_FIRING }
    ensures { IfOk result (λ inputs. length inputs.items ≤ MAX_TOTAL_PER_FIRING) }
{
    let inputs = vec![in alloc; 7; tokens as usize]?;
    Inputs::from_slice(alloc, &inputs)
}

/// A source's job over as many tokens as it gives.
fn job_of(alloc: Global, outputs: u32, count: u32, tokens: u32) -> Result<Job, AllocError>
    requires few { outputs ≤ 128 }
    requires small { count ≤ MAX_TOKENS_PER_FIRING }
    requires tokens { tokens ≤ MAX_TOTAL_PER_FIRING }
    ensures { IfOk result IsReady }
{
    let counts = counts_of(alloc, outputs, count)?;
    let inputs = inputs_of(alloc, tokens)?;
    Ok(Job {
        kernel: Kernel::Source,
        actor: 0,
        firing: 0,
        counts,
        inputs,
    })
}

fn check_job(rt: &impl Abort, alloc: Global, job: Job, tokens: u32) -> Result<(), Fail>
    requires { IsReady job }
{
    let mut outputs = Outputs::new(alloc);
    eval_into(&job, &mut outputs)?;
    expect_eq(rt, outputs.len(), tokens as usize);
    match eval(alloc, job) {
        Ok(done) => expect_eq(rt, done.outputs().len(), tokens as usize),
        Err((_, fault)) => return Err(fault.into()),
    }
    Ok(())
}

#[test]
fn jobs_of_each_size_are_done(rt: HostRuntime) -> Result<(), Fail> {
    check_job(&rt, rt.alloc(), job_of(rt.alloc(), 1, 1, 1)?, 1)?;
    check_job(&rt, rt.alloc(), job_of(rt.alloc(), 32, 8, 256)?, 256)?;
    check_job(&rt, rt.alloc(), job_of(rt.alloc(), 128, 64, 8_192)?, 8_192)
}

/// A block of a copy's firings of one token each.
fn check_block(rt: &impl Abort, alloc: Global, firings: u32) -> Result<(), Fail> {
    let inputs = vec![in alloc; 7; firings as usize]?;
    let mut outputs = Outputs::new(alloc);
    eval_block(&Kernel::Copy, &[1], 1, firings, &inputs, &mut outputs)?;
    expect_eq(rt, outputs.len(), firings as usize);
    Ok(())
}

#[test]
fn blocks_of_each_length_are_done(rt: HostRuntime) -> Result<(), Fail> {
    check_block(&rt, rt.alloc(), 1)?;
    check_block(&rt, rt.alloc(), 1_024)?;
    check_block(&rt, rt.alloc(), 65_535)
}
