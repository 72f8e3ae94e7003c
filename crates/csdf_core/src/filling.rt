//! What a core has before its first move.

ghost use Rattle.std.specs.Prelude.{◌≡◌, length, map, replicate, true, IfOk};
ghost use Rattle.csdf_core.specs.Plan.{Channel as ChannelModel};
ghost use Rattle.csdf_core.specs.Playable.{IsPlayable};
ghost use Rattle.csdf_core.specs.Ports.{tokens_in};
ghost use Rattle.csdf_core.specs.Shows.{AreSharedOut};
ghost use Rattle.csdf_core.specs.Transfers.{opening_pool};
ghost use Rattle.csdf_core.specs.declared.stage.Stage.TheVariants.{Idle};

use crate::plan::Plan;
use crate::stage::Stage;
use crate::transfer::put_tokens;
use csdf_pool::Pool;
use std::alloc::{AllocError, Global};

/// A pool of the plan's cells, where each channel holds its initial tokens.
///
/// An error says that memory ran out.
pub(crate) fn filled_pool(alloc: Global, plan: &Plan) -> Result<Pool, AllocError>
    requires { IsPlayable plan.now }
    ensures tokens { IfOk result (λ pool. tokens_in pool ≡ map (λ (c : ChannelModel). c.initial) plan.now.channels) }
    ensures shared_out { IfOk result (AreSharedOut plan.now) }
    ensures cells { IfOk result (λ pool. pool ≡ opening_pool plan.now) }
{
    let mut pool = Pool::new(alloc, plan.cells(), plan.channels() as u32)?;
    for channel in 0..plan.channels() as u32 {
        put_tokens(&mut pool, channel, plan.initial(channel));
    }
    Ok(pool)
}

/// How many tokens each channel holds.
///
/// An error says that memory ran out.
pub(crate) fn lengths_of(alloc: Global, pool: &Pool, channels: u32) -> Result<Vec<u32>, AllocError>
    requires { channels ≡ length pool.now.chains }
    ensures { IfOk result (λ lengths. lengths.items ≡ map length (tokens_in pool.now)) }
{
    let mut lengths = Vec::new(alloc);
    for channel in 0..channels {
        lengths.push(pool.len(channel))?;
    }
    Ok(lengths)
}

/// The lists of a core in which nothing has fired.
#[derive(Drop)]
pub(crate) struct Blank {
    pub(crate) stages: Vec<Stage>,
    pub(crate) opens: Vec<bool>,
    pub(crate) sums: Vec<u64>,
}

/// The lists of the plan's actors and channels.
///
/// An error says that memory ran out.
pub(crate) fn blank_lists(alloc: Global, plan: &Plan) -> Result<Blank, AllocError>
    ensures stages { IfOk result (λ blank. blank.stages.items ≡ replicate (length plan.now.sources) Idle) }
    ensures opens { IfOk result (λ blank. blank.opens.items ≡ replicate (length plan.now.channels) true) }
    ensures sums { IfOk result (λ blank. blank.sums.items ≡ replicate (length plan.now.sources) 0) }
{
    let (actors, channels) = (plan.actors(), plan.channels());
    Ok(Blank {
        stages: vec![in alloc; Stage::Idle; actors]?,
        opens: vec![in alloc; true; channels]?,
        sums: vec![in alloc; 0; actors]?,
    })
}
