//! Whole lists of moves.

ghost use Rattle.std.specs.Prelude.{◌≡◌, ◌<◌, ◌≤◌, ℕ, [], All, map, length, slice_index, IfOk, OnErr};
ghost use Rattle.csdf_core.specs.Shows.{Shows, Follows, IsRun, Plays, PlayedSome, replies_in, as_reply};
ghost use Rattle.csdf_core.specs.Moves.{Read, move_of};
ghost use Rattle.csdf_core.specs.Planned.{plan_for};
ghost use Rattle.csdf_core.specs.State.{opening};
ghost use Rattle.csdf_core.specs.Step.{replies_of, state_after};
ghost use Rattle.csdf_core.specs.Streams.{peak_of};
ghost use Rattle.csdf_core.specs.Ever.{EndsPeriods};
ghost use Rattle.csdf_core.specs.Headline.{KeepsOrder, KeepsCapacities, KeepsClosed};

use crate::firing_core::Core;
use crate::moves::Move;
use crate::refusal::Refusal;
use csdf_analysis::Accepted;
use csdf_model::MAX_FIRINGS_PER_ACTOR;
use std::alloc::{AllocError, Global};

/// The answer to a move: the tokens that a read handed out, none for any other move.
pub type Reply = Result<Vec<i32>, Refusal>;

/// The reply to a move that hands out no tokens.
fn reply_to(alloc: Global, answer: Result<(), Refusal>) -> Reply
    ensures { as_reply (λ tokens. tokens.items) result ≡ as_reply (λ _. []) answer }
{
    match answer {
        Ok(()) => Ok(Vec::new(alloc)),
        Err(refusal) => Err(refusal),
    }
}

/// Reads into a list of its own.
fn read_all(core: &mut Core, alloc: Global, actor: u32) -> Result<Reply, AllocError>
    ensures step { IfOk result (λ reply. Follows core.old core.new (Read actor) (as_reply (λ tokens. tokens.items) reply)) }
    ensures same { OnErr result (core.new ≡ core.old) }
{
    let mut tokens = vec![in alloc; 0; core.need(actor)]?;
    match core.read(actor, &mut tokens) {
        Ok(n) => {
            tokens.truncate(n);
            Ok(Ok(tokens))
        }
        Err(refusal) => Ok(Err(refusal)),
    }
}

/// Makes one move.
fn play_one(core: &mut Core, alloc: Global, next: &Move) -> Result<Reply, AllocError>
    ensures step { IfOk result (λ reply. Follows core.old core.new (move_of next.now) (as_reply (λ tokens. tokens.items) reply)) }
    ensures same { OnErr result (core.new ≡ core.old) }
{
    match next {
        Move::Begin(actor) => Ok(reply_to(alloc, core.begin(*actor))),
        Move::Read(actor) => read_all(core, alloc, *actor),
        Move::Write(actor, tokens) => Ok(reply_to(alloc, core.write(*actor, tokens.as_slice()))),
        Move::Finish(actor) => Ok(reply_to(alloc, core.finish(*actor))),
        Move::Close(channel) => Ok(reply_to(alloc, core.close(*channel))),
    }
}

/// Makes the moves in order, and answers their replies.
///
/// An error says that memory ran out; then some of the moves were made, from the first on.
pub fn play_on(core: &mut Core, alloc: Global, moves: &[Move]) -> Result<Vec<Reply>, AllocError>
    ensures played { IfOk result (λ replies. Plays core.old core.new (map move_of moves.now) (replies_in replies.items)) }
    ensures some { OnErr result (PlayedSome core.old core.new (map move_of moves.now)) }
{
    let mut replies = Vec::new(alloc);
    for next in moves {
        let reply = play_one(core, alloc, next)?;
        replies.push(reply)?;
    }
    Ok(replies)
}

/// A core, and the replies that it gave.
#[derive(Drop)]
pub struct Played {
    pub core: Core,
    pub replies: Vec<Reply>,
}

/// Makes the moves in order, from the state in which nothing has fired, and answers their replies
/// beside the core that is reached. The core is made as by [`Core::new`].
///
/// The tokens taken from a channel are a prefix of its initial tokens followed by those written to
/// it, in order. No channel holds more than its capacity, and none takes a token after an accepted
/// close. Between any two moves each cell is in exactly one of the chains and the free list. Moves
/// of whole periods, by a schedule of the accepted graph, are all accepted where there are enough
/// cells, and leave the channels as they were at first. An error says that memory ran out.
pub fn play(
    alloc: Global,
    accepted: &Accepted,
    limits: Vec<u32>,
    supply: Vec<u32>,
    firings: Option<u32>,
    moves: &[Move],
) -> Result<Played, AllocError>
    requires limits { length limits.items ≡ length accepted.now.graph.actors }
    requires supply { length supply.items ≡ length accepted.now.graph.actors }
    requires few { All (λ n. n ≤ MAX_FIRINGS_PER_ACTOR) limits.items }
    ensures plan { IfOk result (λ p. p.core.plan ≡ plan_for accepted.now limits.items supply.items firings) }
    ensures replies { IfOk result (λ p. replies_in p.replies.items ≡ replies_of p.core.plan (opening p.core.plan) (map move_of moves.now)) }
    ensures shows { IfOk result (λ p. Shows p.core (state_after p.core.plan (opening p.core.plan) (map move_of moves.now))) }
    ensures peaks { IfOk result (λ p. (c : ℕ) → slice_index p.core.peaks c ≡ peak_of p.core.plan (opening p.core.plan) c (map move_of moves.now)) }
    ensures prefix { IfOk result (λ p. KeepsOrder p.core.plan (map move_of moves.now) (replies_in p.replies.items)) }
    ensures capacity { IfOk result (λ p. KeepsCapacities p.core.plan (map move_of moves.now) (replies_in p.replies.items)) }
    ensures closed { IfOk result (λ p. KeepsClosed p.core.plan (map move_of moves.now) (replies_in p.replies.items)) }
    ensures periods { IfOk result (λ p. EndsPeriods accepted.now p.core.plan p.core.now (map move_of moves.now) (replies_in p.replies.items)) }
    ensures partition { IfOk result (λ p. IsRun p.core (map move_of moves.now) (replies_in p.replies.items)) }
{
    let mut core = Core::new(alloc, accepted, limits, supply, firings)?;
    let replies = play_on(&mut core, alloc, moves)?;
    let _plan = &core.plan;
    Ok(Played { core, replies })
}
