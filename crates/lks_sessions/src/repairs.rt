//! What a peer adds and sends for a request for a repair, and at the end of a session.

ghost use Rattle.std.specs.Prelude.{◌≡◌, ◌≤◌, Some, IfOk, length};
ghost use Rattle.lks_base.specs.declared.limits.TheConstants.{LAST_BLOCK, MOST_BLOCK_BYTES};
ghost use Rattle.lks_blocks.specs.Block.{AllOf};
ghost use Rattle.lks_law.specs.Answering.{end_in, request_at, request_in};
ghost use Rattle.lks_law.specs.Fitting.{IsCastWell};
ghost use Rattle.lks_law.specs.Voting.{gives, repair};
ghost use Rattle.lks_sessions.specs.Kept.{cast_of, voter_of, IsOf};
ghost use Rattle.lks_sessions.specs.Sendable.{IsSendable};

use crate::sessions::Sessions;
use crate::stages::CastSession;
use lks_audit::letters::write;
use lks_audit::reactions::{adding, no_reaction, no_sends, sending};
use lks_base::{Contents, Message, OutOfMemory, Outgoing, PollName, Reaction, Record, Seq};
use lks_blocks::BlockPool;
use lks_versions::Newest;
use lks_voter::Serve;
use std::alloc::Global;

fn write_repair(
    alloc: Global,
    poll: PollName,
    block: u16,
    bytes: &[u8],
) -> Result<Outgoing, OutOfMemory>
    requires block { block ≤ LAST_BLOCK }
    requires bytes { length bytes.now ≤ MOST_BLOCK_BYTES }
    ensures { IfOk result (λ o. o ≡ repair poll block bytes.now) }
{
    let message = Message::Repair {
        number: poll.number,
        block,
        bytes: Seq::from_vec(bytes.to_vec(alloc)?),
    };
    write(alloc, &message, poll.poller)
}

fn give(
    alloc: Global,
    poll: PollName,
    block: u16,
    bytes: &[u8],
    answer: Serve,
) -> Result<Reaction, OutOfMemory>
    requires block { block ≤ LAST_BLOCK }
    requires bytes { length bytes.now ≤ MOST_BLOCK_BYTES }
    ensures { IfOk result (λ r. r ≡ gives poll block bytes.now answer) }
{
    match answer {
        Serve::First => {
            let mut sends = Vec::new(alloc);
            sends.push(write_repair(alloc, poll, block, bytes)?)?;
            adding(alloc, Record::Served { poll, block }, Seq::from_vec(sends))
        }
        Serve::Again => sending(alloc, write_repair(alloc, poll, block, bytes)?),
        Serve::Spent => Ok(no_reaction(alloc)),
    }
}

#[tactic(auto, using(crate::proofs::Sending::short_at, std::proofs::lemmas::Option::slice_get_past))]
fn serve(
    alloc: Global,
    pool: &BlockPool,
    session: &CastSession,
    poll: PollName,
    block: u16,
) -> Result<Reaction, OutOfMemory>
    requires of { AllOf pool.now session.now.refs }
    requires sendable { IsCastWell (cast_of session.now) }
    ensures { IfOk result (λ r. r ≡ request_at poll block (Some (cast_of session.now))) }
{
    let version = Newest::new(pool, session.refs.as_slice());
    if version.count() <= block {
        return Ok(no_reaction(alloc));
    }
    let answer = session.voted.answer(block, session.repairs);
    give(alloc, poll, block, version.block(block), answer)
}

/// Gives the poller a block of the version on which the peer voted: one that it gave before, or one more while it may.
#[tactic(auto, unfolding(lks_law::specs::Answering::request_in))]
pub fn answer_request(
    alloc: Global,
    pool: &BlockPool,
    sessions: &Sessions,
    poll: PollName,
    block: u16,
) -> Result<Reaction, OutOfMemory>
    requires of { IsOf pool.now sessions.now }
    requires sendable { IsSendable (voter_of sessions.now) }
    ensures { IfOk result (λ r. r ≡ request_in (voter_of sessions.now) poll block) }
{
    match sessions.find_cast(poll) {
        Some(session) => serve(alloc, pool, session, poll, block),
        None => Ok(no_reaction(alloc)),
    }
}

/// Ends a session that is open.
#[tactic(auto, unfolding(lks_law::specs::Answering::end_in))]
pub fn end(alloc: Global, sessions: &Sessions, poll: PollName) -> Result<Reaction, OutOfMemory>
    ensures { IfOk result (λ r. r ≡ end_in (voter_of sessions.now) poll) }
{
    if sessions.is_open(poll) {
        adding(alloc, Record::Ended { poll }, no_sends(alloc))
    } else {
        Ok(no_reaction(alloc))
    }
}
