//! The vote in a session as a job: what leaves the peer, and what becomes of it once it was hashed.

ghost use Rattle.std.specs.Prelude.{◌≡◌, ◌≤◌, ℕ, List, IfOk, IfSome, length};
ghost use Rattle.std.specs.Bool.{OnTrue};
ghost use Rattle.lks_base.specs.declared.limits.TheConstants.{MOST_PROOF_BYTES};
ghost use Rattle.lks_blocks.specs.Block.{AllOf};
ghost use Rattle.lks_law.specs.Answering.{hashes_for, work_in};
ghost use Rattle.lks_law.specs.Fitting.{IsPinnedWell};
ghost use Rattle.lks_law.specs.Taking.{pinned_at};
ghost use Rattle.lks_law.specs.Voting.{votes_with};
ghost use Rattle.lks_sessions.specs.Kept.{pinned_of, voter_of, IsOf};
ghost use Rattle.lks_sessions.specs.Sendable.{IsSendable};
ghost use Rattle.lks_sessions.specs.Working as working;
ghost use Rattle.lks_sessions.specs.Working.{IsJobOf, IsVoteIn, IsVoteOf};

use crate::sessions::Sessions;
use crate::stages::PinnedSession;
use crate::votes::{vote, vote_with};
use lks_audit::Station;
use lks_audit::reactions::no_reaction;
use lks_base::{OutOfMemory, PollName, Reaction};
use lks_blocks::{BlockPool, Refs};
use lks_versions::{PinTag, Place, tag_at};
use lks_work::{VoteDone, VoteJob};
use std::alloc::Global;

fn tag_of(places: &[Place], session: &PinnedSession) -> PinTag
    ensures { result ≡ working.tag_of places.now (pinned_of session.now) }
{
    let committed = &session.committed;
    tag_at(places, committed.joined().au(), committed.version())
}

/// The name of the version over which the session of a poll has still to vote, none where no session has.
pub fn tag_waiting(sessions: &Sessions, places: &[Place], poll: PollName) -> Option<PinTag>
    ensures { result ≡ working.tag_waiting places.now (pinned_at poll (voter_of sessions.now).pinned) }
{
    match sessions.find_pinned(poll) {
        Some(session) => Some(tag_of(places, session)),
        None => None,
    }
}

/// The vote in a committed session over these blocks, under this name of its version.
pub fn job_of(own: &Station, session: &PinnedSession, tag: PinTag, refs: Refs) -> VoteJob
    requires { length refs ≤ 65535 }
    ensures job { IsJobOf own.now session.now refs result }
    ensures tag { result.tag ≡ tag }
{
    let committed = &session.committed;
    VoteJob {
        peer: own.id,
        poll: committed.joined().poll(),
        au: committed.joined().au(),
        kind: committed.kind(),
        nonce: *committed.nonce(),
        tag,
        refs,
    }
}

#[tactic(auto, using(lks_blocks::proofs::Bytes::bytes_count))]
fn job_pinned(
    own: &Station,
    places: &[Place],
    session: &PinnedSession,
) -> Result<VoteJob, OutOfMemory>
    requires { IsPinnedWell (pinned_of session.now) }
    ensures job { IfOk result (IsVoteOf own.now places.now (pinned_of session.now)) }
    ensures refs { IfOk result (λ j. j.refs ≡ session.now.refs) }
{
    let tag = tag_of(places, session);
    Ok(job_of(own, session, tag, session.refs.clone()?))
}

/// The vote in the session of a poll as a job, if the session is committed and has still to vote.
pub fn job(
    own: &Station,
    sessions: &Sessions,
    places: &[Place],
    poll: PollName,
) -> Result<Option<VoteJob>, OutOfMemory>
    requires sendable { IsSendable (voter_of sessions.now) }
    ensures job { IfOk result (IsVoteIn own.now places.now (pinned_at poll (voter_of sessions.now).pinned)) }
    ensures of { IfOk result (λ o. IfSome o (λ j. (pool : List ℕ) → IsOf pool sessions.now → AllOf pool j.refs)) }
{
    match sessions.find_pinned(poll) {
        Some(session) => Ok(Some(job_pinned(own, places, session)?)),
        None => Ok(None),
    }
}

/// Whether a vote is that of this peer in a session, over the blocks that it keeps.
fn is_same(own: &Station, pool: &BlockPool, session: &PinnedSession, job: &VoteJob) -> bool
    requires of { AllOf pool.now session.now.refs }
    requires refs { AllOf pool.now job.now.refs }
    ensures { OnTrue result (IsJobOf own.now session.now session.now.refs job.now) }
{
    let committed = &session.committed;
    job.peer == own.id
        && job.poll == committed.joined().poll()
        && job.au == committed.joined().au()
        && job.kind == committed.kind()
        && job.nonce == *committed.nonce()
        && pool.same_blocks(job.refs.as_slice(), session.refs.as_slice())
}

#[tactic(auto, using(crate::proofs::Sending::vote_seen, crate::proofs::Sending::vote_count))]
fn vote_done(
    alloc: Global,
    pool: &BlockPool,
    own: &Station,
    session: &PinnedSession,
    done: VoteDone,
) -> Result<Reaction, OutOfMemory>
    requires of { AllOf pool.now session.now.refs }
    requires counted { IsPinnedWell (pinned_of session.now) }
    requires proof { length own.now.proof ≤ MOST_PROOF_BYTES }
    requires refs { AllOf pool.now done.job.refs }
    ensures { IfOk result (λ r. r ≡ votes_with own.now done.job.poll (hashes_for own.now (pinned_of session.now))) }
{
    let poll = done.job.poll;
    if is_same(own, pool, session, &done.job) {
        vote_with(alloc, own, poll, done.hashes)
    } else {
        vote(alloc, pool, own, session, poll)
    }
}

/// Votes in the committed session of the poll in which this vote was hashed elsewhere. Where it isn't the vote of this
/// session, the blocks are hashed here.
#[tactic(auto, unfolding(lks_law::specs::Answering::work_in))]
pub fn accept(
    alloc: Global,
    pool: &BlockPool,
    own: &Station,
    sessions: &Sessions,
    done: VoteDone,
) -> Result<Reaction, OutOfMemory>
    requires of { IsOf pool.now sessions.now }
    requires sendable { IsSendable (voter_of sessions.now) }
    requires proof { length own.now.proof ≤ MOST_PROOF_BYTES }
    requires refs { AllOf pool.now done.job.refs }
    ensures { IfOk result (λ r. r ≡ work_in own.now (voter_of sessions.now) done.job.poll) }
{
    match sessions.find_pinned(done.job.poll) {
        Some(session) => vote_done(alloc, pool, own, session, done),
        None => Ok(no_reaction(alloc)),
    }
}
