//! What a peer adds and sends for a proof of the poller's effort, and for its vote.

ghost use Rattle.std.specs.Prelude.{◌≡◌, ◌≤◌, ◌∷◌, [], None, Some, IfOk, length};
ghost use Rattle.lks_base.specs.declared.limits.TheConstants.{MOST_BLOCKS, MOST_PROOF_BYTES};
ghost use Rattle.lks_base.specs.declared.messages.Message.TheVariants as message;
ghost use Rattle.lks_blocks.specs.Block.{AllOf};
ghost use Rattle.lks_law.specs.Answering.{hashes_for, proof_in, work_in};
ghost use Rattle.lks_law.specs.Fitting.{IsCastWell, IsPinnedWell};
ghost use Rattle.lks_law.specs.Reaction.{letter};
ghost use Rattle.lks_law.specs.Voting.{commits, commits_again, nominates, votes_with};
ghost use Rattle.lks_audit.specs.Copied.{copies_of};
ghost use Rattle.lks_sessions.specs.Kept.{cast_of, pinned_of, voter_of, IsOf};
ghost use Rattle.lks_sessions.specs.Sendable.{IsSendable};

use crate::draws::pick_nominees;
use crate::jobs::job_of;
use crate::sessions::Sessions;
use crate::stages::{CastSession, PinnedSession};
use lks_audit::letters::write;
use lks_audit::reactions::{adding, no_reaction, no_sends, sending, telling};
use lks_audit::{Held, Station, version_of};
use lks_base::{
    HashKind, Hashes, Judged, Message, OutOfMemory, Outgoing, PeerId, PollName, Reaction, Record,
    Seq,
};
use lks_blocks::BlockPool;
use lks_versions::PinTag;
use lks_voter::Committed;
use lks_work::hash_vote;
use std::alloc::Global;

fn write_nomination(
    alloc: Global,
    own: &Station,
    refs: &[PeerId],
    poll: PollName,
) -> Result<Outgoing, OutOfMemory>
    ensures { IfOk result (λ o. o ≡ nominates own.now refs.now poll) }
{
    let message = Message::Nominate {
        number: poll.number,
        nominees: pick_nominees(alloc, own, refs, poll)?,
    };
    write(alloc, &message, poll.poller)
}

fn write_vote(
    alloc: Global,
    own: &Station,
    poll: PollName,
    hashes: &Hashes,
) -> Result<Outgoing, OutOfMemory>
    requires few { length hashes.now ≤ MOST_BLOCKS }
    requires proof { length own.now.proof ≤ MOST_PROOF_BYTES }
    ensures { IfOk result (λ o. o ≡ letter (message.Vote poll.number hashes.now own.now.proof) poll.poller) }
{
    let message = Message::Vote {
        number: poll.number,
        hashes: hashes.clone()?,
        proof: own.proof.clone()?,
    };
    write(alloc, &message, poll.poller)
}

/// A proof of the poller's effort as it came in, and what the judge said of it.
#[derive(Drop)]
pub struct Proof<'a> {
    pub poll: PollName,
    pub nonce: &'a [u8; 32],
    pub kind: HashKind,
    pub judged: Judged,
}

fn commit_to(
    alloc: Global,
    own: &Station,
    refs: &[PeerId],
    version: u32,
    proof: &Proof<'_>,
) -> Result<Reaction, OutOfMemory>
    ensures { IfOk result
        (λ r. r ≡ commits own.now refs.now proof.now.poll version proof.now.nonce.now proof.now.kind Judged.Accepted) }
{
    let item = Record::Committed {
        poll: proof.poll,
        nonce: *proof.nonce,
        version,
        kind: proof.kind,
    };
    let mut sends = Vec::new(alloc);
    sends.push(write_nomination(alloc, own, refs, proof.poll)?)?;
    adding(alloc, item, Seq::from_vec(sends))
}

fn commit(
    alloc: Global,
    own: &Station,
    refs: &[PeerId],
    version: u32,
    proof: &Proof<'_>,
) -> Result<Reaction, OutOfMemory>
    ensures { IfOk result
        (λ r. r ≡ commits own.now refs.now proof.now.poll version proof.now.nonce.now proof.now.kind proof.now.judged) }
{
    match proof.judged {
        Judged::Accepted => commit_to(alloc, own, refs, version, proof),
        Judged::Refused => adding(alloc, Record::Ended { poll: proof.poll }, no_sends(alloc)),
        Judged::NotAsked => Ok(no_reaction(alloc)),
    }
}

fn nominate_again(
    alloc: Global,
    own: &Station,
    refs: &[PeerId],
    committed: &Committed,
    proof: &Proof<'_>,
) -> Result<Reaction, OutOfMemory>
    ensures { IfOk result
        (λ r. r
        ≡ commits_again own.now refs.now proof.now.poll committed.now.commitment proof.now.nonce.now
        proof.now.kind None) }
{
    if !committed.repeats(proof.nonce, proof.kind) {
        return Ok(no_reaction(alloc));
    }
    sending(alloc, write_nomination(alloc, own, refs, proof.poll)?)
}

fn vote_again(
    alloc: Global,
    own: &Station,
    refs: &[PeerId],
    session: &CastSession,
    proof: &Proof<'_>,
) -> Result<Reaction, OutOfMemory>
    requires sendable { IsCastWell (cast_of session.now) }
    requires proof { length own.now.proof ≤ MOST_PROOF_BYTES }
    ensures { IfOk result
        (λ r. r
        ≡ commits_again own.now refs.now proof.now.poll session.now.voted.committed.commitment proof.now.nonce.now
        proof.now.kind (Some session.now.voted.hashes)) }
{
    if !session.voted.committed().repeats(proof.nonce, proof.kind) {
        return Ok(no_reaction(alloc));
    }
    let mut sends = Vec::new(alloc);
    sends.push(write_nomination(alloc, own, refs, proof.poll)?)?;
    sends.push(write_vote(alloc, own, proof.poll, session.voted.hashes())?)?;
    Ok(telling(alloc, Seq::from_vec(sends)))
}

/// Takes the poller's proof of effort. One that is accepted commits a joined session to the newest version, and one
/// that is refused ends it. One that repeats the commitment of a session is answered again, with the vote if there is
/// one.
#[tactic(auto, unfolding(lks_law::specs::Answering::proof_in))]
pub fn answer_proof(
    alloc: Global,
    own: &Station,
    sessions: &Sessions,
    copies: &[Held],
    refs: &[PeerId],
    proof: &Proof<'_>,
) -> Result<Reaction, OutOfMemory>
    requires proof { length own.now.proof ≤ MOST_PROOF_BYTES }
    requires sendable { IsSendable (voter_of sessions.now) }
    ensures { IfOk result
        (λ r. r
        ≡ proof_in own.now (voter_of sessions.now) (copies_of copies.now) refs.now proof.now.poll proof.now.nonce.now
        proof.now.kind proof.now.judged) }
{
    if let Some(session) = sessions.find_joined(proof.poll) {
        let version = version_of(copies, session.joined.au());
        return commit(alloc, own, refs, version, proof);
    }
    if let Some(session) = sessions.find_pinned(proof.poll) {
        return nominate_again(alloc, own, refs, &session.committed, proof);
    }
    match sessions.find_cast(proof.poll) {
        Some(session) => vote_again(alloc, own, refs, session, proof),
        None => Ok(no_reaction(alloc)),
    }
}

/// The hashes of the vote in a committed session, over the blocks that it keeps.
#[tactic(auto, unfolding(lks_law::specs::Answering::hashes_for), using(lks_blocks::proofs::Bytes::bytes_count, crate::proofs::Sending::vote_seen, crate::proofs::Sending::vote_count))]
fn hash_pinned(
    alloc: Global,
    pool: &BlockPool,
    own: &Station,
    session: &PinnedSession,
) -> Result<Hashes, OutOfMemory>
    requires of { AllOf pool.now session.now.refs }
    requires counted { IsPinnedWell (pinned_of session.now) }
    ensures hashes { IfOk result (λ hashes. hashes ≡ hashes_for own.now (pinned_of session.now)) }
    ensures few { IfOk result (λ hashes. length hashes ≤ MOST_BLOCKS) }
{
    let tag = PinTag {
        first: 0,
        version: session.committed.version(),
    };
    let job = job_of(own, session, tag, session.refs.clone()?);
    match hash_vote(alloc, pool, job) {
        Ok(done) => Ok(done.hashes),
        Err(_job) => Err(OutOfMemory),
    }
}

/// Votes with these hashes.
pub(crate) fn vote_with(
    alloc: Global,
    own: &Station,
    poll: PollName,
    hashes: Hashes,
) -> Result<Reaction, OutOfMemory>
    requires few { length hashes ≤ MOST_BLOCKS }
    requires proof { length own.now.proof ≤ MOST_PROOF_BYTES }
    ensures { IfOk result (λ r. r ≡ votes_with own.now poll hashes) }
{
    let mut sends = Vec::new(alloc);
    sends.push(write_vote(alloc, own, poll, &hashes)?)?;
    adding(alloc, Record::Voted { poll, hashes }, Seq::from_vec(sends))
}

/// Votes in this session with the hashes of the blocks that it keeps.
pub(crate) fn vote(
    alloc: Global,
    pool: &BlockPool,
    own: &Station,
    session: &PinnedSession,
    poll: PollName,
) -> Result<Reaction, OutOfMemory>
    requires of { AllOf pool.now session.now.refs }
    requires counted { IsPinnedWell (pinned_of session.now) }
    requires proof { length own.now.proof ≤ MOST_PROOF_BYTES }
    ensures { IfOk result (λ r. r ≡ votes_with own.now poll (hashes_for own.now (pinned_of session.now))) }
{
    let hashes = hash_pinned(alloc, pool, own, session)?;
    vote_with(alloc, own, poll, hashes)
}

/// Votes in a committed session.
#[tactic(auto, unfolding(lks_law::specs::Answering::work_in))]
pub fn work(
    alloc: Global,
    pool: &BlockPool,
    own: &Station,
    sessions: &Sessions,
    poll: PollName,
) -> Result<Reaction, OutOfMemory>
    requires of { IsOf pool.now sessions.now }
    requires sendable { IsSendable (voter_of sessions.now) }
    requires proof { length own.now.proof ≤ MOST_PROOF_BYTES }
    ensures { IfOk result (λ r. r ≡ work_in own.now (voter_of sessions.now) poll) }
{
    match sessions.find_pinned(poll) {
        Some(session) => vote(alloc, pool, own, session, poll),
        None => Ok(no_reaction(alloc)),
    }
}
