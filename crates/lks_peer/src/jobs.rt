//! The work for which a peer is ready, as jobs, and what a result of such work finds.

ghost use Rattle.std.specs.Prelude.{◌≡◌, ◌↔◌, ◌==◌, ◌&&◌, ◌++◌, ℕ, List, IsTrue, IfOk, IfSome, Some, is_some, All};
ghost use Rattle.std.specs.Prelude.{find, map};
ghost use Rattle.std.specs.List.{filter_map};
ghost use Rattle.lks_audit.specs.Copied.{copies_of};
ghost use Rattle.lks_audit.specs.Copied.{IsOf as IsCopyOf};
ghost use Rattle.lks_audit.specs.Kept.{kept_at, kept_of};
ghost use Rattle.lks_audit.specs.Seen.{poll_of, polls_of, IsOn};
ghost use Rattle.lks_audit.specs.Tallying.{IsTallyIn};
ghost use Rattle.lks_blocks.specs.Block.{AllOf};
ghost use Rattle.lks_law.specs.State.{poll_at};
ghost use Rattle.lks_law.specs.Taking.{pinned_at};
ghost use Rattle.lks_peer.specs.Accepting.{is_poll_ready, is_ready_for, IsJobOf};
ghost use Rattle.lks_peer.specs.Accepting as accepting;
ghost use Rattle.lks_peer.specs.Knows.{state_of, IsTied};
ghost use Rattle.lks_sessions.specs.Kept.{voter_of, IsOf};
ghost use Rattle.lks_sessions.specs.Sendable.{IsSendable};
ghost use Rattle.lks_sessions.specs.Working.{IsVoteIn};
ghost use Rattle.lks_work.specs.Names.{is_left, name_of, refs_of};
ghost use Rattle.lks_work.specs.declared.jobs.JobName.TheVariants as names;

use crate::known::Known;
use lks_audit::{Held, Station, find_poll, tag_ready};
use lks_base::{OutOfMemory, PeerId, PollName, Seq};
use lks_poller::PollSession;
use lks_sessions::{Sessions, tag_waiting};
use lks_versions::{PinTag, Place};
use lks_work::{Job, JobDone, JobName, TallyJob, VoteJob};
use std::alloc::Global;

fn place_of(held: &Held) -> Place
    ensures { result ≡ accepting.place_of held.now }
{
    Place {
        au: held.au,
        first: held.versions.tag(0).first,
    }
}

/// Where the deposits of these copies stand in the pool, in their order.
pub fn places_of(alloc: Global, copies: &[Held]) -> Result<Seq<Place>, OutOfMemory>
    ensures { IfOk result (λ places. places ≡ accepting.places_of copies.now) }
{
    let mut places = Vec::new(alloc);
    for held in copies {
        places.push(place_of(held))?;
    }
    Ok(Seq::from_vec(places))
}

#[tactic(auto, using(crate::proofs::Handing::vote_there, crate::proofs::Handing::vote_named))]
fn vote_job(
    own: &Station,
    sessions: &Sessions,
    places: &[Place],
    peer: PeerId,
    poll: PollName,
) -> Result<Option<VoteJob>, OutOfMemory>
    requires { IsSendable (voter_of sessions.now) }
    ensures ready { IfOk result
        (λ o. is_some o ≡ ((peer == own.now.id) && is_some (pinned_at poll (voter_of sessions.now).pinned))) }
    ensures job { IfOk result
        (λ o. IfSome o
        (λ j. IsVoteIn own.now places.now (pinned_at poll (voter_of sessions.now).pinned) (Some j))) }
    ensures name { IfOk result (λ o. IfSome o (λ j. names.Vote j.peer j.poll ≡ names.Vote peer poll)) }
    ensures of { IfOk result (λ o. IfSome o (λ j. (pool : List ℕ) → IsOf pool sessions.now → AllOf pool j.refs)) }
{
    if peer == own.id {
        lks_sessions::job(own, sessions, places, poll)
    } else {
        Ok(None)
    }
}

#[tactic(auto, using(crate::proofs::Handing::tally_there, crate::proofs::Handing::tally_named))]
fn tally_job(
    alloc: Global,
    own: &Station,
    known: &Known,
    places: &[Place],
    peer: PeerId,
    number: u32,
) -> Result<Option<TallyJob>, OutOfMemory>
    requires { All (IsOn own.now.id (copies_of known.now.copies)) known.now.polls }
    ensures ready { IfOk result
        (λ o. is_some o ≡ ((peer == own.now.id) && is_poll_ready (poll_at number (polls_of known.now.polls)))) }
    ensures job { IfOk result
        (λ o. IfSome o
        (λ j. IsTallyIn own.now places.now (copies_of known.now.copies)
        (poll_at number (polls_of known.now.polls)) (Some j))) }
    ensures kept { IfOk result (λ o. IfSome o (λ j. Some j.tally.kept ≡ kept_at number (kept_of known.now.polls))) }
    ensures name { IfOk result (λ o. IfSome o (λ j. names.Tally j.peer j.number ≡ names.Tally peer number)) }
    ensures of { IfOk result
        (λ o. IfSome o (λ j. (pool : List ℕ) → All (IsCopyOf pool) known.now.copies → AllOf pool j.refs)) }
{
    if peer == own.id {
        known.polls.job(alloc, own, &known.copies, places, number)
    } else {
        Ok(None)
    }
}

/// The tally of this poll, if the peer is ready for it.
fn tally_in(id: PeerId, poll: &PollSession) -> Option<JobName>
    ensures { result ≡ accepting.tally_in id (poll_of poll.now) }
{
    if poll.is_shut() && poll.unanswered().is_none() {
        Some(JobName::Tally {
            peer: id,
            number: poll.poll().number,
        })
    } else {
        None
    }
}

fn tally_left(id: PeerId, polls: &[PollSession], out: &[JobName]) -> Option<JobName>
    ensures { result ≡ find (is_left out.now) (filter_map (λ s. accepting.tally_in id (poll_of s)) polls.now) }
{
    for poll in polls {
        if let Some(name) = tally_in(id, poll) {
            if name.is_left(out) {
                return Some(name);
            }
        }
    }
    None
}

/// The first work, votes before tallies, for which the peer is ready and whose job is none of these.
#[tactic(auto, using(crate::proofs::Listing::left_front, crate::proofs::Listing::left_behind))]
pub fn work_left(id: PeerId, known: &Known, out: &[JobName]) -> Option<JobName>
    ensures { result
        ≡ find (is_left out.now)
        (map (λ p. names.Vote id p.committed.joined.poll) (voter_of known.now.sessions).pinned
        ++ filter_map (accepting.tally_in id) (polls_of known.now.polls)) }
{
    match known.sessions.vote_left(id, out) {
        Some(name) => Some(name),
        None => tally_left(id, known.polls.as_slice(), out),
    }
}

/// The work of this name as a job, if the peer is ready for it.
pub fn job(
    alloc: Global,
    own: &Station,
    known: &Known,
    places: &[Place],
    name: &JobName,
) -> Result<Option<Job>, OutOfMemory>
    requires on { All (IsOn own.now.id (copies_of known.now.copies)) known.now.polls }
    requires sendable { IsSendable (voter_of known.now.sessions) }
    ensures ready { IfOk result (λ o. is_some o ≡ is_ready_for own.now (state_of known.now) name.now) }
    ensures job { IfOk result
        (λ o. IfSome o (IsJobOf own.now (state_of known.now) (kept_of known.now.polls) places.now name.now)) }
    ensures name { IfOk result (λ o. IfSome o (λ j. name_of j ≡ name.now)) }
    ensures of { IfOk result
        (λ o. IfSome o (λ j. (id : ℕ) (pool : List ℕ) → IsTied id pool known.now → AllOf pool (refs_of j))) }
{
    match name {
        JobName::Vote { peer, poll } => {
            let job = vote_job(own, &known.sessions, places, *peer, *poll)?;
            Ok(job.map(Job::Vote))
        }
        JobName::Tally { peer, number } => {
            let job = tally_job(alloc, own, known, places, *peer, *number)?;
            Ok(job.map(Job::Tally))
        }
    }
}

/// The name of the version for which the peer is ready for work such as this, none where it isn't ready.
pub fn tag_for(known: &Known, places: &[Place], done: &JobDone) -> Option<PinTag>
    ensures { result ≡ accepting.tag_for (state_of known.now) places.now done.now }
{
    match done {
        JobDone::Vote(done) => tag_waiting(&known.sessions, places, done.job.poll),
        JobDone::Tally(done) => match find_poll(known.polls.as_slice(), done.job.number) {
            Some(poll) => tag_ready(&known.copies, places, poll),
            None => None,
        },
    }
}

/// Whether the version that is expected is the one of this name.
pub fn is_tag(expected: Option<PinTag>, found: PinTag) -> bool
    ensures { IsTrue result ↔ (expected ≡ Some found) }
{
    match expected {
        Some(tag) => tag == found,
        None => false,
    }
}
