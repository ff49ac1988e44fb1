//! What a peer adds and sends in one of its polls, if it runs.

ghost use Rattle.std.specs.Prelude.{◌≡◌, ◌≤◌, ℕ, List, All, IfOk, length};
ghost use Rattle.lks_base.specs.declared.limits.TheConstants.{MOST_PROOF_BYTES};
ghost use Rattle.lks_law.specs.Reacting.{for_poll, widen_in, shut_in, nudge_in, give_up_in, challenge_in, nominate_in};
ghost use Rattle.lks_law.specs.Reacting.{vote_in_poll};
ghost use Rattle.lks_law.specs.State.{Copy, poll_at};
ghost use Rattle.lks_audit.specs.Seen.{polls_of, IsOn};
ghost use Rattle.lks_peer.specs.Knows.{AsksSmall};

use lks_audit::reactions::no_reaction;
use lks_audit::{Station, find_poll, reminders, voting};
use lks_base::{Hashes, Ids, Judged, OutOfMemory, PeerId, Reaction};
use lks_poller::PollSession;
use std::alloc::Global;

/// Invites the outer circle.
pub fn widen(
    alloc: Global,
    own: &Station,
    polls: &[PollSession],
    number: u32,
) -> Result<Reaction, OutOfMemory>
    ensures { IfOk result (λ r. r ≡ for_poll (poll_at number (polls_of polls.now)) (widen_in own.now)) }
{
    match find_poll(polls, number) {
        Some(poll) => voting::widen(alloc, own, poll),
        None => Ok(no_reaction(alloc)),
    }
}

/// Ends voting.
pub fn shut(
    alloc: Global,
    own: &Station,
    polls: &[PollSession],
    tick: u32,
    number: u32,
) -> Result<Reaction, OutOfMemory>
    ensures { IfOk result (λ r. r ≡ for_poll (poll_at number (polls_of polls.now)) (shut_in own.now tick)) }
{
    match find_poll(polls, number) {
        Some(poll) => voting::shut(alloc, own, tick, poll),
        None => Ok(no_reaction(alloc)),
    }
}

/// Reminds of what the poll waits for.
#[tactic(auto, using(crate::proofs::Asking::small_request))]
pub fn nudge(alloc: Global, polls: &[PollSession], number: u32) -> Result<Reaction, OutOfMemory>
    requires { AsksSmall (poll_at number (polls_of polls.now)) }
    ensures { IfOk result (λ r. r ≡ for_poll (poll_at number (polls_of polls.now)) nudge_in) }
{
    match find_poll(polls, number) {
        Some(poll) => reminders::nudge(alloc, poll),
        None => Ok(no_reaction(alloc)),
    }
}

/// Gives up the request that the poll waits for.
pub fn give_up(alloc: Global, polls: &[PollSession], number: u32) -> Result<Reaction, OutOfMemory>
    ensures { IfOk result (λ r. r ≡ for_poll (poll_at number (polls_of polls.now)) give_up_in) }
{
    match find_poll(polls, number) {
        Some(poll) => reminders::give_up(alloc, poll),
        None => Ok(no_reaction(alloc)),
    }
}

/// Answers a challenge by the proof of effort.
pub fn prove(
    alloc: Global,
    own: &Station,
    polls: &[PollSession],
    number: u32,
    from: PeerId,
    yes: bool,
) -> Result<Reaction, OutOfMemory>
    requires { length own.now.proof ≤ MOST_PROOF_BYTES }
    ensures { IfOk result (λ r. r ≡ for_poll (poll_at number (polls_of polls.now)) (challenge_in own.now from yes)) }
{
    match find_poll(polls, number) {
        Some(poll) => voting::prove(alloc, own, poll, from, yes),
        None => Ok(no_reaction(alloc)),
    }
}

/// Takes a nomination.
pub fn nominate(
    alloc: Global,
    polls: &[PollSession],
    number: u32,
    from: PeerId,
    nominees: &Ids,
) -> Result<Reaction, OutOfMemory>
    ensures { IfOk result (λ r. r ≡ for_poll (poll_at number (polls_of polls.now)) (nominate_in from nominees.now)) }
{
    match find_poll(polls, number) {
        Some(poll) => voting::nominate(alloc, poll, from, nominees),
        None => Ok(no_reaction(alloc)),
    }
}

/// Takes a vote.
pub fn vote(
    alloc: Global,
    polls: &[PollSession],
    number: u32,
    from: PeerId,
    hashes: &Hashes,
    judged: Judged,
) -> Result<Reaction, OutOfMemory>
    ensures { (id : ℕ) (copies : List Copy) → All (IsOn id copies) polls.now
        → IfOk result
        (λ r. r ≡ for_poll (poll_at number (polls_of polls.now)) (vote_in_poll from hashes.now judged copies)) }
{
    match find_poll(polls, number) {
        Some(poll) => voting::vote(alloc, poll, from, hashes, judged),
        None => Ok(no_reaction(alloc)),
    }
}
