//! What a peer adds and sends in a poll of its own, while votes are open.

ghost use Rattle.std.specs.Prelude.{◌≡◌, ◌≤◌, ℕ, List, IfOk, length, [], ◌∷◌};
ghost use Rattle.lks_base.specs.declared.names.Outcome.TheVariants as outcome;
ghost use Rattle.lks_base.specs.declared.records.Record.TheVariants as record_of;
ghost use Rattle.lks_base.specs.declared.limits.TheConstants.{MOST_PROOF_BYTES};
ghost use Rattle.lks_law.specs.Reaction.{is_accepted as accepted};
ghost use Rattle.lks_law.specs.Reacting.{outer_of_poll, widen_in, shut_in, receipts_of, closed_as, challenge_in};
ghost use Rattle.lks_law.specs.Reacting.{nominate_in, vote_in_poll};
ghost use Rattle.lks_law.specs.State.{Copy};
ghost use Rattle.lks_audit.specs.Seen.{poll_of, IsOn};

use crate::letters::{give_receipts, invite, write};
use crate::reactions::{adding, no_reaction, no_sends, sending};
use crate::samples::sample_outer;
use crate::stations::Station;
use lks_base::{
    Hashes, Ids, Judged, Message, OutOfMemory, Outcome, Outgoing, PeerId, Reaction, Record, Seq,
};
use lks_poller::PollSession;
use std::alloc::Global;

#[tactic(auto, unfolding(lks_law::specs::Reacting::outer_of_poll), using(crate::proofs::Nominations::nominees_seen))]
fn sample(alloc: Global, own: &Station, poll: &PollSession) -> Result<Ids, OutOfMemory>
    ensures { IfOk result (λ outer. outer ≡ outer_of_poll own.now (poll_of poll.now)) }
{
    sample_outer(
        alloc,
        own,
        poll.poll().number,
        poll.inner(),
        poll.nominations(),
    )
}

/// Invites the outer circle, once and while votes are open.
#[tactic(auto, unfolding(lks_law::specs::Reacting::widen_in))]
pub fn widen(alloc: Global, own: &Station, poll: &PollSession) -> Result<Reaction, OutOfMemory>
    ensures { IfOk result (λ r. r ≡ widen_in own.now (poll_of poll.now)) }
{
    if !poll.may_widen() {
        return Ok(no_reaction(alloc));
    }
    let number = poll.poll().number;
    let outer = sample(alloc, own, poll)?;
    let sends = invite(alloc, number, poll.au(), outer.as_slice())?;
    adding(alloc, Record::OuterOpened { number, outer }, sends)
}

/// A receipt to each voter, in order of their votes.
#[tactic(auto, unfolding(lks_law::specs::Reacting::receipts_of))]
fn thank(alloc: Global, poll: &PollSession) -> Result<Seq<Outgoing>, OutOfMemory>
    ensures { IfOk result (λ sends. sends ≡ receipts_of (poll_of poll.now)) }
{
    give_receipts(alloc, poll.poll().number, poll.voters())
}

/// Ends the poll.
#[tactic(auto, unfolding(lks_law::specs::Reacting::closed_as))]
pub fn close(
    alloc: Global,
    poll: &PollSession,
    tick: u32,
    outcome: Outcome,
) -> Result<Reaction, OutOfMemory>
    ensures { IfOk result (λ r. r ≡ closed_as (poll_of poll.now) tick outcome) }
{
    let sends = thank(alloc, poll)?;
    let item = Record::Closed {
        number: poll.poll().number,
        outcome,
        tick,
    };
    adding(alloc, item, sends)
}

/// The two records of a poll that ends with its voting.
fn shut_inquorate(number: u32, tick: u32, alloc: Global) -> Result<Seq<Record>, OutOfMemory>
    ensures { IfOk result (λ list. list ≡ record_of.Shut number ∷ record_of.Closed number outcome.Inquorate tick ∷ []) }
{
    let mut records = Vec::new(alloc);
    records.push(Record::Shut { number })?;
    records.push(Record::Closed {
        number,
        outcome: Outcome::Inquorate,
        tick,
    })?;
    Ok(Seq::from_vec(records))
}

/// Ends voting, and a poll with fewer inner votes than its quorum with it.
#[tactic(auto, unfolding(lks_law::specs::Reacting::shut_in))]
pub fn shut(
    alloc: Global,
    own: &Station,
    tick: u32,
    poll: &PollSession,
) -> Result<Reaction, OutOfMemory>
    ensures { IfOk result (λ r. r ≡ shut_in own.now tick (poll_of poll.now)) }
{
    if poll.is_shut() {
        return Ok(no_reaction(alloc));
    }
    let number = poll.poll().number;
    if !poll.is_inquorate() {
        return adding(alloc, Record::Shut { number }, no_sends(alloc));
    }
    let sends = thank(alloc, poll)?;
    let records = shut_inquorate(number, tick, alloc)?;
    Ok(Reaction { records, sends })
}

/// Answers a challenge by the proof of effort.
#[tactic(auto, unfolding(lks_law::specs::Reacting::challenge_in))]
pub fn prove(
    alloc: Global,
    own: &Station,
    poll: &PollSession,
    from: PeerId,
    yes: bool,
) -> Result<Reaction, OutOfMemory>
    requires { length own.now.proof ≤ MOST_PROOF_BYTES }
    ensures { IfOk result (λ r. r ≡ challenge_in own.now from yes (poll_of poll.now)) }
{
    if !(yes && poll.may_prove(from)) {
        return Ok(no_reaction(alloc));
    }
    let message = Message::PollProof {
        number: poll.poll().number,
        nonce: *poll.nonce(),
        kind: poll.kind(),
        proof: own.proof.clone()?,
    };
    sending(alloc, write(alloc, &message, from)?)
}

/// Takes an inner peer's nomination, its first one, until the outer circle is invited.
#[tactic(auto, unfolding(lks_law::specs::Reacting::nominate_in))]
pub fn nominate(
    alloc: Global,
    poll: &PollSession,
    from: PeerId,
    nominees: &Ids,
) -> Result<Reaction, OutOfMemory>
    ensures { IfOk result (λ r. r ≡ nominate_in from nominees.now (poll_of poll.now)) }
{
    if !poll.may_nominate(from) {
        return Ok(no_reaction(alloc));
    }
    let item = Record::Nominated {
        number: poll.poll().number,
        voter: from,
        nominees: nominees.clone()?,
    };
    adding(alloc, item, no_sends(alloc))
}

fn is_accepted(judged: Judged) -> bool
    ensures { result ≡ accepted judged }
{
    matches!(judged, Judged::Accepted)
}

/// Takes the vote of an invited peer, its first one, with a hash for each block.
#[tactic(auto, unfolding(lks_law::specs::Reacting::vote_in_poll))]
pub fn vote(
    alloc: Global,
    poll: &PollSession,
    from: PeerId,
    hashes: &Hashes,
    judged: Judged,
) -> Result<Reaction, OutOfMemory>
    ensures { (id : ℕ) (copies : List Copy) → IsOn id copies poll.now
        → IfOk result (λ r. r ≡ vote_in_poll from hashes.now judged copies (poll_of poll.now)) }
{
    if !(is_accepted(judged) && poll.may_vote(from, hashes.as_slice().len())) {
        return Ok(no_reaction(alloc));
    }
    let item = Record::VoteIn {
        number: poll.poll().number,
        voter: from,
        hashes: hashes.clone()?,
    };
    adding(alloc, item, no_sends(alloc))
}
