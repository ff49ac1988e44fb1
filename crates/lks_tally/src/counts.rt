//! One block's part of a verdict: the voters' running hashes, who is for the block, and what the numbers say.

ghost use Rattle.std.specs.Prelude.{◌≡◌, ◌+◌, ◌-◌, ◌≤◌, length, map, slice_get, IfOk, IsTrue, ◌↔◌};
ghost use Rattle.lks_base.specs.Kinds.{is_second};
ghost use Rattle.lks_hash.specs.Running.{linked};
ghost use Rattle.lks_tally.specs.Counting.{key_for, is_hash};
ghost use Rattle.lks_tally.specs.Counting as count;
ghost use Rattle.lks_tally.specs.Keeping as keeping;
ghost use Rattle.lks_tally.specs.Heads.{keys_of, matching, holders, others};

use crate::ballots::{At, Ballot, Vote};
use lks_base::{Ids, OutOfMemory};
use lks_hash::{Chain, Steps};
use std::alloc::Global;
use std::sync::ledger::Ledger;

/// The key under which a voter votes.
pub fn voter_key(ballot: &Ballot, voter: u16) -> [u8; 32]
    ensures { result ≡ key_for ballot.now voter }
{
    lks_hash::key(
        ballot.kind.second(),
        ballot.poll.poller,
        ballot.poll.number,
        &ballot.nonce,
        voter,
        ballot.au,
        ballot.count,
    )
}

/// The keys of all voters: their running hashes before the first block.
pub fn keys(alloc: Global, ballot: &Ballot, votes: &[Vote]) -> Result<Vec<[u8; 32]>, OutOfMemory>
    ensures { IfOk result (λ keys. keys.items ≡ keys_of ballot.now votes.now) }
{
    let mut keys = Vec::with_capacity(alloc, votes.len())?;
    for vote in votes {
        keys.push(voter_key(ballot, vote.voter))?;
    }
    Ok(keys)
}

/// Takes each running hash on by a block.
pub fn advance<L: Ledger>(second: bool, heads: &mut [[u8; 32]], block: &[u8], steps: &mut Steps<L>)
    ensures heads { heads.new ≡ map (λ h. linked second h block.now) heads.old }
    ensures cost { steps.new ≡ steps.old + length heads.old }
{
    for head in heads.iter_mut() {
        *head = Chain::start(second, *head).add(block, steps);
    }
}

/// Whether a vote has this hash at block `b`.
pub fn has_hash(vote: &Vote, b: u16, hash: &[u8; 32]) -> bool
    ensures { result ≡ is_hash (slice_get vote.now.hashes b) hash.now }
{
    match vote.hashes.as_slice().get(b as usize) {
        Some(found) => found == hash,
        None => false,
    }
}

/// How many votes have their voter's running hash at block `b`.
pub fn count_for(votes: &[Vote], heads: &[[u8; 32]], b: u16) -> usize
    requires { length votes.now ≡ length heads.now }
    ensures count { result ≡ matching b votes.now heads.now }
    ensures few { result ≤ length votes.now }
{
    let mut n = 0;
    for (i, vote) in votes.iter().enumerate() {
        if has_hash(vote, b, &heads[i]) {
            n += 1;
        }
    }
    n
}

/// The voters whose votes have their voter's running hash at block `b`.
pub fn voters_of_holders(
    alloc: Global,
    votes: &[Vote],
    heads: &[[u8; 32]],
    b: u16,
) -> Result<Ids, OutOfMemory>
    requires { length votes.now ≡ length heads.now }
    ensures { IfOk result (λ ids. ids ≡ holders b votes.now heads.now) }
{
    let mut ids = Vec::new(alloc);
    for (i, vote) in votes.iter().enumerate() {
        if has_hash(vote, b, &heads[i]) {
            ids.push(vote.voter)?;
        }
    }
    Ok(Ids::from_vec(ids))
}

/// The voters whose votes have another hash at block `b`, or none.
pub fn voters_of_others(
    alloc: Global,
    votes: &[Vote],
    heads: &[[u8; 32]],
    b: u16,
) -> Result<Ids, OutOfMemory>
    requires { length votes.now ≡ length heads.now }
    ensures { IfOk result (λ ids. ids ≡ others b votes.now heads.now) }
{
    let mut ids = Vec::new(alloc);
    for (i, vote) in votes.iter().enumerate() {
        if !has_hash(vote, b, &heads[i]) {
            ids.push(vote.voter)?;
        }
    }
    Ok(Ids::from_vec(ids))
}

/// What so many votes for and against say.
pub fn landslide(minority: u16, votes_for: usize, votes_against: usize) -> At
    ensures { result ≡ count.landslide minority votes_for votes_against }
{
    if votes_against <= minority as usize {
        At::Win
    } else if votes_for <= minority as usize {
        At::Loss
    } else {
        At::Split
    }
}

/// What the votes say at block `b`, where the voters' running hashes after it are these.
pub fn at_heads(minority: u16, votes: &[Vote], heads: &[[u8; 32]], b: u16) -> At
    requires { length votes.now ≡ length heads.now }
    ensures { let votes_for = matching b votes.now heads.now in
        result ≡ count.landslide minority votes_for (length votes.now - votes_for) }
{
    let votes_for = count_for(votes, heads, b);
    landslide(minority, votes_for, votes.len() - votes_for)
}

/// Whether one of the votes is this voter's.
pub fn has_vote_of(votes: &[Vote], voter: u16) -> bool
    ensures { result ≡ keeping.has_vote_of votes.now voter }
{
    votes.iter().any(|v| v.voter == voter)
}

pub fn same_ballot(a: &Ballot, b: &Ballot) -> bool
    ensures { IsTrue result ↔ (a.now ≡ b.now) }
{
    a.poll == b.poll && a.au == b.au && a.kind == b.kind && a.nonce == b.nonce && a.count == b.count
}

fn same_vote(a: &Vote, b: &Vote) -> bool
    ensures { IsTrue result ↔ (a.now ≡ b.now) }
{
    a.voter == b.voter && a.hashes.as_slice() == b.hashes.as_slice()
}

pub fn same_votes(a: &[Vote], b: &[Vote]) -> bool
    ensures { IsTrue result ↔ (a.now ≡ b.now) }
{
    if a.len() != b.len() {
        return false;
    }
    for (i, vote) in a.iter().enumerate() {
        if !same_vote(vote, &b[i]) {
            return false;
        }
    }
    true
}

pub fn copy_votes(alloc: Global, votes: &[Vote]) -> Result<Vec<Vote>, OutOfMemory>
    ensures { IfOk result (λ copies. copies.items ≡ votes.now) }
{
    let mut copies = Vec::new(alloc);
    for vote in votes {
        let hashes = vote.hashes.clone()?;
        copies.push(Vote {
            voter: vote.voter,
            hashes,
        })?;
    }
    Ok(copies)
}

pub fn copy_hashes(alloc: Global, hashes: &[[u8; 32]]) -> Result<Vec<[u8; 32]>, OutOfMemory>
    ensures { IfOk result (λ copies. copies.items ≡ hashes.now) }
{
    let mut copies = Vec::new(alloc);
    copies.extend_from_slice(hashes)?;
    Ok(copies)
}
