//! Running hashes: those of a voter over a version, and those of all voters of a poll over the front of a copy.

ghost use Rattle.std.specs.Prelude.{◌≡◌, ◌≤◌, IfOk, IsTrue, length, map, option_map, take, slice_get, slice_set};
ghost use Rattle.lks_base.specs.Kinds.{is_second};
ghost use Rattle.lks_hash.specs.Counting.{Opens};
ghost use Rattle.lks_hash.specs.Running.{linked, running, hashes_of};
ghost use Rattle.lks_tally.specs.Counting.{key_for, is_hash, for_at};
ghost use Rattle.lks_tally.specs.Heads.{heads, keys_of, matching};
ghost use Rattle.lks_evidence.specs.Recounts.{linked_if};
ghost use Rattle.lks_evidence.specs.Rules.{is_over};

use lks_base::{Bytes, OutOfMemory, PeerId};
use lks_hash::{Chain, Steps};
use lks_tally::{Ballot, Vote, voter_key};
use std::alloc::Global;
use std::marker::Brand;
use std::sync::ledger::{Blank, Ledger};

fn link_counted<L: Ledger>(second: bool, last: [u8; 32], block: &[u8], blank: Blank) -> [u8; 32]
    requires { Opens blank L.name L.parts }
    ensures { result ≡ linked second last block.now }
{
    let mut steps = Steps::<L>::open(blank);
    Chain::start(second, last).add(block, &mut steps)
}

/// A running hash after one block more, if there is one.
fn link_if(second: bool, last: [u8; 32], block: Option<&Bytes>) -> [u8; 32]
    ensures { result ≡ linked_if second last (option_map (λ b. b.now) block.entry) }
{
    match block {
        Some(block) => link_counted::<Brand>(second, last, block.as_slice(), Blank::new(1)),
        None => last,
    }
}

fn link_all<L: Ledger>(second: bool, key: [u8; 32], blocks: &[Bytes], blank: Blank) -> [u8; 32]
    requires { Opens blank L.name L.parts }
    ensures { result ≡ running second key blocks.now }
{
    let mut steps = Steps::<L>::open(blank);
    let mut last = key;
    for block in blocks {
        last = Chain::start(second, last).add(block.as_slice(), &mut steps);
    }
    last
}

/// The blocks before block `b`.
#[tactic(auto, using(std::proofs::lemmas::List::take_min))]
fn front(blocks: &[Bytes], b: u16) -> &[Bytes]
    ensures { result.now ≡ take b blocks.now }
{
    &blocks[..(b as usize).min(blocks.len())]
}

/// The voter's running hash over the blocks before block `b`.
pub fn hash_before(ballot: &Ballot, voter: PeerId, blocks: &[Bytes], b: u16) -> [u8; 32]
    ensures { result ≡ running (is_second ballot.now.kind) (key_for ballot.now voter) (take b blocks.now) }
{
    link_all::<Brand>(
        ballot.kind.second(),
        voter_key(ballot, voter),
        front(blocks, b),
        Blank::new(1),
    )
}

/// Whether the first `n` blocks are there, and are the same.
fn same_front(a: &[Bytes], b: &[Bytes], n: usize) -> bool
    ensures long { IsTrue result → n ≤ length a.now }
    ensures same { IsTrue result → take n a.now ≡ take n b.now }
{
    if n > a.len() || n > b.len() {
        return false;
    }
    for i in 0..n {
        if a[i].as_slice() != b[i].as_slice() {
            return false;
        }
    }
    true
}

/// What a vote comes to that is over a version of its voter's copy: whether it is the one, and the voter's running hash
/// over the blocks of another copy before block `b`. Where those are the version's, they are hashed once for both.
#[derive(Clone, Copy)]
pub struct Start {
    pub founded: bool,
    pub hash: [u8; 32],
}

/// The voter's running hash over the blocks of the copy before block `b`: one of its hashes over the version, where
/// these blocks are the version's.
fn hash_by(
    ballot: &Ballot,
    voter: PeerId,
    version: &[Bytes],
    hashes: &[[u8; 32]],
    copy: &[Bytes],
    b: u16,
) -> [u8; 32]
    requires { hashes.now ≡ hashes_of (is_second ballot.now.kind) (key_for ballot.now voter) version.now }
    ensures { result ≡ running (is_second ballot.now.kind) (key_for ballot.now voter) (take b copy.now) }
{
    if b == 0 || !same_front(version, copy, b as usize) {
        return hash_before(ballot, voter, copy, b);
    }
    hashes[b as usize - 1]
}

/// What a vote comes to whose voter had these blocks.
#[tactic(auto, unfolding(crate::specs::Rules::is_over))]
pub fn start_over(
    alloc: Global,
    ballot: &Ballot,
    vote: &Vote,
    version: &[Bytes],
    copy: &[Bytes],
    b: u16,
) -> Result<Start, OutOfMemory>
    ensures founded { IfOk result (λ s. s.founded ≡ is_over ballot.now version.now vote.now) }
    ensures hash { IfOk result
        (λ s. s.hash ≡ running (is_second ballot.now.kind) (key_for ballot.now vote.now.voter) (take b copy.now)) }
{
    let hashes = vote_over(alloc, ballot, vote.voter, version)?;
    let founded = vote.hashes.as_slice() == hashes.as_slice();
    let hash = hash_by(ballot, vote.voter, version, &hashes, copy, b);
    Ok(Start { founded, hash })
}

/// The keys of all voters: their running hashes before the first block.
pub fn keys(alloc: Global, ballot: &Ballot, votes: &[Vote]) -> Result<Vec<[u8; 32]>, OutOfMemory>
    ensures { IfOk result (λ keys. keys.items ≡ keys_of ballot.now votes.now) }
{
    let mut keys = Vec::with_capacity(alloc, votes.len())?;
    for vote in votes {
        keys.push(voter_key(ballot, vote.voter))?;
    }
    Ok(keys)
}

fn link_each(second: bool, hashes: &mut [[u8; 32]], block: Option<&Bytes>)
    ensures { hashes.new ≡ map (λ h. linked_if second h (option_map (λ b. b.now) block.entry)) hashes.old }
{
    for hash in hashes.iter_mut() {
        *hash = link_if(second, *hash, block);
    }
}

/// Block `b`, if there is one.
fn block_at(blocks: &[Bytes], b: u16) -> Option<&Bytes>
    ensures { option_map (λ x. x.now) result ≡ slice_get blocks.now b }
{
    blocks.get(b as usize)
}

/// Takes the voters' running hashes over the blocks before `from` to those over the blocks before `to`.
pub fn reach(
    ballot: &Ballot,
    votes: &[Vote],
    blocks: &[Bytes],
    hashes: &mut [[u8; 32]],
    from: u16,
    to: u16,
)
    requires order { from ≤ to }
    requires hashes { hashes.old ≡ heads ballot.now (take from blocks.now) votes.now }
    ensures { hashes.new ≡ heads ballot.now (take to blocks.now) votes.now }
{
    let second = ballot.kind.second();
    for b in from..to {
        link_each(second, hashes, block_at(blocks, b));
    }
}

/// Whether a vote has this hash at block `b`.
fn has_hash(vote: &Vote, b: u16, hash: &[u8; 32]) -> bool
    ensures { result ≡ is_hash (slice_get vote.now.hashes b) hash.now }
{
    match vote.hashes.as_slice().get(b as usize) {
        Some(found) => found == hash,
        None => false,
    }
}

/// How many votes have at block `b` their voter's running hash, which is this one and the block.
fn count_linked(
    second: bool,
    votes: &[Vote],
    hashes: &[[u8; 32]],
    b: u16,
    block: Option<&Bytes>,
) -> usize
    requires { length votes.now ≡ length hashes.now }
    ensures count { result
        ≡ matching b votes.now (map (λ h. linked_if second h (option_map (λ x. x.now) block.entry)) hashes.now) }
    ensures few { result ≤ length votes.now }
{
    let mut n = 0;
    for (i, vote) in votes.iter().enumerate() {
        let hash = link_if(second, hashes[i], block);
        if has_hash(vote, b, &hash) {
            n += 1;
        }
    }
    n
}

/// How many votes are for the copy at block `b`, where the hashes are over the blocks before it.
pub fn count_for(
    ballot: &Ballot,
    votes: &[Vote],
    hashes: &[[u8; 32]],
    copy: &[Bytes],
    b: u16,
) -> usize
    requires { hashes.now ≡ heads ballot.now (take b copy.now) votes.now }
    ensures count { result ≡ for_at ballot.now votes.now copy.now b }
    ensures few { result ≤ length votes.now }
{
    count_linked(ballot.kind.second(), votes, hashes, b, block_at(copy, b))
}

/// How many are for it with these bytes there.
pub fn count_for_new(
    ballot: &Ballot,
    votes: &[Vote],
    hashes: &[[u8; 32]],
    copy: &[Bytes],
    b: u16,
    bytes: &Bytes,
) -> usize
    requires { hashes.now ≡ heads ballot.now (take b copy.now) votes.now }
    ensures count { result ≡ for_at ballot.now votes.now (slice_set copy.now b bytes.now) b }
    ensures few { result ≤ length votes.now }
{
    let block = if (b as usize) < copy.len() {
        Some(bytes)
    } else {
        None
    };
    count_linked(ballot.kind.second(), votes, hashes, b, block)
}

fn hash_each<L: Ledger>(
    alloc: Global,
    second: bool,
    key: [u8; 32],
    blocks: &[Bytes],
    blank: Blank,
) -> Result<Vec<[u8; 32]>, OutOfMemory>
    requires { Opens blank L.name L.parts }
    ensures { IfOk result (λ hashes. hashes.items ≡ hashes_of second key blocks.now) }
{
    let mut steps = Steps::<L>::open(blank);
    let mut last = key;
    let mut hashes = Vec::new(alloc);
    for block in blocks {
        last = Chain::start(second, last).add(block.as_slice(), &mut steps);
        hashes.push(last)?;
    }
    Ok(hashes)
}

/// The hashes of a voter's vote over these blocks.
fn vote_over(
    alloc: Global,
    ballot: &Ballot,
    voter: PeerId,
    blocks: &[Bytes],
) -> Result<Vec<[u8; 32]>, OutOfMemory>
    ensures { IfOk result
        (λ hashes. hashes.items ≡ hashes_of (is_second ballot.now.kind) (key_for ballot.now voter) blocks.now) }
{
    hash_each::<Brand>(
        alloc,
        ballot.kind.second(),
        voter_key(ballot, voter),
        blocks,
        Blank::new(1),
    )
}
