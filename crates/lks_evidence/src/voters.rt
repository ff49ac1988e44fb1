//! What the journals of voters say of their votes.

ghost use Rattle.std.specs.Prelude.{◌≡◌, IfOk, length, option_map, take};
ghost use Rattle.lks_law.specs.Journal.{is_number};
ghost use Rattle.lks_law.specs.Sessions.{commitment_of};
ghost use Rattle.lks_base.specs.Kinds.{is_second};
ghost use Rattle.lks_hash.specs.Running.{running};
ghost use Rattle.lks_tally.specs.Counting.{key_for};
ghost use Rattle.lks_tally.specs.Heads.{heads};
ghost use Rattle.lks_evidence.specs.Recounts as recounts;
ghost use Rattle.lks_evidence.specs.Rules.{count_in, deposited_blocks, is_deposited, bears_out, shelf_of, is_founded};
ghost use Rattle.lks_evidence.specs.Rules as rules;

use crate::copies::copy_at;
use crate::findings::{Shelf, Why};
use crate::hashing::{Start, hash_before, start_over};
use crate::records::{
    Commitment, count_commitments, count_deposits, count_joins, count_versions, find_commitment,
    find_deposit, find_join,
};
use lks_base::{AuId, AuPlan, Bytes, OutOfMemory, PeerId, Record};
use lks_tally::{Ballot, Vote};
use std::alloc::Global;

/// How many blocks the plan gives an AU.
#[tactic(auto, unfolding(crate::specs::Rules::count_in))]
pub fn count_in(aus: &[AuPlan], au: AuId) -> Option<u16>
    ensures { result ≡ count_in aus.now au }
{
    for planned in aus {
        if planned.id == au {
            return Some(planned.count);
        }
    }
    None
}

/// How many blocks the AU was deposited with.
#[tactic(auto, unfolding(crate::specs::Rules::deposited_blocks))]
pub fn count_deposited(journal: &[Record], au: AuId) -> usize
    ensures { result ≡ length (deposited_blocks au journal.now) }
{
    find_deposit(journal, au).map_or(0, |blocks| blocks.len())
}

fn is_count(count: Option<u16>, n: usize) -> bool
    ensures { result ≡ is_number count n }
{
    match count {
        Some(number) => number as usize == n,
        None => false,
    }
}

/// Whether the AU is deposited once, with as many blocks as the plan gives it.
#[tactic(auto, unfolding(crate::specs::Rules::is_deposited))]
pub fn is_deposited(aus: &[AuPlan], au: AuId, journal: &[Record]) -> bool
    ensures { result ≡ is_deposited aus.now au journal.now }
{
    count_deposits(journal, au) == 1 && is_count(count_in(aus, au), count_deposited(journal, au))
}

/// Whether the voter committed to a version that it has, for the poll's nonce and kind of hash.
#[tactic(auto, unfolding(crate::specs::Rules::is_for))]
fn is_for(ballot: &Ballot, journal: &[Record], commitment: &Commitment<'_>) -> bool
    ensures { result ≡ rules.is_for ballot.now journal.now commitment.now }
{
    *commitment.nonce == ballot.nonce
        && commitment.kind.is_kind(ballot.kind)
        && commitment.version as usize <= count_versions(journal, ballot.au)
}

/// Whether the voter joined the poll once, on its AU.
#[tactic(auto, unfolding(crate::specs::Rules::is_joined))]
fn is_joined(ballot: &Ballot, journal: &[Record]) -> bool
    ensures { result ≡ rules.is_joined ballot.now journal.now }
{
    let joined = find_join(journal, &ballot.poll);
    count_joins(journal, &ballot.poll) == 1 && joined.is_some_and(|au| au == ballot.au)
}

/// The version to which the voter committed.
fn version_if(
    alloc: Global,
    ballot: &Ballot,
    journal: &[Record],
) -> Result<Option<Vec<Bytes>>, OutOfMemory>
    ensures { IfOk result
        (λ o. option_map (λ v. v.items) o
        ≡ recounts.version_if ballot.now journal.now (commitment_of ballot.now.poll journal.now)) }
{
    match find_commitment(journal, &ballot.poll) {
        Some(named) if is_for(ballot, journal, &named) => {
            Ok(Some(copy_at(alloc, journal, ballot.au, named.version as usize)?))
        }
        Some(_) | None => Ok(None),
    }
}

/// The version over which a voter votes: the one to which its journal commits it, if it does as it has to.
#[tactic(auto, unfolding(crate::specs::Recounts::version_of))]
fn version_of(
    alloc: Global,
    aus: &[AuPlan],
    ballot: &Ballot,
    journal: &[Record],
) -> Result<Option<Vec<Bytes>>, OutOfMemory>
    ensures { IfOk result (λ o. option_map (λ v. v.items) o ≡ recounts.version_of aus.now ballot.now journal.now) }
{
    if !is_deposited(aus, ballot.au, journal)
        || !is_joined(ballot, journal)
        || count_commitments(journal, &ballot.poll) != 1
    {
        return Ok(None);
    }
    version_if(alloc, ballot, journal)
}

/// The first shelf of this peer.
#[tactic(auto, unfolding(crate::specs::Rules::shelf_of))]
fn shelf_of(set: &[Shelf], peer: PeerId) -> Option<&Shelf>
    ensures { option_map (λ s. s.now) result ≡ shelf_of set.now peer }
{
    for shelf in set {
        if shelf.peer == peer {
            return Some(shelf);
        }
    }
    None
}

/// What a vote comes to, whose voter has this journal.
fn start_of(
    alloc: Global,
    aus: &[AuPlan],
    ballot: &Ballot,
    journal: &[Record],
    vote: &Vote,
    copy: &[Bytes],
    b: u16,
) -> Result<Start, OutOfMemory>
    ensures founded { IfOk result (λ s. s.founded ≡ bears_out aus.now ballot.now journal.now vote.now) }
    ensures hash { IfOk result
        (λ s. s.hash ≡ running (is_second ballot.now.kind) (key_for ballot.now vote.now.voter) (take b copy.now)) }
{
    match version_of(alloc, aus, ballot, journal)? {
        Some(version) => start_over(alloc, ballot, vote, &version, copy, b),
        None => Ok(Start {
            founded: false,
            hash: hash_before(ballot, vote.voter, copy, b),
        }),
    }
}

/// What a vote comes to: whether nothing in the set speaks against it, and the voter's running hash over the blocks of
/// the copy before block `b`.
#[tactic(auto, unfolding(crate::specs::Rules::is_founded))]
fn start(
    alloc: Global,
    aus: &[AuPlan],
    set: &[Shelf],
    ballot: &Ballot,
    vote: &Vote,
    copy: &[Bytes],
    b: u16,
) -> Result<Start, OutOfMemory>
    ensures founded { IfOk result (λ s. s.founded ≡ is_founded aus.now set.now ballot.now vote.now) }
    ensures hash { IfOk result
        (λ s. s.hash ≡ running (is_second ballot.now.kind) (key_for ballot.now vote.now.voter) (take b copy.now)) }
{
    match shelf_of(set, vote.voter) {
        Some(shelf) => start_of(alloc, aus, ballot, &shelf.list, vote, copy, b),
        None => Ok(Start {
            founded: true,
            hash: hash_before(ballot, vote.voter, copy, b),
        }),
    }
}

/// What the votes of a poll come to: the first against which the journal of its voter speaks, and each voter's hash.
#[derive(Drop)]
pub struct Begun {
    pub doubt: Option<Why>,
    pub hashes: Vec<[u8; 32]>,
}

/// What the votes come to before block `b` of the copy.
#[tactic(auto, unfolding(crate::specs::Rules::voter_doubt))]
pub fn begin(
    alloc: Global,
    aus: &[AuPlan],
    set: &[Shelf],
    ballot: &Ballot,
    votes: &[Vote],
    copy: &[Bytes],
    b: u16,
) -> Result<Begun, OutOfMemory>
    ensures doubt { IfOk result (λ k. k.doubt ≡ rules.voter_doubt aus.now set.now ballot.now votes.now) }
    ensures hashes { IfOk result (λ k. k.hashes.items ≡ heads ballot.now (take b copy.now) votes.now) }
{
    let mut doubt = None;
    let mut hashes = Vec::new(alloc);
    for vote in votes {
        let start = start(alloc, aus, set, ballot, vote, copy, b)?;
        hashes.push(start.hash)?;
        if doubt.is_none() && !start.founded {
            doubt = Some(Why::Vote { voter: vote.voter });
        }
    }
    Ok(Begun { doubt, hashes })
}
