//! What a journal says that evidence rests on.

ghost use Rattle.std.specs.Prelude.{◌≡◌, ◌≤◌, IfOk, length, is_some, option_map};
ghost use Rattle.lks_law.specs.Journal.{deposit_in, deposit_of, opening_in, opening_of, is_shut, vote_in};
ghost use Rattle.lks_law.specs.Polls.{votes, inner_votes};
ghost use Rattle.lks_law.specs.Sessions.{is_poll, commitment_in, commitment_of};
ghost use Rattle.lks_evidence.specs.Records.{repair_in, join_in, deposits, openings, version_now, joins, join_of};
ghost use Rattle.lks_evidence.specs.Records.{commitments, repairs};

use lks_base::{AuId, Bytes, HashKind, OutOfMemory, PollName, Record, has_member};
use lks_law::Opening;
use lks_tally::Vote;
use std::alloc::Global;
use std::marker::Model;

/// A block that a poll replaced, and its new bytes.
#[derive(Drop)]
pub struct Repair<'a> {
    pub number: u32,
    pub au: AuId,
    pub block: u16,
    pub bytes: &'a Bytes,
}

impl<'a> Model for Repair<'a> {
    ghost use Rattle.lks_law.specs.Journal.{Repair as Kept};

    ghost Value = { Kept };

    ghost view = { λ a. record { number = a.number; au = a.au; block = a.block; bytes = a.bytes.now } };
}

/// To which version of its copy a voter committed, for which nonce and kind of hash.
#[derive(Drop)]
pub struct Commitment<'a> {
    pub nonce: &'a [u8; 32],
    pub version: u32,
    pub kind: HashKind,
}

impl<'a> Model for Commitment<'a> {
    ghost use Rattle.lks_law.specs.Sessions.{Commitment as Kept};

    ghost Value = { Kept };

    ghost view = { λ a. record { nonce = a.nonce.now; version = a.version; kind = a.kind } };
}

pub fn as_repair(r: &Record) -> Option<Repair<'_>>
    ensures { result ≡ repair_in r.now }
{
    match r {
        Record::Replaced {
            number,
            au,
            block,
            bytes,
        } => Some(Repair {
            number: *number,
            au: *au,
            block: *block,
            bytes,
        }),
        Record::Deposit { .. }
        | Record::PollOpened { .. }
        | Record::Nominated { .. }
        | Record::OuterOpened { .. }
        | Record::VoteIn { .. }
        | Record::Shut { .. }
        | Record::Asked { .. }
        | Record::RepairBad { .. }
        | Record::Closed { .. }
        | Record::Overdue { .. }
        | Record::Joined { .. }
        | Record::Committed { .. }
        | Record::Voted { .. }
        | Record::Served { .. }
        | Record::Ended { .. }
        | Record::Tuned { .. } => None,
    }
}

/// How many blocks were replaced.
#[tactic(auto, unfolding(crate::specs::Records::repairs))]
pub fn count_repairs(journal: &[Record]) -> usize
    ensures exact { result ≡ repairs journal.now }
    ensures few { result ≤ length journal.now }
{
    journal
        .iter()
        .filter(|r| matches!(r, Record::Replaced { .. }))
        .count()
}

fn as_deposit(r: &Record, au: AuId) -> Option<&[Bytes]>
    ensures { option_map (λ b. b.now) result ≡ deposit_in au r.now }
{
    match r {
        Record::Deposit { au: a, blocks } if *a == au => Some(blocks.as_slice()),
        Record::Deposit { .. }
        | Record::PollOpened { .. }
        | Record::Nominated { .. }
        | Record::OuterOpened { .. }
        | Record::VoteIn { .. }
        | Record::Shut { .. }
        | Record::Asked { .. }
        | Record::RepairBad { .. }
        | Record::Replaced { .. }
        | Record::Closed { .. }
        | Record::Overdue { .. }
        | Record::Joined { .. }
        | Record::Committed { .. }
        | Record::Voted { .. }
        | Record::Served { .. }
        | Record::Ended { .. }
        | Record::Tuned { .. } => None,
    }
}

#[tactic(auto, unfolding(lks_law::specs::Journal::deposit_of))]
pub fn find_deposit(journal: &[Record], au: AuId) -> Option<&[Bytes]>
    ensures { option_map (λ b. b.now) result ≡ deposit_of au journal.now }
{
    for r in journal {
        if let Some(blocks) = as_deposit(r, au) {
            return Some(blocks);
        }
    }
    None
}

/// Whether the record deposits the AU.
pub fn deposits(r: &Record, au: AuId) -> bool
    ensures { result ≡ is_some (deposit_in au r.now) }
{
    matches!(r, Record::Deposit { au: a, .. } if *a == au)
}

/// How often the AU is deposited.
#[tactic(auto, unfolding(crate::specs::Records::deposits))]
pub fn count_deposits(journal: &[Record], au: AuId) -> usize
    ensures { result ≡ deposits au journal.now }
{
    journal
        .iter()
        .filter(|r| matches!(r, Record::Deposit { au: a, .. } if *a == au))
        .count()
}

/// How often a block of the AU was replaced, which is the number of its newest version.
#[tactic(auto, unfolding(crate::specs::Records::version_now))]
pub fn count_versions(journal: &[Record], au: AuId) -> usize
    ensures { result ≡ version_now au journal.now }
{
    journal
        .iter()
        .filter(|r| matches!(r, Record::Replaced { au: a, .. } if *a == au))
        .count()
}

fn as_opening(r: &Record, n: u32) -> Option<Opening<'_>>
    ensures { result ≡ opening_in n r.now }
{
    match r {
        Record::PollOpened {
            number,
            au,
            nonce,
            inner,
            limits,
            kind,
            ..
        } if *number == n => Some(Opening {
            au: *au,
            nonce,
            inner,
            limits: *limits,
            kind: *kind,
        }),
        Record::Deposit { .. }
        | Record::PollOpened { .. }
        | Record::Nominated { .. }
        | Record::OuterOpened { .. }
        | Record::VoteIn { .. }
        | Record::Shut { .. }
        | Record::Asked { .. }
        | Record::RepairBad { .. }
        | Record::Replaced { .. }
        | Record::Closed { .. }
        | Record::Overdue { .. }
        | Record::Joined { .. }
        | Record::Committed { .. }
        | Record::Voted { .. }
        | Record::Served { .. }
        | Record::Ended { .. }
        | Record::Tuned { .. } => None,
    }
}

/// The peer's poll `n` as it was opened first.
#[tactic(auto, unfolding(lks_law::specs::Journal::opening_of))]
pub fn find_opening(journal: &[Record], n: u32) -> Option<Opening<'_>>
    ensures { result ≡ opening_of n journal.now }
{
    for r in journal {
        if let Some(found) = as_opening(r, n) {
            return Some(found);
        }
    }
    None
}

/// Whether the record opens the peer's poll `n`.
pub fn opens(r: &Record, n: u32) -> bool
    ensures { result ≡ is_some (opening_in n r.now) }
{
    matches!(r, Record::PollOpened { number, .. } if *number == n)
}

/// How often the peer opened its poll `n`.
#[tactic(auto, unfolding(crate::specs::Records::openings))]
pub fn count_openings(journal: &[Record], n: u32) -> usize
    ensures { result ≡ openings n journal.now }
{
    journal
        .iter()
        .filter(|r| matches!(r, Record::PollOpened { number, .. } if *number == n))
        .count()
}

#[tactic(auto, unfolding(lks_law::specs::Journal::is_shut))]
pub fn is_shut(journal: &[Record], n: u32) -> bool
    ensures { result ≡ is_shut n journal.now }
{
    journal
        .iter()
        .any(|r| matches!(r, Record::Shut { number } if *number == n))
}

/// Whether the record says that a vote in the peer's poll `n` came in.
pub fn is_vote(r: &Record, n: u32) -> bool
    ensures { result ≡ is_some (vote_in n r.now) }
{
    matches!(r, Record::VoteIn { number, .. } if *number == n)
}

/// A copy of the vote that the record says came in, if it is of this poll.
fn as_vote(r: &Record, n: u32) -> Result<Option<Vote>, OutOfMemory>
    ensures { IfOk result (λ v. v ≡ vote_in n r.now) }
{
    match r {
        Record::VoteIn {
            number,
            voter,
            hashes,
        } => {
            if *number == n {
                let hashes = hashes.clone()?;
                Ok(Some(Vote {
                    voter: *voter,
                    hashes,
                }))
            } else {
                Ok(None)
            }
        }
        Record::Deposit { .. }
        | Record::PollOpened { .. }
        | Record::Nominated { .. }
        | Record::OuterOpened { .. }
        | Record::Shut { .. }
        | Record::Asked { .. }
        | Record::RepairBad { .. }
        | Record::Replaced { .. }
        | Record::Closed { .. }
        | Record::Overdue { .. }
        | Record::Joined { .. }
        | Record::Committed { .. }
        | Record::Voted { .. }
        | Record::Served { .. }
        | Record::Ended { .. }
        | Record::Tuned { .. } => Ok(None),
    }
}

/// Copies of the votes in the poll, in order.
#[tactic(auto, unfolding(lks_law::specs::Polls::votes))]
fn votes_of(alloc: Global, journal: &[Record], n: u32) -> Result<Vec<Vote>, OutOfMemory>
    ensures { IfOk result (λ v. v.items ≡ votes n journal.now) }
{
    let mut votes = Vec::new(alloc);
    for r in journal {
        if let Some(vote) = as_vote(r, n)? {
            votes.push(vote)?;
        }
    }
    Ok(votes)
}

/// Those by members of its inner circle: these alone decide.
pub fn inner_votes_of(
    alloc: Global,
    journal: &[Record],
    n: u32,
    inner: &[u16],
) -> Result<Vec<Vote>, OutOfMemory>
    ensures { IfOk result (λ v. v.items ≡ inner_votes n inner.now journal.now) }
{
    let mut votes = votes_of(alloc, journal, n)?;
    votes.retain(|v| has_member(inner, v.voter));
    Ok(votes)
}

fn names(p: &PollName, q: &PollName) -> bool
    ensures { result ≡ is_poll p.now q.now }
{
    p.poller == q.poller && p.number == q.number
}

fn as_join(r: &Record, q: &PollName) -> Option<AuId>
    ensures { result ≡ join_in q.now r.now }
{
    match r {
        Record::Joined { poll, au, .. } if names(poll, q) => Some(*au),
        Record::Deposit { .. }
        | Record::PollOpened { .. }
        | Record::Nominated { .. }
        | Record::OuterOpened { .. }
        | Record::VoteIn { .. }
        | Record::Shut { .. }
        | Record::Asked { .. }
        | Record::RepairBad { .. }
        | Record::Replaced { .. }
        | Record::Closed { .. }
        | Record::Overdue { .. }
        | Record::Joined { .. }
        | Record::Committed { .. }
        | Record::Voted { .. }
        | Record::Served { .. }
        | Record::Ended { .. }
        | Record::Tuned { .. } => None,
    }
}

/// The AU on which the peer first joined the poll.
#[tactic(auto, unfolding(crate::specs::Records::join_of))]
pub fn find_join(journal: &[Record], q: &PollName) -> Option<AuId>
    ensures { result ≡ join_of q.now journal.now }
{
    for r in journal {
        if let Some(found) = as_join(r, q) {
            return Some(found);
        }
    }
    None
}

/// How often the peer joined the poll.
#[tactic(auto, unfolding(crate::specs::Records::joins))]
pub fn count_joins(journal: &[Record], q: &PollName) -> usize
    ensures { result ≡ joins q.now journal.now }
{
    journal.iter().filter(|r| as_join(r, q).is_some()).count()
}

fn as_commitment<'a>(r: &'a Record, q: &PollName) -> Option<Commitment<'a>>
    ensures { result ≡ commitment_in q.now r.now }
{
    match r {
        Record::Committed {
            poll,
            nonce,
            version,
            kind,
        } if names(poll, q) => Some(Commitment {
            nonce,
            version: *version,
            kind: *kind,
        }),
        Record::Deposit { .. }
        | Record::PollOpened { .. }
        | Record::Nominated { .. }
        | Record::OuterOpened { .. }
        | Record::VoteIn { .. }
        | Record::Shut { .. }
        | Record::Asked { .. }
        | Record::RepairBad { .. }
        | Record::Replaced { .. }
        | Record::Closed { .. }
        | Record::Overdue { .. }
        | Record::Joined { .. }
        | Record::Committed { .. }
        | Record::Voted { .. }
        | Record::Served { .. }
        | Record::Ended { .. }
        | Record::Tuned { .. } => None,
    }
}

/// To what the peer first committed in the poll.
#[tactic(auto, unfolding(lks_law::specs::Sessions::commitment_of))]
pub fn find_commitment<'a>(journal: &'a [Record], q: &PollName) -> Option<Commitment<'a>>
    ensures { result ≡ commitment_of q.now journal.now }
{
    for r in journal {
        if let Some(found) = as_commitment(r, q) {
            return Some(found);
        }
    }
    None
}

/// How often the peer committed to a version in the poll.
#[tactic(auto, unfolding(crate::specs::Records::commitments))]
pub fn count_commitments(journal: &[Record], q: &PollName) -> usize
    ensures { result ≡ commitments q.now journal.now }
{
    journal
        .iter()
        .filter(|r| as_commitment(r, q).is_some())
        .count()
}
