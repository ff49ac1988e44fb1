//! The tally of a poll: its votes, and the running hashes that it keeps from one verdict to the next.

ghost use Rattle.std.specs.Prelude.{◌≡◌, ℕ, ◌+◌, ◌*◌, ◌-◌, ◌<◌, ◌≤◌, ◌≢◌, ◌↔◌, List, [], ◌∷◌, length, min, slice_set};
ghost use Rattle.std.specs.Prelude.{vec_len, vec_capacity, IsOk, IsTrue, IfOk, OnOk, OnErr, true, false};
ghost use Rattle.lks_tally.specs.Counting.{voters_against, verdict_at, verdict_on};
ghost use Rattle.lks_tally.specs.Keeping.{IsCacheOf, IsReserved, IsSame, KeepsRooms, has_vote_of, vote_added};
ghost use Rattle.lks_tally.specs.Keeping.{hashes_forgotten, kept_after, roomed_as};

use crate::ballots::{At, Ballot, Verdict, Vote};
use crate::rows::Rows;
use crate::{counts, rows, trials};
use lks_base::{
    AuId, Contents, HashKind, Hashes, Ids, Limits, MOST_CIRCLE, OutOfMemory, PeerId, PollName,
    Rules,
};
use lks_hash::Steps;
use std::alloc::Global;
use std::marker::Model;
use std::sync::ledger::Ledger;

/// Why a vote isn't taken.
#[derive(Clone, Copy, Debug, PartialEq, Eq)]
pub enum VoteFault {
    /// The voter has voted.
    Twice,
    /// Not one hash a block.
    Length,
    /// No memory was there.
    Memory,
}

/// The votes of a poll, and running hashes of all votes over the first blocks of the copy of the last verdict.
///
/// A call that is handed a copy needs one whose blocks are, as far as hashes are kept, those of the copy before.
#[derive(Drop)]
pub struct Tally {
    ballot: Ballot,
    limits: Limits,
    votes: Vec<Vote>,
    rows: Rows,
}

impl Model for Tally {
    ghost use Rattle.std.specs.Prelude.{◌≡◌, ◌*◌, ◌≤◌, length, vec_capacity};
    ghost use Rattle.lks_tally.specs.Keeping.{Tallied};

    ghost Value = { Tallied };

    ghost view = { λ a.
        record {
          ballot = a.ballot;
          limits = a.limits;
          votes = a.votes.items;
          kept = a.rows.count;
          hashes = a.rows.hashes.items;
          room = vec_capacity a.rows.hashes;
          vote_room = vec_capacity a.votes;
        } };

    ghost invariant = { λ a. (a.rows.count ≤ a.ballot.count)
        × (length a.rows.hashes.items ≡ a.rows.count * length a.votes.items) };
}

impl Tally {
    /// A tally with no votes. The rules have the numbers of this poll; `count` is that of the AU's blocks.
    pub fn new(
        alloc: Global,
        rules: &Rules,
        poll: PollName,
        au: AuId,
        kind: HashKind,
        nonce: [u8; 32],
        count: u16,
    ) -> Tally
        ensures ballot { result.ballot ≡ record { poll = poll; au = au; kind = kind; nonce = nonce; count = count } }
        ensures limits { result.limits ≡ record { quorum = rules.now.quorum; minority = rules.now.minority } }
        ensures votes { result.votes ≡ [] }
        ensures nothing_kept { (result.kept ≡ 0) × (result.hashes ≡ []) }
    {
        Tally {
            ballot: Ballot {
                poll,
                au,
                kind,
                nonce,
                count,
            },
            limits: Limits {
                quorum: rules.quorum,
                minority: rules.minority,
            },
            votes: Vec::new(alloc),
            rows: Rows {
                count: 0,
                hashes: Vec::new(alloc),
            },
        }
    }

    /// Takes room for the votes of a whole inner circle and their running hashes: votes that fit, and verdicts, then
    /// take no memory.
    pub fn reserve(&mut self) -> Result<(), OutOfMemory>
        ensures ok { OnOk result (IsReserved self.new) }
        ensures same { self.new ≡ roomed_as self.new self.old }
        ensures rooms { KeepsRooms self.old self.new }
    {
        let most = MOST_CIRCLE as usize;
        self.votes.try_reserve(most)?;
        self.rows
            .hashes
            .try_reserve(most * self.ballot.count as usize)?;
        Ok(())
    }

    /// Takes a vote, which is to have one hash a block, and forgets what was kept. It takes no memory where there is
    /// room.
    pub fn add_vote(&mut self, voter: PeerId, hashes: Hashes) -> Result<(), VoteFault>
        ensures ok { OnOk result
            (self.new
            ≡ record (vote_added self.old
            (record { voter = voter; hashes = hashes })) { vote_room = self.new.vote_room }) }
        ensures err { OnErr result (self.new ≡ self.old) }
        ensures twice { (result ≡ Err VoteFault.Twice) ↔ IsTrue (has_vote_of self.old.votes voter) }
        ensures wrong_length { (result ≡ Err VoteFault.Length)
            ↔ ((has_vote_of self.old.votes voter ≡ false) × (length hashes ≢ self.old.ballot.count)) }
        ensures rooms { KeepsRooms self.old self.new }
        ensures roomy { length self.old.votes < self.old.vote_room
            → (self.new.vote_room ≡ self.old.vote_room) × (result ≢ Err VoteFault.Memory) }
    {
        if counts::has_vote_of(&self.votes, voter) {
            return Err(VoteFault::Twice);
        }
        if hashes.as_slice().len() != self.ballot.count as usize {
            return Err(VoteFault::Length);
        }
        if make_place(&mut self.votes).is_err() {
            return Err(VoteFault::Memory);
        }
        self.votes.push_reserved(Vote { voter, hashes });
        self.rows.count = 0;
        self.rows.hashes.clear();
        Ok(())
    }

    /// The verdict of the votes on a copy. It takes no memory, and makes links for the blocks alone whose hashes aren't
    /// kept.
    #[tactic(auto, unfolding(crate::specs::Counting::verdict_on))]
    pub fn verdict<C: Contents, L: Ledger>(&mut self, c: &C, steps: &mut Steps<L>) -> Verdict
        requires reserved { IsReserved self.old }
        requires few { length self.old.votes ≤ MOST_CIRCLE }
        requires count { length (C.blocks c.now) ≡ self.old.ballot.count }
        requires cache { IsCacheOf self.old (C.blocks c.now) }
        ensures verdict { result
            ≡ verdict_on self.old.limits.quorum self.old.limits.minority self.old.ballot self.old.votes
            (C.blocks c.now) }
        ensures same { IsSame self.new self.old }
        ensures rooms { KeepsRooms self.old self.new }
        ensures kept { self.new.kept ≡ kept_after result self.old.kept self.old.ballot.count }
        ensures within { self.new.kept ≤ self.old.ballot.count }
        ensures cache { IsCacheOf self.new (C.blocks c.now) }
        ensures cost { steps.new ≡ steps.old + length self.old.votes * (self.new.kept - self.old.kept) }
    {
        if self.votes.len() < self.limits.quorum as usize {
            return Verdict::Inquorate;
        }
        rows::first_of_rows(
            &self.ballot,
            self.limits.minority,
            &self.votes,
            c,
            &mut self.rows,
            steps,
        )
    }

    /// What the votes say at block `b` of the copy with these bytes as that block. It takes no memory.
    pub fn try_block<C: Contents, L: Ledger>(
        &mut self,
        c: &C,
        b: u16,
        bytes: &[u8],
        steps: &mut Steps<L>,
    ) -> At
        requires within { b < self.old.ballot.count }
        requires count { length (C.blocks c.now) ≡ self.old.ballot.count }
        requires cache { IsCacheOf self.old (C.blocks c.now) }
        ensures at { result
            ≡ verdict_at self.old.limits.minority self.old.ballot self.old.votes
            (slice_set (C.blocks c.now) b bytes.now) b }
        ensures same { self.new ≡ self.old }
        ensures cost { steps.new ≡ steps.old + length self.old.votes * (b - self.old.kept + 1) }
    {
        trials::at_trial(
            &self.ballot,
            self.limits.minority,
            &self.votes,
            c,
            &self.rows,
            b,
            bytes,
            steps,
        )
    }

    /// Forgets the running hashes from block `b` on.
    pub fn forget_from(&mut self, b: u16)
        ensures { self.new ≡ hashes_forgotten b self.old }
    {
        if b < self.rows.count {
            self.rows.count = b;
            self.rows.hashes.truncate(b as usize * self.votes.len());
        }
    }

    /// What all votes of the poll are about.
    pub fn ballot(&self) -> &Ballot
        ensures { result.now ≡ self.now.ballot }
    {
        &self.ballot
    }

    /// The numbers that decide the poll.
    pub fn limits(&self) -> Limits
        ensures { result ≡ self.now.limits }
    {
        self.limits
    }

    /// The votes, in the order in which they were taken.
    pub fn votes(&self) -> &[Vote]
        ensures { result.now ≡ self.now.votes }
    {
        &self.votes
    }

    /// For how many blocks, from the first one on, the running hashes of all votes are kept.
    pub fn kept(&self) -> u16
        ensures kept { result ≡ self.now.kept }
        ensures within { result ≤ self.now.ballot.count }
    {
        self.rows.count
    }

    /// Whether both are of the same poll, with the same AU, kind of hash, nonce, count, numbers and votes.
    pub fn same(&self, other: &Tally) -> bool
        ensures { IsTrue result ↔ IsSame self.now other.now }
    {
        counts::same_ballot(&self.ballot, &other.ballot)
            && self.limits == other.limits
            && counts::same_votes(&self.votes, &other.votes)
    }

    /// A reserved copy, with the running hashes that are kept.
    pub fn copy(&self, alloc: Global) -> Result<Tally, OutOfMemory>
        ensures same { IfOk result (λ t. t ≡ roomed_as t self.now) }
        ensures reserved { IfOk result (λ t. IsReserved t) }
    {
        let mut copy = Tally {
            ballot: self.ballot,
            limits: self.limits,
            votes: counts::copy_votes(alloc, &self.votes)?,
            rows: Rows {
                count: self.rows.count,
                hashes: counts::copy_hashes(alloc, &self.rows.hashes)?,
            },
        };
        copy.reserve()?;
        Ok(copy)
    }

    /// The voters against the copy of the last verdict at block `b`, in order of their votes.
    pub fn against(&self, alloc: Global, b: u16) -> Result<Ids, OutOfMemory>
        requires { b < self.now.kept }
        ensures { (blocks : List (List ℕ)) → IsCacheOf self.now blocks
            → IfOk result (λ ids. ids ≡ voters_against self.now.ballot self.now.votes blocks b) }
    {
        let heads = rows::row(&self.rows.hashes, self.votes.len(), b);
        counts::voters_of_others(alloc, &self.votes, heads, b)
    }
}

// Takes room for one vote more where there is none.
fn make_place(votes: &mut Vec<Vote>) -> Result<(), OutOfMemory>
    ensures items { votes.new.items ≡ votes.old.items }
    ensures ok { OnOk result (vec_len votes.new < vec_capacity votes.new) }
    ensures err { OnErr result (vec_capacity votes.new ≡ vec_capacity votes.old) }
    ensures room { vec_capacity votes.old ≤ vec_capacity votes.new }
    ensures roomy { vec_len votes.old < vec_capacity votes.old
        → (vec_capacity votes.new ≡ vec_capacity votes.old) × IsOk result }
{
    if votes.len() == votes.capacity() {
        votes.try_reserve(1)?;
    }
    Ok(())
}
