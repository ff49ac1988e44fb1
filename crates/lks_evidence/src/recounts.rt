//! The recount of a poll: what its repairs have in common, kept from one of them to the next.

ghost use Rattle.std.specs.Prelude.{◌≡◌, ◌≤◌, IfOk, OnOk, Some, List, take, slice_set};
ghost use Rattle.lks_base.specs.declared.plans.Plan.{Plan as Planned};
ghost use Rattle.lks_evidence.specs.declared.findings.Shelf.{Shelf as OnShelf};
ghost use Rattle.lks_law.specs.Journal.{contents_of};
ghost use Rattle.lks_evidence.specs.Recounts.{HasCopy, HasDoubt, HasHashes, IsSame, is_of, recount_by, recount_after};
ghost use Rattle.lks_evidence.specs.Recounts.{last_after, unsettles, with_mended_block};
ghost use Rattle.lks_evidence.specs.Recounts as recounts;
ghost use Rattle.lks_evidence.specs.Rules as rules;
ghost use Rattle.lks_tally.specs.Heads.{heads};

use crate::cases::Case;
use crate::copies::{copy_of, put};
use crate::findings::Why;
use crate::hashing::{count_for, count_for_new, keys, reach};
use crate::polls::{ballot_for, doubt_loss, doubt_shape, doubt_win, is_polled, limits_of};
use crate::records::{Repair, as_repair, deposits, find_opening, inner_votes_of, is_vote, opens};
use crate::voters::{begin, count_in};
use lks_base::{Bytes, Limits, OutOfMemory, Record};
use lks_law::Opening;
use lks_tally::{Ballot, Vote};
use std::alloc::Global;
use std::marker::Model;

/// A poll that replaced a block, as the poller's journal has it so far: the votes, the copy as it stands, and each
/// voter's running hash over the first `front` blocks of that.
#[derive(Drop)]
pub struct Recount {
    number: u32,
    limits: Limits,
    ballot: Ballot,
    votes: Vec<Vote>,
    copy: Vec<Bytes>,
    front: u16,
    hashes: Vec<[u8; 32]>,
    doubt: Option<Why>,
}

impl Model for Recount {
    ghost use Rattle.lks_evidence.specs.Recounts.{Recounted};

    ghost Value = { Recounted };

    ghost view = { λ a.
        record {
          number = a.number;
          limits = a.limits;
          ballot = a.ballot;
          votes = a.votes.items;
          copy = a.copy.items;
          front = a.front;
          hashes = a.hashes.items;
          doubt = a.doubt;
        } };
}

impl Recount {
    /// Whether the repair is of this poll.
    pub fn covers(&self, r: &Repair<'_>) -> bool
        ensures { result ≡ is_of r.now self.now }
    {
        self.number == r.number && self.ballot.au == r.au
    }

    fn into_copy(self) -> Vec<Bytes>
        ensures { result.items ≡ self.copy }
    {
        self.copy
    }

    /// Takes the hashes to the blocks before `b`, from those over fewer blocks, or afresh.
    fn reach(&mut self, alloc: Global, b: u16) -> Result<(), OutOfMemory>
        requires { HasHashes self.old }
        ensures { OnOk result
            (self.new
            ≡ record self.old {
              front = b;
              hashes = heads self.old.ballot (take b self.old.copy) self.old.votes;
            }) }
    {
        if b < self.front {
            self.hashes = keys(alloc, &self.ballot, &self.votes)?;
            self.front = 0;
        }
        reach(
            &self.ballot,
            &self.votes,
            &self.copy,
            &mut self.hashes,
            self.front,
            b,
        );
        self.front = b;
        Ok(())
    }

    /// Whether a quorum votes, and a minority at most for the copy at block `b`.
    #[tactic(auto, unfolding(crate::specs::Rules::loss_doubt))]
    fn doubt_loss(&self, b: u16) -> Option<Why>
        requires { self.now.hashes ≡ heads self.now.ballot (take b self.now.copy) self.now.votes }
        ensures { result ≡ rules.loss_doubt self.now.limits self.now.ballot self.now.votes self.now.copy b }
    {
        let votes_for = count_for(&self.ballot, &self.votes, &self.hashes, &self.copy, b);
        doubt_loss(self.limits, self.votes.len(), votes_for)
    }

    /// Whether a minority at most votes against it with these bytes there.
    #[tactic(auto, unfolding(crate::specs::Rules::win_doubt))]
    fn doubt_win(&self, b: u16, bytes: &Bytes) -> Option<Why>
        requires { self.now.hashes ≡ heads self.now.ballot (take b self.now.copy) self.now.votes }
        ensures { result
            ≡ rules.win_doubt self.now.limits self.now.ballot self.now.votes (slice_set self.now.copy b bytes.now)
            b }
    {
        let votes_for = count_for_new(
            &self.ballot,
            &self.votes,
            &self.hashes,
            &self.copy,
            b,
            bytes,
        );
        doubt_win(self.limits, self.votes.len(), votes_for)
    }

    /// What the votes leave in doubt of a repair of the copy as it stands.
    pub fn doubt_votes(&mut self, alloc: Global, r: &Repair<'_>) -> Result<Option<Why>, OutOfMemory>
        requires { HasHashes self.old }
        ensures why { IfOk result
            (λ why. (plan : Planned) (set : List OnShelf) → HasDoubt plan set self.old
            → why
            ≡ rules.votes_doubt plan set self.old.limits self.old.ballot self.old.votes self.old.copy r.now) }
        ensures hashes { OnOk result (HasHashes self.new) }
        ensures same { OnOk result (IsSame self.new self.old) }
    {
        if let Some(why) = doubt_shape(self.ballot.count, &self.votes) {
            return Ok(Some(why));
        }
        self.reach(alloc, r.block)?;
        if let Some(why) = self.doubt_loss(r.block) {
            return Ok(Some(why));
        }
        if let Some(why) = self.doubt_win(r.block, r.bytes) {
            return Ok(Some(why));
        }
        Ok(self.doubt)
    }

    /// Whether the record changes what is kept otherwise than by a repair.
    #[tactic(auto, unfolding(crate::specs::Recounts::unsettles))]
    fn is_unsettled_by(&self, item: &Record) -> bool
        ensures { result ≡ unsettles self.now item.now }
    {
        deposits(item, self.ballot.au) || (opens(item, self.number) || is_vote(item, self.number))
    }

    /// Puts a replaced block into the copy, and forgets the hashes where it stands in their front.
    fn mend(&mut self, alloc: Global, block: u16, bytes: &Bytes) -> Result<(), OutOfMemory>
        ensures { OnOk result
            (self.new ≡ with_mended_block self.old (Some (record { block = block; bytes = bytes.now }))) }
    {
        put(&mut self.copy, block, bytes)?;
        if block < self.front {
            self.hashes = keys(alloc, &self.ballot, &self.votes)?;
            self.front = 0;
        }
        Ok(())
    }

    /// The recount after one record more of the poller's journal, if it still stands.
    #[tactic(auto, unfolding(crate::specs::Recounts::recount_after))]
    fn after(self, alloc: Global, item: &Record) -> Result<Option<Recount>, OutOfMemory>
        ensures { IfOk result (λ k. k ≡ recount_after self item.now) }
    {
        if self.is_unsettled_by(item) {
            return Ok(None);
        }
        let mut recount = self;
        if let Some(r) = as_repair(item) {
            if r.au == recount.ballot.au {
                recount.mend(alloc, r.block, r.bytes)?;
            }
        }
        Ok(Some(recount))
    }
}

/// The last recount after one record more, if it still stands.
pub fn after(
    alloc: Global,
    last: Option<Recount>,
    item: &Record,
) -> Result<Option<Recount>, OutOfMemory>
    ensures { IfOk result (λ k. k ≡ last_after last item.now) }
{
    match last {
        Some(recount) => recount.after(alloc, item),
        None => Ok(None),
    }
}

#[tactic(auto, unfolding(crate::specs::Recounts::recount_by))]
fn recount_opened(
    alloc: Global,
    case: &Case<'_>,
    before: &[Record],
    copy: Vec<Bytes>,
    r: &Repair<'_>,
    opening: &Opening<'_>,
) -> Result<Option<Recount>, OutOfMemory>
    ensures { IfOk result
        (λ k. k
        ≡ recount_by case.now.plan.now case.now.set.now case.now.poller before.now copy.items r.now opening.now) }
{
    let limits = limits_of(&case.plan.rules, opening);
    if !is_polled(limits, before, r, opening) {
        return Ok(None);
    }
    let count = count_in(case.plan.aus.as_slice(), r.au).unwrap_or(0);
    let ballot = ballot_for(case.poller, r.number, opening, count);
    let votes = inner_votes_of(alloc, before, r.number, opening.inner.as_slice())?;
    let begun = begin(
        alloc,
        case.plan.aus.as_slice(),
        case.set,
        &ballot,
        &votes,
        &copy,
        r.block,
    )?;
    Ok(Some(Recount {
        number: r.number,
        limits,
        ballot,
        votes,
        copy,
        front: r.block,
        hashes: begun.hashes,
        doubt: begun.doubt,
    }))
}

/// The poll that replaced a block of this copy, if these records open it once, on the AU and with numbers that obey the
/// quorum rule, and shut it.
#[tactic(auto, unfolding(crate::specs::Recounts::recount_of))]
pub fn recount_of(
    alloc: Global,
    case: &Case<'_>,
    before: &[Record],
    copy: Vec<Bytes>,
    r: &Repair<'_>,
) -> Result<Option<Recount>, OutOfMemory>
    ensures { IfOk result
        (λ k. k ≡ recounts.recount_of case.now.plan.now case.now.set.now case.now.poller before.now copy.items r.now) }
{
    match find_opening(before, r.number) {
        Some(opening) => recount_opened(alloc, case, before, copy, r, &opening),
        None => Ok(None),
    }
}

/// The copy of the repair's AU as it stands: that of the last recount, where that is of the AU.
pub fn find_copy(
    alloc: Global,
    before: &[Record],
    r: &Repair<'_>,
    last: Option<Recount>,
) -> Result<Vec<Bytes>, OutOfMemory>
    requires { HasCopy before.now last }
    ensures { IfOk result (λ copy. copy.items ≡ contents_of r.now.au before.now) }
{
    match last {
        Some(recount) if recount.ballot.au == r.au => Ok(recount.into_copy()),
        Some(_) | None => copy_of(alloc, before, r.au),
    }
}
