//! Votes that a session takes, and their counts, of which it promises no number of links.

ghost use Rattle.std.specs.Prelude.{◌≡◌, ◌<◌, ◌≤◌, ◌++◌, ◌∷◌, [], length, false, slice_set, IfOk, OnOk, OnErr};
ghost use Rattle.lks_base.specs.declared.limits.TheConstants.{MOST_CIRCLE};
ghost use Rattle.lks_hash.specs.Counting.{Opens};
ghost use Rattle.lks_tally.specs.Counting.{verdict_at, verdict_on, voters_for};
ghost use Rattle.lks_tally.specs.Keeping.{IsCacheOf, IsReserved, IsSame, KeepsRooms, has_vote_of, kept_after};
ghost use Rattle.lks_tally.specs.Keeping.{vote_added};

use lks_base::{Contents, Hashes, Ids, OutOfMemory, PeerId};
use lks_hash::Steps;
use lks_tally::{At, Ballot, Tally, Verdict, Vote, VoteFault, for_of};
use std::alloc::Global;
use std::sync::ledger::{Blank, Ledger};

/// Takes the vote of a peer that hasn't voted, where the tally has room for it, and notes the voter.
pub fn add_inner(
    tally: &mut Tally,
    voters: &mut Vec<PeerId>,
    voter: PeerId,
    hashes: Hashes,
) -> Result<(), OutOfMemory>
    requires new { has_vote_of tally.old.votes voter ≡ false }
    requires whole { length hashes ≡ tally.old.ballot.count }
    requires room { length tally.old.votes < tally.old.vote_room }
    ensures tally { OnOk result (tally.new ≡ vote_added tally.old (record { voter = voter; hashes = hashes })) }
    ensures voters { OnOk result (voters.new.items ≡ voters.old.items ++ voter ∷ []) }
    ensures err { OnErr result (tally.new ≡ tally.old) }
    ensures err_voters { OnErr result (voters.new.items ≡ voters.old.items) }
{
    voters.try_reserve(1)?;
    match tally.add_vote(voter, hashes) {
        Ok(()) => {}
        Err(VoteFault::Twice | VoteFault::Length | VoteFault::Memory) => unreachable!(),
    }
    voters.push_reserved(voter);
    Ok(())
}

/// Takes a vote that isn't counted, and notes the voter.
pub fn add_outer(
    votes: &mut Vec<Vote>,
    voters: &mut Vec<PeerId>,
    voter: PeerId,
    hashes: Hashes,
) -> Result<(), OutOfMemory>
    ensures votes { OnOk result (votes.new.items ≡ votes.old.items ++ record { voter = voter; hashes = hashes } ∷ []) }
    ensures voters { OnOk result (voters.new.items ≡ voters.old.items ++ voter ∷ []) }
    ensures err { OnErr result (votes.new.items ≡ votes.old.items) }
    ensures err_voters { OnErr result (voters.new.items ≡ voters.old.items) }
{
    voters.try_reserve(1)?;
    votes.push(Vote { voter, hashes })?;
    voters.push_reserved(voter);
    Ok(())
}

/// The verdict of the votes on a copy.
pub fn verdict_counted<C: Contents, L: Ledger>(tally: &mut Tally, c: &C, blank: Blank) -> Verdict
    requires opens { Opens blank L.name L.parts }
    requires reserved { IsReserved tally.old }
    requires few { length tally.old.votes ≤ MOST_CIRCLE }
    requires count { length (C.blocks c.now) ≡ tally.old.ballot.count }
    requires cache { IsCacheOf tally.old (C.blocks c.now) }
    ensures verdict { result
        ≡ verdict_on tally.old.limits.quorum tally.old.limits.minority tally.old.ballot tally.old.votes
        (C.blocks c.now) }
    ensures same { IsSame tally.new tally.old }
    ensures rooms { KeepsRooms tally.old tally.new }
    ensures kept { tally.new.kept ≡ kept_after result tally.old.kept tally.old.ballot.count }
    ensures within { tally.new.kept ≤ tally.old.ballot.count }
    ensures cache { IsCacheOf tally.new (C.blocks c.now) }
{
    tally.verdict(c, &mut Steps::<L>::open(blank))
}

/// What the votes say at block `b` of the copy with these bytes there.
pub fn at_counted<C: Contents, L: Ledger>(
    tally: &mut Tally,
    c: &C,
    b: u16,
    bytes: &[u8],
    blank: Blank,
) -> At
    requires opens { Opens blank L.name L.parts }
    requires within { b < tally.old.ballot.count }
    requires count { length (C.blocks c.now) ≡ tally.old.ballot.count }
    requires cache { IsCacheOf tally.old (C.blocks c.now) }
    ensures at { result
        ≡ verdict_at tally.old.limits.minority tally.old.ballot tally.old.votes
        (slice_set (C.blocks c.now) b bytes.now) b }
    ensures same { tally.new ≡ tally.old }
{
    tally.try_block(c, b, bytes, &mut Steps::<L>::open(blank))
}

/// The voters whose votes are for a copy at block `b`.
pub fn for_counted<C: Contents, L: Ledger>(
    alloc: Global,
    ballot: &Ballot,
    votes: &[Vote],
    c: &C,
    b: u16,
    blank: Blank,
) -> Result<Ids, OutOfMemory>
    requires { Opens blank L.name L.parts }
    ensures { IfOk result (λ ids. ids ≡ voters_for ballot.now votes.now (C.blocks c.now) b) }
{
    for_of(alloc, ballot, votes, c, b, &mut Steps::<L>::open(blank))
}
