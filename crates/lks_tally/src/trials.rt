//! What the votes would say of a copy with another block in place.

ghost use Rattle.std.specs.Prelude.{◌≡◌, ◌+◌, ◌*◌, ◌-◌, ◌<◌, ◌≤◌, ◌++◌, ◌∷◌, [], ℕ, List, length, take, slice_set};
ghost use Rattle.lks_hash.specs.Running.{running};
ghost use Rattle.lks_tally.specs.Counting.{for_at, verdict_at};
ghost use Rattle.lks_tally.specs.Rows.{rows_of};

use crate::ballots::{At, Ballot, Vote};
use crate::counts;
use crate::rows::{Rows, head_before};
use lks_base::Contents;
use lks_hash::{Chain, Steps};
use std::sync::ledger::Ledger;

// Takes a running hash over the blocks before `from` on over those before `b`, and then over these bytes.
fn link_to<C: Contents, L: Ledger>(
    second: bool,
    head: [u8; 32],
    copy: &C,
    from: u16,
    b: u16,
    bytes: &[u8],
    steps: &mut Steps<L>,
) -> [u8; 32]
    requires order { from ≤ b }
    requires within { b < length (C.blocks copy.now) }
    ensures hash { (key : List ℕ) → head ≡ running second key (take from (C.blocks copy.now))
        → result ≡ running second key (take b (C.blocks copy.now) ++ bytes.now ∷ []) }
    ensures cost { steps.new ≡ steps.old + (b - from + 1) }
{
    let mut chain = Chain::start(second, head);
    for k in from..b {
        chain.add(copy.block(k), steps);
    }
    chain.add(bytes, steps)
}

fn count_for_trial<C: Contents, L: Ledger>(
    ballot: &Ballot,
    votes: &[Vote],
    copy: &C,
    rows: &Rows,
    b: u16,
    bytes: &[u8],
    steps: &mut Steps<L>,
) -> usize
    requires within { b < length (C.blocks copy.now) }
    requires cache { rows.now.hashes.items ≡ rows_of ballot.now (C.blocks copy.now) votes.now rows.now.count }
    ensures count { result ≡ for_at ballot.now votes.now (slice_set (C.blocks copy.now) b bytes.now) b }
    ensures few { result ≤ length votes.now }
    ensures cost { steps.new ≡ steps.old + length votes.now * (b - rows.now.count + 1) }
{
    let second = ballot.kind.second();
    let from = rows.count.min(b);
    let mut n = 0;
    for (i, vote) in votes.iter().enumerate() {
        let head = head_before(ballot, vote.voter, votes.len(), &rows.hashes, from, i);
        let hash = link_to(second, head, copy, from, b, bytes, steps);
        if counts::has_hash(vote, b, &hash) {
            n += 1;
        }
    }
    n
}

/// What the votes say at block `b` of the copy with these bytes there.
pub fn at_trial<C: Contents, L: Ledger>(
    ballot: &Ballot,
    minority: u16,
    votes: &[Vote],
    copy: &C,
    rows: &Rows,
    b: u16,
    bytes: &[u8],
    steps: &mut Steps<L>,
) -> At
    requires within { b < length (C.blocks copy.now) }
    requires cache { rows.now.hashes.items ≡ rows_of ballot.now (C.blocks copy.now) votes.now rows.now.count }
    ensures at { result ≡ verdict_at minority ballot.now votes.now (slice_set (C.blocks copy.now) b bytes.now) b }
    ensures cost { steps.new ≡ steps.old + length votes.now * (b - rows.now.count + 1) }
{
    let votes_for = count_for_trial(ballot, votes, copy, rows, b, bytes, steps);
    counts::landslide(minority, votes_for, votes.len() - votes_for)
}
