//! Votes in a slice, hashed afresh at each call.

ghost use Rattle.std.specs.Prelude.{◌≡◌, ◌+◌, ◌*◌, ◌≤◌, min, length, take, IfOk};
ghost use Rattle.lks_tally.specs.Counting.{voters_for};
ghost use Rattle.lks_tally.specs.Heads.{heads};

use crate::ballots::{Ballot, Vote};
use crate::counts;
use lks_base::{Contents, Ids, OutOfMemory};
use lks_hash::Steps;
use std::alloc::Global;
use std::sync::ledger::Ledger;

// Takes the running hashes of all voters from their keys on to those after the first blocks.
fn link_blocks<C: Contents, L: Ledger>(
    ballot: &Ballot,
    votes: &[Vote],
    copy: &C,
    count: u16,
    keys: &mut [[u8; 32]],
    steps: &mut Steps<L>,
)
    requires keys { keys.old ≡ heads ballot.now (take 0 (C.blocks copy.now)) votes.now }
    requires within { count ≤ length (C.blocks copy.now) }
    ensures heads { keys.new ≡ heads ballot.now (take count (C.blocks copy.now)) votes.now }
    ensures cost { steps.new ≤ steps.old + length votes.now * count }
{
    let second = ballot.kind.second();
    for b in 0..count {
        counts::advance(second, keys, copy.block(b), steps);
    }
}

// How many of `count` blocks stand at or before block `b`.
fn end_of(b: u16, count: u16) -> u16
    ensures { result ≡ min (b + 1) count }
{
    if b < count { b + 1 } else { count }
}

/// The voters of these votes that are for a copy at block `b`, in order of their votes.
pub fn for_of<C: Contents, L: Ledger>(
    alloc: Global,
    ballot: &Ballot,
    votes: &[Vote],
    copy: &C,
    b: u16,
    steps: &mut Steps<L>,
) -> Result<Ids, OutOfMemory>
    ensures voters { IfOk result (λ ids. ids ≡ voters_for ballot.now votes.now (C.blocks copy.now) b) }
    ensures cost { steps.new ≤ steps.old + length votes.now * length (C.blocks copy.now) }
{
    let mut keys = counts::keys(alloc, ballot, votes)?;
    let end = end_of(b, copy.count());
    link_blocks(ballot, votes, copy, end, &mut keys, steps);
    counts::voters_of_holders(alloc, votes, &keys, b)
}
