//! Running hashes that are kept between verdicts: block after block a row, in it one hash for each vote.

ghost use Rattle.std.specs.Prelude.{◌≡◌, ◌+◌, ◌*◌, ◌-◌, ◌<◌, ◌≤◌, ◌++◌, ◌∷◌, [], max, length, take, drop, slice_get};
ghost use Rattle.std.specs.Prelude.{vec_len, vec_capacity};
ghost use Rattle.lks_base.specs.Kinds.{is_second};
ghost use Rattle.lks_hash.specs.Running.{running};
ghost use Rattle.lks_tally.specs.Counting.{key_for, verdict_at, first_from};
ghost use Rattle.lks_tally.specs.Keeping.{kept_after};
ghost use Rattle.lks_tally.specs.Rows as kept;

use crate::ballots::{At, Ballot, Verdict, Vote};
use crate::counts;
use lks_base::Contents;
use lks_hash::{Chain, Steps};
use std::sync::ledger::Ledger;

/// The rows of the first `count` blocks.
#[derive(Drop)]
pub struct Rows {
    pub count: u16,
    pub hashes: Vec<[u8; 32]>,
}

/// The running hash before block `b` of the vote at place `i` among `width`.
pub fn head_before(
    ballot: &Ballot,
    voter: u16,
    width: usize,
    hashes: &[[u8; 32]],
    b: u16,
    i: usize,
) -> [u8; 32]
    requires row { b * width ≤ length hashes.now }
    requires place { i < width }
    ensures { result ≡ kept.head_before ballot.now voter width hashes.now b i }
{
    if b == 0 {
        counts::voter_key(ballot, voter)
    } else {
        hashes[(b as usize - 1) * width + i]
    }
}

// Puts the row of block `b` behind those of the blocks before it.
fn push_row<C: Contents, L: Ledger>(
    ballot: &Ballot,
    votes: &[Vote],
    copy: &C,
    b: u16,
    hashes: &mut Vec<[u8; 32]>,
    steps: &mut Steps<L>,
)
    requires within { b < length (C.blocks copy.now) }
    requires cache { hashes.old.items ≡ kept.rows_of ballot.now (C.blocks copy.now) votes.now b }
    requires room { length votes.now * (b + 1) ≤ vec_capacity hashes.old }
    ensures cache { hashes.new.items ≡ kept.rows_of ballot.now (C.blocks copy.now) votes.now (b + 1) }
    ensures room { vec_capacity hashes.old ≤ vec_capacity hashes.new }
    ensures cost { steps.new ≡ steps.old + length votes.now }
{
    let second = ballot.kind.second();
    let block = copy.block(b);
    for (i, vote) in votes.iter().enumerate() {
        let head = head_before(ballot, vote.voter, votes.len(), hashes, b, i);
        hashes.push_reserved(Chain::start(second, head).add(block, steps));
    }
}

// Sees to a row for block `b`, which is at most the first one without.
fn reach<C: Contents, L: Ledger>(
    ballot: &Ballot,
    votes: &[Vote],
    copy: &C,
    b: u16,
    rows: &mut Rows,
    steps: &mut Steps<L>,
)
    requires within { b < length (C.blocks copy.now) }
    requires fits { b < u16.MAX }
    requires next { b ≤ rows.old.count }
    requires cache { rows.old.hashes.items ≡ kept.rows_of ballot.now (C.blocks copy.now) votes.now rows.old.count }
    requires room { length votes.now * (b + 1) ≤ vec_capacity rows.old.hashes }
    ensures count { rows.new.count ≡ max rows.old.count (b + 1) }
    ensures cache { rows.new.hashes.items ≡ kept.rows_of ballot.now (C.blocks copy.now) votes.now rows.new.count }
    ensures room { vec_capacity rows.old.hashes ≤ vec_capacity rows.new.hashes }
    ensures cost { steps.new ≡ steps.old + length votes.now * (rows.new.count - rows.old.count) }
{
    if b == rows.count {
        push_row(ballot, votes, copy, b, &mut rows.hashes, steps);
        rows.count = b + 1;
    }
}

/// The row of block `b`, where rows have `width` hashes.
pub fn row(hashes: &[[u8; 32]], width: usize, b: u16) -> &[[u8; 32]]
    requires { b * width + width ≤ length hashes.now }
    ensures { result.now ≡ take width (drop (b * width) hashes.now) }
{
    let start = b as usize * width;
    &hashes[start..start + width]
}

// What the votes say at block `b`, by its row.
fn at_row<C: Contents, L: Ledger>(
    ballot: &Ballot,
    minority: u16,
    votes: &[Vote],
    copy: &C,
    b: u16,
    rows: &mut Rows,
    steps: &mut Steps<L>,
) -> At
    requires within { b < length (C.blocks copy.now) }
    requires fits { b < u16.MAX }
    requires next { b ≤ rows.old.count }
    requires cache { rows.old.hashes.items ≡ kept.rows_of ballot.now (C.blocks copy.now) votes.now rows.old.count }
    requires room { length votes.now * (b + 1) ≤ vec_capacity rows.old.hashes }
    ensures at { result ≡ verdict_at minority ballot.now votes.now (C.blocks copy.now) b }
    ensures count { rows.new.count ≡ max rows.old.count (b + 1) }
    ensures cache { rows.new.hashes.items ≡ kept.rows_of ballot.now (C.blocks copy.now) votes.now rows.new.count }
    ensures room { vec_capacity rows.old.hashes ≤ vec_capacity rows.new.hashes }
    ensures cost { steps.new ≡ steps.old + length votes.now * (rows.new.count - rows.old.count) }
{
    reach(ballot, votes, copy, b, rows, steps);
    let heads = row(&rows.hashes, votes.len(), b);
    counts::at_heads(minority, votes, heads, b)
}

/// The first block that isn't a win, by the rows that are there and those that it adds.
pub fn first_of_rows<C: Contents, L: Ledger>(
    ballot: &Ballot,
    minority: u16,
    votes: &[Vote],
    copy: &C,
    rows: &mut Rows,
    steps: &mut Steps<L>,
) -> Verdict
    requires few { rows.old.count ≤ length (C.blocks copy.now) }
    requires cache { rows.old.hashes.items ≡ kept.rows_of ballot.now (C.blocks copy.now) votes.now rows.old.count }
    requires room { length votes.now * length (C.blocks copy.now) ≤ vec_capacity rows.old.hashes }
    ensures verdict { result
        ≡ first_from minority ballot.now votes.now (C.blocks copy.now) 0 (length (C.blocks copy.now)) }
    ensures count { rows.new.count ≡ kept_after result rows.old.count (length (C.blocks copy.now)) }
    ensures few { rows.new.count ≤ length (C.blocks copy.now) }
    ensures cache { rows.new.hashes.items ≡ kept.rows_of ballot.now (C.blocks copy.now) votes.now rows.new.count }
    ensures room { vec_capacity rows.old.hashes ≤ vec_capacity rows.new.hashes }
    ensures cost { steps.new ≡ steps.old + length votes.now * (rows.new.count - rows.old.count) }
{
    for b in 0..copy.count() {
        match at_row(ballot, minority, votes, copy, b, rows, steps) {
            At::Win => {}
            At::Loss => return Verdict::Loss { block: b },
            At::Split => return Verdict::Split { block: b },
        }
    }
    Verdict::Agreed
}
