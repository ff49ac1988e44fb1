//! What several subjects are tried with: numbers of a poll, a copy of two blocks, and votes over it.

ghost use Rattle.std.specs.Prelude.{◌≡◌, ◌+◌, [], ◌∷◌, length, IfOk};
ghost use Rattle.lks_tally.specs.Keeping.{IsReserved};

use lks_base::{Contents, HashKind, Hashes, OutOfMemory, PollName, Rules};
use lks_tally::{Tally, VoteFault};
use std::alloc::Global;

pub const POLL: PollName = PollName {
    poller: 1,
    number: 1,
};

pub const NONCE: &[u8; 32] =
    b"\x0d\x00\xe5\xe6\xa8\xa8\x16\xce\x10\x26\x5b\xd3\x71\xe0\x54\x0c\xe6\x12\x67\xae\xae\x9a\x83\x5e\x35\xde\x02\x48\x49\x3c\x5d\x44";

/// A quorum of 3, and at most 1 vote in a minority.
pub const RULES: Rules = Rules {
    inner: 4,
    quorum: 3,
    minority: 1,
    outer: 1,
    repairs: 8,
    pace: 0,
    refractory: 0,
    overdue: 0,
    unknown_pct: 100,
    debt_pct: 100,
    churn: 0,
};

/// Hashes that another implementation of FIPS 180-4 computed, of voter 2 over the blocks `41` and `42` in [`POLL`] on
/// AU 1 with [`NONCE`], by SHA-256.
pub const PUBLISHED: [[u8; 32]; 2] = [
    *b"\xb2\x5b\xcb\x74\x73\x3d\x96\x81\x81\x48\x94\x3c\x6c\x09\x77\xad\xd8\x53\x31\x1a\x4d\x9c\xfe\x27\x80\xfa\x25\xb2\x06\x91\x36\x04",
    *b"\x1c\xc0\x9c\x4e\x0a\x7e\xaf\x35\x6b\xc7\x82\x44\x6c\x15\xc9\xca\x4a\x24\x0a\x4b\x7b\x46\x03\x74\xbd\x05\xc9\x74\x4e\x4c\x24\xa7",
];

/// A copy of the block `41` and another one.
#[derive(Clone, Copy)]
pub struct Pair(pub [u8; 1]);

impl Contents for Pair {
    ghost blocks = { λ c. (65 ∷ []) ∷ c.0 ∷ [] };

    fn count(&self) -> u16 {
        2
    }

    fn block(&self, b: u16) -> &[u8] {
        if b == 0 { b"A" } else { &self.0 }
    }
}

/// A tally under [`RULES`] with room for the votes of a circle.
pub fn tally_without_votes(alloc: Global, kind: HashKind, count: u16) -> Result<Tally, OutOfMemory>
    ensures reserved { IfOk result (λ t. IsReserved t) }
    ensures votes { IfOk result (λ t. t.votes ≡ []) }
    ensures count { IfOk result (λ t. t.ballot.count ≡ count) }
    ensures nothing_kept { IfOk result (λ t. (t.kept ≡ 0) × (t.hashes ≡ [])) }
{
    let mut tally = Tally::new(alloc, &RULES, POLL, 1, kind, *NONCE, count);
    tally.reserve()?;
    Ok(tally)
}

/// Takes a vote into a tally that has room for it.
pub fn add_vote(tally: &mut Tally, voter: u16, hashes: Hashes) -> Result<(), VoteFault>
    requires reserved { IsReserved tally.old }
    ensures reserved { IfOk result (λ _. IsReserved tally.new) }
    ensures votes { IfOk result (λ _. length tally.new.votes ≡ length tally.old.votes + 1) }
    ensures count { IfOk result (λ _. tally.new.ballot.count ≡ tally.old.ballot.count) }
    ensures nothing_kept { IfOk result (λ _. (tally.new.kept ≡ 0) × (tally.new.hashes ≡ [])) }
{
    tally.add_vote(voter, hashes)
}
