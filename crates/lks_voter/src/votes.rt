//! The state of a session after the vote.

ghost use Rattle.std.specs.Prelude.{◌≡◌, ◌↔◌, ◌<◌, ◌≤◌, true, false, nat_eq, length, IfOk, OnErr};
ghost use Rattle.std.specs.List.{IsDistinct};
ghost use Rattle.lks_base.specs.Checking.{has_member};
ghost use Rattle.lks_voter.specs.Voting.{vote_of, answer_of, after};
ghost use Rattle.lks_voter.specs.declared.commitments.Serve.TheVariants.{First, Again, Spent};

use crate::commitments::{Committed, Serve};
use lks_base::{Hashes, OutOfMemory, has_member};
use std::alloc::Global;
use std::marker::Model;

/// The voter has voted. It serves blocks of the version to which it committed; contracts see them in the order in which
/// each was first served.
#[derive(Drop)]
pub struct Voted {
    committed: Committed,
    hashes: Hashes,
    served: Vec<u16>,
}

impl Model for Voted {
    ghost use Rattle.std.specs.Prelude.{nat_eq};
    ghost use Rattle.std.specs.List.{IsDistinct};
    ghost use Rattle.lks_voter.specs.Voting.{Vote};

    ghost Value = { Vote };

    ghost view = { λ a. record { committed = a.committed; hashes = a.hashes; served = a.served.items } };

    ghost invariant = { λ a. IsDistinct nat_eq a.served.items };
}

impl Committed {
    /// The vote has these hashes. No block was served yet.
    #[tactic(auto, using(crate::proofs::Served::none_twice))]
    pub fn vote(self, alloc: Global, hashes: Hashes) -> Voted
        ensures { result ≡ vote_of self hashes }
    {
        Voted {
            committed: self,
            hashes,
            served: Vec::new(alloc),
        }
    }
}

impl Voted {
    /// What the voter committed to, and in which poll.
    pub fn committed(&self) -> &Committed
        ensures { result.now ≡ self.now.committed }
    {
        &self.committed
    }

    /// The hashes of the vote.
    pub fn hashes(&self) -> &Hashes
        ensures { result.now ≡ self.now.hashes }
    {
        &self.hashes
    }

    /// The blocks that were served, each once.
    pub fn served(&self) -> &[u16]
        ensures served { result.now ≡ self.now.served }
        ensures once { IsDistinct nat_eq result.now }
    {
        self.served.as_slice()
    }

    /// How the voter takes the poller's request for block `b`, where it may have at most `most` blocks. It changes
    /// nothing.
    pub fn answer(&self, b: u16, most: u16) -> Serve
        ensures { result ≡ answer_of self.now.served b most }
    {
        if has_member(&self.served, b) {
            return Serve::Again;
        }
        if self.served.len() < most as usize {
            return Serve::First;
        }
        Serve::Spent
    }

    /// Takes the poller's request for block `b`, where it may have at most `most` blocks. Want of memory, which can
    /// come at a new block alone, changes nothing.
    #[tactic(auto, using(crate::proofs::Served::distinct_more))]
    pub fn serve(&mut self, b: u16, most: u16) -> Result<Serve, OutOfMemory>
        ensures answer { IfOk result (λ r. r ≡ answer_of self.old.served b most) }
        ensures first { IfOk result
            (λ r. (r ≡ First) ↔ ((has_member self.old.served b ≡ false) × (length self.old.served < most))) }
        ensures again { IfOk result (λ r. (r ≡ Again) ↔ (has_member self.old.served b ≡ true)) }
        ensures spent { IfOk result
            (λ r. (r ≡ Spent) ↔ ((has_member self.old.served b ≡ false) × (most ≤ length self.old.served))) }
        ensures after { IfOk result (λ r. self.new ≡ after self.old b r) }
        ensures err { OnErr result (self.new ≡ self.old) }
        ensures need { OnErr result (answer_of self.old.served b most ≡ First) }
        ensures bound { length self.old.served ≤ most → length self.new.served ≤ most }
    {
        match self.answer(b, most) {
            Serve::First => {
                self.served.push(b)?;
                Ok(Serve::First)
            }
            Serve::Again => Ok(Serve::Again),
            Serve::Spent => Ok(Serve::Spent),
        }
    }
}
