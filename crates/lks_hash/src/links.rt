//! A chain of running hashes, and the count of its links.
ghost use Rattle.std.specs.Prelude.{◌≡◌, ℕ, ◌+◌, ◌<◌, List, [], ◌∷◌, ◌++◌};
ghost use Rattle.lks_hash.specs.Counting.{Opens};
ghost use Rattle.lks_hash.specs.Running.{linked, running};

use sha2::{Digest, Sha256, Sha512_256};
use std::marker::Model;
use std::sync::ledger::{Blank, Book, Ledger, Share};

/// How many links were made. It takes no bytes, and only [`Chain::add`] changes it.
#[derive(Drop)]
pub struct Steps<L: Ledger> {
    book: Book<L>,
    share: Share<L>,
}

impl<L: Ledger> Model for Steps<L> {
    ghost use Rattle.std.specs.Prelude.{ℕ, ◌<◌};

    ghost Value = { ℕ };

    ghost view = { λ s. s.book.total };

    ghost invariant = { λ s. 0 < s.share.parts };
}

impl<L: Ledger> Steps<L> {
    /// A counter that has counted nothing. A caller that promises no count makes one in a function of its own, where
    /// `Brand` is `std::marker::Brand`, and says in that caller's `Invariants.antt` which ledger the blank opens, by
    /// `ghosts-counted a = record { name = a.blank.name; parts = a.blank.parts }`:
    ///
    /// ```rust
    /// fn counted<L: Ledger>(blank: Blank, key: [u8; 32], block: &[u8]) -> [u8; 32]
    ///     requires { Opens blank L.name L.parts }
    /// {
    ///     Chain::start(false, key).add(block, &mut Steps::<L>::open(blank))
    /// }
    ///
    /// pub fn first_hash(key: [u8; 32], block: &[u8]) -> [u8; 32] {
    ///     counted::<Brand>(Blank::new(1), key, block)
    /// }
    /// ```
    pub fn open(blank: Blank) -> Steps<L>
        requires { Opens blank L.name L.parts }
        ensures { result ≡ 0 }
    {
        let (book, share) = blank.open::<L>();
        Steps { book, share }
    }

    fn tick(&mut self)
        ensures { self.new ≡ self.old + 1 }
    {
        self.book.add(&mut self.share, 1);
    }
}

/// A running hash over blocks that are added one at a time, first to last. Contracts see its kind and its last hash.
#[derive(Drop)]
pub struct Chain {
    second: bool,
    last: [u8; 32],
}

impl Model for Chain {
    ghost use Rattle.lks_hash.specs.Running.{Progress};

    ghost Value = { Progress };

    ghost view = { λ c. record { second = c.second; last = c.last } };
}

impl Chain {
    /// A chain that begins at a vote's key, or goes on from a running hash that was kept.
    pub fn start(second: bool, key: [u8; 32]) -> Chain
        ensures { result ≡ record { second = second; last = key } }
    {
        Chain { second, last: key }
    }

    /// Adds a block, and gives the running hash after it. This is the one call that makes a link.
    #[tactic(auto, using(crate::proofs::RunningLaws::running_more))]
    pub fn add<L: Ledger>(&mut self, block: &[u8], steps: &mut Steps<L>) -> [u8; 32]
        ensures hash { result ≡ linked self.old.second self.old.last block.now }
        ensures chain { self.new ≡ record { second = self.old.second; last = result } }

        // A chain that began at a key, and to which these blocks were added so far, gives the hash after them and this
        // one.
        ensures whole { (key : List ℕ) (blocks : List (List ℕ)) → self.old.last ≡ running self.old.second key blocks
            → result ≡ running self.old.second key (blocks ++ block.now ∷ []) }
        ensures cost { steps.new ≡ steps.old + 1 }
    {
        steps.tick();
        let last = self.last.as_slice();
        let hash = if self.second {
            hash_both::<Sha512_256>(last, block)
        } else {
            hash_both::<Sha256>(last, block)
        };
        self.last = hash;
        hash
    }
}

// The hash of two pieces, taken as one message.
fn hash_both<D: Digest>(first: &[u8], rest: &[u8]) -> D::Output
    ensures { D.digest_of (first.now ++ rest.now) result }
{
    D::new_with_prefix(first).chain_update(rest).finalize()
}
