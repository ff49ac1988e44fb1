//! What a poll reads of a copy.

ghost use Rattle.std.specs.Prelude.{◌≡◌, ◌≤◌, length};
ghost use Rattle.lks_blocks.specs.Block.{AllOf, bytes_of};

use lks_base::Contents;
use lks_blocks::{BlockPool, BlockRef};
use std::marker::Model;

/// A version of a copy that was the newest when its references were taken, with the pool that has its blocks. Contracts
/// see the bytes of each block.
#[derive(Drop)]
pub struct Newest<'a> {
    pool: &'a BlockPool,
    refs: &'a [BlockRef],
}

impl<'a> Model for Newest<'a> {
    ghost use Rattle.std.specs.Prelude.{ℕ, List, ◌≤◌, length};
    ghost use Rattle.lks_blocks.specs.Block.{AllOf, bytes_of};

    ghost Value = { List (List ℕ) };

    ghost view = { λ n. bytes_of n.refs.now };

    ghost invariant = { λ n. AllOf n.pool.now n.refs.now × (length n.refs.now ≤ 65535) };
}

impl<'a> Newest<'a> {
    /// The blocks that these references name.
    pub fn new(pool: &'a BlockPool, refs: &'a [BlockRef]) -> Newest<'a>
        requires of { AllOf pool.now refs.now }
        requires few { length refs.now ≤ 65535 }
        ensures { result ≡ bytes_of refs.now }
    {
        Newest { pool, refs }
    }
}

impl<'a> Contents for Newest<'a> {
    ghost blocks = { λ n. n };

    fn count(&self) -> u16 {
        self.refs.len() as u16
    }

    #[tactic(auto, unfolding(lks_blocks::specs::Block::AllOf), using(lks_blocks::proofs::Bytes::bytes_count, lks_blocks::proofs::Bytes::bytes_got))]
    fn block(&self, b: u16) -> &[u8] {
        self.pool.read(&self.refs[b as usize])
    }
}
