//! The pool, and references to its blocks.

ghost use Rattle.std.specs.Prelude.{◌≡◌, ◌↔◌, IsTrue, IfOk, IfErr};
ghost use Rattle.std.specs.Bool.{OnTrue};
ghost use Rattle.lks_blocks.specs.Block.{AllOf, indexes_of};

use crate::memory::OutOfMemory;
use boxcar::Pushed;
use boxcar::tag::{Names, Tag};
use std::alloc::{AllocError, Global};
use std::marker::Model;
use std::sync::Wait;
use std::sync::atomic::{AtomicU64, Ordering};

/// Blocks that many threads put and read. Contracts see the names of its slots, which tell it from every other pool.
#[derive(Drop)]
pub struct BlockPool {
    blocks: boxcar::Vec<Vec<u8>>,
    reads: AtomicU64,
}

impl Model for BlockPool {
    ghost use Rattle.std.specs.Prelude.{ℕ, List};
    ghost use Rattle.lks_blocks.specs.Key.{key_of};

    ghost Value = { List ℕ };

    ghost view = { λ p. key_of p.blocks };
}

/// Which pool it is, without its blocks. It takes no memory, so whatever keeps references keeps one to say whose they
/// are.
#[derive(Drop)]
pub struct PoolMark {
    tag: Tag,
}

impl Model for PoolMark {
    ghost use Rattle.std.specs.Prelude.{ℕ, List};

    ghost Value = { List ℕ };

    ghost view = { λ m. m.tag.numbers };
}

/// How a mark is made of a pool.
struct OfPool;

impl Names<BlockPool> for OfPool {
    ghost numbers = { λ p. p };
}

/// How a mark is made of another.
struct OfTag;

impl Names<Tag> for OfTag {
    ghost numbers = { λ t. t.numbers };
}

impl PoolMark {
    /// The mark of this pool.
    pub fn of(pool: &BlockPool) -> PoolMark
        ensures { result ≡ pool.now }
    {
        PoolMark {
            tag: Tag::of::<BlockPool, OfPool>(pool),
        }
    }

    /// Another mark of the same pool.
    pub fn again(&self) -> PoolMark
        ensures { result ≡ self.now }
    {
        PoolMark {
            tag: Tag::of::<Tag, OfTag>(&self.tag),
        }
    }
}

/// A block of a pool. It borrows nothing, so it may be kept and handed to another thread.
#[derive(Drop)]
pub struct BlockRef {
    token: Pushed<Vec<u8>>,
    pool: PoolMark,
}

impl Model for BlockRef {
    ghost use Rattle.std.specs.Prelude.{◌≡◌, slice_index_or};
    ghost use Rattle.lks_blocks.specs.Block.{Block};

    ghost Value = { Block };

    ghost view = { λ r. record { pool = r.pool; index = r.token.index; bytes = r.token.value.items } };

    ghost invariant = { λ r. r.token.row ≡ slice_index_or r.pool r.token.bucket 0 };
}

impl BlockRef {
    /// Another reference to the same block.
    pub fn again(&self) -> BlockRef
        ensures { result ≡ self.now }
    {
        BlockRef {
            token: self.token.again(),
            pool: self.pool.again(),
        }
    }

    /// The place of the block in its pool.
    pub fn index(&self) -> u64
        ensures { result ≡ self.now.index }
    {
        self.token.index() as u64
    }
}

impl Clone for BlockRef {
    ghost is_clone = { λ a b. b ≡ a };

    fn clone(&self) -> Result<Self, AllocError> {
        Ok(self.again())
    }
}

impl BlockPool {
    /// A pool without blocks.
    pub fn new(alloc: Global) -> Result<BlockPool, OutOfMemory> {
        Ok(BlockPool {
            blocks: boxcar::Vec::new(alloc)?,
            reads: AtomicU64::new(0),
        })
    }

    /// Puts a block into the pool. For want of memory it gives the bytes back.
    #[tactic(auto, using(crate::specs::Key::id_at_names))]
    pub fn put<R: Wait>(&self, rt: &R, bytes: Vec<u8>) -> Result<BlockRef, Vec<u8>>
        ensures pool { IfOk result (λ r. r.pool ≡ self.now) }
        ensures bytes { IfOk result (λ r. r.bytes ≡ bytes.items) }
        ensures back { IfErr result (λ b. b ≡ bytes) }
    {
        let token = self.blocks.push_shown(rt, bytes)?;
        Ok(BlockRef {
            token,
            pool: PoolMark::of(self),
        })
    }

    /// The bytes of a block of this pool. No other call hands them out, and it waits for nobody.
    #[tactic(auto, using(crate::specs::Key::id_at_names))]
    pub fn read(&self, r: &BlockRef) -> &[u8]
        requires { r.now.pool ≡ self.now }
        ensures { result.now ≡ r.now.bytes }
    {
        self.reads.fetch_add(1, Ordering::SeqCst);
        self.blocks.value(&r.token).as_slice()
    }

    /// How often `read` was called so far, on all threads, modulo 2^64. No clause speaks of the number.
    pub fn reads(&self) -> u64 {
        self.reads.load(Ordering::SeqCst)
    }

    /// References of one pool and one index are one block. It does nothing when it runs.
    #[tactic(auto, using(crate::specs::Key::id_at_names))]
    pub fn agrees(&self, a: &BlockRef, b: &BlockRef)
        requires first { a.now.pool ≡ self.now }
        requires second { b.now.pool ≡ self.now }
        requires same { a.now.index ≡ b.now.index }
        ensures { a.now ≡ b.now }
    {
        self.blocks.agrees(&a.token, &b.token);
    }

    /// Whether two lists of references name the same blocks, by their indexes alone. No byte is read.
    #[tactic(auto, unfolding(crate::specs::Block::AllOf))]
    pub fn same_blocks(&self, a: &[BlockRef], b: &[BlockRef]) -> bool
        requires first { AllOf self.now a.now }
        requires second { AllOf self.now b.now }
        ensures exact { IsTrue result ↔ (indexes_of a.now ≡ indexes_of b.now) }
        ensures same { OnTrue result (a.now ≡ b.now) }
    {
        if a.len() != b.len() {
            return false;
        }
        for i in 0..a.len() {
            if a[i].index() != b[i].index() {
                return false;
            }
            self.agrees(&a[i], &b[i]);
        }
        true
    }
}
