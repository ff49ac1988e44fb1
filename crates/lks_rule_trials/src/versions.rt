//! A copy through a pin and a replacement, down to the bytes.

ghost use Rattle.std.specs.Prelude.{◌≡◌, [], IfOk, IsNone, length};
ghost use Rattle.lks_blocks.specs.Block.{AllOf};
ghost use Rattle.lks_versions.specs.Each.{EachOf};
ghost use Rattle.lks_versions.specs.Pins.{pin_of};
ghost use Rattle.lks_versions.specs.Shelf.{IsKept, current_of, newest_of};

use lks_base::{Bytes, Contents, OutOfMemory, PollName};
use lks_blocks::{BlockPool, BlockRef};
use lks_versions::Versions;
use std::alloc::{AllocError, Global};
use std::sync::Wait;
use std::test::Fail;

fn block_of(alloc: Global, bytes: &[u8]) -> Result<Bytes, OutOfMemory> {
    Ok(Bytes::from_vec(bytes.to_vec(alloc)?))
}

/// Two blocks with these bytes.
fn two_blocks(alloc: Global, first: &[u8], second: &[u8]) -> Result<Vec<Bytes>, OutOfMemory>
    ensures { IfOk result (λ blocks. length blocks.items ≡ 2) }
{
    let mut blocks = Vec::with_capacity(alloc, 2)?;
    blocks.push_reserved(block_of(alloc, first)?);
    blocks.push_reserved(block_of(alloc, second)?);
    Ok(blocks)
}

/// A copy of two blocks with these bytes, in the pool.
#[tactic(auto, using(lks_blocks::proofs::Bytes::bytes_count))]
fn deposited<R: Wait>(
    rt: &R,
    alloc: Global,
    pool: &BlockPool,
    first: &[u8],
    second: &[u8],
) -> Result<Versions, OutOfMemory>
    ensures of { IfOk result (λ v. EachOf pool.now v.lists) }
    ensures count { IfOk result (λ v. length (newest_of v) ≡ 2) }
    ensures current { IfOk result (λ v. current_of v ≡ 0) }
    ensures pins { IfOk result (λ v. v.pins ≡ []) }
{
    let blocks = two_blocks(alloc, first, second)?;
    Versions::put(alloc, rt, pool, blocks.as_slice())
}

/// The bytes of blocks, one after another.
#[tactic(auto, unfolding(lks_blocks::specs::Block::AllOf))]
fn text_of(alloc: Global, pool: &BlockPool, refs: &[BlockRef]) -> Result<Vec<u8>, AllocError>
    requires { AllOf pool.now refs.now }
{
    let mut text = Vec::new(alloc);
    for r in refs {
        text.extend_from_slice(pool.read(r))?;
    }
    Ok(text)
}

/// Whether the blocks of a version have these bytes.
#[tactic(auto, using(lks_versions::specs::Each::each_at))]
fn reads_as(
    alloc: Global,
    pool: &BlockPool,
    versions: &Versions,
    version: u32,
    bytes: &[u8],
) -> Result<bool, Fail>
    requires of { EachOf pool.now versions.now.lists }
    requires kept { IsKept versions.now version }
{
    let refs = versions.refs(version)?;
    Ok(text_of(alloc, pool, refs.as_slice())?.as_slice() == bytes)
}

/// Whether two versions have the same blocks.
#[tactic(auto, using(lks_versions::specs::Each::each_at))]
fn same_at(pool: &BlockPool, versions: &Versions, a: u32, b: u32) -> Result<bool, Fail>
    requires of { EachOf pool.now versions.now.lists }
    requires first { IsKept versions.now a }
    requires second { IsKept versions.now b }
{
    let first = versions.refs(a)?;
    let second = versions.refs(b)?;
    Ok(pool.same_blocks(first.as_slice(), second.as_slice()))
}

/// Pins the deposit, and puts a block in the place of its last one.
fn pinned_and_replaced<R: Wait>(
    rt: &R,
    alloc: Global,
    pool: &BlockPool,
    versions: &mut Versions,
    poll: PollName,
) -> Result<(), Fail>
    requires of { EachOf pool.now versions.old.lists }
    requires count { length (newest_of versions.old) ≡ 2 }
    requires current { current_of versions.old ≡ 0 }
    requires free { IsNone (pin_of poll versions.old.pins) }
    ensures of { IfOk result (λ _. EachOf pool.now versions.new.lists) }
    ensures pinned { IfOk result (λ _. IsKept versions.new 0) }
    ensures newest { IfOk result (λ _. IsKept versions.new 1) }
{
    versions.pin(poll)?;
    versions.replace_bytes(alloc, rt, pool, 1, b"D")?;
    Ok(())
}

const POLL: PollName = PollName {
    poller: 2,
    number: 7,
};

/// A copy whose deposit is pinned and whose second block was replaced.
fn prepared<R: Wait>(rt: &R, alloc: Global, pool: &BlockPool) -> Result<Versions, Fail>
    ensures of { IfOk result (λ v. EachOf pool.now v.lists) }
    ensures pinned { IfOk result (λ v. IsKept v 0) }
    ensures newest { IfOk result (λ v. IsKept v 1) }
{
    let mut versions = deposited(rt, alloc, pool, b"A", b"bc")?;
    pinned_and_replaced(rt, alloc, pool, &mut versions, POLL)?;
    Ok(versions)
}

/// The bytes that a poll reads, block by block.
fn newest_text(alloc: Global, pool: &BlockPool, versions: &Versions) -> Result<Vec<u8>, Fail>
    requires { EachOf pool.now versions.now.lists }
{
    let newest = versions.newest(pool);
    let mut text = Vec::new(alloc);
    for b in 0..newest.count() {
        text.extend_from_slice(newest.block(b))?;
    }
    Ok(text)
}

/// Whether the deposit is as it was, and the next version has the new block.
fn is_kept(alloc: Global, pool: &BlockPool, versions: &Versions) -> Result<bool, Fail>
    requires of { EachOf pool.now versions.now.lists }
    requires pinned { IsKept versions.now 0 }
    requires newest { IsKept versions.now 1 }
{
    let old = reads_as(alloc, pool, versions, 0, b"Abc")?;
    let new = reads_as(alloc, pool, versions, 1, b"AD")?;
    let same = same_at(pool, versions, 0, 0)?;
    let changed = !same_at(pool, versions, 0, 1)?;
    Ok(old && new && same && changed)
}

/// Whether the deposit is pinned, and one replacement was made since.
fn is_pinned(versions: &Versions) -> bool {
    let tag = versions.tag(1);
    versions.pinned(POLL) == Some(0)
        && versions.current() == 1
        && tag.first == 0
        && tag.version == 1
}

/// Whether the session has no pin once it gave it up.
fn is_free_after(versions: &mut Versions) -> bool {
    versions.unpin(POLL);
    versions.pinned(POLL).is_none()
}

/// Whether the deposit stays while it is pinned and after.
fn stays<R: Wait>(rt: &R, alloc: Global, pool: &BlockPool) -> Result<bool, Fail> {
    let mut versions = prepared(rt, alloc, pool)?;
    let kept = is_kept(alloc, pool, &versions)?;
    let pinned = is_pinned(&versions);
    Ok(kept && pinned && is_free_after(&mut versions))
}

#[test]
fn a_pinned_version_stays(rt: HostRuntime) -> Result<(), Fail> {
    let pool = BlockPool::new(rt.alloc())?;
    assert!(rt; stays(&rt, rt.alloc(), &pool)?);
    assert!(rt; pool.reads() == 4);
    Ok(())
}

/// Whether a poll reads these bytes once the deposit's second block was replaced.
fn reads_replaced<R: Wait>(
    rt: &R,
    alloc: Global,
    pool: &BlockPool,
    bytes: &[u8],
) -> Result<bool, Fail> {
    let versions = prepared(rt, alloc, pool)?;
    Ok(newest_text(alloc, pool, &versions)?.as_slice() == bytes)
}

#[test]
fn a_poll_reads_each_block_once(rt: HostRuntime) -> Result<(), Fail> {
    let pool = BlockPool::new(rt.alloc())?;
    assert!(rt; reads_replaced(&rt, rt.alloc(), &pool, b"AD")?);
    assert!(rt; pool.reads() == 2);
    Ok(())
}
