//! The contents of an AU, made afresh from a journal.

ghost use Rattle.std.specs.Prelude.{◌≡◌, ◌+◌, IfOk, OnOk, List, ◌∷◌, take, slice_set};
ghost use Rattle.lks_base.specs.declared.records.Record.{Record as Rec};
ghost use Rattle.lks_law.specs.Journal.{replacements, replaced_by, contents_at, contents_of};

use crate::records::{count_versions, find_deposit};
use lks_base::{AuId, Bytes, OutOfMemory, Record};
use std::alloc::Global;

fn clone_all(alloc: Global, blocks: &[Bytes]) -> Result<Vec<Bytes>, OutOfMemory>
    ensures { IfOk result (λ v. v.items ≡ blocks.now) }
{
    let mut copy = Vec::new(alloc);
    for block in blocks {
        copy.push(block.clone()?)?;
    }
    Ok(copy)
}

/// Puts bytes at a block, if it is there.
pub fn put(blocks: &mut Vec<Bytes>, block: u16, bytes: &Bytes) -> Result<(), OutOfMemory>
    ensures { OnOk result (blocks.new.items ≡ slice_set blocks.old.items block bytes.now) }
{
    if (block as usize) < blocks.len() {
        blocks[block as usize] = bytes.clone()?;
    }
    Ok(())
}

/// Makes the replacement that a record names, if it is of the AU and `left` of them are left to make. Answers how many
/// are left then.
fn replace(blocks: &mut Vec<Bytes>, r: &Record, au: AuId, left: usize) -> Result<usize, OutOfMemory>
    ensures { IfOk result
        (λ n. (rs : List Rec)
        → replaced_by blocks.new.items (take n (replacements au rs))
        ≡ replaced_by blocks.old.items (take left (replacements au (r.now ∷ rs)))) }
{
    if let Record::Replaced {
        au: a,
        block,
        bytes,
        ..
    } = r
    {
        if *a == au && left > 0 {
            put(blocks, *block, bytes)?;
            return Ok(left - 1);
        }
    }
    Ok(left)
}

/// The contents of an AU at a version. An AU that isn't deposited has no blocks.
#[tactic(auto, unfolding(lks_law::specs::Journal::contents_at))]
pub fn copy_at(
    alloc: Global,
    journal: &[Record],
    au: AuId,
    version: usize,
) -> Result<Vec<Bytes>, OutOfMemory>
    ensures { IfOk result (λ copy. copy.items ≡ contents_at au version journal.now) }
{
    let mut blocks = clone_all(alloc, find_deposit(journal, au).unwrap_or(&[]))?;
    let mut left = version;
    for r in journal {
        left = replace(&mut blocks, r, au, left)?;
    }
    Ok(blocks)
}

/// Its contents with all replacements made.
#[tactic(auto, using(crate::proofs::Versions::newest_version))]
pub fn copy_of(alloc: Global, journal: &[Record], au: AuId) -> Result<Vec<Bytes>, OutOfMemory>
    ensures { IfOk result (λ copy. copy.items ≡ contents_of au journal.now) }
{
    copy_at(alloc, journal, au, count_versions(journal, au))
}
