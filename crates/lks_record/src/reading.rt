//! Reading the fields that records share.

ghost use Rattle.std.specs.Prelude.{◌≡◌};
ghost use Rattle.lks_field.specs.Reading.{many_at};
ghost use Rattle.lks_record.specs.Reading.{Reads, id_at, long_at, nonce_at, flag_at, from_one_at, peers_at, hashes_at};
ghost use Rattle.lks_record.specs.Reading.{block_at, content_at, blocks_at, poll_at, minority_at, limits_at};
ghost use Rattle.lks_record.specs.Reading.{repairs_at, optional_at, said_kind_at, outcome_at};

use crate::fault::RecFault;
use lks_base::{
    Blocks, Bytes, HashKind, Hashes, Ids, LAST_BLOCK, Limits, MOST_BLOCK_BYTES, MOST_BLOCKS,
    MOST_CIRCLE, MOST_REPAIRS, Outcome, PollName, obeys_quorum_rule,
};
use lks_field::Fields;
use std::alloc::Global;

/// The number of a peer or an AU.
#[tactic(auto, unfolding(crate::specs::Reading::id_at))]
pub fn id_of(fields: &mut Fields<'_>) -> Result<u16, RecFault>
    ensures { Reads result fields.new (id_at fields.old) }
{
    Ok(fields.get_be16()?)
}

/// The number of a poll, a tick or a version.
#[tactic(auto, unfolding(crate::specs::Reading::long_at))]
pub fn long_of(fields: &mut Fields<'_>) -> Result<u32, RecFault>
    ensures { Reads result fields.new (long_at fields.old) }
{
    Ok(fields.get_be32()?)
}

/// A nonce or a hash.
#[tactic(auto, unfolding(crate::specs::Reading::nonce_at))]
pub fn nonce_of(fields: &mut Fields<'_>) -> Result<[u8; 32], RecFault>
    ensures { Reads result fields.new (nonce_at fields.old) }
{
    Ok(fields.get_hash()?)
}

#[tactic(auto, unfolding(crate::specs::Reading::flag_at))]
pub fn flag_of(fields: &mut Fields<'_>) -> Result<bool, RecFault>
    ensures { Reads result fields.new (flag_at fields.old) }
{
    let flag = fields.get_u8_upto(1)?;
    Ok(flag == 1)
}

/// A number from 1 to `most`.
#[tactic(auto, unfolding(crate::specs::Reading::from_one_at))]
pub fn from_one_of(most: u16, fields: &mut Fields<'_>) -> Result<u16, RecFault>
    ensures { Reads result fields.new (from_one_at most fields.old) }
{
    let number = fields.get_upto(most)?;
    if number == 0 {
        return Err(RecFault::Limit);
    }
    Ok(number)
}

#[tactic(auto, unfolding(crate::specs::Reading::peers_at))]
pub fn peers_of(alloc: Global, most: u8, fields: &mut Fields<'_>) -> Result<Ids, RecFault>
    ensures { Reads result fields.new (peers_at most fields.old) }
{
    Ok(Ids::from_vec(fields.get_numbers(alloc, most)?))
}

#[tactic(auto, unfolding(crate::specs::Reading::hashes_at))]
pub fn hashes_of(alloc: Global, fields: &mut Fields<'_>) -> Result<Hashes, RecFault>
    ensures { Reads result fields.new (hashes_at fields.old) }
{
    Ok(Hashes::from_vec(fields.get_hashes(alloc, MOST_BLOCKS)?))
}

#[tactic(auto, unfolding(crate::specs::Reading::block_at))]
pub fn block_of(fields: &mut Fields<'_>) -> Result<u16, RecFault>
    ensures { Reads result fields.new (block_at fields.old) }
{
    Ok(fields.get_upto(LAST_BLOCK)?)
}

/// The bytes of a block, behind their length.
#[tactic(auto, unfolding(crate::specs::Reading::content_at))]
pub fn content_of(alloc: Global, fields: &mut Fields<'_>) -> Result<Bytes, RecFault>
    ensures { Reads result fields.new (content_at fields.old) }
{
    Ok(Bytes::from_vec(fields.get_sized(alloc, MOST_BLOCK_BYTES)?))
}

fn many_blocks(alloc: Global, count: u16, fields: &mut Fields<'_>) -> Result<Blocks, RecFault>
    ensures { Reads result fields.new (many_at content_at count fields.old) }
{
    let mut blocks = Vec::new(alloc);
    for _ in 0..count {
        let block = content_of(alloc, fields)?;
        blocks.push(block)?;
    }
    Ok(Blocks::from_vec(blocks))
}

#[tactic(auto, unfolding(crate::specs::Reading::blocks_at, lks_field::specs::Reading::list_at))]
pub fn blocks_of(alloc: Global, fields: &mut Fields<'_>) -> Result<Blocks, RecFault>
    ensures { Reads result fields.new (blocks_at fields.old) }
{
    let count = from_one_of(MOST_BLOCKS, fields)?;
    many_blocks(alloc, count, fields)
}

#[tactic(auto, unfolding(crate::specs::Reading::poll_at))]
pub fn poll_of(fields: &mut Fields<'_>) -> Result<PollName, RecFault>
    ensures { Reads result fields.new (poll_at fields.old) }
{
    let poller = id_of(fields)?;
    let number = long_of(fields)?;
    Ok(PollName { poller, number })
}

#[tactic(auto, unfolding(crate::specs::Reading::minority_at))]
fn minority_of(quorum: u16, fields: &mut Fields<'_>) -> Result<u16, RecFault>
    ensures { Reads result fields.new (minority_at quorum fields.old) }
{
    let minority = fields.get_be16()?;
    if !obeys_quorum_rule(quorum, minority) {
        return Err(RecFault::Limit);
    }
    Ok(minority)
}

#[tactic(auto, unfolding(crate::specs::Reading::limits_at))]
pub fn limits_of(fields: &mut Fields<'_>) -> Result<Limits, RecFault>
    ensures { Reads result fields.new (limits_at fields.old) }
{
    let quorum = from_one_of(MOST_CIRCLE, fields)?;
    let minority = minority_of(quorum, fields)?;
    Ok(Limits { quorum, minority })
}

#[tactic(auto, unfolding(crate::specs::Reading::repairs_at))]
pub fn repairs_of(fields: &mut Fields<'_>) -> Result<u16, RecFault>
    ensures { Reads result fields.new (repairs_at fields.old) }
{
    Ok(fields.get_upto(MOST_REPAIRS)?)
}

/// Limits where they are told.
#[tactic(auto, unfolding(crate::specs::Reading::optional_at))]
pub fn optional_limits(told: bool, fields: &mut Fields<'_>) -> Result<Option<Limits>, RecFault>
    ensures { Reads result fields.new (optional_at limits_at told fields.old) }
{
    if !told {
        return Ok(None);
    }
    Ok(Some(limits_of(fields)?))
}

/// Repairs where they are told.
#[tactic(auto, unfolding(crate::specs::Reading::optional_at))]
pub fn optional_repairs(told: bool, fields: &mut Fields<'_>) -> Result<Option<u16>, RecFault>
    ensures { Reads result fields.new (optional_at repairs_at told fields.old) }
{
    if !told {
        return Ok(None);
    }
    Ok(Some(repairs_of(fields)?))
}

/// The kind, which has a byte only where it is the second.
#[tactic(auto, unfolding(crate::specs::Reading::said_kind_at))]
pub fn kind_of(kind: HashKind, fields: &mut Fields<'_>) -> Result<HashKind, RecFault>
    ensures { Reads result fields.new (said_kind_at kind fields.old) }
{
    fields.get_kind(kind.second())?;
    Ok(kind)
}

#[tactic(auto, unfolding(crate::specs::Reading::outcome_at))]
pub fn outcome_of(fields: &mut Fields<'_>) -> Result<Outcome, RecFault>
    ensures { Reads result fields.new (outcome_at fields.old) }
{
    let code = fields.get_u8_upto(3)?;
    let last = if code < 2 { 0 } else { LAST_BLOCK };
    let block = fields.get_upto(last)?;
    Ok(match code {
        0 => Outcome::Agreed,
        1 => Outcome::Inquorate,
        2 => Outcome::Split { block },
        _ => Outcome::NoSupplier { block },
    })
}
