//! Bytes to batches.

ghost use Rattle.std.specs.Prelude.{◌≡◌, List, IfOk};
ghost use Rattle.lks_field.specs.Reading.{many_at};
ghost use Rattle.lks_record.specs.Spelling.{batch_spelling, IsBatch};
ghost use Rattle.lks_record.specs.Reading.{Reads, ReadsBy, Gives, deposit_at, opened_at, nominated_at, outer_at};
ghost use Rattle.lks_record.specs.Reading.{vote_in_at, shut_at, asked_at, repair_bad_at, replaced_at, closed_at};
ghost use Rattle.lks_record.specs.Reading.{overdue_at, joined_at, committed_at, voted_at, served_at, ended_at};
ghost use Rattle.lks_record.specs.Reading.{tuned_at, body_at, record_at, batch_at, decode_of};

use crate::fault::RecFault;
use crate::heading::{OpeningForm, RecordHeading, heading_of};
use crate::reading::{
    block_of, blocks_of, content_of, flag_of, from_one_of, hashes_of, id_of, kind_of, limits_of,
    long_of, nonce_of, optional_limits, optional_repairs, outcome_of, peers_of, poll_of,
    repairs_of,
};
use lks_base::{HashKind, MOST_CIRCLE, MOST_NOMINEES, Record};
use lks_field::Fields;
use std::alloc::Global;

const MOST_RECORDS: u16 = 65_535;

#[tactic(auto, unfolding(crate::specs::Reading::deposit_at))]
fn deposit_of(alloc: Global, fields: &mut Fields<'_>) -> Result<Record, RecFault>
    ensures { Reads result fields.new (deposit_at fields.old) }
{
    let au = id_of(fields)?;
    let blocks = blocks_of(alloc, fields)?;
    Ok(Record::Deposit { au, blocks })
}

#[tactic(auto, unfolding(crate::specs::Reading::opened_at))]
fn opened_of(
    alloc: Global,
    opening: OpeningForm,
    fields: &mut Fields<'_>,
) -> Result<Record, RecFault>
    ensures { Reads result fields.new (opened_at opening fields.old) }
{
    let number = long_of(fields)?;
    let au = id_of(fields)?;
    let nonce = nonce_of(fields)?;
    let inner = peers_of(alloc, MOST_CIRCLE as u8, fields)?;
    let tick = long_of(fields)?;
    let limits = optional_limits(opening.limited(), fields)?;
    let kind = kind_of(opening.kind(), fields)?;
    Ok(Record::PollOpened {
        number,
        au,
        nonce,
        inner,
        tick,
        limits,
        kind,
    })
}

#[tactic(auto, unfolding(crate::specs::Reading::nominated_at))]
fn nominated_of(alloc: Global, fields: &mut Fields<'_>) -> Result<Record, RecFault>
    ensures { Reads result fields.new (nominated_at fields.old) }
{
    let number = long_of(fields)?;
    let voter = id_of(fields)?;
    let nominees = peers_of(alloc, MOST_NOMINEES, fields)?;
    Ok(Record::Nominated {
        number,
        voter,
        nominees,
    })
}

#[tactic(auto, unfolding(crate::specs::Reading::outer_at))]
fn outer_of(alloc: Global, fields: &mut Fields<'_>) -> Result<Record, RecFault>
    ensures { Reads result fields.new (outer_at fields.old) }
{
    let number = long_of(fields)?;
    let outer = peers_of(alloc, MOST_CIRCLE as u8, fields)?;
    Ok(Record::OuterOpened { number, outer })
}

#[tactic(auto, unfolding(crate::specs::Reading::vote_in_at))]
fn vote_in_of(alloc: Global, fields: &mut Fields<'_>) -> Result<Record, RecFault>
    ensures { Reads result fields.new (vote_in_at fields.old) }
{
    let number = long_of(fields)?;
    let voter = id_of(fields)?;
    let hashes = hashes_of(alloc, fields)?;
    Ok(Record::VoteIn {
        number,
        voter,
        hashes,
    })
}

#[tactic(auto, unfolding(crate::specs::Reading::shut_at))]
fn shut_of(fields: &mut Fields<'_>) -> Result<Record, RecFault>
    ensures { Reads result fields.new (shut_at fields.old) }
{
    let number = long_of(fields)?;
    Ok(Record::Shut { number })
}

#[tactic(auto, unfolding(crate::specs::Reading::asked_at))]
fn asked_of(fields: &mut Fields<'_>) -> Result<Record, RecFault>
    ensures { Reads result fields.new (asked_at fields.old) }
{
    let number = long_of(fields)?;
    let block = block_of(fields)?;
    let voter = id_of(fields)?;
    Ok(Record::Asked {
        number,
        block,
        voter,
    })
}

#[tactic(auto, unfolding(crate::specs::Reading::repair_bad_at))]
fn repair_bad_of(fields: &mut Fields<'_>) -> Result<Record, RecFault>
    ensures { Reads result fields.new (repair_bad_at fields.old) }
{
    let number = long_of(fields)?;
    let block = block_of(fields)?;
    let voter = id_of(fields)?;
    Ok(Record::RepairBad {
        number,
        block,
        voter,
    })
}

#[tactic(auto, unfolding(crate::specs::Reading::replaced_at))]
fn replaced_of(alloc: Global, fields: &mut Fields<'_>) -> Result<Record, RecFault>
    ensures { Reads result fields.new (replaced_at fields.old) }
{
    let number = long_of(fields)?;
    let au = id_of(fields)?;
    let block = block_of(fields)?;
    let bytes = content_of(alloc, fields)?;
    Ok(Record::Replaced {
        number,
        au,
        block,
        bytes,
    })
}

#[tactic(auto, unfolding(crate::specs::Reading::closed_at))]
fn closed_of(fields: &mut Fields<'_>) -> Result<Record, RecFault>
    ensures { Reads result fields.new (closed_at fields.old) }
{
    let number = long_of(fields)?;
    let outcome = outcome_of(fields)?;
    let tick = long_of(fields)?;
    Ok(Record::Closed {
        number,
        outcome,
        tick,
    })
}

#[tactic(auto, unfolding(crate::specs::Reading::overdue_at))]
fn overdue_of(fields: &mut Fields<'_>) -> Result<Record, RecFault>
    ensures { Reads result fields.new (overdue_at fields.old) }
{
    let au = id_of(fields)?;
    let tick = long_of(fields)?;
    Ok(Record::Overdue { au, tick })
}

#[tactic(auto, unfolding(crate::specs::Reading::joined_at))]
fn joined_of(told: bool, fields: &mut Fields<'_>) -> Result<Record, RecFault>
    ensures { Reads result fields.new (joined_at told fields.old) }
{
    let poll = poll_of(fields)?;
    let au = id_of(fields)?;
    let tick = long_of(fields)?;
    let low = flag_of(fields)?;
    let repairs = optional_repairs(told, fields)?;
    Ok(Record::Joined {
        poll,
        au,
        tick,
        low,
        repairs,
    })
}

#[tactic(auto, unfolding(crate::specs::Reading::committed_at))]
fn committed_of(kind: HashKind, fields: &mut Fields<'_>) -> Result<Record, RecFault>
    ensures { Reads result fields.new (committed_at kind fields.old) }
{
    let poll = poll_of(fields)?;
    let nonce = nonce_of(fields)?;
    let version = long_of(fields)?;
    let kind = kind_of(kind, fields)?;
    Ok(Record::Committed {
        poll,
        nonce,
        version,
        kind,
    })
}

#[tactic(auto, unfolding(crate::specs::Reading::voted_at))]
fn voted_of(alloc: Global, fields: &mut Fields<'_>) -> Result<Record, RecFault>
    ensures { Reads result fields.new (voted_at fields.old) }
{
    let poll = poll_of(fields)?;
    let hashes = hashes_of(alloc, fields)?;
    Ok(Record::Voted { poll, hashes })
}

#[tactic(auto, unfolding(crate::specs::Reading::served_at))]
fn served_of(fields: &mut Fields<'_>) -> Result<Record, RecFault>
    ensures { Reads result fields.new (served_at fields.old) }
{
    let poll = poll_of(fields)?;
    let block = block_of(fields)?;
    Ok(Record::Served { poll, block })
}

#[tactic(auto, unfolding(crate::specs::Reading::ended_at))]
fn ended_of(fields: &mut Fields<'_>) -> Result<Record, RecFault>
    ensures { Reads result fields.new (ended_at fields.old) }
{
    let poll = poll_of(fields)?;
    Ok(Record::Ended { poll })
}

#[tactic(auto, unfolding(crate::specs::Reading::tuned_at))]
fn tuned_of(fields: &mut Fields<'_>) -> Result<Record, RecFault>
    ensures { Reads result fields.new (tuned_at fields.old) }
{
    let limits = limits_of(fields)?;
    let repairs = repairs_of(fields)?;
    Ok(Record::Tuned {
        quorum: limits.quorum,
        minority: limits.minority,
        repairs,
    })
}

fn body_of(
    alloc: Global,
    heading: RecordHeading,
    fields: &mut Fields<'_>,
) -> Result<Record, RecFault>
    ensures { Reads result fields.new (body_at heading fields.old) }
{
    match heading {
        RecordHeading::Deposit => deposit_of(alloc, fields),
        RecordHeading::PollOpened(opening) => opened_of(alloc, opening, fields),
        RecordHeading::Nominated => nominated_of(alloc, fields),
        RecordHeading::OuterOpened => outer_of(alloc, fields),
        RecordHeading::VoteIn => vote_in_of(alloc, fields),
        RecordHeading::Shut => shut_of(fields),
        RecordHeading::Asked => asked_of(fields),
        RecordHeading::RepairBad => repair_bad_of(fields),
        RecordHeading::Replaced => replaced_of(alloc, fields),
        RecordHeading::Closed => closed_of(fields),
        RecordHeading::Overdue => overdue_of(fields),
        RecordHeading::Joined(told) => joined_of(told, fields),
        RecordHeading::Committed(kind) => committed_of(kind, fields),
        RecordHeading::Voted => voted_of(alloc, fields),
        RecordHeading::Served => served_of(fields),
        RecordHeading::Ended => ended_of(fields),
        RecordHeading::Tuned => tuned_of(fields),
    }
}

#[tactic(auto, unfolding(crate::specs::Reading::record_at))]
fn record_of(alloc: Global, fields: &mut Fields<'_>) -> Result<Record, RecFault>
    ensures { Reads result fields.new (record_at fields.old) }
{
    let heading = heading_of(fields)?;
    body_of(alloc, heading, fields)
}

fn many_records(alloc: Global, count: u16, fields: &mut Fields<'_>) -> Result<Vec<Record>, RecFault>
    ensures { ReadsBy (λ v. v.items) result fields.new (many_at record_at count fields.old) }
{
    let mut list = Vec::new(alloc);
    for _ in 0..count {
        let item = record_of(alloc, fields)?;
        list.push(item)?;
    }
    Ok(list)
}

#[tactic(auto, unfolding(crate::specs::Reading::batch_at, lks_field::specs::Reading::list_at))]
fn batch_of(alloc: Global, fields: &mut Fields<'_>) -> Result<Vec<Record>, RecFault>
    ensures { ReadsBy (λ v. v.items) result fields.new (batch_at fields.old) }
{
    let count = from_one_of(MOST_RECORDS, fields)?;
    many_records(alloc, count, fields)
}

#[tactic(auto, unfolding(crate::specs::Reading::decode_of))]
fn whole(alloc: Global, bytes: &[u8]) -> Result<Vec<Record>, RecFault>
    ensures { Gives (λ v. v.items) result (decode_of bytes.now) }
{
    let mut fields = Fields::new(bytes);
    let list = batch_of(alloc, &mut fields)?;
    fields.finish()?;
    Ok(list)
}

/// The batch that the bytes spell, all of them, or the first fault from left to right.
pub fn decode_batch(alloc: Global, bytes: &[u8]) -> Result<Vec<Record>, RecFault>
    // Which records or fault it is.
    ensures exact { Gives (λ v. v.items) result (decode_of bytes.now) }
    // What is read is spelled so.
    ensures found { IfOk result (λ v. IsBatch v.items × (bytes.now ≡ batch_spelling v.items)) }
    // What is spelled so is read, unless memory runs out.
    ensures only { (list : List Record) → IsBatch list → bytes.now ≡ batch_spelling list
        → Gives (λ v. v.items) result (Ok list) }
{
    whole(alloc, bytes)
}
