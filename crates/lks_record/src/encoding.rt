//! Batches to bytes.

ghost use Rattle.std.specs.Prelude.{◌≡◌, ◌≤◌, ◌++◌, length, OnOk, IfOk, All};
ghost use Rattle.std.specs.List.{flat_map};
ghost use Rattle.lks_base.specs.declared.limits.TheConstants.{MOST_BLOCKS, MOST_BLOCK_BYTES, MOST_CIRCLE};
ghost use Rattle.lks_base.specs.declared.limits.TheConstants.{MOST_NOMINEES};
ghost use Rattle.lks_record.specs.Spelling.{opening_form, joined_form, committed_form, spelling, batch_spelling};
ghost use Rattle.lks_record.specs.Spelling.{content_bytes, IsWithin, IsSized, IsCounted};
ghost use Rattle.lks_record.specs.Reading.{decode_of};
ghost use Rattle.lks_record.specs.Sizes.{most_batch_bytes};

use crate::writing::{
    Written, put_blocks, put_flag, put_limits, put_optional_limits, put_optional_repairs,
    put_outcome, put_poll, put_start,
};
use lks_base::{Bytes, HashKind, Limits, OutOfMemory, Outcome, PollName, Record};
use lks_field::{put_be16, put_be32, put_bytes, put_hashes, put_kind, put_numbers, put_sized};
use std::alloc::Global;

fn form_of_opening(limits: Option<Limits>, kind: HashKind) -> u8
    ensures { result ≡ opening_form limits kind }
{
    match (limits, kind) {
        (_, HashKind::Sha512_256) => 3,
        (None, HashKind::Sha256) => 1,
        (Some(_), HashKind::Sha256) => 2,
    }
}

fn form_of_joined(repairs: Option<u16>) -> u8
    ensures { result ≡ joined_form repairs }
{
    match repairs {
        None => 1,
        Some(_) => 2,
    }
}

fn form_of_committed(kind: HashKind) -> u8
    ensures { result ≡ committed_form kind }
{
    match kind {
        HashKind::Sha256 => 1,
        HashKind::Sha512_256 => 2,
    }
}

#[tactic(auto, unfolding(crate::specs::Spelling::spelling))]
fn put_deposit(out: &mut Vec<u8>, au: u16, blocks: &[Bytes]) -> Written
    requires count { length blocks.now ≤ MOST_BLOCKS }
    requires lengths { All (λ b. length b ≤ MOST_BLOCK_BYTES) blocks.now }
    ensures spelled { OnOk result (out.new.items ≡ out.old.items ++ spelling (Record.Deposit au blocks.now)) }
    ensures sized { IsSized (Record.Deposit au blocks.now) }
{
    put_start(out, 1, 1)?;
    put_be16(out, au)?;
    put_blocks(out, blocks)
}

#[tactic(auto, unfolding(crate::specs::Spelling::spelling))]
fn put_opened(
    out: &mut Vec<u8>,
    number: u32,
    au: u16,
    nonce: &[u8; 32],
    inner: &[u16],
    tick: u32,
    limits: Option<Limits>,
    kind: HashKind,
) -> Written
    requires { length inner.now ≤ MOST_CIRCLE }
    ensures spelled { OnOk result
        (out.new.items
        ≡ out.old.items ++ spelling (Record.PollOpened number au nonce.now inner.now tick limits kind)) }
    ensures sized { IsSized (Record.PollOpened number au nonce.now inner.now tick limits kind) }
{
    put_start(out, form_of_opening(limits, kind), 2)?;
    put_be32(out, number)?;
    put_be16(out, au)?;
    put_bytes(out, nonce)?;
    put_numbers(out, inner)?;
    put_be32(out, tick)?;
    put_optional_limits(out, limits)?;
    put_kind(out, kind.second())
}

#[tactic(auto, unfolding(crate::specs::Spelling::spelling))]
fn put_nominated(out: &mut Vec<u8>, number: u32, voter: u16, nominees: &[u16]) -> Written
    requires { length nominees.now ≤ MOST_NOMINEES }
    ensures spelled { OnOk result
        (out.new.items ≡ out.old.items ++ spelling (Record.Nominated number voter nominees.now)) }
    ensures sized { IsSized (Record.Nominated number voter nominees.now) }
{
    put_start(out, 1, 3)?;
    put_be32(out, number)?;
    put_be16(out, voter)?;
    put_numbers(out, nominees)
}

#[tactic(auto, unfolding(crate::specs::Spelling::spelling))]
fn put_outer(out: &mut Vec<u8>, number: u32, outer: &[u16]) -> Written
    requires { length outer.now ≤ MOST_CIRCLE }
    ensures spelled { OnOk result (out.new.items ≡ out.old.items ++ spelling (Record.OuterOpened number outer.now)) }
    ensures sized { IsSized (Record.OuterOpened number outer.now) }
{
    put_start(out, 1, 4)?;
    put_be32(out, number)?;
    put_numbers(out, outer)
}

#[tactic(auto, unfolding(crate::specs::Spelling::spelling))]
fn put_vote_in(out: &mut Vec<u8>, number: u32, voter: u16, hashes: &[[u8; 32]]) -> Written
    requires { length hashes.now ≤ MOST_BLOCKS }
    ensures spelled { OnOk result (out.new.items ≡ out.old.items ++ spelling (Record.VoteIn number voter hashes.now)) }
    ensures sized { IsSized (Record.VoteIn number voter hashes.now) }
{
    put_start(out, 1, 5)?;
    put_be32(out, number)?;
    put_be16(out, voter)?;
    put_hashes(out, hashes)
}

#[tactic(auto, unfolding(crate::specs::Spelling::spelling))]
fn put_shut(out: &mut Vec<u8>, number: u32) -> Written
    ensures spelled { OnOk result (out.new.items ≡ out.old.items ++ spelling (Record.Shut number)) }
    ensures sized { IsSized (Record.Shut number) }
{
    put_start(out, 1, 6)?;
    put_be32(out, number)
}

#[tactic(auto, unfolding(crate::specs::Spelling::spelling))]
fn put_asked(out: &mut Vec<u8>, number: u32, block: u16, voter: u16) -> Written
    ensures spelled { OnOk result (out.new.items ≡ out.old.items ++ spelling (Record.Asked number block voter)) }
    ensures sized { IsSized (Record.Asked number block voter) }
{
    put_start(out, 1, 7)?;
    put_be32(out, number)?;
    put_be16(out, block)?;
    put_be16(out, voter)
}

#[tactic(auto, unfolding(crate::specs::Spelling::spelling))]
fn put_repair_bad(out: &mut Vec<u8>, number: u32, block: u16, voter: u16) -> Written
    ensures spelled { OnOk result (out.new.items ≡ out.old.items ++ spelling (Record.RepairBad number block voter)) }
    ensures sized { IsSized (Record.RepairBad number block voter) }
{
    put_start(out, 1, 8)?;
    put_be32(out, number)?;
    put_be16(out, block)?;
    put_be16(out, voter)
}

#[tactic(auto, unfolding(crate::specs::Spelling::spelling))]
fn put_replaced(out: &mut Vec<u8>, number: u32, au: u16, block: u16, bytes: &[u8]) -> Written
    requires { length bytes.now ≤ MOST_BLOCK_BYTES }
    ensures spelled { OnOk result
        (out.new.items ≡ out.old.items ++ spelling (Record.Replaced number au block bytes.now)) }
    ensures sized { IsSized (Record.Replaced number au block bytes.now) }
{
    put_start(out, 1, 9)?;
    put_be32(out, number)?;
    put_be16(out, au)?;
    put_be16(out, block)?;
    put_sized(out, bytes)
}

#[tactic(auto, unfolding(crate::specs::Spelling::spelling))]
fn put_closed(out: &mut Vec<u8>, number: u32, outcome: Outcome, tick: u32) -> Written
    ensures spelled { OnOk result (out.new.items ≡ out.old.items ++ spelling (Record.Closed number outcome tick)) }
    ensures sized { IsSized (Record.Closed number outcome tick) }
{
    put_start(out, 1, 10)?;
    put_be32(out, number)?;
    put_outcome(out, outcome)?;
    put_be32(out, tick)
}

#[tactic(auto, unfolding(crate::specs::Spelling::spelling))]
fn put_overdue(out: &mut Vec<u8>, au: u16, tick: u32) -> Written
    ensures spelled { OnOk result (out.new.items ≡ out.old.items ++ spelling (Record.Overdue au tick)) }
    ensures sized { IsSized (Record.Overdue au tick) }
{
    put_start(out, 1, 11)?;
    put_be16(out, au)?;
    put_be32(out, tick)
}

#[tactic(auto, unfolding(crate::specs::Spelling::spelling))]
fn put_joined(
    out: &mut Vec<u8>,
    poll: PollName,
    au: u16,
    tick: u32,
    low: bool,
    repairs: Option<u16>,
) -> Written
    ensures spelled { OnOk result (out.new.items ≡ out.old.items ++ spelling (Record.Joined poll au tick low repairs)) }
    ensures sized { IsSized (Record.Joined poll au tick low repairs) }
{
    put_start(out, form_of_joined(repairs), 12)?;
    put_poll(out, poll)?;
    put_be16(out, au)?;
    put_be32(out, tick)?;
    put_flag(out, low)?;
    put_optional_repairs(out, repairs)
}

#[tactic(auto, unfolding(crate::specs::Spelling::spelling))]
fn put_committed(
    out: &mut Vec<u8>,
    poll: PollName,
    nonce: &[u8; 32],
    version: u32,
    kind: HashKind,
) -> Written
    ensures spelled { OnOk result
        (out.new.items ≡ out.old.items ++ spelling (Record.Committed poll nonce.now version kind)) }
    ensures sized { IsSized (Record.Committed poll nonce.now version kind) }
{
    put_start(out, form_of_committed(kind), 13)?;
    put_poll(out, poll)?;
    put_bytes(out, nonce)?;
    put_be32(out, version)?;
    put_kind(out, kind.second())
}

#[tactic(auto, unfolding(crate::specs::Spelling::spelling))]
fn put_voted(out: &mut Vec<u8>, poll: PollName, hashes: &[[u8; 32]]) -> Written
    requires { length hashes.now ≤ MOST_BLOCKS }
    ensures spelled { OnOk result (out.new.items ≡ out.old.items ++ spelling (Record.Voted poll hashes.now)) }
    ensures sized { IsSized (Record.Voted poll hashes.now) }
{
    put_start(out, 1, 14)?;
    put_poll(out, poll)?;
    put_hashes(out, hashes)
}

#[tactic(auto, unfolding(crate::specs::Spelling::spelling))]
fn put_served(out: &mut Vec<u8>, poll: PollName, block: u16) -> Written
    ensures spelled { OnOk result (out.new.items ≡ out.old.items ++ spelling (Record.Served poll block)) }
    ensures sized { IsSized (Record.Served poll block) }
{
    put_start(out, 1, 15)?;
    put_poll(out, poll)?;
    put_be16(out, block)
}

#[tactic(auto, unfolding(crate::specs::Spelling::spelling))]
fn put_ended(out: &mut Vec<u8>, poll: PollName) -> Written
    ensures spelled { OnOk result (out.new.items ≡ out.old.items ++ spelling (Record.Ended poll)) }
    ensures sized { IsSized (Record.Ended poll) }
{
    put_start(out, 1, 16)?;
    put_poll(out, poll)
}

#[tactic(auto, unfolding(crate::specs::Spelling::spelling))]
fn put_tuned(out: &mut Vec<u8>, quorum: u16, minority: u16, repairs: u16) -> Written
    ensures spelled { OnOk result (out.new.items ≡ out.old.items ++ spelling (Record.Tuned quorum minority repairs)) }
    ensures sized { IsSized (Record.Tuned quorum minority repairs) }
{
    put_start(out, 2, 17)?;
    put_limits(out, Limits { quorum, minority })?;
    put_be16(out, repairs)
}

fn put_record(out: &mut Vec<u8>, r: &Record) -> Written
    requires { IsWithin r.now }
    ensures spelled { OnOk result (out.new.items ≡ out.old.items ++ spelling r.now) }
    ensures sized { IsSized r.now }
{
    match r {
        Record::Deposit { au, blocks } => put_deposit(out, *au, blocks.as_slice()),
        Record::PollOpened {
            number,
            au,
            nonce,
            inner,
            tick,
            limits,
            kind,
        } => {
            put_opened(
                out,
                *number,
                *au,
                nonce,
                inner.as_slice(),
                *tick,
                *limits,
                *kind,
            )
        }
        Record::Nominated {
            number,
            voter,
            nominees,
        } => put_nominated(out, *number, *voter, nominees.as_slice()),
        Record::OuterOpened { number, outer } => put_outer(out, *number, outer.as_slice()),
        Record::VoteIn {
            number,
            voter,
            hashes,
        } => put_vote_in(out, *number, *voter, hashes.as_slice()),
        Record::Shut { number } => put_shut(out, *number),
        Record::Asked {
            number,
            block,
            voter,
        } => put_asked(out, *number, *block, *voter),
        Record::RepairBad {
            number,
            block,
            voter,
        } => put_repair_bad(out, *number, *block, *voter),
        Record::Replaced {
            number,
            au,
            block,
            bytes,
        } => put_replaced(out, *number, *au, *block, bytes.as_slice()),
        Record::Closed {
            number,
            outcome,
            tick,
        } => put_closed(out, *number, *outcome, *tick),
        Record::Overdue { au, tick } => put_overdue(out, *au, *tick),
        Record::Joined {
            poll,
            au,
            tick,
            low,
            repairs,
        } => put_joined(out, *poll, *au, *tick, *low, *repairs),
        Record::Committed {
            poll,
            nonce,
            version,
            kind,
        } => put_committed(out, *poll, nonce, *version, *kind),
        Record::Voted { poll, hashes } => put_voted(out, *poll, hashes.as_slice()),
        Record::Served { poll, block } => put_served(out, *poll, *block),
        Record::Ended { poll } => put_ended(out, *poll),
        Record::Tuned {
            quorum,
            minority,
            repairs,
        } => put_tuned(out, *quorum, *minority, *repairs),
    }
}

fn put_batch(out: &mut Vec<u8>, list: &[Record]) -> Written
    requires count { length list.now ≤ 65535 }
    requires within { All IsWithin list.now }
    ensures spelled { OnOk result (out.new.items ≡ out.old.items ++ batch_spelling list.now) }
    ensures sized { OnOk result (All IsSized list.now) }
{
    put_be16(out, list.len() as u16)?;
    for item in list {
        put_record(out, item)?;
    }
    Ok(())
}

/// As many bytes as the blocks are spelled in, each behind its length.
fn bytes_of_blocks(blocks: &[Bytes]) -> usize
    ensures { result ≤ length (flat_map content_bytes blocks.now) }
{
    let mut bytes: usize = 0;
    for block in blocks {
        bytes = bytes.saturating_add(block.as_slice().len().saturating_add(2));
    }
    bytes
}

/// As many bytes as the record is spelled in, where it holds blocks.
#[tactic(auto, unfolding(crate::specs::Spelling::spelling))]
fn bytes_of(r: &Record) -> usize
    ensures { result ≤ length (spelling r.now) }
{
    match r {
        Record::Deposit { blocks, .. } => bytes_of_blocks(blocks.as_slice()).saturating_add(6),
        Record::Replaced { bytes, .. } => bytes.as_slice().len().saturating_add(12),
        Record::PollOpened { .. }
        | Record::Nominated { .. }
        | Record::OuterOpened { .. }
        | Record::VoteIn { .. }
        | Record::Shut { .. }
        | Record::Asked { .. }
        | Record::RepairBad { .. }
        | Record::Closed { .. }
        | Record::Overdue { .. }
        | Record::Joined { .. }
        | Record::Committed { .. }
        | Record::Voted { .. }
        | Record::Served { .. }
        | Record::Ended { .. }
        | Record::Tuned { .. } => 0,
    }
}

/// Room for the batch's count and for the records that hold blocks, so that these aren't moved while they are written.
fn room_for(list: &[Record]) -> usize
    ensures { result ≤ length (batch_spelling list.now) }
{
    let mut bytes: usize = 2;
    for item in list {
        bytes = bytes.saturating_add(bytes_of(item));
    }
    bytes
}

/// The one spelling of the batch.
pub fn encode_batch(alloc: Global, list: &[Record]) -> Result<Vec<u8>, OutOfMemory>
    requires count { IsCounted list.now }
    requires within { All IsWithin list.now }
    ensures spelled { IfOk result (λ v. v.items ≡ batch_spelling list.now) }
    // The batch is read again from it.
    ensures read { IfOk result (λ v. decode_of v.items ≡ Ok list.now) }
    // It isn't longer than its records may be.
    ensures short { IfOk result (λ v. length v.items ≤ most_batch_bytes list.now) }
{
    let mut out = Vec::with_capacity(alloc, room_for(list))?;
    match put_batch(&mut out, list) {
        Ok(()) => Ok(out),
        Err(_) => Err(OutOfMemory),
    }
}
