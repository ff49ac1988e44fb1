//! Batches of records as bytes, and bytes that are none.

use crate::same::same;
use crate::spelled;
use crate::spelled::{add_bytes, add_peers};
use lks_base::{Outcome, Record};
use lks_record::{decode_batch, encode_batch};
use std::alloc::{AllocError, Global};
use std::test::Fail;

/// The fault's name, or nothing where the bytes are a batch.
fn fault(alloc: Global, bytes: &[u8]) -> Result<String, AllocError> {
    match decode_batch(alloc, bytes) {
        Ok(_) => Ok(String::new(alloc)),
        Err(fault) => format!(in alloc; "{fault:?}"),
    }
}

/// Faults, and bytes that have them.
const FAULTS: &str = "\
Short:
Short: 0
Limit: 0 0
Limit: 0 0 4
Short: 0 1
Short: 0 1 1
Form: 0 1 0
Form: 0 1 4 6 0 0 0 1
Tag: 0 1 2 6 0 0 0 1
Tag: 0 1 3 6 0 0 0 1
Tag: 0 1 1 17
Short: 0 1 1 6 0 0 0
Trailing: 0 1 1 6 0 0 0 1 0
Short: 0 2 1 6 0 0 0 1
Form: 0 2 1 6 0 0 0 1 4
Limit: 0 1 1 1 0 1 0 0
Limit: 0 1 1 1 0 1 2 1
Limit: 0 1 1 1 0 1 0 1 64 1
Limit: 0 1 1 3 0 0 0 1 0 2 9
Limit: 0 1 1 4 0 0 0 1 17
Limit: 0 1 1 5 0 0 0 1 0 2 2 1
Limit: 0 1 1 7 0 0 0 1 2 0
Limit: 0 1 1 9 0 0 0 1 0 2 0 3 64 1
Limit: 0 1 1 10 0 0 0 1 4
Limit: 0 1 1 10 0 0 0 1 1 0 1
Limit: 0 1 1 10 0 0 0 1 2 2 0
Limit: 0 1 1 12 0 6 0 0 0 7 0 2 0 0 0 5 2
Trailing: 0 1 1 12 0 6 0 0 0 7 0 2 0 0 0 5 1 0
Limit: 0 1 2 12 0 6 0 0 0 7 0 2 0 0 0 5 1 2 1
Limit: 0 1 2 17 0 0
Limit: 0 1 2 17 0 17
Limit: 0 1 2 17 0 4 0 2
Short: 0 1 2 17 0 5 0 2
Limit: 0 1 2 17 0 5 0 2 2 1
Limit: 0 1 3 2 0 0 0 1 0 2 hash 0 0 0 0 5 0 3 0 1 1
Limit: 0 1 1 2 0 0 0 1 0 2 hash 17";

#[test]
fn faults(rt: HostRuntime) -> Result<(), Fail> {
    for line in FAULTS.lines() {
        let (name, column) = line.split_once(':').ok_or("a row")?;
        let bytes = spelled::bytes(rt.alloc(), column)?;
        same(&rt, &fault(rt.alloc(), &bytes)?.as_str(), &name, &line);
    }
    Ok(())
}

/// The number of a record's kind, and the numbers in it.
type Numbers = [u32; 8];

/// Whether there is a number, and which.
fn optional(number: Option<u16>) -> [u32; 2] {
    [u32::from(number.is_some()), u32::from(number.unwrap_or(0))]
}

fn outcome(outcome: Outcome) -> [u32; 2] {
    match outcome {
        Outcome::Agreed => [0, 0],
        Outcome::Inquorate => [1, 0],
        Outcome::Split { block } => [2, u32::from(block)],
        Outcome::NoSupplier { block } => [3, u32::from(block)],
    }
}

/// The numbers of a record of a poll of the peer's own, but of its beginning and end.
fn of_poll(r: &Record) -> Option<Numbers> {
    match r {
        Record::Nominated { number, voter, .. } => {
            Some([3, *number, u32::from(*voter), 0, 0, 0, 0, 0])
        }
        Record::OuterOpened { number, .. } => Some([4, *number, 0, 0, 0, 0, 0, 0]),
        Record::VoteIn { number, voter, .. } => {
            Some([5, *number, u32::from(*voter), 0, 0, 0, 0, 0])
        }
        Record::Shut { number } => Some([6, *number, 0, 0, 0, 0, 0, 0]),
        Record::Asked {
            number,
            block,
            voter,
        } => Some([7, *number, u32::from(*block), u32::from(*voter), 0, 0, 0, 0]),
        Record::RepairBad {
            number,
            block,
            voter,
        } => Some([8, *number, u32::from(*block), u32::from(*voter), 0, 0, 0, 0]),
        Record::Replaced {
            number,
            au,
            block,
            ..
        } => Some([9, *number, u32::from(*au), u32::from(*block), 0, 0, 0, 0]),
        Record::Deposit { .. }
        | Record::PollOpened { .. }
        | Record::Closed { .. }
        | Record::Overdue { .. }
        | Record::Joined { .. }
        | Record::Committed { .. }
        | Record::Voted { .. }
        | Record::Served { .. }
        | Record::Ended { .. }
        | Record::Tuned { .. } => None,
    }
}

/// The numbers of a poll's beginning: `tick`, whether limits are told, the limits, and whether the hash is the second.
fn of_opening(r: &Record) -> Option<Numbers> {
    match r {
        Record::PollOpened {
            number,
            au,
            tick,
            limits,
            kind,
            ..
        } => {
            let [told, quorum] = optional(limits.map(|l| l.quorum));
            let minority = u32::from(limits.map_or(0, |l| l.minority));
            let second = u32::from(kind.second());
            Some([
                2,
                *number,
                u32::from(*au),
                *tick,
                told,
                quorum,
                minority,
                second,
            ])
        }
        Record::Deposit { .. }
        | Record::Nominated { .. }
        | Record::OuterOpened { .. }
        | Record::VoteIn { .. }
        | Record::Shut { .. }
        | Record::Asked { .. }
        | Record::RepairBad { .. }
        | Record::Replaced { .. }
        | Record::Closed { .. }
        | Record::Overdue { .. }
        | Record::Joined { .. }
        | Record::Committed { .. }
        | Record::Voted { .. }
        | Record::Served { .. }
        | Record::Ended { .. }
        | Record::Tuned { .. } => None,
    }
}

/// The numbers of a record of an AU, of a poll's end, or of the operator.
fn of_copy(r: &Record) -> Option<Numbers> {
    match r {
        Record::Deposit { au, .. } => Some([1, u32::from(*au), 0, 0, 0, 0, 0, 0]),
        Record::Closed {
            number,
            outcome: ended,
            tick,
        } => {
            let [outcome, block] = outcome(*ended);
            Some([10, *number, outcome, block, *tick, 0, 0, 0])
        }
        Record::Overdue { au, tick } => Some([11, u32::from(*au), *tick, 0, 0, 0, 0, 0]),
        Record::Tuned {
            quorum,
            minority,
            repairs,
        } => Some([
            17,
            u32::from(*quorum),
            u32::from(*minority),
            u32::from(*repairs),
            0,
            0,
            0,
            0,
        ]),
        Record::PollOpened { .. }
        | Record::Nominated { .. }
        | Record::OuterOpened { .. }
        | Record::VoteIn { .. }
        | Record::Shut { .. }
        | Record::Asked { .. }
        | Record::RepairBad { .. }
        | Record::Replaced { .. }
        | Record::Joined { .. }
        | Record::Committed { .. }
        | Record::Voted { .. }
        | Record::Served { .. }
        | Record::Ended { .. } => None,
    }
}

/// The numbers of a record of another peer's poll: after the kind the poller and the poll.
fn of_session(r: &Record) -> Option<Numbers> {
    match r {
        Record::Joined {
            poll,
            au,
            tick,
            low,
            repairs,
        } => {
            let [told, repairs] = optional(*repairs);
            let low = u32::from(*low);
            Some([
                12,
                u32::from(poll.poller),
                poll.number,
                u32::from(*au),
                *tick,
                low,
                told,
                repairs,
            ])
        }
        Record::Committed {
            poll,
            version,
            kind,
            ..
        } => {
            let second = u32::from(kind.second());
            Some([
                13,
                u32::from(poll.poller),
                poll.number,
                *version,
                second,
                0,
                0,
                0,
            ])
        }
        Record::Voted { poll, .. } => Some([
            14,
            u32::from(poll.poller),
            poll.number,
            0,
            0,
            0,
            0,
            0,
        ]),
        Record::Served { poll, block } => {
            Some([
                15,
                u32::from(poll.poller),
                poll.number,
                u32::from(*block),
                0,
                0,
                0,
                0,
            ])
        }
        Record::Ended { poll } => Some([16, u32::from(poll.poller), poll.number, 0, 0, 0, 0, 0]),
        Record::Deposit { .. }
        | Record::PollOpened { .. }
        | Record::Nominated { .. }
        | Record::OuterOpened { .. }
        | Record::VoteIn { .. }
        | Record::Shut { .. }
        | Record::Asked { .. }
        | Record::RepairBad { .. }
        | Record::Replaced { .. }
        | Record::Closed { .. }
        | Record::Overdue { .. }
        | Record::Tuned { .. } => None,
    }
}

fn numbers(r: &Record) -> Option<Numbers> {
    of_poll(r)
        .or(of_opening(r))
        .or(of_copy(r))
        .or(of_session(r))
}

/// Adds the length of a block and its bytes.
fn add_block(told: &mut Vec<u32>, block: &[u8]) -> Result<(), AllocError> {
    told.push(block.len().min(99) as u32)?;
    add_bytes(told, block)
}

fn add_blocks(told: &mut Vec<u32>, r: &Record) -> Result<(), AllocError> {
    match r {
        Record::Deposit { blocks, .. } => {
            for block in blocks.as_slice() {
                add_block(told, block.as_slice())?;
            }
            Ok(())
        }
        Record::Replaced { bytes, .. } => add_block(told, bytes.as_slice()),
        Record::PollOpened { .. }
        | Record::Nominated { .. }
        | Record::OuterOpened { .. }
        | Record::VoteIn { .. }
        | Record::Shut { .. }
        | Record::Asked { .. }
        | Record::RepairBad { .. }
        | Record::Closed { .. }
        | Record::Overdue { .. }
        | Record::Joined { .. }
        | Record::Committed { .. }
        | Record::Voted { .. }
        | Record::Served { .. }
        | Record::Ended { .. }
        | Record::Tuned { .. } => Ok(()),
    }
}

fn peers(r: &Record) -> &[u16] {
    match r {
        Record::PollOpened { inner, .. } => inner.as_slice(),
        Record::Nominated { nominees, .. } => nominees.as_slice(),
        Record::OuterOpened { outer, .. } => outer.as_slice(),
        Record::Deposit { .. }
        | Record::VoteIn { .. }
        | Record::Shut { .. }
        | Record::Asked { .. }
        | Record::RepairBad { .. }
        | Record::Replaced { .. }
        | Record::Closed { .. }
        | Record::Overdue { .. }
        | Record::Joined { .. }
        | Record::Committed { .. }
        | Record::Voted { .. }
        | Record::Served { .. }
        | Record::Ended { .. }
        | Record::Tuned { .. } => &[],
    }
}

fn nonce(r: &Record) -> Option<[u8; 32]> {
    match r {
        Record::PollOpened { nonce, .. } => Some(*nonce),
        Record::Committed { nonce, .. } => Some(*nonce),
        Record::Deposit { .. }
        | Record::Nominated { .. }
        | Record::OuterOpened { .. }
        | Record::VoteIn { .. }
        | Record::Shut { .. }
        | Record::Asked { .. }
        | Record::RepairBad { .. }
        | Record::Replaced { .. }
        | Record::Closed { .. }
        | Record::Overdue { .. }
        | Record::Joined { .. }
        | Record::Voted { .. }
        | Record::Served { .. }
        | Record::Ended { .. }
        | Record::Tuned { .. } => None,
    }
}

fn hashes(r: &Record) -> &[[u8; 32]] {
    match r {
        Record::VoteIn { hashes, .. } => hashes.as_slice(),
        Record::Voted { hashes, .. } => hashes.as_slice(),
        Record::Deposit { .. }
        | Record::PollOpened { .. }
        | Record::Nominated { .. }
        | Record::OuterOpened { .. }
        | Record::Shut { .. }
        | Record::Asked { .. }
        | Record::RepairBad { .. }
        | Record::Replaced { .. }
        | Record::Closed { .. }
        | Record::Overdue { .. }
        | Record::Joined { .. }
        | Record::Committed { .. }
        | Record::Served { .. }
        | Record::Ended { .. }
        | Record::Tuned { .. } => &[],
    }
}

fn add_hashes(told: &mut Vec<u32>, r: &Record) -> Result<(), AllocError> {
    if let Some(nonce) = nonce(r) {
        add_bytes(told, &nonce)?;
    }
    for hash in hashes(r) {
        add_bytes(told, hash)?;
    }
    Ok(())
}

/// What the record says: its numbers, then its peers, blocks and hashes.
fn told(alloc: Global, r: &Record) -> Result<Vec<u32>, AllocError> {
    let mut told = numbers(r).unwrap_or([0; 8]).to_vec(alloc)?;
    add_peers(&mut told, peers(r))?;
    add_blocks(&mut told, r)?;
    add_hashes(&mut told, r)?;
    Ok(told)
}

/// The batch again, as it is read and spelled, and what its only record says.
fn read(alloc: Global, bytes: &[u8]) -> Result<(Vec<u8>, Vec<u32>), Fail> {
    let list = decode_batch(alloc, bytes).ok().ok_or("a batch")?;
    let again = encode_batch(alloc, &list).ok().ok_or("memory")?;
    match list.as_slice() {
        [r] => Ok((again, told(alloc, r)?)),
        _ => Err("one record")?,
    }
}

/// Batches of one record, and what each says.
const RECORDS: &str = "\
0 1 1 1 1 2 0 2 0 1 65 0 0: 1 258 0 0 0 0 0 0 1 65 0
0 1 1 2 0 0 0 1 0 2 hash 2 0 3 0 4 0 0 0 5: 2 1 2 5 0 0 0 0 3 4 hash
0 1 2 2 0 0 0 1 0 2 hash 2 0 3 0 4 0 0 0 5 0 3 0 1: 2 1 2 5 1 3 1 0 3 4 hash
0 1 3 2 0 0 0 1 0 2 hash 2 0 3 0 4 0 0 0 5 0 3 0 1 2: 2 1 2 5 1 3 1 1 3 4 hash
0 1 1 3 0 0 0 1 0 2 2 0 3 3 4: 3 1 2 0 0 0 0 0 3 772
0 1 1 4 0 0 0 1 2 0 3 0 4: 4 1 0 0 0 0 0 0 3 4
0 1 1 5 0 0 0 1 0 2 0 1 hash: 5 1 2 0 0 0 0 0 hash
0 1 1 6 0 0 0 1: 6 1 0 0 0 0 0 0
0 1 1 7 1 2 3 4 1 255 0 2: 7 16909060 511 2 0 0 0 0
0 1 1 8 0 0 0 1 1 255 0 2: 8 1 511 2 0 0 0 0
0 1 1 9 0 0 0 1 0 2 0 3 0 2 65 66: 9 1 2 3 0 0 0 0 2 65 66
0 1 1 10 0 0 0 1 0 0 0 0 0 0 5: 10 1 0 0 5 0 0 0
0 1 1 10 0 0 0 1 1 0 0 0 0 0 5: 10 1 1 0 5 0 0 0
0 1 1 10 0 0 0 1 2 0 7 0 0 0 5: 10 1 2 7 5 0 0 0
0 1 1 10 0 0 0 1 3 1 255 0 0 0 5: 10 1 3 511 5 0 0 0
0 1 1 11 0 2 0 0 0 5: 11 2 5 0 0 0 0 0
0 1 1 12 0 6 0 0 0 7 0 2 0 0 0 5 0: 12 6 7 2 5 0 0 0
0 1 2 12 0 6 0 0 0 7 0 2 0 0 0 5 1 0 4: 12 6 7 2 5 1 1 4
0 1 1 13 0 6 0 0 0 7 hash 0 0 0 1: 13 6 7 1 0 0 0 0 hash
0 1 2 13 0 6 0 0 0 7 hash 0 0 0 1 2: 13 6 7 1 1 0 0 0 hash
0 1 1 14 0 6 0 0 0 7 0 1 hash: 14 6 7 0 0 0 0 0 hash
0 1 1 15 0 6 0 0 0 7 0 3: 15 6 7 3 0 0 0 0
0 1 1 16 0 6 0 0 0 7: 16 6 7 0 0 0 0 0
0 1 2 17 0 1 0 0 0 2: 17 1 0 2 0 0 0 0";

#[test]
fn records(rt: HostRuntime) -> Result<(), Fail> {
    for line in RECORDS.lines() {
        let (bytes, wanted) = spelled::row(rt.alloc(), line)?;
        let (again, told) = read(rt.alloc(), &bytes)?;
        same(&rt, &again, &bytes, &line);
        same(&rt, &told, &wanted, &line);
    }
    Ok(())
}

const TWO: &[u8] = &[0, 2, 1, 6, 0, 0, 0, 1, 1, 16, 0, 6, 0, 0, 0, 7];

#[test]
fn two_records(rt: HostRuntime) -> Result<(), Fail> {
    let list = decode_batch(rt.alloc(), TWO).ok().ok_or("a batch")?;
    same(&rt, &list.len(), &2, &"list.len");
    same(
        &rt,
        &numbers(&list[0]),
        &Some([6, 1, 0, 0, 0, 0, 0, 0]),
        &"numbers",
    );
    same(
        &rt,
        &numbers(&list[1]),
        &Some([16, 6, 7, 0, 0, 0, 0, 0]),
        &"numbers",
    );
    let again = encode_batch(rt.alloc(), &list).ok().ok_or("memory")?;
    same(&rt, &again.as_slice(), &TWO, &"again");
    Ok(())
}

#[test]
fn a_made_record(rt: HostRuntime) -> Result<(), Fail> {
    let made = encode_batch(rt.alloc(), &[Record::Shut { number: 1 }]);
    let made = made.ok().ok_or("memory")?;
    same(
        &rt,
        &made.as_slice(),
        &[0, 1, 1, 6, 0, 0, 0, 1].as_slice(),
        &"made",
    );
    Ok(())
}
