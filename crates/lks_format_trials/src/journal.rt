//! Bytes of journals, and what is left where an append is cut off or fails.

use crate::same::same;
use lks_base::Bytes;
use lks_disk::{Disk, MemDisk};
use lks_journal::{Journal, JournalFault};
use std::alloc::Global;
use std::test::Fail;

/// A record, spelled by the format.
const BODY: &[u8] = &[0, 1, 1, 6, 0, 0, 0, 1];

const FILE: &[u8] = &[0xa5, 0, 0, 0, 8, 0, 1, 1, 6, 0, 0, 0, 1, 0];

fn reopened(alloc: Global, disk: MemDisk) -> Result<Vec<Bytes>, JournalFault> {
    match Journal::reopen(alloc, disk) {
        Ok((_, bodies)) => Ok(bodies),
        Err((_, fault)) => Err(fault),
    }
}

#[test]
fn writes_a_file(rt: HostRuntime) -> Result<(), Fail> {
    let alloc = rt.alloc();
    let created = Journal::create(alloc, MemDisk::new(alloc, Vec::new(alloc)));
    let mut journal = created.map_err(|e| e.1)?;
    same(&rt, &journal.room(), &2_147_483_646, &"journal.room");
    same(&rt, &journal.append(BODY), &Ok(()), &"journal.append");
    same(&rt, &journal.room(), &2_147_483_633, &"journal.room");
    let disk = journal.into_disk();
    same(&rt, &disk.bytes(), &FILE, &"disk.bytes");
    let bodies = reopened(alloc, disk)?;
    assert_eq!(rt; bodies.len(), 1);
    same(&rt, &bodies[0].as_slice(), &BODY, &"bodies[0]");
    Ok(())
}

fn count_in(alloc: Global, bytes: &[u8]) -> Result<usize, JournalFault> {
    let mut disk = MemDisk::new(alloc, Vec::new(alloc));
    disk.write_at(0, bytes)?;
    Ok(reopened(alloc, disk)?.len())
}

const DAMAGED: Result<usize, JournalFault> = Err(JournalFault::Damaged { offset: 0 });

/// The bytes, and the number of bodies or the offset of the damage.
const FILES: [(&[u8], Result<usize, JournalFault>); 11] = [
    (&[], DAMAGED),
    (&[0], Ok(0)),
    (&[0xa5], DAMAGED),
    (&[0xa5, 0, 0, 0, 5], DAMAGED),
    (&[0xa5, 0, 0, 0, 0], DAMAGED),
    (&[0xa5, 0, 0, 0, 0, 1], Ok(1)),
    (&[0xa5, 0, 0, 0, 2, 7, 7], DAMAGED),
    (&[0xa5, 0, 0, 0, 2, 7, 7, 0, 9], Ok(1)),
    (
        &[0xa5, 0, 0, 0, 1, 7, 0xa5, 0, 0, 0],
        Err(JournalFault::Damaged { offset: 6 }),
    ),
    (&[0xa5, 0, 0, 0, 1, 7, 0xa5, 0, 0, 0, 0, 4], Ok(2)),
    (&[0, 0xa5, 0, 0, 0, 0, 0], Ok(0)),
];

#[test]
fn reads_bytes(rt: HostRuntime) {
    for (at, (bytes, wanted)) in FILES.iter().enumerate() {
        same(&rt, &count_in(rt.alloc(), bytes), wanted, &at);
    }
}

/// Appends the body to a new journal whose disk is cut off after so many calls, cuts the power and recovers.
/// Answers what the append did, and the number of bodies.
fn cut_off(alloc: Global, calls: u32, choice: u64) -> Result<(bool, usize), JournalFault> {
    let disk = MemDisk::new(alloc, Vec::new(alloc));
    let mut journal = Journal::create(alloc, disk).map_err(|e| e.1)?;
    journal.fuse(calls, choice);
    let done = journal.append(BODY).is_ok();
    journal.power_cut();
    Ok((done, journal.recover()?.len()))
}

/// The choice, and how many bodies are there after a cut, for 0 to 4 calls that pass.
const CUTS: [(u64, [usize; 5]); 4] = [
    (0, [0, 0, 0, 0, 1]),
    (1, [0, 0, 1, 1, 1]),
    (2, [0, 0, 0, 0, 1]),
    (165, [0, 0, 1, 1, 1]),
];

#[test]
fn survives_cuts(rt: HostRuntime) {
    for (choice, kept) in CUTS.iter() {
        for (calls, kept) in kept.iter().enumerate() {
            let answer = cut_off(rt.alloc(), calls as u32, *choice);
            same(&rt, &answer, &Ok((calls == 4, *kept)), &(calls, choice));
        }
    }
}

/// Appends the body to a new journal on a disk of which these calls fail.
fn appended(
    alloc: Global,
    fail: &[u32],
    fail_reads: &[u32],
) -> Result<(Result<(), JournalFault>, MemDisk), JournalFault> {
    let disk = MemDisk::faulty(alloc, fail.to_vec(alloc)?, fail_reads.to_vec(alloc)?);
    let mut journal = Journal::create(alloc, disk).map_err(|e| e.1)?;
    let answer = journal.append(BODY);
    Ok((answer, journal.into_disk()))
}

/// What an append answers where this call fails, and how many bodies a reopening finds.
fn left_after(alloc: Global, call: u32) -> Result<(Result<(), JournalFault>, usize), JournalFault> {
    let (answer, disk) = appended(alloc, &[call], &[])?;
    Ok((answer, reopened(alloc, disk)?.len()))
}

/// The write or sync that fails, counted over all calls, and the bodies that a reopening finds.
const FAULTS: [(u32, Result<usize, JournalFault>); 6] = [
    (1, Err(JournalFault::Failed)),
    (2, Err(JournalFault::Failed)),
    (3, Ok(0)),
    (4, Ok(0)),
    (5, Ok(0)),
    (6, Ok(1)),
];

#[test]
fn survives_faults(rt: HostRuntime) {
    for (call, left) in FAULTS.iter() {
        let wanted = left.map(|bodies| (Err(JournalFault::Failed), bodies));
        same(&rt, &left_after(rt.alloc(), *call), &wanted, &call);
    }
}

fn refusal(alloc: Global, disk: MemDisk) -> Option<(MemDisk, JournalFault)> {
    match Journal::reopen(alloc, disk) {
        Ok((_journal, _bodies)) => None,
        Err(refused) => Some(refused),
    }
}

/// The writes and syncs that fail, and the lengths and reads.
const REOPENINGS: [(&[u32], &[u32]); 3] = [(&[7], &[]), (&[], &[1]), (&[], &[2])];

// A reopening fails at its sync, at the length and at the read, and finds the body the next time.
#[test]
fn reopens_again(rt: HostRuntime) -> Result<(), Fail> {
    let alloc = rt.alloc();
    for (fail, fail_reads) in REOPENINGS.iter() {
        let (answer, disk) = appended(alloc, fail, fail_reads)?;
        same(&rt, &answer, &Ok(()), &"answer");
        let (disk, fault) = refusal(alloc, disk).ok_or("a refusal")?;
        same(&rt, &fault, &JournalFault::Failed, &"fault");
        same(&rt, &reopened(alloc, disk)?.len(), &1, &"reopened");
    }
    Ok(())
}
