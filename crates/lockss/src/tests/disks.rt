//! What runs leave on disks, and disks that fail.

ghost use Rattle.std.specs.Prelude.{◌≤◌, length, IfOk};
ghost use Rattle.lks_world.specs.Held.{AreFresh, IsFresh};

use super::crashes::ASKED;
use super::*;
use crate::fresh::fresh_disks;
use lks_base::Bytes;
use lks_journal::Journal;

// A deposit of AU 1 with the blocks 41 and 42: an open gate, the length, one record, and a closed gate.
const DEPOSIT: &[u8] =
    b"\xa5\x00\x00\x00\x0e\x00\x01\x01\x01\x00\x01\x00\x02\x00\x01\x41\x00\x01\x42\x00";

/// An empty disk of which these writes and syncs fail, and these reads and questions for its length.
fn faulty_disk(alloc: Global, fail: Vec<u32>, fail_reads: Vec<u32>) -> MemDisk
    ensures { IsFresh ⟦<MemDisk as Disk>⟧.face result }
{
    MemDisk::faulty(alloc, fail, fail_reads)
}

/// Disks of which the first fails at these calls.
fn failing_disks(alloc: Global, fail: &[u32], fail_reads: &[u32]) -> Result<Vec<MemDisk>, Fail>
    ensures enough { IfOk result (λ disks. 32 ≤ length disks.items) }
    ensures fresh { IfOk result (λ disks. AreFresh ⟦<MemDisk as Disk>⟧.face disks.items) }
{
    let mut disks = Vec::new(alloc);
    disks.push(faulty_disk(alloc, fail.to_vec(alloc)?, fail_reads.to_vec(alloc)?))?;
    let mut others = fresh_disks(alloc)?;
    disks.append(&mut others)?;
    Ok(disks)
}

/// The answer to a script whose first peer's disk fails at these calls, that disk, and what was written.
pub fn replay_on<R: Threads + Wait + Sync>(
    alloc: Global,
    rt: &R,
    words: &[&str],
    script: &[&str],
    fail: &[u32],
    fail_reads: &[u32],
) -> Result<(Status, Option<MemDisk>, Vec<u8>), Fail> {
    let words = words_of(alloc, words)?;
    let mut source = MemSource::new(alloc, joined(alloc, script)?, [].to_vec(alloc)?);
    let mut sink = MemSink::new(alloc, [].to_vec(alloc)?);
    let mut disks = failing_disks(alloc, fail, fail_reads)?;
    let status = run_plainly(alloc, rt, &words, &mut source, &mut sink, &mut disks)?;
    disks.truncate(1);
    Ok((status, disks.pop(), sink.bytes().to_vec(alloc)?))
}

/// The batches that a disk holds.
pub fn batches_on(alloc: Global, disk: Option<MemDisk>) -> Result<Vec<Bytes>, Fail> {
    let Some(disk) = disk else {
        return Err("a disk".into());
    };
    match Journal::reopen(alloc, disk) {
        Ok((_journal, bodies)) => Ok(bodies),
        Err((_disk, _fault)) => Err("a journal".into()),
    }
}

#[test]
fn deposits_first(rt: HostRuntime) -> Result<(), Fail> {
    let alloc = rt.alloc();
    let (status, disk, _written) = replay_on(alloc, &rt, REPLAY, &[HEAD], &[], &[])?;
    same(&rt, &status, &Status::Done, &"status");
    let Some(disk) = disk else {
        return Err("a disk".into());
    };
    same(&rt, &disk.bytes(), &DEPOSIT, &"disk.bytes");
    Ok(())
}

/// Whether a journal has so many batches where this call of its disk failed: 2 calls make it, and 4 append a batch.
pub fn is_left(call: u32, count: usize) -> bool {
    let before = call.saturating_sub(3) as usize / 4;
    count == before || count == before + 1
}

// The deposit, the opening, three votes, the shutting and the closing make 30 calls.
#[test]
fn each_call_fails(rt: HostRuntime) -> Result<(), Fail> {
    let alloc = rt.alloc();
    let (status, _disk, _written) = replay_on(alloc, &rt, REPLAY, &[HEAD, AGREED], &[31], &[])?;
    same(&rt, &status, &Status::Done, &"status");
    let (_status, disk, _written) = replay_on(alloc, &rt, REPLAY, &[HEAD, AGREED], &[], &[])?;
    let whole = batches_on(alloc, disk)?;
    same(&rt, &whole.len(), &7, &"whole.len");
    for call in 1..31u32 {
        let (status, disk, _written) = replay_on(
            alloc,
            &rt,
            REPLAY,
            &[HEAD, AGREED],
            &[call],
            &[],
        )?;
        same(&rt, &status, &Status::DiskFault { peer: 1 }, &call);
        if call < 3 {
            continue;
        }
        let batches = batches_on(alloc, disk)?;
        assert!(rt; is_left(call, batches.len()), "call {call}");
        for (batch, wanted) in batches.iter().zip(whole.as_slice()) {
            same(&rt, &batch.as_slice(), &wanted.as_slice(), &call);
        }
    }
    Ok(())
}

// The peer is cut off, or loses its power between two steps, and the first read of its disk fails when it is reopened.
#[test]
fn a_read_fails_at_the_reopening(rt: HostRuntime) -> Result<(), Fail> {
    let alloc = rt.alloc();
    for lines in ["cut 0 0 next\nagain 7\nsettle\n", "crash 1\nsettle\n"] {
        let (status, _disk, _written) = replay_on(
            alloc,
            &rt,
            REPLAY,
            &[HEAD, ASKED, lines],
            &[],
            &[1],
        )?;
        same(&rt, &status, &Status::DiskFault { peer: 1 }, &lines);
    }
    Ok(())
}

// All steps are done by 30 calls. The 31st is that of reading the journal back, where a read may fail too: nothing is
// written, and the disk holds its batches.
#[test]
fn a_journal_is_not_read_back(rt: HostRuntime) -> Result<(), Fail> {
    let alloc = rt.alloc();
    for (fail, fail_reads) in [
        ([31u32].as_slice(), [].as_slice()),
        (&[], &[1]),
        (&[], &[2]),
    ] {
        let (status, disk, written) = replay_on(
            alloc,
            &rt,
            &["journals"],
            &[HEAD, AGREED],
            fail,
            fail_reads,
        )?;
        same(&rt, &status, &Status::DiskFault { peer: 1 }, &"status");
        assert!(rt; written.is_empty());
        same(&rt, &batches_on(alloc, disk)?.len(), &7, &"batches_on");
    }
    let (status, _disk, written) = replay_on(
        alloc,
        &rt,
        &["journals"],
        &[HEAD, AGREED],
        &[32],
        &[3],
    )?;
    same(&rt, &status, &Status::Done, &"status");
    assert!(rt; !written.is_empty());
    Ok(())
}
