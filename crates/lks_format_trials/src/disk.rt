//! Calls that fail, fuses, and what is left at a power cut.

use crate::same::same;
use lks_disk::{CrashDisk, Disk, DiskFail, MemDisk};
use std::process::Abort;
use std::test::Fail;

const CUT: Result<u64, DiskFail> = Err(DiskFail::Cut);

const FAILED: Result<u64, DiskFail> = Err(DiskFail::Failed);

#[derive(Clone, Copy)]
enum Call {
    Len,
    /// A read from an offset into four zero bytes, and these bytes after it.
    Read(u64, [u8; 4]),
    Write(u64, &'static [u8]),
    Sync,
    Fuse(u32, u64),
    /// A power cut, and the bytes that it leaves.
    PowerCut(&'static [u8]),
}

/// A call, and its answer: for a call that gives no number 0.
type Step = (Call, Result<u64, DiskFail>);

fn write(rt: &impl Abort, disk: &mut MemDisk, at: u64, piece: &[u8]) -> Result<u64, DiskFail> {
    assert!(rt; at < 100 && at <= disk.bytes().len() as u64 && piece.len() < 100);
    disk.write_at(at, piece).map(|()| 0)
}

fn read(rt: &impl Abort, disk: &mut MemDisk, at: u64, after: [u8; 4]) -> Result<u64, DiskFail> {
    let mut buf = [0; 4];
    let answer = disk.read_at(at, &mut buf);
    same(rt, &buf, &after, &"buf");
    answer.map(|n| n as u64)
}

fn sync(disk: &mut MemDisk) -> Result<u64, DiskFail> {
    disk.sync().map(|()| 0)
}

fn fuse(disk: &mut MemDisk, calls: u32, choice: u64) -> Result<u64, DiskFail> {
    disk.fuse(calls, choice);
    Ok(0)
}

fn power_cut(rt: &impl Abort, disk: &mut MemDisk, left: &[u8]) -> Result<u64, DiskFail> {
    disk.power_cut();
    same(rt, &disk.bytes(), &left, &"disk.bytes");
    Ok(0)
}

fn answer(rt: &impl Abort, disk: &mut MemDisk, call: Call) -> Result<u64, DiskFail> {
    match call {
        Call::Len => disk.len(),
        Call::Read(at, after) => read(rt, disk, at, after),
        Call::Write(at, piece) => write(rt, disk, at, piece),
        Call::Sync => sync(disk),
        Call::Fuse(calls, choice) => fuse(disk, calls, choice),
        Call::PowerCut(left) => power_cut(rt, disk, left),
    }
}

fn play(rt: &impl Abort, disk: &mut MemDisk, steps: &[Step]) {
    for (at, (call, wanted)) in steps.iter().enumerate() {
        same(rt, &answer(rt, disk, *call), wanted, &at);
    }
}

/// Three bytes, synced.
const THREE: [Step; 2] = [(Call::Write(0, &[1, 2, 3]), Ok(0)), (Call::Sync, Ok(0))];

/// The calls that pass, the choice, what a write and a sync answer, and the bytes that are left.
const CUTS: [(u32, u64, [Result<u64, DiskFail>; 2], &[u8]); 9] = [
    (0, 0, [CUT, CUT], &[1, 2, 3]),
    (0, 1, [CUT, CUT], &[1, 2, 9, 8, 7]),
    (0, 165, [CUT, CUT], &[1, 2, 165, 166, 167]),
    (0, 254, [CUT, CUT], &[1, 2, 254, 255, 0]),
    (1, 0, [Ok(0), CUT], &[1, 2, 3]),
    (1, 1, [Ok(0), CUT], &[1, 2, 9, 8, 7]),
    (1, u64::MAX, [Ok(0), CUT], &[1, 2, 255, 0, 1]),
    (2, 0, [Ok(0), Ok(0)], &[1, 2, 9, 8, 7]),
    (2, 165, [Ok(0), Ok(0)], &[1, 2, 9, 8, 7]),
];

#[test]
fn cuts_off(rt: HostRuntime) {
    for &(calls, choice, [write, sync], left) in CUTS.iter() {
        let mut disk = MemDisk::new(rt.alloc(), Vec::new(rt.alloc()));
        play(&rt, &mut disk, &THREE);
        let steps = [
            (Call::Fuse(calls, choice), Ok(0)),
            (Call::Write(2, &[9, 8, 7]), write),
            (Call::Sync, sync),
            (Call::PowerCut(left), Ok(0)),
            (Call::Len, Ok(left.len() as u64)),
        ];
        play(&rt, &mut disk, &steps);
    }
}

/// Two writes wait at a power cut, of which the last is cut off first.
const OVERLAID: [Step; 4] = [
    (Call::Fuse(3, 165), Ok(0)),
    (Call::Write(0, &[4, 4]), Ok(0)),
    (Call::Write(1, &[5, 5]), Ok(0)),
    (Call::PowerCut(&[165, 166, 166]), Ok(0)),
];

/// Without a fuse nothing is left of them.
const UNFUSED: [Step; 3] = [
    (Call::Write(0, &[4, 4]), Ok(0)),
    (Call::Write(1, &[5, 5]), Ok(0)),
    (Call::PowerCut(&[1, 2, 3]), Ok(0)),
];

#[test]
fn cuts_the_last_first(rt: HostRuntime) {
    for steps in [OVERLAID.as_slice(), UNFUSED.as_slice()] {
        let mut disk = MemDisk::new(rt.alloc(), Vec::new(rt.alloc()));
        play(&rt, &mut disk, &THREE);
        play(&rt, &mut disk, steps);
    }
}

const FAULTS: [Step; 17] = [
    (Call::Len, FAILED),
    (Call::Write(0, &[1, 2, 3]), Ok(0)),
    (Call::Write(1, &[7, 7, 7]), FAILED),
    (Call::Sync, FAILED),
    (Call::Sync, Ok(0)),
    (Call::Read(1, [2, 3, 0, 0]), Ok(2)),
    (Call::Read(0, [0; 4]), FAILED),
    (Call::Read(3, [0; 4]), Ok(0)),
    // The calls that are cut off are counted too, and one that burns the fuse doesn't fail.
    (Call::Fuse(1, 1), Ok(0)),
    (Call::Sync, Ok(0)),
    (Call::Write(3, &[4]), CUT),
    (Call::Write(4, &[5]), CUT),
    (Call::Len, CUT),
    (Call::Read(0, [0; 4]), CUT),
    (Call::PowerCut(&[1, 2, 3, 4]), Ok(0)),
    (Call::Fuse(0, 0), Ok(0)),
    (Call::Sync, CUT),
];

#[test]
fn fails_by_number(rt: HostRuntime) -> Result<(), Fail> {
    let alloc = rt.alloc();
    let mut disk = MemDisk::faulty(alloc, [2, 3, 7].to_vec(alloc)?, [1, 3].to_vec(alloc)?);
    play(&rt, &mut disk, &FAULTS);
    Ok(())
}
