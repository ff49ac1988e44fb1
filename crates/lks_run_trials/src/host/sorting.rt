//! Batches, and what they are to peer 1, which deposited AU 1 with the block `41`, AU 2 with `42` and `43`, and AU 3
//! with `44`. Nonces and hashes were made by another program.

ghost use Rattle.std.specs.Prelude.{◌≡◌, ◌≤◌, ◌+◌, ℕ, None, Some, List, IfOk, IsSome, IsTrue, length, sum_by};
ghost use Rattle.lks_base.specs.Checking.{plan_fault};
ghost use Rattle.lks_base.specs.declared.plans.PeerPlan.{PeerPlan as Planned};
ghost use Rattle.lks_host.specs.Adopting.{IsReadAs};
ghost use Rattle.lks_law.specs.World.{honest_peer, station_of};
ghost use Rattle.lks_host.specs.Owners.{Owns};

use crate::same::same;
use lks_base::{Bytes, Plan, Record};
use lks_blocks::BlockPool;
use lks_disk::{Disk, MemDisk};
use lks_host::{Host, JournalSort, PeerSort, sort_journal, sort_with_peer};
use lks_journal::{Journal, JournalFault};
use lks_peer::{Peer, find_honest};
use lks_script::{Script, read_script};
use std::alloc::Global;
use std::sync::Wait;
use std::test::*;

const SCRIPT: &str = "\
lockss 1
rules inner 3 quorum 3 minority 1 outer 1 repairs 2 pace 0 refractory 0 overdue 100 unknown 100 debt 100 churn 0
au 1 1
au 2 2
au 3 1
peer 1 honest 01 01
peer 2 corrupt 02 01
peer 3 corrupt 03 01
peer 4 corrupt 04 01
peer 5 corrupt 05 01
peer 6 corrupt 06 01
refs 1 2 3 4
copy 1 1 41
copy 1 2 42,43
copy 1 3 44
";

/// A batch a line. In poll 1 the inner votes of 2, 3 and 4 are for the block `58`, which 3 sends after 2 sent nothing;
/// then AUs 2 and 3 are overdue, and the peer votes in poll 7 of 6.
const JOURNAL: &str = "\
0001 0101 0001 0001 0001 41
0001 0101 0002 0002 0001 42 0001 43
0001 0101 0003 0001 0001 44
0001 0102 00000001 0001 0d00e5e6a8a816ce10265bd371e0540ce61267aeae9a835e35de0248493c5d44 03 0002 0003 0004 00000005
0001 0103 00000001 0002 01 0005
0001 0104 00000001 01 0005
0001 0105 00000001 0002 0001 2f71913ff97a9622bc4c3c0adfd8740697b6c0a9a009d2d9bf91675d13df7fa1
0001 0105 00000001 0003 0001 5b6c0731dd4abb65c26453d904ae9413eaf6f4e9b161794fcc7ba02b60348863
0001 0105 00000001 0004 0001 5219df841b6afb7c367217ac10ab1b37db65e3a5680b75d0e1f09231c55d1088
0001 0105 00000001 0005 0001 0000000000000000000000000000000000000000000000000000000000000000
0001 0106 00000001
0001 0107 00000001 0000 0002
0001 0108 00000001 0000 0002
0001 0107 00000001 0000 0003
0001 0109 00000001 0001 0000 0001 58
0001 010a 00000001 00 0000 00000007
0002 010b 0002 0000006a 010b 0003 0000006a
0001 010c 0006 00000007 0001 0000006e 01
0001 010d 0006 00000007 000102030405060708090a0b0c0d0e0f101112131415161718191a1b1c1d1e1f 00000001
0001 010e 0006 00000007 0001 5ad8a10e8d93924b0af894a0c68ed7c566e8f32aebcd2171169df691d39b18a7
0001 010f 0006 00000007 0000
0001 0110 0006 00000007
0001 0211 0001 0000 0004
0001 0202 00000002 0001 02a8353ce786cccba40abe6c25091f40d4cf31b458f91fb271fc8a7f8f1010a4 03 0002 0003 0004 0000006e 0001 0000";

const BATCHES: usize = 24;

const DEPOSITS: usize = 3;

fn value(digit: u8) -> Result<u8, Fail>
    ensures { IfOk result (λ v. v ≤ 15) }
{
    match digit {
        b'0'..=b'9' => Ok(digit - b'0'),
        b'a'..=b'f' => Ok(digit - b'a' + 10),
        _ => Err("a digit".into()),
    }
}

/// The bytes of a line: two digits each, in words.
fn bytes_of(alloc: Global, line: &str) -> Result<Vec<u8>, Fail> {
    let mut bytes = Vec::new(alloc);
    for word in line.split_whitespace() {
        let digits = word.as_bytes();
        for place in 0..digits.len() / 2 {
            bytes.push(value(digits[2 * place])? * 16 + value(digits[2 * place + 1])?)?;
        }
    }
    Ok(bytes)
}

/// One batch more, for which there is room.
fn put(list: &mut Vec<Bytes>, room: usize, batch: Vec<u8>) -> Result<usize, Fail>
    ensures { IfOk result (λ left. sum_by length list.new.items + left ≡ sum_by length list.old.items + room) }
{
    if batch.len() > room {
        return Err("at most 4,000 bytes".into());
    }
    let left = room - batch.len();
    list.push(Bytes::from_vec(batch))?;
    Ok(left)
}

/// The first batches of the journal, and behind them another one, if any: so few bytes.
fn batches_of(alloc: Global, count: usize, other: Option<Vec<u8>>) -> Result<Vec<Bytes>, Fail>
    ensures { IfOk result (λ v. sum_by length v.items ≤ 4000) }
{
    let mut list = Vec::new(alloc);
    let mut room = 4000;
    for line in JOURNAL.lines().take(count) {
        room = put(&mut list, room, bytes_of(alloc, line)?)?;
    }
    if let Some(batch) = other {
        put(&mut list, room, batch)?;
    }
    Ok(list)
}

/// A batch of the journal with this byte at this place.
fn turned(alloc: Global, count: usize, place: usize, byte: u8) -> Result<Vec<u8>, Fail> {
    let line = JOURNAL.lines().nth(count).ok_or("a line")?;
    let mut batch = bytes_of(alloc, line)?;
    if place >= batch.len() {
        return Err("a byte".into());
    }
    batch[place] = byte;
    Ok(batch)
}

fn told(sort: &JournalSort) -> (&'static str, usize) {
    match sort {
        JournalSort::Whole { list } => ("whole", list.as_slice().len()),
        JournalSort::Begun { list } => ("begun", list.as_slice().len()),
        JournalSort::Foreign { batch } => ("foreign", *batch as usize),
    }
}

/// What so many batches of the journal are: the 17th has two records.
fn wanted(count: usize) -> (&'static str, usize) {
    if count < DEPOSITS {
        ("begun", count)
    } else if count < 17 {
        ("whole", count)
    } else {
        ("whole", count.saturating_add(1))
    }
}

fn plan_of(alloc: Global) -> Result<Plan, Fail>
    ensures good { IfOk result (λ plan. plan_fault plan ≡ None) }
    ensures honest { IfOk result (λ plan. IsSome (honest_peer 1 plan)) }
{
    let Ok(Script { plan, .. }) = read_script(alloc, SCRIPT.as_bytes()) else {
        return Err("no script".into());
    };
    if plan.check().is_err() || find_honest(plan.peers.as_slice(), 1).is_none() {
        return Err("no good plan".into());
    }
    Ok(plan)
}

fn sorted<R: Wait>(
    alloc: Global,
    rt: &R,
    plan: &Plan,
    batches: &[Bytes],
) -> Result<(&'static str, usize), Fail>
    requires good { plan_fault plan.now ≡ None }
    requires honest { IsSome (honest_peer 1 plan.now) }
    requires few { sum_by length batches.now ≤ 4000 }
{
    let pool = BlockPool::new(alloc)?;
    Ok(told(&sort_journal(alloc, rt, &pool, plan, 1, batches)?))
}

/// What so many batches of the journal are, and behind them another one, if any.
fn sorted_with<R: Wait>(
    alloc: Global,
    rt: &R,
    plan: &Plan,
    count: usize,
    other: Option<Vec<u8>>,
) -> Result<(&'static str, usize), Fail>
    requires good { plan_fault plan.now ≡ None }
    requires honest { IsSome (honest_peer 1 plan.now) }
{
    let batches = batches_of(alloc, count, other)?;
    sorted(alloc, rt, plan, &batches)
}

#[test]
fn fronts_of_a_journal(rt: HostRuntime) -> Result<(), Fail> {
    let plan = plan_of(rt.alloc())?;
    for count in 0..BATCHES + 1 {
        let found = sorted_with(rt.alloc(), &rt, &plan, count, None)?;
        same(&rt, &found, &wanted(count), &count);
    }
    Ok(())
}

/// A batch of the journal, a place in it, another byte there, and whether the peer would write that too.
const TURNED: [(usize, usize, u8, bool); 49] = [
    // deposits: an AU, and blocks
    (0, 5, 2, false),
    (0, 10, 0x42, false),
    (1, 5, 3, false),
    (1, 13, 0x44, false),
    (2, 10, 0x41, false),
    // an opening: its number, an AU that isn't held and one that is, the nonce, the circle, and a later tick
    (3, 7, 2, false),
    (3, 9, 4, false),
    (3, 9, 2, true),
    (3, 10, 0x0e, false),
    (3, 44, 5, false),
    (3, 52, 9, true),
    // a nomination: the poll, who sent it, and the nominee
    (4, 7, 2, false),
    (4, 9, 5, false),
    (4, 12, 6, true),
    // the outer circle
    (5, 7, 2, false),
    (5, 10, 6, false),
    // a vote: the poll, a voter who wasn't invited, one who has voted, and any hash
    (6, 7, 2, false),
    (6, 9, 6, false),
    (7, 9, 2, false),
    (6, 12, 0x2e, true),
    // the end of voting
    (10, 7, 2, false),
    // a request: the poll, the block and the voter
    (11, 7, 2, false),
    (11, 9, 1, false),
    (11, 11, 3, false),
    // one that is given up
    (12, 7, 2, false),
    (12, 9, 1, false),
    (12, 11, 3, false),
    // a repair: the poll, the AU, the block and its bytes
    (14, 7, 2, false),
    (14, 9, 2, false),
    (14, 11, 1, false),
    (14, 14, 0x59, false),
    // a closing: the poll, the outcome, and a tick before that of the opening
    (15, 7, 2, false),
    (15, 8, 1, false),
    (15, 14, 4, false),
    // what is overdue: an AU that isn't, too early a tick, and two ticks
    (16, 5, 1, false),
    (16, 9, 0x64, false),
    (16, 17, 0x6b, false),
    // a session: another poller, an AU that isn't held, whether the poller is unknown, and a tick that falls
    (17, 5, 7, true),
    (17, 11, 4, false),
    (17, 16, 0, false),
    (17, 15, 0x64, false),
    // a commitment: a poll that wasn't joined, and the version; the nonce is the poller's
    (18, 9, 8, false),
    (18, 45, 0, false),
    (18, 10, 1, true),
    // a vote that is cast, a block that is served, the end of a session, and a tuning to a quorum above the circle
    (19, 12, 0x5b, false),
    (20, 11, 1, false),
    (21, 9, 8, false),
    (22, 5, 4, false),
    // an opening behind it, under another quorum
    (23, 54, 3, false),
];

/// What so many batches of the journal are with one more, which the peer would write, or wouldn't.
fn wanted_with(count: usize, own: bool) -> (&'static str, usize) {
    if own {
        wanted(count.saturating_add(1))
    } else {
        ("foreign", count)
    }
}

#[test]
fn turned_batches(rt: HostRuntime) -> Result<(), Fail> {
    let plan = plan_of(rt.alloc())?;
    for &(count, place, byte, own) in TURNED.iter() {
        let batch = turned(rt.alloc(), count, place, byte)?;
        let found = sorted_with(rt.alloc(), &rt, &plan, count, Some(batch))?;
        same(&rt, &found, &wanted_with(count, own), &(count, place));
    }
    Ok(())
}

/// How many batches of the journal stand before this one, and what they are with it.
const OTHERS: [(usize, &str, &str, usize); 26] = [
    // deposits in another order, of another plan, and more than one in a batch
    (0, "0001 0101 0002 0002 0001 42 0001 43", "foreign", 0),
    (1, "0001 0101 0003 0001 0001 44", "foreign", 1),
    (2, "0001 0101 0004 0001 0001 44", "foreign", 2),
    (0, "0001 0101 0001 0002 0001 41 0001 42", "foreign", 0),
    (
        1,
        "0002 0101 0002 0002 0001 42 0001 43 0101 0003 0001 0001 44",
        "foreign",
        1,
    ),
    (0, "0001 0211 0001 0000 0002", "foreign", 0),
    // no batch, a batch, that and a byte, and a deposit behind the deposits
    (3, "0000", "foreign", 3),
    (3, "0001 0211 0001 0000 0002", "whole", 4),
    (3, "0001 0211 0001 0000 0002 00", "foreign", 3),
    (3, "0001 0101 0001 0001 0001 41", "foreign", 3),
    // an opening with the numbers of the rules, with others, and with another peer's nonce
    (
        3,
        "0001 0202 00000001 0001 0d00e5e6a8a816ce10265bd371e0540ce61267aeae9a835e35de0248493c5d44 03 0002 0003 0004 00000005 0003 0001",
        "whole",
        4,
    ),
    (
        3,
        "0001 0202 00000001 0001 0d00e5e6a8a816ce10265bd371e0540ce61267aeae9a835e35de0248493c5d44 03 0002 0003 0004 00000005 0001 0000",
        "foreign",
        3,
    ),
    (
        3,
        "0001 0102 00000001 0001 e612b94ae169f0f7c08e2383b3c0f453646e9b5c3ba0603320f2b131b46a24a0 03 0002 0003 0004 00000005",
        "foreign",
        3,
    ),
    // a vote of two hashes, on an AU of one block
    (
        6,
        "0001 0105 00000001 0002 0002 2f71913ff97a9622bc4c3c0adfd8740697b6c0a9a009d2d9bf91675d13df7fa1 2f71913ff97a9622bc4c3c0adfd8740697b6c0a9a009d2d9bf91675d13df7fa1",
        "foreign",
        6,
    ),
    // the end of voting before there is a quorum, and with it the closing
    (6, "0001 0106 00000001", "foreign", 6),
    (
        6,
        "0002 0106 00000001 010a 00000001 01 0000 00000005",
        "whole",
        8,
    ),
    // the block from the first voter who was asked, from nobody, and when nobody is asked any more
    (12, "0001 0109 00000001 0001 0000 0001 58", "whole", 13),
    (11, "0001 0109 00000001 0001 0000 0001 58", "foreign", 11),
    (13, "0001 0109 00000001 0001 0000 0001 58", "foreign", 13),
    // what is overdue in another order, and not all of it
    (
        16,
        "0002 010b 0003 0000006a 010b 0002 0000006a",
        "foreign",
        16,
    ),
    (16, "0001 010b 0002 0000006a", "foreign", 16),
    // a session with the number of repairs of the rules, and with another
    (
        17,
        "0001 020c 0006 00000007 0001 0000006e 01 0002",
        "whole",
        19,
    ),
    (
        17,
        "0001 020c 0006 00000007 0001 0000006e 01 0003",
        "foreign",
        17,
    ),
    // behind a tuning an opening without its numbers, and a session without and with them
    (
        23,
        "0001 0102 00000002 0001 02a8353ce786cccba40abe6c25091f40d4cf31b458f91fb271fc8a7f8f1010a4 03 0002 0003 0004 0000006e",
        "foreign",
        23,
    ),
    (
        23,
        "0001 010c 0007 00000001 0001 0000006e 01",
        "foreign",
        23,
    ),
    (
        23,
        "0001 020c 0007 00000001 0001 0000006e 01 0004",
        "whole",
        25,
    ),
];

#[test]
fn other_batches(rt: HostRuntime) -> Result<(), Fail> {
    let plan = plan_of(rt.alloc())?;
    for &(count, line, what, number) in OTHERS.iter() {
        let batch = bytes_of(rt.alloc(), line)?;
        let found = sorted_with(rt.alloc(), &rt, &plan, count, Some(batch))?;
        same(&rt, &found, &(what, number), &(count, line));
    }
    Ok(())
}

fn add_frame(file: &mut Vec<u8>, batch: &[u8]) -> Result<(), Fail> {
    let count = u32::try_from(batch.len())?;
    file.push(0xa5)?;
    file.extend_from_slice(count.to_be_bytes().as_slice())?;
    file.extend_from_slice(batch)?;
    Ok(())
}

/// So many batches of the journal, in frames.
fn file_of(alloc: Global, count: usize) -> Result<Vec<u8>, Fail> {
    let mut file = Vec::new(alloc);
    for line in JOURNAL.lines().take(count) {
        add_frame(&mut file, &bytes_of(alloc, line)?)?;
    }
    file.push(0)?;
    Ok(file)
}

/// A disk with so many batches of the journal.
fn disk_of(alloc: Global, count: usize) -> Result<MemDisk, Fail> {
    let file = file_of(alloc, count)?;
    let mut disk = MemDisk::new(alloc, Vec::new(alloc));
    disk.write_at(0, &file)?;
    Ok(disk)
}

fn is_small(bodies: &[Bytes]) -> bool
    ensures { IsTrue result → sum_by length bodies.now ≤ 4000 }
{
    let mut room = 4000;
    for body in bodies {
        let count = body.as_slice().len();
        if count > room {
            return false;
        }
        room -= count;
    }
    true
}

fn reopened<D: Disk + Drop>(
    alloc: Global,
    disk: D,
) -> Result<(Journal<D>, Vec<Bytes>), JournalFault>
    ensures { IfOk result (λ p. IsReadAs D.face p.0 p.1.items) }
{
    match Journal::reopen(alloc, disk) {
        Ok(read) => Ok(read),
        Err((_disk, fault)) => Err(fault),
    }
}

fn host_of<D: Disk + Drop>(
    alloc: Global,
    plan: &Plan,
    peer: Peer,
    journal: Journal<D>,
    list: &[Record],
) -> Result<Host<D>, Fail>
    requires good { plan_fault plan.now ≡ None }
    requires honest { IsSome (honest_peer 1 plan.now) }
    requires owned { (bodies : List (List ℕ)) × IsReadAs D.face journal bodies ×
        ((p : Planned) → honest_peer 1 plan.now ≡ Some p
        → Owns (station_of plan.now p) plan.now.aus p.copies bodies list.now peer) }
{
    if list.len() > 1_000_000_000 {
        return Err("at most 1,000,000,000 records".into());
    }
    match Host::adopt(alloc, plan, 1, peer, journal, list) {
        Ok(host) => Ok(host),
        Err((_disk, fault)) => Err(Fail::from(fault)),
    }
}

/// The host of peer 1 over what the disk holds.
fn adopted<R: Wait, D: Disk + Drop>(
    alloc: Global,
    rt: &R,
    pool: &BlockPool,
    plan: &Plan,
    disk: D,
) -> Result<Host<D>, Fail>
    requires good { plan_fault plan.now ≡ None }
    requires honest { IsSome (honest_peer 1 plan.now) }
{
    let (journal, bodies) = reopened(alloc, disk)?;
    if !is_small(&bodies) {
        return Err("at most 4,000 bytes".into());
    }
    match sort_with_peer(alloc, rt, pool, plan, 1, &bodies)? {
        PeerSort::Whole { peer, list } => host_of(alloc, plan, peer, journal, list.as_slice()),
        PeerSort::Begun { peer, list } => host_of(alloc, plan, peer, journal, list.as_slice()),
        PeerSort::Foreign { .. } => Err("a foreign batch".into()),
    }
}

/// How many batches the host over what the disk holds has, and the disk afterwards.
fn disk_after<R: Wait>(
    alloc: Global,
    rt: &R,
    pool: &BlockPool,
    plan: &Plan,
    disk: MemDisk,
) -> Result<(u64, MemDisk), Fail>
    requires good { plan_fault plan.now ≡ None }
    requires honest { IsSome (honest_peer 1 plan.now) }
{
    let host = adopted(alloc, rt, pool, plan, disk)?;
    Ok((host.count(), host.into_disk()))
}

/// Whether a disk has what one with so many batches of the journal has.
fn holds(alloc: Global, disk: &MemDisk, count: usize) -> Result<bool, Fail> {
    Ok(disk.bytes() == disk_of(alloc, count)?.bytes())
}

/// How many batches there are once a disk with so many was adopted, whether these are the first of the journal, and how
/// many there are once it was adopted again.
fn adopted_twice<R: Wait>(
    alloc: Global,
    rt: &R,
    pool: &BlockPool,
    plan: &Plan,
    count: usize,
) -> Result<(u64, bool, u64), Fail>
    requires good { plan_fault plan.now ≡ None }
    requires honest { IsSome (honest_peer 1 plan.now) }
{
    let (first, disk) = disk_after(alloc, rt, pool, plan, disk_of(alloc, count)?)?;
    let whole = holds(alloc, &disk, count.max(DEPOSITS))?;
    let (second, _disk) = disk_after(alloc, rt, pool, plan, disk)?;
    Ok((first, whole, second))
}

/// The same on a pool of its own.
fn adopted_alone<R: Wait>(
    alloc: Global,
    rt: &R,
    plan: &Plan,
    count: usize,
) -> Result<(u64, bool, u64), Fail>
    requires good { plan_fault plan.now ≡ None }
    requires honest { IsSome (honest_peer 1 plan.now) }
{
    let pool = BlockPool::new(alloc)?;
    adopted_twice(alloc, rt, &pool, plan, count)
}

// What is missing of the deposits is there afterwards, and nothing else is written; adopted again, it is a whole
// journal.
#[test]
fn adopted_journals(rt: HostRuntime) -> Result<(), Fail> {
    let plan = plan_of(rt.alloc())?;
    for count in [0, 1, 2, DEPOSITS, BATCHES] {
        let found = adopted_alone(rt.alloc(), &rt, &plan, count)?;
        let whole = count.max(DEPOSITS) as u64;
        same(&rt, &found, &(whole, true, whole), &count);
    }
    Ok(())
}
