//! Whole runs: a script goes in, and a status and a report come out.

mod crashes;
mod disks;
mod drills;
mod evidence;
mod gates;
mod hostile;
mod lists;
mod peers;
mod races;
mod sessions;
mod turns;
mod watched;

ghost use Rattle.std.specs.Prelude.{◌≤◌, length};
ghost use Rattle.lks_world.specs.Held.{AreFresh};

use super::*;
use Status::{Alarmed, Done, Doubted};
use lks_disk::{Disk, MemDisk};
use lks_outside::{MemSink, MemSource};
use lks_work::FreeGate;
use std::alloc::Global;
use std::fmt::Debug;
use std::process::Abort;
use std::sync::Wait;
use std::test::Fail;
use std::thread::Threads;

const REPLAY: &[&str] = &["replay"];

// Peer 1 is honest and audits two blocks; peers 2, 3 and 4 are corrupt, and their accepted votes count like any others.
const HEAD: &str = "\
lockss 1
rules inner 4 quorum 3 minority 1 outer 0 repairs 2 pace 0 refractory 0 overdue 100 unknown 100 debt 100 churn 0
au 1 2
peer 1 honest 01 01
peer 2 corrupt 02 01
peer 3 corrupt 03 01
peer 4 corrupt 04 01
refs 1 2 3 4
copy 1 1 41,42
";

// The same with a fourth corrupt peer.
const HEAD_OF_FIVE: &str = "\
lockss 1
rules inner 4 quorum 3 minority 1 outer 0 repairs 2 pace 0 refractory 0 overdue 100 unknown 100 debt 100 churn 0
au 1 2
peer 1 honest 01 01
peer 2 corrupt 02 01
peer 3 corrupt 03 01
peer 4 corrupt 04 01
peer 5 corrupt 05 01
refs 1 2 3 4 5
copy 1 1 41,42
";

const AGREED: &str = "\
open 1 1
say 2 vote 1 1 1 of 41,42
say 3 vote 1 1 1 of 41,42
say 4 vote 1 1 1 of 41,42
settle
shut 1 1
settle
";

// Three votes come in, and the poll is shut.
const VOTED: &str = "\
lockss report 1
1 open 1 1 | opened 1 1 | 3
2 forge 2 1 74 | - | 1
3 forge 3 1 74 | - | 1
4 forge 4 1 74 | - | 1
5 deliver 0 1 2 | - | 0
6 deliver 1 1 3 | - | 0
7 deliver 2 1 4 | - | 0
8 deliver 3 2 1 accepted | vote-in 1 2 | 0
9 deliver 4 3 1 accepted | vote-in 1 3 | 0
10 deliver 5 4 1 accepted | vote-in 1 4 | 0
11 shut 1 1 | shut 1 | 0
";

const AGREED_REPORT: &str = "\
12 tally 1 1 | closed 1 agreed | 3
13 deliver 6 1 2 | - | 0
14 deliver 7 1 3 | - | 0
15 deliver 8 1 4 | - | 0
copy 1 1 0
poll 1 1 1 3 0 agreed
end 15
";

const INQUORATE: &str = "\
open 1 1
say 2 vote 1 1 1 of 41,42
say 3 vote 1 1 1 of 41,42
settle
shut 1 1
settle
";

const INQUORATE_REPORT: &str = "\
lockss report 1
1 open 1 1 | opened 1 1 | 3
2 forge 2 1 74 | - | 1
3 forge 3 1 74 | - | 1
4 deliver 0 1 2 | - | 0
5 deliver 1 1 3 | - | 0
6 deliver 2 1 4 | - | 0
7 deliver 3 2 1 accepted | vote-in 1 2 | 0
8 deliver 4 3 1 accepted | vote-in 1 3 | 0
9 shut 1 1 | shut 1, closed 1 inquorate | 2
10 deliver 5 1 2 | - | 0
11 deliver 6 1 3 | - | 0
copy 1 1 0
poll 1 1 1 2 0 inquorate
end 11
";

// Of the two votes of peer 2 the first counts, so one vote is against block 1.
const TWICE: &str = "\
open 1 1
say 2 vote 1 1 1 of 41,43
say 2 vote 1 1 1 of 41,42
say 3 vote 1 1 1 of 41,42
say 4 vote 1 1 1 of 41,42
settle
shut 1 1
settle
";

const TWICE_EVENTS: &str = "\
lockss report 1
1 open 1 1 | opened 1 1 | 3
2 forge 2 1 74 | - | 1
3 forge 2 1 74 | - | 1
4 forge 3 1 74 | - | 1
5 forge 4 1 74 | - | 1
6 deliver 0 1 2 | - | 0
7 deliver 1 1 3 | - | 0
8 deliver 2 1 4 | - | 0
9 deliver 3 2 1 accepted | vote-in 1 2 | 0
10 deliver 4 2 1 accepted | - | 0
11 deliver 5 3 1 accepted | vote-in 1 3 | 0
12 deliver 6 4 1 accepted | vote-in 1 4 | 0
13 shut 1 1 | shut 1 | 0
14 tally 1 1 | closed 1 agreed | 3
15 deliver 7 1 2 | - | 0
16 deliver 8 1 3 | - | 0
17 deliver 9 1 4 | - | 0
";

const TWICE_REPORT: &str = "\
copy 1 1 0
poll 1 1 1 3 0 agreed
end 17
";

const LENGTHS: &str = "\
open 1 1
say 2 vote 1 1 1 of 41
say 3 vote 1 1 1 of 41,42,43
say 4 vote 1 1 1 of 41,42
settle
shut 1 1
settle
";

const LENGTHS_REPORT: &str = "\
lockss report 1
1 open 1 1 | opened 1 1 | 3
2 forge 2 1 42 | - | 1
3 forge 3 1 106 | - | 1
4 forge 4 1 74 | - | 1
5 deliver 0 1 2 | - | 0
6 deliver 1 1 3 | - | 0
7 deliver 2 1 4 | - | 0
8 deliver 3 2 1 accepted | - | 0
9 deliver 4 3 1 accepted | - | 0
10 deliver 5 4 1 accepted | vote-in 1 4 | 0
11 shut 1 1 | shut 1, closed 1 inquorate | 1
12 deliver 6 1 4 | - | 0
copy 1 1 0
poll 1 1 1 1 0 inquorate
end 12
";

const SPLIT: &str = "\
open 1 1
say 2 vote 1 1 1 of 41,42
say 3 vote 1 1 1 of 41,42
say 4 vote 1 1 1 of 41,43
say 5 vote 1 1 1 of 41,43
settle
shut 1 1
settle
";

const SPLIT_REPORT: &str = "\
lockss report 1
1 open 1 1 | opened 1 1 | 4
2 forge 2 1 74 | - | 1
3 forge 3 1 74 | - | 1
4 forge 4 1 74 | - | 1
5 forge 5 1 74 | - | 1
6 deliver 0 1 2 | - | 0
7 deliver 1 1 3 | - | 0
8 deliver 2 1 4 | - | 0
9 deliver 3 1 5 | - | 0
10 deliver 4 2 1 accepted | vote-in 1 2 | 0
11 deliver 5 3 1 accepted | vote-in 1 3 | 0
12 deliver 6 4 1 accepted | vote-in 1 4 | 0
13 deliver 7 5 1 accepted | vote-in 1 5 | 0
14 shut 1 1 | shut 1 | 0
15 tally 1 1 | closed 1 split-1 | 4
16 deliver 8 1 2 | - | 0
17 deliver 9 1 3 | - | 0
18 deliver 10 1 4 | - | 0
19 deliver 11 1 5 | - | 0
copy 1 1 0
poll 1 1 1 4 0 split-1
alarm 1 0 split 1 1
end 19
";

// One vote for block 1 is no more than a landslide's minority, so the copy has lost there.
const LOST: &str = "\
open 1 1
say 2 vote 1 1 1 of 41,42
say 3 vote 1 1 1 of 41,43
say 4 vote 1 1 1 of 41,43
settle
shut 1 1
settle
";

const LOST_REPORT: &str = "\
12 tally 1 1 | asked 1 1 3 | 1
13 deliver 6 1 3 | - | 0
copy 1 1 0
poll 1 1 1 3 0 running
end 13
";

// All are against block 1, and peer 2 sends the block that they voted for.
const REPAIRED: &str = "\
open 1 1
say 2 vote 1 1 1 of 41,43
say 3 vote 1 1 1 of 41,43
say 4 vote 1 1 1 of 41,43
settle
shut 1 1
settle
say 2 repair 1 1 1 43
settle
";

const REPAIRED_REPORT: &str = "\
12 tally 1 1 | asked 1 1 2 | 1
13 deliver 6 1 2 | - | 0
14 forge 2 1 11 | - | 1
15 deliver 7 2 1 | replaced 1 1 1 1 | 0
16 tally 1 1 | closed 1 agreed | 3
17 deliver 8 1 2 | - | 0
18 deliver 9 1 3 | - | 0
19 deliver 10 1 4 | - | 0
copy 1 1 1
poll 1 1 1 3 0 agreed
end 19
";

// It sends another block, against which the votes speak.
const FALSE_REPAIR: &str = "\
open 1 1
say 2 vote 1 1 1 of 41,43
say 3 vote 1 1 1 of 41,43
say 4 vote 1 1 1 of 41,43
settle
shut 1 1
settle
say 2 repair 1 1 1 44
settle
";

const FALSE_REPAIR_EVENTS: &str = "\
12 tally 1 1 | asked 1 1 2 | 1
13 deliver 6 1 2 | - | 0
14 forge 2 1 11 | - | 1
15 deliver 7 2 1 | repair-bad 1 1 2 | 0
16 tally 1 1 | asked 1 1 3 | 1
17 deliver 8 1 3 | - | 0
";

const FALSE_REPAIR_REPORT: &str = "\
copy 1 1 0
poll 1 1 1 3 0 running
end 17
";

// A bad first block makes all hashes behind it differ too.
const HEAD_OF_BAD_FIRST: &str = "\
lockss 1
rules inner 4 quorum 3 minority 1 outer 0 repairs 2 pace 0 refractory 0 overdue 100 unknown 100 debt 100 churn 0
au 1 2
peer 1 honest 01 01
peer 2 corrupt 02 01
peer 3 corrupt 03 01
peer 4 corrupt 04 01
refs 1 2 3 4
copy 1 1 99,42
";

const FIRST_REPAIRED: &str = "\
open 1 1
say 2 vote 1 1 1 of 41,42
say 3 vote 1 1 1 of 41,42
say 4 vote 1 1 1 of 41,42
settle
shut 1 1
settle
say 2 repair 1 1 0 41
settle
";

const FIRST_REPAIRED_REPORT: &str = "\
12 tally 1 1 | asked 1 0 2 | 1
13 deliver 6 1 2 | - | 0
14 forge 2 1 11 | - | 1
15 deliver 7 2 1 | replaced 1 1 0 1 | 0
16 tally 1 1 | closed 1 agreed | 3
17 deliver 8 1 2 | - | 0
18 deliver 9 1 3 | - | 0
19 deliver 10 1 4 | - | 0
copy 1 1 1
poll 1 1 1 3 0 agreed
end 19
";

// An empty block and one of the greatest length. Comments and empty lines change nothing.
const HEAD_OF_ENDS: &str = "\
# Peer 1 holds an empty block.
lockss 1
rules inner 4 quorum 3 minority 1 outer 0 repairs 2 pace 0 refractory 0 overdue 100 unknown 100 debt 100 churn 0

au 1 2
peer 1 honest 01 01
peer 2 corrupt 02 01
peer 3 corrupt 03 01
peer 4 corrupt 04 01
refs 1 2 3 4
copy 1 1 -,43
";

const ENDS: &str = "\
open 1 1
say 2 vote 1 1 1 of 4142,5a*16384
say 3 vote 1 1 1 of 4142,5a*16384
say 4 vote 1 1 1 of 4142,5a*16384
settle
shut 1 1
settle
# Both blocks are lost, one after the other.
say 2 repair 1 1 0 4142
settle
say 2 repair 1 1 1 5a*16384
settle
";

const ENDS_REPORT: &str = "\
12 tally 1 1 | asked 1 0 2 | 1
13 deliver 6 1 2 | - | 0
14 forge 2 1 12 | - | 1
15 deliver 7 2 1 | replaced 1 1 0 2 | 0
16 tally 1 1 | asked 1 1 2 | 1
17 deliver 8 1 2 | - | 0
18 forge 2 1 16394 | - | 1
19 deliver 9 2 1 | replaced 1 1 1 16384 | 0
20 tally 1 1 | closed 1 agreed | 3
21 deliver 10 1 2 | - | 0
22 deliver 11 1 3 | - | 0
23 deliver 12 1 4 | - | 0
copy 1 1 2
poll 1 1 1 3 0 agreed
end 23
";

// One vote is a quorum, and one against is a landslide.
const HEAD_OF_ONE: &str = "\
lockss 1
rules inner 1 quorum 1 minority 0 outer 0 repairs 2 pace 0 refractory 0 overdue 100 unknown 100 debt 100 churn 0
au 1 2
peer 1 honest 01 01
peer 2 corrupt 02 01
peer 3 corrupt 03 01
peer 4 corrupt 04 01
refs 1 2
copy 1 1 41,42
";

const ONE: &str = "\
open 1 1
say 2 vote 1 1 1 of 41,43
settle
shut 1 1
settle
say 2 repair 1 1 1 43
settle
";

const ONE_REPORT: &str = "\
lockss report 1
1 open 1 1 | opened 1 1 | 1
2 forge 2 1 74 | - | 1
3 deliver 0 1 2 | - | 0
4 deliver 1 2 1 accepted | vote-in 1 2 | 0
5 shut 1 1 | shut 1 | 0
6 tally 1 1 | asked 1 1 2 | 1
7 deliver 2 1 2 | - | 0
8 forge 2 1 11 | - | 1
9 deliver 3 2 1 | replaced 1 1 1 1 | 0
10 tally 1 1 | closed 1 agreed | 1
11 deliver 4 1 2 | - | 0
copy 1 1 1
poll 1 1 1 1 0 agreed
end 11
";

// No bytes, a receipt with a byte behind it, and a tag that no message has.
const NO_MESSAGES: &str = "\
forge 2 1 -
forge 2 1 01080000000100
forge 2 1 010900000001
settle
";

const NO_MESSAGES_REPORT: &str = "\
lockss report 1
1 forge 2 1 0 | - | 1
2 forge 2 1 7 | - | 1
3 forge 2 1 6 | - | 1
4 deliver 0 2 1 | - | 0
5 deliver 1 2 1 | - | 0
6 deliver 2 2 1 | - | 0
copy 1 1 0
end 6
";

// Peer 2 agrees to vote and is sent the poll's proof, peer 3 doesn't.
const CHALLENGES: &str = "\
open 1 1
say 2 challenge 1 1 yes
say 3 challenge 1 1 no
settle
";

const CHALLENGES_REPORT: &str = "\
lockss report 1
1 open 1 1 | opened 1 1 | 3
2 forge 2 1 7 | - | 1
3 forge 3 1 7 | - | 1
4 deliver 0 1 2 | - | 0
5 deliver 1 1 3 | - | 0
6 deliver 2 1 4 | - | 0
7 deliver 3 2 1 | - | 1
8 deliver 4 3 1 | - | 0
9 deliver 5 1 2 | - | 0
copy 1 1 0
poll 1 1 1 0 0 running
end 9
";

// Of what peer 2 says, one nomination is written down. No session is open for the rest.
const SAYINGS: &str = "\
open 1 1
say 2 nominate 1 1 5 6
say 2 nominate 1 1
say 2 proof 1 7
say 2 request 1 7 1
say 2 receipt 1 7
settle
";

const SAYINGS_REPORT: &str = "\
lockss report 1
1 open 1 1 | opened 1 1 | 3
2 forge 2 1 11 | - | 1
3 forge 2 1 7 | - | 1
4 forge 2 1 40 | - | 1
5 forge 2 1 8 | - | 1
6 forge 2 1 6 | - | 1
7 deliver 0 1 2 | - | 0
8 deliver 1 1 3 | - | 0
9 deliver 2 1 4 | - | 0
10 deliver 3 2 1 | nominated 1 2 | 0
11 deliver 4 2 1 | - | 0
12 deliver 5 2 1 accepted | - | 0
13 deliver 6 2 1 | - | 0
14 deliver 7 2 1 | - | 0
copy 1 1 0
poll 1 1 1 0 0 running
end 14
";

// Peer 1 has no part in a poll of another. The invitation goes to a corrupt peer.
const NO_PART: &str = "\
work 1 2 7
expire 1 2 7
say 2 poll 3 7 1
settle
";

const NO_PART_REPORT: &str = "\
lockss report 1
1 work 1 2 7 | - | 0
2 expire 1 2 7 | - | 0
3 forge 2 3 8 | - | 1
4 deliver 0 2 3 | - | 0
copy 1 1 0
end 4
";

/// What a replay answers, the parts of its script, one behind the other, and those of what it writes.
type Row = (Status, &'static [&'static str], &'static [&'static str]);

fn words_of(alloc: Global, words: &[&str]) -> Result<Vec<String>, Fail> {
    let mut all = Vec::new(alloc);
    for word in words {
        all.push(String::from_str(alloc, word)?)?;
    }
    Ok(all)
}

fn joined(alloc: Global, pieces: &[&str]) -> Result<Vec<u8>, Fail> {
    let mut bytes = Vec::new(alloc);
    for piece in pieces {
        bytes.extend_from_slice(piece.as_bytes())?;
    }
    Ok(bytes)
}

/// Runs with the program's own judge, and no bells.
fn run_plainly<R: Threads + Wait + Sync>(
    alloc: Global,
    rt: &R,
    words: &[String],
    source: &mut MemSource,
    sink: &mut MemSink,
    disks: &mut Vec<MemDisk>,
) -> Result<Status, Fail>
    requires enough { 32 ≤ length disks.old.items }
    requires fresh { AreFresh ⟦<MemDisk as Disk>⟧.face disks.old.items }
{
    let mut judge = Some(FirstByteJudge::new(alloc)?);
    let mut bells: Vec<ListBell> = Vec::new(alloc);
    Ok(run(
        alloc, rt, words, source, sink, disks, &mut judge, &mut bells, &FreeGate,
    ))
}

/// What a run by these words over this source and this sink answers and writes.
fn run_over<R: Threads + Wait + Sync>(
    alloc: Global,
    rt: &R,
    words: &[&str],
    source: &mut MemSource,
    sink: &mut MemSink,
) -> Result<(Status, Vec<u8>), Fail> {
    let words = words_of(alloc, words)?;
    let mut disks = fresh_disks(alloc)?;
    let status = run_plainly(alloc, rt, &words, source, sink, &mut disks)?;
    Ok((status, sink.bytes().to_vec(alloc)?))
}

/// What a run by these words answers and writes, of which these calls of its source and its sink fail.
fn replayed<R: Threads + Wait + Sync>(
    alloc: Global,
    rt: &R,
    words: &[&str],
    script: &[&str],
    failing_reads: &[u32],
    failing_writes: &[u32],
) -> Result<(Status, Vec<u8>), Fail> {
    let script = joined(alloc, script)?;
    let mut source = MemSource::new(alloc, script, failing_reads.to_vec(alloc)?);
    let mut sink = MemSink::new(alloc, failing_writes.to_vec(alloc)?);
    run_over(alloc, rt, words, &mut source, &mut sink)
}

/// Ends the test where the two differ, and says at which row: a call of it costs a proof one step, and an `assert_eq`
/// many.
fn same<T: PartialEq + Debug>(rt: &impl Abort, found: &T, wanted: &T, row: &impl Debug) {
    assert_eq!(rt; *found, *wanted, "{row:?}");
}

/// Ends the test where a run didn't answer and write this, and says at which row.
fn expect(
    rt: &impl Abort,
    found: &(Status, Vec<u8>),
    status: Status,
    text: &[u8],
    row: &impl Debug,
) {
    same(rt, &found.0, &status, row);
    same(rt, &found.1.as_slice(), &text, row);
}

/// Runs each script, and compares what it answers and writes.
fn check_rows<R: Abort + Threads + Wait + Sync>(
    rt: &R,
    alloc: Global,
    rows: &[Row],
) -> Result<(), Fail> {
    for (at, (answer, script, report)) in rows.iter().enumerate() {
        let found = replayed(alloc, rt, REPLAY, script, &[], &[])?;
        let report = joined(alloc, report)?;
        expect(rt, &found, *answer, &report, &at);
    }
    Ok(())
}

const REPORTS: [Row; 15] = [
    (Done, &[HEAD, AGREED], &[VOTED, AGREED_REPORT]),
    (Done, &[HEAD, REPAIRED], &[VOTED, REPAIRED_REPORT]),
    (
        Done,
        &[HEAD, FALSE_REPAIR],
        &[VOTED, FALSE_REPAIR_EVENTS, FALSE_REPAIR_REPORT],
    ),
    (Done, &[HEAD, LOST], &[VOTED, LOST_REPORT]),
    (
        Done,
        &[HEAD_OF_BAD_FIRST, FIRST_REPAIRED],
        &[VOTED, FIRST_REPAIRED_REPORT],
    ),
    (Done, &[HEAD_OF_ENDS, ENDS], &[VOTED, ENDS_REPORT]),
    (Done, &[HEAD_OF_ONE, ONE], &[ONE_REPORT]),
    (Alarmed, &[HEAD_OF_FIVE, SPLIT], &[SPLIT_REPORT]),
    (Done, &[HEAD, INQUORATE], &[INQUORATE_REPORT]),
    (Done, &[HEAD, TWICE], &[TWICE_EVENTS, TWICE_REPORT]),
    (Done, &[HEAD, LENGTHS], &[LENGTHS_REPORT]),
    (Done, &[HEAD, NO_MESSAGES], &[NO_MESSAGES_REPORT]),
    (Done, &[HEAD, CHALLENGES], &[CHALLENGES_REPORT]),
    (Done, &[HEAD, SAYINGS], &[SAYINGS_REPORT]),
    (Done, &[HEAD, NO_PART], &[NO_PART_REPORT]),
];

#[test]
fn reports(rt: HostRuntime) -> Result<(), Fail> {
    check_rows(&rt, rt.alloc(), &REPORTS)
}

/// Words that name no command: a run by them reads nothing and writes nothing.
const MISUSED: [&[&str]; 12] = [
    &[],
    &["replay", "x"],
    &["race"],
    &["race", "0"],
    &["race", "65"],
    &["drill"],
    &["drill", "007"],
    &["drill", "18446744073709551616"],
    &["--help"],
    &["journals", "x"],
    &["evidence", "x"],
    &["-evidence"],
];

#[test]
fn misused_words(rt: HostRuntime) -> Result<(), Fail> {
    for &words in MISUSED.iter() {
        let found = replayed(rt.alloc(), &rt, words, &[HEAD, AGREED], &[1], &[1])?;
        expect(&rt, &found, Status::Usage, b"", &words);
    }
    Ok(())
}

/// Scripts in parts, and the first bad line of each: nothing is written.
const BAD_SCRIPTS: [(&[&str], u32); 7] = [
    (&[], 1),
    (&["lockss 1\n"], 2),
    (&[HEAD, "settle"], 10),
    (&[HEAD, "forge 1 2 00\n"], 10),
    (&[HEAD, "# nothing"], 10),
    (&[HEAD, "say 2 poll 1 1 2\n"], 10),
    (&[HEAD, "tune 1 4 2 2\n"], 10),
];

#[test]
fn bad_scripts(rt: HostRuntime) -> Result<(), Fail> {
    for &(script, line) in BAD_SCRIPTS.iter() {
        let found = replayed(rt.alloc(), &rt, REPLAY, script, &[], &[1])?;
        expect(&rt, &found, Status::BadScript { line }, b"", &script);
    }
    Ok(())
}

/// The calls of a source and of a sink that fail, and the answer.
const FAULTS: [(&[u32], &[u32], Status); 2] = [
    (&[1], &[], Status::ReadFault),
    (&[], &[1], Status::WriteFault),
];

#[test]
fn faults(rt: HostRuntime) -> Result<(), Fail> {
    for &(reads, writes, answer) in FAULTS.iter() {
        let found = replayed(rt.alloc(), &rt, REPLAY, &[HEAD, AGREED], reads, writes)?;
        expect(&rt, &found, answer, b"", &reads);
    }
    Ok(())
}
