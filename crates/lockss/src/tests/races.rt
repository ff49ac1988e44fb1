//! Races: threads take what is due in whatever order they come.

use super::disks::{batches_on, is_left, replay_on};
use super::gates::{POLL, run_by};
use super::peers::PEERS;
use super::*;
use lks_base::{Entry, Event, Note, PeerStep};
use lks_work::{Gate, JobName};
use std::sync::atomic::{AtomicU64, Ordering};
use std::thread;

/// The rules of `PEERS`.
const RULES: &str = "\
lockss 1
rules inner 3 quorum 3 minority 1 outer 0 repairs 2 pace 0 refractory 0 overdue 100 unknown 100 debt 100 churn 0
";

/// What stands between rules and steps of `PEERS`, without its damage.
const COPIES: &str = "\
au 1 12
peer 1 honest 01 01
peer 2 honest 02 01
peer 3 honest 03 01
peer 4 honest 04 01
refs 1 2 3 4
refs 2 1 3 4
refs 3 1 2 4
refs 4 1 2 3
copy 1 1 30,31,32,33,34,35,36,37,38,39,3a,3b
copy 2 1 like 1
copy 3 1 like 1
copy 4 1 like 1
";

const AGREED_RACE: &str = "\
copy 1 1 1
copy 2 1 0
copy 3 1 0
copy 4 1 0
poll 1 1 1 3 0 agreed
end 28
";

const NO_TURNS: &str = "\
lockss report 1
1 open 1 1 | opened 1 1 | 3
copy 1 1 0
copy 2 1 0
copy 3 1 0
copy 4 1 0
poll 1 1 1 0 0 running
end 1
";

/// Words, the parts of a script, and how the report ends in every order of threads.
const RACES: [(&[&str], &[&str], &str); 4] = [
    (&["race", "1"], &[PEERS], AGREED_RACE),
    (&["race", "4"], &[PEERS], AGREED_RACE),
    (&["race", "64"], &[PEERS], AGREED_RACE),
    (
        &["race", "2"],
        &[RULES, "turns 0\n", COPIES, "damage 1 1 5 ff\nopen 1 1\n"],
        NO_TURNS,
    ),
];

#[test]
fn races_end_alike(rt: HostRuntime) -> Result<(), Fail> {
    for (at, (words, script, report)) in RACES.iter().enumerate() {
        let (status, written) = run_by(rt.alloc(), &rt, words, script, &FreeGate)?;
        same(&rt, &status, &Done, &at);
        assert!(rt; written.as_slice().ends_with(report.as_bytes()), "row {at}");
    }
    Ok(())
}

/// Calls of the disk of peer 1, of the 54 that make its journal and append its 13 batches.
const FAILING: [u32; 6] = [3, 6, 10, 31, 53, 54];

// The threads stop, nothing is written, and the batches from before are there, and the one in progress or not.
#[test]
fn a_disk_fails_in_a_race(rt: HostRuntime) -> Result<(), Fail> {
    let alloc = rt.alloc();
    for &call in FAILING.iter() {
        let (status, disk, written) = replay_on(
            alloc,
            &rt,
            &["race", "2"],
            &[PEERS],
            &[call],
            &[],
        )?;
        same(&rt, &status, &Status::DiskFault { peer: 1 }, &call);
        assert!(rt; written.is_empty(), "call {call}");
        assert!(rt;
            is_left(call, batches_on(alloc, disk)?.len()),
            "call {call}"
        );
    }
    let (status, _disk, _written) = replay_on(alloc, &rt, &["race", "2"], &[PEERS], &[55], &[])?;
    same(&rt, &status, &Done, &"status");
    let (_status, disk, _written) = replay_on(alloc, &rt, &["race", "2"], &[PEERS], &[], &[])?;
    same(&rt, &batches_on(alloc, disk)?.len(), &13, &"batches_on");
    Ok(())
}

const FIRST: JobName = JobName::Vote {
    peer: 2,
    poll: POLL,
};

const SECOND: JobName = JobName::Vote {
    peer: 3,
    poll: POLL,
};

/// Holds the second vote until the first one begins, and the first one until the second was kept and a block of peer 2
/// was replaced.
#[derive(Drop)]
struct Crossing {
    first: AtomicU64,
    second: AtomicU64,
    kept: AtomicU64,
    replaced: AtomicU64,
    failed: AtomicU64,
}

/// Waits until each of them counted something. Whether they did.
fn wait_for(counts: &[&AtomicU64]) -> bool {
    for _ in 0..10_000_000u32 {
        if are_counted(counts) {
            return true;
        }
        thread::yield_now();
    }
    false
}

fn are_counted(counts: &[&AtomicU64]) -> bool {
    for count in counts {
        if count.load(Ordering::SeqCst) == 0 {
            return false;
        }
    }
    true
}

/// Whether the entry tells that peer 2 replaced a block.
fn replaces(entry: &Entry) -> bool {
    let notes = entry.notes.as_slice();
    entry.to == 2
        && notes
            .iter()
            .any(|note| matches!(note, Note::Replaced { .. }))
}

/// Whether the entry tells that the second vote was kept.
fn keeps_second(entry: &Entry) -> bool {
    matches!(entry.event, Event::Step(PeerStep::Work { peer: 3, poll }) if poll == POLL)
}

impl Crossing {
    fn new() -> Crossing {
        Crossing {
            first: AtomicU64::new(0),
            second: AtomicU64::new(0),
            kept: AtomicU64::new(0),
            replaced: AtomicU64::new(0),
            failed: AtomicU64::new(0),
        }
    }

    fn seen(&self) -> [u64; 5] {
        [
            self.first.load(Ordering::SeqCst),
            self.second.load(Ordering::SeqCst),
            self.kept.load(Ordering::SeqCst),
            self.replaced.load(Ordering::SeqCst),
            self.failed.load(Ordering::SeqCst),
        ]
    }
}

impl Gate for Crossing {
    fn begin(&self, job: &JobName) {
        let came = if *job == FIRST {
            self.first.fetch_add(1, Ordering::SeqCst);
            wait_for(&[&self.kept, &self.replaced])
        } else if *job == SECOND {
            self.second.fetch_add(1, Ordering::SeqCst);
            wait_for(&[&self.first])
        } else {
            true
        };
        if !came {
            self.failed.fetch_add(1, Ordering::SeqCst);
        }
    }

    fn told(&self, entry: &Entry) {
        if keeps_second(entry) {
            self.kept.fetch_add(1, Ordering::SeqCst);
        }
        if replaces(entry) {
            self.replaced.fetch_add(1, Ordering::SeqCst);
        }
    }
}

/// Peer 2 audits its damaged copy, and votes in a poll of peer 1 meanwhile.
const CROSSING: &str = "\
damage 2 1 5 ff
open 2 1
settle
shut 2 1
open 1 1
next 12
tally 2 1
";

// No thread hashes both votes, the lock is free while a job is held, and the copy is repaired under the vote on its old
// version.
#[test]
fn two_hash_while_others_go_on(rt: HostRuntime) -> Result<(), Fail> {
    let gate = Crossing::new();
    let script = [RULES, COPIES, CROSSING];
    let (status, _report) = run_by(rt.alloc(), &rt, &["race", "2"], &script, &gate)?;
    same(&rt, &status, &Done, &"status");
    same(&rt, &gate.seen(), &[1, 1, 1, 1, 0], &"gate.seen");
    Ok(())
}
