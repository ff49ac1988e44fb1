//! What a gate is asked and told: the jobs of `settle` and `finish`, side by side where there is enough to hash, and
//! each entry.

use super::peers::PEERS;
use super::*;
use lks_base::{Entry, PollName};
use lks_work::{Gate, JobName};
use std::sync::atomic::{AtomicU64, Ordering};
use std::thread;

pub const POLL: PollName = PollName {
    poller: 1,
    number: 1,
};

/// The votes of peers 2, 3 and 4 in the poll of peer 1, and its tally.
const JOBS: [JobName; 4] = [
    JobName::Vote {
        peer: 2,
        poll: POLL,
    },
    JobName::Vote {
        peer: 3,
        poll: POLL,
    },
    JobName::Vote {
        peer: 4,
        poll: POLL,
    },
    JobName::Tally { peer: 1, number: 1 },
];

/// Counts how often each of these jobs began, and all others, and how many entries were told.
#[derive(Drop)]
struct Counting {
    begun: [AtomicU64; 4],
    others: AtomicU64,
    told: AtomicU64,
}

impl Counting {
    fn new() -> Counting {
        Counting {
            begun: [
                AtomicU64::new(0),
                AtomicU64::new(0),
                AtomicU64::new(0),
                AtomicU64::new(0),
            ],
            others: AtomicU64::new(0),
            told: AtomicU64::new(0),
        }
    }

    fn seen(&self) -> ([u64; 4], u64, u64) {
        let [a, b, c, d] = &self.begun;
        let begun = [
            a.load(Ordering::SeqCst),
            b.load(Ordering::SeqCst),
            c.load(Ordering::SeqCst),
            d.load(Ordering::SeqCst),
        ];
        let others = self.others.load(Ordering::SeqCst);
        (begun, others, self.told.load(Ordering::SeqCst))
    }
}

impl Gate for Counting {
    fn begin(&self, job: &JobName) {
        let count = match JOBS.iter().position(|name| *name == *job) {
            Some(at) => &self.begun[at],
            None => &self.others,
        };
        count.fetch_add(1, Ordering::SeqCst);
    }

    fn told(&self, _entry: &Entry) {
        self.told.fetch_add(1, Ordering::SeqCst);
    }
}

/// Holds the first job that begins until another has begun.
#[derive(Drop)]
struct Holding {
    begun: AtomicU64,
    failed: AtomicU64,
}

impl Gate for Holding {
    fn begin(&self, _job: &JobName) {
        if self.begun.fetch_add(1, Ordering::SeqCst) > 0 {
            return;
        }
        for _ in 0..10_000_000u32 {
            if self.begun.load(Ordering::SeqCst) > 1 {
                return;
            }
            thread::yield_now();
        }
        self.failed.fetch_add(1, Ordering::SeqCst);
    }

    fn told(&self, _entry: &Entry) {}
}

/// What a run by these words, before this gate, answers and writes.
pub fn run_by<R: Threads + Wait + Sync, G: Gate>(
    alloc: Global,
    rt: &R,
    words: &[&str],
    script: &[&str],
    gate: &G,
) -> Result<(Status, Vec<u8>), Fail> {
    let words = words_of(alloc, words)?;
    let mut source = MemSource::new(alloc, joined(alloc, script)?, [].to_vec(alloc)?);
    let mut sink = MemSink::new(alloc, [].to_vec(alloc)?);
    let mut disks = fresh_disks(alloc)?;
    let mut judge = Some(FirstByteJudge::new(alloc)?);
    let mut bells: Vec<ListBell> = Vec::new(alloc);
    let status = run(
        alloc,
        rt,
        &words,
        &mut source,
        &mut sink,
        &mut disks,
        &mut judge,
        &mut bells,
        gate,
    );
    Ok((status, sink.bytes().to_vec(alloc)?))
}

/// Steps behind `PEERS`, how often the jobs of their run begin, and how many events it has.
const STEPS: [(&str, [u64; 4], u64); 3] = [
    ("settle\nshut 1 1\nsettle\n", [1, 1, 1, 2], 27),
    ("finish\n", [1, 1, 1, 2], 28),
    // Steps that name their work hash no job.
    ("next 12\nwork 2 1 1\nwork 3 1 1\n", [0, 0, 0, 0], 15),
];

#[test]
fn jobs_of_settle_and_finish(rt: HostRuntime) -> Result<(), Fail> {
    for &(steps, begun, events) in STEPS.iter() {
        let gate = Counting::new();
        let (status, _report) = run_by(rt.alloc(), &rt, REPLAY, &[PEERS, steps], &gate)?;
        same(&rt, &status, &Done, &"status");
        same(&rt, &gate.seen(), &(begun, 0, events), &"gate.seen");
    }
    Ok(())
}

/// Three voters of eight blocks of 16 KiB, whose votes are ready together.
const LARGE: &str = "\
lockss 1
rules inner 3 quorum 3 minority 1 outer 0 repairs 2 pace 0 refractory 0 overdue 100 unknown 100 debt 100 churn 0
au 1 8
peer 1 honest 01 01
peer 2 honest 02 01
peer 3 honest 03 01
peer 4 honest 04 01
refs 1 2 3 4
refs 2 1 3 4
refs 3 1 2 4
refs 4 1 2 3
copy 1 1 30*16384,31*16384,32*16384,33*16384,34*16384,35*16384,36*16384,37*16384
copy 2 1 like 1
copy 3 1 like 1
copy 4 1 like 1
open 1 1
settle
";

#[test]
fn two_hash_at_once(rt: HostRuntime) -> Result<(), Fail> {
    let gate = Holding {
        begun: AtomicU64::new(0),
        failed: AtomicU64::new(0),
    };
    let (status, _report) = run_by(rt.alloc(), &rt, REPLAY, &[LARGE], &gate)?;
    same(&rt, &status, &Done, &"status");
    let counts = (
        gate.begun.load(Ordering::SeqCst),
        gate.failed.load(Ordering::SeqCst),
    );
    same(&rt, &counts, &(3, 0), &"counts");
    Ok(())
}
