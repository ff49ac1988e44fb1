//! One thread of a race.

ghost use Rattle.std.specs.Prelude.{◌≡◌, IfSome, IsTrue, None, Some};
ghost use Rattle.lks_blocks.specs.Block.{AllOf};
ghost use Rattle.lks_farm.specs.Batches.{asked_done};
ghost use Rattle.lks_farm.specs.Entries.{asked_of, entry_done};
ghost use Rattle.lks_race.specs.Racing.{IsJobOf};
ghost use Rattle.lks_work.specs.Names.{refs_done, refs_of};

use crate::locked::Locked;
use crate::naming::NamesRace;
use crate::turns::Met;
use lks_base::{Entry, OutOfMemory};
use lks_blocks::BlockPool;
use lks_disk::CrashDisk;
use lks_farm::{Farm, FarmDone, FarmJob, Seat, hash_job};
use lks_outside::{Bell, EffortJudge};
use lks_work::{Gate, Job, JobDone};
use std::alloc::Global;
use std::sync::{Mutex, Wait};
use std::thread;

/// Tells the gate of the entry that was kept, if one was.
pub fn tell<G: Gate>(gate: &G, entry: Option<Entry>) {
    if let Some(entry) = entry {
        gate.told(&entry);
    }
}

/// Asks the world for what is due, unless another thread is at it: waiting for the lock would hash nothing.
fn meet<'a, N: NamesRace, D: CrashDisk + Drop, J: EffortJudge, B: Bell, R: Wait>(
    rt: &R,
    locked: &Mutex<Locked<'a, N, D, J, B>>,
) -> Met
    ensures { IsJobOf N.begin.pool result }
{
    match locked.try_lock() {
        Some(mut world) => world.meet(rt),
        None => Met::Out,
    }
}

/// Gives a result back. Whether the race goes on.
fn give_back<'a, N: NamesRace, D: CrashDisk + Drop, J: EffortJudge, B: Bell, G: Gate, R: Wait>(
    rt: &R,
    locked: &Mutex<Locked<'a, N, D, J, B>>,
    gate: &G,
    done: JobDone,
) -> bool
    requires { AllOf N.begin.pool (refs_done done) }
{
    let met = locked.lock(rt).give(rt, done);
    match met {
        Met::On(entry) => {
            tell(gate, entry);
            true
        }
        Met::Work(_) | Met::Out => true,
        Met::End => false,
    }
}

/// Hashes a job, once the gate let it begin. Without memory for it the world is stopped.
fn hash<'a, N: NamesRace, D: CrashDisk + Drop, J: EffortJudge, B: Bell, G: Gate, R: Wait>(
    rt: &R,
    alloc: Global,
    locked: &Mutex<Locked<'a, N, D, J, B>>,
    pool: &BlockPool,
    gate: &G,
    job: Job,
) -> Option<JobDone>
    requires pool { pool.now ≡ N.begin.pool }
    requires of { AllOf pool.now (refs_of job) }
    ensures asked { IfSome result (λ done. asked_done done ≡ asked_of job) }
    ensures of { IfSome result (λ done. AllOf N.begin.pool (refs_done done)) }
{
    match hash_job(alloc, pool, gate, job) {
        Ok(done) => Some(done),
        Err(OutOfMemory) => {
            locked.lock(rt).halt();
            None
        }
    }
}

/// Offers a job to all seats, and hashes it here where it comes back. Whether the race goes on.
#[tactic(auto, using(crate::proofs::Passing::asked_here))]
fn offer<'a, N: NamesRace, D: CrashDisk + Drop, J: EffortJudge, B: Bell, G: Gate, R: Wait>(
    rt: &R,
    alloc: Global,
    locked: &Mutex<Locked<'a, N, D, J, B>>,
    pool: &BlockPool,
    farm: &Farm,
    gate: &G,
    seat: &mut Seat,
    job: Job,
) -> bool
    requires pool { pool.now ≡ N.begin.pool }
    requires farm { farm.now.name.pool ≡ pool.now }
    requires of { seat.old.badge.farm ≡ farm.now.name }
    requires job { AllOf pool.now (refs_of job) }
    ensures badge { seat.new.badge ≡ seat.old.badge }
    ensures held { seat.new.held ≡ seat.old.held }
{
    let mut job = job;
    if seat.offers() < u32::MAX {
        match farm.offer(rt, seat, job) {
            Ok(()) => return true,
            Err(back) => job = back,
        }
    }
    match hash(rt, alloc, locked, pool, gate, job) {
        Some(done) => give_back(rt, locked, gate, done),
        None => false,
    }
}

/// Gives back a result that was collected, if there is one.
#[tactic(auto, using(crate::proofs::Passing::told_here))]
fn collect<'a, N: NamesRace, D: CrashDisk + Drop, J: EffortJudge, B: Bell, G: Gate, R: Wait>(
    rt: &R,
    locked: &Mutex<Locked<'a, N, D, J, B>>,
    farm: &Farm,
    gate: &G,
    seat: &mut Seat,
) -> Option<bool>
    requires farm { farm.now.name.pool ≡ N.begin.pool }
    requires of { seat.old.badge.farm ≡ farm.now.name }
    ensures badge { seat.new.badge ≡ seat.old.badge }
    ensures held { seat.new.held ≡ seat.old.held }
{
    let FarmDone {
        number: _number,
        done,
    } = farm.collect(rt, seat)?;
    Some(give_back(rt, locked, gate, done))
}

/// Hands in the result of the job that the seat holds. While there is no room for it, others are collected and given
/// back.
fn hand_in<'a, N: NamesRace, D: CrashDisk + Drop, J: EffortJudge, B: Bell, G: Gate, R: Wait>(
    rt: &R,
    locked: &Mutex<Locked<'a, N, D, J, B>>,
    farm: &Farm,
    gate: &G,
    seat: &mut Seat,
    done: FarmDone,
)
    requires farm { farm.now.name.pool ≡ N.begin.pool }
    requires of { seat.old.badge.farm ≡ farm.now.name }
    requires held { seat.old.held ≡ Some (entry_done done) }
    ensures badge { seat.new.badge ≡ seat.old.badge }
    ensures free { seat.new.held ≡ None }
{
    let mut done = done;
    for _ in rt.forever() {
        match farm.hand_in(rt, seat, done) {
            Ok(()) => return,
            Err(back) => done = back,
        }
        let _went_on = collect(rt, locked, farm, gate, seat);
    }
    unreachable!()
}

/// Takes a job of the farm and hands its result in; where there is none, gives way. Whether the race goes on.
#[tactic(auto, using(crate::proofs::Passing::asked_there))]
fn work<'a, N: NamesRace, D: CrashDisk + Drop, J: EffortJudge, B: Bell, G: Gate, R: Wait>(
    rt: &R,
    alloc: Global,
    locked: &Mutex<Locked<'a, N, D, J, B>>,
    pool: &BlockPool,
    farm: &Farm,
    gate: &G,
    seat: &mut Seat,
) -> bool
    requires pool { pool.now ≡ N.begin.pool }
    requires farm { farm.now.name.pool ≡ pool.now }
    requires of { seat.old.badge.farm ≡ farm.now.name }
    requires free { seat.old.held ≡ None }
    ensures badge { seat.new.badge ≡ seat.old.badge }
    ensures free { IsTrue result → seat.new.held ≡ None }
{
    let Some(FarmJob { number, job }) = farm.take(rt, seat) else {
        thread::yield_now();
        return true;
    };
    match hash(rt, alloc, locked, pool, gate, job) {
        Some(done) => {
            hand_in(rt, locked, farm, gate, seat, FarmDone { number, done });
            true
        }
        None => false,
    }
}

/// Asks the world for what is due and does it: offers a job, and where all jobs are out, or another thread asks, helps
/// with them. Whether the race goes on.
fn turn<'a, N: NamesRace, D: CrashDisk + Drop, J: EffortJudge, B: Bell, G: Gate, R: Wait>(
    rt: &R,
    alloc: Global,
    locked: &Mutex<Locked<'a, N, D, J, B>>,
    pool: &BlockPool,
    farm: &Farm,
    gate: &G,
    seat: &mut Seat,
) -> bool
    requires pool { pool.now ≡ N.begin.pool }
    requires farm { farm.now.name.pool ≡ pool.now }
    requires of { seat.old.badge.farm ≡ farm.now.name }
    requires free { seat.old.held ≡ None }
    ensures badge { seat.new.badge ≡ seat.old.badge }
    ensures free { IsTrue result → seat.new.held ≡ None }
{
    match meet(rt, locked) {
        Met::On(entry) => {
            tell(gate, entry);
            true
        }
        Met::Work(job) => offer(rt, alloc, locked, pool, farm, gate, seat, job),
        Met::Out => match collect(rt, locked, farm, gate, seat) {
            Some(on) => on,
            None => work(rt, alloc, locked, pool, farm, gate, seat),
        },
        Met::End => false,
    }
}

/// Takes turns by way of a seat until nothing is due any more.
pub fn session<'a, N: NamesRace, D: CrashDisk + Drop, J: EffortJudge, B: Bell, G: Gate, R: Wait>(
    rt: &R,
    alloc: Global,
    locked: &Mutex<Locked<'a, N, D, J, B>>,
    pool: &BlockPool,
    farm: &Farm,
    gate: &G,
    seat: &mut Seat,
)
    requires pool { pool.now ≡ N.begin.pool }
    requires farm { farm.now.name.pool ≡ pool.now }
    requires of { seat.old.badge.farm ≡ farm.now.name }
    requires free { seat.old.held ≡ None }
    ensures { seat.new.badge ≡ seat.old.badge }
{
    for _ in rt.forever() {
        if !turn(rt, alloc, locked, pool, farm, gate, seat) {
            return;
        }
    }
    unreachable!()
}
