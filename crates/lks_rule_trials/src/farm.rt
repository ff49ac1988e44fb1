//! Votes over one block, through one seat and through four threads.

ghost use Rattle.std.specs.Prelude.{◌≡◌, ◌+◌, ◌<◌, ◌≤◌, [], All, None, Some, IfOk, length, option_map};
ghost use Rattle.lks_blocks.specs.Block.{AllOf};
ghost use Rattle.lks_farm.specs.Entries.{asked_of, entry_done, job_of, refs_of};
ghost use Rattle.lks_farm.specs.Seats.{AreSeatsOf};

use crate::same::same;
use lks_base::{HashKind, Hashes, OutOfMemory, PollName};
use lks_blocks::{BlockPool, BlockRef, Refs};
use lks_farm::{Farm, FarmDone, FarmJob, FarmSet, JobNumber, Seat};
use lks_versions::PinTag;
use lks_work::{Job, JobDone, VoteJob, hash_vote};
use std::alloc::Global;
use std::sync::atomic::{AtomicU64, Ordering};
use std::sync::{Mutex, Wait};
use std::test::Fail;
use std::thread;
use std::thread::Threads;

const POLL: PollName = PollName {
    poller: 1,
    number: 1,
};

const TAG: PinTag = PinTag {
    first: 0,
    version: 0,
};

fn stored<R: Wait>(rt: &R, alloc: Global, pool: &BlockPool) -> Result<BlockRef, OutOfMemory>
    ensures { IfOk result (λ block. block.pool ≡ pool.now) }
{
    let bytes = b"A".to_vec(alloc)?;
    match pool.put(rt, bytes) {
        Ok(block) => Ok(block),
        Err(_bytes) => Err(OutOfMemory),
    }
}

/// A block in the pool.
#[tactic(auto, unfolding(lks_blocks::specs::Block::AllOf))]
fn block_in<R: Wait>(rt: &R, alloc: Global, pool: &BlockPool) -> Result<Refs, OutOfMemory>
    ensures of { IfOk result (λ refs. AllOf pool.now refs) }
    ensures count { IfOk result (λ refs. length refs ≡ 1) }
{
    let mut refs = Vec::with_capacity(alloc, 1)?;
    refs.push_reserved(stored(rt, alloc, pool)?);
    Ok(Refs::from_vec(refs))
}

/// The peer whose vote is the job of this number.
fn peer_of(seat: u16, count: u32) -> u16 {
    let count = u16::try_from(count).unwrap_or(0);
    seat.wrapping_mul(50).wrapping_add(count)
}

/// The vote of a peer over these blocks.
fn vote_of(peer: u16, refs: &Refs) -> Result<VoteJob, OutOfMemory>
    requires { length refs.now ≤ 65535 }
    ensures { IfOk result (λ job. job.refs ≡ refs.now) }
{
    let refs = refs.clone()?;
    Ok(VoteJob {
        peer,
        poll: POLL,
        au: 1,
        kind: HashKind::Sha256,
        nonce: [7; 32],
        tag: TAG,
        refs,
    })
}

fn hashed(alloc: Global, pool: &BlockPool, job: Job) -> Result<JobDone, OutOfMemory>
    requires { AllOf pool.now (refs_of (asked_of job)) }
    ensures { IfOk result (λ done. asked_of (job_of done) ≡ asked_of job) }
{
    match job {
        Job::Vote(job) => match hash_vote(alloc, pool, job) {
            Ok(done) => Ok(JobDone::Vote(done)),
            Err(_job) => Err(OutOfMemory),
        },
        Job::Tally(_job) => Err(OutOfMemory),
    }
}

/// Takes a job, which the seat then holds, and hashes it.
fn take_hashed<R: Wait>(
    rt: &R,
    alloc: Global,
    pool: &BlockPool,
    farm: &Farm,
    seat: &mut Seat,
) -> Result<Option<FarmDone>, OutOfMemory>
    requires pool { pool.now ≡ farm.now.name.pool }
    requires of { seat.old.badge.farm ≡ farm.now.name }
    requires free { seat.old.held ≡ None }
    ensures badge { seat.new.badge ≡ seat.old.badge }
    ensures held { IfOk result (λ done. seat.new.held ≡ option_map entry_done done) }
{
    let Some(FarmJob { number, job }) = farm.take(rt, seat) else {
        return Ok(None);
    };
    let done = hashed(alloc, pool, job)?;
    Ok(Some(FarmDone { number, done }))
}

fn offer_vote<R: Wait>(
    rt: &R,
    farm: &Farm,
    seat: &mut Seat,
    peer: u16,
    refs: &Refs,
) -> Result<bool, OutOfMemory>
    requires of { seat.old.badge.farm ≡ farm.now.name }
    requires few { length seat.old.offered < 100 }
    requires pool { AllOf farm.now.name.pool refs.now }
    requires count { length refs.now ≤ 65535 }
    ensures badge { seat.new.badge ≡ seat.old.badge }
    ensures held { seat.new.held ≡ seat.old.held }
    ensures one { length seat.new.offered ≤ length seat.old.offered + 1 }
{
    let job = Job::Vote(vote_of(peer, refs)?);
    Ok(farm.offer(rt, seat, job).is_ok())
}

/// The count in a number, and 9 where there is none.
fn count_of(number: Option<JobNumber>) -> u32 {
    match number {
        Some(JobNumber { seat: _seat, count }) => count,
        None => 9,
    }
}

/// Takes a job, hashes it and hands it in. Answers its number.
fn work_once<R: Wait>(
    rt: &R,
    alloc: Global,
    pool: &BlockPool,
    farm: &Farm,
    seat: &mut Seat,
) -> Result<Option<JobNumber>, OutOfMemory>
    requires pool { pool.now ≡ farm.now.name.pool }
    requires of { seat.old.badge.farm ≡ farm.now.name }
    requires free { seat.old.held ≡ None }
    ensures badge { seat.new.badge ≡ seat.old.badge }
    ensures free { IfOk result (λ _. seat.new.held ≡ None) }
{
    let Some(done) = take_hashed(rt, alloc, pool, farm, seat)? else {
        return Ok(None);
    };
    let number = done.number;
    match farm.hand_in(rt, seat, done) {
        Ok(()) => Ok(Some(number)),
        Err(_done) => Err(OutOfMemory),
    }
}

/// Which offers of three jobs are accepted.
fn three_offers<R: Wait>(
    rt: &R,
    farm: &Farm,
    seat: &mut Seat,
    refs: &Refs,
) -> Result<[bool; 3], OutOfMemory>
    requires of { seat.old.badge.farm ≡ farm.now.name }
    requires refs { AllOf farm.now.name.pool refs.now × (length refs.now ≤ 65535) }
    requires fresh { seat.old.offered ≡ [] }
    ensures badge { seat.new.badge ≡ seat.old.badge }
    ensures held { seat.new.held ≡ seat.old.held }
{
    let first = offer_vote(rt, farm, seat, 2, refs)?;
    let second = offer_vote(rt, farm, seat, 3, refs)?;
    let third = offer_vote(rt, farm, seat, 4, refs)?;
    Ok([first, second, third])
}

/// The number of a result that is collected.
fn collected<R: Wait>(rt: &R, farm: &Farm, seat: &mut Seat) -> Option<JobNumber>
    requires of { seat.old.badge.farm ≡ farm.now.name }
    ensures badge { seat.new.badge ≡ seat.old.badge }
    ensures held { seat.new.held ≡ seat.old.held }
{
    match farm.collect(rt, seat) {
        Some(done) => Some(done.number),
        None => None,
    }
}

/// Once a job is hashed: the counts of the job that is collected, of the next one that is hashed, and of the one after
/// it.
fn three_counts<R: Wait>(
    rt: &R,
    alloc: Global,
    pool: &BlockPool,
    farm: &Farm,
    seat: &mut Seat,
) -> Result<[u32; 3], OutOfMemory>
    requires pool { pool.now ≡ farm.now.name.pool }
    requires of { seat.old.badge.farm ≡ farm.now.name }
    requires free { seat.old.held ≡ None }
    ensures { seat.new.badge ≡ seat.old.badge }
{
    work_once(rt, alloc, pool, farm, seat)?;
    let first = collected(rt, farm, seat);
    let second = work_once(rt, alloc, pool, farm, seat)?;
    let third = work_once(rt, alloc, pool, farm, seat)?;
    Ok([count_of(first), count_of(second), count_of(third)])
}

/// Closes a farm: how many jobs and results are left.
fn closed<R: Wait>(
    rt: &R,
    alloc: Global,
    farm: Farm,
    seats: Vec<Seat>,
) -> Result<[usize; 2], OutOfMemory>
    requires { AreSeatsOf farm.name seats.items }
{
    let end = farm.close(rt, alloc, seats).ok().ok_or(OutOfMemory)?;
    Ok([end.jobs.len(), end.done.len()])
}

/// Which offers of three jobs are accepted by way of a seat, and the three counts there.
fn offers_and_counts<R: Wait>(
    rt: &R,
    alloc: Global,
    pool: &BlockPool,
    farm: &Farm,
    seat: &mut Seat,
    refs: &Refs,
) -> Result<([bool; 3], [u32; 3]), OutOfMemory>
    requires pool { pool.now ≡ farm.now.name.pool }
    requires of { seat.old.badge.farm ≡ farm.now.name }
    requires refs { AllOf farm.now.name.pool refs.now × (length refs.now ≤ 65535) }
    requires fresh { seat.old.offered ≡ [] }
    requires free { seat.old.held ≡ None }
    ensures { seat.new.badge ≡ seat.old.badge }
{
    let offers = three_offers(rt, farm, seat, refs)?;
    let counts = three_counts(rt, alloc, pool, farm, seat)?;
    Ok((offers, counts))
}

/// What happens on a farm of room two, and how many jobs and results are left.
fn room_two<R: Wait>(
    rt: &R,
    alloc: Global,
    pool: &BlockPool,
    refs: &Refs,
) -> Result<(([bool; 3], [u32; 3]), [usize; 2]), OutOfMemory>
    requires { AllOf pool.now refs.now × (length refs.now ≤ 65535) }
{
    let FarmSet { farm, mut seats } = Farm::new(alloc, pool, 2, 1)?;
    let answers = offers_and_counts(rt, alloc, pool, &farm, &mut seats[0], refs)?;
    Ok((answers, closed(rt, alloc, farm, seats)?))
}

/// The same over a block in this pool.
fn room_two_in<R: Wait>(
    rt: &R,
    alloc: Global,
    pool: &BlockPool,
) -> Result<(([bool; 3], [u32; 3]), [usize; 2]), OutOfMemory> {
    let refs = block_in(rt, alloc, pool)?;
    room_two(rt, alloc, pool, &refs)
}

/// The third offer comes back. One result is collected, and the other one is left.
#[test]
fn a_farm_of_room_two(rt: HostRuntime) -> Result<(), Fail> {
    let pool = BlockPool::new(rt.alloc())?;
    let found = room_two_in(&rt, rt.alloc(), &pool)?;
    let wanted = (([true, true, false], [0, 1, 9]), [0, 1]);
    same(&rt, &found, &wanted, &"offers, counts and what is left");
    Ok(())
}

/// Where threads lay the results that they collect.
#[derive(Drop)]
struct Board {
    done: Mutex<Vec<FarmDone>>,
    count: AtomicU64,
}

impl Board {
    fn new(alloc: Global) -> Board {
        Board {
            done: Mutex::new(Vec::new(alloc)),
            count: AtomicU64::new(0),
        }
    }

    fn is_full(&self) -> bool {
        self.count.load(Ordering::SeqCst) >= 200
    }

    /// No thread goes on after this.
    fn give_up(&self) {
        self.count.store(200, Ordering::SeqCst);
    }

    fn lay<R: Wait>(&self, rt: &R, done: FarmDone) {
        let _laid = self.done.lock(rt).push(done).is_ok();
        self.count.fetch_add(1, Ordering::SeqCst);
    }
}

/// Hands a result in. While there is no room for it, others are collected.
fn deliver<R: Wait>(rt: &R, board: &Board, farm: &Farm, seat: &mut Seat, done: FarmDone)
    requires of { seat.old.badge.farm ≡ farm.now.name }
    requires held { seat.old.held ≡ Some (entry_done done) }
    ensures badge { seat.new.badge ≡ seat.old.badge }
    ensures free { seat.new.held ≡ None }
{
    let mut done = done;
    for _ in rt.forever() {
        match farm.hand_in(rt, seat, done) {
            Ok(()) => return,
            Err(back) => done = back,
        }
        if let Some(other) = farm.collect(rt, seat) {
            board.lay(rt, other);
        }
    }
    unreachable!()
}

/// Collects a result, or else hashes a job.
fn turn<R: Wait>(
    rt: &R,
    alloc: Global,
    pool: &BlockPool,
    board: &Board,
    farm: &Farm,
    seat: &mut Seat,
) -> Result<(), OutOfMemory>
    requires pool { pool.now ≡ farm.now.name.pool }
    requires of { seat.old.badge.farm ≡ farm.now.name }
    requires free { seat.old.held ≡ None }
    ensures badge { seat.new.badge ≡ seat.old.badge }
    ensures free { IfOk result (λ _. seat.new.held ≡ None) }
{
    if let Some(done) = farm.collect(rt, seat) {
        board.lay(rt, done);
        return Ok(());
    }
    match take_hashed(rt, alloc, pool, farm, seat)? {
        Some(done) => deliver(rt, board, farm, seat, done),
        None => thread::yield_now(),
    }
    Ok(())
}

/// By way of the seat of this number offers 50 jobs, and takes turns until all results are on the board.
fn session<R: Wait>(
    rt: &R,
    alloc: Global,
    pool: &BlockPool,
    refs: &Refs,
    board: &Board,
    farm: &Farm,
    number: u16,
    seat: &mut Seat,
) -> Result<(), OutOfMemory>
    requires pool { pool.now ≡ farm.now.name.pool }
    requires refs { AllOf pool.now refs.now × (length refs.now ≤ 65535) }
    requires of { seat.old.badge.farm ≡ farm.now.name }
    requires free { seat.old.held ≡ None }
    ensures { seat.new.badge ≡ seat.old.badge }
{
    for _ in rt.forever() {
        if board.is_full() {
            return Ok(());
        }
        let offers = seat.offers();
        if offers < 50 {
            let peer = peer_of(number, offers);
            if offer_vote(rt, farm, seat, peer, refs)? {
                continue;
            }
        }
        turn(rt, alloc, pool, board, farm, seat)?;
    }
    unreachable!()
}

fn each_seat<R: Threads + Wait + Sync>(
    rt: &R,
    alloc: Global,
    pool: &BlockPool,
    refs: &Refs,
    board: &Board,
    farm: &Farm,
    seats: &mut [Seat],
)
    requires pool { pool.now ≡ farm.now.name.pool }
    requires refs { AllOf pool.now refs.now × (length refs.now ≤ 65535) }
    requires all { AreSeatsOf farm.now.name seats.old }
    requires of { All (λ s. (s.badge.farm ≡ farm.now.name) × (s.held ≡ None)) seats.old }
    ensures { AreSeatsOf farm.now.name seats.new }
{
    thread::for_each_mut(
        rt,
        seats,
        4,
        &|at, seat: &mut Seat|
            requires { (pool.now ≡ farm.now.name.pool) × AllOf pool.now refs.now × (length refs.now ≤ 65535)
                × (seat.old.badge.farm ≡ farm.now.name) × (seat.old.held ≡ None) }
            ensures { seat.new.badge ≡ seat.old.badge }
        {
            let number = u16::try_from(at).unwrap_or(0);
            if session(rt, alloc, pool, refs, board, farm, number, seat).is_err() {
                board.give_up();
            }
        },
    );
}

/// Four threads on a farm of this room lay what they collect on the board: how many jobs and results are left.
fn four_threads<R: Threads + Wait + Sync>(
    rt: &R,
    alloc: Global,
    pool: &BlockPool,
    refs: &Refs,
    board: &Board,
    room: u16,
) -> Result<[usize; 2], OutOfMemory>
    requires room { 1 ≤ room }
    requires refs { AllOf pool.now refs.now × (length refs.now ≤ 65535) }
{
    let FarmSet { farm, mut seats } = Farm::new(alloc, pool, room, 4)?;
    each_seat(rt, alloc, pool, refs, board, &farm, seats.as_mut_slice());
    closed(rt, alloc, farm, seats)
}

/// The hashes of a peer's vote.
fn hashes_of(alloc: Global, pool: &BlockPool, refs: &Refs, peer: u16) -> Result<Hashes, OutOfMemory>
    requires { AllOf pool.now refs.now × (length refs.now ≤ 65535) }
{
    let job = vote_of(peer, refs)?;
    match hash_vote(alloc, pool, job) {
        Ok(done) => Ok(done.hashes),
        Err(_job) => Err(OutOfMemory),
    }
}

/// Marks a job's number. True where it is the number of a job and wasn't marked.
fn mark(seen: &mut [bool], number: JobNumber) -> bool {
    let place = usize::from(peer_of(number.seat, number.count));
    if place >= seen.len() || seen[place] || number.count >= 50 {
        return false;
    }
    seen[place] = true;
    true
}

/// Whether the result is a vote of this peer with these hashes.
fn is_vote(done: &JobDone, peer: u16, hashes: &Hashes) -> bool {
    match done {
        JobDone::Vote(vote) => {
            vote.job.peer == peer && vote.hashes.as_slice() == hashes.as_slice()
        }
        JobDone::Tally(_tally) => false,
    }
}

/// How many of the results are each the only one of its job.
fn right_ones(
    alloc: Global,
    pool: &BlockPool,
    refs: &Refs,
    results: &[FarmDone],
) -> Result<u32, OutOfMemory>
    requires { AllOf pool.now refs.now × (length refs.now ≤ 65535) }
{
    let mut seen = [false; 200];
    let mut right = 0u32;
    for found in results {
        let number = found.number;
        let peer = peer_of(number.seat, number.count);
        let hashes = hashes_of(alloc, pool, refs, peer)?;
        if mark(&mut seen, number) && is_vote(&found.done, peer, &hashes) {
            right = right.wrapping_add(1);
        }
    }
    Ok(right)
}

/// Of four threads on a farm of this room: how many results they collect, how many of these are right, and how many
/// jobs and results are left.
fn counted<R: Threads + Wait + Sync>(
    rt: &R,
    alloc: Global,
    pool: &BlockPool,
    refs: &Refs,
    room: u16,
) -> Result<[usize; 4], OutOfMemory>
    requires room { 1 ≤ room }
    requires refs { AllOf pool.now refs.now × (length refs.now ≤ 65535) }
{
    let board = Board::new(alloc);
    let [jobs, done] = four_threads(rt, alloc, pool, refs, &board, room)?;
    let results = board.done.lock(rt);
    let right = right_ones(alloc, pool, refs, results.as_slice())?;
    Ok([results.len(), right as usize, jobs, done])
}

/// The same over a block in this pool.
fn counted_in<R: Threads + Wait + Sync>(
    rt: &R,
    alloc: Global,
    pool: &BlockPool,
    room: u16,
) -> Result<[usize; 4], OutOfMemory>
    requires { 1 ≤ room }
{
    let refs = block_in(rt, alloc, pool)?;
    counted(rt, alloc, pool, &refs, room)
}

/// All 200 jobs of four threads are hashed once each.
#[test]
fn four_threads_on_a_farm(rt: HostRuntime) -> Result<(), Fail> {
    let pool = BlockPool::new(rt.alloc())?;
    let counts = counted_in(&rt, rt.alloc(), &pool, 64)?;
    same(&rt, &counts, &[200, 200, 0, 0], &64);
    Ok(())
}

/// So they are where the queues are nearly always full.
#[test]
fn four_threads_on_a_farm_of_room_one(rt: HostRuntime) -> Result<(), Fail> {
    let pool = BlockPool::new(rt.alloc())?;
    let counts = counted_in(&rt, rt.alloc(), &pool, 1)?;
    same(&rt, &counts, &[200, 200, 0, 0], &1);
    Ok(())
}
