//! Jobs that are hashed side by side and come back together.

ghost use Rattle.std.specs.Prelude.{◌≡◌, IfOk, OnOk, map};
ghost use Rattle.lks_blocks.specs.Block.{AllOf};
ghost use Rattle.lks_farm.specs.Batches.{asked_done, AreDone, AreDoneOf, AreOf, EachAskedIsOf};
ghost use Rattle.lks_farm.specs.Entries.{asked_of};
ghost use Rattle.lks_hash.specs.Counting.{Opens};
ghost use Rattle.lks_work.specs.Names.{refs_done, refs_of};

use crate::piles::{Batch, Pile};
use lks_base::OutOfMemory;
use lks_blocks::{BlockPool, BlockRef};
use lks_hash::Steps;
use lks_work::{Gate, Job, JobDone, TallyDone, TallyJob, hash_tally, hash_vote};
use std::alloc::Global;
use std::marker::Brand;
use std::sync::ledger::{Blank, Ledger};
use std::sync::{Mutex, Wait};
use std::thread;
use std::thread::Threads;

/// From how many bytes on a batch is hashed by several threads: below, starting them takes longer than they save.
pub const SHARED_BYTES: u64 = 262144;

/// The bytes of these blocks.
#[tactic(auto, unfolding(lks_blocks::specs::Block::AllOf))]
fn bytes_in(pool: &BlockPool, refs: &[BlockRef]) -> u64
    requires { AllOf pool.now refs.now }
{
    let mut bytes: u64 = 0;
    for r in refs {
        bytes = bytes.saturating_add(pool.read(r).len() as u64);
    }
    bytes
}

/// How many bytes are hashed for a job, or a few more: a tally hashes the blocks for each vote.
fn weight(pool: &BlockPool, job: &Job) -> u64
    requires { AllOf pool.now (refs_of job.now) }
{
    match job {
        Job::Vote(job) => bytes_in(pool, job.refs.as_slice()),
        Job::Tally(job) => {
            let votes = job.tally.votes().len() as u64;
            bytes_in(pool, job.refs.as_slice()).saturating_mul(votes)
        }
    }
}

/// How many bytes are hashed for all these jobs.
fn weight_of_all(pool: &BlockPool, jobs: &[Job]) -> u64
    requires { AreOf pool.now jobs.now }
{
    let mut bytes: u64 = 0;
    for job in jobs {
        bytes = bytes.saturating_add(weight(pool, job));
    }
    bytes
}

/// On how many threads these jobs are hashed: on the one that is there where there is but one job, or little to hash,
/// else on as many as can run, at least two.
fn threads_for<R: Threads>(rt: &R, pool: &BlockPool, jobs: &[Job]) -> usize
    requires { AreOf pool.now jobs.now }
{
    if jobs.len() < 2 || weight_of_all(pool, jobs) < SHARED_BYTES {
        return 1;
    }
    match thread::available_parallelism(rt) {
        Ok(count) => count.get().max(2).min(jobs.len()),
        Err(_) => 2,
    }
}

fn hash_votes<L: Ledger>(pool: &BlockPool, job: TallyJob, blank: Blank) -> TallyDone
    requires blank { Opens blank L.name L.parts }
    requires of { AllOf pool.now job.refs }
    ensures { asked_done (JobDone.Tally result) ≡ asked_of (Job.Tally job) }
{
    let mut steps = Steps::<L>::open(blank);
    hash_tally(pool, job, &mut steps)
}

/// Hashes a job, once the gate let it begin.
#[tactic(auto, using(crate::proofs::Batching::one_of))]
pub fn hash_job<G: Gate>(
    alloc: Global,
    pool: &BlockPool,
    gate: &G,
    job: Job,
) -> Result<JobDone, OutOfMemory>
    requires { AllOf pool.now (refs_of job) }
    ensures asked { IfOk result (λ done. asked_done done ≡ asked_of job) }
    ensures of { IfOk result (λ done. AllOf pool.now (refs_done done)) }
{
    gate.begin(&job.name());
    match job {
        Job::Vote(job) => match hash_vote(alloc, pool, job) {
            Ok(done) => Ok(JobDone::Vote(done)),
            Err(_job) => Err(OutOfMemory),
        },
        Job::Tally(job) => Ok(JobDone::Tally(hash_votes::<Brand>(pool, job, Blank::new(1)))),
    }
}

/// Hashes jobs one after another.
fn hash_in_order<G: Gate>(
    alloc: Global,
    pool: &BlockPool,
    gate: &G,
    jobs: Vec<Job>,
) -> Result<Vec<JobDone>, OutOfMemory>
    requires { AreOf pool.now jobs.items }
    ensures { IfOk result (λ done. AreDone jobs.items done.items) }
{
    let mut done = Vec::new(alloc);
    for job in jobs {
        done.push(hash_job(alloc, pool, gate, job)?)?;
    }
    Ok(done)
}

/// Takes jobs from the pile and hashes them until none is left, or memory is missing for one.
fn hash_from<N: Batch, G: Gate, R: Wait>(
    alloc: Global,
    rt: &R,
    pool: &BlockPool,
    gate: &G,
    pile: &Mutex<Pile<N>>,
)
    requires { EachAskedIsOf pool.now N.asked }
{
    for _ in rt.forever() {
        let taken = pile.lock(rt).take();
        let Some((place, job)) = taken else {
            return;
        };
        let Ok(done) = hash_job(alloc, pool, gate, job) else {
            return;
        };
        pile.lock(rt).put(place, done);
    }
    unreachable!()
}

/// Hashes the jobs that are left in the pile.
fn hash_rest<N: Batch, G: Gate>(
    alloc: Global,
    pool: &BlockPool,
    gate: &G,
    pile: &mut Pile<N>,
) -> Result<(), OutOfMemory>
    requires { EachAskedIsOf pool.now N.asked }
    ensures { OnOk result (pile.new ≡ 0) }
{
    for _turn in 0..pile.left() {
        let Some((place, job)) = pile.take() else {
            return Ok(());
        };
        let done = hash_job(alloc, pool, gate, job)?;
        pile.put(place, done);
    }
    Ok(())
}

/// Hashes jobs on so many threads, each of which takes the next job whenever it has hashed one. What they leave is
/// hashed here.
fn hash_side_by_side<N: Batch + Send + Sync, G: Gate, R: Threads + Wait + Sync>(
    alloc: Global,
    rt: &R,
    pool: &BlockPool,
    gate: &G,
    jobs: Vec<Job>,
    threads: usize,
) -> Result<Vec<JobDone>, OutOfMemory>
    requires of { EachAskedIsOf pool.now N.asked }
    requires batch { map asked_of jobs.items ≡ N.asked }
    ensures { IfOk result (λ done. map asked_done done.items ≡ N.asked) }
{
    let pile = Mutex::new(Pile::<N>::new(alloc, jobs)?);
    let hash = |_: usize|
        requires { EachAskedIsOf pool.now N.asked }
    { hash_from(alloc, rt, pool, gate, &pile) };
    let _ended = thread::map_indices(rt, alloc, threads, &hash)?;
    let mut pile = pile.into_inner();
    hash_rest(alloc, pool, gate, &mut pile)?;
    pile.into_results(alloc)
}

/// Hashes these jobs, each once the gate let it begin, and gives the results in the order of the jobs. Several threads
/// hash them where there is enough to do, each the next job whenever it has hashed one; where one can't be started,
/// those that are there do its part. For want of memory the jobs are dropped.
pub fn hash_batch<R: Threads + Wait + Sync, G: Gate>(
    alloc: Global,
    rt: &R,
    pool: &BlockPool,
    gate: &G,
    jobs: Vec<Job>,
) -> Result<Vec<JobDone>, OutOfMemory>
    requires { AreOf pool.now jobs.items }
    ensures done { IfOk result (λ done. AreDone jobs.items done.items) }
    ensures of { IfOk result (λ done. AreDoneOf pool.now done.items) }
{
    let threads = threads_for(rt, pool, &jobs);
    if threads < 2 {
        hash_in_order(alloc, pool, gate, jobs)
    } else {
        hash_side_by_side::<Brand, G, R>(alloc, rt, pool, gate, jobs, threads)
    }
}
