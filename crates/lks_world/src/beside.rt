//! Jobs that are hashed side by side, and their results, which wait beside a world until their work is the first one
//! due.

ghost use Rattle.std.specs.Prelude.{◌≡◌, ℕ, List, IfOk, IfSome};
ghost use Rattle.lks_base.specs.declared.events.Due.TheVariants as dues;
ghost use Rattle.lks_blocks.specs.Block.{AllOf};
ghost use Rattle.lks_farm.specs.Batches.{AreDoneOf, AreOf};
ghost use Rattle.lks_work.specs.Names.{name_done, refs_done, step_named};
ghost use Rattle.lks_world.specs.Beside.{without_places, unplaced_at, ArePooled, AreSameSites, IsForDue, IsPooled};

use crate::sites::{Site, place_of};
use crate::states::State;
use lks_base::{Due, Entry, OutOfMemory, PeerStep};
use lks_blocks::BlockPool;
use lks_disk::{CrashDisk, Disk};
use lks_farm::hash_batch;
use lks_host::Host;
use lks_work::{Gate, Job, JobDone, JobName};
use std::alloc::Global;
use std::sync::Wait;
use std::thread::Threads;

/// The job of this step, if it is work.
fn job_of(s: PeerStep) -> Option<JobName>
    ensures { IfSome result (λ name. s ≡ step_named name) }
{
    match s {
        PeerStep::Work { peer, poll } => Some(JobName::Vote { peer, poll }),
        PeerStep::Tally { peer, number } => Some(JobName::Tally { peer, number }),
        PeerStep::OpenPoll { .. }
        | PeerStep::Widen { .. }
        | PeerStep::Shut { .. }
        | PeerStep::Nudge { .. }
        | PeerStep::GiveUp { .. }
        | PeerStep::Expire { .. }
        | PeerStep::Check { .. }
        | PeerStep::Tune { .. }
        | PeerStep::Deliver { .. } => None,
    }
}

fn work_in(due: Due) -> Option<JobName>
    ensures { IfSome result (λ name. due ≡ dues.Own (step_named name)) }
{
    match due {
        Due::Own(s) => job_of(s),
        Due::Delivery { .. } => None,
    }
}

fn has_result(beside: &[JobDone], name: JobName) -> bool {
    beside.iter().any(|done| done.name() == name)
}

/// Takes the result of this job, if it waits.
fn take_result(beside: &mut Vec<JobDone>, name: JobName) -> Option<JobDone>
    ensures name { IfSome result (λ d. name_done d ≡ name) }
    ensures of { (pool : List ℕ) → AreDoneOf pool beside.old.items → IfSome result (λ d. AllOf pool (refs_done d)) }
    ensures rest { (pool : List ℕ) → AreDoneOf pool beside.old.items → AreDoneOf pool beside.new.items }
{
    let place = beside.iter().position(|done| done.name() == name)?;
    Some(beside.remove(place))
}

/// Adds the job of this step of the host, if it is work without a result.
fn add_job<D: Disk>(
    host: &mut Host<D>,
    s: PeerStep,
    beside: &[JobDone],
    jobs: &mut Vec<Job>,
) -> Result<(), OutOfMemory>
    ensures same { without_places host.new ≡ without_places host.old }
    ensures of { (pool : List ℕ) → host.old.peer.pool ≡ pool → AreOf pool jobs.old.items → AreOf pool jobs.new.items }
{
    let Some(name) = job_of(s) else {
        return Ok(());
    };
    if has_result(beside, name) {
        return Ok(());
    }
    if let Some(job) = host.job(&name)? {
        jobs.push(job)?;
    }
    Ok(())
}

/// Adds the jobs of all work for which the host is ready and that has no result.
fn add_jobs<D: Disk>(
    host: &mut Host<D>,
    beside: &[JobDone],
    jobs: &mut Vec<Job>,
) -> Result<(), OutOfMemory>
    ensures same { without_places host.new ≡ without_places host.old }
    ensures of { (pool : List ℕ) → host.old.peer.pool ≡ pool → AreOf pool jobs.old.items → AreOf pool jobs.new.items }
{
    for k in 0..u32::MAX {
        match host.ready(k) {
            Some(s) => add_job(host, s, beside, jobs)?,
            None => return Ok(()),
        }
    }
    Ok(())
}

impl<D: Disk> Site<D> {
    /// The same of whoever sits there.
    fn add_jobs(&mut self, beside: &[JobDone], jobs: &mut Vec<Job>) -> Result<(), OutOfMemory>
        ensures same { unplaced_at self.new ≡ unplaced_at self.old }
        ensures of { (pool : List ℕ) → IsPooled pool self.old → AreOf pool jobs.old.items → AreOf pool jobs.new.items }
    {
        match self {
            Site::Host(host) => add_jobs(host, beside, jobs),
            Site::Idle(_) => Ok(()),
        }
    }

    /// Whether a result of a job of this peer would be taken now.
    fn would_take(&mut self, done: &JobDone) -> Result<bool, OutOfMemory>
        ensures { unplaced_at self.new ≡ unplaced_at self.old }
    {
        match self {
            Site::Host(host) => Ok(host.expected(done)? == Some(done.tag())),
            Site::Idle(_) => Ok(false),
        }
    }
}

/// The jobs of all peers' ready work that has no result.
fn gather<D: Disk>(
    alloc: Global,
    sites: &mut Vec<Site<D>>,
    beside: &[JobDone],
) -> Result<Vec<Job>, OutOfMemory>
    ensures same { AreSameSites sites.old.items sites.new.items }
    ensures of { (pool : List ℕ) → ArePooled pool sites.old.items → IfOk result (λ jobs. AreOf pool jobs.items) }
{
    let mut jobs = Vec::new(alloc);
    for place in 0..sites.len() {
        sites[place].add_jobs(beside, &mut jobs)?;
    }
    Ok(jobs)
}

/// Hashes all ready work that has no result, and puts the results beside.
fn hash_ready<R: Threads + Wait + Sync, D: Disk, G: Gate>(
    alloc: Global,
    rt: &R,
    pool: &BlockPool,
    gate: &G,
    sites: &mut Vec<Site<D>>,
    beside: &mut Vec<JobDone>,
) -> Result<(), OutOfMemory>
    requires pooled { ArePooled pool.now sites.old.items }
    requires of { AreDoneOf pool.now beside.old.items }
    ensures same { AreSameSites sites.old.items sites.new.items }
    ensures of { AreDoneOf pool.now beside.new.items }
{
    let jobs = gather(alloc, sites, beside.as_slice())?;
    let mut done = hash_batch(alloc, rt, pool, gate, jobs)?;
    beside.append(&mut done)?;
    Ok(())
}

/// Takes the result of this job, if it waits and would be taken now. One that is stale is dropped.
fn take_fresh<D: Disk>(
    sites: &mut Vec<Site<D>>,
    beside: &mut Vec<JobDone>,
    name: JobName,
) -> Result<Option<JobDone>, OutOfMemory>
    ensures same { AreSameSites sites.old.items sites.new.items }
    ensures name { IfOk result (λ o. IfSome o (λ d. name_done d ≡ name)) }
    ensures of { (pool : List ℕ) → AreDoneOf pool beside.old.items
        → IfOk result (λ o. IfSome o (λ d. AllOf pool (refs_done d))) }
    ensures rest { (pool : List ℕ) → AreDoneOf pool beside.old.items → AreDoneOf pool beside.new.items }
{
    let Some(done) = take_result(beside, name) else {
        return Ok(None);
    };
    let Some(place) = place_of(sites, name.peer()) else {
        return Ok(None);
    };
    if sites[place].would_take(&done)? {
        Ok(Some(done))
    } else {
        Ok(None)
    }
}

/// The result of what is due, if it is work: the one that waits, or else one that is made now, together with those of
/// all other ready work that has none.
pub fn result_for<R: Threads + Wait + Sync, D: CrashDisk, G: Gate>(
    alloc: Global,
    rt: &R,
    gate: &G,
    state: &mut State<'_, D>,
    due: Due,
    beside: &mut Vec<JobDone>,
) -> Result<Option<JobDone>, OutOfMemory>
    requires pooled { ArePooled state.old.pool.now state.old.sites.items }
    requires of { AreDoneOf state.old.pool.now beside.old.items }
    ensures same { AreSameSites state.old.sites.items state.new.sites.items }
    ensures rest { state.new ≡ record state.old { sites = state.new.sites } }
    ensures result { IfOk result (λ o. IfSome o (IsForDue state.old.pool.now due)) }
    ensures of { AreDoneOf state.old.pool.now beside.new.items }
{
    let Some(name) = work_in(due) else {
        return Ok(None);
    };
    if let Some(done) = take_fresh(&mut state.sites, beside, name)? {
        return Ok(Some(done));
    }
    hash_ready(alloc, rt, state.pool, gate, &mut state.sites, beside)?;
    Ok(take_result(beside, name))
}

/// Tells the gate of the entries that it wasn't told of yet.
pub fn tell<G: Gate>(gate: &G, history: &[Entry], told: &mut usize) {
    for entry in history.iter().skip(*told) {
        gate.told(entry);
    }
    *told = history.len();
}
