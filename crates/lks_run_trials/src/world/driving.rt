//! A world that is driven by what it gives out alone: each job that it hands out is hashed, and its result comes back
//! in one of three orders.

ghost use Rattle.std.specs.Prelude.{◌≡◌, ℕ, List, [], None, IfSome, OnOk};
ghost use Rattle.lks_blocks.specs.Block.{AllOf};
ghost use Rattle.lks_farm.specs.Batches.{AreDoneOf};
ghost use Rattle.lks_work.specs.Names.{refs_done, refs_of};

use lks_base::OutOfMemory;
use lks_blocks::BlockPool;
use lks_disk::CrashDisk;
use lks_farm::hash_job;
use lks_outside::{Bell, EffortJudge};
use lks_work::{FreeGate, Job, JobDone};
use lks_world::{Back, Taken, World};
use std::alloc::Global;
use std::collections::VecDeque;
use std::sync::Wait;
use std::test::Fail;

/// How results come back.
#[derive(Clone, Copy)]
pub enum ReturnOrder {
    /// Each at once.
    AtOnce,
    /// Where all that is due is work whose jobs are out: those of all these jobs, the last one first.
    LastFirst,
    /// Each job is recalled and given out again. Its first result comes back then, and its second one where the next
    /// jobs were given out twice, before theirs.
    Twice,
}

/// What became of a result, as a word.
fn word_of(back: Back) -> &'static str {
    match back {
        Back::Kept => "kept ",
        Back::Stale { expected: None, .. } => "gone ",
        Back::Stale {
            expected: Some(_),
            ..
        } => "outdated ",
        Back::Late => "late ",
    }
}

/// How far a world was driven.
#[derive(Drop)]
pub struct Driven {
    order: ReturnOrder,
    /// What became of each result that came back, in words: it was kept; its work wasn't ready any more, or was so over
    /// another version; or the turns were used up.
    pub came: String,
    /// The results that didn't come back yet, in the order of their jobs.
    pub held: VecDeque<JobDone>,
    /// How many were held when the jobs were recalled, unless results came back since.
    recalled: Option<usize>,
}

impl Driven {
    pub fn new(alloc: Global, order: ReturnOrder) -> Driven
        ensures { result.held.items ≡ [] }
    {
        Driven {
            order,
            came: String::new(alloc),
            held: VecDeque::new(alloc),
            recalled: None,
        }
    }

    /// The result that comes back next.
    fn next(&mut self) -> Option<JobDone>
        ensures left { (pool : List ℕ) → AreDoneOf pool self.old.held.items → AreDoneOf pool self.new.held.items }
        ensures of { (pool : List ℕ) → AreDoneOf pool self.old.held.items
            → IfSome result (λ done. AllOf pool (refs_done done)) }
    {
        match self.order {
            ReturnOrder::AtOnce | ReturnOrder::LastFirst => self.held.pop_back(),
            ReturnOrder::Twice => self.held.pop_front(),
        }
    }
}

/// Gives one of the results back that are held.
fn give_next<R: Wait, D: CrashDisk + Drop, J: EffortJudge, B: Bell>(
    rt: &R,
    world: &mut World<'_, D, J, B>,
    driven: &mut Driven,
) -> Result<(), Fail>
    requires running { world.old.stopped ≡ None }
    requires of { AreDoneOf world.old.pool driven.old.held.items }
    ensures running { OnOk result (world.new.stopped ≡ None) }
    ensures pool { world.new.pool ≡ world.old.pool }
    ensures of { OnOk result (AreDoneOf world.new.pool driven.new.held.items) }
{
    if let Some(done) = driven.next() {
        let back = world.give_back(rt, done)?;
        driven.came.push_str(word_of(back))?;
    }
    Ok(())
}

/// Gives so many of them back.
fn give<R: Wait, D: CrashDisk + Drop, J: EffortJudge, B: Bell>(
    rt: &R,
    world: &mut World<'_, D, J, B>,
    driven: &mut Driven,
    count: usize,
) -> Result<(), Fail>
    requires running { world.old.stopped ≡ None }
    requires of { AreDoneOf world.old.pool driven.old.held.items }
    ensures running { OnOk result (world.new.stopped ≡ None) }
    ensures pool { world.new.pool ≡ world.old.pool }
    ensures of { OnOk result (AreDoneOf world.new.pool driven.new.held.items) }
{
    for _ in 0..count {
        give_next(rt, world, driven)?;
    }
    Ok(())
}

/// Hashes a job that was handed out.
fn hash(alloc: Global, pool: &BlockPool, driven: &mut Driven, job: Job) -> Result<(), OutOfMemory>
    requires job { AllOf pool.now (refs_of job) }
    requires of { AreDoneOf pool.now driven.old.held.items }
    ensures { OnOk result (AreDoneOf pool.now driven.new.held.items) }
{
    let done = hash_job(alloc, pool, &FreeGate, job)?;
    driven.held.push_back(done)?;
    Ok(())
}

/// Does what a job that was handed out takes.
fn work<R: Wait, D: CrashDisk + Drop, J: EffortJudge, B: Bell>(
    alloc: Global,
    rt: &R,
    pool: &BlockPool,
    world: &mut World<'_, D, J, B>,
    driven: &mut Driven,
    job: Job,
) -> Result<(), Fail>
    requires running { world.old.stopped ≡ None }
    requires pool { pool.now ≡ world.old.pool }
    requires job { AllOf pool.now (refs_of job) }
    requires of { AreDoneOf world.old.pool driven.old.held.items }
    ensures running { OnOk result (world.new.stopped ≡ None) }
    ensures pool { world.new.pool ≡ world.old.pool }
    ensures of { OnOk result (AreDoneOf world.new.pool driven.new.held.items) }
{
    hash(alloc, pool, driven, job)?;
    match driven.order {
        ReturnOrder::AtOnce => give_next(rt, world, driven),
        ReturnOrder::LastFirst | ReturnOrder::Twice => Ok(()),
    }
}

/// Where all that is due is work whose jobs are out, gives results back, or recalls the jobs.
fn go_on<R: Wait, D: CrashDisk + Drop, J: EffortJudge, B: Bell>(
    rt: &R,
    world: &mut World<'_, D, J, B>,
    driven: &mut Driven,
) -> Result<(), Fail>
    requires running { world.old.stopped ≡ None }
    requires of { AreDoneOf world.old.pool driven.old.held.items }
    ensures running { OnOk result (world.new.stopped ≡ None) }
    ensures pool { world.new.pool ≡ world.old.pool }
    ensures of { OnOk result (AreDoneOf world.new.pool driven.new.held.items) }
{
    let held = driven.held.len();
    match driven.order {
        ReturnOrder::AtOnce => Err("a job is out whose result is held".into()),
        ReturnOrder::LastFirst => give(rt, world, driven, held),
        ReturnOrder::Twice => match driven.recalled.take() {
            Some(count) => give(rt, world, driven, count),
            None => {
                world.recall();
                driven.recalled = Some(held);
                Ok(())
            }
        },
    }
}

/// Asks for one thing that is due, and does what it takes. Answers whether something was due.
fn take<R: Wait, D: CrashDisk + Drop, J: EffortJudge, B: Bell>(
    alloc: Global,
    rt: &R,
    pool: &BlockPool,
    world: &mut World<'_, D, J, B>,
    driven: &mut Driven,
) -> Result<bool, Fail>
    requires running { world.old.stopped ≡ None }
    requires pool { pool.now ≡ world.old.pool }
    requires of { AreDoneOf world.old.pool driven.old.held.items }
    ensures running { OnOk result (world.new.stopped ≡ None) }
    ensures pool { world.new.pool ≡ world.old.pool }
    ensures of { OnOk result (AreDoneOf world.new.pool driven.new.held.items) }
{
    match world.take_due(rt)? {
        Taken::Did => {}
        Taken::Work(job) => work(alloc, rt, pool, world, driven, job)?,
        Taken::Out => go_on(rt, world, driven)?,
        Taken::Finished => return Ok(false),
    }
    Ok(true)
}

/// Drives a world until nothing is due, or its turns are used up, and gives back what is still held.
pub fn drive<R: Wait, D: CrashDisk + Drop, J: EffortJudge, B: Bell>(
    alloc: Global,
    rt: &R,
    pool: &BlockPool,
    world: &mut World<'_, D, J, B>,
    driven: &mut Driven,
) -> Result<(), Fail>
    requires running { world.old.stopped ≡ None }
    requires pool { pool.now ≡ world.old.pool }
    requires of { AreDoneOf world.old.pool driven.old.held.items }
    ensures running { OnOk result (world.new.stopped ≡ None) }
    ensures pool { world.new.pool ≡ world.old.pool }
    ensures of { OnOk result (AreDoneOf world.new.pool driven.new.held.items) }
{
    for _ in 0..200u32 {
        if !take(alloc, rt, pool, world, driven)? {
            let held = driven.held.len();
            return give(rt, world, driven, held);
        }
    }
    Err("something is still due".into())
}
