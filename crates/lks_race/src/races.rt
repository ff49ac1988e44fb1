//! Races of a world.

ghost use Rattle.std.specs.Prelude.{◌≡◌, ◌≤◌, ◌<◌, All, IsTrue, None, false};
ghost use Rattle.lks_blocks.specs.Block.{AllOf};
ghost use Rattle.lks_farm.specs.Seats.{AreFresh, AreSeatsOf};
ghost use Rattle.lks_race.specs.Racing.{GoesOn, IsFreshSet, IsSeat, Runs, begin_of};
ghost use Rattle.lks_watch.specs.Watching.{ears};
ghost use Rattle.lks_work.specs.Names.{refs_of};
ghost use Rattle.lks_world.specs.Counts.{fault_in};
ghost use Rattle.lks_world.specs.Giving.{IsOver};

use crate::locked::Locked;
use crate::naming::NamesRace;
use crate::sessions::{session, tell};
use crate::turns::{Met, give, meet};
use lks_base::OutOfMemory;
use lks_blocks::BlockPool;
use lks_disk::CrashDisk;
use lks_farm::{Farm, FarmSet, Seat, hash_job};
use lks_outside::{Bell, EffortJudge};
use lks_work::{Gate, Job};
use lks_world::{World, WorldFault};
use std::alloc::Global;
use std::marker::Brand;
use std::sync::{Mutex, Wait};
use std::thread;
use std::thread::Threads;

/// For so many jobs, and so many results, the farm of a race has room.
const ROOM: u16 = 64;

/// A thread for each seat.
fn each_seat<
    'a,
    N: NamesRace + Send + Sync,
    D: CrashDisk + Drop,
    J: EffortJudge,
    B: Bell,
    G: Gate,
    R: Threads + Wait + Sync,
>(
    rt: &R,
    alloc: Global,
    locked: &Mutex<Locked<'a, N, D, J, B>>,
    pool: &BlockPool,
    farm: &Farm,
    gate: &G,
    seats: &mut [Seat],
)
    requires pool { pool.now ≡ N.begin.pool }
    requires farm { farm.now.name.pool ≡ pool.now }
    requires all { AreSeatsOf farm.now.name seats.old }
    requires free { All (IsSeat farm.now.name) seats.old }
    ensures { AreSeatsOf farm.now.name seats.new }
{
    thread::for_each_mut(
        rt,
        seats,
        64,
        &|_, seat: &mut Seat|
            requires { (pool.now ≡ N.begin.pool) × (farm.now.name.pool ≡ pool.now) × IsSeat farm.now.name seat.old }
            ensures { seat.new.badge ≡ seat.old.badge }
        { session(rt, alloc, locked, pool, farm, gate, seat) },
    );
}

/// Lets the threads of all seats take what is due, from a world that goes by this name.
fn race_in<
    'a,
    N: NamesRace + Send + Sync,
    D: CrashDisk + Drop,
    J: EffortJudge,
    B: Bell,
    G: Gate,
    R: Threads + Wait + Sync,
>(
    alloc: Global,
    rt: &R,
    world: World<'a, D, J, B>,
    pool: &BlockPool,
    set: FarmSet,
    gate: &G,
) -> (World<'a, D, J, B>, FarmSet)
    requires begin { N.begin ≡ begin_of world }
    requires pool { pool.now ≡ N.begin.pool }
    requires set { IsFreshSet pool.now set }
    ensures on { GoesOn N.begin result.0 }
    ensures farm { result.1.farm ≡ set.farm }
    ensures all { AreSeatsOf result.1.farm.name result.1.seats.items }
{
    let FarmSet { farm, mut seats } = set;
    let locked = Mutex::new(Locked::<'a, N, D, J, B>::new(world));
    each_seat::<N, D, J, B, G, R>(rt, alloc, &locked, pool, &farm, gate, seats.as_mut_slice());
    (locked.into_inner().into_world(), FarmSet { farm, seats })
}

/// Lets the threads of all seats take what is due.
fn raced<'a, D: CrashDisk + Drop, J: EffortJudge, B: Bell, G: Gate, R: Threads + Wait + Sync>(
    alloc: Global,
    rt: &R,
    world: World<'a, D, J, B>,
    pool: &BlockPool,
    set: FarmSet,
    gate: &G,
) -> (World<'a, D, J, B>, FarmSet)
    requires pool { pool.now ≡ world.pool }
    requires set { IsFreshSet pool.now set }
    ensures on { GoesOn (begin_of world.entry) result.0 }
    ensures farm { result.1.farm ≡ set.farm }
    ensures all { AreSeatsOf result.1.farm.name result.1.seats.items }
{
    race_in::<Brand, D, J, B, G, R>(alloc, rt, world, pool, set, gate)
}

/// Hashes a job and gives its result back at once. Whether the race goes on.
fn hash_and_give<D: CrashDisk + Drop, J: EffortJudge, B: Bell, G: Gate, R: Wait>(
    alloc: Global,
    rt: &R,
    world: &mut World<'_, D, J, B>,
    pool: &BlockPool,
    gate: &G,
    job: Job,
) -> bool
    requires pool { pool.now ≡ world.old.pool }
    requires of { AllOf pool.now (refs_of job) }
    ensures on { GoesOn (begin_of world.old) world.new }
    ensures over { result ≡ false → world.new.stopped ≡ None → IsOver world.new }
{
    let Ok(done) = hash_job(alloc, pool, gate, job) else {
        world.halt();
        return false;
    };
    match give(rt, world, done) {
        Met::On(entry) => {
            tell(gate, entry);
            true
        }
        Met::Work(_) | Met::Out => true,
        Met::End => false,
    }
}

/// Does one thing that is due. Whether the race goes on.
fn finish_one<D: CrashDisk + Drop, J: EffortJudge, B: Bell, G: Gate, R: Wait>(
    alloc: Global,
    rt: &R,
    world: &mut World<'_, D, J, B>,
    pool: &BlockPool,
    gate: &G,
) -> bool
    requires { pool.now ≡ world.old.pool }
    ensures on { GoesOn (begin_of world.old) world.new }
    ensures over { result ≡ false → world.new.stopped ≡ None → IsOver world.new }
{
    match meet(rt, world) {
        Met::On(entry) => {
            tell(gate, entry);
            true
        }
        Met::Work(job) => hash_and_give(alloc, rt, world, pool, gate, job),
        Met::Out => {
            world.recall();
            true
        }
        Met::End => false,
    }
}

/// Does what is still due, where no job counts as handed out any more.
fn finish<D: CrashDisk + Drop, J: EffortJudge, B: Bell, G: Gate, R: Wait>(
    alloc: Global,
    rt: &R,
    world: &mut World<'_, D, J, B>,
    pool: &BlockPool,
    gate: &G,
)
    requires { pool.now ≡ world.old.pool }
    ensures on { GoesOn (begin_of world.old) world.new }
    ensures over { world.new.stopped ≡ None → IsOver world.new }
{
    world.recall();
    for _ in rt.forever() {
        if !finish_one(alloc, rt, world, pool, gate) {
            return;
        }
    }
    unreachable!()
}

/// Why a world takes no further step, if it was stopped.
fn end_of<D: CrashDisk + Drop, J: EffortJudge, B: Bell>(
    world: &World<'_, D, J, B>,
) -> Result<(), WorldFault>
    ensures { world.now.stopped ≡ fault_in result }
{
    match world.stopped() {
        Some(fault) => Err(fault),
        None => Ok(()),
    }
}

/// Lets the threads of all seats of a new farm take what is due from the world, in whatever order they come, until
/// nothing is due or no turn or no room for an event is left; jobs and their results go through the farm. What the
/// threads left is done here. The set comes back with all its seats.
pub fn race_on<'a, D: CrashDisk + Drop, J: EffortJudge, B: Bell, G: Gate, R: Threads + Wait + Sync>(
    alloc: Global,
    rt: &R,
    world: World<'a, D, J, B>,
    pool: &BlockPool,
    set: FarmSet,
    gate: &G,
) -> (World<'a, D, J, B>, Result<(), WorldFault>, FarmSet)
    requires pool { pool.now ≡ world.pool }
    requires running { world.stopped ≡ None }
    requires set { IsFreshSet pool.now set }
    ensures runs { Runs D.face (ears J.heard J.verdict B.rung B.limit) world.entry result.0 }
    ensures fault { result.0.stopped ≡ fault_in result.1 }
    ensures farm { result.2.farm ≡ set.farm }
    ensures all { AreSeatsOf result.2.farm.name result.2.seats.items }
{
    let (mut world, set) = raced(alloc, rt, world, pool, set, gate);
    finish(alloc, rt, &mut world, pool, gate);
    world.known();
    let end = end_of(&world);
    (world, end, set)
}

/// Lets so many threads take what is due from the world, as `race_on` does on a farm of its own. Where this finds no
/// memory, the world is stopped.
pub fn race<'a, D: CrashDisk + Drop, J: EffortJudge, B: Bell, G: Gate, R: Threads + Wait + Sync>(
    alloc: Global,
    rt: &R,
    mut world: World<'a, D, J, B>,
    pool: &BlockPool,
    threads: u16,
    gate: &G,
) -> (World<'a, D, J, B>, Result<(), WorldFault>)
    requires pool { pool.now ≡ world.pool }
    requires running { world.stopped ≡ None }
    requires threads { (1 ≤ threads) × (threads ≤ 64) }
    ensures runs { Runs D.face (ears J.heard J.verdict B.rung B.limit) world.entry result.0 }
    ensures fault { result.0.stopped ≡ fault_in result.1 }
{
    match Farm::new(alloc, pool, ROOM, threads) {
        Ok(set) => {
            let (world, end, _set) = race_on(alloc, rt, world, pool, set, gate);
            (world, end)
        }
        Err(OutOfMemory) => {
            world.halt();
            world.known();
            let end = end_of(&world);
            (world, end)
        }
    }
}
