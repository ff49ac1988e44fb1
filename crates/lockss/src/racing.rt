//! A script is played, and threads take what is due from its world.

ghost use Rattle.std.specs.Prelude.{◌≡◌, ◌≤◌, true, None};
ghost use Rattle.lks_base.specs.Checking.{plan_fault};
ghost use Rattle.lks_race.specs.Racing.{Runs};
ghost use Rattle.lks_script.specs.StepRules.{are_steps_of};
ghost use Rattle.lks_watch.specs.Watching.{ears};
ghost use Rattle.lockss.specs.Handed.{devices, senses, AreGiven};
ghost use Rattle.lockss.specs.Promise.{RacesTo};
ghost use Rattle.lockss.specs.Running.{ComesOut, EndsAs};

use crate::ends::Raced;
use crate::playing::{hand_back, perform_all, start, tell};
use lks_blocks::BlockPool;
use lks_disk::CrashDisk;
use lks_outside::{Bell, EffortJudge, Sink};
use lks_race::race;
use lks_script::{Script, Step};
use lks_words::Play;
use lks_work::Gate;
use lks_world::{World, WorldFault};
use std::alloc::Global;
use std::sync::Wait;
use std::thread::Threads;

/// Lets threads take what is due from a world, and tells what happened.
fn race_and_tell<
    'a,
    R: Threads + Wait + Sync,
    K: Sink,
    D: CrashDisk + Drop,
    J: EffortJudge,
    B: Bell,
    G: Gate,
>(
    alloc: Global,
    rt: &R,
    gate: &G,
    threads: u16,
    world: World<'a, D, J, B>,
    pool: &BlockPool,
    sink: &mut K,
) -> (World<'a, D, J, B>, Raced)
    requires pool { pool.now ≡ world.pool }
    requires running { world.stopped ≡ None }
    requires threads { (1 ≤ threads) × (threads ≤ 64) }
    ensures runs { Runs D.face (ears J.heard J.verdict B.rung B.limit) world.entry result.0 }
    ensures ends { EndsAs (senses D.face (ears J.heard J.verdict B.rung B.limit) K.taken K.faults) result.0 sink.old
        sink.new result.1 }
    ensures count { K.faults sink.old ≤ K.faults sink.new }
{
    let (world, end) = race(alloc, rt, world, pool, threads, gate);
    let raced = match end {
        Ok(()) => Raced::Told(tell(alloc, Play::Replay, &world, sink)),
        Err(fault) => Raced::Halted(fault),
    };
    (world, raced)
}

/// Does the steps in a world, lets threads take what is due, and tells what happened.
fn race_in<
    'a,
    R: Threads + Wait + Sync,
    K: Sink,
    D: CrashDisk + Drop,
    J: EffortJudge,
    B: Bell,
    G: Gate,
>(
    alloc: Global,
    rt: &R,
    gate: &G,
    threads: u16,
    mut world: World<'a, D, J, B>,
    pool: &BlockPool,
    steps: &[Step],
    sink: &mut K,
) -> (World<'a, D, J, B>, Raced)
    requires running { world.stopped ≡ None }
    requires legal { are_steps_of world.plan steps.now ≡ true }
    requires pool { pool.now ≡ world.pool }
    requires threads { (1 ≤ threads) × (threads ≤ 64) }
    ensures comes { ComesOut (senses D.face (ears J.heard J.verdict B.rung B.limit) K.taken K.faults) steps.now
        world.entry result.0 sink.old sink.new result.1 }
    ensures count { K.faults sink.old ≤ K.faults sink.new }
{
    match perform_all(rt, gate, &mut world, steps) {
        Ok(()) => race_and_tell(alloc, rt, gate, threads, world, pool, sink),
        Err(fault) => (world, Raced::Stopped(fault)),
    }
}

/// Plays a script on disks, lets so many threads take what is due, and tells what happened. Disks, judge and the bells
/// that want more are back in their places afterwards.
pub fn race_script<
    R: Threads + Wait + Sync,
    K: Sink,
    D: CrashDisk + Drop,
    J: EffortJudge,
    B: Bell,
    G: Gate,
>(
    alloc: Global,
    rt: &R,
    gate: &G,
    threads: u16,
    script: Script,
    sink: &mut K,
    disks: &mut Vec<D>,
    judge: &mut Option<J>,
    bells: &mut Vec<B>,
) -> Raced
    requires threads { (1 ≤ threads) × (threads ≤ 64) }
    requires good { plan_fault script.plan ≡ None }
    requires legal { are_steps_of script.plan script.steps ≡ true }
    requires given { AreGiven (senses D.face (ears J.heard J.verdict B.rung B.limit) K.taken K.faults)
        (devices disks.old.items sink.old judge.old bells.old.items) }
    ensures races { RacesTo (senses D.face (ears J.heard J.verdict B.rung B.limit) K.taken K.faults) script
        (devices disks.old.items sink.old judge.old bells.old.items)
        (devices disks.new.items sink.new judge.new bells.new.items) result }
    ensures count { K.faults sink.old ≤ K.faults sink.new }
{
    let Ok(pool) = BlockPool::new(alloc) else {
        return Raced::Unmade(WorldFault::Memory);
    };
    let Script { plan, steps } = script;
    let world = match start(alloc, rt, &pool, plan, disks, judge, bells) {
        Ok(world) => world,
        Err(fault) => return Raced::Unmade(fault),
    };
    let (world, raced) = race_in(
        alloc,
        rt,
        gate,
        threads,
        world,
        &pool,
        steps.as_slice(),
        sink,
    );
    hand_back(world.into_parts(), disks, judge, bells);
    raced
}
