//! A script is played on disks, and what is told of its history is written.

ghost use Rattle.std.specs.Prelude.{◌≡◌, ◌≤◌, ◌++◌, [], ℕ, List, All, true, false, Some, None, IfOk, IfErr, OnOk};
ghost use Rattle.std.specs.Prelude.{OnErr, IsErrOf, length};
ghost use Rattle.lks_base.specs.Checking.{plan_fault};
ghost use Rattle.lks_base.specs.declared.events.Event.{Event};
ghost use Rattle.lks_gather.specs.Texts.{IsSaidPlan};
ghost use Rattle.lks_law.specs.Alarms.{alarms};
ghost use Rattle.lks_law.specs.Entries.{entries};
ghost use Rattle.lks_outside.specs.Counts.{Rose};
ghost use Rattle.lks_outside.specs.Streams.{AddsFront};
ghost use Rattle.lks_report.specs.Alarms.{has_any};
ghost use Rattle.lks_script.specs.StepRules.{are_steps_of};
ghost use Rattle.lks_watch.specs.Watching.{ears, watching, Watches};
ghost use Rattle.lks_world.specs.Counts.{fault_in, ServesHonest};
ghost use Rattle.lks_world.specs.Follows.{Follows};
ghost use Rattle.lks_world.specs.Held.{AreFresh};
ghost use Rattle.lks_world.specs.Spending.{AreSpent, AreSpentUpTo};
ghost use Rattle.lks_world.specs.Worlds.{Remembers};
ghost use Rattle.lockss.specs.Handed.{devices, senses, AreGiven, IsSilent};
ghost use Rattle.lockss.specs.Playing.{ComesIn, CountsPower, GoesOn, IfOpen, IsLeftOff, IsRefused, Starts, TellsFirst};
ghost use Rattle.lockss.specs.Deeds.{deed_of};
ghost use Rattle.lockss.specs.Promise.{PlaysTo, Tells};
ghost use Rattle.lockss.specs.ReadingBack.{CanRead};

use crate::ends::Played;
use crate::journals::{Preface, begin_journals, tell_journals};
use lks_base::{Entry, Plan};
use lks_blocks::BlockPool;
use lks_disk::CrashDisk;
use lks_outside::{Bell, EffortJudge, Sink, WriteStop};
use lks_report::{has_alarm, report, summary};
use lks_script::{Script, Step};
use lks_words::Play;
use lks_work::Gate;
use lks_world::{Parts, World, WorldFault};
use std::alloc::Global;
use std::mem;
use std::sync::Wait;
use std::thread::Threads;

/// How far a world was played before its disks are given back.
#[derive(Drop)]
pub enum Progress {
    /// It is over.
    Over(Played),
    /// All steps were done, and the journals are to be told.
    Open(Preface),
}

/// Does the steps in a world.
pub fn perform_all<R: Threads + Wait + Sync, D: CrashDisk + Drop, J: EffortJudge, B: Bell, G: Gate>(
    rt: &R,
    gate: &G,
    world: &mut World<'_, D, J, B>,
    steps: &[Step],
) -> Result<(), WorldFault>
    requires running { world.old.stopped ≡ None }
    requires legal { are_steps_of world.old.plan steps.now ≡ true }
    ensures remembers { Remembers world.old world.new }
    ensures turns { world.new.turns ≡ world.old.turns }
    ensures follows { OnOk result
        (Follows (J.verdict world.old.judge) world.old.plan world.old.history steps.now world.new.history) }
    ensures watches { OnOk result
        (Watches world.old.plan world.old.history world.new.history
        (watching (ears J.heard J.verdict B.rung B.limit) world.old.judge world.old.bells)
        (watching (ears J.heard J.verdict B.rung B.limit) world.new.judge world.new.bells)) }
    ensures off { OnErr result
        (IsLeftOff D.face (ears J.heard J.verdict B.rung B.limit) steps.now world.old world.new) }
    ensures stopped { world.new.stopped ≡ fault_in result }
    ensures serves { ServesHonest D.face world.old.plan.peers world.old.disks world.new.disks (fault_in result) }
    ensures power { CountsPower D.face world.old world.new (fault_in result) }
    ensures spent { OnOk result
        (AreSpent D.face (J.verdict world.old.judge) world.old.plan world.old.history world.old.disks steps.now
        world.new.history world.new.disks) }
    ensures spent_up_to { IfErr result
        (λ fault. AreSpentUpTo D.face (J.verdict world.old.judge) world.old.plan world.old.history world.old.disks
        steps.now fault world.new.history world.new.disks) }
{
    for step in steps {
        world.perform(rt, step, gate)?;
    }
    Ok(())
}

fn write<K: Sink>(
    alloc: Global,
    command: Play,
    plan: &Plan,
    history: &[Entry],
    sink: &mut K,
) -> Result<(), WriteStop>
    requires told { (deed_of command).reads_back ≡ false }
    ensures whole { (events : List Event) → history.now ≡ entries plan.now events → (bytes : List ℕ)
        → K.taken sink.old ≡ Some bytes →
        OnOk result (K.taken sink.new ≡ Some (bytes ++ (deed_of command).told plan.now events)) }
    ensures part { (events : List Event) → history.now ≡ entries plan.now events → (bytes : List ℕ)
        → K.taken sink.old ≡ Some bytes →
        OnErr result (AddsFront bytes ((deed_of command).told plan.now events) (K.taken sink.new)) }
    ensures failed { IsErrOf result WriteStop.Failed → Rose (K.faults sink.old) (K.faults sink.new) }
    ensures count { K.faults sink.old ≤ K.faults sink.new }
{
    match command {
        Play::Replay => report(alloc, plan, history, sink),
        Play::Drill { seed } => summary(alloc, seed, history, sink),
        Play::Journals => unreachable!(),
    }
}

/// Tells what happened in the world, and answers whether an alarm was raised in it.
pub fn tell<K: Sink, D: CrashDisk + Drop, J: EffortJudge, B: Bell>(
    alloc: Global,
    command: Play,
    world: &World<'_, D, J, B>,
    sink: &mut K,
) -> Result<bool, WriteStop>
    requires told { (deed_of command).reads_back ≡ false }
    ensures tells { Tells (senses D.face (ears J.heard J.verdict B.rung B.limit) K.taken K.faults)
        ((deed_of command).told world.now.plan world.now.history)
        (has_any (alarms world.now.plan world.now.history)) sink.old sink.new result }
    ensures count { K.faults sink.old ≤ K.faults sink.new }
{
    let history = world.history();
    match write(alloc, command, world.plan(), history, sink) {
        Ok(()) => Ok(has_alarm(history)),
        Err(stop) => Err(stop),
    }
}

/// Tells what happened in the world, or what is told before its journals.
fn tell_first<K: Sink, D: CrashDisk + Drop, J: EffortJudge, B: Bell>(
    alloc: Global,
    command: Play,
    world: &World<'_, D, J, B>,
    sink: &mut K,
) -> Progress
    ensures tells { TellsFirst (senses D.face (ears J.heard J.verdict B.rung B.limit) K.taken K.faults) command
        world.now.plan world.now.history sink.old sink.new result }
    ensures count { K.faults sink.old ≤ K.faults sink.new }
{
    match command {
        Play::Replay | Play::Drill { .. } => {
            Progress::Over(Played::Told(tell(alloc, command, world, sink)))
        }
        Play::Journals => match begin_journals(alloc, world.plan(), world.history()) {
            Ok(preface) => Progress::Open(preface),
            Err(_) => Progress::Over(Played::Untold(WorldFault::Memory)),
        },
    }
}

/// Does the steps in a world, and tells what happened, or what is told before its journals.
fn play_in<
    R: Threads + Wait + Sync,
    K: Sink,
    D: CrashDisk + Drop,
    J: EffortJudge,
    B: Bell,
    G: Gate,
>(
    alloc: Global,
    rt: &R,
    gate: &G,
    command: Play,
    world: &mut World<'_, D, J, B>,
    steps: &[Step],
    sink: &mut K,
) -> Progress
    requires running { world.old.stopped ≡ None }
    requires legal { are_steps_of world.old.plan steps.now ≡ true }
    ensures plan { world.new.plan ≡ world.old.plan }
    ensures comes { ComesIn (senses D.face (ears J.heard J.verdict B.rung B.limit) K.taken K.faults) command
        steps.now world.old world.new sink.old sink.new result }
    ensures count { K.faults sink.old ≤ K.faults sink.new }
{
    match perform_all(rt, gate, world, steps) {
        Ok(()) => tell_first(alloc, command, world, sink),
        Err(fault) => Progress::Over(Played::Stopped(fault)),
    }
}

/// Puts all that a world gave back into its place.
pub fn hand_back<D: Drop, J: Drop, B: Drop>(
    parts: Parts<D, J, B>,
    disks: &mut Vec<D>,
    judge: &mut Option<J>,
    bells: &mut Vec<B>,
)
    ensures disks { disks.new.items ≡ parts.disks.items }
    ensures judge { judge.new ≡ Some parts.judge }
    ensures bells { bells.new.items ≡ parts.bells.items }
{
    *disks = parts.disks;
    *judge = Some(parts.judge);
    *bells = parts.bells;
}

/// Reads the journals back and tells them, where they are to be told.
fn go_on<K: Sink, D: CrashDisk + Drop>(
    alloc: Global,
    progress: Progress,
    sink: &mut K,
    disks: &mut Vec<D>,
) -> Played
    requires can { IfOpen progress (λ p. CanRead D.face p.owners.items disks.old.items) }
    ensures goes { GoesOn D.face K.taken K.faults progress disks.old.items disks.new.items sink.old sink.new result }
    ensures count { K.faults sink.old ≤ K.faults sink.new }
{
    match progress {
        Progress::Over(played) => played,
        Progress::Open(preface) => tell_journals(alloc, preface, sink, disks),
    }
}

/// A world in which nothing happened yet, on disks that are taken out of their places, as are the judge and the bells.
/// Where there is none, all are back.
pub fn start<'a, D: CrashDisk + Drop, J: EffortJudge, B: Bell, R: Wait>(
    alloc: Global,
    rt: &R,
    pool: &'a BlockPool,
    plan: Plan,
    disks: &mut Vec<D>,
    judge: &mut Option<J>,
    bells: &mut Vec<B>,
) -> Result<World<'a, D, J, B>, WorldFault>
    requires good { plan_fault plan ≡ None }
    requires enough { length plan.peers ≤ length disks.old.items }
    requires fresh { AreFresh D.face disks.old.items }
    requires unasked { (j : J) × (judge.old ≡ Some j) × (J.heard j ≡ []) }
    requires silent { All (IsSilent B.rung B.limit) bells.old.items }
    ensures starts { IfOk result
        (Starts D.face (ears J.heard J.verdict B.rung B.limit) plan pool.now disks.old.items judge.old
        bells.old.items) }
    ensures refused { IfErr result (IsRefused D.face plan disks.old.items disks.new.items) }
    ensures back { OnErr result ((judge.new ≡ judge.old) × (bells.new.items ≡ bells.old.items)) }
{
    let Some(asked) = judge.take() else {
        unreachable!()
    };
    let handed = mem::replace(disks, Vec::new(alloc));
    let hung = mem::replace(bells, Vec::new(alloc));
    match World::new(alloc, rt, pool, plan, handed, asked, hung) {
        Ok(world) => Ok(world),
        Err((parts, fault)) => {
            hand_back(parts, disks, judge, bells);
            Err(fault)
        }
    }
}

/// Plays a script on disks, which are back in their places afterwards, as are the judge and the bells that want more,
/// and tells what happened.
pub fn play<
    R: Threads + Wait + Sync,
    K: Sink,
    D: CrashDisk + Drop,
    J: EffortJudge,
    B: Bell,
    G: Gate,
>(
    alloc: Global,
    rt: &R,
    gate: &G,
    command: Play,
    script: Script,
    sink: &mut K,
    disks: &mut Vec<D>,
    judge: &mut Option<J>,
    bells: &mut Vec<B>,
) -> Played
    requires good { plan_fault script.plan ≡ None }
    requires legal { are_steps_of script.plan script.steps ≡ true }
    requires said { (deed_of command).reads_back ≡ true → IsSaidPlan script.plan }
    requires given { AreGiven (senses D.face (ears J.heard J.verdict B.rung B.limit) K.taken K.faults)
        (devices disks.old.items sink.old judge.old bells.old.items) }
    ensures plays { PlaysTo (senses D.face (ears J.heard J.verdict B.rung B.limit) K.taken K.faults)
        (deed_of command) script (devices disks.old.items sink.old judge.old bells.old.items)
        (devices disks.new.items sink.new judge.new bells.new.items) result }
    ensures count { K.faults sink.old ≤ K.faults sink.new }
{
    let Ok(pool) = BlockPool::new(alloc) else {
        return Played::Unmade(WorldFault::Memory);
    };
    let Script { plan, steps } = script;
    let mut world = match start(alloc, rt, &pool, plan, disks, judge, bells) {
        Ok(world) => world,
        Err(fault) => return Played::Unmade(fault),
    };
    let progress = play_in(alloc, rt, gate, command, &mut world, steps.as_slice(), sink);
    hand_back(world.into_parts(), disks, judge, bells);
    go_on(alloc, progress, sink, disks)
}
