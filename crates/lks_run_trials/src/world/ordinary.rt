//! Ordinary use: a poll that repairs a copy comes to the same lines in every order of results, and stops where its
//! turns are used up.

ghost use Rattle.std.specs.Prelude.{◌≡◌, ◌≤◌, true, None, IfOk, OnOk, length};
ghost use Rattle.lks_base.specs.Checking.{plan_fault};
ghost use Rattle.lks_base.specs.declared.limits.TheConstants.{MOST_PEERS};
ghost use Rattle.lks_farm.specs.Batches.{AreDoneOf};
ghost use Rattle.lks_script.specs.StepRules.{are_steps_of};
ghost use Rattle.lks_world.specs.Held.{AreFresh, IsFresh};

use crate::same::same;
use crate::world::driving::{Driven, ReturnOrder, drive};
use lks_base::{Entry, MOST_PEERS, Plan};
use lks_blocks::BlockPool;
use lks_disk::{CrashDisk, Disk, MemDisk};
use lks_outside::{Bell, EffortJudge, FirstByteJudge, ListBell, MemSink};
use lks_report::report;
use lks_script::{Script, Step, read_script};
use lks_work::FreeGate;
use lks_world::{World, WorldFault};
use std::alloc::{AllocError, Global};
use std::sync::Wait;
use std::test::Fail;
use std::thread::Threads;

const RULES: &str = "\
lockss 1
rules inner 3 quorum 3 minority 1 outer 0 repairs 2 pace 0 refractory 0 overdue 100 unknown 100 debt 100 churn 0
";

/// Peer 1 has a bad block, which the others repair.
const PEERS: &str = "\
au 1 12
peer 1 honest 01 01
peer 2 honest 02 01
peer 3 honest 03 01
peer 4 honest 04 01
refs 1 2 3 4
refs 2 1 3 4
refs 3 1 2 4
refs 4 1 2 3
copy 1 1 30,31,32,33,34,35,36,37,38,39,3a,3b
copy 2 1 like 1
copy 3 1 like 1
copy 4 1 like 1
";

/// The bad block.
pub const DAMAGE: &str = "damage 1 1 5 ff\n";

const STEP: &str = "open 1 1\n";

const OPENED: &str = "\
lockss report 1
1 open 1 1 | opened 1 1 | 3
";

/// All messages arrive that come before votes.
const NOMINATED: &str = "\
lockss report 1
1 open 1 1 | opened 1 1 | 3
2 deliver 0 1 2 | joined 1 1 1 low | 1
3 deliver 1 1 3 | joined 1 1 1 low | 1
4 deliver 2 1 4 | joined 1 1 1 low | 1
5 deliver 3 2 1 | - | 1
6 deliver 4 3 1 | - | 1
7 deliver 5 4 1 | - | 1
8 deliver 6 1 2 accepted | committed 1 1 0 | 1
9 deliver 7 1 3 accepted | committed 1 1 0 | 1
10 deliver 8 1 4 accepted | committed 1 1 0 | 1
11 deliver 9 2 1 | nominated 1 2 | 0
12 deliver 10 3 1 | nominated 1 3 | 0
13 deliver 11 4 1 | nominated 1 4 | 0
";

/// In any order of events: the votes, the end of the inner circle, the repair, and the end of the poll.
const ON_THE_WAY: &str = "\
 work 2 1 1 | voted 1 1 | 1
 work 3 1 1 | voted 1 1 | 1
 work 4 1 1 | voted 1 1 | 1
 outer 1 1 | outer 1 0 | 0
 | served 1 1 5 | 1
 | replaced 1 1 5 1 | 0
 tally 1 1 | closed 1 agreed | 3
";

const AGREED: &str = "\
copy 1 1 1
copy 2 1 0
copy 3 1 0
copy 4 1 0
poll 1 1 1 3 0 agreed
end 28
";

const LEFT_AFTER_12: &str = "\
copy 1 1 0
copy 2 1 0
copy 3 1 0
copy 4 1 0
poll 1 1 1 0 0 running
end 13
";

const LEFT_AT_ONCE: &str = "\
copy 1 1 0
copy 2 1 0
copy 3 1 0
copy 4 1 0
poll 1 1 1 0 0 running
end 1
";

/// How a world is driven, and what comes of it.
struct Case {
    /// A line behind the rules, if any.
    turns: &'static str,
    order: ReturnOrder,
    /// What became of the results that came back.
    came: &'static str,
    /// Whether no envelope waits and no work is ready in the end.
    quiet: bool,
    /// How its report begins, which lines stand in it without their numbers, and how it ends.
    begins: &'static str,
    has: &'static str,
    ends: &'static str,
}

/// Three votes and two tallies come back.
const AGREES: Case = Case {
    turns: "",
    order: ReturnOrder::AtOnce,
    came: "kept kept kept kept kept",
    quiet: true,
    begins: OPENED,
    has: ON_THE_WAY,
    ends: AGREED,
};

const CASES: [Case; 5] = [
    AGREES,
    Case {
        order: ReturnOrder::LastFirst,
        ..AGREES
    },
    // The second result of each job is stale; that of the first tally comes back where the tally of the repaired copy
    // is ready.
    Case {
        order: ReturnOrder::Twice,
        came: "kept kept kept gone gone gone kept outdated kept gone",
        ..AGREES
    },
    // Three votes come back after the last turn.
    Case {
        turns: "turns 12\n",
        order: ReturnOrder::LastFirst,
        came: "late late late",
        quiet: false,
        begins: NOMINATED,
        has: "",
        ends: LEFT_AFTER_12,
    },
    Case {
        turns: "turns 0\n",
        order: ReturnOrder::LastFirst,
        came: "",
        quiet: false,
        begins: OPENED,
        has: "",
        ends: LEFT_AT_ONCE,
    },
];

/// What a world tells when it was driven.
#[derive(Drop)]
struct Ending {
    quiet: bool,
    /// Its report.
    text: Vec<u8>,
    /// The report of its last entry alone, and of the copy of it.
    last: Vec<u8>,
    copied: Vec<u8>,
    /// Why it takes no further step, before it is halted and after.
    stopped: [Option<WorldFault>; 2],
}

/// The script with these lines behind its rules and its copies.
pub fn script_of(alloc: Global, turns: &str, damage: &str) -> Result<Script, Fail>
    ensures good { IfOk result (λ script. plan_fault script.plan ≡ None) }
    ensures steps { IfOk result (λ script. are_steps_of script.plan script.steps ≡ true) }
{
    let mut text = Vec::new(alloc);
    for piece in [RULES, turns, PEERS, damage, STEP] {
        text.extend_from_slice(piece.as_bytes())?;
    }
    Ok(read_script(alloc, &text)?)
}

/// An empty disk, of which no call fails.
fn fresh_disk(alloc: Global) -> MemDisk
    ensures { IsFresh ⟦<MemDisk as Disk>⟧.face result }
{
    MemDisk::new(alloc, Vec::new(alloc))
}

/// As many of them as a script may have peers.
fn fresh_disks(alloc: Global) -> Result<Vec<MemDisk>, AllocError>
    ensures enough { IfOk result (λ disks. MOST_PEERS ≤ length disks.items) }
    ensures fresh { IfOk result (λ disks. AreFresh ⟦<MemDisk as Disk>⟧.face disks.items) }
{
    let mut disks = Vec::with_capacity(alloc, MOST_PEERS as usize)?;
    for count in 0..MOST_PEERS as usize {
        disks.push(fresh_disk(alloc))?;
    }
    Ok(disks)
}

/// A world in which nothing happened yet.
pub fn world_of<'a, R: Wait>(
    alloc: Global,
    rt: &R,
    pool: &'a BlockPool,
    plan: Plan,
) -> Result<World<'a, MemDisk, FirstByteJudge, ListBell>, Fail>
    requires good { plan_fault plan ≡ None }
    ensures running { IfOk result (λ world. world.stopped ≡ None) }
    ensures pool { IfOk result (λ world. world.pool ≡ pool.now) }
    ensures plan { IfOk result (λ world. world.plan ≡ plan) }
{
    let judge = FirstByteJudge::new(alloc)?;
    let disks = fresh_disks(alloc)?;
    let bells: Vec<ListBell> = Vec::new(alloc);
    match World::new(alloc, rt, pool, plan, disks, judge, bells) {
        Ok(world) => Ok(world),
        Err((_parts, fault)) => Err(fault.into()),
    }
}

/// Does all steps of a script.
pub fn perform<R: Threads + Wait + Sync, D: CrashDisk + Drop, J: EffortJudge, B: Bell>(
    rt: &R,
    world: &mut World<'_, D, J, B>,
    steps: &[Step],
) -> Result<(), Fail>
    requires running { world.old.stopped ≡ None }
    requires legal { are_steps_of world.old.plan steps.now ≡ true }
    ensures running { OnOk result (world.new.stopped ≡ None) }
    ensures pool { world.new.pool ≡ world.old.pool }
{
    for step in steps {
        world.perform(rt, step, &FreeGate)?;
    }
    Ok(())
}

fn told(alloc: Global, plan: &Plan, history: &[Entry]) -> Result<Vec<u8>, Fail> {
    let mut sink = MemSink::new(alloc, Vec::new(alloc));
    report(alloc, plan, history, &mut sink)?;
    Ok(sink.bytes().to_vec(alloc)?)
}

/// The report of the last entry alone.
fn last_told(alloc: Global, plan: &Plan, history: &[Entry]) -> Result<Vec<u8>, Fail> {
    match history.len() {
        0 => Err("no entry".into()),
        count => told(alloc, plan, &history[count - 1..]),
    }
}

/// The report of what the world says is its last entry.
fn copy_told<D: CrashDisk + Drop, J: EffortJudge, B: Bell>(
    alloc: Global,
    world: &World<'_, D, J, B>,
) -> Result<Vec<u8>, Fail> {
    let mut last = Vec::new(alloc);
    if let Some(entry) = world.last_entry()? {
        last.push(entry)?;
    }
    told(alloc, world.plan(), &last)
}

/// Why the world takes no further step, before it is halted and after.
fn halted<D: CrashDisk + Drop, J: EffortJudge, B: Bell>(
    world: &mut World<'_, D, J, B>,
) -> [Option<WorldFault>; 2] {
    let before = world.stopped();
    world.halt();
    [before, world.stopped()]
}

/// What the world tells, which is then halted.
fn finish<D: CrashDisk + Drop, J: EffortJudge, B: Bell>(
    alloc: Global,
    world: &mut World<'_, D, J, B>,
) -> Result<Ending, Fail>
    requires { world.old.stopped ≡ None }
{
    Ok(Ending {
        quiet: world.quiet(),
        text: told(alloc, world.plan(), world.history())?,
        last: last_told(alloc, world.plan(), world.history())?,
        copied: copy_told(alloc, world)?,
        stopped: halted(world),
    })
}

/// Does the steps in a world, and drives it on.
fn play_in<R: Threads + Wait + Sync, D: CrashDisk + Drop, J: EffortJudge, B: Bell>(
    alloc: Global,
    rt: &R,
    pool: &BlockPool,
    world: &mut World<'_, D, J, B>,
    steps: &[Step],
    driven: &mut Driven,
) -> Result<Ending, Fail>
    requires running { world.old.stopped ≡ None }
    requires legal { are_steps_of world.old.plan steps.now ≡ true }
    requires pool { pool.now ≡ world.old.pool }
    requires of { AreDoneOf world.old.pool driven.old.held.items }
{
    perform(rt, world, steps)?;
    drive(alloc, rt, pool, world, driven)?;
    finish(alloc, world)
}

/// Makes the world of a script, and plays in it.
fn play<R: Threads + Wait + Sync>(
    alloc: Global,
    rt: &R,
    pool: &BlockPool,
    script: Script,
    driven: &mut Driven,
) -> Result<Ending, Fail>
    requires good { plan_fault script.plan ≡ None }
    requires legal { are_steps_of script.plan script.steps ≡ true }
    requires of { AreDoneOf pool.now driven.old.held.items }
{
    let Script { plan, steps } = script;
    let mut world = world_of(alloc, rt, pool, plan)?;
    play_in(alloc, rt, pool, &mut world, steps.as_slice(), driven)
}

/// Whether the piece stands in the text.
fn stands_in(text: &[u8], piece: &[u8]) -> bool {
    for at in 0..text.len() {
        if text[at..].starts_with(piece) {
            return true;
        }
    }
    false
}

/// What isn't as the case says, if anything.
fn unlike(case: &Case, came: &str, seen: &Ending) -> Option<&'static str> {
    let text = seen.text.as_slice();
    if came.trim_end() != case.came {
        return Some("what came back");
    }
    if seen.quiet != case.quiet {
        return Some("whether it is quiet");
    }
    if !text.starts_with(case.begins.as_bytes()) || !text.ends_with(case.ends.as_bytes()) {
        return Some("how its report begins and ends");
    }
    if !case
        .has
        .lines()
        .all(|line| stands_in(text, line.as_bytes()))
    {
        return Some("a line of its report");
    }
    if seen.last != seen.copied {
        return Some("its last entry");
    }
    if seen.stopped != [None, Some(WorldFault::Memory)] {
        return Some("why it stopped");
    }
    None
}

#[test]
fn ordinary_use_by_what_is_given_out(rt: HostRuntime) -> Result<(), Fail> {
    let alloc = rt.alloc();
    for (at, case) in CASES.iter().enumerate() {
        let pool = BlockPool::new(alloc)?;
        let script = script_of(alloc, case.turns, DAMAGE)?;
        let mut driven = Driven::new(alloc, case.order);
        let seen = play(alloc, &rt, &pool, script, &mut driven)?;
        same(&rt, &unlike(case, driven.came.as_str(), &seen), &None, &at);
    }
    Ok(())
}
