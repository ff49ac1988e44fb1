//! The commands of the program.

ghost use Rattle.std.specs.Prelude.{◌≡◌, ◌≤◌, ◌↔◌, true, None, Some, IfOk, IfErr, map, string_bytes};
ghost use Rattle.lks_base.specs.Checking.{plan_fault};
ghost use Rattle.lks_words.specs.Commands.{command_in, HasThreads};
ghost use Rattle.lks_evidence.specs.Holding.{IsYes, SetHolds};
ghost use Rattle.lks_evidence.specs.Search.{finding as finding_of};
ghost use Rattle.lks_evidence.specs.Sizes.{IsSmall};
ghost use Rattle.lks_gather.specs.Sets.{said_by, set_of};
ghost use Rattle.lks_gather.specs.declared.gathered.Gathered.{Gathered as Read};
ghost use Rattle.lks_outside.specs.Counts.{Rose};
ghost use Rattle.lks_script.specs.StepRules.{are_steps_of};
ghost use Rattle.lks_watch.specs.Watching.{ears};
ghost use Rattle.lockss.specs.Complete.{HasJournals, HasWork, NoneRose, Completes, Concludes};
ghost use Rattle.lockss.specs.Handed.{devices, senses, AreGiven, AreGivenFor};
ghost use Rattle.lockss.specs.Deeds.{deed_of};
ghost use Rattle.lockss.specs.Promise.{Finds, FindsNone, Comes, Promise};

use crate::ends::{End, Unscripted};
use crate::findings::tell_finding;
use crate::playing::play;
use crate::racing::race_script;
use crate::statuses::Status;
use lks_disk::CrashDisk;
use lks_drill::drill;
use lks_evidence::{Finding, examine};
use lks_gather::{Gathered, read_set};
use lks_outside::{Bell, EffortJudge, Sink, Source, read_all};
use lks_script::{Script, read_script};
use lks_words::{Command, Play, parse};
use lks_work::Gate;
use std::alloc::Global;
use std::sync::Wait;
use std::thread::Threads;

/// The most bytes of a script, or of a script and journals.
const MOST_BYTES: usize = 16_777_216;

/// The script that is played.
fn find<S: Source>(alloc: Global, play: Play, source: &mut S) -> Result<Script, Unscripted>
    ensures finds { IfOk result
        (λ s. Finds S.left S.faults source.old source.new (deed_of play).reads (deed_of play).script s) }
    ensures good { IfOk result (λ s. plan_fault s.plan ≡ None) }
    ensures legal { IfOk result (λ s. are_steps_of s.plan s.steps ≡ true) }
    ensures none { IfErr result
        (λ none. FindsNone S.left S.faults source.old source.new (deed_of play).reads (deed_of play).script none) }
    ensures count { S.faults source.old ≤ S.faults source.new }
{
    match play {
        Play::Replay | Play::Journals => {
            let bytes = read_all(alloc, source, MOST_BYTES)?;
            Ok(read_script(alloc, &bytes)?)
        }
        Play::Drill { seed } => Ok(drill(alloc, seed)?),
    }
}

/// The plan and the journals that the source gives.
#[tactic(auto, unfolding(lks_evidence::specs::Sizes::most_records))]
fn gather<S: Source>(alloc: Global, source: &mut S) -> Result<Gathered, Unscripted>
    ensures finds { IfOk result (λ g. Finds S.left S.faults source.old source.new true set_of (said_by g)) }
    ensures small { IfOk result (λ g. IsSmall g.set.items) }
    ensures none { IfErr result (λ none. FindsNone S.left S.faults source.old source.new true set_of none) }
    ensures count { S.faults source.old ≤ S.faults source.new }
{
    let bytes = read_all(alloc, source, MOST_BYTES)?;
    Ok(read_set(alloc, &bytes)?)
}

/// What the journals that the source gives are found to be.
fn find_doubt<S: Source>(alloc: Global, source: &mut S) -> Result<Finding, Unscripted>
    ensures finds { IfOk result (λ f. (g : Read) × Finds S.left S.faults source.old source.new true set_of (said_by g)
        × (f ≡ finding_of g.plan g.set.items) × (IsYes f ↔ SetHolds g.plan g.set.items)) }
    ensures none { IfErr result (λ none. FindsNone S.left S.faults source.old source.new true set_of none) }
    ensures count { S.faults source.old ≤ S.faults source.new }
{
    let gathered = gather(alloc, source)?;
    Ok(examine(alloc, &gathered.plan, &gathered.set)?)
}

/// Finds the script, and plays it.
fn obey_play<
    R: Threads + Wait + Sync,
    S: Source,
    K: Sink,
    D: CrashDisk + Drop,
    J: EffortJudge,
    B: Bell,
    G: Gate,
>(
    alloc: Global,
    rt: &R,
    told: Play,
    source: &mut S,
    sink: &mut K,
    disks: &mut Vec<D>,
    judge: &mut Option<J>,
    bells: &mut Vec<B>,
    gate: &G,
) -> End
    requires given { AreGiven (senses D.face (ears J.heard J.verdict B.rung B.limit) K.taken K.faults)
        (devices disks.old.items sink.old judge.old bells.old.items) }
    ensures comes { Comes S.left S.faults (senses D.face (ears J.heard J.verdict B.rung B.limit) K.taken K.faults)
        source.old source.new (devices disks.old.items sink.old judge.old bells.old.items)
        (devices disks.new.items sink.new judge.new bells.new.items) (Some (Command.Play told)) result }
    ensures source_count { S.faults source.old ≤ S.faults source.new }
    ensures sink_count { K.faults sink.old ≤ K.faults sink.new }
{
    match find(alloc, told, source) {
        Ok(script) => {
            let played = play(alloc, rt, gate, told, script, sink, disks, judge, bells);
            End::Played(played)
        }
        Err(none) => End::Unscripted(none),
    }
}

/// Finds the script, plays it, and lets threads take what is due.
fn obey_race<
    R: Threads + Wait + Sync,
    S: Source,
    K: Sink,
    D: CrashDisk + Drop,
    J: EffortJudge,
    B: Bell,
    G: Gate,
>(
    alloc: Global,
    rt: &R,
    threads: u16,
    source: &mut S,
    sink: &mut K,
    disks: &mut Vec<D>,
    judge: &mut Option<J>,
    bells: &mut Vec<B>,
    gate: &G,
) -> End
    requires threads { (1 ≤ threads) × (threads ≤ 64) }
    requires given { AreGiven (senses D.face (ears J.heard J.verdict B.rung B.limit) K.taken K.faults)
        (devices disks.old.items sink.old judge.old bells.old.items) }
    ensures comes { Comes S.left S.faults (senses D.face (ears J.heard J.verdict B.rung B.limit) K.taken K.faults)
        source.old source.new (devices disks.old.items sink.old judge.old bells.old.items)
        (devices disks.new.items sink.new judge.new bells.new.items) (Some (Command.Race threads)) result }
    ensures source_count { S.faults source.old ≤ S.faults source.new }
    ensures sink_count { K.faults sink.old ≤ K.faults sink.new }
{
    match find(alloc, Play::Replay, source) {
        Ok(script) => {
            let raced = race_script(alloc, rt, gate, threads, script, sink, disks, judge, bells);
            End::Raced(raced)
        }
        Err(why) => End::Unscripted(why),
    }
}

/// Does what a command says.
fn obey<
    R: Threads + Wait + Sync,
    S: Source,
    K: Sink,
    D: CrashDisk + Drop,
    J: EffortJudge,
    B: Bell,
    G: Gate,
>(
    alloc: Global,
    rt: &R,
    command: Command,
    source: &mut S,
    sink: &mut K,
    disks: &mut Vec<D>,
    judge: &mut Option<J>,
    bells: &mut Vec<B>,
    gate: &G,
) -> End
    requires threads { HasThreads command }
    requires given { AreGivenFor (Some command)
        (senses D.face (ears J.heard J.verdict B.rung B.limit) K.taken K.faults)
        (devices disks.old.items sink.old judge.old bells.old.items) }
    ensures comes { Comes S.left S.faults (senses D.face (ears J.heard J.verdict B.rung B.limit) K.taken K.faults)
        source.old source.new (devices disks.old.items sink.old judge.old bells.old.items)
        (devices disks.new.items sink.new judge.new bells.new.items) (Some command) result }
    ensures source_count { S.faults source.old ≤ S.faults source.new }
    ensures sink_count { K.faults sink.old ≤ K.faults sink.new }
{
    match command {
        Command::Play(play) => obey_play(alloc, rt, play, source, sink, disks, judge, bells, gate),
        Command::Race { threads } => {
            obey_race(alloc, rt, threads, source, sink, disks, judge, bells, gate)
        }
        Command::Evidence => match find_doubt(alloc, source) {
            Ok(finding) => End::Examined(tell_finding(alloc, finding, sink)),
            Err(unread) => End::Unscripted(unread),
        },
    }
}

/// Does the command that the words name, if they name one.
fn obey_words<
    R: Threads + Wait + Sync,
    S: Source,
    K: Sink,
    D: CrashDisk + Drop,
    J: EffortJudge,
    B: Bell,
    G: Gate,
>(
    alloc: Global,
    rt: &R,
    words: &[String],
    source: &mut S,
    sink: &mut K,
    disks: &mut Vec<D>,
    judge: &mut Option<J>,
    bells: &mut Vec<B>,
    gate: &G,
) -> End
    requires given { AreGivenFor (command_in (map string_bytes words.now))
        (senses D.face (ears J.heard J.verdict B.rung B.limit) K.taken K.faults)
        (devices disks.old.items sink.old judge.old bells.old.items) }
    ensures comes { Comes S.left S.faults (senses D.face (ears J.heard J.verdict B.rung B.limit) K.taken K.faults)
        source.old source.new (devices disks.old.items sink.old judge.old bells.old.items)
        (devices disks.new.items sink.new judge.new bells.new.items) (command_in (map string_bytes words.now))
        result }
    ensures source_count { S.faults source.old ≤ S.faults source.new }
    ensures sink_count { K.faults sink.old ≤ K.faults sink.new }
{
    match parse(alloc, words) {
        Ok(Some(command)) => obey(alloc, rt, command, source, sink, disks, judge, bells, gate),
        Ok(None) => End::Unnamed,
        Err(_) => End::Unbegun,
    }
}

/// Does the command that the words name. `replay` reads a script from the source, plays it, and writes the report of
/// its history to the sink; `race` and a number does so too, and once the steps are done lets so many threads take what
/// is due, in whatever order they come, until nothing is due or the plan's turns are used up; `drill` and a seed plays
/// the scenario of that seed, reads nothing, and writes one line; `journals` plays a script as `replay` does, reads the
/// disks back, and writes the plan and the journals; `evidence` reads these from the source, examines them, and writes
/// one line. The i-th disk is that of the script's i-th peer; those of honest peers hold their journals. All disks are
/// fresh, and there are as many as a script may have peers. The judge says of each proof of effort whether it is
/// accepted, and the bells ring for alarms; those that want no more are dropped. `evidence` asks nothing of disks,
/// judge and bells. The gate stands before each vote and tally that is hashed beside the steps, and is told of each
/// entry.
pub fn run<
    R: Threads + Wait + Sync,
    S: Source,
    K: Sink,
    D: CrashDisk + Drop,
    J: EffortJudge,
    B: Bell,
    G: Gate,
>(
    alloc: Global,
    rt: &R,
    words: &[String],
    source: &mut S,
    sink: &mut K,
    disks: &mut Vec<D>,
    judge: &mut Option<J>,
    bells: &mut Vec<B>,
    gate: &G,
) -> Status
    requires given { AreGivenFor (command_in (map string_bytes words.now))
        (senses D.face (ears J.heard J.verdict B.rung B.limit) K.taken K.faults)
        (devices disks.old.items sink.old judge.old bells.old.items) }
    ensures promise { Promise S.left S.faults
        (senses D.face (ears J.heard J.verdict B.rung B.limit) K.taken K.faults) source.old source.new
        (devices disks.old.items sink.old judge.old bells.old.items)
        (devices disks.new.items sink.new judge.new bells.new.items) (command_in (map string_bytes words.now))
        result }
    // So where there is work, and no fault is counted, it is done.
    ensures complete { HasWork (command_in (map string_bytes words.now)) (S.left source.old)
        → (Rose (S.faults source.old) (S.faults source.new) → ⊥) → (Rose (K.faults sink.old) (K.faults sink.new) → ⊥)
        → NoneRose D.face disks.old.items disks.new.items → Completes result }
    // So where there are journals, it says whether they hold.
    ensures concludes { (work : HasJournals (command_in (map string_bytes words.now)) (S.left source.old))
        → (Rose (S.faults source.old) (S.faults source.new) → ⊥)
        → (Rose (K.faults sink.old) (K.faults sink.new) → ⊥) → Concludes work.said result }
{
    obey_words(alloc, rt, words, source, sink, disks, judge, bells, gate).status()
}
