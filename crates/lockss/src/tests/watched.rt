//! Judges and bells that are handed in.

ghost use Rattle.std.specs.Prelude.{◌≡◌, [], All, IfOk, length};
ghost use Rattle.lockss.specs.Handed.{IsSilent};

use super::lists::{OVERDUE, OVERDUE_REPORT};
use super::*;
use lks_base::Bytes;
use lks_outside::{Alarm, AlarmKind, Bell, EffortJudge, ListJudge, Question};
use std::marker::Model;

const REFUSED_REPORT: &str = "\
lockss report 1
1 open 1 1 | opened 1 1 | 3
2 forge 2 1 74 | - | 1
3 forge 3 1 74 | - | 1
4 forge 4 1 74 | - | 1
5 deliver 0 1 2 | - | 0
6 deliver 1 1 3 | - | 0
7 deliver 2 1 4 | - | 0
8 deliver 3 2 1 accepted | vote-in 1 2 | 0
9 deliver 4 3 1 refused | - | 0
10 deliver 5 4 1 accepted | vote-in 1 4 | 0
11 shut 1 1 | shut 1, closed 1 inquorate | 2
12 deliver 6 1 2 | - | 0
13 deliver 7 1 4 | - | 0
copy 1 1 0
poll 1 1 1 2 0 inquorate
end 13
";

// The split poll two events later, behind a check that finds the AU overdue.
const LATE: &str = "tick 101\ncheck 1\n";

const LATE_REPORT: &str = "\
lockss report 1
1 tick 101 | - | 0
2 check 1 | overdue 1 | 0
3 open 1 1 | opened 1 1 | 4
4 forge 2 1 74 | - | 1
5 forge 3 1 74 | - | 1
6 forge 4 1 74 | - | 1
7 forge 5 1 74 | - | 1
8 deliver 0 1 2 | - | 0
9 deliver 1 1 3 | - | 0
10 deliver 2 1 4 | - | 0
11 deliver 3 1 5 | - | 0
12 deliver 4 2 1 accepted | vote-in 1 2 | 0
13 deliver 5 3 1 accepted | vote-in 1 3 | 0
14 deliver 6 4 1 accepted | vote-in 1 4 | 0
15 deliver 7 5 1 accepted | vote-in 1 5 | 0
16 shut 1 1 | shut 1 | 0
17 tally 1 1 | closed 1 split-1 | 4
18 deliver 8 1 2 | - | 0
19 deliver 9 1 3 | - | 0
20 deliver 10 1 4 | - | 0
21 deliver 11 1 5 | - | 0
copy 1 1 0
poll 1 1 1 4 0 split-1
alarm 1 101 overdue 1
alarm 1 101 split 1 1
end 21
";

const LATE_AU: Alarm = Alarm {
    peer: 1,
    tick: 101,
    kind: AlarmKind::Overdue { au: 1 },
};

const SPLIT_POLL: Alarm = Alarm {
    peer: 1,
    tick: 101,
    kind: AlarmKind::Split {
        number: 1,
        block: 1,
    },
};

/// Two bells in a list.
fn pair<B: Bell>(alloc: Global, first: B, second: B) -> Result<Vec<B>, Fail>
    requires first { IsSilent B.rung B.limit first }
    requires second { IsSilent B.rung B.limit second }
    ensures { IfOk result (λ bells. All (IsSilent B.rung B.limit) bells.items) }
{
    let mut bells = Vec::with_capacity(alloc, 2)?;
    bells.push_reserved(first);
    bells.push_reserved(second);
    Ok(bells)
}

/// What a run before this judge and these bells came to.
#[derive(Drop)]
struct Watched<J, B> {
    status: Status,
    report: Vec<u8>,
    judge: Option<J>,
    bells: Vec<B>,
}

fn watch<R: Threads + Wait + Sync, J: EffortJudge, B: Bell>(
    rt: &R,
    alloc: Global,
    words: &[&str],
    script: &[&str],
    judge: J,
    bells: Vec<B>,
) -> Result<Watched<J, B>, Fail>
    requires unasked { J.heard judge ≡ [] }
    requires silent { All (IsSilent B.rung B.limit) bells.items }
{
    let words = words_of(alloc, words)?;
    let mut source = MemSource::new(alloc, joined(alloc, script)?, [].to_vec(alloc)?);
    let mut sink = MemSink::new(alloc, [].to_vec(alloc)?);
    let mut disks = fresh_disks(alloc)?;
    let (mut judge, mut bells) = (Some(judge), bells);
    let status = run(
        alloc,
        rt,
        &words,
        &mut source,
        &mut sink,
        &mut disks,
        &mut judge,
        &mut bells,
        &FreeGate,
    );
    Ok(Watched {
        status,
        report: sink.bytes().to_vec(alloc)?,
        judge,
        bells,
    })
}

// The second vote is refused, so the poll lacks its quorum.
#[test]
fn refuses_by_a_list(rt: HostRuntime) -> Result<(), Fail> {
    let alloc = rt.alloc();
    let judge = ListJudge::new(alloc, [true, false, true].to_vec(alloc)?)?;
    let bells: Vec<ListBell> = Vec::new(alloc);
    let watched = watch(&rt, alloc, REPLAY, &[HEAD, AGREED], judge, bells)?;
    same(&rt, &watched.status, &Status::Done, &"watched.status");
    same(
        &rt,
        &watched.report.as_slice(),
        &REFUSED_REPORT.as_bytes(),
        &"watched.report",
    );
    Ok(())
}

/// Answers a list in order, and counts its questions.
#[derive(Drop)]
struct CountingJudge {
    judge: ListJudge,
    count: u32,
}

impl Model for CountingJudge {
    ghost use Rattle.std.specs.Prelude.{◌≡◌, length};
    ghost use Rattle.lks_outside.specs.Scripted.{Scripted};

    ghost Value = { Scripted };

    ghost view = { λ j. j.judge };

    ghost invariant = { λ j. j.count ≡ length j.judge.heard };
}

impl EffortJudge for CountingJudge {
    ghost use Rattle.lks_outside.specs.Verdicts.{verdict_at};

    ghost heard = { λ j. j.heard };

    ghost verdict = { λ j before _. verdict_at j.verdicts (length before) };

    fn judge(&mut self, q: Question) -> bool {
        let accepted = self.judge.judge(q);
        self.count += 1;
        accepted
    }
}

impl CountingJudge {
    /// What it says to one more question, with a proof that begins with 1; nothing where it has heard as many as it
    /// may.
    fn ask(&mut self, alloc: Global) -> Result<Option<bool>, Fail> {
        if self.count >= 4096 {
            return Ok(None);
        }
        let proof = [1].to_vec(alloc)?;
        let question = Question {
            from: 2,
            poller: 1,
            number: 2,
            proof: Bytes::from_vec(proof),
        };
        Ok(Some(self.judge(question)))
    }
}

// The judge that is back has heard the questions of the race, and refuses a further one.
#[test]
fn the_judge_after_a_race(rt: HostRuntime) -> Result<(), Fail> {
    let alloc = rt.alloc();
    let judge = ListJudge::new(alloc, [true, false, true].to_vec(alloc)?)?;
    let judge = CountingJudge { judge, count: 0 };
    let bells: Vec<ListBell> = Vec::new(alloc);
    let Watched {
        status,
        report,
        judge,
        bells: _bells,
    } = watch(&rt, alloc, &["race", "2"], &[HEAD, AGREED], judge, bells)?;
    same(&rt, &status, &Status::Done, &"status");
    same(
        &rt,
        &report.as_slice(),
        &REFUSED_REPORT.as_bytes(),
        &"report",
    );
    let Some(mut judge) = judge else {
        return Err("no judge is back".into());
    };
    same(&rt, &judge.count, &3, &"judge.count");
    same(&rt, &judge.ask(alloc)?, &Some(false), &"judge.ask");
    Ok(())
}

// The first bell wants one alarm, so it is dropped behind the first. The other one is back, and rang for both.
#[test]
fn rings_two_bells(rt: HostRuntime) -> Result<(), Fail> {
    let alloc = rt.alloc();
    let judge = FirstByteJudge::new(alloc)?;
    let bells = pair(alloc, ListBell::new(alloc, 1)?, ListBell::new(alloc, 5)?)?;
    let watched = watch(
        &rt,
        alloc,
        REPLAY,
        &[HEAD_OF_FIVE, LATE, SPLIT],
        judge,
        bells,
    )?;
    same(&rt, &watched.status, &Status::Alarmed, &"watched.status");
    same(
        &rt,
        &watched.report.as_slice(),
        &LATE_REPORT.as_bytes(),
        &"watched.report",
    );
    assert_eq!(rt; watched.bells.len(), 1);
    same(
        &rt,
        &watched.bells[0].alarms(),
        &[LATE_AU, SPLIT_POLL].as_slice(),
        &"watched.bells[0].alarms",
    );
    Ok(())
}

// The judge and the bells are in boxes. The first bell is dropped behind the one alarm, and the second rang for it.
#[test]
fn watches_in_boxes(rt: HostRuntime) -> Result<(), Fail> {
    let alloc = rt.alloc();
    let judge: Box<dyn EffortJudge> = Box::new(alloc, FirstByteJudge::new(alloc)?)?;
    let first: Box<dyn Bell> = Box::new(alloc, ListBell::new(alloc, 1)?)?;
    let second: Box<dyn Bell> = Box::new(alloc, ListBell::new(alloc, 2)?)?;
    let bells = pair(alloc, first, second)?;
    let watched = watch(&rt, alloc, REPLAY, &[HEAD, OVERDUE], judge, bells)?;
    same(&rt, &watched.status, &Status::Alarmed, &"watched.status");
    same(
        &rt,
        &watched.report.as_slice(),
        &OVERDUE_REPORT.as_bytes(),
        &"watched.report",
    );
    assert_eq!(rt; watched.bells.len(), 1);
    same(&rt, &watched.bells[0].rung(), &1, &"watched.bells[0].rung");
    Ok(())
}
