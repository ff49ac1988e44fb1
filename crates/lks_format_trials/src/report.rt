//! Whole reports, byte for byte, and the lines of drills.

use crate::pieces::{RULES, TITLE, joined, script_in};
use crate::report::What::{Crash, Cut, Forge, Lose, Step, Tick};
use crate::same::same;
use lks_base::Judged::{Accepted, NotAsked, Refused};
use lks_base::{Bytes, Entry, Event, Note, Outcome, PeerStep, PollName, Seq};
use lks_outside::{MemSink, WriteStop};
use lks_report::{has_alarm, report, summary};
use std::alloc::{AllocError, Global};
use std::test::*;

const AGREED: &str = "lockss report 1
1 open 1 1 | opened 1 1 | 3
2 forge 2 1 74 | - | 1
3 forge 3 1 74 | - | 1
4 forge 4 1 74 | - | 1
5 deliver 0 1 2 | - | 0
6 deliver 1 1 3 | - | 0
7 deliver 2 1 4 | - | 0
8 deliver 3 2 1 accepted | vote-in 1 2 | 0
9 deliver 4 3 1 accepted | vote-in 1 3 | 0
10 deliver 5 4 1 accepted | vote-in 1 4 | 0
11 shut 1 1 | shut 1 | 0
12 tally 1 1 | closed 1 agreed | 3
13 deliver 6 1 2 | - | 0
14 deliver 7 1 3 | - | 0
15 deliver 8 1 4 | - | 0
copy 1 1 0
poll 1 1 1 3 0 agreed
end 15
";

const EACH_WORD: &str = "lockss report 1
1 open 1 7 | opened 1 7 | 3
2 open 1 9 | opened 2 9 | 0
3 tick 4294967295 | - | 0
4 tick 1 | - | 0
5 deliver 12 3 1 accepted | nominated 1 3 | 0
6 outer 1 1 | outer 1 2 | 2
7 deliver 0 2 1 | vote-in 1 3, vote-in 1 4, vote-in 1 5 | 0
8 shut 1 1 | shut 1 | 0
9 tally 1 1 | asked 1 5 3 | 1
10 nudge 1 1 | - | 1
11 give-up 1 1 | repair-bad 1 5 3 | 0
12 cut kept deliver 4294967295 3 1 refused | replaced 1 7 5 16384 | 0
13 cut lost tally 1 1 | - | 0
14 tally 1 1 | closed 1 split-511 | 2
15 tally 1 2 | closed 2 no-supplier-0, closed 2 agreed | 0
16 check 3 | overdue 7 | 0
17 tune 3 5 2 512 | tuned 5 2 512 | 0
18 open 3 7 | opened 1 7 | 1
19 shut 3 1 | shut 1, closed 1 inquorate | 0
20 deliver 1 2 3 | joined 2 65536 7 low | 1
21 deliver 2 2 3 | joined 2 65537 9 high | 1
22 deliver 3 2 3 accepted | committed 2 65536 3 | 1
23 work 3 2 65536 | voted 2 65536 | 1
24 deliver 4 2 3 | served 2 65536 511 | 1
25 expire 3 2 65536 | ended 2 65536 | 0
26 lose 7 | - | 0
27 forge 2 1 0 | - | 1
28 crash 3 | - | 0
29 open 3 7 | opened 2 7 | 0
copy 1 7 1
copy 1 9 0
copy 3 7 0
poll 1 1 7 2 1 split-511
poll 1 2 9 0 0 no-supplier-0
poll 3 1 7 0 0 inquorate
poll 3 2 7 0 0 running
alarm 1 4294967296 split 1 511
alarm 1 4294967296 no-supplier 2 0
alarm 3 4294967296 overdue 7
end 29
";

/// An event, where what is forged is so many bytes for peer 1.
enum What {
    Step(PeerStep),
    Cut(PeerStep, bool),
    Tick(u32),
    Lose(u32),
    Forge(u16, usize),
    Crash(u16),
}

/// An event, its envelope's peers, its notes, and how many envelopes it sent.
type Row = (What, u16, u16, &'static [Note], u32);

const AGREED_ROWS: [Row; 15] = [
    (
        Step(PeerStep::OpenPoll { peer: 1, au: 1 }),
        0,
        0,
        &[Note::Opened { number: 1, au: 1 }],
        3,
    ),
    (Forge(2, 74), 0, 0, &[], 1),
    (Forge(3, 74), 0, 0, &[], 1),
    (Forge(4, 74), 0, 0, &[], 1),
    (
        Step(PeerStep::Deliver {
            envelope: 0,
            judged: NotAsked,
        }),
        1,
        2,
        &[],
        0,
    ),
    (
        Step(PeerStep::Deliver {
            envelope: 1,
            judged: NotAsked,
        }),
        1,
        3,
        &[],
        0,
    ),
    (
        Step(PeerStep::Deliver {
            envelope: 2,
            judged: NotAsked,
        }),
        1,
        4,
        &[],
        0,
    ),
    (
        Step(PeerStep::Deliver {
            envelope: 3,
            judged: Accepted,
        }),
        2,
        1,
        &[Note::VoteIn {
            number: 1,
            voter: 2,
            inner: true,
        }],
        0,
    ),
    (
        Step(PeerStep::Deliver {
            envelope: 4,
            judged: Accepted,
        }),
        3,
        1,
        &[Note::VoteIn {
            number: 1,
            voter: 3,
            inner: true,
        }],
        0,
    ),
    (
        Step(PeerStep::Deliver {
            envelope: 5,
            judged: Accepted,
        }),
        4,
        1,
        &[Note::VoteIn {
            number: 1,
            voter: 4,
            inner: true,
        }],
        0,
    ),
    (
        Step(PeerStep::Shut { peer: 1, number: 1 }),
        0,
        0,
        &[Note::Shut { number: 1 }],
        0,
    ),
    (
        Step(PeerStep::Tally { peer: 1, number: 1 }),
        0,
        0,
        &[Note::Closed {
            number: 1,
            outcome: Outcome::Agreed,
        }],
        3,
    ),
    (
        Step(PeerStep::Deliver {
            envelope: 6,
            judged: NotAsked,
        }),
        1,
        2,
        &[],
        0,
    ),
    (
        Step(PeerStep::Deliver {
            envelope: 7,
            judged: NotAsked,
        }),
        1,
        3,
        &[],
        0,
    ),
    (
        Step(PeerStep::Deliver {
            envelope: 8,
            judged: NotAsked,
        }),
        1,
        4,
        &[],
        0,
    ),
];

const POLL: PollName = PollName {
    poller: 2,
    number: 65_536,
};

const NEXT: PollName = PollName {
    poller: 2,
    number: 65_537,
};

const EACH_ROWS: [Row; 29] = [
    (
        Step(PeerStep::OpenPoll { peer: 1, au: 7 }),
        0,
        0,
        &[Note::Opened { number: 1, au: 7 }],
        3,
    ),
    (
        Step(PeerStep::OpenPoll { peer: 1, au: 9 }),
        0,
        0,
        &[Note::Opened { number: 2, au: 9 }],
        0,
    ),
    (Tick(4_294_967_295), 0, 0, &[], 0),
    (Tick(1), 0, 0, &[], 0),
    (
        Step(PeerStep::Deliver {
            envelope: 12,
            judged: Accepted,
        }),
        3,
        1,
        &[Note::Nominated {
            number: 1,
            voter: 3,
        }],
        0,
    ),
    (
        Step(PeerStep::Widen { peer: 1, number: 1 }),
        0,
        0,
        &[Note::Outer {
            number: 1,
            count: 2,
        }],
        2,
    ),
    (
        Step(PeerStep::Deliver {
            envelope: 0,
            judged: NotAsked,
        }),
        2,
        1,
        &[
            Note::VoteIn {
                number: 1,
                voter: 3,
                inner: true,
            },
            Note::VoteIn {
                number: 1,
                voter: 4,
                inner: true,
            },
            Note::VoteIn {
                number: 1,
                voter: 5,
                inner: false,
            },
        ],
        0,
    ),
    (
        Step(PeerStep::Shut { peer: 1, number: 1 }),
        0,
        0,
        &[Note::Shut { number: 1 }],
        0,
    ),
    (
        Step(PeerStep::Tally { peer: 1, number: 1 }),
        0,
        0,
        &[Note::Asked {
            number: 1,
            block: 5,
            voter: 3,
        }],
        1,
    ),
    (Step(PeerStep::Nudge { peer: 1, number: 1 }), 0, 0, &[], 1),
    (
        Step(PeerStep::GiveUp { peer: 1, number: 1 }),
        0,
        0,
        &[Note::RepairBad {
            number: 1,
            block: 5,
            voter: 3,
        }],
        0,
    ),
    (
        Cut(
            PeerStep::Deliver {
                envelope: 4_294_967_295,
                judged: Refused,
            },
            true,
        ),
        3,
        1,
        &[Note::Replaced {
            number: 1,
            au: 7,
            block: 5,
            length: 16_384,
        }],
        0,
    ),
    (
        Cut(PeerStep::Tally { peer: 1, number: 1 }, false),
        0,
        0,
        &[],
        0,
    ),
    (
        Step(PeerStep::Tally { peer: 1, number: 1 }),
        0,
        0,
        &[Note::Closed {
            number: 1,
            outcome: Outcome::Split { block: 511 },
        }],
        2,
    ),
    (
        Step(PeerStep::Tally { peer: 1, number: 2 }),
        0,
        0,
        &[
            Note::Closed {
                number: 2,
                outcome: Outcome::NoSupplier { block: 0 },
            },
            Note::Closed {
                number: 2,
                outcome: Outcome::Agreed,
            },
        ],
        0,
    ),
    (
        Step(PeerStep::Check { peer: 3 }),
        0,
        0,
        &[Note::Overdue { au: 7 }],
        0,
    ),
    (
        Step(PeerStep::Tune {
            peer: 3,
            quorum: 5,
            minority: 2,
            repairs: 512,
        }),
        0,
        0,
        &[Note::Tuned {
            quorum: 5,
            minority: 2,
            repairs: 512,
        }],
        0,
    ),
    (
        Step(PeerStep::OpenPoll { peer: 3, au: 7 }),
        0,
        0,
        &[Note::Opened { number: 1, au: 7 }],
        1,
    ),
    (
        Step(PeerStep::Shut { peer: 3, number: 1 }),
        0,
        0,
        &[
            Note::Shut { number: 1 },
            Note::Closed {
                number: 1,
                outcome: Outcome::Inquorate,
            },
        ],
        0,
    ),
    (
        Step(PeerStep::Deliver {
            envelope: 1,
            judged: NotAsked,
        }),
        2,
        3,
        &[Note::Joined {
            poll: POLL,
            au: 7,
            low: true,
        }],
        1,
    ),
    (
        Step(PeerStep::Deliver {
            envelope: 2,
            judged: NotAsked,
        }),
        2,
        3,
        &[Note::Joined {
            poll: NEXT,
            au: 9,
            low: false,
        }],
        1,
    ),
    (
        Step(PeerStep::Deliver {
            envelope: 3,
            judged: Accepted,
        }),
        2,
        3,
        &[Note::Committed {
            poll: POLL,
            version: 3,
        }],
        1,
    ),
    (
        Step(PeerStep::Work {
            peer: 3,
            poll: POLL,
        }),
        0,
        0,
        &[Note::Voted { poll: POLL }],
        1,
    ),
    (
        Step(PeerStep::Deliver {
            envelope: 4,
            judged: NotAsked,
        }),
        2,
        3,
        &[Note::Served {
            poll: POLL,
            block: 511,
        }],
        1,
    ),
    (
        Step(PeerStep::Expire {
            peer: 3,
            poll: POLL,
        }),
        0,
        0,
        &[Note::Ended { poll: POLL }],
        0,
    ),
    (Lose(7), 0, 0, &[], 0),
    (Forge(2, 0), 0, 0, &[], 1),
    (Crash(3), 0, 0, &[], 0),
    (
        Step(PeerStep::OpenPoll { peer: 3, au: 7 }),
        0,
        0,
        &[Note::Opened { number: 2, au: 7 }],
        0,
    ),
];

const REPLACED: Note = Note::Replaced {
    number: 1,
    au: 1,
    block: 5,
    length: 512,
};

const DRILL_ROWS: [Row; 7] = [
    (
        Step(PeerStep::OpenPoll { peer: 1, au: 1 }),
        0,
        0,
        &[Note::Opened { number: 1, au: 1 }],
        8,
    ),
    (
        Step(PeerStep::OpenPoll { peer: 1, au: 2 }),
        0,
        0,
        &[Note::Opened { number: 2, au: 2 }],
        8,
    ),
    (
        Step(PeerStep::OpenPoll { peer: 2, au: 1 }),
        0,
        0,
        &[Note::Opened { number: 1, au: 1 }],
        8,
    ),
    (
        Step(PeerStep::OpenPoll { peer: 2, au: 2 }),
        0,
        0,
        &[Note::Opened { number: 2, au: 2 }],
        8,
    ),
    (
        Step(PeerStep::Tally { peer: 1, number: 1 }),
        0,
        0,
        &[
            REPLACED,
            REPLACED,
            REPLACED,
            Note::Closed {
                number: 1,
                outcome: Outcome::Agreed,
            },
        ],
        8,
    ),
    (
        Step(PeerStep::Tally { peer: 1, number: 2 }),
        0,
        0,
        &[Note::Closed {
            number: 2,
            outcome: Outcome::Agreed,
        }],
        8,
    ),
    (
        Step(PeerStep::Tally { peer: 2, number: 1 }),
        0,
        0,
        &[Note::Closed {
            number: 1,
            outcome: Outcome::Split { block: 3 },
        }],
        8,
    ),
];

/// Seeds and histories of drills, and their lines.
const DRILLS: [(u64, &[Row], &str); 3] = [
    (
        7,
        &[],
        "drill 7 events 0 polls 0 agreed 0 replaced 0 alarms 0\n",
    ),
    (
        0,
        &DRILL_ROWS,
        "drill 0 events 7 polls 4 agreed 2 replaced 3 alarms 1\n",
    ),
    (
        u64::MAX,
        &EACH_ROWS,
        "drill 18446744073709551615 events 29 polls 4 agreed 1 replaced 1 alarms 3\n",
    ),
];

const AGREED_PLAN: &str = "\
au 1 2
peer 1 honest 01 -
peer 2 corrupt 02 -
peer 3 corrupt 03 -
peer 4 corrupt 04 -
copy 1 1 -,-
";

const EACH_PLAN: &str = "\
au 7 2
au 9 2
peer 1 honest 01 -
peer 2 corrupt 02 -
peer 3 honest 03 -
copy 1 9 -,-
copy 1 7 -,-
copy 3 7 -,-
";

fn event(alloc: Global, what: &What) -> Result<Event, AllocError> {
    Ok(match what {
        Step(step) => Event::Step(*step),
        Cut(step, kept) => Event::Cut {
            step: *step,
            kept: *kept,
        },
        Tick(by) => Event::Tick { by: *by },
        Lose(envelope) => Event::Lose {
            envelope: *envelope,
        },
        Forge(from, length) => Event::Forge {
            from: *from,
            to: 1,
            bytes: Bytes::from_vec(vec![in alloc; 0u8; *length]?),
        },
        Crash(peer) => Event::Crash { peer: *peer },
    })
}

fn entries(alloc: Global, rows: &[Row]) -> Result<Vec<Entry>, AllocError> {
    let mut history = Vec::new(alloc);
    for (what, from, to, notes, sends) in rows {
        let event = event(alloc, what)?;
        let notes = Seq::from_vec(Vec::from_slice(alloc, notes)?);
        history.push(Entry {
            event,
            from: *from,
            to: *to,
            notes,
            sends: *sends,
        })?;
    }
    Ok(history)
}

/// The report of a history on a plan with these AUs, peers and copies.
fn report_of(alloc: Global, lines: &str, rows: &[Row]) -> Result<MemSink, Fail> {
    let script = script_in(alloc, &joined(alloc, &[TITLE, RULES, lines])?)?;
    let history = entries(alloc, rows)?;
    let mut sink = MemSink::new(alloc, Vec::new(alloc));
    match report(alloc, &script.plan, &history, &mut sink) {
        Ok(()) => Ok(sink),
        Err(_) => Err("the sink takes each piece".into()),
    }
}

#[test]
fn whole_reports(rt: HostRuntime) -> Result<(), Fail> {
    let agreed = report_of(rt.alloc(), AGREED_PLAN, &AGREED_ROWS)?;
    same(&rt, &agreed.bytes(), &AGREED.as_bytes(), &"agreed.bytes");
    let each = report_of(rt.alloc(), EACH_PLAN, &EACH_ROWS)?;
    same(&rt, &each.bytes(), &EACH_WORD.as_bytes(), &"each.bytes");
    Ok(())
}

#[test]
fn histories_with_an_alarm(rt: HostRuntime) -> Result<(), Fail> {
    assert!(rt; !has_alarm(&entries(rt.alloc(), &AGREED_ROWS)?));
    assert!(rt; has_alarm(&entries(rt.alloc(), &EACH_ROWS)?));
    Ok(())
}

#[test]
fn a_failing_sink(rt: HostRuntime) -> Result<(), Fail> {
    let alloc = rt.alloc();
    let script = script_in(alloc, &joined(alloc, &[TITLE, RULES, AGREED_PLAN])?)?;
    let history = entries(alloc, &AGREED_ROWS)?;
    for (call, taken) in [(1, 0), (2, 10), (3, 20)] {
        let mut sink = MemSink::narrow(alloc, vec![in alloc; call]?, 10);
        let answer = report(alloc, &script.plan, &history, &mut sink);
        same(&rt, &answer, &Err(WriteStop::Failed), &"answer");
        same(&rt, &sink.bytes().len(), &taken, &"sink.bytes.len");
        assert!(rt; AGREED.as_bytes().starts_with(sink.bytes()));
    }
    Ok(())
}

/// The line of a drill of this seed and history.
fn line_of(alloc: Global, seed: u64, rows: &[Row]) -> Result<MemSink, Fail> {
    let history = entries(alloc, rows)?;
    let mut sink = MemSink::new(alloc, Vec::new(alloc));
    match summary(alloc, seed, &history, &mut sink) {
        Ok(()) => Ok(sink),
        Err(_) => Err("the sink takes each piece".into()),
    }
}

#[test]
fn the_line_of_a_drill(rt: HostRuntime) -> Result<(), Fail> {
    for (seed, rows, line) in &DRILLS {
        let sink = line_of(rt.alloc(), *seed, rows)?;
        same(&rt, &sink.bytes(), &line.as_bytes(), &"sink.bytes");
    }
    Ok(())
}
