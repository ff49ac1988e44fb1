//! Peer 1 restored from a journal whose openings lack their numbers, as journals from before any could be tuned do, and
//! from one that has them.

ghost use Rattle.std.specs.Prelude.{◌≡◌, None, IfOk, IsSome};
ghost use Rattle.lks_base.specs.Checking.{plan_fault};
ghost use Rattle.lks_law.specs.Facts.{IsHeard};
ghost use Rattle.lks_law.specs.World.{honest_peer};

use crate::peer::scene::{CAST, THEIRS, got, plan_of, restored};
use crate::same::same;
use lks_base::{Input, Judged, Limits, PeerStep, Plan, Reaction, Record, Rules};
use lks_blocks::BlockPool;
use lks_peer::Peer;
use std::alloc::Global;
use std::sync::Wait;
use std::test::*;

const RULES: Rules = Rules {
    inner: 3,
    quorum: 3,
    minority: 1,
    outer: 0,
    repairs: 1,
    pace: 0,
    refractory: 0,
    overdue: 100,
    unknown_pct: 100,
    debt_pct: 100,
    churn: 0,
};

/// The word of a record, as reports have it.
fn word_of(item: &Record) -> &'static str {
    match item {
        Record::Deposit { .. } => "deposit",
        Record::PollOpened { .. } => "opened",
        Record::Nominated { .. } => "nominated",
        Record::OuterOpened { .. } => "outer",
        Record::VoteIn { .. } => "vote-in",
        Record::Shut { .. } => "shut",
        Record::Asked { .. } => "asked",
        Record::RepairBad { .. } => "repair-bad",
        Record::Replaced { .. } => "replaced",
        Record::Closed { .. } => "closed",
        Record::Overdue { .. } => "overdue",
        Record::Joined { .. } => "joined",
        Record::Committed { .. } => "committed",
        Record::Voted { .. } => "voted",
        Record::Served { .. } => "served",
        Record::Ended { .. } => "ended",
        Record::Tuned { .. } => "tuned",
    }
}

/// The word of a step, as scripts have it.
fn step_of(step: Option<PeerStep>) -> &'static str {
    match step {
        Some(PeerStep::OpenPoll { .. }) => "open",
        Some(PeerStep::Widen { .. }) => "outer",
        Some(PeerStep::Shut { .. }) => "shut",
        Some(PeerStep::Tally { .. }) => "tally",
        Some(PeerStep::Nudge { .. }) => "nudge",
        Some(PeerStep::GiveUp { .. }) => "give-up",
        Some(PeerStep::Work { .. }) => "work",
        Some(PeerStep::Expire { .. }) => "expire",
        Some(PeerStep::Check { .. }) => "check",
        Some(PeerStep::Tune { .. }) => "tune",
        Some(PeerStep::Deliver { .. }) => "deliver",
        None => "-",
    }
}

/// The words of the first step for which the peer is ready, and of its first turn.
fn coming(peer: &Peer) -> (&'static str, &'static str) {
    (step_of(peer.ready(0)), step_of(peer.turn(0)))
}

/// What the peer does, or what it gets, from whom and with which verdict.
#[derive(Clone, Copy)]
enum Deed {
    Work,
    Shut,
    Got(u16, Judged, &'static [u8]),
}

fn input_of(alloc: Global, deed: Deed) -> Result<Input, Fail>
    ensures { IfOk result IsHeard }
{
    match deed {
        Deed::Work => Ok(Input::Work { poll: THEIRS }),
        Deed::Shut => Ok(Input::Shut { number: 1 }),
        Deed::Got(from, judged, bytes) => got(alloc, from, judged, bytes),
    }
}

/// How many records are added, the word of the last, how many messages are sent, and the words of the first step for
/// which the peer is then ready and of its first turn; `-` for none.
type Told = (usize, &'static str, usize, &'static str, &'static str);

/// The part of it that the reaction says.
fn added(reaction: &Reaction) -> (usize, &'static str, usize) {
    let records = reaction.records.as_slice();
    let word = match records.last() {
        Some(item) => word_of(item),
        None => "-",
    };
    (records.len(), word, reaction.sends.as_slice().len())
}

fn told<R: Wait>(
    alloc: Global,
    rt: &R,
    pool: &BlockPool,
    peer: &mut Peer,
    deed: Deed,
) -> Result<Told, Fail>
    requires { peer.old.pool ≡ pool.now }
    ensures { peer.new.pool ≡ pool.now }
{
    let input = input_of(alloc, deed)?;
    let reaction = peer.step(rt, pool, 1, &input)?;
    let (count, word, sends) = added(&reaction);
    let (ready, turn) = coming(peer);
    Ok((count, word, sends, ready, turn))
}

/// What poller 5 asks for: the first block, and the second one.
const FIRST: &[u8] = b"\x01\x06\0\0\0\x01\0\0";

const SECOND: &[u8] = b"\x01\x06\0\0\0\x01\0\x01";

/// What the peer does, what comes of it under the numbers of the rules (quorum 3 and one block to serve), and what
/// under smaller and larger ones (quorum 1 and two blocks).
const ROWS: [(Deed, Told, Told); 5] = [
    (
        Deed::Got(2, Judged::Accepted, CAST),
        (1, "vote-in", 0, "work", "outer"),
        (1, "vote-in", 0, "work", "outer"),
    ),
    (
        Deed::Work,
        (1, "voted", 1, "-", "outer"),
        (1, "voted", 1, "-", "outer"),
    ),
    (
        Deed::Got(5, Judged::NotAsked, FIRST),
        (1, "served", 1, "-", "outer"),
        (1, "served", 1, "-", "outer"),
    ),
    (
        Deed::Got(5, Judged::NotAsked, SECOND),
        (0, "-", 0, "-", "outer"),
        (1, "served", 1, "-", "outer"),
    ),
    (
        Deed::Shut,
        (2, "closed", 1, "-", "-"),
        (1, "shut", 0, "tally", "-"),
    ),
];

/// The first row of which something else comes.
fn play<R: Wait>(
    alloc: Global,
    rt: &R,
    pool: &BlockPool,
    peer: &mut Peer,
    rules: bool,
) -> Result<Option<usize>, Fail>
    requires { peer.old.pool ≡ pool.now }
{
    for (i, (deed, ours, others)) in ROWS.iter().enumerate() {
        let want = if rules { ours } else { others };
        if told(alloc, rt, pool, peer, *deed)? != *want {
            return Ok(Some(i));
        }
    }
    Ok(None)
}

/// The numbers with which the poll was opened and the other one joined, and whether they are those of the rules.
const JOURNALS: [(Option<Limits>, Option<u16>, bool); 3] = [
    (None, None, true),
    (
        Some(Limits {
            quorum: 3,
            minority: 1,
        }),
        Some(1),
        true,
    ),
    (
        Some(Limits {
            quorum: 1,
            minority: 0,
        }),
        Some(2),
        false,
    ),
];

/// The same for a peer that is restored over a journal with these numbers.
fn play_restored<R: Wait>(
    alloc: Global,
    rt: &R,
    pool: &BlockPool,
    plan: &Plan,
    limits: Option<Limits>,
    repairs: Option<u16>,
    rules: bool,
) -> Result<Option<usize>, Fail>
    requires good { plan_fault plan.now ≡ None }
    requires honest { IsSome (honest_peer 1 plan.now) }
{
    let mut peer = restored(alloc, rt, pool, plan, limits, repairs)?;
    play(alloc, rt, pool, &mut peer, rules)
}

/// The same on a pool of its own.
fn play_alone<R: Wait>(
    alloc: Global,
    rt: &R,
    plan: &Plan,
    limits: Option<Limits>,
    repairs: Option<u16>,
    rules: bool,
) -> Result<Option<usize>, Fail>
    requires good { plan_fault plan.now ≡ None }
    requires honest { IsSome (honest_peer 1 plan.now) }
{
    let pool = BlockPool::new(alloc)?;
    play_restored(alloc, rt, &pool, plan, limits, repairs, rules)
}

#[test]
fn openings_without_numbers(rt: HostRuntime) -> Result<(), Fail> {
    let plan = plan_of(rt.alloc(), RULES, b"\x01")?;
    for (row, (limits, repairs, rules)) in JOURNALS.iter().enumerate() {
        let found = play_alone(rt.alloc(), &rt, &plan, *limits, *repairs, *rules)?;
        same(&rt, &found, &None, &row);
    }
    Ok(())
}
