//! A peer with the blocks `41` and `42` of AU 1, through the polls of others.

ghost use Rattle.std.specs.Prelude.{◌≡◌, ◌≤◌, IfOk, OnOk, length};
ghost use Rattle.lks_base.specs.declared.limits.TheConstants as limits;
ghost use Rattle.lks_blocks.specs.Block.{AllOf, bytes_of};
ghost use Rattle.lks_sessions.specs.Kept.{voter_of, IsOf};
ghost use Rattle.lks_run_trials.specs.Pair.{pair};
ghost use Rattle.lks_sessions.specs.Sendable.{IsSendable};
ghost use Rattle.lks_versions.specs.Each.{EachOf};
ghost use Rattle.lks_versions.specs.Shelf.{newest_of};

use crate::same::same;
use lks_audit::{Held, Station};
use lks_base::{
    Bytes, HashKind, Judged, MOST_BLOCKS, OutOfMemory, PeerId, PeerStep, PollName, Reaction,
    Record, Rules, Seq,
};
use lks_blocks::{BlockPool, Refs};
use lks_sessions::{Proof, Sessions, answer_invitation, answer_proof, answer_request, end, work};
use lks_versions::Versions;
use std::alloc::Global;
use std::sync::Wait;
use std::test::Fail;

const RULES: Rules = Rules {
    inner: 4,
    quorum: 3,
    minority: 1,
    outer: 0,
    repairs: 2,
    pace: 0,
    refractory: 10,
    overdue: 100,
    unknown_pct: 100,
    debt_pct: 100,
    churn: 0,
};

const NONCE: &[u8; 32] =
    b"\x0d\x00\xe5\xe6\xa8\xa8\x16\xce\x10\x26\x5b\xd3\x71\xe0\x54\x0c\xe6\x12\x67\xae\xae\x9a\x83\x5e\x35\xde\x02\x48\x49\x3c\x5d\x44";

/// What a peer does or receives in a poll.
#[derive(Clone, Copy)]
enum Step {
    Invite { tick: u32 },
    Prove { judged: Judged },
    Work,
    Request { block: u16 },
    End,
    Receive { from: PeerId },
}

/// What it adds.
#[derive(Clone, Copy, PartialEq, Eq)]
enum Told {
    Nothing,
    Low,
    Joined,
    Committed,
    Voted,
    Served,
    Ended,
    OfItsOwn,
}

/// What a peer does in a poll, and what it adds and sends then: the number of messages, and the last byte of the last,
/// or 0.
#[derive(Clone, Copy)]
struct Row {
    poll: PollName,
    step: Step,
    told: Told,
    sends: usize,
    last: u8,
}

fn station(alloc: Global, id: PeerId) -> Result<Station, OutOfMemory>
    ensures { IfOk result (λ own. length own.proof ≤ limits.MOST_PROOF_BYTES) }
{
    Ok(Station {
        rules: RULES,
        aus: Seq::from_vec(Vec::new(alloc)),
        id,
        seed: [1; 32],
        proof: Seq::from_vec(b"\x01".to_vec(alloc)?),
        refs: Seq::from_vec(Vec::new(alloc)),
        friends: Seq::from_vec(Vec::new(alloc)),
        hash: HashKind::Sha256,
    })
}

fn deposited<R: Wait>(alloc: Global, rt: &R, pool: &BlockPool) -> Result<Versions, Fail>
    ensures of { IfOk result (λ v. EachOf pool.now v.lists) }
    ensures bytes { IfOk result (λ v. bytes_of (newest_of v) ≡ pair) }
{
    let first = Bytes::from_vec(b"A".to_vec(alloc)?);
    let second = Bytes::from_vec(b"B".to_vec(alloc)?);
    let blocks = vec![in alloc; first, second]?;
    Ok(Versions::put(alloc, rt, pool, blocks.as_slice())?)
}

#[tactic(auto, using(lks_versions::specs::Each::each_at, lks_versions::specs::Shelf::kept_newest))]
fn refs_of(pool: &BlockPool, versions: &Versions) -> Result<Refs, Fail>
    requires of { EachOf pool.now versions.now.lists }
    requires bytes { bytes_of (newest_of versions.now) ≡ pair }
    ensures of { IfOk result (λ refs. AllOf pool.now refs) }
    ensures bytes { IfOk result (λ refs. bytes_of refs ≡ pair) }
{
    Ok(Refs::from_vec(versions.refs(versions.current())?))
}

fn react(
    alloc: Global,
    pool: &BlockPool,
    own: &Station,
    copies: &[Held],
    sessions: &Sessions,
    poll: PollName,
    step: Step,
) -> Result<Reaction, Fail>
    requires proof { length own.now.proof ≤ limits.MOST_PROOF_BYTES }
    requires of { IsOf pool.now sessions.now }
    requires sendable { IsSendable (voter_of sessions.now) }
{
    let reaction = match step {
        Step::Invite { tick } => {
            answer_invitation(alloc, own, sessions, copies, 1, tick, poll, 1)?
        }
        Step::Prove { judged } => {
            let proof = Proof {
                poll,
                nonce: NONCE,
                kind: HashKind::Sha256,
                judged,
            };
            answer_proof(alloc, own, sessions, copies, &[2, 3, 4], &proof)?
        }
        Step::Work => work(alloc, pool, own, sessions, poll)?,
        Step::Request { block } => answer_request(alloc, pool, sessions, poll, block)?,
        Step::End => end(alloc, sessions, poll)?,
        Step::Receive { from: _ } => lks_audit::reactions::no_reaction(alloc),
    };
    Ok(reaction)
}

/// Notes a record, and answers what it is.
#[tactic(auto, unfolding(lks_sessions::specs::Kept::StaysSendable), using(crate::proofs::Pairs::pair_pins))]
fn note(
    alloc: Global,
    pool: &BlockPool,
    refs: &Refs,
    sessions: &mut Sessions,
    item: Record,
) -> Result<Told, Fail>
    requires refs { AllOf pool.now refs.now }
    requires bytes { bytes_of refs.now ≡ pair }
    requires of { IsOf pool.now sessions.old }
    requires sendable { IsSendable (voter_of sessions.old) }
    ensures of { OnOk result (IsOf pool.now sessions.new) }
    ensures sendable { OnOk result (IsSendable (voter_of sessions.new)) }
{
    match item {
        Record::Joined {
            poll,
            au,
            tick,
            low,
            repairs,
        } => {
            sessions.join(&RULES, poll, au, tick, low, repairs)?;
            Ok(if low { Told::Low } else { Told::Joined })
        }
        Record::Committed {
            poll,
            nonce,
            version,
            kind,
        } => {
            sessions.commit(poll, nonce, version, kind, refs.clone()?)?;
            Ok(Told::Committed)
        }
        Record::Voted { poll, hashes } => {
            if !sessions.has_marks_left() || hashes.as_slice().len() > MOST_BLOCKS as usize {
                return Err(Fail::from(OutOfMemory));
            }
            sessions.cast(alloc, poll, hashes)?;
            Ok(Told::Voted)
        }
        Record::Served { poll, block } => {
            if !sessions.may_serve(poll, block) {
                return Err(Fail::from(OutOfMemory));
            }
            sessions.serve(poll, block)?;
            Ok(Told::Served)
        }
        Record::Ended { poll } => {
            sessions.end(poll)?;
            Ok(Told::Ended)
        }
        Record::Deposit { .. }
        | Record::PollOpened { .. }
        | Record::Nominated { .. }
        | Record::OuterOpened { .. }
        | Record::VoteIn { .. }
        | Record::Shut { .. }
        | Record::Asked { .. }
        | Record::RepairBad { .. }
        | Record::Replaced { .. }
        | Record::Closed { .. }
        | Record::Overdue { .. }
        | Record::Tuned { .. } => Ok(Told::OfItsOwn),
    }
}

/// What a step adds and how many messages it sends, and the last byte of the last of these, or 0.
#[tactic(auto, unfolding(lks_sessions::specs::Kept::StaysSendable))]
fn take(
    alloc: Global,
    pool: &BlockPool,
    own: &Station,
    copies: &[Held],
    refs: &Refs,
    sessions: &mut Sessions,
    poll: PollName,
    step: Step,
) -> Result<(Told, usize, u8), Fail>
    requires proof { length own.now.proof ≤ limits.MOST_PROOF_BYTES }
    requires refs { AllOf pool.now refs.now }
    requires bytes { bytes_of refs.now ≡ pair }
    requires of { IsOf pool.now sessions.old }
    requires sendable { IsSendable (voter_of sessions.old) }
    ensures of { OnOk result (IsOf pool.now sessions.new) }
    ensures sendable { OnOk result (IsSendable (voter_of sessions.new)) }
{
    if let Step::Receive { from } = step {
        if !sessions.has_marks_left() {
            return Err(Fail::from(OutOfMemory));
        }
        sessions.receive(from)?;
        return Ok((Told::Nothing, 0, 0));
    }
    let reaction = react(alloc, pool, own, copies, sessions, poll, step)?;
    let (sends, last) = ends_with(&reaction);
    let told = match reaction.records.into_vec().pop() {
        Some(item) => note(alloc, pool, refs, sessions, item)?,
        None => Told::Nothing,
    };
    Ok((told, sends, last))
}

fn ends_with(reaction: &Reaction) -> (usize, u8) {
    let sends = reaction.sends.as_slice();
    let last = match sends.last() {
        Some(outgoing) => outgoing.bytes.as_slice().last().copied().unwrap_or(0),
        None => 0,
    };
    (sends.len(), last)
}

fn is_same(told: (Told, usize, u8), row: &Row) -> bool {
    told.0 == row.told && told.1 == row.sends && told.2 == row.last
}

/// The place of the first row that doesn't come as it says.
fn play_rows(
    alloc: Global,
    pool: &BlockPool,
    own: &Station,
    copies: &[Held],
    refs: &Refs,
    rows: &[Row],
) -> Result<Option<usize>, Fail>
    requires proof { length own.now.proof ≤ limits.MOST_PROOF_BYTES }
    requires refs { AllOf pool.now refs.now }
    requires bytes { bytes_of refs.now ≡ pair }
{
    let mut sessions = Sessions::new(alloc);
    for (i, row) in rows.iter().enumerate() {
        let told = take(
            alloc,
            pool,
            own,
            copies,
            refs,
            &mut sessions,
            row.poll,
            row.step,
        )?;
        if !is_same(told, row) {
            return Ok(Some(i));
        }
    }
    Ok(None)
}

fn play<R: Wait>(
    alloc: Global,
    rt: &R,
    pool: &BlockPool,
    rows: &[Row],
) -> Result<Option<usize>, Fail> {
    let versions = deposited(alloc, rt, pool)?;
    let refs = refs_of(pool, &versions)?;
    let own = station(alloc, 1)?;
    let held = Held {
        au: 1,
        versions,
        opened: None,
        agreed: 0,
        noted: false,
    };
    play_rows(alloc, pool, &own, &[held], &refs, rows)
}

const SECOND: PollName = PollName {
    poller: 2,
    number: 1,
};

const THIRD: PollName = PollName {
    poller: 3,
    number: 1,
};

const FOURTH: PollName = PollName {
    poller: 4,
    number: 1,
};

const NEXT: PollName = PollName {
    poller: 2,
    number: 2,
};

const ACCEPTED: Step = Step::Prove {
    judged: Judged::Accepted,
};

const REFUSED: Step = Step::Prove {
    judged: Judged::Refused,
};

const ROWS: &[Row] = &[
    // An unknown poller is let in, and the next one ten ticks later.
    Row {
        poll: SECOND,
        step: Step::Invite { tick: 0 },
        told: Told::Low,
        sends: 1,
        last: 1,
    },
    Row {
        poll: THIRD,
        step: Step::Invite { tick: 9 },
        told: Told::Nothing,
        sends: 1,
        last: 0,
    },
    Row {
        poll: FOURTH,
        step: Step::Invite { tick: 10 },
        told: Told::Low,
        sends: 1,
        last: 1,
    },
    Row {
        poll: SECOND,
        step: Step::Invite { tick: 10 },
        told: Told::Nothing,
        sends: 1,
        last: 1,
    },
    // A refused proof ends a session, which stays over.
    Row {
        poll: FOURTH,
        step: REFUSED,
        told: Told::Ended,
        sends: 0,
        last: 0,
    },
    Row {
        poll: FOURTH,
        step: Step::Invite { tick: 30 },
        told: Told::Nothing,
        sends: 1,
        last: 0,
    },
    // The session commits, once, and votes, once.
    Row {
        poll: SECOND,
        step: Step::Work,
        told: Told::Nothing,
        sends: 0,
        last: 0,
    },
    Row {
        poll: SECOND,
        step: ACCEPTED,
        told: Told::Committed,
        sends: 1,
        last: 4,
    },
    Row {
        poll: SECOND,
        step: ACCEPTED,
        told: Told::Nothing,
        sends: 1,
        last: 4,
    },
    Row {
        poll: SECOND,
        step: Step::Request { block: 0 },
        told: Told::Nothing,
        sends: 0,
        last: 0,
    },
    Row {
        poll: SECOND,
        step: Step::Work,
        told: Told::Voted,
        sends: 1,
        last: 1,
    },
    Row {
        poll: SECOND,
        step: Step::Work,
        told: Told::Nothing,
        sends: 0,
        last: 0,
    },
    Row {
        poll: SECOND,
        step: REFUSED,
        told: Told::Nothing,
        sends: 2,
        last: 1,
    },
    // It gives one block, and that one again.
    Row {
        poll: SECOND,
        step: Step::Request { block: 2 },
        told: Told::Nothing,
        sends: 0,
        last: 0,
    },
    Row {
        poll: SECOND,
        step: Step::Request { block: 0 },
        told: Told::Served,
        sends: 1,
        last: 65,
    },
    Row {
        poll: SECOND,
        step: Step::Request { block: 1 },
        told: Told::Nothing,
        sends: 0,
        last: 0,
    },
    Row {
        poll: SECOND,
        step: Step::Request { block: 0 },
        told: Told::Nothing,
        sends: 1,
        last: 65,
    },
    Row {
        poll: SECOND,
        step: Step::End,
        told: Told::Ended,
        sends: 0,
        last: 0,
    },
    Row {
        poll: SECOND,
        step: Step::End,
        told: Told::Nothing,
        sends: 0,
        last: 0,
    },
    Row {
        poll: SECOND,
        step: Step::Invite { tick: 30 },
        told: Told::Nothing,
        sends: 1,
        last: 0,
    },
    // Its poller owes a vote, until it gives one.
    Row {
        poll: NEXT,
        step: Step::Invite { tick: 19 },
        told: Told::Nothing,
        sends: 1,
        last: 0,
    },
    Row {
        poll: NEXT,
        step: Step::Receive { from: 2 },
        told: Told::Nothing,
        sends: 0,
        last: 0,
    },
    Row {
        poll: NEXT,
        step: Step::Invite { tick: 19 },
        told: Told::Joined,
        sends: 1,
        last: 1,
    },
];

#[test]
fn polls_of_others(rt: HostRuntime) -> Result<(), Fail> {
    let pool = BlockPool::new(rt.alloc())?;
    same(&rt, &play(rt.alloc(), &rt, &pool, ROWS)?, &None, &"rows");
    Ok(())
}

/// Whether the session of this poll is committed alone, and ready for its vote.
fn is_ready(sessions: &Sessions, poll: PollName) -> bool {
    let ready =
        matches!(sessions.ready(2, 0), Some(PeerStep::Work { peer: 2, poll: of }) if of == poll);
    ready
        && sessions.ready(2, 1).is_none()
        && sessions.pinned_count() == 1
        && sessions.is_open(poll)
        && sessions.au_of(poll).is_none()
}

fn has_hashes(item: &Record, want: &[[u8; 32]]) -> bool {
    matches!(item, Record::Voted { poll: _, hashes } if hashes.as_slice() == want)
}

/// Whether a vote and nothing else is added, with these hashes.
fn is_vote(reaction: &Reaction, want: &[[u8; 32]]) -> bool {
    let records = reaction.records.as_slice();
    records.len() == 1 && has_hashes(&records[0], want)
}

/// A session that is committed to the two blocks.
fn committed(
    alloc: Global,
    pool: &BlockPool,
    refs: &Refs,
    poll: PollName,
    kind: HashKind,
) -> Result<Sessions, Fail>
    requires refs { AllOf pool.now refs.now }
    requires bytes { bytes_of refs.now ≡ pair }
    ensures of { IfOk result (λ sessions. IsOf pool.now sessions) }
    ensures sendable { IfOk result (λ sessions. IsSendable (voter_of sessions)) }
{
    let mut sessions = Sessions::new(alloc);
    let joined = Record::Joined {
        poll,
        au: 1,
        tick: 0,
        low: true,
        repairs: None,
    };
    note(alloc, pool, refs, &mut sessions, joined)?;
    let committed = Record::Committed {
        poll,
        nonce: *NONCE,
        version: 0,
        kind,
    };
    note(alloc, pool, refs, &mut sessions, committed)?;
    Ok(sessions)
}

/// Whether the session of this poll, and no other, is ready, and votes so.
fn has_vote(
    alloc: Global,
    pool: &BlockPool,
    own: &Station,
    sessions: &Sessions,
    poll: PollName,
    want: &[[u8; 32]],
) -> Result<bool, Fail>
    requires proof { length own.now.proof ≤ limits.MOST_PROOF_BYTES }
    requires of { IsOf pool.now sessions.now }
    requires sendable { IsSendable (voter_of sessions.now) }
{
    let reaction = work(alloc, pool, own, sessions, poll)?;
    Ok(is_ready(sessions, poll) && is_vote(&reaction, want))
}

/// Whether peer 2 votes so in this poll over these blocks.
fn votes_over(
    alloc: Global,
    pool: &BlockPool,
    refs: &Refs,
    poll: PollName,
    kind: HashKind,
    want: &[[u8; 32]],
) -> Result<bool, Fail>
    requires refs { AllOf pool.now refs.now }
    requires bytes { bytes_of refs.now ≡ pair }
{
    let own = station(alloc, 2)?;
    let sessions = committed(alloc, pool, refs, poll, kind)?;
    has_vote(alloc, pool, &own, &sessions, poll, want)
}

/// Whether it does over the two blocks.
fn votes<R: Wait>(
    alloc: Global,
    rt: &R,
    pool: &BlockPool,
    poll: PollName,
    kind: HashKind,
    want: &[[u8; 32]],
) -> Result<bool, Fail> {
    let versions = deposited(alloc, rt, pool)?;
    let refs = refs_of(pool, &versions)?;
    votes_over(alloc, pool, &refs, poll, kind, want)
}

const FIRST: PollName = PollName {
    poller: 1,
    number: 1,
};

/// Hashes that another implementation of FIPS 180-4 computed.
const PUBLISHED: [(HashKind, [[u8; 32]; 2]); 2] = [
    (
        HashKind::Sha256,
        [
            *b"\xb2\x5b\xcb\x74\x73\x3d\x96\x81\x81\x48\x94\x3c\x6c\x09\x77\xad\xd8\x53\x31\x1a\x4d\x9c\xfe\x27\x80\xfa\x25\xb2\x06\x91\x36\x04",
            *b"\x1c\xc0\x9c\x4e\x0a\x7e\xaf\x35\x6b\xc7\x82\x44\x6c\x15\xc9\xca\x4a\x24\x0a\x4b\x7b\x46\x03\x74\xbd\x05\xc9\x74\x4e\x4c\x24\xa7",
        ],
    ),
    (
        HashKind::Sha512_256,
        [
            *b"\xfd\x58\x26\xcd\x71\x04\x22\x7a\xec\xff\x33\xcc\x6f\xb2\xad\x18\x14\xf3\x14\x15\xfc\x9f\x73\x8b\x17\xd3\x51\x67\x86\x12\x23\x1e",
            *b"\x87\x4a\xb5\xcf\x6f\x41\xe1\xad\x2e\xed\x1d\x66\x80\x56\x2e\x76\xa0\x0b\x1b\xad\x56\xa9\x86\x84\xae\x17\x4b\xa0\xa9\x62\xb8\x03",
        ],
    ),
];

#[test]
fn published_votes(rt: HostRuntime) -> Result<(), Fail> {
    let pool = BlockPool::new(rt.alloc())?;
    for &(kind, want) in PUBLISHED.iter() {
        assert!(rt; votes(rt.alloc(), &rt, &pool, FIRST, kind, &want)?);
    }
    Ok(())
}
