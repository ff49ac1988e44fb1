//! A vote and a tally that leave peer 1 as jobs, and come back.

ghost use Rattle.std.specs.Prelude.{◌≡◌, ◌≤◌, None, IfOk, IsSome};
ghost use Rattle.lks_base.specs.Checking.{plan_fault};
ghost use Rattle.lks_blocks.specs.Block.{AllOf};
ghost use Rattle.lks_hash.specs.Counting.{Opens};
ghost use Rattle.lks_law.specs.Facts.{IsHeard};
ghost use Rattle.lks_law.specs.World.{honest_peer};
ghost use Rattle.lks_work.specs.Names.{refs_of, refs_done};

use crate::peer::scene::{CAST, THEIRS, got, plan_of, restored};
use crate::same::same;
use lks_base::{Input, Judged, Limits, Plan, Reaction, Rules};
use lks_blocks::BlockPool;
use lks_hash::Steps;
use lks_peer::{AcceptFault, Peer};
use lks_versions::PinTag;
use lks_work::{Job, JobDone, JobName, hash_tally, hash_vote};
use std::alloc::Global;
use std::marker::Brand;
use std::sync::Wait;
use std::sync::ledger::{Blank, Ledger};
use std::test::*;

/// One vote decides a poll.
const LIMITS: Limits = Limits {
    quorum: 1,
    minority: 0,
};

const RULES: Rules = Rules {
    inner: 3,
    quorum: 1,
    minority: 0,
    outer: 0,
    repairs: 1,
    pace: 0,
    refractory: 0,
    overdue: 100,
    unknown_pct: 100,
    debt_pct: 100,
    churn: 0,
};

const VOTE: JobName = JobName::Vote {
    peer: 1,
    poll: THEIRS,
};

const TALLY: JobName = JobName::Tally { peer: 1, number: 1 };

/// How many records are added, and how many messages are sent, with the first one.
type Told = (usize, usize, Option<Vec<u8>>);

fn told(alloc: Global, reaction: &Reaction) -> Result<Told, Fail> {
    let sends = reaction.sends.as_slice();
    let first = match sends.first() {
        Some(send) => Some(send.bytes.as_slice().to_vec(alloc)?),
        None => None,
    };
    Ok((reaction.records.as_slice().len(), sends.len(), first))
}

fn hash_counted<L: Ledger>(
    alloc: Global,
    pool: &BlockPool,
    job: Job,
    blank: Blank,
) -> Result<JobDone, Fail>
    requires opens { Opens blank L.name L.parts }
    requires refs { AllOf pool.now (refs_of job) }
    ensures { IfOk result (λ done. AllOf pool.now (refs_done done)) }
{
    match job {
        Job::Vote(job) => match hash_vote(alloc, pool, job) {
            Ok(done) => Ok(JobDone::Vote(done)),
            Err(_job) => Err("no memory".into()),
        },
        Job::Tally(job) => {
            let mut steps = Steps::<L>::open(blank);
            Ok(JobDone::Tally(hash_tally(pool, job, &mut steps)))
        }
    }
}

/// The work of this name, which the peer hands out and somebody else hashes.
fn done(alloc: Global, pool: &BlockPool, peer: &mut Peer, name: &JobName) -> Result<JobDone, Fail>
    requires { peer.old.pool ≡ pool.now }
    ensures done { IfOk result (λ done. AllOf pool.now (refs_done done)) }
    ensures pool { peer.new.pool ≡ pool.now }
{
    match peer.job(name)? {
        Some(job) => hash_counted::<Brand>(alloc, pool, job, Blank::new(1)),
        None => Err("not ready".into()),
    }
}

/// What a peer makes of a result, or the tags of one that isn't taken.
type Answer = Result<Told, (Option<PinTag>, PinTag)>;

fn accepted<R: Wait>(
    alloc: Global,
    rt: &R,
    pool: &BlockPool,
    peer: &mut Peer,
    done: JobDone,
) -> Result<Answer, Fail>
    requires pool { peer.old.pool ≡ pool.now }
    requires done { AllOf pool.now (refs_done done) }
    ensures { peer.new.pool ≡ pool.now }
{
    match peer.accept(rt, pool, 1, done) {
        Ok(reaction) => Ok(Ok(told(alloc, &reaction)?)),
        Err(AcceptFault::Stale { expected, found }) => Ok(Err((expected, found))),
        Err(AcceptFault::Memory) => Err("no memory".into()),
    }
}

/// Whether a result isn't taken, since its version is of the same number, and another deposit.
fn is_of_another(answer: &Answer) -> bool {
    match answer {
        Err((Some(expected), found)) => {
            expected.first != found.first && expected.version == found.version
        }
        Err((None, _)) | Ok(_) => false,
    }
}

/// Whether the vote of one peer is stale to the other.
fn is_stale<R: Wait>(
    alloc: Global,
    rt: &R,
    pool: &BlockPool,
    first: &mut Peer,
    second: &mut Peer,
) -> Result<bool, Fail>
    requires first { first.old.pool ≡ pool.now }
    requires second { second.old.pool ≡ pool.now }
    ensures first { first.new.pool ≡ pool.now }
    ensures second { second.new.pool ≡ pool.now }
{
    let vote = done(alloc, pool, first, &VOTE)?;
    let answer = accepted(alloc, rt, pool, second, vote)?;
    Ok(is_of_another(&answer))
}

/// What the peer does with its own job, for which it reads no block.
fn own_work<R: Wait>(
    alloc: Global,
    rt: &R,
    pool: &BlockPool,
    peer: &mut Peer,
    name: &JobName,
) -> Result<Told, Fail>
    requires { peer.old.pool ≡ pool.now }
    ensures { peer.new.pool ≡ pool.now }
{
    let work = done(alloc, pool, peer, name)?;
    let reads = pool.reads();
    match accepted(alloc, rt, pool, peer, work)? {
        Ok(told) if pool.reads() == reads => Ok(told),
        Ok(_told) => Err("hashed again".into()),
        Err(_tags) => Err("stale".into()),
    }
}

fn stepped<R: Wait>(
    alloc: Global,
    rt: &R,
    pool: &BlockPool,
    peer: &mut Peer,
    input: &Input,
) -> Result<Told, Fail>
    requires pool { peer.old.pool ≡ pool.now }
    requires heard { IsHeard input.now }
    ensures { peer.new.pool ≡ pool.now }
{
    let reaction = peer.step(rt, pool, 1, input)?;
    told(alloc, &reaction)
}

/// The peer gets a vote of peer 2 in its poll, and shuts it.
fn shut<R: Wait>(alloc: Global, rt: &R, pool: &BlockPool, peer: &mut Peer) -> Result<(), Fail>
    requires { peer.old.pool ≡ pool.now }
    ensures { peer.new.pool ≡ pool.now }
{
    let cast = got(alloc, 2, Judged::Accepted, CAST)?;
    stepped(alloc, rt, pool, peer, &cast)?;
    stepped(alloc, rt, pool, peer, &Input::Shut { number: 1 })?;
    Ok(())
}

/// What tells a peer to do work of this kind by itself.
fn input_of(name: &JobName) -> Input
    ensures { IsHeard result }
{
    match name {
        JobName::Vote { poll, .. } => Input::Work { poll: *poll },
        JobName::Tally { number, .. } => Input::Tally { number: *number },
    }
}

/// What the peer does where it hashes for itself.
fn by_itself<R: Wait>(
    alloc: Global,
    rt: &R,
    pool: &BlockPool,
    peer: &mut Peer,
    name: &JobName,
) -> Result<Told, Fail>
    requires { peer.old.pool ≡ pool.now }
    ensures { peer.new.pool ≡ pool.now }
{
    let input = input_of(name);
    stepped(alloc, rt, pool, peer, &input)
}

/// Whether both have one record and one message, and the same one.
fn are_one(ours: &Told, theirs: &Told) -> bool {
    ours.0 == 1 && ours.1 == 1 && *ours == *theirs
}

fn is_idle(peer: &mut Peer, name: &JobName) -> Result<bool, Fail>
    ensures { peer.new.pool ≡ peer.old.pool }
{
    Ok(peer.job(name)?.is_none())
}

/// Whether one peer makes of its own job one record and one message, as an equal one that hashes for itself, and is
/// then ready for no such work.
fn are_equal<R: Wait>(
    alloc: Global,
    rt: &R,
    pool: &BlockPool,
    first: &mut Peer,
    second: &mut Peer,
    name: &JobName,
) -> Result<bool, Fail>
    requires first { first.old.pool ≡ pool.now }
    requires second { second.old.pool ≡ pool.now }
    ensures first { first.new.pool ≡ pool.now }
    ensures second { second.new.pool ≡ pool.now }
{
    let ours = own_work(alloc, rt, pool, first, name)?;
    let theirs = by_itself(alloc, rt, pool, second, name)?;
    Ok(are_one(&ours, &theirs) && is_idle(first, name)?)
}

/// A result of one peer is stale to the other, which takes its own: the same vote as if it had hashed it itself.
fn vote<R: Wait>(
    alloc: Global,
    rt: &R,
    pool: &BlockPool,
    first: &mut Peer,
    second: &mut Peer,
) -> Result<bool, Fail>
    requires first { first.old.pool ≡ pool.now }
    requires second { second.old.pool ≡ pool.now }
{
    let stale = is_stale(alloc, rt, pool, first, second)?;
    Ok(stale && are_equal(alloc, rt, pool, second, first, &VOTE)?)
}

/// A tally asks for the block that is lost, and keeps its hashes.
fn tally<R: Wait>(
    alloc: Global,
    rt: &R,
    pool: &BlockPool,
    first: &mut Peer,
    second: &mut Peer,
) -> Result<bool, Fail>
    requires first { first.old.pool ≡ pool.now }
    requires second { second.old.pool ≡ pool.now }
{
    shut(alloc, rt, pool, first)?;
    shut(alloc, rt, pool, second)?;
    let equal = are_equal(alloc, rt, pool, first, second, &TALLY)?;
    Ok(equal && first.kept(1) == Some(1))
}

/// A vote, or a tally, of both peers.
fn play<R: Wait>(
    alloc: Global,
    rt: &R,
    pool: &BlockPool,
    first: &mut Peer,
    second: &mut Peer,
    votes: bool,
) -> Result<bool, Fail>
    requires first { first.old.pool ≡ pool.now }
    requires second { second.old.pool ≡ pool.now }
{
    if votes {
        vote(alloc, rt, pool, first, second)
    } else {
        tally(alloc, rt, pool, first, second)
    }
}

/// Plays with a second peer, which is restored over the journal of the first, on its pool.
fn play_with_second<R: Wait>(
    alloc: Global,
    rt: &R,
    pool: &BlockPool,
    plan: &Plan,
    first: &mut Peer,
    votes: bool,
) -> Result<bool, Fail>
    requires good { plan_fault plan.now ≡ None }
    requires honest { IsSome (honest_peer 1 plan.now) }
    requires first { first.old.pool ≡ pool.now }
{
    let mut second = restored(alloc, rt, pool, plan, Some(LIMITS), None)?;
    play(alloc, rt, pool, first, &mut second, votes)
}

fn play_on<R: Wait>(
    alloc: Global,
    rt: &R,
    pool: &BlockPool,
    plan: &Plan,
    votes: bool,
) -> Result<bool, Fail>
    requires good { plan_fault plan.now ≡ None }
    requires honest { IsSome (honest_peer 1 plan.now) }
{
    let mut first = restored(alloc, rt, pool, plan, Some(LIMITS), None)?;
    play_with_second(alloc, rt, pool, plan, &mut first, votes)
}

/// A vote and then a tally, on one pool.
fn play_both<R: Wait>(alloc: Global, rt: &R, plan: &Plan) -> Result<(bool, bool), Fail>
    requires good { plan_fault plan.now ≡ None }
    requires honest { IsSome (honest_peer 1 plan.now) }
{
    let pool = BlockPool::new(alloc)?;
    let vote = play_on(alloc, rt, &pool, plan, true)?;
    Ok((vote, play_on(alloc, rt, &pool, plan, false)?))
}

#[test]
fn a_vote_and_a_tally(rt: HostRuntime) -> Result<(), Fail> {
    let plan = plan_of(rt.alloc(), RULES, b"")?;
    let found = play_both(rt.alloc(), &rt, &plan)?;
    same(&rt, &found, &(true, true), &"a vote and a tally");
    Ok(())
}
