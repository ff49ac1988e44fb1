//! Votes and verdicts over two blocks of which the first is `41`, in poll 1 of peer 1 on AU 1.

ghost use Rattle.std.specs.Prelude.{◌≡◌, ◌≤◌, ◌+◌, ◌*◌, ◌-◌, [], length, IfOk};
ghost use Rattle.lks_base.specs.declared.limits.TheConstants.{MOST_CIRCLE};
ghost use Rattle.lks_blocks.specs.Block.{AllOf};
ghost use Rattle.lks_hash.specs.Counting.{Opens};
ghost use Rattle.lks_tally.specs.Keeping.{IsReserved, IsSame};

use crate::same::same;
use crate::samples::{NONCE, POLL, PUBLISHED, add_vote, tally_without_votes};
use lks_base::{Entry, Event, HashKind, Hashes, OutOfMemory, PeerId, Seq};
use lks_blocks::{BlockPool, BlockRef, Refs};
use lks_hash::Steps;
use lks_tally::{Tally, Verdict, VoteFault};
use lks_versions::PinTag;
use lks_work::{
    FreeGate, Gate, Job, JobDone, JobName, TallyDone, TallyJob, VoteJob, hash_tally, hash_vote,
};
use std::alloc::Global;
use std::marker::Brand;
use std::sync::Wait;
use std::sync::ledger::{Blank, Ledger};
use std::test::Fail;

const TAG: PinTag = PinTag {
    first: 0,
    version: 0,
};

/// Hashes that another implementation of FIPS 180-4 computed, as [`PUBLISHED`], but by SHA-512/256.
const PUBLISHED_SECOND: [[u8; 32]; 2] = [
    *b"\xfd\x58\x26\xcd\x71\x04\x22\x7a\xec\xff\x33\xcc\x6f\xb2\xad\x18\x14\xf3\x14\x15\xfc\x9f\x73\x8b\x17\xd3\x51\x67\x86\x12\x23\x1e",
    *b"\x87\x4a\xb5\xcf\x6f\x41\xe1\xad\x2e\xed\x1d\x66\x80\x56\x2e\x76\xa0\x0b\x1b\xad\x56\xa9\x86\x84\xae\x17\x4b\xa0\xa9\x62\xb8\x03",
];

/// A block of one byte, in the pool.
fn stored<R: Wait>(
    rt: &R,
    alloc: Global,
    pool: &BlockPool,
    byte: &[u8; 1],
) -> Result<BlockRef, OutOfMemory>
    ensures { IfOk result (λ block. block.pool ≡ pool.now) }
{
    let bytes = byte.to_vec(alloc)?;
    match pool.put(rt, bytes) {
        Ok(block) => Ok(block),
        Err(_bytes) => Err(OutOfMemory),
    }
}

/// The block `41` and another one, in the pool.
#[tactic(auto, unfolding(lks_blocks::specs::Block::AllOf))]
fn pair_of<R: Wait>(
    rt: &R,
    alloc: Global,
    pool: &BlockPool,
    second: &[u8; 1],
) -> Result<Refs, OutOfMemory>
    ensures of { IfOk result (λ refs. AllOf pool.now refs) }
    ensures count { IfOk result (λ refs. length refs ≡ 2) }
{
    let mut refs = Vec::with_capacity(alloc, 2)?;
    refs.push_reserved(stored(rt, alloc, pool, b"A")?);
    refs.push_reserved(stored(rt, alloc, pool, second)?);
    Ok(Refs::from_vec(refs))
}

/// The job of a peer's vote over these blocks.
fn vote_job(peer: PeerId, kind: HashKind, refs: Refs) -> VoteJob
    requires { length refs ≤ 65535 }
    ensures { result.refs ≡ refs }
{
    VoteJob {
        peer,
        poll: POLL,
        au: 1,
        kind,
        nonce: *NONCE,
        tag: TAG,
        refs,
    }
}

/// Hashes a vote of a peer.
fn voted(
    alloc: Global,
    pool: &BlockPool,
    peer: PeerId,
    kind: HashKind,
    refs: &Refs,
) -> Result<Hashes, OutOfMemory>
    requires of { AllOf pool.now refs.now }
    requires count { length refs.now ≡ 2 }
{
    let refs = refs.clone()?;
    match hash_vote(alloc, pool, vote_job(peer, kind, refs)) {
        Ok(done) => Ok(done.hashes),
        Err(_job) => Err(OutOfMemory),
    }
}

/// Takes the vote of a peer over these references.
fn cast(
    alloc: Global,
    pool: &BlockPool,
    tally: &mut Tally,
    voter: PeerId,
    refs: &Refs,
) -> Result<(), VoteFault>
    requires of { AllOf pool.now refs.now }
    requires count { length refs.now ≡ 2 }
    requires reserved { IsReserved tally.old }
    ensures reserved { IfOk result (λ _. IsReserved tally.new) }
    ensures votes { IfOk result (λ _. length tally.new.votes ≡ length tally.old.votes + 1) }
    ensures count { IfOk result (λ _. tally.new.ballot.count ≡ tally.old.ballot.count) }
    ensures nothing_kept { IfOk result (λ _. (tally.new.kept ≡ 0) × (tally.new.hashes ≡ [])) }
{
    match voted(alloc, pool, voter, HashKind::Sha256, refs) {
        Ok(hashes) => add_vote(tally, voter, hashes),
        Err(OutOfMemory) => Err(VoteFault::Memory),
    }
}

/// Takes the votes of these peers over these references.
fn cast_all(
    alloc: Global,
    pool: &BlockPool,
    tally: &mut Tally,
    voters: &[PeerId],
    refs: &Refs,
) -> Result<(), VoteFault>
    requires of { AllOf pool.now refs.now }
    requires count { length refs.now ≡ 2 }
    requires few { length voters.now ≤ MOST_CIRCLE }
    requires reserved { IsReserved tally.old }
    requires no_votes { tally.old.votes ≡ [] }
    requires nothing_kept { (tally.old.kept ≡ 0) × (tally.old.hashes ≡ []) }
    ensures reserved { IfOk result (λ _. IsReserved tally.new) }
    ensures votes { IfOk result (λ _. length tally.new.votes ≡ length voters.now) }
    ensures count { IfOk result (λ _. tally.new.ballot.count ≡ tally.old.ballot.count) }
    ensures nothing_kept { IfOk result (λ _. (tally.new.kept ≡ 0) × (tally.new.hashes ≡ [])) }
{
    for i in 0..voters.len() {
        cast(alloc, pool, tally, voters[i], refs)?;
    }
    Ok(())
}

/// The tally of the votes of these peers over these references.
fn tally_of(alloc: Global, pool: &BlockPool, voters: &[PeerId], refs: &Refs) -> Result<Tally, Fail>
    requires of { AllOf pool.now refs.now }
    requires count { length refs.now ≡ 2 }
    requires few { length voters.now ≤ MOST_CIRCLE }
    ensures { IfOk result
        (λ t. (IsReserved t) × (length t.votes ≡ length voters.now) × (t.ballot.count ≡ 2) × (t.kept ≡ 0)
        × (t.hashes ≡ [])) }
{
    let mut tally = tally_without_votes(alloc, HashKind::Sha256, 2)?;
    cast_all(alloc, pool, &mut tally, voters, refs)?;
    Ok(tally)
}

fn tally_job(refs: Refs, tally: Tally) -> TallyJob
    requires count { length refs ≡ 2 }
    requires reserved { IsReserved tally }
    requires few { length tally.votes ≤ MOST_CIRCLE }
    requires ballot { tally.ballot.count ≡ 2 }
    requires nothing_kept { (tally.kept ≡ 0) × (tally.hashes ≡ []) }
    ensures { (result.refs ≡ refs) × (result.tally ≡ tally) }
{
    TallyJob {
        peer: 1,
        number: 1,
        tag: TAG,
        refs,
        tally,
    }
}

/// The verdict of three votes: a link for each of them at each block whose hashes aren't kept.
fn tally_linked<L: Ledger>(pool: &BlockPool, job: TallyJob, steps: &mut Steps<L>) -> TallyDone
    requires of { AllOf pool.now job.refs }
    requires three { length job.tally.votes ≡ 3 }
    requires count { job.tally.ballot.count ≡ 2 }
    ensures refs { result.job.refs ≡ job.refs }
    ensures same { IsSame result.job.tally job.tally }
    ensures links { steps.new ≤ steps.old + 3 * (2 - job.tally.kept) }
{
    hash_tally(pool, job, steps)
}

/// The verdict of three votes over `41` and `voted` on `41` and `own`, and how often the pool was read for the votes,
/// for the verdict, and for the same verdict once more.
fn tally_counted<L: Ledger, R: Wait>(
    rt: &R,
    blank: Blank,
    alloc: Global,
    voted: &[u8; 1],
    own: &[u8; 1],
) -> Result<(Verdict, [u64; 3]), Fail>
    requires { Opens blank L.name L.parts }
{
    let pool = BlockPool::new(alloc)?;
    let refs = pair_of(rt, alloc, &pool, voted)?;
    let tally = tally_of(alloc, &pool, &[2, 3, 4], &refs)?;
    let votes = pool.reads();
    let mut steps = Steps::<L>::open(blank);
    let job = tally_job(pair_of(rt, alloc, &pool, own)?, tally);
    let done = tally_linked(&pool, job, &mut steps);
    let first = pool.reads();
    let again = tally_linked(&pool, done.job, &mut steps);
    Ok((again.verdict, [votes, first, pool.reads()]))
}

fn tally_on<R: Wait>(
    rt: &R,
    alloc: Global,
    voted: &[u8; 1],
    own: &[u8; 1],
) -> Result<(Verdict, [u64; 3]), Fail> {
    tally_counted::<Brand, R>(rt, Blank::new(1), alloc, voted, own)
}

/// Whether the vote of peer 2 over `41` and `42` has these hashes, and reads each block once.
fn is_vote<R: Wait>(
    rt: &R,
    alloc: Global,
    kind: HashKind,
    want: &[[u8; 32]],
) -> Result<bool, Fail> {
    let pool = BlockPool::new(alloc)?;
    let refs = pair_of(rt, alloc, &pool, b"B")?;
    let hashes = voted(alloc, &pool, 2, kind, &refs)?;
    Ok(hashes.as_slice() == want && pool.reads() == 2)
}

/// By hashes that another implementation of FIPS 180-4 computed.
#[test]
fn published_votes(rt: HostRuntime) -> Result<(), Fail> {
    assert!(rt; is_vote(&rt, rt.alloc(), HashKind::Sha256, &PUBLISHED)?);
    assert!(rt; is_vote(&rt, rt.alloc(), HashKind::Sha512_256, &PUBLISHED_SECOND)?);
    Ok(())
}

/// Three votes read six blocks, and a verdict two, for all votes together. What is kept isn't read again.
#[test]
fn verdicts(rt: HostRuntime) -> Result<(), Fail> {
    let loss = tally_on(&rt, rt.alloc(), b"C", b"B")?;
    same(
        &rt,
        &loss,
        &(Verdict::Loss { block: 1 }, [6, 8, 8]),
        &"loss",
    );
    let agreed = tally_on(&rt, rt.alloc(), b"C", b"C")?;
    same(&rt, &agreed, &(Verdict::Agreed, [6, 8, 8]), &"agreed");
    Ok(())
}

fn pass<G: Gate>(alloc: Global, gate: &G, job: &Job) {
    gate.begin(&job.name());
    gate.told(&Entry {
        event: Event::Tick { by: 1 },
        from: 0,
        to: 0,
        notes: Seq::from_vec(Vec::new(alloc)),
        sends: 0,
    });
}

fn may_cross_threads<T: Send + Sync>() {}

#[test]
fn a_free_gate(rt: HostRuntime) {
    let none = Refs::from_vec(Vec::new(rt.alloc()));
    let job = Job::Vote(vote_job(2, HashKind::Sha256, none));
    pass(rt.alloc(), &FreeGate, &job);
    may_cross_threads::<Job>();
    may_cross_threads::<JobDone>();
    same(
        &rt,
        &job.name(),
        &JobName::Vote {
            peer: 2,
            poll: POLL,
        },
        &"job.name",
    );
}
