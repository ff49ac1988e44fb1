//! The hashing of jobs.

ghost use Rattle.std.specs.Prelude.{◌≡◌, ◌+◌, ◌*◌, ◌-◌, ◌≤◌, length, IfOk, IfErr};
ghost use Rattle.lks_base.specs.declared.limits.TheConstants.{MOST_CIRCLE};
ghost use Rattle.lks_blocks.specs.Block.{AllOf, bytes_of};
ghost use Rattle.lks_hash.specs.Counting.{Opens};
ghost use Rattle.lks_hash.specs.Running.{hashes_of};
ghost use Rattle.lks_tally.specs.Counting.{key_for, verdict_on};
ghost use Rattle.lks_tally.specs.Keeping.{IsCacheOf, IsReserved, IsSame, KeepsRooms, kept_after};
ghost use Rattle.lks_work.specs.Asked.{IsSameJob, ballot_of, verdict_of, vote_of};

use crate::jobs::{TallyJob, VoteJob};
use crate::results::{TallyDone, VoteDone};
use lks_base::{Hashes, OutOfMemory};
use lks_blocks::{BlockPool, BlockRef};
use lks_hash::{Chain, Steps};
use lks_tally::{Tally, Verdict};
use lks_versions::Newest;
use std::alloc::Global;
use std::marker::Brand;
use std::sync::ledger::{Blank, Ledger};

/// The key of the vote: the running hash before its first block.
fn key_of_vote(job: &VoteJob) -> [u8; 32]
    ensures { result ≡ key_for (ballot_of job.now) job.now.peer }
{
    lks_hash::key(
        job.kind.second(),
        job.poll.poller,
        job.poll.number,
        &job.nonce,
        job.peer,
        job.au,
        job.refs.as_slice().len() as u16,
    )
}

/// The running hash after each block. Each is read once.
#[tactic(auto, unfolding(lks_blocks::specs::Block::AllOf))]
fn hash_blocks<L: Ledger>(
    alloc: Global,
    pool: &BlockPool,
    second: bool,
    key: [u8; 32],
    refs: &[BlockRef],
    steps: &mut Steps<L>,
) -> Result<Hashes, OutOfMemory>
    requires { AllOf pool.now refs.now }
    ensures { IfOk result (λ hashes. hashes ≡ hashes_of second key (bytes_of refs.now)) }
{
    let mut chain = Chain::start(second, key);
    let mut hashes = Vec::new(alloc);
    for r in refs {
        hashes.push(chain.add(pool.read(r), steps))?;
    }
    Ok(Hashes::from_vec(hashes))
}

fn hash_counted<L: Ledger>(
    alloc: Global,
    pool: &BlockPool,
    job: &VoteJob,
    blank: Blank,
) -> Result<Hashes, OutOfMemory>
    requires blank { Opens blank L.name L.parts }
    requires of { AllOf pool.now job.now.refs }
    ensures { IfOk result (λ hashes. hashes ≡ vote_of job.now) }
{
    let key = key_of_vote(job);
    let mut steps = Steps::<L>::open(blank);
    hash_blocks(
        alloc,
        pool,
        job.kind.second(),
        key,
        job.refs.as_slice(),
        &mut steps,
    )
}

/// Hashes a vote: reads each block that the job's references name, once, and takes no lock. For want of memory, and for
/// nothing else, it gives the job back.
pub fn hash_vote(alloc: Global, pool: &BlockPool, job: VoteJob) -> Result<VoteDone, VoteJob>
    requires { AllOf pool.now job.refs }
    ensures job { IfOk result (λ done. done.job ≡ job) }
    ensures hashes { IfOk result (λ done. done.hashes ≡ vote_of job) }
    ensures back { IfErr result (λ back. back ≡ job) }
{
    match hash_counted::<Brand>(alloc, pool, &job, Blank::new(1)) {
        Ok(hashes) => Ok(VoteDone { job, hashes }),
        Err(OutOfMemory) => Err(job),
    }
}

/// The verdict of a tally's votes on what the references name.
fn reach_verdict<'a, L: Ledger>(
    pool: &'a BlockPool,
    refs: &'a [BlockRef],
    tally: &mut Tally,
    steps: &mut Steps<L>,
) -> Verdict
    requires of { AllOf pool.now refs.now }
    requires reserved { IsReserved tally.old }
    requires few { length tally.old.votes ≤ MOST_CIRCLE }
    requires count { length refs.now ≡ tally.old.ballot.count }
    requires cache { IsCacheOf tally.old (bytes_of refs.now) }
    ensures verdict { result
        ≡ verdict_on tally.old.limits.quorum tally.old.limits.minority tally.old.ballot tally.old.votes
        (bytes_of refs.now) }
    ensures same { IsSame tally.new tally.old }
    ensures rooms { KeepsRooms tally.old tally.new }
    ensures kept { tally.new.kept ≡ kept_after result tally.old.kept tally.old.ballot.count }
    ensures within { tally.new.kept ≤ tally.old.ballot.count }
    ensures cache { IsCacheOf tally.new (bytes_of refs.now) }
    ensures cost { steps.new ≡ steps.old + length tally.old.votes * (tally.new.kept - tally.old.kept) }
{
    let _count = tally.ballot().count;
    tally.verdict(&Newest::new(pool, refs), steps)
}

/// Reaches the verdict of a tally's votes: reads each block at most once, for all votes together, takes no memory and
/// no lock, and makes links for the blocks alone whose hashes the tally doesn't keep.
pub fn hash_tally<L: Ledger>(pool: &BlockPool, job: TallyJob, steps: &mut Steps<L>) -> TallyDone
    requires { AllOf pool.now job.refs }
    ensures job { IsSameJob job result.job }
    ensures verdict { result.verdict ≡ verdict_of job }
    ensures kept { result.job.tally.kept ≡ kept_after result.verdict job.tally.kept job.tally.ballot.count }
    ensures rooms { KeepsRooms job.tally result.job.tally }
    ensures cost { steps.new ≡ steps.old + length job.tally.votes * (result.job.tally.kept - job.tally.kept) }
    ensures bound { steps.new ≤ steps.old + length job.tally.votes * (job.tally.ballot.count - job.tally.kept) }
{
    let TallyJob {
        peer,
        number,
        tag,
        refs,
        mut tally,
    } = job;
    let verdict = reach_verdict(pool, refs.as_slice(), &mut tally, steps);
    let job = TallyJob {
        peer,
        number,
        tag,
        refs,
        tally,
    };
    TallyDone { job, verdict }
}
