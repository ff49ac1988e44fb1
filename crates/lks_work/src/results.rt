//! Jobs that are done.

ghost use Rattle.std.specs.Prelude.{◌≡◌};
ghost use Rattle.lks_tally.specs.Keeping.{kept_after};
ghost use Rattle.lks_work.specs.Asked.{verdict_of, vote_of};

use crate::jobs::{JobName, TallyJob, VoteJob};
use lks_base::Hashes;
use lks_tally::Verdict;
use lks_versions::PinTag;

/// A vote that was hashed.
#[derive(Drop)]
pub struct VoteDone {
    pub job: VoteJob,
    pub hashes: Hashes,
    pub ghost hashed: { hashes ≡ vote_of job },
}

/// A tally whose last call was the verdict on what the job's references name.
#[derive(Drop)]
pub struct TallyDone {
    pub job: TallyJob,
    pub verdict: Verdict,
    pub ghost told: { verdict ≡ verdict_of job },

    // The running hashes of all blocks are kept, or at least those up to the block that decided.
    pub ghost kept: { job.tally.kept ≡ kept_after verdict job.tally.kept job.tally.ballot.count },
}

/// A job of either kind that is done.
#[derive(Drop)]
pub enum JobDone {
    Vote(VoteDone),
    Tally(TallyDone),
}

impl JobDone {
    ghost use Rattle.lks_work.specs.Names.{name_done, tag_done};

    /// Which job was done.
    pub fn name(&self) -> JobName
        ensures { result ≡ name_done self.now }
    {
        match self {
            JobDone::Vote(done) => JobName::Vote {
                peer: done.job.peer,
                poll: done.job.poll,
            },
            JobDone::Tally(done) => JobName::Tally {
                peer: done.job.peer,
                number: done.job.number,
            },
        }
    }

    /// The name of the version that was hashed.
    pub fn tag(&self) -> PinTag
        ensures { result ≡ tag_done self.now }
    {
        match self {
            JobDone::Vote(done) => done.job.tag,
            JobDone::Tally(done) => done.job.tag,
        }
    }
}
