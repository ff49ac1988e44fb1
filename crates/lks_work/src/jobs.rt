//! Jobs, before they are done.

ghost use Rattle.std.specs.Prelude.{◌≡◌, ◌≤◌, length};
ghost use Rattle.lks_base.specs.declared.limits.TheConstants.{MOST_CIRCLE};
ghost use Rattle.lks_blocks.specs.Block.{bytes_of};
ghost use Rattle.lks_tally.specs.Keeping.{IsCacheOf, IsReserved};

use lks_base::{AuId, HashKind, PeerId, PollName};
use lks_blocks::Refs;
use lks_tally::Tally;
use lks_versions::PinTag;

/// Which job it is: the vote of a peer in a poll, or the tally of a peer's own poll.
#[derive(Clone, Copy, Debug, PartialEq, Eq)]
pub enum JobName {
    Vote { peer: PeerId, poll: PollName },
    Tally { peer: PeerId, number: u32 },
}

/// The vote of a peer in a poll, over the version of its copy to which it committed.
#[derive(Drop)]
pub struct VoteJob {
    /// The voter.
    pub peer: PeerId,
    pub poll: PollName,
    pub au: AuId,
    pub kind: HashKind,
    pub nonce: [u8; 32],
    /// The name of the version.
    pub tag: PinTag,
    /// The blocks of the version, in order.
    pub refs: Refs,
    pub ghost few: { length refs ≤ 65535 },
}

/// The verdict of the votes of a peer's poll on its copy, as that stood when the job was made.
#[derive(Drop)]
pub struct TallyJob {
    /// The poller.
    pub peer: PeerId,
    pub number: u32,
    /// The name of the version.
    pub tag: PinTag,
    /// The blocks of the version, in order.
    pub refs: Refs,
    pub tally: Tally,
    pub ghost reserved: { IsReserved tally },
    pub ghost few: { length tally.votes ≤ MOST_CIRCLE },
    pub ghost count: { length refs ≡ tally.ballot.count },
    pub ghost cache: { IsCacheOf tally (bytes_of refs) },
}

/// A job of either kind.
#[derive(Drop)]
pub enum Job {
    Vote(VoteJob),
    Tally(TallyJob),
}

impl Job {
    ghost use Rattle.lks_work.specs.Names.{name_of};

    /// Which job it is.
    pub fn name(&self) -> JobName
        ensures { result ≡ name_of self.now }
    {
        match self {
            Job::Vote(job) => JobName::Vote {
                peer: job.peer,
                poll: job.poll,
            },
            Job::Tally(job) => JobName::Tally {
                peer: job.peer,
                number: job.number,
            },
        }
    }
}
