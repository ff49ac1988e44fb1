//! Jobs by their names.

ghost use Rattle.std.specs.Prelude.{◌≡◌};
ghost use Rattle.std.specs.List.{list_any};
ghost use Rattle.lks_work.specs.Names.{is_job, is_left, step_named};

use crate::jobs::JobName;
use lks_base::{PeerId, PeerStep};

fn is_among(names: &[JobName], name: JobName) -> bool
    ensures { result ≡ list_any (λ other. is_job name other) names.now }
{
    names.iter().any(|other| name.is(*other))
}

impl JobName {
    /// Whose job it is.
    pub fn peer(self) -> PeerId {
        match self {
            JobName::Vote { peer, .. } | JobName::Tally { peer, .. } => peer,
        }
    }

    /// The step that is worked for.
    pub fn step(self) -> PeerStep
        ensures { result ≡ step_named self }
    {
        match self {
            JobName::Vote { peer, poll } => PeerStep::Work { peer, poll },
            JobName::Tally { peer, number } => PeerStep::Tally { peer, number },
        }
    }

    /// Whether both are of one job.
    #[tactic(auto, unfolding(crate::specs::Names::is_job))]
    pub fn is(self, other: JobName) -> bool
        ensures { result ≡ is_job self other }
    {
        match (self, other) {
            (
                JobName::Vote { peer, poll },
                JobName::Vote {
                    peer: other,
                    poll: named,
                },
            ) => peer == other && poll.poller == named.poller && poll.number == named.number,
            (
                JobName::Tally { peer, number },
                JobName::Tally {
                    peer: other,
                    number: named,
                },
            ) => peer == other && number == named,
            (JobName::Vote { .. }, JobName::Tally { .. })
            | (JobName::Tally { .. }, JobName::Vote { .. }) => false,
        }
    }

    /// Whether it is none of these.
    pub fn is_left(self, out: &[JobName]) -> bool
        ensures { result ≡ is_left out.now self }
    {
        !is_among(out, self)
    }
}
