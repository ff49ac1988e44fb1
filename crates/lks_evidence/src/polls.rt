//! The poll that replaced a block: its opening, its votes, and what these say of the block.

ghost use Rattle.std.specs.Prelude.{◌≡◌, ◌≤◌, ◌-◌, nat_le, length, option_map, unwrap_or};
ghost use Rattle.lks_law.specs.Polls.{limits_of, ballot_for};
ghost use Rattle.lks_evidence.specs.declared.findings.Why.TheVariants as why;
ghost use Rattle.lks_evidence.specs.Rules.{◌▹◌, unless, told_count, first_twice, first_failing};
ghost use Rattle.lks_evidence.specs.Rules as rules;

use crate::findings::Why;
use crate::records::{Repair, count_openings, is_shut};
use lks_base::{Limits, PeerId, PollName, Record, Rules, obeys_quorum_rule};
use lks_law::Opening;
use lks_tally::{Ballot, Vote, has_vote_of};

/// A number of votes as a doubt tells it.
#[tactic(auto, unfolding(crate::specs::Rules::told_count))]
fn told(votes: usize) -> u16
    ensures { result ≡ told_count votes }
{
    votes.min(u16::MAX as usize) as u16
}

/// The first voter, in order of votes, who has two.
fn first_twice(votes: &[Vote]) -> Option<PeerId>
    ensures { result ≡ first_twice votes.now }
{
    for (i, vote) in votes.iter().enumerate() {
        if has_vote_of(&votes[i + 1..], vote.voter) {
            return Some(vote.voter);
        }
    }
    None
}

/// The first voter whose vote hasn't so many hashes.
fn first_unlike(count: u16, votes: &[Vote]) -> Option<PeerId>
    ensures { result ≡ first_failing (rules.is_long count) votes.now }
{
    for vote in votes {
        if vote.hashes.as_slice().len() != count as usize {
            return Some(vote.voter);
        }
    }
    None
}

/// Whether each voter votes once, with a hash for each block.
#[tactic(auto, unfolding(crate::specs::Rules::shape_doubt))]
pub fn doubt_shape(count: u16, votes: &[Vote]) -> Option<Why>
    ensures { result ≡ rules.shape_doubt count votes.now }
{
    if let Some(voter) = first_twice(votes) {
        return Some(Why::Twice { voter });
    }
    first_unlike(count, votes).map(|voter| Why::Length { voter })
}

/// Whether a quorum votes, and a minority at most for what was there.
pub fn doubt_loss(limits: Limits, votes: usize, votes_for: usize) -> Option<Why>
    ensures { result
        ≡ unless (nat_le limits.quorum votes) (why.Quorum (told_count votes))
        ▹ unless (nat_le votes_for limits.minority) (why.For (told_count votes_for)) }
{
    if votes < limits.quorum as usize {
        return Some(Why::Quorum { votes: told(votes) });
    }
    if votes_for > limits.minority as usize {
        return Some(Why::For {
            votes: told(votes_for),
        });
    }
    None
}

/// Whether a minority at most votes against what came.
pub fn doubt_win(limits: Limits, votes: usize, votes_for: usize) -> Option<Why>
    requires { votes_for ≤ votes }
    ensures { result
        ≡ unless (nat_le (votes - votes_for) limits.minority) (why.Against (told_count (votes - votes_for))) }
{
    let votes_against = votes - votes_for;
    if votes_against > limits.minority as usize {
        return Some(Why::Against {
            votes: told(votes_against),
        });
    }
    None
}

pub fn limits_of(rules: &Rules, opening: &Opening<'_>) -> Limits
    ensures { result ≡ limits_of rules.now opening.now }
{
    opening.limits.unwrap_or(Limits {
        quorum: rules.quorum,
        minority: rules.minority,
    })
}

pub fn ballot_for(poller: PeerId, n: u32, opening: &Opening<'_>, count: u16) -> Ballot
    ensures { result ≡ ballot_for poller n opening.now count }
{
    Ballot {
        poll: PollName { poller, number: n },
        au: opening.au,
        kind: opening.kind,
        nonce: *opening.nonce,
        count,
    }
}

/// Whether the poll was opened once, on the AU and with numbers that obey the quorum rule, and shut.
#[tactic(auto, unfolding(crate::specs::Rules::is_polled))]
pub fn is_polled(limits: Limits, before: &[Record], r: &Repair<'_>, opening: &Opening<'_>) -> bool
    ensures { result ≡ rules.is_polled limits before.now r.now opening.now }
{
    count_openings(before, r.number) == 1
        && (opening.au == r.au
            && (is_shut(before, r.number) && obeys_quorum_rule(limits.quorum, limits.minority)))
}
