//! Polls that are opened.

ghost use Rattle.std.specs.Prelude.{◌≡◌, ◌≤◌, ℕ, List, IfOk, length};
ghost use Rattle.lks_base.specs.declared.limits.TheConstants.{MOST_CIRCLE};
ghost use Rattle.lks_law.specs.Polls.{limits_of};
ghost use Rattle.lks_law.specs.State.{begun_poll, settled_opening};
ghost use Rattle.lks_audit.specs.Counted.{IsCountedOn};
ghost use Rattle.lks_audit.specs.Seen.{poll_of};

use crate::stations::Station;
use lks_base::{OutOfMemory, PollName, Rules};
use lks_law::Opening;
use lks_poller::PollSession;
use std::alloc::Global;

// The rules with the numbers of this poll.
fn rules_for(rules: &Rules, opening: &Opening<'_>) -> Rules
    ensures quorum { result.quorum ≡ (limits_of rules.now opening.now).quorum }
    ensures minority { result.minority ≡ (limits_of rules.now opening.now).minority }
{
    let mut rules = *rules;
    if let Some(limits) = opening.limits {
        rules.quorum = limits.quorum;
        rules.minority = limits.minority;
    }
    rules
}

/// A poll whose inner circle is invited, on an AU with so many blocks.
#[tactic(auto, using(crate::proofs::Counts::counted_begun))]
pub fn begin(
    alloc: Global,
    own: &Station,
    number: u32,
    count: u16,
    opening: &Opening<'_>,
) -> Result<PollSession, OutOfMemory>
    requires few { length opening.now.inner ≤ MOST_CIRCLE }
    requires some { 1 ≤ count }
    ensures seen { IfOk result (λ s. poll_of s ≡ begun_poll number (settled_opening own.now.rules opening.now)) }
    ensures au { IfOk result (λ s. s.tally.ballot.au ≡ opening.now.au) }
    ensures kept { IfOk result (λ s. s.tally.kept ≡ 0) }
    ensures on { (blocks : List (List ℕ)) → count ≡ length blocks → IfOk result (λ s. IsCountedOn own.now.id blocks s) }
{
    let poll = PollName {
        poller: own.id,
        number,
    };
    let inner = opening.inner.clone()?;
    let rules = rules_for(&own.rules, opening);
    let session = PollSession::new(
        alloc,
        &rules,
        poll,
        opening.au,
        count,
        opening.kind,
        *opening.nonce,
        inner,
    )?;
    Ok(session)
}
