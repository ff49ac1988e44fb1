//! Whether a peer opens a poll, and what it adds and sends then.

ghost use Rattle.std.specs.Prelude.{◌≡◌, ◌<◌, ◌==◌, ◌+◌, nat_lt, length, IfOk};
ghost use Rattle.std.specs.List.{list_any};
ghost use Rattle.lks_audit.specs.Seen.{polls_of};
ghost use Rattle.lks_law.specs.Fitting.{most_numbered};
ghost use Rattle.lks_law.specs.Reacting as reacting;
ghost use Rattle.lks_law.specs.Reacting.{may_open_in, opened_as, open_in};
ghost use Rattle.lks_peer.specs.Knows.{state_of};

use crate::known::Known;
use lks_audit::letters::invite;
use lks_audit::reactions::{adding, no_reaction};
use lks_audit::{Station, find_copy, sample_inner};
use lks_base::{AuId, Limits, OutOfMemory, Reaction, Record};
use lks_hash::nonce_of;
use lks_poller::PollSession;
use std::alloc::Global;

/// The most polls of a peer that run at once.
const MOST_POLLS: usize = 8;

fn is_recent(opened: Option<u32>, tick: u32, pace: u32) -> bool
    ensures { result ≡ reacting.is_recent opened tick pace }
{
    match opened {
        Some(before) => tick.saturating_sub(before) < pace,
        None => false,
    }
}

fn any_on(polls: &[PollSession], au: AuId) -> bool
    ensures { result ≡ list_any (λ s. s.tally.ballot.au == au) polls.now }
{
    polls.iter().any(|poll| poll.au() == au)
}

fn has_poll_on(polls: &[PollSession], au: AuId) -> bool
    ensures { result ≡ list_any (λ p. p.opening.au == au) (polls_of polls.now) }
{
    any_on(polls, au)
}

#[tactic(auto, using(crate::proofs::Listing::count_seen))]
fn has_place(polls: &[PollSession]) -> bool
    ensures { result ≡ nat_lt (length (polls_of polls.now)) 8 }
{
    polls.len() < MOST_POLLS
}

#[tactic(auto, unfolding(lks_law::specs::Reacting::may_open_in))]
fn may_open(own: &Station, known: &Known, tick: u32, au: AuId) -> bool
    ensures { result ≡ may_open_in own.now (state_of known.now) tick au }
{
    let polls = known.polls.as_slice();
    match find_copy(known.copies.as_slice(), au) {
        Some(held) => {
            !has_poll_on(polls, au)
                && has_place(polls)
                && !is_recent(held.opened, tick, own.rules.pace)
        }
        None => false,
    }
}

fn open_as(
    alloc: Global,
    own: &Station,
    known: &Known,
    tick: u32,
    au: AuId,
) -> Result<Reaction, OutOfMemory>
    requires { known.now.openings < most_numbered }
    ensures { IfOk result (λ r. r ≡ opened_as own.now (state_of known.now) tick au (known.now.openings + 1)) }
{
    let number = known.openings + 1;
    let inner = sample_inner(alloc, own, number, known.references.list())?;
    let sends = invite(alloc, number, au, inner.as_slice())?;
    let item = Record::PollOpened {
        number,
        au,
        nonce: nonce_of(&own.seed, number),
        inner,
        tick,
        limits: Some(Limits {
            quorum: known.numbers.quorum,
            minority: known.numbers.minority,
        }),
        kind: own.hash,
    };
    adding(alloc, item, sends)
}

/// Opens a poll on a held AU with no running poll on it, while fewer than 8 run, and not within `pace` ticks of the
/// last one on it.
#[tactic(auto, unfolding(lks_law::specs::Reacting::open_in))]
pub fn open(
    alloc: Global,
    own: &Station,
    known: &Known,
    tick: u32,
    au: AuId,
) -> Result<Reaction, OutOfMemory>
    requires { known.now.openings < most_numbered }
    ensures { IfOk result (λ r. r ≡ open_in own.now (state_of known.now) tick au) }
{
    if !may_open(own, known, tick, au) {
        return Ok(no_reaction(alloc));
    }
    open_as(alloc, own, known, tick, au)
}
