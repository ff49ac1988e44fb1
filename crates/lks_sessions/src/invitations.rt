//! What a peer adds and sends for an invitation.

ghost use Rattle.std.specs.Prelude.{◌≡◌, ◌≤◌, IfOk, IfSome};
ghost use Rattle.lks_base.specs.declared.plans.Rules.{Rules};
ghost use Rattle.lks_draw.specs.Words.{Drawn};
ghost use Rattle.lks_choice.specs.Grading as grading;
ghost use Rattle.lks_choice.specs.declared.grades.Grade.{Grade as GradeOf};
ghost use Rattle.lks_law.specs.Answering as answering;
ghost use Rattle.lks_law.specs.Answering.{invitation_in, may_join_in, joined_now};
ghost use Rattle.lks_law.specs.Voting.{answers, challenge};
ghost use Rattle.lks_audit.specs.Copied.{copies_of};
ghost use Rattle.lks_sessions.specs.Kept.{voter_of};

use crate::draws::draw_admission;
use crate::sessions::Sessions;
use lks_audit::letters::write;
use lks_audit::reactions::{adding, sending};
use lks_audit::{Held, Station, find_copy};
use lks_base::{
    AuId, Message, OutOfMemory, Outgoing, PeerId, PollName, Reaction, Record, Seq, has_member,
};
use lks_choice::{Grade, admits, grade_of, is_low};
use std::alloc::Global;

/// The grade of a peer, from the votes each way.
#[tactic(auto, unfolding(lks_law::specs::Answering::grade_in))]
fn grade(own: &Station, sessions: &Sessions, peer: PeerId) -> Grade
    ensures { result ≡ answering.grade_in own.now (voter_of sessions.now) peer }
{
    let mark = sessions.mark(peer);
    grade_of(
        mark.received(),
        mark.given(),
        has_member(own.friends.as_slice(), peer),
    )
}

/// Ticks are cut off at this one, which changes no admission at it.
#[tactic(auto, using(crate::proofs::Admitting::cut_admits))]
fn cut_off(last_low: Option<u32>, tick: u32) -> Option<u32>
    ensures past { IfSome result (λ last. last ≤ tick) }
    ensures same { (g : GradeOf) (rules : Rules) (d : Drawn)
        → grading.is_admitted g rules result tick d ≡ grading.is_admitted g rules last_low tick d }
{
    match last_low {
        Some(last) => Some(last.min(tick)),
        None => None,
    }
}

#[tactic(auto, unfolding(lks_law::specs::Answering::is_admitted_in))]
fn is_admitted(own: &Station, sessions: &Sessions, tick: u32, poll: PollName) -> bool
    ensures { result ≡ answering.is_admitted_in own.now (voter_of sessions.now) tick poll }
{
    let grade = grade(own, sessions, poll.poller);
    let last_low = cut_off(sessions.last_low(), tick);
    let mut draws = draw_admission(own, poll);
    admits(grade, &own.rules, last_low, tick, &mut draws)
}

#[tactic(auto, unfolding(lks_law::specs::Answering::may_join_in))]
fn may_join(
    own: &Station,
    sessions: &Sessions,
    copies: &[Held],
    tick: u32,
    poll: PollName,
    au: AuId,
) -> bool
    ensures { result ≡ may_join_in own.now (voter_of sessions.now) (copies_of copies.now) tick poll au }
{
    !sessions.was_ended(poll)
        && find_copy(copies, au).is_some()
        && sessions.has_room()
        && is_admitted(own, sessions, tick, poll)
}

fn write_challenge(alloc: Global, poll: PollName, yes: bool) -> Result<Outgoing, OutOfMemory>
    ensures { IfOk result (λ o. o ≡ challenge poll yes) }
{
    let message = Message::PollChallenge {
        number: poll.number,
        yes,
    };
    write(alloc, &message, poll.poller)
}

fn answer(alloc: Global, poll: PollName, yes: bool) -> Result<Reaction, OutOfMemory>
    ensures { IfOk result (λ r. r ≡ answers (challenge poll yes)) }
{
    sending(alloc, write_challenge(alloc, poll, yes)?)
}

fn join(
    alloc: Global,
    own: &Station,
    sessions: &Sessions,
    repairs: u16,
    tick: u32,
    poll: PollName,
    au: AuId,
) -> Result<Reaction, OutOfMemory>
    ensures { IfOk result (λ r. r ≡ joined_now own.now (voter_of sessions.now) repairs tick poll au) }
{
    let item = Record::Joined {
        poll,
        au,
        tick,
        low: is_low(grade(own, sessions, poll.poller)),
        repairs: Some(repairs),
    };
    let mut sends = Vec::new(alloc);
    sends.push(write_challenge(alloc, poll, true)?)?;
    adding(alloc, item, Seq::from_vec(sends))
}

/// Answers an invitation: yes in a session that is open; else the peer joins a poll on an AU that it holds, in which it
/// wasn't, if there is room for a session and the poller is admitted. The poller may then have so many blocks.
#[tactic(auto, unfolding(lks_law::specs::Answering::invitation_in))]
pub fn answer_invitation(
    alloc: Global,
    own: &Station,
    sessions: &Sessions,
    copies: &[Held],
    repairs: u16,
    tick: u32,
    poll: PollName,
    au: AuId,
) -> Result<Reaction, OutOfMemory>
    ensures { IfOk result
        (λ r. r ≡ invitation_in own.now (voter_of sessions.now) (copies_of copies.now) repairs tick poll au) }
{
    if sessions.is_open(poll) {
        return answer(alloc, poll, true);
    }
    if !may_join(own, sessions, copies, tick, poll, au) {
        return answer(alloc, poll, false);
    }
    join(alloc, own, sessions, repairs, tick, poll, au)
}
