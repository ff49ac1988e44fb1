//! What the lines below the entries count and look up.
ghost use Rattle.std.specs.Prelude.{◌≡◌, ◌++◌, IfOk, OnOk};
ghost use Rattle.lks_report.specs.Scans.{step_actor, actor, own_notes, notes_of, replaces, version, is_inner_vote};
ghost use Rattle.lks_report.specs.Scans.{is_outer_vote, inner_votes, outer_votes, outcome_in, outcome_of, ticks_in};
ghost use Rattle.lks_report.specs.Alarms.{is_alarming_end, is_alarm, is_alarming, is_alarmed};

use lks_base::{AuId, Entry, Event, Note, Outcome, PeerId, PeerStep};
use std::alloc::{AllocError, Global};

#[tactic(auto, unfolding(crate::specs::Scans::step_actor))]
fn step_actor(step: &PeerStep, to: PeerId) -> PeerId
    ensures { result ≡ step_actor to step.now }
{
    match *step {
        PeerStep::OpenPoll { peer, .. }
        | PeerStep::Widen { peer, .. }
        | PeerStep::Shut { peer, .. }
        | PeerStep::Tally { peer, .. }
        | PeerStep::Nudge { peer, .. }
        | PeerStep::GiveUp { peer, .. }
        | PeerStep::Work { peer, .. }
        | PeerStep::Expire { peer, .. }
        | PeerStep::Check { peer }
        | PeerStep::Tune { peer, .. } => peer,
        PeerStep::Deliver { .. } => to,
    }
}

/// Whose notes the entry has: 0 where it is no peer's step.
#[tactic(auto, unfolding(crate::specs::Scans::actor))]
pub(crate) fn actor(entry: &Entry) -> PeerId
    ensures { result ≡ actor entry.now }
{
    match &entry.event {
        Event::Step(step) | Event::Cut { step, .. } => step_actor(step, entry.to),
        Event::Tick { .. } | Event::Lose { .. } | Event::Forge { .. } | Event::Crash { .. } => 0,
    }
}

#[tactic(auto, unfolding(crate::specs::Scans::own_notes))]
fn add_notes(notes: &mut Vec<Note>, peer: PeerId, entry: &Entry) -> Result<(), AllocError>
    ensures { OnOk result (notes.new.items ≡ notes.old.items ++ own_notes peer entry.now) }
{
    if actor(entry) == peer {
        notes.extend_from_slice(entry.notes.as_slice())?;
    }
    Ok(())
}

/// All notes of the peer, in order.
#[tactic(auto, unfolding(crate::specs::Scans::notes_of))]
pub(crate) fn notes_of(
    alloc: Global,
    peer: PeerId,
    history: &[Entry],
) -> Result<Vec<Note>, AllocError>
    ensures { IfOk result (λ notes. notes.items ≡ notes_of peer history.now) }
{
    let mut notes = Vec::new(alloc);
    for entry in history {
        add_notes(&mut notes, peer, entry)?;
    }
    Ok(notes)
}

#[tactic(auto, unfolding(crate::specs::Scans::replaces))]
fn replaces(note: &Note, au: AuId) -> bool
    ensures { result ≡ replaces au note.now }
{
    matches!(*note, Note::Replaced { au: replaced, .. } if replaced == au)
}

/// How often blocks of the AU were replaced.
#[tactic(auto, unfolding(crate::specs::Scans::version))]
pub(crate) fn version(notes: &[Note], au: AuId) -> usize
    ensures { result ≡ version au notes.now }
{
    notes.iter().filter(|note| replaces(note, au)).count()
}

#[tactic(auto, unfolding(crate::specs::Scans::is_inner_vote))]
fn is_inner_vote(note: &Note, poll: u32) -> bool
    ensures { result ≡ is_inner_vote poll note.now }
{
    matches!(*note, Note::VoteIn { number, inner, .. } if number == poll && inner)
}

#[tactic(auto, unfolding(crate::specs::Scans::is_outer_vote))]
fn is_outer_vote(note: &Note, poll: u32) -> bool
    ensures { result ≡ is_outer_vote poll note.now }
{
    matches!(*note, Note::VoteIn { number, inner, .. } if number == poll && !inner)
}

#[tactic(auto, unfolding(crate::specs::Scans::inner_votes))]
pub(crate) fn inner_votes(notes: &[Note], poll: u32) -> usize
    ensures { result ≡ inner_votes poll notes.now }
{
    notes
        .iter()
        .filter(|note| is_inner_vote(note, poll))
        .count()
}

#[tactic(auto, unfolding(crate::specs::Scans::outer_votes))]
pub(crate) fn outer_votes(notes: &[Note], poll: u32) -> usize
    ensures { result ≡ outer_votes poll notes.now }
{
    notes
        .iter()
        .filter(|note| is_outer_vote(note, poll))
        .count()
}

#[tactic(auto, unfolding(crate::specs::Scans::outcome_in))]
fn outcome_in(note: &Note, poll: u32) -> Option<Outcome>
    ensures { result ≡ outcome_in poll note.now }
{
    match *note {
        Note::Closed { number, outcome } if number == poll => Some(outcome),
        Note::Opened { .. }
        | Note::Nominated { .. }
        | Note::Outer { .. }
        | Note::VoteIn { .. }
        | Note::Shut { .. }
        | Note::Asked { .. }
        | Note::RepairBad { .. }
        | Note::Replaced { .. }
        | Note::Closed { .. }
        | Note::Overdue { .. }
        | Note::Joined { .. }
        | Note::Committed { .. }
        | Note::Voted { .. }
        | Note::Served { .. }
        | Note::Ended { .. }
        | Note::Tuned { .. } => None,
    }
}

/// How the poll ended first, if it did.
#[tactic(auto, unfolding(crate::specs::Scans::outcome_of))]
pub(crate) fn outcome_of(notes: &[Note], poll: u32) -> Option<Outcome>
    ensures { result ≡ outcome_of poll notes.now }
{
    for note in notes {
        if let Some(outcome) = outcome_in(note, poll) {
            return Some(outcome);
        }
    }
    None
}

#[tactic(auto, unfolding(crate::specs::Scans::ticks_in))]
pub(crate) fn ticks_in(entry: &Entry) -> u32
    ensures { result ≡ ticks_in entry.now }
{
    match entry.event {
        Event::Tick { by } => by,
        Event::Step(_)
        | Event::Cut { .. }
        | Event::Lose { .. }
        | Event::Forge { .. }
        | Event::Crash { .. } => 0,
    }
}

#[tactic(auto, unfolding(crate::specs::Alarms::is_alarming_end))]
fn is_alarming_end(outcome: Outcome) -> bool
    ensures { result ≡ is_alarming_end outcome }
{
    match outcome {
        Outcome::Agreed | Outcome::Inquorate => false,
        Outcome::Split { .. } | Outcome::NoSupplier { .. } => true,
    }
}

#[tactic(auto, unfolding(crate::specs::Alarms::is_alarm))]
pub(crate) fn is_alarm(note: &Note) -> bool
    ensures { result ≡ is_alarm note.now }
{
    match *note {
        Note::Closed { outcome, .. } => is_alarming_end(outcome),
        Note::Overdue { .. } => true,
        Note::Opened { .. }
        | Note::Nominated { .. }
        | Note::Outer { .. }
        | Note::VoteIn { .. }
        | Note::Shut { .. }
        | Note::Asked { .. }
        | Note::RepairBad { .. }
        | Note::Replaced { .. }
        | Note::Joined { .. }
        | Note::Committed { .. }
        | Note::Voted { .. }
        | Note::Served { .. }
        | Note::Ended { .. }
        | Note::Tuned { .. } => false,
    }
}

#[tactic(auto, unfolding(crate::specs::Alarms::is_alarming))]
fn is_alarming(entry: &Entry) -> bool
    ensures { result ≡ is_alarming entry.now }
{
    entry.notes.as_slice().iter().any(is_alarm)
}

/// Whether some note is an alarm.
#[tactic(auto, unfolding(crate::specs::Alarms::is_alarmed))]
pub fn has_alarm(history: &[Entry]) -> bool
    ensures { result ≡ is_alarmed history.now }
{
    history.iter().any(is_alarming)
}
