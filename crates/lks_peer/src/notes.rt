//! Notes of records, for a report.

ghost use Rattle.std.specs.Prelude.{◌≡◌, IfOk};
ghost use Rattle.std.specs.List.{filter_map};
ghost use Rattle.lks_law.specs.Entries.{session_note_of, note_with};
ghost use Rattle.lks_law.specs.Turning.{has_inner_in};

use crate::peers::Peer;
use lks_base::{Note, OutOfMemory, Record, Seq};
use std::alloc::Global;

#[tactic(auto, unfolding(lks_law::specs::Entries::session_note_of))]
fn session_note(item: &Record) -> Option<Note>
    ensures { result ≡ session_note_of item.now }
{
    match item {
        Record::Overdue { au, .. } => Some(Note::Overdue { au: *au }),
        Record::Joined { poll, au, low, .. } => Some(Note::Joined {
            poll: *poll,
            au: *au,
            low: *low,
        }),
        Record::Committed { poll, version, .. } => Some(Note::Committed {
            poll: *poll,
            version: *version,
        }),
        Record::Voted { poll, .. } => Some(Note::Voted { poll: *poll }),
        Record::Served { poll, block } => Some(Note::Served {
            poll: *poll,
            block: *block,
        }),
        Record::Ended { poll } => Some(Note::Ended { poll: *poll }),
        Record::Tuned {
            quorum,
            minority,
            repairs,
        } => Some(Note::Tuned {
            quorum: *quorum,
            minority: *minority,
            repairs: *repairs,
        }),
        Record::Deposit { .. }
        | Record::PollOpened { .. }
        | Record::Nominated { .. }
        | Record::OuterOpened { .. }
        | Record::VoteIn { .. }
        | Record::Shut { .. }
        | Record::Asked { .. }
        | Record::RepairBad { .. }
        | Record::Replaced { .. }
        | Record::Closed { .. } => None,
    }
}

#[tactic(auto, unfolding(lks_law::specs::Entries::note_with))]
fn note(peer: &Peer, item: &Record) -> Option<Note>
    ensures { result ≡ note_with (has_inner_in peer.now.state) item.now }
{
    match item {
        Record::Deposit { .. } => None,
        Record::PollOpened { number, au, .. } => Some(Note::Opened {
            number: *number,
            au: *au,
        }),
        Record::Nominated { number, voter, .. } => Some(Note::Nominated {
            number: *number,
            voter: *voter,
        }),
        Record::OuterOpened { number, outer } => Some(Note::Outer {
            number: *number,
            count: outer.as_slice().len().min(u16::MAX as usize) as u16,
        }),
        Record::VoteIn { number, voter, .. } => Some(Note::VoteIn {
            number: *number,
            voter: *voter,
            inner: peer.has_inner(*number, *voter),
        }),
        Record::Shut { number } => Some(Note::Shut { number: *number }),
        Record::Asked {
            number,
            block,
            voter,
        } => Some(Note::Asked {
            number: *number,
            block: *block,
            voter: *voter,
        }),
        Record::RepairBad {
            number,
            block,
            voter,
        } => Some(Note::RepairBad {
            number: *number,
            block: *block,
            voter: *voter,
        }),
        Record::Replaced {
            number,
            au,
            block,
            bytes,
        } => Some(Note::Replaced {
            number: *number,
            au: *au,
            block: *block,
            length: bytes.as_slice().len().min(u16::MAX as usize) as u16,
        }),
        Record::Closed {
            number,
            outcome,
            ..
        } => Some(Note::Closed {
            number: *number,
            outcome: *outcome,
        }),
        Record::Overdue { .. }
        | Record::Joined { .. }
        | Record::Committed { .. }
        | Record::Voted { .. }
        | Record::Served { .. }
        | Record::Ended { .. }
        | Record::Tuned { .. } => session_note(item),
    }
}

/// The notes of records that were noted by the peer.
pub fn notes(alloc: Global, peer: &Peer, records: &[Record]) -> Result<Seq<Note>, OutOfMemory>
    ensures { IfOk result (λ notes. notes ≡ filter_map (note_with (has_inner_in peer.now.state)) records.now) }
{
    let mut notes = Vec::new(alloc);
    for item in records {
        if let Some(note) = note(peer, item) {
            notes.push(note)?;
        }
    }
    Ok(Seq::from_vec(notes))
}
