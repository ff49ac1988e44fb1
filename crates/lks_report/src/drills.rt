//! The one line of a drill.
ghost use Rattle.std.specs.Prelude.{◌≡◌, ◌≤◌, ◌++◌, ℕ, List, Some, IfOk, OnOk, OnErr, IsErrOf, count_by, string_bytes};
ghost use Rattle.lks_outside.specs.Counts.{Rose};
ghost use Rattle.lks_outside.specs.Streams.{AddsFront};
ghost use Rattle.lks_report.specs.Alarms.{is_alarm};
ghost use Rattle.lks_report.specs.Summary.{all_notes, is_opening, is_agreement, is_replacement, summary_text};

use crate::scans::is_alarm;
use lks_base::{Entry, Note, Outcome};
use lks_outside::{Sink, WriteStop, write_all};
use std::alloc::{AllocError, Global};

/// The notes of all entries, in order.
#[tactic(auto, unfolding(crate::specs::Summary::all_notes))]
fn all_notes(alloc: Global, history: &[Entry]) -> Result<Vec<Note>, AllocError>
    ensures { IfOk result (λ notes. notes.items ≡ all_notes history.now) }
{
    let mut notes = Vec::new(alloc);
    for entry in history {
        notes.extend_from_slice(entry.notes.as_slice())?;
    }
    Ok(notes)
}

#[tactic(auto, unfolding(crate::specs::Summary::is_opening))]
fn is_opening(note: &Note) -> bool
    ensures { result ≡ is_opening note.now }
{
    matches!(*note, Note::Opened { .. })
}

fn opened_polls(notes: &[Note]) -> usize
    ensures { result ≡ count_by is_opening notes.now }
{
    notes.iter().filter(|note| is_opening(note)).count()
}

#[tactic(auto, unfolding(crate::specs::Summary::is_agreement))]
fn is_agreement(note: &Note) -> bool
    ensures { result ≡ is_agreement note.now }
{
    matches!(
        *note,
        Note::Closed {
            outcome: Outcome::Agreed,
            ..
        }
    )
}

fn agreed_polls(notes: &[Note]) -> usize
    ensures { result ≡ count_by is_agreement notes.now }
{
    notes.iter().filter(|note| is_agreement(note)).count()
}

#[tactic(auto, unfolding(crate::specs::Summary::is_replacement))]
fn is_replacement(note: &Note) -> bool
    ensures { result ≡ is_replacement note.now }
{
    matches!(*note, Note::Replaced { .. })
}

fn replaced_blocks(notes: &[Note]) -> usize
    ensures { result ≡ count_by is_replacement notes.now }
{
    notes.iter().filter(|note| is_replacement(note)).count()
}

fn raised_alarms(notes: &[Note]) -> usize
    ensures { result ≡ count_by is_alarm notes.now }
{
    notes.iter().filter(|note| is_alarm(note)).count()
}

#[tactic(auto, unfolding(crate::specs::Summary::summary_text))]
fn summary_text(alloc: Global, seed: u64, history: &[Entry]) -> Result<String, AllocError>
    ensures { IfOk result (λ text. string_bytes text ≡ summary_text seed history.now) }
{
    let notes = all_notes(alloc, history)?;
    let notes = notes.as_slice();
    let events = history.len();
    let polls = opened_polls(notes);
    let agreed = agreed_polls(notes);
    let replaced = replaced_blocks(notes);
    let alarms = raised_alarms(notes);
    let mut out = String::new(alloc);
    write!(out, "drill {seed} events {events} polls {polls} ")?;
    writeln!(out, "agreed {agreed} replaced {replaced} alarms {alarms}")?;
    Ok(out)
}

/// Writes the one line of a drill: its seed, and how many events, polls, agreed polls, replaced
/// blocks and alarms its history has.
pub fn summary<K: Sink>(
    alloc: Global,
    seed: u64,
    history: &[Entry],
    sink: &mut K,
) -> Result<(), WriteStop>
    ensures whole { (bytes : List ℕ) → K.taken sink.old ≡ Some bytes →
        OnOk result (K.taken sink.new ≡ Some (bytes ++ summary_text seed history.now)) }
    ensures part { (bytes : List ℕ) → K.taken sink.old ≡ Some bytes →
        OnErr result (AddsFront bytes (summary_text seed history.now) (K.taken sink.new)) }
    ensures failed { IsErrOf result WriteStop.Failed →
        Rose (K.faults sink.old) (K.faults sink.new) }
    ensures count { K.faults sink.old ≤ K.faults sink.new }
{
    let Ok(text) = summary_text(alloc, seed, history) else {
        return Err(WriteStop::Memory);
    };
    write_all(sink, text.as_bytes())
}
