//! The lines of the report.
ghost use Rattle.std.specs.Prelude.{◌≡◌, ◌++◌, [], OnOk, string_bytes};
ghost use Rattle.std.specs.Option.{option_map_or};
ghost use Rattle.lks_law.specs.Alarms.{closing_alarm};
ghost use Rattle.lks_report.specs.Text.{entry_line, entry_lines, copy_line, peer_copies, copy_lines, status_words};
ghost use Rattle.lks_report.specs.Text.{poll_line, opened_line, peer_polls, poll_lines, alarm_text, alarm_line};
ghost use Rattle.lks_report.specs.Text.{entry_alarms, alarm_lines, end_line};

use crate::scans::{actor, inner_votes, notes_of, outcome_of, outer_votes, ticks_in, version};
use crate::words::{put_event, put_notes, put_outcome};
use lks_base::{AuId, AuPlan, Entry, Note, Outcome, PeerId, PeerPlan, Plan, has_copy};
use std::alloc::{AllocError, Global};

#[tactic(auto, unfolding(crate::specs::Text::entry_line))]
fn put_entry(out: &mut String, number: usize, entry: &Entry) -> Result<(), AllocError>
    ensures { OnOk result
        (string_bytes out.new ≡ string_bytes out.old ++ entry_line number entry.now) }
{
    write!(out, "{number} ")?;
    put_event(out, entry)?;
    out.push_str(" | ")?;
    put_notes(out, entry.notes.as_slice())?;
    writeln!(out, " | {}", entry.sends)
}

#[tactic(auto, unfolding(crate::specs::Text::entry_lines))]
pub(crate) fn put_entries(out: &mut String, history: &[Entry]) -> Result<(), AllocError>
    ensures { OnOk result (string_bytes out.new ≡ string_bytes out.old ++ entry_lines history.now) }
{
    for (i, entry) in history.iter().enumerate() {
        put_entry(out, i + 1, entry)?;
    }
    Ok(())
}

#[tactic(auto, unfolding(crate::specs::Text::copy_line))]
fn put_copy(
    out: &mut String,
    peer: &PeerPlan,
    notes: &[Note],
    au: &AuPlan,
) -> Result<(), AllocError>
    ensures { OnOk result
        (string_bytes out.new ≡ string_bytes out.old ++ copy_line peer.now notes.now au.now) }
{
    if has_copy(peer.copies.as_slice(), au.id) {
        let version = version(notes, au.id);
        writeln!(out, "copy {} {} {version}", peer.id, au.id)?;
    }
    Ok(())
}

#[tactic(auto, unfolding(crate::specs::Text::peer_copies))]
fn put_peer_copies(
    alloc: Global,
    out: &mut String,
    aus: &[AuPlan],
    history: &[Entry],
    peer: &PeerPlan,
) -> Result<(), AllocError>
    ensures { OnOk result
        (string_bytes out.new ≡ string_bytes out.old ++ peer_copies aus.now history.now peer.now) }
{
    if peer.corrupt {
        return Ok(());
    }
    let notes = notes_of(alloc, peer.id, history)?;
    for au in aus {
        put_copy(out, peer, notes.as_slice(), au)?;
    }
    Ok(())
}

#[tactic(auto, unfolding(crate::specs::Text::copy_lines))]
pub(crate) fn put_copies(
    alloc: Global,
    out: &mut String,
    plan: &Plan,
    history: &[Entry],
) -> Result<(), AllocError>
    ensures { OnOk result
        (string_bytes out.new ≡ string_bytes out.old ++ copy_lines plan.now history.now) }
{
    let aus = plan.aus.as_slice();
    let peers = plan.peers.as_slice();
    for peer in peers {
        put_peer_copies(alloc, out, aus, history, peer)?;
    }
    Ok(())
}

#[tactic(auto, unfolding(crate::specs::Text::status_words))]
fn put_status(out: &mut String, outcome: Option<Outcome>) -> Result<(), AllocError>
    ensures { OnOk result (string_bytes out.new ≡ string_bytes out.old ++ status_words outcome) }
{
    match outcome {
        Some(outcome) => put_outcome(out, outcome),
        None => out.push_str("running"),
    }
}

#[tactic(auto, unfolding(crate::specs::Text::poll_line))]
fn put_poll(
    out: &mut String,
    peer: PeerId,
    notes: &[Note],
    number: u32,
    au: AuId,
) -> Result<(), AllocError>
    ensures { OnOk result
        (string_bytes out.new ≡ string_bytes out.old ++ poll_line peer notes.now number au) }
{
    let inner = inner_votes(notes, number);
    let outer = outer_votes(notes, number);
    write!(out, "poll {peer} {number} {au} {inner} {outer} ")?;
    put_status(out, outcome_of(notes, number))?;
    out.push('\n')
}

#[tactic(auto, unfolding(crate::specs::Text::opened_line))]
fn put_opened(out: &mut String, peer: PeerId, notes: &[Note], note: &Note) -> Result<(), AllocError>
    ensures { OnOk result
        (string_bytes out.new ≡ string_bytes out.old ++ opened_line peer notes.now note.now) }
{
    match *note {
        Note::Opened { number, au } => put_poll(out, peer, notes, number, au),
        Note::Nominated { .. }
        | Note::Outer { .. }
        | Note::VoteIn { .. }
        | Note::Shut { .. }
        | Note::Asked { .. }
        | Note::RepairBad { .. }
        | Note::Replaced { .. }
        | Note::Closed { .. }
        | Note::Overdue { .. }
        | Note::Joined { .. }
        | Note::Committed { .. }
        | Note::Voted { .. }
        | Note::Served { .. }
        | Note::Ended { .. }
        | Note::Tuned { .. } => Ok(()),
    }
}

#[tactic(auto, unfolding(crate::specs::Text::peer_polls))]
fn put_peer_polls(
    alloc: Global,
    out: &mut String,
    history: &[Entry],
    peer: &PeerPlan,
) -> Result<(), AllocError>
    ensures { OnOk result
        (string_bytes out.new ≡ string_bytes out.old ++ peer_polls history.now peer.now) }
{
    if peer.corrupt {
        return Ok(());
    }
    let notes = notes_of(alloc, peer.id, history)?;
    let notes = notes.as_slice();
    for note in notes {
        put_opened(out, peer.id, notes, note)?;
    }
    Ok(())
}

#[tactic(auto, unfolding(crate::specs::Text::poll_lines))]
pub(crate) fn put_polls(
    alloc: Global,
    out: &mut String,
    plan: &Plan,
    history: &[Entry],
) -> Result<(), AllocError>
    ensures { OnOk result
        (string_bytes out.new ≡ string_bytes out.old ++ poll_lines plan.now history.now) }
{
    let peers = plan.peers.as_slice();
    for peer in peers {
        put_peer_polls(alloc, out, history, peer)?;
    }
    Ok(())
}

fn put_closing_alarm(
    out: &mut String,
    peer: PeerId,
    tick: u128,
    number: u32,
    outcome: Outcome,
) -> Result<(), AllocError>
    ensures { OnOk result
        (string_bytes out.new
        ≡ string_bytes out.old ++ option_map_or alarm_text (closing_alarm peer tick number outcome) []) }
{
    match outcome {
        Outcome::Agreed | Outcome::Inquorate => Ok(()),
        Outcome::Split { block } => writeln!(out, "alarm {peer} {tick} split {number} {block}"),
        Outcome::NoSupplier { block } => {
            writeln!(out, "alarm {peer} {tick} no-supplier {number} {block}")
        }
    }
}

#[tactic(auto, unfolding(crate::specs::Text::alarm_line))]
fn put_alarm(out: &mut String, peer: PeerId, tick: u128, note: &Note) -> Result<(), AllocError>
    ensures { OnOk result
        (string_bytes out.new ≡ string_bytes out.old ++ alarm_line peer tick note.now) }
{
    match *note {
        Note::Closed { number, outcome } => put_closing_alarm(out, peer, tick, number, outcome),
        Note::Overdue { au } => writeln!(out, "alarm {peer} {tick} overdue {au}"),
        Note::Opened { .. }
        | Note::Nominated { .. }
        | Note::Outer { .. }
        | Note::VoteIn { .. }
        | Note::Shut { .. }
        | Note::Asked { .. }
        | Note::RepairBad { .. }
        | Note::Replaced { .. }
        | Note::Joined { .. }
        | Note::Committed { .. }
        | Note::Voted { .. }
        | Note::Served { .. }
        | Note::Ended { .. }
        | Note::Tuned { .. } => Ok(()),
    }
}

#[tactic(auto, unfolding(crate::specs::Text::entry_alarms))]
fn put_entry_alarms(out: &mut String, tick: u128, entry: &Entry) -> Result<(), AllocError>
    ensures { OnOk result
        (string_bytes out.new ≡ string_bytes out.old ++ entry_alarms tick entry.now) }
{
    let peer = actor(entry);
    let notes = entry.notes.as_slice();
    for note in notes {
        put_alarm(out, peer, tick, note)?;
    }
    Ok(())
}

#[tactic(auto, unfolding(crate::specs::Text::alarm_lines))]
pub(crate) fn put_alarms(out: &mut String, history: &[Entry]) -> Result<(), AllocError>
    ensures { OnOk result (string_bytes out.new ≡ string_bytes out.old ++ alarm_lines history.now) }
{
    // Wide enough for the ticks of any history.
    let mut tick = 0u128;
    for entry in history {
        put_entry_alarms(out, tick, entry)?;
        tick += u128::from(ticks_in(entry));
    }
    Ok(())
}

#[tactic(auto, unfolding(crate::specs::Text::end_line))]
pub(crate) fn put_end(out: &mut String, history: &[Entry]) -> Result<(), AllocError>
    ensures { OnOk result (string_bytes out.new ≡ string_bytes out.old ++ end_line history.now) }
{
    writeln!(out, "end {}", history.len())
}
