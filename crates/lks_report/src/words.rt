//! The words of events and notes.
ghost use Rattle.std.specs.Prelude.{◌≡◌, ◌++◌, OnOk, string_bytes};
ghost use Rattle.lks_report.specs.Words.{judged_words, delivery_words, step_words, event_words, outcome_words};
ghost use Rattle.lks_report.specs.Words.{grade_word, note_words, notes_words};

use lks_base::{AuId, Entry, Event, Judged, Note, Outcome, PeerStep, PollName};
use std::alloc::AllocError;

#[tactic(auto, unfolding(crate::specs::Words::judged_words))]
fn judged_text(judged: Judged) -> &'static str
    ensures { result.now ≡ judged_words judged }
{
    match judged {
        Judged::NotAsked => "",
        Judged::Accepted => " accepted",
        Judged::Refused => " refused",
    }
}

/// Of a delivery, from whom and to whom, and what the judge said.
#[tactic(auto, unfolding(crate::specs::Words::delivery_words))]
fn put_delivery(out: &mut String, from: u16, to: u16, step: &PeerStep) -> Result<(), AllocError>
    ensures { OnOk result
        (string_bytes out.new ≡ string_bytes out.old ++ delivery_words from to step.now) }
{
    match *step {
        PeerStep::Deliver { judged, .. } => write!(out, " {from} {to}{}", judged_text(judged)),
        PeerStep::OpenPoll { .. }
        | PeerStep::Widen { .. }
        | PeerStep::Shut { .. }
        | PeerStep::Tally { .. }
        | PeerStep::Nudge { .. }
        | PeerStep::GiveUp { .. }
        | PeerStep::Work { .. }
        | PeerStep::Expire { .. }
        | PeerStep::Check { .. }
        | PeerStep::Tune { .. } => Ok(()),
    }
}

#[tactic(auto, unfolding(crate::specs::Words::step_words))]
fn put_step(out: &mut String, from: u16, to: u16, step: &PeerStep) -> Result<(), AllocError>
    ensures { OnOk result
        (string_bytes out.new ≡ string_bytes out.old ++ step_words from to step.now) }
{
    lks_words::put_step(out, step)?;
    put_delivery(out, from, to, step)
}

#[tactic(auto, unfolding(crate::specs::Words::event_words))]
pub(crate) fn put_event(out: &mut String, entry: &Entry) -> Result<(), AllocError>
    ensures { OnOk result
        (string_bytes out.new ≡
        string_bytes out.old ++ event_words entry.now.from entry.now.to entry.now.event) }
{
    match &entry.event {
        Event::Step(step) => put_step(out, entry.from, entry.to, step),
        Event::Cut { step, kept } => {
            out.push_str(if *kept { "cut kept " } else { "cut lost " })?;
            put_step(out, entry.from, entry.to, step)
        }
        Event::Tick { by } => write!(out, "tick {by}"),
        Event::Lose { envelope } => write!(out, "lose {envelope}"),
        Event::Forge { from, to, bytes } => {
            let length = bytes.as_slice().len();
            write!(out, "forge {from} {to} {length}")
        }
        Event::Crash { peer } => write!(out, "crash {peer}"),
    }
}

#[tactic(auto, unfolding(crate::specs::Words::outcome_words))]
pub(crate) fn put_outcome(out: &mut String, outcome: Outcome) -> Result<(), AllocError>
    ensures { OnOk result (string_bytes out.new ≡ string_bytes out.old ++ outcome_words outcome) }
{
    match outcome {
        Outcome::Agreed => out.push_str("agreed"),
        Outcome::Inquorate => out.push_str("inquorate"),
        Outcome::Split { block } => write!(out, "split-{block}"),
        Outcome::NoSupplier { block } => write!(out, "no-supplier-{block}"),
    }
}

#[tactic(auto, unfolding(crate::specs::Words::grade_word))]
fn grade_text(low: bool) -> &'static str
    ensures { result.now ≡ grade_word low }
{
    if low { "low" } else { "high" }
}

#[tactic(auto, unfolding(crate::specs::Words::note_words))]
fn put_closed(out: &mut String, number: u32, outcome: Outcome) -> Result<(), AllocError>
    ensures { OnOk result
        (string_bytes out.new ≡ string_bytes out.old ++ note_words (Note.Closed number outcome)) }
{
    write!(out, "closed {number} ")?;
    put_outcome(out, outcome)
}

#[tactic(auto, unfolding(crate::specs::Words::note_words))]
fn put_joined(out: &mut String, poll: PollName, au: AuId, low: bool) -> Result<(), AllocError>
    ensures { OnOk result
        (string_bytes out.new ≡ string_bytes out.old ++ note_words (Note.Joined poll au low)) }
{
    let grade = grade_text(low);
    write!(out, "joined {} {} {au} {grade}", poll.poller, poll.number)
}

#[tactic(auto, unfolding(crate::specs::Words::note_words))]
fn put_committed(out: &mut String, poll: PollName, version: u32) -> Result<(), AllocError>
    ensures { OnOk result
        (string_bytes out.new ≡ string_bytes out.old ++ note_words (Note.Committed poll version)) }
{
    write!(out, "committed {} {} {version}", poll.poller, poll.number)
}

#[tactic(auto, unfolding(crate::specs::Words::note_words))]
fn put_served(out: &mut String, poll: PollName, block: u16) -> Result<(), AllocError>
    ensures { OnOk result
        (string_bytes out.new ≡ string_bytes out.old ++ note_words (Note.Served poll block)) }
{
    write!(out, "served {} {} {block}", poll.poller, poll.number)
}

#[tactic(auto, unfolding(crate::specs::Words::note_words))]
fn put_note(out: &mut String, note: &Note) -> Result<(), AllocError>
    ensures { OnOk result (string_bytes out.new ≡ string_bytes out.old ++ note_words note.now) }
{
    match *note {
        Note::Opened { number, au } => write!(out, "opened {number} {au}"),
        Note::Nominated { number, voter } => write!(out, "nominated {number} {voter}"),
        Note::Outer { number, count } => write!(out, "outer {number} {count}"),
        Note::VoteIn { number, voter, .. } => write!(out, "vote-in {number} {voter}"),
        Note::Shut { number } => write!(out, "shut {number}"),
        Note::Asked {
            number,
            block,
            voter,
        } => write!(out, "asked {number} {block} {voter}"),
        Note::RepairBad {
            number,
            block,
            voter,
        } => write!(out, "repair-bad {number} {block} {voter}"),
        Note::Replaced {
            number,
            au,
            block,
            length,
        } => write!(out, "replaced {number} {au} {block} {length}"),
        Note::Closed { number, outcome } => put_closed(out, number, outcome),
        Note::Overdue { au } => write!(out, "overdue {au}"),
        Note::Joined { poll, au, low } => put_joined(out, poll, au, low),
        Note::Committed { poll, version } => put_committed(out, poll, version),
        Note::Voted { poll } => write!(out, "voted {} {}", poll.poller, poll.number),
        Note::Served { poll, block } => put_served(out, poll, block),
        Note::Ended { poll } => write!(out, "ended {} {}", poll.poller, poll.number),
        Note::Tuned {
            quorum,
            minority,
            repairs,
        } => write!(out, "tuned {quorum} {minority} {repairs}"),
    }
}

#[tactic(auto, unfolding(crate::specs::Words::notes_words))]
pub(crate) fn put_notes(out: &mut String, notes: &[Note]) -> Result<(), AllocError>
    ensures { OnOk result (string_bytes out.new ≡ string_bytes out.old ++ notes_words notes.now) }
{
    let [first, rest @ ..] = notes else {
        return out.push('-');
    };
    put_note(out, first)?;
    for note in rest {
        out.push_str(", ")?;
        put_note(out, note)?;
    }
    Ok(())
}
