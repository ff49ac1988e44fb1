//! The line on what journals are found to be.

ghost use Rattle.std.specs.Prelude.{◌≡◌, ◌≤◌, ◌++◌, ℕ, List, Some, IfOk, OnOk, OnErr, IsErrOf, string_bytes};
ghost use Rattle.lks_outside.specs.Counts.{Rose};
ghost use Rattle.lks_outside.specs.Streams.{AddsFront};
ghost use Rattle.lockss.specs.Findings.{why_words, finding_words, finding_text, is_doubt};
ghost use Rattle.lockss.specs.Promise.{Writes};

use lks_evidence::{Doubt, Finding, Why};
use lks_outside::{Sink, WriteStop, write_all};
use std::alloc::{AllocError, Global};

#[tactic(auto, unfolding(crate::specs::Findings::why_words))]
fn put_why(out: &mut String, why: Why) -> Result<(), AllocError>
    ensures { OnOk result (string_bytes out.new ≡ string_bytes out.old ++ why_words why) }
{
    match why {
        Why::Peer => out.push_str("peer"),
        Why::Copy => out.push_str("copy"),
        Why::Poll => out.push_str("poll"),
        Why::Twice { voter } => write!(out, "twice {voter}"),
        Why::Length { voter } => write!(out, "length {voter}"),
        Why::Quorum { votes } => write!(out, "quorum {votes}"),
        Why::For { votes } => write!(out, "for {votes}"),
        Why::Against { votes } => write!(out, "against {votes}"),
        Why::Vote { voter } => write!(out, "vote {voter}"),
    }
}

#[tactic(auto, unfolding(crate::specs::Findings::finding_words))]
fn put_doubt(out: &mut String, doubt: Doubt) -> Result<(), AllocError>
    ensures { OnOk result (string_bytes out.new ≡ string_bytes out.old ++ finding_words (Finding.No doubt)) }
{
    write!(out, "evidence no {} {} ", doubt.peer, doubt.place)?;
    put_why(out, doubt.why)
}

#[tactic(auto, unfolding(crate::specs::Findings::finding_words))]
fn put_finding(out: &mut String, finding: Finding) -> Result<(), AllocError>
    ensures { OnOk result (string_bytes out.new ≡ string_bytes out.old ++ finding_words finding) }
{
    match finding {
        Finding::Yes { replaced } => write!(out, "evidence yes {replaced}"),
        Finding::No(doubt) => put_doubt(out, doubt),
    }
}

#[tactic(auto, unfolding(crate::specs::Findings::finding_text))]
fn finding_text(alloc: Global, finding: Finding) -> Result<String, AllocError>
    ensures { IfOk result (λ text. string_bytes text ≡ finding_text finding) }
{
    let mut out = String::new(alloc);
    put_finding(&mut out, finding)?;
    out.push_str("\n")?;
    Ok(out)
}

fn write_finding<K: Sink>(alloc: Global, finding: Finding, sink: &mut K) -> Result<(), WriteStop>
    ensures whole { (bytes : List ℕ) → K.taken sink.old ≡ Some bytes →
        OnOk result (K.taken sink.new ≡ Some (bytes ++ finding_text finding)) }
    ensures part { (bytes : List ℕ) → K.taken sink.old ≡ Some bytes →
        OnErr result (AddsFront bytes (finding_text finding) (K.taken sink.new)) }
    ensures failed { IsErrOf result WriteStop.Failed → Rose (K.faults sink.old) (K.faults sink.new) }
    ensures count { K.faults sink.old ≤ K.faults sink.new }
{
    let Ok(text) = finding_text(alloc, finding) else {
        return Err(WriteStop::Memory);
    };
    write_all(sink, text.as_bytes())
}

/// Writes the line of a finding, and answers whether something is doubted.
pub fn tell_finding<K: Sink>(
    alloc: Global,
    finding: Finding,
    sink: &mut K,
) -> Result<bool, WriteStop>
    ensures writes { Writes K.taken K.faults (finding_text finding) (is_doubt finding) sink.old sink.new result }
    ensures count { K.faults sink.old ≤ K.faults sink.new }
{
    write_finding(alloc, finding, sink)?;
    Ok(matches!(finding, Finding::No(_)))
}
