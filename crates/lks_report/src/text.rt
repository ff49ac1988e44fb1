//! The report, built first and then written at once.
ghost use Rattle.std.specs.Prelude.{◌≡◌, ◌≤◌, ◌++◌, ℕ, List, Some, IfOk, OnOk, OnErr, IsErrOf, string_bytes};
ghost use Rattle.lks_outside.specs.Counts.{Rose};
ghost use Rattle.lks_outside.specs.Streams.{AddsFront};
ghost use Rattle.lks_report.specs.Text.{text_of};

use crate::lines::{put_alarms, put_copies, put_end, put_entries, put_polls};
use lks_base::{Entry, Plan};
use lks_outside::{Sink, WriteStop, write_all};
use std::alloc::{AllocError, Global};

#[tactic(auto, unfolding(crate::specs::Text::text_of))]
fn text_of(alloc: Global, plan: &Plan, history: &[Entry]) -> Result<String, AllocError>
    ensures { IfOk result (λ text. string_bytes text ≡ text_of plan.now history.now) }
{
    let mut out = String::new(alloc);
    writeln!(out, "lockss report 1")?;
    put_entries(&mut out, history)?;
    put_copies(alloc, &mut out, plan, history)?;
    put_polls(alloc, &mut out, plan, history)?;
    put_alarms(&mut out, history)?;
    put_end(&mut out, history)?;
    Ok(out)
}

/// Writes the report of a run: what happened, what the honest peers hold, how their polls stand,
/// and the alarms. The whole text is made first, so that the sink is called as seldom as it allows.
pub fn report<K: Sink>(
    alloc: Global,
    plan: &Plan,
    history: &[Entry],
    sink: &mut K,
) -> Result<(), WriteStop>
    ensures whole { (bytes : List ℕ) → K.taken sink.old ≡ Some bytes →
        OnOk result (K.taken sink.new ≡ Some (bytes ++ text_of plan.now history.now)) }
    ensures part { (bytes : List ℕ) → K.taken sink.old ≡ Some bytes →
        OnErr result (AddsFront bytes (text_of plan.now history.now) (K.taken sink.new)) }
    ensures failed { IsErrOf result WriteStop.Failed →
        Rose (K.faults sink.old) (K.faults sink.new) }
    ensures count { K.faults sink.old ≤ K.faults sink.new }
{
    let Ok(text) = text_of(alloc, plan, history) else {
        return Err(WriteStop::Memory);
    };
    write_all(sink, text.as_bytes())
}
