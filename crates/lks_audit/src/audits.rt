//! Which AUs weren't agreed for long.

ghost use Rattle.std.specs.Prelude.{◌≡◌, IfOk};
ghost use Rattle.lks_law.specs.Reacting.{must_note_copy, check_in};
ghost use Rattle.lks_law.specs.State.{copy_at};
ghost use Rattle.lks_audit.specs.Copied.{copies_of};

use crate::copies::{Held, find_copy};
use crate::reactions::no_sends;
use crate::stations::Station;
use lks_base::{AuId, OutOfMemory, Reaction, Record, Seq};
use std::alloc::Global;

fn must_note(own: &Station, copies: &[Held], tick: u32, au: AuId) -> bool
    ensures { result ≡ must_note_copy own.now tick (copy_at au (copies_of copies.now)) }
{
    match find_copy(copies, au) {
        Some(held) => own.rules.overdue < tick.saturating_sub(held.agreed) && !held.noted,
        None => false,
    }
}

/// A note of each held AU that is overdue, in the plan's order of AUs.
#[tactic(auto, unfolding(lks_law::specs::Reacting::check_in))]
pub fn check_aus(
    alloc: Global,
    own: &Station,
    copies: &[Held],
    tick: u32,
) -> Result<Reaction, OutOfMemory>
    ensures { IfOk result (λ r. r ≡ check_in own.now (copies_of copies.now) tick) }
{
    let mut records = Vec::new(alloc);
    for au in own.aus.as_slice() {
        if must_note(own, copies, tick, au.id) {
            records.push(Record::Overdue { au: au.id, tick })?;
        }
    }
    Ok(Reaction {
        records: Seq::from_vec(records),
        sends: no_sends(alloc),
    })
}
