//! Copies of entries.

ghost use Rattle.std.specs.Prelude.{◌≡◌, IfOk};

use lks_base::{Entry, Event, Note, OutOfMemory, Seq};
use std::alloc::Global;

fn copy_event(event: &Event) -> Result<Event, OutOfMemory>
    ensures { IfOk result (λ e. e ≡ event.now) }
{
    Ok(match event {
        Event::Step(step) => Event::Step(*step),
        Event::Cut { step, kept } => Event::Cut {
            step: *step,
            kept: *kept,
        },
        Event::Tick { by } => Event::Tick { by: *by },
        Event::Lose { envelope } => Event::Lose {
            envelope: *envelope,
        },
        Event::Forge { from, to, bytes } => Event::Forge {
            from: *from,
            to: *to,
            bytes: bytes.clone()?,
        },
        Event::Crash { peer } => Event::Crash { peer: *peer },
    })
}

fn copy_notes(alloc: Global, notes: &[Note]) -> Result<Seq<Note>, OutOfMemory>
    ensures { IfOk result (λ copy. copy ≡ notes.now) }
{
    let mut copy = Vec::with_capacity(alloc, notes.len())?;
    for note in notes {
        copy.push(*note)?;
    }
    Ok(Seq::from_vec(copy))
}

/// A copy of an entry.
pub fn copy_entry(alloc: Global, entry: &Entry) -> Result<Entry, OutOfMemory>
    ensures { IfOk result (λ copy. copy ≡ entry.now) }
{
    Ok(Entry {
        event: copy_event(&entry.event)?,
        from: entry.from,
        to: entry.to,
        notes: copy_notes(alloc, entry.notes.as_slice())?,
        sends: entry.sends,
    })
}
