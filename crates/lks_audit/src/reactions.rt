//! What a peer adds and sends.

ghost use Rattle.std.specs.Prelude.{◌≡◌, IfOk, [], ◌∷◌};
ghost use Rattle.lks_law.specs.Reaction.{no_effect};

use lks_base::{OutOfMemory, Outgoing, Reaction, Record, Seq};
use std::alloc::Global;

/// Neither a record nor a message.
pub fn no_reaction(alloc: Global) -> Reaction
    ensures { result ≡ no_effect }
{
    Reaction {
        records: Seq::from_vec(Vec::new(alloc)),
        sends: Seq::from_vec(Vec::new(alloc)),
    }
}

/// One record, and these messages.
pub fn adding(alloc: Global, item: Record, sends: Seq<Outgoing>) -> Result<Reaction, OutOfMemory>
    ensures { IfOk result (λ r. r ≡ record { records = item ∷ []; sends = sends }) }
{
    let mut records = Vec::new(alloc);
    records.push(item)?;
    Ok(Reaction {
        records: Seq::from_vec(records),
        sends,
    })
}

/// No message.
pub fn no_sends(alloc: Global) -> Seq<Outgoing>
    ensures { result ≡ [] }
{
    Seq::from_vec(Vec::new(alloc))
}

/// Messages and no record.
pub fn telling(alloc: Global, sends: Seq<Outgoing>) -> Reaction
    ensures { result ≡ record { records = []; sends = sends } }
{
    Reaction {
        records: Seq::from_vec(Vec::new(alloc)),
        sends,
    }
}

/// One message and no record.
pub fn sending(alloc: Global, outgoing: Outgoing) -> Result<Reaction, OutOfMemory>
    ensures { IfOk result (λ r. r ≡ record { records = []; sends = outgoing ∷ [] }) }
{
    let mut sends = Vec::new(alloc);
    sends.push(outgoing)?;
    Ok(telling(alloc, Seq::from_vec(sends)))
}
