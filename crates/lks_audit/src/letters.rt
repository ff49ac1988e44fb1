//! Messages on their way out.

ghost use Rattle.std.specs.Prelude.{◌≡◌, IfOk, map};
ghost use Rattle.lks_base.specs.declared.messages.Message.TheVariants as message;
ghost use Rattle.lks_law.specs.Reaction.{letter};
ghost use Rattle.lks_message.specs.Spelling.{IsWithin};

use lks_base::{AuId, Message, OutOfMemory, Outgoing, PeerId, Seq};
use lks_message::encode;
use std::alloc::Global;

/// A message to a peer.
pub fn write(alloc: Global, message: &Message, to: PeerId) -> Result<Outgoing, OutOfMemory>
    requires { IsWithin message.now }
    ensures { IfOk result (λ o. o ≡ letter message.now to) }
{
    let bytes = encode(alloc, message)?;
    Ok(Outgoing {
        to,
        bytes: Seq::from_vec(bytes),
    })
}

/// An invitation to each of these peers, in order.
pub fn invite(
    alloc: Global,
    number: u32,
    au: AuId,
    to: &[PeerId],
) -> Result<Seq<Outgoing>, OutOfMemory>
    ensures { IfOk result (λ sends. sends ≡ map (letter (message.Poll number au)) to.now) }
{
    let mut sends = Vec::new(alloc);
    for peer in to {
        sends.push(write(alloc, &Message::Poll { number, au }, *peer)?)?;
    }
    Ok(Seq::from_vec(sends))
}

/// A receipt to each of these voters, in order.
pub fn give_receipts(
    alloc: Global,
    number: u32,
    voters: &[PeerId],
) -> Result<Seq<Outgoing>, OutOfMemory>
    ensures { IfOk result (λ sends. sends ≡ map (letter (message.Receipt number)) voters.now) }
{
    let mut sends = Vec::new(alloc);
    for voter in voters {
        sends.push(write(alloc, &Message::Receipt { number }, *voter)?)?;
    }
    Ok(Seq::from_vec(sends))
}
