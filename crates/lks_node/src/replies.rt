//! What a node answers to a frame.
ghost use Rattle.std.specs.Prelude.{◌≡◌, ◌++◌, IfOk, OnOk, length};
ghost use Rattle.lks_node.specs.Replies.{reply, reply_body, send_bytes, sends_bytes};

use lks_base::{Outgoing, Reaction};
use lks_field::{OutOfMemory, put_be16, put_be32, put_bytes};
use std::alloc::Global;

/// A number as it is counted in a reply. One that no memory reaches is want of memory.
fn count16(n: usize) -> Result<u16, OutOfMemory>
    ensures { IfOk result (λ m. m ≡ n) }
{
    u16::try_from(n).map_err(|_| OutOfMemory)
}

fn count32(n: usize) -> Result<u32, OutOfMemory>
    ensures { IfOk result (λ m. m ≡ n) }
{
    u32::try_from(n).map_err(|_| OutOfMemory)
}

/// One message to be sent.
fn put_send(out: &mut Vec<u8>, o: &Outgoing) -> Result<(), OutOfMemory>
    ensures { OnOk result (out.new.items ≡ out.old.items ++ send_bytes o.now) }
{
    let bytes = o.bytes.as_slice();
    put_be16(out, o.to)?;
    put_be32(out, count32(bytes.len())?)?;
    put_bytes(out, bytes)
}

#[tactic(auto, unfolding(crate::specs::Replies::sends_bytes))]
fn put_sends(out: &mut Vec<u8>, sends: &[Outgoing]) -> Result<(), OutOfMemory>
    ensures { OnOk result (out.new.items ≡ out.old.items ++ sends_bytes sends.now) }
{
    for o in sends {
        put_send(out, o)?;
    }
    Ok(())
}

#[tactic(auto, unfolding(crate::specs::Replies::reply_body))]
fn body_of(alloc: Global, r: &Reaction) -> Result<Vec<u8>, OutOfMemory>
    ensures { IfOk result (λ v. v.items ≡ reply_body r.now) }
{
    let mut out = Vec::new(alloc);
    put_be16(&mut out, count16(r.records.as_slice().len())?)?;
    put_be16(&mut out, count16(r.sends.as_slice().len())?)?;
    put_sends(&mut out, r.sends.as_slice())?;
    Ok(out)
}

/// The reply to a frame for which this was added and is to be sent: the number of records, and the messages.
#[tactic(auto, unfolding(crate::specs::Replies::reply))]
pub fn reply_to(alloc: Global, r: &Reaction) -> Result<Vec<u8>, OutOfMemory>
    ensures { IfOk result (λ v. v.items ≡ reply r.now) }
{
    let body = body_of(alloc, r)?;
    let mut out = Vec::new(alloc);
    put_be32(&mut out, count32(body.len())?)?;
    put_bytes(&mut out, &body)?;
    Ok(out)
}
