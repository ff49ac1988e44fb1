//! Bytes to messages.

ghost use Rattle.std.specs.Prelude.{◌≡◌, IfOk};
ghost use Rattle.lks_message.specs.Spelling.{spelling, IsInLimits};
ghost use Rattle.lks_message.specs.Reading.{Reads, Gives, proof_at, nominees_at, hashes_at, block_at, content_at};
ghost use Rattle.lks_message.specs.Reading.{poll_at, challenge_at, poll_proof_at, nominate_at, vote_at, request_at};
ghost use Rattle.lks_message.specs.Reading.{repair_at, message_at, decode_of};

use crate::fault::MsgFault;
use crate::heading::{MessageHeading, heading_of};
use lks_base::{
    Bytes, HashKind, Hashes, Ids, LAST_BLOCK, MOST_BLOCK_BYTES, MOST_BLOCKS, MOST_NOMINEES,
    MOST_PROOF_BYTES, Message,
};
use lks_field::Fields;
use std::alloc::Global;

#[tactic(auto, unfolding(crate::specs::Reading::proof_at, lks_field::specs::Reading::sized_at))]
fn proof_of(alloc: Global, fields: &mut Fields<'_>) -> Result<Bytes, MsgFault>
    ensures { Reads result fields.new (proof_at fields.old) }
{
    let length = fields.get_u8_upto(MOST_PROOF_BYTES)?;
    let proof = fields.get_bytes(length as usize)?;
    Ok(Bytes::from_vec(Vec::from_slice(alloc, proof)?))
}

#[tactic(auto, unfolding(crate::specs::Reading::nominees_at))]
fn nominees_of(alloc: Global, fields: &mut Fields<'_>) -> Result<Ids, MsgFault>
    ensures { Reads result fields.new (nominees_at fields.old) }
{
    Ok(Ids::from_vec(fields.get_numbers(alloc, MOST_NOMINEES)?))
}

#[tactic(auto, unfolding(crate::specs::Reading::hashes_at))]
fn hashes_of(alloc: Global, fields: &mut Fields<'_>) -> Result<Hashes, MsgFault>
    ensures { Reads result fields.new (hashes_at fields.old) }
{
    Ok(Hashes::from_vec(fields.get_hashes(alloc, MOST_BLOCKS)?))
}

#[tactic(auto, unfolding(crate::specs::Reading::block_at))]
fn block_of(fields: &mut Fields<'_>) -> Result<u16, MsgFault>
    ensures { Reads result fields.new (block_at fields.old) }
{
    Ok(fields.get_upto(LAST_BLOCK)?)
}

#[tactic(auto, unfolding(crate::specs::Reading::content_at))]
fn content_of(alloc: Global, fields: &mut Fields<'_>) -> Result<Bytes, MsgFault>
    ensures { Reads result fields.new (content_at fields.old) }
{
    Ok(Bytes::from_vec(fields.get_sized(alloc, MOST_BLOCK_BYTES)?))
}

#[tactic(auto, unfolding(crate::specs::Reading::poll_at))]
fn poll_of(number: u32, fields: &mut Fields<'_>) -> Result<Message, MsgFault>
    ensures { Reads result fields.new (poll_at number fields.old) }
{
    let au = fields.get_be16()?;
    Ok(Message::Poll { number, au })
}

#[tactic(auto, unfolding(crate::specs::Reading::challenge_at))]
fn challenge_of(number: u32, fields: &mut Fields<'_>) -> Result<Message, MsgFault>
    ensures { Reads result fields.new (challenge_at number fields.old) }
{
    let yes = fields.get_u8_upto(1)?;
    Ok(Message::PollChallenge {
        number,
        yes: yes == 1,
    })
}

#[tactic(auto, unfolding(crate::specs::Reading::poll_proof_at))]
fn poll_proof_of(
    alloc: Global,
    kind: HashKind,
    number: u32,
    fields: &mut Fields<'_>,
) -> Result<Message, MsgFault>
    ensures { Reads result fields.new (poll_proof_at kind number fields.old) }
{
    let nonce = fields.get_hash()?;
    fields.get_kind(kind.second())?;
    let proof = proof_of(alloc, fields)?;
    Ok(Message::PollProof {
        number,
        nonce,
        kind,
        proof,
    })
}

#[tactic(auto, unfolding(crate::specs::Reading::nominate_at))]
fn nominate_of(alloc: Global, number: u32, fields: &mut Fields<'_>) -> Result<Message, MsgFault>
    ensures { Reads result fields.new (nominate_at number fields.old) }
{
    let nominees = nominees_of(alloc, fields)?;
    Ok(Message::Nominate { number, nominees })
}

#[tactic(auto, unfolding(crate::specs::Reading::vote_at))]
fn vote_of(alloc: Global, number: u32, fields: &mut Fields<'_>) -> Result<Message, MsgFault>
    ensures { Reads result fields.new (vote_at number fields.old) }
{
    let hashes = hashes_of(alloc, fields)?;
    let proof = proof_of(alloc, fields)?;
    Ok(Message::Vote {
        number,
        hashes,
        proof,
    })
}

#[tactic(auto, unfolding(crate::specs::Reading::request_at))]
fn request_of(number: u32, fields: &mut Fields<'_>) -> Result<Message, MsgFault>
    ensures { Reads result fields.new (request_at number fields.old) }
{
    let block = block_of(fields)?;
    Ok(Message::RepairRequest { number, block })
}

#[tactic(auto, unfolding(crate::specs::Reading::repair_at))]
fn repair_of(alloc: Global, number: u32, fields: &mut Fields<'_>) -> Result<Message, MsgFault>
    ensures { Reads result fields.new (repair_at number fields.old) }
{
    let block = block_of(fields)?;
    let bytes = content_of(alloc, fields)?;
    Ok(Message::Repair {
        number,
        block,
        bytes,
    })
}

fn message_of(
    alloc: Global,
    heading: MessageHeading,
    number: u32,
    fields: &mut Fields<'_>,
) -> Result<Message, MsgFault>
    ensures { Reads result fields.new (message_at heading number fields.old) }
{
    match heading {
        MessageHeading::Poll => poll_of(number, fields),
        MessageHeading::PollChallenge => challenge_of(number, fields),
        MessageHeading::PollProof(kind) => poll_proof_of(alloc, kind, number, fields),
        MessageHeading::Nominate => nominate_of(alloc, number, fields),
        MessageHeading::Vote => vote_of(alloc, number, fields),
        MessageHeading::RepairRequest => request_of(number, fields),
        MessageHeading::Repair => repair_of(alloc, number, fields),
        MessageHeading::Receipt => Ok(Message::Receipt { number }),
    }
}

#[tactic(auto, unfolding(crate::specs::Reading::decode_of))]
fn whole(alloc: Global, bytes: &[u8]) -> Result<Message, MsgFault>
    ensures { Gives result (decode_of bytes.now) }
{
    let mut fields = Fields::new(bytes);
    let heading = heading_of(&mut fields)?;
    let number = fields.get_be32()?;
    let message = message_of(alloc, heading, number, &mut fields)?;
    fields.finish()?;
    Ok(message)
}

/// The message that the bytes spell, all of them, or the first fault from left to right.
pub fn decode(alloc: Global, bytes: &[u8]) -> Result<Message, MsgFault>
    // Which message or fault it is.
    ensures exact { Gives result (decode_of bytes.now) }
    // What is read is spelled so.
    ensures found { IfOk result (λ m. IsInLimits m × (bytes.now ≡ spelling m)) }
    // What is spelled so is read, unless memory runs out.
    ensures only { (m : Message) → IsInLimits m → bytes.now ≡ spelling m → Gives result (Ok m) }
{
    whole(alloc, bytes)
}
