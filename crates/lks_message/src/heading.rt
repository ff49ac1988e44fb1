//! Version and tag.

ghost use Rattle.std.specs.Prelude.{◌≡◌};
ghost use Rattle.lks_message.specs.Reading.{Reads, first_heading, second_heading, heading_at};

use crate::fault::MsgFault;
use lks_base::HashKind;
use lks_field::Fields;

/// What a version and a tag announce.
#[derive(Clone, Copy)]
pub enum MessageHeading {
    Poll,
    PollChallenge,
    PollProof(HashKind),
    Nominate,
    Vote,
    RepairRequest,
    Repair,
    Receipt,
}

#[tactic(auto, unfolding(crate::specs::Reading::first_heading))]
fn first_heading_of(tag: u8) -> Result<MessageHeading, MsgFault>
    ensures { result ≡ first_heading tag }
{
    match tag {
        1 => Ok(MessageHeading::Poll),
        2 => Ok(MessageHeading::PollChallenge),
        3 => Ok(MessageHeading::PollProof(HashKind::Sha256)),
        4 => Ok(MessageHeading::Nominate),
        5 => Ok(MessageHeading::Vote),
        6 => Ok(MessageHeading::RepairRequest),
        7 => Ok(MessageHeading::Repair),
        8 => Ok(MessageHeading::Receipt),
        _ => Err(MsgFault::Tag),
    }
}

#[tactic(auto, unfolding(crate::specs::Reading::second_heading))]
fn second_heading_of(tag: u8) -> Result<MessageHeading, MsgFault>
    ensures { result ≡ second_heading tag }
{
    match tag {
        3 => Ok(MessageHeading::PollProof(HashKind::Sha512_256)),
        _ => Err(MsgFault::Tag),
    }
}

/// The heading at the front. The version is judged before the tag is read.
#[tactic(auto, unfolding(crate::specs::Reading::heading_at))]
pub fn heading_of(fields: &mut Fields<'_>) -> Result<MessageHeading, MsgFault>
    ensures { Reads result fields.new (heading_at fields.old) }
{
    match fields.get_u8()? {
        1 => first_heading_of(fields.get_u8()?),
        2 => second_heading_of(fields.get_u8()?),
        _ => Err(MsgFault::Version),
    }
}
