//! Form and tag.

ghost use Rattle.std.specs.Prelude.{◌≡◌};
ghost use Rattle.lks_record.specs.Reading.{Reads, is_limited, kind_in, first_heading, second_heading, third_heading};
ghost use Rattle.lks_record.specs.Reading.{heading_at};

use crate::fault::RecFault;
use lks_base::HashKind;
use lks_field::Fields;

/// What is spelled of a poll's opening.
#[derive(Clone, Copy)]
pub enum OpeningForm {
    /// No limits; the kind is SHA-256.
    Plain,
    /// Limits; the kind is SHA-256.
    Limited,
    /// Limits, and SHA-512/256 as the kind.
    OfKind,
}

impl OpeningForm {
    /// Whether it has limits.
    pub fn limited(self) -> bool
        ensures { result ≡ is_limited self }
    {
        match self {
            OpeningForm::Plain => false,
            OpeningForm::Limited => true,
            OpeningForm::OfKind => true,
        }
    }

    /// The kind of its hashes.
    pub fn kind(self) -> HashKind
        ensures { result ≡ kind_in self }
    {
        match self {
            OpeningForm::Plain => HashKind::Sha256,
            OpeningForm::Limited => HashKind::Sha256,
            OpeningForm::OfKind => HashKind::Sha512_256,
        }
    }
}

/// What a form and a tag announce.
#[derive(Clone, Copy)]
pub enum RecordHeading {
    Deposit,
    PollOpened(OpeningForm),
    Nominated,
    OuterOpened,
    VoteIn,
    Shut,
    Asked,
    RepairBad,
    Replaced,
    Closed,
    Overdue,
    /// With the repairs, or without.
    Joined(bool),
    Committed(HashKind),
    Voted,
    Served,
    Ended,
    Tuned,
}

#[tactic(auto, unfolding(crate::specs::Reading::first_heading))]
fn first_heading_of(tag: u8) -> Result<RecordHeading, RecFault>
    ensures { result ≡ first_heading tag }
{
    match tag {
        1 => Ok(RecordHeading::Deposit),
        2 => Ok(RecordHeading::PollOpened(OpeningForm::Plain)),
        3 => Ok(RecordHeading::Nominated),
        4 => Ok(RecordHeading::OuterOpened),
        5 => Ok(RecordHeading::VoteIn),
        6 => Ok(RecordHeading::Shut),
        7 => Ok(RecordHeading::Asked),
        8 => Ok(RecordHeading::RepairBad),
        9 => Ok(RecordHeading::Replaced),
        10 => Ok(RecordHeading::Closed),
        11 => Ok(RecordHeading::Overdue),
        12 => Ok(RecordHeading::Joined(false)),
        13 => Ok(RecordHeading::Committed(HashKind::Sha256)),
        14 => Ok(RecordHeading::Voted),
        15 => Ok(RecordHeading::Served),
        16 => Ok(RecordHeading::Ended),
        _ => Err(RecFault::Tag),
    }
}

#[tactic(auto, unfolding(crate::specs::Reading::second_heading))]
fn second_heading_of(tag: u8) -> Result<RecordHeading, RecFault>
    ensures { result ≡ second_heading tag }
{
    match tag {
        2 => Ok(RecordHeading::PollOpened(OpeningForm::Limited)),
        12 => Ok(RecordHeading::Joined(true)),
        13 => Ok(RecordHeading::Committed(HashKind::Sha512_256)),
        17 => Ok(RecordHeading::Tuned),
        _ => Err(RecFault::Tag),
    }
}

#[tactic(auto, unfolding(crate::specs::Reading::third_heading))]
fn third_heading_of(tag: u8) -> Result<RecordHeading, RecFault>
    ensures { result ≡ third_heading tag }
{
    match tag {
        2 => Ok(RecordHeading::PollOpened(OpeningForm::OfKind)),
        _ => Err(RecFault::Tag),
    }
}

/// The heading at the front. The form is judged before the tag is read.
#[tactic(auto, unfolding(crate::specs::Reading::heading_at))]
pub fn heading_of(fields: &mut Fields<'_>) -> Result<RecordHeading, RecFault>
    ensures { Reads result fields.new (heading_at fields.old) }
{
    match fields.get_u8()? {
        1 => first_heading_of(fields.get_u8()?),
        2 => second_heading_of(fields.get_u8()?),
        3 => third_heading_of(fields.get_u8()?),
        _ => Err(RecFault::Form),
    }
}
