//! What contracts see of a job on its way. No value of these types is made.

use crate::jobs::JobNumber;
use lks_base::{Limits, PeerId};
use lks_blocks::Refs;
use lks_tally::{Ballot, Vote};
use lks_versions::PinTag;
use lks_work::VoteJob;
use std::collections::LinkedList;

/// A tally's job without the running hashes that the tally keeps and without its last verdict, which hashing changes.
pub struct AskedTally {
    pub peer: PeerId,
    pub number: u32,
    pub tag: PinTag,
    pub refs: Refs,
    pub ballot: Ballot,
    pub limits: Limits,
    pub votes: LinkedList<Vote>,
}

/// A job of either kind.
pub enum Asked {
    Vote(VoteJob),
    Tally(AskedTally),
}

/// A job under its number.
pub struct NumberedJob {
    pub number: JobNumber,
    pub job: Asked,
}
