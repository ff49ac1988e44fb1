//! What is examined, and what is found.

use lks_base::{PeerId, Record};

/// The journal of a peer: its records, oldest first.
#[derive(Drop)]
pub struct Shelf {
    pub peer: PeerId,
    pub list: Vec<Record>,
}

/// What is doubted first.
#[derive(Clone, Copy, Debug, PartialEq, Eq)]
pub enum Why {
    /// The peer isn't an honest one of the plan, or has a shelf already.
    Peer,
    /// Of the AU there isn't one deposit alone, before the place, with the plan's number of blocks; or it has no such
    /// block.
    Copy,
    /// The poll wasn't opened exactly once, or on another AU, or with numbers by which votes may be a landslide both
    /// ways, or voting in it hadn't ended.
    Poll,
    /// An inner peer has two votes.
    Twice { voter: PeerId },
    /// The vote of an inner peer hasn't as many hashes as the AU has blocks.
    Length { voter: PeerId },
    /// Fewer inner votes than the poll's quorum.
    Quorum { votes: u16 },
    /// More than a minority of the inner votes is for the block that was replaced.
    For { votes: u16 },
    /// More than a minority of the inner votes is against the block that replaced it.
    Against { votes: u16 },
    /// The voter's own journal doesn't bear out its vote.
    Vote { voter: PeerId },
}

/// A rule that fails, in the journal of this peer at this place, counted from 0.
#[derive(Clone, Copy, Debug, PartialEq, Eq)]
pub struct Doubt {
    pub peer: PeerId,
    pub place: u32,
    pub why: Why,
}

/// What a set of journals is found to be.
#[derive(Clone, Copy, Debug, PartialEq, Eq)]
pub enum Finding {
    /// Each of the replaced blocks, so many, has its evidence.
    Yes { replaced: u32 },
    /// The first rule that fails.
    No(Doubt),
}
