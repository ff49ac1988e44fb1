//! What is voted on, votes, and verdicts.

use lks_base::{AuId, HashKind, Hashes, PeerId, PollName};

/// What all votes of a poll are about: with the voter it determines the key of a vote.
#[derive(Clone, Copy)]
pub struct Ballot {
    pub poll: PollName,
    pub au: AuId,
    pub kind: HashKind,
    pub nonce: [u8; 32],
    /// The number of blocks of the AU.
    pub count: u16,
}

/// A vote: the voter's running hash after each block of its copy.
#[derive(Drop)]
pub struct Vote {
    pub voter: PeerId,
    pub hashes: Hashes,
}

/// What the votes say of one block of a copy (Maniatis et al., ACM TOCS 23(1), 2005, section 4).
#[derive(Clone, Copy, Debug, PartialEq, Eq)]
pub enum At {
    /// A landslide for the copy.
    Win,
    /// A landslide against the copy.
    Loss,
    /// No landslide: inconclusive.
    Split,
}

/// What the votes say of a copy: the first block that isn't a win decides.
#[derive(Clone, Copy, Debug, PartialEq, Eq)]
pub enum Verdict {
    /// Fewer votes than the quorum.
    Inquorate,
    /// Each block is a win.
    Agreed,
    Loss { block: u16 },
    Split { block: u16 },
}
