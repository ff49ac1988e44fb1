//! How far a poll is, and what its calls answer.

use lks_base::{Ids, Outcome, PeerId};

/// How far a poll is.
#[derive(Clone, Copy, Debug, PartialEq, Eq)]
pub enum Stage {
    /// The inner circle is invited, and votes are open.
    Inviting,
    /// The outer circle is invited too, and votes are open.
    Widened,
    /// Voting ended, and no request is unanswered.
    Shut,
    /// A voter was asked for a block and hasn't answered.
    Asking,
    /// The poll ended.
    Closed,
}

/// Peers that an inner peer names for the outer circle.
#[derive(Drop)]
pub struct Nomination {
    pub voter: PeerId,
    pub nominees: Ids,
}

/// What follows from a verdict.
#[derive(Clone, Copy, Debug, PartialEq, Eq)]
pub enum Next {
    /// The poll ends.
    Close(Outcome),
    /// A voter against a block is asked for it.
    Ask { block: u16, voter: PeerId },
}

/// What becomes of a block that was sent.
#[derive(Clone, Copy, Debug, PartialEq, Eq)]
pub enum Answer {
    /// The votes are for the copy with it: it is to be put in.
    Replace,
    /// They aren't.
    Bad,
    /// This peer isn't waited for with this block.
    NotAsked,
}
