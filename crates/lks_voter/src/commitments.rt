//! The states of a session before the vote and after the end, and how a voter takes a request for a repair.

ghost use Rattle.std.specs.Prelude.{◌≡◌};
ghost use Rattle.lks_voter.specs.States.{repeats};

use lks_base::{AuId, HashKind, PollName};
use std::marker::Model;

/// The voter takes part in a poll on an AU.
#[derive(Drop)]
pub struct Joined {
    poll: PollName,
    au: AuId,
    tick: u32,
    low: bool,
}

impl Model for Joined {
    ghost use Rattle.lks_voter.specs.States.{Joining};

    ghost Value = { Joining };

    ghost view = { λ a. record { poll = a.poll; au = a.au; tick = a.tick; low = a.low } };
}

/// The voter will vote on a version of its copy, under the poll's nonce.
#[derive(Drop)]
pub struct Committed {
    joined: Joined,
    kind: HashKind,
    nonce: [u8; 32],
    version: u32,
}

impl Model for Committed {
    ghost use Rattle.lks_voter.specs.States.{Committing};

    ghost Value = { Committing };

    ghost view = { λ a.
        record { joined = a.joined; commitment = record { nonce = a.nonce; version = a.version; kind = a.kind } } };
}

/// The session is over.
#[derive(Drop)]
pub struct Ended {
    poll: PollName,
    au: AuId,
}

impl Model for Ended {
    ghost use Rattle.lks_voter.specs.States.{Ending};

    ghost Value = { Ending };

    ghost view = { λ a. record { poll = a.poll; au = a.au } };
}

/// How a voter takes a request for a block.
#[derive(Clone, Copy, Debug, PartialEq, Eq)]
pub enum Serve {
    /// It serves the block, for the first time.
    First,
    /// It serves the block once more.
    Again,
    /// It doesn't: it served as many others as it may.
    Spent,
}

impl Joined {
    /// The voter joins at this tick, at which the poller has a low grade or hasn't.
    pub fn new(poll: PollName, au: AuId, tick: u32, low: bool) -> Joined
        ensures { result ≡ record { poll = poll; au = au; tick = tick; low = low } }
    {
        Joined {
            poll,
            au,
            tick,
            low,
        }
    }

    /// Commits to a version under the nonce and the hash function of the poll.
    pub fn commit(self, kind: HashKind, nonce: [u8; 32], version: u32) -> Committed
        ensures { result
            ≡ record { joined = self; commitment = record { nonce = nonce; version = version; kind = kind } } }
    {
        Committed {
            joined: self,
            kind,
            nonce,
            version,
        }
    }

    /// The poll.
    pub fn poll(&self) -> PollName
        ensures { result ≡ self.now.poll }
    {
        self.poll
    }

    /// The AU on which it is.
    pub fn au(&self) -> AuId
        ensures { result ≡ self.now.au }
    {
        self.au
    }

    /// When the voter joined.
    pub fn tick(&self) -> u32
        ensures { result ≡ self.now.tick }
    {
        self.tick
    }

    /// Whether the poller had a low grade then.
    pub fn low(&self) -> bool
        ensures { result ≡ self.now.low }
    {
        self.low
    }
}

impl Committed {
    /// How the voter joined the poll.
    pub fn joined(&self) -> &Joined
        ensures { result.now ≡ self.now.joined }
    {
        &self.joined
    }

    /// The hash function of the poll.
    pub fn kind(&self) -> HashKind
        ensures { result ≡ self.now.commitment.kind }
    {
        self.kind
    }

    /// The nonce of the poll.
    pub fn nonce(&self) -> &[u8; 32]
        ensures { result.now ≡ self.now.commitment.nonce }
    {
        &self.nonce
    }

    /// The version of the voter's copy.
    pub fn version(&self) -> u32
        ensures { result ≡ self.now.commitment.version }
    {
        self.version
    }

    /// Whether a proof of the poller's effort, with this nonce and hash function, repeats the one that led to the
    /// commitment.
    #[tactic(auto, unfolding(crate::specs::States::repeats))]
    pub fn repeats(&self, nonce: &[u8; 32], kind: HashKind) -> bool
        ensures { result ≡ repeats self.now.commitment nonce.now kind }
    {
        self.nonce.as_slice() == nonce.as_slice() && self.kind.is_kind(kind)
    }
}

impl Ended {
    /// The poll of a session that is over: it had this poll, on this AU.
    pub(crate) fn of(poll: PollName, au: AuId) -> Ended
        ensures { result ≡ record { poll = poll; au = au } }
    {
        Ended { poll, au }
    }

    /// The poll.
    pub fn poll(&self) -> PollName
        ensures { result ≡ self.now.poll }
    {
        self.poll
    }

    /// The AU on which it was.
    pub fn au(&self) -> AuId
        ensures { result ≡ self.now.au }
    {
        self.au
    }
}
