//! The plan of a run: its rules, AUs, peers and copies.

use crate::lists::{Blocks, Bytes, Ids, Seq};
use crate::names::{AuId, HashKind, PeerId};

/// The numbers that all peers go by.
#[derive(Clone, Copy, Debug, PartialEq, Eq)]
pub struct Rules {
    /// Peers that a poll samples for its inner circle, 1 to 16.
    pub inner: u16,
    /// Inner votes that a poll needs to decide anything, 1 to `inner`.
    pub quorum: u16,
    /// The most votes on the losing side of a landslide. Twice this is below `quorum`.
    pub minority: u16,
    /// Peers of the outer circle, at most 16.
    pub outer: u16,
    /// Blocks that a voter gives the poller of one poll, at most 512.
    pub repairs: u16,
    /// Ticks between polls on one AU, at most 1,000,000.
    pub pace: u32,
    /// Ticks between admissions of unknown or indebted pollers, at most 1,000,000.
    pub refractory: u32,
    /// Ticks after which an AU without an agreed poll is overdue, at most 1,000,000.
    pub overdue: u32,
    /// Percentage of unknown pollers admitted, at most 100.
    pub unknown_pct: u8,
    /// Percentage of indebted pollers admitted, at most 100.
    pub debt_pct: u8,
    /// Friends added to the reference list after an agreed poll, at most 16.
    pub churn: u16,
}

/// An AU and the number of its blocks, 1 to 512.
#[derive(Clone, Copy, Debug, PartialEq, Eq)]
pub struct AuPlan {
    pub id: AuId,
    pub count: u16,
}

/// A copy of an AU.
#[derive(Drop)]
pub struct Holding {
    pub au: AuId,
    pub blocks: Blocks,
}

/// A peer as it is before anything happens.
#[derive(Drop)]
pub struct PeerPlan {
    pub id: PeerId,
    /// Under an adversary's control.
    pub corrupt: bool,
    /// From which the peer's nonces and draws come.
    pub seed: [u8; 32],
    /// Its proof of effort, at most 64 bytes.
    pub proof: Bytes,
    /// Its reference list: the peers that it samples.
    pub refs: Ids,
    pub friends: Ids,
    pub copies: Seq<Holding>,
    /// The hash of its polls.
    pub hash: HashKind,
}

/// What a run begins with.
#[derive(Drop)]
pub struct Plan {
    pub rules: Rules,
    /// Events that threads may choose, at most 4,096.
    pub turns: u32,
    pub aus: Seq<AuPlan>,
    pub peers: Seq<PeerPlan>,
}

/// Which rule a plan breaks first.
#[derive(Clone, Copy, Debug, PartialEq, Eq)]
pub enum PlanFault {
    /// A number or a length is out of its bounds.
    Bounds,
    /// Not `2 * minority < quorum <= inner`.
    RulesOrder,
    /// Something stands twice.
    Repeat,
    /// A peer stands in a list of its own.
    SelfListed,
    /// A list names a peer that isn't there.
    UnknownPeer,
    /// A copy of an AU that isn't declared, or with another number of blocks.
    BlockCount,
}
