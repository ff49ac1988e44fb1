//! What a peer writes into its journal.

use crate::lists::{Blocks, Bytes, Hashes, Ids};
use crate::names::{AuId, HashKind, Limits, Outcome, PeerId, PollName};

/// One fact of a peer's past. A peer is its list of records.
#[derive(Drop)]
pub enum Record {
    /// The peer holds these blocks of an AU from the start.
    Deposit {
        au: AuId,
        blocks: Blocks,
    },
    /// A poll of the peer's own began.
    PollOpened {
        number: u32,
        au: AuId,
        nonce: [u8; 32],
        inner: Ids,
        tick: u32,
        limits: Option<Limits>,
        kind: HashKind,
    },
    /// An inner peer nominated peers for the outer circle.
    Nominated {
        number: u32,
        voter: PeerId,
        nominees: Ids,
    },
    /// The outer circle was invited.
    OuterOpened {
        number: u32,
        outer: Ids,
    },
    /// A vote came in.
    VoteIn {
        number: u32,
        voter: PeerId,
        hashes: Hashes,
    },
    /// No more votes are taken.
    Shut {
        number: u32,
    },
    /// A voter was asked for a block.
    Asked {
        number: u32,
        block: u16,
        voter: PeerId,
    },
    /// The block that came, or its absence, didn't serve.
    RepairBad {
        number: u32,
        block: u16,
        voter: PeerId,
    },
    /// The block was replaced by these bytes.
    Replaced {
        number: u32,
        au: AuId,
        block: u16,
        bytes: Bytes,
    },
    /// A poll of the peer's own ended.
    Closed {
        number: u32,
        outcome: Outcome,
        tick: u32,
    },
    /// An AU went too long without an agreed poll.
    Overdue {
        au: AuId,
        tick: u32,
    },
    /// The peer takes part in another peer's poll.
    Joined {
        poll: PollName,
        au: AuId,
        tick: u32,
        low: bool,
        repairs: Option<u16>,
    },
    /// The peer will vote over this version of its copy.
    Committed {
        poll: PollName,
        nonce: [u8; 32],
        version: u32,
        kind: HashKind,
    },
    /// The peer voted.
    Voted {
        poll: PollName,
        hashes: Hashes,
    },
    /// The peer gave the poller this block.
    Served {
        poll: PollName,
        block: u16,
    },
    /// The peer's part in another peer's poll ended.
    Ended {
        poll: PollName,
    },
    /// The operator changed the numbers for polls and sessions to come.
    Tuned {
        quorum: u16,
        minority: u16,
        repairs: u16,
    },
}
