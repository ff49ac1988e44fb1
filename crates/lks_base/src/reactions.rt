//! What goes into a peer, and what comes out.

use crate::lists::{Bytes, Seq};
use crate::messages::Message;
use crate::names::{AuId, Judged, PeerId, PollName};
use crate::records::Record;

/// What one peer is to do, or what it got.
#[derive(Drop)]
pub enum Input {
    OpenPoll {
        au: AuId,
    },
    Widen {
        number: u32,
    },
    Shut {
        number: u32,
    },
    Tally {
        number: u32,
    },
    Nudge {
        number: u32,
    },
    GiveUp {
        number: u32,
    },
    Work {
        poll: PollName,
    },
    Expire {
        poll: PollName,
    },
    Check,
    Tune {
        quorum: u16,
        minority: u16,
        repairs: u16,
    },
    Got {
        from: PeerId,
        message: Message,
        judged: Judged,
    },
}

/// Bytes to be sent to a peer.
#[derive(Drop)]
pub struct Outgoing {
    pub to: PeerId,
    pub bytes: Bytes,
}

/// What a peer writes into its journal, and what it sends once that is written.
#[derive(Drop)]
pub struct Reaction {
    pub records: Seq<Record>,
    pub sends: Seq<Outgoing>,
}
