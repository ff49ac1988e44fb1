//! What happens to a world of peers, one event at a time.

use crate::lists::Bytes;
use crate::names::{AuId, Judged, PeerId, PollName};

/// Something that one peer does or receives.
#[derive(Clone, Copy)]
pub enum PeerStep {
    OpenPoll {
        peer: PeerId,
        au: AuId,
    },
    Widen {
        peer: PeerId,
        number: u32,
    },
    Shut {
        peer: PeerId,
        number: u32,
    },
    Tally {
        peer: PeerId,
        number: u32,
    },
    Nudge {
        peer: PeerId,
        number: u32,
    },
    GiveUp {
        peer: PeerId,
        number: u32,
    },
    Work {
        peer: PeerId,
        poll: PollName,
    },
    Expire {
        peer: PeerId,
        poll: PollName,
    },
    Check {
        peer: PeerId,
    },
    Tune {
        peer: PeerId,
        quorum: u16,
        minority: u16,
        repairs: u16,
    },
    /// The envelope of this number reaches its receiver.
    Deliver {
        envelope: u32,
        judged: Judged,
    },
}

/// What is due in a world: an envelope waits to be delivered, or a peer has a step of its own to take.
#[derive(Clone, Copy)]
pub enum Due {
    Delivery { envelope: u32 },
    Own(PeerStep),
}

/// One event of a history.
#[derive(Drop)]
pub enum Event {
    Step(PeerStep),
    /// The peer lost power while it wrote down the step. `kept` says whether its journal has it.
    Cut {
        step: PeerStep,
        kept: bool,
    },
    /// The clock moves on by this many ticks.
    Tick {
        by: u32,
    },
    /// The envelope of this number isn't waited for any longer.
    Lose {
        envelope: u32,
    },
    /// A corrupt peer sends any bytes.
    Forge {
        from: PeerId,
        to: PeerId,
        bytes: Bytes,
    },
    /// The peer lost power between steps.
    Crash {
        peer: PeerId,
    },
}

/// Bytes on their way from one peer to another. The link names the true sender.
#[derive(Drop)]
pub struct Envelope {
    pub from: PeerId,
    pub to: PeerId,
    pub bytes: Bytes,
}
