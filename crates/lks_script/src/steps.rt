//! What a script says, line by line.

use lks_base::{AuId, Blocks, Bytes, Ids, PeerId, PeerStep, Plan, Seq};

/// Calls of a disk before a `cut` line cuts it off.
pub const MOST_CUT_CALLS: u8 = 8;

/// Lines of a script in which the power of a peer fails.
pub const MOST_POWER_FAILURES: usize = 16;

/// What a `cut` line does while the power fails. A peer's step here is never a delivery.
#[derive(Clone, Copy)]
pub enum CutStep {
    Next,
    Again { envelope: u32 },
    Peer(PeerStep),
}

/// One step line.
#[derive(Drop)]
pub enum Step {
    /// A peer's own step, never a delivery.
    Peer(PeerStep),
    /// The clock moves on.
    Tick {
        by: u32,
    },
    /// The first pending envelopes are delivered, one after another.
    Next {
        times: u16,
    },
    /// The first pending envelope is lost.
    Lose,
    /// An envelope is delivered, perhaps again.
    Again {
        envelope: u32,
    },
    /// Envelopes are delivered and ready work is done until there is neither.
    Settle,
    /// Everything due is done until nothing is.
    Finish,
    /// A corrupt peer sends any bytes.
    Forge {
        from: PeerId,
        to: PeerId,
        bytes: Bytes,
    },
    SayPoll {
        from: PeerId,
        to: PeerId,
        number: u32,
        au: AuId,
    },
    SayProof {
        from: PeerId,
        to: PeerId,
        number: u32,
    },
    SayRequest {
        from: PeerId,
        to: PeerId,
        number: u32,
        block: u16,
    },
    SayReceipt {
        from: PeerId,
        to: PeerId,
        number: u32,
    },
    SayChallenge {
        from: PeerId,
        to: PeerId,
        number: u32,
        yes: bool,
    },
    SayNominate {
        from: PeerId,
        to: PeerId,
        number: u32,
        nominees: Ids,
    },
    /// A corrupt peer votes as if it held these blocks.
    SayVote {
        from: PeerId,
        to: PeerId,
        number: u32,
        au: AuId,
        blocks: Blocks,
    },
    SayRepair {
        from: PeerId,
        to: PeerId,
        number: u32,
        block: u16,
        bytes: Bytes,
    },
    /// A peer loses power and is reopened.
    Crash {
        peer: PeerId,
    },
    /// The power fails at a device call of the step: after `calls` more calls, with what `choice` leaves.
    Cut {
        calls: u8,
        choice: u8,
        step: CutStep,
    },
}

/// A plan and the steps that are done on it, in order.
#[derive(Drop)]
pub struct Script {
    pub plan: Plan,
    pub steps: Seq<Step>,
}
