//! Messages between peers (Maniatis et al., ACM TOCS 23(1), 2005, section 4).

use crate::lists::{Bytes, Hashes, Ids};
use crate::names::{AuId, HashKind};

/// A message about a poll of this number. `Poll`, `PollProof`, `RepairRequest` and `Receipt` go from a
/// poller to a voter, the others to the poller.
#[derive(Drop)]
pub enum Message {
    /// Invites to a poll on an AU.
    Poll {
        number: u32,
        au: AuId,
    },
    /// Answers an invitation: the voter takes part, or doesn't.
    PollChallenge {
        number: u32,
        yes: bool,
    },
    /// Proof of the poller's effort, with the nonce and the kind of hash to vote under.
    PollProof {
        number: u32,
        nonce: [u8; 32],
        kind: HashKind,
        proof: Bytes,
    },
    /// Names peers for the outer circle, at most `MOST_NOMINEES`.
    Nominate {
        number: u32,
        nominees: Ids,
    },
    /// The running hash after each block, with proof of the voter's effort.
    Vote {
        number: u32,
        hashes: Hashes,
        proof: Bytes,
    },
    /// Asks a voter for a block.
    RepairRequest {
        number: u32,
        block: u16,
    },
    /// A block as the voter has it.
    Repair {
        number: u32,
        block: u16,
        bytes: Bytes,
    },
    /// The poll is closed.
    Receipt {
        number: u32,
    },
}
