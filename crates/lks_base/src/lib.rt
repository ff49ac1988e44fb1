//! Plain data of LOCKSS preservation peers: plans, messages, journal records, events and what they add.
#![tactic(auto)]

mod checking;
mod entries;
mod events;
mod limits;
mod lists;
mod memory;
mod messages;
mod names;
mod plans;
mod reactions;
mod records;

pub use checking::{
    are_bounded, are_ordered, are_short, check_copy, check_members, has_au, has_copy, has_corrupt,
    has_honest, has_member, has_peer, is_fit, room_after_blocks,
};
pub use entries::{Entry, Note};
pub use events::{Due, Envelope, Event, PeerStep};
pub use limits::{
    LAST_BLOCK, MOST_AUS, MOST_BLOCK_BYTES, MOST_BLOCKS, MOST_CIRCLE, MOST_COPY_BYTES, MOST_EVENTS,
    MOST_FORGED_BYTES, MOST_NOMINEES, MOST_PEERS, MOST_PROOF_BYTES, MOST_REPAIRS, MOST_TICKS,
    obeys_quorum_rule,
};
pub use lists::{Blocks, Bytes, Contents, Hashes, Ids, Seq};
pub use memory::OutOfMemory;
pub use messages::Message;
pub use names::{AuId, HashKind, Judged, Limits, Numbers, Outcome, PeerId, PollName};
pub use plans::{AuPlan, Holding, PeerPlan, Plan, PlanFault, Rules};
pub use reactions::{Input, Outgoing, Reaction};
pub use records::Record;
