//! What a peer goes by.

ghost use Rattle.std.specs.Prelude.{◌≡◌, IfOk};
ghost use Rattle.lks_law.specs.World.{station_of};

use lks_base::{AuPlan, Bytes, HashKind, Ids, OutOfMemory, PeerId, PeerPlan, Plan, Rules, Seq};
use std::alloc::Global;
use std::marker::Model;

/// The rules, the AUs in the plan's order, and the peer's own part of the plan but its copies.
#[derive(Drop)]
pub struct Station {
    pub rules: Rules,
    pub aus: Seq<AuPlan>,
    pub id: PeerId,
    pub seed: [u8; 32],
    pub proof: Bytes,
    pub refs: Ids,
    pub friends: Ids,
    pub hash: HashKind,
}

impl Model for Station {
    ghost use Rattle.lks_law.specs.Polls.{Station as Stationed};

    ghost Value = { Stationed };

    ghost view = { λ a.
        record {
          rules = a.rules;
          aus = a.aus;
          id = a.id;
          seed = a.seed;
          proof = a.proof;
          refs = a.refs;
          friends = a.friends;
          hash = a.hash;
        } };
}

impl Station {
    /// What this peer of a plan goes by.
    pub fn new(alloc: Global, plan: &Plan, peer: &PeerPlan) -> Result<Station, OutOfMemory>
        ensures { IfOk result (λ own. own ≡ station_of plan.now peer.now) }
    {
        Ok(Station {
            rules: plan.rules,
            aus: Seq::from_vec(Vec::from_slice(alloc, plan.aus.as_slice())?),
            id: peer.id,
            seed: peer.seed,
            proof: peer.proof.clone()?,
            refs: peer.refs.clone()?,
            friends: peer.friends.clone()?,
            hash: peer.hash,
        })
    }
}
