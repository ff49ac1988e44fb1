//! The peers of a drill.

ghost use Rattle.std.specs.Prelude.{◌≡◌, ◌≤◌, IfOk};
ghost use Rattle.lks_drill.specs.Drill.{peer_seed, others_than, friends_of, peer_with, peers_of, draw_of};

use crate::copies::copies;
use lks_base::{Bytes, HashKind, Holding, Ids, OutOfMemory, PeerId, PeerPlan, Seq};
use lks_draw::Draws;
use std::alloc::Global;

/// The first of the peers, which are numbered in a row.
pub const FIRST_PEER: PeerId = 1;

/// The last of the peers.
pub const LAST_PEER: PeerId = 12;

/// The label of the one draw of a drill.
const DRILL_LABEL: u8 = 6;

/// The number of that draw.
const DRILL_NUMBER: u32 = 0;

/// The one byte of each peer's proof of effort.
const PROOF_BYTE: u8 = 1;

/// Bytes of the drill's seed, with which the seeds of its draw and of its peers begin.
const DRILL_SEED_BYTES: usize = 8;

/// Bytes at the front of a peer's seed that aren't zero throughout: the drill's seed, and the peer's number.
const OWN_SEED_BYTES: usize = 10;

/// The draw that damages the copies, before its first word.
#[tactic(auto, unfolding(crate::specs::Drill::draw_of))]
fn draws(seed: u64) -> Draws
    ensures { result ≡ draw_of seed }
{
    let mut bytes = [0; 32];
    bytes[..DRILL_SEED_BYTES].copy_from_slice(seed.to_be_bytes().as_slice());
    Draws::new(&bytes, DRILL_LABEL, DRILL_NUMBER)
}

/// The seed of a peer: that of the drill, its number, and zero bytes.
#[tactic(auto, unfolding(crate::specs::Drill::peer_seed))]
fn seed_for(seed: u64, peer: PeerId) -> [u8; 32]
    ensures { result ≡ peer_seed seed peer }
{
    let mut bytes = [0; 32];
    bytes[..DRILL_SEED_BYTES].copy_from_slice(seed.to_be_bytes().as_slice());
    bytes[DRILL_SEED_BYTES..OWN_SEED_BYTES].copy_from_slice(peer.to_be_bytes().as_slice());
    bytes
}

/// All other peers, rising.
fn others(alloc: Global, peer: PeerId) -> Result<Ids, OutOfMemory>
    ensures { IfOk result (λ ids. ids ≡ others_than peer) }
{
    let mut ids = Vec::new(alloc);
    for id in FIRST_PEER..=LAST_PEER {
        if id != peer {
            ids.push(id)?;
        }
    }
    Ok(Seq::from_vec(ids))
}

/// The one friend: the next peer, and the first one for the last.
#[tactic(auto, unfolding(crate::specs::Drill::friends_of))]
fn friends(alloc: Global, peer: PeerId) -> Result<Ids, OutOfMemory>
    requires { peer ≤ 12 }
    ensures { IfOk result (λ ids. ids ≡ friends_of peer) }
{
    let friend = if peer == LAST_PEER {
        FIRST_PEER
    } else {
        peer + 1
    };
    Ok(Seq::from_vec(vec![in alloc; friend]?))
}

/// An honest peer with these copies.
#[tactic(auto, unfolding(crate::specs::Drill::peer_with))]
fn peer(alloc: Global, seed: u64, id: PeerId, copies: Seq<Holding>) -> Result<PeerPlan, OutOfMemory>
    requires { id ≤ 12 }
    ensures { IfOk result (λ p. p ≡ peer_with seed id copies) }
{
    Ok(PeerPlan {
        id,
        corrupt: false,
        seed: seed_for(seed, id),
        proof: Bytes::from_vec(vec![in alloc; PROOF_BYTE]?),
        refs: others(alloc, id)?,
        friends: friends(alloc, id)?,
        copies,
        hash: HashKind::Sha256,
    })
}

/// Each peer in order, with its copies.
#[tactic(auto, using(crate::proofs::Ranges::map_to, crate::proofs::Drawing::none_before, crate::proofs::Drawing::draw_past, crate::proofs::Drawing::copies_drawn))]
pub fn peers(alloc: Global, seed: u64) -> Result<Seq<PeerPlan>, OutOfMemory>
    ensures { IfOk result (λ peers. peers ≡ peers_of seed) }
{
    let mut draws = draws(seed);
    let mut peers = Vec::new(alloc);
    for id in FIRST_PEER..=LAST_PEER {
        let copies = copies(alloc, id, &mut draws)?;
        peers.push(peer(alloc, seed, id, copies)?)?;
    }
    Ok(Seq::from_vec(peers))
}
