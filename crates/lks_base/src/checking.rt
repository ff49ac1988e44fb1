//! Whether a plan is good, and if not, which rule it breaks first.

ghost use Rattle.std.specs.Prelude.{◌≡◌, ◌+◌, ◌<◌, IfSome, IfNone, nat_le, []};
ghost use Rattle.lks_base.specs.Checking.{fault_of, unless, each, is_within, are_bounded, are_ordered, has_au};
ghost use Rattle.lks_base.specs.Checking.{au_fault, has_peer, has_corrupt, has_honest, has_member, member_fault};
ghost use Rattle.lks_base.specs.Checking.{has_counted, has_copy, are_short, copy_fault, is_bare, is_fit, peer_fault};
ghost use Rattle.lks_base.specs.Checking.{bytes_of_blocks, bytes_of_copies, bytes_of_peers, plan_fault};

use crate::limits::{
    LAST_NUMBER, MOST_AUS, MOST_BLOCK_BYTES, MOST_BLOCKS, MOST_CIRCLE, MOST_COPY_BYTES,
    MOST_EVENTS, MOST_PEERS, MOST_PROOF_BYTES, MOST_REPAIRS, MOST_TICKS, obeys_quorum_rule,
};
use crate::lists::Bytes;
use crate::plans::{AuPlan, Holding, PeerPlan, Plan, PlanFault, Rules};

fn rule(test: bool, fault: PlanFault) -> Result<(), PlanFault>
    ensures { fault_of result ≡ unless test fault }
{
    if test { Ok(()) } else { Err(fault) }
}

fn within(low: usize, high: usize, n: usize) -> bool
    ensures { result ≡ is_within low high n }
{
    low <= n && n <= high
}

/// Whether each of the rules is in its bounds, of the quorum that it is at least 1, and of the minority nothing.
#[tactic(auto, unfolding(crate::specs::Checking::are_bounded))]
pub fn are_bounded(rules: &Rules) -> bool
    ensures { result ≡ are_bounded rules.now }
{
    within(1, MOST_CIRCLE as usize, rules.inner as usize)
        && 1 <= rules.quorum
        && rules.outer <= MOST_CIRCLE
        && rules.repairs <= MOST_REPAIRS
        && rules.pace <= MOST_TICKS
        && rules.refractory <= MOST_TICKS
        && rules.overdue <= MOST_TICKS
        && rules.unknown_pct <= 100
        && rules.debt_pct <= 100
        && rules.churn <= MOST_CIRCLE
}

/// Whether twice the minority is less than the quorum, and this no more than the inner circle.
#[tactic(auto, unfolding(crate::specs::Checking::are_ordered))]
pub fn are_ordered(rules: &Rules) -> bool
    ensures { result ≡ are_ordered rules.now }
{
    obeys_quorum_rule(rules.quorum, rules.minority) && rules.quorum <= rules.inner
}

/// Whether an AU of this number is among these.
#[tactic(auto, unfolding(crate::specs::Checking::has_au))]
pub fn has_au(aus: &[AuPlan], id: u16) -> bool
    ensures { result ≡ has_au aus.now id }
{
    aus.iter().any(|a| a.id == id)
}

// The type of a number says that it is at most the last one. The rule says it of a plan, from which proofs take it.
#[tactic(auto, unfolding(crate::specs::Checking::au_fault))]
fn check_au(before: &[AuPlan], au: &AuPlan) -> Result<(), PlanFault>
    ensures { fault_of result ≡ au_fault before.now au.now }
{
    rule(
        within(0, LAST_NUMBER as usize, au.id as usize)
            && within(1, MOST_BLOCKS as usize, au.count as usize),
        PlanFault::Bounds,
    )?;
    rule(!has_au(before, au.id), PlanFault::Repeat)
}

fn check_aus(aus: &[AuPlan]) -> Result<(), PlanFault>
    ensures { fault_of result ≡ each au_fault [] aus.now }
{
    for (i, au) in aus.iter().enumerate() {
        check_au(&aus[..i], au)?;
    }
    Ok(())
}

/// Whether a peer of this number is among these.
#[tactic(auto, unfolding(crate::specs::Checking::has_peer))]
pub fn has_peer(peers: &[PeerPlan], id: u16) -> bool
    ensures { result ≡ has_peer peers.now id }
{
    peers.iter().any(|p| p.id == id)
}

/// Whether a corrupt peer of this number is among these.
#[tactic(auto, unfolding(crate::specs::Checking::has_corrupt))]
pub fn has_corrupt(peers: &[PeerPlan], id: u16) -> bool
    ensures { result ≡ has_corrupt peers.now id }
{
    peers.iter().any(|p| p.id == id && p.corrupt)
}

/// Whether an honest peer of this number is among these.
#[tactic(auto, unfolding(crate::specs::Checking::has_honest))]
pub fn has_honest(peers: &[PeerPlan], id: u16) -> bool
    ensures { result ≡ has_honest peers.now id }
{
    peers.iter().any(|p| p.id == id && !p.corrupt)
}

/// Whether the number is among these.
#[tactic(auto, unfolding(crate::specs::Checking::has_member))]
pub fn has_member(ids: &[u16], id: u16) -> bool
    ensures { result ≡ has_member ids.now id }
{
    ids.iter().any(|i| *i == id)
}

#[tactic(auto, unfolding(crate::specs::Checking::member_fault))]
fn check_member(peers: &[PeerPlan], own: u16, before: &[u16], id: u16) -> Result<(), PlanFault>
    ensures { fault_of result ≡ member_fault peers.now own before.now id }
{
    rule(id != own, PlanFault::SelfListed)?;
    rule(has_peer(peers, id), PlanFault::UnknownPeer)?;
    rule(!has_member(before, id), PlanFault::Repeat)
}

/// Whether these may be a list of the peer of this number, and if not, which rule the first bad member breaks.
pub fn check_members(peers: &[PeerPlan], own: u16, ids: &[u16]) -> Result<(), PlanFault>
    ensures { fault_of result ≡ each (member_fault peers.now own) [] ids.now }
{
    for (i, id) in ids.iter().enumerate() {
        check_member(peers, own, &ids[..i], *id)?;
    }
    Ok(())
}

#[tactic(auto, unfolding(crate::specs::Checking::has_counted))]
fn counts(aus: &[AuPlan], au: u16, count: usize) -> bool
    ensures { result ≡ has_counted aus.now au count }
{
    aus.iter().any(|a| a.id == au && a.count as usize == count)
}

/// Whether a copy of this AU is among these.
#[tactic(auto, unfolding(crate::specs::Checking::has_copy))]
pub fn has_copy(copies: &[Holding], au: u16) -> bool
    ensures { result ≡ has_copy copies.now au }
{
    copies.iter().any(|c| c.au == au)
}

/// Whether each of the blocks has at most 16,384 bytes.
#[tactic(auto, unfolding(crate::specs::Checking::are_short))]
pub fn are_short(blocks: &[Bytes]) -> bool
    ensures { result ≡ are_short blocks.now }
{
    blocks
        .iter()
        .all(|b| b.as_slice().len() <= MOST_BLOCK_BYTES as usize)
}

/// Whether a peer that has these copies may have this one besides, and if not, which rule it breaks.
#[tactic(auto, unfolding(crate::specs::Checking::copy_fault))]
pub fn check_copy(aus: &[AuPlan], before: &[Holding], copy: &Holding) -> Result<(), PlanFault>
    ensures { fault_of result ≡ copy_fault aus.now before.now copy.now }
{
    let blocks = copy.blocks.as_slice();
    rule(counts(aus, copy.au, blocks.len()), PlanFault::BlockCount)?;
    rule(!has_copy(before, copy.au), PlanFault::Repeat)?;
    rule(are_short(blocks), PlanFault::Bounds)
}

fn check_copies(aus: &[AuPlan], copies: &[Holding]) -> Result<(), PlanFault>
    ensures { fault_of result ≡ each (copy_fault aus.now) [] copies.now }
{
    for (i, copy) in copies.iter().enumerate() {
        check_copy(aus, &copies[..i], copy)?;
    }
    Ok(())
}

#[tactic(auto, unfolding(crate::specs::Checking::is_bare))]
fn bare(peer: &PeerPlan) -> bool
    ensures { result ≡ is_bare peer.now }
{
    peer.refs.as_slice().len() == 0
        && peer.friends.as_slice().len() == 0
        && peer.copies.as_slice().len() == 0
}

/// Whether the peer's proof has at most 64 bytes, and it has no lists and no copies if it is corrupt.
#[tactic(auto, unfolding(crate::specs::Checking::is_fit))]
pub fn is_fit(peer: &PeerPlan) -> bool
    ensures { result ≡ is_fit peer.now }
{
    peer.proof.as_slice().len() <= MOST_PROOF_BYTES as usize && (!peer.corrupt || bare(peer))
}

#[tactic(auto, unfolding(crate::specs::Checking::peer_fault))]
fn check_peer(
    aus: &[AuPlan],
    peers: &[PeerPlan],
    before: &[PeerPlan],
    peer: &PeerPlan,
) -> Result<(), PlanFault>
    ensures { fault_of result ≡ peer_fault aus.now peers.now before.now peer.now }
{
    rule(is_fit(peer), PlanFault::Bounds)?;
    rule(!has_peer(before, peer.id), PlanFault::Repeat)?;
    check_members(peers, peer.id, peer.refs.as_slice())?;
    check_members(peers, peer.id, peer.friends.as_slice())?;
    check_copies(aus, peer.copies.as_slice())
}

fn check_peers(aus: &[AuPlan], peers: &[PeerPlan]) -> Result<(), PlanFault>
    ensures { fault_of result ≡ each (peer_fault aus.now peers.now) [] peers.now }
{
    for (i, peer) in peers.iter().enumerate() {
        check_peer(aus, peers, &peers[..i], peer)?;
    }
    Ok(())
}

/// How many bytes are left of this room after these blocks, if they go into it.
pub fn room_after_blocks(mut room: usize, blocks: &[Bytes]) -> Option<usize>
    ensures enough { IfSome result (λ left. left + bytes_of_blocks blocks.now ≡ room) }
    ensures wanting { IfNone result (room < bytes_of_blocks blocks.now) }
{
    for block in blocks {
        room = room.checked_sub(block.as_slice().len())?;
    }
    Some(room)
}

fn room_after_copies(mut room: usize, copies: &[Holding]) -> Option<usize>
    ensures enough { IfSome result (λ left. left + bytes_of_copies copies.now ≡ room) }
    ensures wanting { IfNone result (room < bytes_of_copies copies.now) }
{
    for copy in copies {
        room = room_after_blocks(room, copy.blocks.as_slice())?;
    }
    Some(room)
}

fn room_after_peers(mut room: usize, peers: &[PeerPlan]) -> Option<usize>
    ensures enough { IfSome result (λ left. left + bytes_of_peers peers.now ≡ room) }
    ensures wanting { IfNone result (room < bytes_of_peers peers.now) }
{
    for peer in peers {
        room = room_after_copies(room, peer.copies.as_slice())?;
    }
    Some(room)
}

fn few_bytes(peers: &[PeerPlan]) -> bool
    ensures { result ≡ nat_le (bytes_of_peers peers.now) MOST_COPY_BYTES }
{
    room_after_peers(MOST_COPY_BYTES as usize, peers).is_some()
}

impl Plan {
    /// Whether the plan is good: if not, the first rule that it breaks.
    #[tactic(auto, unfolding(crate::specs::Checking::plan_fault))]
    pub fn check(&self) -> Result<(), PlanFault>
        ensures { fault_of result ≡ plan_fault self.now }
    {
        let aus = self.aus.as_slice();
        let peers = self.peers.as_slice();
        rule(are_bounded(&self.rules), PlanFault::Bounds)?;
        rule(are_ordered(&self.rules), PlanFault::RulesOrder)?;
        rule(self.turns <= MOST_EVENTS as u32, PlanFault::Bounds)?;
        rule(within(1, MOST_AUS as usize, aus.len()), PlanFault::Bounds)?;
        check_aus(aus)?;
        rule(
            within(1, MOST_PEERS as usize, peers.len()),
            PlanFault::Bounds,
        )?;
        check_peers(aus, peers)?;
        rule(few_bytes(peers), PlanFault::Bounds)
    }
}
