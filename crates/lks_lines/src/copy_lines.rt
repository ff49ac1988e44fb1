//! Lines that say what copies a peer has.

ghost use Rattle.std.specs.Prelude.{◌≡◌, ◌==◌, map, length};
ghost use Rattle.std.specs.List.{find, position};
ghost use Rattle.std.specs.Option.{option_copied};
ghost use Rattle.lks_base.specs.Checking.{bytes_of_blocks};
ghost use Rattle.lks_words.specs.Words.{Gives};
ghost use Rattle.lks_lines.specs.CopyLines.{may_hold, copy_at, content_in, with_more, copies_with, holding};
ghost use Rattle.lks_lines.specs.CopyLines.{draft_with_copy, block_put, copy_damaged, peers_with_damage};
ghost use Rattle.lks_lines.specs.CopyLines.{draft_with_damage};

use crate::plan_lines::PlanDraft;
use lks_base::{
    AuPlan, Blocks, Bytes, Holding, MOST_BLOCK_BYTES, MOST_COPY_BYTES, PeerPlan, Seq, check_copy,
    room_after_blocks,
};
use lks_words::{Stop, block, blocks, id, index};
use std::alloc::Global;
use std::mem;

#[tactic(auto, unfolding(crate::specs::CopyLines::may_hold))]
fn may_keep(id: u16, peer: &PeerPlan) -> bool
    ensures { result ≡ may_hold id peer.now }
{
    peer.id == id && !peer.corrupt
}

fn holder(peers: &[PeerPlan], id: u16) -> Option<usize>
    ensures { result ≡ position (may_hold id) peers.now }
{
    peers.iter().position(|p| may_keep(id, p))
}

fn find_peer(peers: &[PeerPlan], id: u16) -> Option<&PeerPlan>
    ensures { option_copied result ≡ find (λ p. p.id == id) peers.now }
{
    peers.iter().find(|p| p.id == id)
}

fn find_copy(copies: &[Holding], au: u16) -> Option<&Holding>
    ensures { option_copied result ≡ find (λ c. c.au == au) copies.now }
{
    copies.iter().find(|c| c.au == au)
}

#[tactic(auto, unfolding(crate::specs::CopyLines::copy_at))]
fn like(peers: &[PeerPlan], au: u16, id: u16) -> Result<Blocks, Stop>
    ensures { Gives result (copy_at peers.now id au) }
{
    let Some(peer) = find_peer(peers, id) else {
        return Err(Stop::Bad);
    };
    let Some(copy) = find_copy(peer.copies.as_slice(), au) else {
        return Err(Stop::Bad);
    };
    Ok(copy.blocks.clone()?)
}

#[tactic(auto, unfolding(crate::specs::CopyLines::content_in))]
fn content(alloc: Global, peers: &[PeerPlan], au: u16, words: &[&[u8]]) -> Result<Blocks, Stop>
    ensures { Gives result (content_in peers.now au (map (λ w. w.now) words.now)) }
{
    match words {
        [content] => blocks(alloc, content),
        [key, name] => {
            if *key != b"like".as_slice() {
                return Err(Stop::Bad);
            }
            let name = id(name)?;
            like(peers, au, name)
        }
        _ => Err(Stop::Bad),
    }
}

#[tactic(auto, unfolding(crate::specs::CopyLines::with_more))]
fn after_block(bytes: usize, block: &Bytes) -> Option<usize>
    ensures { result ≡ with_more bytes (length block.now) }
{
    let room = (MOST_COPY_BYTES as usize).checked_sub(bytes)?;
    let left = room.checked_sub(block.as_slice().len())?;
    Some(MOST_COPY_BYTES as usize - left)
}

#[tactic(auto, unfolding(crate::specs::CopyLines::with_more))]
fn after_blocks(bytes: usize, blocks: &Blocks) -> Option<usize>
    ensures { result ≡ with_more bytes (bytes_of_blocks blocks.now) }
{
    let room = (MOST_COPY_BYTES as usize).checked_sub(bytes)?;
    let left = room_after_blocks(room, blocks.as_slice())?;
    Some(MOST_COPY_BYTES as usize - left)
}

#[tactic(auto, unfolding(crate::specs::CopyLines::copies_with))]
fn hold(
    aus: &[AuPlan],
    bytes: usize,
    copies: Seq<Holding>,
    copy: Holding,
) -> Result<(Seq<Holding>, usize), Stop>
    ensures { Gives result (copies_with aus.now bytes copy copies) }
{
    let Some(all) = after_blocks(bytes, &copy.blocks) else {
        return Err(Stop::Bad);
    };
    if check_copy(aus, copies.as_slice(), &copy).is_err() {
        return Err(Stop::Bad);
    }
    let mut copies = copies.into_vec();
    copies.push(copy)?;
    Ok((Seq::from_vec(copies), all))
}

#[tactic(auto, unfolding(crate::specs::CopyLines::holding))]
fn give_copy(
    alloc: Global,
    aus: &[AuPlan],
    bytes: usize,
    peers: Seq<PeerPlan>,
    id: u16,
    copy: Holding,
) -> Result<(Seq<PeerPlan>, usize), Stop>
    ensures { Gives result (holding aus.now bytes id copy peers) }
{
    let mut peers = peers.into_vec();
    let Some(at) = holder(&peers, id) else {
        return Err(Stop::Bad);
    };
    let peer = &mut peers[at];
    let kept = mem::replace(&mut peer.copies, Seq::from_vec(Vec::new(alloc)));
    let (copies, all) = hold(aus, bytes, kept, copy)?;
    peer.copies = copies;
    Ok((Seq::from_vec(peers), all))
}

/// The draft with the copy that the words behind `copy` say.
#[tactic(auto, unfolding(crate::specs::CopyLines::draft_with_copy))]
pub fn add_copy(alloc: Global, draft: PlanDraft, words: &[&[u8]]) -> Result<PlanDraft, Stop>
    ensures { Gives result (draft_with_copy draft (map (λ w. w.now) words.now)) }
{
    let [name, au, more @ ..] = words else {
        return Err(Stop::Bad);
    };
    let name = id(name)?;
    let au = id(au)?;
    let blocks = content(alloc, draft.plan.peers.as_slice(), au, more)?;
    let copy = Holding { au, blocks };
    let bytes = draft.bytes;
    let (peers, draft) = draft.into_peers(alloc);
    let aus = draft.plan.aus.as_slice();
    let (peers, bytes) = give_copy(alloc, aus, bytes, peers, name, copy)?;
    Ok(draft.with_peers(peers, bytes))
}

#[tactic(auto, unfolding(crate::specs::CopyLines::block_put))]
fn put_block(bytes: usize, b: u16, block: Bytes, blocks: Blocks) -> Result<(Blocks, usize), Stop>
    ensures { Gives result (block_put bytes b block blocks) }
{
    let mut blocks = blocks.into_vec();
    let Some(old) = blocks.get(b as usize) else {
        return Err(Stop::Bad);
    };
    let rest = bytes.saturating_sub(old.as_slice().len());
    let Some(all) = after_block(rest, &block) else {
        return Err(Stop::Bad);
    };
    if block.as_slice().len() > MOST_BLOCK_BYTES as usize {
        return Err(Stop::Bad);
    }
    blocks[b as usize] = block;
    Ok((Seq::from_vec(blocks), all))
}

fn held(copies: &[Holding], au: u16) -> Option<usize>
    ensures { result ≡ position (λ c. c.au == au) copies.now }
{
    copies.iter().position(|c| c.au == au)
}

#[tactic(auto, unfolding(crate::specs::CopyLines::copy_damaged))]
fn damage_copy(
    alloc: Global,
    bytes: usize,
    au: u16,
    b: u16,
    block: Bytes,
    copies: Seq<Holding>,
) -> Result<(Seq<Holding>, usize), Stop>
    ensures { Gives result (copy_damaged bytes au b block copies) }
{
    let mut copies = copies.into_vec();
    let Some(at) = held(&copies, au) else {
        return Err(Stop::Bad);
    };
    let copy = &mut copies[at];
    let kept = mem::replace(&mut copy.blocks, Seq::from_vec(Vec::new(alloc)));
    let (blocks, all) = put_block(bytes, b, block, kept)?;
    copy.blocks = blocks;
    Ok((Seq::from_vec(copies), all))
}

#[tactic(auto, unfolding(crate::specs::CopyLines::peers_with_damage))]
fn damage(
    alloc: Global,
    bytes: usize,
    peers: Seq<PeerPlan>,
    id: u16,
    au: u16,
    b: u16,
    block: Bytes,
) -> Result<(Seq<PeerPlan>, usize), Stop>
    ensures { Gives result (peers_with_damage bytes id au b block peers) }
{
    let mut peers = peers.into_vec();
    let Some(at) = holder(&peers, id) else {
        return Err(Stop::Bad);
    };
    let peer = &mut peers[at];
    let kept = mem::replace(&mut peer.copies, Seq::from_vec(Vec::new(alloc)));
    let (copies, all) = damage_copy(alloc, bytes, au, b, block, kept)?;
    peer.copies = copies;
    Ok((Seq::from_vec(peers), all))
}

/// The draft with the block that the words behind `damage` say, in the place of the one before.
#[tactic(auto, unfolding(crate::specs::CopyLines::draft_with_damage))]
pub fn add_damage(alloc: Global, draft: PlanDraft, words: &[&[u8]]) -> Result<PlanDraft, Stop>
    ensures { Gives result (draft_with_damage draft (map (λ w. w.now) words.now)) }
{
    let [name, au, at, content] = words else {
        return Err(Stop::Bad);
    };
    let name = id(name)?;
    let au = id(au)?;
    let at = index(at)?;
    let block = block(alloc, content)?;
    let bytes = draft.bytes;
    let (peers, draft) = draft.into_peers(alloc);
    let (peers, bytes) = damage(alloc, bytes, peers, name, au, at, block)?;
    Ok(draft.with_peers(peers, bytes))
}
