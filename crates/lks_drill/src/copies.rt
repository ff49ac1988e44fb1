//! The copies of a drill, and how a draw damages them.

ghost use Rattle.std.specs.Prelude.{◌≡◌, ◌≤◌, ◌-◌, map, IfOk, OnOk};
ghost use Rattle.lks_drill.specs.Drill.{au_numbers, block_of, whole_copy, blocks_of, holding_of, after_copy};
ghost use Rattle.lks_drill.specs.Drill.{draw_before};

use lks_base::{AuId, Blocks, Bytes, Holding, OutOfMemory, PeerId, Seq};
use lks_draw::Draws;
use std::alloc::Global;

/// The first of the AUs, which are numbered in a row.
pub const FIRST_AU: AuId = 1;

/// The last of the AUs.
pub const LAST_AU: AuId = 2;

/// Blocks of each AU, numbered from 0.
pub const BLOCKS: u16 = 128;

/// Bytes of each block.
const BLOCK_BYTES: usize = 512;

/// One copy out of so many is damaged, on average.
const DAMAGE_ODDS: u32 = 8;

/// The byte of a damaged block is this and the number of the peer that holds it.
const DAMAGE_BYTE: u16 = 200;

/// A block that has the same byte 512 times.
#[tactic(auto, unfolding(crate::specs::Drill::block_of))]
fn block(alloc: Global, byte: u8) -> Result<Bytes, OutOfMemory>
    ensures { IfOk result (λ b. b ≡ block_of byte) }
{
    Ok(Bytes::from_vec(vec![in alloc; byte; BLOCK_BYTES]?))
}

/// A copy that nothing has damaged: each block has the byte that is its number.
fn whole(alloc: Global) -> Result<Vec<Bytes>, OutOfMemory>
    ensures { IfOk result (λ blocks. blocks.items ≡ whole_copy) }
{
    let mut blocks = Vec::new(alloc);
    for i in 0..BLOCKS {
        blocks.push(block(alloc, i as u8)?)?;
    }
    Ok(blocks)
}

/// The blocks of a copy of this peer, as the draw damages them: one in eight copies has a block of other bytes.
#[tactic(auto, using(crate::proofs::Drawing::whole_has_128, crate::proofs::Drawing::moved_twice), unfolding(crate::specs::Drill::blocks_of, crate::specs::Drill::is_damaged, crate::specs::Drill::after_copy))]
fn blocks(alloc: Global, peer: PeerId, draws: &mut Draws) -> Result<Blocks, OutOfMemory>
    requires { peer ≤ 12 }
    ensures blocks { IfOk result (λ blocks. blocks ≡ blocks_of peer draws.old) }
    ensures draws { OnOk result (draws.new ≡ after_copy draws.old) }
{
    let mut blocks = whole(alloc)?;
    if draws.next(DAMAGE_ODDS) == 0 {
        let at = draws.next(BLOCKS as u32);
        blocks[at as usize] = block(alloc, (DAMAGE_BYTE + peer) as u8)?;
    }
    Ok(Seq::from_vec(blocks))
}

/// A copy of each AU in order, of this peer.
#[tactic(auto, using(crate::proofs::Drawing::draw_to, crate::proofs::Drawing::none_before, crate::proofs::Ranges::map_to))]
pub fn copies(alloc: Global, peer: PeerId, draws: &mut Draws) -> Result<Seq<Holding>, OutOfMemory>
    requires { peer ≤ 12 }
    ensures copies { IfOk result
        (λ copies. copies ≡ map (λ a. holding_of peer a (draw_before draws.old (a - 1))) au_numbers) }
    ensures draws { OnOk result (draws.new ≡ draw_before draws.old 2) }
{
    let mut copies = Vec::new(alloc);
    for au in FIRST_AU..=LAST_AU {
        let blocks = blocks(alloc, peer, draws)?;
        copies.push(Holding { au, blocks })?;
    }
    Ok(Seq::from_vec(copies))
}
