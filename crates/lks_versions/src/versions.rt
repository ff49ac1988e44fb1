//! The versions of a copy.

ghost use Rattle.std.specs.Prelude.{◌≡◌, ◌≢◌, ℕ, ◌<◌, ◌≤◌, ◌+◌, ◌-◌, ◌^◌, List, [], ◌∷◌, ◌++◌, IsNone, IfOk, IfErr};
ghost use Rattle.std.specs.Prelude.{OnOk, OnErr, length, vec_len, slice_get, slice_index_or, slice_set, Some};
ghost use Rattle.lks_base.specs.declared.names.PollName.{PollName};
ghost use Rattle.lks_blocks.specs.Block.{Block, AllOf, bytes_of};
ghost use Rattle.lks_versions.specs.Each.{EachOf};
ghost use Rattle.lks_versions.specs.Pins.{pin_of, pins_with, pins_without};
ghost use Rattle.lks_versions.specs.Shelf.{current_of, newest_of, version_of, first_index, with_replaced, IsKept};
ghost use Rattle.lks_versions.specs.Shelf.{IsReplaced};
ghost use Rattle.lks_versions.specs.Whole.{IsCounted};

use crate::newest::Newest;
use lks_base::{Bytes, OutOfMemory, PollName};
use lks_blocks::{BlockPool, BlockRef, Refs};
use std::alloc::Global;
use std::marker::Model;
use std::sync::Wait;

/// A version of a deposit. Contents that are deposited anew in the same pool have other indexes there, so a tag of an
/// earlier deposit is not taken for one of a later.
#[derive(Clone, Copy, Debug, PartialEq, Eq)]
pub struct PinTag {
    /// The index of the deposit's first block.
    pub first: u64,
    pub version: u32,
}

/// A session's hold on a version.
#[derive(Drop)]
struct Pin {
    poll: PollName,
    version: u32,
}

/// All versions of a copy, from the deposit on, and the sessions that pin one. A session goes by the name of its poll.
#[derive(Drop)]
pub struct Versions {
    deposit: Refs,
    later: Vec<Refs>,
    pins: Vec<Pin>,
}

impl Model for Versions {
    ghost use Rattle.std.specs.Prelude.{◌∷◌};
    ghost use Rattle.lks_versions.specs.Shelf.{Shelf};

    ghost Value = { Shelf };

    ghost use Rattle.lks_versions.specs.Whole.{IsWhole};

    ghost view = { λ v. record { lists = v.deposit ∷ v.later.items; pins = v.pins.items } };

    ghost invariant = { λ v. IsWhole (v.deposit ∷ v.later.items) v.pins.items };
}

impl Versions {
    /// The copy as it is deposited: version 0, which no session pins.
    #[tactic(auto, using(crate::proofs::Wholes::whole_one))]
    pub fn deposit(alloc: Global, blocks: Vec<BlockRef>) -> Versions
        requires some { 1 ≤ vec_len blocks }
        requires few { vec_len blocks ≤ 65535 }
        ensures { result ≡ record { lists = blocks.items ∷ []; pins = [] } }
    {
        Versions {
            deposit: Refs::from_vec(blocks),
            later: Vec::new(alloc),
            pins: Vec::new(alloc),
        }
    }

    /// Puts the blocks of a copy into the pool, and deposits it.
    #[tactic(auto, using(crate::specs::Each::each_one))]
    pub fn put<R: Wait>(
        alloc: Global,
        rt: &R,
        pool: &BlockPool,
        blocks: &[Bytes],
    ) -> Result<Versions, OutOfMemory>
        requires some { 1 ≤ length blocks.now }
        requires few { length blocks.now ≤ 65535 }
        ensures bytes { IfOk result (λ v. bytes_of (newest_of v) ≡ blocks.now) }
        ensures current { IfOk result (λ v. current_of v ≡ 0) }
        ensures pins { IfOk result (λ v. v.pins ≡ []) }
        ensures of { IfOk result (λ v. EachOf pool.now v.lists) }
    {
        let refs = put_each(alloc, rt, pool, blocks)?;
        Ok(Versions::deposit(alloc, refs))
    }

    /// The number of the newest version, which is the number of replacements.
    pub fn current(&self) -> u32
        ensures { result ≡ current_of self.now }
    {
        self.later.len() as u32
    }

    /// The number of blocks, which is the same in each version.
    pub fn count(&self) -> u16
        ensures newest { result ≡ length (newest_of self.now) }
        ensures each { (k : ℕ) → k ≤ current_of self.now → length (version_of self.now k) ≡ result }
        ensures some { 1 ≤ result }
    {
        self.deposit.as_slice().len() as u16
    }

    /// Block `b` of the newest version.
    pub fn block(&self, b: u16) -> &BlockRef
        requires { b < length (newest_of self.now) }
        ensures { slice_get (newest_of self.now) b ≡ Some result.now }
    {
        &self.newest_refs()[b as usize]
    }

    /// The newest version as a poll reads it.
    #[tactic(auto, using(crate::specs::Each::each_newest))]
    pub fn newest<'a>(&'a self, pool: &'a BlockPool) -> Newest<'a>
        requires { EachOf pool.now self.now.lists }
        ensures { result ≡ bytes_of (newest_of self.now) }
    {
        Newest::new(pool, self.newest_refs())
    }

    /// References to the blocks of the newest version.
    pub fn newest_refs(&self) -> &[BlockRef]
        ensures newest { result.now ≡ newest_of self.now }
        ensures few { length result.now ≤ 65535 }
    {
        list_at(&self.deposit, self.later.as_slice(), self.current()).as_slice()
    }

    /// Pins the newest version for the session of a poll, and gives its number.
    pub fn pin(&mut self, poll: PollName) -> Result<u32, OutOfMemory>
        requires { IsNone (pin_of poll self.old.pins) }
        ensures number { IfOk result (λ k. k ≡ current_of self.old) }
        ensures pins { OnOk result
            (self.new ≡ record self.old { pins = pins_with poll (current_of self.old) self.old.pins }) }
        ensures mine { OnOk result (pin_of poll self.new.pins ≡ Some (current_of self.old)) }
        ensures others { (other : PollName) → other ≢ poll → pin_of other self.new.pins ≡ pin_of other self.old.pins }
        ensures err { OnErr result (self.new ≡ self.old) }
    {
        let version = self.current();
        self.pins.push(Pin { poll, version })?;
        Ok(version)
    }

    /// The version that the session of a poll pins.
    pub fn pinned(&self, poll: PollName) -> Option<u32>
        ensures { result ≡ pin_of poll self.now.pins }
    {
        pin_among(self.pins.as_slice(), poll)
    }

    /// Ends the pin of the session of a poll, if it has one.
    pub fn unpin(&mut self, poll: PollName)
        ensures pins { self.new ≡ record self.old { pins = pins_without poll self.old.pins } }
        ensures gone { IsNone (pin_of poll self.new.pins) }
        ensures others { (other : PollName) → other ≢ poll → pin_of other self.new.pins ≡ pin_of other self.old.pins }
    {
        self.pins.retain(|p| p.poll != poll);
    }

    /// Puts a reference in the place of block `b`: a version more, whose number it gives. Every earlier version and all
    /// pins stay. For want of memory the reference comes back.
    pub fn replace(&mut self, b: u16, r: BlockRef) -> Result<u32, BlockRef>
        requires block { b < length (newest_of self.old) }
        requires room { current_of self.old < 4294967295 }
        ensures number { IfOk result (λ k. k ≡ current_of self.old + 1) }
        ensures lists { OnOk result (self.new ≡ with_replaced self.old b r) }
        ensures added { IfOk result (λ k. version_of self.new k ≡ slice_set (newest_of self.old) b r) }
        ensures kept { (k : ℕ) → k ≤ current_of self.old → version_of self.new k ≡ version_of self.old k }
        ensures back { IfErr result (λ back. back ≡ r) }
        ensures err { OnErr result (self.new ≡ self.old) }
    {
        let current = self.current();
        let newest = list_at(&self.deposit, self.later.as_slice(), current);
        let Ok(mut list) = newest.clone() else {
            return Err(r);
        };
        if self.later.reserve(1).is_err() {
            return Err(r);
        }
        list.set(b as usize, r);
        self.later.push_reserved(list);
        Ok(current + 1)
    }

    /// Puts bytes into the pool, and the reference to them in the place of block `b`: a version more, whose number it
    /// gives, as by `replace`.
    #[tactic(auto, using(crate::proofs::Replaced::bytes_replaced, crate::specs::Each::each_replaced))]
    pub fn replace_bytes<R: Wait>(
        &mut self,
        alloc: Global,
        rt: &R,
        pool: &BlockPool,
        b: u16,
        bytes: &[u8],
    ) -> Result<u32, OutOfMemory>
        requires block { b < length (newest_of self.old) }
        requires room { current_of self.old < 4294967295 }
        ensures number { IfOk result (λ k. k ≡ current_of self.old + 1) }
        ensures lists { OnOk result (IsReplaced pool.now self.old self.new b bytes.now) }
        ensures current { OnOk result (current_of self.new ≡ current_of self.old + 1) }
        ensures bytes { OnOk result
            (bytes_of (newest_of self.new) ≡ slice_set (bytes_of (newest_of self.old)) b bytes.now) }
        ensures kept { (k : ℕ) → k ≤ current_of self.old → version_of self.new k ≡ version_of self.old k }
        ensures pins { self.new.pins ≡ self.old.pins }
        ensures of { EachOf pool.now self.old.lists → EachOf pool.now self.new.lists }
        ensures err { OnErr result (self.new ≡ self.old) }
    {
        let r = put_block(alloc, rt, pool, bytes)?;
        match self.replace(b, r) {
            Ok(number) => Ok(number),
            Err(_back) => Err(OutOfMemory),
        }
    }

    /// The blocks of the newest version, or of one that is pinned.
    pub fn refs(&self, version: u32) -> Result<Vec<BlockRef>, OutOfMemory>
        requires { IsKept self.now version }
        ensures blocks { IfOk result (λ refs. refs.items ≡ version_of self.now version) }
        ensures count { IfOk result (λ refs. IsCounted refs.items) }
    {
        let list = list_at(&self.deposit, self.later.as_slice(), version).clone()?;
        Ok(list.into_vec())
    }

    /// The name of a version of this deposit.
    pub fn tag(&self, version: u32) -> PinTag
        ensures { result ≡ record { first = first_index (version_of self.now 0); version = version } }
    {
        PinTag {
            first: self.deposit.as_slice()[0].index(),
            version,
        }
    }
}

fn put_block<R: Wait>(
    alloc: Global,
    rt: &R,
    pool: &BlockPool,
    bytes: &[u8],
) -> Result<BlockRef, OutOfMemory>
    ensures pool { IfOk result (λ r. r.pool ≡ pool.now) }
    ensures bytes { IfOk result (λ r. r.bytes ≡ bytes.now) }
{
    match pool.put(rt, bytes.to_vec(alloc)?) {
        Ok(r) => Ok(r),
        Err(_back) => Err(OutOfMemory),
    }
}

/// References to these blocks, put into the pool in order.
#[tactic(auto, using(lks_blocks::proofs::Bytes::bytes_push, lks_blocks::specs::Block::all_push, lks_blocks::specs::Block::all_none))]
fn put_each<R: Wait>(
    alloc: Global,
    rt: &R,
    pool: &BlockPool,
    blocks: &[Bytes],
) -> Result<Vec<BlockRef>, OutOfMemory>
    ensures bytes { IfOk result (λ refs. bytes_of refs.items ≡ blocks.now) }
    ensures of { IfOk result (λ refs. AllOf pool.now refs.items) }
{
    let mut refs = Vec::new(alloc);
    for bytes in blocks {
        refs.push(put_block(alloc, rt, pool, bytes.as_slice())?)?;
    }
    Ok(refs)
}

fn list_at<'a>(deposit: &'a Refs, later: &'a [Refs], version: u32) -> &'a Refs
    requires { version ≤ length later.now }
    ensures { result.now ≡ slice_index_or (deposit.now ∷ later.now) version [] }
{
    if version == 0 {
        deposit
    } else {
        &later[version as usize - 1]
    }
}

fn pin_among(pins: &[Pin], poll: PollName) -> Option<u32>
    ensures { result ≡ pin_of poll pins.now }
{
    for p in pins {
        if p.poll == poll {
            return Some(p.version);
        }
    }
    None
}
