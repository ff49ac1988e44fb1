//! The copies that a peer holds.

ghost use Rattle.std.specs.Prelude.{◌≡◌, ◌<◌, ◌==◌, ℕ, List, ◌∷◌, ◌++◌, [], false, true, None, Some, ◌≤◌, length};
ghost use Rattle.std.specs.Prelude.{if◌then◌else◌, is_some, map, option_map, find, get_or, OnOk, OnErr, IfOk, All};
ghost use Rattle.std.specs.List.{position};
ghost use Rattle.std.specs.Option.{option_copied};
ghost use Rattle.lks_blocks.specs.Block.{AllOf, bytes_of};
ghost use Rattle.lks_law.specs.Answering.{version_at};
ghost use Rattle.lks_law.specs.Fitting.{IsCounted, most_numbered};
ghost use Rattle.lks_law.specs.State.{copy_at, blocks_at, deposited_copy, opened_at, replaced_in, agreed_at};
ghost use Rattle.lks_law.specs.State.{noted_overdue, copy_changed};
ghost use Rattle.lks_law.specs.Journal as journal;
ghost use Rattle.lks_audit.specs.Copied.{copy_of, copies_of, IsOf, MayReplace};
ghost use Rattle.lks_versions.specs.Each.{EachOf};
ghost use Rattle.lks_versions.specs.Shelf.{newest_of, current_of};

use lks_base::{AuId, Bytes, OutOfMemory};
use lks_blocks::{BlockPool, BlockRef, Refs};
use lks_versions::{Newest, Versions};
use std::alloc::Global;
use std::marker::Model;
use std::sync::Wait;

/// A copy of an AU, with all its versions, and what audits say of it.
#[derive(Drop)]
pub struct Held {
    pub au: AuId,
    pub versions: Versions,
    /// The latest tick at which a poll on it was opened.
    pub opened: Option<u32>,
    /// The tick at which it was agreed last, or 0.
    pub agreed: u32,
    /// Whether it was noted as overdue since then.
    pub noted: bool,
}

fn find(copies: &[Held], au: AuId) -> Option<&Held>
    ensures { option_copied result ≡ find (λ h. h.au == au) copies.now }
{
    copies.iter().find(|h| h.au == au)
}

/// The copy of this AU, if it is held.
#[tactic(auto, using(crate::proofs::Holdings::copy_seen))]
pub fn find_copy(copies: &[Held], au: AuId) -> Option<&Held>
    ensures { copy_at au (copies_of copies.now) ≡ option_map copy_of (option_copied result) }
{
    find(copies, au)
}

fn find_place(copies: &[Held], au: AuId) -> Option<usize>
    ensures { result ≡ position (λ h. h.au == au) copies.now }
{
    copies.iter().position(|h| h.au == au)
}

/// The number of blocks of an AU that is held.
#[tactic(auto, using(lks_blocks::proofs::Bytes::bytes_count))]
pub fn count_held(copies: &[Held], au: AuId) -> u16
    requires { is_some (copy_at au (copies_of copies.now)) ≡ true }
    ensures count { result ≡ length (blocks_at au (copies_of copies.now)) }
    ensures some { 1 ≤ result }
{
    match find_copy(copies, au) {
        Some(held) => held.versions.count(),
        None => unreachable!(),
    }
}

/// The number of the newest version of an AU, 0 of one that isn't held.
pub fn version_of(copies: &[Held], au: AuId) -> u32
    ensures { result ≡ version_at au (copies_of copies.now) }
{
    match find_copy(copies, au) {
        Some(held) => held.versions.current(),
        None => 0,
    }
}

/// References to the blocks of the newest version of an AU, none of one that isn't held.
#[tactic(auto, using(crate::proofs::Holdings::copy_seen, lks_blocks::specs::Block::all_none))]
pub fn refer(alloc: Global, copies: &[Held], au: AuId) -> Result<Refs, OutOfMemory>
    ensures blocks { IfOk result (λ refs. bytes_of refs ≡ blocks_at au (copies_of copies.now)) }
    ensures of { IfOk result (λ refs. (pool : List ℕ) → All (IsOf pool) copies.now → AllOf pool refs) }
{
    match find(copies, au) {
        Some(held) => held.refer(),
        None => Ok(Refs::from_vec(Vec::new(alloc))),
    }
}

fn later(before: Option<u32>, tick: u32) -> u32
    ensures { Some result ≡ journal.later before tick }
{
    match before {
        Some(before) => before.max(tick),
        None => tick,
    }
}

impl Held {
    #[tactic(auto, using(lks_versions::specs::Each::each_newest))]
    fn refer(&self) -> Result<Refs, OutOfMemory>
        ensures blocks { IfOk result (λ refs. bytes_of refs ≡ (copy_of self.now).blocks) }
        ensures of { IfOk result (λ refs. (pool : List ℕ) → IsOf pool self.now → AllOf pool refs) }
    {
        let refs = self.versions.refs(self.versions.current())?;
        Ok(Refs::from_vec(refs))
    }

    fn agree(&mut self, tick: u32)
        ensures { self.new ≡ record self.old { agreed = tick; noted = false } }
    {
        self.agreed = tick;
        self.noted = false;
    }

    fn replace<R: Wait>(
        &mut self,
        alloc: Global,
        rt: &R,
        pool: &BlockPool,
        b: u16,
        bytes: &[u8],
    ) -> Result<(), OutOfMemory>
        requires block { b < length (newest_of self.old.versions) }
        requires room { current_of self.old.versions < most_numbered }
        ensures ok { OnOk result (copy_of self.new ≡ replaced_in b bytes.now (copy_of self.old)) }
        ensures of { IsOf pool.now self.old → IsOf pool.now self.new }
        ensures err { OnErr result (self.new ≡ self.old) }
    {
        self.versions.replace_bytes(alloc, rt, pool, b, bytes)?;
        Ok(())
    }
}

/// The copies that a peer holds, in order of their deposits. Contracts see them as a list.
#[derive(Drop)]
pub struct Copies {
    list: Vec<Held>,
}

impl Model for Copies {
    ghost use Rattle.std.specs.Prelude.{List};
    ghost use Rattle.lks_audit.specs.declared.copies.Held.{Held as HeldOf};

    ghost Value = { List HeldOf };

    ghost view = { λ c. c.list.items };
}

impl Copies {
    /// No copy.
    pub fn new(alloc: Global) -> Copies
        ensures { result ≡ [] }
    {
        Copies {
            list: Vec::new(alloc),
        }
    }

    /// The copies, in order of their deposits.
    pub fn as_slice(&self) -> &[Held]
        ensures { result.now ≡ self.now }
    {
        &self.list
    }

    fn get(&self, au: AuId) -> Option<&Held>
        ensures { option_copied result ≡ find (λ h. h.au == au) self.now }
    {
        find(&self.list, au)
    }

    /// The blocks of an AU that is held.
    #[tactic(auto, using(crate::proofs::Holdings::held_of, crate::proofs::Holdings::copy_seen))]
    pub fn read<'a>(&'a self, pool: &'a BlockPool, au: AuId) -> Newest<'a>
        requires of { All (IsOf pool.now) self.now }
        requires held { is_some (copy_at au (copies_of self.now)) ≡ true }
        ensures { result ≡ blocks_at au (copies_of self.now) }
    {
        match self.get(au) {
            Some(held) => held.versions.newest(pool),
            None => unreachable!(),
        }
    }

    /// References to the blocks of an AU that is held.
    #[tactic(auto, using(crate::proofs::Holdings::held_of, crate::proofs::Holdings::copy_seen, lks_versions::specs::Each::each_newest))]
    pub fn refs(&self, au: AuId) -> &[BlockRef]
        requires held { is_some (copy_at au (copies_of self.now)) ≡ true }
        ensures blocks { bytes_of result.now ≡ blocks_at au (copies_of self.now) }
        ensures of { (pool : List ℕ) → All (IsOf pool) self.now → AllOf pool result.now }
    {
        match self.get(au) {
            Some(held) => held.versions.newest_refs(),
            None => unreachable!(),
        }
    }

    fn place(&self, au: AuId) -> Option<usize>
        ensures { result ≡ position (λ h. h.au == au) self.now }
    {
        find_place(&self.list, au)
    }

    /// Notes that a poll on an AU was opened.
    #[tactic(auto, using(crate::proofs::Holdings::put_copy, crate::proofs::Holdings::put_nothing, crate::proofs::Holdings::put_of))]
    pub fn open(&mut self, au: AuId, tick: u32)
        ensures seen { copies_of self.new ≡ copy_changed au (opened_at tick) (copies_of self.old) }
        ensures of { (pool : List ℕ) → All (IsOf pool) self.old → All (IsOf pool) self.new }
    {
        if let Some(i) = self.place(au) {
            self.list[i].opened = Some(later(self.list[i].opened, tick));
        }
    }

    /// Notes that a poll on it was agreed.
    #[tactic(auto, using(crate::proofs::Holdings::put_copy, crate::proofs::Holdings::put_nothing, crate::proofs::Holdings::put_of))]
    pub fn agree(&mut self, au: AuId, tick: u32)
        ensures seen { copies_of self.new ≡ copy_changed au (agreed_at tick) (copies_of self.old) }
        ensures of { (pool : List ℕ) → All (IsOf pool) self.old → All (IsOf pool) self.new }
    {
        if let Some(i) = self.place(au) {
            self.list[i].agree(tick);
        }
    }

    /// Notes that it was noted as overdue.
    #[tactic(auto, using(crate::proofs::Holdings::put_copy, crate::proofs::Holdings::put_nothing, crate::proofs::Holdings::put_of))]
    pub fn note(&mut self, au: AuId)
        ensures seen { copies_of self.new ≡ copy_changed au noted_overdue (copies_of self.old) }
        ensures of { (pool : List ℕ) → All (IsOf pool) self.old → All (IsOf pool) self.new }
    {
        if let Some(i) = self.place(au) {
            self.list[i].noted = true;
        }
    }

    /// Puts other bytes in the place of a block.
    #[tactic(auto, using(crate::proofs::Holdings::put_copy, crate::proofs::Holdings::put_nothing, crate::proofs::Holdings::put_of))]
    pub fn replace<R: Wait>(
        &mut self,
        alloc: Global,
        rt: &R,
        pool: &BlockPool,
        au: AuId,
        b: u16,
        bytes: &[u8],
    ) -> Result<(), OutOfMemory>
        requires { MayReplace au b (copies_of self.old) }
        ensures seen { OnOk result
            (copies_of self.new ≡ copy_changed au (replaced_in b bytes.now) (copies_of self.old)) }
        ensures of { All (IsOf pool.now) self.old → All (IsOf pool.now) self.new }
        ensures err { OnErr result (self.new ≡ self.old) }
    {
        match self.place(au) {
            Some(i) => self.list[i].replace(alloc, rt, pool, b, bytes),
            None => Ok(()),
        }
    }

    /// Puts the blocks of a copy into the pool, with which the peer begins, unless the AU is held.
    pub fn deposit<R: Wait>(
        &mut self,
        alloc: Global,
        rt: &R,
        pool: &BlockPool,
        au: AuId,
        blocks: &[Bytes],
    ) -> Result<(), OutOfMemory>
        requires { IsCounted blocks.now }
        ensures seen { OnOk result
            (copies_of self.new
            ≡ (if is_some (copy_at au (copies_of self.old)) then copies_of self.old
            else copies_of self.old ++ deposited_copy au blocks.now ∷ [])) }
        ensures of { All (IsOf pool.now) self.old → All (IsOf pool.now) self.new }
        ensures err { OnErr result (self.new ≡ self.old) }
    {
        if find_copy(&self.list, au).is_some() {
            return Ok(());
        }
        let versions = Versions::put(alloc, rt, pool, blocks)?;
        self.list.push(Held {
            au,
            versions,
            opened: None,
            agreed: 0,
            noted: false,
        })?;
        Ok(())
    }
}
