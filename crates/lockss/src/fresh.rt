//! Disks in memory for a run.

ghost use Rattle.std.specs.Prelude.{◌≡◌, ◌≤◌, ◌++◌, ◌∷◌, [], IfOk, OnOk, All, length};
ghost use Rattle.lks_base.specs.declared.limits.TheConstants.{MOST_PEERS};
ghost use Rattle.lks_disk.specs.Fuse.{Starts};
ghost use Rattle.lks_world.specs.Held.{IsFresh, AreFresh};

use lks_base::MOST_PEERS;
use lks_disk::{Disk, MemDisk};
use std::alloc::{AllocError, Global};

/// An empty disk of which the named writes and syncs fail, counted from 1.
pub fn fresh_disk(alloc: Global, fail: Vec<u32>) -> MemDisk
    ensures fails { Starts fail.items [] result.control }
    ensures fresh { IsFresh ⟦<MemDisk as Disk>⟧.face result }
{
    MemDisk::new(alloc, fail)
}

/// An empty disk for each peer that a script may have. No call of them fails.
pub fn fresh_disks(alloc: Global) -> Result<Vec<MemDisk>, AllocError>
    ensures enough { IfOk result (λ disks. MOST_PEERS ≤ length disks.items) }
    ensures unfailing { IfOk result (λ disks. All (λ disk. Starts [] [] disk.control) disks.items) }
    ensures fresh { IfOk result (λ disks. AreFresh ⟦<MemDisk as Disk>⟧.face disks.items) }
{
    let mut disks = Vec::with_capacity(alloc, MOST_PEERS as usize)?;
    for count in 0..MOST_PEERS as usize {
        disks.push(fresh_disk(alloc, Vec::new(alloc)))?;
    }
    Ok(disks)
}
