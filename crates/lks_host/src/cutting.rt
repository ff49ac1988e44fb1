//! A step while the power fails.

ghost use Rattle.std.specs.Prelude.{◌≡◌, ◌≤◌, ◌+◌, List, IfOk, OnOk, OnErr};
ghost use Rattle.lks_base.specs.declared.records.Record.{Record as Recorded};
ghost use Rattle.lks_host.specs.Cutting.{CutsOff, Falls, HadFuse, IsBack};
ghost use Rattle.lks_host.specs.Hosted.{StandsFor, IsMadeBy};
ghost use Rattle.lks_host.specs.Stepping.{CanStep, IsWritten};
ghost use Rattle.lks_law.specs.Batches.{with_batch};
ghost use Rattle.lks_law.specs.Facts.{IsHeard};
ghost use Rattle.lks_law.specs.Table.{react_on};

use crate::faults::HostFault;
use crate::hosts::Host;
use crate::outcomes::AfterCut;
use lks_base::{Input, Plan};
use lks_blocks::BlockPool;
use lks_disk::{CrashDisk, Setting};
use std::sync::Wait;

/// Cuts the power and recovers.
pub fn restart<R: Wait, D: CrashDisk>(
    rt: &R,
    pool: &BlockPool,
    host: &mut Host<D>,
    plan: &Plan,
) -> Result<(), HostFault>
    requires pooled { pool.now ≡ host.old.peer.pool }
    requires made { IsMadeBy plan.now host.old.peer.own }
    requires stands { (batches : List (List Recorded)) × StandsFor D.face host.old batches }
    ensures stands { (batches : List (List Recorded)) → StandsFor D.face host.old batches
        → OnOk result (StandsFor D.face host.new batches) }
    ensures falls { (batches : List (List Recorded)) → StandsFor D.face host.old batches
        → OnErr result (Falls D.face batches batches host.new.journal.disk) }
    ensures back { IsBack D.face host.old host.new result }
    ensures burns { D.face.burns host.new.journal.disk ≡ D.face.burns host.old.journal.disk }
{
    host.power_cut();
    host.recover(rt, pool, plan)?;
    Ok(())
}

/// Does a step on a fuse, cuts the power and recovers.
pub fn cut_step<R: Wait, D: CrashDisk>(
    rt: &R,
    pool: &BlockPool,
    host: &mut Host<D>,
    plan: &Plan,
    tick: u32,
    input: &Input,
    fuse: Setting,
) -> Result<AfterCut, HostFault>
    requires can { CanStep D.face pool.now host.old }
    requires made { IsMadeBy plan.now host.old.peer.own }
    requires heard { IsHeard input.now }
    ensures cuts { (batches : List (List Recorded)) → StandsFor D.face host.old batches →
        IfOk result
        (CutsOff D.face batches (react_on host.old.peer.own host.old.peer.state tick input.now) fuse.calls
        host.old host.new) }
    ensures falls { (batches : List (List Recorded)) → StandsFor D.face host.old batches →
        OnErr result
        (Falls D.face batches
        (with_batch batches (react_on host.old.peer.own host.old.peer.state tick input.now).records)
        host.new.journal.disk) }
    ensures back { IsBack D.face host.old host.new result }
    ensures fuse { HadFuse D.face fuse.calls fuse.choice host.old host.new result }
    ensures end { OnOk result (host.new.journal.end ≤ host.old.journal.end + 32768) }
    ensures written { OnOk result
        (IsWritten host.old.peer.own host.old.peer.state
        (react_on host.old.peer.own host.old.peer.state tick input.now).records) }
{
    let before = host.count();
    host.fuse(fuse.calls, fuse.choice);
    let done = host.step(rt, pool, tick, input);
    host.power_cut();
    match done {
        Ok(reaction) => {
            host.recover(rt, pool, plan)?;
            Ok(AfterCut::Whole(reaction))
        }
        Err(HostFault::Cut) => {
            let found = host.recover(rt, pool, plan)?;
            if found.count > before {
                Ok(AfterCut::Kept(found.last))
            } else {
                Ok(AfterCut::Lost)
            }
        }
        Err(HostFault::Failed) => Err(HostFault::Failed),
        Err(HostFault::Memory) => Err(HostFault::Memory),
        Err(HostFault::Stale { .. }) => unreachable!(),
    }
}
