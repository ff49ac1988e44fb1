//! A host whose disk fails while it is read again, and doesn't at a second call.

ghost use Rattle.std.specs.Prelude.{◌≡◌, None, IfOk, IsSome};
ghost use Rattle.lks_base.specs.Checking.{plan_fault};
ghost use Rattle.lks_disk.specs.MemFace.{mem_face};
ghost use Rattle.lks_host.specs.Hosted.{IsMadeBy};
ghost use Rattle.lks_host.specs.Recovering.{CanRecover};
ghost use Rattle.lks_law.specs.World.{honest_peer};

use crate::examples::plan_of;
use lks_base::Plan;
use lks_blocks::BlockPool;
use lks_disk::MemDisk;
use lks_host::{Host, HostFault, Recovered};
use std::alloc::Global;
use std::sync::Wait;
use std::test::*;

// A new host whose power was cut, and of whose disk the first call that reads fails.
fn cut_host<R: Wait>(
    alloc: Global,
    rt: &R,
    pool: &BlockPool,
    plan: &Plan,
) -> Result<Host<MemDisk>, Fail>
    requires good { plan_fault plan.now ≡ None }
    requires honest { IsSome (honest_peer 1 plan.now) }
    ensures can { IfOk result (CanRecover mem_face pool.now) }
    ensures made { IfOk result (λ host. IsMadeBy plan.now host.peer.own) }
{
    let disk = MemDisk::faulty(alloc, Vec::new(alloc), vec![in alloc; 1]?);
    let Ok(mut host) = Host::create(alloc, rt, pool, plan, 1, disk) else {
        return Err("no host".into());
    };
    host.power_cut();
    Ok(host)
}

fn recover<R: Wait>(
    rt: &R,
    pool: &BlockPool,
    plan: &Plan,
    host: &mut Host<MemDisk>,
) -> Result<Recovered, HostFault>
    requires can { CanRecover mem_face pool.now host.old }
    requires made { IsMadeBy plan.now host.old.peer.own }
    ensures can { CanRecover mem_face pool.now host.new }
    ensures made { IsMadeBy plan.now host.new.peer.own }
{
    host.recover(rt, pool, plan)
}

// Whether the first call is refused, and the second one finds the deposit.
fn recovers_later<R: Wait>(
    rt: &R,
    pool: &BlockPool,
    plan: &Plan,
    host: &mut Host<MemDisk>,
) -> Result<bool, HostFault>
    requires can { CanRecover mem_face pool.now host.old }
    requires made { IsMadeBy plan.now host.old.peer.own }
{
    let first = recover(rt, pool, plan, host);
    let is_refused = matches!(first, Err(HostFault::Failed)) && host.broken();
    let found = recover(rt, pool, plan, host)?;
    Ok(is_refused && found.count == 1 && !host.broken())
}

fn cut_and_recovered<R: Wait>(
    alloc: Global,
    rt: &R,
    pool: &BlockPool,
    plan: &Plan,
) -> Result<bool, Fail>
    requires good { plan_fault plan.now ≡ None }
    requires honest { IsSome (honest_peer 1 plan.now) }
{
    let mut host = cut_host(alloc, rt, pool, plan)?;
    Ok(recovers_later(rt, pool, plan, &mut host)?)
}

#[test]
fn recovers_at_a_second_call(rt: HostRuntime) -> Result<(), Fail> {
    let plan = plan_of(rt.alloc())?;
    let pool = BlockPool::new(rt.alloc())?;
    assert!(rt; cut_and_recovered(rt.alloc(), &rt, &pool, &plan)?);
    Ok(())
}
