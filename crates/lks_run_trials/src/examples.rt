//! The examples of the crate pages of `lks_peer`, `lks_host` and `lks_evidence`, each the lines of a function: peer 1
//! holds the blocks `41` and `42` of AU 1, and knows peers 2, 3 and 4.

ghost use Rattle.std.specs.Prelude.{◌≡◌, None, IfOk, IsSome};
ghost use Rattle.lks_base.specs.Checking.{plan_fault};
ghost use Rattle.lks_law.specs.World.{honest_peer};

use lks_base::{Bytes, Input, OutOfMemory, Plan, Record, Seq};
use lks_blocks::BlockPool;
use lks_disk::MemDisk;
use lks_evidence::{Doubt, Finding, Shelf, Why, examine};
use lks_host::{Host, begin_peer};
use lks_journal::Journal;
use lks_peer::find_honest;
use lks_script::{Script, read_script};
use std::alloc::Global;
use std::sync::Wait;
use std::test::*;

const PLAN: &str = "\
lockss 1
rules inner 4 quorum 3 minority 1 outer 0 repairs 2 pace 0 refractory 0 overdue 100 unknown 100 debt 100 churn 0
au 1 2
peer 1 honest 01 01
peer 2 corrupt 02 01
peer 3 corrupt 03 01
peer 4 corrupt 04 01
refs 1 2 3 4
copy 1 1 41,42
";

pub fn plan_of(alloc: Global) -> Result<Plan, Fail>
    ensures good { IfOk result (λ plan. plan_fault plan ≡ None) }
    ensures honest { IfOk result (λ plan. IsSome (honest_peer 1 plan)) }
{
    let Ok(Script { plan, .. }) = read_script(alloc, PLAN.as_bytes()) else {
        return Err("no script".into());
    };
    if plan.check().is_err() || find_honest(plan.peers.as_slice(), 1).is_none() {
        return Err("no good plan".into());
    }
    Ok(plan)
}

/// How many peers a peer invites to a poll on AU 1.
fn invited<R: Wait>(
    alloc: Global,
    rt: &R,
    pool: &BlockPool,
    plan: &Plan,
) -> Result<usize, OutOfMemory>
    requires good { plan_fault plan.now ≡ None }
    requires honest { IsSome (honest_peer 1 plan.now) }
{
    let (mut peer, _deposits) = begin_peer(alloc, rt, pool, plan, 1)?;
    // At tick 5 it is told to open the poll, and invites three peers.
    let opened = peer.step(rt, pool, 5, &Input::OpenPoll { au: 1 })?;
    Ok(opened.sends.as_slice().len())
}

#[test]
fn a_peer_that_is_told_things(rt: HostRuntime) -> Result<(), Fail> {
    let alloc = rt.alloc();
    let plan = plan_of(alloc)?;
    let pool = BlockPool::new(alloc)?;
    assert_eq!(rt; invited(alloc, &rt, &pool, &plan)?, 3);
    Ok(())
}

/// How many peers a host's peer invites to a poll on AU 1, and how many batches its journal has then.
fn invited_and_kept<R: Wait>(
    alloc: Global,
    rt: &R,
    pool: &BlockPool,
    plan: &Plan,
) -> Result<(usize, usize), Fail>
    requires good { plan_fault plan.now ≡ None }
    requires honest { IsSome (honest_peer 1 plan.now) }
{
    let disk = MemDisk::new(alloc, Vec::new(alloc));
    let mut host = Host::create(alloc, rt, pool, plan, 1, disk).map_err(|e| e.1)?;
    // At tick 5 it is told to open the poll: this is on the disk before the three invitations are handed out.
    let opened = host.step(rt, pool, 5, &Input::OpenPoll { au: 1 })?;
    // The journal on the disk has two batches: the deposit, and the opening.
    let (_journal, batches) = Journal::reopen(alloc, host.into_disk()).map_err(|e| e.1)?;
    Ok((opened.sends.as_slice().len(), batches.len()))
}

#[test]
fn a_host_over_a_disk(rt: HostRuntime) -> Result<(), Fail> {
    let alloc = rt.alloc();
    let plan = plan_of(alloc)?;
    let pool = BlockPool::new(alloc)?;
    assert_eq!(rt; invited_and_kept(alloc, &rt, &pool, &plan)?, (3, 2));
    Ok(())
}

#[tactic(auto, unfolding(lks_evidence::specs::Sizes::most_records))]
#[test]
fn a_set_that_is_examined(rt: HostRuntime) -> Result<(), Fail> {
    let alloc = rt.alloc();
    let plan = plan_of(alloc)?;
    let first = Bytes::from_vec(b"A".to_vec(alloc)?);
    let second = Bytes::from_vec(b"B".to_vec(alloc)?);
    let blocks = Seq::from_vec(vec![in alloc; first, second]?);
    let bytes = Bytes::from_vec(b"C".to_vec(alloc)?);
    let deposit = Record::Deposit { au: 1, blocks };
    // A replaced block with no poll behind it.
    let replaced = Record::Replaced {
        number: 1,
        au: 1,
        block: 1,
        bytes,
    };
    let list = vec![in alloc; deposit, replaced]?;
    let set = vec![in alloc; Shelf { peer: 1, list }]?;
    let doubt = Doubt {
        peer: 1,
        place: 1,
        why: Why::Poll,
    };
    assert_eq!(rt; examine(alloc, &plan, &set)?, Finding::No(doubt));
    Ok(())
}
