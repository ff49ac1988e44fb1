//! Races: their jobs go through a farm, and each of them reads the pool once.

ghost use Rattle.std.specs.Prelude.{◌≡◌, None, IfOk};

use crate::world::ordinary::{DAMAGE, perform, script_of, world_of};
use lks_base::OutOfMemory;
use lks_blocks::BlockPool;
use lks_disk::MemDisk;
use lks_farm::{Farm, FarmSet, Seat};
use lks_outside::{FirstByteJudge, ListBell};
use lks_race::{FreeGate, race, race_on};
use lks_script::Script;
use lks_world::World;
use std::alloc::Global;
use std::sync::Wait;
use std::test::Fail;
use std::thread::Threads;

/// The world of the script of ordinary use after its step, with this line behind its copies.
fn opened_world<'a, R: Threads + Wait + Sync>(
    alloc: Global,
    rt: &R,
    pool: &'a BlockPool,
    damage: &str,
) -> Result<World<'a, MemDisk, FirstByteJudge, ListBell>, Fail>
    ensures running { IfOk result (λ world. world.stopped ≡ None) }
    ensures pool { IfOk result (λ world. world.pool ≡ pool.now) }
{
    let Script { plan, steps } = script_of(alloc, "", damage)?;
    let mut world = world_of(alloc, rt, pool, plan)?;
    perform(rt, &mut world, steps.as_slice())?;
    Ok(world)
}

/// How many jobs were offered by way of these seats, and how many of them hold one.
fn counts(seats: &[Seat]) -> (u64, usize) {
    let mut offers: u64 = 0;
    let mut holding: usize = 0;
    for seat in seats {
        offers = offers.saturating_add(u64::from(seat.offers()));
        if seat.holds().is_some() {
            holding = holding.saturating_add(1);
        }
    }
    (offers, holding)
}

/// Races a world on a farm of four seats: how many jobs were offered, how many seats hold one, and how many jobs and
/// results are left.
fn on_a_farm<R: Threads + Wait + Sync>(
    alloc: Global,
    rt: &R,
    pool: &BlockPool,
) -> Result<(u64, usize, usize, usize), Fail> {
    let world = opened_world(alloc, rt, pool, DAMAGE)?;
    let set = Farm::new(alloc, pool, 64, 4)?;
    let (_world, end, set) = race_on(alloc, rt, world, pool, set, &FreeGate);
    end?;
    let FarmSet { farm, seats } = set;
    let (offers, holding) = counts(&seats);
    let left = farm.close(rt, alloc, seats).ok().ok_or(OutOfMemory)?;
    Ok((offers, holding, left.jobs.len(), left.done.len()))
}

// Three votes and two tallies go through the farm.
#[test]
fn a_race_through_the_farm(rt: HostRuntime) -> Result<(), Fail> {
    let pool = BlockPool::new(rt.alloc())?;
    assert_eq!(rt; on_a_farm(rt.alloc(), &rt, &pool)?, (5, 0, 0, 0));
    Ok(())
}

// Three votes and a tally over twelve blocks. Nobody has outer votes, so the agreed poll reads nothing more.
#[test]
fn each_job_reads_once(rt: HostRuntime) -> Result<(), Fail> {
    let pool = BlockPool::new(rt.alloc())?;
    let world = opened_world(rt.alloc(), &rt, &pool, "")?;
    let (_world, end) = race(rt.alloc(), &rt, world, &pool, 2, &FreeGate);
    end?;
    let reads = pool.reads();
    assert!(rt; 0 < reads && reads <= 48, "{reads} reads");
    Ok(())
}
