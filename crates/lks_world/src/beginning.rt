//! How a world begins: each peer gets its site, an honest one its host on its disk.

ghost use Rattle.std.specs.Prelude.{◌≡◌, ◌≤◌, ◌<◌, ◌+◌, ◌++◌, ◌∷◌, [], ℕ, List, false, Some, None, IfOk, IfErr, OnOk};
ghost use Rattle.std.specs.Prelude.{OnErr, IsErrOf, IsSome, length, map, filter, option_map, reverse, vec_len};
ghost use Rattle.std.specs.Prelude.{vec_capacity};
ghost use Rattle.lks_base.specs.Checking.{plan_fault};
ghost use Rattle.lks_base.specs.declared.plans.PeerPlan.{PeerPlan as Planned};
ghost use Rattle.lks_disk.specs.Counts.{Rose};
ghost use Rattle.lks_host.specs.Hosted.{HasFront, answer_of, disk_hosted};
ghost use Rattle.lks_law.specs.Batches.{alone};
ghost use Rattle.lks_law.specs.World.{standing_of, is_honest, honest_peer};
ghost use Rattle.lks_world.specs.Begun.{CanBegin, CanSite, HasBegun, HasBegunAs, HasNext, HaveBegun, HaveRoom};
ghost use Rattle.lks_world.specs.Begun.{IsSiteed, IsServed, IsTaken, StopsAt, disk_siteed, fault_siteed, disks_after};
ghost use Rattle.lks_world.specs.Counts.{fault_in, ServesHonest};
ghost use Rattle.lks_world.specs.Held.{IsFresh, AreFresh, HaveBegunUpTo};
ghost use Rattle.lks_world.specs.Hosts.{peer_in, peers_of};
ghost use Rattle.lks_world.specs.Powers.{power_of};
ghost use Rattle.lks_world.specs.Sites.{AreSites, disks_at, hosts_of};
ghost use Rattle.lks_world.specs.States.{IsStateOf};

use crate::faults::{WorldFault, blame};
use crate::sites::{Site, unsite};
use crate::states::State;
use lks_base::{PeerId, PeerPlan, Plan};
use lks_blocks::BlockPool;
use lks_disk::CrashDisk;
use lks_host::Host;
use std::alloc::Global;
use std::sync::Wait;

/// The host of a peer on a fresh disk.
fn create_host<R: Wait, D: CrashDisk>(
    alloc: Global,
    rt: &R,
    pool: &BlockPool,
    plan: &Plan,
    id: PeerId,
    disk: D,
) -> Result<Host<D>, (D, WorldFault)>
    requires good { plan_fault plan.now ≡ None }
    requires honest { IsSome (honest_peer id plan.now) }
    requires fresh { IsFresh D.face disk }
    ensures peer { IfOk result
        (λ host. option_map (standing_of plan.now) (honest_peer id plan.now) ≡ Some (peer_in D.face host)) }
    ensures begun { IfOk result (λ host. HasBegun D.face pool.now host) }
    ensures front { (p : Planned) → honest_peer id plan.now ≡ Some p
        → OnErr result (HasFront D.face (map alone (standing_of plan.now p).journal) (disk_hosted result)) }
    ensures power { power_of D.face (disk_hosted result) ≡ power_of D.face disk }
    ensures later { D.face.faults disk ≤ D.face.faults (disk_hosted result) }
    ensures cause { (k : ℕ) → IsErrOf (answer_of result) (WorldFault.Disk k)
        → (id ≡ k) × Rose (D.face.faults disk) (D.face.faults (disk_hosted result)) }
{
    match Host::create(alloc, rt, pool, plan, id, disk) {
        Ok(host) => Ok(host),
        Err((disk, fault)) => Err((disk, blame(id, fault))),
    }
}

/// The site of a peer, on a fresh disk.
fn make_site<R: Wait, D: CrashDisk>(
    alloc: Global,
    rt: &R,
    pool: &BlockPool,
    plan: &Plan,
    peer: &PeerPlan,
    disk: D,
) -> Result<Site<D>, (D, WorldFault)>
    requires good { plan_fault plan.now ≡ None }
    requires planned { peer.now.corrupt ≡ false → honest_peer peer.now.id plan.now ≡ Some peer.now }
    requires fresh { IsFresh D.face disk }
    ensures begun { IfOk result (HasBegunAs D.face pool.now plan.now peer.now) }
    ensures front { IfErr result
        (λ e. (peer.now.corrupt ≡ false)
        × HasFront D.face (map alone (standing_of plan.now peer.now).journal) e.0) }
    ensures served { IsServed D.face peer.now disk (disk_siteed result) (fault_siteed result) }
    ensures power { power_of D.face (disk_siteed result) ≡ power_of D.face disk }
{
    if peer.corrupt {
        return Ok(Site::Idle(disk));
    }
    match create_host(alloc, rt, pool, plan, peer.id, disk) {
        Ok(host) => Ok(Site::Host(host)),
        Err((disk, fault)) => Err((disk, fault)),
    }
}

/// Makes the next peer's site on the last disk of the list. Where its host is refused, the disk is back in its place.
fn site_next<R: Wait, D: CrashDisk + Drop>(
    alloc: Global,
    rt: &R,
    pool: &BlockPool,
    plan: &Plan,
    peer: &PeerPlan,
    disks: &mut Vec<D>,
    sites: &mut Vec<Site<D>>,
) -> Result<(), WorldFault>
    requires next { HasNext D.face plan.now peer.now disks.old sites.old }
    ensures siteed { OnOk result (IsSiteed D.face pool.now plan.now peer.now sites.old.items sites.new.items) }
    ensures taken { OnOk result (IsTaken disks.old.items disks.new.items) }
    ensures stops { OnErr result
        (StopsAt D.face plan.now peer.now sites.old.items disks.old.items sites.new.items disks.new.items) }
    ensures fresh { OnOk result (AreFresh D.face (reverse disks.new.items)) }
    ensures serves { (before after : List Planned) → AreSites before sites.old.items →
        ServesHonest D.face (before ++ peer.now ∷ after) (disks_at sites.old.items ++ reverse disks.old.items)
        (disks_at sites.new.items ++ reverse disks.new.items) (fault_in result) }
    ensures power { map (power_of D.face) (disks_at sites.new.items ++ reverse disks.new.items)
        ≡ map (power_of D.face) (disks_at sites.old.items ++ reverse disks.old.items) }
    ensures rooms { HaveRoom disks.old disks.new sites.old sites.new result }
{
    let Some(disk) = disks.pop() else {
        unreachable!()
    };
    match make_site(alloc, rt, pool, plan, peer, disk) {
        Ok(site) => {
            sites.push_reserved(site);
            Ok(())
        }
        Err((disk, fault)) => {
            disks.push_reserved(disk);
            Err(fault)
        }
    }
}

/// Makes the site of each peer, in the plan's order, as long as no host is refused. The last disk of the list is the
/// first peer's.
fn site_each<R: Wait, D: CrashDisk + Drop>(
    alloc: Global,
    rt: &R,
    pool: &BlockPool,
    plan: &Plan,
    disks: &mut Vec<D>,
    sites: &mut Vec<Site<D>>,
) -> Result<(), WorldFault>
    requires sites { CanSite D.face plan.now disks.old sites.old }
    ensures sites { OnOk result (AreSites plan.now.peers sites.new.items) }
    ensures peers { OnOk result
        (peers_of D.face (hosts_of sites.new.items)
        ≡ map (standing_of plan.now) (filter is_honest plan.now.peers)) }
    ensures begun { OnOk result (HaveBegun D.face pool.now (hosts_of sites.new.items)) }
    ensures stops { OnErr result
        (HaveBegunUpTo D.face plan.now (reverse disks.old.items)
        (disks_at sites.new.items ++ reverse disks.new.items)) }
    ensures serves { ServesHonest D.face plan.now.peers (reverse disks.old.items)
        (disks_at sites.new.items ++ reverse disks.new.items) (fault_in result) }
    ensures power { map (power_of D.face) (disks_at sites.new.items ++ reverse disks.new.items)
        ≡ map (power_of D.face) (reverse disks.old.items) }
    ensures len { vec_len disks.new + vec_len sites.new ≤ vec_capacity disks.new }
{
    for p in plan.peers.as_slice() {
        site_next(alloc, rt, pool, plan, p, disks, sites)?;
    }
    Ok(())
}

/// The state with which a world begins. The last disk of the list is the first peer's; those that no peer has are left
/// there, and where a host is refused, all are.
pub fn begin<'a, R: Wait, D: CrashDisk + Drop>(
    alloc: Global,
    rt: &R,
    pool: &'a BlockPool,
    plan: &Plan,
    disks: &mut Vec<D>,
) -> Result<State<'a, D>, WorldFault>
    requires disks { CanBegin D.face plan.now disks.old }
    ensures state { IfOk result (λ state. IsStateOf D.face plan.now state) }
    ensures nothing { IfOk result (λ state. state.history.items ≡ []) }
    ensures pool { IfOk result (λ state. state.pool.now ≡ pool.now) }
    ensures sites { IfOk result (λ state. AreSites plan.now.peers state.sites.items) }
    ensures stops { OnErr result
        (HaveBegunUpTo D.face plan.now (reverse disks.old.items) (disks_after result disks.new.items)) }
    ensures serves { ServesHonest D.face plan.now.peers (reverse disks.old.items)
        (disks_after result disks.new.items) (fault_in result) }
    ensures power { map (power_of D.face) (disks_after result disks.new.items)
        ≡ map (power_of D.face) (reverse disks.old.items) }
    ensures room { IfOk result (λ state. vec_len disks.new + length state.sites.items ≤ vec_capacity disks.new) }
{
    let mut sites = Vec::with_capacity(alloc, plan.peers.as_slice().len())?;
    match site_each(alloc, rt, pool, plan, disks, &mut sites) {
        Ok(()) => Ok(State {
            pool,
            sites,
            bag: Vec::new(alloc),
            pending: Vec::new(alloc),
            history: Vec::new(alloc),
            tick: 0,
        }),
        Err(fault) => {
            unsite(sites, disks);
            Err(fault)
        }
    }
}
