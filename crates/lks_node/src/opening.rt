//! A store becomes a journal of the peer's own.

ghost use Rattle.std.specs.Prelude.{◌≡◌, true, ◌≤◌, ◌↔◌, ◌⊎◌, ℕ, List, [], false, length, map, sum_by, None, Some};
ghost use Rattle.std.specs.Prelude.{IfOk, IfErr, IsSome, IsTrue};
ghost use Rattle.lks_base.specs.Checking.{plan_fault};
ghost use Rattle.lks_base.specs.declared.plans.PeerPlan.{PeerPlan as Planned};
ghost use Rattle.lks_base.specs.declared.records.Record.{Record as Recorded};
ghost use Rattle.lks_disk.specs.Device.{Only};
ghost use Rattle.lks_disk.specs.declared.disks.DiskFail.TheVariants as device;
ghost use Rattle.lks_field.specs.Frames.{HoldsBodies};
ghost use Rattle.lks_host.specs.Adopting.{IsFiled, IsReadAs, LeavesFront};
ghost use Rattle.lks_host.specs.Faults.{breaks};
ghost use Rattle.lks_host.specs.Hosted.{HasFront};
ghost use Rattle.lks_host.specs.declared.faults.HostFault.TheVariants as hosted;
ghost use Rattle.lks_journal.specs.declared.faults.JournalFault.TheVariants as journal;
ghost use Rattle.lks_journal.specs.Settled.{disk_read};
ghost use Rattle.lks_journal.specs.Stays.{Stays};
ghost use Rattle.lks_law.specs.Batches.{alone};
ghost use Rattle.lks_law.specs.Behind.{tick_in, latest_tick};
ghost use Rattle.lks_law.specs.World.{deposits, honest_peer, station_of};
ghost use Rattle.lks_node.specs.Being.{IsFit};
ghost use Rattle.lks_node.specs.Opening.{of_disk, of_journal, store_of, IsBegun, IsCalm, IsPlain, IsSorted, IsUnread};
ghost use Rattle.lks_node.specs.Opening.{IsUnready, IsUnsorted};
ghost use Rattle.lks_host.specs.Owners.{Owns, missing_of};

use crate::ends::{Fall, Unready};
use crate::nodes::{Node, fall};
use lks_base::{Bytes, PeerId, Plan, Record};
use lks_blocks::BlockPool;
use lks_disk::{Disk, DiskFail};
use lks_host::{Host, HostFault, PeerSort, sort_with_peer};
use lks_journal::{Journal, JournalFault};
use lks_peer::Peer;
use std::alloc::Global;
use std::sync::Wait;

/// The most bytes of batches that are sorted.
const MOST_BYTES: u64 = 2_147_483_647;

/// Whether the bodies have together at most as many bytes as a journal.
fn are_few(bodies: &[Bytes]) -> bool
    ensures { IsTrue result ↔ (sum_by length bodies.now ≤ MOST_BYTES) }
{
    let mut room = MOST_BYTES;
    for body in bodies {
        match room.checked_sub(body.as_slice().len() as u64) {
            Some(left) => room = left,
            None => return false,
        }
    }
    true
}

/// What is said of a store that answered this. No fuse is set on it.
fn failed(fail: DiskFail) -> Unready
    requires { fail ≡ device.Cut → ⊥ }
    ensures { result ≡ of_disk fail }
{
    match fail {
        DiskFail::Failed => Unready::Failed,
        DiskFail::Cut => unreachable!(),
        DiskFail::Memory => Unready::Memory,
    }
}

/// What is said of a journal that can't be read. It isn't full, since nothing is appended, and no fuse is set.
fn unread(fault: JournalFault) -> Unready
    requires cut { fault ≡ journal.Cut → ⊥ }
    requires full { fault ≡ journal.Full → ⊥ }
    ensures { result ≡ of_journal fault }
{
    match fault {
        JournalFault::Failed => Unready::Failed,
        JournalFault::Memory => Unready::Memory,
        JournalFault::Damaged { offset } => Unready::Damaged { offset },
        JournalFault::Full | JournalFault::Cut => unreachable!(),
    }
}

/// What is said of a host that wasn't made. No fuse is set on its disk.
fn unmade(fault: HostFault) -> Unready
    requires cut { fault ≡ hosted.Cut → ⊥ }
    requires breaks { breaks fault ≡ true }
    ensures failed { result ≡ Unready.Failed → fault ≡ hosted.Failed }
    ensures plain { (result ≡ Unready.Failed) ⊎ (result ≡ Unready.Memory) }
{
    match fall(fault) {
        Fall::Failed => Unready::Failed,
        Fall::Memory => Unready::Memory,
    }
}

/// The tick of a record, if it has one.
fn tick_of(r: &Record) -> Option<u32>
    ensures { result ≡ tick_in r.now }
{
    match r {
        Record::PollOpened { tick, .. }
        | Record::Closed { tick, .. }
        | Record::Overdue { tick, .. }
        | Record::Joined { tick, .. } => Some(*tick),
        Record::Deposit { .. }
        | Record::Nominated { .. }
        | Record::OuterOpened { .. }
        | Record::VoteIn { .. }
        | Record::Shut { .. }
        | Record::Asked { .. }
        | Record::RepairBad { .. }
        | Record::Replaced { .. }
        | Record::Committed { .. }
        | Record::Voted { .. }
        | Record::Served { .. }
        | Record::Ended { .. }
        | Record::Tuned { .. } => None,
    }
}

/// The greatest tick of these records, or 0.
#[tactic(auto, unfolding(lks_law::specs::Behind::latest_tick))]
fn latest(records: &[Record]) -> u32
    ensures { result ≡ latest_tick records.now }
{
    let mut found = 0u32;
    for r in records {
        if let Some(tick) = tick_of(r) {
            found = found.max(tick);
        }
    }
    found
}

/// A new journal, which begins with the peer's deposits.
fn begin<R: Wait, D: Disk>(
    alloc: Global,
    rt: &R,
    pool: &BlockPool,
    plan: &Plan,
    id: PeerId,
    store: D,
) -> Result<Node<D>, (D, Unready)>
    requires good { plan_fault plan.now ≡ None }
    requires honest { IsSome (honest_peer id plan.now) }
    requires unfused { D.face.fused store ≡ false }
    requires empty { D.face.told store → D.face.seen store ≡ [] }
    ensures begun { (p : Planned) → honest_peer id plan.now ≡ Some p → IfOk result (IsBegun D.face plan.now p store) }
    ensures fit { IfOk result (IsFit D.face pool.now) }
    ensures causes { IfErr result (λ e. IsPlain (D.face.faults store) (D.face.faults e.0) e.1 ×
        ((p : Planned) → honest_peer id plan.now ≡ Some p → D.face.told store → Only [] (D.face.may_leave store)
        → HasFront D.face (map alone (deposits plan.now.aus p.copies)) e.0)) }
    ensures calm { IsCalm D.face store (store_of result) }
    ensures ok { IfOk result (λ node. D.face.faults node.host.journal.disk ≡ D.face.faults store) }
{
    match Host::create(alloc, rt, pool, plan, id, store) {
        Ok(host) => Ok(Node { host, tick: 0 }),
        Err((store, fault)) => Err((store, unmade(fault))),
    }
}

/// The host of a peer over its journal, with the deposits that this lacks. Its clock stands at the greatest tick there.
fn adopt<D: Disk>(
    alloc: Global,
    plan: &Plan,
    id: PeerId,
    peer: Peer,
    journal: Journal<D>,
    list: &[Record],
) -> Result<Node<D>, (D, Unready)>
    requires good { plan_fault plan.now ≡ None }
    requires honest { IsSome (honest_peer id plan.now) }
    requires unfused { D.face.fused journal.disk ≡ false }
    requires owned { (bodies : List (List ℕ)) × (sum_by length bodies ≤ MOST_BYTES) × IsReadAs D.face journal bodies ×
        ((p : Planned) → honest_peer id plan.now ≡ Some p
        → Owns (station_of plan.now p) plan.now.aus p.copies bodies list.now peer) }
    ensures begun { (p : Planned) → honest_peer id plan.now ≡ Some p → (bodies : List (List ℕ))
        → IsReadAs D.face journal bodies → Owns (station_of plan.now p) plan.now.aus p.copies bodies list.now peer
        →
        IsSorted (station_of plan.now p) (deposits plan.now.aus p.copies) bodies list.now
        → IfOk result (IsBegun D.face plan.now p journal.disk) }
    ensures fit { IfOk result (IsFit D.face peer.pool) }
    ensures causes { IfErr result (λ e. IsPlain (D.face.faults journal.disk) (D.face.faults e.0) e.1 ×
        ((p : Planned) → honest_peer id plan.now ≡ Some p → D.face.told journal.disk
        → (batches : List (List Recorded)) → IsFiled D.face journal list.now batches →
        LeavesFront D.face batches (map alone (missing_of (deposits plan.now.aus p.copies) list.now)) e.0)) }
    ensures calm { IsCalm D.face journal.disk (store_of result) }
    ensures ok { IfOk result (λ node. D.face.faults node.host.journal.disk ≡ D.face.faults journal.disk) }
{
    let tick = latest(list);
    match Host::adopt(alloc, plan, id, peer, journal, list) {
        Ok(host) => Ok(Node { host, tick }),
        Err((store, fault)) => Err((store, unmade(fault))),
    }
}

/// The host of the peer of these bodies, as which the journal was read, if they are its own.
fn sort_bodies<R: Wait, D: Disk>(
    alloc: Global,
    rt: &R,
    pool: &BlockPool,
    plan: &Plan,
    id: PeerId,
    journal: Journal<D>,
    bodies: &[Bytes],
) -> Result<Node<D>, (D, Unready)>
    requires good { plan_fault plan.now ≡ None }
    requires honest { IsSome (honest_peer id plan.now) }
    requires unfused { D.face.fused journal.disk ≡ false }
    requires few { sum_by length bodies.now ≤ MOST_BYTES }
    requires read { IsReadAs D.face journal bodies.now }
    ensures begun { (p : Planned) → honest_peer id plan.now ≡ Some p
        → IfOk result (IsBegun D.face plan.now p journal.disk) }
    ensures fit { IfOk result (IsFit D.face pool.now) }
    ensures causes { (p : Planned) → honest_peer id plan.now ≡ Some p
        → IfErr result
        (λ e. IsUnsorted D.face (station_of plan.now p) (deposits plan.now.aus p.copies) bodies.now journal.disk
        e.0 e.1) }
    ensures calm { IsCalm D.face journal.disk (store_of result) }
    ensures ok { IfOk result (λ node. D.face.faults node.host.journal.disk ≡ D.face.faults journal.disk) }
{
    match sort_with_peer(alloc, rt, pool, plan, id, bodies) {
        Ok(PeerSort::Whole { peer, list }) => {
            adopt(alloc, plan, id, peer, journal, list.as_slice())
        }
        Ok(PeerSort::Begun { peer, list }) => {
            adopt(alloc, plan, id, peer, journal, list.as_slice())
        }
        Ok(PeerSort::Foreign { batch }) => Err((journal.into_disk(), Unready::Foreign { batch })),
        Err(_) => Err((journal.into_disk(), Unready::Memory)),
    }
}

/// The journal on a store that isn't empty, and its bodies.
fn read_store<D: Disk>(alloc: Global, store: D) -> Result<(Journal<D>, Vec<Bytes>), (D, Unready)>
    requires unfused { D.face.fused store ≡ false }
    requires some { D.face.told store → D.face.seen store ≡ [] → ⊥ }
    ensures read { IfOk result (λ found. IsReadAs D.face found.0 found.1.items) }
    ensures holds { D.face.told store → IfOk result (λ found. HoldsBodies found.1.items (D.face.seen store)) }
    ensures stays { D.face.told store → Stays D.face store (disk_read result) }
    ensures causes { IfErr result (λ e. IsUnread D.face store e.0 e.1) }
    ensures calm { IsCalm D.face store (disk_read result) }
    ensures ok { IfOk result (λ found. D.face.faults found.0.disk ≡ D.face.faults store) }
{
    match Journal::reopen(alloc, store) {
        Ok(found) => Ok(found),
        Err((store, fault)) => Err((store, unread(fault))),
    }
}

/// The journal that a store holds, if it is the peer's own.
fn resume<R: Wait, D: Disk>(
    alloc: Global,
    rt: &R,
    pool: &BlockPool,
    plan: &Plan,
    id: PeerId,
    store: D,
) -> Result<Node<D>, (D, Unready)>
    requires good { plan_fault plan.now ≡ None }
    requires honest { IsSome (honest_peer id plan.now) }
    requires unfused { D.face.fused store ≡ false }
    requires some { D.face.told store → D.face.seen store ≡ [] → ⊥ }
    ensures begun { (p : Planned) → honest_peer id plan.now ≡ Some p → IfOk result (IsBegun D.face plan.now p store) }
    ensures fit { IfOk result (IsFit D.face pool.now) }
    ensures causes { (p : Planned) → honest_peer id plan.now ≡ Some p
        → IfErr result
        (λ e. IsUnready D.face (station_of plan.now p) (deposits plan.now.aus p.copies) store e.0 e.1) }
    ensures calm { IsCalm D.face store (store_of result) }
    ensures ok { IfOk result (λ node. D.face.faults node.host.journal.disk ≡ D.face.faults store) }
{
    let (journal, bodies) = read_store(alloc, store)?;
    if !are_few(&bodies) {
        return Err((journal.into_disk(), Unready::Full));
    }
    sort_bodies(alloc, rt, pool, plan, id, journal, &bodies)
}

/// The peer over the journal on its store, which is made on an empty one.
pub fn open_journal<R: Wait, D: Disk>(
    alloc: Global,
    rt: &R,
    pool: &BlockPool,
    plan: &Plan,
    id: PeerId,
    store: D,
) -> Result<Node<D>, (D, Unready)>
    requires good { plan_fault plan.now ≡ None }
    requires honest { IsSome (honest_peer id plan.now) }
    requires unfused { D.face.fused store ≡ false }
    ensures begun { (p : Planned) → honest_peer id plan.now ≡ Some p → IfOk result (IsBegun D.face plan.now p store) }
    ensures fit { IfOk result (IsFit D.face pool.now) }
    ensures causes { (p : Planned) → honest_peer id plan.now ≡ Some p
        → IfErr result
        (λ e. IsUnready D.face (station_of plan.now p) (deposits plan.now.aus p.copies) store e.0 e.1) }
    ensures calm { IsCalm D.face store (store_of result) }
    ensures ok { IfOk result (λ node. D.face.faults node.host.journal.disk ≡ D.face.faults store) }
{
    let mut store = store;
    match store.len() {
        Ok(0) => begin(alloc, rt, pool, plan, id, store),
        Ok(_) => resume(alloc, rt, pool, plan, id, store),
        Err(fail) => Err((store, failed(fail))),
    }
}
