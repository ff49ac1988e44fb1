//! Sorting the batches of a journal.

ghost use Rattle.std.specs.Prelude.{◌≡◌, ◌≤◌, ℕ, false, length, sum_by, map, take, ◌↔◌, ◌++◌, List, All, IfOk, IsSome};
ghost use Rattle.std.specs.Prelude.{None, Some, IsTrue};
ghost use Rattle.lks_base.specs.declared.plans.AuPlan.{AuPlan as PlannedAu};
ghost use Rattle.lks_base.specs.declared.plans.Holding.{Holding as Held};
ghost use Rattle.lks_base.specs.Checking.{plan_fault};
ghost use Rattle.lks_base.specs.declared.plans.PeerPlan.{PeerPlan as Planned};
ghost use Rattle.lks_law.specs.Batches.{alone};
ghost use Rattle.lks_law.specs.Facts.{IsHeard, AddsFor};
ghost use Rattle.lks_law.specs.State.{state_of};
ghost use Rattle.lks_law.specs.World.{deposits, honest_peer, station_of};
ghost use Rattle.lks_record.specs.Spelling.{batch_spelling, IsWithin};
ghost use Rattle.lks_host.specs.Fits.{IsSpelled};
ghost use Rattle.lks_host.specs.Owners.{HasPeer, Spell, sort_in};
ghost use Rattle.lks_host.specs.Adding.{Spells};
ghost use Rattle.lks_host.specs.Sorted.{AreAlike, IsOwnAs, IsSamePeer, IsUpTo, SortsAs, TakenAs, TakesAll};
ghost use Rattle.lks_host.specs.Sorted.{spelled_each};

use crate::beginnings::begin_peer;
use crate::comparing::is_added;
use crate::naming::{Named, latest_with, name_batch, tuned_with};
use lks_base::{Bytes, OutOfMemory, PeerId, Plan, Record, Seq};
use lks_blocks::BlockPool;
use lks_peer::Peer;
use lks_record::{RecFault, decode_batch, encode_batch};
use std::alloc::Global;
use std::slice;
use std::sync::Wait;

/// What the batches on a store are to a peer.
#[derive(Drop)]
pub enum JournalSort {
    /// A journal of the peer, with these records.
    Whole { list: Seq<Record> },
    /// The first of its deposits, but not all of them.
    Begun { list: Seq<Record> },
    /// Neither: the batch at this place, counted from 0, is the first that isn't its own.
    Foreign { batch: u32 },
}

/// The same, with the peer where they are its own.
#[derive(Drop)]
pub enum PeerSort {
    /// The peer is in the state that the records say.
    Whole { peer: Peer, list: Seq<Record> },
    /// The peer is in the state that all of its deposits say.
    Begun { peer: Peer, list: Seq<Record> },
    Foreign { batch: u32 },
}

impl PeerSort {
    /// What the batches are, without the peer.
    pub fn into_sort(self) -> JournalSort
        ensures { result ≡ sort_in self }
    {
        match self {
            PeerSort::Whole { list, .. } => JournalSort::Whole { list },
            PeerSort::Begun { list, .. } => JournalSort::Begun { list },
            PeerSort::Foreign { batch } => JournalSort::Foreign { batch },
        }
    }
}

/// A peer in the state that these records say, their last tick, and whether one of them is a tuning.
#[derive(Drop)]
pub struct Sorter {
    pub peer: Peer,
    pub list: Vec<Record>,
    pub last: u32,
    pub tuned: bool,
}

/// Whether the batch is what the peer adds for what the batch names. If so, the peer is in the state that it makes.
fn add_batch<R: Wait>(
    alloc: Global,
    rt: &R,
    pool: &BlockPool,
    sorter: &mut Sorter,
    named: &Named,
    batch: &[Record],
    body: &[u8],
) -> Result<bool, OutOfMemory>
    requires pool { pool.now ≡ sorter.old.peer.pool }
    requires upto { (aus : List PlannedAu) × (copies : List Held) × IsUpTo aus copies sorter.old }
    requires heard { IsHeard named.now.input }
    requires spells { Spells body.now batch.now }
    ensures added { IfOk result
        (λ added. IsTrue added
        ↔ AddsFor sorter.old.peer.own sorter.old.list.items
        (record { tick = named.now.tick; input = named.now.input }) batch.now) }
    ensures state { IfOk result
        (λ added. IsTrue added
        → sorter.new.peer.state ≡ state_of sorter.old.peer.own (sorter.old.list.items ++ batch.now)) }
    ensures same { IsSamePeer sorter.old sorter.new }
    ensures rest { sorter.new ≡ record sorter.old { peer = sorter.new.peer } }
{
    let reaction = sorter.peer.step(rt, pool, named.tick, &named.input)?;
    let mut records = reaction.records.into_vec();
    is_added(alloc, sorter.tuned, records.as_mut_slice(), batch, body)
}

/// Takes the batch, if it stands behind the records.
fn take_batch<R: Wait>(
    alloc: Global,
    rt: &R,
    pool: &BlockPool,
    sorter: &mut Sorter,
    batch: Vec<Record>,
    body: &[u8],
) -> Result<bool, OutOfMemory>
    requires pool { pool.now ≡ sorter.old.peer.pool }
    requires upto { (aus : List PlannedAu) × (copies : List Held) × IsUpTo aus copies sorter.old }
    requires spells { Spells body.now batch.items }
    ensures taken { IfOk result (λ yes. TakenAs body.now sorter.old sorter.new yes) }
    ensures same { IsSamePeer sorter.old sorter.new }
{
    let mut batch = batch;
    let Some(named) = name_batch(alloc, &sorter.list, sorter.last, &batch)? else {
        return Ok(false);
    };
    if !add_batch(alloc, rt, pool, sorter, &named, &batch, body)? {
        return Ok(false);
    }
    sorter.last = latest_with(sorter.last, &batch);
    sorter.tuned = tuned_with(sorter.tuned, &batch);
    sorter.list.append(&mut batch)?;
    Ok(true)
}

/// Takes the batch that these bytes spell, if they spell one and it stands behind the records.
fn take_body<R: Wait>(
    alloc: Global,
    rt: &R,
    pool: &BlockPool,
    sorter: &mut Sorter,
    body: &[u8],
) -> Result<bool, OutOfMemory>
    requires pool { pool.now ≡ sorter.old.peer.pool }
    requires upto { (aus : List PlannedAu) × (copies : List Held) × IsUpTo aus copies sorter.old }
    ensures taken { IfOk result (λ yes. TakenAs body.now sorter.old sorter.new yes) }
    ensures same { IsSamePeer sorter.old sorter.new }
{
    match decode_batch(alloc, body) {
        Ok(batch) => take_batch(alloc, rt, pool, sorter, batch, body),
        Err(RecFault::Memory) => Err(OutOfMemory),
        Err(
            RecFault::Short | RecFault::Form | RecFault::Tag | RecFault::Limit | RecFault::Trailing,
        ) => Ok(false),
    }
}

/// Takes the batches as far as each stands behind those before it, and says which one doesn't.
fn take_all<R: Wait>(
    alloc: Global,
    rt: &R,
    pool: &BlockPool,
    sorter: &mut Sorter,
    batches: &[Bytes],
) -> Result<Option<usize>, OutOfMemory>
    requires pool { pool.now ≡ sorter.old.peer.pool }
    requires upto { (aus : List PlannedAu) × (copies : List Held) × IsUpTo aus copies sorter.old }
    ensures taken { IfOk result
        (λ place. TakesAll sorter.old.peer.own sorter.old.list.items batches.now sorter.new.list.items place) }
    ensures upto { IfOk result
        (λ place. place ≡ None → (aus : List PlannedAu) (copies : List Held) → IsUpTo aus copies sorter.old
        → IsUpTo aus copies sorter.new) }
    ensures spell { IfOk result
        (λ place. place ≡ None → (front : List (List ℕ)) → Spell front sorter.old.list.items
        → Spell (front ++ batches.now) sorter.new.list.items) }
    ensures same { IfOk result (λ place. place ≡ None → IsSamePeer sorter.old sorter.new) }
{
    for (place, body) in batches.iter().enumerate() {
        if !take_body(alloc, rt, pool, sorter, body.as_slice())? {
            return Ok(Some(place));
        }
    }
    Ok(None)
}

/// Whether the bytes spell the batch of this record alone.
fn is_deposit(alloc: Global, r: &Record, body: &[u8]) -> Result<bool, OutOfMemory>
    requires within { IsWithin r.now }
    ensures same { IfOk result (λ same. IsTrue same ↔ (body.now ≡ batch_spelling (alone r.now))) }
    ensures spelled { IfOk result (λ same. IsSpelled (alone r.now)) }
{
    let bytes = encode_batch(alloc, slice::from_ref(r))?;
    Ok(body == bytes.as_slice())
}

/// The first place at which the batches aren't these deposits.
fn first_unlike(
    alloc: Global,
    begun: &[Record],
    batches: &[Bytes],
) -> Result<Option<usize>, OutOfMemory>
    requires within { All IsWithin begun.now }
    ensures alike { IfOk result (λ place. AreAlike begun.now batches.now place) }
    ensures spelled { IfOk result
        (λ place. place ≡ None → All IsSpelled (map alone (take (length batches.now) begun.now))) }
{
    let count = begun.len().min(batches.len());
    for place in 0..count {
        if !is_deposit(alloc, &begun[place], batches[place].as_slice())? {
            return Ok(Some(place));
        }
    }
    Ok(None)
}

fn whole(sorter: Sorter) -> PeerSort
    ensures { result ≡ PeerSort.Whole sorter.peer sorter.list.items }
{
    let Sorter { peer, list, .. } = sorter;
    PeerSort::Whole {
        peer,
        list: Seq::from_vec(list),
    }
}

/// Sorts the batches behind the deposits, which are those of the peer.
fn sort_rest<R: Wait>(
    alloc: Global,
    rt: &R,
    pool: &BlockPool,
    sorter: Sorter,
    batches: &[Bytes],
) -> Result<PeerSort, OutOfMemory>
    requires pool { pool.now ≡ sorter.peer.pool }
    requires upto { (aus : List PlannedAu) × (copies : List Held) × IsUpTo aus copies sorter }
    requires enough { length sorter.list.items ≤ length batches.now }
    requires few { sum_by length batches.now ≤ 2147483647 }
    requires alike { take (length sorter.list.items) batches.now ≡ spelled_each sorter.list.items }
    requires spelled { All IsSpelled (map alone sorter.list.items) }
    ensures sorts { IfOk result (λ s. SortsAs sorter.peer.own sorter.list.items batches.now (sort_in s)) }
    ensures peer { IfOk result
        (λ s. (aus : List PlannedAu) (copies : List Held) → IsUpTo aus copies sorter
        → HasPeer sorter.peer.own pool.now aus copies batches.now s) }
{
    let mut sorter = sorter;
    let count = sorter.list.len();
    match take_all(alloc, rt, pool, &mut sorter, &batches[count..])? {
        Some(place) => Ok(PeerSort::Foreign {
            batch: (count + place) as u32,
        }),
        None => Ok(whole(sorter)),
    }
}

/// The peer in the state of its deposits.
fn begin_sorter(peer: Peer, list: Vec<Record>) -> Sorter
    ensures { (result.peer ≡ peer) × (result.list ≡ list) × (result.last ≡ 0) × (result.tuned ≡ false) }
{
    Sorter {
        peer,
        list,
        last: 0,
        tuned: false,
    }
}

/// What these batches, each as its bytes, are to the honest peer `id` of a good plan, and that peer. They are a journal
/// of its own where the first are its deposits, one each, and each later one is read and stands behind the records
/// before it. The pool gets the peer's blocks, as far as the batches stand. It fails only for want of memory.
pub fn sort_with_peer<R: Wait>(
    alloc: Global,
    rt: &R,
    pool: &BlockPool,
    plan: &Plan,
    id: PeerId,
    batches: &[Bytes],
) -> Result<PeerSort, OutOfMemory>
    requires good { plan_fault plan.now ≡ None }
    requires honest { IsSome (honest_peer id plan.now) }
    requires few { sum_by length batches.now ≤ 2147483647 }
    ensures sorts { (p : Planned) → honest_peer id plan.now ≡ Some p
        → IfOk result
        (λ s. SortsAs (station_of plan.now p) (deposits plan.now.aus p.copies) batches.now (sort_in s)) }
    ensures peer { (p : Planned) → honest_peer id plan.now ≡ Some p
        → IfOk result (λ s. HasPeer (station_of plan.now p) pool.now plan.now.aus p.copies batches.now s) }
{
    let (peer, begun) = begin_peer(alloc, rt, pool, plan, id)?;
    if let Some(place) = first_unlike(alloc, &begun, batches)? {
        return Ok(PeerSort::Foreign {
            batch: place as u32,
        });
    }
    if batches.len() < begun.len() {
        let mut list = begun;
        list.truncate(batches.len());
        return Ok(PeerSort::Begun {
            peer,
            list: Seq::from_vec(list),
        });
    }
    sort_rest(alloc, rt, pool, begin_sorter(peer, begun), batches)
}

/// What these batches are to the peer, as `sort_with_peer` says it, without the peer.
pub fn sort_journal<R: Wait>(
    alloc: Global,
    rt: &R,
    pool: &BlockPool,
    plan: &Plan,
    id: PeerId,
    batches: &[Bytes],
) -> Result<JournalSort, OutOfMemory>
    requires good { plan_fault plan.now ≡ None }
    requires honest { IsSome (honest_peer id plan.now) }
    requires few { sum_by length batches.now ≤ 2147483647 }
    ensures sorts { (p : Planned) → honest_peer id plan.now ≡ Some p
        → IfOk result (λ s. SortsAs (station_of plan.now p) (deposits plan.now.aus p.copies) batches.now s) }
    ensures own { (p : Planned) → honest_peer id plan.now ≡ Some p
        → IfOk result (λ s. IsOwnAs (station_of plan.now p) plan.now.aus p.copies s) }
{
    let sort = sort_with_peer(alloc, rt, pool, plan, id, batches)?;
    Ok(sort.into_sort())
}
