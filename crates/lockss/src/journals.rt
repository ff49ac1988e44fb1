//! Journals are read back from their disks, and told.

ghost use Rattle.std.specs.Prelude.{◌≡◌, ◌≤◌, ◌<◌, ◌≢◌, ◌++◌, ◌∷◌, [], ℕ, List, Some, Err, IfOk, OnOk, IsErrOf, All};
ghost use Rattle.std.specs.Prelude.{length, map, slice_get, vec_len, vec_capacity};
ghost use Rattle.std.specs.List.{flat_map, insert};
ghost use Rattle.lks_disk.specs.Counts.{Rose};
ghost use Rattle.lks_field.specs.Frames.{HoldsBodies, AreBodies};
ghost use Rattle.lks_gather.specs.Texts.{AreFiles, Filed as Written, journal_text};
ghost use Rattle.lks_journal.specs.Faults.{IsOfDisk};
ghost use Rattle.lks_print.specs.Scripts.{plan_text};
ghost use Rattle.lks_report.specs.Alarms.{is_alarmed};
ghost use Rattle.lks_world.specs.Counts.{fault_in};
ghost use Rattle.lks_world.specs.Sites.{id_for};
ghost use Rattle.lockss.specs.Promise.{Writes};
ghost use Rattle.lockss.specs.ReadingBack.{AreOn, CanRead, IsJournal, IsReopened, IsReadAt, ReadsBack, TellsJournals};

use crate::ends::Played;
use lks_base::{Entry, PeerId, PeerPlan, Plan, Seq};
use lks_disk::CrashDisk;
use lks_gather::{Filed, put_journals};
use lks_journal::{Journal, JournalFault};
use lks_outside::{Sink, WriteStop, write_all};
use lks_print::put_plan;
use lks_report::has_alarm;
use lks_world::WorldFault;
use std::alloc::{AllocError, Global};

/// What is known of a world before its disks are given back.
#[derive(Drop)]
pub struct Preface {
    /// The lines of its plan.
    pub text: Vec<u8>,
    /// Whose journal is on each disk.
    pub owners: Vec<Option<PeerId>>,
    /// Whether an alarm was raised.
    pub alarmed: bool,
}

fn owner(peer: &PeerPlan) -> Option<PeerId>
    ensures { result ≡ id_for peer.now }
{
    if peer.corrupt { None } else { Some(peer.id) }
}

fn all_owners(alloc: Global, peers: &[PeerPlan]) -> Result<Vec<Option<PeerId>>, AllocError>
    ensures { IfOk result (λ owners. owners.items ≡ map id_for peers.now) }
{
    let mut owners = Vec::new(alloc);
    for peer in peers {
        owners.push(owner(peer))?;
    }
    Ok(owners)
}

/// What is known of a world with this plan and this history.
pub fn begin_journals(alloc: Global, plan: &Plan, history: &[Entry]) -> Result<Preface, AllocError>
    ensures text { IfOk result (λ p. p.text.items ≡ plan_text plan.now) }
    ensures owners { IfOk result (λ p. p.owners.items ≡ map id_for plan.now.peers) }
    ensures alarmed { IfOk result (λ p. p.alarmed ≡ is_alarmed history.now) }
{
    let mut text = Vec::new(alloc);
    put_plan(alloc, &mut text, plan)?;
    let owners = all_owners(alloc, plan.peers.as_slice())?;
    Ok(Preface {
        text,
        owners,
        alarmed: has_alarm(history),
    })
}

/// What a refusal of a journal says of its peer's disk. It isn't cut off without a fuse, and isn't damaged where it
/// holds bodies.
fn blame(peer: PeerId, fault: JournalFault) -> WorldFault
    requires own { IsOfDisk {T = Unit {0}} (Err fault) }
    requires uncut { fault ≢ JournalFault.Cut }
    ensures { (id : ℕ) → result ≡ WorldFault.Disk id → (peer ≡ id) × (fault ≡ JournalFault.Failed) }
{
    match fault {
        JournalFault::Failed => WorldFault::Disk { peer },
        JournalFault::Memory => WorldFault::Memory,
        JournalFault::Full | JournalFault::Damaged { .. } | JournalFault::Cut => unreachable!(),
    }
}

/// Reads the journal of a peer from its disk, which is given back.
fn read_back<D: CrashDisk>(alloc: Global, peer: PeerId, disk: D) -> (D, Result<Filed, WorldFault>)
    requires is { IsJournal D.face disk }
    ensures filed { IfOk result.1 (λ j. (j.peer ≡ peer) × HoldsBodies j.bodies (D.face.seen disk)) }
    ensures read { IsReopened D.face disk result.0 }
    ensures cause { (id : ℕ) → IsErrOf result.1 (WorldFault.Disk id)
        → (peer ≡ id) × Rose (D.face.faults disk) (D.face.faults result.0) }
{
    match Journal::reopen(alloc, disk) {
        Ok((journal, bodies)) => {
            let bodies = Seq::from_vec(bodies);
            (journal.into_disk(), Ok(Filed { peer, bodies }))
        }
        Err((disk, fault)) => (disk, Err(blame(peer, fault))),
    }
}

/// Puts a disk back into the list from which it was taken.
fn put_back<D: Drop>(disks: &mut Vec<D>, place: usize, disk: D)
    requires within { place ≤ vec_len disks.old }
    requires room { vec_len disks.old < vec_capacity disks.old }
    ensures { disks.new.items ≡ insert disks.old.items place disk }
{
    if disks.insert(place, disk).is_err() {
        unreachable!()
    }
}

/// The same of the disk at a place, which is put back there.
fn read_at<D: CrashDisk + Drop>(
    alloc: Global,
    peer: PeerId,
    disks: &mut Vec<D>,
    place: usize,
) -> Result<Filed, WorldFault>
    requires within { place < length disks.old.items }
    requires is { (disk : D) → slice_get disks.old.items place ≡ Some disk → IsJournal D.face disk }
    ensures { IsReadAt D.face peer place disks.old.items disks.new.items result }
{
    let disk = disks.remove(place);
    let (disk, read) = read_back(alloc, peer, disk);
    put_back(disks, place, disk);
    read
}

/// The same of each disk that is owned.
fn read_each<D: CrashDisk + Drop>(
    alloc: Global,
    owners: &[Option<PeerId>],
    disks: &mut Vec<D>,
) -> Result<Vec<Filed>, WorldFault>
    requires can { CanRead D.face owners.now disks.old.items }
    ensures journals { IfOk result (λ v. AreOn D.face owners.now disks.old.items v.items) }
    ensures disks { ReadsBack D.face owners.now disks.old.items disks.new.items (fault_in result) }
{
    let mut journals = Vec::new(alloc);
    for (place, owner) in owners.iter().enumerate() {
        if let Some(peer) = *owner {
            journals.push(read_at(alloc, peer, disks, place)?)?;
        }
    }
    Ok(journals)
}

/// Adds the lines of all journals on the disks.
fn put_each<D: CrashDisk + Drop>(
    alloc: Global,
    text: &mut Vec<u8>,
    owners: &[Option<PeerId>],
    disks: &mut Vec<D>,
) -> Result<(), WorldFault>
    requires can { CanRead D.face owners.now disks.old.items }
    ensures lines { OnOk result
        ((journals : List Written) × AreOn D.face owners.now disks.old.items journals × AreFiles journals
        × (text.new.items ≡ text.old.items ++ flat_map journal_text journals)) }
    ensures disks { ReadsBack D.face owners.now disks.old.items disks.new.items (fault_in result) }
{
    let journals = read_each(alloc, owners, disks)?;
    put_journals(alloc, text, &journals)?;
    Ok(())
}

/// Writes a text, and answers whether there was an alarm in what it tells.
fn write_text<K: Sink>(text: &[u8], alarmed: bool, sink: &mut K) -> Result<bool, WriteStop>
    ensures writes { Writes K.taken K.faults text.now alarmed sink.old sink.new result }
    ensures count { K.faults sink.old ≤ K.faults sink.new }
{
    write_all(sink, text)?;
    Ok(alarmed)
}

/// Reads all journals back, and then writes the lines of the plan and those of the journals.
pub fn tell_journals<K: Sink, D: CrashDisk + Drop>(
    alloc: Global,
    preface: Preface,
    sink: &mut K,
    disks: &mut Vec<D>,
) -> Played
    requires can { CanRead D.face preface.owners.items disks.old.items }
    ensures tells { TellsJournals D.face K.taken K.faults preface disks.old.items disks.new.items sink.old sink.new
        result }
    ensures count { K.faults sink.old ≤ K.faults sink.new }
{
    let Preface {
        mut text,
        owners,
        alarmed,
    } = preface;
    match put_each(alloc, &mut text, &owners, disks) {
        Ok(()) => Played::Told(write_text(&text, alarmed, sink)),
        Err(fault) => Played::Untold(fault),
    }
}
