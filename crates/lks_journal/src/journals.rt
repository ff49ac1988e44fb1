//! Journals.
ghost use Rattle.std.specs.Prelude.{◌≡◌, ◌↔◌, ◌+◌, ◌-◌, ◌<◌, ◌≤◌, ◌∷◌, ◌++◌, [], ℕ, List, length, IfOk, OnOk, OnErr};
ghost use Rattle.std.specs.Prelude.{IsErrOf};
ghost use Rattle.lks_disk.specs.Face.{AlwaysLeaves, HasFuse, HasLost};
ghost use Rattle.lks_journal.specs.Adding.{KeepsOrAdds, IsFramed, end_after, count_after};
ghost use Rattle.lks_journal.specs.Called.{Called};
ghost use Rattle.lks_journal.specs.Faults.{IsOfDisk};
ghost use Rattle.lks_field.specs.Frames.{frames};
ghost use Rattle.lks_journal.specs.Reopening.{Reopens, bodies_in, bodies_with};
ghost use Rattle.lks_journal.specs.Settled.{IsSettled, plain, disk_made, disk_read};
ghost use Rattle.lks_journal.specs.Tearing.{CanLeaveTorn};

use crate::faults::JournalFault;
use crate::frames::{CLOSED, OPEN, behind_gate, scan};
use crate::puts::put;
use crate::reading::read_whole;
use lks_base::Bytes;
use lks_disk::{CrashDisk, Disk};
use std::alloc::Global;

/// The most bytes of a journal, with its closed gate.
const MOST: u64 = 2_147_483_647;

/// Bodies on a disk, one after another, where the closed gate behind them stands, and how many they are.
#[derive(Drop)]
pub struct Journal<D: Disk> {
    alloc: Global,
    disk: D,
    end: u64,
    count: u64,
}

/// Reads the bodies of a disk, and where their end stands.
fn read_again<D: Disk>(alloc: Global, disk: &mut D) -> Result<(Vec<Bytes>, u64), JournalFault>
    ensures found { D.face.told disk.old → Reopens D.face disk.old disk.new (bodies_in (λ p. p.0.items) result) }
    ensures end { IfOk result (λ p. p.1 ≡ length (frames p.0.items)) }
    ensures full { IsErrOf result JournalFault.Full → ⊥ }
    ensures called { Called D.face 1 disk.old disk.new result }
{
    let bytes = read_whole(alloc, disk)?;
    scan(alloc, &bytes)
}

impl<D: Disk> Journal<D> {
    /// A new journal on an empty disk: one closed gate.
    pub fn create(alloc: Global, disk: D) -> Result<Self, (D, JournalFault)>
        requires empty { D.face.told disk → D.face.seen disk ≡ [] }
        ensures ok { D.face.told disk
            → IfOk result (λ journal. IsSettled D.face journal [] × (D.face.seen journal.disk ≡ 0 ∷ [])) }
        ensures end { IfOk result (λ journal. journal.end ≡ 0) }
        ensures count { IfOk result (λ journal. journal.count ≡ 0) }
        ensures memory { D.face.told disk → IsErrOf (plain result) JournalFault.Memory →
            (D.face.seen (disk_made result) ≡ [])
            × ((c : List ℕ) → D.face.may_leave (disk_made result) c → D.face.may_leave disk c) }
        ensures any_moment { D.face.told disk
            → AlwaysLeaves D.face disk (disk_made result) (CanLeaveTorn (D.face.may_leave disk) 0 1) }
        ensures own { IsOfDisk (plain result) }
        ensures called { Called D.face 2 disk (disk_made result) (plain result) }
    {
        let mut disk = disk;
        match put(&mut disk, 0, &[CLOSED]) {
            Ok(()) => Ok(Journal {
                alloc,
                disk,
                end: 0,
                count: 0,
            }),
            Err(fault) => Err((disk, fault)),
        }
    }

    /// Reads the bodies of a disk that a crash may have left. It answers for all bytes.
    pub fn reopen(alloc: Global, disk: D) -> Result<(Self, Vec<Bytes>), (D, JournalFault)>
        ensures settled { D.face.told disk → IfOk result (λ p. IsSettled D.face p.0 p.1.items) }
        ensures end { IfOk result (λ p. p.0.end ≡ length (frames p.1.items)) }
        ensures count { IfOk result (λ p. p.0.count ≡ length p.1.items) }
        ensures found { D.face.told disk
            → Reopens D.face disk (disk_read result) (bodies_with (λ p. p.1.items) result) }
        ensures full { IsErrOf (plain result) JournalFault.Full → ⊥ }
        ensures called { Called D.face 1 disk (disk_read result) (plain result) }
    {
        let mut disk = disk;
        match read_again(alloc, &mut disk) {
            Ok((bodies, end)) => {
                let count = bodies.len() as u64;
                let journal = Journal {
                    alloc,
                    disk,
                    end,
                    count,
                };
                Ok((journal, bodies))
            }
            Err(fault) => Err((disk, fault)),
        }
    }

    /// Reads the bodies again, as `reopen` does, after a call that failed or was cut off, or after a power cut.
    pub fn recover(&mut self) -> Result<Vec<Bytes>, JournalFault>
        ensures settled { D.face.told self.old.disk → IfOk result (λ bodies. IsSettled D.face self.new bodies.items) }
        ensures end { IfOk result (λ bodies. self.new.end ≡ length (frames bodies.items)) }
        ensures count { IfOk result (λ bodies. self.new.count ≡ length bodies.items) }
        ensures same { OnErr result ((self.new.end ≡ self.old.end) × (self.new.count ≡ self.old.count)) }
        ensures found { D.face.told self.old.disk
            → Reopens D.face self.old.disk self.new.disk (bodies_in (λ bodies. bodies.items) result) }
        ensures full { IsErrOf result JournalFault.Full → ⊥ }
        ensures called { Called D.face 1 self.old.disk self.new.disk result }
    {
        let (bodies, end) = read_again(self.alloc, &mut self.disk)?;
        self.end = end;
        self.count = bodies.len() as u64;
        Ok(bodies)
    }

    /// Adds a body. At `Ok` every crash leaves it. After `Failed` and `Cut` the journal is to be reopened.
    pub fn append(&mut self, body: &[u8]) -> Result<(), JournalFault>
        requires settled { D.face.told self.old.disk → (bodies : List (List ℕ)) × IsSettled D.face self.old bodies }
        ensures adds { D.face.told self.old.disk → (bodies : List (List ℕ)) → IsSettled D.face self.old bodies →
            KeepsOrAdds D.face self.old self.new bodies (bodies ++ body.now ∷ []) result }
        ensures bytes { D.face.told self.old.disk
            → OnOk result (IsFramed body.now self.old.end (D.face.seen self.old.disk) (D.face.seen self.new.disk)) }
        ensures full { IsErrOf result JournalFault.Full ↔ (MOST < self.old.end + 6 + length body.now) }
        ensures full_same { IsErrOf result JournalFault.Full → self.new ≡ self.old }
        ensures end { self.new.end ≡ end_after result self.old.end (length body.now) }
        ensures count { self.new.count ≡ count_after result self.old.count }
        ensures damaged { (offset : ℕ) → IsErrOf result (JournalFault.Damaged offset) → ⊥ }
        ensures called { Called D.face 4 self.old.disk self.new.disk result }
    {
        let room = self.room();
        if room < 5 || body.len() as u64 > room - 5 {
            return Err(JournalFault::Full);
        }
        let piece = behind_gate(self.alloc, body)?;
        put(&mut self.disk, self.end + 1, &piece)?;
        put(&mut self.disk, self.end, &[OPEN])?;
        self.end += 5 + body.len() as u64;
        self.count = self.count.saturating_add(1);
        Ok(())
    }

    /// How many bodies there are.
    pub fn count(&self) -> u64
        ensures count { result ≡ self.now.count }
        ensures all { (bodies : List (List ℕ)) → IsSettled D.face self.now bodies → result ≡ length bodies }
    {
        self.count
    }

    /// How many bytes may still stand behind the closed gate.
    pub fn room(&self) -> u64
        ensures room { result ≡ MOST - (self.now.end + 1) }
        ensures behind { (bodies : List (List ℕ)) → IsSettled D.face self.now bodies
            → result ≡ MOST - (length (frames bodies) + 1) }
    {
        MOST.saturating_sub(self.end.saturating_add(1))
    }

    /// The disk, as the journal left it.
    pub fn into_disk(self) -> D
        ensures { result ≡ self.disk }
    {
        let Journal { disk, .. } = self;
        disk
    }
}

impl<D: CrashDisk> Journal<D> {
    /// Sets a fuse on the disk: so many writes and syncs pass, and the next one is cut off.
    pub fn fuse(&mut self, calls: u32, choice: u64)
        ensures settled { (bodies : List (List ℕ)) → IsSettled D.face self.old bodies
            → IsSettled D.face self.new bodies }
        ensures end { self.new.end ≡ self.old.end }
        ensures count { self.new.count ≡ self.old.count }
        ensures fused { HasFuse D.face calls choice self.old.disk self.new.disk }
    {
        self.disk.fuse(calls, choice);
    }

    /// Cuts the power of the disk, which picks one outcome of a crash. The journal is to be recovered.
    pub fn power_cut(&mut self)
        ensures end { self.new.end ≡ self.old.end }
        ensures count { self.new.count ≡ self.old.count }
        ensures lost { HasLost D.face self.old.disk self.new.disk }
    {
        self.disk.power_cut();
    }
}
