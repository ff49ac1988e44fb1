//! Batches onto a journal.

ghost use Rattle.std.specs.Prelude.{◌≡◌, ◌+◌, ◌≤◌, ◌++◌, ◌∷◌, [], ℕ, List, true, Err, length, All, IsErrOf};
ghost use Rattle.lks_base.specs.declared.records.Record.{Record as Recorded};
ghost use Rattle.lks_host.specs.Behaving.{Behaves, CallsFor};
ghost use Rattle.lks_host.specs.Bodies.{bodies_of, ReadBack};
ghost use Rattle.lks_host.specs.Faults.{told_by, as_journal, breaks, IsFresh};
ghost use Rattle.lks_host.specs.Fits.{FitsBatch, IsSpelled};
ghost use Rattle.lks_journal.specs.Adding.{KeepsOrAdds};
ghost use Rattle.lks_journal.specs.Called.{Called};
ghost use Rattle.lks_journal.specs.Faults.{IsOfDisk};
ghost use Rattle.lks_journal.specs.Settled.{IsSettled};
ghost use Rattle.lks_law.specs.Batches.{with_batch};
ghost use Rattle.lks_record.specs.Sizes.{most_batch_bytes};
ghost use Rattle.lks_record.specs.Spelling.{batch_spelling, IsCounted, IsWithin};

use crate::faults::HostFault;
use lks_base::Record;
use lks_disk::Disk;
use lks_journal::{Journal, JournalFault};
use lks_record::encode_batch;
use std::alloc::Global;

/// What a host says of a journal that neither is full nor was damaged.
pub fn refusal(fault: JournalFault) -> HostFault
    requires { IsOfDisk {T = Unit {0}} (Err fault) }
    ensures told { told_by result ≡ fault }
    ensures breaks { breaks result ≡ true }
{
    match fault {
        JournalFault::Failed => HostFault::Failed,
        JournalFault::Cut => HostFault::Cut,
        JournalFault::Memory => HostFault::Memory,
        JournalFault::Full | JournalFault::Damaged { .. } => unreachable!(),
    }
}

/// Appends the bytes of a batch, for which there is room.
fn append<D: Disk>(journal: &mut Journal<D>, body: &[u8]) -> Result<(), HostFault>
    requires room { journal.old.end + 6 + length body.now ≤ 2147483647 }
    requires settled { D.face.told journal.old.disk → (bodies : List (List ℕ)) × IsSettled D.face journal.old bodies }
    ensures adds { D.face.told journal.old.disk → (bodies : List (List ℕ)) → IsSettled D.face journal.old bodies →
        KeepsOrAdds D.face journal.old journal.new bodies (bodies ++ body.now ∷ []) (as_journal result) }
    ensures end { journal.new.end ≤ journal.old.end + 5 + length body.now }
    ensures called { Called D.face 4 journal.old.disk journal.new.disk (as_journal result) }
    ensures fresh { IsFresh result }
{
    match journal.append(body) {
        Ok(()) => Ok(()),
        Err(fault) => Err(refusal(fault)),
    }
}

/// Appends the records as one batch, for which there is room.
pub fn write<D: Disk>(
    alloc: Global,
    journal: &mut Journal<D>,
    records: &[Record],
) -> Result<(), HostFault>
    requires count { IsCounted records.now }
    requires within { All IsWithin records.now }
    requires room { journal.old.end + 6 + most_batch_bytes records.now ≤ 2147483647 }
    requires settled { D.face.told journal.old.disk → (bodies : List (List ℕ)) × IsSettled D.face journal.old bodies }
    ensures adds { D.face.told journal.old.disk → (bodies : List (List ℕ)) → IsSettled D.face journal.old bodies →
        KeepsOrAdds D.face journal.old journal.new bodies (bodies ++ batch_spelling records.now ∷ [])
        (as_journal result) }
    // What was to be written reads back, unless memory was missing.
    ensures read { (IsErrOf result HostFault.Memory → ⊥) → IsSpelled records.now }
    ensures end { journal.new.end ≤ journal.old.end + 5 + most_batch_bytes records.now }
    ensures called { Called D.face 4 journal.old.disk journal.new.disk (as_journal result) }
    ensures fresh { IsFresh result }
{
    let body = encode_batch(alloc, records)?;
    append(journal, &body)
}

/// Appends the records as one batch, and where there are none makes no call of the disk.
pub fn keep<D: Disk>(
    alloc: Global,
    journal: &mut Journal<D>,
    records: &[Record],
) -> Result<(), HostFault>
    requires fits { FitsBatch records.now }
    requires room { journal.old.end + 32769 ≤ 2147483647 }
    requires settled { D.face.told journal.old.disk → (bodies : List (List ℕ)) × IsSettled D.face journal.old bodies }
    ensures adds { D.face.told journal.old.disk → (batches : List (List Recorded))
        → IsSettled D.face journal.old (bodies_of batches) →
        KeepsOrAdds D.face journal.old journal.new (bodies_of batches) (bodies_of (with_batch batches records.now))
        (as_journal result) }
    ensures read { (IsErrOf result HostFault.Memory → ⊥) → ReadBack records.now }
    ensures end { journal.new.end ≤ journal.old.end + 32768 }
    ensures calls { CallsFor D.face journal.old journal.new records.now (as_journal result) }
    ensures behaves { Behaves D.face journal.old.disk journal.new.disk (as_journal result) }
    ensures fresh { IsFresh result }
{
    if records.is_empty() {
        return Ok(());
    }
    write(alloc, journal, records)
}
