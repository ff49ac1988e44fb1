//! Records that are appended to a journal, one batch each.

ghost use Rattle.std.specs.Prelude.{◌≡◌, ◌≤◌, ◌+◌, ◌*◌, ◌++◌, [], List, length, All, OnOk, OnErr, map};
ghost use Rattle.lks_base.specs.declared.limits.TheConstants.{MOST_AUS};
ghost use Rattle.lks_base.specs.declared.records.Record.{Record as Recorded};
ghost use Rattle.lks_host.specs.Adopting.{LeavesFront};
ghost use Rattle.lks_host.specs.Behaving.{Behaves};
ghost use Rattle.lks_host.specs.Bodies.{bodies_of, AreRead};
ghost use Rattle.lks_host.specs.Faults.{as_journal, IsFresh};
ghost use Rattle.lks_journal.specs.Settled.{IsSettled};
ghost use Rattle.lks_law.specs.Batches.{alone};
ghost use Rattle.lks_record.specs.Spelling.{IsWithin};

use crate::faults::HostFault;
use crate::writing::write;
use lks_base::Record;
use lks_disk::Disk;
use lks_journal::Journal;
use std::alloc::Global;
use std::slice;

/// Appends each record as a batch of its own, behind at most as many bytes as all deposits of a peer have.
pub fn write_each<D: Disk>(
    alloc: Global,
    journal: &mut Journal<D>,
    records: &[Record],
) -> Result<(), HostFault>
    requires within { All IsWithin records.now }
    requires few { length records.now ≤ MOST_AUS }
    requires low { (records.now ≡ [] → ⊥) → journal.old.end ≤ 33558580 }
    requires settled { D.face.told journal.old.disk
        → (before : List (List Recorded)) × IsSettled D.face journal.old (bodies_of before) }
    ensures ok { D.face.told journal.old.disk → (before : List (List Recorded))
        → IsSettled D.face journal.old (bodies_of before) →
        OnOk result (IsSettled D.face journal.new (bodies_of (before ++ map alone records.now))) }
    ensures read { OnOk result (AreRead (map alone records.now)) }
    ensures front { D.face.told journal.old.disk → (before : List (List Recorded))
        → IsSettled D.face journal.old (bodies_of before) →
        OnErr result (LeavesFront D.face before (map alone records.now) journal.new.disk) }
    ensures end { OnOk result (journal.new.end ≤ journal.old.end + length records.now * 8389645) }
    ensures idle { records.now ≡ [] → OnOk result (journal.new ≡ journal.old) }
    ensures behaves { Behaves D.face journal.old.disk journal.new.disk (as_journal result) }
    ensures fresh { IsFresh result }
{
    for item in records {
        write(alloc, journal, slice::from_ref(item))?;
    }
    Ok(())
}
