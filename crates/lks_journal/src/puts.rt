//! A write that is kept.
ghost use Rattle.std.specs.Prelude.{◌≡◌, ◌+◌, ◌^◌, ◌<◌, ◌≤◌, length};
ghost use Rattle.lks_disk.specs.Face.{AlwaysLeaves};
ghost use Rattle.lks_journal.specs.Called.{Called};
ghost use Rattle.lks_journal.specs.Faults.{IsOfDisk};
ghost use Rattle.lks_journal.specs.Tearing.{CanLeaveTorn};
ghost use Rattle.lks_journal.specs.Puts.{Puts};

use crate::faults::JournalFault;
use lks_disk::Disk;

/// Writes and syncs.
pub fn put<D: Disk>(disk: &mut D, at: u64, piece: &[u8]) -> Result<(), JournalFault>
    requires within { D.face.told disk.old → at ≤ length (D.face.seen disk.old) }
    requires ends { at + length piece.now < 2 ^ 63 }
    ensures puts { D.face.told disk.old → Puts D.face at piece.now disk.old disk.new result }
    ensures any_moment { D.face.told disk.old
        → AlwaysLeaves D.face disk.old disk.new (CanLeaveTorn (D.face.may_leave disk.old) at (length piece.now)) }
    ensures called { Called D.face 2 disk.old disk.new result }
    ensures own { IsOfDisk result }
{
    disk.write_at(at, piece)?;
    disk.sync()?;
    Ok(())
}
