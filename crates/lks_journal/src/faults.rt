//! Why a journal refuses.
ghost use Rattle.std.specs.Prelude.{◌≡◌};
ghost use Rattle.lks_journal.specs.declared.faults.JournalFault.TheVariants as faulting;

use lks_disk::DiskFail;
use std::alloc::{AllocError, AllocFailed};

/// Why a journal refused.
#[derive(Clone, Copy, Debug, PartialEq, Eq)]
pub enum JournalFault {
    /// The frame with its next gate would pass 2,147,483,647 bytes. Nothing changed.
    Full,
    /// The disk is empty, or the frame whose gate stands at this offset passes its end.
    Damaged { offset: u64 },
    /// The disk's count of faults rose.
    Failed,
    /// A fuse of the disk has burned.
    Cut,
    /// No memory was there. The disk holds the bodies from before.
    Memory,
}

impl From<DiskFail> for JournalFault {
    ghost use Rattle.lks_journal.specs.Faults.{told_as};

    ghost from_gives = { λ fail e. e ≡ told_as fail };

    fn from(fail: DiskFail) -> Self {
        match fail {
            DiskFail::Failed => JournalFault::Failed,
            DiskFail::Cut => JournalFault::Cut,
            DiskFail::Memory => JournalFault::Memory,
        }
    }
}

impl From<AllocError> for JournalFault {
    ghost from_gives = { λ _ e. e ≡ faulting.Memory };

    fn from(_: AllocError) -> Self {
        JournalFault::Memory
    }
}

impl<T: Drop> From<AllocFailed<T>> for JournalFault {
    ghost from_gives = { λ _ e. e ≡ faulting.Memory };

    fn from(_: AllocFailed<T>) -> Self {
        JournalFault::Memory
    }
}
