//! Disks as a journal sees them: what a read gives, what a crash may leave, and what cuts them off.
ghost use Rattle.std.specs.Prelude.{◌≡◌, ◌+◌, ◌^◌, ◌<◌, ◌≤◌, ◌↔◌, ℕ, true, List, length, IfOk, OnOk, IsErrOf};
ghost use Rattle.lks_disk.specs.declared.disks.DiskFail.TheVariants as failing;
ghost use Rattle.lks_disk.specs.Device.{Wrote, ReadAt, Torn, Follows, Only, HasCause, NoMemory};
ghost use Rattle.lks_disk.specs.Face.{Face, Same, Passes, Burns, KeepsFuse, HasFuse, HasLost};

use std::alloc::AllocError;

/// Why a call of a disk was refused.
#[derive(Clone, Copy, Debug, PartialEq, Eq)]
pub enum DiskFail {
    /// The disk's count of faults rose.
    Failed,
    /// A fuse is set and has burned.
    Cut,
    /// No memory was there, and nothing changed.
    Memory,
}

impl From<AllocError> for DiskFail {
    ghost from_gives = { λ _ e. e ≡ failing.Memory };

    fn from(_: AllocError) -> Self {
        DiskFail::Memory
    }
}

/// Bytes that are kept. Until a sync, a crash may leave any bytes in the range of a write.
pub trait Disk {
    /// What contracts say of it.
    ghost face: { Face Self };

    /// The number of bytes.
    fn len(&mut self) -> Result<u64, DiskFail>
        ensures value { face.told self.old → IfOk result (λ n. n ≡ length (face.seen self.old)) }
        ensures same { Same face self.old self.new }
        ensures cause { HasCause (face.faults self.old) (face.faults self.new) result }
        ensures memory { NoMemory result }
        ensures fuse { KeepsFuse face self.old self.new result };

    /// Fills as much of the buffer as there are bytes from `at` on, and answers how much that is.
    fn read_at(&mut self, at: u64, buf: &mut [u8]) -> Result<usize, DiskFail>
        ensures within { IfOk result (λ n. n ≤ length buf.new) }
        ensures value { face.told self.old → IfOk result (λ n. ReadAt (face.seen self.old) at n buf.old buf.new) }
        ensures same { Same face self.old self.new }
        ensures cause { HasCause (face.faults self.old) (face.faults self.new) result }
        ensures fuse { KeepsFuse face self.old self.new result };

    /// Writes over what is there, and past the end. One that fails or is cut off may leave any bytes in its range.
    fn write_at(&mut self, at: u64, piece: &[u8]) -> Result<(), DiskFail>
        requires within { face.told self.old → at ≤ length (face.seen self.old) }
        requires ends { at + length piece.now < 2 ^ 63 }
        ensures told { face.told self.old ↔ face.told self.new }
        ensures wrote { face.told self.old → Wrote (face.seen self.old) at piece.now (face.seen self.new) result }
        ensures crash { face.told self.old
            → Follows (Torn at (length piece.now)) (face.may_leave self.old) (face.may_leave self.new) }
        ensures memory { face.told self.old → IsErrOf result DiskFail.Memory → (c : List ℕ)
            → face.may_leave self.new c → face.may_leave self.old c }
        ensures time { face.told self.old → Passes face self.old self.new }
        ensures cause { HasCause (face.faults self.old) (face.faults self.new) result }
        ensures fuse { Burns face self.old self.new result };

    /// After it, a crash leaves what a read gives.
    fn sync(&mut self) -> Result<(), DiskFail>
        ensures told { face.told self.old ↔ face.told self.new }
        ensures bytes { face.told self.old → face.seen self.new ≡ face.seen self.old }
        ensures durable { face.told self.old → OnOk result (Only (face.seen self.old) (face.may_leave self.new)) }
        ensures crash { face.told self.old → (c : List ℕ) → face.may_leave self.new c → face.may_leave self.old c }
        ensures time { face.told self.old → Passes face self.old self.new }
        ensures cause { HasCause (face.faults self.old) (face.faults self.new) result }
        ensures memory { NoMemory result }
        ensures fuse { Burns face self.old self.new result };

    /// This moment is one of those since an earlier one.
    ghost counts_now: { (disk : Self) (t : ℕ) (c : List ℕ) → face.told disk → t ≤ face.moment disk
        → face.may_leave disk c → face.left_since disk t c };

    /// Since this moment there is no other.
    ghost only_now: { (disk : Self) (c : List ℕ) → face.told disk → face.left_since disk (face.moment disk) c
        → face.may_leave disk c };

    /// What a read gives is one of the things that a crash may leave.
    ghost seen_is_left: { (disk : Self) → face.told disk → face.may_leave disk (face.seen disk) };

    /// A fuse that still lets calls pass hasn't burned, and one that has burned is set.
    ghost burned_out: { (disk : Self) → face.burned disk ≡ true → (face.fused disk ≡ true) × (face.left disk ≡ 0) };
}

/// A disk that tells its bytes, and that can be cut off at a call.
pub trait CrashDisk: Disk + Send {
    /// So many calls of `write_at` and `sync` pass. The next one burns the fuse, and from then on each call is cut off.
    fn fuse(&mut self, calls: u32, choice: u64)
        ensures fused { HasFuse Self.face calls choice self.old self.new };

    /// Ends the fuse, and leaves one outcome of a crash, which the fuse's choice picks. Nothing is pending then. The
    /// disk counts it.
    fn power_cut(&mut self)
        ensures lost { HasLost Self.face self.old self.new };

    /// It always tells its bytes.
    ghost tells: { (disk : Self) → Self.Disk.face.told disk };
}
