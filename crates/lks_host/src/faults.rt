//! Why a host refuses.

ghost use Rattle.std.specs.Prelude.{◌≡◌};
ghost use Rattle.lks_host.specs.declared.faults.HostFault.TheVariants.{Memory};

use lks_base::OutOfMemory;
use lks_versions::PinTag;

/// Why a host refused. After each of them but `Stale` it is broken.
#[derive(Clone, Copy, Debug, PartialEq, Eq)]
pub enum HostFault {
    /// The disk's count of faults rose.
    Failed,
    /// A fuse of the disk has burned.
    Cut,
    /// No memory was there. The journal is as before.
    Memory,
    /// A result is of another version than the one for which the session or poll is ready, or none is ready for such
    /// work. Nothing changed. `accept` alone answers this.
    Stale {
        expected: Option<PinTag>,
        found: PinTag,
    },
}

impl From<OutOfMemory> for HostFault {
    ghost from_gives = { λ _ e. e ≡ Memory };

    fn from(_: OutOfMemory) -> Self {
        HostFault::Memory
    }
}
