//! Why a world takes no further step.

ghost use Rattle.std.specs.Prelude.{◌≡◌, ◌≢◌, true};
ghost use Rattle.lks_host.specs.Faults.{breaks};
ghost use Rattle.lks_world.specs.Hosts.{fault_at};
ghost use Rattle.lks_world.specs.declared.faults.WorldFault.TheVariants.{Memory};

use lks_base::{OutOfMemory, PeerId};
use lks_host::HostFault;
use std::alloc::{AllocError, AllocFailed};

/// Why a world takes no further step.
#[derive(Clone, Copy, Debug, PartialEq, Eq)]
pub enum WorldFault {
    /// The count of faults of this peer's disk rose.
    Disk { peer: PeerId },
    /// No memory was there.
    Memory,
}

impl From<OutOfMemory> for WorldFault {
    ghost from_gives = { λ _ e. e ≡ Memory };

    fn from(_: OutOfMemory) -> Self {
        WorldFault::Memory
    }
}

impl From<AllocError> for WorldFault {
    ghost from_gives = { λ _ e. e ≡ Memory };

    fn from(_: AllocError) -> Self {
        WorldFault::Memory
    }
}

impl<T: Drop> From<AllocFailed<T>> for WorldFault {
    ghost from_gives = { λ _ e. e ≡ Memory };

    fn from(_: AllocFailed<T>) -> Self {
        WorldFault::Memory
    }
}

/// What a refusal after which the peer's host is broken is to the world. Where no fuse is set, no host is cut off.
pub fn blame(peer: PeerId, fault: HostFault) -> WorldFault
    requires cut { fault ≢ HostFault.Cut }
    requires breaks { breaks fault ≡ true }
    ensures { result ≡ fault_at peer fault }
{
    match fault {
        HostFault::Failed => WorldFault::Disk { peer },
        HostFault::Memory => WorldFault::Memory,
        HostFault::Cut | HostFault::Stale { .. } => unreachable!(),
    }
}
