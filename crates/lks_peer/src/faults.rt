//! Why a result isn't taken.

ghost use Rattle.std.specs.Prelude.{◌≡◌};
ghost use Rattle.lks_peer.specs.declared.faults.AcceptFault.TheVariants.{Memory};

use lks_base::OutOfMemory;
use lks_versions::PinTag;

/// Why a peer didn't take a result.
#[derive(Clone, Copy, Debug, PartialEq, Eq)]
pub enum AcceptFault {
    /// It is of another version than the one for which the session or poll is ready, or none is ready for such work.
    Stale {
        expected: Option<PinTag>,
        found: PinTag,
    },
    /// No memory was there. The peer is to be restored.
    Memory,
}

impl From<OutOfMemory> for AcceptFault {
    ghost from_gives = { λ _ e. e ≡ Memory };

    fn from(_: OutOfMemory) -> Self {
        AcceptFault::Memory
    }
}
