//! What a world remembers of disks and bells, in proofs alone.

use boxcar::tag::Names;
use lks_disk::Disk;
use lks_outside::Bell;

/// The counts of faults of disks.
pub struct Faults;

impl<D: Disk> Names<Vec<D>> for Faults {
    ghost use Rattle.std.specs.Prelude.{map};

    ghost numbers = { λ disks. map D.face.faults disks.items };
}

/// How many alarms each bell wants.
pub struct BellLimits;

impl<B: Bell> Names<Vec<B>> for BellLimits {
    ghost use Rattle.std.specs.Prelude.{map};

    ghost numbers = { λ bells. map B.limit bells.items };
}
