//! When a fuse burns.
ghost use Rattle.std.specs.Prelude.{◌≡◌, ℕ, true, Err};
ghost use Rattle.lks_disk.specs.Device.{FuseTold, Fused, Passed};
ghost use Rattle.lks_disk.specs.declared.disks.DiskFail.TheVariants as failing;

/// A fuse that was set to let so many calls pass burns at the one behind them: not before, and not later.
pub fn a_fuse_burns_behind_its_calls()
    ensures { (passed : ℕ) (first mid last : FuseTold) → first.set ≡ true → first.left ≡ first.calls
        → Passed passed first mid → Fused {T = Unit {0}} mid last (Err failing.Cut) → passed ≡ first.calls }
{}
