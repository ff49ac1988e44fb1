//! Disks whose crashes are part of their contracts, and one in memory that can be cut off.
//!
//! A disk that tells its bytes has exact contracts: what a read gives, and what a crash may leave, now or
//! at any moment since an earlier one. A fault is answered only where the disk's count of faults rose,
//! and a cut only where a fuse has burned.
//!
//! Its trials: `lks_format_trials`, `disk`.
#![tactic(auto)]

mod calls;
mod contents;
mod controls;
mod disks;
mod laws;
mod memory;
mod ranges;

pub use controls::Setting;
pub use disks::{CrashDisk, Disk, DiskFail};
pub use laws::a_fuse_burns_behind_its_calls;
pub use memory::MemDisk;
