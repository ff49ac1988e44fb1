//! Where a journal is kept: disks over files, and what opens them by name.
//!
//! An opener that tells what its next store holds has exact contracts. One over the file system tells nothing, and is
//! trusted: so are its files.
//! Its trials: `lks_format_trials`, `store`.
//!
//! ```rust
//! use lks_disk::MemDisk;
//! use lks_store::{MemOpener, OpenStop, Opener};
//! use std::alloc::Global;
//!
//! fn open(alloc: Global) -> Result<MemDisk, OpenStop> {
//!     let mut opener = MemOpener::new(MemDisk::new(alloc, Vec::new(alloc)), false);
//!     opener.open_store("journal")
//! }
//! ```
#![tactic(auto)]

mod files;
mod memory;
mod openers;

pub use files::{FileDisk, FileOpener};
pub use memory::MemOpener;
pub use openers::{OpenStop, Opener};
