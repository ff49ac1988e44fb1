//! A journal on a disk: a crash at any moment leaves the bodies from before an append, or those and the new one.
//!
//! A body's frame is a gate byte, four length bytes and the body. An append writes behind the closed gate,
//! syncs, opens the gate, and syncs. Reopening reads open frames up to the first closed gate.
//!
//! Its trials: `lks_format_trials`, `journal`.
#![tactic(auto)]

mod faults;
mod frames;
mod journals;
mod laws;
mod puts;
mod reading;

pub use faults::JournalFault;
pub use journals::Journal;
pub use laws::one_reading;
