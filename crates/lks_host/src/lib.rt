//! A peer and its journal on a disk: what the peer did is on its disk before anyone hears of it.
//!
//! Each reaction's records become one batch, which is appended to the journal and synced before the
//! reaction is handed out. A reaction without records makes no call of the disk.
//!
//! Whether the batches on a store are a journal of a peer's own: each batch names by its first record what the peer was
//! told or did, and at which tick. It is the peer's own where the rules (Maniatis et al., ACM TOCS 23(1), 2005) add
//! exactly these records for that. So a peer that is told this again, batch by batch, is in the state of its journal,
//! or finds the first batch that it would not have written.
//!
//! A host over a disk:
//!
//! ```rust
//! let disk = MemDisk::new(alloc, Vec::new(alloc));
//! let mut host = Host::create(alloc, rt, pool, plan, 1, disk).map_err(|e| e.1)?;
//! // At tick 5 it is told to open the poll: this is on the disk before the three invitations are handed out.
//! let opened = host.step(rt, pool, 5, &Input::OpenPoll { au: 1 })?;
//! // The journal on the disk has two batches: the deposit, and the opening.
//! let (_journal, batches) = Journal::reopen(alloc, host.into_disk()).map_err(|e| e.1)?;
//! Ok((opened.sends.as_slice().len(), batches.len()))
//! ```
//!
//! These are the lines of `invited_and_kept` (`lks_run_trials`), which the test `a_host_over_a_disk` calls, with a pool
//! and with a plan that `read_script` (`lks_script`) read.
//!
//! Its trials: `lks_run_trials`, `host`.
#![tactic(auto)]

mod answering;
mod beginnings;
mod comparing;
mod cutting;
mod deposits;
mod faults;
mod hosts;
mod laws;
mod naming;
mod outcomes;
mod reading;
mod sorting;
mod writing;

pub use beginnings::{begin_peer, missing_deposits};
pub use cutting::{cut_step, restart};
pub use faults::HostFault;
pub use hosts::Host;
pub use laws::{every_journal_is_whole, every_sort_is_the_only_one};
pub use outcomes::{AfterCut, Recovered};
pub use sorting::{JournalSort, PeerSort, sort_journal, sort_with_peer};
