//! Journals as text: the lines of a plan, and behind them a line for each journal, its frames in hex (RFC 4648, base
//! 16).
//!
//! What peers of a sampled poll wrote down (Maniatis et al., ACM TOCS 23(1), 2005, section 4) can so be kept apart from
//! the program that wrote it, and examined later by one that trusts the plan alone.
//!
//! ```rust
//! use lks_evidence::{Finding, examine};
//! use lks_gather::read_set;
//! use lks_script::ScriptFault;
//! use std::alloc::Global;
//!
//! fn find(alloc: Global, bytes: &[u8]) -> Result<Finding, ScriptFault>
//!     requires { length bytes.now ≤ most_records }
//! {
//!     let gathered = read_set(alloc, bytes)?;
//!     examine(alloc, &gathered.plan, &gathered.set).map_err(|_| ScriptFault::Memory)
//! }
//! ```
//!
//! Its trials: `lks_format_trials`, `gather`.
#![tactic(auto)]

mod gates;
mod gathered;
mod laws;
mod lists;
mod printing;
mod reading;

pub use gathered::Gathered;
pub use laws::{
    every_history_is_gathered, every_honest_peer_may_be_filed, every_journal_is_its_frames,
    every_plan_read_is_said, every_script_is_a_set, every_text_is_parted,
};
pub use printing::{Filed, print_set, put_journals};
pub use reading::read_set;
