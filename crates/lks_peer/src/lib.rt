//! A peer: what it adds to its journal and sends, whatever it does or receives.
//!
//! A peer that is told things:
//!
//! ```rust
//! let (mut peer, _deposits) = begin_peer(alloc, rt, pool, plan, 1)?;
//! // At tick 5 it is told to open the poll, and invites three peers.
//! let opened = peer.step(rt, pool, 5, &Input::OpenPoll { au: 1 })?;
//! Ok(opened.sends.as_slice().len())
//! ```
//!
//! These are the lines of `invited` (`lks_run_trials`), which the test `a_peer_that_is_told_things` calls, with a pool
//! and with a plan that `read_script` (`lks_script`) read.
//!
//! Its trials: `lks_run_trials`, `peer`.
#![tactic(auto)]

mod faults;
mod jobs;
mod known;
mod notes;
mod opening;
mod peers;
mod reacting;
mod rows;

pub use faults::AcceptFault;
pub use jobs::is_tag;
pub use lks_base::{Input, Outgoing, Reaction};
pub use peers::{Peer, find_honest};
