//! A voter's session in a poll (Maniatis et al., ACM TOCS 23(1), 2005): it joins, commits to a version of its copy
//! under the poll's nonce, votes, and serves repairs of at most so many blocks to the poller. It may end at any time.
//!
//! Each state is a type of its own, and a move to the next one uses it up: so a voter commits and votes once in a poll.
//!
//! ```rust
//! use lks_base::{HashKind, Hashes, OutOfMemory, PollName};
//! use lks_voter::{Joined, Serve};
//! use std::alloc::Global;
//!
//! /// Whether block 3 is sent to the poller after a vote, where it may have at most two.
//! fn repairs(alloc: Global, poll: PollName, hashes: Hashes) -> Result<bool, OutOfMemory> {
//!     let committed = Joined::new(poll, 1, 20, false).commit(HashKind::Sha256, [7; 32], 0);
//!     let mut voted = committed.vote(alloc, hashes);
//!     match voted.serve(3, 2)? {
//!         Serve::First | Serve::Again => Ok(true),
//!         Serve::Spent => Ok(false),
//!     }
//! }
//! ```
//!
//! Its trials: `lks_rule_trials`, `voter`.
#![tactic(auto)]

mod commitments;
mod sessions;
mod votes;

pub use commitments::{Committed, Ended, Joined, Serve};
pub use sessions::Session;
pub use votes::Voted;
