//! The verdict of a poll on a copy (Maniatis et al., ACM TOCS 23(1), 2005, section 4): at each block, the votes are
//! counted whose running hash there is the copy's own under the voter's key.
//!
//! A [`Tally`] keeps running hashes from one verdict to the next, so that after a repair only the blocks from there on
//! are hashed again. [`for_of`] hashes a copy afresh for votes in a slice.
//!
//! ```rust
//! use lks_base::MOST_CIRCLE;
//! use lks_hash::Steps;
//! use lks_tally::{Tally, Verdict};
//! use std::sync::ledger::Ledger;
//!
//! fn lost_block<C: Contents, L: Ledger>(tally: &mut Tally, copy: &C, steps: &mut Steps<L>) -> Option<u16>
//!     requires reserved { IsReserved tally.old }
//!     requires few { length tally.old.votes ≤ MOST_CIRCLE }
//!     requires count { length (C.blocks copy.now) ≡ tally.old.ballot.count }
//!     requires cache { IsCacheOf tally.old (C.blocks copy.now) }
//! {
//!     match tally.verdict(copy, steps) {
//!         Verdict::Loss { block } => Some(block),
//!         Verdict::Inquorate | Verdict::Agreed | Verdict::Split { .. } => None,
//!     }
//! }
//! ```
//!
//! Its trials: `lks_rule_trials`, `tally`.
#![tactic(auto)]

mod ballots;
mod counts;
mod plain;
mod rows;
mod tallies;
mod trials;

pub use ballots::{At, Ballot, Verdict, Vote};
pub use counts::{has_vote_of, voter_key};
pub use plain::for_of;
pub use tallies::{Tally, VoteFault};
