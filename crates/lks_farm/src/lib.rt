//! A farm of hashers: jobs of hashing and their results go between threads through two bounded queues.
//!
//! A peer hashes a whole copy for each vote and each verdict (Maniatis et al., ACM TOCS 23(1), 2005, section 4). Each
//! thread has a `Seat`, by way of which it offers jobs, takes jobs of others, hands results in and collects them. These
//! calls take no memory. Each job's result comes out at most once, with the references that the job had.
//!
//! ```rust
//! use lks_farm::{Farm, FarmJob, Seat};
//! use std::sync::Wait;
//!
//! fn next<R: Wait>(rt: &R, farm: &Farm, seat: &mut Seat) -> Option<FarmJob>
//!     requires of { seat.old.badge.farm ≡ farm.now.name }
//!     requires free { IsNone seat.old.held }
//! {
//!     farm.take(rt, seat)
//! }
//! ```
//!
//! Its trials: `lks_rule_trials`, `farm`.
#![tactic(auto)]

mod batches;
mod entries;
mod farms;
mod jobs;
mod piles;
mod queues;
mod rule;
mod seats;

pub use batches::{SHARED_BYTES, hash_batch, hash_job};
pub use farms::{Farm, FarmEnd, FarmSet};
pub use jobs::{FarmDone, FarmJob, JobNumber};
pub use seats::Seat;
