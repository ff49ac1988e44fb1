//! Jobs of hashing, as values.
//!
//! A vote and a verdict of a poll cost the hashing of a whole copy (Maniatis et al., ACM TOCS 23(1), 2005, section 4).
//! So they leave their peer as a job: references to the blocks of one version of the copy, and what to hash these
//! under. Whoever hashes it, on whichever thread, needs the pool alone, and hands back a value whose type says that it
//! is right.
//!
//! ```rust
//! use lks_base::Hashes;
//! use lks_blocks::BlockPool;
//! use lks_work::{VoteJob, hash_vote};
//! use std::alloc::Global;
//!
//! fn hashed(alloc: Global, pool: &BlockPool, job: VoteJob) -> Option<Hashes>
//!     requires { AllOf pool.now job.refs }
//!     ensures { IfSome result (λ hashes. hashes ≡ vote_of job) }
//! {
//!     match hash_vote(alloc, pool, job) {
//!         Ok(done) => Some(done.hashes),
//!         Err(_job) => None,
//!     }
//! }
//! ```
//!
//! Its trials: `lks_rule_trials`, `work`.
#![tactic(auto)]

mod gates;
mod hashing;
mod jobs;
mod names;
mod results;

pub use gates::{FreeGate, Gate};
pub use hashing::{hash_tally, hash_vote};
pub use jobs::{Job, JobName, TallyJob, VoteJob};
pub use results::{JobDone, TallyDone, VoteDone};
