//! The state of one poll that its poller runs (Maniatis et al., ACM TOCS 23(1), 2005): whom it invited, who nominated
//! peers and voted, whether voting ended, and whom it asked for a damaged block.
//!
//! Only votes of the inner circle are counted. Those of the outer circle, which the inner peers' nominations make up,
//! tell the poller whom to take into its reference list.
//!
//! ```rust
//! use lks_base::{Contents, OutOfMemory};
//! use lks_poller::{Next, PollSession, Stage};
//!
//! /// Once voting ended, and while nobody is waited for: counts the votes, and says what is to be done.
//! fn decide<C: Contents>(session: &mut PollSession, copy: &C) -> Result<Option<Next>, OutOfMemory>
//!     requires count { length (C.blocks copy.now) ≡ session.old.tally.ballot.count }
//!     requires cache { IsCacheOf session.old.tally (C.blocks copy.now) }
//! {
//!     match session.stage() {
//!         Stage::Shut => {}
//!         _ => return Ok(None),
//!     }
//!     let verdict = session.verdict(copy);
//!     Ok(Some(session.judge(verdict)?))
//! }
//! ```
//!
//! Its trials: `lks_rule_trials`, `poller`.
#![tactic(auto)]

mod counts;
mod sessions;
mod stages;

pub use sessions::PollSession;
pub use stages::{Answer, Next, Nomination, Stage};
