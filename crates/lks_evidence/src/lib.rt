//! A checker of finished journals, which trusts the plan alone.
//!
//! In a sampled poll (Maniatis et al., ACM TOCS 23(1), 2005, section 4) a peer replaces a block of its copy where its
//! voters are against the block and for the one that a voter sent. [`examine`] reads the journals that peers left and
//! says whether each replaced block in them has such votes behind it. It counts from the records alone and shares
//! nothing with the peers but the definitions. Where a voter's journal is there too, its vote has to be the one over
//! the version of its copy to which that journal commits it.
//!
//! From one repair of a poll to the next it keeps the votes, the copy as it stands, each voter's running hash over the
//! blocks before the last repaired one, and what the voters' journals leave in doubt: so repairs of one poll, in order
//! of their blocks, hash each block of the copy once a vote, and two blocks a vote and repair. Blocks that a voter's
//! version shares with the copy up to the first repaired block are hashed once for both. Another poll begins anew, with
//! the copy where it is on the same AU; where its number is above those of all polls before the last repaired block, it
//! is read from there on.
//!
//! A set that is examined:
//!
//! ```rust
//! let alloc = rt.alloc();
//! let plan = plan_of(alloc)?;
//! let first = Bytes::from_vec(b"A".to_vec(alloc)?);
//! let second = Bytes::from_vec(b"B".to_vec(alloc)?);
//! let blocks = Seq::from_vec(vec![in alloc; first, second]?);
//! let bytes = Bytes::from_vec(b"C".to_vec(alloc)?);
//! let deposit = Record::Deposit { au: 1, blocks };
//! // A replaced block with no poll behind it.
//! let replaced = Record::Replaced {
//!     number: 1,
//!     au: 1,
//!     block: 1,
//!     bytes,
//! };
//! let list = vec![in alloc; deposit, replaced]?;
//! let set = vec![in alloc; Shelf { peer: 1, list }]?;
//! let doubt = Doubt {
//!     peer: 1,
//!     place: 1,
//!     why: Why::Poll,
//! };
//! assert_eq!(rt; examine(alloc, &plan, &set)?, Finding::No(doubt));
//! Ok(())
//! ```
//!
//! These are the lines of the test `a_set_that_is_examined` (`lks_run_trials`). Its `plan_of` reads a plan by
//! `read_script` (`lks_script`).
//!
//! Its trials: `lks_run_trials`, `evidence`.
#![tactic(auto)]

mod cases;
mod copies;
mod examining;
mod findings;
mod hashing;
mod judging;
mod laws;
mod marks;
mod polls;
mod records;
mod recounts;
mod voters;

pub use examining::examine;
pub use findings::{Doubt, Finding, Shelf, Why};
pub use laws::{
    every_count_is_told, every_history_holds, every_part_holds, every_repair_restores,
    every_replacement_has_evidence,
};
