//! The hashes of a poll: its nonce, the key of each vote, and the running hash over the blocks of an archival unit
//! (AU).
//!
//! Hashes are of one of two kinds of FIPS 180-4: SHA-256, or where `second` is true SHA-512/256. Numbers are hashed
//! with the high byte first. No call takes memory.
//!
//! ```rust
//! use lks_hash::{Chain, Steps, key};
//! use std::sync::ledger::Ledger;
//!
//! fn vote<L: Ledger>(nonce: &[u8; 32], steps: &mut Steps<L>) -> [[u8; 32]; 2] {
//!     let mut chain = Chain::start(false, key(false, 1, 1, nonce, 2, 1, 2));
//!     [chain.add(b"first block", steps), chain.add(b"second block", steps)]
//! }
//! ```
//!
//! Its trials: `lks_rule_trials`, `hash`.
#![tactic(auto)]

mod keys;
mod links;

pub use keys::{key, nonce_of};
pub use links::{Chain, Steps};
