//! What comes from a sender becomes the input of its receiver, in one place: the bytes are decoded once, the judge of
//! proofs of effort is asked what the message asks, once, and the message moves on with the verdict (Maniatis et al.,
//! ACM TOCS 23(1), 2005, section 4: a poller and a voter show effort before their poll and their vote count).
//!
//! ```rust
//! use lks_base::{Input, OutOfMemory, PeerId};
//! use lks_outside::FirstByteJudge;
//! use lks_inbox::receive;
//! use std::alloc::Global;
//!
//! fn hear(alloc: Global, from: PeerId, to: PeerId, bytes: &[u8]) -> Result<Option<Input>, OutOfMemory> {
//!     let mut judge = FirstByteJudge::new(alloc)?;
//!     receive(alloc, from, to, bytes, &mut judge)
//! }
//! ```
//!
//! Its trials: `lks_run_trials`, `inbox`.
#![tactic(auto)]

mod receiving;

pub use receiving::{receive, receive_judged, verdict_on};
