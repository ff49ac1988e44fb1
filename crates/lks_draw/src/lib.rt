//! The draws of a peer: random words that anyone who knows its seed can make again, and picks from a list by them.
//!
//! The words are those of ChaCha20 (RFC 8439), stream 0, under a key that is the SHA-256 (FIPS 180-4) of a label, the
//! peer's seed and a number. The label says what is drawn, and the number for which poll or the like.
//!
//! ```rust
//! use lks_draw::{Draws, OutOfMemory};
//!
//! fn inner_circle(
//!     alloc: Global,
//!     seed: &[u8; 32],
//!     poll: u32,
//!     refs: &[u16],
//! ) -> Result<Vec<u16>, OutOfMemory>
//!     requires { length refs.now < 2 ^ 32 }
//! {
//!     Draws::new(seed, 1, poll).pick(alloc, refs, 8)
//! }
//! ```
//!
//! Its trials: `lks_rule_trials`, `draw`.
#![tactic(auto)]

mod draws;
mod memory;

pub use draws::Draws;
pub use memory::OutOfMemory;
