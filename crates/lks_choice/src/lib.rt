//! Whom a peer samples, admits and asks.
//!
//! **Whom it samples** (Maniatis et al., ACM TOCS 23(1), 2005): its reference list, its friends, and the outer circle
//! of a poll, picked from what the inner circle nominates. When and how each changes are rules of our own.
//!
//! ```rust
//! use lks_base::{Ids, OutOfMemory};
//! use lks_choice::{References, outer_circle};
//! use lks_draw::Draws;
//!
//! fn widened(alloc: Global, inner: &[u16], nominated: &[Ids], draws: &mut Draws) -> Result<Ids, OutOfMemory> {
//!     outer_circle(alloc, 1, inner, nominated, 4, draws)
//! }
//!
//! fn churn(references: &mut References, against: &[u16], joining: &[u16]) -> Result<(), OutOfMemory> {
//!     references.after_poll(against, joining, &[])
//! }
//! ```
//!
//! **Whom it admits** to its polls: refractory admission and debts as Giuli et al. (USENIX Annual Technical Conference
//! 2005) have them, with rules of our own. No call takes memory.
//!
//! ```rust
//! use lks_choice::{admits, grade_of};
//! use lks_draw::Draws;
//!
//! fn lets_in(rules: &Rules, received: u32, given: u32, tick: u32, draws: &mut Draws) -> bool {
//!     admits(grade_of(received, given, false), rules, None, tick, draws)
//! }
//! ```
//!
//! **Whom it asks** for a damaged block (Maniatis et al. again): a voter against it, each once for a block, and one at
//! a time.
//!
//! ```rust
//! use lks_base::OutOfMemory;
//! use lks_choice::Suppliers;
//!
//! fn ask(suppliers: &mut Suppliers, block: u16, against: &[u16]) -> Result<bool, OutOfMemory>
//!     requires { suppliers.old.waiting ≡ false }
//! {
//!     match suppliers.next(block, against) {
//!         Some(voter) => suppliers.asked(block, voter)?,
//!         None => return Ok(false),
//!     }
//!     Ok(true)
//! }
//! ```
//!
//! Its trials: `lks_rule_trials`, `choice`.
#![tactic(auto)]

mod admission;
mod circles;
mod grades;
mod references;
mod suppliers;

pub use admission::{admits, is_low};
pub use circles::outer_circle;
pub use grades::{Grade, grade_of};
pub use references::References;
pub use suppliers::Suppliers;
