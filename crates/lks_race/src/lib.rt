//! A race: threads take what is due from one world, in whatever order they come, and hash outside its lock.
//!
//! Its trials: `lks_run_trials`, `race`.
#![tactic(auto)]

mod locked;
mod naming;
mod races;
mod sessions;
mod turns;

pub use lks_work::{FreeGate, Gate};
pub use races::{race, race_on};
