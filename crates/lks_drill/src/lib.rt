//! The drill: a scenario that a seed gives, in which honest peers find and mend the damage of their copies.
#![tactic(auto)]

mod copies;
mod drills;
mod peers;

pub use drills::drill;
