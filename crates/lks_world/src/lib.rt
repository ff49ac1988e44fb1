//! A world of peers: it does the steps of a script, one event at a time, and keeps their history.
//!
//! Its trials: `lks_run_trials`, `world`.
#![tactic(auto)]

mod adding;
mod beginning;
mod beside;
mod copies;
mod cutting;
mod deeds;
mod doing;
mod faults;
mod giving;
mod laws;
mod marks;
mod other_events;
mod settling;
mod sites;
mod states;
mod worlds;

pub use faults::WorldFault;
pub use giving::{Back, Taken};
pub use laws::{
    disks_may_hold_other_batches, what_follows_a_script_is_a_history, worlds_may_be_unsafe,
};
pub use worlds::{Parts, World};
