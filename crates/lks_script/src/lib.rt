//! Scripts: what a run begins with, and what is done in it.
//!
//! Its trials: `lks_format_trials`, `script`.
#![tactic(auto)]

mod drafts;
mod faults;
mod reading;
mod say_lines;
mod step_lines;
mod step_rules;
mod steps;

pub use faults::ScriptFault;
pub use reading::{bad_line, first_line, is_idle, read_script};
pub use step_lines::read_step;
pub use steps::{CutStep, MOST_CUT_CALLS, MOST_POWER_FAILURES, Script, Step};
