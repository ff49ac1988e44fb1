//! Scripts as text: one line a fact of the plan, and one a step.
//!
//! Its trials: `lks_format_trials`, `print`.
#![tactic(auto)]

mod adding;
mod laws;
mod plans;
mod scripts;
mod steps;

pub use laws::{every_drill_is_said, every_script_read_is_said, every_step_reads_back};
pub use plans::put_plan;
pub use scripts::print_script;
