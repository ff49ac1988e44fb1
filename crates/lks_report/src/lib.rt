//! The report of a run: bytes that are a function of its plan and its entries. It tells of each alarm of a history, and
//! of no other: `every_alarm_is_told`. Beside it the one line of a drill, which counts: `summary`.
//!
//! Its trials: `lks_format_trials`, `report`.
#![tactic(auto)]

mod drills;
mod laws;
mod lines;
mod scans;
mod text;
mod words;

pub use drills::summary;
pub use laws::every_alarm_is_told;
pub use scans::has_alarm;
pub use text::report;
