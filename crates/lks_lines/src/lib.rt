//! Lines of a script: the plan that they say one after another.
#![tactic(auto)]

mod copy_lines;
mod list_lines;
mod plan_lines;

pub use copy_lines::{add_copy, add_damage};
pub use list_lines::{ListKind, add_hash, add_list};
pub use plan_lines::{PlanDraft, add_au, add_peer, begin, rules};
