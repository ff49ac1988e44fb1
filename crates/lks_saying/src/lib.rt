//! What corrupt peers say in the steps of a script: messages that they might well send, truly named as their own.
#![tactic(auto)]

mod sayings;

pub use sayings::{Saying, what_is_said};
