//! Messages between peers as bytes, both ways.
//!
//! Its trials: `lks_format_trials`, `message`.
#![tactic(auto)]

mod decoding;
mod encoding;
mod fault;
mod heading;

pub use decoding::decode;
pub use encoding::encode;
pub use fault::MsgFault;
