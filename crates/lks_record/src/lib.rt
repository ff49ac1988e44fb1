//! Batches of journal records as bytes, both ways. A batch is the records that one event adds.
//!
//! Its trials: `lks_format_trials`, `record`.
#![tactic(auto)]

mod decoding;
mod encoding;
mod fault;
mod heading;
mod reading;
mod writing;

pub use decoding::decode_batch;
pub use encoding::encode_batch;
pub use fault::RecFault;
