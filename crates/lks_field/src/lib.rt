//! Fields of bytes: big-endian numbers and runs of bytes, written one after another and read from left to right.
//!
//! Its trials: `lks_format_trials`, `field`.
#![tactic(auto)]

mod fault;
mod lists;
mod memory;
mod reading;
mod writing;

pub use fault::FieldFault;
pub use memory::OutOfMemory;
pub use reading::Fields;
pub use writing::{
    put_be16, put_be32, put_bytes, put_hashes, put_kind, put_numbers, put_sized, put_u8,
};
