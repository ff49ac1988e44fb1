//! Worlds that are driven by what they give out.

pub mod driving;
pub mod ordinary;
