//! Whom a peer samples, admits and asks.

mod grades;
mod lists;
mod suppliers;
