//! A peer and the journal on its disk, and whose journal it is.

mod hosts;
mod sorting;
