//! The blocks of all copies of a process, in a pool that only grows.
//!
//! A block is put once and never changes, so many threads read it without a lock, and versions of a copy share the
//! blocks that they have in common. A `BlockRef` names a block of a pool. Contracts see with it the pool and the bytes
//! that the block has, so a reference, wherever it was kept, still says what `read` gives.
//!
//! ```rust
//! use lks_blocks::BlockPool;
//! use std::sync::Wait;
//!
//! fn first_byte(rt: &impl Wait, pool: &BlockPool, block: Vec<u8>) -> Result<u8, Vec<u8>>
//!     requires { 0 < vec_len block }
//! {
//!     let kept = pool.put(rt, block)?;
//!     Ok(pool.read(&kept)[0])
//! }
//! ```
#![tactic(auto)]

mod memory;
mod pool;
mod refs;

pub use memory::OutOfMemory;
pub use pool::{BlockPool, BlockRef, PoolMark};
pub use refs::Refs;
