//! The writes and syncs of a disk in memory, with what undoes them.
ghost use Rattle.std.specs.Prelude.{◌≡◌, ◌≤◌, ℕ, List, length, take, drop, IfOk};

use std::alloc::{AllocError, Global};
use std::marker::Model;

/// The bytes that a write wrote over. Contracts see them as a list.
#[derive(Drop)]
pub struct Over {
    bytes: Vec<u8>,
}

impl Model for Over {
    ghost Value = { List ℕ };

    ghost view = { λ o. o.bytes.items };
}

impl Over {
    /// Keeps the bytes that a write of so many at this offset would write over.
    pub fn keep(alloc: Global, bytes: &[u8], at: usize, len: usize) -> Result<Self, AllocError>
        requires { at ≤ length bytes.now }
        ensures { IfOk result (λ over. over ≡ take len (drop at bytes.now)) }
    {
        let (_, tail) = bytes.split_at(at);
        let (front, _) = tail.split_at(len.min(tail.len()));
        let bytes = front.to_vec(alloc)?;
        Ok(Over { bytes })
    }

    pub fn as_slice(&self) -> &[u8]
        ensures { result.now ≡ self.now }
    {
        self.bytes.as_slice()
    }
}

/// A write with its range and what it wrote over, or a sync.
#[derive(Drop)]
pub enum Call {
    Written { at: usize, len: usize, over: Over },
    Synced,
}
