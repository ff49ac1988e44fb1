//! The bytes of a disk in memory, and what a power cut makes of them.
ghost use Rattle.std.specs.Prelude.{◌≡◌, ◌+◌, ◌<◌, ◌≤◌, ◌++◌, ◌∷◌, [], length, reverse, vec_len, vec_capacity, OnOk};
ghost use Rattle.std.specs.Prelude.{OnErr};
ghost use Rattle.lks_disk.specs.Crash.{Kept, AllFit, IsSound, IsWritten, all_undone, all_garbled, left_by, may_leave};
ghost use Rattle.lks_disk.specs.Crash.{synced};

use crate::calls::{Call, Over};
use crate::ranges::{garble, put, restore};
use std::alloc::{AllocError, Global};
use std::marker::Model;

/// Bytes, and the writes and syncs that made them. A place is kept for the sync behind a write.
#[derive(Drop)]
pub struct Content {
    alloc: Global,
    bytes: Vec<u8>,
    calls: Vec<Call>,
    pending: bool,
}

impl Model for Content {
    ghost Value = { Kept };

    ghost view = { λ s. record { bytes = s.bytes.items; calls = reverse s.calls.items } };

    ghost invariant = { λ s. IsSound s.bytes.items (reverse s.calls.items) s.pending (vec_len s.calls)
        (vec_capacity s.calls) };
}

impl Content {
    pub fn new(alloc: Global) -> Self
        ensures { result ≡ record { bytes = []; calls = [] } }
    {
        Content {
            alloc,
            bytes: Vec::new(alloc),
            calls: Vec::new(alloc),
            pending: false,
        }
    }

    pub fn bytes(&self) -> &[u8]
        ensures { result.now ≡ self.now.bytes }
    {
        self.bytes.as_slice()
    }

    /// Writes over what is there, and past the end.
    pub fn write(&mut self, at: usize, piece: &[u8]) -> Result<(), AllocError>
        requires { at ≤ length self.old.bytes }
        ensures ok { OnOk result (IsWritten at piece.now self.old self.new) }
        ensures err { OnErr result (self.new ≡ self.old) }
    {
        let over = Over::keep(self.alloc, &self.bytes, at, piece.len())?;
        make_room(&mut self.calls)?;
        put(&mut self.bytes, at, piece)?;
        let len = piece.len();
        note(&mut self.calls, Call::Written { at, len, over });
        self.pending = true;
        Ok(())
    }

    /// Nothing waits any longer.
    pub fn sync(&mut self)
        ensures bytes { self.new.bytes ≡ self.old.bytes }
        ensures calls { self.new.calls ≡ synced self.old.calls }
    {
        if self.pending {
            note(&mut self.calls, Call::Synced);
            self.pending = false;
        }
    }

    /// Cuts the power: the choice says what is left of the writes that wait.
    pub fn cut(&mut self, choice: u64)
        ensures image { may_leave self.old self.new.bytes }
        ensures left { self.new ≡ record { bytes = left_by choice self.old.calls self.old.bytes; calls = [] } }
    {
        leave(&mut self.bytes, &mut self.calls, choice);
        self.calls.clear();
        self.pending = false;
    }
}

/// Makes room for a write and the sync behind it.
fn make_room(calls: &mut Vec<Call>) -> Result<(), AllocError>
    ensures items { calls.new.items ≡ calls.old.items }
    ensures len { vec_len calls.new ≡ vec_len calls.old }
    ensures room { OnOk result (vec_len calls.new + 2 ≤ vec_capacity calls.new) }
    ensures more { vec_capacity calls.old ≤ vec_capacity calls.new }
{
    calls.try_reserve(2)
}

/// Notes a call where there is room.
fn note(calls: &mut Vec<Call>, call: Call)
    requires { vec_len calls.old < vec_capacity calls.old }
    ensures items { calls.new.items ≡ calls.old.items ++ call ∷ [] }
    ensures len { vec_len calls.new ≡ vec_len calls.old + 1 }
    ensures more { vec_capacity calls.old ≤ vec_capacity calls.new }
{
    match calls.push(call) {
        Ok(()) => {}
        Err(_) => unreachable!(),
    }
}

/// Makes of the writes that wait what the choice says.
fn leave(bytes: &mut Vec<u8>, calls: &mut Vec<Call>, choice: u64)
    requires { AllFit (reverse calls.old.items) bytes.old.items }
    ensures { bytes.new.items ≡ left_by choice (reverse calls.old.items) bytes.old.items }
{
    match choice {
        0 => undo_all(bytes, calls),
        1 => {}
        _ => garble_all(bytes, calls, choice),
    }
}

/// Undoes each write that waits, from the last to the first.
fn undo_all(bytes: &mut Vec<u8>, calls: &mut Vec<Call>)
    requires { AllFit (reverse calls.old.items) bytes.old.items }
    ensures { bytes.new.items ≡ all_undone (reverse calls.old.items) bytes.old.items }
{
    'back: while let Some(call) = calls.pop() {
        match call {
            Call::Synced => return,
            Call::Written { at, len, over } => restore(bytes, at, len, over.as_slice()),
        }
    }
}

/// Fills the range of each write that waits, from the last to the first.
fn garble_all(bytes: &mut Vec<u8>, calls: &mut Vec<Call>, choice: u64)
    requires { AllFit (reverse calls.old.items) bytes.old.items }
    ensures { bytes.new.items ≡ all_garbled choice (reverse calls.old.items) bytes.old.items }
{
    'back: while let Some(call) = calls.pop() {
        match call {
            Call::Synced => return,
            Call::Written { at, len, over: _ } => garble(bytes, at, len, choice),
        }
    }
}
