//! A source and a sink in memory, with calls that fail.
ghost use Rattle.std.specs.Prelude.{◌≡◌, ◌-◌, ◌^◌, ◌<◌, ◌≤◌, ◌++◌, [], length, take, drop, min, is_err, vec_len, Some};
ghost use Rattle.std.specs.Prelude.{Ok, IfOk, OnErr, IsErrOf, IsTrue, ◌↔◌};
ghost use Rattle.lks_outside.specs.Counts.{Rose, raised};
ghost use Rattle.lks_outside.specs.Fakes.{SourceState, SinkState, next_fails, after_read, after_write};
ghost use Rattle.lks_outside.specs.Streams.{Gave};

use crate::sinks::{Sink, SinkStop};
use crate::sources::{Failed, Source};
use std::alloc::Global;
use std::marker::Model;

/// Which calls fail, and how many calls and faults there were.
#[derive(Drop)]
struct Failures {
    fail: Vec<u32>,
    calls: u64,
    faults: u64,
}

impl Failures {
    fn new(fail: Vec<u32>) -> Self
        ensures { result ≡ record { fail = fail; calls = 0; faults = 0 } }
    {
        Failures {
            fail,
            calls: 0,
            faults: 0,
        }
    }

    /// The next call is one of those that fail.
    fn fails_next(&self) -> bool
        ensures { result ≡ next_fails self.now.fail.items self.now.calls }
    {
        let next = self.calls.saturating_add(1);
        self.fail.iter().any(|number| u64::from(*number) == next)
    }

    fn count_call(&mut self)
        ensures { self.new ≡ record self.old { calls = raised self.old.calls } }
    {
        self.calls = self.calls.saturating_add(1);
    }

    fn count_fault(&mut self)
        ensures raised { self.new ≡ record self.old { faults = raised self.old.faults } }
        ensures rose { Rose self.old.faults self.new.faults }
        ensures count { self.old.faults ≤ self.new.faults }
    {
        self.faults = self.faults.saturating_add(1);
    }
}

/// Bytes in memory, given in pieces, by calls of which some may fail.
#[derive(Drop)]
pub struct MemSource {
    bytes: Vec<u8>,
    at: usize,
    most: usize,
    failures: Failures,
}

impl Model for MemSource {
    ghost Value = { SourceState };

    ghost view = { λ s. record {
      left = drop s.at s.bytes.items;
      fail = s.failures.fail.items;
      most = s.most;
      calls = s.failures.calls;
      faults = s.failures.faults;
    } };

    ghost invariant = { λ s. (s.at ≤ vec_len s.bytes) × (1 ≤ s.most) };
}

impl MemSource {
    /// Gives all that the buffer has room for. The numbers name the calls that fail, counted from 1.
    pub fn new(alloc: Global, bytes: Vec<u8>, fail: Vec<u32>) -> Self
        ensures { result ≡ record { left = bytes.items; fail = fail.items; most = 2 ^ 64 - 1; calls = 0; faults = 0 } }
    {
        Self::narrow(alloc, bytes, fail, usize::MAX)
    }

    /// Gives at most so many bytes a call.
    pub fn narrow(_alloc: Global, bytes: Vec<u8>, fail: Vec<u32>, most: usize) -> Self
        requires { 1 ≤ most }
        ensures { result ≡ record { left = bytes.items; fail = fail.items; most = most; calls = 0; faults = 0 } }
    {
        MemSource {
            bytes,
            at: 0,
            most,
            failures: Failures::new(fail),
        }
    }
}

impl Source for MemSource {
    ghost left = { λ s. Some s.left };

    ghost faults = { λ s. s.faults };

    fn read(&mut self, buf: &mut [u8]) -> Result<usize, Failed>
        ensures within { IfOk result (λ n. n ≤ length buf.new) }
        ensures gave { IfOk result (λ n. Gave self.old.left n buf.old buf.new (Some self.new.left)) }
        ensures kept { OnErr result (self.new.left ≡ self.old.left) }
        ensures failed { OnErr result (Rose self.old.faults self.new.faults) }
        ensures count { self.old.faults ≤ self.new.faults }

        ensures fails { is_err result ≡ next_fails self.old.fail self.old.calls }
        ensures given { IfOk result (λ n. n ≡ min (length self.old.left) (min (length buf.old) self.old.most)) }
        ensures after { self.new ≡ after_read self.old result }
        ensures untouched { OnErr result (buf.new ≡ buf.old) }
    {
        let fails = self.failures.fails_next();
        self.failures.count_call();
        if fails {
            self.failures.count_fault();
            return Err(Failed);
        }
        let (_, left) = self.bytes.as_slice().split_at(self.at);
        let n = give(left, buf, self.most);
        self.at += n;
        Ok(n)
    }
}

/// Copies a front of the bytes into the buffer, at most so many, and answers how many.
fn give(bytes: &[u8], buf: &mut [u8], most: usize) -> usize
    ensures given { result ≡ min (length bytes.now) (min (length buf.old) most) }
    ensures buffer { buf.new ≡ take result bytes.now ++ drop result buf.old }
{
    let n = bytes.len().min(buf.len().min(most));
    let (front, _) = bytes.split_at(n);
    let (room, _) = buf.split_at_mut(n);
    room.copy_from_slice(front);
    n
}

/// Keeps the bytes that it takes, in pieces, by calls of which some may fail.
#[derive(Drop)]
pub struct MemSink {
    bytes: Vec<u8>,
    most: usize,
    failures: Failures,
}

impl Model for MemSink {
    ghost Value = { SinkState };

    ghost view = { λ s. record {
      taken = s.bytes.items;
      fail = s.failures.fail.items;
      most = s.most;
      calls = s.failures.calls;
      faults = s.failures.faults;
    } };
}

impl MemSink {
    /// Takes each piece whole. The numbers name the calls that fail, counted from 1.
    pub fn new(alloc: Global, fail: Vec<u32>) -> Self
        ensures { result ≡ record { taken = []; fail = fail.items; most = 2 ^ 64 - 1; calls = 0; faults = 0 } }
    {
        Self::narrow(alloc, fail, usize::MAX)
    }

    /// Takes at most so many bytes a call. At 0 it takes none, and each piece with bytes is a fault.
    pub fn narrow(alloc: Global, fail: Vec<u32>, most: usize) -> Self
        ensures { result ≡ record { taken = []; fail = fail.items; most = most; calls = 0; faults = 0 } }
    {
        MemSink {
            bytes: Vec::new(alloc),
            most,
            failures: Failures::new(fail),
        }
    }

    /// The bytes that it took, in order.
    pub fn bytes(&self) -> &[u8]
        ensures { result.now ≡ self.now.taken }
    {
        self.bytes.as_slice()
    }
}

impl Sink for MemSink {
    ghost taken = { λ s. Some s.taken };

    ghost faults = { λ s. s.faults };

    fn write(&mut self, piece: &[u8]) -> Result<usize, SinkStop>
        ensures within { IfOk result (λ n. n ≤ length piece.now) }
        ensures took { IfOk result (λ n. self.new.taken ≡ self.old.taken ++ take n piece.now) }
        ensures kept { OnErr result (self.new.taken ≡ self.old.taken) }
        ensures failed { IsErrOf result SinkStop.Failed → Rose self.old.faults self.new.faults }
        ensures stuck { result ≡ Ok 0 → 0 < length piece.now → Rose self.old.faults self.new.faults }
        ensures count { self.old.faults ≤ self.new.faults }

        ensures fails { IsErrOf result SinkStop.Failed ↔ IsTrue (next_fails self.old.fail self.old.calls) }
        ensures taken { IfOk result (λ n. n ≡ min (length piece.now) self.old.most) }
        ensures after { self.new ≡ after_write self.old piece.now result }
    {
        if self.failures.fails_next() {
            self.failures.count_call();
            self.failures.count_fault();
            return Err(SinkStop::Failed);
        }
        let n = piece.len().min(self.most);
        let (front, _) = piece.split_at(n);
        self.bytes.extend_from_slice(front)?;
        self.failures.count_call();
        if n == 0 && !piece.is_empty() {
            self.failures.count_fault();
        }
        Ok(n)
    }
}
