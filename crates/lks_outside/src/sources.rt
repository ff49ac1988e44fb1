//! Where bytes come from.
ghost use Rattle.std.specs.Prelude.{◌≡◌, ◌+◌, ◌-◌, ◌<◌, ◌≤◌, ℕ, List, length, Some, Option, IfOk, OnErr, IsErrOf};
ghost use Rattle.std.specs.Prelude.{vec_len};
ghost use Rattle.lks_outside.specs.declared.sources.ReadStop.TheVariants as reading;
ghost use Rattle.lks_outside.specs.Counts.{Rose};
ghost use Rattle.lks_outside.specs.Streams.{Gave, ReadEnds};
ghost use Rattle.lks_outside.specs.Turns.{TurnEnds};

use std::alloc::{AllocError, Global};

/// A source gave nothing, since it failed.
#[derive(Clone, Copy, Debug, PartialEq, Eq)]
pub struct Failed;

/// Bytes to be read, in pieces of any size.
pub trait Source {
    /// The bytes that are left, where the source tells them.
    ghost left: { Self → Option (List ℕ) };

    /// How often the source has failed.
    ghost faults: { Self → ℕ };

    /// Fills a front of the buffer, and answers its length. To a buffer with room, 0 is the end of the bytes.
    fn read(&mut self, buf: &mut [u8]) -> Result<usize, Failed>
        ensures within { IfOk result (λ n. n ≤ length buf.new) }
        ensures gave { (bytes : List ℕ) → left self.old ≡ Some bytes →
            IfOk result (λ n. Gave bytes n buf.old buf.new (left self.new)) }
        ensures kept { OnErr result (left self.new ≡ left self.old) }
        ensures failed { OnErr result (Rose (faults self.old) (faults self.new)) }
        ensures count { faults self.old ≤ faults self.new };
}

/// Why not all bytes were read.
#[derive(Clone, Copy, Debug, PartialEq, Eq)]
pub enum ReadStop {
    Failed,
    TooLong,
    Memory,
}

impl From<Failed> for ReadStop {
    ghost from_gives = { λ _ e. e ≡ reading.Failed };

    fn from(_: Failed) -> Self {
        ReadStop::Failed
    }
}

impl From<AllocError> for ReadStop {
    ghost from_gives = { λ _ e. e ≡ reading.Memory };

    fn from(_: AllocError) -> Self {
        ReadStop::Memory
    }
}

/// The most bytes that are asked for at once.
const CHUNK: usize = 4096;

/// Reads a source to its end, if that comes within `most` bytes.
pub fn read_all<S: Source>(alloc: Global, source: &mut S, most: usize) -> Result<Vec<u8>, ReadStop>
    ensures most { IfOk result (λ bytes. vec_len bytes ≤ most) }
    ensures ends { (bytes : List ℕ) → S.left source.old ≡ Some bytes →
        ReadEnds most bytes (S.left source.new) result }
    ensures failed { IsErrOf result ReadStop.Failed → Rose (S.faults source.old) (S.faults source.new) }
    ensures count { S.faults source.old ≤ S.faults source.new }
{
    let mut out = Vec::new(alloc);
    let mut chunk = [0; CHUNK];
    'turns: loop {
        let n = read_more(source, &mut chunk, &mut out, most)?;
        if n == 0 {
            return Ok(out);
        }
    }
}

/// Reads once, and puts what came behind the bytes so far. Asks for at most one byte past `most`.
fn read_more<S: Source>(
    source: &mut S,
    chunk: &mut [u8],
    out: &mut Vec<u8>,
    most: usize,
) -> Result<usize, ReadStop>
    requires room { 0 < length chunk.old }
    requires fits { vec_len out.old ≤ most }
    ensures most { vec_len out.new ≤ most }
    ensures grew { IfOk result (λ n. vec_len out.new ≡ vec_len out.old + n) }
    ensures ends { (bytes : List ℕ) → S.left source.old ≡ Some bytes →
        TurnEnds (most - vec_len out.old) bytes out.old.items out.new.items (S.left source.new) result }
    ensures failed { IsErrOf result ReadStop.Failed → Rose (S.faults source.old) (S.faults source.new) }
    ensures count { S.faults source.old ≤ S.faults source.new }
{
    let room = most - out.len();
    let width = if room < chunk.len() {
        room + 1
    } else {
        chunk.len()
    };
    let n = source.read(&mut chunk[..width])?;
    if n > room {
        return Err(ReadStop::TooLong);
    }
    out.extend_from_slice(&chunk[..n])?;
    Ok(n)
}
