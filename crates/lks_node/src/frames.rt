//! Frames: bytes behind their length, a number of four bytes.
ghost use Rattle.std.specs.Prelude.{◌≡◌, ◌+◌, ◌<◌, ◌≤◌, ℕ, List, length, take, drop, Some, IfOk, IsErrOf, vec_len};
ghost use Rattle.lks_node.specs.Framing.{behind, frame_of, sized_frame, IsFound, Took};
ghost use Rattle.lks_node.specs.declared.frames.Unread.TheVariants as reading;
ghost use Rattle.lks_outside.specs.Counts.{Rose};

use lks_outside::{Failed, Source};
use std::alloc::{AllocError, Global};

/// Why nothing was read.
#[derive(Clone, Copy, Debug, PartialEq, Eq)]
pub enum Unread {
    /// The source's count of faults rose.
    Failed,
    Memory,
}

impl From<Failed> for Unread {
    ghost from_gives = { λ _ e. e ≡ reading.Failed };

    fn from(_: Failed) -> Self {
        Unread::Failed
    }
}

impl From<AllocError> for Unread {
    ghost from_gives = { λ _ e. e ≡ reading.Memory };

    fn from(_: AllocError) -> Self {
        Unread::Memory
    }
}

/// What stands next at a source.
#[derive(Drop)]
pub enum Frame {
    /// The end of the bytes.
    End,
    /// A frame that isn't whole, or is longer than it may be.
    Broken,
    /// The body of a frame.
    Whole(Vec<u8>),
}

/// The most bytes that are asked for at once.
const CHUNK: usize = 4096;

/// Reads once, and puts what came behind the bytes so far. Asks for no more than may be there.
fn read_more<S: Source>(
    source: &mut S,
    chunk: &mut [u8],
    out: &mut Vec<u8>,
    most: usize,
) -> Result<usize, Unread>
    requires room { 0 < length chunk.old }
    requires fits { vec_len out.old < most }
    ensures most { vec_len out.new ≤ most }
    ensures grew { IfOk result (λ n. vec_len out.new ≡ vec_len out.old + n) }
    ensures gave { (bytes : List ℕ) → S.left source.old ≡ Some bytes →
        IfOk result (Took bytes out.old.items out.new.items (S.left source.new)) }
    ensures failed { IsErrOf result Unread.Failed → Rose (S.faults source.old) (S.faults source.new) }
    ensures count { S.faults source.old ≤ S.faults source.new }
{
    let room = most - out.len();
    let width = if room < chunk.len() {
        room
    } else {
        chunk.len()
    };
    let n = source.read(&mut chunk[..width])?;
    out.extend_from_slice(&chunk[..n])?;
    Ok(n)
}

/// The next bytes of a source, so many, or fewer at its end.
pub fn read_upto<S: Source>(alloc: Global, source: &mut S, most: usize) -> Result<Vec<u8>, Unread>
    ensures most { IfOk result (λ v. vec_len v ≤ most) }
    ensures gave { (bytes : List ℕ) → S.left source.old ≡ Some bytes →
        IfOk result (λ v. (v.items ≡ take most bytes) × (S.left source.new ≡ Some (drop most bytes))) }
    ensures failed { IsErrOf result Unread.Failed → Rose (S.faults source.old) (S.faults source.new) }
    ensures count { S.faults source.old ≤ S.faults source.new }
{
    let mut out = Vec::new(alloc);
    let mut chunk = [0; CHUNK];
    'turns: while out.len() < most {
        let n = read_more(source, &mut chunk, &mut out, most)?;
        if n == 0 {
            return Ok(out);
        }
    }
    Ok(out)
}

/// A body of this size, if it may have so many bytes and all are there. That of a longer one isn't read.
fn read_body<S: Source>(
    alloc: Global,
    source: &mut S,
    size: u32,
    most: u32,
) -> Result<Frame, Unread>
    ensures found { (rest : List ℕ) → S.left source.old ≡ Some rest
        → IfOk result (IsFound (sized_frame most size rest) (S.left source.new)) }
    ensures failed { IsErrOf result Unread.Failed → Rose (S.faults source.old) (S.faults source.new) }
    ensures count { S.faults source.old ≤ S.faults source.new }
{
    if size > most {
        return Ok(Frame::Broken);
    }
    let body = read_upto(alloc, source, size as usize)?;
    if body.len() < size as usize {
        return Ok(Frame::Broken);
    }
    Ok(Frame::Whole(body))
}

/// What stands behind these first bytes, which are four unless the source has fewer.
fn read_behind<S: Source>(
    alloc: Global,
    source: &mut S,
    head: &[u8],
    most: u32,
) -> Result<Frame, Unread>
    ensures found { (rest : List ℕ) → S.left source.old ≡ Some rest
        → IfOk result (IsFound (behind most head.now rest) (S.left source.new)) }
    ensures failed { IsErrOf result Unread.Failed → Rose (S.faults source.old) (S.faults source.new) }
    ensures count { S.faults source.old ≤ S.faults source.new }
{
    match head {
        [] => Ok(Frame::End),
        [a, b, c, d] => {
            let size = u32::from_be_bytes([*a, *b, *c, *d]);
            read_body(alloc, source, size, most)
        }
        _ => Ok(Frame::Broken),
    }
}

/// What stands next, if it is a frame with a body of at most so many bytes.
#[tactic(auto, unfolding(crate::specs::Framing::frame_of))]
pub fn read_frame<S: Source>(alloc: Global, source: &mut S, most: u32) -> Result<Frame, Unread>
    ensures found { (bytes : List ℕ) → S.left source.old ≡ Some bytes
        → IfOk result (IsFound (frame_of most bytes) (S.left source.new)) }
    ensures failed { IsErrOf result Unread.Failed → Rose (S.faults source.old) (S.faults source.new) }
    ensures count { S.faults source.old ≤ S.faults source.new }
{
    let head = read_upto(alloc, source, 4)?;
    read_behind(alloc, source, &head, most)
}
