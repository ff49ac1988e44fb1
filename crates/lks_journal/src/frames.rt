//! Frames: a gate byte, four length bytes and a body.
ghost use Rattle.std.specs.Prelude.{◌≡◌, ◌^◌, ◌<◌, ◌∷◌, ◌++◌, [], length, IfOk, IfErr};
ghost use Rattle.std.specs.Int.{to_be_bytes, w32};
ghost use Rattle.lks_field.specs.Frames.{frames, HoldsBodies};
ghost use Rattle.lks_journal.specs.Fronts.{IsFront, IsScanFault};

use crate::faults::JournalFault;
use lks_base::Bytes;
use std::alloc::{AllocError, Global};

/// Before a whole frame. Any other byte is a closed gate.
pub const OPEN: u8 = 0xa5;

pub const CLOSED: u8 = 0;

/// What stands at the front of the bytes.
pub enum Front<'a> {
    Shut,
    Short,
    Whole(&'a [u8], &'a [u8]),
}

/// The length, the body and the next gate, as they stand behind a gate.
pub fn behind_gate(alloc: Global, body: &[u8]) -> Result<Vec<u8>, AllocError>
    requires { length body.now < 2 ^ 32 }
    ensures { IfOk result (λ piece. piece.items ≡ to_be_bytes w32 (length body.now) ++ body.now ++ 0 ∷ []) }
{
    let mut piece = Vec::with_capacity(alloc, body.len() + 5)?;
    piece.extend_from_slice((body.len() as u32).to_be_bytes().as_slice())?;
    piece.extend_from_slice(body)?;
    piece.push(CLOSED)?;
    Ok(piece)
}

/// What stands behind an open gate.
fn behind<'a>(tail: &'a [u8]) -> Front<'a>
    ensures { IsFront (165 ∷ tail.now) result }
{
    if tail.len() < 4 {
        return Front::Short;
    }
    let (size, rest) = tail.split_at(4);
    let len = u32::from_be_bytes([size[0], size[1], size[2], size[3]]) as usize;
    if rest.len() <= len {
        return Front::Short;
    }
    let (body, after) = rest.split_at(len);
    Front::Whole(body, after)
}

fn next_front<'a>(rest: &'a [u8]) -> Front<'a>
    ensures { IsFront rest.now result }
{
    match rest {
        [] => Front::Short,
        [gate, tail @ ..] => {
            if *gate == OPEN {
                behind(tail)
            } else {
                Front::Shut
            }
        }
    }
}

/// The bodies of the open frames up to the first closed gate, and where that stands.
pub fn scan(alloc: Global, file: &[u8]) -> Result<(Vec<Bytes>, u64), JournalFault>
    ensures ok { IfOk result (λ p. HoldsBodies p.0.items file.now × (p.1 ≡ length (frames p.0.items))) }
    ensures err { IfErr result (IsScanFault file.now) }
{
    let mut bodies = Vec::new(alloc);
    let mut rest = file;
    'frames: loop {
        let at = (file.len() - rest.len()) as u64;
        match next_front(rest) {
            Front::Shut => return Ok((bodies, at)),
            Front::Short => return Err(JournalFault::Damaged { offset: at }),
            Front::Whole(body, after) => {
                bodies.push(copy_of(alloc, body)?)?;
                rest = after;
            }
        }
    }
}

fn copy_of(alloc: Global, body: &[u8]) -> Result<Bytes, AllocError>
    ensures { IfOk result (λ copy. copy ≡ body.now) }
{
    let items = body.to_vec(alloc)?;
    Ok(Bytes::from_vec(items))
}
