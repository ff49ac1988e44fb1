//! The records of a journal from its bytes.

ghost use Rattle.std.specs.Prelude.{◌≡◌};
ghost use Rattle.std.specs.Option.{option_map};
ghost use Rattle.lks_gather.specs.Framed.{batch_in, frame_in, batch_at, front_in, journal_in};
ghost use Rattle.lks_gather.specs.Sets.{list_in};
ghost use Rattle.lks_words.specs.Words.{Shows};

use crate::gates::{CLOSED, OPEN};
use hex::FromHexError;
use lks_base::Record;
use lks_record::{RecFault, decode_batch};
use lks_words::Stop;
use std::alloc::Global;

/// A body behind its length, a number of four bytes, and what comes next.
#[tactic(auto, unfolding(crate::specs::Framed::frame_in, lks_field::specs::Reading::sized_at))]
fn next_frame(bytes: &[u8]) -> Option<(&[u8], &[u8])>
    ensures { option_map (λ f. (f.0.now, f.1.now)) result ≡ frame_in bytes.now }
{
    if bytes.len() < 4 {
        return None;
    }
    let (size, rest) = bytes.split_at(4);
    let length = u32::from_be_bytes([size[0], size[1], size[2], size[3]]) as usize;
    if rest.len() < length {
        return None;
    }
    Some(rest.split_at(length))
}

/// The records of a batch.
#[tactic(auto, unfolding(crate::specs::Framed::batch_in))]
fn read_batch(alloc: Global, body: &[u8]) -> Result<Vec<Record>, Stop>
    ensures { Shows (λ v. v.items) result (batch_in body.now) }
{
    match decode_batch(alloc, body) {
        Ok(batch) => Ok(batch),
        Err(RecFault::Memory) => Err(Stop::Memory),
        Err(_) => Err(Stop::Bad),
    }
}

/// A batch behind its gate, and what comes next.
#[tactic(auto, unfolding(crate::specs::Framed::batch_at))]
fn batch_at(alloc: Global, bytes: &[u8]) -> Result<(Vec<Record>, &[u8]), Stop>
    ensures { Shows (λ f. (f.0.items, f.1.now)) result (batch_at bytes.now) }
{
    let Some((body, rest)) = next_frame(bytes) else {
        return Err(Stop::Bad);
    };
    let batch = read_batch(alloc, body)?;
    Ok((batch, rest))
}

/// The next batch and what comes behind it, or none where a closed gate is the last byte.
#[tactic(auto, unfolding(crate::specs::Framed::front_in))]
fn next_batch(alloc: Global, rest: &[u8]) -> Result<Option<(Vec<Record>, &[u8])>, Stop>
    ensures { Shows (λ front. option_map (λ f. (f.0.items, f.1.now)) front) result (front_in rest.now) }
{
    let [gate, tail @ ..] = rest else {
        return Err(Stop::Bad);
    };
    if *gate == OPEN {
        Ok(Some(batch_at(alloc, tail)?))
    } else if *gate == CLOSED && tail.len() == 0 {
        Ok(None)
    } else {
        Err(Stop::Bad)
    }
}

/// The records of a journal: those in its frames, up to a closed gate `00`, which is its last byte.
fn read_list(alloc: Global, file: &[u8]) -> Result<Vec<Record>, Stop>
    ensures { Shows (λ v. v.items) result (journal_in file.now) }
{
    let mut list = Vec::new(alloc);
    let mut rest = file;
    'batches: loop {
        match next_batch(alloc, rest) {
            Ok(Some((mut batch, more))) => {
                list.append(&mut batch)?;
                rest = more;
            }
            Ok(None) => return Ok(list),
            Err(Stop::Bad) => return Err(Stop::Bad),
            Err(Stop::Memory) => return Err(Stop::Memory),
        }
    }
}

/// The same where the bytes are in hex, in either case.
#[tactic(auto, unfolding(crate::specs::Sets::list_in))]
pub(crate) fn read_hex_list(alloc: Global, word: &[u8]) -> Result<Vec<Record>, Stop>
    ensures { Shows (λ v. v.items) result (list_in word.now) }
{
    match hex::decode(alloc, word) {
        Ok(file) => read_list(alloc, &file),
        Err(FromHexError::OutOfMemory) => Err(Stop::Memory),
        Err(_) => Err(Stop::Bad),
    }
}
