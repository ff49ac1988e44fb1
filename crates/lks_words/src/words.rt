//! Single words: numbers of peers, bytes in hex, blocks.

ghost use Rattle.std.specs.Prelude.{◌≡◌, ◌≤◌, ◌-◌, ◌++◌, map, length, IfOk};
ghost use Rattle.lks_words.specs.Words.{Gives, Shows, parts, each_in, id_in, poll_in, hex_in, zeros, seed_in};
ghost use Rattle.lks_words.specs.Words.{proof_in, index_in, bytes_in, repeated_in, filled_block_in, block_in};
ghost use Rattle.lks_words.specs.Words.{blocks_in, answer_in, kind_in, hash_in};
ghost use Rattle.lks_words.specs.Numbers.{number_in};

use crate::numbers::number;
use crate::stops::Stop;
use hex::FromHexError;
use lks_base::{
    Blocks, Bytes, HashKind, Ids, LAST_BLOCK, MOST_BLOCK_BYTES, MOST_FORGED_BYTES, MOST_PROOF_BYTES,
};
use std::alloc::{AllocError, Global};

/// The number of a peer or of an AU.
pub fn id(word: &[u8]) -> Result<u16, Stop>
    ensures { Gives result (id_in word.now) }
{
    match number(65_535, word) {
        Some(n) => Ok(n as u16),
        None => Err(Stop::Bad),
    }
}

/// A number of at most 255.
pub fn small(word: &[u8]) -> Result<u8, Stop>
    ensures { Gives result (number_in 255 word.now) }
{
    match number(255, word) {
        Some(n) => Ok(n as u8),
        None => Err(Stop::Bad),
    }
}

/// A count: of blocks, of envelopes, or of votes.
pub fn count(word: &[u8]) -> Result<u16, Stop>
    ensures { Gives result (number_in 65535 word.now) }
{
    id(word)
}

/// The number of a block.
pub fn index(word: &[u8]) -> Result<u16, Stop>
    ensures { Gives result (index_in word.now) }
{
    match number(u64::from(LAST_BLOCK), word) {
        Some(n) => Ok(n as u16),
        None => Err(Stop::Bad),
    }
}

/// A number that may be large: of ticks, or of an envelope.
pub fn large(word: &[u8]) -> Result<u32, Stop>
    ensures { Gives result (number_in 4294967295 word.now) }
{
    match number(4_294_967_295, word) {
        Some(n) => Ok(n as u32),
        None => Err(Stop::Bad),
    }
}

/// The number of a poll.
pub fn poll(word: &[u8]) -> Result<u32, Stop>
    ensures { Gives result (poll_in word.now) }
{
    large(word)
}

/// The parts between marks: the words of a line, the blocks of a copy.
pub fn split(alloc: Global, text: &[u8], mark: u8) -> Result<Vec<&[u8]>, AllocError>
    ensures { IfOk result (λ v. map (λ w. w.now) v.items ≡ parts mark text.now) }
{
    text.split(|b| *b == mark).collect(alloc)
}

#[tactic(auto, unfolding(crate::specs::Words::hex_in))]
fn hex_bytes(alloc: Global, word: &[u8], most: usize) -> Result<Vec<u8>, Stop>
    ensures value { Shows (λ v. v.items) result (hex_in most word.now) }
    ensures some { IfOk result (λ v. 1 ≤ length v.items) }
    ensures few { IfOk result (λ v. length v.items ≤ most) }
{
    match hex::decode(alloc, word) {
        Ok(bytes) if 1 <= bytes.len() && bytes.len() <= most => Ok(bytes),
        Ok(_) => Err(Stop::Bad),
        Err(FromHexError::OutOfMemory) => Err(Stop::Memory),
        Err(_) => Err(Stop::Bad),
    }
}

fn filled(bytes: &[u8]) -> [u8; 32]
    requires { length bytes.now ≤ 32 }
    ensures { result ≡ bytes.now ++ zeros (32 - length bytes.now) }
{
    let mut seed = [0; 32];
    seed[..bytes.len()].copy_from_slice(bytes);
    seed
}

/// 1 to 32 bytes in hex, filled with zero bytes.
#[tactic(auto, unfolding(crate::specs::Words::seed_in))]
pub fn seed(alloc: Global, word: &[u8]) -> Result<[u8; 32], Stop>
    ensures { Gives result (seed_in word.now) }
{
    let bytes = hex_bytes(alloc, word, 32)?;
    Ok(filled(&bytes))
}

/// A proof of effort in hex, or a hyphen for none.
#[tactic(auto, unfolding(crate::specs::Words::proof_in))]
pub fn proof(alloc: Global, word: &[u8]) -> Result<Bytes, Stop>
    ensures { Gives result (proof_in word.now) }
{
    if word == b"-".as_slice() {
        return Ok(Bytes::from_vec(Vec::new(alloc)));
    }
    Ok(Bytes::from_vec(hex_bytes(alloc, word, MOST_PROOF_BYTES as usize)?))
}

/// Any bytes in hex, or a hyphen for none.
#[tactic(auto, unfolding(crate::specs::Words::bytes_in))]
pub fn bytes(alloc: Global, word: &[u8]) -> Result<Bytes, Stop>
    ensures { Gives result (bytes_in word.now) }
{
    if word == b"-".as_slice() {
        return Ok(Bytes::from_vec(Vec::new(alloc)));
    }
    Ok(Bytes::from_vec(hex_bytes(alloc, word, MOST_FORGED_BYTES as usize)?))
}

/// One byte, so many times.
#[tactic(auto, unfolding(crate::specs::Words::repeated_in))]
fn repeated(alloc: Global, word: &[u8], times: &[u8]) -> Result<Bytes, Stop>
    ensures { Gives result (repeated_in word.now times.now) }
{
    let bytes = hex_bytes(alloc, word, 1)?;
    let byte = bytes[0];
    match number(u64::from(MOST_BLOCK_BYTES), times) {
        Some(n) if 1 <= n => Ok(Bytes::from_vec(vec![in alloc; byte; n as usize]?)),
        _ => Err(Stop::Bad),
    }
}

#[tactic(auto, unfolding(crate::specs::Words::filled_block_in))]
fn filled_block(alloc: Global, words: &[&[u8]]) -> Result<Bytes, Stop>
    ensures { Gives result (filled_block_in (map (λ w. w.now) words.now)) }
{
    match words {
        [word] => Ok(Bytes::from_vec(hex_bytes(alloc, word, MOST_BLOCK_BYTES as usize)?)),
        [word, times] => repeated(alloc, word, times),
        _ => Err(Stop::Bad),
    }
}

/// A block: a hyphen for none, bytes in hex, or a byte and how often it stands.
#[tactic(auto, unfolding(crate::specs::Words::block_in))]
pub fn block(alloc: Global, word: &[u8]) -> Result<Bytes, Stop>
    ensures { Gives result (block_in word.now) }
{
    if word == b"-".as_slice() {
        return Ok(Bytes::from_vec(Vec::new(alloc)));
    }
    let words = split(alloc, word, b'*')?;
    filled_block(alloc, &words)
}

fn each_block(alloc: Global, words: &[&[u8]]) -> Result<Blocks, Stop>
    ensures { Gives result (each_in block_in (map (λ w. w.now) words.now)) }
{
    let mut blocks = Vec::new(alloc);
    for word in words {
        blocks.push(block(alloc, word)?)?;
    }
    Ok(Blocks::from_vec(blocks))
}

/// Blocks in hex, parted by commas.
#[tactic(auto, unfolding(crate::specs::Words::blocks_in))]
pub fn blocks(alloc: Global, word: &[u8]) -> Result<Blocks, Stop>
    ensures { Gives result (blocks_in word.now) }
{
    let words = split(alloc, word, b',')?;
    each_block(alloc, &words)
}

/// Numbers of peers.
pub fn ids(alloc: Global, words: &[&[u8]]) -> Result<Ids, Stop>
    ensures { Gives result (each_in id_in (map (λ w. w.now) words.now)) }
{
    let mut ids = Vec::new(alloc);
    for word in words {
        ids.push(id(word)?)?;
    }
    Ok(Ids::from_vec(ids))
}

/// Yes or no.
#[tactic(auto, unfolding(crate::specs::Words::answer_in))]
pub fn answer(word: &[u8]) -> Result<bool, Stop>
    ensures { Gives result (answer_in word.now) }
{
    if word == b"yes".as_slice() {
        Ok(true)
    } else if word == b"no".as_slice() {
        Ok(false)
    } else {
        Err(Stop::Bad)
    }
}

/// Whether a peer of this kind is corrupt.
#[tactic(auto, unfolding(crate::specs::Words::kind_in))]
pub fn kind(word: &[u8]) -> Result<bool, Stop>
    ensures { Gives result (kind_in word.now) }
{
    if word == b"honest".as_slice() {
        Ok(false)
    } else if word == b"corrupt".as_slice() {
        Ok(true)
    } else {
        Err(Stop::Bad)
    }
}

/// The hash of this name, of FIPS 180-4.
#[tactic(auto, unfolding(crate::specs::Words::hash_in))]
pub fn hash(word: &[u8]) -> Result<HashKind, Stop>
    ensures { Gives result (hash_in word.now) }
{
    if word == b"sha256".as_slice() {
        Ok(HashKind::Sha256)
    } else if word == b"sha512-256".as_slice() {
        Ok(HashKind::Sha512_256)
    } else {
        Err(Stop::Bad)
    }
}
