//! Messages as bytes, and bytes that are none.

use crate::same::same;
use crate::spelled;
use crate::spelled::{add_bytes, add_peers};
use lks_base::Message;
use lks_message::{decode, encode};
use std::alloc::{AllocError, Global};
use std::test::Fail;

/// The fault's name, or nothing where the bytes are a message.
fn fault(alloc: Global, bytes: &[u8]) -> Result<String, AllocError> {
    match decode(alloc, bytes) {
        Ok(_) => Ok(String::new(alloc)),
        Err(fault) => format!(in alloc; "{fault:?}"),
    }
}

/// Faults, and bytes that have them.
const FAULTS: &str = "\
Short:
Short: 1
Short: 2
Version: 3
Short: 1 2 0 0 0
Tag: 2 8 0 0 0 1
Version: 3 8 0 0 0 1
Tag: 1 9
Limit: 1 2 0 0 0 1 2
Trailing: 1 8 0 0 0 1 0
Short: 1 2 0 0 0 1
Limit: 1 4 0 0 0 1 9
Limit: 1 5 0 0 0 1 2 1
Limit: 1 6 0 0 0 1 2 0
Limit: 1 7 0 0 0 1 1 255 64 1
Limit: 1 3 0 0 0 1 hash 65
Limit: 2 3 0 0 0 1 hash 1 1 1";

#[test]
fn faults(rt: HostRuntime) -> Result<(), Fail> {
    for line in FAULTS.lines() {
        let (name, column) = line.split_once(':').ok_or("a row")?;
        let bytes = spelled::bytes(rt.alloc(), column)?;
        same(&rt, &fault(rt.alloc(), &bytes)?.as_str(), &name, &line);
    }
    Ok(())
}

/// The number of the message's kind, and the numbers in it.
fn numbers(m: &Message) -> [u32; 3] {
    match m {
        Message::Poll { number, au } => [1, *number, u32::from(*au)],
        Message::PollChallenge { number, yes } => [2, *number, u32::from(*yes)],
        Message::PollProof { number, kind, .. } => [3, *number, u32::from(kind.second())],
        Message::Nominate { number, .. } => [4, *number, 0],
        Message::Vote { number, .. } => [5, *number, 0],
        Message::RepairRequest { number, block } => [6, *number, u32::from(*block)],
        Message::Repair { number, block, .. } => [7, *number, u32::from(*block)],
        Message::Receipt { number } => [8, *number, 0],
    }
}

/// The peers that the message names.
fn nominees(m: &Message) -> &[u16] {
    match m {
        Message::Nominate { nominees, .. } => nominees.as_slice(),
        Message::Poll { .. }
        | Message::PollChallenge { .. }
        | Message::PollProof { .. }
        | Message::Vote { .. }
        | Message::RepairRequest { .. }
        | Message::Repair { .. }
        | Message::Receipt { .. } => &[],
    }
}

/// The proof in the message, or the bytes of its block.
fn content(m: &Message) -> &[u8] {
    match m {
        Message::PollProof { proof, .. } => proof.as_slice(),
        Message::Vote { proof, .. } => proof.as_slice(),
        Message::Repair { bytes, .. } => bytes.as_slice(),
        Message::Poll { .. }
        | Message::PollChallenge { .. }
        | Message::Nominate { .. }
        | Message::RepairRequest { .. }
        | Message::Receipt { .. } => &[],
    }
}

fn nonce(m: &Message) -> Option<[u8; 32]> {
    match m {
        Message::PollProof { nonce, .. } => Some(*nonce),
        Message::Poll { .. }
        | Message::PollChallenge { .. }
        | Message::Nominate { .. }
        | Message::Vote { .. }
        | Message::RepairRequest { .. }
        | Message::Repair { .. }
        | Message::Receipt { .. } => None,
    }
}

fn hashes(m: &Message) -> &[[u8; 32]] {
    match m {
        Message::Vote { hashes, .. } => hashes.as_slice(),
        Message::Poll { .. }
        | Message::PollChallenge { .. }
        | Message::PollProof { .. }
        | Message::Nominate { .. }
        | Message::RepairRequest { .. }
        | Message::Repair { .. }
        | Message::Receipt { .. } => &[],
    }
}

fn add_hashes(told: &mut Vec<u32>, m: &Message) -> Result<(), AllocError> {
    if let Some(nonce) = nonce(m) {
        add_bytes(told, &nonce)?;
    }
    for hash in hashes(m) {
        add_bytes(told, hash)?;
    }
    Ok(())
}

/// What the message says: its numbers, then the peers that it names, its proof or block, and its hashes.
fn told(alloc: Global, m: &Message) -> Result<Vec<u32>, AllocError> {
    let mut told = numbers(m).to_vec(alloc)?;
    add_peers(&mut told, nominees(m))?;
    add_bytes(&mut told, content(m))?;
    add_hashes(&mut told, m)?;
    Ok(told)
}

/// The message again, as it is read and spelled, and what it says.
fn read(alloc: Global, bytes: &[u8]) -> Result<(Vec<u8>, Vec<u32>), Fail> {
    let m = decode(alloc, bytes).ok().ok_or("a message")?;
    let again = encode(alloc, &m).ok().ok_or("memory")?;
    Ok((again, told(alloc, &m)?))
}

/// Messages, the last three with an empty list or no bytes, and what each says.
const MESSAGES: &str = "\
1 1 0 0 0 1 1 2: 1 1 258
1 2 0 0 0 1 1: 2 1 1
1 3 0 0 0 1 hash 1 1: 3 1 0 1 hash
2 3 0 0 0 1 hash 2 1 1: 3 1 1 1 hash
1 4 0 0 0 1 2 0 3 3 4: 4 1 0 3 772
1 5 0 0 0 1 0 1 hash 1 1: 5 1 0 1 hash
1 6 1 2 3 4 1 255: 6 16909060 511
1 7 0 0 0 1 1 255 0 2 65 66: 7 1 511 65 66
1 8 0 0 0 1: 8 1 0
1 4 0 0 0 1 0: 4 1 0
1 5 0 0 0 1 0 0 0: 5 1 0
1 7 0 0 0 1 1 255 0 0: 7 1 511";

#[test]
fn messages(rt: HostRuntime) -> Result<(), Fail> {
    for line in MESSAGES.lines() {
        let (bytes, wanted) = spelled::row(rt.alloc(), line)?;
        let (again, told) = read(rt.alloc(), &bytes)?;
        same(&rt, &again, &bytes, &line);
        same(&rt, &told, &wanted, &line);
    }
    Ok(())
}
