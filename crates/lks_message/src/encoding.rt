//! Messages to bytes.

ghost use Rattle.std.specs.Prelude.{◌≡◌, ◌≤◌, ◌++◌, length, OnOk, IfOk};
ghost use Rattle.lks_base.specs.declared.limits.TheConstants.{MOST_BLOCKS, MOST_BLOCK_BYTES, MOST_FORGED_BYTES};
ghost use Rattle.lks_base.specs.declared.limits.TheConstants.{MOST_NOMINEES, MOST_PROOF_BYTES};
ghost use Rattle.lks_message.specs.Spelling.{start, version_of, proof_bytes, spelling, IsWithin, IsSized};
ghost use Rattle.lks_message.specs.Reading.{decode_of};

use lks_base::{HashKind, Message, OutOfMemory};
use lks_field::{
    put_be16, put_be32, put_bytes, put_hashes, put_kind, put_numbers, put_sized, put_u8,
};
use std::alloc::Global;

type Written = Result<(), lks_field::OutOfMemory>;

fn put_start(out: &mut Vec<u8>, version: u8, tag: u8, number: u32) -> Written
    ensures { OnOk result (out.new.items ≡ out.old.items ++ start version tag number) }
{
    put_u8(out, version)?;
    put_u8(out, tag)?;
    put_be32(out, number)
}

fn put_proof(out: &mut Vec<u8>, proof: &[u8]) -> Written
    requires { length proof.now ≤ MOST_PROOF_BYTES }
    ensures { OnOk result (out.new.items ≡ out.old.items ++ proof_bytes proof.now) }
{
    put_u8(out, proof.len() as u8)?;
    put_bytes(out, proof)
}

fn version_byte(kind: HashKind) -> u8
    ensures { result ≡ version_of kind }
{
    match kind {
        HashKind::Sha256 => 1,
        HashKind::Sha512_256 => 2,
    }
}

#[tactic(auto, unfolding(crate::specs::Spelling::spelling))]
fn put_poll(out: &mut Vec<u8>, number: u32, au: u16) -> Written
    ensures spelled { OnOk result (out.new.items ≡ out.old.items ++ spelling (Message.Poll number au)) }
    ensures sized { IsSized (Message.Poll number au) }
{
    put_start(out, 1, 1, number)?;
    put_be16(out, au)
}

#[tactic(auto, unfolding(crate::specs::Spelling::spelling))]
fn put_challenge(out: &mut Vec<u8>, number: u32, yes: bool) -> Written
    ensures spelled { OnOk result (out.new.items ≡ out.old.items ++ spelling (Message.PollChallenge number yes)) }
    ensures sized { IsSized (Message.PollChallenge number yes) }
{
    put_start(out, 1, 2, number)?;
    put_u8(out, yes as u8)
}

#[tactic(auto, unfolding(crate::specs::Spelling::spelling))]
fn put_poll_proof(
    out: &mut Vec<u8>,
    number: u32,
    nonce: &[u8; 32],
    kind: HashKind,
    proof: &[u8],
) -> Written
    requires { length proof.now ≤ MOST_PROOF_BYTES }
    ensures spelled { OnOk result
        (out.new.items ≡ out.old.items ++ spelling (Message.PollProof number nonce.now kind proof.now)) }
    ensures sized { IsSized (Message.PollProof number nonce.now kind proof.now) }
{
    put_start(out, version_byte(kind), 3, number)?;
    put_bytes(out, nonce)?;
    put_kind(out, kind.second())?;
    put_proof(out, proof)
}

#[tactic(auto, unfolding(crate::specs::Spelling::spelling))]
fn put_nominate(out: &mut Vec<u8>, number: u32, nominees: &[u16]) -> Written
    requires { length nominees.now ≤ MOST_NOMINEES }
    ensures spelled { OnOk result (out.new.items ≡ out.old.items ++ spelling (Message.Nominate number nominees.now)) }
    ensures sized { IsSized (Message.Nominate number nominees.now) }
{
    put_start(out, 1, 4, number)?;
    put_numbers(out, nominees)
}

#[tactic(auto, unfolding(crate::specs::Spelling::spelling))]
fn put_vote(out: &mut Vec<u8>, number: u32, hashes: &[[u8; 32]], proof: &[u8]) -> Written
    requires hashes { length hashes.now ≤ MOST_BLOCKS }
    requires proof { length proof.now ≤ MOST_PROOF_BYTES }
    ensures spelled { OnOk result
        (out.new.items ≡ out.old.items ++ spelling (Message.Vote number hashes.now proof.now)) }
    ensures sized { IsSized (Message.Vote number hashes.now proof.now) }
{
    put_start(out, 1, 5, number)?;
    put_hashes(out, hashes)?;
    put_proof(out, proof)
}

#[tactic(auto, unfolding(crate::specs::Spelling::spelling))]
fn put_request(out: &mut Vec<u8>, number: u32, block: u16) -> Written
    ensures spelled { OnOk result (out.new.items ≡ out.old.items ++ spelling (Message.RepairRequest number block)) }
    ensures sized { IsSized (Message.RepairRequest number block) }
{
    put_start(out, 1, 6, number)?;
    put_be16(out, block)
}

#[tactic(auto, unfolding(crate::specs::Spelling::spelling))]
fn put_repair(out: &mut Vec<u8>, number: u32, block: u16, bytes: &[u8]) -> Written
    requires { length bytes.now ≤ MOST_BLOCK_BYTES }
    ensures spelled { OnOk result (out.new.items ≡ out.old.items ++ spelling (Message.Repair number block bytes.now)) }
    ensures sized { IsSized (Message.Repair number block bytes.now) }
{
    put_start(out, 1, 7, number)?;
    put_be16(out, block)?;
    put_sized(out, bytes)
}

#[tactic(auto, unfolding(crate::specs::Spelling::spelling))]
fn put_receipt(out: &mut Vec<u8>, number: u32) -> Written
    ensures spelled { OnOk result (out.new.items ≡ out.old.items ++ spelling (Message.Receipt number)) }
    ensures sized { IsSized (Message.Receipt number) }
{
    put_start(out, 1, 8, number)
}

fn put_message(out: &mut Vec<u8>, m: &Message) -> Written
    requires { IsWithin m.now }
    ensures spelled { OnOk result (out.new.items ≡ out.old.items ++ spelling m.now) }
    ensures sized { IsSized m.now }
{
    match m {
        Message::Poll { number, au } => put_poll(out, *number, *au),
        Message::PollChallenge { number, yes } => put_challenge(out, *number, *yes),
        Message::PollProof {
            number,
            nonce,
            kind,
            proof,
        } => { put_poll_proof(out, *number, nonce, *kind, proof.as_slice()) }
        Message::Nominate { number, nominees } => put_nominate(out, *number, nominees.as_slice()),
        Message::Vote {
            number,
            hashes,
            proof,
        } => { put_vote(out, *number, hashes.as_slice(), proof.as_slice()) }
        Message::RepairRequest { number, block } => put_request(out, *number, *block),
        Message::Repair {
            number,
            block,
            bytes,
        } => { put_repair(out, *number, *block, bytes.as_slice()) }
        Message::Receipt { number } => put_receipt(out, *number),
    }
}

/// The one spelling of the message.
pub fn encode(alloc: Global, m: &Message) -> Result<Vec<u8>, OutOfMemory>
    requires { IsWithin m.now }
    ensures spelled { IfOk result (λ v. v.items ≡ spelling m.now) }
    // The message is read again from it.
    ensures read { IfOk result (λ v. decode_of v.items ≡ Ok m.now) }
    ensures short { IfOk result (λ v. length v.items ≤ MOST_FORGED_BYTES) }
{
    let mut out = Vec::new(alloc);
    match put_message(&mut out, m) {
        Ok(()) => Ok(out),
        Err(_) => Err(OutOfMemory),
    }
}
