//! Writing the fields that records share.

ghost use Rattle.std.specs.Prelude.{◌≡◌, ◌≤◌, ◌++◌, ◌∷◌, length, OnOk, All};
ghost use Rattle.std.specs.Int.{w16, to_be_bytes};
ghost use Rattle.lks_base.specs.declared.limits.TheConstants.{MOST_BLOCKS, MOST_BLOCK_BYTES};
ghost use Rattle.lks_record.specs.Spelling.{start, block_bytes, flag_bytes, poll_bytes, limit_bytes, optional};
ghost use Rattle.lks_record.specs.Spelling.{outcome_bytes};

use lks_base::{Bytes, Limits, Outcome, PollName};
use lks_field::{put_be16, put_be32, put_sized, put_u8};

pub type Written = Result<(), lks_field::OutOfMemory>;

/// The form byte and the tag byte.
pub fn put_start(out: &mut Vec<u8>, form: u8, tag: u8) -> Written
    ensures { OnOk result (out.new.items ≡ out.old.items ++ start form tag) }
{
    put_u8(out, form)?;
    put_u8(out, tag)
}

/// Blocks behind their count.
pub fn put_blocks(out: &mut Vec<u8>, blocks: &[Bytes]) -> Written
    requires count { length blocks.now ≤ MOST_BLOCKS }
    requires lengths { All (λ b. length b ≤ MOST_BLOCK_BYTES) blocks.now }
    ensures { OnOk result (out.new.items ≡ out.old.items ++ block_bytes blocks.now) }
{
    put_be16(out, blocks.len() as u16)?;
    for block in blocks {
        put_sized(out, block.as_slice())?;
    }
    Ok(())
}

#[tactic(auto, unfolding(crate::specs::Spelling::poll_bytes))]
pub fn put_poll(out: &mut Vec<u8>, poll: PollName) -> Written
    ensures { OnOk result (out.new.items ≡ out.old.items ++ poll_bytes poll) }
{
    put_be16(out, poll.poller)?;
    put_be32(out, poll.number)
}

pub fn put_limits(out: &mut Vec<u8>, limits: Limits) -> Written
    ensures { OnOk result (out.new.items ≡ out.old.items ++ limit_bytes limits) }
{
    put_be16(out, limits.quorum)?;
    put_be16(out, limits.minority)
}

/// Limits, or nothing.
pub fn put_optional_limits(out: &mut Vec<u8>, limits: Option<Limits>) -> Written
    ensures { OnOk result (out.new.items ≡ out.old.items ++ optional limit_bytes limits) }
{
    match limits {
        None => Ok(()),
        Some(limits) => put_limits(out, limits),
    }
}

/// Repairs, or nothing.
pub fn put_optional_repairs(out: &mut Vec<u8>, repairs: Option<u16>) -> Written
    ensures { OnOk result (out.new.items ≡ out.old.items ++ optional (to_be_bytes w16) repairs) }
{
    match repairs {
        None => Ok(()),
        Some(repairs) => put_be16(out, repairs),
    }
}

pub fn put_flag(out: &mut Vec<u8>, flag: bool) -> Written
    ensures { OnOk result (out.new.items ≡ out.old.items ++ flag_bytes flag) }
{
    put_u8(out, flag as u8)
}

fn put_coded(out: &mut Vec<u8>, code: u8, block: u16) -> Written
    ensures { OnOk result (out.new.items ≡ out.old.items ++ code ∷ to_be_bytes w16 block) }
{
    put_u8(out, code)?;
    put_be16(out, block)
}

/// A code, and a block or 0.
pub fn put_outcome(out: &mut Vec<u8>, outcome: Outcome) -> Written
    ensures { OnOk result (out.new.items ≡ out.old.items ++ outcome_bytes outcome) }
{
    match outcome {
        Outcome::Agreed => put_coded(out, 0, 0),
        Outcome::Inquorate => put_coded(out, 1, 0),
        Outcome::Split { block } => put_coded(out, 2, block),
        Outcome::NoSupplier { block } => put_coded(out, 3, block),
    }
}
