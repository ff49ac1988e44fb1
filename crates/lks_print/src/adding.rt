//! More words of a line, a space before each.

ghost use Rattle.std.specs.Prelude.{◌≡◌, ◌++◌, ◌∷◌, OnOk, map};
ghost use Rattle.std.specs.Fmt.{decimal};
ghost use Rattle.hex.specs.Hex.{encode_lower};
ghost use Rattle.lks_words.specs.Printing.{hex_or_hyphen, blocks_text, answer_text, kind_text};
ghost use Rattle.lks_words.specs.Steps.{spaced};

use lks_base::Blocks;
use lks_words::{
    put_answer, put_block, put_blocks, put_hex, put_ids, put_kind, put_number, put_text,
};
use std::alloc::{AllocError, Global};

/// Any word.
pub(crate) fn add_word(out: &mut Vec<u8>, word: &[u8]) -> Result<(), AllocError>
    ensures { OnOk result (out.new.items ≡ out.old.items ++ 32 ∷ word.now) }
{
    out.push(b' ')?;
    put_text(out, word)
}

/// A number in decimal.
pub(crate) fn add_number(alloc: Global, out: &mut Vec<u8>, n: u64) -> Result<(), AllocError>
    ensures { OnOk result (out.new.items ≡ out.old.items ++ 32 ∷ decimal n) }
{
    out.push(b' ')?;
    put_number(alloc, out, n)
}

/// Numbers of peers.
#[tactic(auto, using(crate::proofs::Spaced::ids_spaced))]
pub(crate) fn add_ids(alloc: Global, out: &mut Vec<u8>, ids: &[u16]) -> Result<(), AllocError>
    ensures { OnOk result (out.new.items ≡ out.old.items ++ spaced (map decimal ids.now)) }
{
    put_ids(alloc, out, ids)
}

/// What kind of peer is corrupt, or isn't.
pub(crate) fn add_kind(out: &mut Vec<u8>, corrupt: bool) -> Result<(), AllocError>
    ensures { OnOk result (out.new.items ≡ out.old.items ++ 32 ∷ kind_text corrupt) }
{
    out.push(b' ')?;
    put_kind(out, corrupt)
}

/// `yes` or `no`.
pub(crate) fn add_answer(out: &mut Vec<u8>, answer: bool) -> Result<(), AllocError>
    ensures { OnOk result (out.new.items ≡ out.old.items ++ 32 ∷ answer_text answer) }
{
    out.push(b' ')?;
    put_answer(out, answer)
}

/// A seed.
pub(crate) fn add_hex(alloc: Global, out: &mut Vec<u8>, bytes: &[u8]) -> Result<(), AllocError>
    ensures { OnOk result (out.new.items ≡ out.old.items ++ 32 ∷ encode_lower bytes.now) }
{
    out.push(b' ')?;
    put_hex(alloc, out, bytes)
}

/// A block, or other bytes that may be none.
pub(crate) fn add_block(alloc: Global, out: &mut Vec<u8>, bytes: &[u8]) -> Result<(), AllocError>
    ensures { OnOk result (out.new.items ≡ out.old.items ++ 32 ∷ hex_or_hyphen bytes.now) }
{
    out.push(b' ')?;
    put_block(alloc, out, bytes)
}

/// The blocks of a copy.
pub(crate) fn add_blocks(
    alloc: Global,
    out: &mut Vec<u8>,
    blocks: &Blocks,
) -> Result<(), AllocError>
    ensures { OnOk result (out.new.items ≡ out.old.items ++ 32 ∷ blocks_text blocks.now) }
{
    out.push(b' ')?;
    put_blocks(alloc, out, blocks.as_slice())
}
