//! How values are printed.

ghost use Rattle.std.specs.Prelude.{◌≡◌, ◌++◌, OnOk};
ghost use Rattle.std.specs.Fmt.{decimal};
ghost use Rattle.hex.specs.Hex.{encode_lower};
ghost use Rattle.lks_words.specs.Printing.{behind, hex_or_hyphen, blocks_text, answer_text, kind_text, hash_text};

use lks_base::{Bytes, HashKind};
use std::alloc::{AllocError, Global};

/// Any text.
pub fn put_text(out: &mut Vec<u8>, text: &[u8]) -> Result<(), AllocError>
    ensures { OnOk result (out.new.items ≡ out.old.items ++ text.now) }
{
    out.extend_from_slice(text)
}

/// A number in decimal.
pub fn put_number(alloc: Global, out: &mut Vec<u8>, n: u64) -> Result<(), AllocError>
    ensures { OnOk result (out.new.items ≡ out.old.items ++ decimal n) }
{
    let text = n.to_string(alloc)?;
    out.extend_from_slice(text.as_bytes())
}

/// Numbers of peers, a space before each.
pub fn put_ids(alloc: Global, out: &mut Vec<u8>, ids: &[u16]) -> Result<(), AllocError>
    ensures { OnOk result (out.new.items ≡ out.old.items ++ behind 32 decimal ids.now) }
{
    for id in ids {
        out.push(b' ')?;
        put_number(alloc, out, u64::from(*id))?;
    }
    Ok(())
}

/// Bytes in lower-case hex: a seed.
pub fn put_hex(alloc: Global, out: &mut Vec<u8>, bytes: &[u8]) -> Result<(), AllocError>
    ensures { OnOk result (out.new.items ≡ out.old.items ++ encode_lower bytes.now) }
{
    let text = hex::encode(alloc, bytes)?;
    out.extend_from_slice(text.as_bytes())
}

/// Bytes in lower-case hex, none as a hyphen: a block, a proof of effort, or a forged message.
pub fn put_block(alloc: Global, out: &mut Vec<u8>, bytes: &[u8]) -> Result<(), AllocError>
    ensures { OnOk result (out.new.items ≡ out.old.items ++ hex_or_hyphen bytes.now) }
{
    match bytes {
        [] => out.push(b'-').map_err(|_| AllocError),
        [_, ..] => put_hex(alloc, out, bytes),
    }
}

fn put_rest(alloc: Global, out: &mut Vec<u8>, blocks: &[Bytes]) -> Result<(), AllocError>
    ensures { OnOk result (out.new.items ≡ out.old.items ++ behind 44 hex_or_hyphen blocks.now) }
{
    for block in blocks {
        out.push(b',')?;
        put_block(alloc, out, block.as_slice())?;
    }
    Ok(())
}

/// Blocks, parted by commas.
#[tactic(auto, unfolding(crate::specs::Printing::blocks_text))]
pub fn put_blocks(alloc: Global, out: &mut Vec<u8>, blocks: &[Bytes]) -> Result<(), AllocError>
    ensures { OnOk result (out.new.items ≡ out.old.items ++ blocks_text blocks.now) }
{
    let [first, rest @ ..] = blocks else {
        return Ok(());
    };
    put_block(alloc, out, first.as_slice())?;
    put_rest(alloc, out, rest)
}

/// `yes` or `no`.
#[tactic(auto, unfolding(crate::specs::Printing::answer_text))]
pub fn put_answer(out: &mut Vec<u8>, answer: bool) -> Result<(), AllocError>
    ensures { OnOk result (out.new.items ≡ out.old.items ++ answer_text answer) }
{
    if answer {
        put_text(out, b"yes")
    } else {
        put_text(out, b"no")
    }
}

/// `corrupt` or `honest`.
#[tactic(auto, unfolding(crate::specs::Printing::kind_text))]
pub fn put_kind(out: &mut Vec<u8>, corrupt: bool) -> Result<(), AllocError>
    ensures { OnOk result (out.new.items ≡ out.old.items ++ kind_text corrupt) }
{
    if corrupt {
        put_text(out, b"corrupt")
    } else {
        put_text(out, b"honest")
    }
}

/// `sha256` or `sha512-256`.
#[tactic(auto, unfolding(crate::specs::Printing::hash_text))]
pub fn put_hash(out: &mut Vec<u8>, hash: HashKind) -> Result<(), AllocError>
    ensures { OnOk result (out.new.items ≡ out.old.items ++ hash_text hash) }
{
    match hash {
        HashKind::Sha256 => put_text(out, b"sha256"),
        HashKind::Sha512_256 => put_text(out, b"sha512-256"),
    }
}
