//! Writing fields.

ghost use Rattle.std.specs.Prelude.{◌≡◌, ◌<◌, ◌^◌, ◌++◌, ◌∷◌, [], length, is_ok, OnOk, if◌then◌else◌};
ghost use Rattle.std.specs.Int.{w16, w32, to_be_bytes};
ghost use Rattle.lks_field.specs.Spelling.{number_bytes, hash_bytes, kind_bytes, sized_bytes};

use crate::memory::OutOfMemory;

/// Appends a byte. Without memory `out` stays as it was, here and in the calls of one field below.
pub fn put_u8(out: &mut Vec<u8>, v: u8) -> Result<(), OutOfMemory>
    ensures { out.new.items ≡ (if is_ok result then out.old.items ++ v ∷ [] else out.old.items) }
{
    out.push(v)?;
    Ok(())
}

/// Appends a number as two bytes, the higher one first.
pub fn put_be16(out: &mut Vec<u8>, v: u16) -> Result<(), OutOfMemory>
    ensures { out.new.items ≡ (if is_ok result then out.old.items ++ to_be_bytes w16 v else out.old.items) }
{
    out.extend_from_slice(&v.to_be_bytes())?;
    Ok(())
}

/// Appends a number as four bytes, the highest one first.
pub fn put_be32(out: &mut Vec<u8>, v: u32) -> Result<(), OutOfMemory>
    ensures { out.new.items ≡ (if is_ok result then out.old.items ++ to_be_bytes w32 v else out.old.items) }
{
    out.extend_from_slice(&v.to_be_bytes())?;
    Ok(())
}

/// Appends bytes as they are, without their length.
pub fn put_bytes(out: &mut Vec<u8>, v: &[u8]) -> Result<(), OutOfMemory>
    ensures { out.new.items ≡ (if is_ok result then out.old.items ++ v.now else out.old.items) }
{
    out.extend_from_slice(v)?;
    Ok(())
}

/// Appends a byte for the second kind of hash, nothing for the first.
pub fn put_kind(out: &mut Vec<u8>, second: bool) -> Result<(), OutOfMemory>
    ensures { out.new.items ≡ (if is_ok result then out.old.items ++ kind_bytes second else out.old.items) }
{
    if second { put_u8(out, 2) } else { Ok(()) }
}

/// Appends bytes behind their length, a number of two bytes. Without memory some of it may stand behind `out`, here and
/// in the calls below.
pub fn put_sized(out: &mut Vec<u8>, v: &[u8]) -> Result<(), OutOfMemory>
    requires { length v.now < 2 ^ 16 }
    ensures { OnOk result (out.new.items ≡ out.old.items ++ sized_bytes v.now) }
{
    put_be16(out, v.len() as u16)?;
    put_bytes(out, v)
}

/// Appends hashes behind their count, a number of two bytes.
pub fn put_hashes(out: &mut Vec<u8>, hashes: &[[u8; 32]]) -> Result<(), OutOfMemory>
    requires { length hashes.now < 2 ^ 16 }
    ensures { OnOk result (out.new.items ≡ out.old.items ++ hash_bytes hashes.now) }
{
    put_be16(out, hashes.len() as u16)?;
    for hash in hashes {
        put_bytes(out, hash)?;
    }
    Ok(())
}

/// Appends numbers of two bytes each, behind their count, a byte.
pub fn put_numbers(out: &mut Vec<u8>, numbers: &[u16]) -> Result<(), OutOfMemory>
    requires { length numbers.now < 2 ^ 8 }
    ensures { OnOk result (out.new.items ≡ out.old.items ++ number_bytes numbers.now) }
{
    put_u8(out, numbers.len() as u8)?;
    for number in numbers {
        put_be16(out, *number)?;
    }
    Ok(())
}
