//! A range of bytes, and what is put in its place.
ghost use Rattle.std.specs.Prelude.{◌≡◌, ◌+◌, ◌≤◌, length, OnOk, OnErr};
ghost use Rattle.lks_disk.specs.Device.{Holds};
ghost use Rattle.lks_disk.specs.Ranges.{counting, replaced, Fits};

use std::alloc::AllocError;

/// Writes over what is there, and past the end.
pub fn put(bytes: &mut Vec<u8>, at: usize, piece: &[u8]) -> Result<(), AllocError>
    requires { at ≤ length bytes.old.items }
    ensures ok { OnOk result (Holds bytes.old.items at piece.now bytes.new.items) }
    ensures err { OnErr result (bytes.new.items ≡ bytes.old.items) }
{
    let inside = piece.len().min(bytes.len() - at);
    let (front, back) = piece.split_at(inside);
    bytes.extend_from_slice(back)?;
    copy_over(bytes, at, front);
    Ok(())
}

/// Puts back what was there, and cuts off what wasn't.
pub fn restore(bytes: &mut Vec<u8>, at: usize, len: usize, over: &[u8])
    requires { Fits at len over.now bytes.old.items }
    ensures { bytes.new.items ≡ replaced at len over.now bytes.old.items }
{
    copy_over(bytes, at, over);
    if over.len() < len {
        bytes.truncate(at + over.len());
    }
}

/// Fills a range with bytes that count up.
pub fn garble(bytes: &mut [u8], at: usize, len: usize, choice: u64)
    requires { at + len ≤ length bytes.old }
    ensures { bytes.new ≡ replaced at len (counting choice len) bytes.old }
{
    let (_, tail) = bytes.split_at_mut(at);
    let (range, _) = tail.split_at_mut(len);
    count_up(range, choice);
}

fn count_up(range: &mut [u8], choice: u64)
    ensures { range.new ≡ counting choice (length range.old) }
{
    let start = choice % 256;
    for (i, byte) in range.iter_mut().enumerate() {
        *byte = ((start + i as u64) % 256) as u8;
    }
}

fn copy_over(bytes: &mut [u8], at: usize, piece: &[u8])
    requires { at + length piece.now ≤ length bytes.old }
    ensures { bytes.new ≡ replaced at (length piece.now) piece.now bytes.old }
{
    let (_, tail) = bytes.split_at_mut(at);
    let (range, _) = tail.split_at_mut(piece.len());
    range.copy_from_slice(piece);
}
