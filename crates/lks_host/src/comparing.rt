//! Whether a batch is what a peer added.

ghost use Rattle.std.specs.Prelude.{◌≡◌, ◌↔◌, All, IfOk, IsTrue, Ok as Fine, map};
ghost use Rattle.lks_law.specs.Facts.{limits_left, unnumbered};
ghost use Rattle.lks_record.specs.Reading.{decode_of};
ghost use Rattle.lks_record.specs.Spelling.{batch_spelling, IsCounted, IsWithin};
ghost use Rattle.lks_host.specs.Adding.{IsAdded, Spells};
ghost use Rattle.lks_host.specs.Fits.{FitsBatch};

use lks_base::{HashKind, Limits, OutOfMemory, Record};
use lks_record::encode_batch;
use std::alloc::Global;

/// The limits that an opening was written with before numbers could be tuned.
fn limits_of(kind: HashKind, limits: Option<Limits>) -> Option<Limits>
    ensures { result ≡ limits_left kind limits }
{
    match kind {
        HashKind::Sha256 => None,
        HashKind::Sha512_256 => limits,
    }
}

/// Makes the record what it was written as before numbers could be tuned.
fn unnumber(r: &mut Record)
    ensures { r.new ≡ unnumbered r.old }
{
    let lacking = if let Record::PollOpened { limits, kind, .. } = &*r {
        limits_of(*kind, *limits)
    } else {
        None
    };
    match r {
        Record::PollOpened { limits, .. } => *limits = lacking,
        Record::Joined { repairs, .. } => *repairs = None,
        Record::Deposit { .. }
        | Record::Nominated { .. }
        | Record::OuterOpened { .. }
        | Record::VoteIn { .. }
        | Record::Shut { .. }
        | Record::Asked { .. }
        | Record::RepairBad { .. }
        | Record::Replaced { .. }
        | Record::Closed { .. }
        | Record::Overdue { .. }
        | Record::Committed { .. }
        | Record::Voted { .. }
        | Record::Served { .. }
        | Record::Ended { .. }
        | Record::Tuned { .. } => {}
    }
}

fn unnumber_all(records: &mut [Record])
    ensures { records.new ≡ map unnumbered records.old }
{
    for r in records.iter_mut() {
        unnumber(r);
    }
}

/// Whether the bytes of the batch spell these records.
fn is_spelled(
    alloc: Global,
    records: &[Record],
    batch: &[Record],
    body: &[u8],
) -> Result<bool, OutOfMemory>
    requires count { IsCounted records.now }
    requires within { All IsWithin records.now }
    requires read { decode_of body.now ≡ Fine batch.now }
    requires spelled { body.now ≡ batch_spelling batch.now }
    ensures { IfOk result (λ same. IsTrue same ↔ (batch.now ≡ records.now)) }
{
    let bytes = encode_batch(alloc, records)?;
    Ok(body == bytes.as_slice())
}

/// Whether the batch, which has a record, is these records, or these without their numbers where nothing was tuned.
pub fn is_added(
    alloc: Global,
    tuned: bool,
    records: &mut [Record],
    batch: &[Record],
    body: &[u8],
) -> Result<bool, OutOfMemory>
    requires fits { FitsBatch records.old }
    requires spells { Spells body.now batch.now }
    ensures { IfOk result (λ added. IsTrue added ↔ IsAdded tuned records.old batch.now) }
{
    if records.is_empty() {
        return Ok(false);
    }
    if is_spelled(alloc, records, batch, body)? {
        return Ok(true);
    }
    if tuned {
        return Ok(false);
    }
    unnumber_all(records);
    is_spelled(alloc, records, batch, body)
}
