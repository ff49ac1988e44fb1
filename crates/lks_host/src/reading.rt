//! Batches from a journal.

ghost use Rattle.std.specs.Prelude.{◌≡◌, List, IfOk};
ghost use Rattle.lks_base.specs.declared.records.Record.{Record as Recorded};
ghost use Rattle.lks_host.specs.Bodies.{records_of, last_of, last_batch, bodies_of, AreRead};
ghost use Rattle.lks_law.specs.Batches.{together};
ghost use Rattle.lks_record.specs.Reading.{Gives};

use lks_base::{Bytes, OutOfMemory, Record, Seq};
use lks_record::{RecFault, decode_batch};
use std::alloc::Global;

/// The records of the batches that these bodies spell.
fn read_batches(alloc: Global, bodies: &[Bytes]) -> Result<Vec<Record>, RecFault>
    ensures { Gives (λ list. list.items) result (records_of bodies.now) }
{
    let mut list = Vec::new(alloc);
    for body in bodies {
        let mut batch = decode_batch(alloc, body.as_slice())?;
        list.append(&mut batch)?;
    }
    Ok(list)
}

/// The records of the last batch.
#[tactic(auto, unfolding(crate::specs::Bodies::last_of))]
fn read_last(alloc: Global, bodies: &[Bytes]) -> Result<Vec<Record>, RecFault>
    ensures { Gives (λ list. list.items) result (last_of bodies.now) }
{
    match bodies.last() {
        Some(body) => decode_batch(alloc, body.as_slice()),
        None => Ok(Vec::new(alloc)),
    }
}

/// What is said of batches that were written, and weren't read.
fn unread(fault: RecFault) -> OutOfMemory
    requires { fault ≡ RecFault.Memory }
{
    match fault {
        RecFault::Memory => OutOfMemory,
        RecFault::Short | RecFault::Form | RecFault::Tag | RecFault::Limit | RecFault::Trailing =>
            unreachable!(),
    }
}

/// The records of the batches that a journal holds, and those of the last one.
pub fn read_journal(
    alloc: Global,
    bodies: &[Bytes],
) -> Result<(Vec<Record>, Seq<Record>), OutOfMemory>
    requires written { (batches : List (List Recorded)) × (bodies.now ≡ bodies_of batches) × AreRead batches }
    ensures all { (batches : List (List Recorded)) → bodies.now ≡ bodies_of batches → AreRead batches
        → IfOk result (λ p. p.0.items ≡ together batches) }
    ensures last { (batches : List (List Recorded)) → bodies.now ≡ bodies_of batches → AreRead batches
        → IfOk result (λ p. p.1 ≡ last_batch batches) }
{
    let list = match read_batches(alloc, bodies) {
        Ok(list) => list,
        Err(fault) => return Err(unread(fault)),
    };
    match read_last(alloc, bodies) {
        Ok(last) => Ok((list, Seq::from_vec(last))),
        Err(fault) => Err(unread(fault)),
    }
}
