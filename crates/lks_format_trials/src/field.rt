//! Fields written and read again, and reads that are refused.

use crate::same::same;
use lks_field::{
    FieldFault, Fields, put_be16, put_be32, put_bytes, put_hashes, put_numbers, put_sized, put_u8,
};
use std::alloc::Global;
use std::test::Fail;

const BYTES: &[u8] = &[7, 1, 2, 1, 2, 3, 4, 9, 8, 0];

#[derive(Clone, Copy)]
enum Read {
    Byte,
    Short,
    Long,
    Bytes(usize),
    Hash,
    Upto(u16),
    ByteUpto(u8),
    Given(u8),
    Finish,
}

/// The number that is read, or 0 where a read gives none.
fn answer(fields: &mut Fields<'_>, read: Read) -> Result<u32, FieldFault> {
    match read {
        Read::Byte => fields.get_u8().map(|v| u32::from(v)),
        Read::Short => fields.get_be16().map(|v| u32::from(v)),
        Read::Long => fields.get_be32(),
        Read::Bytes(n) => fields.get_bytes(n).map(|_| 0),
        Read::Hash => fields.get_hash().map(|_| 0),
        Read::Upto(most) => fields.get_upto(most).map(|v| u32::from(v)),
        Read::ByteUpto(most) => fields.get_u8_upto(most).map(|v| u32::from(v)),
        Read::Given(given) => fields.get_given(given).map(|()| 0),
        Read::Finish => fields.finish().map(|()| 0),
    }
}

const READS: [(Read, Result<u32, FieldFault>); 11] = [
    (Read::Byte, Ok(7)),
    (Read::Short, Ok(0x0102)),
    (Read::Long, Ok(0x0102_0304)),
    (Read::Finish, Err(FieldFault::Long)),
    (Read::Bytes(4), Err(FieldFault::Short)),
    (Read::Hash, Err(FieldFault::Short)),
    (Read::Upto(0x0907), Err(FieldFault::Value)),
    (Read::Short, Err(FieldFault::Short)),
    (Read::Byte, Ok(0)),
    (Read::Byte, Err(FieldFault::Short)),
    (Read::Finish, Ok(0)),
];

#[test]
fn reads(rt: HostRuntime) {
    let mut fields = Fields::new(BYTES);
    for (at, (read, wanted)) in READS.iter().enumerate() {
        same(&rt, &answer(&mut fields, *read), wanted, &at);
    }
}

const FIRST_READS: [(&[u8], Read, Result<u32, FieldFault>); 5] = [
    (&[1, 255], Read::Upto(511), Ok(511)),
    (&[7], Read::ByteUpto(7), Ok(7)),
    (&[7], Read::ByteUpto(6), Err(FieldFault::Value)),
    (&[7], Read::Given(7), Ok(0)),
    (&[7], Read::Given(6), Err(FieldFault::Value)),
];

#[test]
fn first_reads(rt: HostRuntime) {
    for (at, (bytes, read, wanted)) in FIRST_READS.iter().enumerate() {
        same(&rt, &answer(&mut Fields::new(bytes), *read), wanted, &at);
    }
    same(
        &rt,
        &Fields::new(&[5; 32]).get_hash(),
        &Ok([5; 32]),
        &"Fields::new(&[5; 32]).get_hash()",
    );
}

fn written(alloc: Global) -> Result<Vec<u8>, lks_field::OutOfMemory> {
    let mut out = Vec::new(alloc);
    put_u8(&mut out, 7)?;
    put_be16(&mut out, 0x0102)?;
    put_be32(&mut out, 0x0102_0304)?;
    put_bytes(&mut out, &[9, 8, 0])?;
    Ok(out)
}

#[test]
fn writes(rt: HostRuntime) -> Result<(), Fail> {
    let out = written(rt.alloc()).ok().ok_or("memory")?;
    same(&rt, &out.as_slice(), &BYTES, &"out");
    Ok(())
}

fn lists_written(alloc: Global) -> Result<Vec<u8>, lks_field::OutOfMemory> {
    let mut out = Vec::new(alloc);
    put_numbers(&mut out, &[3, 772])?;
    put_hashes(&mut out, &[[5; 32]])?;
    put_sized(&mut out, &[65, 66])?;
    Ok(out)
}

#[test]
fn lists(rt: HostRuntime) -> Result<(), Fail> {
    let out = lists_written(rt.alloc()).ok().ok_or("memory")?;
    assert!(rt; out.as_slice().starts_with(&[2, 0, 3, 3, 4, 0, 1, 5]));
    assert!(rt; out.as_slice().ends_with(&[5, 0, 2, 65, 66]));
    let mut fields = Fields::new(out.as_slice());
    let numbers = fields.get_numbers(rt.alloc(), 2).ok().ok_or("numbers")?;
    same(&rt, &numbers.as_slice(), &[3, 772].as_slice(), &"numbers");
    let hashes = fields.get_hashes(rt.alloc(), 1).ok().ok_or("hashes")?;
    same(
        &rt,
        &hashes.as_slice(),
        &[[5; 32]].as_slice(),
        &"hashes.as_slice()",
    );
    let bytes = fields.get_sized(rt.alloc(), 2).ok().ok_or("bytes")?;
    same(&rt, &bytes.as_slice(), &[65, 66].as_slice(), &"bytes");
    same(&rt, &fields.finish(), &Ok(()), &"fields.finish");
    Ok(())
}

#[test]
fn lists_refused(rt: HostRuntime) {
    let sized = Fields::new(&[0, 3, 1, 2]).get_sized(rt.alloc(), 2);
    same(&rt, &sized.err(), &Some(FieldFault::Value), &"sized.err");
    let sized = Fields::new(&[0, 3, 1, 2]).get_sized(rt.alloc(), 3);
    same(&rt, &sized.err(), &Some(FieldFault::Short), &"sized.err");
    let hashes = Fields::new(&[0, 1, 7]).get_hashes(rt.alloc(), 1);
    same(&rt, &hashes.err(), &Some(FieldFault::Short), &"hashes.err");
    let numbers = Fields::new(&[3, 0, 1]).get_numbers(rt.alloc(), 2);
    same(
        &rt,
        &numbers.err(),
        &Some(FieldFault::Value),
        &"numbers.err",
    );
}
