//! Calls that fail, narrow pieces, and std underneath.

use crate::same::same;
use lks_outside::{
    Failed, MemSink, MemSource, ReadStop, Sink, SinkStop, Source, StdSink, StdSource, WriteStop,
    read_all, write_all,
};
use std::alloc::{AllocError, Global};
use std::io;
use std::io::{Error, ErrorKind, Read, Write};
use std::process::Abort;
use std::test::Fail;

const TEXT: &[u8] = b"lots of copies";

/// A source in memory that gives so many bytes a call (0: any number).
fn source(
    alloc: Global,
    bytes: &[u8],
    fail: &[u32],
    width: usize,
) -> Result<MemSource, AllocError> {
    let bytes = bytes.to_vec(alloc)?;
    let fail = fail.to_vec(alloc)?;
    if width == 0 {
        return Ok(MemSource::new(alloc, bytes, fail));
    }
    Ok(MemSource::narrow(alloc, bytes, fail, width))
}

/// Whether the whole text is read, or why not.
fn reads_text(alloc: Global, fail: &[u32], width: usize, most: usize) -> Result<bool, ReadStop> {
    let mut source = source(alloc, TEXT, fail, width)?;
    let bytes = read_all(alloc, &mut source, most)?;
    Ok(bytes.as_slice() == TEXT)
}

/// The calls that fail, bytes a call (0: any number), bytes allowed, and whether the text is read.
const READS: [(&[u32], usize, usize, Result<bool, ReadStop>); 11] = [
    (&[], 0, 14, Ok(true)),
    (&[], 1, 14, Ok(true)),
    (&[], 3, usize::MAX, Ok(true)),
    (&[3], 0, 14, Ok(true)),
    (&[], 0, 13, Err(ReadStop::TooLong)),
    (&[], 5, 0, Err(ReadStop::TooLong)),
    (&[1], 0, 14, Err(ReadStop::Failed)),
    (&[2], 0, 14, Err(ReadStop::Failed)),
    (&[9, 3], 5, 14, Err(ReadStop::Failed)),
    (&[15], 1, 14, Err(ReadStop::Failed)),
    (&[16], 1, 14, Ok(true)),
];

#[test]
fn reads_to_the_end(rt: HostRuntime) {
    for (fail, width, most, wanted) in READS.iter() {
        let answer = reads_text(rt.alloc(), fail, *width, *most);
        same(&rt, &answer, wanted, &(width, most));
    }
}

#[test]
fn reads_nothing(rt: HostRuntime) -> Result<(), Fail> {
    let mut empty = source(rt.alloc(), b"", &[], 0)?;
    same(
        &rt,
        &read_all(rt.alloc(), &mut empty, 0)?.len(),
        &0,
        &"read_all",
    );
    Ok(())
}

#[test]
fn reads_much(rt: HostRuntime) -> Result<(), Fail> {
    let alloc = rt.alloc();
    // More than is asked for at once, in pieces of another size.
    let bytes = vec![in alloc; 7u8; 10000]?;
    let mut long = source(alloc, bytes.as_slice(), &[], 4095)?;
    same(
        &rt,
        &read_all(alloc, &mut long, 9995),
        &Err(ReadStop::TooLong),
        &"read_all",
    );
    let rest = read_all(alloc, &mut long, 9995)?;
    same(
        &rt,
        &rest.as_slice(),
        &b"\x07\x07\x07\x07".as_slice(),
        &"rest",
    );
    Ok(())
}

/// The room of each read, its answer, and the buffer after it.
const ONE_BY_ONE: [(usize, Result<usize, Failed>, &[u8]); 4] = [
    (8, Ok(5), b"lots ..."),
    (8, Err(Failed), b"lots ..."),
    (2, Ok(2), b"ofts ..."),
    (0, Ok(0), b"ofts ..."),
];

#[test]
fn reads_once(rt: HostRuntime) -> Result<(), Fail> {
    let mut source = source(rt.alloc(), TEXT, &[2], 5)?;
    let mut buf = *b"........";
    for (room, answer, after) in ONE_BY_ONE.iter() {
        let room = (*room).min(buf.len());
        same(&rt, &source.read(&mut buf[..room]), answer, &"source.read");
        same(&rt, &buf.as_slice(), after, &"buf");
    }
    Ok(())
}

/// The calls that fail, bytes a call, how many bytes go out of the text, and the answer.
const WRITES: [(&[u32], usize, usize, Result<(), WriteStop>); 8] = [
    (&[], usize::MAX, 14, Ok(())),
    (&[], 1, 14, Ok(())),
    (&[4], 5, 14, Ok(())),
    (&[1], usize::MAX, 0, Err(WriteStop::Failed)),
    (&[2], 5, 5, Err(WriteStop::Failed)),
    (&[14, 20], 1, 13, Err(WriteStop::Failed)),
    (&[], 0, 0, Err(WriteStop::Failed)),
    (&[2], 0, 0, Err(WriteStop::Failed)),
];

/// Writes the text, of which so many bytes go out, and then nothing.
fn write_text(rt: &impl Abort, sink: &mut MemSink, out: usize, answer: Result<(), WriteStop>) {
    same(rt, &write_all(sink, TEXT), &answer, &"write_all");
    same(rt, &Some(sink.bytes()), &TEXT.get(..out), &"sink.bytes");
    same(rt, &write_all(sink, b""), &Ok(()), &"write_all");
}

#[test]
fn writes_the_piece(rt: HostRuntime) -> Result<(), Fail> {
    let alloc = rt.alloc();
    for (fail, width, out, answer) in WRITES.iter() {
        let mut sink = MemSink::narrow(alloc, fail.to_vec(alloc)?, *width);
        write_text(&rt, &mut sink, *out, *answer);
    }
    Ok(())
}

#[test]
fn writes_twice(rt: HostRuntime) -> Result<(), Fail> {
    let alloc = rt.alloc();
    let mut sink = MemSink::new(alloc, [2].to_vec(alloc)?);
    same(&rt, &sink.write(b"lots "), &Ok(5), &"sink.write");
    same(
        &rt,
        &sink.write(b"of "),
        &Err(SinkStop::Failed),
        &"sink.write",
    );
    same(&rt, &sink.write(b"copies"), &Ok(6), &"sink.write");
    same(
        &rt,
        &sink.bytes(),
        &b"lots copies".as_slice(),
        &"sink.bytes",
    );
    Ok(())
}

#[derive(Drop)]
struct Broken;

impl Read for Broken {
    fn read(&mut self, _buf: &mut [u8]) -> io::Result<usize> {
        Err(Error::from(ErrorKind::BrokenPipe))
    }
}

/// Shows what it took only once it is flushed.
#[derive(Drop)]
struct Late {
    held: Vec<u8>,
    shown: Vec<u8>,
}

impl Write for Late {
    fn write(&mut self, buf: &[u8]) -> io::Result<usize> {
        self.held.extend_from_slice(buf)?;
        Ok(buf.len())
    }

    fn flush(&mut self) -> io::Result<()> {
        self.shown.extend_from_slice(&self.held)?;
        self.held.clear();
        Ok(())
    }
}

#[test]
fn reads_of_std(rt: HostRuntime) -> Result<(), Fail> {
    let mut source = StdSource::new(TEXT);
    same(
        &rt,
        &read_all(rt.alloc(), &mut source, 14)?.as_slice(),
        &TEXT,
        &"read_all",
    );
    Ok(())
}

#[test]
fn reads_of_a_broken_reader(rt: HostRuntime) {
    let mut broken = StdSource::new(Broken);
    same(
        &rt,
        &read_all(rt.alloc(), &mut broken, 14),
        &Err(ReadStop::Failed),
        &"read_all",
    );
}

#[test]
fn writes_to_std(rt: HostRuntime) {
    let mut out = Vec::new(rt.alloc());
    same(
        &rt,
        &write_all(&mut StdSink::new(&mut out), TEXT),
        &Ok(()),
        &"write_all",
    );
    same(&rt, &out.as_slice(), &TEXT, &"out");
}

#[test]
fn writes_into_room(rt: HostRuntime) {
    // A writer with no room left answers 0.
    let mut room = [0; 4];
    let answer = write_all(&mut StdSink::new(room.as_mut_slice()), TEXT);
    same(&rt, &answer, &Err(WriteStop::Failed), &"answer");
    same(&rt, &room.as_slice(), &b"lots".as_slice(), &"room");
}

#[test]
fn holds_nothing_back(rt: HostRuntime) {
    let mut late = Late {
        held: Vec::new(rt.alloc()),
        shown: Vec::new(rt.alloc()),
    };
    same(
        &rt,
        &write_all(&mut StdSink::new(&mut late), TEXT),
        &Ok(()),
        &"write_all",
    );
    same(&rt, &late.shown.as_slice(), &TEXT, &"late.shown");
}
