//! Sources and sinks over std's readers and writers. They tell nothing of the bytes, and are trusted.
ghost use Rattle.std.specs.Prelude.{◌≡◌, ◌<◌, ◌≤◌, ℕ, length, None, Ok, IfOk, IfErr, OnOk, OnErr};
ghost use Rattle.lks_outside.specs.Counts.{Rose, raised, count_after};

use crate::sinks::{Sink, SinkStop};
use crate::sources::{Failed, Source};
use std::io;
use std::io::{Read, Write};
use std::marker::Model;

/// A reader, and how often it failed. Contracts see the count.
#[derive(Drop)]
pub struct StdSource<R: Read + Drop> {
    reader: R,
    faults: u64,
}

impl<R: Read + Drop> Model for StdSource<R> {
    ghost Value = { ℕ };

    ghost view = { λ s. s.faults };
}

impl<R: Read + Drop> StdSource<R> {
    /// The bytes are those of the reader from here on.
    pub fn new(reader: R) -> Self
        ensures { result ≡ 0 }
    {
        StdSource { reader, faults: 0 }
    }
}

impl<R: Read + Drop> Source for StdSource<R> {
    ghost left = { λ _. None };

    ghost faults = { λ count. count };

    fn read(&mut self, buf: &mut [u8]) -> Result<usize, Failed>
        ensures within { IfOk result (λ n. n ≤ length buf.new) }
        ensures failed { OnErr result (Rose self.old self.new) }
        ensures count { self.old ≤ self.new }

        ensures ok { OnOk result (self.new ≡ self.old) }
        ensures err { OnErr result (self.new ≡ raised self.old) }
    {
        match self.reader.read(buf) {
            Ok(n) => Ok(n),
            Err(_) => {
                self.faults = self.faults.saturating_add(1);
                Err(Failed)
            }
        }
    }
}

/// A writer that is flushed after each write, and how often it failed. Contracts see the count.
#[derive(Drop)]
pub struct StdSink<W: Write + Drop> {
    writer: W,
    faults: u64,
}

impl<W: Write + Drop> Model for StdSink<W> {
    ghost Value = { ℕ };

    ghost view = { λ s. s.faults };
}

impl<W: Write + Drop> StdSink<W> {
    /// Writes behind what the writer has taken.
    pub fn new(writer: W) -> Self
        ensures { result ≡ 0 }
    {
        StdSink { writer, faults: 0 }
    }
}

impl<W: Write + Drop> Sink for StdSink<W> {
    ghost taken = { λ _. None };

    ghost faults = { λ count. count };

    fn write(&mut self, piece: &[u8]) -> Result<usize, SinkStop>
        ensures within { IfOk result (λ n. n ≤ length piece.now) }
        ensures failed { OnErr result (Rose self.old self.new) }
        ensures stuck { result ≡ Ok 0 → 0 < length piece.now → Rose self.old self.new }
        ensures count { self.old ≤ self.new }

        ensures ok { IfOk result (λ n. self.new ≡ count_after self.old piece.now n) }
        ensures err { IfErr result (λ e. (e ≡ SinkStop.Failed) × (self.new ≡ raised self.old)) }
    {
        match write_through(&mut self.writer, piece) {
            Ok(n) => {
                if n == 0 && !piece.is_empty() {
                    self.faults = self.faults.saturating_add(1);
                }
                Ok(n)
            }
            Err(_) => {
                self.faults = self.faults.saturating_add(1);
                Err(SinkStop::Failed)
            }
        }
    }
}

/// One write, and nothing of it stays in a buffer.
fn write_through<W: Write>(writer: &mut W, piece: &[u8]) -> io::Result<usize>
    ensures { IfOk result (λ n. n ≤ length piece.now) }
{
    let n = writer.write(piece)?;
    writer.flush()?;
    Ok(n)
}
