//! Files of the operating system as stores. They tell nothing of the bytes, and are trusted.
ghost use Rattle.std.specs.Prelude.{◌≡◌, ◌≤◌, ℕ, [], length, IfOk};
ghost use Rattle.lks_disk.specs.Device.{HasCause};
ghost use Rattle.lks_disk.specs.declared.disks.DiskFail.TheVariants as failing;
ghost use Rattle.lks_store.specs.Files.{counted, file_face, IsToldAs};

use crate::openers::{OpenStop, Opener};
use lks_disk::{Disk, DiskFail};
use std::fs::{File, Files, OpenOptions};
use std::io;
use std::marker::Model;
use std::os::unix::fs::FileExt;
use std::path::Path;

/// An open file, and how often it failed. Contracts see the count.
#[derive(Drop)]
pub struct FileDisk {
    file: File,
    faults: u64,
}

impl Model for FileDisk {
    ghost Value = { ℕ };

    ghost view = { λ d. d.faults };
}

impl FileDisk {
    /// Counts a fault where the system failed.
    fn answer<T>(&mut self, outcome: io::Result<T>) -> Result<T, DiskFail>
        ensures answer { IsToldAs outcome failing.Failed result }
        ensures after { self.new ≡ counted self.old outcome }
        ensures cause { HasCause self.old self.new result }
    {
        match outcome {
            Ok(value) => Ok(value),
            Err(_) => {
                self.faults = self.faults.saturating_add(1);
                Err(DiskFail::Failed)
            }
        }
    }
}

impl Disk for FileDisk {
    ghost face = { file_face };

    ghost counts_now = { λ d t c told le now. absurd told };

    ghost only_now = { λ d c told left. absurd told };

    ghost seen_is_left = { λ d told. absurd told };

    ghost burned_out = { λ d burned. absurd cc };

    fn len(&mut self) -> Result<u64, DiskFail> {
        let outcome = length_of(&self.file);
        self.answer(outcome)
    }

    fn read_at(&mut self, at: u64, buf: &mut [u8]) -> Result<usize, DiskFail> {
        let outcome = fill(&self.file, at, buf);
        self.answer(outcome)
    }

    fn write_at(&mut self, at: u64, piece: &[u8]) -> Result<(), DiskFail> {
        let outcome = self.file.write_all_at(piece, at);
        self.answer(outcome)
    }

    fn sync(&mut self) -> Result<(), DiskFail> {
        let outcome = self.file.sync_all();
        self.answer(outcome)
    }
}

fn length_of(file: &File) -> io::Result<u64> {
    Ok(file.metadata()?.len())
}

/// Reads from an offset on, until the buffer is full or the file ends.
fn fill(file: &File, at: u64, buf: &mut [u8]) -> io::Result<usize>
    ensures { IfOk result (λ n. n ≤ length buf.new) }
{
    let mut done = 0;
    'turns: while done < buf.len() {
        let n = file.read_at(&mut buf[done..], at.saturating_add(done as u64))?;
        if n == 0 {
            break;
        }
        done += n;
    }
    Ok(done)
}

/// Opens files of a file system by their paths, and counts how often that failed.
#[derive(Drop)]
pub struct FileOpener<R: Files<File = File> + Drop> {
    rt: R,
    faults: u64,
}

impl<R: Files<File = File> + Drop> Model for FileOpener<R> {
    ghost Value = { ℕ };

    ghost view = { λ o. o.faults };
}

impl<R: Files<File = File> + Drop> FileOpener<R> {
    pub fn new(rt: R) -> Self
        ensures { result ≡ 0 }
    {
        FileOpener { rt, faults: 0 }
    }
}

impl<R: Files<File = File> + Drop> Opener for FileOpener<R> {
    type Store = FileDisk;

    ghost faults = { λ count. count };

    ghost tells = { λ _. ⊥ };

    ghost content = { λ _. [] };

    ghost store_faults = { λ _. 0 };

    /// The file at this path, which is made where there is none, and never cut. It is locked until it is dropped, so
    /// that a second opening fails.
    fn open_store(&mut self, path: &str) -> Result<FileDisk, OpenStop> {
        match open_locked(&self.rt, path) {
            Ok(file) => Ok(FileDisk { file, faults: 0 }),
            Err(_) => {
                self.faults = self.faults.saturating_add(1);
                Err(OpenStop::Failed)
            }
        }
    }
}

/// Opens a file that no other opener holds, or makes it. An empty one may just have been made, here or by a call that
/// was killed, so its folder's entry for it is synced.
fn open_locked<R: Files<File = File>>(rt: &R, path: &str) -> io::Result<File> {
    let file = OpenOptions::new()
        .read(true)
        .write(true)
        .create(true)
        .open(rt, path)?;
    file.try_lock()?;
    if length_of(&file)? == 0 {
        File::open(rt, folder_of(path))?.sync_all()?;
    }
    Ok(file)
}

/// The path of the folder in which a path's last name stands.
fn folder_of(path: &str) -> Path<'_> {
    match Path::new(path).parent() {
        Some(parent) if !parent.as_str().is_empty() => parent,
        Some(_) | None => Path::new("."),
    }
}
