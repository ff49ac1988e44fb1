//! A disk in memory, with calls that fail and a fuse.
ghost use Rattle.std.specs.Prelude.{◌≡◌, ◌↔◌, ◌+◌, ◌^◌, ◌<◌, ◌≤◌, ℕ, List, [], true, false, length, IfOk, OnOk, OnErr};
ghost use Rattle.std.specs.Prelude.{IsErrOf};
ghost use Rattle.lks_disk.specs.Device.{Wrote, ReadAt, Torn, Follows, Only, HasCause, NoMemory};
ghost use Rattle.lks_disk.specs.Face.{Same, Passes, Burns, KeepsFuse, HasFuse, HasLost};
ghost use Rattle.lks_disk.specs.Counts.{next_fails, raised};
ghost use Rattle.lks_disk.specs.Crash.{may_leave, moment, left_since, left_by, WritesBy, synced_by};
ghost use Rattle.lks_disk.specs.Fuse.{is_set, is_burned, lets, choice_of, setting_of, fate_of, answer_of, settled};
ghost use Rattle.lks_disk.specs.Fuse.{read_answer, after_read, AnswersBy, CountsBy, RefusedBy, Starts};
ghost use Rattle.lks_disk.specs.declared.controls.Fuse.{Fuse};
ghost use Rattle.lks_disk.specs.Moments.{counts_now, only_now};
ghost use Rattle.lks_disk.specs.MemDisk.{set_is_burned_out};

use crate::contents::Content;
use crate::controls::{Control, Fate, Setting};
use crate::disks::{CrashDisk, Disk, DiskFail};
use std::alloc::Global;

/// Bytes in memory that are kept as a disk keeps them, with calls that fail and a fuse.
#[derive(Drop)]
pub struct MemDisk {
    content: Content,
    control: Control,
}

impl MemDisk {
    /// An empty disk. The numbers name the calls of `write_at` and `sync` that fail, counted from 1.
    pub fn new(alloc: Global, fail: Vec<u32>) -> Self
        ensures content { result.content ≡ record { bytes = []; calls = [] } }
        ensures control { Starts fail.items [] result.control }
    {
        Self::faulty(alloc, fail, Vec::new(alloc))
    }

    /// An empty disk of which also the named calls of `len` and `read_at` fail, counted from 1.
    pub fn faulty(alloc: Global, fail: Vec<u32>, fail_reads: Vec<u32>) -> Self
        ensures content { result.content ≡ record { bytes = []; calls = [] } }
        ensures control { Starts fail.items fail_reads.items result.control }
    {
        MemDisk {
            content: Content::new(alloc),
            control: Control::new(fail, fail_reads),
        }
    }

    /// The bytes that a read gives.
    pub fn bytes(&self) -> &[u8]
        ensures { result.now ≡ self.now.content.bytes }
    {
        self.content.bytes()
    }
}

impl Disk for MemDisk {
    ghost use Rattle.lks_disk.specs.MemFace.{mem_face, seen_is_left};

    ghost face = { mem_face };

    ghost counts_now = { λ m t c told le now. counts_now m.content t c now };

    ghost only_now = { λ m c told left. only_now m.content c left };

    ghost seen_is_left = { λ m told. seen_is_left m };

    ghost burned_out = { λ m burned. set_is_burned_out m.control.fuse burned };

    fn len(&mut self) -> Result<u64, DiskFail>
        ensures value { Unit {0} → IfOk result (λ n. n ≡ length self.old.content.bytes) }
        ensures same { Same mem_face self.old self.new }
        ensures cause { HasCause self.old.control.faults self.new.control.faults result }
        ensures memory { NoMemory result }
        ensures fuse { KeepsFuse mem_face self.old self.new result }

        ensures answer { RefusedBy
            (read_answer self.old.control.fuse
            (next_fails self.old.control.fail_reads.items self.old.control.reads)) result }
        ensures content { self.new.content ≡ self.old.content }
        ensures control { self.new.control ≡ after_read self.old.control result }
    {
        self.control.settle_read()?;
        Ok(self.content.bytes().len() as u64)
    }

    fn read_at(&mut self, at: u64, buf: &mut [u8]) -> Result<usize, DiskFail>
        ensures within { IfOk result (λ n. n ≤ length buf.new) }
        ensures value { Unit {0} → IfOk result (λ n. ReadAt self.old.content.bytes at n buf.old buf.new) }
        ensures same { Same mem_face self.old self.new }
        ensures cause { HasCause self.old.control.faults self.new.control.faults result }
        ensures fuse { KeepsFuse mem_face self.old self.new result }

        ensures memory { NoMemory result }
        ensures untouched { OnErr result (buf.new ≡ buf.old) }
        ensures answer { RefusedBy
            (read_answer self.old.control.fuse
            (next_fails self.old.control.fail_reads.items self.old.control.reads)) result }
        ensures content { self.new.content ≡ self.old.content }
        ensures control { self.new.control ≡ after_read self.old.control result }
    {
        self.control.settle_read()?;
        Ok(give(self.content.bytes(), at, buf))
    }

    fn write_at(&mut self, at: u64, piece: &[u8]) -> Result<(), DiskFail>
        requires within { Unit {0} → at ≤ length self.old.content.bytes }
        requires ends { at + length piece.now < 2 ^ 63 }
        ensures told { Unit {0} ↔ Unit {0} }
        ensures wrote { Unit {0} → Wrote self.old.content.bytes at piece.now self.new.content.bytes result }
        ensures crash { Unit {0}
            → Follows (Torn at (length piece.now)) (may_leave self.old.content) (may_leave self.new.content) }
        ensures memory { Unit {0} → IsErrOf result DiskFail.Memory → (c : List ℕ) → may_leave self.new.content c
            → may_leave self.old.content c }
        ensures time { Unit {0} → Passes mem_face self.old self.new }
        ensures cause { HasCause self.old.control.faults self.new.control.faults result }
        ensures fuse { Burns mem_face self.old self.new result }

        ensures answer { AnswersBy (fate_of self.old.control) result }
        ensures content { WritesBy (fate_of self.old.control) at piece.now self.old.content self.new.content result }
        ensures control { CountsBy (fate_of self.old.control) self.old.control self.new.control result }
    {
        if matches!(self.control.fate(), Fate::Passes | Fate::Burns) {
            self.content.write(at as usize, piece)?;
        }
        self.control.settle()
    }

    fn sync(&mut self) -> Result<(), DiskFail>
        ensures told { Unit {0} ↔ Unit {0} }
        ensures bytes { Unit {0} → self.new.content.bytes ≡ self.old.content.bytes }
        ensures durable { Unit {0} → OnOk result (Only self.old.content.bytes (may_leave self.new.content)) }
        ensures crash { Unit {0} → (c : List ℕ) → may_leave self.new.content c → may_leave self.old.content c }
        ensures time { Unit {0} → Passes mem_face self.old self.new }
        ensures cause { HasCause self.old.control.faults self.new.control.faults result }
        ensures memory { NoMemory result }
        ensures fuse { Burns mem_face self.old self.new result }

        ensures answer { result ≡ answer_of (fate_of self.old.control) }
        ensures content { self.new.content ≡ synced_by (fate_of self.old.control) self.old.content }
        ensures control { self.new.control ≡ settled (fate_of self.old.control) self.old.control }
    {
        if matches!(self.control.fate(), Fate::Passes) {
            self.content.sync();
        }
        self.control.settle()
    }
}

impl CrashDisk for MemDisk {
    ghost use Rattle.lks_disk.specs.MemFace.{mem_face};

    fn fuse(&mut self, calls: u32, choice: u64)
        ensures fused { HasFuse mem_face calls choice self.old self.new }

        ensures content { self.new.content ≡ self.old.content }
        ensures control { self.new.control
            ≡ record self.old.control { fuse = Fuse.Set calls (record { calls = calls; choice = choice }) } }
    {
        self.control.set_fuse(Setting { calls, choice });
    }

    fn power_cut(&mut self)
        ensures lost { HasLost mem_face self.old self.new }

        ensures content { self.new.content
            ≡ record {
              bytes = left_by (choice_of self.old.control.fuse) self.old.content.calls
                  self.old.content.bytes;
              calls = [];
            } }
        ensures control { self.new.control
            ≡ record self.old.control {
              fuse = Fuse.Unset (setting_of self.old.control.fuse);
              cuts = raised self.old.control.cuts;
            } }
    {
        let choice = self.control.cut_power();
        self.content.cut(choice);
    }

    ghost tells = { λ _. tt };
}

/// Copies what stands from an offset on into the buffer, as far as it goes.
fn give(bytes: &[u8], at: u64, buf: &mut [u8]) -> usize
    ensures { ReadAt bytes.now at result buf.old buf.new }
{
    if at >= bytes.len() as u64 {
        return 0;
    }
    let (_, tail) = bytes.split_at(at as usize);
    let n = tail.len().min(buf.len());
    let (front, _) = tail.split_at(n);
    let (room, _) = buf.split_at_mut(n);
    room.copy_from_slice(front);
    n
}
