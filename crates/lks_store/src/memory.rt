//! An opener of a disk that is there already.
ghost use Rattle.std.specs.Prelude.{◌≡◌, Some, IfOk, OnErr, IfSome};
ghost use Rattle.lks_store.specs.Mem.{MemOpening, after_open, content_of, faults_of, given_by, tells_of};
ghost use Rattle.lks_store.specs.Opening.{HasCause, IsIdle, IsOpened, TellsTheSame};

use crate::openers::{OpenStop, Opener};
use lks_disk::Disk;
use std::marker::Model;

/// Gives its disk once, or fails.
#[derive(Drop)]
pub struct MemOpener<D: Disk> {
    disk: Option<D>,
    fail: bool,
    faults: u64,
}

impl<D: Disk> Model for MemOpener<D> {
    ghost Value = { MemOpening D };

    ghost view = { λ o. record { disk = o.disk; fail = o.fail; faults = o.faults } };

    ghost invariant = { λ o. IfSome o.disk (IsIdle D.face) };
}

impl<D: Disk> MemOpener<D> {
    /// Each call fails where `fail` is true. Otherwise the first gives the disk, and each later one fails.
    pub fn new(disk: D, fail: bool) -> Self
        requires { IsIdle D.face disk }
        ensures { result ≡ record { disk = Some disk; fail = fail; faults = 0 } }
    {
        MemOpener {
            disk: Some(disk),
            fail,
            faults: 0,
        }
    }
}

impl<D: Disk> Opener for MemOpener<D> {
    type Store = D;

    ghost faults = { λ o. o.faults };

    ghost tells = { λ o. tells_of D.face o };

    ghost content = { λ o. content_of D.face o };

    ghost store_faults = { λ o. faults_of D.face o };

    fn open_store(&mut self, _path: &str) -> Result<D, OpenStop>
        ensures opened { IfOk result
            (λ store. IsOpened D.face (tells_of D.face self.old) (content_of D.face self.old)
            (faults_of D.face self.old) store) }
        ensures cause { HasCause self.old.faults self.new.faults result }
        ensures same { OnErr result
            (TellsTheSame (tells_of D.face self.old) (tells_of D.face self.new) (content_of D.face self.old)
            (content_of D.face self.new) (faults_of D.face self.old) (faults_of D.face self.new)) }

        ensures answer { result ≡ given_by self.old }
        ensures after { self.new ≡ after_open self.old }
    {
        if !self.fail {
            if let Some(disk) = self.disk.take() {
                return Ok(disk);
            }
        }
        self.faults = self.faults.saturating_add(1);
        Err(OpenStop::Failed)
    }
}
