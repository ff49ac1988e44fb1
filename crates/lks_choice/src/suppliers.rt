//! The suppliers of a poll.

ghost use Rattle.std.specs.Prelude.{◌≡◌, ◌↔◌, ◌<◌, [], ◌∷◌, ◌++◌, true, false, IsTrue, IsNone, OnOk, OnErr, length};
ghost use Rattle.std.specs.List.{list_all};
ghost use Rattle.lks_choice.specs.Asking as asking;
ghost use Rattle.lks_choice.specs.Asking.{next_at, awaited_request};

use lks_base::{OutOfMemory, PeerId};
use std::alloc::Global;
use std::marker::Model;

/// Whom a poller asked for blocks in one poll. Contracts see each block with the voter asked for it, in order, and
/// whether the last one is waited for.
#[derive(Drop)]
pub struct Suppliers {
    asked: Vec<(u16, PeerId)>,
    waiting: bool,
}

impl Model for Suppliers {
    ghost use Rattle.std.specs.Prelude.{◌≡◌, ◌<◌, true, length};
    ghost use Rattle.lks_choice.specs.Asking.{Asked};

    ghost Value = { Asked };

    ghost view = { λ s. record { asked = s.asked.items; waiting = s.waiting } };

    ghost invariant = { λ s. s.waiting ≡ true → 0 < length s.asked.items };
}

impl Suppliers {
    /// Nobody was asked.
    pub fn new(alloc: Global) -> Suppliers
        ensures { result ≡ record { asked = []; waiting = false } }
    {
        Suppliers {
            asked: Vec::new(alloc),
            waiting: false,
        }
    }

    /// The first of the voters against block `b` who wasn't asked for it, or `None` where each was.
    pub fn next(&self, b: u16, against: &[PeerId]) -> Option<PeerId>
        ensures first { result ≡ next_at self.now.asked b against.now }
        ensures none { IsNone result ↔ IsTrue (list_all (asking.was_asked self.now.asked b) against.now) }
    {
        first_unasked(self.asked.as_slice(), b, against)
    }

    /// Notes that a voter is asked for block `b` and is waited for.
    pub fn asked(&mut self, b: u16, voter: PeerId) -> Result<(), OutOfMemory>
        requires { self.old.waiting ≡ false }
        ensures ok { OnOk result (self.new ≡ record { asked = self.old.asked ++ (b, voter) ∷ []; waiting = true }) }
        ensures err { OnErr result (self.new ≡ self.old) }
    {
        self.asked.push((b, voter))?;
        self.waiting = true;
        Ok(())
    }

    /// The block and the voter that are waited for, or `None` where nothing is.
    pub fn unanswered(&self) -> Option<(u16, PeerId)>
        ensures last { result ≡ awaited_request self.now }
        ensures none { IsNone result ↔ (self.now.waiting ≡ false) }
    {
        if self.waiting {
            self.asked.last().copied()
        } else {
            None
        }
    }

    /// Ends the waiting: a block came, or none will.
    pub fn answered(&mut self)
        ensures { self.new ≡ record self.old { waiting = false } }
    {
        self.waiting = false;
    }
}

fn was_asked(asked: &[(u16, PeerId)], b: u16, voter: PeerId) -> bool
    ensures { result ≡ asking.was_asked asked.now b voter }
{
    asked.iter().any(|a| a.0 == b && a.1 == voter)
}

fn first_unasked(asked: &[(u16, PeerId)], b: u16, against: &[PeerId]) -> Option<PeerId>
    ensures { result ≡ next_at asked.now b against.now }
{
    against.iter().copied().find(|v| !was_asked(asked, b, *v))
}
