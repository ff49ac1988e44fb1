//! How many votes each peer gave us, and we it.

ghost use Rattle.std.specs.Prelude.{◌≡◌, ◌<◌, ◌==◌, true, find, OnOk, OnErr};
ghost use Rattle.std.specs.List.{list_all, position};
ghost use Rattle.std.specs.Option.{option_copied};
ghost use Rattle.lks_law.specs.Fitting.{has_mark_left};
ghost use Rattle.lks_law.specs.Taking.{mark_at, mark_put, marked_received, marked_given};

use lks_base::{OutOfMemory, PeerId};
use std::marker::Model;

/// The votes of one peer.
#[derive(Drop)]
pub struct Mark {
    peer: PeerId,
    received: u32,
    given: u32,
}

impl Model for Mark {
    ghost use Rattle.lks_law.specs.Taking.{Mark as Marked};

    ghost Value = { Marked };

    ghost view = { λ m. record { peer = m.peer; received = m.received; given = m.given } };
}

impl Mark {
    fn peer(&self) -> PeerId
        ensures { result ≡ self.now.peer }
    {
        self.peer
    }

    pub fn received(&self) -> u32
        ensures { result ≡ self.now.received }
    {
        self.received
    }

    pub fn given(&self) -> u32
        ensures { result ≡ self.now.given }
    {
        self.given
    }

    fn can_grow(&self) -> bool
        ensures { result ≡ has_mark_left self.now }
    {
        self.received < u32::MAX && self.given < u32::MAX
    }

    fn again(&self) -> Mark
        ensures { result ≡ self.now }
    {
        Mark {
            peer: self.peer,
            received: self.received,
            given: self.given,
        }
    }
}

fn find_mark(marks: &[Mark], peer: PeerId) -> Option<&Mark>
    ensures { option_copied result ≡ find (λ m. m.peer == peer) marks.now }
{
    marks.iter().find(|m| m.peer() == peer)
}

fn place_of_mark(marks: &[Mark], peer: PeerId) -> Option<usize>
    ensures { result ≡ position (λ m. m.peer == peer) marks.now }
{
    marks.iter().position(|m| m.peer() == peer)
}

/// The marks of a peer, which has none at first.
pub fn mark_of(marks: &[Mark], peer: PeerId) -> Mark
    ensures { result ≡ mark_at peer marks.now }
{
    match find_mark(marks, peer) {
        Some(mark) => mark.again(),
        None => Mark {
            peer,
            received: 0,
            given: 0,
        },
    }
}

/// Whether one vote more can be counted, of any peer.
pub fn can_all_grow(marks: &[Mark]) -> bool
    ensures { result ≡ list_all has_mark_left marks.now }
{
    marks.iter().all(|m| m.can_grow())
}

#[tactic(auto, using(crate::proofs::Marking::put_there, crate::proofs::Marking::put_last))]
fn put(marks: &mut Vec<Mark>, mark: Mark) -> Result<(), OutOfMemory>
    ensures ok { OnOk result (marks.new.items ≡ mark_put mark marks.old.items) }
    ensures err { OnErr result (marks.new.items ≡ marks.old.items) }
{
    match place_of_mark(marks.as_slice(), mark.peer) {
        Some(i) => {
            marks[i] = mark;
            Ok(())
        }
        None => {
            marks.push(mark)?;
            Ok(())
        }
    }
}

/// Counts a vote of this peer.
#[tactic(auto, using(crate::proofs::Marking::received_left))]
pub fn count_received(marks: &mut Vec<Mark>, peer: PeerId) -> Result<(), OutOfMemory>
    requires { list_all has_mark_left marks.old.items ≡ true }
    ensures ok { OnOk result (marks.new.items ≡ marked_received peer marks.old.items) }
    ensures err { OnErr result (marks.new.items ≡ marks.old.items) }
{
    let mut mark = mark_of(marks.as_slice(), peer);
    mark.received += 1;
    put(marks, mark)
}

/// Counts a vote for this peer.
#[tactic(auto, using(crate::proofs::Marking::given_left))]
pub fn count_given(marks: &mut Vec<Mark>, peer: PeerId) -> Result<(), OutOfMemory>
    requires { list_all has_mark_left marks.old.items ≡ true }
    ensures ok { OnOk result (marks.new.items ≡ marked_given peer marks.old.items) }
    ensures err { OnErr result (marks.new.items ≡ marks.old.items) }
{
    let mut mark = mark_of(marks.as_slice(), peer);
    mark.given += 1;
    put(marks, mark)
}
