//! A bounded queue under the rule, and the passes to it.

ghost use Rattle.std.specs.Prelude.{◌≡◌, ◌<◌, ◌≤◌, ◌-◌, [], ◌++◌, map, vec_capacity, IfOk, IfErr, IfNone, IfSome};
ghost use Rattle.std.specs.Prelude.{OnOk, IsPermutation};
ghost use Rattle.lks_farm.specs.Entries.{IsOf};
ghost use Rattle.lks_farm.specs.Sharing.{Moment, getting, joined_views, view_knowing, putting};

use crate::rule::{Entries, Finds, Names, NamesPool, Puts, Rule, Shares, Takes, View};
use crossbeam_queue::{Pass, RuledArrayQueue};
use lks_base::OutOfMemory;
use std::alloc::Global;
use std::marker::Model;
use std::sync::Wait;

/// A queue whose items stand for entries.
#[derive(Drop)]
pub struct Queue<T: Entries> {
    line: RuledArrayQueue<T, View, Rule>,
}

impl<T: Entries> Model for Queue<T> {
    ghost use Rattle.lks_farm.specs.Seats.{QueueSeen};

    ghost Value = { QueueSeen };

    ghost view = { λ q. record { table = q.line.table.shared.table_id; room = q.line.cap } };
}

/// A pass to such a queue. It has no bytes.
#[derive(Drop)]
pub struct Hand<T: Entries> {
    pass: Pass<T, View>,
}

impl<T: Entries> Model for Hand<T> {
    ghost use Rattle.std.specs.Prelude.{◌≡◌, []};
    ghost use Rattle.crossbeam_queue.specs.Passes.{view as seen};
    ghost use Rattle.lks_farm.specs.Seats.{HandSeen};

    ghost Value = { HandSeen };

    ghost view = { λ h. record { table = h.pass.table_id; knows = seen h.pass } };

    ghost invariant = { λ h. h.pass.me.1 ≡ [] };
}

impl<T: Entries> Queue<T> {
    /// A queue with this room, and the pass that has the whole right to it.
    pub fn new<N: NamesPool>(alloc: Global, room: usize) -> Result<(Queue<T>, Hand<T>), OutOfMemory>
        requires { 0 < room }
        ensures { IfOk result
            (λ q. (q.0.room ≡ room) × (q.1.table ≡ q.0.table) × (q.1.knows ≡ view_knowing 128 N.pool [] [])) }
    {
        let (line, mut first) = RuledArrayQueue::<T, View, Rule>::ruled(alloc, room)?;
        let pass = line.another::<Names<N>>(&mut first);
        Ok((Queue { line }, Hand { pass }))
    }

    /// For how many items there is room.
    pub fn room(&self) -> usize
        ensures { result ≡ self.now.room }
    {
        self.line.capacity()
    }

    /// Puts an item in. It comes back where the queue was full.
    pub fn push<R: Wait>(&self, rt: &R, hand: &mut Hand<T>, item: T) -> Result<(), T>
        requires of { hand.old.table ≡ self.now.table }
        requires part { 0 < hand.old.knows.parts }
        requires pool { IsOf hand.old.knows.pool (T.entry item) }
        ensures same { hand.new.table ≡ hand.old.table }
        ensures ok { OnOk result (hand.new.knows ≡ putting hand.old.knows (T.entry item)) }
        ensures back { IfErr result
            (λ back. (back ≡ item) × (hand.new ≡ hand.old) × Moment self.now.room hand.old.knows) }
    {
        self.line.push_as::<Puts, R>(rt, &mut hand.pass, item)
    }

    /// Gets an item. There is none where the queue was empty.
    pub fn pop<R: Wait>(&self, rt: &R, hand: &mut Hand<T>) -> Option<T>
        requires of { hand.old.table ≡ self.now.table }
        requires part { 0 < hand.old.knows.parts }
        ensures same { hand.new.table ≡ hand.old.table }
        ensures some { IfSome result
            (λ item. (hand.new.knows ≡ getting hand.old.knows (T.entry item))
            × IsOf hand.old.knows.pool (T.entry item)) }
        ensures none { IfNone result ((hand.new ≡ hand.old) × Moment 0 hand.old.knows) }
    {
        self.line.pop_as::<Takes, R>(rt, &mut hand.pass)
    }

    /// A pass of its own for another seat.
    pub fn split(&self, hand: &mut Hand<T>) -> Hand<T>
        requires of { hand.old.table ≡ self.now.table }
        requires parts { 1 < hand.old.knows.parts }
        ensures same { (hand.new.table ≡ hand.old.table) × (result.table ≡ hand.old.table) }
        ensures left { hand.new.knows
            ≡ view_knowing (hand.old.knows.parts - 1) hand.old.knows.pool hand.old.knows.put hand.old.knows.got }
        ensures right { result.knows ≡ view_knowing 1 hand.old.knows.pool [] [] }
    {
        Hand {
            pass: self.line.another::<Shares>(&mut hand.pass),
        }
    }

    /// Makes one pass of two.
    pub fn join(&self, hand: &mut Hand<T>, other: Hand<T>)
        requires of { (hand.old.table ≡ self.now.table) × (other.table ≡ self.now.table) }
        requires part { 0 < hand.old.knows.parts }
        ensures same { hand.new.table ≡ hand.old.table }
        ensures both { hand.new.knows ≡ joined_views hand.old.knows other.knows }
    {
        let Hand { pass } = other;
        self.line.absorb::<Shares>(&mut hand.pass, pass);
    }

    /// How many items the queue held at one moment of the call.
    pub fn count<R: Wait>(&self, rt: &R, hand: &mut Hand<T>) -> usize
        requires of { hand.old.table ≡ self.now.table }
        ensures same { hand.new ≡ hand.old }
        ensures count { Moment result hand.old.knows }
        ensures within { result ≤ self.now.room }
    {
        self.line.len_as::<Finds, R>(rt, &mut hand.pass)
    }

    /// Takes out all that is left. The pass has the whole right, so no other call is under way.
    pub fn drain<R: Wait>(&self, rt: &R, hand: &mut Hand<T>, out: &mut Vec<T>)
        requires of { hand.old.table ≡ self.now.table }
        requires whole { hand.old.knows.parts ≡ 128 }
        requires empty { out.old.items ≡ [] }
        requires room { self.now.room ≤ vec_capacity out.old }
        ensures { IsPermutation hand.old.knows.put (hand.old.knows.got ++ map T.entry out.new.items) }
    {
        let count = self.count(rt, hand);
        for _ in 0..count {
            match self.pop(rt, hand) {
                Some(item) => out.push_reserved(item),
                None => unreachable!(),
            }
        }
        let _left = self.count(rt, hand);
    }
}
