//! A peer with its journal and its clock.

ghost use Rattle.std.specs.Prelude.{◌≡◌, ◌<◌, ◌≤◌, ◌++◌, false, true, Some, ℕ, List, IfSome, IfOk, IfErr, OnOk, OnErr};
ghost use Rattle.std.specs.Prelude.{IsErrOf, length};
ghost use Rattle.lks_base.specs.declared.plans.AuPlan.{AuPlan as PlannedAu};
ghost use Rattle.lks_base.specs.declared.plans.Holding.{Holding as Held};
ghost use Rattle.lks_base.specs.declared.limits.TheConstants.{MOST_EVENTS};
ghost use Rattle.lks_host.specs.Faults.{breaks};
ghost use Rattle.lks_host.specs.declared.faults.HostFault.TheVariants as hosted;
ghost use Rattle.lks_inbox.specs.Received.{deed_by as deed_to};
ghost use Rattle.lks_law.specs.Facts.{IsHeard};
ghost use Rattle.lks_law.specs.Reaction.{no_effect};
ghost use Rattle.lks_law.specs.Table.{react_on};
ghost use Rattle.lks_node.specs.Going.{Progress, after, asked_for, deed_by, does, reacts, tick_after, IsDone, IsTaken};
ghost use Rattle.lks_node.specs.Replies.{reply};
ghost use Rattle.lks_node.specs.declared.ends.Fall.TheVariants as falling;
ghost use Rattle.lks_outside.specs.Counts.{Rose};
ghost use Rattle.lks_outside.specs.Streams.{AddsFront};

use crate::ends::{Fall, NodeStop};
use crate::orders::Order;
use crate::replies::reply_to;
use lks_base::{Input, PeerId, Reaction, Seq};
use lks_blocks::BlockPool;
use lks_disk::Disk;
use lks_host::{Host, HostFault};
use lks_inbox::receive;
use lks_outside::{EffortJudge, Sink, WriteStop, write_all};
use std::alloc::Global;
use std::sync::Wait;

/// A host, and what its clock says.
#[derive(Drop)]
pub struct Node<D: Disk> {
    pub host: Host<D>,
    pub tick: u32,
}

/// What a node says of a refusal after which its host is broken, and on whose disk no fuse is set.
pub fn fall(fault: HostFault) -> Fall
    requires cut { fault ≡ hosted.Cut → ⊥ }
    requires breaks { breaks fault ≡ true }
    ensures { result ≡ falling.Failed → fault ≡ hosted.Failed }
{
    match fault {
        HostFault::Failed => Fall::Failed,
        HostFault::Cut | HostFault::Stale { .. } => unreachable!(),
        HostFault::Memory => Fall::Memory,
    }
}

/// What a peer adds and sends that does nothing.
fn idle(alloc: Global) -> Reaction
    ensures { result ≡ no_effect }
{
    Reaction {
        records: Seq::from_vec(Vec::new(alloc)),
        sends: Seq::from_vec(Vec::new(alloc)),
    }
}

impl<D: Disk> Node<D> {
    ghost use Rattle.lks_host.specs.Stepping.{CanStep};
    ghost use Rattle.lks_node.specs.Being.{Acted, FallsFrom, HasCause, IsAt, IsCausedBy, Stays, StopsIn};

    /// What the peer adds for an input at this tick. It is handed out once its records are on the store.
    fn take<R: Wait>(&mut self, rt: &R, pool: &BlockPool, input: &Input) -> Result<Reaction, Fall>
        requires can { CanStep D.face pool.now self.old.host }
        requires unfused { D.face.fused self.old.host.journal.disk ≡ false }
        requires heard { IsHeard input.now }
        ensures acted { Acted D.face self.old self.new
            (react_on self.old.host.peer.own self.old.host.peer.state self.old.tick input.now) result }
        ensures tick { self.new.tick ≡ self.old.tick }
    {
        match self.host.step(rt, pool, self.tick, input) {
            Ok(reaction) => Ok(reaction),
            Err(fault) => Err(fall(fault)),
        }
    }

    /// What the peer adds for what came, if it was a message.
    fn take_heard<R: Wait>(
        &mut self,
        alloc: Global,
        rt: &R,
        pool: &BlockPool,
        input: Option<Input>,
    ) -> Result<Reaction, Fall>
        requires can { CanStep D.face pool.now self.old.host }
        requires unfused { D.face.fused self.old.host.journal.disk ≡ false }
        requires heard { IfSome input IsHeard }
        ensures acted { (to : ℕ)
            → Acted D.face self.old self.new
            (reacts self.old.host.peer.own self.old.host.peer.state self.old.tick (deed_to to input)) result }
        ensures done { (to : ℕ) → IsDone (deed_to to input) }
        ensures tick { self.new.tick ≡ self.old.tick }
    {
        match input {
            Some(input) => self.take(rt, pool, &input),
            None => Ok(idle(alloc)),
        }
    }

    /// What the peer adds for bytes from another one, of which the judge is asked.
    fn hear<R: Wait, J: EffortJudge>(
        &mut self,
        alloc: Global,
        rt: &R,
        pool: &BlockPool,
        judge: &mut J,
        from: PeerId,
        bytes: &[u8],
    ) -> Result<Reaction, Fall>
        requires can { CanStep D.face pool.now self.old.host }
        requires unfused { D.face.fused self.old.host.journal.disk ≡ false }
        requires room { length (J.heard judge.old) < MOST_EVENTS }
        ensures acted { Acted D.face self.old self.new
            (reacts self.old.host.peer.own self.old.host.peer.state self.old.tick
            (deed_by (J.verdict judge.old) self.old.host.peer.own.id (J.heard judge.old)
            (Order.Hear from bytes.now))) result }
        ensures tick { self.new.tick ≡ self.old.tick }
        ensures done { OnOk result
            (IsDone
            (deed_by (J.verdict judge.old) self.old.host.peer.own.id (J.heard judge.old)
            (Order.Hear from bytes.now))) }
        ensures asks { OnOk result
            (J.heard judge.new
            ≡ J.heard judge.old ++ asked_for self.old.host.peer.own.id (Order.Hear from bytes.now)) }
        ensures same { J.verdict judge.new ≡ J.verdict judge.old }
    {
        match receive(alloc, from, self.host.id(), bytes, judge) {
            Ok(input) => self.take_heard(alloc, rt, pool, input),
            Err(_) => Err(Fall::Memory),
        }
    }

    /// Does what a frame tells.
    fn react<R: Wait, J: EffortJudge>(
        &mut self,
        alloc: Global,
        rt: &R,
        pool: &BlockPool,
        judge: &mut J,
        order: &Order,
    ) -> Result<Reaction, Fall>
        requires can { CanStep D.face pool.now self.old.host }
        requires unfused { D.face.fused self.old.host.journal.disk ≡ false }
        requires room { length (J.heard judge.old) < MOST_EVENTS }
        requires heard { IsTaken order.now }
        ensures acted { Acted D.face self.old self.new
            (reacts self.old.host.peer.own self.old.host.peer.state self.old.tick
            (deed_by (J.verdict judge.old) self.old.host.peer.own.id (J.heard judge.old) order.now)) result }
        ensures tick { self.new.tick ≡ tick_after self.old.tick order.now }
        ensures done { OnOk result
            (IsDone (deed_by (J.verdict judge.old) self.old.host.peer.own.id (J.heard judge.old) order.now)) }
        ensures asks { OnOk result
            (J.heard judge.new ≡ J.heard judge.old ++ asked_for self.old.host.peer.own.id order.now) }
        ensures same { J.verdict judge.new ≡ J.verdict judge.old }
    {
        match order {
            Order::Hear { from, bytes } => self.hear(
                alloc,
                rt,
                pool,
                judge,
                *from,
                bytes.as_slice(),
            ),
            Order::Do { input } => self.take(rt, pool, input),
            Order::Pass { ticks } => {
                self.tick = self.tick.saturating_add(*ticks);
                Ok(idle(alloc))
            }
        }
    }

    /// Does what a frame tells: what the rules add and send over the peer's journal.
    fn go<R: Wait, J: EffortJudge>(
        &mut self,
        alloc: Global,
        rt: &R,
        pool: &BlockPool,
        judge: &mut J,
        order: &Order,
    ) -> Result<Reaction, Fall>
        requires can { CanStep D.face pool.now self.old.host }
        requires unfused { D.face.fused self.old.host.journal.disk ≡ false }
        requires room { length (J.heard judge.old) < MOST_EVENTS }
        requires heard { IsTaken order.now }
        ensures goes { (aus : List PlannedAu) (copies : List Held) (p : Progress)
            → IsAt D.face aus copies p self.old (J.heard judge.old) →
            IfOk result (λ r. (r ≡ does (J.verdict judge.old) self.old.host.peer.own p order.now)
            × IsAt D.face aus copies (after (J.verdict judge.old) self.old.host.peer.own p order.now) self.new
            (J.heard judge.new)) }
        ensures falls { (aus : List PlannedAu) (copies : List Held) (p : Progress)
            → IsAt D.face aus copies p self.old (J.heard judge.old) →
            OnErr result
            (FallsFrom D.face p (after (J.verdict judge.old) self.old.host.peer.own p order.now) self.new) }
        ensures whole { OnOk result (self.new.host.broken ≡ false) }
        ensures stays { Stays D.face self.old self.new }
        ensures cause { HasCause (D.face.faults self.old.host.journal.disk)
            (D.face.faults self.new.host.journal.disk) result }
        ensures same { J.verdict judge.new ≡ J.verdict judge.old }
    {
        let _tick = self.tick;
        self.react(alloc, rt, pool, judge, order)
    }

    /// Does what a frame tells, and then replies.
    pub fn answer<R: Wait, K: Sink, J: EffortJudge>(
        &mut self,
        alloc: Global,
        rt: &R,
        pool: &BlockPool,
        judge: &mut J,
        sink: &mut K,
        order: &Order,
    ) -> Result<(), NodeStop>
        requires can { CanStep D.face pool.now self.old.host }
        requires unfused { D.face.fused self.old.host.journal.disk ≡ false }
        requires room { length (J.heard judge.old) < MOST_EVENTS }
        requires heard { IsTaken order.now }
        ensures goes { (aus : List PlannedAu) (copies : List Held) (p : Progress)
            → IsAt D.face aus copies p self.old (J.heard judge.old) →
            OnOk result
            (IsAt D.face aus copies (after (J.verdict judge.old) self.old.host.peer.own p order.now) self.new
            (J.heard judge.new)) }
        ensures replies { (aus : List PlannedAu) (copies : List Held) (p : Progress)
            → IsAt D.face aus copies p self.old (J.heard judge.old) → (bytes : List ℕ)
            → K.taken sink.old ≡ Some bytes →
            OnOk result
            (K.taken sink.new
            ≡ Some (bytes ++ reply (does (J.verdict judge.old) self.old.host.peer.own p order.now))) }
        ensures stops { (aus : List PlannedAu) (copies : List Held) (p : Progress)
            → IsAt D.face aus copies p self.old (J.heard judge.old) →
            IfErr result
            (StopsIn D.face aus copies p (after (J.verdict judge.old) self.old.host.peer.own p order.now)
            (reply (does (J.verdict judge.old) self.old.host.peer.own p order.now)) self.new
            (J.heard judge.new) (K.taken sink.old) (K.taken sink.new)) }
        ensures cause { IfErr result
            (IsCausedBy (D.face.faults self.old.host.journal.disk) (D.face.faults self.new.host.journal.disk)
            (K.faults sink.old) (K.faults sink.new)) }
        ensures whole { OnOk result (self.new.host.broken ≡ false) }
        ensures stays { Stays D.face self.old self.new }
        ensures faults { OnOk result
            (D.face.faults self.new.host.journal.disk ≡ D.face.faults self.old.host.journal.disk) }
        ensures count { D.face.faults self.old.host.journal.disk ≤ D.face.faults self.new.host.journal.disk }
        ensures sink_count { K.faults sink.old ≤ K.faults sink.new }
        ensures same { J.verdict judge.new ≡ J.verdict judge.old }
    {
        let reaction = self.go(alloc, rt, pool, judge, order)?;
        tell(alloc, sink, &reaction)?;
        Ok(())
    }
}

/// Writes the reply.
fn tell<K: Sink>(alloc: Global, sink: &mut K, reaction: &Reaction) -> Result<(), WriteStop>
    ensures whole { (bytes : List ℕ) → K.taken sink.old ≡ Some bytes
        → OnOk result (K.taken sink.new ≡ Some (bytes ++ reply reaction.now)) }
    ensures part { (bytes : List ℕ) → K.taken sink.old ≡ Some bytes
        → OnErr result (AddsFront bytes (reply reaction.now) (K.taken sink.new)) }
    ensures failed { IsErrOf result WriteStop.Failed → Rose (K.faults sink.old) (K.faults sink.new) }
    ensures count { K.faults sink.old ≤ K.faults sink.new }
{
    match reply_to(alloc, reaction) {
        Ok(bytes) => write_all(sink, &bytes),
        Err(_) => Err(WriteStop::Memory),
    }
}
