//! Frames, one after another.

ghost use Rattle.std.specs.Prelude.{◌≡◌, ◌<◌, ◌≤◌, [], ℕ, false, List, Some, Err, IfOk, IfErr, IfSome, OnOk, length};
ghost use Rattle.lks_base.specs.declared.limits.TheConstants.{MOST_EVENTS};
ghost use Rattle.lks_base.specs.declared.plans.AuPlan.{AuPlan as PlannedAu};
ghost use Rattle.lks_base.specs.declared.plans.Holding.{Holding as Held};
ghost use Rattle.lks_node.specs.Being.{HasStopped, IsAt, IsFit, Stays};
ghost use Rattle.lks_node.specs.Ending.{Ends, Halts, Turns};
ghost use Rattle.lks_node.specs.Going.{Progress, IsTaken};
ghost use Rattle.lks_node.specs.Telling.{IsFoundLast, IsFoundNext};
ghost use Rattle.lks_outside.specs.Counts.{Rose};

use crate::ends::{NodeStop, Rest};
use crate::frames::{Frame, Unread, read_frame, read_upto};
use crate::nodes::Node;
use crate::orders::{Order, read_order};
use lks_base::{MOST_EVENTS, PeerId, Plan};
use lks_blocks::BlockPool;
use lks_disk::Disk;
use lks_outside::{EffortJudge, Sink, Source};
use std::alloc::Global;
use std::sync::Wait;

/// The most bytes of the body of a frame behind the script: a message, a sender and a tag.
const MOST_BODY: u32 = 40_003;

/// The room that a batch may take.
const BATCH_ROOM: u64 = 32_768;

/// What the next frame, of this number, tells, if there is one.
fn next_order<S: Source>(
    alloc: Global,
    plan: &Plan,
    id: PeerId,
    index: u32,
    source: &mut S,
) -> Result<Option<Order>, Rest>
    ensures found { (bytes : List ℕ) → S.left source.old ≡ Some bytes
        → IsFoundNext plan.now id index bytes (S.left source.new) result }
    ensures taken { IfOk result (λ o. IfSome o IsTaken) }
    ensures failed { result ≡ Err (Rest.Unread Unread.Failed) → Rose (S.faults source.old) (S.faults source.new) }
    ensures rested { IfErr result (λ rest. rest ≡ Rest.Full → ⊥) }
    ensures count { S.faults source.old ≤ S.faults source.new }
{
    let body = match read_frame(alloc, source, MOST_BODY) {
        Ok(Frame::Whole(body)) => body,
        Ok(Frame::End) => return Ok(None),
        Ok(Frame::Broken) => return Err(Rest::Bad { index }),
        Err(unread) => return Err(Rest::Unread(unread)),
    };
    match read_order(alloc, plan, id, &body) {
        Ok(Some(order)) => Ok(Some(order)),
        Ok(None) => Err(Rest::Bad { index }),
        Err(_) => Err(Rest::Memory),
    }
}

/// What the source has behind the last frame that may be: one byte is too many.
fn last<S: Source>(alloc: Global, source: &mut S) -> Rest
    ensures found { (bytes : List ℕ) → S.left source.old ≡ Some bytes → IsFoundLast bytes result }
    ensures failed { result ≡ Rest.Unread Unread.Failed → Rose (S.faults source.old) (S.faults source.new) }
    ensures count { S.faults source.old ≤ S.faults source.new }
    ensures rested { result ≡ Rest.Full → ⊥ }
{
    match read_upto(alloc, source, 1) {
        Ok(more) => match more.as_slice() {
            [] => Rest::Done,
            [_, ..] => Rest::TooMany,
        },
        Err(unread) => Rest::Unread(unread),
    }
}

/// Answers the next frame, if there is one.
fn turn<R: Wait, S: Source, K: Sink, D: Disk, J: EffortJudge>(
    alloc: Global,
    rt: &R,
    pool: &BlockPool,
    plan: &Plan,
    place: u32,
    node: &mut Node<D>,
    source: &mut S,
    sink: &mut K,
    judge: &mut J,
) -> Result<(), NodeStop>
    requires fit { IsFit D.face pool.now node.old }
    requires at { (aus : List PlannedAu) × (copies : List Held) × (p : Progress)
        × IsAt D.face aus copies p node.old (J.heard judge.old) }
    requires place { place < MOST_EVENTS }
    requires room { length (J.heard judge.old) ≤ place }
    ensures turns { (aus : List PlannedAu) (copies : List Held) (p : Progress)
        → IsAt D.face aus copies p node.old (J.heard judge.old) →
        OnOk result
        (Turns D.face (J.verdict judge.old) plan.now node.old.host.peer.own aus copies p (S.left source.old)
        (S.left source.new) (K.taken sink.old) (K.taken sink.new) node.new (J.heard judge.new)) }
    ensures halts { (aus : List PlannedAu) (copies : List Held) (p : Progress)
        → IsAt D.face aus copies p node.old (J.heard judge.old) →
        IfErr result
        (Halts D.face (J.verdict judge.old) plan.now node.old.host.peer.own aus copies place p
        (S.left source.old) (K.taken sink.old) (K.taken sink.new) node.new (J.heard judge.new)) }
    ensures whole { OnOk result (node.new.host.broken ≡ false) }
    ensures stays { Stays D.face node.old node.new }
    ensures faults { OnOk result (D.face.faults node.new.host.journal.disk ≡ D.face.faults node.old.host.journal.disk) }
    ensures count { D.face.faults node.old.host.journal.disk ≤ D.face.faults node.new.host.journal.disk }
    ensures source_count { S.faults source.old ≤ S.faults source.new }
    ensures sink_count { K.faults sink.old ≤ K.faults sink.new }
    ensures cause { IfErr result
        (HasStopped (S.faults source.old) (S.faults source.new) (D.face.faults node.old.host.journal.disk)
        (D.face.faults node.new.host.journal.disk) (K.faults sink.old) (K.faults sink.new)) }
    ensures same { J.verdict judge.new ≡ J.verdict judge.old }
{
    let order = match next_order(alloc, plan, node.host.id(), place + 1, source) {
        Ok(Some(order)) => order,
        Ok(None) => return Err(NodeStop::Rested(Rest::Done)),
        Err(rest) => return Err(NodeStop::Rested(rest)),
    };
    if node.host.room() < BATCH_ROOM {
        return Err(NodeStop::Rested(Rest::Full));
    }
    node.answer(alloc, rt, pool, judge, sink, &order)
}

/// Answers the frames of a source, one after another.
pub fn answer_all<R: Wait, S: Source, K: Sink, D: Disk, J: EffortJudge>(
    alloc: Global,
    rt: &R,
    pool: &BlockPool,
    plan: &Plan,
    node: &mut Node<D>,
    source: &mut S,
    sink: &mut K,
    judge: &mut J,
) -> NodeStop
    requires fit { IsFit D.face pool.now node.old }
    requires at { (aus : List PlannedAu) × (copies : List Held) × (p : Progress)
        × IsAt D.face aus copies p node.old (J.heard judge.old) }
    requires unasked { J.heard judge.old ≡ [] }
    ensures ends { (aus : List PlannedAu) (copies : List Held) (p : Progress)
        → IsAt D.face aus copies p node.old (J.heard judge.old) →
        Ends D.face (J.verdict judge.old) plan.now node.old.host.peer.own aus copies p (S.left source.old)
        (K.taken sink.old) (K.taken sink.new) node.new (J.heard judge.new) result }
    ensures stays { Stays D.face node.old node.new }
    ensures source_count { S.faults source.old ≤ S.faults source.new }
    ensures count { D.face.faults node.old.host.journal.disk ≤ D.face.faults node.new.host.journal.disk }
    ensures sink_count { K.faults sink.old ≤ K.faults sink.new }
    ensures cause { HasStopped (S.faults source.old) (S.faults source.new)
        (D.face.faults node.old.host.journal.disk) (D.face.faults node.new.host.journal.disk) (K.faults sink.old)
        (K.faults sink.new) result }
    ensures same { J.verdict judge.new ≡ J.verdict judge.old }
{
    for place in 0..MOST_EVENTS as u32 {
        match turn(alloc, rt, pool, plan, place, node, source, sink, judge) {
            Ok(()) => {}
            Err(stop) => return stop,
        }
    }
    NodeStop::Rested(last(alloc, source))
}
