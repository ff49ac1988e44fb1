//! A node from its words to its end.

ghost use Rattle.std.specs.Prelude.{◌≡◌, ◌≤◌, [], false, None, Some, Err, map, string_bytes, IfOk, IfErr, IfSome};
ghost use Rattle.std.specs.Prelude.{IsSome};
ghost use Rattle.lks_base.specs.Checking.{plan_fault};
ghost use Rattle.lks_base.specs.declared.plans.PeerPlan.{PeerPlan as Planned};
ghost use Rattle.lks_law.specs.World.{honest_peer};
ghost use Rattle.lks_node.specs.Complete.{Completes, HasWork};
ghost use Rattle.lks_node.specs.Promise.{ComesOver, HasEnded, IsScripted, IsUnscripted, Promise, Serves};
ghost use Rattle.lks_outside.specs.Counts.{Rose};

use crate::answering::answer_all;
use crate::ends::{NoScript, NodeEnd, Unready};
use crate::frames::{Frame, Unread, read_frame};
use crate::opening::open_journal;
use crate::statuses::NodeStatus;
use crate::words::asked;
use lks_base::{PeerId, Plan};
use lks_blocks::BlockPool;
use lks_disk::Disk;
use lks_outside::{EffortJudge, Sink, Source};
use lks_peer::find_honest;
use lks_script::{Script, read_script};
use lks_store::Opener;
use std::alloc::Global;
use std::sync::Wait;

/// The most bytes of a script.
const MOST_SCRIPT: u32 = 16_777_216;

/// The plan of the script in the first frame.
fn read_plan<S: Source>(alloc: Global, source: &mut S) -> Result<Plan, NoScript>
    ensures found { IfOk result (IsScripted (S.left source.old) (S.left source.new)) }
    ensures good { IfOk result (λ plan. plan_fault plan ≡ None) }
    ensures none { IfErr result (IsUnscripted (S.left source.old)) }
    ensures failed { result ≡ Err (NoScript.Unread Unread.Failed) → Rose (S.faults source.old) (S.faults source.new) }
    ensures count { S.faults source.old ≤ S.faults source.new }
{
    let body = match read_frame(alloc, source, MOST_SCRIPT) {
        Ok(Frame::Whole(body)) => body,
        Ok(Frame::End | Frame::Broken) => return Err(NoScript::Unframed),
        Err(unread) => return Err(NoScript::Unread(unread)),
    };
    match read_script(alloc, &body) {
        Ok(Script { plan, .. }) => Ok(plan),
        Err(fault) => Err(NoScript::Unsaid(fault)),
    }
}

/// Runs an honest peer of a plan over its store.
fn serve<R: Wait, S: Source, K: Sink, D: Disk, J: EffortJudge>(
    alloc: Global,
    rt: &R,
    plan: &Plan,
    id: PeerId,
    source: &mut S,
    sink: &mut K,
    store: D,
    judge: &mut J,
) -> (NodeEnd, D)
    requires good { plan_fault plan.now ≡ None }
    requires honest { IsSome (honest_peer id plan.now) }
    requires unfused { D.face.fused store ≡ false }
    requires unasked { J.heard judge.old ≡ [] }
    ensures comes { (p : Planned) → honest_peer id plan.now ≡ Some p →
        Serves D.face (J.verdict judge.old) plan.now p (S.left source.old) (K.taken sink.old) (K.taken sink.new)
        (J.heard judge.new) store result.1 result.0 }
    ensures cause { HasEnded (S.faults source.old) (S.faults source.new) (D.face.faults store)
        (D.face.faults result.1) (K.faults sink.old) (K.faults sink.new) result.0 }
    ensures source_count { S.faults source.old ≤ S.faults source.new }
    ensures count { D.face.faults store ≤ D.face.faults result.1 }
    ensures sink_count { K.faults sink.old ≤ K.faults sink.new }
    ensures same { J.verdict judge.new ≡ J.verdict judge.old }
{
    let pool = match BlockPool::new(alloc) {
        Ok(pool) => pool,
        Err(_) => return (NodeEnd::Unready(Unready::Memory), store),
    };
    match open_journal(alloc, rt, &pool, plan, id, store) {
        Ok(node) => {
            let mut node = node;
            let stop = answer_all(alloc, rt, &pool, plan, &mut node, source, sink, judge);
            (NodeEnd::Answered(stop), node.host.into_disk())
        }
        Err((store, unready)) => (NodeEnd::Unready(unready), store),
    }
}

/// Runs a peer of the script in the first frame, if it has one of this number, over its store.
fn run_on<R: Wait, S: Source, K: Sink, D: Disk, J: EffortJudge>(
    alloc: Global,
    rt: &R,
    id: PeerId,
    source: &mut S,
    sink: &mut K,
    store: D,
    judge: &mut J,
) -> (NodeEnd, D)
    requires unfused { D.face.fused store ≡ false }
    requires unasked { J.heard judge.old ≡ [] }
    ensures comes { ComesOver D.face (J.verdict judge.old) id (S.left source.old) (K.taken sink.old)
        (K.taken sink.new) (J.heard judge.new) store result.1 result.0 }
    ensures cause { HasEnded (S.faults source.old) (S.faults source.new) (D.face.faults store)
        (D.face.faults result.1) (K.faults sink.old) (K.faults sink.new) result.0 }
    ensures source_count { S.faults source.old ≤ S.faults source.new }
    ensures count { D.face.faults store ≤ D.face.faults result.1 }
    ensures sink_count { K.faults sink.old ≤ K.faults sink.new }
    ensures same { J.verdict judge.new ≡ J.verdict judge.old }
{
    let plan = match read_plan(alloc, source) {
        Ok(plan) => plan,
        Err(none) => return (NodeEnd::Unscripted(none), store),
    };
    if find_honest(plan.peers.as_slice(), id).is_none() {
        return (NodeEnd::Strange, store);
    }
    serve(alloc, rt, &plan, id, source, sink, store, judge)
}

/// Runs one honest peer, with its journal on a store that the words name. Frames come in, each is answered by a frame
/// once what it adds is on the store, and a run that was stopped at any moment goes on from its store. The store is
/// handed back.
pub fn node<R: Wait, S: Source, K: Sink, O: Opener, J: EffortJudge>(
    alloc: Global,
    rt: &R,
    words: &[String],
    source: &mut S,
    sink: &mut K,
    opener: &mut O,
    judge: &mut J,
) -> (NodeStatus, Option<O::Store>)
    requires unasked { J.heard judge.old ≡ [] }
    ensures promise { Promise O.Store.face (J.verdict judge.old)
        (record {
          tells = O.tells opener.old;
          content = O.content opener.old;
          faults = O.store_faults opener.old;
        }) (map string_bytes words.now) (S.left source.old) (K.taken sink.old)
        (K.taken sink.new) (J.heard judge.new) result.0 result.1 }
    ensures read { result.0 ≡ NodeStatus.ReadFault → Rose (S.faults source.old) (S.faults source.new) }
    ensures write { result.0 ≡ NodeStatus.WriteFault → Rose (K.faults sink.old) (K.faults sink.new) }
    ensures open { result.0 ≡ NodeStatus.OpenFault → Rose (O.faults opener.old) (O.faults opener.new) }
    ensures disk { result.0 ≡ NodeStatus.DiskFault
        → IfSome result.1 (λ store. Rose (O.store_faults opener.old) (O.Store.face.faults store)) }
    // With work to do, and where no fault is counted, all of it is done, or memory is wanting.
    ensures complete { HasWork (J.verdict judge.old)
        (record {
          tells = O.tells opener.old;
          content = O.content opener.old;
          faults = O.store_faults opener.old;
        }) (map string_bytes words.now) (S.left source.old)
        → IfSome result.1 O.Store.face.told → (Rose (S.faults source.old) (S.faults source.new) → ⊥)
        → (Rose (K.faults sink.old) (K.faults sink.new) → ⊥)
        → (Rose (O.faults opener.old) (O.faults opener.new) → ⊥)
        → IfSome result.1 (λ store. Rose (O.store_faults opener.old) (O.Store.face.faults store) → ⊥)
        → Completes result.0 }
    ensures source_count { S.faults source.old ≤ S.faults source.new }
    ensures sink_count { K.faults sink.old ≤ K.faults sink.new }
    ensures opener_count { O.faults opener.old ≤ O.faults opener.new }
    ensures same { J.verdict judge.new ≡ J.verdict judge.old }
{
    let Some((id, path)) = asked(words) else {
        return (NodeEnd::Unnamed.status(), None);
    };
    match opener.open_store(path) {
        Ok(store) => {
            let (end, store) = run_on(alloc, rt, id, source, sink, store, judge);
            (end.status(), Some(store))
        }
        Err(stop) => (NodeEnd::Unopened(stop).status(), None),
    }
}
