//! One event more, unless the history is full.

ghost use Rattle.std.specs.Prelude.{◌≡◌, ◌≤◌, ◌<◌, ◌-◌, ◌++◌, ◌∷◌, [], ℕ, true, Some, IfSome, OnOk, OnErr, List};
ghost use Rattle.std.specs.Prelude.{length, get_or};
ghost use Rattle.lks_base.specs.Checking.{has_corrupt, has_peer};
ghost use Rattle.lks_base.specs.declared.events.Event.TheVariants as events;
ghost use Rattle.lks_base.specs.declared.limits.TheConstants.{MOST_FORGED_BYTES, MOST_TICKS};
ghost use Rattle.lks_base.specs.declared.plans.Plan.{Plan};
ghost use Rattle.lks_law.specs.Facts.{IsHeard};
ghost use Rattle.lks_law.specs.Histories.{IsHonest, MayStep, WasSent};
ghost use Rattle.lks_law.specs.Questions.{event_of};
ghost use Rattle.lks_law.specs.World.{deed_of};
ghost use Rattle.lks_watch.specs.Watching.{ears, AsksOn, WatchesBy};
ghost use Rattle.lks_watch.specs.declared.watches.Watch.{Watch};
ghost use Rattle.lks_farm.specs.Batches.{AreDoneOf};
ghost use Rattle.lks_world.specs.Beside.{IsFor, IsForDue};
ghost use Rattle.lks_world.specs.Doable.{IsDoable};
ghost use Rattle.lks_world.specs.Kept.{with_event};
ghost use Rattle.lks_world.specs.Sites.{Counted, SitesPower};
ghost use Rattle.lks_world.specs.Stopping.{HasStopped};
ghost use Rattle.lks_world.specs.Watched.{StopsBy};
ghost use Rattle.lks_world.specs.States.{IsStateOf, AreLeft, Becomes, Extends, events_in, world_in};

use crate::beside::{result_for, tell};
use crate::deeds::Deed;
use crate::faults::WorldFault;
use crate::other_events::{crash, forge, lose, tick};
use crate::settling::step_of;
use crate::states::{State, step};
use lks_base::{Bytes, Due, MOST_EVENTS, OutOfMemory, PeerId, PeerStep};
use lks_disk::CrashDisk;
use lks_outside::{Bell, EffortJudge};
use lks_watch::Watch;
use lks_work::{Gate, JobDone};
use std::alloc::Global;
use std::sync::Wait;
use std::thread::Threads;

/// How many events the history has room for.
pub fn room<D: CrashDisk>(state: &State<'_, D>) -> usize
    ensures { result ≡ MOST_EVENTS - length state.now.history.items }
{
    (MOST_EVENTS as usize).saturating_sub(state.history.as_slice().len())
}

/// One step of a peer, which is this to it, where there is room for its event and the judge was asked what it asks.
pub fn take_step<R: Wait, D: CrashDisk, J: EffortJudge, B: Bell>(
    alloc: Global,
    rt: &R,
    state: &mut State<'_, D>,
    watch: &mut Watch<J, B>,
    s: PeerStep,
    deed: &Option<Deed>,
    done: Option<JobDone>,
) -> Result<(), WorldFault>
    requires room { 0 < MOST_EVENTS - length state.old.history.items }
    requires state { (plan : Plan) × IsStateOf D.face plan state.old }
    requires deed { deed.now ≡ deed_of state.old.bag.items s }
    requires heard { IfSome deed.now (λ d. IsHeard d.input) }
    requires done { IfSome done (IsFor state.old.pool.now s) }
    ensures becomes { (plan : Plan) → IsStateOf D.face plan state.old → MayStep plan (world_in D.face state.old) s →
        OnOk result (Becomes D.face plan (events_in state.old ++ events.Step s ∷ []) state.new) }
    ensures extends { (plan : Plan) → IsStateOf D.face plan state.old → MayStep plan (world_in D.face state.old) s →
        Extends plan state.old.history.items state.new.history.items }
    ensures watches { (plan : Plan) → IsStateOf D.face plan state.old → (first : Watch J B)
        → AsksOn (ears J.heard J.verdict B.rung B.limit) (world_in D.face state.old) s first watch.old →
        OnOk result
        (WatchesBy (ears J.heard J.verdict B.rung B.limit) plan (events_in state.old) (events_in state.new)
        first watch.new) }
    ensures stops { (plan : Plan) → IsStateOf D.face plan state.old → (first : Watch J B)
        → AsksOn (ears J.heard J.verdict B.rung B.limit) (world_in D.face state.old) s first watch.old →
        OnErr result
        (StopsBy (ears J.heard J.verdict B.rung B.limit) plan (events_in state.old) (events_in state.new)
        (Some s) first watch.new) }
    ensures fallen { (plan : Plan) → IsStateOf D.face plan state.old
        → OnErr result (AreLeft D.face plan (Some s) state.new) }
    ensures err { OnErr result (state.new.history.items ≡ state.old.history.items) }
    ensures counted { Counted D.face state.old.sites.items state.new.sites.items result }
    ensures power { (plan : Plan) (who : List ℕ)
        → SitesPower D.face plan who (events_in state.old) (events_in state.new) state.old.sites.items
        state.new.sites.items result }
    ensures pool { state.new.pool.now ≡ state.old.pool.now }
{
    step(alloc, rt, state, watch, s, deed, done)?;
    Ok(())
}

/// Does what is due, once the judge was asked what it asks, where there is room for its event: by a result of its work,
/// if there is one.
pub fn do_due<R: Wait, D: CrashDisk, J: EffortJudge, B: Bell>(
    alloc: Global,
    rt: &R,
    state: &mut State<'_, D>,
    watch: &mut Watch<J, B>,
    due: Due,
    done: Option<JobDone>,
) -> Result<(), WorldFault>
    requires room { 0 < MOST_EVENTS - length state.old.history.items }
    requires state { (plan : Plan) × IsDoable D.face J.heard plan state.old watch.old due }
    requires done { IfSome done (IsForDue state.old.pool.now due) }
    ensures becomes { (plan : Plan) → IsDoable D.face J.heard plan state.old watch.old due →
        OnOk result
        (Becomes D.face plan
        (events_in state.old ++ event_of (J.verdict watch.old.judge) plan (events_in state.old) due ∷ [])
        state.new) }
    ensures watches { (plan : Plan) → IsDoable D.face J.heard plan state.old watch.old due →
        OnOk result
        (WatchesBy (ears J.heard J.verdict B.rung B.limit) plan (events_in state.old) (events_in state.new)
        watch.old watch.new) }
    ensures stops { (plan : Plan) → IsDoable D.face J.heard plan state.old watch.old due →
        OnErr result
        (HasStopped D.face (ears J.heard J.verdict B.rung B.limit) plan
        (λ after. after
        ≡ events_in state.old ++ event_of (J.verdict watch.old.judge) plan (events_in state.old) due ∷ [])
        (events_in state.old) watch.old state.new watch.new) }
    ensures extends { (plan : Plan) → IsDoable D.face J.heard plan state.old watch.old due →
        Extends plan state.old.history.items state.new.history.items }
    ensures err { OnErr result (state.new.history.items ≡ state.old.history.items) }
    ensures counted { Counted D.face state.old.sites.items state.new.sites.items result }
    ensures power { (plan : Plan) (who : List ℕ)
        → SitesPower D.face plan who (events_in state.old) (events_in state.new) state.old.sites.items
        state.new.sites.items result }
    ensures pool { state.new.pool.now ≡ state.old.pool.now }
{
    let (s, deed) = step_of(alloc, state, watch, due)?;
    take_step(alloc, rt, state, watch, s, &deed, done)
}

/// Does what is due, work by its result, once all ready work that had none was hashed. Then the gate is told of it.
pub fn do_next<R: Threads + Wait + Sync, D: CrashDisk, J: EffortJudge, B: Bell, G: Gate>(
    alloc: Global,
    rt: &R,
    gate: &G,
    state: &mut State<'_, D>,
    watch: &mut Watch<J, B>,
    due: Due,
    beside: &mut Vec<JobDone>,
    told: &mut usize,
) -> Result<(), WorldFault>
    requires room { 0 < MOST_EVENTS - length state.old.history.items }
    requires state { (plan : Plan) × IsDoable D.face J.heard plan state.old watch.old due }
    requires of { AreDoneOf state.old.pool.now beside.old.items }
    ensures becomes { (plan : Plan) → IsDoable D.face J.heard plan state.old watch.old due →
        OnOk result
        (Becomes D.face plan
        (events_in state.old ++ event_of (J.verdict watch.old.judge) plan (events_in state.old) due ∷ [])
        state.new) }
    ensures watches { (plan : Plan) → IsDoable D.face J.heard plan state.old watch.old due →
        OnOk result
        (WatchesBy (ears J.heard J.verdict B.rung B.limit) plan (events_in state.old) (events_in state.new)
        watch.old watch.new) }
    ensures stops { (plan : Plan) → IsDoable D.face J.heard plan state.old watch.old due →
        OnErr result
        (HasStopped D.face (ears J.heard J.verdict B.rung B.limit) plan
        (λ after. after
        ≡ events_in state.old ++ event_of (J.verdict watch.old.judge) plan (events_in state.old) due ∷ [])
        (events_in state.old) watch.old state.new watch.new) }
    ensures extends { (plan : Plan) → IsDoable D.face J.heard plan state.old watch.old due →
        Extends plan state.old.history.items state.new.history.items }
    ensures counted { Counted D.face state.old.sites.items state.new.sites.items result }
    ensures power { (plan : Plan) (who : List ℕ)
        → SitesPower D.face plan who (events_in state.old) (events_in state.new) state.old.sites.items
        state.new.sites.items result }
    ensures pool { state.new.pool.now ≡ state.old.pool.now }
    ensures of { AreDoneOf state.old.pool.now beside.new.items }
{
    let done = result_for(alloc, rt, gate, state, due, beside)?;
    do_due(alloc, rt, state, watch, due, done)?;
    tell(gate, state.history.as_slice(), told);
    Ok(())
}

/// The same unless the history is full.
pub fn add_due<R: Wait, D: CrashDisk, J: EffortJudge, B: Bell>(
    alloc: Global,
    rt: &R,
    state: &mut State<'_, D>,
    watch: &mut Watch<J, B>,
    due: Due,
) -> Result<(), WorldFault>
    requires { (plan : Plan) × IsDoable D.face J.heard plan state.old watch.old due }
    ensures becomes { (plan : Plan) → IsDoable D.face J.heard plan state.old watch.old due →
        OnOk result
        (Becomes D.face plan
        (with_event (events_in state.old) (event_of (J.verdict watch.old.judge) plan (events_in state.old) due))
        state.new) }
    ensures watches { (plan : Plan) → IsDoable D.face J.heard plan state.old watch.old due →
        OnOk result
        (WatchesBy (ears J.heard J.verdict B.rung B.limit) plan (events_in state.old) (events_in state.new)
        watch.old watch.new) }
    ensures stops { (plan : Plan) → IsDoable D.face J.heard plan state.old watch.old due →
        OnErr result
        (HasStopped D.face (ears J.heard J.verdict B.rung B.limit) plan
        (λ after. after
        ≡ with_event (events_in state.old) (event_of (J.verdict watch.old.judge) plan (events_in state.old) due))
        (events_in state.old) watch.old state.new watch.new) }
    ensures extends { (plan : Plan) → IsDoable D.face J.heard plan state.old watch.old due →
        Extends plan state.old.history.items state.new.history.items }
    ensures counted { Counted D.face state.old.sites.items state.new.sites.items result }
    ensures power { (plan : Plan) (who : List ℕ)
        → SitesPower D.face plan who (events_in state.old) (events_in state.new) state.old.sites.items
        state.new.sites.items result }
    ensures pool { state.new.pool.now ≡ state.old.pool.now }
{
    if room(state) > 0 {
        do_due(alloc, rt, state, watch, due, None)?;
    }
    Ok(())
}

// Contracts see bytes as numbers: each is below 256.
fn are_bytes(bytes: &[u8])
    ensures { (i : ℕ) → get_or bytes.now i 0 < 256 }
{}

/// A forgery.
pub fn add_forgery<D: CrashDisk>(
    state: &mut State<'_, D>,
    from: PeerId,
    to: PeerId,
    bytes: Bytes,
) -> Result<(), OutOfMemory>
    requires state { (plan : Plan) × IsStateOf D.face plan state.old }
    ensures becomes { (plan : Plan) → IsStateOf D.face plan state.old → has_corrupt plan.peers from ≡ true
        → has_peer plan.peers to ≡ true → length bytes ≤ MOST_FORGED_BYTES →
        OnOk result (Becomes D.face plan (with_event (events_in state.old) (events.Forge from to bytes)) state.new) }
    ensures extends { (plan : Plan) → IsStateOf D.face plan state.old → has_corrupt plan.peers from ≡ true
        → has_peer plan.peers to ≡ true → length bytes ≤ MOST_FORGED_BYTES →
        Extends plan state.old.history.items state.new.history.items }
    ensures err { OnErr result (state.new.history.items ≡ state.old.history.items) }
    ensures sites { state.new.sites.items ≡ state.old.sites.items }
    ensures pool { state.new.pool.now ≡ state.old.pool.now }
{
    are_bytes(bytes.as_slice());
    if room(state) > 0 {
        forge(state, from, to, bytes)?;
    }
    Ok(())
}

/// So many ticks of the clock. In a history with room they fit.
pub fn add_ticks<D: CrashDisk>(state: &mut State<'_, D>, by: u32) -> Result<(), OutOfMemory>
    requires some { 1 ≤ by }
    requires few { by ≤ MOST_TICKS }
    requires state { (plan : Plan) × IsStateOf D.face plan state.old }
    ensures becomes { (plan : Plan) → IsStateOf D.face plan state.old →
        OnOk result (Becomes D.face plan (with_event (events_in state.old) (events.Tick by)) state.new) }
    ensures extends { (plan : Plan) → IsStateOf D.face plan state.old
        → Extends plan state.old.history.items state.new.history.items }
    ensures err { OnErr result (state.new.history.items ≡ state.old.history.items) }
    ensures sites { state.new.sites.items ≡ state.old.sites.items }
    ensures pool { state.new.pool.now ≡ state.old.pool.now }
{
    if room(state) > 0 {
        tick(state, by)?;
    }
    Ok(())
}

/// The loss of an envelope that stands in the bag.
pub fn add_loss<D: CrashDisk>(state: &mut State<'_, D>, envelope: u32) -> Result<(), OutOfMemory>
    ensures becomes { (plan : Plan) → IsStateOf D.face plan state.old → WasSent (world_in D.face state.old) envelope →
        OnOk result (Becomes D.face plan (with_event (events_in state.old) (events.Lose envelope)) state.new) }
    ensures extends { (plan : Plan) → IsStateOf D.face plan state.old → WasSent (world_in D.face state.old) envelope →
        Extends plan state.old.history.items state.new.history.items }
    ensures err { OnErr result (state.new.history.items ≡ state.old.history.items) }
    ensures sites { state.new.sites.items ≡ state.old.sites.items }
    ensures pool { state.new.pool.now ≡ state.old.pool.now }
{
    if room(state) > 0 {
        lose(state, envelope)?;
    }
    Ok(())
}

/// The crash of a peer that was reopened.
pub fn add_crash<D: CrashDisk>(state: &mut State<'_, D>, peer: PeerId) -> Result<(), OutOfMemory>
    ensures becomes { (plan : Plan) → IsStateOf D.face plan state.old → IsHonest plan peer →
        OnOk result (Becomes D.face plan (with_event (events_in state.old) (events.Crash peer)) state.new) }
    ensures extends { (plan : Plan) → IsStateOf D.face plan state.old → IsHonest plan peer
        → Extends plan state.old.history.items state.new.history.items }
    ensures err { OnErr result (state.new.history.items ≡ state.old.history.items) }
    ensures sites { state.new.sites.items ≡ state.old.sites.items }
    ensures pool { state.new.pool.now ≡ state.old.pool.now }
{
    if room(state) > 0 {
        crash(state, peer)?;
    }
    Ok(())
}
