//! What a step of a script does to the state of a world.

ghost use Rattle.std.specs.Prelude.{◌≡◌, ℕ, List, true, None, OnOk, OnErr, IfSome};
ghost use Rattle.lks_base.specs.Checking.{plan_fault};
ghost use Rattle.lks_base.specs.declared.plans.Plan.{Plan as Planned};
ghost use Rattle.lks_law.specs.Questions.{Verdicts, questions};
ghost use Rattle.lks_message.specs.Spelling.{IsWithin};
ghost use Rattle.lks_script.specs.StepRules.{is_step_of};
ghost use Rattle.lks_saying.specs.Sayings.{IsSaying, MayBeSaid};
ghost use Rattle.lks_watch.specs.Watching.{ears, Watching, Watches, WatchesBy};
ghost use Rattle.lks_world.specs.Follows.{done, next_lost, delivered_again, next_event, with_saying, Performs};
ghost use Rattle.lks_script.specs.declared.steps.CutStep.{CutStep};
ghost use Rattle.lks_world.specs.Cuts.{step_cut};
ghost use Rattle.lks_world.specs.Sites.{Counted, SitesBurn, SitesPower};
ghost use Rattle.lks_world.specs.Spending.{loser_of};
ghost use Rattle.lks_world.specs.Stopping.{HasStopped};
ghost use Rattle.lks_world.specs.States.{IsStateOf, Becomes, Extends, events_in, next_of, AreLeft};
ghost use Rattle.lks_world.specs.Powers.{IsQuiet};

use crate::adding::{add_due, add_forgery, add_loss, add_ticks, do_next, room};
use crate::beside::tell;
use crate::cutting::{Power, crash, cut};
use crate::faults::WorldFault;
use crate::settling::{Course, first_waiting, next, was_sent};
use crate::states::State;
use lks_base::{Due, MOST_EVENTS, OutOfMemory, Plan, Seq};
use lks_disk::CrashDisk;
use lks_message::encode;
use lks_outside::{Bell, EffortJudge};
use lks_saying::{Saying, what_is_said};
use lks_script::Step;
use lks_watch::Watch;
use lks_work::Gate;
use std::alloc::Global;
use std::sync::Wait;
use std::thread::Threads;

/// Does what comes next, so many times, as long as there is something.
fn go_on<R: Threads + Wait + Sync, D: CrashDisk, J: EffortJudge, B: Bell, G: Gate>(
    alloc: Global,
    rt: &R,
    gate: &G,
    state: &mut State<'_, D>,
    watch: &mut Watch<J, B>,
    times: usize,
    course: Course,
    told: &mut usize,
) -> Result<(), WorldFault>
    requires { (plan : Planned) × IsStateOf D.face plan state.old
        × (J.heard watch.old.judge ≡ questions plan (events_in state.old)) }
    ensures becomes { (plan : Planned) → IsStateOf D.face plan state.old
        → J.heard watch.old.judge ≡ questions plan (events_in state.old) →
        OnOk result
        (Becomes D.face plan
        (done (next_event (J.verdict watch.old.judge) (next_of course)) times plan (events_in state.old))
        state.new) }
    ensures watches { (plan : Planned) → IsStateOf D.face plan state.old
        → J.heard watch.old.judge ≡ questions plan (events_in state.old) →
        OnOk result
        (WatchesBy (ears J.heard J.verdict B.rung B.limit) plan (events_in state.old) (events_in state.new)
        watch.old watch.new) }
    ensures stops { (plan : Planned) → IsStateOf D.face plan state.old
        → J.heard watch.old.judge ≡ questions plan (events_in state.old) →
        OnErr result
        (HasStopped D.face (ears J.heard J.verdict B.rung B.limit) plan
        (λ after. after
        ≡ done (next_event (J.verdict watch.old.judge) (next_of course)) times plan (events_in state.old))
        (events_in state.old) watch.old state.new watch.new) }
    ensures extends { (plan : Planned) → IsStateOf D.face plan state.old
        → J.heard watch.old.judge ≡ questions plan (events_in state.old) →
        Extends plan state.old.history.items state.new.history.items }
    ensures counted { Counted D.face state.old.sites.items state.new.sites.items result }
    ensures power { (plan : Planned) (who : List ℕ)
        → SitesPower D.face plan who (events_in state.old) (events_in state.new) state.old.sites.items
        state.new.sites.items result }
    ensures pool { state.new.pool.now ≡ state.old.pool.now }
{
    let mut beside = Vec::new(alloc);
    for turn in 0..times.min(room(state)) {
        match next(state, course) {
            Some(due) => {
                do_next(alloc, rt, gate, state, watch, due, &mut beside, told)?;
            }
            None => return Ok(()),
        }
    }
    Ok(())
}

/// The first envelope that waits is lost.
fn lose_first<D: CrashDisk>(state: &mut State<'_, D>) -> Result<(), OutOfMemory>
    ensures becomes { (plan : Planned) → IsStateOf D.face plan state.old →
        OnOk result (Becomes D.face plan (next_lost plan (events_in state.old)) state.new) }
    ensures extends { (plan : Planned) → IsStateOf D.face plan state.old
        → Extends plan state.old.history.items state.new.history.items }
    ensures err { OnErr result (state.new.history.items ≡ state.old.history.items) }
    ensures sites { state.new.sites.items ≡ state.old.sites.items }
    ensures pool { state.new.pool.now ≡ state.old.pool.now }
{
    match first_waiting(state) {
        Some(envelope) => add_loss(state, envelope),
        None => Ok(()),
    }
}

/// Delivers an envelope that was sent, whether it waits or not.
fn deliver_again<R: Wait, D: CrashDisk, J: EffortJudge, B: Bell>(
    alloc: Global,
    rt: &R,
    state: &mut State<'_, D>,
    watch: &mut Watch<J, B>,
    envelope: u32,
) -> Result<(), WorldFault>
    requires { (plan : Planned) × IsStateOf D.face plan state.old
        × (J.heard watch.old.judge ≡ questions plan (events_in state.old)) }
    ensures becomes { (plan : Planned) → IsStateOf D.face plan state.old
        → J.heard watch.old.judge ≡ questions plan (events_in state.old) →
        OnOk result
        (Becomes D.face plan (delivered_again (J.verdict watch.old.judge) envelope plan (events_in state.old))
        state.new) }
    ensures watches { (plan : Planned) → IsStateOf D.face plan state.old
        → J.heard watch.old.judge ≡ questions plan (events_in state.old) →
        OnOk result
        (WatchesBy (ears J.heard J.verdict B.rung B.limit) plan (events_in state.old) (events_in state.new)
        watch.old watch.new) }
    ensures stops { (plan : Planned) → IsStateOf D.face plan state.old
        → J.heard watch.old.judge ≡ questions plan (events_in state.old) →
        OnErr result
        (HasStopped D.face (ears J.heard J.verdict B.rung B.limit) plan
        (λ after. after ≡ delivered_again (J.verdict watch.old.judge) envelope plan (events_in state.old))
        (events_in state.old) watch.old state.new watch.new) }
    ensures extends { (plan : Planned) → IsStateOf D.face plan state.old
        → J.heard watch.old.judge ≡ questions plan (events_in state.old) →
        Extends plan state.old.history.items state.new.history.items }
    ensures counted { Counted D.face state.old.sites.items state.new.sites.items result }
    ensures power { (plan : Planned) (who : List ℕ)
        → SitesPower D.face plan who (events_in state.old) (events_in state.new) state.old.sites.items
        state.new.sites.items result }
    ensures pool { state.new.pool.now ≡ state.old.pool.now }
{
    if !was_sent(state, envelope) {
        return Ok(());
    }
    add_due(alloc, rt, state, watch, Due::Delivery { envelope })
}

/// What a corrupt peer says is what it forges.
fn speak<D: CrashDisk>(
    alloc: Global,
    state: &mut State<'_, D>,
    said: &Option<Saying>,
) -> Result<(), OutOfMemory>
    requires within { IfSome said.now (λ x. IsWithin x.message) }
    requires state { (plan : Planned) × IsStateOf D.face plan state.old }
    ensures becomes { (plan : Planned) → IsStateOf D.face plan state.old → IfSome said.now (MayBeSaid plan) →
        OnOk result (Becomes D.face plan (with_saying (events_in state.old) said.now) state.new) }
    ensures extends { (plan : Planned) → IsStateOf D.face plan state.old → IfSome said.now (MayBeSaid plan) →
        Extends plan state.old.history.items state.new.history.items }
    ensures err { OnErr result (state.new.history.items ≡ state.old.history.items) }
    ensures sites { state.new.sites.items ≡ state.old.sites.items }
    ensures pool { state.new.pool.now ≡ state.old.pool.now }
{
    let Some(said) = said else {
        return Ok(());
    };
    let bytes = encode(alloc, &said.message)?;
    add_forgery(state, said.from, said.to, Seq::from_vec(bytes))
}

/// A step in which a corrupt peer says something.
fn say<D: CrashDisk>(
    alloc: Global,
    plan: &Plan,
    state: &mut State<'_, D>,
    step: &Step,
) -> Result<(), OutOfMemory>
    requires good { plan_fault plan.now ≡ None }
    requires legal { is_step_of plan.now step.now ≡ true }
    requires saying { IsSaying step.now }
    requires state { IsStateOf D.face plan.now state.old }
    ensures state { OnOk result (IsStateOf D.face plan.now state.new) }
    ensures performs { OnOk result
        (((verdict : Verdicts) → Performs verdict plan.now (events_in state.old) step.now (events_in state.new))
        × ((x : Watching) → Watches plan.now (events_in state.old) (events_in state.new) x x)) }
    ensures quiet { OnOk result (IsQuiet plan.now (events_in state.old) (events_in state.new)) }
    ensures extends { Extends plan.now state.old.history.items state.new.history.items }
    ensures err { OnErr result (state.new.history.items ≡ state.old.history.items) }
    ensures sites { state.new.sites.items ≡ state.old.sites.items }
    ensures pool { state.new.pool.now ≡ state.old.pool.now }
{
    let said = what_is_said(alloc, plan, step)?;
    speak(alloc, state, &said)
}

/// Does one step of a script. The gate is told of the entries of a step that goes on by itself, one by one.
fn do_step<R: Threads + Wait + Sync, D: CrashDisk, J: EffortJudge, B: Bell, G: Gate>(
    alloc: Global,
    rt: &R,
    gate: &G,
    plan: &Plan,
    state: &mut State<'_, D>,
    watch: &mut Watch<J, B>,
    step: &Step,
    told: &mut usize,
) -> Result<(), WorldFault>
    requires good { plan_fault plan.now ≡ None }
    requires legal { is_step_of plan.now step.now ≡ true }
    requires state { IsStateOf D.face plan.now state.old
        × (J.heard watch.old.judge ≡ questions plan.now (events_in state.old)) }
    ensures state { OnOk result (IsStateOf D.face plan.now state.new) }
    ensures performs { OnOk result
        (Performs (J.verdict watch.old.judge) plan.now (events_in state.old) step.now (events_in state.new)
        × WatchesBy (ears J.heard J.verdict B.rung B.limit) plan.now (events_in state.old) (events_in state.new)
        watch.old watch.new) }
    ensures stops { OnErr result
        (HasStopped D.face (ears J.heard J.verdict B.rung B.limit) plan.now
        (Performs (J.verdict watch.old.judge) plan.now (events_in state.old) step.now) (events_in state.old)
        watch.old state.new watch.new) }
    ensures extends { Extends plan.now state.old.history.items state.new.history.items }
    ensures counted { Counted D.face state.old.sites.items state.new.sites.items result }
    ensures power { SitesPower D.face plan.now
        (loser_of (J.verdict watch.old.judge) plan.now (events_in state.old) step.now) (events_in state.old)
        (events_in state.new) state.old.sites.items state.new.sites.items result }
    ensures burns { (calls choice : ℕ) (given : CutStep) → step.now ≡ Step.Cut calls choice given →
        OnOk result
        (IfSome (step_cut (J.verdict watch.old.judge) plan.now (events_in state.old) given)
        (SitesBurn D.face plan.now (events_in state.old) calls choice state.old.sites.items
        state.new.sites.items)) }
    ensures pool { state.new.pool.now ≡ state.old.pool.now }
{
    match step {
        Step::Peer(s) => add_due(alloc, rt, state, watch, Due::Own(*s)),
        Step::Tick { by } => Ok(add_ticks(state, *by)?),
        Step::Next { times } => {
            let times = *times as usize;
            let course = Course::Delivering;
            go_on(alloc, rt, gate, state, watch, times, course, told)
        }
        Step::Lose => Ok(lose_first(state)?),
        Step::Again { envelope } => deliver_again(alloc, rt, state, watch, *envelope),
        Step::Settle => go_on(
            alloc,
            rt,
            gate,
            state,
            watch,
            MOST_EVENTS as usize,
            Course::Settling,
            told,
        ),
        Step::Finish => go_on(
            alloc,
            rt,
            gate,
            state,
            watch,
            MOST_EVENTS as usize,
            Course::Finishing,
            told,
        ),
        Step::Forge { from, to, bytes } => {
            let bytes = bytes.clone()?;
            Ok(add_forgery(state, *from, *to, bytes)?)
        }
        Step::SayPoll { .. }
        | Step::SayProof { .. }
        | Step::SayRequest { .. }
        | Step::SayReceipt { .. }
        | Step::SayChallenge { .. }
        | Step::SayNominate { .. }
        | Step::SayVote { .. }
        | Step::SayRepair { .. } => Ok(say(alloc, plan, state, step)?),
        Step::Crash { peer } => crash(rt, plan, state, *peer),
        Step::Cut {
            calls,
            choice,
            step,
        } => {
            let power = Power {
                calls: *calls,
                choice: *choice,
            };
            cut(alloc, rt, plan, state, watch, *step, power)
        }
    }
}

/// Does one step of a script whole, and tells the gate of each entry.
pub fn perform<R: Threads + Wait + Sync, D: CrashDisk, J: EffortJudge, B: Bell, G: Gate>(
    alloc: Global,
    rt: &R,
    gate: &G,
    plan: &Plan,
    state: &mut State<'_, D>,
    watch: &mut Watch<J, B>,
    step: &Step,
) -> Result<(), WorldFault>
    requires good { plan_fault plan.now ≡ None }
    requires legal { is_step_of plan.now step.now ≡ true }
    requires state { IsStateOf D.face plan.now state.old
        × (J.heard watch.old.judge ≡ questions plan.now (events_in state.old)) }
    ensures state { OnOk result (IsStateOf D.face plan.now state.new) }
    ensures performs { OnOk result
        (Performs (J.verdict watch.old.judge) plan.now (events_in state.old) step.now (events_in state.new)
        × WatchesBy (ears J.heard J.verdict B.rung B.limit) plan.now (events_in state.old) (events_in state.new)
        watch.old watch.new) }
    ensures stops { OnErr result
        (HasStopped D.face (ears J.heard J.verdict B.rung B.limit) plan.now
        (Performs (J.verdict watch.old.judge) plan.now (events_in state.old) step.now) (events_in state.old)
        watch.old state.new watch.new) }
    ensures extends { Extends plan.now state.old.history.items state.new.history.items }
    ensures counted { Counted D.face state.old.sites.items state.new.sites.items result }
    ensures power { SitesPower D.face plan.now
        (loser_of (J.verdict watch.old.judge) plan.now (events_in state.old) step.now) (events_in state.old)
        (events_in state.new) state.old.sites.items state.new.sites.items result }
    ensures burns { (calls choice : ℕ) (given : CutStep) → step.now ≡ Step.Cut calls choice given →
        OnOk result
        (IfSome (step_cut (J.verdict watch.old.judge) plan.now (events_in state.old) given)
        (SitesBurn D.face plan.now (events_in state.old) calls choice state.old.sites.items
        state.new.sites.items)) }
    ensures pool { state.new.pool.now ≡ state.old.pool.now }
{
    let mut told = state.history.len();
    let result = do_step(alloc, rt, gate, plan, state, watch, step, &mut told);
    tell(gate, state.history.as_slice(), &mut told);
    result
}
