//! A world as its callers see it: a plan, and the history of the events that it kept.

ghost use Rattle.std.specs.Prelude.{◌≡◌, ◌≤◌, ◌-◌, ◌++◌, [], ℕ, IsTrue, true, None, Some, IfOk, IfErr, IfSome, OnOk};
ghost use Rattle.std.specs.Prelude.{OnErr, List, length, map, not, is_some, slice_get};
ghost use Rattle.lks_base.specs.Checking.{plan_fault};
ghost use Rattle.lks_base.specs.declared.events.Event.{Event};
ghost use Rattle.lks_law.specs.Entries.{entries};
ghost use Rattle.lks_law.specs.Histories.{IsHistory};
ghost use Rattle.lks_script.specs.StepRules.{is_step_of};
ghost use Rattle.lks_script.specs.declared.steps.CutStep.{CutStep};
ghost use Rattle.lks_watch.specs.Watching.{ears};
ghost use Rattle.lks_world.specs.Counts.{fault_in, BurnsInStep, ServesHonest};
ghost use Rattle.lks_world.specs.Cuts.{step_cut};
ghost use Rattle.lks_world.specs.Held.{AreFresh, AreUnfused, HaveBatches, HaveBegunUpTo};
ghost use Rattle.lks_world.specs.Powers.{power_of};
ghost use Rattle.lks_world.specs.Stopping.{StopsIn};
ghost use Rattle.lks_world.specs.Giving.{Gives, HasTurn, IsExpected, IsUsedUp, StaysAtFault, Takes, TakesTurn};
ghost use Rattle.lks_world.specs.Giving.{GivesWork, AreWorksOut, GivesFresh};
ghost use Rattle.lks_world.specs.Beside.{IsForDue};
ghost use Rattle.lks_world.specs.Worlds.{AreSilent, Begins, HasWatched, HaveServed, PerformsIn, Remembers};
ghost use Rattle.lks_world.specs.Worlds.{SpendsPower, StandsAtFault, halting_fault};
ghost use Rattle.lks_blocks.specs.Block.{AllOf};
ghost use Rattle.lks_base.specs.declared.events.Due.TheVariants as dues;
ghost use Rattle.lks_law.specs.Due.{dues, next_to_settle, IsEventOf};
ghost use Rattle.lks_law.specs.World.{world};
ghost use Rattle.lks_work.specs.Names.{refs_done, tag_done};

use crate::adding::{do_due, room};
use crate::beginning::begin;
use crate::copies::copy_entry;
use crate::doing::perform;
use crate::faults::WorldFault;
use crate::giving;
use crate::giving::{Back, NextDue, Taken, hand_out, next_beside_work, take_in, work_left};
use crate::marks::{BellLimits, Faults};
use crate::settling::{Course, next};
use crate::sites::{turn_round, unsite};
use crate::states::State;
use boxcar::tag::Tag;
use lks_base::{Due, Entry, OutOfMemory, Plan};
use lks_blocks::BlockPool;
use lks_disk::CrashDisk;
use lks_outside::{Bell, EffortJudge};
use lks_peer::is_tag;
use lks_script::Step;
use lks_versions::PinTag;
use lks_watch::Watch;
use lks_work::{Gate, Job, JobDone, JobName};
use std::alloc::Global;
use std::marker::Model;
use std::sync::Wait;
use std::thread::Threads;

/// What a world gives back at its end: the history, all disks in the order in which they were handed in, the judge, and
/// the bells that want more, in their order.
#[derive(Drop)]
pub struct Parts<D, J = Box<dyn EffortJudge>, B = Box<dyn Bell>> {
    pub history: Vec<Entry>,
    pub disks: Vec<D>,
    pub judge: J,
    pub bells: Vec<B>,
}

/// A world of peers: its plan and all that happened in it. Contracts see the plan, the pool and what the world
/// remembers of its beginning, the history of events, how many of them were turns, which jobs are out, the fault that
/// stopped it, the disks, the judge, and the bells. The i-th disk is that of the i-th peer of the plan, and those of
/// honest peers hold their journals.
#[derive(Drop)]
pub struct World<'a, D: CrashDisk, J: EffortJudge = Box<dyn EffortJudge>, B: Bell = Box<dyn Bell>> {
    alloc: Global,
    plan: Plan,
    state: State<'a, D>,
    watch: Watch<J, B>,
    /// The list of disks that was handed in, with room for all: those that no peer has, the last one first.
    rest: Vec<D>,
    stopped: Option<WorldFault>,
    /// How many events were turns.
    turns: u32,
    /// The jobs that were handed out and didn't come back.
    out: Vec<JobName>,
    /// The limits of the bells, and the counts of faults of the disks, with which the world began.
    first_limits: Tag,
    first_faults: Tag,
}

impl<'a, D: CrashDisk, J: EffortJudge, B: Bell> Model for World<'a, D, J, B> {
    ghost use Rattle.lks_watch.specs.Watching.{ears};
    ghost use Rattle.lks_world.specs.Worlds.{Seen, seen_in, IsKept};

    ghost Value = { Seen D J B };

    ghost view = { seen_in };

    ghost invariant = { IsKept D.face (ears J.heard J.verdict B.rung B.limit) };
}

impl<'a, D: CrashDisk + Drop, J: EffortJudge, B: Bell> World<'a, D, J, B> {
    ghost use Rattle.lks_world.specs.Begun.{disks_made, fault_made};

    /// A world in which nothing happened yet. The plan is good, and there is a fresh disk for each of its peers; the
    /// pool takes the blocks of all. The judge has heard nothing, and the bells, which rang for nothing yet and want
    /// to, hang in their order.
    pub fn new<R: Wait>(
        alloc: Global,
        rt: &R,
        pool: &'a BlockPool,
        plan: Plan,
        mut disks: Vec<D>,
        judge: J,
        bells: Vec<B>,
    ) -> Result<World<'a, D, J, B>, (Parts<D, J, B>, WorldFault)>
        requires good { plan_fault plan ≡ None }
        requires enough { length plan.peers ≤ length disks.items }
        requires fresh { AreFresh D.face disks.items }
        requires unasked { J.heard judge ≡ [] }
        requires silent { AreSilent (ears J.heard J.verdict B.rung B.limit) bells.items }
        ensures begins { IfOk result
            (Begins (ears J.heard J.verdict B.rung B.limit) plan pool.now (map D.face.faults disks.items) judge
            bells.items) }
        ensures refused { IfErr result
            (λ e. (e.0.history.items ≡ []) × AreUnfused D.face e.0.disks.items × (e.0.judge ≡ judge)
            × (e.0.bells.items ≡ bells.items)) }
        ensures disks { ServesHonest D.face plan.peers disks.items (disks_made result) (fault_made result) }
        ensures made { OnErr result (HaveBegunUpTo D.face plan disks.items (disks_made result)) }
        ensures power { map (power_of D.face) (disks_made result) ≡ map (power_of D.face) disks.items }
    {
        let first_limits = Tag::of::<Vec<B>, BellLimits>(&bells);
        let first_faults = Tag::of::<Vec<D>, Faults>(&disks);
        turn_round(&mut disks);
        match begin(alloc, rt, pool, &plan, &mut disks) {
            Ok(state) => Ok(World {
                alloc,
                plan,
                state,
                watch: Watch::new(judge, bells),
                rest: disks,
                stopped: None,
                turns: 0,
                out: Vec::new(alloc),
                first_limits,
                first_faults,
            }),
            Err(fault) => {
                turn_round(&mut disks);
                let parts = Parts {
                    history: Vec::new(alloc),
                    disks,
                    judge,
                    bells,
                };
                Err((parts, fault))
            }
        }
    }

    /// Does one step of a script whole. After a fault the world takes no further step.
    ///
    /// Where a step settles or finishes and no message waits, all votes and tallies that are ready are hashed side by
    /// side, each once the gate let it begin; their events then come one after another. The gate is told of each entry
    /// that is kept.
    pub fn perform<R: Threads + Wait + Sync, G: Gate>(
        &mut self,
        rt: &R,
        step: &Step,
        gate: &G,
    ) -> Result<(), WorldFault>
        requires running { self.old.stopped ≡ None }
        requires legal { is_step_of self.old.plan step.now ≡ true }
        ensures remembers { Remembers self.old self.new }
        ensures turns { (self.new.turns ≡ self.old.turns) × (self.new.out ≡ self.old.out) }
        // The history goes on as the step says and as the judge says, who was asked what the new events ask; and the
        // bells were rung for their alarms.
        ensures performs { OnOk result (PerformsIn (ears J.heard J.verdict B.rung B.limit) step.now self.old self.new) }
        // At a fault it went on less far: to a front of such a history. The judge was asked what that asks, and what
        // the step asks that was begun, if one was; the bells were rung for its alarms; and a crash leaves the journals
        // of that history, or that of the peer which began the step with the step's batch.
        ensures stops { OnErr result
            (StopsIn D.face (ears J.heard J.verdict B.rung B.limit) step.now self.old self.new) }
        ensures front { (more : List Event) × (self.new.history ≡ self.old.history ++ more) }
        ensures stopped { self.new.stopped ≡ fault_in result }
        ensures disks { ServesHonest D.face self.old.plan.peers self.old.disks self.new.disks (fault_in result) }
        // The honest peers' disks counted the fuses that burned and the cuts of their power in the new events, and
        // besides at most one cut, at a fault or a full history, of the peer whose power the step cuts. A fuse is one
        // of its calls and choice.
        ensures power { SpendsPower D.face J.verdict step.now self.old self.new result }
    {
        let (plan, state, watch) = (&self.plan, &mut self.state, &mut self.watch);
        match perform(self.alloc, rt, gate, plan, state, watch, step) {
            Ok(()) => Ok(()),
            Err(fault) => {
                self.stopped = Some(fault);
                Err(fault)
            }
        }
    }

    /// Gives out one thing that is due, while there are turns and room for an event: the job of ready work that isn't
    /// out, else it does the first delivery or turn. After a fault, which leaves the history and the turns, the world
    /// takes no further step.
    pub fn take_due<R: Wait>(&mut self, rt: &R) -> Result<Taken, WorldFault>
        requires running { self.old.stopped ≡ None }
        ensures remembers { Remembers self.old self.new }
        ensures takes { IfOk result (Takes self.old self.new) }
        ensures same { OnErr result (StaysAtFault self.old self.new) }
        ensures stopped { self.new.stopped ≡ fault_in result }
    {
        if !self.has_turn() {
            return Ok(Taken::Finished);
        }
        match self.give_work() {
            Ok(Some(job)) => Ok(Taken::Work(job)),
            Ok(None) => self.take_other(rt),
            Err(fault) => Err(fault),
        }
    }

    /// Takes back the result of a job. It is kept where its peer is ready for this work over the version that was
    /// hashed: its event is a turn. After a fault, which leaves the history and the turns, the world takes no further
    /// step.
    pub fn give_back<R: Wait>(&mut self, rt: &R, done: JobDone) -> Result<Back, WorldFault>
        requires running { self.old.stopped ≡ None }
        requires of { AllOf self.old.pool (refs_done done) }
        ensures remembers { Remembers self.old self.new }
        ensures gives { IfOk result (Gives done self.old self.new) }
        ensures same { OnErr result (StaysAtFault self.old self.new) }
        ensures stopped { self.new.stopped ≡ fault_in result }
    {
        take_in(&mut self.out, done.name());
        if !self.has_turn() {
            return Ok(Back::Late);
        }
        match self.expected(&done) {
            Ok(expected) => self.do_work(rt, done, expected),
            Err(fault) => Err(fault),
        }
    }

    /// No job counts as handed out any more.
    pub fn recall(&mut self)
        ensures { self.new ≡ record self.old { out = [] } }
    {
        self.out.clear();
    }

    /// The world takes no further step. A fault that stopped it before stays.
    pub fn halt(&mut self)
        ensures { self.new ≡ record self.old { stopped = halting_fault self.old.stopped } }
    {
        if self.stopped.is_none() {
            self.stopped = Some(WorldFault::Memory);
        }
    }

    /// Whether no envelope waits and no work is ready.
    pub fn quiet(&self) -> bool
        requires running { self.now.stopped ≡ None }
        ensures { result ≡ not (is_some (next_to_settle self.now.plan self.now.history)) }
    {
        next(&self.state, Course::Settling).is_none()
    }

    /// A copy of the last entry: none exactly where the history is empty.
    pub fn last_entry(&self) -> Result<Option<Entry>, OutOfMemory>
        ensures { IfOk result
            (λ o. o ≡ slice_get (entries self.now.plan self.now.history) (length self.now.history - 1)) }
    {
        match self.state.history.as_slice().last() {
            Some(entry) => Ok(Some(copy_entry(self.alloc, entry)?)),
            None => Ok(None),
        }
    }

    /// What the type of a world says of it: unless a fault stopped it, its judge and its bells have watched its
    /// history; at a fault, what it left of these and of the journals; and what became of its disks since the
    /// beginning.
    pub fn known(&self)
        ensures watched { self.now.stopped ≡ None
            → HasWatched (ears J.heard J.verdict B.rung B.limit) self.now.plan self.now.start.limits
            self.now.history self.now.judge self.now.bells }
        ensures halted { StandsAtFault D.face (ears J.heard J.verdict B.rung B.limit) self.now }
        ensures served { HaveServed D.face self.now.plan.peers self.now.start.faults self.now.disks self.now.stopped }
        ensures happened { IsHistory self.now.plan self.now.history }
        ensures used { self.now.turns ≤ self.now.plan.turns }
    {
        let _stopped = self.stopped;
    }

    /// The plan that was handed in.
    pub fn plan(&self) -> &Plan
        ensures { result.now ≡ self.now.plan }
    {
        &self.plan
    }

    /// An entry for each event, in order. The events are a history of the plan.
    pub fn history(&self) -> &[Entry]
        ensures entries { result.now ≡ entries self.now.plan self.now.history }
        ensures happened { IsHistory self.now.plan self.now.history }
    {
        self.state.history.as_slice()
    }

    /// Why the world takes no further step, if it was stopped.
    pub fn stopped(&self) -> Option<WorldFault>
        ensures { result ≡ self.now.stopped }
    {
        self.stopped
    }

    /// Gives all back, no disk with a fuse. Unless a fault stopped the world, the honest peers' disks hold their
    /// journals, and the judge and the bells have watched the history.
    pub fn into_parts(self) -> Parts<D, J, B>
        ensures history { result.history.items ≡ entries self.entry.plan self.entry.history }
        ensures happened { IsHistory self.entry.plan self.entry.history }
        ensures unfused { AreUnfused D.face result.disks.items }
        ensures disks { result.disks.items ≡ self.entry.disks }
        ensures watched { (result.judge ≡ self.entry.judge) × (result.bells.items ≡ self.entry.bells) }
        ensures holds { self.entry.stopped ≡ None
            → HaveBatches D.face self.entry.plan self.entry.history self.entry.disks }
        ensures heard { self.entry.stopped ≡ None
            → HasWatched (ears J.heard J.verdict B.rung B.limit) self.entry.plan self.entry.start.limits
            self.entry.history self.entry.judge self.entry.bells }
        ensures halted { StandsAtFault D.face (ears J.heard J.verdict B.rung B.limit) self.entry }
        ensures served { HaveServed D.face self.entry.plan.peers self.entry.start.faults self.entry.disks
            self.entry.stopped }
    {
        let World {
            state,
            watch,
            rest: mut disks,
            ..
        } = self;
        let State { sites, history, .. } = state;
        unsite(sites, &mut disks);
        turn_round(&mut disks);
        let (judge, bells) = watch.into_parts();
        Parts {
            history,
            disks,
            judge,
            bells,
        }
    }
}

impl<'a, D: CrashDisk + Drop, J: EffortJudge, B: Bell> World<'a, D, J, B> {
    fn has_turn(&self) -> bool
        ensures turn { IsTrue result → HasTurn self.now }
        ensures used { (IsTrue result → ⊥) → IsUsedUp self.now }
    {
        self.turns < self.plan.turns && room(&self.state) > 0
    }

    /// Does what is due, which is a turn: by a result of its work, if there is one.
    fn do_turn<R: Wait>(
        &mut self,
        rt: &R,
        due: Due,
        done: Option<JobDone>,
    ) -> Result<(), WorldFault>
        requires running { self.old.stopped ≡ None }
        requires turn { HasTurn self.old }
        requires due { (place : ℕ) × (slice_get (dues self.old.plan self.old.history) place ≡ Some due) }
        requires done { IfSome done (IsForDue self.old.pool due) }
        ensures remembers { Remembers self.old self.new }
        ensures takes { OnOk result (TakesTurn (IsEventOf due) self.old self.new) }
        ensures same { OnErr result (StaysAtFault self.old self.new) }
        ensures out { self.new.out ≡ self.old.out }
        ensures stopped { self.new.stopped ≡ fault_in result }
    {
        let left = self.turns < self.plan.turns;
        prove!(left);
        let (state, watch) = (&mut self.state, &mut self.watch);
        match do_due(self.alloc, rt, state, watch, due, done) {
            Ok(()) => {
                self.turns += 1;
                Ok(())
            }
            Err(stop) => {
                self.stopped = Some(stop);
                Err(stop)
            }
        }
    }

    /// Hands out the job of ready work that isn't out, if there is such work.
    fn give_work(&mut self) -> Result<Option<Job>, WorldFault>
        requires running { self.old.stopped ≡ None }
        requires turn { HasTurn self.old }
        ensures remembers { Remembers self.old self.new }
        ensures gives { IfOk result (GivesWork self.old self.new) }
        ensures same { OnErr result (StaysAtFault self.old self.new) }
        ensures stopped { self.new.stopped ≡ fault_in result }
    {
        let Some((place, name)) = work_left(&self.state.sites, self.out.as_slice()) else {
            return Ok(None);
        };
        match hand_out(&mut self.state.sites, &mut self.out, place, name) {
            Ok(job) => Ok(Some(job)),
            Err(OutOfMemory) => {
                self.stopped = Some(WorldFault::Memory);
                Err(WorldFault::Memory)
            }
        }
    }

    /// Does what is due beside work, where the jobs of all ready work are out.
    fn take_other<R: Wait>(&mut self, rt: &R) -> Result<Taken, WorldFault>
        requires running { self.old.stopped ≡ None }
        requires turn { HasTurn self.old }
        requires out { AreWorksOut self.old }
        ensures remembers { Remembers self.old self.new }
        ensures takes { IfOk result (Takes self.old self.new) }
        ensures same { OnErr result (StaysAtFault self.old self.new) }
        ensures stopped { self.new.stopped ≡ fault_in result }
    {
        match next_beside_work(&self.state) {
            NextDue::Due(due) => match self.do_turn(rt, due, None) {
                Ok(()) => Ok(Taken::Did),
                Err(fault) => Err(fault),
            },
            NextDue::Work => Ok(Taken::Out),
            NextDue::Nothing => Ok(Taken::Finished),
        }
    }

    /// Over which version the result would be taken now.
    fn expected(&mut self, done: &JobDone) -> Result<Option<PinTag>, WorldFault>
        requires running { self.old.stopped ≡ None }
        ensures ok { OnOk result (self.new ≡ self.old) }
        ensures expected { IfOk result (IsExpected (world self.old.plan self.old.history) done.now) }
        ensures remembers { Remembers self.old self.new }
        ensures same { OnErr result (StaysAtFault self.old self.new) }
        ensures stopped { self.new.stopped ≡ fault_in result }
    {
        match giving::expected(&mut self.state.sites, done) {
            Ok(expected) => Ok(expected),
            Err(OutOfMemory) => {
                self.stopped = Some(WorldFault::Memory);
                Err(WorldFault::Memory)
            }
        }
    }

    /// Does the work of this result, where it is of the version that is expected.
    fn do_work<R: Wait>(
        &mut self,
        rt: &R,
        done: JobDone,
        expected: Option<PinTag>,
    ) -> Result<Back, WorldFault>
        requires running { self.old.stopped ≡ None }
        requires turn { HasTurn self.old }
        requires of { AllOf self.old.pool (refs_done done) }
        requires expected { IsExpected (world self.old.plan self.old.history) done expected }
        ensures remembers { Remembers self.old self.new }
        ensures gives { IfOk result (GivesFresh done self.old self.new) }
        ensures same { OnErr result (StaysAtFault self.old self.new) }
        ensures stopped { self.new.stopped ≡ fault_in result }
    {
        let found = done.tag();
        if !is_tag(expected, found) {
            return Ok(Back::Stale { expected, found });
        }
        match self.do_turn(rt, Due::Own(done.name().step()), Some(done)) {
            Ok(()) => Ok(Back::Kept),
            Err(fault) => Err(fault),
        }
    }
}
