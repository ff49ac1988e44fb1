//! Peers whose power fails, at a call of the disk in a step or between two events.

ghost use Rattle.std.specs.Prelude.{◌≡◌, ◌<◌, ◌-◌, true, None, Some, IfOk, IfSome, IsSome, OnOk, OnErr, length, List};
ghost use Rattle.std.specs.Prelude.{◌∷◌, []};
ghost use Rattle.lks_base.specs.Checking.{plan_fault};
ghost use Rattle.lks_base.specs.declared.events.Event.TheVariants as events;
ghost use Rattle.lks_base.specs.declared.limits.TheConstants.{MOST_EVENTS};
ghost use Rattle.lks_base.specs.declared.plans.Plan.{Plan as Planned};
ghost use Rattle.lks_base.specs.declared.records.Record.{Record as Recorded};
ghost use Rattle.lks_host.specs.Cutting.{Falls};
ghost use Rattle.lks_host.specs.Hosted.{IsMadeBy, StandsFor};
ghost use Rattle.lks_host.specs.Journals.{journal_on};
ghost use Rattle.lks_law.specs.Batches.{with_batch};
ghost use Rattle.lks_law.specs.Facts.{IsHeard};
ghost use Rattle.lks_law.specs.Histories.{IsHonest, MayStep};
ghost use Rattle.lks_law.specs.Questions.{questions};
ghost use Rattle.lks_law.specs.Table.{reaction};
ghost use Rattle.lks_law.specs.Turning.{has_inner_in};
ghost use Rattle.lks_law.specs.World.{deed_of, peer_at, peers_after, world};
ghost use Rattle.lks_script.specs.StepRules.{is_cut_step};
ghost use Rattle.lks_watch.specs.Watching.{ears, AsksOn, WatchesBy};
ghost use Rattle.lks_watch.specs.declared.watches.Watch.{Watch};
ghost use Rattle.lks_world.specs.Cuts.{taker_of, due_cut, step_cut, Cuts, CutsOff};
ghost use Rattle.lks_world.specs.Endings.{answer_to, AreMade, BurnsFor, BurnsUnless, CanTake, HasEnded, HostEnds};
ghost use Rattle.lks_world.specs.Endings.{PeersEnd, PowerEnds, SitesBurnFor, ending_of, event_for, is_whole};
ghost use Rattle.lks_world.specs.Endings.{notes_for, sends_for};
ghost use Rattle.lks_world.specs.Hosts.{peer_in, peers_of, IsReady, AreReady, GoesOn, HaveGoneOn, HaveFallen};
ghost use Rattle.lks_world.specs.Hosts.{HasActed, LosesPower};
ghost use Rattle.lks_world.specs.Kept.{with_event};
ghost use Rattle.lks_world.specs.Sites.{hosts_of, Counted, Powered, SitesBurn, SitesPower};
ghost use Rattle.lks_world.specs.States.{events_in, world_in, IsStateOf, AreLeft, Becomes, Extends};
ghost use Rattle.lks_world.specs.Spending.{cut_of};
ghost use Rattle.lks_world.specs.Stopping.{HasStopped};
ghost use Rattle.lks_world.specs.Watched.{StopsBy};

use crate::adding::{add_crash, room, take_step};
use crate::deeds::{Deed, taker};
use crate::faults::{WorldFault, blame};
use crate::other_events;
use crate::settling::{first_waiting, step_of, was_sent};
use crate::sites::{Site, place_of};
use crate::states::{Done, State, actor, note_step, nothing_done};
use lks_base::{Due, Event, Input, Note, OutOfMemory, PeerId, PeerStep, Plan, Reaction, Seq};
use lks_blocks::BlockPool;
use lks_disk::{CrashDisk, Disk, Setting};
use lks_host::{AfterCut, Host, cut_step, restart};
use lks_outside::{Bell, EffortJudge};
use lks_script::CutStep;
use lks_watch::Watch;
use std::alloc::Global;
use std::sync::Wait;

/// How long the power lasts: so many calls of the disk. The choice says what the last of them leaves.
#[derive(Clone, Copy)]
pub struct Power {
    pub calls: u8,
    pub choice: u8,
}

/// What became of a step while the power failed.
#[derive(Drop)]
pub enum Ending {
    /// It was done before.
    Whole(Done),
    /// Its records are in the journal, with these notes, and nothing was sent.
    Kept(Seq<Note>),
    /// Nothing of it is there.
    Lost,
}

impl Ending {
    fn whole(&self) -> bool
        ensures { result ≡ is_whole self.now }
    {
        matches!(self, Ending::Whole(_))
    }
}

/// The peer loses its power, and its journal is read again.
fn restart_as<R: Wait, D: CrashDisk>(
    rt: &R,
    pool: &BlockPool,
    plan: &Plan,
    host: &mut Host<D>,
) -> Result<(), WorldFault>
    requires ready { IsReady D.face pool.now host.old }
    requires made { IsMadeBy plan.now host.old.peer.own }
    ensures peer { OnOk result (peer_in D.face host.new ≡ peer_in D.face host.old) }
    ensures on { OnOk result (GoesOn D.face host.old host.new) }
    ensures falls { (batches : List (List Recorded)) → StandsFor D.face host.old batches
        → OnErr result (Falls D.face batches batches host.new.journal.disk) }
    ensures acted { HasActed D.face host.old host.new result }
    ensures power { LosesPower D.face host.old.journal.disk host.new.journal.disk result }
    ensures burns { D.face.burns host.new.journal.disk ≡ D.face.burns host.old.journal.disk }
{
    match restart(rt, pool, host, plan) {
        Ok(()) => Ok(()),
        Err(fault) => Err(blame(host.id(), fault)),
    }
}

/// What is noted of an outcome.
fn note_outcome<D: Disk>(host: &Host<D>, outcome: AfterCut) -> Result<Ending, OutOfMemory>
    ensures { IfOk result (λ e. e ≡ ending_of (has_inner_in host.now.peer.state) outcome) }
{
    match outcome {
        AfterCut::Whole(Reaction { records, sends }) => {
            let notes = host.notes(records.as_slice())?;
            Ok(Ending::Whole(Done { notes, sends }))
        }
        AfterCut::Kept(records) => Ok(Ending::Kept(host.notes(records.as_slice())?)),
        AfterCut::Lost => Ok(Ending::Lost),
    }
}

/// The peer takes a step while its power fails.
fn cut_input<R: Wait, D: CrashDisk>(
    rt: &R,
    pool: &BlockPool,
    plan: &Plan,
    host: &mut Host<D>,
    tick: u32,
    input: &Input,
    power: Power,
) -> Result<Ending, WorldFault>
    requires ready { IsReady D.face pool.now host.old }
    requires made { IsMadeBy plan.now host.old.peer.own }
    requires heard { IsHeard input.now }
    ensures ends { IfOk result
        (HostEnds D.face (reaction host.old.peer.own (journal_on D.face host.old.journal.disk) tick input.now)
        power.calls host.old host.new) }
    ensures on { OnOk result (GoesOn D.face host.old host.new) }
    ensures falls { (batches : List (List Recorded)) → StandsFor D.face host.old batches →
        OnErr result
        (Falls D.face batches
        (with_batch batches
        (reaction host.old.peer.own (journal_on D.face host.old.journal.disk) tick input.now).records)
        host.new.journal.disk) }
    ensures acted { HasActed D.face host.old host.new result }
    ensures power { LosesPower D.face host.old.journal.disk host.new.journal.disk result }
    ensures burns { IfOk result
        (λ e. BurnsFor D.face power.calls power.choice e host.old.journal.disk host.new.journal.disk) }
{
    let calls = u32::from(power.calls);
    let choice = u64::from(power.choice);
    match cut_step(rt, pool, host, plan, tick, input, Setting { calls, choice }) {
        Ok(outcome) => Ok(note_outcome(host, outcome)?),
        Err(fault) => Err(blame(host.id(), fault)),
    }
}

/// The same where it is told something, or nothing.
fn cut_as<R: Wait, D: CrashDisk>(
    alloc: Global,
    rt: &R,
    pool: &BlockPool,
    plan: &Plan,
    host: &mut Host<D>,
    tick: u32,
    deed: &Option<Deed>,
    power: Power,
) -> Result<Ending, WorldFault>
    requires ready { IsReady D.face pool.now host.old }
    requires made { IsMadeBy plan.now host.old.peer.own }
    requires heard { IfSome deed.now (λ d. IsHeard d.input) }
    ensures ends { IfOk result
        (HostEnds D.face (answer_to tick (peer_in D.face host.old) deed.now) power.calls host.old host.new) }
    ensures on { OnOk result (GoesOn D.face host.old host.new) }
    ensures falls { (batches : List (List Recorded)) → StandsFor D.face host.old batches →
        OnErr result
        (Falls D.face batches (with_batch batches (answer_to tick (peer_in D.face host.old) deed.now).records)
        host.new.journal.disk) }
    ensures acted { HasActed D.face host.old host.new result }
    ensures power { LosesPower D.face host.old.journal.disk host.new.journal.disk result }
    ensures burns { IfOk result
        (λ e. BurnsFor D.face power.calls power.choice e host.old.journal.disk host.new.journal.disk) }
{
    match deed {
        Some(deed) => cut_input(rt, pool, plan, host, tick, &deed.input, power),
        None => {
            restart_as(rt, pool, plan, host)?;
            Ok(Ending::Whole(nothing_done(alloc)))
        }
    }
}

/// An honest peer takes a step on its site while its power fails.
fn cut_at<R: Wait, D: CrashDisk>(
    alloc: Global,
    rt: &R,
    pool: &BlockPool,
    plan: &Plan,
    sites: &mut Vec<Site<D>>,
    tick: u32,
    id: PeerId,
    deed: &Option<Deed>,
    power: Power,
) -> Result<Ending, WorldFault>
    requires ready { AreReady D.face pool.now (hosts_of sites.old.items) }
    requires made { AreMade plan.now (hosts_of sites.old.items) }
    requires there { IsSome (peer_at id (peers_of D.face (hosts_of sites.old.items))) }
    requires told { IfSome deed.now (λ d. IsHeard d.input × (d.peer ≡ id)) }
    ensures ends { IfOk result
        (PeersEnd tick deed.now power.calls (peers_of D.face (hosts_of sites.old.items))
        (peers_of D.face (hosts_of sites.new.items))) }
    ensures on { OnOk result (HaveGoneOn D.face (hosts_of sites.old.items) (hosts_of sites.new.items)) }
    ensures fallen { OnErr result
        (HaveFallen D.face (hosts_of sites.old.items)
        (peers_after tick (peers_of D.face (hosts_of sites.old.items)) deed.now) (hosts_of sites.new.items)) }
    ensures counted { Counted D.face sites.old.items sites.new.items result }
    ensures power { PowerEnds D.face is_whole id sites.old.items sites.new.items result }
    ensures burns { IfOk result (SitesBurnFor D.face power.calls power.choice id sites.old.items sites.new.items) }
{
    let Some(place) = place_of(sites, id) else {
        unreachable!()
    };
    match &mut sites[place] {
        Site::Host(host) => cut_as(alloc, rt, pool, plan, host, tick, deed, power),
        Site::Idle(_) => unreachable!(),
    }
}

/// What is told of an ending.
fn told(alloc: Global, s: PeerStep, ending: Ending) -> (Event, Done)
    ensures event { result.0 ≡ event_for s ending }
    ensures notes { result.1.notes ≡ notes_for ending }
    ensures sends { result.1.sends ≡ sends_for ending }
{
    match ending {
        Ending::Whole(done) => (Event::Step(s), done),
        Ending::Kept(notes) => {
            let sends = Seq::from_vec(Vec::new(alloc));
            let event = Event::Cut {
                step: s,
                kept: true,
            };
            (event, Done { notes, sends })
        }
        Ending::Lost => {
            let event = Event::Cut {
                step: s,
                kept: false,
            };
            (event, nothing_done(alloc))
        }
    }
}

/// Does a step of an honest peer while its power fails: whether it was done before.
fn cut_there<R: Wait, D: CrashDisk, J: EffortJudge, B: Bell>(
    alloc: Global,
    rt: &R,
    plan: &Plan,
    state: &mut State<'_, D>,
    watch: &mut Watch<J, B>,
    s: PeerStep,
    deed: &Option<Deed>,
    power: Power,
) -> Result<bool, WorldFault>
    requires good { plan_fault plan.now ≡ None }
    requires state { IsStateOf D.face plan.now state.old }
    requires can { CanTake D.face plan.now state.old s }
    requires deed { deed.now ≡ deed_of state.old.bag.items s }
    requires heard { IfSome deed.now (λ d. IsHeard d.input) }
    ensures ended { IfOk result (HasEnded D.face plan.now power.calls state.old s state.new) }
    ensures err { OnErr result (state.new.history.items ≡ state.old.history.items) }
    ensures fallen { OnErr result (AreLeft D.face plan.now (Some s) state.new) }
    ensures counted { Counted D.face state.old.sites.items state.new.sites.items result }
    ensures power { PowerEnds D.face (λ is_done. is_done) (taker_of state.old.bag.items s) state.old.sites.items
        state.new.sites.items result }
    ensures burns { IfOk result
        (BurnsUnless D.face power.calls power.choice (taker_of state.old.bag.items s) state.old.sites.items
        state.new.sites.items) }
    ensures watches { (first : Watch J B)
        → AsksOn (ears J.heard J.verdict B.rung B.limit) (world_in D.face state.old) s first watch.old →
        OnOk result
        (WatchesBy (ears J.heard J.verdict B.rung B.limit) plan.now (events_in state.old) (events_in state.new)
        first watch.new) }
    ensures stops { (first : Watch J B)
        → AsksOn (ears J.heard J.verdict B.rung B.limit) (world_in D.face state.old) s first watch.old →
        OnErr result
        (StopsBy (ears J.heard J.verdict B.rung B.limit) plan.now (events_in state.old) (events_in state.new)
        (Some s) first watch.new) }
    ensures pool { state.new.pool.now ≡ state.old.pool.now }
{
    let id = taker(&state.bag, s);
    let ending = cut_at(
        alloc,
        rt,
        state.pool,
        plan,
        &mut state.sites,
        state.tick,
        id,
        deed,
        power,
    )?;
    let whole = ending.whole();
    let (event, done) = told(alloc, s, ending);
    note_step(state, watch, s, event, actor(deed), done)?;
    Ok(whole)
}

/// Does a step while the power of its peer fails, where there is room for its event and the judge was asked what it
/// asks.
fn cut_off<R: Wait, D: CrashDisk, J: EffortJudge, B: Bell>(
    alloc: Global,
    rt: &R,
    plan: &Plan,
    state: &mut State<'_, D>,
    watch: &mut Watch<J, B>,
    s: PeerStep,
    deed: &Option<Deed>,
    power: Power,
) -> Result<(), WorldFault>
    requires good { plan_fault plan.now ≡ None }
    requires state { IsStateOf D.face plan.now state.old × (0 < MOST_EVENTS - length state.old.history.items) }
    requires may { MayStep plan.now (world_in D.face state.old) s }
    requires deed { deed.now ≡ deed_of state.old.bag.items s }
    requires heard { IfSome deed.now (λ d. IsHeard d.input) }
    ensures cuts { OnOk result
        (IsStateOf D.face plan.now state.new
        × Cuts plan.now (events_in state.old) power.calls s (events_in state.new)) }
    ensures extends { Extends plan.now state.old.history.items state.new.history.items }
    ensures counted { Counted D.face state.old.sites.items state.new.sites.items result }
    ensures power { SitesPower D.face plan.now (taker_of (world plan.now (events_in state.old)).bag s ∷ [])
        (events_in state.old) (events_in state.new) state.old.sites.items state.new.sites.items result }
    ensures burns { OnOk result
        (SitesBurn D.face plan.now (events_in state.old) power.calls power.choice state.old.sites.items
        state.new.sites.items s) }
    ensures watches { (first : Watch J B)
        → AsksOn (ears J.heard J.verdict B.rung B.limit) (world_in D.face state.old) s first watch.old →
        OnOk result
        (WatchesBy (ears J.heard J.verdict B.rung B.limit) plan.now (events_in state.old) (events_in state.new)
        first watch.new) }
    ensures stops { (first : Watch J B)
        → AsksOn (ears J.heard J.verdict B.rung B.limit) (world_in D.face state.old) s first watch.old →
        OnErr result
        (HasStopped D.face (ears J.heard J.verdict B.rung B.limit) plan.now
        (Cuts plan.now (events_in state.old) power.calls s) (events_in state.old) first state.new watch.new) }
    ensures pool { state.new.pool.now ≡ state.old.pool.now }
{
    let id = taker(&state.bag, s);
    if place_of(&state.sites, id).is_none() {
        return take_step(alloc, rt, state, watch, s, deed, None);
    }
    if cut_there(alloc, rt, plan, state, watch, s, deed, power)? {
        add_crash(state, id)?;
    }
    Ok(())
}

/// What a line cuts off, if there is anything.
#[tactic(auto, unfolding(crate::specs::Cuts::due_cut))]
fn find_due<D: CrashDisk>(state: &State<'_, D>, step: CutStep) -> Option<Due>
    ensures { (plan : Planned) → IsStateOf D.face plan state.now → result ≡ due_cut plan (events_in state.now) step }
{
    match step {
        CutStep::Next => match first_waiting(state) {
            Some(envelope) => Some(Due::Delivery { envelope }),
            None => None,
        },
        CutStep::Again { envelope } => {
            if was_sent(state, envelope) {
                Some(Due::Delivery { envelope })
            } else {
                None
            }
        }
        CutStep::Peer(s) => Some(Due::Own(s)),
    }
}

/// Does what a line cuts off, while the power of the peer fails that takes the step.
pub fn cut<R: Wait, D: CrashDisk, J: EffortJudge, B: Bell>(
    alloc: Global,
    rt: &R,
    plan: &Plan,
    state: &mut State<'_, D>,
    watch: &mut Watch<J, B>,
    step: CutStep,
    power: Power,
) -> Result<(), WorldFault>
    requires good { plan_fault plan.now ≡ None }
    requires legal { is_cut_step plan.now step ≡ true }
    requires state { IsStateOf D.face plan.now state.old
        × (J.heard watch.old.judge ≡ questions plan.now (events_in state.old)) }
    ensures state { OnOk result (IsStateOf D.face plan.now state.new) }
    ensures cuts { OnOk result
        (CutsOff plan.now (events_in state.old) power.calls
        (step_cut (J.verdict watch.old.judge) plan.now (events_in state.old) step) (events_in state.new)
        × WatchesBy (ears J.heard J.verdict B.rung B.limit) plan.now (events_in state.old) (events_in state.new)
        watch.old watch.new) }
    ensures stops { OnErr result
        (HasStopped D.face (ears J.heard J.verdict B.rung B.limit) plan.now
        (CutsOff plan.now (events_in state.old) power.calls
        (step_cut (J.verdict watch.old.judge) plan.now (events_in state.old) step)) (events_in state.old)
        watch.old state.new watch.new) }
    ensures extends { Extends plan.now state.old.history.items state.new.history.items }
    ensures counted { Counted D.face state.old.sites.items state.new.sites.items result }
    ensures power { SitesPower D.face plan.now
        (cut_of (J.verdict watch.old.judge) plan.now (events_in state.old) step) (events_in state.old)
        (events_in state.new) state.old.sites.items state.new.sites.items result }
    ensures burns { OnOk result
        (IfSome (step_cut (J.verdict watch.old.judge) plan.now (events_in state.old) step)
        (SitesBurn D.face plan.now (events_in state.old) power.calls power.choice state.old.sites.items
        state.new.sites.items)) }
    ensures pool { state.new.pool.now ≡ state.old.pool.now }
{
    if room(state) == 0 {
        return Ok(());
    }
    match find_due(state, step) {
        Some(due) => {
            let (s, deed) = step_of(alloc, state, watch, due)?;
            cut_off(alloc, rt, plan, state, watch, s, &deed, power)
        }
        None => Ok(()),
    }
}

/// The peer of this number loses its power, if it is honest.
fn reopen<R: Wait, D: CrashDisk>(
    rt: &R,
    pool: &BlockPool,
    plan: &Plan,
    sites: &mut Vec<Site<D>>,
    id: PeerId,
) -> Result<(), WorldFault>
    requires ready { AreReady D.face pool.now (hosts_of sites.old.items) }
    requires made { AreMade plan.now (hosts_of sites.old.items) }
    ensures peers { OnOk result
        (peers_of D.face (hosts_of sites.new.items) ≡ peers_of D.face (hosts_of sites.old.items)) }
    ensures on { OnOk result (HaveGoneOn D.face (hosts_of sites.old.items) (hosts_of sites.new.items)) }
    ensures fallen { OnErr result
        (HaveFallen D.face (hosts_of sites.old.items) (peers_of D.face (hosts_of sites.old.items))
        (hosts_of sites.new.items)) }
    ensures counted { Counted D.face sites.old.items sites.new.items result }
    ensures power { Powered D.face [] (id ∷ []) sites.old.items sites.new.items }
{
    let Some(place) = place_of(sites, id) else {
        return Ok(());
    };
    match &mut sites[place] {
        Site::Host(host) => restart_as(rt, pool, plan, host),
        Site::Idle(_) => unreachable!(),
    }
}

/// The power of a peer fails between two events.
pub fn crash<R: Wait, D: CrashDisk>(
    rt: &R,
    plan: &Plan,
    state: &mut State<'_, D>,
    peer: PeerId,
) -> Result<(), WorldFault>
    requires good { plan_fault plan.now ≡ None }
    requires honest { IsHonest plan.now peer }
    requires state { IsStateOf D.face plan.now state.old }
    ensures becomes { OnOk result
        (Becomes D.face plan.now (with_event (events_in state.old) (events.Crash peer)) state.new) }
    ensures err { OnErr result (state.new.history.items ≡ state.old.history.items) }
    ensures extends { Extends plan.now state.old.history.items state.new.history.items }
    ensures fallen { OnErr result (AreLeft D.face plan.now None state.new) }
    ensures counted { Counted D.face state.old.sites.items state.new.sites.items result }
    ensures power { SitesPower D.face plan.now (peer ∷ []) (events_in state.old) (events_in state.new)
        state.old.sites.items state.new.sites.items result }
    ensures pool { state.new.pool.now ≡ state.old.pool.now }
{
    if room(state) == 0 {
        return Ok(());
    }
    reopen(rt, state.pool, plan, &mut state.sites, peer)?;
    Ok(other_events::crash(state, peer)?)
}
