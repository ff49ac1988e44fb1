//! The state of a world, and what an event does to it.

ghost use Rattle.std.specs.Prelude.{◌≡◌, ◌≤◌, ◌<◌, ◌+◌, ◌++◌, ◌∷◌, [], Some, IfOk, IfSome, IsErrOf, OnOk, OnErr, ◌==◌};
ghost use Rattle.std.specs.Prelude.{length, filter, map, not, List};
ghost use Rattle.std.specs.List.{filter_map, range_with_len};
ghost use Rattle.lks_base.specs.declared.events.Event.TheVariants as events;
ghost use Rattle.lks_base.specs.declared.records.Record.{Record as Recorded};
ghost use Rattle.lks_host.specs.Bodies.{bodies_of};
ghost use Rattle.lks_host.specs.Cutting.{Falls};
ghost use Rattle.lks_host.specs.Faults.{as_journal, IsFresh};
ghost use Rattle.lks_host.specs.Hosted.{StandsFor};
ghost use Rattle.lks_host.specs.Stepping.{CanStep, IsWritten, Stepped};
ghost use Rattle.lks_host.specs.Working.{IsResultOf};
ghost use Rattle.lks_journal.specs.Adding.{KeepsOrAdds};
ghost use Rattle.lks_law.specs.Alarms.{alarms_by, alarm_noted};
ghost use Rattle.lks_law.specs.Batches.{with_batch};
ghost use Rattle.lks_law.specs.Entries.{carried_envelope, entry_for, notes_at, notes_of, entry_of};
ghost use Rattle.lks_law.specs.World.{Standing, deed_of, reaction_at, with_records, peer_at, sent_by, actor_of};
ghost use Rattle.lks_law.specs.World.{effect_of, peers_after, happens};
ghost use Rattle.lks_law.specs.Facts.{IsHeard};
ghost use Rattle.lks_law.specs.Table.{react_on};
ghost use Rattle.lks_watch.specs.Watching.{ears, Hears};
ghost use Rattle.lks_world.specs.Beside.{IsFor};
ghost use Rattle.lks_world.specs.Hosts.{peer_in, peers_of, IsReady, AreReady, GoesOn, HaveGoneOn, HaveFallen};
ghost use Rattle.lks_world.specs.Hosts.{HasActed, KeepsPower, with_added};
ghost use Rattle.lks_world.specs.Sites.{hosts_of, Counted, Powered};
ghost use Rattle.lks_world.specs.States.{left_after, world_in, sends_in, HasNoted};

use crate::deeds::{Deed, ends_of};
use crate::faults::{WorldFault, blame};
use crate::sites::{Site, place_of};
use lks_base::{
    Entry, Envelope, Event, Input, Note, OutOfMemory, Outgoing, PeerId, PeerStep, Reaction, Seq,
};
use lks_blocks::BlockPool;
use lks_disk::CrashDisk;
use lks_host::{Host, HostFault};
use lks_outside::{Bell, EffortJudge};
use lks_watch::Watch;
use lks_work::JobDone;
use std::alloc::Global;
use std::sync::Wait;

/// The pool of all blocks, the sites of the peers in the plan's order, the bag with the numbers of the envelopes that
/// wait, the clock, and what happened.
#[derive(Drop)]
pub struct State<'a, D: CrashDisk> {
    pub pool: &'a BlockPool,
    pub sites: Vec<Site<D>>,
    pub bag: Vec<Envelope>,
    pub pending: Vec<u32>,
    pub history: Vec<Entry>,
    pub tick: u32,
}

/// What a deed did: the notes of the records that it added, and what it sends.
#[derive(Drop)]
pub struct Done {
    pub notes: Seq<Note>,
    pub sends: Seq<Outgoing>,
}

pub fn nothing_done(alloc: Global) -> Done
    ensures notes { result.notes ≡ [] }
    ensures sends { result.sends ≡ [] }
{
    Done {
        notes: Seq::from_vec(Vec::new(alloc)),
        sends: Seq::from_vec(Vec::new(alloc)),
    }
}

/// What a host does with an input: by a result of such work, if there is one. One that is stale is as none.
fn react<R: Wait, D: CrashDisk>(
    rt: &R,
    pool: &BlockPool,
    host: &mut Host<D>,
    tick: u32,
    input: &Input,
    done: Option<JobDone>,
) -> Result<Reaction, HostFault>
    requires can { CanStep D.face pool.now host.old }
    requires heard { IsHeard input.now }
    requires done { IfSome done (IsResultOf pool.now input.now) }
    ensures stepped { Stepped D.face host.old host.new
        (react_on host.old.peer.own host.old.peer.state tick input.now) result }
    ensures stands { D.face.told host.old.journal.disk → (batches : List (List Recorded))
        → StandsFor D.face host.old batches →
        IfOk result (λ r. StandsFor D.face host.new (with_batch batches r.records)) }
    ensures adds { D.face.told host.old.journal.disk → (batches : List (List Recorded))
        → StandsFor D.face host.old batches →
        KeepsOrAdds D.face host.old.journal host.new.journal (bodies_of batches)
        (bodies_of (with_batch batches (react_on host.old.peer.own host.old.peer.state tick input.now).records))
        (as_journal result) }
    ensures read { (IsErrOf result HostFault.Memory → ⊥)
        → IsWritten host.old.peer.own host.old.peer.state
        (react_on host.old.peer.own host.old.peer.state tick input.now).records }
    ensures fresh { IsFresh result }
{
    let Some(done) = done else {
        return host.step(rt, pool, tick, input);
    };
    match host.accept(rt, pool, tick, done) {
        Ok(reaction) => Ok(reaction),
        Err(HostFault::Failed) => Err(HostFault::Failed),
        Err(HostFault::Cut) => Err(HostFault::Cut),
        Err(HostFault::Memory) => Err(HostFault::Memory),
        Err(HostFault::Stale { .. }) => host.step(rt, pool, tick, input),
    }
}

fn act_as<R: Wait, D: CrashDisk>(
    rt: &R,
    pool: &BlockPool,
    host: &mut Host<D>,
    tick: u32,
    input: &Input,
    done: Option<JobDone>,
) -> Result<Done, WorldFault>
    requires ready { IsReady D.face pool.now host.old }
    requires heard { IsHeard input.now }
    requires done { IfSome done (IsResultOf pool.now input.now) }
    ensures sends { IfOk result (λ d. d.sends ≡ (reaction_at tick (Some (peer_in D.face host.old)) input.now).sends) }
    ensures notes { IfOk result
        (λ d. d.notes
        ≡ notes_at (Some (peer_in D.face host.old))
        (reaction_at tick (Some (peer_in D.face host.old)) input.now).records) }
    ensures peer { OnOk result
        (peer_in D.face host.new
        ≡ with_added (peer_in D.face host.old)
        (reaction_at tick (Some (peer_in D.face host.old)) input.now).records) }
    ensures on { OnOk result (GoesOn D.face host.old host.new) }
    ensures falls { (batches : List (List Recorded)) → StandsFor D.face host.old batches →
        OnErr result
        (Falls D.face batches
        (with_batch batches (reaction_at tick (Some (peer_in D.face host.old)) input.now).records)
        host.new.journal.disk) }
    ensures acted { HasActed D.face host.old host.new result }
    ensures power { KeepsPower D.face host.old.journal.disk host.new.journal.disk }
{
    let Reaction { records, sends } = match react(rt, pool, host, tick, input, done) {
        Ok(reaction) => reaction,
        Err(fault) => return Err(blame(host.id(), fault)),
    };
    let notes = host.notes(records.as_slice())?;
    Ok(Done { notes, sends })
}

fn act<R: Wait, D: CrashDisk>(
    alloc: Global,
    rt: &R,
    pool: &BlockPool,
    sites: &mut Vec<Site<D>>,
    tick: u32,
    deed: &Deed,
    done: Option<JobDone>,
) -> Result<Done, WorldFault>
    requires ready { AreReady D.face pool.now (hosts_of sites.old.items) }
    requires heard { IsHeard deed.now.input }
    requires done { IfSome done (IsResultOf pool.now deed.now.input) }
    ensures sends { IfOk result
        (λ d. d.sends
        ≡ (reaction_at tick (peer_at deed.now.peer (peers_of D.face (hosts_of sites.old.items)))
        deed.now.input).sends) }
    ensures notes { IfOk result
        (λ d. d.notes
        ≡ notes_at (peer_at deed.now.peer (peers_of D.face (hosts_of sites.old.items)))
        (reaction_at tick (peer_at deed.now.peer (peers_of D.face (hosts_of sites.old.items)))
        deed.now.input).records) }
    ensures peers { OnOk result
        (peers_of D.face (hosts_of sites.new.items)
        ≡ with_records deed.now.peer
        (reaction_at tick (peer_at deed.now.peer (peers_of D.face (hosts_of sites.old.items)))
        deed.now.input).records (peers_of D.face (hosts_of sites.old.items))) }
    ensures on { OnOk result (HaveGoneOn D.face (hosts_of sites.old.items) (hosts_of sites.new.items)) }
    ensures fallen { OnErr result
        (HaveFallen D.face (hosts_of sites.old.items)
        (with_records deed.now.peer
        (reaction_at tick (peer_at deed.now.peer (peers_of D.face (hosts_of sites.old.items)))
        deed.now.input).records (peers_of D.face (hosts_of sites.old.items))) (hosts_of sites.new.items)) }
    ensures counted { Counted D.face sites.old.items sites.new.items result }
    ensures power { Powered D.face [] [] sites.old.items sites.new.items }
{
    let Some(place) = place_of(sites, deed.peer) else {
        return Ok(nothing_done(alloc));
    };
    match &mut sites[place] {
        Site::Host(host) => act_as(rt, pool, host, tick, &deed.input, done),
        Site::Idle(_) => unreachable!(),
    }
}

/// Takes an envelope out of those that wait.
pub fn forget(pending: &mut Vec<u32>, envelope: u32)
    ensures { pending.new.items ≡ filter (λ i. not (i == envelope)) pending.old.items }
{
    pending.retain(|i| *i != envelope);
}

/// An envelope that is delivered doesn't wait any more.
fn take_out(pending: &mut Vec<u32>, s: PeerStep)
    ensures { pending.new.items ≡ left_after s pending.old.items }
{
    match s {
        PeerStep::Deliver { envelope, .. } => forget(pending, envelope),
        PeerStep::OpenPoll { .. }
        | PeerStep::Widen { .. }
        | PeerStep::Shut { .. }
        | PeerStep::Tally { .. }
        | PeerStep::Nudge { .. }
        | PeerStep::GiveUp { .. }
        | PeerStep::Work { .. }
        | PeerStep::Expire { .. }
        | PeerStep::Check { .. }
        | PeerStep::Tune { .. } => {}
    }
}

/// Puts an envelope into the bag, where it waits.
pub fn put(
    bag: &mut Vec<Envelope>,
    pending: &mut Vec<u32>,
    envelope: Envelope,
) -> Result<(), OutOfMemory>
    requires { length bag.old.items < 4294967295 }
    ensures bag { OnOk result (bag.new.items ≡ bag.old.items ++ envelope ∷ []) }
    ensures pending { OnOk result (pending.new.items ≡ pending.old.items ++ length bag.old.items ∷ []) }
{
    pending.push(bag.len() as u32)?;
    bag.push(envelope)?;
    Ok(())
}

fn send(
    bag: &mut Vec<Envelope>,
    pending: &mut Vec<u32>,
    from: PeerId,
    sends: Seq<Outgoing>,
) -> Result<(), OutOfMemory>
    requires { length bag.old.items + length sends ≤ 4294967295 }
    ensures bag { OnOk result (bag.new.items ≡ bag.old.items ++ map (sent_by from) sends) }
    ensures pending { OnOk result
        (pending.new.items ≡ pending.old.items ++ range_with_len (length bag.old.items) (length sends)) }
{
    for outgoing in sends.into_vec() {
        let Outgoing { to, bytes } = outgoing;
        put(bag, pending, Envelope { from, to, bytes })?;
    }
    Ok(())
}

fn do_deed<R: Wait, D: CrashDisk>(
    alloc: Global,
    rt: &R,
    pool: &BlockPool,
    sites: &mut Vec<Site<D>>,
    tick: u32,
    deed: &Option<Deed>,
    done: Option<JobDone>,
) -> Result<Done, WorldFault>
    requires ready { AreReady D.face pool.now (hosts_of sites.old.items) }
    requires heard { IfSome deed.now (λ d. IsHeard d.input) }
    requires done { IfSome deed.now (λ d. IfSome done (IsResultOf pool.now d.input)) }
    ensures sends { IfOk result
        (λ d. d.sends ≡ (effect_of tick (peers_of D.face (hosts_of sites.old.items)) deed.now).sends) }
    ensures notes { IfOk result (λ d. d.notes ≡ notes_of tick (peers_of D.face (hosts_of sites.old.items)) deed.now) }
    ensures peers { OnOk result
        (peers_of D.face (hosts_of sites.new.items)
        ≡ peers_after tick (peers_of D.face (hosts_of sites.old.items)) deed.now) }
    ensures on { OnOk result (HaveGoneOn D.face (hosts_of sites.old.items) (hosts_of sites.new.items)) }
    ensures fallen { OnErr result
        (HaveFallen D.face (hosts_of sites.old.items)
        (peers_after tick (peers_of D.face (hosts_of sites.old.items)) deed.now) (hosts_of sites.new.items)) }
    ensures counted { Counted D.face sites.old.items sites.new.items result }
    ensures power { Powered D.face [] [] sites.old.items sites.new.items }
{
    match deed {
        Some(deed) => act(alloc, rt, pool, sites, tick, deed, done),
        None => Ok(nothing_done(alloc)),
    }
}

pub fn actor(deed: &Option<Deed>) -> PeerId
    ensures { result ≡ actor_of deed.now }
{
    match deed {
        Some(deed) => deed.peer,
        None => 0,
    }
}

/// Notes down what a step did, and raises its alarms. What it sends goes into the bag, and an envelope that it delivers
/// doesn't wait any more.
pub fn note_step<D: CrashDisk, J: EffortJudge, B: Bell>(
    state: &mut State<'_, D>,
    watch: &mut Watch<J, B>,
    s: PeerStep,
    event: Event,
    actor: PeerId,
    done: Done,
) -> Result<(), OutOfMemory>
    requires { length state.old.bag.items + length done.sends ≤ 4294967295 }
    ensures sites { state.new.sites.items ≡ state.old.sites.items }
    ensures pool { state.new.pool.now ≡ state.old.pool.now }
    ensures tick { state.new.tick ≡ state.old.tick }
    ensures bag { OnOk result (state.new.bag.items ≡ state.old.bag.items ++ map (sent_by actor) done.sends) }
    ensures pending { OnOk result
        (state.new.pending.items
        ≡ left_after s state.old.pending.items
        ++ range_with_len (length state.old.bag.items) (length done.sends)) }
    ensures history { OnOk result
        (state.new.history.items
        ≡ state.old.history.items
        ++ entry_for event (carried_envelope state.old.bag.items s) done.notes (length done.sends) ∷ []) }
    ensures err { OnErr result (state.new.history.items ≡ state.old.history.items) }
    ensures hears { Hears (ears J.heard J.verdict B.rung B.limit)
        (filter_map (alarm_noted actor state.old.tick) done.notes) watch.old watch.new result }
{
    let (from, to) = ends_of(&state.bag, s);
    let Done { notes, sends } = done;
    let count = sends.as_slice().len() as u32;
    take_out(&mut state.pending, s);
    send(&mut state.bag, &mut state.pending, actor, sends)?;
    state.history.reserve(1)?;
    watch.hear(actor, state.tick, notes.as_slice());
    state.history.push_reserved(Entry {
        event,
        from,
        to,
        notes,
        sends: count,
    });
    Ok(())
}

/// One step of a peer, which is this to it: its records are in its journal before its messages go into the bag and its
/// alarms are raised. After want of memory the state is that of no history.
#[tactic(auto, unfolding(lks_law::specs::World::happens, lks_law::specs::World::after_step, lks_law::specs::Entries::entry_of, crate::specs::States::sends_in))]
pub fn step<R: Wait, D: CrashDisk, J: EffortJudge, B: Bell>(
    alloc: Global,
    rt: &R,
    state: &mut State<'_, D>,
    watch: &mut Watch<J, B>,
    s: PeerStep,
    deed: &Option<Deed>,
    done: Option<JobDone>,
) -> Result<(), WorldFault>
    requires ready { AreReady D.face state.old.pool.now (hosts_of state.old.sites.items) }
    requires few { length state.old.bag.items + sends_in (world_in D.face state.old) s ≤ 4294967295 }
    requires deed { deed.now ≡ deed_of state.old.bag.items s }
    requires heard { IfSome deed.now (λ d. IsHeard d.input) }
    requires done { IfSome done (IsFor state.old.pool.now s) }
    ensures world { OnOk result (world_in D.face state.new ≡ happens (world_in D.face state.old) (events.Step s)) }
    ensures history { HasNoted (entry_of (world_in D.face state.old) (events.Step s)) state.old.history.items
        state.new.history.items result }
    ensures pending { OnOk result
        (state.new.pending.items
        ≡ left_after s state.old.pending.items
        ++ range_with_len (length state.old.bag.items) (sends_in (world_in D.face state.old) s)) }
    ensures on { OnOk result (HaveGoneOn D.face (hosts_of state.old.sites.items) (hosts_of state.new.sites.items)) }
    ensures fallen { OnErr result
        (HaveFallen D.face (hosts_of state.old.sites.items)
        (happens (world_in D.face state.old) (events.Step s)).peers (hosts_of state.new.sites.items)) }
    ensures counted { Counted D.face state.old.sites.items state.new.sites.items result
        × Powered D.face [] [] state.old.sites.items state.new.sites.items }
    ensures pool { state.new.pool.now ≡ state.old.pool.now }
    ensures hears { Hears (ears J.heard J.verdict B.rung B.limit)
        (alarms_by (world_in D.face state.old) (events.Step s)) watch.old watch.new result }
{
    let done = do_deed(
        alloc,
        rt,
        state.pool,
        &mut state.sites,
        state.tick,
        deed,
        done,
    )?;
    let event = Event::Step(s);
    Ok(note_step(state, watch, s, event, actor(deed), done)?)
}
