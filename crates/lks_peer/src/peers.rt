//! A peer as others see it: what it goes by, and the state in which it is.

ghost use Rattle.std.specs.Prelude.{◌≡◌, ◌≤◌, ◌<◌, ◌++◌, ℕ, List, IfOk, IfErr, IfSome, IsSome, is_some, Some, None};
ghost use Rattle.std.specs.Prelude.{OnOk, nat_lt, length, find, option_map, map, slice_get};
ghost use Rattle.std.specs.List.{list_all, filter_map};
ghost use Rattle.std.specs.Option.{option_copied};
ghost use Rattle.lks_audit.specs.Kept.{kept_at, kept_of};
ghost use Rattle.lks_audit.specs.Seen.{poll_of, polls_of};
ghost use Rattle.lks_base.specs.Checking.{plan_fault};
ghost use Rattle.lks_blocks.specs.Block.{AllOf};
ghost use Rattle.lks_base.specs.declared.events.PeerStep.TheVariants as steps;
ghost use Rattle.lks_base.specs.declared.plans.PeerPlan.{PeerPlan as Planned};
ghost use Rattle.lks_law.specs.Due as due;
ghost use Rattle.lks_law.specs.Entries.{note_with};
ghost use Rattle.lks_versions.specs.Shelf.{current_of};
ghost use Rattle.lks_law.specs.Facts.{IsHeard};
ghost use Rattle.lks_law.specs.Fitting.{AreFitting, Fits, most_numbered};
ghost use Rattle.lks_law.specs.Fitting as fitting;
ghost use Rattle.lks_law.specs.Table.{react_on};
ghost use Rattle.lks_law.specs.State.{after, after_all, blank, poll_at};
ghost use Rattle.lks_law.specs.Turning.{ready_in, turn_in, ready_on, turns_on, has_inner_in};
ghost use Rattle.lks_law.specs.World.{station_of, is_honest_at, honest_peer};
ghost use Rattle.lks_peer.specs.Accepting.{input_of, is_ready_for, tag_for, works_in, IsJobOf, IsRefused, StaysTold};
ghost use Rattle.lks_peer.specs.Accepting.{WhereStale};
ghost use Rattle.lks_peer.specs.Keeping.{Keeps, kept_after, kept_after_all};
ghost use Rattle.lks_peer.specs.Knows.{state_of, IsFit, IsWell, IsMade, knowing_of};
ghost use Rattle.lks_sessions.specs.Kept.{voter_of};
ghost use Rattle.lks_work.specs.Names.{is_left, name_of, refs_of, refs_done, tag_done};

use crate::faults::AcceptFault;
use crate::jobs;
use crate::jobs::{is_tag, places_of};
use crate::known::{Known, apply};
use crate::notes::notes;
use crate::reacting::{react, react_done};
use lks_audit::{Copies, Held, Polls, Station, find_poll};
use lks_base::{
    Input, Note, Numbers, OutOfMemory, PeerId, PeerPlan, PeerStep, Plan, Reaction, Record, Seq,
    has_member,
};
use lks_blocks::{BlockPool, PoolMark};
use lks_choice::References;
use lks_poller::PollSession;
use lks_sessions::Sessions;
use lks_versions::{PinTag, Place};
use lks_work::{Job, JobDone, JobName};
use std::alloc::Global;
use std::marker::Model;
use std::sync::Wait;

/// The honest peer of this number.
pub fn find_honest(peers: &[PeerPlan], id: PeerId) -> Option<&PeerPlan>
    ensures { option_copied result ≡ find (is_honest_at id) peers.now }
{
    peers.iter().find(|p| p.id == id && !p.corrupt)
}

/// What a peer with no records knows.
fn know_nothing(alloc: Global, own: &Station) -> Result<Known, OutOfMemory>
    ensures { IfOk result (λ known. IsMade own.now known) }
{
    Ok(Known {
        numbers: Numbers {
            quorum: own.rules.quorum,
            minority: own.rules.minority,
            repairs: own.rules.repairs,
        },
        openings: 0,
        copies: Copies::new(alloc),
        polls: Polls::new(alloc),
        references: References::new(alloc, own.id, own.refs.clone()?, own.friends.clone()?),
        sessions: Sessions::new(alloc),
    })
}

#[tactic(auto, using(crate::proofs::Welling::well_noted))]
fn note<R: Wait>(
    alloc: Global,
    rt: &R,
    pool: &BlockPool,
    own: &Station,
    known: &mut Known,
    r: &Record,
) -> Result<(), OutOfMemory>
    requires well { IsWell own.now pool.now known.old }
    requires fits { Fits own.now (state_of known.old) r.now }
    ensures state { OnOk result (state_of known.new ≡ after own.now (state_of known.old) r.now) }
    ensures kept { OnOk result
        (kept_of known.new.polls ≡ kept_after (state_of known.old).polls r.now (kept_of known.old.polls)) }
    ensures well { IsWell own.now pool.now known.new }
{
    apply(alloc, rt, pool, own, known, r)
}

/// Notes these records, one after another. For want of memory some of them are noted.
fn apply_all<R: Wait>(
    alloc: Global,
    rt: &R,
    pool: &BlockPool,
    own: &Station,
    known: &mut Known,
    records: &[Record],
) -> Result<(), OutOfMemory>
    requires well { IsWell own.now pool.now known.old }
    requires fits { AreFitting own.now (state_of known.old) records.now }
    ensures state { OnOk result (state_of known.new ≡ after_all own.now (state_of known.old) records.now) }
    ensures kept { OnOk result
        (kept_of known.new.polls
        ≡ kept_after_all own.now (state_of known.old) records.now (kept_of known.old.polls)) }
    ensures well { IsWell own.now pool.now known.new }
{
    for r in records {
        note(alloc, rt, pool, own, known, r)?;
    }
    Ok(())
}

fn have_versions_left(copies: &[Held]) -> bool
    ensures { result ≡ list_all (λ h. nat_lt (current_of h.versions) most_numbered) copies.now }
{
    copies.iter().all(|held| held.versions.current() < u32::MAX)
}

/// Whether a poll, a version and a vote more can be numbered in 32 bits. A journal of fewer than 4,294,967,295 records
/// leaves that room (`every_journal_fits` of `lks_law`).
#[tactic(auto, using(crate::proofs::Listing::left_seen))]
fn has_room(known: &Known) -> bool
    ensures { result ≡ fitting.has_room (state_of known.now) }
{
    known.openings < u32::MAX
        && have_versions_left(known.copies.as_slice())
        && known.sessions.has_marks_left()
}

fn ready_of(id: PeerId, poll: &PollSession) -> Option<PeerStep>
    ensures { result ≡ ready_in id (poll_of poll.now) }
{
    if poll.is_shut() && poll.unanswered().is_none() {
        Some(PeerStep::Tally {
            peer: id,
            number: poll.poll().number,
        })
    } else {
        None
    }
}

fn turn_at(id: PeerId, number: u32, asked: bool, voting: bool, widened: bool) -> Option<PeerStep>
    ensures { result ≡ due.turn_at id number asked voting widened }
{
    if asked {
        Some(PeerStep::GiveUp { peer: id, number })
    } else if !voting {
        None
    } else if widened {
        Some(PeerStep::Shut { peer: id, number })
    } else {
        Some(PeerStep::Widen { peer: id, number })
    }
}

fn turn_of(id: PeerId, poll: &PollSession) -> Option<PeerStep>
    ensures { result ≡ turn_in id (poll_of poll.now) }
{
    let number = poll.poll().number;
    let asked = poll.unanswered().is_some();
    turn_at(id, number, asked, !poll.is_shut(), poll.outer().is_some())
}

fn find_tally(id: PeerId, polls: &[PollSession], k: u32) -> Option<PeerStep>
    ensures { result ≡ slice_get (filter_map (λ s. ready_in id (poll_of s)) polls.now) k }
{
    let mut left = k;
    for poll in polls {
        if let Some(step) = ready_of(id, poll) {
            if left == 0 {
                return Some(step);
            }
            left -= 1;
        }
    }
    None
}

#[tactic(auto, using(crate::proofs::Listing::ready_first))]
fn find_ready(id: PeerId, known: &Known, k: u32) -> Option<PeerStep>
    ensures { result
        ≡ slice_get
        (map (λ p. steps.Work id p.committed.joined.poll) (voter_of known.now.sessions).pinned
        ++ filter_map (ready_in id) (polls_of known.now.polls)) k }
{
    let votes = known.sessions.pinned_count();
    if (k as usize) < votes {
        return known.sessions.ready(id, k);
    }
    find_tally(id, known.polls.as_slice(), k - votes as u32)
}

fn find_turn(id: PeerId, polls: &[PollSession], k: u32) -> Option<PeerStep>
    ensures { result ≡ slice_get (filter_map (λ s. turn_in id (poll_of s)) polls.now) k }
{
    let mut left = k;
    for poll in polls {
        if let Some(step) = turn_of(id, poll) {
            if left == 0 {
                return Some(step);
            }
            left -= 1;
        }
    }
    None
}

/// A peer of a plan. It is in the state that its journal says, and moves with each record.
#[derive(Drop)]
pub struct Peer {
    alloc: Global,
    own: Station,
    mark: PoolMark,
    known: Known,
    // Where its deposits stand in the pool, once it was asked for.
    places: Seq<Place>,
}

impl Model for Peer {
    ghost use Rattle.lks_audit.specs.Kept.{kept_of};
    ghost use Rattle.lks_peer.specs.Knows.{Knowing, state_of, IsWell};

    ghost Value = { Knowing };

    ghost view = { λ a.
        record {
          own = a.own;
          pool = a.mark;
          state = state_of a.known;
          kept = kept_of a.known.polls;
          places = a.places;
        } };

    ghost invariant = { λ a. IsWell a.own a.mark a.known };
}

impl Peer {
    fn begin<R: Wait>(
        alloc: Global,
        rt: &R,
        pool: &BlockPool,
        own: Station,
        list: &[Record],
    ) -> Result<Peer, OutOfMemory>
        requires fit { IsFit own (blank own) }
        requires fits { AreFitting own (blank own) list.now }
        ensures { IfOk result (λ peer. peer ≡ knowing_of pool.now (record { own = own; journal = list.now })) }
    {
        let mut known = know_nothing(alloc, &own)?;
        apply_all(alloc, rt, pool, &own, &mut known, list)?;
        Ok(Peer {
            alloc,
            own,
            mark: PoolMark::of(pool),
            known,
            places: Seq::from_vec(Vec::new(alloc)),
        })
    }

    /// The honest peer `id` of a good plan, with a journal of its own, whose blocks go into the pool.
    pub fn restore<R: Wait>(
        alloc: Global,
        rt: &R,
        pool: &BlockPool,
        plan: &Plan,
        id: PeerId,
        list: &[Record],
    ) -> Result<Peer, OutOfMemory>
        requires good { plan_fault plan.now ≡ None }
        requires honest { IsSome (honest_peer id plan.now) }
        requires fits { (p : Planned) → honest_peer id plan.now ≡ Some p
            → AreFitting (station_of plan.now p) (blank (station_of plan.now p)) list.now }
        ensures { IfOk result
            (λ peer. option_map
            (λ p. knowing_of pool.now (record { own = station_of plan.now p; journal = list.now }))
            (honest_peer id plan.now)
            ≡ Some peer) }
    {
        let Some(planned) = find_honest(plan.peers.as_slice(), id) else {
            unreachable!()
        };
        let own = Station::new(alloc, plan, planned)?;
        Peer::begin(alloc, rt, pool, own, list)
    }

    /// What the peer adds to its journal and sends at this tick. It is afterwards in the state that these records make
    /// of the one before. After a refusal it is to be restored. It is refused, too, where nothing more can be numbered
    /// in 32 bits, to which no history comes.
    pub fn step<R: Wait>(
        &mut self,
        rt: &R,
        pool: &BlockPool,
        tick: u32,
        input: &Input,
    ) -> Result<Reaction, OutOfMemory>
        requires pool { pool.now ≡ self.old.pool }
        requires heard { IsHeard input.now }
        ensures reaction { IfOk result (λ r. r ≡ react_on self.old.own self.old.state tick input.now) }
        ensures state { IfOk result (λ r. self.new.state ≡ after_all self.old.own self.old.state r.records) }
        ensures fits { IfOk result (λ r. AreFitting self.old.own self.old.state r.records) }
        ensures fit { IsFit self.old.own self.old.state }
        ensures kept { IfOk result
            (λ r. Keeps self.old.own self.old.state input.now r.records self.old.kept self.new.kept) }
        ensures own { self.new.own ≡ self.old.own }
        ensures pool { self.new.pool ≡ self.old.pool }
        ensures places { self.new.places ≡ self.old.places }
    {
        if !has_room(&self.known) {
            return Err(OutOfMemory);
        }
        let reaction = react(self.alloc, &self.own, pool, &mut self.known, tick, input)?;
        let records = reaction.records.as_slice();
        apply_all(self.alloc, rt, pool, &self.own, &mut self.known, records)?;
        Ok(reaction)
    }

    /// Has it known where the deposits stand in the pool.
    #[tactic(auto, using(crate::proofs::Handing::told_first, crate::proofs::Handing::told_same))]
    fn tell(&mut self) -> Result<(), OutOfMemory>
        ensures same { self.new ≡ record self.old { places = self.new.places } }
        ensures told { StaysTold self.old.places self.new.places }
        ensures fit { IsFit self.old.own self.old.state }
    {
        if self.places.as_slice().is_empty() {
            self.places = places_of(self.alloc, self.known.copies.as_slice())?;
        }
        Ok(())
    }

    /// The first work for which the peer is ready and whose job is none of these: the votes of its sessions in order of
    /// their commitments, and then the tallies in order of its running polls.
    pub fn work_left(&self, out: &[JobName]) -> Option<JobName>
        ensures { result ≡ find (is_left out.now) (works_in self.now.own self.now.state) }
    {
        jobs::work_left(self.own.id, &self.known, out)
    }

    /// The work of this name as a job, to be hashed elsewhere: a vote over the version to which the peer committed, or
    /// the votes of a poll of its own with the newest version of its copy. `None` exactly where the peer isn't ready
    /// for it.
    pub fn job(&mut self, name: &JobName) -> Result<Option<Job>, OutOfMemory>
        ensures ready { IfOk result (λ o. is_some o ≡ is_ready_for self.old.own self.old.state name.now) }
        ensures name { IfOk result (λ o. IfSome o (λ j. name_of j ≡ name.now)) }
        ensures job { IfOk result
            (λ o. IfSome o (IsJobOf self.old.own self.old.state self.old.kept self.new.places name.now)) }
        ensures of { IfOk result (λ o. IfSome o (λ j. AllOf self.old.pool (refs_of j))) }
        ensures same { self.new ≡ record self.old { places = self.new.places } }
        ensures told { StaysTold self.old.places self.new.places }
    {
        self.tell()?;
        jobs::job(
            self.alloc,
            &self.own,
            &self.known,
            self.places.as_slice(),
            name,
        )
    }

    /// Over which version such a result would be taken now: none where the peer isn't ready for this work.
    pub fn expected(&mut self, done: &JobDone) -> Result<Option<PinTag>, OutOfMemory>
        ensures tag { IfOk result (λ tag. tag ≡ tag_for self.old.state self.new.places done.now) }
        ensures same { self.new ≡ record self.old { places = self.new.places } }
        ensures told { StaysTold self.old.places self.new.places }
    {
        self.tell()?;
        Ok(jobs::tag_for(&self.known, self.places.as_slice(), done))
    }

    fn take<R: Wait>(
        &mut self,
        rt: &R,
        pool: &BlockPool,
        tick: u32,
        done: JobDone,
    ) -> Result<Reaction, OutOfMemory>
        requires pool { pool.now ≡ self.old.pool }
        requires refs { AllOf pool.now (refs_done done) }
        ensures reaction { IfOk result (λ r. r ≡ react_on self.old.own self.old.state tick (input_of done)) }
        ensures state { IfOk result (λ r. self.new.state ≡ after_all self.old.own self.old.state r.records) }
        ensures fits { IfOk result (λ r. AreFitting self.old.own self.old.state r.records) }
        ensures fit { IsFit self.old.own self.old.state }
        ensures kept { IfOk result
            (λ r. Keeps self.old.own self.old.state (input_of done) r.records self.old.kept self.new.kept) }
        ensures own { self.new.own ≡ self.old.own }
        ensures pool { self.new.pool ≡ self.old.pool }
        ensures places { self.new.places ≡ self.old.places }
    {
        if !has_room(&self.known) {
            return Err(OutOfMemory);
        }
        let reaction = react_done(self.alloc, &self.own, pool, &mut self.known, tick, done)?;
        let records = reaction.records.as_slice();
        apply_all(self.alloc, rt, pool, &self.own, &mut self.known, records)?;
        Ok(reaction)
    }

    /// What the peer adds to its journal and sends at this tick for work that was hashed elsewhere: what `step` does
    /// for this work. Where the result isn't of the session or poll as it is now, though it is of the same version, the
    /// peer hashes for itself. `Stale` exactly where it isn't ready for such work, or is so for another version, and
    /// nothing changes then. After want of memory it is to be restored.
    pub fn accept<R: Wait>(
        &mut self,
        rt: &R,
        pool: &BlockPool,
        tick: u32,
        done: JobDone,
    ) -> Result<Reaction, AcceptFault>
        requires pool { pool.now ≡ self.old.pool }
        requires refs { AllOf pool.now (refs_done done) }
        ensures reaction { IfOk result (λ r. r ≡ react_on self.old.own self.old.state tick (input_of done)) }
        ensures state { IfOk result (λ r. self.new.state ≡ after_all self.old.own self.old.state r.records) }
        ensures fits { IfOk result (λ r. AreFitting self.old.own self.old.state r.records) }
        ensures fit { IsFit self.old.own self.old.state }
        ensures kept { IfOk result
            (λ r. Keeps self.old.own self.old.state (input_of done) r.records self.old.kept self.new.kept) }
        ensures own { self.new.own ≡ self.old.own }
        ensures pool { self.new.pool ≡ self.old.pool }
        ensures told { StaysTold self.old.places self.new.places }
        ensures ready { IfOk result (λ _. tag_for self.old.state self.new.places done ≡ Some (tag_done done)) }
        ensures stale { IfErr result
            (λ fault. IsRefused (tag_for self.old.state self.new.places done) (tag_done done) fault) }
        ensures same { IfErr result
            (λ fault. WhereStale fault (self.new ≡ record self.old { places = self.new.places })) }
    {
        self.tell()?;
        let expected = jobs::tag_for(&self.known, self.places.as_slice(), &done);
        let found = done.tag();
        if !is_tag(expected, found) {
            return Err(AcceptFault::Stale { expected, found });
        }
        let reaction = self.take(rt, pool, tick, done)?;
        Ok(reaction)
    }

    /// The `k`-th of the steps for which the peer is ready, counted from 0: the votes of its sessions in order of their
    /// commitments, and then the tallies in order of its running polls.
    #[tactic(auto, unfolding(lks_law::specs::Turning::works_on, lks_law::specs::Turning::tallies_on))]
    pub fn ready(&self, k: u32) -> Option<PeerStep>
        ensures { result ≡ slice_get (ready_on self.now.own self.now.state) k }
    {
        find_ready(self.own.id, &self.known, k)
    }

    /// The `k`-th of the steps that the peer takes in its running polls when nothing else is due, counted from 0 in
    /// their order: a request is given up, else the outer circle is invited, else the poll is shut.
    #[tactic(auto, unfolding(lks_law::specs::Turning::turns_on), using(crate::proofs::Listing::steps_seen))]
    pub fn turn(&self, k: u32) -> Option<PeerStep>
        ensures { result ≡ slice_get (turns_on self.now.own self.now.state) k }
    {
        find_turn(self.own.id, self.known.polls.as_slice(), k)
    }

    /// What a report tells of records that the peer noted.
    pub fn notes(&self, records: &[Record]) -> Result<Seq<Note>, OutOfMemory>
        ensures { IfOk result (λ notes. notes ≡ filter_map (note_with (has_inner_in self.now.state)) records.now) }
    {
        notes(self.alloc, self, records)
    }

    /// Whether the peer's running poll `number` has this peer in its inner circle.
    #[tactic(auto, unfolding(lks_law::specs::Turning::has_inner_in))]
    pub(crate) fn has_inner(&self, number: u32, voter: PeerId) -> bool
        ensures { result ≡ has_inner_in self.now.state number voter }
    {
        match find_poll(self.known.polls.as_slice(), number) {
            Some(poll) => has_member(poll.inner(), voter),
            None => false,
        }
    }

    /// For how many blocks, from the first one on, the running poll `number` keeps the running hashes of its votes.
    pub fn kept(&self, number: u32) -> Option<u16>
        ensures kept { result ≡ kept_at number self.now.kept }
        ensures running { is_some result ≡ is_some (poll_at number self.now.state.polls) }
    {
        match find_poll(self.known.polls.as_slice(), number) {
            Some(poll) => Some(poll.kept()),
            None => None,
        }
    }

    /// The peer's number.
    pub fn id(&self) -> PeerId
        ensures { result ≡ self.now.own.id }
    {
        self.own.id
    }
}
