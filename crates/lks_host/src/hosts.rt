//! Hosts.

ghost use Rattle.std.specs.List.{filter_map};
ghost use Rattle.std.specs.Prelude.{◌≡◌, ◌≤◌, ◌+◌, ◌-◌, ◌*◌, [], ℕ, List, length, true, false, Some, None, Err, IfErr};
ghost use Rattle.std.specs.Prelude.{IfOk, IfSome, OnErr, IsSome, is_some, IsErrOf, find, map, option_map, slice_get};
ghost use Rattle.lks_base.specs.Checking.{plan_fault};
ghost use Rattle.lks_base.specs.declared.records.Record.{Record as Recorded};
ghost use Rattle.lks_disk.specs.Face.{HasFuse, HasLost};
ghost use Rattle.lks_host.specs.Behaving.{Behaves};
ghost use Rattle.lks_base.specs.declared.plans.PeerPlan.{PeerPlan as Planned};
ghost use Rattle.lks_host.specs.Bodies.{bodies_of};
ghost use Rattle.lks_host.specs.Faults.{as_journal, is_refused, IsFresh};
ghost use Rattle.lks_journal.specs.Adding.{KeepsOrAdds};
ghost use Rattle.lks_law.specs.Batches.{with_batch, alone};
ghost use Rattle.lks_law.specs.Entries.{note_with};
ghost use Rattle.lks_law.specs.Facts.{IsHeard};
ghost use Rattle.lks_law.specs.Table.{react_on};
ghost use Rattle.lks_law.specs.Turning.{ready_on, turns_on, has_inner_in};
ghost use Rattle.lks_law.specs.World.{deposits, station_of, standing_of, honest_peer};
ghost use Rattle.lks_blocks.specs.Block.{AllOf};
ghost use Rattle.lks_peer.specs.Accepting.{input_of, is_ready_for, tag_for, works_in, IsJobOf, StaysTold};
ghost use Rattle.lks_peer.specs.Knows.{knowing_of};
ghost use Rattle.lks_work.specs.Names.{is_left, name_of, refs_of, refs_done, tag_done};

use crate::answering::{answer, work_of};
use crate::beginnings::{begin_peer, missing_deposits};
use crate::deposits::write_each;
use crate::faults::HostFault;
use crate::outcomes::Recovered;
use crate::reading::read_journal;
use crate::writing::{keep, refusal};
use lks_base::{Input, Note, OutOfMemory, PeerId, PeerStep, Plan, Reaction, Record, Seq};
use lks_blocks::BlockPool;
use lks_disk::{CrashDisk, Disk};
use lks_journal::Journal;
use lks_peer::{AcceptFault, Peer};
use lks_versions::PinTag;
use lks_work::{Job, JobDone, JobName};
use std::alloc::Global;
use std::sync::Wait;

/// A peer, and the journal on its disk. What the peer stands for is what the disk holds, until a call is refused.
#[derive(Drop)]
pub struct Host<D: Disk> {
    alloc: Global,
    peer: Peer,
    journal: Journal<D>,
    broken: bool,
}

impl<D: Disk> Host<D> {
    ghost use Rattle.lks_host.specs.Fits.{AreFirst};
    ghost use Rattle.lks_host.specs.declared.faults.HostFault.TheVariants.{Memory};
    ghost use Rattle.lks_disk.specs.Device.{Only};
    ghost use Rattle.lks_host.specs.Adopting.{Adopts, IsReadAs, LeavesFront};
    ghost use Rattle.lks_host.specs.Hosted.{HasFront, Holds, StandsFor, answer_of, disk_hosted};
    ghost use Rattle.lks_journal.specs.Settled.{IsSettled};
    ghost use Rattle.lks_host.specs.Owners.{Owns};
    ghost use Rattle.lks_host.specs.Stepping.{CanStep, Stepped, IsWritten};
    ghost use Rattle.lks_host.specs.Working.{Expected, IsResultOf, IsSamePeer, MayBeStale};

    /// The honest peer `id` of a good plan, on an empty disk: its deposits are there, one batch each. Nothing is
    /// written before the peer is made.
    pub fn create<R: Wait>(
        alloc: Global,
        rt: &R,
        pool: &BlockPool,
        plan: &Plan,
        id: PeerId,
        disk: D,
    ) -> Result<Self, (D, HostFault)>
        requires good { plan_fault plan.now ≡ None }
        requires honest { IsSome (honest_peer id plan.now) }
        requires empty { D.face.told disk → D.face.seen disk ≡ [] }
        ensures peer { IfOk result
            (λ host. option_map (λ p. knowing_of pool.now (standing_of plan.now p)) (honest_peer id plan.now)
            ≡ Some host.peer) }
        ensures stands { D.face.told disk → (p : Planned) → honest_peer id plan.now ≡ Some p
            → IfOk result (λ host. StandsFor D.face host (map alone (standing_of plan.now p).journal)) }
        // Of a disk on which nothing was pending.
        ensures front { D.face.told disk → Only [] (D.face.may_leave disk) → (p : Planned)
            → honest_peer id plan.now ≡ Some p →
            OnErr result (HasFront D.face (map alone (standing_of plan.now p).journal) (disk_hosted result)) }
        ensures whole { IfOk result (λ host. host.broken ≡ false) }
        ensures end { IfOk result (λ host. host.journal.end ≤ 33558580) }
        ensures behaves { Behaves D.face disk (disk_hosted result) (as_journal (answer_of result)) }
        ensures fresh { IsFresh (answer_of result) }
    {
        Host::found(alloc, begin_peer(alloc, rt, pool, plan, id), disk)
    }

    /// The host of a peer that begins with these records, on an empty disk, one batch each. Where there is no peer,
    /// nothing is written.
    fn found(
        alloc: Global,
        begun: Result<(Peer, Vec<Record>), OutOfMemory>,
        disk: D,
    ) -> Result<Self, (D, HostFault)>
        requires empty { D.face.told disk → D.face.seen disk ≡ [] }
        requires fits { IfOk begun (λ p. AreFirst p.1.items) }
        ensures unmade { OnErr begun (result ≡ Err (disk, Memory)) }
        ensures peer { IfOk result (λ host. IfOk begun (λ p. host.peer ≡ p.0)) }
        ensures holds { D.face.told disk → IfOk result (λ host. IfOk begun (λ p. Holds D.face host [] p.1.items)) }
        ensures front { D.face.told disk → Only [] (D.face.may_leave disk)
            → OnErr result (IfOk begun (λ p. HasFront D.face (map alone p.1.items) (disk_hosted result))) }
        ensures whole { IfOk result (λ host. host.broken ≡ false) }
        ensures end { IfOk result (λ host. host.journal.end ≤ 33558580) }
        ensures behaves { Behaves D.face disk (disk_hosted result) (as_journal (answer_of result)) }
        ensures fresh { IsFresh (answer_of result) }
    {
        let (peer, list) = match begun {
            Ok(begun) => begun,
            Err(_) => return Err((disk, HostFault::Memory)),
        };
        match Journal::create(alloc, disk) {
            Ok(journal) => Host::over(alloc, peer, journal, &list),
            Err((disk, fault)) => Err((disk, refusal(fault))),
        }
    }

    /// The host of this peer over a journal to which these records are appended, one batch each.
    fn over(
        alloc: Global,
        peer: Peer,
        journal: Journal<D>,
        records: &[Record],
    ) -> Result<Self, (D, HostFault)>
        requires fits { AreFirst records.now }
        requires low { (records.now ≡ [] → ⊥) → journal.end ≤ 33558580 }
        requires settled { D.face.told journal.disk
            → (before : List (List Recorded)) × IsSettled D.face journal (bodies_of before) }
        ensures peer { IfOk result (λ host. host.peer ≡ peer) }
        ensures holds { D.face.told journal.disk → (before : List (List Recorded))
            → IsSettled D.face journal (bodies_of before)
            → IfOk result (λ host. Holds D.face host before records.now) }
        ensures front { D.face.told journal.disk → (before : List (List Recorded))
            → IsSettled D.face journal (bodies_of before) →
            OnErr result (LeavesFront D.face before (map alone records.now) (disk_hosted result)) }
        ensures idle { records.now ≡ [] → IfOk result (λ host. host.journal ≡ journal) }
        ensures whole { IfOk result (λ host. host.broken ≡ false) }
        ensures end { IfOk result (λ host. host.journal.end ≤ journal.end + length records.now * 8389645) }
        ensures behaves { Behaves D.face journal.disk (disk_hosted result) (as_journal (answer_of result)) }
        ensures fresh { IsFresh (answer_of result) }
    {
        let mut journal = journal;
        match write_each(alloc, &mut journal, records) {
            Ok(()) => Ok(Host {
                alloc,
                peer,
                journal,
                broken: false,
            }),
            Err(fault) => Err((journal.into_disk(), fault)),
        }
    }

    /// The host of the honest peer `id` of a good plan over a journal of unknown origin that was found to be its own:
    /// it was reopened, and its bodies were sorted, by which came this peer and these records. Where deposits are
    /// missing, they are appended, one batch each; else no call of the disk is made. Nothing goes into the pool, where
    /// sorting put the peer's blocks. Refused, it gives the disk back.
    ///
    /// Whose batches the disk holds was found out before, by sorting them; `recover` finds nothing out, and goes by
    /// what the host itself wrote.
    pub fn adopt(
        alloc: Global,
        plan: &Plan,
        id: PeerId,
        peer: Peer,
        journal: Journal<D>,
        list: &[Record],
    ) -> Result<Self, (D, HostFault)>
        requires good { plan_fault plan.now ≡ None }
        requires honest { IsSome (honest_peer id plan.now) }
        requires few { length list.now ≤ 1000000000 }
        requires owned { (bodies : List (List ℕ)) × IsReadAs D.face journal bodies ×
            ((p : Planned) → honest_peer id plan.now ≡ Some p
            → Owns (station_of plan.now p) plan.now.aus p.copies bodies list.now peer) }
        ensures peer { IfOk result (λ host. host.peer ≡ peer) }
        ensures adopts { (p : Planned) → honest_peer id plan.now ≡ Some p
            → Adopts D.face (deposits plan.now.aus p.copies) list.now journal result }
        ensures whole { IfOk result (λ host. host.broken ≡ false) }
        ensures end { IfOk result (λ host. host.journal.end ≤ journal.end + 33558580) }
        ensures behaves { Behaves D.face journal.disk (disk_hosted result) (as_journal (answer_of result)) }
        ensures fresh { IsFresh (answer_of result) }
    {
        match missing_deposits(alloc, plan, id, list.len()) {
            Ok(missing) => Host::over(alloc, peer, journal, &missing),
            Err(_) => Err((journal.into_disk(), HostFault::Memory)),
        }
    }

    /// What the peer adds to its journal and sends at this tick: for the input, or for a result of such work, if there
    /// is one. It is handed out once the records are on the disk, as one batch.
    fn act<R: Wait>(
        &mut self,
        rt: &R,
        pool: &BlockPool,
        tick: u32,
        input: &Input,
        done: Option<JobDone>,
    ) -> Result<Reaction, HostFault>
        requires can { CanStep D.face pool.now self.old }
        requires heard { IsHeard input.now }
        requires done { IfSome done (IsResultOf pool.now input.now) }
        ensures stepped { Stepped D.face self.old self.new
            (react_on self.old.peer.own self.old.peer.state tick input.now) result }
        ensures stands { D.face.told self.old.journal.disk → (batches : List (List Recorded))
            → StandsFor D.face self.old batches →
            IfOk result (λ r. StandsFor D.face self.new (with_batch batches r.records)) }
        ensures adds { D.face.told self.old.journal.disk → (batches : List (List Recorded))
            → StandsFor D.face self.old batches →
            KeepsOrAdds D.face self.old.journal self.new.journal (bodies_of batches)
            (bodies_of (with_batch batches (react_on self.old.peer.own self.old.peer.state tick input.now).records))
            (as_journal result) }
        ensures read { IsFresh result → (IsErrOf result HostFault.Memory → ⊥)
            → IsWritten self.old.peer.own self.old.peer.state
            (react_on self.old.peer.own self.old.peer.state tick input.now).records }
        ensures expected { IfOk result (λ _. Expected self.old.peer self.new.peer done) }
        ensures stale { IfErr result (MayBeStale self.old self.new done) }
    {
        let reaction = match answer(rt, pool, &mut self.peer, tick, input, done) {
            Ok(reaction) => reaction,
            Err(AcceptFault::Stale { expected, found }) => {
                return Err(HostFault::Stale { expected, found });
            }
            Err(AcceptFault::Memory) => {
                self.broken = true;
                return Err(HostFault::Memory);
            }
        };
        match keep(self.alloc, &mut self.journal, reaction.records.as_slice()) {
            Ok(()) => Ok(reaction),
            Err(fault) => {
                self.broken = true;
                Err(fault)
            }
        }
    }

    /// What the peer adds to its journal and sends at this tick. It is handed out once the records are on the disk,
    /// as one batch. After a refusal the host is broken.
    pub fn step<R: Wait>(
        &mut self,
        rt: &R,
        pool: &BlockPool,
        tick: u32,
        input: &Input,
    ) -> Result<Reaction, HostFault>
        requires can { CanStep D.face pool.now self.old }
        requires heard { IsHeard input.now }
        ensures stepped { Stepped D.face self.old self.new
            (react_on self.old.peer.own self.old.peer.state tick input.now) result }
        ensures stands { D.face.told self.old.journal.disk → (batches : List (List Recorded))
            → StandsFor D.face self.old batches →
            IfOk result (λ r. StandsFor D.face self.new (with_batch batches r.records)) }

        // After a fault, and after a crash at any moment, the disk holds the journal from before, or with the batch in
        // progress, which reads back.
        ensures adds { D.face.told self.old.journal.disk → (batches : List (List Recorded))
            → StandsFor D.face self.old batches →
            KeepsOrAdds D.face self.old.journal self.new.journal (bodies_of batches)
            (bodies_of (with_batch batches (react_on self.old.peer.own self.old.peer.state tick input.now).records))
            (as_journal result) }
        ensures read { (IsErrOf result HostFault.Memory → ⊥)
            → IsWritten self.old.peer.own self.old.peer.state
            (react_on self.old.peer.own self.old.peer.state tick input.now).records }
        ensures fresh { IsFresh result }
    {
        self.act(rt, pool, tick, input, None)
    }

    /// What the peer adds to its journal and sends at this tick for work that was hashed elsewhere: what `step` does
    /// for this work. `Stale` exactly where the peer isn't ready for such work, or is so for another version, and
    /// nothing changes then. After any other refusal the host is broken.
    pub fn accept<R: Wait>(
        &mut self,
        rt: &R,
        pool: &BlockPool,
        tick: u32,
        done: JobDone,
    ) -> Result<Reaction, HostFault>
        requires can { CanStep D.face pool.now self.old }
        requires of { AllOf pool.now (refs_done done) }
        ensures stepped { Stepped D.face self.old self.new
            (react_on self.old.peer.own self.old.peer.state tick (input_of done)) result }
        ensures stands { D.face.told self.old.journal.disk → (batches : List (List Recorded))
            → StandsFor D.face self.old batches →
            IfOk result (λ r. StandsFor D.face self.new (with_batch batches r.records)) }

        // As after a fault of `step`. A result that is stale leaves the journal as it is.
        ensures adds { D.face.told self.old.journal.disk → (batches : List (List Recorded))
            → StandsFor D.face self.old batches →
            KeepsOrAdds D.face self.old.journal self.new.journal (bodies_of batches)
            (bodies_of
            (with_batch batches
            (react_on self.old.peer.own self.old.peer.state tick (input_of done)).records))
            (as_journal result) }
        ensures read { IsFresh result → (IsErrOf result HostFault.Memory → ⊥)
            → IsWritten self.old.peer.own self.old.peer.state
            (react_on self.old.peer.own self.old.peer.state tick (input_of done)).records }
        ensures expected { IfOk result
            (λ _. tag_for self.old.peer.state self.new.peer.places done ≡ Some (tag_done done)) }
        ensures stale { IfErr result (MayBeStale self.old self.new (Some done)) }
    {
        let input = work_of(&done);
        self.act(rt, pool, tick, &input, Some(done))
    }

    /// The first work for which the peer is ready and whose job is none of these, in the order of `ready`.
    pub fn work_left(&self, out: &[JobName]) -> Option<JobName>
        ensures { result ≡ find (is_left out.now) (works_in self.now.peer.own self.now.peer.state) }
    {
        self.peer.work_left(out)
    }

    /// The work of this name as a job, to be hashed elsewhere. `None` exactly where the peer isn't ready for it.
    pub fn job(&mut self, name: &JobName) -> Result<Option<Job>, OutOfMemory>
        ensures ready { IfOk result (λ o. is_some o ≡ is_ready_for self.old.peer.own self.old.peer.state name.now) }
        ensures name { IfOk result (λ o. IfSome o (λ j. name_of j ≡ name.now)) }
        ensures job { IfOk result
            (λ o. IfSome o
            (IsJobOf self.old.peer.own self.old.peer.state self.old.peer.kept self.new.peer.places name.now)) }
        ensures of { IfOk result (λ o. IfSome o (λ j. AllOf self.old.peer.pool (refs_of j))) }
        ensures same { self.new ≡ record self.old { peer = self.new.peer } }
        ensures peer { IsSamePeer self.old.peer self.new.peer }
        ensures told { StaysTold self.old.peer.places self.new.peer.places }
    {
        self.peer.job(name)
    }

    /// Over which version such a result would be taken now: none where the peer isn't ready for this work.
    pub fn expected(&mut self, done: &JobDone) -> Result<Option<PinTag>, OutOfMemory>
        ensures tag { IfOk result (λ tag. tag ≡ tag_for self.old.peer.state self.new.peer.places done.now) }
        ensures same { self.new ≡ record self.old { peer = self.new.peer } }
        ensures peer { IsSamePeer self.old.peer self.new.peer }
        ensures told { StaysTold self.old.peer.places self.new.peer.places }
    {
        self.peer.expected(done)
    }

    /// The `k`-th of the steps for which the peer is ready, counted from 0 in order of its running polls.
    pub fn ready(&self, k: u32) -> Option<PeerStep>
        ensures { result ≡ slice_get (ready_on self.now.peer.own self.now.peer.state) k }
    {
        self.peer.ready(k)
    }

    /// The `k`-th of the steps that the peer takes in its running polls when nothing else is due, counted from 0 in
    /// their order.
    pub fn turn(&self, k: u32) -> Option<PeerStep>
        ensures { result ≡ slice_get (turns_on self.now.peer.own self.now.peer.state) k }
    {
        self.peer.turn(k)
    }

    /// What a report tells of records that the peer noted.
    pub fn notes(&self, records: &[Record]) -> Result<Seq<Note>, OutOfMemory>
        ensures { IfOk result (λ notes. notes ≡ filter_map (note_with (has_inner_in self.now.peer.state)) records.now) }
    {
        self.peer.notes(records)
    }

    /// The peer's number.
    pub fn id(&self) -> PeerId
        ensures { result ≡ self.now.peer.own.id }
    {
        self.peer.id()
    }

    /// A call was refused, and the host takes no further step.
    pub fn broken(&self) -> bool
        ensures { result ≡ self.now.broken }
    {
        self.broken
    }

    /// How many batches the journal holds.
    pub fn count(&self) -> u64
        ensures count { result ≡ self.now.journal.count }
        ensures all { (batches : List (List Recorded)) → StandsFor D.face self.now batches → result ≡ length batches }
    {
        self.journal.count()
    }

    /// How many bytes may still stand in the journal, behind its closed gate.
    pub fn room(&self) -> u64
        ensures { result ≡ 2147483647 - (self.now.journal.end + 1) }
    {
        self.journal.room()
    }

    /// The disk, as the host left it.
    pub fn into_disk(self) -> D
        ensures { result ≡ self.journal.disk }
    {
        let Host { journal, .. } = self;
        journal.into_disk()
    }
}

impl<D: CrashDisk> Host<D> {
    ghost use Rattle.lks_host.specs.Hosted.{StandsFor, LiesOn, IsMadeBy};
    ghost use Rattle.lks_host.specs.Recovering.{CanRecover, Recovers};

    /// Sets a fuse on the disk: so many writes and syncs pass, and the next one is cut off.
    pub fn fuse(&mut self, calls: u32, choice: u64)
        ensures stands { (batches : List (List Recorded)) → StandsFor D.face self.old batches
            → StandsFor D.face self.new batches }
        ensures peer { self.new.peer ≡ self.old.peer }
        ensures end { self.new.journal.end ≡ self.old.journal.end }
        ensures broken { self.new.broken ≡ self.old.broken }
        ensures fused { HasFuse D.face calls choice self.old.journal.disk self.new.journal.disk }
    {
        self.journal.fuse(calls, choice);
    }

    /// Cuts the power of the disk, which picks one outcome of a crash. The host is broken until it is recovered.
    pub fn power_cut(&mut self)
        ensures peer { self.new.peer ≡ self.old.peer }
        ensures count { self.new.journal.count ≡ self.old.journal.count }
        ensures end { self.new.journal.end ≡ self.old.journal.end }
        ensures broken { self.new.broken ≡ true }
        ensures lost { HasLost D.face self.old.journal.disk self.new.journal.disk }
        // A host that stood for its batches has them on its disk, and no others.
        ensures lies { (batches : List (List Recorded)) → StandsFor D.face self.old batches
            → LiesOn D.face self.new.peer.own self.new.journal.disk batches }
    {
        self.broken = true;
        self.journal.power_cut();
    }

    /// Reads the journal again after a call that was refused, or after a power cut, with the plan and the pool with
    /// which the host was made. At `Ok` the host stands for the batches that the disk held, and else it is broken, and
    /// can be recovered again.
    ///
    /// That the disk holds batches of this peer, which read back, is a condition: each disk does on which a host wrote.
    /// Of a disk that may hold anything, `Journal::reopen`, sorting and `adopt` make a host.
    pub fn recover<R: Wait>(
        &mut self,
        rt: &R,
        pool: &BlockPool,
        plan: &Plan,
    ) -> Result<Recovered, HostFault>
        requires can { CanRecover D.face pool.now self.old }
        requires made { IsMadeBy plan.now self.old.peer.own }
        ensures recovers { (batches : List (List Recorded))
            → LiesOn D.face self.old.peer.own self.old.journal.disk batches
            → Recovers D.face self.old self.new batches result }
        ensures broken { self.new.broken ≡ is_refused result }
        ensures own { self.new.peer.own ≡ self.old.peer.own }
        ensures pool { self.new.peer.pool ≡ self.old.peer.pool }
        ensures cut { IsErrOf result HostFault.Cut → ⊥ }
        ensures behaves { Behaves D.face self.old.journal.disk self.new.journal.disk (as_journal result) }
        ensures fresh { IsFresh result }
    {
        self.broken = true;
        let bodies = match self.journal.recover() {
            Ok(bodies) => bodies,
            Err(fault) => return Err(refusal(fault)),
        };
        let (list, last) = read_journal(self.alloc, &bodies)?;
        let peer = Peer::restore(self.alloc, rt, pool, plan, self.peer.id(), &list)?;
        self.peer = peer;
        self.broken = false;
        Ok(Recovered {
            count: self.journal.count(),
            last,
        })
    }
}
