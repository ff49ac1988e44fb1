//! What is due is given out, event by event or as a job, and results of jobs come back.

ghost use Rattle.std.specs.Prelude.{◌≡◌, ◌++◌, ◌∷◌, [], ℕ, List, Some, None, IfOk, IfSome, OnOk, OnErr, find};
ghost use Rattle.std.specs.Prelude.{option_map, slice_get};
ghost use Rattle.std.specs.List.{flat_map};
ghost use Rattle.lks_blocks.specs.Block.{AllOf};
ghost use Rattle.lks_work.specs.Names.{is_left, name_done, name_of, refs_of};
ghost use Rattle.lks_world.specs.Beside.{unplaced_at, ArePooled, AreSameSites, IsPooled};
ghost use Rattle.lks_world.specs.Giving.{peer_named, site_works, without_job};
ghost use Rattle.lks_base.specs.declared.plans.Plan.{Plan};
ghost use Rattle.lks_world.specs.Handing.{Expects, IsExpectedAt, IsJobAt, IsNext, IsReadyAt};
ghost use Rattle.lks_world.specs.States.{IsStateOf, events_in};

use crate::settling::{OwnSteps, first_step, first_waiting};
use crate::sites::{Site, place_of};
use crate::states::State;
use lks_base::{Due, OutOfMemory, PeerId};
use lks_disk::{CrashDisk, Disk};
use lks_versions::PinTag;
use lks_work::{Job, JobDone, JobName};

/// What came of asking for something that is due.
#[derive(Drop)]
pub enum Taken {
    /// One event that was due was done, no work.
    Did,
    /// The job of ready work, which isn't out yet. No event.
    Work(Job),
    /// All that is due is work whose jobs are out.
    Out,
    /// Nothing is due, or the turns or the room for events are used up.
    Finished,
}

/// What came of a result that was given back.
#[derive(Clone, Copy, Debug, PartialEq, Eq)]
pub enum Back {
    /// Its work was done by it.
    Kept,
    /// Its work isn't ready any more, or is so for another version. No event.
    Stale {
        expected: Option<PinTag>,
        found: PinTag,
    },
    /// The turns or the room for events are used up. No event.
    Late,
}

impl<D: Disk> Site<D> {
    /// The first work that is ready there and none of these jobs.
    fn work_left(&self, out: &[JobName]) -> Option<JobName>
        ensures { result ≡ find (is_left out.now) (site_works self.now) }
    {
        match self {
            Site::Host(host) => host.work_left(out),
            Site::Idle(_) => None,
        }
    }

    /// The job of this work, for which the peer there is ready.
    fn job(&mut self, name: JobName) -> Result<Job, OutOfMemory>
        requires ready { IsReadyAt name self.old }
        ensures same { unplaced_at self.new ≡ unplaced_at self.old }
        ensures name { IfOk result (λ j. name_of j ≡ name) }
        ensures job { IfOk result (IsJobAt name self.old) }
        ensures of { (pool : List ℕ) → IsPooled pool self.old → IfOk result (λ j. AllOf pool (refs_of j)) }
    {
        match self {
            Site::Host(host) => match host.job(&name)? {
                Some(job) => Ok(job),
                None => unreachable!(),
            },
            Site::Idle(_) => unreachable!(),
        }
    }

    /// Over which version a result would be taken there now.
    fn expected(&mut self, done: &JobDone) -> Result<Option<PinTag>, OutOfMemory>
        ensures same { unplaced_at self.new ≡ unplaced_at self.old }
        ensures expected { IfOk result (IsExpectedAt done.now self.old) }
    {
        match self {
            Site::Host(host) => host.expected(done),
            Site::Idle(_) => Ok(None),
        }
    }
}

/// The first work, in the plan's order of peers, that is ready and none of these jobs, and where its peer sits.
pub fn work_left<D: Disk>(sites: &[Site<D>], out: &[JobName]) -> Option<(usize, JobName)>
    ensures first { option_map (λ r. r.1) result ≡ find (is_left out.now) (flat_map site_works sites.now) }
    ensures there { IfSome result
        (λ r. (site : Site D) × (slice_get sites.now r.0 ≡ Some site)
        × (find (is_left out.now) (site_works site) ≡ Some r.1)) }
{
    for place in 0..sites.len() {
        if let Some(name) = sites[place].work_left(out) {
            return Some((place, name));
        }
    }
    None
}

/// Hands out the job of this work, for which the peer that sits there is ready.
pub fn hand_out<D: Disk>(
    sites: &mut Vec<Site<D>>,
    out: &mut Vec<JobName>,
    place: usize,
    name: JobName,
) -> Result<Job, OutOfMemory>
    requires ready { (site : Site D) × (slice_get sites.old.items place ≡ Some site) × IsReadyAt name site }
    ensures same { AreSameSites sites.old.items sites.new.items }
    ensures out { OnOk result (out.new.items ≡ out.old.items ++ name ∷ []) }
    ensures err { OnErr result (out.new.items ≡ out.old.items) }
    ensures name { IfOk result (λ j. name_of j ≡ name) }
    ensures job { (site : Site D) → slice_get sites.old.items place ≡ Some site → IfOk result (IsJobAt name site) }
    ensures of { (pool : List ℕ) → ArePooled pool sites.old.items → IfOk result (λ j. AllOf pool (refs_of j)) }
{
    out.reserve(1)?;
    let job = sites[place].job(name)?;
    out.push_reserved(name);
    Ok(job)
}

/// What is due beside work.
pub enum NextDue {
    /// This comes first.
    Due(Due),
    /// No envelope waits, and work is ready.
    Work,
    /// Nothing is due.
    Nothing,
}

/// What is due beside work: the first envelope that waits, or a turn where there is neither this nor work.
pub fn next_beside_work<D: CrashDisk>(state: &State<'_, D>) -> NextDue
    ensures { (plan : Plan) → IsStateOf D.face plan state.now → IsNext plan (events_in state.now) result }
{
    if let Some(envelope) = first_waiting(state) {
        return NextDue::Due(Due::Delivery { envelope });
    }
    if first_step(&state.sites, OwnSteps::Ready).is_some() {
        return NextDue::Work;
    }
    match first_step(&state.sites, OwnSteps::Turns) {
        Some(due) => NextDue::Due(due),
        None => NextDue::Nothing,
    }
}

/// The job isn't out any more.
pub fn take_in(out: &mut Vec<JobName>, name: JobName)
    ensures { out.new.items ≡ without_job name out.old.items }
{
    out.retain(|other| !name.is(*other));
}

fn peer_of(name: JobName) -> PeerId
    ensures { result ≡ peer_named name }
{
    match name {
        JobName::Vote { peer, .. } | JobName::Tally { peer, .. } => peer,
    }
}

/// Over which version the result would be taken now: none where its peer isn't ready for such work.
pub fn expected<D: CrashDisk>(
    sites: &mut Vec<Site<D>>,
    done: &JobDone,
) -> Result<Option<PinTag>, OutOfMemory>
    ensures same { AreSameSites sites.old.items sites.new.items }
    ensures expected { IfOk result (Expects D.face done.now sites.old.items) }
{
    match place_of(sites, peer_of(done.name())) {
        Some(place) => sites[place].expected(done),
        None => Ok(None),
    }
}
