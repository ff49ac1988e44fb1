//! The farm.

ghost use Rattle.std.specs.Prelude.{◌≡◌, ◌<◌, ◌≤◌, [], ◌∷◌, ◌++◌, None, Some, length, vec_len, vec_capacity, IfOk};
ghost use Rattle.std.specs.Prelude.{IfErr, IfNone, IfSome, IsNone, OnOk};
ghost use Rattle.lks_blocks.specs.Block.{AllOf};
ghost use Rattle.lks_farm.specs.declared.jobs.JobNumber.{JobNumber};
ghost use Rattle.lks_farm.specs.Ends.{IsClosed, times};
ghost use Rattle.lks_farm.specs.Entries.{asked_of, entry_done, entry_of, refs_of, under};
ghost use Rattle.lks_farm.specs.Seats.{AreFresh, AreSeatsOf, all_collected, all_handed, all_offered, all_taken};
ghost use Rattle.lks_farm.specs.Seats.{jobs_view, next_number, results_view};
ghost use Rattle.lks_farm.specs.Sharing.{Moment, view_knowing};

use crate::jobs::{FarmDone, FarmJob, JobNumber};
use crate::queues::{Hand, Queue};
use crate::rule::NamesPool;
use crate::seats::Seat;
use lks_base::OutOfMemory;
use lks_blocks::{BlockPool, PoolMark};
use lks_work::Job;
use std::alloc::Global;
use std::marker::{Brand, Model};
use std::sync::Wait;

/// Two bounded queues, one of jobs and one of their results, over the blocks of one pool.
#[derive(Drop)]
pub struct Farm {
    jobs: Queue<FarmJob>,
    results: Queue<FarmDone>,
    pool: PoolMark,
}

impl Model for Farm {
    ghost use Rattle.std.specs.Prelude.{◌≡◌};
    ghost use Rattle.lks_farm.specs.Seats.{FarmSeen};

    ghost Value = { FarmSeen };

    ghost view = { λ f.
        record {
          name = record { jobs = f.jobs.table; results = f.results.table; pool = f.pool };
          room = f.jobs.room;
        } };

    ghost invariant = { λ f. f.results.room ≡ f.jobs.room };
}

/// A farm with all its seats.
#[derive(Drop)]
pub struct FarmSet {
    pub farm: Farm,
    pub seats: Vec<Seat>,
}

/// What is left in a farm that is closed: the jobs that nobody took and the results that nobody collected.
#[derive(Drop)]
pub struct FarmEnd {
    pub jobs: Vec<FarmJob>,
    pub done: Vec<FarmDone>,
}

impl Farm {
    /// A farm over the blocks of this pool, with room for as many jobs and as many results, and all its seats.
    pub fn new(
        alloc: Global,
        pool: &BlockPool,
        room: u16,
        seats: u16,
    ) -> Result<FarmSet, OutOfMemory>
        requires room { 1 ≤ room }
        requires seats { (1 ≤ seats) × (seats ≤ 128) }
        ensures farm { IfOk result (λ set. (set.farm.name.pool ≡ pool.now) × (set.farm.room ≡ room)) }
        ensures count { IfOk result (λ set. vec_len set.seats ≡ seats) }
        ensures fresh { IfOk result (λ set. AreFresh set.farm.name 0 set.seats.items) }
        ensures all { IfOk result (λ set. AreSeatsOf set.farm.name set.seats.items) }
    {
        Farm::named::<Brand>(alloc, PoolMark::of(pool), room, seats)
    }

    fn named<N: NamesPool>(
        alloc: Global,
        pool: PoolMark,
        room: u16,
        seats: u16,
    ) -> Result<FarmSet, OutOfMemory>
        requires room { 1 ≤ room }
        requires seats { (1 ≤ seats) × (seats ≤ 128) }
        requires pool { pool ≡ N.pool }
        ensures farm { IfOk result (λ set. (set.farm.name.pool ≡ pool) × (set.farm.room ≡ room)) }
        ensures count { IfOk result (λ set. vec_len set.seats ≡ seats) }
        ensures fresh { IfOk result (λ set. AreFresh set.farm.name 0 set.seats.items) }
        ensures all { IfOk result (λ set. AreSeatsOf set.farm.name set.seats.items) }
    {
        let (jobs, jobs_hand) = Queue::new::<N>(alloc, usize::from(room))?;
        let (results, results_hand) = Queue::new::<N>(alloc, usize::from(room))?;
        let farm = Farm {
            jobs,
            results,
            pool,
        };
        let seats = farm.seat_all(alloc, jobs_hand, results_hand, seats)?;
        Ok(FarmSet { farm, seats })
    }

    /// Gives each seat a part of either right, and the last one all parts that are left.
    fn seat_all(
        &self,
        alloc: Global,
        mut jobs: Hand<FarmJob>,
        mut results: Hand<FarmDone>,
        count: u16,
    ) -> Result<Vec<Seat>, OutOfMemory>
        requires of { (jobs.table ≡ self.now.name.jobs) × (results.table ≡ self.now.name.results) }
        requires jobs { jobs.knows ≡ view_knowing 128 self.now.name.pool [] [] }
        requires results { results.knows ≡ view_knowing 128 self.now.name.pool [] [] }
        requires count { (1 ≤ count) × (count ≤ 128) }
        ensures count { IfOk result (λ seats. vec_len seats ≡ count) }
        ensures fresh { IfOk result (λ seats. AreFresh self.now.name 0 seats.items) }
        ensures all { IfOk result (λ seats. AreSeatsOf self.now.name seats.items) }
    {
        let mut seats = Vec::with_capacity(alloc, usize::from(count))?;
        for number in 0..count - 1 {
            let mine = self.jobs.split(&mut jobs);
            let theirs = self.results.split(&mut results);
            seats.push_reserved(Seat::new(number, mine, theirs));
        }
        seats.push_reserved(Seat::new(count - 1, jobs, results));
        Ok(seats)
    }

    /// Offers a job to all seats. It comes back, and nothing is changed, where the queue of jobs was full.
    pub fn offer<R: Wait>(&self, rt: &R, seat: &mut Seat, job: Job) -> Result<(), Job>
        requires of { seat.old.badge.farm ≡ self.now.name }
        requires few { length seat.old.offered < 4294967295 }
        requires pool { AllOf self.now.name.pool (refs_of (asked_of job)) }
        ensures ok { OnOk result
            (seat.new ≡ record seat.old { offered = seat.old.offered ++ under (next_number seat.old) job ∷ [] }) }
        ensures back { IfErr result
            (λ back. (back ≡ job) × (seat.new ≡ seat.old) × Moment self.now.room (jobs_view seat.old)) }
    {
        let number = JobNumber {
            seat: seat.number,
            count: seat.offers,
        };
        match self.jobs.push(rt, &mut seat.jobs, FarmJob { number, job }) {
            Ok(()) => {
                seat.offers += 1;
                Ok(())
            }
            Err(
                FarmJob {
                    number: _number,
                    job,
                },
            ) => Err(job),
        }
    }

    /// Takes a job, which the seat then holds until its result is handed in. There is none where the queue of jobs was
    /// empty.
    pub fn take<R: Wait>(&self, rt: &R, seat: &mut Seat) -> Option<FarmJob>
        requires of { seat.old.badge.farm ≡ self.now.name }
        requires free { IsNone seat.old.held }
        ensures some { IfSome result (λ f. seat.new ≡ record seat.old { held = Some (entry_of f) }) }
        ensures pool { IfSome result (λ f. AllOf self.now.name.pool (refs_of (asked_of f.job))) }
        ensures none { IfNone result ((seat.new ≡ seat.old) × Moment 0 (jobs_view seat.old)) }
    {
        let taken = self.jobs.pop(rt, &mut seat.jobs)?;
        seat.holds = Some(taken.number);
        Some(taken)
    }

    /// Hands in the result of the job that the seat holds. It comes back, and the seat still holds the job, where the
    /// queue of results was full.
    pub fn hand_in<R: Wait>(&self, rt: &R, seat: &mut Seat, done: FarmDone) -> Result<(), FarmDone>
        requires of { seat.old.badge.farm ≡ self.now.name }
        requires held { seat.old.held ≡ Some (entry_done done) }
        ensures ok { OnOk result
            (seat.new ≡ record seat.old { handed = seat.old.handed ++ entry_done done ∷ []; held = None }) }
        ensures back { IfErr result
            (λ back. (back ≡ done) × (seat.new ≡ seat.old) × Moment self.now.room (results_view seat.old)) }
    {
        self.results.push(rt, &mut seat.results, done)?;
        seat.holds = None;
        Ok(())
    }

    /// Collects a result, of whichever seat's job. There is none where the queue of results was empty.
    pub fn collect<R: Wait>(&self, rt: &R, seat: &mut Seat) -> Option<FarmDone>
        requires of { seat.old.badge.farm ≡ self.now.name }
        ensures some { IfSome result
            (λ f. seat.new ≡ record seat.old { collected = seat.old.collected ++ entry_done f ∷ [] }) }
        ensures pool { IfSome result (λ f. AllOf self.now.name.pool (refs_of (entry_done f).job)) }
        ensures none { IfNone result ((seat.new ≡ seat.old) × Moment 0 (results_view seat.old)) }
    {
        self.results.pop(rt, &mut seat.results)
    }

    /// Closes the farm, and gives back what is left in it. It takes its memory first, and for want of it, and for
    /// nothing else, gives all back as it was.
    pub fn close<R: Wait>(self, rt: &R, alloc: Global, seats: Vec<Seat>) -> Result<FarmEnd, FarmSet>
        requires { AreSeatsOf self.name seats.items }
        ensures ok { IfOk result (λ left. IsClosed seats.items left) }
        ensures back { IfErr result (λ set. (set.farm ≡ self) × (set.seats ≡ seats)) }
    {
        let room = self.jobs.room();
        let Ok(jobs) = Vec::with_capacity(alloc, room) else {
            return Err(FarmSet { farm: self, seats });
        };
        let Ok(done) = Vec::with_capacity(alloc, room) else {
            return Err(FarmSet { farm: self, seats });
        };
        Ok(self.empty(rt, seats, jobs, done))
    }

    /// Takes out all that is left.
    fn empty<R: Wait>(
        &self,
        rt: &R,
        seats: Vec<Seat>,
        mut jobs: Vec<FarmJob>,
        mut done: Vec<FarmDone>,
    ) -> FarmEnd
        requires all { AreSeatsOf self.now.name seats.items }
        requires empty { (jobs.items ≡ []) × (done.items ≡ []) }
        requires room { (self.now.room ≤ vec_capacity jobs) × (self.now.room ≤ vec_capacity done) }
        ensures { IsClosed seats.items result }
    {
        let (mut jobs_hand, mut results_hand) = self.gather(seats);
        self.jobs.drain(rt, &mut jobs_hand, &mut jobs);
        self.results.drain(rt, &mut results_hand, &mut done);
        FarmEnd { jobs, done }
    }

    /// Makes one pass of those of all seats.
    fn gather(&self, mut seats: Vec<Seat>) -> (Hand<FarmJob>, Hand<FarmDone>)
        requires { AreSeatsOf self.now.name seats.items }
        ensures tables { (result.0.table ≡ self.now.name.jobs) × (result.1.table ≡ self.now.name.results) }
        ensures jobs { result.0.knows
            ≡ view_knowing 128 self.now.name.pool (all_offered seats.items) (all_taken seats.items) }
        ensures results { result.1.knows
            ≡ view_knowing 128 self.now.name.pool (all_handed seats.items) (all_collected seats.items) }
        ensures once { (n : JobNumber) → times n (all_offered seats.items) ≤ 1 }
    {
        let (mut jobs, mut results) = seats.remove(0).into_hands();
        for seat in seats {
            let (more, done) = seat.into_hands();
            self.jobs.join(&mut jobs, more);
            self.results.join(&mut results, done);
        }
        (jobs, results)
    }
}
