//! Seats, each for one thread.

ghost use Rattle.std.specs.Prelude.{◌≡◌, ◌<◌, [], length};
ghost use Rattle.lks_farm.specs.Seats.{AreCounted, fresh, jobs_view, number_held, results_view};
ghost use Rattle.lks_farm.specs.Sharing.{view_knowing};

use crate::jobs::{FarmDone, FarmJob, JobNumber};
use crate::queues::Hand;
use std::marker::Model;

/// A seat of a farm: the right of one thread to offer, take, hand in and collect. Contracts see with it all that was
/// done by way of it. The program keeps its number, the count of its offers and the number of the job that it holds.
#[derive(Drop)]
pub struct Seat {
    pub(crate) number: u16,
    pub(crate) offers: u32,
    pub(crate) holds: Option<JobNumber>,
    pub(crate) jobs: Hand<FarmJob>,
    pub(crate) results: Hand<FarmDone>,
}

impl Model for Seat {
    ghost use Rattle.lks_farm.specs.Seats.{Keeps, SeatSeen, seat_seen};

    ghost Value = { SeatSeen };

    ghost view = { λ s. seat_seen s.number s.jobs s.results };

    ghost invariant = { λ s. Keeps s.number s.offers s.holds s.jobs.knows s.results.knows };
}

impl Seat {
    /// The seat with these passes, with which nothing was done yet.
    pub(crate) fn new(number: u16, jobs: Hand<FarmJob>, results: Hand<FarmDone>) -> Seat
        requires part { 0 < jobs.knows.parts }
        requires jobs { jobs.knows ≡ view_knowing jobs.knows.parts jobs.knows.pool [] [] }
        requires results { results.knows ≡ jobs.knows }
        ensures { result
            ≡ fresh (record { jobs = jobs.table; results = results.table; pool = jobs.knows.pool }) number
            jobs.knows.parts }
    {
        Seat {
            number,
            offers: 0,
            holds: None,
            jobs,
            results,
        }
    }

    /// The passes of the seat.
    #[tactic(auto, using(crate::proofs::Holding::counted_is, crate::proofs::Holding::jobs_view_is, crate::proofs::Holding::results_view_is))]
    pub(crate) fn into_hands(self) -> (Hand<FarmJob>, Hand<FarmDone>)
        ensures tables { (result.0.table ≡ self.badge.farm.jobs) × (result.1.table ≡ self.badge.farm.results) }
        ensures jobs { result.0.knows ≡ jobs_view self }
        ensures results { result.1.knows ≡ results_view self }
        ensures counted { AreCounted self.badge.number 0 self.offered }
        ensures part { 0 < self.badge.parts }
    {
        let Seat {
            number: _number,
            offers: _offers,
            holds: _holds,
            jobs,
            results,
        } = self;
        (jobs, results)
    }

    /// The number of the job that was taken by way of this seat and not yet handed in.
    pub fn holds(&self) -> Option<JobNumber>
        ensures { result ≡ number_held self.now }
    {
        self.holds
    }

    /// How many jobs were offered by way of this seat.
    pub fn offers(&self) -> u32
        ensures { result ≡ length self.now.offered }
    {
        self.offers
    }
}
