//! Jobs of a batch that several threads take from one pile, and their results in the order of the jobs.

ghost use Rattle.std.specs.Prelude.{◌≡◌, ◌-◌, IfOk, IfSome, None, Some, map, slice_get};
ghost use Rattle.lks_farm.specs.Batches.{asked_done};
ghost use Rattle.lks_farm.specs.Entries.{asked_of};

use lks_base::OutOfMemory;
use lks_work::{Job, JobDone};
use std::alloc::Global;
use std::marker::{Brand, Model, PhantomData};

/// What the jobs of a batch ask for, in their order. Each batch picks it.
pub trait Batch {
    ghost use Rattle.std.specs.Prelude.{List};
    ghost use Rattle.lks_farm.specs.declared.entries.Asked.{Asked};

    ghost asked: { List Asked };
}

impl Batch for Brand {
    ghost use Rattle.std.specs.Prelude.{[]};

    ghost asked = { [] };
}

/// The jobs of a batch that no thread took yet, and a place for the result of each job. Contracts see how many jobs are
/// left.
#[derive(Drop)]
pub struct Pile<N: Batch> {
    jobs: Vec<Job>,
    done: Vec<Option<JobDone>>,
    of: PhantomData<N>,
}

impl<N: Batch> Model for Pile<N> {
    ghost use Rattle.std.specs.Prelude.{ℕ, length};
    ghost use Rattle.lks_farm.specs.Piles.{IsPile};

    ghost Value = { ℕ };

    ghost view = { λ p. length p.jobs.items };

    ghost invariant = { λ p. IsPile N.asked p.jobs.items p.done.items };
}

impl<N: Batch> Pile<N> {
    /// A pile of these jobs.
    pub fn new(alloc: Global, jobs: Vec<Job>) -> Result<Pile<N>, OutOfMemory>
        requires { map asked_of jobs.items ≡ N.asked }
    {
        let mut done = Vec::new(alloc);
        for _place in 0..jobs.len() {
            done.push(None)?;
        }
        Ok(Pile {
            jobs,
            done,
            of: PhantomData,
        })
    }

    /// How many jobs are left.
    pub fn left(&self) -> usize
        ensures { result ≡ self.now }
    {
        self.jobs.len()
    }

    /// The last job that is left, and its place.
    pub fn take(&mut self) -> Option<(usize, Job)>
        ensures left { self.new ≡ self.old - 1 }
        ensures none { result ≡ None → self.old ≡ 0 }
        ensures job { IfSome result (λ r. slice_get N.asked r.0 ≡ Some (asked_of r.1)) }
    {
        let job = self.jobs.pop()?;
        Some((self.jobs.len(), job))
    }

    /// Puts the result of the job of this place there.
    pub fn put(&mut self, place: usize, done: JobDone)
        requires { slice_get N.asked place ≡ Some (asked_done done) }
        ensures { self.new ≡ self.old }
    {
        self.done[place] = Some(done);
    }

    /// The results of all jobs, of which none is left. One that isn't there was refused memory.
    pub fn into_results(self, alloc: Global) -> Result<Vec<JobDone>, OutOfMemory>
        requires { self ≡ 0 }
        ensures { IfOk result (λ all. map asked_done all.items ≡ N.asked) }
    {
        let Pile { done, .. } = self;
        let mut all = Vec::new(alloc);
        for place in done {
            let Some(done) = place else {
                return Err(OutOfMemory);
            };
            all.push(done)?;
        }
        Ok(all)
    }
}
