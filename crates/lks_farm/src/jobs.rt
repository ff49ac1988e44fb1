//! Jobs and results under their numbers.

use lks_work::{Job, JobDone};

/// The number of a job: the seat by way of which it was offered, and how many were offered so before it.
#[derive(Clone, Copy, Debug, PartialEq, Eq)]
pub struct JobNumber {
    pub seat: u16,
    pub count: u32,
}

/// A job on its way to a thread that hashes it.
#[derive(Drop)]
pub struct FarmJob {
    pub number: JobNumber,
    pub job: Job,
}

/// The result of the job that has this number, on its way back.
#[derive(Drop)]
pub struct FarmDone {
    pub number: JobNumber,
    pub done: JobDone,
}
