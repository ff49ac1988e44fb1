//! What a run of jobs is held up by, and what is told of it.

use crate::jobs::JobName;
use lks_base::Entry;

/// Stands before each job and behind each entry of a history that is made meanwhile.
pub trait Gate: Sync {
    /// Is called before this job is hashed. It may wait.
    fn begin(&self, job: &JobName);

    /// Is called after this entry was kept, by the thread that kept it and outside of any lock.
    fn told(&self, entry: &Entry);
}

/// A gate that waits for nothing.
#[derive(Clone, Copy)]
pub struct FreeGate;

impl Gate for FreeGate {
    fn begin(&self, _job: &JobName) {}

    fn told(&self, _entry: &Entry) {}
}
