//! What became of a host whose power failed.

use lks_base::{Reaction, Record, Seq};

/// What a recovery read: how many batches there are, and the records of the last one.
#[derive(Drop)]
pub struct Recovered {
    pub count: u64,
    pub last: Seq<Record>,
}

/// What became of a step while the power failed.
#[derive(Drop)]
pub enum AfterCut {
    /// It was over before.
    Whole(Reaction),
    /// Its records are in the journal, and nothing was sent.
    Kept(Seq<Record>),
    /// Nothing of it is there, and nothing was sent.
    Lost,
}
