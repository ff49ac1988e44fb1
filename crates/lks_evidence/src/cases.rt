//! Whose journal is examined, and in which set.

use crate::findings::Shelf;
use lks_base::{PeerId, Plan};

/// A poller whose repairs are examined: the plan, the set of journals that may bear them out, and its number.
#[derive(Drop)]
pub struct Case<'a> {
    pub plan: &'a Plan,
    pub set: &'a [Shelf],
    pub poller: PeerId,
}
