//! What was read.

use lks_base::Plan;
use lks_evidence::Shelf;

/// A plan, and journals of some of its honest peers.
#[derive(Drop)]
pub struct Gathered {
    pub plan: Plan,
    pub set: Vec<Shelf>,
}
