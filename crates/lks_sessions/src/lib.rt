//! The polls of others in which a peer takes part (Maniatis et al., ACM TOCS 23(1), 2005), and whom it lets in (Giuli
//! et al., USENIX Annual Technical Conference 2005).
//!
//! A row, as [`answer_invitation`], says what the rules add and send, and changes nothing. A call of [`Sessions`], as
//! [`Sessions::join`], notes what one record says. Both are stated over a voter (`Voter` in `lks_law`), whose sessions
//! these are. A session that is committed keeps the references to the blocks of its version.
//!
//! Its trials: `lks_run_trials`, `sessions`.
#![tactic(auto)]

mod draws;
mod invitations;
mod jobs;
mod marks;
mod moves;
mod repairs;
mod sessions;
mod stages;
mod votes;

pub use invitations::answer_invitation;
pub use jobs::{accept, job, tag_waiting};
pub use repairs::{answer_request, end};
pub use sessions::Sessions;
pub use votes::{Proof, answer_proof, work};
