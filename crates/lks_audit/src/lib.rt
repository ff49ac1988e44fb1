//! The audits of a peer: the copies that it holds, its polls that run on them, and what each poll makes it add to its
//! journal and send (Maniatis et al., ACM TOCS 23(1), 2005).
//!
//! A row, as [`voting::vote`], says what the rules add and send, and changes nothing that is seen. A call of [`Copies`]
//! or [`Polls`] notes what one record says. Both are stated over the state of a peer (`State` in `lks_law`), whose
//! copies and polls these are.
#![tactic(auto)]

mod audits;
mod copies;
pub mod letters;
mod lists;
mod openings;
mod polls;
pub mod reactions;
pub mod reminders;
mod samples;
mod stations;
pub mod tallies;
mod tallying;
pub mod voting;

pub use audits::check_aus;
pub use copies::{Copies, Held, count_held, find_copy, refer, version_of};
pub use openings::begin;
pub use polls::{Polls, find_poll};
pub use samples::sample_inner;
pub use stations::Station;
pub use tallying::tag_ready;
