//! What peers, worlds and histories are, and laws that hold of every one of them.
//!
//! The definitions stand in `specs/`: what a journal says of its AUs, its polls and its part in polls of others, the
//! verdict of a poll, what a peer adds and sends as a poller and as a voter, the state for which a journal stands and
//! what a peer in it adds and sends, the world after a history of events, what is due in it, and the entry of each
//! event. Each law is the contract of a function with no parameters and no body. [`Opening`] is the one type: what code
//! borrows of a poll's opening.
#![tactic(auto)]

mod borrowed;
mod laws;

pub use borrowed::Opening;
pub use laws::{
    every_circle_is_a_sample, every_event_asks_and_raises_its_own, every_event_has_its_entry,
    every_history_goes_on, every_history_is_safe, every_journal_fits, every_journal_is_its_batches,
    every_journal_is_its_peers_own, every_journal_is_written, every_peer_agrees_with_the_others,
    every_poll_keeps_its_state, every_replacement_has_evidence, every_replacement_restores,
    every_state_stands_for_its_journal, every_tally_has_its_quorum,
    every_turn_is_of_a_running_poll, rules_can_be_broken, whatever_is_added_fits,
    whatever_is_added_stands, whatever_is_due_may_happen,
};
