//! Who watches a world of peers from outside: a judge, who says of each proof of effort whether it is accepted, and
//! bells, which ring for alarms (Maniatis et al., ACM TOCS 23(1), 2005, section 4).
//!
//! What the judge is asked is a matter of who asks (`lks_inbox`); the alarms are those that the notes of an event tell
//! of.
#![tactic(auto)]

mod alarms;
mod watches;

pub use watches::Watch;
