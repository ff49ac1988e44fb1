//! What stands outside of peers: sources and sinks of bytes, judges of proofs of effort, and the bells that ring for
//! alarms.
//!
//! **Streams.** A fault is answered only where the count of its source or sink rose. A source or sink that tells its
//! bytes has exact contracts; one over a file or a terminal tells nothing, and is trusted.
//!
//! **Judges.** A peer shows work before its poll, or its vote in one, counts (Maniatis et al., ACM TOCS 23(1), 2005,
//! section 4). A judge stands in for the check of a real proof. Its verdict is a function of the questions that it
//! heard before and of the one that it is asked. It hears at most as many questions as a history has events, and has
//! the room for them from the start.
//!
//! ```rust
//! use lks_base::OutOfMemory;
//! use lks_outside::{EffortJudge, FirstByteJudge, Question};
//! use std::alloc::Global;
//!
//! fn first_verdict(alloc: Global, question: Question) -> Result<bool, OutOfMemory> {
//!     let mut judge = FirstByteJudge::new(alloc)?;
//!     Ok(judge.judge(question))
//! }
//! ```
//!
//! **Alarms.** A peer raises an alarm where a poll has no landslide at a block (section 4 again), where no peer is left
//! to ask for a damaged block, or where an archival unit has gone too long without a poll that agreed. An operator
//! hangs bells at a desk. Each rings for every alarm until it has rung for as many as it wants, and is then dropped.
//!
//! ```rust
//! use lks_outside::{Alarm, AlarmDesk, Bell};
//!
//! fn tell<B: Bell>(desk: &mut AlarmDesk<B>, bell: B, alarm: &Alarm) -> Result<(), B> {
//!     desk.attach(bell)?;
//!     desk.raise(alarm);
//!     Ok(())
//! }
//! ```
//!
//! Its trials: `lks_format_trials`, `outside`.
#![tactic(auto)]

mod alarms;
mod bells;
mod boxed_bell;
mod boxed_judge;
mod desks;
mod first_byte;
mod judges;
mod listed_bell;
mod listed_judge;
mod memory;
mod questions;
mod sinks;
mod sources;
mod standard;

pub use alarms::{Alarm, AlarmKind};
pub use bells::Bell;
pub use desks::AlarmDesk;
pub use first_byte::{FirstByteJudge, begins_with_one};
pub use judges::EffortJudge;
pub use listed_bell::ListBell;
pub use listed_judge::ListJudge;
pub use memory::{MemSink, MemSource};
pub use questions::Question;
pub use sinks::{Sink, SinkStop, WriteStop, write_all};
pub use sources::{Failed, ReadStop, Source, read_all};
pub use standard::{StdSink, StdSource};
