//! The versions of one copy of an archival unit (AU), and the sessions that pin them.
//!
//! A poll or a vote speaks of a copy as it was at one moment (Maniatis et al., ACM TOCS 23(1), 2005, votes block by
//! block), while a repair may replace a block of it at any time. So a replacement makes a new version that shares all
//! other blocks with the one before, and a session pins the version that it began with.
//!
//! ```rust
//! use lks_base::{OutOfMemory, PollName};
//! use lks_blocks::BlockRef;
//! use lks_versions::Versions;
//!
//! fn begin(versions: &mut Versions, poll: PollName) -> Result<Vec<BlockRef>, OutOfMemory>
//!     requires { IsNone (pin_of poll versions.old.pins) }
//! {
//!     let version = versions.pin(poll)?;
//!     versions.refs(version)
//! }
//! ```
//!
//! Its trials: `lks_rule_trials`, `versions`.
#![tactic(auto)]

mod newest;
mod places;
mod versions;

pub use newest::Newest;
pub use places::{Place, tag_at};
pub use versions::{PinTag, Versions};
