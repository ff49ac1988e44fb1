//! The gates of a journal.

/// Before a whole frame.
pub const OPEN: u8 = 0xa5;

/// Behind the last one.
pub const CLOSED: u8 = 0;
